//! Reads the bytes of a source.
ghost use Rattle.std.specs.Prelude.{◌+◌, ◌-◌, ◌^◌, ◌<◌, ◌≤◌, vec_len, IfOk};
ghost use Rattle.std.specs.Io.KnownBytes.{Consumes, IsAtEnd};
ghost use Rattle.shb_io.specs.Devices.{CountsFailure};
ghost use Rattle.shb_lines.specs.text.Limits.{most_bytes};
ghost use Rattle.shb_lines.specs.text.Taking.{HasGiven, TakesAtMost, read_failed};

use crate::read::ReadError;
use shb_io::{NoMemory, Source};
use std::alloc::Global;

/// How many bytes are read at once: few reads, and no more memory than the text soon takes itself.
const READ_SIZE: usize = 1 << 16;

/// Reads the source to its end, or to one byte more than the limit.
pub fn read_whole<S: Source>(
    alloc: Global,
    source: &mut S,
    limit: u64,
) -> Result<Vec<u8>, ReadError>
    requires standard { limit ≤ most_bytes }
    requires countable { S.failure_count source.old < 2 ^ 64 - 1 }
    ensures ok { IfOk result (λ text. (vec_len text ≤ limit + 1)
        × Consumes (S.remaining source.old) (S.remaining source.new) text.items
        × (vec_len text ≤ limit → IsAtEnd (S.remaining source.new))) }
    ensures taken { TakesAtMost (limit + 1) (S.remaining source.old) (S.remaining source.new) }
    ensures given { S.given_count source.new ≤ S.given_count source.old + (limit + 1) }
    ensures given_ok { IfOk result (λ text. HasGiven (S.given_count source.old) (S.given_count source.new) (vec_len text)) }
    ensures counted { CountsFailure read_failed (S.failure_count source.old) (S.failure_count source.new) result }
{
    let most = limit as usize + 1;
    let mut text = Vec::new(alloc);
    let mut filled = 0;
    while filled < most {
        if let Err(refused) = text.resize(most.min(filled + READ_SIZE), 0) {
            return Err(ReadError::Memory(NoMemory::from(refused)));
        }
        let Ok(count) = source.read(&mut text[filled..]) else {
            return Err(ReadError::Source);
        };
        if count == 0 {
            break;
        }
        filled += count;
    }
    text.truncate(filled);
    Ok(text)
}
