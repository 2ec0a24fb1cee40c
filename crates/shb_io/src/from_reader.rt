//! A source over any reader.
ghost use Rattle.std.specs.Prelude.{◌≡◌};

use crate::interruptions::TRIES;
use crate::traits::{Failed, Source};
use std::io::{ErrorKind, Read};

/// A source over a reader of `std`. It tells its bytes where the reader does; a file or a terminal doesn't.
///
/// A read that is interrupted is tried again, up to 1,000 times in a row, and then is a failure. Any other
/// error of the reader is a failure at once.
#[derive(Drop)]
pub struct FromRead<R> {
    reader: R,
    failures: u64,
    given: u64,
}

impl<R: Read> FromRead<R> {
    /// A source of what the reader gives from here on. No read has failed, and no byte was given.
    pub fn new(reader: R) -> FromRead<R>
        ensures tells { ⟦<FromRead<R> as Source>⟧.remaining result ≡ R.remaining reader }
        ensures fresh { ⟦<FromRead<R> as Source>⟧.failure_count result ≡ 0 }
        ensures unread { ⟦<FromRead<R> as Source>⟧.given_count result ≡ 0 }
    {
        FromRead {
            reader,
            failures: 0,
            given: 0,
        }
    }
}

impl<R: Read> Source for FromRead<R> {
    ghost remaining = { λ s. R.remaining s.reader };

    ghost failure_count = { λ s. s.failures };

    ghost given_count = { λ s. s.given };

    fn read(&mut self, buf: &mut [u8]) -> Result<usize, Failed> {
        for _try in 0..TRIES {
            match self.reader.read(buf) {
                Ok(count) => {
                    self.given = self.given.saturating_add(count as u64);
                    return Ok(count);
                }
                Err(error) if error.kind() == ErrorKind::Interrupted => {}
                Err(_) => break,
            }
        }
        self.failures += 1;
        Err(Failed)
    }

    fn failures(&self) -> u64 {
        self.failures
    }
}
