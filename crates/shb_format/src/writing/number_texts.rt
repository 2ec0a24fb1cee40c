//! The texts of the numbers of events, made once.
ghost use Rattle.std.specs.Prelude.{◌≡◌, ◌+◌, ◌<◌, ◌≤◌, ◌++◌, length, MatchOption, OnOk, IfOk};
ghost use Rattle.std.specs.List.{slice_range};
ghost use Rattle.shb_positions.specs.Runs.{EndsInRange, run_positions};
ghost use Rattle.shb_lines.specs.text.Limits.{most_events};
ghost use Rattle.shb_format.specs.Writing.{event_number, event_numbers};

use super::buffer::TextBuffer;
use shb_io::NoMemory;
use shb_positions::Run;
use std::alloc::Global;
use std::marker::Model;

/// The numbers of the first events of a trace as schedules show them, " 1 2 3" and so on in one
/// text: consecutive events of a schedule are a part of it. Contracts see it as how many they are.
#[derive(Drop)]
pub struct NumberTexts {
    text: Vec<u8>,
    /// Where the text of each number starts, and where the last ends.
    starts: Vec<u32>,
    count: u32,
}

impl Model for NumberTexts {
    ghost use Rattle.std.specs.Prelude.{ℕ};
    ghost use Rattle.shb_format.specs.Writing.{HasNumbers};

    ghost Value = { ℕ };

    ghost view = { λ t. t.count };

    ghost invariant = { λ t. HasNumbers t.count t.text.items t.starts.items };
}

impl NumberTexts {
    /// The texts of the numbers of the first `count` events, at most as many as a trace has.
    /// `NoMemory` where memory was refused: it takes up to 12 bytes a number.
    pub fn of_first(alloc: Global, count: u32) -> Result<NumberTexts, NoMemory>
        requires few { count ≤ most_events }
        ensures { IfOk result (λ texts. texts ≡ count) }
    {
        let mut number = TextBuffer::new();
        let mut text = Vec::with_capacity(alloc, 8 * count as usize)?;
        let mut starts = Vec::with_capacity(alloc, count as usize + 1)?;
        starts.push(0)?;
        for event in 0..count {
            push_event(&mut text, &mut number, event)?;
            starts.push(text.len() as u32)?;
        }
        Ok(NumberTexts {
            text,
            starts,
            count,
        })
    }

    /// The numbers of the events of a run, where they are all among these.
    pub(crate) fn text_of(&self, run: Run) -> Option<&[u8]>
        requires ends { EndsInRange run }
        ensures { MatchOption result (self.now < run.first + run.len) (λ text. text.now ≡ event_numbers (run_positions run)) }
    {
        let end = run.first + run.len;
        if end > self.count {
            return None;
        }
        let from = self.starts[run.first as usize] as usize;
        let to = self.starts[end as usize] as usize;
        Some(part(&self.text, from, to))
    }
}

/// The part of a text between two offsets.
fn part(text: &[u8], from: usize, to: usize) -> &[u8]
    requires rising { from ≤ to }
    requires within { to ≤ length text.now }
    ensures { result.now ≡ slice_range text.now from to }
{
    &text[from..to]
}

/// Adds the number of an event to a text. `number` is for the digits.
fn push_event(text: &mut Vec<u8>, number: &mut TextBuffer, event: u32) -> Result<(), NoMemory>
    ensures text { OnOk result (text.new.items ≡ text.old.items ++ event_number event) }
    ensures short { OnOk result (length text.new.items ≤ length text.old.items + 21) }
{
    number.clear();
    number.push_byte(b' ');
    number.push_number(u64::from(event) + 1);
    text.extend_from_slice(number.as_slice())?;
    Ok(())
}
