//! The blocks of races as work in pieces, which workers make texts of.
ghost use Rattle.std.specs.Prelude.{◌≡◌, ◌+◌, ◌-◌, ◌^◌, ◌<◌, ℕ, List, All, IfOk, [], length, map, slice_index_or};
ghost use Rattle.shb_io.specs.Devices.{IsCounted};
ghost use Rattle.shb_lines.specs.events.Race.{ends};
ghost use Rattle.shb_format.specs.Places.{IsPairOf};
ghost use Rattle.shb_lists.specs.Listed.{pair_in};
ghost use Rattle.shb_write.specs.Blocks.{WritesFront};
ghost use Rattle.shb_write.specs.Texts.{HasText, piece_text, text_of};

use crate::block_writer::BlockWriter;
use crate::pieces::Piece;
use crate::text::Text;
use shb_fan::Job;
use shb_io::{Failed, NoMemory, Sink};
use shb_lines::{Pair, Trace};
use shb_lists::pairs_of;
use std::alloc::Global;
use std::collections::LinkedList;
use std::marker::Model;

/// Writes the blocks of some races, of which so many others come before, without schedules.
fn write_listed<K: Sink>(
    sink: &mut K,
    trace: &Trace,
    races: &[Pair],
    before: u64,
) -> Result<(), Failed>
    requires countable { K.failure_count sink.old < 2 ^ 64 - 1 }
    requires room { length races.now + before < 2 ^ 64 }
    requires in_range { All (IsPairOf trace.now) races.now }
    ensures blocks { WritesFront (K.taken sink.old) (K.taken sink.new) result (text_of trace.now before (map ends races.now)) }
    ensures counted { IsCounted (K.failure_count sink.old) (K.failure_count sink.new) result }
{
    let mut writer = BlockWriter {
        sink: &mut *sink,
        trace,
        written: before,
    };
    writer.list(races)
}

/// The blocks of a piece.
fn made_text(alloc: Global, trace: &Trace, piece: &Piece<'_>) -> Result<Vec<u8>, NoMemory>
    requires { HasText trace.now piece.now.before (map pair_in piece.now.races.now) }
    ensures { IfOk result (λ text. text.items ≡ piece_text trace.now piece.now) }
{
    let pairs = pairs_of(alloc, piece.races)?;
    let mut text = Text::new(alloc);
    match write_listed(&mut text, trace, &pairs, piece.before) {
        Ok(()) => Ok(text.into_bytes()),
        Err(_) => Err(text.refusal()),
    }
}

/// The making of texts. Clauses see it as the text of each piece.
#[derive(Drop)]
pub(crate) struct TextJob<'a> {
    trace: &'a Trace,
    pieces: &'a [Piece<'a>],
}

impl<'a> Model for TextJob<'a> {
    ghost Value = { List (List ℕ) };

    ghost view = { λ j. map (piece_text j.trace.now) j.pieces.now };

    ghost invariant = { λ j. All (λ piece. HasText j.trace.now piece.before (map pair_in piece.races.now)) j.pieces.now };
}

impl<'a> TextJob<'a> {
    /// The making of the texts of these pieces.
    pub(crate) fn new(trace: &'a Trace, pieces: &'a [Piece<'a>]) -> TextJob<'a>
        requires { All (λ piece. HasText trace.now piece.before (map pair_in piece.races.now)) pieces.now }
        ensures { result ≡ map (piece_text trace.now) pieces.now }
    {
        TextJob { trace, pieces }
    }
}

impl<'a> Job for TextJob<'a> {
    type Out = Vec<u8>;

    type Meaning = LinkedList<u8>;

    ghost meaning = { λ text. text.items };

    ghost value = { λ texts k. slice_index_or texts k [] };

    ghost count = { λ texts. length texts };

    fn pieces(&self) -> u64 {
        self.pieces.len() as u64
    }

    fn run(&self, alloc: Global, k: u64) -> Result<Vec<u8>, NoMemory> {
        made_text(alloc, self.trace, &self.pieces[k as usize])
    }
}
