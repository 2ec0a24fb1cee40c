//! A row, in place: the chunks that it may share with other rows, and the entries after them.

ghost use Rattle.std.specs.Prelude.{◌≡◌, ℕ, ◌+◌, ◌*◌, ◌<◌, ◌≤◌, ◌++◌, OnOk, IfOk, IfSome, [], drop, length, max, slice_index_or, take, true};
ghost use Rattle.shb_stamps.specs.Chunks.{IsLonger, IsRow, row_by};

use crate::clock::{entry, is_below, set_length};
use shb_io::NoMemory;
use std::marker::Model;

/// How many entries a chunk has.
pub const CHUNK: usize = 64;

/// A row, seen as the list of its entries.
#[derive(Drop)]
pub struct Row<'a> {
    chunks: &'a [[u32; 64]],
    /// The numbers of the chunks that it begins with.
    numbers: &'a [u32],
    /// The entries after those of the chunks.
    rest: &'a [u32],
}

impl<'a> Model for Row<'a> {
    ghost use Rattle.std.specs.Prelude.{List, ℕ};
    ghost use Rattle.shb_stamps.specs.Chunks.{IsRow, row_by};

    ghost Value = { List ℕ };

    ghost view = { λ r. row_by r.chunks.now r.numbers.now r.rest.now };

    ghost invariant = { λ r. IsRow r.chunks.now r.numbers.now };
}

/// The chunk of a number.
#[inline(always)]
pub fn chunk_at(chunks: &[[u32; 64]], number: u32) -> &[u32]
    requires { number < length chunks.now }
    ensures same { result.now ≡ slice_index_or chunks.now number [] }
    ensures long { length result.now ≡ 64 }
{
    &chunks[number as usize]
}

/// Raises the first entries of a clock to those of a piece.
#[inline(never)]
#[tactic(auto, using(crate::proofs::Raised::raised_more, crate::proofs::Raised::raised_whole))]
fn raise(clock: &mut [u32], piece: &[u32])
    requires { length piece.now ≤ length clock.old }
    ensures long { length clock.new ≡ length clock.old }
    ensures raised { (t : ℕ) → slice_index_or clock.new t 0 ≡ max (slice_index_or clock.old t 0) (slice_index_or piece.now t 0) }
{
    for t in 0..piece.len() {
        clock[t] = clock[t].max(piece[t]);
    }
}

/// Raises each entry of a clock to that of another.
#[inline(always)]
pub fn raise_to(clock: &mut Vec<u32>, entries: &[u32]) -> Result<(), NoMemory>
    ensures { OnOk result ((t : ℕ) → slice_index_or clock.new.items t 0 ≡ max (slice_index_or clock.old.items t 0) (slice_index_or entries.now t 0)) }
{
    let size = clock.len().max(entries.len());
    set_length(clock, size)?;
    raise(clock.as_mut_slice(), entries);
    Ok(())
}

/// Raises the entries of a clock from a start on to those of a piece.
fn raise_from(clock: &mut [u32], start: usize, piece: &[u32])
    requires { start + length piece.now ≤ length clock.old }
    ensures long { length clock.new ≡ length clock.old }
    ensures before { (t : ℕ) → t < start → slice_index_or clock.new t 0 ≡ slice_index_or clock.old t 0 }
    ensures raised { (t : ℕ) → slice_index_or clock.new (start + t) 0 ≡ max (slice_index_or clock.old (start + t) 0) (slice_index_or piece.now t 0) }
{
    raise(&mut clock[start..], piece);
}

impl<'a> Row<'a> {
    /// The row of these chunks and entries.
    #[inline(always)]
    pub fn new(chunks: &'a [[u32; 64]], numbers: &'a [u32], rest: &'a [u32]) -> Row<'a>
        requires { IsRow chunks.now numbers.now }
        ensures { result ≡ row_by chunks.now numbers.now rest.now }
    {
        Row {
            chunks,
            numbers,
            rest,
        }
    }

    /// The row of these entries.
    #[inline(always)]
    pub fn of(entries: &'a [u32]) -> Row<'a>
        ensures { result ≡ entries.now }
    {
        Row {
            chunks: &[],
            numbers: &[],
            rest: entries,
        }
    }

    /// The numbers of the chunks that it begins with.
    pub fn numbers(&self) -> &'a [u32] {
        self.numbers
    }

    /// Its entries, if it has no chunks.
    #[inline(always)]
    pub fn whole(&self) -> Option<&'a [u32]>
        ensures { IfSome result (λ entries. entries.now ≡ self.now) }
    {
        if self.numbers.len() == 0 {
            return Some(self.rest);
        }
        None
    }

    /// How many entries it has.
    #[inline(always)]
    pub fn len(&self) -> usize
        ensures { result ≡ length self.now }
    {
        self.numbers.len() * CHUNK + self.rest.len()
    }

    /// The entry of a thread, 0 where it has none.
    #[inline(always)]
    pub fn entry(&self, t: u32) -> u32
        ensures { result ≡ slice_index_or self.now t 0 }
    {
        let k = t as usize / CHUNK;
        if k < self.numbers.len() {
            return chunk_at(self.chunks, self.numbers[k])[t as usize % CHUNK];
        }
        entry(self.rest, t - (self.numbers.len() * CHUNK) as u32)
    }

    /// The entries of the piece k, as many as a chunk has but for the last piece.
    #[inline(always)]
    pub fn piece(&self, k: usize) -> &'a [u32]
        requires { 64 * k ≤ length self.now }
        ensures { result.now ≡ take 64 (drop (64 * k) self.now) }
    {
        if k < self.numbers.len() {
            return chunk_at(self.chunks, self.numbers[k]);
        }
        let start = (k - self.numbers.len()) * CHUNK;
        let end = self.rest.len().min(start + CHUNK);
        &self.rest[start..end]
    }

    /// How many pieces it has.
    #[inline(always)]
    fn pieces(&self) -> usize
        ensures all { length self.now < 64 * result }
        ensures each { (k : ℕ) → k < result → 64 * k ≤ length self.now }
    {
        self.len() / CHUNK + 1
    }

    /// Whether no entry is above that of another row, which has as many at least.
    pub fn is_below(&self, other: &Row<'_>) -> bool
        ensures { result ≡ true → (t : ℕ) → slice_index_or self.now t 0 ≤ slice_index_or other.now t 0 }
    {
        if self.len() > other.len() {
            return false;
        }
        for k in 0..self.pieces() {
            let below = is_below(self.piece(k), other.piece(k));
            if !below {
                return false;
            }
        }
        true
    }

    /// Adds its entries to others.
    #[inline(always)]
    pub fn append_to(&self, entries: &mut Vec<u32>) -> Result<(), NoMemory>
        ensures longer { IsLonger entries.old.items entries.new.items }
        ensures row { OnOk result (entries.new.items ≡ entries.old.items ++ self.now) }
    {
        if let Some(whole) = self.whole() {
            entries.extend_from_slice(whole)?;
            return Ok(());
        }
        for k in 0..self.pieces() {
            entries.extend_from_slice(self.piece(k))?;
        }
        Ok(())
    }

    /// Makes a clock the row.
    pub fn copy_to(&self, clock: &mut Vec<u32>) -> Result<(), NoMemory>
        ensures { OnOk result (clock.new.items ≡ self.now) }
    {
        clock.clear();
        self.append_to(clock)
    }

    /// Raises each entry of a clock to that of the row.
    pub fn raise(&self, clock: &mut Vec<u32>) -> Result<(), NoMemory>
        ensures { OnOk result ((t : ℕ) → slice_index_or clock.new.items t 0 ≡ max (slice_index_or clock.old.items t 0) (slice_index_or self.now t 0)) }
    {
        let size = clock.len().max(self.len());
        set_length(clock, size)?;
        self.raise_first(clock.as_mut_slice());
        Ok(())
    }

    /// Raises the first entries of a clock to those of the row.
    fn raise_first(&self, clock: &mut [u32])
        requires { length self.now ≤ length clock.old }
        ensures { (t : ℕ) → slice_index_or clock.new t 0 ≡ max (slice_index_or clock.old t 0) (slice_index_or self.now t 0) }
    {
        for k in 0..self.pieces() {
            raise_from(clock, k * CHUNK, self.piece(k));
        }
    }
}
