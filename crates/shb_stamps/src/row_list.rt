//! Rows of any length in one memory, which never change.
//!
//! Of two rows of 1,100 entries that differ in the entry 200 the second one has one chunk of its own:
//!
//! | Row | Numbers of chunks | Rest |
//! |---|---|---|
//! | 0 | 0 to 16 | entries 1,088 to 1,099 |
//! | 1 | 0, 1, 2, 17, 4 to 16 | entries 1,088 to 1,099 |
//!
//! Whoever adds a row says which one it may share chunks with; the chunks at the same place are compared. A compaction
//! shares what was shared before.

ghost use Rattle.std.specs.Prelude.{◌≡◌, ◌+◌, ◌-◌, ◌*◌, ◌/◌, ◌≤◌, ◌<◌, ◌++◌, ◌^◌, List, [], ◌∷◌, ℕ, IfOk, IfSome, OnOk, length, max, min, slice_index_or, true};
ghost use Rattle.shb_stamps.specs.Chunks.{AreChunks, IsInside, IsLonger, row_in};

use crate::clock::{is_below, set_length};
use crate::row::{CHUNK, Row, chunk_at, raise_to};
use shb_io::NoMemory;
use shb_lines::{item_or, put};
use std::alloc::Global;
use std::marker::Model;

/// Up to so many entries a row has no chunks: to find an entry costs least so.
const WHOLE: usize = 512;

/// Up to so many it has none unless one entry differs, as far as is known, from the row that it is like: where many do,
/// no chunk would be another row's.
const WHOLE_UNLIKE: usize = 1024;

/// Where the cells of a row are in the memory of all. Either it is whole and has so many entries, or it begins with so
/// many chunks, whose numbers come first, and has so many entries after those. The rows before it have the cells before
/// its own, and the first chunks.
#[derive(Clone, Copy, Drop)]
struct Span {
    first: usize,
    start: usize,
    whole: usize,
    chunks: usize,
    rest: usize,
}

/// Rows one after the other in one memory, seen as the list of their entries. A row of more than 512
/// entries may begin with chunks of 64, and names those that another row has as well.
#[derive(Drop)]
pub struct RowList {
    spans: Vec<Span>,
    cells: Vec<u32>,
    chunks: Vec<[u32; 64]>,
    /// The numbers of the chunks that the next row may have.
    hints: Vec<u32>,
}

/// The row whose cells are there.
#[inline(always)]
fn row_of<'a>(chunks: &'a [[u32; 64]], cells: &'a [u32], span: Span) -> Row<'a>
    requires chunks { AreChunks chunks.now }
    requires inside { IsInside chunks.now cells.now span }
    ensures { result ≡ row_in chunks.now cells.now span }
{
    let middle = span.start + span.chunks;
    Row::new(
        chunks,
        &cells[span.start..middle],
        &cells[middle..middle + span.whole + span.rest],
    )
}

/// The entry of a thread in the row whose cells are there.
#[inline(always)]
fn entry_of(chunks: &[[u32; 64]], cells: &[u32], span: &Span, t: u32) -> u32
    requires chunks { AreChunks chunks.now }
    requires inside { IsInside chunks.now cells.now span.now }
    ensures { result ≡ slice_index_or (row_in chunks.now cells.now span.now) t 0 }
{
    row_of(chunks, cells, *span).entry(t)
}

/// Whether two chunks are equal.
fn is_same(chunk: &[u32], other: &[u32]) -> bool
    requires { (length chunk.now ≡ 64) × (length other.now ≡ 64) }
    ensures { result ≡ true → chunk.now ≡ other.now }
{
    let mut same = true;
    for t in 0..CHUNK {
        same &= chunk[t] == other[t];
    }
    same
}

/// Whether the chunk of a number has these entries.
#[inline(always)]
fn is_hint(chunks: &[[u32; 64]], number: u32, piece: &[u32]) -> bool
    requires { length piece.now ≡ 64 }
    ensures { result ≡ true → (number < length chunks.now) × (slice_index_or chunks.now number [] ≡ piece.now) }
{
    if number as usize >= chunks.len() {
        return false;
    }
    is_same(chunk_at(chunks, number), piece)
}

/// The number of a chunk with these entries: the hint where it is one, or that of a new one.
fn shared(chunks: &mut Vec<[u32; 64]>, hint: u32, piece: &[u32]) -> Result<u32, NoMemory>
    requires chunks { AreChunks chunks.old.items }
    requires long { length piece.now ≡ 64 }
    requires few { length chunks.old.items < 2 ^ 32 }
    ensures chunks { AreChunks chunks.new.items }
    ensures few { length chunks.new.items ≤ length chunks.old.items + 1 }
    ensures longer { IsLonger chunks.old.items chunks.new.items }
    ensures number { IfOk result (λ number. (number < length chunks.new.items) × (slice_index_or chunks.new.items number [] ≡ piece.now)) }
{
    let same = is_hint(chunks.as_slice(), hint, piece);
    if same {
        return Ok(hint);
    }
    let number = chunks.len() as u32;
    let mut chunk = [0; 64];
    chunk.copy_from_slice(piece);
    chunks.push(chunk)?;
    Ok(number)
}

/// Adds the cells of a row as a whole. There are so many chunks.
#[inline(always)]
fn add_whole(cells: &mut Vec<u32>, first: usize, row: &Row<'_>) -> Result<Span, NoMemory>
    ensures place { IfOk result (λ span. (span.start ≡ length cells.old.items) × (span.first ≡ first)) }
    ensures longer { IsLonger cells.old.items cells.new.items }
    ensures inside { (chunks : List (List ℕ)) → IfOk result (IsInside chunks cells.new.items) }
    ensures row { (chunks : List (List ℕ)) → IfOk result (λ span. row_in chunks cells.new.items span ≡ row.now) }
{
    let start = cells.len();
    row.append_to(cells)?;
    Ok(Span {
        first,
        start,
        whole: row.len(),
        chunks: 0,
        rest: 0,
    })
}

/// Adds the cells of a row. Where there are no numbers for its chunks it has none.
fn add_cells(
    cells: &mut Vec<u32>,
    chunks: &mut Vec<[u32; 64]>,
    hints: &[u32],
    row: &Row<'_>,
) -> Result<Span, NoMemory>
    requires { AreChunks chunks.old.items }
    ensures place { IfOk result (λ span. (span.start ≡ length cells.old.items) × (span.first ≡ length chunks.old.items)) }
    ensures chunks { AreChunks chunks.new.items }
    ensures longer { IsLonger chunks.old.items chunks.new.items × IsLonger cells.old.items cells.new.items }
    ensures inside { IfOk result (IsInside chunks.new.items cells.new.items) }
    ensures row { IfOk result (λ span. row_in chunks.new.items cells.new.items span ≡ row.now) }
{
    let start = cells.len();
    let first = chunks.len();
    let count = row.len().saturating_sub(1) / CHUNK;
    if row.len() <= CHUNK {
        return add_whole(cells, first, row);
    }
    let numbers = first.saturating_add(count);
    if numbers > u32::MAX as usize {
        return add_whole(cells, first, row);
    }
    for k in 0..count {
        let hint = item_or(hints, k as u32, u32::MAX);
        let chunk = shared(chunks, hint, row.piece(k))?;
        cells.push(chunk)?;
    }
    let rest = row.piece(count);
    cells.extend_from_slice(rest)?;
    Ok(Span {
        first,
        start,
        whole: 0,
        chunks: count,
        rest: rest.len(),
    })
}

/// Half as many again.
fn half_more(count: usize) -> usize
    ensures { result ≡ min (count + count / 2) (2 ^ 64 - 1) }
{
    count.saturating_add(count / 2)
}

/// Adds for each of these chunks the number of its copy, where it has one.
fn add_copies(hints: &mut Vec<u32>, numbers: &[u32], copies: &[u32]) -> Result<(), NoMemory> {
    for k in 0..numbers.len() {
        hints.push(item_or(copies, numbers[k], u32::MAX))?;
    }
    Ok(())
}

impl Model for RowList {
    ghost use Rattle.shb_stamps.specs.Chunks.{AreChunks, AreInside, AreRising, Rows, stored};

    ghost Value = { Rows };

    ghost view = { λ r. stored r.chunks.items r.cells.items r.spans.items };

    ghost invariant = { λ r. AreChunks r.chunks.items × AreInside r.chunks.items r.cells.items r.spans.items × AreRising r.cells.items r.spans.items };
}

impl RowList {
    /// No rows.
    pub fn empty(alloc: Global) -> RowList
        ensures { result.list ≡ [] }
    {
        RowList {
            spans: Vec::new(alloc),
            cells: Vec::new(alloc),
            chunks: Vec::new(alloc),
            hints: Vec::new(alloc),
        }
    }

    /// One row, which has no entry.
    pub fn new(alloc: Global) -> Result<RowList, NoMemory>
        ensures { IfOk result (λ rows. rows.list ≡ [] ∷ []) }
    {
        let mut rows = RowList::empty(alloc);
        rows.push(&[], 0, false)?;
        Ok(rows)
    }

    /// How many rows there are.
    pub fn count(&self) -> u32
        ensures { length self.now.list < 2 ^ 32 → result ≡ length self.now.list }
    {
        self.spans.len().min(u32::MAX as usize) as u32
    }

    /// How many bytes the rows take.
    #[inline(always)]
    pub fn size(&self) -> usize
        ensures { result ≡ self.now.size }
    {
        let short = self
            .spans
            .len()
            .saturating_mul(40)
            .saturating_add(self.cells.len().saturating_mul(4));
        short.saturating_add(self.chunks.len().saturating_mul(256))
    }

    /// The row of a number that there is.
    #[inline(always)]
    pub fn row_at(&self, number: u32) -> Row<'_>
        requires { number < length self.now.list }
        ensures { result ≡ slice_index_or self.now.list number [] }
    {
        row_of(
            self.chunks.as_slice(),
            self.cells.as_slice(),
            self.spans[number as usize],
        )
    }

    /// The row of a number, and no entries past the end.
    #[inline(always)]
    pub fn row(&self, number: u32) -> Row<'_>
        ensures { result ≡ slice_index_or self.now.list number [] }
    {
        if number as usize >= self.spans.len() {
            return Row::of(&[]);
        }
        self.row_at(number)
    }

    /// The entries of a row, if it has no chunks.
    #[inline(always)]
    fn whole(&self, number: u32) -> Option<&[u32]>
        ensures { IfSome result (λ entries. entries.now ≡ slice_index_or self.now.list number []) }
    {
        self.row(number).whole()
    }

    /// The entry of a thread in the row of a number that there is, 0 where it has none.
    #[inline(always)]
    pub fn entry_at(&self, number: u32, t: u32) -> u32
        requires { number < length self.now.list }
        ensures { result ≡ slice_index_or (slice_index_or self.now.list number []) t 0 }
    {
        let span = &self.spans[number as usize];
        if (t as usize) < span.whole {
            return self.cells[span.start + t as usize];
        }
        if self.chunks.len() == 0 {
            return 0;
        }
        entry_of(self.chunks.as_slice(), self.cells.as_slice(), span, t)
    }

    /// The entry of a thread in a row, 0 where it has none.
    #[inline(always)]
    pub fn entry(&self, number: u32, t: u32) -> u32
        ensures { result ≡ slice_index_or (slice_index_or self.now.list number []) t 0 }
    {
        if number as usize >= self.spans.len() {
            return 0;
        }
        self.entry_at(number, t)
    }

    /// Whether no entry of a row is above that of another one, which has as many at least.
    #[inline(always)]
    pub fn is_below(&self, number: u32, other: u32) -> bool
        ensures { result ≡ true → (t : ℕ) → slice_index_or (slice_index_or self.now.list number []) t 0 ≤ slice_index_or (slice_index_or self.now.list other []) t 0 }
    {
        if let Some(entries) = self.whole(number) {
            if let Some(others) = self.whole(other) {
                return is_below(entries, others);
            }
        }
        self.row(number).is_below(&self.row(other))
    }

    /// Whether no entry of a row is above that of a clock, which has as many at least.
    #[inline(always)]
    pub fn is_within(&self, number: u32, clock: &[u32]) -> bool
        ensures { result ≡ true → (t : ℕ) → slice_index_or (slice_index_or self.now.list number []) t 0 ≤ slice_index_or clock.now t 0 }
    {
        self.row(number).is_below(&Row::of(clock))
    }

    /// Whether there is a row of this number, with the same entries as one of other rows.
    pub fn is_copy(&self, number: u32, rows: &RowList, other: u32) -> bool
        ensures in_range { result ≡ true → number < length self.now.list }
        ensures same { result ≡ true → (t : ℕ) → slice_index_or (slice_index_or self.now.list number []) t 0 ≡ slice_index_or (slice_index_or rows.now.list other []) t 0 }
    {
        if number as usize >= self.spans.len() {
            return false;
        }
        let copy = self.row_at(number);
        let row = rows.row(other);
        let below = copy.is_below(&row);
        if !below {
            return false;
        }
        row.is_below(&copy)
    }

    /// Makes a clock the row of a number.
    #[inline(always)]
    pub fn copy_to(&self, number: u32, clock: &mut Vec<u32>) -> Result<(), NoMemory>
        ensures { OnOk result (clock.new.items ≡ slice_index_or self.now.list number []) }
    {
        if let Some(entries) = self.whole(number) {
            set_length(clock, entries.len())?;
            clock.copy_from_slice(entries);
            return Ok(());
        }
        self.row(number).copy_to(clock)
    }

    /// Raises each entry of a clock to that of a row.
    #[inline(always)]
    pub fn raise(&self, number: u32, clock: &mut Vec<u32>) -> Result<(), NoMemory>
        ensures { OnOk result ((t : ℕ) → slice_index_or clock.new.items t 0 ≡ max (slice_index_or clock.old.items t 0) (slice_index_or (slice_index_or self.now.list number []) t 0)) }
    {
        if let Some(entries) = self.whole(number) {
            return raise_to(clock, entries);
        }
        self.row(number).raise(clock)
    }

    /// Adds a row as a whole, and gives its number.
    #[inline(always)]
    fn push_whole(&mut self, entries: &[u32]) -> Result<u32, NoMemory>
        ensures rows { OnOk result (self.new.list ≡ self.old.list ++ entries.now ∷ []) }
        ensures number { length self.old.list < 2 ^ 32 → IfOk result (λ number. number ≡ length self.old.list) }
    {
        let number = self.count();
        let first = self.chunks.len();
        let span = add_whole(&mut self.cells, first, &Row::of(entries))?;
        self.spans.push(span)?;
        Ok(number)
    }

    /// Adds a row, and gives its number. It has the chunks of the hints where they are equal.
    fn push_row(&mut self, row: &Row<'_>) -> Result<u32, NoMemory>
        ensures rows { OnOk result (self.new.list ≡ self.old.list ++ row.now ∷ []) }
        ensures number { length self.old.list < 2 ^ 32 → IfOk result (λ number. number ≡ length self.old.list) }
    {
        let number = self.count();
        let span = add_cells(
            &mut self.cells,
            &mut self.chunks,
            self.hints.as_slice(),
            row,
        )?;
        self.spans.push(span)?;
        Ok(number)
    }

    /// Takes the numbers of a row's chunks as hints for the next row.
    fn hint(&mut self, like: u32) -> Result<(), NoMemory>
        ensures { self.new ≡ self.old }
    {
        self.hints.clear();
        if like as usize >= self.spans.len() {
            return Ok(());
        }
        let span = self.spans[like as usize];
        if span.chunks > 0 {
            let middle = span.start + span.chunks;
            self.hints
                .extend_from_slice(&self.cells[span.start..middle])?;
        }
        Ok(())
    }

    /// Adds a row that may share chunks with another one, and gives its number.
    #[cold]
    #[inline(never)]
    fn push_like(&mut self, row: &Row<'_>, like: u32) -> Result<u32, NoMemory>
        ensures rows { OnOk result (self.new.list ≡ self.old.list ++ row.now ∷ []) }
        ensures number { length self.old.list < 2 ^ 32 → IfOk result (λ number. number ≡ length self.old.list) }
    {
        self.hint(like)?;
        self.push_row(row)
    }

    /// Adds a row of these entries, which may share chunks with another one, the more so if it is near, and gives its
    /// number. Numbers count from 0.
    #[inline(always)]
    pub fn push(&mut self, entries: &[u32], like: u32, near: bool) -> Result<u32, NoMemory>
        ensures rows { OnOk result (self.new.list ≡ self.old.list ++ entries.now ∷ []) }
        ensures number { length self.old.list < 2 ^ 32 → IfOk result (λ number. number ≡ length self.old.list) }
    {
        let most = if near { WHOLE } else { WHOLE_UNLIKE };
        if entries.len() > most {
            return self.push_like(&Row::of(entries), like);
        }
        self.push_whole(entries)
    }

    /// Adds a row of other rows, which may share chunks with one of these, and gives its number.
    pub fn push_from(&mut self, rows: &RowList, number: u32, like: u32) -> Result<u32, NoMemory>
        ensures rows { OnOk result (self.new.list ≡ self.old.list ++ slice_index_or rows.now.list number [] ∷ []) }
        ensures number { length self.old.list < 2 ^ 32 → IfOk result (λ number. number ≡ length self.old.list) }
    {
        if let Some(entries) = rows.whole(number) {
            return self.push(entries, like, false);
        }
        self.push_like(&rows.row(number), like)
    }

    /// Takes the copies of chunks as hints for the next row.
    fn hint_copies(&mut self, numbers: &[u32], copies: &[u32]) -> Result<(), NoMemory>
        ensures { self.new ≡ self.old }
    {
        self.hints.clear();
        add_copies(&mut self.hints, numbers, copies)
    }

    /// Notes for chunks which ones the last row has in their place.
    fn note_copies(&self, numbers: &[u32], copies: &mut Vec<u32>) -> Result<(), NoMemory> {
        let last = self.row(self.count().saturating_sub(1));
        let own = last.numbers();
        for k in 0..own.len().min(numbers.len()) {
            put(copies, numbers[k], own[k], u32::MAX)?;
        }
        Ok(())
    }

    /// No rows, with room at once for half as many again as other ones: memory that grows is moved, and takes as much
    /// again meanwhile.
    pub fn empty_for(alloc: Global, other: &RowList) -> Result<RowList, NoMemory>
        ensures { IfOk result (λ rows. rows.list ≡ []) }
    {
        Ok(RowList {
            spans: Vec::with_capacity(alloc, half_more(other.spans.len()))?,
            cells: Vec::with_capacity(alloc, half_more(other.cells.len()))?,
            chunks: Vec::with_capacity(alloc, half_more(other.chunks.len()))?,
            hints: Vec::new(alloc),
        })
    }

    /// Adds a row of other rows. It has the copies of its chunks, where they are noted, and those that are new are
    /// noted.
    #[inline(always)]
    pub fn keep(
        &mut self,
        rows: &RowList,
        number: u32,
        copies: &mut Vec<u32>,
    ) -> Result<(), NoMemory>
        ensures { OnOk result (self.new.list ≡ self.old.list ++ slice_index_or rows.now.list number [] ∷ []) }
    {
        if let Some(entries) = rows.whole(number) {
            self.push_whole(entries)?;
            return Ok(());
        }
        let row = rows.row(number);
        self.hint_copies(row.numbers(), copies.as_slice())?;
        self.push_row(&row)?;
        self.note_copies(row.numbers(), copies)
    }

    /// Frees the rows from a number on, and the memory that no other row needs.
    pub fn cut(&mut self, count: usize)
        ensures { (a : ℕ) → a < count → slice_index_or self.new.list a [] ≡ slice_index_or self.old.list a [] }
    {
        if count >= self.spans.len() {
            return;
        }
        let next = self.spans[count];
        self.spans.truncate(count);
        self.cells.truncate(next.start);
        self.chunks.truncate(next.first);
        self.spans.shrink_to_fit();
        self.cells.shrink_to_fit();
        self.chunks.shrink_to_fit();
    }
}
