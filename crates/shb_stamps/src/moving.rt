//! Compaction: the rows that tables name are moved to a new memory, the last ones first, and the old memory is freed
//! meanwhile. Then the tables name each by its new number.

ghost use Rattle.std.specs.Prelude.{◌≡◌, ℕ, ◌-◌, ◌<◌, ◌^◌, OnOk, length, slice_index_or};
ghost use Rattle.shb_stamps.specs.Moved.{AreAlike, AreMarked, HasCompacted, HasMarked, HasMoved, HasTaken, IsMovedStamp, IsNewNumber};
ghost use Rattle.shb_stamps.specs.Stamps.{empty_stamp};

use crate::clock::zeros;
use crate::row_list::RowList;
use crate::stamp::Stamp;
use shb_io::NoMemory;
use shb_lines::item_or;
use std::alloc::Global;

/// Old rows are freed so many times while they are moved.
const STRETCHES: u32 = 64;

/// Marks a row as one in use.
fn mark(marks: &mut Vec<u32>, number: u32)
    ensures marked { HasMarked marks.old.items marks.new.items }
    ensures own { number < length marks.old.items → 0 < slice_index_or marks.new.items number 0 }
{
    if (number as usize) < marks.len() {
        marks[number as usize] = 1;
    }
}

/// Marks the rows of these numbers.
fn mark_numbers(marks: &mut Vec<u32>, numbers: &[u32])
    ensures marked { HasMarked marks.old.items marks.new.items }
    ensures each { AreMarked marks.new.items (λ x. slice_index_or numbers.now x 0) (length numbers.now) }
{
    for x in 0..numbers.len() {
        mark(marks, numbers[x]);
    }
}

/// Marks the rows of these stamps.
fn mark_stamps(marks: &mut Vec<u32>, stamps: &[Stamp])
    ensures marked { HasMarked marks.old.items marks.new.items }
    ensures each { AreMarked marks.new.items (λ x. (slice_index_or stamps.now x empty_stamp).row) (length stamps.now) }
{
    for x in 0..stamps.len() {
        mark(marks, stamps[x].row);
    }
}

/// The new number of a row that was moved.
fn new_number(moved: &[u32], number: u32) -> u32
    ensures { IsNewNumber moved.now number result }
{
    item_or(moved, number, 0).saturating_sub(1)
}

/// Puts the new numbers in the place of these.
fn renumber(moved: &[u32], numbers: &mut Vec<u32>)
    ensures { AreAlike 0 (IsNewNumber moved.now) numbers.old.items numbers.new.items }
{
    for x in 0..numbers.len() {
        numbers[x] = new_number(moved, numbers[x]);
    }
}

/// Puts the new numbers in the place of those in these stamps.
fn renumber_stamps(moved: &[u32], stamps: &mut Vec<Stamp>)
    ensures { AreAlike empty_stamp (IsMovedStamp (IsNewNumber moved.now)) stamps.old.items stamps.new.items }
{
    for x in 0..stamps.len() {
        stamps[x].row = new_number(moved, stamps[x].row);
    }
}

/// Moves a row to new ones, if it has a mark, and puts its new number, plus 1, in place of that.
fn take(
    marks: &mut Vec<u32>,
    number: u32,
    old: &RowList,
    new: &mut RowList,
    copies: &mut Vec<u32>,
) -> Result<(), NoMemory>
    requires low { number < length marks.old.items }
    requires few { length new.old.list < 2 ^ 32 - 1 }
    ensures { OnOk result (HasTaken old.now.list number new.old.list new.new.list marks.old.items marks.new.items) }
{
    if marks[number as usize] > 0 {
        new.keep(old, number, copies)?;
        marks[number as usize] = new.count();
    }
    Ok(())
}

/// Keeps the rows that have marks, the first one first, and puts the new number of each, plus 1, in place of its mark.
fn take_marked(alloc: Global, marks: &mut Vec<u32>, rows: &mut RowList) -> Result<(), NoMemory>
    requires some { 0 < length marks.old.items }
    requires few { length marks.old.items < 2 ^ 32 }
    ensures { OnOk result (HasCompacted rows.old.list rows.new.list marks.old.items marks.new.items) }
{
    let mut new = RowList::empty_for(alloc, rows)?;
    let mut copies = Vec::new(alloc);
    take(marks, 0, rows, &mut new, &mut copies)?;
    let count = marks.len() as u32;
    let stretch = count / STRETCHES + 1;
    for number in (1..count).rev() {
        take(marks, number, rows, &mut new, &mut copies)?;
        if number % stretch == 0 {
            rows.cut(number as usize);
        }
    }
    *rows = new;
    Ok(())
}

/// Keeps the first row, and those that these tables name, and no others. The first stays the first, and the tables
/// name each by its new number then.
pub fn compact(
    alloc: Global,
    rows: &mut RowList,
    current: &mut Vec<u32>,
    locks: &mut Vec<Stamp>,
    variables: &mut Vec<Stamp>,
) -> Result<(), NoMemory>
    ensures { 0 < length rows.old.list → length rows.old.list < 2 ^ 32 → OnOk result (HasMoved rows.old.list rows.new.list
        current.old.items current.new.items locks.old.items locks.new.items variables.old.items variables.new.items) }
{
    let mut marks = zeros(alloc, rows.count().max(1))?;
    mark(&mut marks, 0);
    mark_numbers(&mut marks, current.as_slice());
    mark_stamps(&mut marks, locks.as_slice());
    mark_stamps(&mut marks, variables.as_slice());
    take_marked(alloc, &mut marks, rows)?;
    renumber(marks.as_slice(), current);
    renumber_stamps(marks.as_slice(), locks);
    renumber_stamps(marks.as_slice(), variables);
    Ok(())
}
