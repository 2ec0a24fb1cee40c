//! A list of positions that is kept as runs.

ghost use Rattle.std.specs.Prelude.{◌≡◌, ◌+◌, ◌-◌, ◌^◌, ◌<◌, ◌++◌, ◌∷◌, [], length, All, IfOk, OnErr, OnOk, IsTrue, IsFalse};
ghost use Rattle.std.specs.List.{range_with_len};
ghost use Rattle.shb_positions.specs.Runs.{AreApart, EndsInRange, LeavesGap, positions_in, run_positions};

use shb_io::NoMemory;
use std::alloc::Global;
use std::marker::Model;

/// Consecutive positions.
#[derive(Clone, Copy, Debug, Drop, PartialEq, Eq)]
pub struct Run {
    /// The first position.
    pub first: u32,
    /// How many there are.
    pub len: u32,
}

/// A list of positions, kept as runs of consecutive ones: where most of them are consecutive it
/// takes little memory, 8 bytes a run. Contracts see it as the list of the positions.
#[derive(Drop)]
pub struct Positions {
    runs: Vec<Run>,
    count: u64,
}

impl Model for Positions {
    ghost use Rattle.std.specs.Prelude.{◌≡◌, ℕ, All, List, length};
    ghost use Rattle.shb_positions.specs.Runs.{AreApart, EndsInRange, positions_in};

    ghost Value = { List ℕ };

    ghost view = { λ p. positions_in p.runs.items };

    ghost invariant = { λ p. (p.count ≡ length (positions_in p.runs.items)) × All EndsInRange p.runs.items × AreApart p.runs.items };
}

impl Positions {
    /// No positions.
    pub fn new(alloc: Global) -> Positions
        ensures { result ≡ [] }
    {
        Positions {
            runs: Vec::new(alloc),
            count: 0,
        }
    }

    /// The first positions, as many as `count`. `NoMemory` where memory was refused.
    pub fn first(alloc: Global, count: u32) -> Result<Positions, NoMemory>
        ensures { IfOk result (λ positions. positions ≡ range_with_len 0 count) }
    {
        let mut runs = Vec::new(alloc);
        runs.push(Run {
            first: 0,
            len: count,
        })?;
        Ok(Positions {
            runs,
            count: u64::from(count),
        })
    }

    /// Adds a position after the others. It goes into the last run where it follows on that.
    /// `NoMemory` where memory was refused; the positions are then as they were.
    pub fn push(&mut self, position: u32) -> Result<(), NoMemory>
        requires few { length self.old < 2 ^ 64 - 1 }
        requires fits { position < 2 ^ 32 - 1 }
        ensures pushed { OnOk result (self.new ≡ self.old ++ position ∷ []) }
        ensures kept { OnErr result (self.new ≡ self.old) }
    {
        add_position(&mut self.runs, position)?;
        self.count += 1;
        Ok(())
    }

    /// How many positions there are.
    pub fn len(&self) -> u64
        ensures { result ≡ length self.now }
    {
        self.count
    }

    /// The runs, in the order of the positions. No run begins where the one before it ends, so as many
    /// positions in a row are one run.
    pub fn runs(&self) -> &[Run]
        ensures positions { positions_in result.now ≡ self.now }
        ensures ends { All EndsInRange result.now }
        ensures apart { AreApart result.now }
    {
        &self.runs
    }

    /// The positions, one by one. `NoMemory` where memory was refused.
    pub fn to_vec(&self, alloc: Global) -> Result<Vec<u32>, NoMemory>
        ensures { IfOk result (λ positions. positions.items ≡ self.now) }
    {
        let mut positions = Vec::new(alloc);
        for run in &self.runs {
            push_run(&mut positions, *run)?;
        }
        Ok(positions)
    }
}

/// Adds a position to the last of some runs, where it follows on that. Says whether it did.
fn extend_last(runs: &mut [Run], position: u32) -> bool
    requires fits { position < 2 ^ 32 - 1 }
    requires ends { All EndsInRange runs.old }
    requires apart { AreApart runs.old }
    ensures ends { All EndsInRange runs.new }
    ensures apart { AreApart runs.new }
    ensures gap { IsFalse result → LeavesGap runs.old position }
    ensures added { IsTrue result → positions_in runs.new ≡ positions_in runs.old ++ position ∷ [] }
    ensures kept { IsFalse result → runs.new ≡ runs.old }
{
    let Some(last) = runs.last_mut() else {
        return false;
    };
    let Run { first, len } = *last;
    if first + len != position {
        return false;
    }
    last.len = len + 1;
    true
}

/// Adds a position after those of some runs.
fn add_position(runs: &mut Vec<Run>, position: u32) -> Result<(), NoMemory>
    requires fits { position < 2 ^ 32 - 1 }
    requires ends { All EndsInRange runs.old.items }
    requires apart { AreApart runs.old.items }
    ensures ends { All EndsInRange runs.new.items }
    ensures apart { AreApart runs.new.items }
    ensures added { OnOk result (positions_in runs.new.items ≡ positions_in runs.old.items ++ position ∷ []) }
    ensures kept { OnErr result (runs.new.items ≡ runs.old.items) }
{
    if extend_last(runs.as_mut_slice(), position) {
        return Ok(());
    }
    runs.push(Run {
        first: position,
        len: 1,
    })?;
    Ok(())
}

/// Adds the positions of a run after others.
fn push_run(positions: &mut Vec<u32>, run: Run) -> Result<(), NoMemory>
    requires ends { EndsInRange run }
    ensures { IfOk result (λ _. positions.new.items ≡ positions.old.items ++ run_positions run) }
{
    for k in 0..run.len {
        positions.push(run.first + k)?;
    }
    Ok(())
}
