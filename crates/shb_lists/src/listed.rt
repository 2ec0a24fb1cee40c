//! A race as the race list orders it.

ghost use Rattle.std.specs.Prelude.{◌≡◌, IfOk, map};
ghost use Rattle.shb_lines.specs.events.Race.{ends};
ghost use Rattle.shb_lists.specs.Listed.{pair_in, race_in};

use shb_io::NoMemory;
use shb_lines::Pair;
use std::alloc::Global;

/// A race as the race list orders it: by the number of its variable, by its later event, and by its earlier one.
#[derive(Clone, Copy, PartialEq, Eq, PartialOrd, Ord)]
pub struct ListedRace {
    pub variable: u32,
    pub second: u32,
    pub first: u32,
}

/// Some races as pairs, in their order.
///
/// # Errors
///
/// `NoMemory` where a growth was refused.
pub fn pairs_of(alloc: Global, races: &[ListedRace]) -> Result<Vec<Pair>, NoMemory>
    ensures pairs { IfOk result (λ pairs. pairs.items ≡ map race_in races.now) }
    ensures ends { IfOk result (λ pairs. map ends pairs.items ≡ map pair_in races.now) }
{
    let mut pairs = Vec::with_capacity(alloc, races.len())?;
    for race in races {
        pairs.push(Pair {
            first: race.first,
            second: race.second,
        })?;
    }
    Ok(pairs)
}
