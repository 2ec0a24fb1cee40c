//! How many races there are, and how many of each place.
use crate::asserting::{Host, same};
use crate::numbers::so_many;
use crate::traces::{Asks, ask_of};
use shb_counts::{Settled, counted_races};
use shb_discipline::Disciplined;
use shb_format::PlaceCount;
use shb_lines::Pair;
use shb_links::Links;
use shb_stamps::open_variables;
use std::test::Fail;

/// The races of a text.
#[derive(Clone, Copy)]
struct CountsAre<'a> {
    races: u64,
    /// Of each place the first race, by its two positions from 0, and how many it has.
    places: &'a [(u32, u32, u64)],
}

impl Asks for CountsAre<'_> {
    fn ask<H: Host>(&self, rt: &H, trace: &Disciplined<'_>, links: &Links<'_>) -> Result<(), Fail> {
        let alloc = rt.alloc();
        let flags = open_variables(alloc, trace, links)?;
        let settled = Settled::new(trace, links, &flags);
        let counted = counted_races(rt, alloc, &settled, so_many(rt, 2))?;
        let mut wanted = Vec::new(alloc);
        for (first, second, count) in self.places {
            let pair = Pair {
                first: *first,
                second: *second,
            };
            wanted.push(PlaceCount {
                pair,
                count: *count,
            })?;
        }
        same(rt, &counted.races, &self.races, "how many races");
        same(
            rt,
            &counted.places.as_slice(),
            &wanted.as_slice(),
            "the places",
        );
        Ok(())
    }
}

/// Each access of x by the second thread races with three writes of the first, at two locations: its read sees its own
/// write. And y has one race.
const FEW_LOCATIONS: &str =
    "T1|w(x)|a\nT1|w(x)|a\nT1|w(x)|b\nT2|w(x)|a\nT2|r(x)|b\nT2|w(x)|b\nT1|w(y)|a\nT2|w(y)|a\n";

#[test]
fn many_races_at_few_locations(rt: HostRuntime) -> Result<(), Fail> {
    let places: &[(u32, u32, u64)] = &[(0, 3, 3), (2, 3, 1), (0, 4, 4), (2, 4, 2)];
    let counts = CountsAre { races: 10, places };
    ask_of(&rt, FEW_LOCATIONS, &counts)?;
    Ok(())
}

/// The second thread reads x twice, and each later write of the first races with both reads. Reads don't race with reads.
const READS: &str = "T1|r(x)|a\nT2|r(x)|a\nT2|r(x)|a\nT1|r(x)|a\nT1|w(x)|a\nT1|w(x)|b\n";

#[test]
fn reads_race_with_writes_alone(rt: HostRuntime) -> Result<(), Fail> {
    let places: &[(u32, u32, u64)] = &[(1, 4, 2), (1, 5, 2)];
    let counts = CountsAre { races: 4, places };
    ask_of(&rt, READS, &counts)?;
    Ok(())
}

/// Five threads write x, each at its own location: no access races with as many others as there are locations.
const OWN_LOCATIONS: &str = "A|w(x)|a\nB|w(x)|b\nC|w(x)|c\nD|w(x)|d\nE|w(x)|e\n";

#[test]
fn each_race_has_a_place(rt: HostRuntime) -> Result<(), Fail> {
    let places: &[(u32, u32, u64)] = &[
        (0, 1, 1),
        (0, 2, 1),
        (1, 2, 1),
        (0, 3, 1),
        (1, 3, 1),
        (2, 3, 1),
        (0, 4, 1),
        (1, 4, 1),
        (2, 4, 1),
        (3, 4, 1),
    ];
    let counts = CountsAre { races: 10, places };
    ask_of(&rt, OWN_LOCATIONS, &counts)?;
    Ok(())
}

#[test]
fn no_race_has_no_place(rt: HostRuntime) -> Result<(), Fail> {
    let counts = CountsAre {
        races: 0,
        places: &[],
    };
    ask_of(&rt, "T1|w(x)|a\nT1|w(x)|b\n", &counts)?;
    Ok(())
}
