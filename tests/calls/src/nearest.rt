//! The nearest race of each place of a stream, taken event by event.
use crate::asserting::{same, same_in_row};
use shb_lines::{Op, Step};
use shb_nearest::{FoundAccess, FoundRace, NearestRaces, Spot};
use std::alloc::Global;
use std::test::Fail;

/// A trace, four letters an event: the thread, what it does (`w`, `r`, `a`cquire, re`l`ease, `f`ork, `j`oin), its operand,
/// the location; and its nearest races, two digits each. Where two threads have no edge between them, all their accesses
/// of a variable race, but for two reads.
const TRACES: [(&[u8], &[u8]); 17] = [
    (b"", b""),
    (b"0w0a1w0b", b"01"),
    (b"0r0a1r0b", b""),
    (b"0w0a0w0b", b""),
    (b"0w0a1w1b", b""),
    // the first access with a race at the place, and the last one before it
    (b"0w0a0w0a1w0b1w0b", b"12"),
    // a place has an order
    (b"0w0a1w0b0w0a", b"0112"),
    // the lock orders the accesses under it
    (b"0a0.0w0a0l0.1a0.1w0b1l0.", b""),
    (b"0w0a0a0.0l0.1a0.1w0b0w0c", b"45"),
    // a read has its write below it, and so has what its thread does next
    (b"0w0a1r0b1r0c1w0d", b"01"),
    (b"0r0a0w0b1r0c1w0d", b"12"),
    // forks and joins
    (b"0w0a0f1.1w0b0w0c", b"23"),
    (b"0f1.1w0a0j1.0w0b", b""),
    // several races at one access stand by their earlier ones
    (b"0w0b1w0a2w0c", b"010212"),
    // the accesses after the last one of the same class alone are looked at
    (b"0w0a1w0b0w0c1w0b", b"011223"),
    // a place is of locations, whatever the variable
    (b"0w0a0w1a1w1b1w0b", b"12"),
    // a read at the location of a write is another class, at the same place
    (b"0w0a1r0b0w0a1w0b", b"0112"),
];

fn op_of(letter: u8, operand: u32) -> Op {
    match letter {
        b'w' => Op::Write(operand),
        b'r' => Op::Read(operand),
        b'a' => Op::Acquire(operand),
        b'l' => Op::Release(operand),
        b'f' => Op::Fork(operand),
        _ => Op::Join(operand),
    }
}

fn number(digit: u8) -> u32 {
    u32::from(digit.saturating_sub(b'0'))
}

fn take(races: &mut NearestRaces, alloc: Global, event: &[u8]) -> Result<(), Fail> {
    let &[thread, letter, operand, location] = event else {
        return Ok(());
    };
    let step = Step {
        thread: number(thread),
        op: op_of(letter, number(operand)),
    };
    let spot = Spot {
        location: u32::from(location),
        barred: true,
    };
    races.take(alloc, step, spot)?;
    Ok(())
}

/// The races as in the table.
fn digits(alloc: Global, races: &[FoundRace]) -> Result<Vec<u8>, Fail> {
    let mut found = Vec::new(alloc);
    for race in races {
        found.push(b'0' + race.first.event.min(9) as u8)?;
        found.push(b'0' + race.second.event.min(9) as u8)?;
    }
    Ok(found)
}

/// The nearest races of a trace, of each place or of each place and variable.
fn found_in(rt: &HostRuntime, by_variable: bool, trace: &[u8]) -> Result<Vec<u8>, Fail> {
    let alloc = rt.alloc();
    let mut races = NearestRaces::new(rt, alloc, by_variable)?;
    for event in trace.chunks(4) {
        take(&mut races, alloc, event)?;
    }
    let found = races.races(alloc)?;
    digits(alloc, &found)
}

#[test]
fn each_place_has_its_nearest_race(rt: HostRuntime) -> Result<(), Fail> {
    for row in 0..TRACES.len() {
        let (trace, wanted) = TRACES[row];
        let found = found_in(&rt, false, trace)?;
        same_in_row(&rt, &found.as_slice(), &wanted, row);
    }
    Ok(())
}

/// The same, where a place is two locations and a variable.
const BY_VARIABLE: [(&[u8], &[u8]); 5] = [
    (b"", b""),
    // one variable: as without
    (b"0w0a0w0a1w0b1w0b", b"12"),
    // two variables at one place, each with its nearest race
    (b"0w0a0w1a1w1b1w0b", b"1203"),
    (b"0w0a0w1a0w0a1w0b1w1b1w0b", b"2314"),
    // an order of its own for each variable
    (b"0w0a0w1a1w0b1w1b0w0a1w0b", b"021324"),
];

#[test]
fn each_place_and_variable_has_its_nearest_race(rt: HostRuntime) -> Result<(), Fail> {
    for row in 0..BY_VARIABLE.len() {
        let (trace, wanted) = BY_VARIABLE[row];
        let found = found_in(&rt, true, trace)?;
        same_in_row(&rt, &found.as_slice(), &wanted, row);
    }
    Ok(())
}

/// Three locations are written a hundred times in turn by one thread, and then another writes at a fourth one: the last
/// write at each location, though most were forgotten.
fn after_many(rt: &HostRuntime) -> Result<Vec<FoundRace>, Fail> {
    let alloc = rt.alloc();
    let mut races = NearestRaces::new(rt, alloc, false)?;
    for k in 0..100 {
        let step = Step {
            thread: 0,
            op: Op::Write(0),
        };
        let spot = Spot {
            location: k % 3,
            barred: false,
        };
        races.take(alloc, step, spot)?;
    }
    take(&mut races, alloc, b"1w0a")?;
    let found = races.races(alloc)?;
    Ok(found)
}

#[test]
fn the_newest_of_many_is_found(rt: HostRuntime) -> Result<(), Fail> {
    let found = after_many(&rt)?;
    let mut events = Vec::new(rt.alloc());
    for race in &found {
        events.push((
            race.first.event,
            race.first.spot.location,
            race.second.event,
            race.second.thread,
        ))?;
    }
    let wanted: &[(u32, u32, u32, u32)] = &[(97, 1, 100, 1), (98, 2, 100, 1), (99, 0, 100, 1)];
    same(&rt, &events.as_slice(), &wanted, "the newest writes");
    Ok(())
}

/// An access of variable 0 that writes, with its location.
fn write_at(event: u32, thread: u32, location: u32) -> FoundAccess {
    FoundAccess {
        event,
        thread,
        writes: true,
        spot: Spot {
            location,
            barred: true,
        },
    }
}

#[test]
fn a_place_has_its_first_later_access_and_the_last_one_before_it(
    rt: HostRuntime,
) -> Result<(), Fail> {
    let mut search = NearestRaces::new(&rt, rt.alloc(), false)?;
    for access in [
        write_at(0, 0, 1),
        write_at(1, 0, 1),
        write_at(2, 1, 2),
        write_at(3, 1, 2),
    ] {
        let step = Step {
            thread: access.thread,
            op: Op::Write(0),
        };
        search.take(rt.alloc(), step, access.spot)?;
    }
    let found = search.races(rt.alloc())?;
    let wanted: &[FoundRace] = &[FoundRace {
        variable: 0,
        first: write_at(1, 0, 1),
        second: write_at(2, 1, 2),
    }];
    same(&rt, &found.as_slice(), &wanted, "the nearest race");
    Ok(())
}
