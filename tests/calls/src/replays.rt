//! `replay`: why a list is no schedule of a pair.
use crate::asserting::{Host, same};
use crate::traces::{
    Asks, Worked, ask_of, forked_before, joined, joined_unborn, passed_on, read_between,
    through_a_read,
};
use shb_discipline::Disciplined;
use shb_lines::Pair;
use shb_links::Links;
use shb_replay::{Broken, Why, replay};
use std::test::Fail;

/// A list of events and the first and second event of a pair, all counted from 0, and the answer.
type Judged<'a> = (&'a [u32], u32, u32, Option<(usize, Why)>);

#[derive(Clone, Copy)]
struct Lists<'a> {
    rows: &'a [Judged<'a>],
}

impl Asks for Lists<'_> {
    fn ask<H: Host>(&self, rt: &H, trace: &Disciplined<'_>, links: &Links<'_>) -> Result<(), Fail> {
        for (list, first, second, answer) in self.rows {
            let pair = Pair {
                first: *first,
                second: *second,
            };
            let wanted = answer.map(|broken| Broken {
                at: broken.0,
                why: broken.1,
            });
            let found = replay(rt.alloc(), trace, links, list, pair)?;
            same(rt, &found, &wanted, "the judgement");
        }
        Ok(())
    }
}

fn expect(rt: &impl Host, row: Worked<'_>, rows: &[Judged<'_>]) -> Result<(), Fail> {
    ask_of(rt, row.text, &Lists { rows })
}

#[test]
fn each_reason(rt: HostRuntime) -> Result<(), Fail> {
    let of_passed_on: [Judged<'_>; 7] = [
        (&[0], 1, 6, None),
        (&[7], 1, 6, Some((0, Why::NoSuchEvent))),
        (&[0, 0], 1, 6, Some((1, Why::Repeated))),
        (&[1], 1, 6, Some((0, Why::ThreadOrder))),
        (&[0, 3], 4, 6, Some((1, Why::LockOrder))),
        (&[], 1, 6, Some((0, Why::NotNext))),
        (&[0, 1], 1, 6, Some((2, Why::NotNext))),
    ];
    expect(&rt, passed_on(), &of_passed_on)?;
    expect(
        &rt,
        forked_before(),
        &[(&[2], 1, 2, Some((0, Why::ForkMissing)))],
    )?;
    expect(&rt, joined(), &[(&[0, 2], 1, 3, Some((1, Why::JoinEarly)))])?;
    expect(
        &rt,
        joined_unborn(),
        &[(&[1, 0], 2, 3, Some((1, Why::JoinEarly)))],
    )?;
    expect(
        &rt,
        read_between(),
        &[(&[1], 2, 3, Some((0, Why::LastWrite))), (&[3], 0, 1, None)],
    )
}

/// A pair that isn't listed has no schedule: whatever is tried breaks a rule.
#[test]
fn a_pair_that_is_no_race(rt: HostRuntime) -> Result<(), Fail> {
    let tried: [Judged<'_>; 4] = [
        (&[], 0, 3, Some((0, Why::NotNext))),
        (&[2], 0, 3, Some((0, Why::LastWrite))),
        (&[1, 2], 0, 3, Some((0, Why::ThreadOrder))),
        (&[0, 1, 2], 0, 3, Some((3, Why::NotNext))),
    ];
    expect(&rt, through_a_read(), &tried)
}

/// Held twice: the inner release alone doesn't pass the lock on.
#[test]
fn a_lock_that_is_held_twice(rt: HostRuntime) -> Result<(), Fail> {
    let text =
        "T1|acq(l)\nT1|acq(l)\nT1|w(x)\nT1|rel(l)\nT1|rel(l)\nT2|acq(l)\nT2|rel(l)\nT3|w(x)\n";
    let tried: [Judged<'_>; 2] = [
        (&[0, 1], 2, 7, None),
        (&[0, 1, 5], 2, 7, Some((2, Why::LockOrder))),
    ];
    ask_of(&rt, text, &Lists { rows: &tried })
}
