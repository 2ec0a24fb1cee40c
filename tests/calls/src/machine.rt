//! The machine without threads: lists of steps, worked out on paper.
use crate::asserting::{Host, holds, same};
use shb_fan::machine::{Fan, PieceState, Replayed, Step, advance, replay};
use std::test::Fail;

const EARLY: [Step; 5] = [
    Step::Draw(0),
    Step::Draw(1),
    Step::Claim(1, 1),
    Step::Place(1, 1),
    Step::Lift(1),
];

const IN_ORDER: [Step; 9] = [
    Step::Draw(0),
    Step::Draw(1),
    Step::Claim(1, 1),
    Step::Place(1, 1),
    Step::Claim(0, 0),
    Step::Place(0, 0),
    Step::Lift(0),
    Step::Free(0),
    Step::Lift(1),
];

/// Where a list of steps is refused.
fn refused_at(
    rt: &impl Host,
    actors: u32,
    pieces: u64,
    steps: &[Step],
) -> Result<Option<usize>, Fail> {
    match replay(rt.alloc(), actors, pieces, steps)? {
        Replayed::Ended(_) => Ok(None),
        Replayed::Refused { at } => Ok(Some(at)),
    }
}

/// The state after steps that are allowed.
fn ended(rt: &impl Host, actors: u32, pieces: u64, steps: &[Step]) -> Result<Fan, Fail> {
    match replay(rt.alloc(), actors, pieces, steps)? {
        Replayed::Ended(fan) => Ok(fan),
        Replayed::Refused { at: _ } => Err("a step was refused".into()),
    }
}

#[test]
fn steps_that_are_refused(rt: HostRuntime) -> Result<(), Fail> {
    same(
        &rt,
        &refused_at(&rt, 2, 2, &EARLY)?,
        &Some(4),
        "a lift out of turn",
    );
    let another = [Step::Draw(0), Step::Claim(0, 1)];
    same(
        &rt,
        &refused_at(&rt, 1, 2, &another)?,
        &Some(1),
        "a claim of what another drew",
    );
    let spent = [Step::Draw(0), Step::Draw(0)];
    same(
        &rt,
        &refused_at(&rt, 1, 0, &spent)?,
        &Some(1),
        "a draw by a spent actor",
    );
    for step in [
        Step::Draw(1),
        Step::Stop(1),
        Step::Lift(2),
        Step::Free(0),
        Step::Place(0, 0),
        Step::Claim(0, 2),
    ] {
        same(
            &rt,
            &refused_at(&rt, 1, 2, &[step])?,
            &Some(0),
            "a step at the start",
        );
    }
    Ok(())
}

#[test]
fn steps_one_by_one(rt: HostRuntime) -> Result<(), Fail> {
    let mut fan = ended(&rt, 2, 2, &[])?;
    for (at, step) in EARLY.iter().enumerate() {
        same(
            &rt,
            &advance(&mut fan, *step)?,
            &(at < 4),
            "whether the step is allowed",
        );
    }
    same(
        &rt,
        &fan.piece(0),
        &PieceState::Empty,
        "the piece that was drawn",
    );
    same(
        &rt,
        &fan.piece(1),
        &PieceState::Placed,
        "the piece that was placed",
    );
    Ok(())
}

#[test]
fn what_the_state_tells(rt: HostRuntime) -> Result<(), Fail> {
    let fan = ended(&rt, 2, 2, &IN_ORDER)?;
    same(
        &rt,
        &(fan.taken(), fan.next(), fan.stopped()),
        &(2, 2, false),
        "the numbers",
    );
    same(
        &rt,
        &fan.drawn(0),
        &[0u64].as_slice(),
        "the first actor's list",
    );
    same(&rt, &fan.drawn(1), &[1u64].as_slice(), "the second's");
    same(
        &rt,
        &(fan.spent(0), fan.spent(1)),
        &(false, false),
        "nobody is spent",
    );
    same(
        &rt,
        &(fan.piece(0), fan.piece(1)),
        &(PieceState::Freed, PieceState::Lifted),
        "the pieces",
    );
    let fan = ended(
        &rt,
        2,
        1,
        &[
            Step::Draw(1),
            Step::Claim(1, 0),
            Step::Draw(0),
            Step::Stop(0),
        ],
    )?;
    same(
        &rt,
        &(fan.next(), fan.stopped()),
        &(2, true),
        "the numbers of the second",
    );
    same(
        &rt,
        &(fan.spent(0), fan.spent(1)),
        &(true, false),
        "who came too late",
    );
    same(&rt, &fan.piece(0), &PieceState::Claimed(1), "who claimed");
    holds(
        &rt,
        fan.drawn(0).is_empty(),
        "the list of who came too late",
    );
    Ok(())
}

/// A slot is free for the piece 64 further on once its piece is freed.
#[test]
fn a_slot_is_used_again(rt: HostRuntime) -> Result<(), Fail> {
    let mut fan = ended(&rt, 1, 65, &[])?;
    for _ in 0..65 {
        holds(&rt, advance(&mut fan, Step::Draw(0))?, "a draw");
    }
    let steps = [
        (Step::Claim(0, 0), true),
        (Step::Place(0, 0), true),
        (Step::Claim(0, 64), false),
        (Step::Lift(0), true),
        (Step::Claim(0, 64), false),
        (Step::Free(0), true),
        (Step::Claim(0, 64), true),
    ];
    for (step, allowed) in steps {
        same(
            &rt,
            &advance(&mut fan, step)?,
            &allowed,
            "whether the step is allowed",
        );
    }
    Ok(())
}
