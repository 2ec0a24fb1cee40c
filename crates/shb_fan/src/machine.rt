//! The machine: its state, its steps, and lists of steps.

ghost use Rattle.std.specs.Prelude.{◌≡◌, ◌<◌, ◌≤◌, ◌^◌, ◌++◌, ◌∷◌, [], false, true, ℕ, List, IfOk, IfErr, length, replicate};
ghost use Rattle.shb_fan.specs.declared.step.Step.{Step};
ghost use Rattle.shb_fan.specs.declared.step.Step.TheVariants.{Claim, Draw, Free, Lift, Place, Stop};
ghost use Rattle.shb_fan.specs.Machine.{Facts, HasAdvanced, IsInBounds, Runs, State, actor_of, after_draw, new_actor, piece_of, start, state_from};
ghost use Rattle.shb_fan.specs.Turns.{AreDrawn, AreDraws, HasReplayed, drawn_state};

pub use crate::step::{PieceState, Step};
use shb_io::NoMemory;
use std::alloc::Global;
use std::marker::Model;

/// How many slots there are: piece k waits for the slot of piece k - 64.
const SLOTS: u64 = 64;

/// What an actor did.
#[derive(Drop)]
pub(crate) struct Actor {
    drawn: Vec<u64>,
    spent: bool,
}

impl Model for Actor {
    ghost use Rattle.shb_fan.specs.Machine.{ActorState};

    ghost Value = { ActorState };

    ghost view = { λ a. record { drawn = a.drawn.items; spent = a.spent } };
}

impl Actor {
    /// An actor that did nothing.
    fn new(alloc: Global) -> Actor
        ensures { result ≡ new_actor }
    {
        Actor {
            drawn: Vec::new(alloc),
            spent: false,
        }
    }

    /// Whether it was told that there is no more.
    fn is_spent(&self) -> bool
        ensures { result ≡ self.now.spent }
    {
        self.spent
    }

    /// The numbers that it drew, in order.
    fn numbers(&self) -> &[u64]
        ensures { result.now ≡ self.now.drawn }
    {
        self.drawn.as_slice()
    }

    /// Gives it the next number or, where there is none, tells it so.
    fn draw(&mut self, next: u64, pieces: u64) -> Result<(), NoMemory>
        ensures ok { IfOk result (λ _. self.new ≡ after_draw next pieces self.old) }
        ensures err { IfErr result (λ _. self.new ≡ self.old) }
    {
        if next >= pieces {
            self.spent = true;
            return Ok(());
        }
        self.drawn.push(next)?;
        Ok(())
    }
}

/// The state of the machine.
#[derive(Drop)]
pub struct Fan {
    next: u64,
    actors: Vec<Actor>,
    pieces: Vec<PieceState>,
    taken: u64,
    stopped: bool,
}

impl Model for Fan {
    ghost use Rattle.shb_fan.specs.Machine.{IsInBounds, State, state_from};

    ghost Value = { State };

    ghost view = { λ f. state_from f.next f.actors.items f.pieces.items f.taken f.stopped };

    ghost invariant = { λ f. IsInBounds (state_from f.next f.actors.items f.pieces.items f.taken
        f.stopped) };
}

impl Fan {
    /// The number that the next draw takes, where there is a piece of that number.
    pub fn next(&self) -> u64
        ensures { result ≡ self.now.next }
    {
        self.next
    }

    /// How many pieces were lifted.
    pub fn taken(&self) -> u64
        ensures { result ≡ self.now.taken }
    {
        self.taken
    }

    /// Whether an actor asked all to stop.
    pub fn stopped(&self) -> bool
        ensures { result ≡ self.now.stopped }
    {
        self.stopped
    }

    /// Whether an actor was told that there is no more.
    pub fn spent(&self, a: u32) -> bool
        requires { a < length self.now.actors }
        ensures { result ≡ (actor_of self.now a).spent }
    {
        self.actors[a as usize].is_spent()
    }

    /// The numbers that an actor drew, in order.
    pub fn drawn(&self, a: u32) -> &[u64]
        requires { a < length self.now.actors }
        ensures { result.now ≡ (actor_of self.now a).drawn }
    {
        self.actors[a as usize].numbers()
    }

    /// How far a piece has come.
    pub fn piece(&self, k: u64) -> PieceState
        requires { k < length self.now.pieces }
        ensures { result ≡ piece_of self.now k }
    {
        self.pieces[k as usize]
    }

    /// A draw, unless it isn't allowed.
    fn draw(&mut self, a: u32) -> Result<bool, NoMemory>
        ensures ok { IfOk result (λ b. HasAdvanced self.old (Draw a) b self.new) }
        ensures err { IfErr result (λ _. self.new ≡ self.old) }
    {
        if a as usize >= self.actors.len() || self.actors[a as usize].is_spent() {
            return Ok(false);
        }
        let pieces = self.pieces.len() as u64;
        let next = self.next;
        self.actors[a as usize].draw(next, pieces)?;
        self.next = next + 1;
        Ok(true)
    }

    /// A claim, unless it isn't allowed.
    fn claim(&mut self, a: u32, k: u64) -> bool
        ensures { HasAdvanced self.old (Claim a k) result self.new }
    {
        if a as usize >= self.actors.len() || k >= self.pieces.len() as u64 {
            return false;
        }
        if !self.actors[a as usize].numbers().contains(&k) {
            return false;
        }
        let PieceState::Empty = self.pieces[k as usize] else {
            return false;
        };
        if k >= SLOTS {
            let PieceState::Freed = self.pieces[(k - SLOTS) as usize] else {
                return false;
            };
        }
        self.pieces[k as usize] = PieceState::Claimed(a);
        true
    }

    /// A placing, unless it isn't allowed.
    fn place(&mut self, a: u32, k: u64) -> bool
        ensures { HasAdvanced self.old (Place a k) result self.new }
    {
        if a as usize >= self.actors.len() || k >= self.pieces.len() as u64 {
            return false;
        }
        let PieceState::Claimed(owner) = self.pieces[k as usize] else {
            return false;
        };
        if owner != a {
            return false;
        }
        self.pieces[k as usize] = PieceState::Placed;
        true
    }

    /// A lift, unless it isn't allowed.
    fn lift(&mut self, k: u64) -> bool
        ensures { HasAdvanced self.old (Lift k) result self.new }
    {
        if k >= self.pieces.len() as u64 || k != self.taken {
            return false;
        }
        let PieceState::Placed = self.pieces[k as usize] else {
            return false;
        };
        self.pieces[k as usize] = PieceState::Lifted;
        self.taken += 1;
        true
    }

    /// A freeing, unless it isn't allowed.
    fn free(&mut self, k: u64) -> bool
        ensures { HasAdvanced self.old (Free k) result self.new }
    {
        if k >= self.pieces.len() as u64 {
            return false;
        }
        let PieceState::Lifted = self.pieces[k as usize] else {
            return false;
        };
        self.pieces[k as usize] = PieceState::Freed;
        true
    }

    /// A stop, unless it isn't allowed.
    fn stop(&mut self, a: u32) -> bool
        ensures { HasAdvanced self.old (Stop a) result self.new }
    {
        if a as usize >= self.actors.len() {
            return false;
        }
        self.stopped = true;
        true
    }
}

/// What became of a list of steps.
#[derive(Drop)]
pub enum Replayed {
    /// All were allowed, and led here.
    Ended(Fan),
    /// The index of the first step that isn't allowed.
    Refused { at: usize },
}

/// Takes a step where it is allowed, and answers whether it is. Where it isn't, and where memory was
/// refused, nothing changes.
pub fn advance(fan: &mut Fan, step: Step) -> Result<bool, NoMemory>
    ensures ok { IfOk result (λ b. HasAdvanced fan.old step b fan.new) }
    ensures err { IfErr result (λ _. fan.new ≡ fan.old) }
{
    match step {
        Step::Draw(a) => fan.draw(a),
        Step::Claim(a, k) => Ok(fan.claim(a, k)),
        Step::Place(a, k) => Ok(fan.place(a, k)),
        Step::Lift(k) => Ok(fan.lift(k)),
        Step::Free(k) => Ok(fan.free(k)),
        Step::Stop(a) => Ok(fan.stop(a)),
    }
}

/// As many actors that did nothing.
fn new_actors(alloc: Global, actors: u32) -> Result<Vec<Actor>, NoMemory>
    ensures { IfOk result (λ all. all.items ≡ replicate actors new_actor) }
{
    let mut all = Vec::with_capacity(alloc, actors as usize)?;
    for a in 0..actors {
        all.push(Actor::new(alloc))?;
    }
    Ok(all)
}

/// The start: nothing is drawn, and all pieces are empty.
fn new_fan(alloc: Global, actors: u32, pieces: u64) -> Result<Fan, NoMemory>
    requires actors { actors ≤ 65 }
    requires pieces { pieces ≤ 2 ^ 60 }
    ensures { IfOk result (λ fan. fan ≡ start actors pieces) }
{
    Ok(Fan {
        next: 0,
        actors: new_actors(alloc, actors)?,
        pieces: vec![in alloc; PieceState::Empty; pieces as usize]?,
        taken: 0,
        stopped: false,
    })
}

/// Takes all steps from the start, up to the first that isn't allowed. Of the state that they end in
/// the facts of [`what_holds`] hold. `NoMemory` where memory was refused.
pub fn replay(alloc: Global, actors: u32, pieces: u64, steps: &[Step]) -> Result<Replayed, NoMemory>
    requires some { 1 ≤ actors }
    requires actors { actors ≤ 65 }
    requires pieces { pieces ≤ 2 ^ 60 }
    ensures { IfOk result (HasReplayed actors pieces steps.now) }
{
    let mut fan = new_fan(alloc, actors, pieces)?;
    for at in 0..steps.len() {
        if !advance(&mut fan, steps[at])? {
            return Ok(Replayed::Refused { at });
        }
    }
    Ok(Replayed::Ended(fan))
}

/// What holds after every list of allowed steps: no number is in two lists or twice in one, and the
/// lists together are the numbers below the lesser of `next` and the number of pieces; the pieces
/// lifted or freed are those below `taken`; at most 64 are claimed, placed or lifted.
pub fn what_holds()
    ensures { (actors pieces : ℕ) (steps : List Step) (s : State) → Runs (start actors pieces) steps s → Facts s }
{}

/// Lists that rise and together are the numbers below `drawn`, each once, are those of the machine
/// after as many draws, of which each is by the actor whose list has its number; and there are such
/// draws. A stop after them stops it and changes no list.
pub fn rising_lists_are_drawn()
    ensures exist { (lists : List (List ℕ)) (drawn : ℕ) → AreDrawn lists drawn
        → (steps : List Step) × AreDraws lists drawn steps }
    ensures lead { (lists : List (List ℕ)) (drawn pieces : ℕ) (steps : List Step)
        → AreDrawn lists drawn → drawn ≤ pieces → AreDraws lists drawn steps
        → Runs (start (length lists) pieces) steps (drawn_state lists drawn pieces false) }
    ensures stop { (lists : List (List ℕ)) (drawn pieces a : ℕ) (steps : List Step)
        → AreDrawn lists drawn → drawn ≤ pieces → AreDraws lists drawn steps → a < length lists
        → Runs (start (length lists) pieces) (steps ++ Stop a ∷ [])
        (drawn_state lists drawn pieces true) }
{}
