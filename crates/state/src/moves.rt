// One cell pushed or popped, a body entered or left: each takes the state's numbers by value and hands them back with an answer, and is
// lent the arrays that it changes or looks at. Each writes a copy of the numbers: by `..core` a run over memory took 1.35
// times the instructions, and one of calls 1.25 times.
ghost use Rattle.std.specs.Prelude.{◌≡◌};
ghost use Rattle.state.specs.Joints.Moves.{push_of, call_of, leave_of, stepped, refused_on};
ghost use Rattle.state.specs.Joints.Apart.{on_stack, on_calls, Moves, Looks, Takes, base_in};
ghost use Rattle.state.specs.Answer.{Going, stepped_in};

use crate::answer::{Answer, AnswerBy, Stepped, SteppedBy, Why};
use crate::apart::{Core, Handed, Taken, Told, go, stop};
use crate::entries::entry_or;
use crate::state::State;
use rom::Refusal;
use rom::sizes::{DATA_MOST, FRAMES_MOST};

// The state as it is, with why a step is refused: a refusal's name, or a number.
pub fn refused<W: Why>(st: State, why: W) -> SteppedBy<W>
    ensures { result ≡ refused_on st why }
{
    SteppedBy {
        answer: AnswerBy::Refused(why),
        state: st,
    }
}

pub fn going(st: State) -> Stepped
    ensures { stepped_in result ≡ stepped Going st }
{
    Stepped {
        answer: Answer::Going,
        state: st,
    }
}

// A cell onto the data stack; 15 where it is full.
#[tactic(auto, unfolding(crate::specs::Joints::Moves::push_of))]
pub fn push(cells: &mut [u32; DATA_MOST], core: Core, cell: u32) -> Handed
    ensures { Moves (on_stack cells.old) core result (on_stack cells.new) (λ s t. t ≡ push_of s cell) }
{
    let h = core.height;
    if h < DATA_MOST {
        cells[h] = cell;
        let mut k = core;
        k.height = h + 1;
        return go(k);
    }
    stop(core, Refusal::TooHigh)
}

// The top of the data stack; 14 where it is empty.
#[tactic(auto, unfolding(crate::specs::Joints::Moves::pop_of))]
pub fn pop(cells: &[u32; DATA_MOST], core: Core) -> Taken
    ensures { Takes (on_stack cells.now) core result }
{
    let h = core.height;
    if h == 0 {
        return Taken {
            told: Told::Not(Refusal::TooLow),
            cell: 0,
            core,
        };
    }
    let mut k = core;
    k.height = h - 1;
    Taken {
        told: Told::On,
        cell: entry_or(cells, h - 1, 0),
        core: k,
    }
}

// The return stack's height at the entry of the youngest of so many calls, 0 where none is open.
pub fn base(bases: &[usize; FRAMES_MOST], frames: usize) -> usize
    ensures { result ≡ base_in bases.now frames }
{
    if 0 < frames {
        entry_or(bases, frames - 1, 0)
    } else {
        0
    }
}

// Into a body that starts at a place, in the width that it was defined in; the caller goes on at `next`. 17 where 16 calls are open.
#[tactic(auto, unfolding(crate::specs::Joints::Moves::call_of))]
pub fn call(
    places: &mut [u32; FRAMES_MOST],
    wides: &mut [bool; FRAMES_MOST],
    bases: &mut [usize; FRAMES_MOST],
    core: Core,
    to: u32,
    wide: bool,
    next: u32,
) -> Handed
    ensures { Moves (on_calls places.old wides.old bases.old) core result
        (on_calls places.new wides.new bases.new) (λ s t. t ≡ call_of s to wide next) }
{
    let open = core.frames;
    if open < FRAMES_MOST {
        places[open] = next;
        wides[open] = core.wide;
        bases[open] = core.returns;
        let mut k = core;
        k.frames = open + 1;
        k.place = to;
        k.wide = wide;
        return go(k);
    }
    stop(core, Refusal::TooManyCalls)
}

// Out of a body, back to the caller's place and width. 18 where no call is open, 16 where the return stack is not at the frame's base.
#[tactic(auto, unfolding(crate::specs::Joints::Moves::leave_of))]
pub fn leave(
    places: &[u32; FRAMES_MOST],
    wides: &[bool; FRAMES_MOST],
    bases: &[usize; FRAMES_MOST],
    core: Core,
) -> Handed
    ensures { Looks (on_calls places.now wides.now bases.now) core result (λ s t. t ≡ leave_of s) }
{
    let open = core.frames;
    if open == 0 {
        return stop(core, Refusal::Misplaced);
    }
    if core.returns != entry_or(bases, open - 1, 0) {
        return stop(core, Refusal::WrongReturns);
    }
    let mut k = core;
    k.place = entry_or(places, open - 1, 0);
    k.wide = entry_or(wides, open - 1, false);
    k.frames = open - 1;
    go(k)
}
