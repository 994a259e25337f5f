// A state taken apart: its numbers are one small struct that goes by value, and its arrays are lent to who changes them. A token's function
// takes the numbers and hands them back with an answer; what it does not change it is not lent.
ghost use Rattle.std.specs.Prelude.{◌≡◌};
ghost use Rattle.state.specs.Joints.Apart.{core_of, handed};
ghost use Rattle.state.specs.declared.apart.ToldBy.TheVariants.{On, Not};

use crate::answer::Why;
use crate::state::State;
use rom::Refusal;

// The numbers of a state: place, width, heights, counts, the active node and the first.
#[derive(Clone, Copy)]
pub struct Core {
    pub length: u32,
    pub place: u32,
    pub wide: bool,
    pub finished: bool,
    pub height: usize,
    pub returns: usize,
    pub frames: usize,
    pub held: usize,
    pub work_place: u32,
    pub nodes: usize,
    pub active: u32,
    pub first: u32,
    pub records: usize,
}

// How a token ended: carried out, the program's last one, or refused and why. A budget is the run's, so there is no case for it.
#[derive(Clone, Copy)]
pub enum ToldBy<W> {
    On,
    Over,
    Not(W),
}

#[derive(Clone, Copy)]
pub struct HandedBy<W> {
    pub told: ToldBy<W>,
    pub core: Core,
}

// Every token says why by a refusal's name.
pub type Told = ToldBy<Refusal>;

pub type Handed = HandedBy<Refusal>;

// A cell taken from the data stack, with the numbers then.
#[derive(Clone, Copy)]
pub struct Taken {
    pub told: Told,
    pub cell: u32,
    pub core: Core,
}

// The numbers as they are, with why a token is refused: a refusal's name, or a number.
pub fn stop<W: Why>(core: Core, why: W) -> HandedBy<W>
    ensures { result ≡ handed (Not why) core }
{
    HandedBy {
        told: ToldBy::Not(why),
        core,
    }
}

pub fn go(core: Core) -> Handed
    ensures { result ≡ handed On core }
{
    Handed {
        told: Told::On,
        core,
    }
}

// The numbers of a state.
pub fn core_of(st: State) -> Core
    ensures { result ≡ core_of st }
{
    Core {
        length: st.length,
        place: st.place,
        wide: st.wide,
        finished: st.finished,
        height: st.stack.height,
        returns: st.back.height,
        frames: st.calls.count,
        held: st.numbers.count,
        work_place: st.work_place,
        nodes: st.tree.nodes,
        active: st.active,
        first: st.first,
        records: st.tree.held,
    }
}
