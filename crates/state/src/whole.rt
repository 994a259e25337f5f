// Refusal 7: whether a state is whole. The tree's part is the tree's own test, but for the active node and the first.
ghost use Rattle.std.specs.Prelude.{◌≡◌, ◌<◌};
ghost use Rattle.state.specs.Whole.{is_place, next_base, frame_whole, calls_whole, entry_kept, numbers_whole, heights_kept};
ghost use Rattle.state.specs.Whole.{below_root, whole_of};

use crate::entries::entry_or;
use crate::state::{Calls, Numbers, State};
use rom::sizes::{DATA_MOST, FIRST_PLACE, FRAMES_MOST, NUMBERS_MOST, RETURN_MOST, WORK_SIZE};
use tokens::is_program;

// A place of the ROM: from 8 to the length, where no token starts.
fn is_place(length: u32, place: u32) -> bool
    ensures { result ≡ is_place length place }
{
    FIRST_PLACE <= place as usize && place <= length
}

// The base above a frame's: the next frame's, and the return height above the last.
fn next_base(calls: &Calls, returns: usize, i: usize) -> usize
    requires { i < calls.now.count }
    ensures { result ≡ next_base calls.now returns i }
{
    if calls.count > i + 1 {
        entry_or(&calls.bases, i + 1, 0)
    } else {
        returns
    }
}

fn is_frame(length: u32, calls: &Calls, returns: usize, i: usize) -> bool
    requires { i < calls.now.count }
    ensures { result ≡ frame_whole length calls.now returns i }
{
    is_place(length, entry_or(&calls.places, i, 0))
        && entry_or(&calls.bases, i, 0) <= next_base(calls, returns, i)
}

#[tactic(auto, unfolding(crate::specs::Whole::calls_whole))]
fn are_frames(length: u32, calls: &Calls, returns: usize) -> bool
    ensures { result ≡ calls_whole length calls.now returns }
{
    calls.count <= FRAMES_MOST && (0..calls.count).all(|i| is_frame(length, calls, returns, i))
}

// A program number, with its body's place where it has one.
fn is_entry(length: u32, program: u32, kind: u8, value: u32) -> bool
    ensures { result ≡ entry_kept length program kind value }
{
    is_program(program) && (kind != 0xB7 || is_place(length, value))
}

#[tactic(auto, unfolding(crate::specs::Whole::numbers_whole))]
fn are_numbers(length: u32, numbers: &Numbers) -> bool
    ensures { result ≡ numbers_whole length numbers.now }
{
    numbers.count <= NUMBERS_MOST
        && (0..numbers.count).all(|i| {
            is_entry(
                length,
                entry_or(&numbers.programs, i, 0),
                entry_or(&numbers.kinds, i, 0),
                entry_or(&numbers.values, i, 0),
            )
        })
}

fn are_heights(length: u32, place: u32, height: usize, returns: usize, work: u32) -> bool
    ensures { result ≡ heights_kept length place height returns work }
{
    height <= DATA_MOST
        && returns <= RETURN_MOST
        && work as usize <= WORK_SIZE
        && is_place(length, place)
}

// Whether a node is there and is not the root. There is no way out between the tests: with one, runs that reckon took 6 in 100 instructions
// more.
fn is_below_root(nodes: usize, node: u32) -> bool
    ensures { result ≡ below_root nodes node }
{
    ((node as usize) < nodes) & (1 <= node)
}

// Whether every height, count, place, base, number, record and node of a state is in its limits.
#[tactic(auto, unfolding(crate::specs::Whole::whole_of))]
pub fn is_whole(st: State) -> bool
    ensures { result ≡ whole_of st }
{
    are_heights(
        st.length,
        st.place,
        st.stack.height,
        st.back.height,
        st.work_place,
    ) && are_frames(st.length, &st.calls, st.back.height)
        && are_numbers(st.length, &st.numbers)
        && tree::is_whole(st.tree)
        && is_below_root(st.tree.nodes, st.first) & is_below_root(st.tree.nodes, st.active)
}
