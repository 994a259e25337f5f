// Opening a ROM.
ghost use Rattle.std.specs.Prelude.{◌≡◌, false};
ghost use Rattle.state.specs.Answer.{stepped_in};
ghost use Rattle.state.specs.Scene.{handed_back};
ghost use Rattle.rom.specs.Spread.{fcode_of};
ghost use Rattle.state.specs.Open.{empty_state, zero_state, open_of};

use crate::answer::Stepped;
use crate::moves::{going, refused};
use crate::state::{Back, Calls, Numbers, Stack, State};
use rom::sizes::{
    DATA_MOST, FIRST_PLACE, FRAMES_MOST, NUMBERS_MOST, RETURN_MOST, STORE_SIZE, WORK_SIZE,
};
use rom::{Refusal, check_header, program_length, spread_of, wide_start};
use tree::{Tree, fresh_tree, no_tree};

const START: u32 = FIRST_PLACE as u32;

// Nothing on the stacks, no calls, no numbers; the first node is active.
fn empty_state(length: u32, place: u32, wide: bool, first: u32, tree: Tree) -> State
    ensures { result ≡ empty_state length place wide first tree }
{
    let stack = Stack {
        cells: [0u32; DATA_MOST],
        height: 0,
    };
    let back = Back {
        cells: [0u32; RETURN_MOST],
        height: 0,
    };
    let calls = Calls {
        places: [0u32; FRAMES_MOST],
        wides: [false; FRAMES_MOST],
        bases: [0usize; FRAMES_MOST],
        count: 0,
    };
    let numbers = Numbers {
        programs: [0u32; NUMBERS_MOST],
        kinds: [0u8; NUMBERS_MOST],
        values: [0u32; NUMBERS_MOST],
        wides: [false; NUMBERS_MOST],
        count: 0,
    };
    State {
        length,
        place,
        wide,
        finished: false,
        stack,
        back,
        calls,
        numbers,
        work_place: 0,
        active: first,
        first,
        tree,
    }
}

// The state that a refused opening hands back.
fn zero_state() -> State
    ensures { result ≡ zero_state }
{
    empty_state(0, 0, false, 0, no_tree())
}

// Tests the buffers and the header in the order 6, 1, 2, 3, 4, 5, and starts the program: work memory and store are zeroed. A refused
// opening writes nothing and hands back the all-zero state.
#[tactic(auto, unfolding(crate::specs::Open::open_of))]
pub fn open(rom: &[u8], work: &mut [u8], store: &mut [u8]) -> Stepped
    ensures { handed_back (stepped_in result) work.new store.new
        ≡ open_of (fcode_of rom.now) work.old store.old }
{
    if work.len() != WORK_SIZE || store.len() != STORE_SIZE {
        return refused(zero_state(), Refusal::WrongSize);
    }
    if let Err(why) = check_header(rom) {
        return refused(zero_state(), why);
    }
    let length = program_length(rom, spread_of(rom));
    work.fill(0);
    store.fill(0);
    going(empty_state(length, START, wide_start(rom), 1, fresh_tree()))
}
