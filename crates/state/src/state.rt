// The evaluator's state, a value, nested by owner. Work memory and store are lent beside it. An array's entries below its count are live,
// those above are left as they are.
use rom::sizes::{DATA_MOST, FRAMES_MOST, NUMBERS_MOST, RETURN_MOST};
use tree::Tree;

#[derive(Clone, Copy)]
pub struct Stack {
    pub cells: [u32; DATA_MOST],
    pub height: usize,
}

#[derive(Clone, Copy)]
pub struct Back {
    pub cells: [u32; RETURN_MOST],
    pub height: usize,
}

// The open calls, the oldest first: where each goes back to, the offset width in force there, and the return stack's height at its entry.
#[derive(Clone, Copy)]
pub struct Calls {
    pub places: [u32; FRAMES_MOST],
    pub wides: [bool; FRAMES_MOST],
    pub bases: [usize; FRAMES_MOST],
    pub count: usize,
}

// The program numbers, the oldest first: the number, its kind byte, its value (of b(:) the body's place, of b(variable) its address), and
// the offset width in force where it was defined.
#[derive(Clone, Copy)]
pub struct Numbers {
    pub programs: [u32; NUMBERS_MOST],
    pub kinds: [u8; NUMBERS_MOST],
    pub values: [u32; NUMBERS_MOST],
    pub wides: [bool; NUMBERS_MOST],
    pub count: usize,
}

// The active node is the one that properties go to, and the first is the one that the program started at, which no finish-device leaves.
#[derive(Clone, Copy)]
pub struct State {
    pub length: u32,
    pub place: u32,
    pub wide: bool,
    pub finished: bool,
    pub stack: Stack,
    pub back: Back,
    pub calls: Calls,
    pub numbers: Numbers,
    pub work_place: u32,
    pub active: u32,
    pub first: u32,
    pub tree: Tree,
}
