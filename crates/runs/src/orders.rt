// The order of a step's and a run's tests: 6, 1, 7, 4, then finish, then budget, then the token. A state is offered with things wrong that
// come later.
use crate::damage::damaged;
use crate::evaluator::{open, run};
use crate::finds::show_lookup_orders;
use crate::same::same_states;
use crate::show::show_answer;
use crate::trial::{both_sums, show_kept, show_tried, state_after};
use state::{Back, Calls, Numbers, Stack, State};
use std::io;

// A state offered, under the number of its line.
fn show_order(
    rt: &impl Print,
    k: u32,
    rom: &[u8],
    work: &mut [u8],
    store: &mut [u8],
    state: State,
    budget: u32,
) -> io::Result<()> {
    print!(rt; "order {k}")?;
    show_tried(rt, rom, work, store, state, budget)
}

// A buffer of another size than 16,384 is 6 before all else: a ROM of no bytes and a damaged state would be 1 and 7.
fn show_sizes(rt: &impl Print, rom: &[u8], bad: State) -> io::Result<()> {
    let mut right = [0u8; 16384];
    let mut short = [0u8; 16383];
    let mut long = [0u8; 16385];
    show_order(rt, 0, rom, &mut short, &mut right, bad, 0)?;
    show_order(rt, 1, rom, &mut right, &mut long, bad, 0)
}

// The same with buffers of the right size.
fn show_offered(rt: &impl Print, k: u32, rom: &[u8], state: State, budget: u32) -> io::Result<()> {
    let mut work = [0u8; 16384];
    let mut store = [0u8; 16384];
    show_order(rt, k, rom, &mut work, &mut store, state, budget)
}

fn with_length(state: State, length: u32) -> State {
    State { length, ..state }
}

fn show_roms(rt: &impl Print, rom: &[u8], state: State, bad: State) -> io::Result<()> {
    let long = [0u8; 65537];
    show_offered(rt, 2, &long[..0], bad, 0)?;
    show_offered(rt, 3, &long, bad, 0)?;
    show_offered(rt, 4, rom, with_length(bad, 16384), 0)?;
    show_offered(rt, 5, rom, with_length(state, 16384), 0)
}

// The ends of a run: a state at its budget, a finished state.
fn show_ends(rt: &impl Print, rom: &[u8], state: State, finished: State) -> io::Result<()> {
    show_offered(rt, 6, rom, state, 0)?;
    show_offered(rt, 7, rom, finished, 0)?;
    show_offered(rt, 8, rom, finished, 1000)?;
    show_offered(rt, 9, rom, damaged(0, finished), 1000)?;
    show_offered(rt, 10, rom, with_length(finished, 16384), 1000)
}

fn zero_state() -> State {
    let stack = Stack {
        cells: [0u32; 64],
        height: 0,
    };
    let back = Back {
        cells: [0u32; 32],
        height: 0,
    };
    let calls = Calls {
        places: [0u32; 16],
        wides: [false; 16],
        bases: [0usize; 16],
        count: 0,
    };
    let numbers = Numbers {
        programs: [0u32; 256],
        kinds: [0u8; 256],
        values: [0u32; 256],
        wides: [false; 256],
        count: 0,
    };
    State {
        length: 0,
        place: 0,
        wide: false,
        finished: false,
        stack,
        back,
        calls,
        numbers,
        work_place: 0,
        active: 0,
        first: 0,
        tree: tree::no_tree(),
    }
}

// A refused opening writes nothing and hands back the all-zero state.
fn show_opening(rt: &impl Print, rom: &[u8]) -> io::Result<()> {
    let mut work = [0xA5u8; 16384];
    let mut store = [0x5Au8; 16384];
    let sums = both_sums(&work, &store);
    let opened = open(rom, &mut work, &mut store);
    print!(rt; "opening")?;
    show_answer(rt, opened.answer)?;
    show_kept(
        rt,
        same_states(opened.state, zero_state()) && sums == both_sums(&work, &store),
    )
}

pub fn show_orders(rt: &impl Print, rom: &[u8], budget: u32) -> io::Result<()> {
    let mut work = [0u8; 16384];
    let mut store = [0u8; 16384];
    let state = state_after(rom, &mut work, &mut store, budget);
    let ran = run(rom, &mut work, &mut store, state, 1000);
    let bad = damaged(0, state);
    show_sizes(rt, &rom[..0], bad)?;
    show_roms(rt, rom, state, bad)?;
    show_ends(rt, rom, state, ran.state)?;
    show_opening(rt, &rom[..0])?;
    show_opening(rt, rom)?;
    show_lookup_orders(rt, state)
}
