// Whole states that no run of an opened ROM leaves, each under a number of its own: any state may be offered. The state to alter holds a
// colon definition, a value and a constant, and node 2 is active, a child of node 1.
use crate::evaluator::run;
use crate::trial::{show_left, state_after};
use rom::sizes::STORE_SIZE;
use state::State;
use std::io;

// The state altered in one way, or, under 3, bytes put behind the live ones.
fn altered(k: u32, state: State, store: &mut [u8; STORE_SIZE]) -> State {
    let mut st = state;
    match k {
        0 => st.numbers.programs[2] = 0x801,
        1 => st.numbers.kinds[0] = 200,
        2 => st.tree.parents[2] = 0,
        3 => {
            store[100] = 0x5A;
            store[16383] = 0x5A;
        }
        _ => {}
    }
    st
}

// Runs a ROM up to a budget, alters what is left, and runs that to its end, which the highest budget does not keep it from.
pub fn show_odd(rt: &impl Print, k: u32, rom: &[u8], budget: u32) -> io::Result<()> {
    let mut work = [0u8; 16384];
    let mut store = [0u8; STORE_SIZE];
    let left = state_after(rom, &mut work, &mut store, budget);
    let state = altered(k, left, &mut store);
    let ran = run(rom, &mut work, &mut store, state, u32::MAX);
    show_left(rt, ran, &work, &store)
}
