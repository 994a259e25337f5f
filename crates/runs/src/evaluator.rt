// The evaluator's calls without what they promise: nothing that is printed rests on a contract, and the checks of the callers need not
// carry it.
use state::{Ran, State, Stepped};

pub fn open(rom: &[u8], work: &mut [u8], store: &mut [u8]) -> Stepped {
    state::open(rom, work, store)
}

pub fn step(rom: &[u8], work: &mut [u8], store: &mut [u8], state: State) -> Stepped {
    machine::step(rom, work, store, state)
}

pub fn run(rom: &[u8], work: &mut [u8], store: &mut [u8], state: State, budget: u32) -> Ran {
    machine::run(rom, work, store, state, budget)
}
