// A ROM, screened, opened and run.
use machine::run;
use rom::Refusal;
use rom::sizes::{MARKS_SIZE, STORE_SIZE, WORK_SIZE};
use screen::screen;
use state::{State, number_of, open};

// How a run ended: its number, 0 for a finish, its steps, and the state then.
#[derive(Clone, Copy)]
pub struct Ended {
    pub number: u32,
    pub steps: u32,
    pub state: State,
}

// Why a ROM does not pass; none where it passes.
pub fn refusal_of(rom: &[u8]) -> Option<Refusal> {
    let mut marks = [0u8; MARKS_SIZE];
    screen(rom, &mut marks).err()
}

// A ROM with a good header, from its opening on, whether it passes or not: any ROM may be run.
pub fn ended_run(rom: &[u8], store: &mut [u8], budget: u32) -> Ended {
    let mut work = [0u8; WORK_SIZE];
    let opened = open(rom, &mut work, &mut *store);
    let ran = run(rom, &mut work, &mut *store, opened.state, budget);
    Ended {
        number: number_of(ran.answer),
        steps: ran.count,
        state: ran.state,
    }
}
