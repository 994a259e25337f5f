// A ROM opened and run, and a damaged state offered again.
use crate::damage::damaged;
use crate::evaluator::{open, run, step};
use crate::finds::{show_damaged_finds, show_finds, show_rows};
use crate::same::same_states;
use crate::show::{show_answer, show_state};
use crate::sum::crc;
use state::{Answer, Ran, State};
use std::io;

// An answer with the count of the run, which a spent budget is told with.
fn show_ran(rt: &impl Print, answer: Answer, count: u32) -> io::Result<()> {
    show_answer(rt, answer)?;
    match answer {
        Answer::Spent(n) if n != count => print!(rt; " with another count"),
        _ => Ok(()),
    }
}

// What a run leaves.
pub fn show_left(rt: &impl Print, ran: Ran, work: &[u8], store: &[u8]) -> io::Result<()> {
    let count = ran.count;
    print!(rt; "open 0\nrun")?;
    show_ran(rt, ran.answer, count)?;
    println!(rt; "\nsteps {count}")?;
    show_state(rt, ran.state, work, store)
}

fn show_opened(
    rt: &impl Print,
    rom: &[u8],
    work: &mut [u8],
    store: &mut [u8],
    state: State,
    budget: u32,
    words: &[u8],
) -> io::Result<()> {
    let ran = run(rom, &mut *work, &mut *store, state, budget);
    let left = ran.state;
    show_left(rt, ran, &*work, &*store)?;
    show_rows(rt, left)?;
    show_finds(rt, &*store, left, words)
}

// Opens and runs, and looks up what the words say. The buffers are not zero before: opening zeroes them.
pub fn show_run(rt: &impl Print, rom: &[u8], budget: u32, words: &[u8]) -> io::Result<()> {
    let mut work = [0xA5u8; 16384];
    let mut store = [0x5Au8; 16384];
    let opened = open(rom, &mut work, &mut store);
    let answer = opened.answer;
    let state = opened.state;
    match answer {
        Answer::Going => show_opened(rt, rom, &mut work, &mut store, state, budget, words),
        Answer::Refused(why) => println!(rt; "open {}", why.number()),
        _ => println!(rt; "neither opened nor refused"),
    }
}

// Steps a state and runs it, and tells the answers, and whether state, work memory and store are as before.
pub fn show_tried(
    rt: &impl Print,
    rom: &[u8],
    work: &mut [u8],
    store: &mut [u8],
    state: State,
    budget: u32,
) -> io::Result<()> {
    let sums = both_sums(&*work, &*store);
    let stepped = step(rom, &mut *work, &mut *store, state);
    let ran = run(rom, &mut *work, &mut *store, state, budget);
    show_answers(rt, stepped.answer, ran.answer, ran.count)?;
    show_kept(
        rt,
        same_states(state, stepped.state)
            && same_states(state, ran.state)
            && sums == both_sums(&*work, &*store),
    )
}

#[derive(Clone, Copy, PartialEq)]
pub struct Sums(u32, u32);

pub fn both_sums(work: &[u8], store: &[u8]) -> Sums {
    Sums(crc(work), crc(store))
}

fn show_answers(rt: &impl Print, step: Answer, run: Answer, count: u32) -> io::Result<()> {
    print!(rt; " step")?;
    show_answer(rt, step)?;
    print!(rt; " run")?;
    show_ran(rt, run, count)?;
    print!(rt; " steps {count}")
}

pub fn show_kept(rt: &impl Print, kept: bool) -> io::Result<()> {
    if kept {
        println!(rt; " unchanged")
    } else {
        println!(rt; " changed")
    }
}

// The state that a ROM's run leaves.
pub fn state_after(rom: &[u8], work: &mut [u8], store: &mut [u8], budget: u32) -> State {
    let opened = open(rom, &mut *work, &mut *store);
    let ran = run(rom, &mut *work, &mut *store, opened.state, budget);
    ran.state
}

pub fn show_damaged(rt: &impl Print, k: u32, rom: &[u8], budget: u32) -> io::Result<()> {
    let mut work = [0u8; 16384];
    let mut store = [0u8; 16384];
    let state = state_after(rom, &mut work, &mut store, budget);
    let bad = damaged(k, state);
    show_damaged_finds(rt, &store, bad)?;
    print!(rt; "damaged {k}")?;
    show_tried(rt, rom, &mut work, &mut store, bad, 1000)
}

// A state that one ROM's run left, damaged in one way or not, offered with another ROM, and what that leaves. It is offered three times
// with the same memories, so that what its tokens write must be the same each time.
pub fn show_lent(rt: &impl Print, k: u32, rom: &[u8], budget: u32, other: &[u8]) -> io::Result<()> {
    let mut work = [0u8; 16384];
    let mut store = [0u8; 16384];
    let state = state_after(rom, &mut work, &mut store, budget);
    let offered = damaged(k, state);
    print!(rt; "lent {k}")?;
    show_tried(rt, other, &mut work, &mut store, offered, 1000)?;
    let ran = run(other, &mut work, &mut store, offered, 1000);
    show_left(rt, ran, &work, &store)
}
