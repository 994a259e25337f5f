// What a run leaves, in the form of the worked cases.
use crate::sum::crc;
use rom::sizes::PROPERTIES_MOST;
use state::{Answer, Back, Calls, Numbers, Stack, State};
use std::io;
use tree::Tree;

pub fn show_answer(rt: &impl Print, answer: Answer) -> io::Result<()> {
    match answer {
        Answer::Going => print!(rt; " going"),
        Answer::Finished => print!(rt; " finished"),
        Answer::Refused(why) => print!(rt; " refused {}", why.number()),
        Answer::Spent(_) => print!(rt; " budget"),
    }
}

// What stands at an index, and zero behind the end: a damaged state may count more than it has room for.
fn at<T: Copy + Default>(items: &[T], k: usize) -> T {
    items.get(k).copied().unwrap_or_default()
}

// Bytes from a place up to an end, and a dash where there are none.
pub fn say_bytes(rt: &impl Print, bytes: &[u8], from: usize, end: usize) -> io::Result<()> {
    print!(rt; " ")?;
    if end <= from {
        print!(rt; "-")?;
    }
    for k in from..end {
        print!(rt; "{:02X}", at(bytes, k))?;
    }
    Ok(())
}

fn show_cells(rt: &impl Print, cells: &[u32], height: usize) -> io::Result<()> {
    for k in 0..height {
        print!(rt; " {:08X}", at(cells, k))?;
    }
    println!(rt)
}

fn show_calls(rt: &impl Print, calls: Calls) -> io::Result<()> {
    print!(rt; "frames")?;
    for k in 0..calls.count {
        print!(rt; " {}:{}", at(&calls.places, k), at(&calls.bases, k))?;
    }
    println!(rt)
}

fn show_kind(rt: &impl Print, kind: u8) -> io::Result<()> {
    match kind {
        0xB7 => print!(rt; ":colon:"),
        0xB8 => print!(rt; ":value:"),
        0xB9 => print!(rt; ":variable:"),
        0xBA => print!(rt; ":constant:"),
        _ => print!(rt; "{kind:02X}"),
    }
}

// A program number has three digits.
fn show_number(rt: &impl Print, program: u32, kind: u8, value: u32) -> io::Result<()> {
    print!(rt; " {:03X}", program % 0x1000)?;
    show_kind(rt, kind)?;
    print!(rt; "{value:08X}")
}

fn show_numbers(rt: &impl Print, numbers: Numbers) -> io::Result<()> {
    print!(rt; "numbers")?;
    for k in 0..numbers.count {
        show_number(
            rt,
            at(&numbers.programs, k),
            at(&numbers.kinds, k),
            at(&numbers.values, k),
        )?;
    }
    println!(rt)
}

fn show_nodes(rt: &impl Print, active: u32, tree: Tree) -> io::Result<()> {
    print!(rt; "nodes {active}")?;
    for k in 0..tree.nodes {
        print!(rt; " {}", at(&tree.parents, k))?;
    }
    println!(rt)
}

// A property's name stands from a place up to its value, and the value up to an end.
fn show_property(
    rt: &impl Print,
    node: u32,
    store: &[u8],
    name: usize,
    value: usize,
    end: usize,
) -> io::Result<()> {
    print!(rt; "prop {node}")?;
    say_bytes(rt, store, name, value)?;
    say_bytes(rt, store, value, end)?;
    println!(rt)
}

fn show_properties(rt: &impl Print, tree: Tree, store: &[u8]) -> io::Result<()> {
    let mut at = 0;
    for k in 0..tree.held.min(PROPERTIES_MOST) {
        let value = at + tree.name_sizes[k] as usize;
        let end = value + tree.value_sizes[k] as usize;
        show_property(rt, tree.owners[k], store, at, value, end)?;
        at = end;
    }
    Ok(())
}

fn show_place(rt: &impl Print, place: u32, wide: bool) -> io::Result<()> {
    let width = if wide { 16 } else { 8 };
    println!(rt; "place {place} width {width}")
}

fn show_stacks(rt: &impl Print, stack: Stack, back: Back) -> io::Result<()> {
    print!(rt; "data")?;
    show_cells(rt, &stack.cells, stack.height)?;
    print!(rt; "return")?;
    show_cells(rt, &back.cells, back.height)
}

pub fn show_state(rt: &impl Print, state: State, work: &[u8], store: &[u8]) -> io::Result<()> {
    show_place(rt, state.place, state.wide)?;
    show_stacks(rt, state.stack, state.back)?;
    show_calls(rt, state.calls)?;
    show_numbers(rt, state.numbers)?;
    show_nodes(rt, state.active, state.tree)?;
    show_properties(rt, state.tree, store)?;
    println!(rt; "work {} {:08X}", state.work_place, crc(work))?;
    println!(rt; "store {:08X}", crc(store))
}
