// Screens ROMs, and shows the answer and the mark buffer: a line of standard input each, by its first letter. Behind S stands a ROM in hex,
// behind W the mark buffer's size and a ROM, behind M how often a ROM is screened, and the ROM.
#![tactic(auto)]

mod show;

use crate::show::{show_last, show_screened};
use given::{SPACE, TEXT, bytes_from, digits_at, each_line, read_text, word_end};
use std::io;

// Where a line's ROM starts: behind the letter and a space, or behind the number and a space.
fn rom_start(line: &[u8]) -> usize {
    if line.starts_with(b"S") {
        return 2;
    }
    word_end(line, 2) + 1
}

fn one_line(rt: &impl Print, line: &[u8]) -> io::Result<()> {
    let mut space = [0u8; SPACE];
    let n = bytes_from(line, rom_start(line), &mut space);
    let rom = &space[..n];
    let number = digits_at(line, 2);
    match line {
        [b'S', ..] => show_screened(rt, rom, 65536),
        [b'W', ..] => show_screened(rt, rom, number),
        [b'M', ..] => show_last(rt, rom, number),
        _ => println!(rt; "no such line"),
    }
}

fn main(rt: HostRuntime) -> io::Result<()> {
    let mut text = [0u8; TEXT];
    let n = read_text(&mut rt.stdin(), &mut text)?;
    each_line(&text[..n], |line| one_line(&rt, line))
}
