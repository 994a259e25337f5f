// Opens ROMs, runs them, and shows all that is left: a line of standard input each, by its first letter. Behind R stand a ROM in hex, a
// budget, and words for lookups in what the run left, behind D a number of two digits, a ROM and a budget: the state then is damaged in the
// way that has this number, and offered again. Behind L stands the same and another ROM, with which the state is offered. Behind W stands
// what stands behind D, for a state that is altered and still whole. Behind O stand a ROM and a budget, for the order in which the tests of
// a step and a run come.
#![tactic(auto)]

mod damage;
mod evaluator;
mod finds;
mod odd;
mod orders;
mod same;
mod show;
mod sum;
mod trial;

use crate::odd::show_odd;
use crate::orders::show_orders;
use crate::trial::{show_damaged, show_lent, show_run};
use given::{SPACE, TEXT, bytes_from, digits_at, each_line, read_text, word_end};
use std::io;

// R: a ROM and a budget, and the lookups to make then.
fn one_run(rt: &impl Print, line: &[u8]) -> io::Result<()> {
    let mut space = [0u8; SPACE];
    let n = bytes_from(line, 2, &mut space);
    let behind = word_end(line, 2) + 1;
    show_run(
        rt,
        &space[..n],
        digits_at(line, behind),
        words_from(line, behind),
    )
}

// What stands behind the word at a place, from its space on.
fn words_from(line: &[u8], from: usize) -> &[u8] {
    let end = word_end(line, from);
    &line[end..]
}

// What stands behind D and W: a number of two digits, a ROM and a budget.
fn numbered<F: FnOnce(u32, &[u8], u32) -> io::Result<()>>(line: &[u8], show: F) -> io::Result<()>
    requires { F.IsAlwaysCallable show }
{
    let mut space = [0u8; SPACE];
    let n = bytes_from(line, 5, &mut space);
    let budget = digits_at(line, word_end(line, 5) + 1);
    show(digits_at(line, 2), &space[..n], budget)
}

// L: a state that one ROM's run left, damaged or not, and another ROM. Both are short: of two large arrays the checker would hold more than
// it needs to.
fn one_lent(rt: &impl Print, line: &[u8]) -> io::Result<()> {
    let mut space = [0u8; 256];
    let mut other = [0u8; 256];
    let n = bytes_from(line, 5, &mut space);
    let behind = word_end(line, 5) + 1;
    let m = bytes_from(line, word_end(line, behind) + 1, &mut other);
    show_lent(
        rt,
        digits_at(line, 2),
        &space[..n],
        digits_at(line, behind),
        &other[..m],
    )
}

// O: orders.
fn one_order(rt: &impl Print, line: &[u8]) -> io::Result<()> {
    let mut space = [0u8; SPACE];
    let n = bytes_from(line, 2, &mut space);
    show_orders(rt, &space[..n], digits_at(line, word_end(line, 2) + 1))
}

fn one_line(rt: &impl Print, line: &[u8]) -> io::Result<()> {
    match line {
        [b'R', ..] => one_run(rt, line),
        [b'D', ..] => numbered(line, |k, rom, budget| show_damaged(rt, k, rom, budget)),
        [b'L', ..] => one_lent(rt, line),
        [b'W', ..] => numbered(line, |k, rom, budget| show_odd(rt, k, rom, budget)),
        [b'O', ..] => one_order(rt, line),
        _ => println!(rt; "no such line"),
    }
}

fn main(rt: HostRuntime) -> io::Result<()> {
    let mut text = [0u8; TEXT];
    let n = read_text(&mut rt.stdin(), &mut text)?;
    each_line(&text[..n], |line| one_line(&rt, line))
}
