// Runs every token of the crate cells at the ends of the range, and prints a line for each: the token's number, the cells that it
// takes, the lowest first, and what it gives.
#![tactic(auto)]

use cells::Divided;
use std::io;

// The five cells that every token is run at; a shift is run at the last three counts too.
fn sample(i: usize) -> u32 {
    match i {
        0 => 0,
        1 => 1,
        2 => 0x7FFF_FFFF,
        3 => 0x8000_0000,
        4 => 0xFFFF_FFFF,
        5 => 31,
        6 => 32,
        _ => 33,
    }
}

fn one_of(token: u32, a: u32) -> u32 {
    match token {
        0x26 => cells::invert(a),
        0x2C => cells::negate(a),
        0x2D => cells::abs(a),
        0x34 => cells::zero_equal(a),
        0x35 => cells::zero_unequal(a),
        0x36 => cells::zero_less(a),
        0x37 => cells::zero_at_most(a),
        0x38 => cells::zero_greater(a),
        0x39 => cells::zero_at_least(a),
        0x57 => cells::half(a),
        0x58 => cells::u_half(a),
        _ => cells::double(a),
    }
}

fn two_of(token: u32, a: u32, b: u32) -> u32 {
    match token {
        0x1E => cells::plus(a, b),
        0x1F => cells::minus(a, b),
        0x20 => cells::times(a, b),
        0x23 => cells::and(a, b),
        0x24 => cells::or(a, b),
        0x25 => cells::xor(a, b),
        0x27 => cells::lshift(a, b),
        0x28 => cells::rshift(a, b),
        0x29 => cells::ashift(a, b),
        0x2E => cells::min(a, b),
        0x2F => cells::max(a, b),
        0x3A => cells::less(a, b),
        0x3B => cells::greater(a, b),
        0x3C => cells::equal(a, b),
        0x3D => cells::unequal(a, b),
        0x3E => cells::u_greater(a, b),
        0x3F => cells::u_at_most(a, b),
        0x40 => cells::u_less(a, b),
        0x41 => cells::u_at_least(a, b),
        0x42 => cells::at_least(a, b),
        _ => cells::at_most(a, b),
    }
}

fn three_of(token: u32, n: u32, min: u32, max: u32) -> u32 {
    match token {
        0x44 => cells::between(n, min, max),
        _ => cells::within(n, min, max),
    }
}

// The lowest digit of n in base 16.
fn digit(n: u32) -> u8 {
    let d = (n % 16) as u8;
    if d < 10 { b'0' + d } else { b'A' + (d - 10) }
}

fn print_token(rt: &impl Print, token: u32) -> io::Result<()> {
    let text = [digit(token / 16), digit(token)];
    rt.write_all(&text)
}

// A space and the eight digits of a cell.
fn print_cell(rt: &impl Print, a: u32) -> io::Result<()> {
    let text = [
        b' ',
        digit(a / 0x1000_0000),
        digit(a / 0x0100_0000),
        digit(a / 0x0010_0000),
        digit(a / 0x0001_0000),
        digit(a / 0x0000_1000),
        digit(a / 0x0000_0100),
        digit(a / 0x0000_0010),
        digit(a),
    ];
    rt.write_all(&text)
}

fn print_divided(rt: &impl Print, divided: Option<Divided>) -> io::Result<()> {
    match divided {
        None => rt.write_all(b" zero"),
        Some(
            Divided {
                remainder,
                quotient,
            },
        ) => {
            print_cell(rt, remainder)?;
            print_cell(rt, quotient)
        }
    }
}

fn print_one(rt: &impl Print, token: u32, a: u32) -> io::Result<()> {
    print_cell(rt, a)?;
    print_cell(rt, one_of(token, a))
}

fn print_two(rt: &impl Print, token: u32, a: u32, b: u32) -> io::Result<()> {
    print_cell(rt, a)?;
    print_cell(rt, b)?;
    if token == 0x2B {
        print_divided(rt, cells::u_mod(a, b))
    } else {
        print_cell(rt, two_of(token, a, b))
    }
}

fn print_three(rt: &impl Print, token: u32, n: u32, min: u32, max: u32) -> io::Result<()> {
    print_cell(rt, n)?;
    print_cell(rt, min)?;
    print_cell(rt, max)?;
    print_cell(rt, three_of(token, n, min, max))
}

// What a token takes from the stack. The count of a shift is the upper cell.
#[derive(Clone, Copy)]
enum Takes {
    One,
    Two,
    CellAndCount,
    Three,
}

fn print_line(rt: &impl Print, token: u32, takes: Takes, i: usize) -> io::Result<()> {
    print_token(rt, token)?;
    match takes {
        Takes::One => print_one(rt, token, sample(i))?,
        Takes::Two => print_two(rt, token, sample(i / 5), sample(i % 5))?,
        Takes::CellAndCount => print_two(rt, token, sample(i / 8), sample(i % 8))?,
        Takes::Three => print_three(rt, token, sample(i / 25), sample(i / 5 % 5), sample(i % 5))?,
    }
    rt.write_all(b"\n")
}

fn lines_of(takes: Takes) -> usize {
    match takes {
        Takes::One => 5,
        Takes::Two => 25,
        Takes::CellAndCount => 40,
        Takes::Three => 125,
    }
}

fn run(rt: &impl Print, token: u32, takes: Takes) -> io::Result<()> {
    for i in 0..lines_of(takes) {
        print_line(rt, token, takes, i)?;
    }
    Ok(())
}

fn takes_of(token: u32) -> Takes {
    match token {
        0x26 | 0x2C | 0x2D | 0x34..=0x39 | 0x57..=0x59 => Takes::One,
        0x27..=0x29 => Takes::CellAndCount,
        0x44 | 0x45 => Takes::Three,
        _ => Takes::Two,
    }
}

// The tokens from `from` up to `to`, which is left out.
fn run_all(rt: &impl Print, from: u32, to: u32) -> io::Result<()> {
    for token in from..to {
        run(rt, token, takes_of(token))?;
    }
    Ok(())
}

// The arithmetic and the comparisons of document 01's list, by number: the numbers between are other tokens or none.
fn main(rt: HostRuntime) -> io::Result<()> {
    run_all(&rt, 0x1E, 0x21)?;
    run_all(&rt, 0x23, 0x2A)?;
    run_all(&rt, 0x2B, 0x30)?;
    run_all(&rt, 0x34, 0x46)?;
    run_all(&rt, 0x57, 0x5A)
}
