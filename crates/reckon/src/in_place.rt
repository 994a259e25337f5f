// The tokens that a program spends its time on, in place: no part of the state is copied but two heights and a place. `step` and `run`
// both go through here, so that no token's meaning is written twice.
ghost use Rattle.std.specs.Prelude.{◌≡◌, Bool, List, ℕ, ◌≤◌, ◌<◌, ◌+◌, length};
ghost use Rattle.rom.specs.Bytes.{byte_of, word32_of};
ghost use Rattle.rom.specs.Branch.{aim_of, place_in};
ghost use Rattle.state.specs.Joints.Apart.{base_in};
ghost use Rattle.reckon.specs.Joints.Turned.{turned_in};
ghost use Rattle.reckon.specs.Joints.Fast.{behind_branch, HoldsFast, Reads, Fast};
ghost use Rattle.rom.specs.Sizes.{data_most, return_most, rom_most};

use crate::reckon::{
    by_one, by_three, by_two, copy_return, divide, drop_one, drop_two, dup, dup_two, from_return,
    maybe, nothing, over, over_two, pick_up, push, roll_up, rot, rot_back, rot_two, swap, swap_two,
    to_return, tuck,
};
use crate::turned::{Turned, cold, on, refuse};
use rom::sizes::{DATA_MOST, FRAMES_MOST, RETURN_MOST};
use rom::{Refusal, destination};
use state::base;

fn behind_branch(wide: bool, place: u32) -> u32
    requires { place ≤ rom_most }
    ensures { result ≡ behind_branch wide place }
{
    if wide { place + 1 + 2 } else { place + 1 + 1 }
}

// Where the branch at a place leads, 0 for outside.
fn branch_to(rom: &[u8], length: u32, wide: bool, place: u32) -> u32
    requires { place ≤ rom_most }
    ensures { result ≡ place_in (aim_of rom.now length wide (place + 1)) }
{
    destination(rom, length, wide, place + 1)
}

// The byte and the word at a place that is known to be inside.
fn byte_at(rom: &[u8], at: usize) -> u8
    requires { at < length rom.now }
    ensures { result ≡ byte_of rom.now at }
{
    rom[at]
}

fn word_at(rom: &[u8], at: usize) -> u32
    requires { at + 4 ≤ length rom.now }
    ensures { result ≡ word32_of rom.now at }
{
    let p = byte_at(rom, at) as u32;
    let q = byte_at(rom, at + 1) as u32;
    let r = byte_at(rom, at + 2) as u32;
    let s = byte_at(rom, at + 3) as u32;
    p * 16777216 + q * 65536 + r * 256 + s
}

// 10 b(lit)
fn literal(
    rom: &[u8],
    length: u32,
    stack: &mut [u32; DATA_MOST],
    h: usize,
    b: usize,
    place: u32,
) -> Turned
    requires { (h ≤ data_most) × (b ≤ return_most) × (place < length) × (length ≤ rom_most) × HoldsFast rom.now length }
    ensures { (wide : Bool) → Reads 0x10 rom.now length wide stack.old h b place (turned_in result) stack.new }
{
    if length < place + 5 {
        return refuse(Refusal::CutOff, h, b, place);
    }
    if DATA_MOST <= h {
        return refuse(Refusal::TooHigh, h, b, place);
    }
    let at = place as usize;
    stack[h] = word_at(rom, at + 1);
    on(h + 1, b, place + 5)
}

// 13 bbranch
fn always(rom: &[u8], length: u32, wide: bool, h: usize, b: usize, place: u32) -> Turned
    requires { (h ≤ data_most) × (b ≤ return_most) × (place < length) × (length ≤ rom_most) }
    ensures { (c : List ℕ) → Reads 0x13 rom.now length wide c h b place (turned_in result) c }
{
    if length < behind_branch(wide, place) {
        return refuse(Refusal::CutOff, h, b, place);
    }
    let to = branch_to(rom, length, wide, place);
    if to == 0 {
        return refuse(Refusal::Astray, h, b, place);
    }
    on(h, b, to)
}

// 14 b?branch
fn choose(
    rom: &[u8],
    length: u32,
    wide: bool,
    stack: &[u32; DATA_MOST],
    h: usize,
    b: usize,
    place: u32,
) -> Turned
    requires { (h ≤ data_most) × (b ≤ return_most) × (place < length) × (length ≤ rom_most) }
    ensures { Reads 0x14 rom.now length wide stack.now h b place (turned_in result) stack.now }
{
    let next = behind_branch(wide, place);
    if length < next {
        return refuse(Refusal::CutOff, h, b, place);
    }
    if h < 1 {
        return refuse(Refusal::TooLow, h, b, place);
    }
    if stack[h - 1] != 0 {
        return on(h - 1, b, next);
    }
    let to = branch_to(rom, length, wide, place);
    if to == 0 {
        return refuse(Refusal::Astray, h, b, place);
    }
    on(h - 1, b, to)
}

// One token in place, of a state that is ready. The `match` is the one jump that a token costs: each arm gives its number as a literal,
// so that the compiler makes code of its own of what is called there. A token that starts behind the program is cut off, whatever it is.
// It has a parameter for each part of a state that one of them may ask for, since no struct is built for a token.
pub fn fast(
    rom: &[u8],
    length: u32,
    wide: bool,
    stack: &mut [u32; DATA_MOST],
    back: &mut [u32; RETURN_MOST],
    h: usize,
    b: usize,
    bases: &[usize; FRAMES_MOST],
    frames: usize,
    place: u32,
) -> Turned
    requires { (h ≤ data_most) × (base_in bases.now frames ≤ b) × (b ≤ return_most) × (8 ≤ place) × (place ≤ length) × (length ≤ rom_most)
        × HoldsFast rom.now length }
    ensures { Fast rom.now length wide (base_in bases.now frames) stack.old h
        back.old b place (turned_in result) stack.new back.new }
{
    if length <= place {
        return refuse(Refusal::CutOff, h, b, place);
    }
    match byte_at(rom, place as usize) {
        0x10 => literal(rom, length, stack, h, b, place),
        0x13 => always(rom, length, wide, h, b, place),
        0x14 => choose(rom, length, wide, &*stack, h, b, place),
        0x1E => by_two(0x1E, stack, h, b, place), // +
        0x1F => by_two(0x1F, stack, h, b, place), // -
        0x20 => by_two(0x20, stack, h, b, place), // *
        0x23 => by_two(0x23, stack, h, b, place), // and
        0x24 => by_two(0x24, stack, h, b, place), // or
        0x25 => by_two(0x25, stack, h, b, place), // xor
        0x26 => by_one(0x26, stack, h, b, place), // invert
        0x27 => by_two(0x27, stack, h, b, place), // lshift
        0x28 => by_two(0x28, stack, h, b, place), // rshift
        0x29 => by_two(0x29, stack, h, b, place), // >>a
        0x2B => divide(stack, h, b, place),
        0x2C => by_one(0x2C, stack, h, b, place), // negate
        0x2D => by_one(0x2D, stack, h, b, place), // abs
        0x2E => by_two(0x2E, stack, h, b, place), // min
        0x2F => by_two(0x2F, stack, h, b, place), // max
        0x30 => to_return(&*stack, back, h, b, place),
        0x31 => from_return(stack, &*back, h, b, base(bases, frames), place),
        0x32 => copy_return(stack, &*back, h, b, base(bases, frames), place),
        0x34 => by_one(0x34, stack, h, b, place), // 0=
        0x35 => by_one(0x35, stack, h, b, place), // 0<>
        0x36 => by_one(0x36, stack, h, b, place), // 0<
        0x37 => by_one(0x37, stack, h, b, place), // 0<=
        0x38 => by_one(0x38, stack, h, b, place), // 0>
        0x39 => by_one(0x39, stack, h, b, place), // 0>=
        0x3A => by_two(0x3A, stack, h, b, place), // <
        0x3B => by_two(0x3B, stack, h, b, place), // >
        0x3C => by_two(0x3C, stack, h, b, place), // =
        0x3D => by_two(0x3D, stack, h, b, place), // <>
        0x3E => by_two(0x3E, stack, h, b, place), // u>
        0x3F => by_two(0x3F, stack, h, b, place), // u<=
        0x40 => by_two(0x40, stack, h, b, place), // u<
        0x41 => by_two(0x41, stack, h, b, place), // u>=
        0x42 => by_two(0x42, stack, h, b, place), // >=
        0x43 => by_two(0x43, stack, h, b, place), // <=
        0x44 => by_three(0x44, stack, h, b, place), // between
        0x45 => by_three(0x45, stack, h, b, place), // within
        0x46 => drop_one(h, b, place),
        0x47 => dup(stack, h, b, place),
        0x48 => over(stack, h, b, place),
        0x49 => swap(stack, h, b, place),
        0x4A => rot(stack, h, b, place),
        0x4B => rot_back(stack, h, b, place),
        0x4C => tuck(stack, h, b, place),
        0x4D => by_two(0x4D, stack, h, b, place), // nip
        0x4E => pick_up(stack, h, b, place),
        0x4F => roll_up(stack, h, b, place),
        0x50 => maybe(stack, h, b, place),
        0x51 => push(0x51, stack, h, b, place), // depth
        0x52 => drop_two(h, b, place),
        0x53 => dup_two(stack, h, b, place),
        0x54 => over_two(stack, h, b, place),
        0x55 => swap_two(stack, h, b, place),
        0x56 => rot_two(stack, h, b, place),
        0x57 => by_one(0x57, stack, h, b, place), // 2/
        0x58 => by_one(0x58, stack, h, b, place), // u2/
        0x59 => by_one(0x59, stack, h, b, place), // 2*
        0x7B => nothing(0x7B, h, b, place), // noop
        0xA4 => push(0xA4, stack, h, b, place), // -1
        0xA5 => push(0xA5, stack, h, b, place), // 0
        0xA6 => push(0xA6, stack, h, b, place), // 1
        0xA7 => push(0xA7, stack, h, b, place), // 2
        0xA8 => push(0xA8, stack, h, b, place), // 3
        0xB1 => nothing(0xB1, h, b, place), // b(<mark)
        0xB2 => nothing(0xB2, h, b, place), // b(>resolve)
        _ => cold(h, b, place),
    }
}
