// A token at a glance: what a loop over tokens asks of each, in plain numbers and by one look at its first byte. A token without an
// operand does not pay for the others'. `read_at` says why there is none.
ghost use Rattle.std.specs.Prelude.{◌≡◌, Bool, true, ◌<◌, ◌^◌};
ghost use Rattle.rom.specs.Bytes.{byte_of};
ghost use Rattle.tokens.specs.Decode.{is_double};
ghost use Rattle.tokens.specs.Joints.Glance.{nothing_seen, first_says, ended_of, branched_of, glance_defined, seen_from, glance_of};
ghost use Rattle.tokens.specs.Joints.Quick.{Codes};

use crate::code::{TWO_BYTES, double_code};
use crate::decoding::{behind_number, behind_offset, behind_string, is_definition, number_at};
use rom::{Spread, byte, destination};

// A whole token of the list: its code; the number that it is about, which behind b(to) is the one that stands there, of a definition the
// new one, and else its own; the place behind it; where a branch leads, 0 for outside; and the kind byte of a definition. A string's bytes
// lie from the second byte behind the token's place up to the next place. What is cut off or not in the list has the code 0, and zeros.
#[derive(Clone, Copy, Default)]
pub struct Glance {
    pub code: u32,
    pub number: u32,
    pub next: u32,
    pub aim: u32,
    pub kind: u32,
}

// The codes of the numbers of one byte, again: this match has one caller, so that the compiler makes byte, code and form one jump there.
// With one load from `FIRST_CODES` in its place a run takes 2 to 7 in 100 more instructions.
#[tactic(auto, unfolding(
// a number's row, as a code
crate::specs::Joints::Glance::first_says, crate::specs::Code::code_of, crate::specs::Table::row_of, crate::specs::Table::table,
// the parts of the list
crate::specs::Table::ends, crate::specs::Table::lows, crate::specs::Table::highs, crate::specs::Table::doubles))]
fn first_code(first: u8) -> u32
    ensures { result ≡ first_says first }
{
    match first {
        0x00 => 0x02_10_00_00, // end0
        0xFF => 0x02_10_00_00, // end1
        0x01..=0x0F => TWO_BYTES,
        0x10 => 0x01_01_00_01, // b(lit)
        0x12 => 0x05_02_00_02, // b(")
        0x13 => 0x03_03_00_00, // bbranch
        0x14 => 0x04_03_00_10, // b?branch
        0x1E => 0x01_00_00_21, // +
        0x1F => 0x01_00_00_21, // -
        0x20 => 0x01_00_00_21, // *
        0x23 => 0x01_00_00_21, // and
        0x24 => 0x01_00_00_21, // or
        0x25 => 0x01_00_00_21, // xor
        0x26 => 0x01_00_00_11, // invert
        0x27 => 0x01_00_00_21, // lshift
        0x28 => 0x01_00_00_21, // rshift
        0x29 => 0x01_00_00_21, // >>a
        0x2B => 0x07_00_00_22, // u/mod
        0x2C => 0x01_00_00_11, // negate
        0x2D => 0x01_00_00_11, // abs
        0x2E => 0x01_00_00_21, // min
        0x2F => 0x01_00_00_21, // max
        0x30 => 0x01_00_01_10, // >r
        0x31 => 0x01_00_10_01, // r>
        0x32 => 0x01_00_11_01, // r@
        0x33 => 0x0B_20_00_00, // exit
        0x34 => 0x01_00_00_11, // 0=
        0x35 => 0x01_00_00_11, // 0<>
        0x36 => 0x01_00_00_11, // 0<
        0x37 => 0x01_00_00_11, // 0<=
        0x38 => 0x01_00_00_11, // 0>
        0x39 => 0x01_00_00_11, // 0>=
        0x3A => 0x01_00_00_21, // <
        0x3B => 0x01_00_00_21, // >
        0x3C => 0x01_00_00_21, // =
        0x3D => 0x01_00_00_21, // <>
        0x3E => 0x01_00_00_21, // u>
        0x3F => 0x01_00_00_21, // u<=
        0x40 => 0x01_00_00_21, // u<
        0x41 => 0x01_00_00_21, // u>=
        0x42 => 0x01_00_00_21, // >=
        0x43 => 0x01_00_00_21, // <=
        0x44 => 0x01_00_00_31, // between
        0x45 => 0x01_00_00_31, // within
        0x46 => 0x01_00_00_10, // drop
        0x47 => 0x01_00_00_12, // dup
        0x48 => 0x01_00_00_23, // over
        0x49 => 0x01_00_00_22, // swap
        0x4A => 0x01_00_00_33, // rot
        0x4B => 0x01_00_00_33, // -rot
        0x4C => 0x01_00_00_23, // tuck
        0x4D => 0x01_00_00_21, // nip
        0x4E => 0x08_00_00_11, // pick
        0x4F => 0x09_00_00_10, // roll
        0x50 => 0x0A_00_00_11, // ?dup
        0x51 => 0x01_00_00_01, // depth
        0x52 => 0x01_00_00_20, // 2drop
        0x53 => 0x01_00_00_24, // 2dup
        0x54 => 0x01_00_00_46, // 2over
        0x55 => 0x01_00_00_44, // 2swap
        0x56 => 0x01_00_00_66, // 2rot
        0x57 => 0x01_00_00_11, // 2/
        0x58 => 0x01_00_00_11, // u2/
        0x59 => 0x01_00_00_11, // 2*
        0x6D => 0x0C_00_00_11, // @
        0x71 => 0x0C_00_00_11, // c@
        0x72 => 0x0D_00_00_20, // !
        0x75 => 0x0D_00_00_20, // c!
        0x7B => 0x01_00_00_00, // noop
        0xA4 => 0x01_00_00_01, // -1
        0xA5 => 0x01_00_00_01, // 0
        0xA6 => 0x01_00_00_01, // 1
        0xA7 => 0x01_00_00_01, // 2
        0xA8 => 0x01_00_00_01, // 3
        0xB1 => 0x01_00_00_00, // b(<mark)
        0xB2 => 0x01_00_00_00, // b(>resolve)
        0xB5 => 0x0E_15_00_00, // new-token
        0xB6 => 0x0E_16_00_00, // named-token
        0xB7 => 0x0F_30_00_00, // b(:)
        0xB8 => 0x0F_30_00_10, // b(value)
        0xB9 => 0x0F_30_00_00, // b(variable)
        0xBA => 0x0F_30_00_10, // b(constant)
        0xC2 => 0x0B_20_00_00, // b(;)
        0xC3 => 0x10_04_00_10, // b(to)
        0xCA => 0x0E_16_00_00, // external-token
        0xCC => 0x06_10_00_00, // offset16
        _ => 0,
    }
}

fn nothing() -> Glance
    ensures { result ≡ nothing_seen }
{
    Glance::default()
}

// A token of which nothing is left to say but whether it ends before the length.
fn ended(length: u32, code: u32, number: u32, next: usize) -> Glance
    ensures { result ≡ ended_of length code number next }
{
    if (length as usize) < next {
        return nothing();
    }
    Glance {
        code,
        number,
        next: next as u32,
        ..nothing()
    }
}

// A branch, by its offset at a place.
fn branched(rom: &[u8], length: u32, wide: bool, code: u32, number: u32, start: u32) -> Glance
    ensures { result ≡ branched_of rom.now length wide code number start }
{
    let next = behind_offset(start as usize, wide);
    if (length as usize) < next {
        return nothing();
    }
    Glance {
        code,
        number,
        next: next as u32,
        aim: destination(rom, length, wide, start),
        ..nothing()
    }
}

// A definition, by its number at a place and the kind behind it.
fn defined(rom: &[u8], length: u32, code: u32, at: usize) -> Glance
    requires { at < 2 ^ 34 }
    ensures { result ≡ glance_defined rom.now length code at }
{
    let end = behind_number(rom, Spread::One, at);
    if (length as usize) < end + 1 {
        return nothing();
    }
    let number = number_at(rom, Spread::One, at);
    let kind = u32::from(byte(rom, end));
    if is_definition(number, kind) {
        Glance {
            code,
            number,
            next: (end + 1) as u32,
            kind,
            ..nothing()
        }
    } else {
        nothing()
    }
}

// A token of the list, by its operand at a place.
fn with_operand(rom: &[u8], length: u32, wide: bool, code: u32, number: u32, start: u32) -> Glance
    requires { code ≡ 0 → ⊥ }
    ensures { result ≡ seen_from rom.now length wide code number start }
{
    let at = start as usize;
    let form = code / 0x1_0000 % 16;
    match form {
        1 => ended(length, code, number, at + 4),
        2 => ended(length, code, number, behind_string(rom, Spread::One, at)),
        3 => branched(rom, length, wide, code, number, start),
        4 => ended(
            length,
            code,
            number_at(rom, Spread::One, at),
            behind_number(rom, Spread::One, at),
        ),
        5 => defined(rom, length, code, at),
        6 => defined(rom, length, code, behind_string(rom, Spread::One, at)),
        _ => ended(length, code, number, at),
    }
}

// A token whose number has two bytes: none of those has an operand.
fn doubled(rom: &[u8], length: u32, place: u32, first: u32) -> Glance
    requires { (first ≡ byte_of rom.now place) × (is_double first ≡ true) }
    ensures { (wide : Bool) → result ≡ glance_of rom.now length wide place }
{
    let at = place as usize;
    let number = first * 256 + (byte(rom, at + 1) as u32);
    let code = double_code(number);
    if code == 0 {
        return nothing();
    }
    ended(length, code, number, at + 2)
}

// What stands at a place before the length, by its first byte and what the table says of that.
pub fn glance_from(rom: &[u8], length: u32, wide: bool, place: u32, first: u8, code: u32) -> Glance
    requires { (place < length) × (first ≡ byte_of rom.now place) × (code ≡ first_says first) }
    ensures { result ≡ glance_of rom.now length wide place }
{
    if code / 0x1_0000 % 16 == 0 {
        if code == 0 {
            return nothing();
        }
        return Glance {
            code,
            number: first as u32,
            next: place + 1,
            ..nothing()
        };
    }
    if code == TWO_BYTES {
        return doubled(rom, length, place, first as u32);
    }
    with_operand(rom, length, wide, code, first as u32, place + 1)
}

// What stands at a place, with the offset width in force there.
pub fn glance_at(rom: &[u8], length: u32, wide: bool, place: u32) -> Glance
    ensures { result ≡ glance_of rom.now length wide place }
{
    if length <= place {
        return nothing();
    }
    let first = byte(rom, place as usize);
    glance_from(rom, length, wide, place, first, first_code(first))
}
