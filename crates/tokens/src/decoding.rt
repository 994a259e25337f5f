// The token at a place, with its operand, of a ROM with a spread. The others of this crate read FCode bytes that are laid out, which are so
// many bytes with a spread of one.
ghost use Rattle.std.specs.Prelude.{◌≡◌, ◌&&◌, ◌+◌, ◌<◌, ◌≤◌, ◌^◌};
ghost use Rattle.cells.specs.Choice.{pick};
ghost use Rattle.rom.specs.Spread.{view_of};
ghost use Rattle.tokens.specs.Table.{is_program};
ghost use Rattle.tokens.specs.Decode.{is_double, number_of, behind_number, behind_string, behind_of, definition_of};
ghost use Rattle.tokens.specs.Decode.{operand_of, is_kind, listed as decode_listed, decode_of};

use crate::code::code_of;
use rom::{Spread, aim_at, fcode_byte, fcode_word32, offset};

// What stands behind a token's number: a string's bytes lie in the ROM from start on, a branch has the bits of its offset and where it
// leads, a definition its number and the kind byte behind that.
#[derive(Clone, Copy)]
pub enum Operand {
    Nothing,
    Literal(u32),
    Text { start: u32, count: u32 },
    Branch { bits: u32, aim: Option<u32> },
    Number(u32),
    Definition { number: u32, kind: u32 },
}

// A token of the list: its number, its row of the list as a code, its operand, and the place behind it.
#[derive(Clone, Copy)]
pub struct Token {
    pub number: u32,
    pub code: u32,
    pub operand: Operand,
    pub next: u32,
}

// What stands at a place: a token that the program length cuts off, one that is not in the list or badly formed, with the code of its
// number, or a whole one.
#[derive(Clone, Copy)]
pub enum Decoded {
    Cut,
    Unlisted(u32),
    Whole(Token),
}

// Whether a number has two bytes, by its first.
pub fn is_double(first: u8) -> bool
    ensures { result ≡ is_double first }
{
    matches!(first, 0x01..=0x0F)
}

// The number at a place.
pub fn number_at(rom: &[u8], spread: Spread, at: usize) -> u32
    requires { at < 2 ^ 40 }
    ensures { result ≡ number_of (view_of spread rom.now) at }
{
    let first = fcode_byte(rom, spread, at);
    if is_double(first) {
        u32::from(first) * 256 + u32::from(fcode_byte(rom, spread, at + 1))
    } else {
        u32::from(first)
    }
}

// The place behind the number at a place.
pub fn behind_number(rom: &[u8], spread: Spread, at: usize) -> usize
    requires { at < 2 ^ 40 }
    ensures { (result ≡ behind_number (view_of spread rom.now) at) × (at < result) × (result ≤ at + 2) }
{
    if is_double(fcode_byte(rom, spread, at)) {
        at + 2
    } else {
        at + 1
    }
}

// The place behind the string at a place.
pub fn behind_string(rom: &[u8], spread: Spread, at: usize) -> usize
    requires { at < 2 ^ 40 }
    ensures { (result ≡ behind_string (view_of spread rom.now) at) × (at < result) × (result ≤ at + 256) }
{
    at + 1 + usize::from(fcode_byte(rom, spread, at))
}

pub fn behind_offset(at: usize, wide: bool) -> usize
    requires { at < 2 ^ 40 }
    ensures { (result ≡ at + pick wide 2 1) × (at < result) × (result ≤ at + 2) }
{
    if wide { at + 2 } else { at + 1 }
}

// The place behind an operand of a form.
#[tactic(auto, unfolding(crate::specs::Decode::behind_of))]
fn behind(rom: &[u8], spread: Spread, wide: bool, at: usize, form: u32) -> usize
    requires { at < 2 ^ 34 }
    ensures { (result ≡ behind_of (view_of spread rom.now) wide at form) × (at ≤ result) × (result ≤ at + 260) }
{
    match form {
        1 => at + 4,
        2 => behind_string(rom, spread, at),
        3 => behind_offset(at, wide),
        4 => behind_number(rom, spread, at),
        5 => behind_number(rom, spread, at) + 1,
        6 => behind_number(rom, spread, behind_string(rom, spread, at)) + 1,
        _ => at,
    }
}

// The number and the kind of a definition.
fn definition_at(rom: &[u8], spread: Spread, at: usize) -> Operand
    requires { at < 2 ^ 34 }
    ensures { result ≡ definition_of (view_of spread rom.now) at }
{
    Operand::Definition {
        number: number_at(rom, spread, at),
        kind: u32::from(fcode_byte(rom, spread, behind_number(rom, spread, at))),
    }
}

// The operand of a form at a place.
#[tactic(auto, unfolding(crate::specs::Decode::operand_of))]
fn operand_at(rom: &[u8], spread: Spread, length: u32, wide: bool, at: u32, form: u32) -> Operand
    requires { form ≡ 2 → at + 1 < 2 ^ 32 }
    ensures { result ≡ operand_of (view_of spread rom.now) length wide at form }
{
    let k = at as usize;
    match form {
        1 => Operand::Literal(fcode_word32(rom, spread, at)),
        2 => Operand::Text {
            start: at + 1,
            count: u32::from(fcode_byte(rom, spread, k)),
        },
        3 => Operand::Branch {
            bits: offset(rom, spread, wide, at),
            aim: aim_at(rom, spread, length, wide, at),
        },
        4 => Operand::Number(number_at(rom, spread, k)),
        5 => definition_at(rom, spread, k),
        6 => definition_at(rom, spread, behind_string(rom, spread, k)),
        _ => Operand::Nothing,
    }
}

pub fn is_program(number: u32) -> bool
    ensures { result ≡ is_program number }
{
    matches!(number, 0x800..=0xFFF)
}

fn is_kind(byte: u32) -> bool
    ensures { result ≡ is_kind byte }
{
    matches!(byte, 0xB7..=0xBA)
}

// A definition has a program's number and a kind.
pub fn is_definition(number: u32, kind: u32) -> bool
    ensures { result ≡ (is_program number && is_kind kind) }
{
    is_program(number) && is_kind(kind)
}

// Whether a whole token is one of the list's: its number is, and a definition is well formed.
fn listed(code: u32, operand: Operand) -> bool
    ensures { result ≡ decode_listed code operand }
{
    if code == 0 {
        return false;
    }
    match operand {
        Operand::Definition { number, kind } => is_definition(number, kind),
        _ => true,
    }
}

// The token at a place, with the offset width in force there: whole, or cut off by the program length, or none of the list's.
pub fn decode(rom: &[u8], spread: Spread, length: u32, wide: bool, place: u32) -> Decoded
    ensures { result ≡ decode_of (view_of spread rom.now) length wide place }
{
    let at = place as usize;
    let number = number_at(rom, spread, at);
    let code = code_of(number);
    let form = code / 0x1_0000 % 16;
    let start = behind_number(rom, spread, at);
    let next = behind(rom, spread, wide, start, form);
    if (length as usize) < next {
        return Decoded::Cut;
    }
    let operand = operand_at(rom, spread, length, wide, start as u32, form);
    if listed(code, operand) {
        Decoded::Whole(Token {
            number,
            code,
            operand,
            next: next as u32,
        })
    } else {
        Decoded::Unlisted(code)
    }
}
