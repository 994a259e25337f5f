// Reading a body to the b(;) that ends it.
ghost use Rattle.std.specs.Prelude.{◌≡◌, Bool, true};
ghost use Rattle.rom.specs.Bytes.{byte_of};
ghost use Rattle.tokens.specs.Decode.{is_double};
ghost use Rattle.tokens.specs.Place.{read_of};
ghost use Rattle.tokens.specs.Body.{kind_of, number_in, unknown_of, body_of, body_in};
ghost use Rattle.tokens.specs.Joints.Body.{frequent, passed_of, ends_at, stopped_of};

use crate::code::{double_code, family_of};
use crate::decoding::{
    Operand, Token, behind_number, behind_offset, behind_string, is_program, number_at,
};
use crate::family;
use crate::programs::{FIRST_PROGRAM, PROGRAMS_MOST};
use crate::read::{out_of_place, read_at};
use rom::{Refusal, Spread, byte};

// Where a body stops short of its b(;): the place of the first token that is refused, and why.
#[derive(Clone, Copy)]
pub struct Stop {
    pub at: u32,
    pub why: Refusal,
}

// The kind byte of a program number, of those that the list says are defined: 0 for none.
pub fn kind_of(kinds: &[u8; PROGRAMS_MOST], number: u32) -> u8
    ensures { result ≡ kind_of kinds.now number }
{
    if is_program(number) {
        let at = (number - FIRST_PROGRAM) as usize;
        kinds[at]
    } else {
        0
    }
}

// The number that stands behind b(to).
pub fn number_in(operand: Operand) -> u32
    ensures { result ≡ number_in operand }
{
    match operand {
        Operand::Number(number) => number,
        _ => 0,
    }
}

// Refusal 12: a program number that is not defined, or b(to) of what is no value.
#[tactic(auto, unfolding(crate::specs::Body::unknown_of))]
pub fn unknown(kinds: &[u8; PROGRAMS_MOST], token: Token) -> bool
    ensures { result ≡ unknown_of kinds.now token }
{
    match family_of(token.code) {
        family::CALL => kind_of(kinds, token.number) == 0,
        family::ASSIGN => kind_of(kinds, number_in(token.operand)) != 0xB8,
        _ => false,
    }
}

// Further than any program reaches: what stands for no place. As an `Option` a run takes 6 in 100 more instructions.
const BEYOND: usize = 0x1_0000_0000;

// Whether a byte is one of the tokens that bodies have most of, from u/mod to 2* and from -1 to 3. It is asked before the others.
fn is_frequent(first: u8) -> bool
    ensures { result ≡ frequent first }
{
    matches!(first, 0x2B..=0x59 | 0xA4..=0xA8)
}

// `passed` where a token's number has two bytes.
fn passed_double(rom: &[u8], kinds: &[u8; PROGRAMS_MOST], place: u32, first: u8) -> usize
    requires { (first ≡ byte_of rom.now place) × (is_double first ≡ true) }
    ensures { (wide : Bool) → result ≡ passed_of rom.now wide kinds.now place }
{
    let at = place as usize;
    let number = (first as u32) * 256 + (byte(rom, at + 1) as u32);
    let code = double_code(number);
    if code == 0 {
        return BEYOND;
    }
    if out_of_place(code, true) {
        return BEYOND;
    }
    if number < FIRST_PROGRAM {
        return at + 2;
    }
    if kind_of(kinds, number) == 0 {
        BEYOND
    } else {
        at + 2
    }
}

// `passed` where b(to) stands.
fn passed_to(rom: &[u8], kinds: &[u8; PROGRAMS_MOST], place: u32) -> usize
    requires { byte_of rom.now place ≡ 0xC3 }
    ensures { (wide : Bool) → result ≡ passed_of rom.now wide kinds.now place }
{
    let at = place as usize + 1;
    let number = number_at(rom, Spread::One, at);
    if kind_of(kinds, number) == 0xB8 {
        behind_number(rom, Spread::One, at)
    } else {
        BEYOND
    }
}

// The place behind the token at a place, if a body goes on there unless the program ends before: by one look at its first byte, since
// nothing else is asked of most tokens of a body. Behind b(;), and behind what is refused by itself, there is none.
fn passed(rom: &[u8], wide: bool, kinds: &[u8; PROGRAMS_MOST], place: u32) -> usize
    ensures { result ≡ passed_of rom.now wide kinds.now place }
{
    let at = place as usize;
    let first = byte(rom, at);
    if is_frequent(first) {
        return at + 1;
    }
    match first {
        0x01..=0x0F => passed_double(rom, kinds, place, first),
        0x10 => at + 5, // b(lit)
        0x12 => behind_string(rom, Spread::One, at + 1), // b(")
        0x13 => behind_offset(at + 1, wide), // bbranch
        0x14 => behind_offset(at + 1, wide), // b?branch
        0x1E..=0x20 => at + 1, // + - *
        0x23..=0x29 => at + 1, // from and to >>a
        0x6D => at + 1, // @
        0x71 => at + 1, // c@
        0x72 => at + 1, // !
        0x75 => at + 1, // c!
        0x7B => at + 1, // noop
        0xB1 => at + 1, // b(<mark)
        0xB2 => at + 1, // b(>resolve)
        0xC3 => passed_to(rom, kinds, place),
        _ => BEYOND,
    }
}

// Whether b(;) stands at a place.
fn ends_at(rom: &[u8], length: u32, place: u32) -> bool
    ensures { result ≡ ends_at rom.now length place }
{
    place < length && byte(rom, place as usize) == 0xC2
}

// How a body ends at a place that it does not go on behind: with its b(;), or with a token that is refused, which a good one is by 12.
fn stopped(rom: &[u8], length: u32, wide: bool, place: u32) -> Result<u32, Stop>
    ensures { body_in result ≡ stopped_of place (read_of rom.now length wide true place) }
{
    if ends_at(rom, length, place) {
        return Ok(place);
    }
    match read_at(rom, length, wide, true, place) {
        Err(why) => Err(Stop { at: place, why }),
        Ok(_) => Err(Stop {
            at: place,
            why: Refusal::Undefined,
        }),
    }
}

// Reads a body from a place on, token by token, in the offset width given and by the program numbers defined so far.
pub fn read_body(
    rom: &[u8],
    length: u32,
    wide: bool,
    kinds: &[u8; PROGRAMS_MOST],
    place: u32,
) -> Result<u32, Stop>
    ensures { body_in result ≡ body_of rom.now length wide kinds.now place }
{
    let mut at = place;
    // a loop: the next place is what the token at one says, no count
    loop {
        let next = passed(rom, wide, kinds, at);
        if (length as usize) < next {
            return stopped(rom, length, wide, at);
        }
        at = next as u32;
    }
}
