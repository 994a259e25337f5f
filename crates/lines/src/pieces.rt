// The lines of a token list, each written into a text from a place of the text on; the place behind is given. They are made of FCode bytes,
// which lie one behind the other here.
ghost use Rattle.std.specs.Prelude.{◌<◌, ◌≤◌, ◌≡◌, ◌++◌, length};
ghost use Rattle.tokens.specs.Name.{name_of};
ghost use Rattle.lines.specs.TokenLines.{high_digits, place_text, cuts_of, parts_at, operand_parts, all_shown};
ghost use Rattle.lines.specs.TokenLines.{aim_remark, branch_remark, string_remark, token_remark, raw_remark};
ghost use Rattle.lines.specs.TokenLines.{line_text, raw_line, token_line, piece_text, next_of, wide_behind};
ghost use Rattle.lines.specs.Laws.Tokens.{Ordered, OperandLies, TokenLies};
ghost use Rattle.lines.specs.Wrote.{Wrote};
ghost use Rattle.tokens.specs.Laws.Name.{unpacked};
ghost use Rattle.rom.specs.Sizes.{rom_most};

use crate::digits::hex_byte;
use crate::lines::shown;
use crate::printed::quoted;
use crate::words::{letter, say};
use rom::sizes::ROM_MOST;
use rom::{Spread, byte};
use tokens::reader::{Piece, piece_in, program_end};
use tokens::{Operand, Token, name_front, name_rest};

// Where the parts of an operand meet.
#[derive(Clone, Copy)]
pub struct Cuts {
    pub first: usize,
    pub second: usize,
    pub third: usize,
}

// What `piece_line` hands back: the place behind the line in the text, the place of the next piece, and the offset width in
// force there.
#[derive(Clone, Copy)]
pub struct PieceTold {
    pub end: usize,
    pub next: u32,
    pub wide: bool,
}

// The upper half of a place, where it is not 0.
fn high_digits(text: &mut [u8], at: usize, place: usize) -> usize
    ensures { Wrote text.old text.new at result (high_digits place) }
{
    if place < 65536 {
        return at;
    }
    let at = hex_byte(text, at, (place / 16777216 % 256) as u8);
    hex_byte(text, at, (place / 65536 % 256) as u8)
}

pub fn place_digits(text: &mut [u8], at: usize, place: usize) -> usize
    ensures { Wrote text.old text.new at result (place_text place) }
{
    let at = high_digits(text, at, place);
    let at = hex_byte(text, at, (place / 256 % 256) as u8);
    hex_byte(text, at, (place % 256) as u8)
}

// The letters that a number packs: those of the number without its last letter, and then that.
fn letters(text: &mut [u8], at: usize, packed: u64) -> usize
    ensures { Wrote text.old text.new at result (unpacked 8 packed) }
{
    if packed == 0 {
        return at;
    }
    let at = letters(text, at, packed / 256);
    letter(text, at, (packed % 256) as u8)
}

fn name(text: &mut [u8], at: usize, number: u32) -> usize
    ensures { Wrote text.old text.new at result (name_of number) }
{
    let at = letters(text, at, name_front(number));
    letters(text, at, name_rest(number))
}

// Where the parts meet of an operand from a place to another, by the form of the token: a string's length byte and its bytes, a number and
// its kind, or all four.
fn cuts_of(fcode: &[u8], start: usize, next: usize, form: u32) -> Cuts
    requires { (start ≤ rom_most) × (0 < next) }
    ensures { result ≡ cuts_of fcode.now start next form }
{
    match form {
        2 => Cuts {
            first: start + 1,
            second: next,
            third: next,
        },
        5 => Cuts {
            first: next - 1,
            second: next,
            third: next,
        },
        6 => Cuts {
            first: start + 1,
            second: start + 1 + usize::from(byte(fcode, start)),
            third: next - 1,
        },
        _ => Cuts {
            first: next,
            second: next,
            third: next,
        },
    }
}

fn parts(text: &mut [u8], at: usize, fcode: &[u8], start: usize, meet: Cuts, next: usize) -> usize
    requires { Ordered start meet next × (next ≤ length fcode.now) }
    ensures { Wrote text.old text.new at result (all_shown (parts_at fcode.now start meet next)) }
{
    let first = meet.first;
    let second = meet.second;
    let third = meet.third;
    let at = shown(text, at, &fcode[start..first]);
    let at = shown(text, at, &fcode[first..second]);
    let at = shown(text, at, &fcode[second..third]);
    shown(text, at, &fcode[third..next])
}

// Where a branch leads.
fn aim_remark(text: &mut [u8], at: usize, aim: Option<u32>) -> usize
    ensures { Wrote text.old text.new at result (aim_remark aim) }
{
    match aim {
        Some(to) => {
            let at = say(text, at, b" to ");
            place_digits(text, at, to as usize)
        }
        None => say(text, at, b" to no place of the program"),
    }
}

fn branch_remark(text: &mut [u8], at: usize, operand: Operand) -> usize
    ensures { Wrote text.old text.new at result (branch_remark operand) }
{
    match operand {
        Operand::Branch { bits: _, aim } => aim_remark(text, at, aim),
        _ => at,
    }
}

// The letters of a string, of a token whose form has one.
fn string_remark(text: &mut [u8], at: usize, fcode: &[u8], meet: Cuts, form: u32) -> usize
    requires { (meet.first ≤ meet.second) × (meet.second ≤ length fcode.now) }
    ensures { Wrote text.old text.new at result (string_remark fcode.now meet form) }
{
    let first = meet.first;
    let second = meet.second;
    match form {
        2 | 6 => quoted(text, at, &fcode[first..second]),
        _ => at,
    }
}

// Before the program's end, what was no token of the list may have an operand that the next lines show.
fn raw_remark(text: &mut [u8], at: usize, fcode: &[u8], next: u32) -> usize
    ensures { Wrote text.old text.new at result (raw_remark fcode.now next) }
{
    if next < program_end(fcode, Spread::One) {
        return say(
            text,
            at,
            b" (no token of the list: the next lines may be its operand)",
        );
    }
    at
}

// Bytes that no token of the list covers.
pub fn raw_line(text: &mut [u8], at: usize, fcode: &[u8], place: u32, next: u32) -> usize
    requires { (place ≤ next) × (next ≤ length fcode.now) }
    ensures { Wrote text.old text.new at result (line_text (raw_line fcode.now place next)) }
{
    let from = place as usize;
    let to = next as usize;
    let at = place_digits(text, at, from);
    let at = say(text, at, b" raw");
    let at = shown(text, at, &fcode[from..to]);
    let at = raw_remark(text, at, fcode, next);
    letter(text, at, b'\n')
}

// What stands behind a token's name: its operand, which starts at a place, and the remark.
fn operand_shown(text: &mut [u8], at: usize, fcode: &[u8], start: usize, token: Token) -> usize
    requires { OperandLies fcode.now start token }
    ensures { Wrote text.old text.new at result
        (all_shown (operand_parts fcode.now start token) ++ token_remark fcode.now start token) }
{
    let next = token.next as usize;
    let form = token.code / 0x1_0000 % 16;
    let operand = token.operand;
    let meet = cuts_of(fcode, start, next, form);
    let at = parts(text, at, fcode, start, meet, next);
    let at = branch_remark(text, at, operand);
    string_remark(text, at, fcode, meet, form)
}

// A token of the list, whose operand starts at a place.
fn token_line(
    text: &mut [u8],
    at: usize,
    fcode: &[u8],
    place: u32,
    start: u32,
    token: Token,
) -> usize
    requires { TokenLies fcode.now place start token }
    ensures { Wrote text.old text.new at result (line_text (token_line fcode.now place start token)) }
{
    let from = place as usize;
    let behind = start as usize;
    let at = place_digits(text, at, from);
    let at = shown(text, at, &fcode[from..behind]);
    let at = letter(text, at, b' ');
    let at = name(text, at, token.number);
    let at = operand_shown(text, at, fcode, behind, token);
    letter(text, at, b'\n')
}

// The line of the piece at a place of a program, with the offset width in force there, and where the next one starts. So a program is
// listed a line at a time, from place 8 on until the place stays. At the program's end, and for more bytes than a ROM has, nothing is
// written, and place and width are handed back as they came. The header is not tested, since its sum would then be taken for each line.
pub fn piece_line(text: &mut [u8], at: usize, fcode: &[u8], wide: bool, place: u32) -> PieceTold
    ensures { Wrote text.old text.new at result.end (piece_text fcode.now wide place)
        × (result.next ≡ next_of fcode.now wide place) × (result.wide ≡ wide_behind fcode.now wide place) }
{
    if ROM_MOST < fcode.len() {
        return PieceTold {
            end: at,
            next: place,
            wide,
        };
    }
    match piece_in(fcode, Spread::One, wide, place) {
        Piece::End => PieceTold {
            end: at,
            next: place,
            wide,
        },
        Piece::Raw(next) => PieceTold {
            end: raw_line(text, at, fcode, place, next),
            next,
            wide,
        },
        Piece::Listed {
            token,
            start,
            wide: behind,
        } => PieceTold {
            end: token_line(text, at, fcode, place, start, token),
            next: token.next,
            wide: behind,
        },
    }
}
