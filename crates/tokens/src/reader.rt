// The reader: it carries a ROM and a place in its program, and says what stands there. From place to place it comes past every byte of the
// program once, whatever the bytes are and however far apart. What stands at a place is worked out by `piece_in`, on a slice and numbers;
// the functions over the struct only hand on.
ghost use Rattle.std.specs.Prelude.{◌≡◌};
ghost use Rattle.tokens.specs.Reader.{end_of, piece_of, width_behind};
ghost use Rattle.rom.specs.Header.{wide_of};
ghost use Rattle.rom.specs.Spread.{view_of, fcode_of};
ghost use Rattle.rom.specs.Sizes.{first_place};

use crate::code::family_of;
use crate::decoding::{Decoded, Token, behind_number, decode};
use crate::family;
use rom::{Spread, fcode_count, program_length, spread_of, wide_start};

// What stands at a place: nothing, at the program's end; bytes that no token of the list covers, up to a place; or a token of the list,
// with the place behind its number, where its operand starts, and the offset width in force behind it.
#[derive(Clone, Copy)]
pub enum Piece {
    End,
    Raw(u32),
    Listed {
        token: Token,
        start: u32,
        wide: bool,
    },
}

// A ROM, a place in it, and the offset width in force there.
#[derive(Clone, Copy)]
pub struct Reader<'a> {
    pub rom: &'a [u8],
    pub place: u32,
    pub wide: bool,
}

// Where the program ends: at its length, or where the bytes lent do if that is nearer.
pub fn program_end(rom: &[u8], spread: Spread) -> u32
    ensures { result ≡ end_of (view_of spread rom.now) }
{
    let length = program_length(rom, spread);
    let count = fcode_count(rom, spread);
    if count < (length as usize) {
        count as u32
    } else {
        length
    }
}

// The offset width in force behind a token: offset16 makes it wide.
fn width_behind(wide: bool, code: u32) -> bool
    ensures { result ≡ width_behind wide code }
{
    wide || family_of(code) == family::WIDEN
}

// What stands at a place of a ROM with a spread, with the offset width in force there.
pub fn piece_in(rom: &[u8], spread: Spread, wide: bool, place: u32) -> Piece
    ensures { result ≡ piece_of (view_of spread rom.now) wide place }
{
    let end = program_end(rom, spread);
    if end <= place {
        return Piece::End;
    }
    match decode(rom, spread, end, wide, place) {
        // the bytes of a token that is cut off are all that is left
        Decoded::Cut => Piece::Raw(end),
        // a number that is not in the list is its own bytes and nothing more
        Decoded::Unlisted(_) => {
            let next = behind_number(rom, spread, place as usize) as u32;
            Piece::Raw(next)
        }
        Decoded::Whole(token) => {
            let start = behind_number(rom, spread, place as usize) as u32;
            let behind = width_behind(wide, token.code);
            Piece::Listed {
                token,
                start,
                wide: behind,
            }
        }
    }
}

// A reader at the program's first place, of a ROM as it is lent.
pub fn new<'a>(rom: &'a [u8]) -> Reader<'a>
    ensures { (result.rom ≡ rom.entry) × (result.place ≡ first_place) × (result.wide ≡ wide_of rom.now) }
{
    let wide = wide_start(rom);
    Reader {
        rom,
        place: 8,
        wide,
    }
}

// What stands where the reader is.
pub fn next<'a>(r: Reader<'a>) -> Piece
    ensures { result ≡ piece_of (fcode_of r.entry.rom.now) r.entry.wide r.entry.place }
{
    piece_in(r.rom, spread_of(r.rom), r.wide, r.place)
}

// The reader at another place of its ROM.
pub fn moved<'a>(r: Reader<'a>, wide: bool, place: u32) -> Reader<'a>
    ensures { (result.rom ≡ r.entry.rom) × (result.place ≡ place) × (result.wide ≡ wide) }
{
    Reader {
        rom: r.rom,
        place,
        wide,
    }
}

// The same for whoever holds no reader: what stands at a place, with the offset width in force there.
pub fn read_piece(rom: &[u8], wide: bool, place: u32) -> Piece
    ensures { result ≡ piece_of (fcode_of rom.now) wide place }
{
    next(moved(new(rom), wide, place))
}
