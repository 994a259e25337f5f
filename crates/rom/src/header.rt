ghost use Rattle.std.specs.Prelude.{◌≡◌, not, ◌==◌};
ghost use Rattle.rom.specs.Header.{wide_of, start_of, length_of, wrong_rom, wrong_length, header_of};
ghost use Rattle.rom.specs.Refusal.{refusal_in};
ghost use Rattle.rom.specs.Spread.{view_of, fcode_of};

use crate::bytes::byte;
use crate::refusal::Refusal;
use crate::sizes::ROM_LEAST;
use crate::spread::{
    Spread, fcode_byte, fcode_count, fcode_most, fcode_word16, fcode_word32, is_spread, spread_of,
};
use crate::sum::body_sum;

// The program length that the header gives, in FCode bytes.
pub fn program_length(rom: &[u8], spread: Spread) -> u32
    ensures { result ≡ length_of (view_of spread rom.now) }
{
    fcode_word32(rom, spread, 4)
}

// Whether the start has offsets of 16 bits: start1, start2 and start4 do. The first byte is the first FCode byte too, whatever the spread.
pub fn wide_start(rom: &[u8]) -> bool
    ensures { result ≡ wide_of rom.now }
{
    byte(rom, 0) == 0xF1 || is_spread(rom)
}

fn known_start(rom: &[u8]) -> bool
    ensures { result ≡ start_of rom.now }
{
    byte(rom, 0) == 0xFD || wide_start(rom)
}

// Whether the sum is another than the checksum field says. A field of zero says zero.
fn differs(sum: u16, field: u16) -> bool
    ensures { result ≡ not (sum == field) }
{
    sum != field
}

// Refusal 1: there are fewer FCode bytes than a header has, or more than the largest ROM has. A ROM under 8 bytes has fewer than 8 FCode
// bytes too, and one of over 65,536 bytes, gaps counted, more than the largest.
pub fn wrong_rom(rom: &[u8], spread: Spread) -> bool
    ensures { result ≡ wrong_rom (view_of spread rom.now) }
{
    let count = fcode_count(rom, spread);
    count < ROM_LEAST || fcode_most(rom) < count
}

// Refusal 4 of a length: it is below 9, or its last FCode byte is not in the ROM.
pub fn wrong_length(rom: &[u8], spread: Spread, length: u32) -> bool
    ensures { result ≡ wrong_length (view_of spread rom.now) length }
{
    length < 9 || fcode_count(rom, spread) < length as usize
}

// The header test of a ROM as it is lent: the first of the refusals 1 to 5 whose condition holds, if one does. Only a start that 2 knows is
// spread, so that neither part of 1 can come before a 2 that should.
pub fn check_header(rom: &[u8]) -> Result<(), Refusal>
    ensures { refusal_in result ≡ header_of (fcode_of rom.now) }
{
    let spread = spread_of(rom);
    if wrong_rom(rom, spread) {
        return Err(Refusal::WrongRom);
    }
    if !known_start(rom) {
        return Err(Refusal::UnknownStart);
    }
    if fcode_byte(rom, spread, 1) != 0x08 {
        return Err(Refusal::UnknownFormat);
    }
    let length = program_length(rom, spread);
    if wrong_length(rom, spread, length) {
        return Err(Refusal::WrongLength);
    }
    if differs(body_sum(rom, spread, length), fcode_word16(rom, spread, 2)) {
        return Err(Refusal::WrongChecksum);
    }
    Ok(())
}
