// How far apart the FCode bytes of a ROM lie, and one of them read: FCode byte k sits at ROM byte k times the spread. What is read often is
// laid out first, one byte behind the other, so that whoever reads it knows of no spread.
ghost use Rattle.std.specs.Prelude.{◌≡◌, ◌≤◌, length};
ghost use Rattle.rom.specs.Bytes.{byte_of, word16_of, word32_of};
ghost use Rattle.rom.specs.Spread.{distance_of, spread_of, is_spread, view_of, fcode_most, laid_on};
ghost use Rattle.rom.specs.Joints.Spread.{InRom, LaidBy};

use crate::bytes::byte;
use crate::sizes::ROM_MOST;

// One behind the other, or two or four apart.
#[derive(Clone, Copy)]
pub enum Spread {
    One,
    Two,
    Four,
}

// A ROM's first byte tells its spread: start2 and start4 have one.
pub fn spread_of(rom: &[u8]) -> Spread
    ensures { result ≡ spread_of rom.now }
{
    match byte(rom, 0) {
        0xF2 => Spread::Two,
        0xF3 => Spread::Four,
        _ => Spread::One,
    }
}

// Whether a start is a spread ROM's.
pub fn is_spread(fcode: &[u8]) -> bool
    ensures { result ≡ is_spread fcode.now }
{
    matches!(byte(fcode, 0), 0xF2 | 0xF3)
}

fn distance(spread: Spread) -> usize
    ensures { result ≡ distance_of spread }
{
    match spread {
        Spread::One => 1,
        Spread::Two => 2,
        Spread::Four => 4,
    }
}

// How many FCode bytes a ROM has: the last one needs no gap behind it.
pub fn fcode_count(rom: &[u8], spread: Spread) -> usize
    ensures { result ≡ length (view_of spread rom.now) }
{
    let n = rom.len();
    match spread {
        Spread::One => n,
        Spread::Two => n.div_ceil(2),
        Spread::Four => n.div_ceil(4),
    }
}

// How many a ROM of the largest size has: gaps count among its bytes.
pub fn fcode_most(rom: &[u8]) -> usize
    ensures { result ≡ fcode_most rom.now }
{
    ROM_MOST / distance(spread_of(rom))
}

// FCode byte k, and 0 past the last.
pub fn fcode_byte(rom: &[u8], spread: Spread, k: usize) -> u8
    ensures { result ≡ byte_of (view_of spread rom.now) k }
{
    if k < fcode_count(rom, spread) {
        let at = k * distance(spread);
        rom[at]
    } else {
        0
    }
}

// The two FCode bytes at a place as a number, big-endian.
pub fn fcode_word16(rom: &[u8], spread: Spread, at: u32) -> u16
    ensures { result ≡ word16_of (view_of spread rom.now) at }
{
    let k = at as usize;
    u16::from_be_bytes([fcode_byte(rom, spread, k), fcode_byte(rom, spread, k + 1)])
}

// The four FCode bytes at a place as a number, big-endian.
pub fn fcode_word32(rom: &[u8], spread: Spread, at: u32) -> u32
    ensures { result ≡ word32_of (view_of spread rom.now) at }
{
    let k = at as usize;
    u32::from_be_bytes([
        fcode_byte(rom, spread, k),
        fcode_byte(rom, spread, k + 1),
        fcode_byte(rom, spread, k + 2),
        fcode_byte(rom, spread, k + 3),
    ])
}

// So many bytes that lie so far apart. The distance is written at the call, so that the compiler knows it and takes many at a time.
fn lay_by(rom: &[u8], room: &mut [u8], count: usize, apart: usize)
    requires { (count ≤ length room.old) × InRom apart 0 count rom.now }
    ensures { LaidBy apart rom.now room.old count room.new }
{
    for i in 0..count {
        room[i] = rom[i * apart];
    }
}

// The FCode bytes laid one behind the other into a room, as many as there are and have room; what lies behind them stays as it was.
pub fn lay_fcode(rom: &[u8], spread: Spread, room: &mut [u8])
    ensures { room.new ≡ laid_on room.old (view_of spread rom.now) }
{
    let count = fcode_count(rom, spread).min(room.len());
    match spread {
        Spread::One => lay_by(rom, room, count, 1),
        Spread::Two => lay_by(rom, room, count, 2),
        Spread::Four => lay_by(rom, room, count, 4),
    }
}
