ghost use Rattle.std.specs.Prelude.{◌≡◌, ◌<◌, pos};
ghost use Rattle.rom.specs.Branch.{offset_of, aim_of, landing, place_in};
ghost use Rattle.rom.specs.Spread.{view_of};
ghost use Rattle.rom.specs.Laws.Branch.{shifted};

use crate::sizes::FIRST_PLACE;
use crate::spread::{Spread, fcode_byte, fcode_word16};

// The bits of the offset at a place, as they stand.
pub fn offset(rom: &[u8], spread: Spread, wide: bool, at: u32) -> u32
    ensures { result ≡ offset_of (view_of spread rom.now) wide at }
{
    if wide {
        u32::from(fcode_word16(rom, spread, at))
    } else {
        let k = at as usize;
        u32::from(fcode_byte(rom, spread, k))
    }
}

fn inside(length: u32, to: usize) -> Option<u32>
    ensures { result ≡ landing length (pos to) }
{
    if FIRST_PLACE <= to && to < length as usize {
        Some(to as u32)
    } else {
        None
    }
}

// Where an offset leads that stands at a place and has `range` values, the upper half of them negative. What lies below 0 is outside.
fn led(length: u32, at: u32, bits: u32, range: u32) -> Option<u32>
    requires { (bits < range) × (range < 65537) }
    ensures { result ≡ landing length (shifted at range bits) }
{
    let far = at as usize + bits as usize;
    if bits < range / 2 {
        return inside(length, far);
    }
    match far.checked_sub(range as usize) {
        Some(to) => inside(length, to),
        None => None,
    }
}

// Where the offset at a place leads.
#[tactic(auto, unfolding(crate::specs::Branch::aim_of))]
pub fn aim_at(rom: &[u8], spread: Spread, length: u32, wide: bool, at: u32) -> Option<u32>
    ensures { result ≡ aim_of (view_of spread rom.now) length wide at }
{
    if wide {
        led(length, at, u32::from(fcode_word16(rom, spread, at)), 65536)
    } else {
        let k = at as usize;
        led(length, at, u32::from(fcode_byte(rom, spread, k)), 256)
    }
}

// The same as a number: 0, which is no place of a branch, for outside. It is a name of its own in docs/PROMISES.md, for a loop that goes
// by numbers, over FCode bytes that are laid out.
pub fn destination(fcode: &[u8], length: u32, wide: bool, at: u32) -> u32
    ensures { result ≡ place_in (aim_of fcode.now length wide at) }
{
    match aim_at(fcode, Spread::One, length, wide, at) {
        Some(to) => to,
        None => 0,
    }
}
