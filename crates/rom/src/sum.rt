// The sum of a program's bytes, modulo 65,536: a sum that wraps at 16 bits, with no remainder taken. Bytes are added in stretches whose
// size is written at the call, so that the compiler lays a stretch out without a loop, and on x86-64 finds the one instruction for it that
// adds 16 bytes. docs/SPEED.md has the forms that were tried, and what each costs; `speed/sums --count` tells whether that still holds.
ghost use Rattle.std.specs.Prelude.{◌≡◌, ◌-◌, ◌*◌, ◌%◌, ◌^◌, ◌<◌, ◌≤◌, length, min};
ghost use Rattle.rom.specs.Sum.{total, sum_of};
ghost use Rattle.rom.specs.Sizes.{first_place};
ghost use Rattle.rom.specs.Spread.{view_of};
ghost use Rattle.rom.specs.Joints.Sum.{sum_with, apart_sum};
ghost use Rattle.rom.specs.Joints.Spread.{InRom};

use crate::sizes::FIRST_PLACE;
use crate::spread::{Spread, fcode_count};

// A sum on its way from the last byte down to the first: the rest is still to be added.
#[derive(Clone, Copy)]
struct Summed<'a> {
    sum: u16,
    rest: &'a [u8],
}

// A sum with some bytes more.
fn added(sum: u16, bytes: &[u8]) -> u16
    ensures { result ≡ sum_with sum bytes.now }
{
    bytes.iter().fold(sum, |n, b| n.wrapping_add(u16::from(*b)))
}

// The sum with the last N bytes of the rest, where there are so many. Such steps by halves, from 64 bytes to one, take all that blocks
// leave.
fn taken<const N: usize>(s: Summed<'_>) -> Summed<'_>
    requires { (N ≤ 64) × (length s.rest.now < 2 * N) }
    ensures { (length result.rest.now < N) × (sum_with result.sum result.rest.now ≡ sum_with s.entry.sum s.entry.rest.now) }
{
    match s.rest.split_last_chunk::<N>() {
        Some((rest, stretch)) => Summed {
            sum: added(s.sum, stretch),
            rest,
        },
        None => s,
    }
}

// All bytes but fewer than 128. The compiler unrolls no loop of 128 bytes, and makes one stretch of two of 64.
fn blocks(start: Summed<'_>) -> Summed<'_>
    ensures { (length result.rest.now < 128) × (sum_with result.sum result.rest.now ≡ sum_with start.entry.sum start.entry.rest.now) }
{
    let Summed { mut sum, mut rest } = start;
    // a while: as long as there is a block, no count
    while let Some((front, block)) = rest.split_last_chunk::<128>() {
        sum = added(sum, &block[..64]);
        sum = added(sum, &block[64..128]);
        rest = front;
    }
    Summed { sum, rest }
}

// All bytes but fewer than 16.
fn most(start: Summed<'_>) -> Summed<'_>
    ensures { (length result.rest.now < 16) × (sum_with result.sum result.rest.now ≡ sum_with start.entry.sum start.entry.rest.now) }
{
    if start.rest.len() < 16 {
        return start;
    }
    let s = blocks(start);
    let s = taken::<64>(s);
    let s = taken::<32>(s);
    taken::<16>(s)
}

// All bytes but fewer than 4, of fewer than 16.
fn nearly_all(start: Summed<'_>) -> Summed<'_>
    requires { length start.rest.now < 16 }
    ensures { (length result.rest.now < 4) × (sum_with result.sum result.rest.now ≡ sum_with start.entry.sum start.entry.rest.now) }
{
    if start.rest.len() < 4 {
        return start;
    }
    let s = taken::<8>(start);
    taken::<4>(s)
}

// The sum of all bytes. A short program skips the stretches that are too large for it by two tests, and one that comes out even skips the
// small ones.
fn byte_sum(body: &[u8]) -> u16
    ensures { result ≡ total body.now % 2 ^ 16 }
{
    let s = most(Summed { sum: 0, rest: body });
    if s.rest.is_empty() {
        return s.sum;
    }
    let s = nearly_all(s);
    let s = taken::<2>(s);
    let s = taken::<1>(s);
    s.sum
}

// The smaller of two numbers, by the name that docs/PROMISES.md has for it.
pub fn least(a: usize, b: usize) -> usize
    ensures { result ≡ min a b }
{
    a.min(b)
}

// The sum of the bytes from the first place up to an end, which lie so far apart. As in `lay_by`, the compiler knows the distance.
fn apart_sum(rom: &[u8], end: usize, apart: usize) -> u16
    requires { (first_place ≤ end) × InRom apart first_place end rom.now }
    ensures { result ≡ apart_sum apart rom.now (end - first_place) % 2 ^ 16 }
{
    let mut sum = 0u16;
    for k in FIRST_PLACE..end {
        let at = k * apart;
        sum = sum.wrapping_add(u16::from(rom[at]));
    }
    sum
}

// The sum of FCode bytes 8 to length-1 modulo 65,536; those that a ROM does not have count as 0.
pub fn body_sum(rom: &[u8], spread: Spread, length: u32) -> u16
    ensures { result ≡ sum_of (view_of spread rom.now) length }
{
    let start = FIRST_PLACE;
    let end = (length as usize).min(fcode_count(rom, spread));
    if end <= start {
        return 0;
    }
    match spread {
        Spread::One => byte_sum(&rom[start..end]),
        Spread::Two => apart_sum(rom, end, 2),
        Spread::Four => apart_sum(rom, end, 4),
    }
}
