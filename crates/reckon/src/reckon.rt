// Tokens that work on the two stacks alone, in place. Each makes only the tests that what it takes and gives can fail, in the order 14,
// 16, 15, and leaves the cells and the heights as they were where it is refused. Tokens that are alike are one function of their number,
// which its caller gives as a literal: the compiler settles the `match` on it there.
ghost use Rattle.std.specs.Prelude.{◌≡◌, List, ℕ, ◌+◌, ◌^◌, ◌≤◌, ◌<◌};
ghost use Rattle.state.specs.Stacks.{turned_of};
ghost use Rattle.reckon.specs.Joints.Reckoned.{Like, OfNone, OfOne, OfTwo, OfThree};
ghost use Rattle.reckon.specs.Joints.Turned.{turned_in};
ghost use Rattle.reckon.specs.Joints.Fast.{OnData, OnBoth};
ghost use Rattle.rom.specs.Sizes.{data_most, return_most, rom_most};

use crate::turned::{Turned, on, refuse};
use cells::Divided;
use rom::Refusal;
use rom::sizes::{DATA_MOST, RETURN_MOST};

// 7B noop, B1 b(<mark), B2 b(>resolve)
pub fn nothing(number: u32, h: usize, b: usize, place: u32) -> Turned
    requires { Like number 0x7B × (h ≤ data_most) × (b ≤ return_most) × (place < rom_most) }
    ensures { (c : List ℕ) → OnData number c h b place (turned_in result) c }
{
    on(h, b, place + 1)
}

// A4 to A8, 51 depth
pub fn push(number: u32, stack: &mut [u32; DATA_MOST], h: usize, b: usize, place: u32) -> Turned
    requires { Like number 0xA5 × (h ≤ data_most) × (b ≤ return_most) × (place < rom_most) }
    ensures { OnData number stack.old h b place (turned_in result) stack.new }
{
    if DATA_MOST <= h {
        return refuse(Refusal::TooHigh, h, b, place);
    }
    stack[h] = said(number, h);
    on(h + 1, b, place + 1)
}

// A token of the top cell alone
pub fn by_one(number: u32, stack: &mut [u32; DATA_MOST], h: usize, b: usize, place: u32) -> Turned
    requires { Like number 0x26 × (h ≤ data_most) × (b ≤ return_most) × (place < rom_most) }
    ensures { OnData number stack.old h b place (turned_in result) stack.new }
{
    if h < 1 {
        return refuse(Refusal::TooLow, h, b, place);
    }
    stack[h - 1] = one(number, stack[h - 1]);
    on(h, b, place + 1)
}

// A token of the two highest cells
pub fn by_two(number: u32, stack: &mut [u32; DATA_MOST], h: usize, b: usize, place: u32) -> Turned
    requires { Like number 0x1E × (h ≤ data_most) × (b ≤ return_most) × (place < rom_most) }
    ensures { OnData number stack.old h b place (turned_in result) stack.new }
{
    if h < 2 {
        return refuse(Refusal::TooLow, h, b, place);
    }
    stack[h - 2] = two(number, stack[h - 2], stack[h - 1]);
    on(h - 1, b, place + 1)
}

// A token of the three highest cells
pub fn by_three(number: u32, stack: &mut [u32; DATA_MOST], h: usize, b: usize, place: u32) -> Turned
    requires { Like number 0x44 × (h ≤ data_most) × (b ≤ return_most) × (place < rom_most) }
    ensures { OnData number stack.old h b place (turned_in result) stack.new }
{
    if h < 3 {
        return refuse(Refusal::TooLow, h, b, place);
    }
    stack[h - 3] = three(number, stack[h - 3], stack[h - 2], stack[h - 1]);
    on(h - 2, b, place + 1)
}

// 46 drop
pub fn drop_one(h: usize, b: usize, place: u32) -> Turned
    requires { (h ≤ data_most) × (b ≤ return_most) × (place < rom_most) }
    ensures { (c : List ℕ) → OnData 0x46 c h b place (turned_in result) c }
{
    if h < 1 {
        return refuse(Refusal::TooLow, h, b, place);
    }
    on(h - 1, b, place + 1)
}

// 52 2drop
pub fn drop_two(h: usize, b: usize, place: u32) -> Turned
    requires { (h ≤ data_most) × (b ≤ return_most) × (place < rom_most) }
    ensures { (c : List ℕ) → OnData 0x52 c h b place (turned_in result) c }
{
    if h < 2 {
        return refuse(Refusal::TooLow, h, b, place);
    }
    on(h - 2, b, place + 1)
}

// 47 dup
pub fn dup(stack: &mut [u32; DATA_MOST], h: usize, b: usize, place: u32) -> Turned
    requires { (h ≤ data_most) × (b ≤ return_most) × (place < rom_most) }
    ensures { OnData 0x47 stack.old h b place (turned_in result) stack.new }
{
    if h < 1 {
        return refuse(Refusal::TooLow, h, b, place);
    }
    if DATA_MOST <= h {
        return refuse(Refusal::TooHigh, h, b, place);
    }
    stack[h] = stack[h - 1];
    on(h + 1, b, place + 1)
}

// 48 over
pub fn over(stack: &mut [u32; DATA_MOST], h: usize, b: usize, place: u32) -> Turned
    requires { (h ≤ data_most) × (b ≤ return_most) × (place < rom_most) }
    ensures { OnData 0x48 stack.old h b place (turned_in result) stack.new }
{
    if h < 2 {
        return refuse(Refusal::TooLow, h, b, place);
    }
    if DATA_MOST <= h {
        return refuse(Refusal::TooHigh, h, b, place);
    }
    stack[h] = stack[h - 2];
    on(h + 1, b, place + 1)
}

// 4C tuck
pub fn tuck(stack: &mut [u32; DATA_MOST], h: usize, b: usize, place: u32) -> Turned
    requires { (h ≤ data_most) × (b ≤ return_most) × (place < rom_most) }
    ensures { OnData 0x4C stack.old h b place (turned_in result) stack.new }
{
    if h < 2 {
        return refuse(Refusal::TooLow, h, b, place);
    }
    if DATA_MOST <= h {
        return refuse(Refusal::TooHigh, h, b, place);
    }
    let under = stack[h - 2];
    let top = stack[h - 1];
    stack[h - 2] = top;
    stack[h - 1] = under;
    stack[h] = top;
    on(h + 1, b, place + 1)
}

// 49 swap
pub fn swap(stack: &mut [u32; DATA_MOST], h: usize, b: usize, place: u32) -> Turned
    requires { (h ≤ data_most) × (b ≤ return_most) × (place < rom_most) }
    ensures { OnData 0x49 stack.old h b place (turned_in result) stack.new }
{
    if h < 2 {
        return refuse(Refusal::TooLow, h, b, place);
    }
    let under = stack[h - 2];
    stack[h - 2] = stack[h - 1];
    stack[h - 1] = under;
    on(h, b, place + 1)
}

// 4A rot
pub fn rot(stack: &mut [u32; DATA_MOST], h: usize, b: usize, place: u32) -> Turned
    requires { (h ≤ data_most) × (b ≤ return_most) × (place < rom_most) }
    ensures { OnData 0x4A stack.old h b place (turned_in result) stack.new }
{
    if h < 3 {
        return refuse(Refusal::TooLow, h, b, place);
    }
    let third = stack[h - 3];
    let under = stack[h - 2];
    let top = stack[h - 1];
    stack[h - 3] = under;
    stack[h - 2] = top;
    stack[h - 1] = third;
    on(h, b, place + 1)
}

// 4B -rot
pub fn rot_back(stack: &mut [u32; DATA_MOST], h: usize, b: usize, place: u32) -> Turned
    requires { (h ≤ data_most) × (b ≤ return_most) × (place < rom_most) }
    ensures { OnData 0x4B stack.old h b place (turned_in result) stack.new }
{
    if h < 3 {
        return refuse(Refusal::TooLow, h, b, place);
    }
    let third = stack[h - 3];
    let under = stack[h - 2];
    let top = stack[h - 1];
    stack[h - 3] = top;
    stack[h - 2] = third;
    stack[h - 1] = under;
    on(h, b, place + 1)
}

// 53 2dup
pub fn dup_two(stack: &mut [u32; DATA_MOST], h: usize, b: usize, place: u32) -> Turned
    requires { (h ≤ data_most) × (b ≤ return_most) × (place < rom_most) }
    ensures { OnData 0x53 stack.old h b place (turned_in result) stack.new }
{
    if h < 2 {
        return refuse(Refusal::TooLow, h, b, place);
    }
    if DATA_MOST < h + 2 {
        return refuse(Refusal::TooHigh, h, b, place);
    }
    let under = stack[h - 2];
    let top = stack[h - 1];
    stack[h] = under;
    stack[h + 1] = top;
    on(h + 2, b, place + 1)
}

// 54 2over
pub fn over_two(stack: &mut [u32; DATA_MOST], h: usize, b: usize, place: u32) -> Turned
    requires { (h ≤ data_most) × (b ≤ return_most) × (place < rom_most) }
    ensures { OnData 0x54 stack.old h b place (turned_in result) stack.new }
{
    if h < 4 {
        return refuse(Refusal::TooLow, h, b, place);
    }
    if DATA_MOST < h + 2 {
        return refuse(Refusal::TooHigh, h, b, place);
    }
    let under = stack[h - 4];
    let top = stack[h - 3];
    stack[h] = under;
    stack[h + 1] = top;
    on(h + 2, b, place + 1)
}

// 55 2swap
pub fn swap_two(stack: &mut [u32; DATA_MOST], h: usize, b: usize, place: u32) -> Turned
    requires { (h ≤ data_most) × (b ≤ return_most) × (place < rom_most) }
    ensures { OnData 0x55 stack.old h b place (turned_in result) stack.new }
{
    if h < 4 {
        return refuse(Refusal::TooLow, h, b, place);
    }
    let p = stack[h - 4];
    let q = stack[h - 3];
    let r = stack[h - 2];
    let s = stack[h - 1];
    stack[h - 4] = r;
    stack[h - 3] = s;
    stack[h - 2] = p;
    stack[h - 1] = q;
    on(h, b, place + 1)
}

// 56 2rot
pub fn rot_two(stack: &mut [u32; DATA_MOST], h: usize, b: usize, place: u32) -> Turned
    requires { (h ≤ data_most) × (b ≤ return_most) × (place < rom_most) }
    ensures { OnData 0x56 stack.old h b place (turned_in result) stack.new }
{
    if h < 6 {
        return refuse(Refusal::TooLow, h, b, place);
    }
    let p = stack[h - 6];
    let q = stack[h - 5];
    let r = stack[h - 4];
    let s = stack[h - 3];
    let t = stack[h - 2];
    let u = stack[h - 1];
    stack[h - 6] = r;
    stack[h - 5] = s;
    stack[h - 4] = t;
    stack[h - 3] = u;
    stack[h - 2] = p;
    stack[h - 1] = q;
    on(h, b, place + 1)
}

// 30 >r
pub fn to_return(
    stack: &[u32; DATA_MOST],
    back: &mut [u32; RETURN_MOST],
    h: usize,
    b: usize,
    place: u32,
) -> Turned
    requires { (h ≤ data_most) × (b ≤ return_most) × (place < rom_most) }
    ensures { (base : ℕ) → OnBoth 0x30 base stack.now h back.old b place (turned_in result) stack.now
        back.new }
{
    if h < 1 {
        return refuse(Refusal::TooLow, h, b, place);
    }
    if RETURN_MOST <= b {
        return refuse(Refusal::WrongReturns, h, b, place);
    }
    back[b] = stack[h - 1];
    on(h - 1, b + 1, place + 1)
}

// 31 r>
pub fn from_return(
    stack: &mut [u32; DATA_MOST],
    back: &[u32; RETURN_MOST],
    h: usize,
    b: usize,
    base: usize,
    place: u32,
) -> Turned
    requires { (h ≤ data_most) × (b ≤ return_most) × (place < rom_most) }
    ensures { OnBoth 0x31 base stack.old h back.now b place (turned_in result) stack.new back.now }
{
    if b <= base {
        return refuse(Refusal::WrongReturns, h, b, place);
    }
    if DATA_MOST <= h {
        return refuse(Refusal::TooHigh, h, b, place);
    }
    stack[h] = back[b - 1];
    on(h + 1, b - 1, place + 1)
}

// 32 r@
pub fn copy_return(
    stack: &mut [u32; DATA_MOST],
    back: &[u32; RETURN_MOST],
    h: usize,
    b: usize,
    base: usize,
    place: u32,
) -> Turned
    requires { (h ≤ data_most) × (b ≤ return_most) × (place < rom_most) }
    ensures { OnBoth 0x32 base stack.old h back.now b place (turned_in result) stack.new back.now }
{
    if b <= base {
        return refuse(Refusal::WrongReturns, h, b, place);
    }
    if DATA_MOST <= h {
        return refuse(Refusal::TooHigh, h, b, place);
    }
    stack[h] = back[b - 1];
    on(h + 1, b, place + 1)
}

// What a token pushes that takes nothing.
fn said(number: u32, h: usize) -> u32
    requires { Like number 0xA5 × (h ≤ data_most) }
    ensures { OfNone number h result }
{
    match number {
        0xA4 => 0xFFFF_FFFF,
        0xA5 => 0,
        0xA6 => 1,
        0xA7 => 2,
        0xA8 => 3,
        0x51 => h as u32,
        _ => 0,
    }
}

// Of the top of the stack.
fn one(number: u32, a: u32) -> u32
    requires { Like number 0x26 }
    ensures { OfOne number a result }
{
    match number {
        0x26 => cells::invert(a),
        0x2C => cells::negate(a),
        0x2D => cells::abs(a),
        0x34 => cells::zero_equal(a),
        0x35 => cells::zero_unequal(a),
        0x36 => cells::zero_less(a),
        0x37 => cells::zero_at_most(a),
        0x38 => cells::zero_greater(a),
        0x39 => cells::zero_at_least(a),
        0x57 => cells::half(a),
        0x58 => cells::u_half(a),
        0x59 => cells::double(a),
        _ => 0,
    }
}

// Of the two highest cells, b under a.
fn two(number: u32, b: u32, a: u32) -> u32
    requires { Like number 0x1E }
    ensures { OfTwo number b a result }
{
    match number {
        0x1E => cells::plus(b, a),
        0x1F => cells::minus(b, a),
        0x20 => cells::times(b, a),
        0x23 => cells::and(b, a),
        0x24 => cells::or(b, a),
        0x25 => cells::xor(b, a),
        0x27 => cells::lshift(b, a),
        0x28 => cells::rshift(b, a),
        0x29 => cells::ashift(b, a),
        0x2E => cells::min(b, a),
        0x2F => cells::max(b, a),
        0x3A => cells::less(b, a),
        0x3B => cells::greater(b, a),
        0x3C => cells::equal(b, a),
        0x3D => cells::unequal(b, a),
        0x3E => cells::u_greater(b, a),
        0x3F => cells::u_at_most(b, a),
        0x40 => cells::u_less(b, a),
        0x41 => cells::u_at_least(b, a),
        0x42 => cells::at_least(b, a),
        0x43 => cells::at_most(b, a),
        0x4D => a,
        _ => 0,
    }
}

// Of the three highest, c under b under a.
fn three(number: u32, c: u32, b: u32, a: u32) -> u32
    requires { Like number 0x44 }
    ensures { OfThree number c b a result }
{
    match number {
        0x44 => cells::between(c, b, a),
        0x45 => cells::within(c, b, a),
        _ => 0,
    }
}

// 2B u/mod: the remainder stands under the quotient.
pub fn divide(stack: &mut [u32; DATA_MOST], h: usize, b: usize, place: u32) -> Turned
    requires { (h ≤ data_most) × (b ≤ return_most) × (place < rom_most) }
    ensures { OnData 0x2B stack.old h b place (turned_in result) stack.new }
{
    if h < 2 {
        return refuse(Refusal::TooLow, h, b, place);
    }
    match cells::u_mod(stack[h - 2], stack[h - 1]) {
        None => refuse(Refusal::ZeroDivisor, h, b, place),
        Some(
            Divided {
                remainder,
                quotient,
            },
        ) => {
            stack[h - 2] = remainder;
            stack[h - 1] = quotient;
            on(h, b, place + 1)
        }
    }
}

// A count of cells, which may be any number.
fn count_of(a: u32) -> usize
    ensures { (result ≡ a) × (result < 2 ^ 32) }
{
    a as usize
}

// 4E pick
pub fn pick_up(stack: &mut [u32; DATA_MOST], h: usize, b: usize, place: u32) -> Turned
    requires { (h ≤ data_most) × (b ≤ return_most) × (place < rom_most) }
    ensures { OnData 0x4E stack.old h b place (turned_in result) stack.new }
{
    if h < 1 {
        return refuse(Refusal::TooLow, h, b, place);
    }
    let count = count_of(stack[h - 1]);
    if h < count + 2 {
        return refuse(Refusal::TooLow, h, b, place);
    }
    stack[h - 1] = stack[h - 2 - count];
    on(h, b, place + 1)
}

// 4F roll
pub fn roll_up(stack: &mut [u32; DATA_MOST], h: usize, b: usize, place: u32) -> Turned
    requires { (h ≤ data_most) × (b ≤ return_most) × (place < rom_most) }
    ensures { OnData 0x4F stack.old h b place (turned_in result) stack.new }
{
    if h < 1 {
        return refuse(Refusal::TooLow, h, b, place);
    }
    let count = count_of(stack[h - 1]);
    if h < count + 2 {
        return refuse(Refusal::TooLow, h, b, place);
    }
    turn(stack, h - 2 - count, count);
    on(h - 1, b, place + 1)
}

// Moves the cell at a place above so many others, each of which comes one down.
fn turn(stack: &mut [u32; DATA_MOST], start: usize, count: usize)
    requires { start + count < data_most }
    ensures { stack.new ≡ turned_of stack.old start count }
{
    let first = stack[start];
    let end = start + count;
    for i in start..end {
        stack[i] = stack[i + 1];
    }
    stack[end] = first;
}

// 50 ?dup
pub fn maybe(stack: &mut [u32; DATA_MOST], h: usize, b: usize, place: u32) -> Turned
    requires { (h ≤ data_most) × (b ≤ return_most) × (place < rom_most) }
    ensures { OnData 0x50 stack.old h b place (turned_in result) stack.new }
{
    if h < 1 {
        return refuse(Refusal::TooLow, h, b, place);
    }
    let top = stack[h - 1];
    if top == 0 {
        return on(h, b, place + 1);
    }
    if DATA_MOST <= h {
        return refuse(Refusal::TooHigh, h, b, place);
    }
    stack[h] = top;
    on(h + 1, b, place + 1)
}
