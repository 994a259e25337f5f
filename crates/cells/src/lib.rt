// The arithmetic and the comparisons of document 01's token list, on cells of 32 bits. A signed cell is cast where its sign counts.
#![tactic(auto)]

mod order;

ghost use Rattle.std.specs.Prelude.{◌≡◌};
ghost use Rattle.cells.specs.Arithmetic.{plus_of, minus_of, times_of, and_of, or_of, xor_of, invert_of};
ghost use Rattle.cells.specs.Arithmetic.{lshift_of, rshift_of, ashift_of, divided_of, divided_in, negate_of, abs_of};
ghost use Rattle.cells.specs.Arithmetic.{min_of, max_of, half_of, u_half_of, double_of};

pub use order::{
    at_least, at_most, between, equal, greater, less, u_at_least, u_at_most, u_greater, u_less,
    unequal, within, zero_at_least, zero_at_most, zero_equal, zero_greater, zero_less,
    zero_unequal,
};

// What u/mod gives: the remainder stands under the quotient on the stack.
#[derive(Clone, Copy)]
pub struct Divided {
    pub remainder: u32,
    pub quotient: u32,
}

// 1E +
pub fn plus(a: u32, b: u32) -> u32
    ensures { result ≡ plus_of a b }
{
    a.wrapping_add(b)
}

// 1F -
pub fn minus(a: u32, b: u32) -> u32
    ensures { result ≡ minus_of a b }
{
    a.wrapping_sub(b)
}

// 20 *
pub fn times(a: u32, b: u32) -> u32
    ensures { result ≡ times_of a b }
{
    a.wrapping_mul(b)
}

// 23 and
pub fn and(a: u32, b: u32) -> u32
    ensures { result ≡ and_of a b }
{
    a & b
}

// 24 or
pub fn or(a: u32, b: u32) -> u32
    ensures { result ≡ or_of a b }
{
    a | b
}

// 25 xor
pub fn xor(a: u32, b: u32) -> u32
    ensures { result ≡ xor_of a b }
{
    a ^ b
}

// 26 invert
pub fn invert(a: u32) -> u32
    ensures { result ≡ invert_of a }
{
    !a
}

// 27 lshift
#[tactic(auto, unfolding(crate::specs::Arithmetic::lshift_of))]
pub fn lshift(a: u32, n: u32) -> u32
    ensures { result ≡ lshift_of a n }
{
    a.checked_shl(n).unwrap_or(0)
}

// 28 rshift
#[tactic(auto, unfolding(crate::specs::Arithmetic::rshift_of))]
pub fn rshift(a: u32, n: u32) -> u32
    ensures { result ≡ rshift_of a n }
{
    a.checked_shr(n).unwrap_or(0)
}

// 29 >>a: from 31 places on every bit is the sign.
#[tactic(auto, unfolding(crate::specs::Arithmetic::ashift_of))]
pub fn ashift(a: u32, n: u32) -> u32
    ensures { result ≡ ashift_of a n }
{
    (a.cast_signed() >> n.min(31)).cast_unsigned()
}

// 2B u/mod: none where the divisor is zero
pub fn u_mod(a: u32, b: u32) -> Option<Divided>
    ensures { divided_in result ≡ divided_of a b }
{
    if b == 0 {
        None
    } else {
        Some(Divided {
            remainder: a % b,
            quotient: a / b,
        })
    }
}

// 2C negate
pub fn negate(a: u32) -> u32
    ensures { result ≡ negate_of a }
{
    a.wrapping_neg()
}

// 2D abs
pub fn abs(a: u32) -> u32
    ensures { result ≡ abs_of a }
{
    a.cast_signed().unsigned_abs()
}

// 2E min
pub fn min(a: u32, b: u32) -> u32
    ensures { result ≡ min_of a b }
{
    if order::below(b, a) { b } else { a }
}

// 2F max
pub fn max(a: u32, b: u32) -> u32
    ensures { result ≡ max_of a b }
{
    if order::below(b, a) { a } else { b }
}

// 57 2/
#[tactic(auto, unfolding(crate::specs::Arithmetic::ashift_of))]
pub fn half(a: u32) -> u32
    ensures { result ≡ half_of a }
{
    ashift(a, 1)
}

// 58 u2/
pub fn u_half(a: u32) -> u32
    ensures { result ≡ u_half_of a }
{
    a / 2
}

// 59 2*
pub fn double(a: u32) -> u32
    ensures { result ≡ double_of a }
{
    a.wrapping_mul(2)
}
