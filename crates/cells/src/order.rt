// The comparisons. Each gives a flag: all ones for true, 0 for false.
ghost use Rattle.std.specs.Prelude.{◌≡◌, int_le, int_lt};
ghost use Rattle.cells.specs.Signed.{signed, flag};
ghost use Rattle.cells.specs.Comparison.{zero_equal_of, zero_unequal_of, zero_less_of, zero_at_most_of};
ghost use Rattle.cells.specs.Comparison.{zero_greater_of, zero_at_least_of, less_of, greater_of, equal_of};
ghost use Rattle.cells.specs.Comparison.{unequal_of, u_greater_of, u_at_most_of, u_less_of, u_at_least_of};
ghost use Rattle.cells.specs.Comparison.{at_least_of, at_most_of, between_of, within_of};

use crate::minus;

// The two orders of signed cells: every comparison below that is signed goes by one of them.
pub fn below(a: u32, b: u32) -> bool
    ensures { result ≡ int_lt (signed a) (signed b) }
{
    a.cast_signed() < b.cast_signed()
}

fn up_to(a: u32, b: u32) -> bool
    ensures { result ≡ int_le (signed a) (signed b) }
{
    a.cast_signed() <= b.cast_signed()
}

fn flag_of(t: bool) -> u32
    ensures { result ≡ flag t }
{
    if t { u32::MAX } else { 0 }
}

// 34 0=
pub fn zero_equal(a: u32) -> u32
    ensures { result ≡ zero_equal_of a }
{
    flag_of(a == 0)
}

// 35 0<>
pub fn zero_unequal(a: u32) -> u32
    ensures { result ≡ zero_unequal_of a }
{
    flag_of(a != 0)
}

// 36 0<
pub fn zero_less(a: u32) -> u32
    ensures { result ≡ zero_less_of a }
{
    less(a, 0)
}

// 37 0<=
pub fn zero_at_most(a: u32) -> u32
    ensures { result ≡ zero_at_most_of a }
{
    at_most(a, 0)
}

// 38 0>
pub fn zero_greater(a: u32) -> u32
    ensures { result ≡ zero_greater_of a }
{
    greater(a, 0)
}

// 39 0>=
pub fn zero_at_least(a: u32) -> u32
    ensures { result ≡ zero_at_least_of a }
{
    at_least(a, 0)
}

// 3A <
pub fn less(a: u32, b: u32) -> u32
    ensures { result ≡ less_of a b }
{
    flag_of(below(a, b))
}

// 3B >
pub fn greater(a: u32, b: u32) -> u32
    ensures { result ≡ greater_of a b }
{
    less(b, a)
}

// 3C =
pub fn equal(a: u32, b: u32) -> u32
    ensures { result ≡ equal_of a b }
{
    flag_of(a == b)
}

// 3D <>
pub fn unequal(a: u32, b: u32) -> u32
    ensures { result ≡ unequal_of a b }
{
    flag_of(a != b)
}

// 3E u>
pub fn u_greater(a: u32, b: u32) -> u32
    ensures { result ≡ u_greater_of a b }
{
    flag_of(b < a)
}

// 3F u<=
pub fn u_at_most(a: u32, b: u32) -> u32
    ensures { result ≡ u_at_most_of a b }
{
    flag_of(a <= b)
}

// 40 u<
pub fn u_less(a: u32, b: u32) -> u32
    ensures { result ≡ u_less_of a b }
{
    flag_of(a < b)
}

// 41 u>=
pub fn u_at_least(a: u32, b: u32) -> u32
    ensures { result ≡ u_at_least_of a b }
{
    flag_of(b <= a)
}

// 42 >=
pub fn at_least(a: u32, b: u32) -> u32
    ensures { result ≡ at_least_of a b }
{
    at_most(b, a)
}

// 43 <=
pub fn at_most(a: u32, b: u32) -> u32
    ensures { result ≡ at_most_of a b }
{
    flag_of(up_to(a, b))
}

// 44 between
pub fn between(n: u32, min: u32, max: u32) -> u32
    ensures { result ≡ between_of n min max }
{
    flag_of(up_to(min, n) && up_to(n, max))
}

// 45 within: circular, so that a range may run over the end of the cells.
pub fn within(n: u32, min: u32, max: u32) -> u32
    ensures { result ≡ within_of n min max }
{
    u_less(minus(n, min), minus(max, min))
}
