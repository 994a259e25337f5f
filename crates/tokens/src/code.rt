// The token list as numbers: of each token its family in two hexadecimal digits, where it is out of place (1 inside a body or an open call,
// 2 outside, 3 everywhere), the form of its operand, the cells that it takes from and gives to the return stack, and those of the data
// stack. 0 is what is not in the list. specs/Table.antt is the list with its names.
ghost use Rattle.std.specs.Prelude.{◌≡◌, ◌≤◌};
ghost use Rattle.tokens.specs.Code.{code_of, family_in, takes_in, gives_in, return_takes_in, return_gives_in};

use crate::decoding::is_double;

// What the table says of a first byte that has a second: a form that no code has.
pub const TWO_BYTES: u32 = 0x00_07_00_00;

// What each first byte says: the code of the number that it is, or that the number has a second byte. A loop that is lent it has byte to
// code in one load.
pub(crate) static FIRST_CODES: [u32; 256] = [
    0x02_10_00_00, // 00 end0
    TWO_BYTES, // 01
    TWO_BYTES, // 02
    TWO_BYTES, // 03
    TWO_BYTES, // 04
    TWO_BYTES, // 05
    TWO_BYTES, // 06
    TWO_BYTES, // 07
    TWO_BYTES, // 08
    TWO_BYTES, // 09
    TWO_BYTES, // 0A
    TWO_BYTES, // 0B
    TWO_BYTES, // 0C
    TWO_BYTES, // 0D
    TWO_BYTES, // 0E
    TWO_BYTES, // 0F
    0x01_01_00_01, // 10 b(lit)
    0,
    0x05_02_00_02, // 12 b(")
    0x03_03_00_00, // 13 bbranch
    0x04_03_00_10, // 14 b?branch
    0,
    0,
    0,
    0,
    0,
    0,
    0,
    0,
    0,
    0x01_00_00_21, // 1E +
    0x01_00_00_21, // 1F -
    0x01_00_00_21, // 20 *
    0,
    0,
    0x01_00_00_21, // 23 and
    0x01_00_00_21, // 24 or
    0x01_00_00_21, // 25 xor
    0x01_00_00_11, // 26 invert
    0x01_00_00_21, // 27 lshift
    0x01_00_00_21, // 28 rshift
    0x01_00_00_21, // 29 >>a
    0,
    0x07_00_00_22, // 2B u/mod
    0x01_00_00_11, // 2C negate
    0x01_00_00_11, // 2D abs
    0x01_00_00_21, // 2E min
    0x01_00_00_21, // 2F max
    0x01_00_01_10, // 30 >r
    0x01_00_10_01, // 31 r>
    0x01_00_11_01, // 32 r@
    0x0B_20_00_00, // 33 exit
    0x01_00_00_11, // 34 0=
    0x01_00_00_11, // 35 0<>
    0x01_00_00_11, // 36 0<
    0x01_00_00_11, // 37 0<=
    0x01_00_00_11, // 38 0>
    0x01_00_00_11, // 39 0>=
    0x01_00_00_21, // 3A <
    0x01_00_00_21, // 3B >
    0x01_00_00_21, // 3C =
    0x01_00_00_21, // 3D <>
    0x01_00_00_21, // 3E u>
    0x01_00_00_21, // 3F u<=
    0x01_00_00_21, // 40 u<
    0x01_00_00_21, // 41 u>=
    0x01_00_00_21, // 42 >=
    0x01_00_00_21, // 43 <=
    0x01_00_00_31, // 44 between
    0x01_00_00_31, // 45 within
    0x01_00_00_10, // 46 drop
    0x01_00_00_12, // 47 dup
    0x01_00_00_23, // 48 over
    0x01_00_00_22, // 49 swap
    0x01_00_00_33, // 4A rot
    0x01_00_00_33, // 4B -rot
    0x01_00_00_23, // 4C tuck
    0x01_00_00_21, // 4D nip
    0x08_00_00_11, // 4E pick
    0x09_00_00_10, // 4F roll
    0x0A_00_00_11, // 50 ?dup
    0x01_00_00_01, // 51 depth
    0x01_00_00_20, // 52 2drop
    0x01_00_00_24, // 53 2dup
    0x01_00_00_46, // 54 2over
    0x01_00_00_44, // 55 2swap
    0x01_00_00_66, // 56 2rot
    0x01_00_00_11, // 57 2/
    0x01_00_00_11, // 58 u2/
    0x01_00_00_11, // 59 2*
    0,
    0,
    0,
    0,
    0,
    0,
    0, // 60
    0,
    0,
    0,
    0,
    0,
    0,
    0,
    0,
    0,
    0,
    0,
    0,
    0x0C_00_00_11, // 6D @
    0,
    0,
    0, // 70
    0x0C_00_00_11, // 71 c@
    0x0D_00_00_20, // 72 !
    0,
    0,
    0x0D_00_00_20, // 75 c!
    0,
    0,
    0,
    0,
    0,
    0x01_00_00_00, // 7B noop
    0,
    0,
    0,
    0,
    0, // 80
    0,
    0,
    0,
    0,
    0,
    0,
    0,
    0,
    0,
    0,
    0,
    0,
    0,
    0,
    0,
    0, // 90
    0,
    0,
    0,
    0,
    0,
    0,
    0,
    0,
    0,
    0,
    0,
    0,
    0,
    0,
    0,
    0, // A0
    0,
    0,
    0,
    0x01_00_00_01, // A4 -1
    0x01_00_00_01, // A5 0
    0x01_00_00_01, // A6 1
    0x01_00_00_01, // A7 2
    0x01_00_00_01, // A8 3
    0,
    0,
    0,
    0,
    0,
    0,
    0,
    0, // B0
    0x01_00_00_00, // B1 b(<mark)
    0x01_00_00_00, // B2 b(>resolve)
    0,
    0,
    0x0E_15_00_00, // B5 new-token
    0x0E_16_00_00, // B6 named-token
    0x0F_30_00_00, // B7 b(:)
    0x0F_30_00_10, // B8 b(value)
    0x0F_30_00_00, // B9 b(variable)
    0x0F_30_00_10, // BA b(constant)
    0,
    0,
    0,
    0,
    0,
    0, // C0
    0,
    0x0B_20_00_00, // C2 b(;)
    0x10_04_00_10, // C3 b(to)
    0,
    0,
    0,
    0,
    0,
    0,
    0x0E_16_00_00, // CA external-token
    0,
    0x06_10_00_00, // CC offset16
    0,
    0,
    0,
    0, // D0
    0,
    0,
    0,
    0,
    0,
    0,
    0,
    0,
    0,
    0,
    0,
    0,
    0,
    0,
    0,
    0, // E0
    0,
    0,
    0,
    0,
    0,
    0,
    0,
    0,
    0,
    0,
    0,
    0,
    0,
    0,
    0,
    0, // F0
    0,
    0,
    0,
    0,
    0,
    0,
    0,
    0,
    0,
    0,
    0,
    0,
    0,
    0,
    0x02_10_00_00, // FF end1
];

// The code of a token's number: of one byte, of two with a first of 01 to 0F, or a program's.
pub fn code_of(number: u32) -> u32
    ensures { result ≡ code_of number }
{
    match u8::try_from(number) {
        Ok(first) if is_double(first) => 0,
        Ok(first) => FIRST_CODES[first as usize],
        Err(_) => double_code(number),
    }
}

// The same of a number that is not one byte.
pub fn double_code(number: u32) -> u32
    requires { 0x100 ≤ number }
    ensures { result ≡ code_of number }
{
    match number {
        0x800..=0xFFF => 0x11_00_00_00, // a program's
        0x110..=0x201 => double(number),
        _ => 0,
    }
}

// Those of the list, apart: as one match they are not laid out at the callers, and a screen takes up to 3 in 100 more instructions.
#[tactic(auto, unfolding(
// a number's row, as a code
crate::specs::Code::code_of, crate::specs::Table::row_of, crate::specs::Table::table,
// the parts of the list
crate::specs::Table::ends, crate::specs::Table::lows, crate::specs::Table::highs, crate::specs::Table::doubles))]
fn double(number: u32) -> u32
    requires { (0x110 ≤ number) × (number ≤ 0x201) }
    ensures { result ≡ code_of number }
{
    match number {
        0x110 => 0x15_00_00_40, // property
        0x111 => 0x12_00_00_12, // encode-int
        0x112 => 0x14_00_00_42, // encode+
        0x114 => 0x13_00_00_22, // encode-string
        0x119 => 0x16_00_00_20, // model
        0x11A => 0x16_00_00_20, // device-type
        0x11F => 0x17_10_00_00, // new-device
        0x127 => 0x18_10_00_00, // finish-device
        0x201 => 0x16_00_00_20, // device-name
        _ => 0,
    }
}

// The digits of a code.
pub fn family_of(code: u32) -> u32
    ensures { result ≡ family_in code }
{
    code / 0x100_0000
}

pub fn takes_of(code: u32) -> u32
    ensures { result ≡ takes_in code }
{
    code / 0x10 % 16
}

pub fn gives_of(code: u32) -> u32
    ensures { result ≡ gives_in code }
{
    code % 16
}

pub fn return_takes_of(code: u32) -> u32
    ensures { result ≡ return_takes_in code }
{
    code / 0x1000 % 16
}

pub fn return_gives_of(code: u32) -> u32
    ensures { result ≡ return_gives_in code }
{
    code / 0x100 % 16
}
