// Numbers, written into a text.
ghost use Rattle.std.specs.Prelude.{◌≡◌, ◌<◌};
ghost use Rattle.lines.specs.Digits.{decimal_of, hex_digit, hex_pair, hex_word, hex_of};
ghost use Rattle.lines.specs.Wrote.{Wrote};

use crate::words::{each, letter};

// The digits of the tenth, and behind them the last one.
pub fn decimal(text: &mut [u8], at: usize, n: u32) -> usize
    ensures { Wrote text.old text.new at result (decimal_of n) }
{
    if n < 10 {
        return letter(text, at, (0x30 + n) as u8);
    }
    let at = decimal(text, at, n / 10);
    letter(text, at, (0x30 + n % 10) as u8)
}

// 0 to 9, A to F.
fn hex_digit(half: u8) -> u8
    requires { half < 16 }
    ensures { result ≡ hex_digit half }
{
    if half < 10 { 0x30 + half } else { 0x37 + half }
}

pub fn hex_byte(text: &mut [u8], at: usize, byte: u8) -> usize
    ensures { Wrote text.old text.new at result (hex_pair byte) }
{
    let at = letter(text, at, hex_digit(byte / 16));
    letter(text, at, hex_digit(byte % 16))
}

pub fn hex_word(text: &mut [u8], at: usize, word: u16) -> usize
    ensures { Wrote text.old text.new at result (hex_word word) }
{
    hex(text, at, &word.to_be_bytes())
}

pub fn hex(text: &mut [u8], at: usize, value: &[u8]) -> usize
    ensures { Wrote text.old text.new at result (hex_of value.now) }
{
    each(text, at, value, hex_byte)
}
