// Bytes as a person reads them.
ghost use Rattle.std.specs.Prelude.{◌-◌, ◌≡◌};
ghost use Rattle.lines.specs.Printed.{printed, all_printed, is_text, text_of, quoted as printed_quoted};
ghost use Rattle.lines.specs.Wrote.{Wrote};

use crate::words::{letter, say};

fn is_printed(byte: u8) -> bool
    ensures { result ≡ printed byte }
{
    (0x20 <= byte) & (byte <= 0x7E)
}

pub fn all_printed(bytes: &[u8]) -> bool
    ensures { result ≡ all_printed bytes.now }
{
    bytes.iter().all(|byte| is_printed(*byte))
}

// A space and the bytes in quotes, where all of them are printed; else nothing.
pub fn quoted(text: &mut [u8], at: usize, bytes: &[u8]) -> usize
    ensures { Wrote text.old text.new at result (printed_quoted bytes.now) }
{
    if !all_printed(bytes) {
        return at;
    }
    let at = say(text, at, b" \"");
    let at = say(text, at, bytes);
    letter(text, at, b'"')
}

// A value less its last byte; an empty one has none to lose.
pub fn text_of(value: &[u8]) -> &[u8]
    ensures { result.now ≡ text_of value.now }
{
    match value.split_last() {
        Some((_, text)) => text,
        None => value,
    }
}

// Whether a value ends with a null, and all before it is printed.
pub fn is_text(value: &[u8]) -> bool
    ensures { result ≡ is_text value.now }
{
    match value.split_last() {
        Some((last, text)) => *last == 0 && all_printed(text),
        None => false,
    }
}
