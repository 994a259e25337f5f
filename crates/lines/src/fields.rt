// Names and values as a line shows them, and as a field of a CSV row holds them.
ghost use Rattle.std.specs.Prelude.{◌≡◌};
ghost use Rattle.lines.specs.Fields.{plain_byte, plain_field as fields_plain, doubled_byte, quotes_doubled as fields_doubled};
ghost use Rattle.lines.specs.Fields.{field as fields_field};
ghost use Rattle.lines.specs.Fields.{text_field, labelled as fields_labelled};
ghost use Rattle.lines.specs.Wrote.{Wrote};

use crate::printed::{is_text, quoted, text_of};
use crate::words::{each, letter, say};

// A control byte is a ?, so that no name reaches a terminal as a command.
fn plain_byte(byte: u8) -> u8
    ensures { result ≡ plain_byte byte }
{
    if (byte < 0x20) | (byte == 0x7F) {
        b'?'
    } else {
        byte
    }
}

pub fn plain(text: &mut [u8], at: usize, bytes: &[u8]) -> usize
    ensures { Wrote text.old text.new at result (fields_plain bytes.now) }
{
    each(
        text,
        at,
        bytes,
        |text, at, byte| letter(text, at, plain_byte(byte)),
    )
}

fn doubled_byte(text: &mut [u8], at: usize, byte: u8) -> usize
    ensures { Wrote text.old text.new at result (doubled_byte byte) }
{
    if byte == b'"' {
        return say(text, at, b"\"\"");
    }
    letter(text, at, byte)
}

fn doubled(text: &mut [u8], at: usize, bytes: &[u8]) -> usize
    ensures { Wrote text.old text.new at result (fields_doubled bytes.now) }
{
    each(text, at, bytes, doubled_byte)
}

pub fn field(text: &mut [u8], at: usize, bytes: &[u8]) -> usize
    ensures { Wrote text.old text.new at result (fields_field bytes.now) }
{
    let at = letter(text, at, b'"');
    let at = doubled(text, at, bytes);
    letter(text, at, b'"')
}

// The text of a value; nothing within the quotes where it is no text.
pub fn text_field(text: &mut [u8], at: usize, value: &[u8]) -> usize
    ensures { Wrote text.old text.new at result (text_field value.now) }
{
    if !is_text(value) {
        return say(text, at, b"\"\"");
    }
    field(text, at, text_of(value))
}

// A value behind its label; nothing where it is no text.
pub fn labelled(text: &mut [u8], at: usize, label: &[u8], value: &[u8]) -> usize
    ensures { Wrote text.old text.new at result (fields_labelled label.now value.now) }
{
    if !is_text(value) {
        return at;
    }
    let at = say(text, at, b", ");
    let at = say(text, at, label);
    quoted(text, at, text_of(value))
}
