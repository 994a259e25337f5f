// What explain says of a ROM: its header's fields, and the tree that a run left, with paths and with values as people read them. Each call
// writes its lines into a text from a place on and gives the place behind; what passes the text's end is left out. A ROM's bytes are handed
// over as FCode bytes, one behind the other, so that no line but the start's knows of a spread. Every call is total.
ghost use Rattle.std.specs.Prelude.{◌≤◌, ◌≡◌, length, ◌&&◌, ◌||◌};
ghost use Rattle.rom.specs.Header.{length_of, wrong_length};
ghost use Rattle.tree.specs.Whole.{parent_of};
ghost use Rattle.lines.specs.Explain.{start_words, start_line, format_line, length_line, sum_words, sums_shown, sum_line};
ghost use Rattle.lines.specs.Explain.{size_line};
ghost use Rattle.lines.specs.Explain.{field_lines, header_lines, is_title, title_shown, path_to, path_line, read_lines};
ghost use Rattle.lines.specs.Explain.{outside_lines, tally_lines, program_lines, end_line, at_line};
ghost use Rattle.lines.specs.Explain.{end_words, run_line, verdict_line, tree_line, anyway_line};
ghost use Rattle.lines.specs.Wrote.{Wrote};

use crate::digits::{decimal, hex_byte, hex_word};
use crate::lines::own_lines;
use crate::pieces::{piece_line, place_digits, raw_line};
use crate::printed::{is_text, text_of};
use crate::tally::{Tally, tally_of};
use crate::verdicts::verdict;
use crate::words::{letter, say};
use rom::sizes::{NODES_MOST, ROM_LEAST, ROM_MOST, STORE_SIZE};
use rom::{Spread, body_sum, byte, program_length, word16};
use tokens::reader::program_end;
use tree::{Tree, is_whole, own_value};

// Which start a byte is.
fn start_words(text: &mut [u8], at: usize, byte: u8) -> usize
    ensures { Wrote text.old text.new at result (start_words byte) }
{
    match byte {
        0xFD => say(text, at, b", 8-bit branch offsets"),
        0xF1 => say(text, at, b", 16-bit branch offsets"),
        0xF2 => say(text, at, b", 16-bit branch offsets, bytes two apart"),
        0xF3 => say(text, at, b", 16-bit branch offsets, bytes four apart"),
        _ => say(text, at, b", which starts no FCode program"),
    }
}

fn start_line(text: &mut [u8], at: usize, fcode: &[u8]) -> usize
    ensures { Wrote text.old text.new at result (start_line fcode.now) }
{
    let start = byte(fcode, 0);
    let at = say(text, at, b"start: ");
    let at = hex_byte(text, at, start);
    let at = start_words(text, at, start);
    letter(text, at, b'\n')
}

fn format_line(text: &mut [u8], at: usize, fcode: &[u8]) -> usize
    ensures { Wrote text.old text.new at result (format_line fcode.now) }
{
    let at = say(text, at, b"format: ");
    let at = hex_byte(text, at, byte(fcode, 1));
    letter(text, at, b'\n')
}

fn length_line(text: &mut [u8], at: usize, fcode: &[u8]) -> usize
    ensures { Wrote text.old text.new at result (length_line fcode.now) }
{
    let at = say(text, at, b"length: ");
    let at = decimal(text, at, program_length(fcode, Spread::One));
    letter(text, at, b'\n')
}

// Both sums where they differ.
fn sum_words(text: &mut [u8], at: usize, field: u16, sum: u16) -> usize
    ensures { Wrote text.old text.new at result (sum_words field sum) }
{
    if field == sum {
        return say(text, at, b", as the program's bytes add up");
    }
    let at = say(text, at, b", but the program's bytes add up to ");
    hex_word(text, at, sum)
}

// Whether the length says which bytes are the program's.
fn bad_length(fcode: &[u8]) -> bool
    ensures { result ≡ wrong_length fcode.now (length_of fcode.now) }
{
    let length = program_length(fcode, Spread::One);
    (length < 9) | (fcode.len() < length as usize)
}

// What a program's bytes add up to, beside the header's sum, where its length is good.
fn sums(text: &mut [u8], at: usize, fcode: &[u8]) -> usize
    ensures { Wrote text.old text.new at result (sums_shown fcode.now) }
{
    if bad_length(fcode) {
        return at;
    }
    let field = word16(fcode, 2);
    let length = program_length(fcode, Spread::One);
    sum_words(text, at, field, body_sum(fcode, Spread::One, length))
}

fn sum_line(text: &mut [u8], at: usize, fcode: &[u8]) -> usize
    ensures { Wrote text.old text.new at result (sum_line fcode.now) }
{
    let at = say(text, at, b"checksum: ");
    let at = hex_word(text, at, word16(fcode, 2));
    let at = sums(text, at, fcode);
    letter(text, at, b'\n')
}

fn size_line(text: &mut [u8], at: usize, size: u32) -> usize
    ensures { Wrote text.old text.new at result (size_line size) }
{
    let at = say(text, at, b"file: ");
    let at = decimal(text, at, size);
    let at = say(text, at, b" bytes");
    letter(text, at, b'\n')
}

// The fields of a header that is there.
fn field_lines(text: &mut [u8], at: usize, fcode: &[u8]) -> usize
    ensures { Wrote text.old text.new at result (field_lines fcode.now) }
{
    let at = start_line(text, at, fcode);
    let at = format_line(text, at, fcode);
    let at = length_line(text, at, fcode);
    sum_line(text, at, fcode)
}

// A file's size, and the fields of its header where its FCode bytes have one. The size is that of the file, a spread's gaps too.
pub fn header_lines(text: &mut [u8], at: usize, size: usize, fcode: &[u8]) -> usize
    ensures { Wrote text.old text.new at result (header_lines size fcode.now) }
{
    if ROM_MOST < size {
        let at = say(text, at, b"file: more than 65,536 bytes");
        return letter(text, at, b'\n');
    }
    let at = size_line(text, at, size as u32);
    if fcode.len() < ROM_LEAST {
        return at;
    }
    field_lines(text, at, fcode)
}

// Whether a value is text of 1 to 31 letters.
fn is_title(value: &[u8]) -> bool
    ensures { result ≡ is_title value.now }
{
    2 <= value.len() && value.len() <= 32 && is_text(value)
}

fn title(text: &mut [u8], at: usize, store: &[u8], tree: Tree, node: u32) -> usize
    ensures { Wrote text.old text.new at result (title_shown tree store.now node) }
{
    let name = own_value(store, tree, node, b"name");
    if is_title(name) {
        return say(text, at, text_of(name));
    }
    let at = say(text, at, b"(node ");
    let at = decimal(text, at, node);
    letter(text, at, b')')
}

fn parent_of(tree: Tree, node: u32) -> u32
    ensures { result ≡ parent_of tree node }
{
    tree.parents.get(node as usize).copied().unwrap_or(0)
}

// The way to a node's parent, and then the node. A tree is at most so deep.
fn path_to(text: &mut [u8], at: usize, store: &[u8], tree: Tree, deep: u32, node: u32) -> usize
    ensures { Wrote text.old text.new at result (path_to tree store.now deep node) }
{
    if deep == 0 {
        return at;
    }
    if node == 0 {
        return at;
    }
    let at = path_to(text, at, store, tree, deep - 1, parent_of(tree, node));
    let at = letter(text, at, b'/');
    title(text, at, store, tree, node)
}

// A node's path on a line of its own.
pub fn path_line(text: &mut [u8], at: usize, store: &[u8], tree: Tree, node: u32) -> usize
    ensures { Wrote text.old text.new at result (path_line tree store.now node) }
{
    if node == 0 {
        let at = letter(text, at, b'/');
        return letter(text, at, b'\n');
    }
    let at = path_to(text, at, store, tree, NODES_MOST as u32, node);
    letter(text, at, b'\n')
}

// The properties of a node, in store order.
pub fn read_lines(text: &mut [u8], at: usize, store: &[u8], tree: Tree, node: u32) -> usize
    ensures { Wrote text.old text.new at result (read_lines tree store.now node) }
{
    if store.len() != STORE_SIZE {
        return at;
    }
    if !is_whole(tree) {
        return at;
    }
    own_lines(text, at, true, store, tree, node)
}

// How many pieces are no token of the list, what that means, and the line of the first of them.
fn outside_lines(text: &mut [u8], at: usize, fcode: &[u8], tally: Tally) -> usize
    requires { (tally.place ≤ tally.next) × (tally.next ≤ length fcode.now) }
    ensures { Wrote text.old text.new at result (outside_lines fcode.now tally) }
{
    let at = say(text, at, b" pieces, ");
    let at = decimal(text, at, tally.raws);
    let at = say(text, at, b" of them no token of the list");
    let at = say(
        text,
        at,
        b". A board that uses such a token is outside the scope of this tool, not broken. The first:",
    );
    let at = letter(text, at, b'\n');
    raw_line(text, at, fcode, tally.place, tally.next)
}

// How many pieces there are, and how many of them are no token of the list.
fn tally_lines(text: &mut [u8], at: usize, fcode: &[u8], tally: Tally) -> usize
    requires { (tally.place ≤ tally.next) × (tally.next ≤ length fcode.now) }
    ensures { Wrote text.old text.new at result (tally_lines fcode.now tally) }
{
    let at = say(text, at, b"program: ");
    let at = decimal(text, at, tally.pieces);
    if tally.raws == 0 {
        let at = say(text, at, b" tokens, all of the list");
        return letter(text, at, b'\n');
    }
    outside_lines(text, at, fcode, tally)
}

// What a program is made of; more bytes than a ROM has are none.
pub fn program_lines(text: &mut [u8], at: usize, fcode: &[u8]) -> usize
    ensures { Wrote text.old text.new at result (program_lines fcode.now) }
{
    if ROM_MOST < fcode.len() {
        return at;
    }
    tally_lines(text, at, fcode, tally_of(fcode))
}

// A place that is behind the program's last.
fn end_line(text: &mut [u8], at: usize, fcode: &[u8], place: u32) -> usize
    ensures { Wrote text.old text.new at result (end_line fcode.now place) }
{
    if place < program_end(fcode, Spread::One) {
        return at;
    }
    let at = place_digits(text, at, place as usize);
    let at = say(text, at, b" the program's end");
    letter(text, at, b'\n')
}

// Where a run ended: the line of the token at its place.
pub fn at_line(text: &mut [u8], at: usize, fcode: &[u8], wide: bool, place: u32) -> usize
    ensures { Wrote text.old text.new at result (at_line fcode.now wide place) }
{
    let at = say(text, at, b"at: ");
    let at = end_line(text, at, fcode, place);
    let told = piece_line(text, at, fcode, wide, place);
    told.end
}

fn end_words(text: &mut [u8], at: usize, number: u32) -> usize
    ensures { Wrote text.old text.new at result (end_words number) }
{
    if number == 0 {
        return say(text, at, b"done");
    }
    verdict(text, at, number)
}

// How a run ended, and after how many steps.
pub fn run_line(text: &mut [u8], at: usize, number: u32, steps: u32) -> usize
    ensures { Wrote text.old text.new at result (run_line number steps) }
{
    let at = say(text, at, b"run: ");
    let at = end_words(text, at, number);
    let at = say(text, at, b", steps ");
    let at = decimal(text, at, steps);
    letter(text, at, b'\n')
}

pub fn verdict_line(text: &mut [u8], at: usize, number: u32) -> usize
    ensures { Wrote text.old text.new at result (verdict_line number) }
{
    let at = say(text, at, b"verdict: ");
    let at = verdict(text, at, number);
    letter(text, at, b'\n')
}

// The line above the nodes.
pub fn tree_line(text: &mut [u8], at: usize) -> usize
    ensures { Wrote text.old text.new at result tree_line }
{
    let at = say(text, at, b"tree:");
    letter(text, at, b'\n')
}

// The line before the run of a ROM that does not pass.
pub fn anyway_line(text: &mut [u8], at: usize) -> usize
    ensures { Wrote text.old text.new at result anyway_line }
{
    let at = say(
        text,
        at,
        b"It does not pass, and is run all the same to show where it leads:",
    );
    letter(text, at, b'\n')
}
