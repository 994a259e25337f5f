// What the test programs are given, a line of standard input each: where a mark stands in it, and the bytes and the numbers that it holds.
// A ROM is a word of bytes in hex, each of them alone or with how often it stands between two stars behind it: 'FD08007B*3*00'.
#![tactic(auto)]

mod each;

ghost use Rattle.std.specs.Prelude.{◌≡◌, ◌<◌, ◌≤◌, IfOk, IfSome, length, take};

pub use each::each_line;
use std::io;
use std::io::Read;

// Room for the longest ROM, and for one that is a byte too long.
pub const SPACE: usize = 65537;

// Room for the lines of standard input.
pub const TEXT: usize = 131072;

// Reads lines until a room is full or what is read ends, and tells how many bytes it put at the start of the room.
pub fn read_text<R: Read>(from: &mut R, room: &mut [u8]) -> io::Result<usize>
    ensures in_bounds { IfOk result (λ n. n ≤ length room.new) }
    ensures prefix { IfOk result (λ n. n ≡ length (take n room.new)) }
{
    let mut done = 0;
    // a while: the next place is as far as the last read came, no count
    while done < room.len() {
        let n = from.read(&mut room[done..])?;
        if n == 0 {
            break;
        }
        done += n;
    }
    Ok(done)
}

// Where a mark stands next, from a place on; where the text ends if it does not.
pub fn mark_from(text: &[u8], from: usize, mark: u8) -> usize
    requires { from ≤ length text.now }
    ensures { (from ≤ result) × (result ≤ length text.now) }
{
    match text[from..].iter().position(|c| *c == mark) {
        Some(k) => from + k,
        None => text.len(),
    }
}

// Where the word ends that starts at a place.
pub fn word_end(text: &[u8], from: usize) -> usize
    ensures { result ≤ length text.now }
{
    mark_from(text, from.min(text.len()), b' ')
}

// The value of a hexadecimal digit.
fn value(c: u8) -> Option<u8>
    ensures { IfSome result (λ d. d < 16) }
{
    match c {
        b'0'..=b'9' => Some(c - b'0'),
        b'A'..=b'F' => Some(c - b'A' + 10),
        _ => None,
    }
}

// The decimal number at a place, the last eight digits of it; 0 where there is none.
pub fn digits_at(text: &[u8], from: usize) -> u32 {
    let mut n: u32 = 0;
    for c in &text[from.min(text.len())..] {
        if !c.is_ascii_digit() {
            return n;
        }
        n = n % 10_000_000 * 10 + u32::from(*c - b'0');
    }
    n
}

// A byte of a ROM, how often it stands, and where the text goes on.
#[derive(Clone, Copy)]
pub struct Item {
    pub byte: u8,
    pub times: u32,
    pub next: usize,
}

// The item at a place. None is one that stands no times.
fn item_at(text: &[u8], at: usize) -> Option<Item>
    requires { at < length text.now }
    ensures { IfSome result (λ i. at < i.next) }
{
    let high = value(text[at])?;
    let low = value(rom::byte(text, at + 1))?;
    let behind = at + 2;
    let (times, next) = if behind < text.len() && text[behind] == b'*' {
        let from = behind + 1;
        (digits_at(text, from), mark_from(text, from, b'*') + 1)
    } else {
        (1, behind)
    };
    if times == 0 {
        return None;
    }
    Some(Item {
        byte: high * 16 + low,
        times,
        next,
    })
}

// Puts a byte so often behind the first n of a ROM, as far as there is room, and tells how many there are then.
fn fill(rom: &mut [u8], n: usize, byte: u8, times: u32) -> usize
    requires { n ≤ length rom.old }
    ensures { result ≤ length rom.new }
{
    let end = rom.len().min(n + times as usize);
    rom[n..end].fill(byte);
    end
}

// Puts the bytes that stand in hex from a place on at the start of a ROM, up to what is none, and tells how many there are.
pub fn bytes_from(text: &[u8], from: usize, rom: &mut [u8]) -> usize
    ensures in_bounds { result ≤ length rom.new }
    ensures prefix { result ≡ length (take result rom.new) }
{
    let mut n = 0;
    let mut at = from;
    // a while: the next place is what the item says, no count
    while at < text.len() {
        let Some(item) = item_at(text, at) else {
            return n;
        };
        n = fill(rom, n, item.byte, item.times);
        at = item.next;
    }
    n
}
