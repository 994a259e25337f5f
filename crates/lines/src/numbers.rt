// The refusals' numbers, in words.
ghost use Rattle.std.specs.Prelude.{◌≡◌};
ghost use Rattle.lines.specs.Numbers.{words_of, has_words, number_line};
ghost use Rattle.lines.specs.Wrote.{Wrote};

use crate::digits::decimal;
use crate::words::{letter, say};

// Each number's words; none where there is no such number.
const WORDS: [&[u8]; 32] = [
    b"",
    b"the ROM has fewer than 8 or more than 65,536 bytes, or fewer than its spread header",
    b"byte 0 is none of FD, F1, F2 and F3",
    b"byte 1 is not 08",
    b"the program length is below 9 or above what is there",
    b"the program's bytes do not add up to the checksum",
    b"a lent buffer has the wrong size",
    b"the state is damaged",
    b"",
    b"",
    b"a token's bytes pass the program length",
    b"a token is not in the list, or defines a number or a kind that it may not",
    b"a program number is not defined, or is no value after b(to)",
    b"a number is defined already, or would be the 257th",
    b"the data stack is too low",
    b"the data stack would be too high",
    b"the return stack would be above 32 cells or below its frame's base, or is not at the base on leaving a body",
    b"a call would be the 17th that is open",
    b"a token is out of place",
    b"a taken branch leads outside the program",
    b"a node would be the 33rd, or finish-device is met at node 1",
    b"a divisor is zero",
    b"an address range lies in no window, or a store outside work memory",
    b"a cell's address is no multiple of 4",
    b"work memory is exhausted",
    b"the arrays of encode+ do not adjoin",
    b"a property's name is too short, too long, or has a byte that may not stand in a name",
    b"a property would be the 129th, or live bytes would be above 16,384",
    b"the budget is spent",
    b"the path is malformed",
    b"there is no such node or property",
    b"no stack heights can be assigned to the ROM",
];

fn words(number: u32) -> &'static [u8]
    ensures { result.now ≡ words_of number }
{
    let k = number as usize;
    if k < WORDS.len() { WORDS[k] } else { b"" }
}

// The words of a number; nothing for a number that is none.
pub fn words_of(text: &mut [u8], at: usize, number: u32) -> usize
    ensures { Wrote text.old text.new at result (words_of number) }
{
    say(text, at, words(number))
}

pub fn has_words(number: u32) -> bool
    ensures { result ≡ has_words number }
{
    !words(number).is_empty()
}

// A number and its words; nothing for a number without words.
pub fn number_line(text: &mut [u8], at: usize, number: u32) -> usize
    ensures { Wrote text.old text.new at result (number_line number) }
{
    if !has_words(number) {
        return at;
    }
    let at = decimal(text, at, number);
    let at = letter(text, at, b' ');
    let at = words_of(text, at, number);
    letter(text, at, b'\n')
}
