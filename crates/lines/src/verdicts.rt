// What is said of a dump, the ROM that was read from a file, for a person and as a row of CSV; and the count of many.
ghost use Rattle.lines.specs.Fields.{field as fields_field};
ghost use Rattle.lines.specs.Numbers.{words_of};
ghost use Rattle.lines.specs.Verdicts.{reason_of, verdict_of, steps_part, scan_line, lost_line};
ghost use Rattle.lines.specs.Verdicts.{csv_head, bare_verdict, bare_steps, found_fields, scan_csv, lost_csv};
ghost use Rattle.lines.specs.Verdicts.{count_words as verdicts_counted, count_line};
ghost use Rattle.lines.specs.Wrote.{Wrote};

use crate::digits::decimal;
use crate::fields::{field, labelled, plain, text_field};
use crate::numbers::{has_words, words_of};
use crate::words::{letter, say};

// What came of a dump: its number, 0 for none, whether its program was run, and how many steps it took.
#[derive(Clone, Copy)]
pub struct Dump {
    pub number: u32,
    pub ran: bool,
    pub steps: u32,
}

// How many dumps there were, and of them those that passed, that were refused, whose budget was spent, and that could not be read.
#[derive(Clone, Copy)]
pub struct Counts {
    pub all: u32,
    pub passed: u32,
    pub refused: u32,
    pub spent: u32,
    pub lost: u32,
}

fn reason(text: &mut [u8], at: usize, number: u32) -> usize
    ensures { Wrote text.old text.new at result (reason_of number) }
{
    if !has_words(number) {
        return at;
    }
    let at = say(text, at, b": ");
    words_of(text, at, number)
}

pub fn verdict(text: &mut [u8], at: usize, number: u32) -> usize
    ensures { Wrote text.old text.new at result (verdict_of number) }
{
    if number == 0 {
        return say(text, at, b"passes");
    }
    let at = say(text, at, b"refused ");
    let at = decimal(text, at, number);
    reason(text, at, number)
}

fn steps_part(text: &mut [u8], at: usize, ran: bool, steps: u32) -> usize
    ensures { Wrote text.old text.new at result (steps_part ran steps) }
{
    if !ran {
        return at;
    }
    let at = say(text, at, b", steps ");
    decimal(text, at, steps)
}

// A dump's line, with those of its name and model that are text.
pub fn scan_line(
    text: &mut [u8],
    at: usize,
    file: &[u8],
    dump: Dump,
    name: &[u8],
    model: &[u8],
) -> usize
    ensures { Wrote text.old text.new at result
        (scan_line file.now dump name.now model.now) }
{
    let at = plain(text, at, file);
    let at = say(text, at, b": ");
    let at = verdict(text, at, dump.number);
    let at = steps_part(text, at, dump.ran, dump.steps);
    let at = labelled(text, at, b"name", name);
    let at = labelled(text, at, b"model", model);
    letter(text, at, b'\n')
}

// The line of a file that could not be read.
pub fn lost_line(text: &mut [u8], at: usize, file: &[u8]) -> usize
    ensures { Wrote text.old text.new at result (lost_line file.now) }
{
    let at = plain(text, at, file);
    say(text, at, b": unreadable\n")
}

pub fn csv_head(text: &mut [u8], at: usize) -> usize
    ensures { Wrote text.old text.new at result csv_head }
{
    say(text, at, b"file,verdict,number,words,steps,name,model\n")
}

fn bare_verdict(text: &mut [u8], at: usize, number: u32) -> usize
    ensures { Wrote text.old text.new at result (bare_verdict number) }
{
    if number == 0 {
        return say(text, at, b"passes");
    }
    say(text, at, b"refused")
}

// The words have no double quote, so that they are their own field within quotes.
fn words_field(text: &mut [u8], at: usize, number: u32) -> usize
    ensures { Wrote text.old text.new at result (fields_field (words_of number)) }
{
    let at = letter(text, at, b'"');
    let at = words_of(text, at, number);
    letter(text, at, b'"')
}

fn bare_steps(text: &mut [u8], at: usize, ran: bool, steps: u32) -> usize
    ensures { Wrote text.old text.new at result (bare_steps ran steps) }
{
    if !ran {
        return at;
    }
    decimal(text, at, steps)
}

fn found_fields(text: &mut [u8], at: usize, dump: Dump) -> usize
    ensures { Wrote text.old text.new at result (found_fields dump) }
{
    let at = bare_verdict(text, at, dump.number);
    let at = letter(text, at, b',');
    let at = decimal(text, at, dump.number);
    let at = letter(text, at, b',');
    let at = words_field(text, at, dump.number);
    let at = letter(text, at, b',');
    bare_steps(text, at, dump.ran, dump.steps)
}

pub fn scan_csv(
    text: &mut [u8],
    at: usize,
    file: &[u8],
    dump: Dump,
    name: &[u8],
    model: &[u8],
) -> usize
    ensures { Wrote text.old text.new at result
        (scan_csv file.now dump name.now model.now) }
{
    let at = field(text, at, file);
    let at = letter(text, at, b',');
    let at = found_fields(text, at, dump);
    let at = letter(text, at, b',');
    let at = text_field(text, at, name);
    let at = letter(text, at, b',');
    let at = text_field(text, at, model);
    letter(text, at, b'\n')
}

pub fn lost_csv(text: &mut [u8], at: usize, file: &[u8]) -> usize
    ensures { Wrote text.old text.new at result (lost_csv file.now) }
{
    let at = field(text, at, file);
    say(text, at, b",unreadable,,\"\",,\"\",\"\"\n")
}

fn counted(text: &mut [u8], at: usize, n: u32, words: &[u8]) -> usize
    ensures { Wrote text.old text.new at result (verdicts_counted n words.now) }
{
    let at = decimal(text, at, n);
    say(text, at, words)
}

pub fn count_line(text: &mut [u8], at: usize, counts: Counts) -> usize
    ensures { Wrote text.old text.new at result (count_line counts) }
{
    let at = counted(text, at, counts.all, b" dumps: ");
    let at = counted(text, at, counts.passed, b" passed, ");
    let at = counted(text, at, counts.refused, b" refused, ");
    let at = counted(text, at, counts.spent, b" out of budget, ");
    counted(text, at, counts.lost, b" unreadable\n")
}
