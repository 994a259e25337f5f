// The program behind ./lamp. Its first word says what is asked: list FILE BUDGET, tokens FILE, explain FILE BUDGET, scan text|csv BUDGET
// NAMES, numbers. A FILE of a dash is standard input; where its name is no text, the path of a link to it stands as the last word. NAMES is
// a file of the names of the dumps. Lines go to standard output, what is wrong to standard error.
#![tactic(auto)]

mod budget;
mod dump;
mod judge;
mod print;
mod scan;
mod show;

ghost use Rattle.std.specs.Prelude.{◌≤◌, length};

use budget::budget_of;
use lines::number_line;
use print::{Status, complain, print, unprinted};
use scan::{Form, scan};
use show::{explain_file, list_file, tokens_file};
use std::env::Env;
use std::io;
use std::process::ExitCode;

// No path that can be opened is longer.
const WORD_MOST: usize = 4096;

// A word of the command line, put at the start of a room: no bytes where there is no such word, or no room for it.
fn word_of<'a>(rt: &HostRuntime, number: usize, room: &'a mut [u8]) -> &'a [u8]
    ensures { length result.now ≤ length room.old }
{
    match rt.arg(number, &mut *room) {
        Ok(n) => &room[..n],
        Err(_) => b"",
    }
}

// The numbers with their words, a line for each that has some.
fn numbers(rt: &HostRuntime) -> io::Result<Status> {
    let mut text = [0u8; 4096];
    let mut at = 0;
    for k in 0..32 {
        at = number_line(&mut text, at, k);
    }
    print(rt, &text, at)?;
    Ok(Status::Well)
}

fn unknown(rt: &HostRuntime, word: &[u8]) -> Status {
    complain(rt, word, b": no such word\n");
    Status::Lost
}

// Does what is wanted with the third word, which is the budget, and the word behind it.
fn within_budget<F: FnOnce(u32, &[u8]) -> io::Result<Status> + Drop>(
    rt: &HostRuntime,
    wanted: F,
) -> io::Result<Status>
    requires { F.IsAlwaysCallable wanted }
{
    let mut room = [0u8; WORD_MOST];
    let word = word_of(rt, 3, &mut room);
    let mut behind = [0u8; WORD_MOST];
    match budget_of(word) {
        Some(steps) => wanted(steps, word_of(rt, 4, &mut behind)),
        None => {
            complain(
                rt,
                word,
                b": no budget, which is a number from 0 to 4,294,967,295\n",
            );
            Ok(Status::Lost)
        }
    }
}

fn tokens(rt: &HostRuntime, name: &[u8]) -> io::Result<Status> {
    let mut link = [0u8; WORD_MOST];
    tokens_file(rt, name, word_of(rt, 3, &mut link))
}

fn scan_words(rt: &HostRuntime, word: &[u8]) -> io::Result<Status> {
    let form = match word {
        b"csv" => Form::Csv,
        b"text" => Form::Text,
        _ => return Ok(unknown(rt, word)),
    };
    within_budget(rt, |steps, names| scan(rt, form, steps, names))
}

// By the first word, with the second at hand.
fn commanded(rt: &HostRuntime, word: &[u8], second: &[u8]) -> io::Result<Status> {
    match word {
        b"list" => within_budget(rt, |steps, link| list_file(rt, second, link, steps)),
        b"tokens" => tokens(rt, second),
        b"explain" => within_budget(rt, |steps, link| explain_file(rt, second, link, steps)),
        b"scan" => scan_words(rt, second),
        b"numbers" => numbers(rt),
        _ => Ok(unknown(rt, word)),
    }
}

fn asked(rt: &HostRuntime) -> io::Result<Status> {
    let mut word = [0u8; WORD_MOST];
    let mut second = [0u8; WORD_MOST];
    commanded(rt, word_of(rt, 1, &mut word), word_of(rt, 2, &mut second))
}

fn main(rt: HostRuntime) -> ExitCode {
    let status = match asked(&rt) {
        Ok(status) => status,
        Err(why) => unprinted(&rt, why),
    };
    ExitCode::from(status as u8)
}
