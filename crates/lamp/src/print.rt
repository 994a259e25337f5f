// What the program prints: lines that were written into a text, and sentences on standard error.
ghost use Rattle.std.specs.Prelude.{◌≡◌, take};

use std::io;

// The exit statuses: all is well; a ROM was refused; something could not be read, or was asked wrongly; the worst is a spent budget; and
// nobody reads what is printed any more, which is no news: a shell's number for a program that a closed pipe ended.
#[derive(Clone, Copy)]
pub enum Status {
    Well = 0,
    Refused = 1,
    Lost = 2,
    Spent = 3,
    Unread = 141,
}

// What of a text lies before a place.
pub fn up_to(text: &[u8], end: usize) -> &[u8]
    ensures { result.now ≡ take end text.now }
{
    text.get(..end).unwrap_or(text)
}

// Prints a text up to a place.
pub fn print(rt: &HostRuntime, text: &[u8], end: usize) -> io::Result<()> {
    rt.write_all(up_to(text, end))
}

// Bytes on standard error. Where that cannot be written to, nobody can be told.
pub fn say_aside(rt: &HostRuntime, text: &[u8]) {
    let _ = rt.stderr().write_all(text);
}

pub fn complain(rt: &HostRuntime, name: &[u8], why: &[u8]) {
    say_aside(rt, name);
    say_aside(rt, why);
}

// An error's words without the number that stands behind them.
fn words_of(error: &str) -> &str {
    error
        .split_once(" (os error ")
        .map_or(error, |(words, _)| words)
}

// A line of what failed and why.
pub fn fail(rt: &HostRuntime, what: &[u8], why: io::Error) {
    complain(rt, what, b": ");
    match format!(in rt.alloc(); "{why}") {
        Ok(error) => say_aside(rt, words_of(error.as_str()).as_bytes()),
        // with its number, where there is no memory to take it off
        Err(_) => {
            let _ = rt.eprint(why);
        }
    }
    say_aside(rt, b"\n");
}

// The status where standard output cannot be written to.
pub fn unprinted(rt: &HostRuntime, why: io::Error) -> Status {
    if why.kind() == io::ErrorKind::BrokenPipe {
        return Status::Unread;
    }
    fail(rt, b"standard output", why);
    Status::Lost
}
