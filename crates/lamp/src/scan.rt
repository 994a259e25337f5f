// Many dumps, a line for each, and how many of each kind there were. They come in a file of their own, so that any number of them goes: of
// each dump its name, and the path of a link to it where the name is no text, both with a null behind them.
ghost use Rattle.std.specs.Prelude.{◌≤◌, length};

use crate::dump::{SPACE, path_of, read_dump};
use crate::judge::{Ended, ended_run, refusal_of};
use crate::print::{Status, fail, print, say_aside, up_to};
use crate::show::status_of;
use lines::{Counts, Dump, count_line, csv_head, lost_csv, lost_line, scan_csv, scan_line};
use rom::sizes::{STORE_SIZE, TEXT_SIZE};
use std::fs::File;
use std::io;
use std::io::{IsTerminal, Read};
use tree::own_value;

// No path that can be opened is longer.
const PATH_MOST: usize = 4096;

// A name and the path of a link.
const BOTH_MOST: usize = 8192;

// The node that a board's program starts at.
const BOARD: u32 = 1;

// A line for a person, or for another program.
#[derive(Clone, Copy, PartialEq)]
pub enum Form {
    Text,
    Csv,
}

// How the lines are asked for.
#[derive(Clone, Copy)]
struct Wish {
    form: Form,
    budget: u32,
    counting: bool,
}

// A dump more, by its status. No count of dumps reaches the end of the numbers.
fn counted(counts: Counts, status: Status) -> Counts {
    let mut now = counts;
    now.all = counts.all.saturating_add(1);
    match status {
        Status::Well => now.passed = counts.passed.saturating_add(1),
        Status::Refused => now.refused = counts.refused.saturating_add(1),
        Status::Spent => now.spent = counts.spent.saturating_add(1),
        Status::Lost | Status::Unread => now.lost = counts.lost.saturating_add(1),
    }
    now
}

fn dump_line(
    text: &mut [u8],
    form: Form,
    file: &[u8],
    dump: Dump,
    name: &[u8],
    model: &[u8],
) -> usize {
    match form {
        Form::Csv => scan_csv(text, 0, file, dump, name, model),
        Form::Text => scan_line(text, 0, file, dump, name, model),
    }
}

// A ROM that was not run has no tree, and so no name and no model.
fn refused_line(text: &mut [u8], form: Form, file: &[u8], number: u32) -> usize {
    let dump = Dump {
        number,
        ran: false,
        steps: 0,
    };
    dump_line(text, form, file, dump, b"", b"")
}

// A ROM that passed, run.
fn passed_line(text: &mut [u8], store: &[u8], form: Form, file: &[u8], ended: Ended) -> usize {
    let state = ended.state;
    let tree = state.tree;
    let dump = Dump {
        number: ended.number,
        ran: true,
        steps: ended.steps,
    };
    let name = own_value(store, tree, BOARD, b"name");
    let model = own_value(store, tree, BOARD, b"model");
    dump_line(text, form, file, dump, name, model)
}

fn lost_dump(text: &mut [u8], form: Form, file: &[u8]) -> usize {
    match form {
        Form::Csv => lost_csv(text, 0, file),
        Form::Text => lost_line(text, 0, file),
    }
}

// A dump that was judged: its status, with its line printed.
fn judged(rt: &HostRuntime, rom: &[u8], file: &[u8], wish: Wish) -> io::Result<Status> {
    let mut text = [0u8; TEXT_SIZE];
    if let Some(why) = refusal_of(rom) {
        let end = refused_line(&mut text, wish.form, file, why.number());
        print(rt, &text, end)?;
        return Ok(Status::Refused);
    }
    let mut store = [0u8; STORE_SIZE];
    let ended = ended_run(rom, &mut store, wish.budget);
    let status = status_of(ended.number);
    let end = passed_line(&mut text, &store, wish.form, file, ended);
    print(rt, &text, end)?;
    Ok(status)
}

// One that could not be read.
fn unread(rt: &HostRuntime, file: &[u8], wish: Wish) -> io::Result<Status> {
    let mut text = [0u8; TEXT_SIZE];
    let end = lost_dump(&mut text, wish.form, file);
    print(rt, &text, end)?;
    Ok(Status::Lost)
}

fn scan_one(rt: &HostRuntime, file: &[u8], link: &[u8], wish: Wish) -> io::Result<Status> {
    let mut space = [0u8; SPACE];
    match read_dump(rt, file, link, &mut space) {
        Some(rom) => judged(rt, rom, file, wish),
        None => unread(rt, file, wish),
    }
}

// How far it has come, for whoever waits at a terminal and does not see the lines themselves.
fn tell_count(rt: &HostRuntime, n: u32) {
    let _ = eprint!(rt; "\r{n} dumps");
}

// A scan under way: the dumps by kind, how many bytes there are of a dump that is not whole yet, and of those how many are its name's,
// once that is whole.
#[derive(Drop)]
struct Progress<'a> {
    rt: &'a HostRuntime,
    wish: Wish,
    counts: Counts,
    both: [u8; BOTH_MOST],
    have: usize,
    named: Option<usize>,
}

impl Progress<'_> {
    // A null ends a name, or the path of a link, and with that the dump is whole.
    fn word_ended(&mut self) -> io::Result<()> {
        let both = up_to(&self.both, self.have);
        match self.named {
            None => self.named = Some(both.len()),
            Some(named) => {
                let (file, link) = both.split_at(named.min(both.len()));
                let status = scan_one(self.rt, file, link, self.wish)?;
                self.counts = counted(self.counts, status);
                if self.wish.counting {
                    tell_count(self.rt, self.counts.all);
                }
                self.have = 0;
                self.named = None;
            }
        }
        Ok(())
    }

    // A byte of the names and links. Of a name that is too long for any file the start is kept, which is too long as well.
    fn feed(&mut self, byte: u8) -> io::Result<()> {
        if byte == 0 {
            return self.word_ended();
        }
        let most = if self.named.is_some() {
            BOTH_MOST
        } else {
            PATH_MOST
        };
        if self.have < most {
            self.both[self.have] = byte;
            self.have += 1;
        }
        Ok(())
    }

    fn feed_all(&mut self, bytes: &[u8]) -> io::Result<()> {
        for byte in bytes {
            self.feed(*byte)?;
        }
        Ok(())
    }
}

// More reads than any list of names takes.
const READS: u64 = 0xFFFF_FFFF_FFFF;

// The bytes that come next; none where there are no more, or where they cannot be read.
fn next_bytes<'a>(names: &mut File, bytes: &'a mut [u8]) -> &'a [u8]
    ensures { length result.now ≤ length bytes.old }
{
    match names.read(&mut *bytes) {
        Ok(n) => &bytes[..n],
        Err(_) => b"",
    }
}

fn all_names(rt: &HostRuntime, names: &mut File, wish: Wish) -> io::Result<Counts> {
    let mut so = Progress {
        rt,
        wish,
        counts: Counts {
            all: 0,
            passed: 0,
            refused: 0,
            spent: 0,
            lost: 0,
        },
        both: [0u8; BOTH_MOST],
        have: 0,
        named: None,
    };
    let mut room = [0u8; 4096];
    for _ in 0..READS {
        let bytes = next_bytes(names, &mut room);
        if bytes.is_empty() {
            break;
        }
        so.feed_all(bytes)?;
    }
    Ok(so.counts)
}

// The worst that was met.
fn worst(counts: Counts) -> Status {
    if counts.lost != 0 {
        return Status::Lost;
    }
    if counts.refused != 0 {
        return Status::Refused;
    }
    if counts.spent != 0 {
        return Status::Spent;
    }
    if counts.all == 0 {
        return Status::Lost;
    }
    Status::Well
}

// The closing line: behind the lines of the dumps, or beside them where they are for another program.
fn close(rt: &HostRuntime, counts: Counts, wish: Wish) -> io::Result<Status> {
    let mut text = [0u8; 256];
    let end = count_line(&mut text, 0, counts);
    if wish.counting {
        say_aside(rt, b"\r");
    }
    match wish.form {
        Form::Csv => say_aside(rt, up_to(&text, end)),
        Form::Text => print(rt, &text, end)?,
    }
    Ok(worst(counts))
}

fn head(rt: &HostRuntime, form: Form) -> io::Result<()> {
    if form == Form::Text {
        return Ok(());
    }
    let mut text = [0u8; 256];
    let end = csv_head(&mut text, 0);
    print(rt, &text, end)
}

// The file of the names, by its own name.
fn open_names(rt: &HostRuntime, names: &[u8]) -> io::Result<File> {
    File::open(rt, path_of(names)?)
}

// The dumps whose names stand in a file.
pub fn scan(rt: &HostRuntime, form: Form, budget: u32, names: &[u8]) -> io::Result<Status> {
    let wish = Wish {
        form,
        budget,
        counting: !rt.stdout().is_terminal() && rt.stderr().is_terminal(),
    };
    head(rt, form)?;
    match open_names(rt, names) {
        Ok(mut names) => {
            let counts = all_names(rt, &mut names, wish)?;
            close(rt, counts, wish)
        }
        Err(why) => {
            fail(rt, b"the names of the dumps", why);
            Ok(Status::Lost)
        }
    }
}
