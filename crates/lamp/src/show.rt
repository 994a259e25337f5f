// One ROM, shown: its listing, its tokens, or all that a person may want to know of it. Each gives the exit status. Lines go into a text
// that is printed whenever the next line may have no room behind them. A ROM is tested, screened and run as it was read; what is shown of
// its bytes is shown of its FCode bytes, so that a spread is dealt with once, here.
use crate::dump::{FCODE_SPACE, SPACE, fcode_of, read_dump};
use crate::judge::{Ended, ended_run, refusal_of};
use crate::print::{Status, print, up_to};
use lines::{
    anyway_line, at_line, header_lines, path_line, piece_line, program_lines, read_lines,
    refused_text, run_line, tree_line, verdict_line,
};
use listing::list;
use rom::sizes::{FIRST_PLACE, MARKS_SIZE, STORE_SIZE, TEXT_SIZE, WORK_SIZE};
use rom::{check_header, wide_start};
use std::io;
use tree::Tree;

// No line of the token list is longer (`line_short`, lines/specs/Laws/Tokens.antt).
const LINE_MOST: usize = 1024;

// Behind this a text is printed before it goes on, so that each line has room.
const FULL: usize = TEXT_SIZE - LINE_MOST;

// The status of a number: a spent budget is no fault of the ROM.
pub fn status_of(number: u32) -> Status {
    match number {
        0 => Status::Well,
        28 => Status::Spent,
        _ => Status::Refused,
    }
}

// The status that a listing says, by its last line.
fn listing_status(text: &[u8]) -> Status {
    if text.ends_with(b"done\n") {
        return Status::Well;
    }
    if text.ends_with(b"refused 28\n") {
        return Status::Spent;
    }
    Status::Refused
}

// The listing of document 01.
fn show_listing(rt: &HostRuntime, rom: &[u8], budget: u32) -> io::Result<Status> {
    let mut marks = [0u8; MARKS_SIZE];
    let mut work = [0u8; WORK_SIZE];
    let mut store = [0u8; STORE_SIZE];
    let mut text = [0u8; TEXT_SIZE];
    let end = list(rom, &mut marks, &mut work, &mut store, budget, &mut text);
    print(rt, &text, end)?;
    Ok(listing_status(up_to(&text, end)))
}

// The lines of a program's tokens, as many at most as there are bytes.
fn print_pieces(rt: &HostRuntime, fcode: &[u8], text: &mut [u8]) -> io::Result<()> {
    let mut at = 0;
    let mut wide = wide_start(fcode);
    let mut place = FIRST_PLACE as u32;
    for _ in 0..fcode.len() {
        let told = piece_line(&mut *text, at, fcode, wide, place);
        if told.next == place {
            break;
        }
        at = told.end;
        wide = told.wide;
        place = told.next;
        if FULL < at {
            print(rt, &*text, at)?;
            at = 0;
        }
    }
    print(rt, &*text, at)
}

fn print_tokens(rt: &HostRuntime, rom: &[u8], fcode: &[u8]) -> io::Result<Status> {
    let mut text = [0u8; TEXT_SIZE];
    if let Err(why) = check_header(rom) {
        let end = refused_text(&mut text, why.number());
        print(rt, &text, end)?;
        return Ok(Status::Refused);
    }
    print_pieces(rt, fcode, &mut text)?;
    Ok(Status::Well)
}

fn show_tokens(rt: &HostRuntime, rom: &[u8]) -> io::Result<Status> {
    let mut room = [0u8; FCODE_SPACE];
    print_tokens(rt, rom, fcode_of(rom, &mut room))
}

// A node with its properties, each printed by itself: together they might have no room.
fn print_node(
    rt: &HostRuntime,
    text: &mut [u8],
    store: &[u8],
    tree: Tree,
    node: u32,
) -> io::Result<()> {
    let end = path_line(&mut *text, 0, store, tree, node);
    print(rt, &*text, end)?;
    let end = read_lines(&mut *text, 0, store, tree, node);
    print(rt, &*text, end)
}

fn print_tree(rt: &HostRuntime, text: &mut [u8], store: &[u8], tree: Tree) -> io::Result<()> {
    let end = tree_line(&mut *text, 0);
    print(rt, &*text, end)?;
    for k in (0..32u32).take(tree.nodes) {
        print_node(rt, &mut *text, store, tree, k)?;
    }
    Ok(())
}

// How a run ended, and at which token, unless it finished.
fn print_end(rt: &HostRuntime, text: &mut [u8], fcode: &[u8], ended: Ended) -> io::Result<()> {
    let end = run_line(&mut *text, 0, ended.number, ended.steps);
    if ended.number == 0 {
        return print(rt, &*text, end);
    }
    let state = ended.state;
    let end = at_line(&mut *text, end, fcode, state.wide, state.place);
    print(rt, &*text, end)
}

// The header, the verdict, and what the program is made of.
fn print_head(
    rt: &HostRuntime,
    text: &mut [u8],
    rom: &[u8],
    fcode: &[u8],
    number: u32,
) -> io::Result<()> {
    let at = header_lines(&mut *text, 0, rom.len(), fcode);
    let at = verdict_line(&mut *text, at, number);
    if check_header(rom).is_err() {
        return print(rt, &*text, at);
    }
    let at = program_lines(&mut *text, at, fcode);
    print(rt, &*text, at)
}

// A ROM with a good header: what its run left, and how it ended.
fn print_run(
    rt: &HostRuntime,
    text: &mut [u8],
    fcode: &[u8],
    store: &mut [u8],
    ended: Ended,
) -> io::Result<()> {
    let state = ended.state;
    let tree = state.tree;
    print_tree(rt, &mut *text, &*store, tree)?;
    print_end(rt, &mut *text, fcode, ended)
}

fn show_run(rt: &HostRuntime, rom: &[u8], fcode: &[u8], budget: u32) -> io::Result<Status> {
    let mut text = [0u8; TEXT_SIZE];
    let mut store = [0u8; STORE_SIZE];
    let refusal = refusal_of(rom);
    let ended = ended_run(rom, &mut store, budget);
    let number = match refusal {
        Some(why) => why.number(),
        None => ended.number,
    };
    print_head(rt, &mut text, rom, fcode, number)?;
    if refusal.is_some() {
        let end = anyway_line(&mut text, 0);
        print(rt, &text, end)?;
    }
    print_run(rt, &mut text, fcode, &mut store, ended)?;
    match refusal {
        Some(_) => Ok(Status::Refused),
        None => Ok(status_of(ended.number)),
    }
}

fn explain(rt: &HostRuntime, rom: &[u8], fcode: &[u8], budget: u32) -> io::Result<Status> {
    if let Err(why) = check_header(rom) {
        let mut text = [0u8; TEXT_SIZE];
        print_head(rt, &mut text, rom, fcode, why.number())?;
        return Ok(Status::Refused);
    }
    show_run(rt, rom, fcode, budget)
}

fn show_all(rt: &HostRuntime, rom: &[u8], budget: u32) -> io::Result<Status> {
    let mut room = [0u8; FCODE_SPACE];
    explain(rt, rom, fcode_of(rom, &mut room), budget)
}

// Does something with the bytes of a dump, if they can be read.
fn with_dump<F: FnOnce(&[u8]) -> io::Result<Status> + Drop>(
    rt: &HostRuntime,
    name: &[u8],
    link: &[u8],
    show: F,
) -> io::Result<Status>
    requires { F.IsAlwaysCallable show }
{
    let mut space = [0u8; SPACE];
    match read_dump(rt, name, link, &mut space) {
        Some(rom) => show(rom),
        None => Ok(Status::Lost),
    }
}

pub fn list_file(rt: &HostRuntime, name: &[u8], link: &[u8], budget: u32) -> io::Result<Status> {
    with_dump(rt, name, link, |rom| show_listing(rt, rom, budget))
}

pub fn tokens_file(rt: &HostRuntime, name: &[u8], link: &[u8]) -> io::Result<Status> {
    with_dump(rt, name, link, |rom| show_tokens(rt, rom))
}

pub fn explain_file(rt: &HostRuntime, name: &[u8], link: &[u8], budget: u32) -> io::Result<Status> {
    with_dump(rt, name, link, |rom| show_all(rt, rom, budget))
}
