// What a C program calls, by the crate host_c: numbers and byte slices, nothing else. Every call is total.
#![tactic(auto)]

ghost use Rattle.std.specs.Prelude.{◌≡◌};
ghost use Rattle.rom.specs.Header.{header_of};
ghost use Rattle.rom.specs.Spread.{fcode_of};
ghost use Rattle.listing.specs.Listing.{listed_with, Lists};
ghost use Rattle.host.specs.Host.{HostScreened, host_run, host_run_of};

use listing::list;
use machine::run;
use rom::{check_header, refusal_in};
use screen::screen;
use state::{number_of, open};

// The header test: 0, or 1 to 5.
pub fn fcode_check(rom: &[u8]) -> u32
    ensures { result ≡ header_of (fcode_of rom.now) }
{
    refusal_in(check_header(rom))
}

// The screen: 0 for a ROM that passes, with its marks; else 6, 1 to 5, or 31.
pub fn fcode_screen(rom: &[u8], marks: &mut [u8]) -> u32
    ensures { HostScreened (fcode_of rom.now) marks.old result marks.new }
{
    match screen(rom, marks) {
        Ok(()) => 0,
        Err(why) => why.number(),
    }
}

// Opens the ROM and runs it, screened or not: 0 finished, 28 for a spent budget, else the refusal. `steps` is the count of tokens
// carried out.
pub fn fcode_run(rom: &[u8], work: &mut [u8], store: &mut [u8], budget: u32, steps: &mut u32) -> u32
    ensures { host_run result steps.new work.new store.new
        ≡ host_run_of (fcode_of rom.now) work.old store.old budget }
{
    let opened = open(rom, work, store);
    let why = number_of(opened.answer);
    if why != 0 {
        *steps = 0;
        return why;
    }
    let r = run(rom, work, store, opened.state, budget);
    *steps = r.count;
    number_of(r.answer)
}

// The listing, written into `text` with one zero behind it, and its length; 0, and nothing written, where the text has the wrong size.
pub fn fcode_list(
    rom: &[u8],
    marks: &mut [u8],
    work: &mut [u8],
    store: &mut [u8],
    budget: u32,
    text: &mut [u8],
) -> usize
    ensures { Lists (fcode_of rom.now) marks.old work.old store.old budget
        text.old (listed_with result marks.new work.new store.new text.new) }
{
    list(rom, marks, work, store, budget, text)
}
