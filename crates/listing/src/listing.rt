// The listing of a ROM.
ghost use Rattle.std.specs.Prelude.{◌≡◌, ◌≤◌, length};
ghost use Rattle.rom.specs.Header.{header_of};
ghost use Rattle.rom.specs.Spread.{fcode_of};
ghost use Rattle.listing.specs.Listing.{listed_with, started_of, Lists};
ghost use Rattle.state.specs.Open.{open_of};
ghost use Rattle.listing.specs.Laws.Listing.{ListedRun};
ghost use Rattle.rom.specs.Sizes.{work_size, store_size, text_size};

use lines::{refused_text, run_text};
use machine::run;
use rom::sizes::{MARKS_SIZE, STORE_SIZE, TEXT_SIZE, WORK_SIZE};
use screen::screen;
use state::{number_of, open};

// Opens a ROM that passed, runs it, and writes what it left. The states that it holds are in no frame while the ROM is screened.
#[inline(never)]
fn list_run(rom: &[u8], work: &mut [u8], store: &mut [u8], budget: u32, text: &mut [u8]) -> usize
    requires { (header_of (fcode_of rom.now) ≡ 0) × (length work.old ≡ work_size) × (length store.old ≡ store_size)
        × (length text.old ≡ text_size) }
    ensures { ListedRun (started_of (fcode_of rom.now)
        (open_of (fcode_of rom.now) work.old store.old) budget)
        text.old result work.new store.new text.new }
{
    let opened = open(rom, work, store);
    let r = run(rom, work, store, opened.state, budget);
    run_text(text, store, r.state.tree, r.count, number_of(r.answer))
}

// Screens a ROM, runs it if it passes, and writes the listing into `text`: its length, one zero behind it, and what lies behind that as it
// was. A refused ROM is the one line `refused N`, and work memory and store are then as they were; a marks, work or store buffer of the
// wrong size is `refused 6`. A text of the wrong size gets 0, and nothing is written anywhere.
pub fn list(
    rom: &[u8],
    marks: &mut [u8],
    work: &mut [u8],
    store: &mut [u8],
    budget: u32,
    text: &mut [u8],
) -> usize
    ensures lists { Lists (fcode_of rom.now) marks.old work.old store.old budget
        text.old (listed_with result marks.new work.new store.new text.new) }
    ensures upper_bound { result ≤ length text.new }
{
    if text.len() != TEXT_SIZE {
        return 0;
    }
    if marks.len() != MARKS_SIZE {
        return refused_text(text, 6);
    }
    if work.len() != WORK_SIZE {
        return refused_text(text, 6);
    }
    if store.len() != STORE_SIZE {
        return refused_text(text, 6);
    }
    match screen(rom, marks) {
        Ok(()) => list_run(rom, work, store, budget, text),
        Err(why) => refused_text(text, why.number()),
    }
}
