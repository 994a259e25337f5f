// What a C program calls: the functions of crate host under their own names, which include/fcode.h declares. A slice is a pointer and a
// count of bytes in C. Every call is total; a null pointer is fine where the count is 0.
#![tactic(auto)]

ghost use Rattle.std.specs.Prelude.{◌≡◌};
ghost use Rattle.rom.specs.Header.{header_of};
ghost use Rattle.rom.specs.Spread.{fcode_of};
ghost use Rattle.listing.specs.Listing.{listed_with, Lists};
ghost use Rattle.host.specs.Host.{HostScreened, host_run, host_run_of};

// The header test: 0, or 1 to 5.
#[unsafe(no_mangle)]
pub extern "C" fn fcode_check(rom: &[u8]) -> u32
    ensures { result ≡ header_of (fcode_of rom.now) }
{
    host::fcode_check(rom)
}

// The screen: 0 for a ROM that passes, with its marks; else 6, 1 to 5, or 31.
#[unsafe(no_mangle)]
pub extern "C" fn fcode_screen(rom: &[u8], marks: &mut [u8]) -> u32
    ensures { HostScreened (fcode_of rom.now) marks.old result marks.new }
{
    host::fcode_screen(rom, marks)
}

// Opens the ROM and runs it, screened or not: 0 finished, 28 for a spent budget, else the refusal. `steps` is the count of tokens
// carried out.
#[unsafe(no_mangle)]
pub extern "C" fn fcode_run(
    rom: &[u8],
    work: &mut [u8],
    store: &mut [u8],
    budget: u32,
    steps: &mut u32,
) -> u32
    ensures { host_run result steps.new work.new store.new
        ≡ host_run_of (fcode_of rom.now) work.old store.old budget }
{
    host::fcode_run(rom, work, store, budget, steps)
}

// The listing, written into `text` with one zero behind it, and its length; 0, and nothing written, where the text has the wrong size.
#[unsafe(no_mangle)]
pub extern "C" fn fcode_list(
    rom: &[u8],
    marks: &mut [u8],
    work: &mut [u8],
    store: &mut [u8],
    budget: u32,
    text: &mut [u8],
) -> usize
    ensures { Lists (fcode_of rom.now) marks.old work.old store.old budget
        text.old (listed_with result marks.new work.new store.new text.new) }
{
    host::fcode_list(rom, marks, work, store, budget, text)
}
