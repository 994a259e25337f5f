// The screen of a ROM, with its marks.
ghost use Rattle.std.specs.Prelude.{◌≡◌, ◌≤◌, length, replicate};
ghost use Rattle.rom.specs.Refusal.{numbered};
ghost use Rattle.rom.specs.Sizes.{marks_size, rom_most};
ghost use Rattle.rom.specs.Spread.{fcode_of};
ghost use Rattle.screen.specs.Laws.Found.Model.{laid_of, screen_of};
ghost use Rattle.screen.specs.Laws.Code.Screen.{passed_by, Cleared, Judging, Judged};
ghost use Rattle.screen.specs.Laws.Code.Spread.{room_with, judged_bytes};
ghost use Rattle.screen.specs.Laws.Found.Screen.{screened, judged_of};
ghost use Rattle.screen.specs.Promise.{Promised};

use crate::cell::{FIRST_CELL, mark_in};
use crate::limits::FIRST_PLACE;
use crate::rounds::{Stand, all_rounds};
use rom::sizes::{MARKS_SIZE, ROM_MOST};
use rom::{Refusal, Spread, check_header, lay_fcode, program_length, spread_of, wide_start};
use tokens::first_codes;
use tokens::programs::PROGRAMS_MOST;

// The marks are the cells' low bytes: one more than the data height at each token that can be reached, 0 anywhere else, and behind the
// cells.
fn lay_marks(seen: &[u32], marks: &mut [u8])
    requires { (length seen.now ≤ length marks.old) × (length marks.old ≡ marks_size) }
    ensures { marks.new ≡ laid_of seen.now }
{
    for (i, cell) in seen.iter().enumerate() {
        marks[i] = mark_in(*cell);
    }
    marks[seen.len()..].fill(0);
}

// Whether heights are found for a program of a length, by tables that have room for it; where they are, its cells hold them.
fn finds_heights(rom: &[u8], length: u32, seen: &mut [u32], work: &mut [u16]) -> bool
    requires { Cleared rom.now length seen.old work.old }
    ensures { passed_by result seen.new ≡ screen_of rom.now }
{
    let codes = first_codes();
    let mut kinds = [0u8; PROGRAMS_MOST];
    let mut sums = [0u64; PROGRAMS_MOST];
    let first = Stand {
        start: FIRST_PLACE,
        cell: FIRST_CELL,
        wide: wide_start(rom),
        children: 0,
        nodes: 2,
        count: 0,
    };
    all_rounds(
        &codes, rom, length, seen, work, &mut kinds, &mut sums, first,
    )
}

// The first FCode bytes of a spread ROM are laid into the front of a room; of a ROM that is not spread nothing is copied.
fn lay_spread(rom: &[u8], spread: Spread, count: usize, room: &mut [u8])
    requires { count ≤ length room.old }
    ensures { room.new ≡ room_with spread rom.now count room.old }
{
    match spread {
        Spread::One => {}
        _ => lay_fcode(rom, spread, &mut room[..count]),
    }
}

// The bytes to judge: the ROM itself, or the front of the room where a spread ROM's are laid out.
fn laid<'a>(rom: &'a [u8], spread: Spread, count: usize, room: &'a [u8]) -> &'a [u8]
    requires { count ≤ length room.now }
    ensures { result.now ≡ judged_bytes spread rom.now count room.now }
{
    match spread {
        Spread::One => rom,
        _ => &room[..count],
    }
}

// A program of a length, by tables that have room for it. The mark buffer is written whatever the verdict is, so that until then it can
// hold the FCode bytes of a spread ROM: as many as the program has.
fn judge_in(
    rom: &[u8],
    length: u32,
    marks: &mut [u8],
    seen: &mut [u32],
    work: &mut [u16],
) -> Result<(), Refusal>
    requires { Judging (fcode_of rom.now) length marks.old seen.old work.old }
    ensures { screened (numbered result) marks.new ≡ judged_of (fcode_of rom.now) marks.old }
{
    let spread = spread_of(rom);
    let count = length as usize;
    lay_spread(rom, spread, count, &mut *marks);
    let program = laid(rom, spread, count, &*marks);
    if finds_heights(program, length, &mut *seen, &mut *work) {
        lay_marks(&*seen, marks);
        return Ok(());
    }
    marks.fill(0);
    Err(Refusal::NoHeights)
}

// The same with tables of so many cells.
#[inline(never)]
fn judge_with<const N: usize>(rom: &[u8], length: u32, marks: &mut [u8]) -> Result<(), Refusal>
    requires { Judged (fcode_of rom.now) length marks.old N }
    ensures { screened (numbered result) marks.new ≡ judged_of (fcode_of rom.now) marks.old }
{
    let mut seen = [0u32; N];
    let mut work = [0u16; N];
    judge_in(rom, length, marks, &mut seen, &mut work)
}

// The screen: a ROM passes exactly where heights can be assigned to it, and the marks are then the data heights. One that is refused for
// its heights leaves the marks all zero; a mark buffer of another size, or a bad header, leaves it as it was. A program is judged by the
// smallest tables that have room for it, since they are cleared at each call. What has tables is never copied into its caller, whose frame
// they would be laid into whatever the ROM's size is (docs/DECISIONS.md, point 122; tests/host.c looks at the stack).
pub fn screen(rom: &[u8], marks: &mut [u8]) -> Result<(), Refusal>
    ensures { Promised (fcode_of rom.now) marks.old (numbered result) marks.new }
{
    if marks.len() != MARKS_SIZE {
        return Err(Refusal::WrongSize);
    }
    check_header(rom)?;
    let length = program_length(rom, spread_of(rom));
    if length <= 256 {
        return judge_with::<256>(rom, length, marks);
    }
    if length <= 1024 {
        return judge_with::<1024>(rom, length, marks);
    }
    if length <= 4096 {
        return judge_with::<4096>(rom, length, marks);
    }
    if length <= 16384 {
        return judge_with::<16384>(rom, length, marks);
    }
    judge_with::<ROM_MOST>(rom, length, marks)
}
