// A body: its token starts, its walk, and what it comes to.
ghost use Rattle.std.specs.Prelude.{◌≡◌, true, false, ◌≢◌, suc, ◌≤◌, ◌<◌, ◌+◌, ◌-◌, length as len};
ghost use Rattle.rom.specs.Sizes.{rom_most};
ghost use Rattle.tokens.specs.Joints.Quick.{Codes};
ghost use Rattle.screen.specs.Laws.Found.Model.{starts_of, sum_told, passes_of};
ghost use Rattle.screen.specs.Laws.Found.Model.{shifted_cell, shift_of, places as model_places, body_text};
ghost use Rattle.screen.specs.Laws.Code.Visit.{tally_in};
ghost use Rattle.screen.specs.Laws.Code.Body.{Bounded, Low, MarksIs, StandsBy, SurveyIs};
ghost use Rattle.screen.specs.Laws.Code.Walk.{WalkTables};

use crate::cell::{ENTRY_CELL, UNMET, moved};
use crate::effect::Sum;
use crate::limits::{BODY_MOST, ENTERED};
use crate::rounds::Stand;
use crate::tally::Tally;
use crate::walking::{Text, walk_from};
use tokens::programs::PROGRAMS_MOST;
use tokens::{Glance, family, family_of, glance_from, kind_of, out_of_place, quick_at};

// A body that was walked and passes: the place of its C2, and what it comes to.
#[derive(Clone, Copy)]
pub struct Survey {
    pub end: u32,
    pub tally: Tally,
}

// Whether a body may have a token: one of the list that is not out of place there, names a number that is known, and leads somewhere if it
// branches.
fn stands(kinds: &[u8; PROGRAMS_MOST], glance: Glance) -> bool
    ensures { StandsBy kinds.now glance result }
{
    if out_of_place(glance.code, true) {
        return false;
    }
    let work = family_of(glance.code);
    match work {
        family::UNLISTED => false,
        family::CALL => kind_of(kinds, glance.number) != 0,
        family::ASSIGN => kind_of(kinds, glance.number) == 0xB8,
        family::ALWAYS => glance.aim != 0,
        family::CHOICE => glance.aim != 0,
        _ => true,
    }
}

// Marks the token starts of a body, up to its C2, whose place that is.
fn mark_starts(
    codes: &[u32; 256],
    rom: &[u8],
    length: u32,
    wide: bool,
    kinds: &[u8; PROGRAMS_MOST],
    seen: &mut [u32],
    entry: u32,
) -> Option<u32>
    requires { Codes codes.now × (length ≤ len seen.old) × (length ≤ rom_most) }
    ensures { MarksIs length (starts_of rom.now length wide kinds.now rom_most entry seen.old) result seen.new }
{
    let mut at = entry;
    // a while: the next place is where the token ends
    while at < length {
        let k = at as usize;
        let quick = quick_at(codes, rom, length, at);
        if quick.next != 0 {
            seen[k] = UNMET;
            at = quick.next;
        } else {
            let glance = glance_from(rom, length, wide, at, quick.first, quick.code);
            if !stands(kinds, glance) {
                return None;
            }
            seen[k] = UNMET;
            if quick.first == 0xC2 {
                return Some(at);
            }
            at = glance.next;
        }
    }
    None
}

// A body ends, all its ends agree, and it stays within the limit where it is entered at its need.
fn passes(tally: Tally) -> bool
    requires { Low (tally_in tally) }
    ensures { result ≡ passes_of (tally_in tally) }
{
    tally.fine != 0 && tally.out != 0 && tally.peak + tally.need <= BODY_MOST
}

// The sum of a body, as it is where it is entered at its need.
pub fn sum_of(tally: Tally) -> Sum
    requires { Low (tally_in tally) }
    ensures { result ≡ sum_told (tally_in tally) }
{
    Sum {
        need: tally.need,
        out: (tally.out.saturating_sub(1) + tally.need).saturating_sub(ENTERED),
        peak: (tally.peak + tally.need).saturating_sub(ENTERED),
        return_peak: tally.return_peak,
        frames: tally.frames,
    }
}

fn moved_cell(need: u32, cell: u32) -> u32
    requires { (need ≤ 1024) × (cell ≤ 0x4000_0000) }
    ensures { result ≡ shifted_cell need cell }
{
    if cell == 0 || cell == UNMET {
        return 0;
    }
    moved(cell, need, ENTERED)
}

// The heights of a body, as they are where it is entered at its need.
pub fn shift(seen: &mut [u32], need: u32, entry: u32, count: u32)
    requires { (need ≤ 1024) × (entry + count ≤ len seen.old) × Bounded 0x4000_0000 seen.old }
    ensures { seen.new ≡ shift_of need count entry seen.old }
{
    let start = entry as usize;
    for place in start..start + (count as usize) {
        seen[place] = moved_cell(need, seen[place]);
    }
}

// How many places a body has.
pub fn places(entry: u32, end: u32) -> u32
    requires { end < rom_most }
    ensures { result ≡ model_places entry end }
{
    (end + 1).saturating_sub(entry)
}

fn body(length: u32, wide: bool, entry: u32) -> Text
    ensures { result ≡ body_text length wide entry }
{
    Text {
        length,
        wide,
        within: true,
        low: entry,
        children: 0,
    }
}

// A body is marked, and walked from 64.
pub fn survey_body(
    codes: &[u32; 256],
    rom: &[u8],
    length: u32,
    kinds: &[u8; PROGRAMS_MOST],
    sums: &[u64],
    seen: &mut [u32],
    work: &mut [u16],
    stand: Stand,
    entry: u32,
) -> Option<Survey>
    requires { Codes codes.now × WalkTables length seen.old work.old × (entry ≢ 0) × (entry ≤ length) }
    ensures { SurveyIs rom.now length kinds.now sums.now seen.old stand entry result
        seen.new }
{
    let end = mark_starts(codes, rom, length, stand.wide, kinds, &mut *seen, entry)?;
    let text = body(length, stand.wide, entry);
    let walk = walk_from(
        codes, rom, text, kinds, sums, &mut *seen, &mut *work, entry, ENTRY_CELL,
    )?;
    let tally = walk.tally;
    if !passes(tally) {
        return None;
    }
    Some(Survey { end, tally })
}
