// A text that is walked: from a place on, along every way that its tokens lead, with the heights that they leave.
ghost use Rattle.std.specs.Prelude.{◌≡◌, ◌≢◌, ℕ, ◌<◌, length};
ghost use Rattle.tokens.specs.Joints.Quick.{Codes};
ghost use Rattle.rom.specs.Sizes.{rom_most};
ghost use Rattle.screen.specs.Laws.Found.Model.{blank_of, no_tally, walk_steps};
ghost use Rattle.screen.specs.Laws.Code.Walk.{spoilt_way, out_way, path_of, KeptIs, WalkFit};
ghost use Rattle.screen.specs.Laws.Code.Walk.{CameTo, CameIf, Settled, WentOn, SetOut, EndsWith, WalkIs};

use crate::cell::UNMET;
use crate::limits::ROM_MOST;
use crate::tables::item_at;
use crate::tally::{Tally, no_tally};
use crate::visiting::{Visit, visit_at};
use tokens::programs::PROGRAMS_MOST;

// The text: the program's length, the offset width in force, whether it is a body, the place below which it has no token, and the open
// children.
#[derive(Clone, Copy)]
pub struct Text {
    pub length: u32,
    pub wide: bool,
    pub within: bool,
    pub low: u32,
    pub children: u32,
}

// How a good walk ended: the highest place that it came to, and what a body comes to.
#[derive(Clone, Copy)]
pub struct Walk {
    pub far: u32,
    pub tally: Tally,
}

// Where a walk is: whether it is fine, 1 or 0, the highest place that it came to, the place that is met next with its cell, 0 where none is
// at hand, and how many more wait in the table.
#[derive(Clone, Copy)]
pub struct Way {
    pub fine: u32,
    pub far: u32,
    pub place: u32,
    pub cell: u32,
    pub top: u32,
}

// What stands where a walk may come to and has not yet: of a body only the token starts are marked.
fn blank(within: bool) -> u32
    ensures { result ≡ blank_of within }
{
    if within { UNMET } else { 0 }
}

fn spoilt(way: Way) -> Way
    ensures { result ≡ spoilt_way way }
{
    Way { fine: 0, ..way }
}

// The place that is at hand waits in the table, behind those that wait there; how many these are then.
fn kept(work: &mut [u16], place: u32, top: u32) -> u32
    requires { (top < length work.old) × (top < 65536) × (place < 65536) }
    ensures { (n : ℕ) → KeptIs n work.old place top result work.new }
{
    if place == 0 {
        return top;
    }
    let k = top as usize;
    work[k] = (place % 65536) as u16;
    top + 1
}

// A place is come to with the heights of a cell: it has none yet, and is at hand; or it has these.
fn put(text: Text, seen: &mut [u32], work: &mut [u16], way: Way, place: u32, cell: u32) -> Way
    requires { WalkFit text seen.old work.old way × (place ≢ 0) × (cell ≢ blank_of text.within) }
    ensures { CameTo text seen.old work.old way place cell result seen.new work.new }
{
    if place < text.low {
        return spoilt(way);
    }
    if text.length <= place {
        return spoilt(way);
    }
    let k = place as usize;
    let old = seen[k];
    if old == blank(text.within) {
        seen[k] = cell;
        let top = kept(work, way.place, way.top);
        return Way {
            far: way.far.max(place),
            place,
            cell,
            top,
            ..way
        };
    }
    if old == cell { way } else { spoilt(way) }
}

// The same, where 0 is no place.
fn put_if(text: Text, seen: &mut [u32], work: &mut [u16], way: Way, place: u32, cell: u32) -> Way
    requires { WalkFit text seen.old work.old way × (cell ≢ blank_of text.within) }
    ensures { CameIf text seen.old work.old way place cell result seen.new work.new }
{
    if place == 0 {
        return way;
    }
    put(text, seen, work, way, place, cell)
}

// Where no place is at hand, the last that waits is.
fn settled(text: Text, seen: &[u32], work: &[u16], way: Way) -> Way
    requires { WalkFit text seen.now work.now way }
    ensures { Settled text seen.now work.now way result }
{
    if way.place != 0 {
        return way;
    }
    if way.top == 0 {
        return way;
    }
    let top = way.top - 1;
    let place = u32::from(item_at(work, top, 0));
    Way {
        place,
        cell: item_at(seen, place, 0),
        top,
        ..way
    }
}

// The place at hand was visited: it is taken off, and its successors are come to. One of them is gone on with, and only the other waits.
fn onward(text: Text, seen: &mut [u32], work: &mut [u16], way: Way, visit: Visit) -> Way
    requires { WalkFit text seen.old work.old way × (way.place ≢ 0) × (visit.cell ≢ 0 → visit.cell ≢ blank_of text.within) }
    ensures { WentOn text seen.old work.old way visit result seen.new work.new }
{
    let off = Way {
        place: 0,
        cell: 0,
        ..way
    };
    if visit.cell == 0 {
        return spoilt(off);
    }
    let next = put_if(text, &mut *seen, &mut *work, off, visit.next, visit.cell);
    if next.fine == 0 {
        return next;
    }
    let both = put_if(text, &mut *seen, &mut *work, next, visit.aim, visit.cell);
    if both.fine == 0 {
        return both;
    }
    settled(text, &*seen, &*work, both)
}

fn set_out(start: u32) -> Way
    ensures { result ≡ out_way start }
{
    Way {
        fine: 1,
        far: start,
        place: 0,
        cell: 0,
        top: 0,
    }
}

// A walk to its end. Each place waits at most once, so that there are turns enough.
fn walk_on(
    codes: &[u32; 256],
    rom: &[u8],
    text: Text,
    kinds: &[u8; PROGRAMS_MOST],
    sums: &[u64],
    seen: &mut [u32],
    work: &mut [u16],
    first: Way,
) -> Option<Walk>
    requires { Codes codes.now × WalkFit text seen.old work.old first × (first.fine ≢ 0 → first.place ≡ 0 → first.top ≡ 0) }
    ensures { EndsWith (walk_steps rom.now text kinds.now sums.now rom_most (path_of seen.old work.old first no_tally)) result seen.new }
{
    let mut way = first;
    let mut tally = no_tally();
    let mut left = ROM_MOST;
    // a while: the walk ends where nothing waits or it is spoilt, and so many turns only bound it
    while way.fine != 0 {
        if way.place == 0 {
            return Some(Walk {
                far: way.far,
                tally,
            });
        }
        if left == 0 {
            return None;
        }
        let met = visit_at(codes, rom, text, kinds, sums, way.place, way.cell, tally);
        tally = met.tally;
        way = onward(text, &mut *seen, &mut *work, way, met.visit);
        left -= 1;
    }
    None
}

// A walk from a place on.
pub fn walk_from(
    codes: &[u32; 256],
    rom: &[u8],
    text: Text,
    kinds: &[u8; PROGRAMS_MOST],
    sums: &[u64],
    seen: &mut [u32],
    work: &mut [u16],
    start: u32,
    cell: u32,
) -> Option<Walk>
    requires { Codes codes.now × SetOut text seen.old work.old start cell }
    ensures { WalkIs rom.now text kinds.now sums.now seen.old start cell result seen.new }
{
    let put_first = put(text, &mut *seen, &mut *work, set_out(start), start, cell);
    let first = settled(text, &*seen, &*work, put_first);
    walk_on(codes, rom, text, kinds, sums, seen, work, first)
}
