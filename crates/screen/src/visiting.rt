// A token that a walk meets: whether its rules are met there, the heights behind it, and where it leads.
ghost use Rattle.std.specs.Prelude.{◌≡◌, ◌<◌, ◌≤◌};
ghost use Rattle.tokens.specs.Joints.Quick.{Codes};
ghost use Rattle.screen.specs.Effect.{called as effect_called};
ghost use Rattle.screen.specs.Laws.Found.Model.{bad_visit, cap_of, own_of, sum_at, visit_of};
ghost use Rattle.cells.specs.Choice.{pick};
ghost use Rattle.screen.specs.Laws.Code.Visit.{visit_in, tally_in, visit_by, plain_effect, raised_by, VisitBy, SeenBy};
ghost use Rattle.screen.specs.Laws.Found.Cell.{body_most};

use crate::cell::{back_in, cell_of, height_in};
use crate::effect::{sum_at, takes_seen};
use crate::limits::{BODY_MOST, DATA_MOST, FRAMES_MOST, RETURN_MOST};
use crate::tally::{Tally, raised, told};
use crate::walking::Text;
use tokens::programs::PROGRAMS_MOST;
use tokens::{
    Glance, family, family_of, gives_of, glance_from, kind_of, out_of_place, quick_at,
    return_gives_of, return_takes_of, takes_of,
};

// What a visit to a token tells: the cell behind it, 0 where its rules are not met, and its successors, 0 for none.
// No Option of a visit: that costs 46 of 1,000 instructions of a screen.
#[derive(Clone, Copy)]
pub struct Visit {
    pub cell: u32,
    pub next: u32,
    pub aim: u32,
}

// A visit, and what a body comes to with its token.
#[derive(Clone, Copy)]
pub struct Seen {
    pub visit: Visit,
    pub tally: Tally,
}

fn bad_visit() -> Visit
    ensures { visit_in result ≡ bad_visit }
{
    Visit {
        cell: 0,
        next: 0,
        aim: 0,
    }
}

// How high a text may rise.
fn cap(within: bool) -> u32
    ensures { (result ≡ cap_of within) × (result ≤ body_most) }
{
    if within { BODY_MOST } else { DATA_MOST }
}

// A body has a frame of its own.
fn own(within: bool) -> u32
    ensures { (result ≡ own_of within) × (result ≤ 1) }
{
    if within { 1 } else { 0 }
}

// A token that is no call: what it takes and gives stands in its code, but for what a definition takes.
fn plain(within: bool, takes: u32, code: u32, cell: u32, next: u32, aim: u32) -> Visit
    requires { takes < 256 }
    ensures { visit_in result ≡ visit_by within (plain_effect takes code) cell next aim }
{
    let height = height_in(cell);
    let most = cap(within);
    if height < takes {
        return bad_visit();
    }
    if most < height {
        return bad_visit();
    }
    let up = height - takes + gives_of(code);
    if most < up {
        return bad_visit();
    }
    let back = back_in(cell);
    let taken = return_takes_of(code);
    if back < taken {
        return bad_visit();
    }
    if RETURN_MOST < back {
        return bad_visit();
    }
    let rest = back - taken + return_gives_of(code);
    if RETURN_MOST < rest {
        return bad_visit();
    }
    Visit {
        cell: cell_of(up, rest),
        next,
        aim,
    }
}

// A call, which does what its number does.
fn called(within: bool, sums: &[u64], number: u32, cell: u32, next: u32) -> Visit
    ensures { visit_in result ≡ visit_by within (effect_called (sum_at sums.now number)) cell next 0 }
{
    let sum = sum_at(sums, number);
    let height = height_in(cell);
    let most = cap(within);
    if height < sum.need {
        return bad_visit();
    }
    let kept = height - sum.need;
    let up = kept + sum.out;
    if most < up {
        return bad_visit();
    }
    if most < kept + sum.peak {
        return bad_visit();
    }
    let back = back_in(cell);
    if RETURN_MOST < back {
        return bad_visit();
    }
    if RETURN_MOST < back + sum.return_peak {
        return bad_visit();
    }
    if FRAMES_MOST < own(within) + sum.frames {
        return bad_visit();
    }
    Visit {
        cell: cell_of(up, back),
        next,
        aim: 0,
    }
}

// A token by a glance at it: each family with the tests that are its own. A walk does not go on behind what ends a round, a text, or a
// way that a branch takes always.
fn visit_seen(
    text: Text,
    kinds: &[u8; PROGRAMS_MOST],
    sums: &[u64],
    glance: Glance,
    cell: u32,
) -> Visit
    ensures { VisitBy text kinds.now sums.now glance cell (visit_in result) }
{
    let code = glance.code;
    let within = text.within;
    if out_of_place(code, within) {
        return bad_visit();
    }
    let takes = takes_seen(code, glance.kind);
    let next = glance.next;
    let work = family_of(code);
    match work {
        family::UNLISTED => bad_visit(),
        family::PICK_UP => bad_visit(),
        family::ROLL_UP => bad_visit(),
        family::MAYBE => bad_visit(),
        family::CALL => {
            if kind_of(kinds, glance.number) == 0 {
                return bad_visit();
            }
            called(within, sums, glance.number, cell, next)
        }
        family::ASSIGN => {
            if kind_of(kinds, glance.number) != 0xB8 {
                return bad_visit();
            }
            plain(within, takes, code, cell, next, 0)
        }
        family::ALWAYS => {
            if glance.aim == 0 {
                return bad_visit();
            }
            plain(within, takes, code, cell, 0, glance.aim)
        }
        family::CHOICE => {
            if glance.aim == 0 {
                return bad_visit();
            }
            plain(within, takes, code, cell, next, glance.aim)
        }
        family::FINISH => {
            if text.children != 0 {
                return bad_visit();
            }
            plain(within, takes, code, cell, 0, 0)
        }
        family::LEAVE => {
            if back_in(cell) != 0 {
                return bad_visit();
            }
            plain(within, takes, code, cell, 0, 0)
        }
        family::DEFINE => plain(within, takes, code, cell, 0, 0),
        family::WIDEN => plain(within, takes, code, cell, 0, 0),
        family::NEW_DEVICE => plain(within, takes, code, cell, 0, 0),
        family::FINISH_DEVICE => plain(within, takes, code, cell, 0, 0),
        _ => plain(within, takes, code, cell, next, 0),
    }
}

fn raised_in(within: bool, tally: Tally, takes: u32, cell: u32) -> Tally
    requires { takes < 256 }
    ensures { tally_in result ≡ pick within (raised_by (tally_in tally) takes cell) (tally_in tally) }
{
    if within {
        raised(tally, takes, cell)
    } else {
        tally
    }
}

// The token at a place, met with the heights of a cell. Most tokens are read quickly; the others by a glance, which goes on from there.
pub fn visit_at(
    codes: &[u32; 256],
    rom: &[u8],
    text: Text,
    kinds: &[u8; PROGRAMS_MOST],
    sums: &[u64],
    place: u32,
    cell: u32,
    tally: Tally,
) -> Seen
    requires { Codes codes.now × (place < text.length) }
    ensures { SeenBy rom.now text kinds.now sums.now place cell (tally_in tally) (visit_in
        result.visit) (tally_in result.tally) }
{
    let quick = quick_at(codes, rom, text.length, place);
    if quick.next != 0 {
        let takes = takes_of(quick.code);
        return Seen {
            visit: plain(text.within, takes, quick.code, cell, quick.next, 0),
            tally: raised_in(text.within, tally, takes, cell),
        };
    }
    let glance = glance_from(rom, text.length, text.wide, place, quick.first, quick.code);
    Seen {
        visit: visit_seen(text, kinds, sums, glance, cell),
        tally: told(text.within, sums, glance, tally, cell),
    }
}
