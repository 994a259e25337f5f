// What a body comes to, token by token as its walk meets them.
ghost use Rattle.std.specs.Prelude.{◌≡◌, not, ◌&&◌, ◌||◌, eqb, suc, ◌<◌};
ghost use Rattle.screen.specs.Laws.Found.Model.{no_tally};
ghost use Rattle.screen.specs.Laws.Code.Visit.{tally_in, raised_by, ended_by, called_by, ToldBy};

use crate::cell::{back_in, height_in};
use crate::effect::{sum_at, takes_seen};
use crate::limits::ENTERED;
use tokens::{Glance, family, family_of};

// Whether the ends of a body agree so far, its need, the highest data height and return height, the frames, and one more than the data
// height of its ends, 0 where none was met: all as they are where it is entered at 64.
// `fine` is 1 or 0, here and in a walk's way: as a bool, a byte that is copied with the padding behind it at every turn of a walk, it costs
// 28 of 1,000 instructions of a screen.
#[derive(Clone, Copy)]
pub struct Tally {
    pub fine: u32,
    pub need: u32,
    pub peak: u32,
    pub return_peak: u32,
    pub frames: u32,
    pub out: u32,
}

pub fn no_tally() -> Tally
    ensures { tally_in result ≡ no_tally }
{
    Tally {
        fine: 1,
        need: 0,
        peak: 0,
        return_peak: 0,
        frames: 0,
        out: 0,
    }
}

// A token that is no call and no end.
pub fn raised(tally: Tally, takes: u32, cell: u32) -> Tally
    requires { takes < 256 }
    ensures { tally_in result ≡ raised_by (tally_in tally) takes cell }
{
    let height = height_in(cell);
    Tally {
        need: tally.need.max((ENTERED + takes).saturating_sub(height)),
        peak: tally.peak.max(height),
        return_peak: tally.return_peak.max(back_in(cell)),
        frames: tally.frames.max(1),
        ..tally
    }
}

// An end agrees with those before: it is the first, or has the same height.
fn agrees(fine: u32, out: u32, height: u32) -> u32
    requires { height < 255 }
    ensures { not (eqb result 0) ≡ (not (eqb fine 0) && (eqb out 0 || eqb out (suc height))) }
{
    if out == 0 || out == height + 1 {
        fine
    } else {
        0
    }
}

fn ended(tally: Tally, takes: u32, cell: u32) -> Tally
    requires { takes < 256 }
    ensures { tally_in result ≡ ended_by (tally_in tally) takes cell }
{
    let height = height_in(cell);
    Tally {
        fine: agrees(tally.fine, tally.out, height),
        out: height + 1,
        ..raised(tally, takes, cell)
    }
}

fn called(tally: Tally, sums: &[u64], number: u32, cell: u32) -> Tally
    ensures { tally_in result ≡ called_by sums.now (tally_in tally) number cell }
{
    let height = height_in(cell);
    let sum = sum_at(sums, number);
    let nested = height.saturating_sub(sum.need) + sum.peak;
    Tally {
        need: tally.need.max((ENTERED + sum.need).saturating_sub(height)),
        peak: tally.peak.max(height.max(nested)),
        return_peak: tally.return_peak.max(back_in(cell) + sum.return_peak),
        frames: tally.frames.max(1 + sum.frames),
        ..tally
    }
}

// A token of a body, by a glance at it. Outside bodies nothing is told.
pub fn told(within: bool, sums: &[u64], glance: Glance, tally: Tally, cell: u32) -> Tally
    ensures { ToldBy sums.now within glance (tally_in tally) cell (tally_in result) }
{
    if !within {
        return tally;
    }
    let work = family_of(glance.code);
    match work {
        family::CALL => called(tally, sums, glance.number, cell),
        family::LEAVE => ended(tally, takes_seen(glance.code, glance.kind), cell),
        _ => raised(tally, takes_seen(glance.code, glance.kind), cell),
    }
}
