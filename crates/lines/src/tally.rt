// How many pieces a program has, and how many of them are no token of the list.
ghost use Rattle.std.specs.Prelude.{◌≡◌, ◌+◌, ◌<◌};
ghost use Rattle.lines.specs.Tally.{raw_more, token_more, tally_of};

use rom::sizes::FIRST_PLACE;
use rom::{Spread, wide_start};
use tokens::reader::{Piece, piece_in, program_end};

// So many pieces, so many of them raw, and the first of those from a place up to another.
#[derive(Clone, Copy)]
pub struct Tally {
    pub pieces: u32,
    pub raws: u32,
    pub place: u32,
    pub next: u32,
}

// A raw piece more: it is the first where there was none.
fn raw_more(so: Tally, place: u32, next: u32) -> Tally
    requires { (so.pieces + 1 < 4294967296) × (so.raws + 1 < 4294967296) }
    ensures { result ≡ raw_more so place next }
{
    if so.raws == 0 {
        return Tally {
            pieces: so.pieces + 1,
            raws: so.raws + 1,
            place,
            next,
        };
    }
    Tally {
        pieces: so.pieces + 1,
        raws: so.raws + 1,
        ..so
    }
}

fn token_more(so: Tally) -> Tally
    requires { so.pieces + 1 < 4294967296 }
    ensures { result ≡ token_more so }
{
    Tally {
        pieces: so.pieces + 1,
        ..so
    }
}

// From piece to piece of FCode bytes.
pub fn tally_of(fcode: &[u8]) -> Tally
    ensures { result ≡ tally_of fcode.now }
{
    let length = program_end(fcode, Spread::One);
    let mut wide = wide_start(fcode);
    let mut place = FIRST_PLACE as u32;
    let mut so = Tally {
        pieces: 0,
        raws: 0,
        place: 0,
        next: 0,
    };
    // a while: the next place is where the piece ends, no count
    while place < length {
        match piece_in(fcode, Spread::One, wide, place) {
            Piece::End => {
                return so;
            }
            Piece::Raw(next) => {
                so = raw_more(so, place, next);
                place = next;
            }
            Piece::Listed {
                token,
                start: _,
                wide: behind,
            } => {
                so = token_more(so);
                place = token.next;
                wide = behind;
            }
        }
    }
    so
}
