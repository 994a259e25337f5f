// What a program number does, and what a token takes.
ghost use Rattle.std.specs.Prelude.{◌≡◌, ◌%◌, ◌<◌};
ghost use Rattle.screen.specs.Effect.{is_a};
ghost use Rattle.screen.specs.Laws.Found.Sums.{packed_sum};
ghost use Rattle.screen.specs.Laws.Found.Model.{sum_at};
ghost use Rattle.screen.specs.Laws.Code.Visit.{takes_seen, fixes_by};

use crate::tables::sum_code;
use tokens::{Token, code_of, family, family_of, takes_of};

// What a program number does where it is entered at its need: the need, the data height that it leaves, the highest data height and count
// of return cells, nested calls included, and the frames that it opens, its own included.
#[derive(Clone, Copy)]
pub struct Sum {
    pub need: u32,
    pub out: u32,
    pub peak: u32,
    pub return_peak: u32,
    pub frames: u32,
}

// What a token takes and gives, how high it rises over the cells that it leaves alone, and the frames that it opens. The definitions go by
// this; the code has each part from where it stands, in a code or a sum.
#[derive(Clone, Copy)]
pub struct Effect {
    pub takes: u32,
    pub gives: u32,
    pub rise: u32,
    pub return_takes: u32,
    pub return_gives: u32,
    pub return_rise: u32,
    pub frames: u32,
}

// The lowest pair of hexadecimal digits of a code.
fn pair(code: u64) -> u32
    ensures { result ≡ code % 256 }
{
    (code % 256) as u32
}

// The sum of a program number, as the table has it.
pub fn sum_at(sums: &[u64], number: u32) -> Sum
    ensures { result ≡ sum_at sums.now number }
{
    let code = sum_code(sums, number);
    Sum {
        need: pair(code / 0x1_0000_0000),
        out: pair(code / 0x100_0000),
        peak: pair(code / 0x1_0000),
        return_peak: pair(code / 0x100),
        frames: pair(code),
    }
}

// A sum for the table.
pub fn pack(sum: Sum) -> u64
    requires { sum.need < 65536 }
    ensures { result ≡ packed_sum sum }
{
    let need = u64::from(sum.need);
    let out = u64::from(sum.out);
    let peak = u64::from(sum.peak);
    let back = u64::from(sum.return_peak);
    let frames = u64::from(sum.frames);
    need * 0x1_0000_0000 + out * 0x100_0000 + peak * 0x1_0000 + back * 0x100 + frames
}

pub fn is_a(work: u32, token: Token) -> bool
    ensures { result ≡ is_a work token }
{
    family_of(token.code) == work
}

// The data cells that a token takes, by its code and, of a definition, its kind.
pub fn takes_seen(code: u32, kind: u32) -> u32
    ensures { (result ≡ takes_seen code kind) × (result < 256) }
{
    let own = takes_of(code);
    if family_of(code) == family::DEFINE {
        own + takes_of(code_of(kind))
    } else {
        own
    }
}

// What must be met exactly once, by its code.
pub fn fixes(code: u32) -> bool
    ensures { result ≡ fixes_by code }
{
    matches!(
        family_of(code),
        family::DEFINE | family::WIDEN | family::NEW_DEVICE | family::FINISH_DEVICE
    )
}
