// The tables of the screen. Outside a table there is 0, and nothing is written there, so that no caller owes a proof that it stays inside.
ghost use Rattle.std.specs.Prelude.{◌≡◌, ◌≤◌, get_or, set};
ghost use Rattle.tokens.specs.Table.{last_program};
ghost use Rattle.screen.specs.Laws.Found.Model.{slot as model_slot};

use tokens::programs::{FIRST_PROGRAM, PROGRAMS_MOST};

// What a table has at a place, and what is there where it has none.
pub fn item_at<T: Copy>(items: &[T], at: u32, none: T) -> T
    ensures { result ≡ get_or items.now at none }
{
    let k = at as usize;
    if k < items.len() { items[k] } else { none }
}

// A program number's place in the tables of numbers.
fn slot(number: u32) -> u32
    ensures { result ≡ model_slot number }
{
    number.saturating_sub(FIRST_PROGRAM)
}

pub fn sum_code(sums: &[u64], number: u32) -> u64
    ensures { result ≡ get_or sums.now (model_slot number) 0 }
{
    item_at(sums, slot(number), 0)
}

pub fn set_sum(sums: &mut [u64], number: u32, code: u64)
    ensures { sums.new ≡ set sums.old (model_slot number) code }
{
    let k = slot(number) as usize;
    if k < sums.len() {
        sums[k] = code;
    }
}

pub fn set_kind(kinds: &mut [u8; PROGRAMS_MOST], number: u32, kind: u8)
    requires { number ≤ last_program }
    ensures { kinds.new ≡ set kinds.old (model_slot number) kind }
{
    let k = slot(number) as usize;
    kinds[k] = kind;
}
