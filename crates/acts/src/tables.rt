// Two tables by program number, from 800 to FFF, which are filled once a run and kept by every definition: where a number stands among
// those that are held, and its kind as reading a body goes by it. So a call, b(to) and a number of a body are one look each.
ghost use Rattle.std.specs.Prelude.{◌≡◌, ◌+◌, ◌-◌, ◌<◌, ◌≤◌, true, false, replicate, MatchOption};
ghost use Rattle.state.specs.Numbers.{kind_of_byte};
ghost use Rattle.acts.specs.Joints.Acts.{Tables, slot_in};
ghost use Rattle.state.specs.Laws.Seeking.{put_kind};
ghost use Rattle.rom.specs.Sizes.{numbers_most};
ghost use Rattle.tokens.specs.Table.{is_program, programs_most};

use rom::sizes::NUMBERS_MOST;
use tokens::is_program;
use tokens::programs::PROGRAMS_MOST;

// A kind as reading a body goes by it.
fn known_kind(kind: u8) -> u8
    ensures { result ≡ kind_of_byte kind }
{
    match kind {
        0xB7 => 0xB7,
        0xB8 => 0xB8,
        _ => 0xBA,
    }
}

// The row of a program number in both tables.
fn row_of(number: u32) -> Option<usize>
    ensures { MatchOption result (is_program number ≡ false)
        (λ row. (is_program number ≡ true) × (row ≡ number - 0x800) × (row < programs_most)) }
{
    if is_program(number) {
        Some((number - 0x800) as usize)
    } else {
        None
    }
}

// A number that stands at a place among those that are held, put down in both tables, if it is a program's: the place as one more than
// it, so that a table of zeros holds none.
pub fn note(
    slots: &mut [u16; PROGRAMS_MOST],
    known: &mut [u8; PROGRAMS_MOST],
    number: u32,
    kind: u8,
    at: usize,
)
    requires { at < numbers_most }
    ensures { (slots.new ≡ put_kind slots.old number (at + 1))
        × (known.new ≡ put_kind known.old number (kind_of_byte kind)) }
{
    if let Some(row) = row_of(number) {
        slots[row] = (at + 1) as u16;
        known[row] = known_kind(kind);
    }
}

// Both tables, which are all zero, filled. The youngest is put down first, so that of a number that is held twice the oldest counts.
pub fn fill_tables(
    slots: &mut [u16; PROGRAMS_MOST],
    known: &mut [u8; PROGRAMS_MOST],
    names: &[u32; NUMBERS_MOST],
    kinds: &[u8; NUMBERS_MOST],
    held: usize,
)
    requires { (held ≤ numbers_most) × (slots.old ≡ replicate programs_most 0) × (known.old ≡ replicate programs_most 0) }
    ensures { Tables slots.new known.new names.now kinds.now held }
{
    for i in (0..held).rev() {
        note(&mut *slots, &mut *known, names[i], kinds[i], i);
    }
}

// Where a number stands among those that are held.
pub fn held_at(slots: &[u16; PROGRAMS_MOST], number: u32) -> Option<usize>
    ensures { MatchOption result (slot_in slots.now number ≡ 0) (λ at. slot_in slots.now number ≡ at + 1) }
{
    let row = row_of(number)?;
    let slot = usize::from(slots[row]);
    slot.checked_sub(1)
}
