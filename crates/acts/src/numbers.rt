// Program numbers: entered, and given another value.
ghost use Rattle.std.specs.Prelude.{◌≡◌, ◌≤◌};
ghost use Rattle.acts.specs.Joints.Acts.{Assigns, Enters, Slotted};
ghost use Rattle.rom.specs.Sizes.{data_most, numbers_most};

use crate::tables::held_at;
use rom::Refusal;
use rom::sizes::{DATA_MOST, FRAMES_MOST, NUMBERS_MOST};
use state::{Core, Handed, call, entry, go, kind_byte, pop, push, stop, wide_at};
use tokens::programs::PROGRAMS_MOST;

// b(to) and a number. It is lent the stack, and all of a program number but the width.
pub fn assign_value(
    cells: &[u32; DATA_MOST],
    names: &[u32; NUMBERS_MOST],
    kinds: &[u8; NUMBERS_MOST],
    values: &mut [u32; NUMBERS_MOST],
    slots: &[u16; PROGRAMS_MOST],
    core: Core,
    number: u32,
    next: u32,
) -> Handed
    requires { (core.height ≤ data_most) × (core.held ≤ numbers_most) × Slotted slots.now names.now core.held }
    ensures { Assigns number cells.now names.now kinds.now values.old core next result
        values.new }
{
    let Some(at) = held_at(slots, number) else {
        return stop(core, Refusal::Undefined);
    };
    if kind_byte(kinds, at) != 0xB8 {
        return stop(core, Refusal::Undefined);
    }
    if core.height < 1 {
        return stop(core, Refusal::TooLow);
    }
    let p = pop(cells, core);
    values[at] = p.cell;
    let mut k = p.core;
    k.place = next;
    go(k)
}

// A program number: a body is entered, any other gives its value. It is lent the arrays of the stack, of the calls and of the numbers.
pub fn enter(
    cells: &mut [u32; DATA_MOST],
    places: &mut [u32; FRAMES_MOST],
    wides: &mut [bool; FRAMES_MOST],
    bases: &mut [usize; FRAMES_MOST],
    names: &[u32; NUMBERS_MOST],
    kinds: &[u8; NUMBERS_MOST],
    values: &[u32; NUMBERS_MOST],
    ways: &[bool; NUMBERS_MOST],
    slots: &[u16; PROGRAMS_MOST],
    core: Core,
    number: u32,
    next: u32,
) -> Handed
    requires { (core.height ≤ data_most) × (core.held ≤ numbers_most) × Slotted slots.now names.now core.held }
    ensures { Enters number cells.old places.old wides.old bases.old
        names.now kinds.now values.now ways.now core next result
        cells.new places.new wides.new bases.new }
{
    let Some(at) = held_at(slots, number) else {
        return stop(core, Refusal::Undefined);
    };
    let value = entry(values, at);
    if kind_byte(kinds, at) == 0xB7 {
        let wide = wide_at(ways, at);
        return call(places, wides, bases, core, value, wide, next);
    }
    if DATA_MOST < core.height + 1 {
        return stop(core, Refusal::TooHigh);
    }
    // a copy that is written: by `..core` in the tokens' functions a loop of calls took 2.2 times the instructions
    let mut k = core;
    k.place = next;
    push(cells, k, value)
}
