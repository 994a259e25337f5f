// Program numbers defined. Each function is lent the four arrays of the numbers and the two tables by number, which have to say the same.
ghost use Rattle.std.specs.Prelude.{◌≡◌, ◌+◌, ◌≤◌, true};
ghost use Rattle.tokens.specs.Family.{define};
ghost use Rattle.tokens.specs.Decode.{is_kind};
ghost use Rattle.tokens.specs.Table.{is_program};
ghost use Rattle.tokens.specs.declared.decoding.Operand.TheVariants.{Definition};
ghost use Rattle.state.specs.Refusals.{rounded as refusals_rounded};
ghost use Rattle.state.specs.Numbers.{numbers_on};
ghost use Rattle.acts.specs.Joints.Acts.{QuietOf, Defines, Colons, Variables, Fresh, TakesValue};
ghost use Rattle.acts.specs.Joints.Acts.{Tables, Definable, ByNumber, Adds, AddsFrom};
ghost use Rattle.rom.specs.Sizes.{data_most, numbers_most, work_size};

use crate::tables::{held_at, note};
use memory::{WORK_BASE, write_cell};
use rom::Refusal;
use rom::sizes::{DATA_MOST, NUMBERS_MOST, WORK_SIZE};
use state::{Core, Handed, go, pop, stop};
use tokens::programs::PROGRAMS_MOST;
use tokens::{Stop, read_body};

// One number more, defined in the width in force.
fn defined(
    names: &mut [u32; NUMBERS_MOST],
    kinds: &mut [u8; NUMBERS_MOST],
    values: &mut [u32; NUMBERS_MOST],
    ways: &mut [bool; NUMBERS_MOST],
    slots: &mut [u16; PROGRAMS_MOST],
    known: &mut [u8; PROGRAMS_MOST],
    core: Core,
    number: u32,
    kind: u8,
    value: u32,
) -> Core
    requires { Fresh (numbers_on names.old kinds.old values.old ways.old core.held) number
        × Definable slots.old known.old (numbers_on names.old kinds.old values.old ways.old core.held) }
    ensures { ByNumber (numbers_on names.old kinds.old values.old ways.old core.held)
        core number kind value result
        (numbers_on names.new kinds.new values.new ways.new result.held)
        × Tables slots.new known.new names.new kinds.new result.held }
{
    let at = core.held;
    names[at] = number;
    kinds[at] = kind;
    values[at] = value;
    ways[at] = core.wide;
    note(slots, known, number, kind, at);
    Core {
        held: at + 1,
        ..core
    }
}

// b(:), whose number is new: the body is read to its end.
fn colon(
    rom: &[u8],
    names: &mut [u32; NUMBERS_MOST],
    kinds: &mut [u8; NUMBERS_MOST],
    values: &mut [u32; NUMBERS_MOST],
    ways: &mut [bool; NUMBERS_MOST],
    slots: &mut [u16; PROGRAMS_MOST],
    known: &mut [u8; PROGRAMS_MOST],
    core: Core,
    number: u32,
    next: u32,
) -> Handed
    requires { (core.height ≤ data_most) × Fresh (numbers_on names.old kinds.old values.old ways.old core.held) number
        × Definable slots.old known.old (numbers_on names.old kinds.old values.old ways.old core.held)
        × (next ≤ core.length) }
    ensures { Adds (numbers_on names.old kinds.old values.old ways.old
        core.held) core result
        (numbers_on names.new kinds.new values.new ways.new result.core.held) slots.new
        known.new
        (λ s t. Colons number rom.now s next t) }
{
    match read_body(rom, core.length, core.wide, &*known, next) {
        Ok(at) => {
            let behind = at + 1;
            let k = defined(
                names, kinds, values, ways, slots, known, core, number, 0xB7, next,
            );
            go(Core { place: behind, ..k })
        }
        Err(Stop { why, .. }) => stop(core, why),
    }
}

// b(value), b(constant)
fn constant(
    cells: &[u32; DATA_MOST],
    names: &mut [u32; NUMBERS_MOST],
    kinds: &mut [u8; NUMBERS_MOST],
    values: &mut [u32; NUMBERS_MOST],
    ways: &mut [bool; NUMBERS_MOST],
    slots: &mut [u16; PROGRAMS_MOST],
    known: &mut [u8; PROGRAMS_MOST],
    core: Core,
    number: u32,
    kind: u8,
    next: u32,
) -> Handed
    requires { (core.height ≤ data_most) × Fresh (numbers_on names.old kinds.old values.old ways.old core.held) number
        × Definable slots.old known.old (numbers_on names.old kinds.old values.old ways.old core.held) × TakesValue kind }
    ensures { AddsFrom cells.now (numbers_on names.old kinds.old values.old
        ways.old core.held) core result
        (numbers_on names.new kinds.new values.new ways.new result.core.held) slots.new
        known.new
        (λ s t. QuietOf define (Definition number kind) s next t) }
{
    if core.height < 1 {
        return stop(core, Refusal::TooLow);
    }
    let p = pop(cells, core);
    let k = Core {
        place: next,
        ..p.core
    };
    go(defined(
        names, kinds, values, ways, slots, known, k, number, kind, p.cell,
    ))
}

// The work place rounded up to a multiple of 4.
fn rounded(at: u32) -> u32
    requires { at ≤ work_size }
    ensures { (result ≡ refusals_rounded at) × (result ≤ work_size) }
{
    (at + 3) / 4 * 4
}

// b(variable): four zero bytes of work memory.
fn variable(
    work: &mut [u8],
    names: &mut [u32; NUMBERS_MOST],
    kinds: &mut [u8; NUMBERS_MOST],
    values: &mut [u32; NUMBERS_MOST],
    ways: &mut [bool; NUMBERS_MOST],
    slots: &mut [u16; PROGRAMS_MOST],
    known: &mut [u8; PROGRAMS_MOST],
    core: Core,
    number: u32,
    next: u32,
) -> Handed
    requires { (core.height ≤ data_most) × Fresh (numbers_on names.old kinds.old values.old ways.old core.held) number
        × Definable slots.old known.old (numbers_on names.old kinds.old values.old ways.old core.held)
        × (core.work_place ≤ work_size) }
    ensures { Adds (numbers_on names.old kinds.old values.old ways.old
        core.held) core result
        (numbers_on names.new kinds.new values.new ways.new result.core.held) slots.new
        known.new
        (λ s t. Variables number work.old work.new s next t) }
{
    let at = rounded(core.work_place);
    if WORK_SIZE < (at as usize) + 4 {
        return stop(core, Refusal::WorkExhausted);
    }
    write_cell(work, at, 0);
    let k = defined(
        names,
        kinds,
        values,
        ways,
        slots,
        known,
        core,
        number,
        0xB9,
        WORK_BASE + at,
    );
    go(Core {
        place: next,
        work_place: at + 4,
        ..k
    })
}

// A definition, by its kind.
fn define_new(
    rom: &[u8],
    work: &mut [u8],
    cells: &[u32; DATA_MOST],
    names: &mut [u32; NUMBERS_MOST],
    kinds: &mut [u8; NUMBERS_MOST],
    values: &mut [u32; NUMBERS_MOST],
    ways: &mut [bool; NUMBERS_MOST],
    slots: &mut [u16; PROGRAMS_MOST],
    known: &mut [u8; PROGRAMS_MOST],
    core: Core,
    number: u32,
    kind: u32,
    next: u32,
) -> Handed
    requires { (core.height ≤ data_most) × Fresh (numbers_on names.old kinds.old values.old ways.old core.held) number
        × Definable slots.old known.old (numbers_on names.old kinds.old values.old ways.old core.held)
        × (core.work_place ≤ work_size) × (next ≤ core.length) × (is_kind kind ≡ true) }
    ensures { AddsFrom cells.now (numbers_on names.old kinds.old values.old
        ways.old core.held) core result
        (numbers_on names.new kinds.new values.new ways.new result.core.held) slots.new
        known.new
        (λ s t. Defines (Definition number kind) rom.now work.old work.new s next t) }
{
    match kind {
        0xB7 => colon(
            rom, names, kinds, values, ways, slots, known, core, number, next,
        ),
        0xB8 => constant(
            cells, names, kinds, values, ways, slots, known, core, number, 0xB8, next,
        ),
        0xB9 => variable(
            work, names, kinds, values, ways, slots, known, core, number, next,
        ),
        _ => constant(
            cells, names, kinds, values, ways, slots, known, core, number, 0xBA, next,
        ),
    }
}

// new-token, external-token, named-token
pub fn define_number(
    rom: &[u8],
    work: &mut [u8],
    cells: &[u32; DATA_MOST],
    names: &mut [u32; NUMBERS_MOST],
    kinds: &mut [u8; NUMBERS_MOST],
    values: &mut [u32; NUMBERS_MOST],
    ways: &mut [bool; NUMBERS_MOST],
    slots: &mut [u16; PROGRAMS_MOST],
    known: &mut [u8; PROGRAMS_MOST],
    core: Core,
    number: u32,
    kind: u32,
    next: u32,
) -> Handed
    requires { (core.height ≤ data_most) × (core.held ≤ numbers_most)
        × Definable slots.old known.old (numbers_on names.old kinds.old values.old ways.old core.held)
        × (core.work_place ≤ work_size) × (next ≤ core.length) × (is_kind kind ≡ true) × (is_program number ≡ true) }
    ensures { AddsFrom cells.now (numbers_on names.old kinds.old values.old
        ways.old core.held) core result
        (numbers_on names.new kinds.new values.new ways.new result.core.held) slots.new
        known.new
        (λ s t. Defines (Definition number kind) rom.now work.old work.new s next t) }
{
    if held_at(&*slots, number).is_some() {
        return stop(core, Refusal::DefinedAlready);
    }
    if NUMBERS_MOST <= core.held {
        return stop(core, Refusal::DefinedAlready);
    }
    define_new(
        rom, work, cells, names, kinds, values, ways, slots, known, core, number, kind, next,
    )
}
