// Tokens that end the program, widen offsets, leave a body, or give a string of the ROM.
ghost use Rattle.std.specs.Prelude.{◌≡◌, ◌+◌, ◌≤◌};
ghost use Rattle.tokens.specs.Family.{finish, text, widen, leave as family_leave};
ghost use Rattle.tokens.specs.declared.decoding.Operand.TheVariants.{Text};
ghost use Rattle.state.specs.Joints.Apart.{on_stack, on_calls, Moves, Looks};
ghost use Rattle.state.specs.Joints.Moves.{stepped};
ghost use Rattle.state.specs.Answer.{Going};
ghost use Rattle.acts.specs.Joints.Acts.{Quiet, QuietOf, as_they_are, pair_on};
ghost use Rattle.rom.specs.Sizes.{data_most, rom_most};

use memory::ROM_BASE;
use rom::Refusal;
use rom::sizes::{DATA_MOST, FRAMES_MOST};
use state::{Core, Handed, Told, go, leave, push, stop};

// end0, end1
pub fn end_program(core: Core, next: u32) -> Handed
    requires { core.height ≤ data_most }
    ensures { Looks as_they_are core result (λ s t. Quiet finish s next t) }
{
    // a copy that is written: by `..core` in the tokens' functions a loop of calls took 2.2 times the instructions
    let mut k = core;
    k.place = next;
    k.finished = true;
    Handed {
        told: Told::Over,
        core: k,
    }
}

// offset16
pub fn widen_offsets(core: Core, next: u32) -> Handed
    requires { core.height ≤ data_most }
    ensures { Looks as_they_are core result (λ s t. Quiet widen s next t) }
{
    let mut k = core;
    k.place = next;
    k.wide = true;
    go(k)
}

// exit, b(;)
pub fn leave_body(
    places: &[u32; FRAMES_MOST],
    wides: &[bool; FRAMES_MOST],
    bases: &[usize; FRAMES_MOST],
    core: Core,
    next: u32,
) -> Handed
    requires { (core.height ≤ data_most) × (1 ≤ core.frames) }
    ensures { Looks (on_calls places.now wides.now bases.now) core result
        (λ s t. Quiet family_leave s next t) }
{
    leave(places, wides, bases, core)
}

// Two cells more, which have room, and the next token.
pub fn pair(cells: &mut [u32; DATA_MOST], core: Core, next: u32, first: u32, second: u32) -> Handed
    requires { core.height + 2 ≤ data_most }
    ensures { Moves (on_stack cells.old) core result (on_stack cells.new)
        (λ s t. t ≡ stepped Going (pair_on s next first second)) }
{
    let mut k = core;
    k.place = next;
    let one = push(&mut *cells, k, first);
    push(cells, one.core, second)
}

// b("): the string, which starts at a place, stays in the ROM.
pub fn quote(cells: &mut [u32; DATA_MOST], core: Core, start: u32, count: u32, next: u32) -> Handed
    requires { (start ≤ rom_most + 2) × (core.height ≤ data_most) }
    ensures { Moves (on_stack cells.old) core result (on_stack cells.new)
        (λ s t. QuietOf text (Text start count) s next t) }
{
    if DATA_MOST < core.height + 2 {
        return stop(core, Refusal::TooHigh);
    }
    pair(cells, core, next, ROM_BASE + start, count)
}
