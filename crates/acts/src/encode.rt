// Arrays of bytes at the work place.
ghost use Rattle.std.specs.Prelude.{◌≡◌, ◌+◌, ◌≤◌, length};
ghost use Rattle.tokens.specs.Family.{encode_int, encode_string, join};
ghost use Rattle.memory.specs.Window.{bad_string, resolve_of};
ghost use Rattle.memory.specs.Writing.{written_of};
ghost use Rattle.state.specs.Joints.Apart.{on_stack, Moves};
ghost use Rattle.state.specs.Joints.Moves.{stepped};
ghost use Rattle.acts.specs.Joints.Acts.{Quiet, Writes, WritesFrom, encoded_on};
ghost use Rattle.rom.specs.Sizes.{data_most, work_size};
ghost use Rattle.state.specs.Answer.{Going};

use crate::flow::pair;
use memory::{WORK_BASE, Window, copy_in, copy_within, put, window_of, write_cell};
use rom::sizes::{DATA_MOST, WORK_SIZE};
use rom::{Refusal, is_spread};
use state::{Core, Handed, pop, stop};

// Bytes at the work place given by their address and length; the work place moves past them.
fn encoded(cells: &mut [u32; DATA_MOST], core: Core, next: u32, count: u32) -> Handed
    requires { (core.height + 2 ≤ data_most) × (core.work_place + count ≤ work_size) }
    ensures { Moves (on_stack cells.old) core result (on_stack cells.new)
        (λ s t. t ≡ stepped Going (encoded_on s next count)) }
{
    let at = core.work_place;
    let k = Core {
        work_place: at + count,
        ..core
    };
    pair(cells, k, next, WORK_BASE + at, count)
}

// encode+
pub fn join_arrays(cells: &mut [u32; DATA_MOST], core: Core, next: u32) -> Handed
    requires { core.height ≤ data_most }
    ensures { Moves (on_stack cells.old) core result (on_stack cells.new) (λ s t. Quiet join s next t) }
{
    if core.height < 4 {
        return stop(core, Refusal::TooLow);
    }
    let p = pop(&*cells, core);
    let q = pop(&*cells, p.core);
    let t = pop(&*cells, q.core);
    let u = pop(&*cells, t.core);
    if u.cell.wrapping_add(t.cell) != q.cell {
        return stop(core, Refusal::NotAdjoining);
    }
    pair(cells, u.core, next, u.cell, t.cell.wrapping_add(p.cell))
}

// encode-int
pub fn encode_int(work: &mut [u8], cells: &mut [u32; DATA_MOST], core: Core, next: u32) -> Handed
    requires { (core.height ≤ data_most) × (core.work_place ≤ work_size) }
    ensures { Moves (on_stack cells.old) core result (on_stack cells.new)
        (λ s t. Writes encode_int work.old work.new s next t) }
{
    if core.height < 1 {
        return stop(core, Refusal::TooLow);
    }
    if DATA_MOST < core.height + 1 {
        return stop(core, Refusal::TooHigh);
    }
    let at = core.work_place;
    if WORK_SIZE < (at as usize) + 4 {
        return stop(core, Refusal::WorkExhausted);
    }
    let p = pop(&*cells, core);
    write_cell(work, at, p.cell);
    encoded(cells, p.core, next, 4)
}

// Whether a string is no part of a program that the ROM holds or of work memory; one in a spread ROM is none.
pub fn bad_string(rom: &[u8], work: &[u8], size: u32, address: u32, count: u32) -> bool
    requires { size ≤ length rom.now }
    ensures { result ≡ bad_string rom.now work.now size address count }
{
    match window_of(size as usize, work.len(), address, count) {
        Window::Rom(_) => is_spread(rom),
        Window::Work(_) => false,
        Window::Nowhere => true,
    }
}

// The bytes of a range written to a place of work memory, as they were before.
fn lay_string(rom: &[u8], work: &mut [u8], size: u32, address: u32, count: u32, at: u32)
    requires { size ≤ length rom.now }
    ensures { work.new ≡ written_of work.old at
        (resolve_of rom.now work.old size address count) }
{
    let n = count as usize;
    match window_of(size as usize, work.len(), address, count) {
        Window::Rom(start) => {
            let k = start as usize;
            copy_in(work, at, &rom[k..k + n]);
        }
        Window::Work(start) => copy_within(work, start, at, count),
        Window::Nowhere => {}
    }
}

// encode-string: the bytes, and a null.
pub fn encode_string(
    rom: &[u8],
    work: &mut [u8],
    cells: &mut [u32; DATA_MOST],
    core: Core,
    next: u32,
) -> Handed
    requires { (core.height ≤ data_most) × (core.work_place ≤ work_size) × (core.length ≤ length rom.now) }
    ensures { Moves (on_stack cells.old) core result (on_stack cells.new)
        (λ s t. WritesFrom encode_string rom.now work.old work.new s next t) }
{
    if core.height < 2 {
        return stop(core, Refusal::TooLow);
    }
    let p = pop(&*cells, core);
    let q = pop(&*cells, p.core);
    let count = p.cell;
    if bad_string(rom, &*work, core.length, q.cell, count) {
        return stop(core, Refusal::NoWindow);
    }
    let at = core.work_place;
    if WORK_SIZE < (at as usize) + ((count as usize) + 1) {
        return stop(core, Refusal::WorkExhausted);
    }
    lay_string(rom, work, core.length, q.cell, count, at);
    put(work, (at as usize) + (count as usize), 0);
    encoded(cells, q.core, next, count + 1)
}
