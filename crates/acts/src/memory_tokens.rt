// Memory looked at and written: @, c@, !, c!.
ghost use Rattle.std.specs.Prelude.{◌≡◌, ◌≤◌};
ghost use Rattle.tokens.specs.Family.{fetch, store};
ghost use Rattle.state.specs.Joints.Apart.{on_stack, Moves, Looks};
ghost use Rattle.acts.specs.Joints.Acts.{ReadsBy, WritesBy, of_cell, look_of, store_why, store_then};
ghost use Rattle.rom.specs.Refusal.{numbered, refusal_in};
ghost use Rattle.rom.specs.Sizes.{data_most};

use memory::{fetch_byte, fetch_cell, store_byte, store_cell};
use rom::Refusal;
use rom::sizes::DATA_MOST;
use state::{Core, Handed, go, pop, push, stop};

// Whether a token fetches or stores a cell, not a byte.
fn is_cell(number: u32) -> bool
    ensures { result ≡ of_cell number }
{
    number == 0x6D || number == 0x72
}

fn fetched(rom: &[u8], work: &[u8], size: u32, number: u32, address: u32) -> Result<u32, Refusal>
    ensures { numbered result ≡ look_of number rom.now work.now size address }
{
    if is_cell(number) {
        return fetch_cell(rom, work, size, address);
    }
    fetch_byte(rom, work, size, address)
}

// @, c@
pub fn fetch_from(
    rom: &[u8],
    work: &[u8],
    cells: &mut [u32; DATA_MOST],
    core: Core,
    number: u32,
    next: u32,
) -> Handed
    requires { core.height ≤ data_most }
    ensures { Moves (on_stack cells.old) core result (on_stack cells.new)
        (λ s t. ReadsBy number fetch rom.now work.now s next t) }
{
    if core.height < 1 {
        return stop(core, Refusal::TooLow);
    }
    let p = pop(&*cells, core);
    match fetched(rom, work, core.length, number, p.cell) {
        Err(why) => stop(core, why),
        Ok(cell) => {
            // a copy that is written: by `..p.core` a loop over memory took 1.8 times the instructions
            let mut k = p.core;
            k.place = next;
            push(cells, k, cell)
        }
    }
}

// A cell or its low 8 bits stored.
fn stored(work: &mut [u8], number: u32, address: u32, cell: u32) -> Result<(), Refusal>
    ensures { (refusal_in result ≡ store_why number work.old address)
        × (work.new ≡ store_then number work.old address cell) }
{
    if is_cell(number) {
        return store_cell(work, address, cell);
    }
    store_byte(work, address, cell)
}

// !, c!
pub fn store_to(
    work: &mut [u8],
    cells: &[u32; DATA_MOST],
    core: Core,
    number: u32,
    next: u32,
) -> Handed
    requires { core.height ≤ data_most }
    ensures { Looks (on_stack cells.now) core result (λ s t. WritesBy number store work.old
        work.new s next t) }
{
    if core.height < 2 {
        return stop(core, Refusal::TooLow);
    }
    let p = pop(cells, core);
    let q = pop(cells, p.core);
    if let Err(why) = stored(work, number, p.cell, q.cell) {
        return stop(core, why);
    }
    let mut k = q.core;
    k.place = next;
    go(k)
}
