// Properties written to the active node.
ghost use Rattle.std.specs.Prelude.{◌≡◌, ◌≤◌, length};
ghost use Rattle.tree.specs.Joints.Apart.{Tallied};
ghost use Rattle.state.specs.Refusals.{title_of};
ghost use Rattle.acts.specs.Joints.Acts.{KeepsFrom, KeepsBy, Files, filed_of};
ghost use Rattle.rom.specs.Sizes.{data_most};

use crate::acted::{Acted, refuse};
use crate::encode::bad_string;
use memory::resolve;
use rom::Refusal;
use rom::sizes::{DATA_MOST, PROPERTIES_MOST};
use state::{Core, Told, pop};
use tree::{Kept, Tail, put_in};

// What a call on the records leaves: the numbers as they were where it is refused, else with so many cells gone, at the next place.
fn file_kept(core: Core, taken: usize, next: u32, kept: Kept) -> Acted
    requires { taken ≤ core.height }
    ensures { result ≡ filed_of core taken next kept.outcome kept.held kept.tail }
{
    let k = Core {
        records: kept.held,
        ..core
    };
    match kept.outcome {
        Ok(()) => Acted {
            told: Told::On,
            core: Core {
                height: core.height - taken,
                place: next,
                ..k
            },
            tail: kept.tail,
        },
        Err(why) => refuse(k, kept.tail, why),
    }
}

// property. It is lent both memories, the store, the stack and the arrays of the records.
pub fn put_named(
    rom: &[u8],
    work: &[u8],
    store: &mut [u8],
    cells: &[u32; DATA_MOST],
    owners: &mut [u32; PROPERTIES_MOST],
    titles: &mut [u32; PROPERTIES_MOST],
    sizes: &mut [u32; PROPERTIES_MOST],
    core: Core,
    tail: Tail,
    next: u32,
) -> Acted
    requires { (core.height ≤ data_most) × (core.length ≤ length rom.now)
        × Tallied store.old titles.old sizes.old core.records tail }
    ensures { Files cells.now owners.old titles.old sizes.old core result
        owners.new titles.new sizes.new store.new
        (λ s t. KeepsFrom rom.now work.now store.old store.new s next t) }
{
    if core.height < 4 {
        return refuse(core, tail, Refusal::TooLow);
    }
    let p = pop(cells, core);
    let q = pop(cells, p.core);
    let t = pop(cells, q.core);
    let u = pop(cells, t.core);
    if bad_string(rom, work, core.length, q.cell, p.cell) {
        return refuse(core, tail, Refusal::NoWindow);
    }
    if bad_string(rom, work, core.length, u.cell, t.cell) {
        return refuse(core, tail, Refusal::NoWindow);
    }
    let name = resolve(rom, work, core.length, q.cell, p.cell);
    let value = resolve(rom, work, core.length, u.cell, t.cell);
    let kept = put_in(
        store,
        owners,
        titles,
        sizes,
        core.records,
        tail,
        core.active,
        name,
        value,
        false,
    );
    file_kept(core, 4, next, kept)
}

// The name of the property that a title token writes.
fn title_of(number: u32) -> &'static [u8]
    ensures { result.now ≡ title_of number }
{
    match number {
        0x201 => b"name",
        0x119 => b"model",
        _ => b"device_type",
    }
}

// device-name, model, device-type. It is lent what `put_named` is.
pub fn put_titled(
    rom: &[u8],
    work: &[u8],
    store: &mut [u8],
    cells: &[u32; DATA_MOST],
    owners: &mut [u32; PROPERTIES_MOST],
    titles: &mut [u32; PROPERTIES_MOST],
    sizes: &mut [u32; PROPERTIES_MOST],
    core: Core,
    tail: Tail,
    number: u32,
    next: u32,
) -> Acted
    requires { (core.height ≤ data_most) × (core.length ≤ length rom.now)
        × Tallied store.old titles.old sizes.old core.records tail }
    ensures { Files cells.now owners.old titles.old sizes.old core result
        owners.new titles.new sizes.new store.new
        (λ s t. KeepsBy number rom.now work.now store.old store.new s next t) }
{
    if core.height < 2 {
        return refuse(core, tail, Refusal::TooLow);
    }
    let p = pop(cells, core);
    let q = pop(cells, p.core);
    if bad_string(rom, work, core.length, q.cell, p.cell) {
        return refuse(core, tail, Refusal::NoWindow);
    }
    let value = resolve(rom, work, core.length, q.cell, p.cell);
    // with a null
    let kept = put_in(
        store,
        owners,
        titles,
        sizes,
        core.records,
        tail,
        core.active,
        title_of(number),
        value,
        true,
    );
    file_kept(core, 2, next, kept)
}
