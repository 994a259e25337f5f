// The tree taken apart: its arrays are lent and changed where they lie, its counts are plain numbers, and so are the live bytes. A write
// costs what it changes: no array is copied, no tree is tested anew, and of the store only what is written, moved or freed is touched.
ghost use Rattle.std.specs.Prelude.{◌≡◌, false, ◌+◌, ◌≤◌, length, get_or};
ghost use Rattle.memory.specs.Writing.{moved_of};
ghost use Rattle.tree.specs.Property.{bad_name, value_of};
ghost use Rattle.tree.specs.Joints.Steps.{zeroed_of, appended_of, replaced_of};
ghost use Rattle.tree.specs.Joints.Apart.{refused_with, done_with, tail_of, EndsAs, Tallied, Missing, Puts, Opens, Closes};
ghost use Rattle.rom.specs.Sizes.{properties_most, store_size};
ghost use Rattle.tree.specs.Whole.{name_most};

use crate::property::{bad_name, find, lay_value, size_of};
use crate::tree::{live_bytes, wide};
use memory::{copy_in, copy_within};
use rom::Refusal;
use rom::sizes::{NODES_MOST, PROPERTIES_MOST, STORE_SIZE};

// The live bytes of the store, and a place, at or behind their end, from which on all of it is zero. A store that is offered may hold
// anything behind its live bytes, so there the place is the store's end; after a write it is the live end.
#[derive(Clone, Copy)]
pub struct Tail {
    pub live: usize,
    pub zeros: usize,
}

// What writing a property gives, with the count of records and the tail then.
#[derive(Clone, Copy)]
pub struct Kept {
    pub outcome: Result<(), Refusal>,
    pub held: usize,
    pub tail: Tail,
}

#[derive(Clone, Copy)]
pub struct Opened {
    pub outcome: Result<(), Refusal>,
    pub nodes: usize,
    pub active: u32,
}

#[derive(Clone, Copy)]
pub struct Closed {
    pub outcome: Result<(), Refusal>,
    pub active: u32,
}

// The tail of records that are offered with their store.
pub fn tail_of(
    name_sizes: &[u32; PROPERTIES_MOST],
    value_sizes: &[u32; PROPERTIES_MOST],
    held: usize,
) -> Tail
    requires { held ≤ properties_most }
    ensures { result ≡ tail_of name_sizes.now value_sizes.now held }
{
    let live = live_bytes(name_sizes, value_sizes, held);
    Tail {
        live,
        zeros: STORE_SIZE,
    }
}

// Zeros from a place on, up to another where that lies further.
fn clear_up_to(memory: &mut [u8], at: usize, end: usize)
    requires { end ≤ length memory.old }
    ensures { memory.new ≡ zeroed_of memory.old at end }
{
    if at < end {
        memory[at..end].fill(0);
    }
}

// A property more, at the live end. What is zero already is not cleared again.
fn append(store: &mut [u8], tail: Tail, name: &[u8], value: &[u8], null: bool)
    requires { (length store.old ≡ store_size) × EndsAs store.old tail × (length name.now ≤ name_most)
        × (length value.now ≤ store_size) }
    ensures { store.new
        ≡ appended_of store.old tail.live name.now (value_of value.now null) }
{
    copy_in(store, tail.live as u32, name);
    let at = tail.live + name.len();
    lay_value(store, at, value, null);
    let end = at + size_of(value.len(), null);
    clear_up_to(store, end, tail.zeros);
}

// Bytes moved to another place. Those that stay where they stand, as behind a value of the old one's size, cost nothing.
fn move_part(store: &mut [u8], from: usize, to: usize, count: usize)
    requires { (from + count ≤ length store.old) × (length store.old ≤ store_size) × (to ≤ 32769) }
    ensures { store.new ≡ moved_of store.old from to count }
{
    if from != to {
        copy_within(store, from as u32, to as u32, count as u32);
    }
}

// Another value in the place of the old one, and what stands behind it moved with it. It is cleared as far as for a property more.
fn replace(store: &mut [u8], tail: Tail, at: usize, old: usize, value: &[u8], null: bool)
    requires { (length store.old ≡ store_size) × EndsAs store.old tail × (at + old ≤ tail.live) × (length value.now ≤ store_size) }
    ensures { store.new ≡ replaced_of store.old tail.live at old (value_of value.now null) }
{
    let behind = tail.live - (at + old);
    let end = at + size_of(value.len(), null);
    move_part(store, at + old, end, behind);
    lay_value(store, at, value, null);
    clear_up_to(store, end + behind, tail.zeros);
}

fn refused_with(why: Refusal, held: usize, tail: Tail) -> Kept
    ensures { result ≡ refused_with why held tail }
{
    Kept {
        outcome: Err(why),
        held,
        tail,
    }
}

// After a write the store is zero behind its live bytes, whatever stood there before.
fn done_with(held: usize, live: usize) -> Kept
    ensures { result ≡ done_with held live }
{
    Kept {
        outcome: Ok(()),
        held,
        tail: Tail { live, zeros: live },
    }
}

// A property more, its record behind them all; 27 where the one or the other has no room. It is lent what `put_in` is.
fn add_property(
    store: &mut [u8],
    owners: &mut [u32; PROPERTIES_MOST],
    name_sizes: &mut [u32; PROPERTIES_MOST],
    value_sizes: &mut [u32; PROPERTIES_MOST],
    held: usize,
    tail: Tail,
    node: u32,
    name: &[u8],
    value: &[u8],
    null: bool,
) -> Kept
    requires { Tallied store.old name_sizes.old value_sizes.old held tail × (bad_name name.now ≡ false)
        × (length value.now ≤ store_size)
        × Missing store.old owners.old name_sizes.old value_sizes.old held node name.now }
    ensures { Puts node name.now (value_of value.now null)
        store.old owners.old name_sizes.old value_sizes.old held
        result store.new owners.new name_sizes.new value_sizes.new }
{
    if PROPERTIES_MOST <= held {
        return refused_with(Refusal::StoreFull, held, tail);
    }
    let size = size_of(value.len(), null);
    let live = tail.live + name.len() + size;
    if STORE_SIZE < live {
        return refused_with(Refusal::StoreFull, held, tail);
    }
    append(store, tail, name, value, null);
    owners[held] = node;
    name_sizes[held] = name.len() as u32;
    value_sizes[held] = size as u32;
    done_with(held + 1, live)
}

// Writes a property of a node. The value is the bytes given, and a null behind them where it is asked for. A record that is there
// keeps its node and name. It is lent the store and the records' arrays one by one, as they lie in a state that is taken apart.
pub fn put_in(
    store: &mut [u8],
    owners: &mut [u32; PROPERTIES_MOST],
    name_sizes: &mut [u32; PROPERTIES_MOST],
    value_sizes: &mut [u32; PROPERTIES_MOST],
    held: usize,
    tail: Tail,
    node: u32,
    name: &[u8],
    value: &[u8],
    null: bool,
) -> Kept
    requires { Tallied store.old name_sizes.old value_sizes.old held tail }
    ensures { Puts node name.now (value_of value.now null)
        store.old owners.old name_sizes.old value_sizes.old held
        result store.new owners.new name_sizes.new value_sizes.new }
{
    if bad_name(name) {
        return refused_with(Refusal::BadName, held, tail);
    }
    if STORE_SIZE < value.len() {
        return refused_with(Refusal::StoreFull, held, tail);
    }
    let Some(found) = find(
        &*store,
        &*owners,
        &*name_sizes,
        &*value_sizes,
        held,
        node,
        name,
    ) else {
        return add_property(
            store,
            owners,
            name_sizes,
            value_sizes,
            held,
            tail,
            node,
            name,
            value,
            null,
        );
    };
    let index = found.index;
    let size = size_of(value.len(), null);
    let old = wide(value_sizes[index]);
    let live = tail.live - old + size;
    if STORE_SIZE < live {
        return refused_with(Refusal::StoreFull, held, tail);
    }
    replace(store, tail, found.at + name.len(), old, value, null);
    value_sizes[index] = size as u32;
    done_with(held, live)
}

// A test by hand: of get, copied and unwrap_or in a chain the search does not find this fact.
fn parent_among(parents: &[u32], k: usize) -> u32
    ensures { result ≡ get_or parents.now k 0 }
{
    if k < parents.len() { parents[k] } else { 0 }
}

// A bare child of the active node becomes active; 20 where there is no room for it.
pub fn open_child(parents: &mut [u32; NODES_MOST], nodes: usize, active: u32) -> Opened
    ensures { Opens parents.old nodes active result parents.new }
{
    if NODES_MOST <= nodes {
        return Opened {
            outcome: Err(Refusal::NoNode),
            nodes,
            active,
        };
    }
    parents[nodes] = active;
    Opened {
        outcome: Ok(()),
        nodes: nodes + 1,
        active: nodes as u32,
    }
}

// The parent becomes active; 20 at the first node.
pub fn close_child(parents: &[u32; NODES_MOST], first: u32, active: u32) -> Closed
    ensures { Closes parents.now first active result }
{
    if active == first {
        return Closed {
            outcome: Err(Refusal::NoNode),
            active,
        };
    }
    Closed {
        outcome: Ok(()),
        active: parent_among(parents, wide(active)),
    }
}
