// Properties: their names, where they are found in the store, and the bytes of a value.
ghost use Rattle.std.specs.Prelude.{◌≡◌, ◌+◌, ◌-◌, ◌≤◌, ◌<◌, ◌&&◌, eqb, length, MatchOption};
ghost use Rattle.memory.specs.Window.{part_of};
ghost use Rattle.memory.specs.Writing.{written_of};
ghost use Rattle.tree.specs.Held.{same_bytes, live_among};
ghost use Rattle.tree.specs.Property.{value_of, name_byte, bad_name};
ghost use Rattle.tree.specs.Joints.Steps.{size_of};
ghost use Rattle.tree.specs.Joints.Apart.{Finds, Missing};
ghost use Rattle.tree.specs.Laws.Same.{alike_from};
ghost use Rattle.tree.specs.Whole.{every_below};
ghost use Rattle.rom.specs.Sizes.{properties_most, store_size};

use crate::tree::{NAME_MOST, wide};
use memory::{copy_in, put};
use rom::sizes::PROPERTIES_MOST;

// A record, and where its bytes start in the store.
#[derive(Clone, Copy)]
pub struct Found {
    pub index: usize,
    pub at: usize,
}

// Bytes one by one.
fn same_few(a: &[u8], b: &[u8]) -> bool
    requires { length a.now ≡ length b.now }
    ensures { result ≡ same_bytes a.now b.now }
{
    for k in 0..a.len() {
        if a[k] != b[k] {
            return false;
        }
    }
    true
}

// Whether eight bytes from a place on are the same. All of them are compared, with no way out between, so that they are read as one word.
fn same_eight(a: &[u8], b: &[u8], k: usize) -> bool
    requires { (k + 8 ≤ length a.now) × (k + 8 ≤ length b.now) }
    ensures { result ≡ every_below 8 (alike_from a.now b.now k) }
{
    (a[k] == b[k])
        & (a[k + 1] == b[k + 1])
        & (a[k + 2] == b[k + 2])
        & (a[k + 3] == b[k + 3])
        & (a[k + 4] == b[k + 4])
        & (a[k + 5] == b[k + 5])
        & (a[k + 6] == b[k + 6])
        & (a[k + 7] == b[k + 7])
}

// Eight bytes at a time. The last eight may begin among bytes that were compared already: none is left to be compared alone.
fn same_words(a: &[u8], b: &[u8]) -> bool
    requires { (8 ≤ length a.now) × (length a.now ≡ length b.now) }
    ensures { result ≡ same_bytes a.now b.now }
{
    let last = a.len() - 8;
    let mut k = 0;
    // a while: by eight
    while k < last {
        if !same_eight(a, b, k) {
            return false;
        }
        k += 8;
    }
    same_eight(a, b, last)
}

// Not by the slices' own ==: it is called out of line for what stands behind the first four bytes, and reads on where names have differed,
// which made a run over a full store of names that differ in their middle 3.3 times as long.
pub fn same_bytes(a: &[u8], b: &[u8]) -> bool
    ensures { result ≡ same_bytes a.now b.now }
{
    if a.len() != b.len() {
        return false;
    }
    if 8 <= a.len() {
        return same_words(a, b);
    }
    same_few(a, b)
}

// Whether a byte may stand in a name: printed, no upper-case letter, and none of / \ : [ ] @.
fn is_name_byte(b: u8) -> bool
    ensures { result ≡ name_byte b }
{
    let printed = (0x21 <= b) & (b <= 0x7E);
    let upper = (b'A' <= b) & (b <= b'Z');
    let barred = (b == b'/') | (b == b'\\') | (b == b':') | (b == b'[') | (b == b']') | (b == b'@');
    printed & !upper & !barred
}

pub fn bad_name(name: &[u8]) -> bool
    ensures { result ≡ bad_name name.now }
{
    !(1..=NAME_MOST).contains(&name.len()) || !name.iter().all(|b| is_name_byte(*b))
}

// Whether a record of this owner, its name's bytes from a place up to an end, is the one of a node and a name.
pub fn is_named(store: &[u8], owner: u32, start: usize, end: usize, node: u32, name: &[u8]) -> bool
    requires { (start ≤ end) × (end ≤ length store.now) }
    ensures { result ≡ eqb owner node && same_bytes (part_of store.now start (end - start)) name.now }
{
    owner == node && same_bytes(&store[start..end], name)
}

// The record of a node with this name, the oldest first. The records are lent one array by one, as they lie in a tree that is taken apart.
pub fn find(
    store: &[u8],
    owners: &[u32; PROPERTIES_MOST],
    name_sizes: &[u32; PROPERTIES_MOST],
    value_sizes: &[u32; PROPERTIES_MOST],
    held: usize,
    node: u32,
    name: &[u8],
) -> Option<Found>
    requires { (held ≤ properties_most) × (live_among name_sizes.now value_sizes.now held 0 ≤ length store.now) }
    ensures { MatchOption result (Missing store.now owners.now name_sizes.now value_sizes.now held node name.now)
        (λ found. (found.index < held) × Finds store.now owners.now name_sizes.now value_sizes.now held node name.now found) }
{
    let mut at = 0;
    for i in 0..held {
        let end = at + wide(name_sizes[i]);
        if is_named(store, owners[i], at, end, node, name) {
            return Some(Found { index: i, at });
        }
        at = end + wide(value_sizes[i]);
    }
    None
}

// The bytes of a value, with its null.
pub fn size_of(count: usize, null: bool) -> usize
    requires { count ≤ store_size }
    ensures { (result ≡ size_of count null) × (result ≤ count + 1) }
{
    if null { count + 1 } else { count }
}

pub fn lay_value(store: &mut [u8], at: usize, value: &[u8], null: bool)
    requires { (at ≤ 32768) × (length value.now ≤ store_size) }
    ensures { store.new ≡ written_of store.old at (value_of value.now null) }
{
    copy_in(store, at as u32, value);
    if null {
        put(store, at + value.len(), 0);
    }
}
