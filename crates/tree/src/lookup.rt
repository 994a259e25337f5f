// Lookups: a node by its path, and a property by its node's path and its own name.
ghost use Rattle.std.specs.Prelude.{◌≡◌, ◌&&◌, ◌+◌, ◌≤◌, ◌<◌, length, drop, eqb};
ghost use Rattle.rom.specs.Refusal.{numbered};
ghost use Rattle.tree.specs.Held.{live_of};
ghost use Rattle.tree.specs.Whole.{parent_of};
ghost use Rattle.tree.specs.Path.{split_of, any_empty, malformed as path_malformed, less_null, is_called, child_named, down_from};
ghost use Rattle.tree.specs.Path.{named_place, find_node_of, find_property_of, property_value_of};
ghost use Rattle.tree.specs.Path.{own_value_of};
ghost use Rattle.tree.specs.Sought.{sought_in};
ghost use Rattle.tree.specs.Laws.Path.{part_end, child_sought};
ghost use Rattle.rom.specs.Sizes.{nodes_most, properties_most};

use crate::property::{find, same_bytes};
use crate::tree::{Tree, is_whole, wide};
use rom::Refusal;
use rom::sizes::STORE_SIZE;

const SLASH: u8 = 0x2F;

// Where a property's value lies in the store: its first place, and its size.
#[derive(Clone, Copy)]
pub struct ValuePlace {
    pub at: usize,
    pub size: usize,
}

// Where the part that starts at a place ends: at the next slash, or with the path.
fn part_end(path: &[u8], at: usize) -> usize
    requires { at ≤ length path.now }
    ensures { (result ≡ at + part_end (drop at path.now)) × (result ≤ length path.now) }
{
    for end in at..path.len() {
        if path[end] == SLASH {
            return end;
        }
    }
    path.len()
}

// Whether one of the parts between slashes is empty. The last part is there even where nothing stands behind the last slash.
fn any_empty(parts: &[u8]) -> bool
    ensures { result ≡ any_empty (split_of parts.now) }
{
    parts.split(|b| *b == SLASH).any(|part| part.is_empty())
}

// Whether a path is neither "/" nor parts with a slash before each.
fn malformed(path: &[u8]) -> bool
    ensures { result ≡ path_malformed path.now }
{
    match path {
        [SLASH] => false,
        [SLASH, _, ..] => any_empty(&path[1..]),
        _ => true,
    }
}

// Where a node's property has its value, the oldest of that name.
fn place_of(store: &[u8], tree: Tree, node: u32, name: &[u8]) -> Result<ValuePlace, Refusal>
    requires { (tree.held ≤ properties_most) × (live_of tree ≤ length store.now) }
    ensures { sought_in result ≡ named_place tree store.now node name.now }
{
    let Some(found) = find(
        store,
        &tree.owners,
        &tree.name_sizes,
        &tree.value_sizes,
        tree.held,
        node,
        name,
    ) else {
        return Err(Refusal::NotFound);
    };
    Ok(ValuePlace {
        at: found.at + wide(tree.name_sizes[found.index]),
        size: wide(tree.value_sizes[found.index]),
    })
}

// A value less one final null.
fn less_null<'a>(value: &'a [u8]) -> &'a [u8]
    ensures { result.now ≡ less_null value.now }
{
    match value {
        [front @ .., 0] => front,
        _ => value,
    }
}

// Whether a node's name is a part of a path; a node without a name is called nothing.
fn is_called(store: &[u8], tree: Tree, node: u32, part: &[u8]) -> bool
    requires { (tree.held ≤ properties_most) × (live_of tree ≤ length store.now) }
    ensures { result ≡ is_called tree store.now node part.now }
{
    match place_of(store, tree, node, b"name") {
        Ok(ValuePlace { at, size }) => same_bytes(less_null(&store[at..at + size]), part),
        Err(_) => false,
    }
}

fn is_child(store: &[u8], tree: Tree, k: usize, node: u32, part: &[u8]) -> bool
    requires { (k < nodes_most) × (tree.held ≤ properties_most) × (live_of tree ≤ length store.now) }
    ensures { result ≡ eqb (parent_of tree k) node && is_called tree store.now k part.now }
{
    tree.parents[k] == node && is_called(store, tree, k as u32, part)
}

// The oldest child with that name, or 30. The root is nobody's child, so the search starts at node 1.
fn child_named(store: &[u8], tree: Tree, node: u32, part: &[u8]) -> Result<u32, Refusal>
    requires { (tree.nodes ≤ nodes_most) × (tree.held ≤ properties_most) × (live_of tree ≤ length store.now) }
    ensures { numbered result ≡ child_sought (child_named tree store.now node part.now) }
{
    for k in 1..tree.nodes {
        if is_child(store, tree, k, node, part) {
            return Ok(k as u32);
        }
    }
    Err(Refusal::NotFound)
}

// From the root down, a child for each part of the path from a place on.
fn down(store: &[u8], tree: Tree, path: &[u8], from: usize) -> Result<u32, Refusal>
    requires { (tree.nodes ≤ nodes_most) × (tree.held ≤ properties_most) × (live_of tree ≤ length store.now)
        × (from ≤ length path.now) }
    ensures { numbered result ≡ down_from tree store.now 0 (split_of (drop from path.now)) }
{
    let mut node = 0;
    let mut at = from;
    // a loop: the next part begins where a slash says, no count
    loop {
        let end = part_end(path, at);
        let Ok(child) = child_named(store, tree, node, &path[at..end]) else {
            return Err(Refusal::NotFound);
        };
        if end == path.len() {
            return Ok(child);
        }
        node = child;
        at = end + 1;
    }
}

// The node of a path: 6, 7, 29, 30.
pub fn find_node(store: &[u8], tree: Tree, path: &[u8]) -> Result<u32, Refusal>
    ensures { numbered result ≡ find_node_of tree store.now path.now }
{
    if store.len() != STORE_SIZE {
        return Err(Refusal::WrongSize);
    }
    if !is_whole(tree) {
        return Err(Refusal::Damaged);
    }
    if malformed(path) {
        return Err(Refusal::BadPath);
    }
    if path.len() == 1 {
        return Ok(0);
    }
    down(store, tree, path, 1)
}

// Where the value of the property of a path and a name lies: 6, 7, 29, 30.
pub fn find_property(
    store: &[u8],
    tree: Tree,
    path: &[u8],
    name: &[u8],
) -> Result<ValuePlace, Refusal>
    ensures { sought_in result ≡ find_property_of tree store.now path.now name.now }
{
    let node = find_node(store, tree, path)?;
    place_of(store, tree, node, name)
}

// The value itself, a part of the store; the empty part where find_property refuses.
pub fn property_value<'a>(store: &'a [u8], tree: Tree, path: &[u8], name: &[u8]) -> &'a [u8]
    ensures { result.now ≡ property_value_of tree store.now path.now name.now }
{
    match find_property(store, tree, path, name) {
        Ok(ValuePlace { at, size }) => &store[at..at + size],
        Err(_) => &store[..0],
    }
}

// The value of a node's own property, for whoever knows the node by its number: a part of the store, the oldest of that name; the empty
// part where there is none, or where the store has another size or the tree is damaged.
pub fn own_value<'a>(store: &'a [u8], tree: Tree, node: u32, name: &[u8]) -> &'a [u8]
    ensures { result.now ≡ own_value_of tree store.now node name.now }
{
    if store.len() != STORE_SIZE {
        return &store[..0];
    }
    if !is_whole(tree) {
        return &store[..0];
    }
    match place_of(store, tree, node, name) {
        Ok(ValuePlace { at, size }) => &store[at..at + size],
        Err(_) => &store[..0],
    }
}
