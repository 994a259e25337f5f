// The tree, and whether it is whole.
ghost use Rattle.std.specs.Prelude.{◌≡◌, ◌≤◌, ◌<◌};
ghost use Rattle.tree.specs.Held.{live_among};
ghost use Rattle.tree.specs.Whole.{older_among, sound_with, sound_among, every_below, counted as whole_counted, whole_tree};
ghost use Rattle.rom.specs.Sizes.{nodes_most, properties_most};

use rom::sizes::{NODES_MOST, PROPERTIES_MOST, STORE_SIZE};

pub const NAME_MOST: usize = 31;

// Node k has the parent parents[k]. Record i says that a property of the node owners[i] has a name and a value of these lengths; their
// bytes lie in the store, one record's behind the other's.
#[derive(Clone, Copy)]
pub struct Tree {
    pub parents: [u32; NODES_MOST],
    pub nodes: usize,
    pub owners: [u32; PROPERTIES_MOST],
    pub name_sizes: [u32; PROPERTIES_MOST],
    pub value_sizes: [u32; PROPERTIES_MOST],
    pub held: usize,
}

pub fn wide(x: u32) -> usize
    ensures { (result ≡ x) × (result < 4294967296) }
{
    x as usize
}

fn is_older(parents: &[u32; NODES_MOST], k: usize) -> bool
    requires { k < nodes_most }
    ensures { result ≡ older_among parents.now k }
{
    let parent = wide(parents[k]);
    if k == 0 { parent == 0 } else { parent < k }
}

fn all_older(parents: &[u32; NODES_MOST], nodes: usize) -> bool
    requires { nodes ≤ nodes_most }
    ensures { result ≡ every_below nodes (older_among parents.now) }
{
    (0..nodes).all(|k| is_older(parents, k))
}

fn is_sound(nodes: usize, owner: usize, name: usize, value: usize) -> bool
    ensures { result ≡ sound_with nodes owner name value }
{
    owner < nodes && 1 <= name && name <= NAME_MOST && value <= STORE_SIZE
}

fn all_sound(
    nodes: usize,
    owners: &[u32; PROPERTIES_MOST],
    name_sizes: &[u32; PROPERTIES_MOST],
    value_sizes: &[u32; PROPERTIES_MOST],
    held: usize,
) -> bool
    requires { held ≤ properties_most }
    ensures { result
        ≡ every_below held (sound_among nodes owners.now name_sizes.now value_sizes.now) }
{
    (0..held).all(|i| is_sound(
        nodes,
        wide(owners[i]),
        wide(name_sizes[i]),
        wide(value_sizes[i]),
    ))
}

// The live bytes. 128 lengths of 32 bits do not overflow, so the sum needs no lengths in their limits.
pub fn live_bytes(
    name_sizes: &[u32; PROPERTIES_MOST],
    value_sizes: &[u32; PROPERTIES_MOST],
    held: usize,
) -> usize
    requires { held ≤ properties_most }
    ensures { result ≡ live_among name_sizes.now value_sizes.now held 0 }
{
    let mut sum = 0;
    for i in 0..held {
        sum += wide(name_sizes[i]) + wide(value_sizes[i]);
    }
    sum
}

// Whether the counts are in their limits.
fn counted(nodes: usize, held: usize) -> bool
    ensures { result ≡ whole_counted nodes held }
{
    2 <= nodes && nodes <= NODES_MOST && held <= PROPERTIES_MOST
}

// Whether every count, length and node of the tree is in its limits, live bytes included.
pub fn is_whole(tree: Tree) -> bool
    ensures { result ≡ whole_tree tree }
{
    counted(tree.nodes, tree.held)
        && all_older(&tree.parents, tree.nodes)
        && all_sound(
            tree.nodes,
            &tree.owners,
            &tree.name_sizes,
            &tree.value_sizes,
            tree.held,
        )
        && live_bytes(&tree.name_sizes, &tree.value_sizes, tree.held) <= STORE_SIZE
}
