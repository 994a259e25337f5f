// Nodes.
ghost use Rattle.std.specs.Prelude.{◌≡◌};
ghost use Rattle.tree.specs.Node.{no_tree, fresh_tree};

use crate::tree::Tree;
use rom::sizes::{NODES_MOST, PROPERTIES_MOST};

pub fn no_tree() -> Tree
    ensures { result ≡ no_tree }
{
    Tree {
        parents: [0; NODES_MOST],
        nodes: 0,
        owners: [0; PROPERTIES_MOST],
        name_sizes: [0; PROPERTIES_MOST],
        value_sizes: [0; PROPERTIES_MOST],
        held: 0,
    }
}

pub fn fresh_tree() -> Tree
    ensures { result ≡ fresh_tree }
{
    let mut t = no_tree();
    t.nodes = 2;
    t
}
