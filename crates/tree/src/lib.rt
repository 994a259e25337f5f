// The nodes and their properties. For who looks something up the tree is a value, and the call total; for who writes it is taken apart and
// lent. The bytes of names and values lie in a store that is lent.
#![tactic(auto)]

mod in_place;
mod lookup;
mod node;
mod property;
mod rows;
mod tree;

pub use in_place::{Closed, Kept, Opened, Tail, close_child, open_child, put_in, tail_of};
pub use lookup::{ValuePlace, find_node, find_property, own_value, property_value};
pub use node::{fresh_tree, no_tree};
pub use property::same_bytes;
pub use rows::{Row, node_rows, node_table};
pub use tree::{Tree, is_whole};
