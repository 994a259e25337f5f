// Lookups and the node table of a state: the tree's own calls, which test the tree's part of refusal 7, behind all of it.
ghost use Rattle.std.specs.Prelude.{◌≡◌, length};
ghost use Rattle.rom.specs.Refusal.{numbered, refusal_in};
ghost use Rattle.tree.specs.Sought.{sought_in};
ghost use Rattle.tree.specs.Rows.{parents_of, counts_of, rows_of, rows_then};
ghost use Rattle.state.specs.Lookup.{find_node_in, find_property_in, property_value_in, table_refusal_in, rows_refusal_in};
ghost use Rattle.state.specs.Joints.Lookup.{tree_or_none};

use crate::state::State;
use crate::whole::is_whole;
use rom::Refusal;
use tree::{
    Row, Tree, ValuePlace, find_node, find_property, no_tree, node_rows, node_table, property_value,
};

// The tree of a whole state. A damaged state has none to show: the tree without nodes is damaged itself, so that each of the tree's calls
// answers 7 where 7 stands in its order, behind 6 and before all else.
fn tree_or_none(state: State) -> Tree
    ensures { result ≡ tree_or_none state }
{
    if !is_whole(state) {
        return no_tree();
    }
    state.tree
}

// The node of a path: 6, 7, 29, 30.
pub fn find_node_in(store: &[u8], state: State, path: &[u8]) -> Result<u32, Refusal>
    ensures { numbered result ≡ find_node_in state store.now path.now }
{
    find_node(store, tree_or_none(state), path)
}

// Where the value of the property of a path and a name lies: 6, 7, 29, 30.
pub fn find_property_in(
    store: &[u8],
    state: State,
    path: &[u8],
    name: &[u8],
) -> Result<ValuePlace, Refusal>
    ensures { sought_in result ≡ find_property_in state store.now path.now name.now }
{
    find_property(store, tree_or_none(state), path, name)
}

// The value itself, a part of the store; the empty part where find_property_in refuses.
pub fn property_value_in<'a>(store: &'a [u8], state: State, path: &[u8], name: &[u8]) -> &'a [u8]
    ensures { result.now ≡ property_value_in state store.now path.now name.now }
{
    property_value(store, tree_or_none(state), path, name)
}

// The rows' two columns; refused by 6 and then 7 both stay as they were.
pub fn node_table_in(state: State, parents: &mut [u32], counts: &mut [u32]) -> Result<(), Refusal>
    ensures { (refusal_in result ≡ table_refusal_in state parents.old counts.old)
        × (parents.new ≡ rows_then (refusal_in result) parents.old (parents_of state.tree))
        × (counts.new ≡ rows_then (refusal_in result) counts.old (counts_of state.tree)) }
{
    node_table(tree_or_none(state), parents, counts)
}

// The rows in a lent slice of structs; refused by 6 and then 7 all rows stay as they were.
pub fn node_rows_in(state: State, rows: &mut [Row]) -> Result<(), Refusal>
    ensures { (refusal_in result ≡ rows_refusal_in state (length rows.old))
        × (rows.new ≡ rows_then (refusal_in result) rows.old (rows_of state.tree)) }
{
    node_rows(tree_or_none(state), rows)
}
