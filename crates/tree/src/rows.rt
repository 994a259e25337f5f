// The node table for the installer: a row for each node.
ghost use Rattle.std.specs.Prelude.{◌≡◌, ◌≤◌, ◌<◌, true, length, MatchResult};
ghost use Rattle.tree.specs.Whole.{whole_tree};
ghost use Rattle.tree.specs.Rows.{count_from, node_row, lent_refusal, table_refusal, rows_refusal, rows_then};
ghost use Rattle.tree.specs.Rows.{parents_of, counts_of, rows_of};
ghost use Rattle.rom.specs.Sizes.{nodes_most, properties_most};
ghost use Rattle.rom.specs.Refusal.{refusal_number, refusal_in};

use crate::tree::{Tree, is_whole};
use rom::Refusal;
use rom::sizes::{NODES_MOST, PROPERTIES_MOST};

#[derive(Clone, Copy)]
pub struct Row {
    pub parent: u32,
    pub count: u32,
}

// How many of the records are a node's. By one loop: std's filter and count are two, of which no vector code is made.
fn count_of(owners: &[u32; PROPERTIES_MOST], held: usize, node: u32) -> u32
    requires { held ≤ properties_most }
    ensures { result ≡ count_from owners.now node held 0 }
{
    let mut count = 0;
    for i in 0..held {
        if owners[i] == node {
            count += 1;
        }
    }
    count
}

// A node's row; a row of no node is zero.
fn row_of(tree: Tree, k: usize) -> Row
    requires { (k < nodes_most) × (tree.held ≤ properties_most) }
    ensures { result ≡ node_row tree k }
{
    if tree.nodes <= k {
        return Row {
            parent: 0,
            count: 0,
        };
    }
    Row {
        parent: tree.parents[k],
        count: count_of(&tree.owners, tree.held, k as u32),
    }
}

// Whether rows may be written: 6 where their number is not the nodes', and then 7.
fn judge(tree: Tree, sized: bool) -> Result<(), Refusal>
    ensures { MatchResult result (λ _. (sized ≡ true) × (whole_tree tree ≡ true)) (λ why. refusal_number why ≡ lent_refusal sized tree) }
{
    if !sized {
        return Err(Refusal::WrongSize);
    }
    if !is_whole(tree) {
        return Err(Refusal::Damaged);
    }
    Ok(())
}

// The rows' two columns; refused by 6 and then 7 both stay as they were.
pub fn node_table(tree: Tree, parents: &mut [u32], counts: &mut [u32]) -> Result<(), Refusal>
    ensures { (refusal_in result ≡ table_refusal tree parents.old counts.old)
        × (parents.new ≡ rows_then (refusal_in result) parents.old (parents_of tree))
        × (counts.new ≡ rows_then (refusal_in result) counts.old (counts_of tree)) }
{
    let sized = parents.len() == NODES_MOST && counts.len() == NODES_MOST;
    judge(tree, sized)?;
    for k in 0..NODES_MOST {
        let row = row_of(tree, k);
        parents[k] = row.parent;
        counts[k] = row.count;
    }
    Ok(())
}

// The rows in a lent slice of structs; refused by 6 and then 7 all rows stay as they were. What a row holds is decided in `row_of`; this
// walk only stores.
pub fn node_rows(tree: Tree, rows: &mut [Row]) -> Result<(), Refusal>
    ensures { (refusal_in result ≡ rows_refusal tree (length rows.old))
        × (rows.new ≡ rows_then (refusal_in result) rows.old (rows_of tree)) }
{
    judge(tree, rows.len() == NODES_MOST)?;
    for (k, row) in rows.iter_mut().enumerate() {
        *row = row_of(tree, k);
    }
    Ok(())
}
