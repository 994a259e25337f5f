// Lookups in what a run left, and its node table.
use crate::damage::damaged;
use crate::show::say_bytes;
use given::bytes_from;
use rom::sizes::NODES_MOST;
use rom::{Refusal, refusal_in};
use state::{State, find_node_in, find_property_in, node_table_in, property_value_in};
use std::io;
use tree::{Tree, ValuePlace, find_node, find_property, node_table, property_value};

// What the rows hold before they are filled.
const OLD: u32 = 0xA5A5_A5A5;

// What is looked up in: a state by its own calls, or a tree by its own.
trait Searched: Copy {
    // The word that stands before what is said of it.
    const OF: &'static str;

    fn node(self, store: &[u8], path: &[u8]) -> Result<u32, Refusal>;

    fn place(self, store: &[u8], path: &[u8], name: &[u8]) -> Result<ValuePlace, Refusal>;

    fn value<'a>(self, store: &'a [u8], path: &[u8], name: &[u8]) -> &'a [u8];

    fn table(self, parents: &mut [u32], counts: &mut [u32]) -> Result<(), Refusal>;
}

impl Searched for State {
    const OF: &'static str = "state ";

    fn node(self, store: &[u8], path: &[u8]) -> Result<u32, Refusal> {
        find_node_in(store, self, path)
    }

    fn place(self, store: &[u8], path: &[u8], name: &[u8]) -> Result<ValuePlace, Refusal> {
        find_property_in(store, self, path, name)
    }

    fn value<'a>(self, store: &'a [u8], path: &[u8], name: &[u8]) -> &'a [u8] {
        property_value_in(store, self, path, name)
    }

    fn table(self, parents: &mut [u32], counts: &mut [u32]) -> Result<(), Refusal> {
        node_table_in(self, parents, counts)
    }
}

impl Searched for Tree {
    const OF: &'static str = "";

    fn node(self, store: &[u8], path: &[u8]) -> Result<u32, Refusal> {
        find_node(store, self, path)
    }

    fn place(self, store: &[u8], path: &[u8], name: &[u8]) -> Result<ValuePlace, Refusal> {
        find_property(store, self, path, name)
    }

    fn value<'a>(self, store: &'a [u8], path: &[u8], name: &[u8]) -> &'a [u8] {
        property_value(store, self, path, name)
    }

    fn table(self, parents: &mut [u32], counts: &mut [u32]) -> Result<(), Refusal> {
        node_table(self, parents, counts)
    }
}

fn show_node<S: Searched>(rt: &impl Print, store: &[u8], of: S, path: &[u8]) -> io::Result<()> {
    match of.node(store, path) {
        Ok(k) => print!(rt; " node {k}"),
        Err(why) => print!(rt; " {}", why.number()),
    }
}

// The value as the part that is handed back; where it lies is told by another call, whose size must be the same.
fn show_value<S: Searched>(
    rt: &impl Print,
    store: &[u8],
    of: S,
    path: &[u8],
    name: &[u8],
) -> io::Result<()> {
    let value = of.value(store, path, name);
    match of.place(store, path, name) {
        Ok(ValuePlace { at, size }) => {
            print!(rt; " value")?;
            say_bytes(rt, value, 0, value.len())?;
            if size != value.len() {
                print!(rt; " of another size")?;
            }
            if 0 < size && store.get(at) != value.first() {
                print!(rt; " elsewhere")?;
            }
            Ok(())
        }
        Err(why) => print!(rt; " {}", why.number()),
    }
}

// A path in hex; with a colon and a property's name behind it, also in hex, the property.
fn show_find(rt: &impl Print, store: &[u8], state: State, word: &[u8]) -> io::Result<()> {
    let mut path = [0u8; 256];
    let mut name = [0u8; 256];
    let n = bytes_from(word, 0, &mut path);
    print!(rt; "find ")?;
    rt.write_all(word)?;
    if word.get(n + n) == Some(&b':') {
        let m = bytes_from(word, n + n + 1, &mut name);
        show_value(rt, store, state, &path[..n], &name[..m])?;
    } else {
        show_node(rt, store, state, &path[..n])?;
    }
    println!(rt)
}

// One for each word, with a space before each.
pub fn show_finds(rt: &impl Print, store: &[u8], state: State, words: &[u8]) -> io::Result<()> {
    for word in words.split(|c| *c == b' ').skip(1) {
        show_find(rt, store, state, word)?;
    }
    Ok(())
}

// Every node's row, its parent and its count of properties; the rows behind them must be zero.
pub fn show_rows(rt: &impl Print, state: State) -> io::Result<()> {
    let nodes = state.tree.nodes;
    let mut parents = [OLD; NODES_MOST];
    let mut counts = [OLD; NODES_MOST];
    let table = node_table_in(state, &mut parents, &mut counts);
    print!(rt; "rows")?;
    if table.is_err() {
        print!(rt; " refused")?;
    }
    for (parent, count) in parents.iter().zip(counts.iter()).take(nodes) {
        print!(rt; " {parent}:{count}")?;
    }
    let mut behind = parents.iter().skip(nodes).chain(counts.iter().skip(nodes));
    if !behind.all(|word| *word == 0) {
        print!(rt; " and rows that are not zero")?;
    }
    println!(rt)
}

fn show_kept_column(rt: &impl Print, rows: &[u32]) -> io::Result<()> {
    if rows.iter().all(|word| *word == OLD) {
        print!(rt; " kept")?;
    }
    Ok(())
}

// What a table is answered, with whether its rows are as they were.
fn show_table<S: Searched>(
    rt: &impl Print,
    of: S,
    parents: &mut [u32],
    counts: &mut [u32],
) -> io::Result<()> {
    let table = of.table(&mut *parents, &mut *counts);
    print!(rt; " {}", refusal_in(table))?;
    show_kept_column(rt, &*parents)?;
    show_kept_column(rt, &*counts)
}

// What its calls say of a damaged one: 7.
fn show_damaged<S: Searched>(rt: &impl Print, store: &[u8], bad: S) -> io::Result<()> {
    let mut parents = [OLD; NODES_MOST];
    let mut counts = [OLD; NODES_MOST];
    print!(rt; "{}lookups", S::OF)?;
    show_node(rt, store, bad, b"/x")?;
    show_value(rt, store, bad, b"/", b"x")?;
    show_table(rt, bad, &mut parents, &mut counts)?;
    println!(rt)
}

// The tree's say 7 where the damage is in the tree, the state's wherever it is.
pub fn show_damaged_finds(rt: &impl Print, store: &[u8], state: State) -> io::Result<()> {
    show_damaged(rt, store, state.tree)?;
    show_damaged(rt, store, state)
}

fn show_both<S: Searched>(rt: &impl Print, store: &[u8], of: S, path: &[u8]) -> io::Result<()> {
    show_node(rt, store, of, path)?;
    show_value(rt, store, of, path, b"")
}

// The order of a lookup's tests: 6, 7, 29, 30, each with all behind it wrong too. A bad one is asked for some paths before a whole one is.
fn show_find_order<S: Searched>(
    rt: &impl Print,
    whole: S,
    bad: S,
    paths: &[&[u8]],
) -> io::Result<()> {
    let long = [0u8; 16385];
    print!(rt; "{}lookup order", S::OF)?;
    show_both(rt, &long[..16383], bad, b"")?;
    show_both(rt, &long, bad, b"x")?;
    for path in paths {
        show_both(rt, &long[..16384], bad, *path)?;
    }
    show_both(rt, &long[..16384], whole, b"/x/")?;
    show_both(rt, &long[..16384], whole, b"/x")?;
    println!(rt)
}

// Of the table's: 6 for either column, one row short or long, and then 7.
fn show_table_order<S: Searched>(rt: &impl Print, bad: S) -> io::Result<()> {
    let mut short = [OLD; 31];
    let mut right = [OLD; 32];
    let mut other = [OLD; 32];
    let mut long = [OLD; 33];
    print!(rt; "{}table order", S::OF)?;
    show_table(rt, bad, &mut short, &mut right)?;
    show_table(rt, bad, &mut other, &mut long)?;
    show_table(rt, bad, &mut right, &mut other)?;
    println!(rt)
}

// The tree's calls with a damage in the tree, the state's with one elsewhere, of which the tree knows nothing: 65 cells on the data stack.
pub fn show_lookup_orders(rt: &impl Print, state: State) -> io::Result<()> {
    let bad = damaged(5, state);
    show_find_order(rt, state.tree, bad.tree, &[b"//".as_slice()])?;
    show_table_order(rt, bad.tree)?;
    let high = damaged(0, state);
    show_find_order(rt, state, high, &[b"//".as_slice(), b"/x".as_slice()])?;
    show_table_order(rt, high)
}
