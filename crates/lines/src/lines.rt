// The listing's lines, each written into a text from a place on; the place behind is given.
ghost use Rattle.std.specs.Prelude.{◌≤◌, ◌≡◌, eqb, length, []};
ghost use Rattle.cells.specs.Choice.{pick};
ghost use Rattle.tree.specs.Held.{held_of, live_of};
ghost use Rattle.lines.specs.Lines.{shown as lines_shown, node_line, property_line, line_for, own_lines, node_lines, steps_line};
ghost use Rattle.lines.specs.Lines.{refused_line, closing_line};
ghost use Rattle.lines.specs.Lines.{number_read, text_read, bytes_read, read_line};
ghost use Rattle.lines.specs.Wrote.{Wrote};
ghost use Rattle.rom.specs.Sizes.{nodes_most, properties_most};

use crate::digits::{decimal, hex};
use crate::printed::{is_text, quoted, text_of};
use crate::words::{letter, say};
use rom::word32;
use tree::Tree;

fn node_line(text: &mut [u8], at: usize, k: u32, parent: u32) -> usize
    ensures { Wrote text.old text.new at result (node_line k parent) }
{
    let at = say(text, at, b"node ");
    let at = decimal(text, at, k);
    let at = say(text, at, b" parent ");
    let at = decimal(text, at, parent);
    letter(text, at, b'\n')
}

// A value behind its name; an empty one shows nothing, not even the space.
pub fn shown(text: &mut [u8], at: usize, value: &[u8]) -> usize
    ensures { Wrote text.old text.new at result (lines_shown value.now) }
{
    if value.len() == 0 {
        return at;
    }
    let at = letter(text, at, b' ');
    hex(text, at, value)
}

fn property_line(text: &mut [u8], at: usize, name: &[u8], value: &[u8]) -> usize
    ensures { Wrote text.old text.new at result (property_line name.now value.now) }
{
    let at = say(text, at, name);
    let at = shown(text, at, value);
    letter(text, at, b'\n')
}

// The number of a value of four bytes.
fn number_read(text: &mut [u8], at: usize, value: &[u8]) -> usize
    ensures { Wrote text.old text.new at result (number_read value.now) }
{
    if value.len() != 4 {
        return at;
    }
    let at = letter(text, at, b' ');
    decimal(text, at, word32(value, 0))
}

fn text_read(text: &mut [u8], at: usize, value: &[u8]) -> usize
    ensures { Wrote text.old text.new at result (text_read value.now) }
{
    if !is_text(value) {
        return at;
    }
    quoted(text, at, text_of(value))
}

fn bytes_read(text: &mut [u8], at: usize, value: &[u8]) -> usize
    ensures { Wrote text.old text.new at result (bytes_read value.now) }
{
    if value.len() == 0 {
        return at;
    }
    let at = say(text, at, b" =");
    shown(text, at, value)
}

// A property's line for people.
fn read_line(text: &mut [u8], at: usize, name: &[u8], value: &[u8]) -> usize
    ensures { Wrote text.old text.new at result (read_line name.now value.now) }
{
    let at = say(text, at, b"  ");
    let at = say(text, at, name);
    let at = text_read(text, at, value);
    let at = number_read(text, at, value);
    let at = bytes_read(text, at, value);
    letter(text, at, b'\n')
}

// A property's line in either form where its owner is the node, else nothing.
fn own_line(
    text: &mut [u8],
    at: usize,
    people: bool,
    owner: u32,
    node: u32,
    name: &[u8],
    value: &[u8],
) -> usize
    ensures { Wrote text.old text.new at result
        (pick (eqb owner node) (line_for people name.now value.now) []) }
{
    if owner != node {
        return at;
    }
    if people {
        return read_line(text, at, name, value);
    }
    property_line(text, at, name, value)
}

// The properties of a node, in store order: a record's name and value stand behind those of the record before it.
pub fn own_lines(
    text: &mut [u8],
    at: usize,
    people: bool,
    store: &[u8],
    tree: Tree,
    node: u32,
) -> usize
    requires { (tree.held ≤ properties_most) × (live_of tree ≤ length store.now) }
    ensures { Wrote text.old text.new at result (own_lines people (held_of tree store.now) node) }
{
    let mut end = at;
    let mut name = 0;
    for i in 0..tree.held {
        let value = name + tree.name_sizes[i] as usize;
        let next = value + tree.value_sizes[i] as usize;
        end = own_line(
            text,
            end,
            people,
            tree.owners[i],
            node,
            &store[name..value],
            &store[value..next],
        );
        name = next;
    }
    end
}

pub fn node_lines(text: &mut [u8], at: usize, store: &[u8], tree: Tree) -> usize
    requires { (tree.nodes ≤ nodes_most) × (tree.held ≤ properties_most)
        × (live_of tree ≤ length store.now) }
    ensures { Wrote text.old text.new at result
        (node_lines tree (held_of tree store.now) tree.nodes 0) }
{
    let mut end = at;
    for k in 0..tree.nodes {
        let own = node_line(text, end, k as u32, tree.parents[k]);
        end = own_lines(text, own, false, store, tree, k as u32);
    }
    end
}

pub fn steps_line(text: &mut [u8], at: usize, steps: u32) -> usize
    ensures { Wrote text.old text.new at result (steps_line steps) }
{
    let at = say(text, at, b"steps ");
    let at = decimal(text, at, steps);
    letter(text, at, b'\n')
}

pub fn refused_line(text: &mut [u8], at: usize, number: u32) -> usize
    ensures { Wrote text.old text.new at result (refused_line number) }
{
    let at = say(text, at, b"refused ");
    let at = decimal(text, at, number);
    letter(text, at, b'\n')
}

// How a run ended: 0 is a finish.
pub fn closing_line(text: &mut [u8], at: usize, number: u32) -> usize
    ensures { Wrote text.old text.new at result (closing_line number) }
{
    if number == 0 {
        return say(text, at, b"done\n");
    }
    refused_line(text, at, number)
}
