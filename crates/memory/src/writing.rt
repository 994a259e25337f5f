// Bytes written into memory. What lies past the end is left out, so that every call is total.
ghost use Rattle.std.specs.Prelude.{◌≡◌, ◌+◌, ◌≤◌, length, set};
ghost use Rattle.memory.specs.Writing.{written_of, bytes_of, moved_of, cleared_of};

use std::cmp::{max, min};

pub fn put(memory: &mut [u8], at: usize, byte: u8)
    ensures { memory.new ≡ set memory.old at byte }
{
    if at < memory.len() {
        memory[at] = byte;
    }
}

// A cell's four bytes, big-endian. Byte by byte: a copy_in of them cost the calls' dumps 4 in 100 instructions more.
pub fn write_cell(memory: &mut [u8], at: u32, cell: u32)
    ensures { memory.new ≡ written_of memory.old at (bytes_of cell) }
{
    let k = at as usize;
    let [a, b, c, d] = cell.to_be_bytes();
    put(memory, k, a);
    put(memory, k + 1, b);
    put(memory, k + 2, c);
    put(memory, k + 3, d);
}

// Bytes that have room, by a loop: the slice's copy_from_slice calls memmove, and a C program that brings memcpy and memset alone could not
// link it.
fn lay(memory: &mut [u8], at: usize, bytes: &[u8])
    requires { at + length bytes.now ≤ length memory.old }
    ensures { memory.new ≡ written_of memory.old at bytes.now }
{
    for i in 0..bytes.len() {
        memory[at + i] = bytes[i];
    }
}

// Another memory's bytes.
pub fn copy_in(memory: &mut [u8], at: u32, bytes: &[u8])
    ensures { memory.new ≡ written_of memory.old at bytes.now }
{
    let k = at as usize;
    if memory.len() < k {
        return;
    }
    let n = min(bytes.len(), memory.len() - k);
    lay(memory, k, &bytes[..n]);
}

// Towards the start, the first byte first, so that none is written over before it is read.
fn move_down(memory: &mut [u8], start: usize, to: usize, count: usize)
    requires { (to ≤ start) × (start + count ≤ length memory.old) }
    ensures { memory.new ≡ moved_of memory.old start to count }
{
    for i in 0..count {
        memory[to + i] = memory[start + i];
    }
}

// Towards the end, the last byte first.
fn move_up(memory: &mut [u8], start: usize, to: usize, count: usize)
    requires { (start ≤ to) × (to + count ≤ length memory.old) }
    ensures { memory.new ≡ moved_of memory.old start to count }
{
    for i in (0..count).rev() {
        memory[to + i] = memory[start + i];
    }
}

// A memory's own bytes, as they were before, also where the two parts overlap. Each way is a function by itself, so that to take the wrong
// one is a slip that the contract is seen to refuse (must-fail/always_down).
pub fn copy_within(memory: &mut [u8], start: u32, to: u32, count: u32)
    ensures { memory.new ≡ moved_of memory.old start to count }
{
    let from = start as usize;
    let goal = to as usize;
    let n = min(count as usize, memory.len().saturating_sub(max(from, goal)));
    if n == 0 {
        return;
    }
    if goal <= from {
        move_down(memory, from, goal, n);
    } else {
        move_up(memory, from, goal, n);
    }
}

// Zeros from a place on to the end.
pub fn clear_from(memory: &mut [u8], at: u32)
    ensures { memory.new ≡ cleared_of memory.old at }
{
    let k = min(at as usize, memory.len());
    memory[k..].fill(0);
}
