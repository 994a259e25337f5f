// Reading a dump: the bytes of a file, or of standard input where its name is a dash; and its FCode bytes, which lines are made of.
ghost use Rattle.std.specs.Prelude.{◌≡◌, ◌≤◌, IfOk, IfSome, IsSome, MatchOption, MatchResult, length, take};

use crate::print::{complain, fail, up_to};
use rom::sizes::ROM_MOST;
use rom::{fcode_count, is_spread, lay_fcode, spread_of};
use std::fs::File;
use std::io::Read;
use std::{io, str};

// One byte more than a ROM may have, so that a longer file is seen to be one.
pub const SPACE: usize = ROM_MOST + 1;

// Room for the FCode bytes of a spread ROM: two apart or more, they are half as many as its bytes.
pub const FCODE_SPACE: usize = ROM_MOST / 2;

// Reads until a space is full or what is read ends, and tells how many bytes it put at the start of the space.
fn read_full<R: Read>(from: &mut R, space: &mut [u8]) -> io::Result<usize>
    ensures { IfOk result (λ n. n ≤ length space.new) }
{
    let mut done = 0;
    // a while: each read says how far the next is, no count
    while done < space.len() {
        let n = from.read(&mut space[done..])?;
        if n == 0 {
            break;
        }
        done += n;
    }
    Ok(done)
}

// A name as a path that can be opened, which is a text.
pub fn path_of(name: &[u8]) -> io::Result<&str> {
    str::from_utf8(name).map_err(|_| io::Error::from(io::ErrorKind::InvalidFilename))
}

fn is_dash(name: &[u8]) -> bool {
    matches!(name, b"-")
}

// The path of a file is its name, unless there is a link to it.
fn read_file(rt: &HostRuntime, name: &[u8], link: &[u8], space: &mut [u8]) -> io::Result<usize>
    ensures { IfOk result (λ n. n ≤ length space.new) }
{
    if is_dash(name) {
        return read_full(&mut rt.stdin(), space);
    }
    let path = if link.is_empty() { name } else { link };
    read_full(&mut File::open(rt, path_of(path)?)?, space)
}

// A file of no bytes or of too many is a ROM that is refused; a sentence says why.
fn remark(rt: &HostRuntime, name: &[u8], size: usize) {
    if size == 0 {
        complain(rt, name, b": empty\n");
    }
    if ROM_MOST < size {
        complain(rt, name, b": over 65,536 bytes\n");
    }
}

// Of a space so many bytes as were read; none where they could not be read, and a sentence says why.
fn dump_read<'a>(
    rt: &HostRuntime,
    name: &[u8],
    read: io::Result<usize>,
    space: &'a [u8],
) -> Option<&'a [u8]>
    ensures { MatchResult read (λ n. MatchOption result ⊥ (λ dump. dump.now ≡ take n space.now)) (λ _. ¬ IsSome result) }
{
    match read {
        Ok(size) => {
            remark(rt, name, size);
            Some(up_to(space, size))
        }
        Err(why) => {
            fail(rt, name, why);
            None
        }
    }
}

// The bytes of a dump, put at the start of a space; none where they cannot be read, and a sentence says why.
pub fn read_dump<'a>(
    rt: &HostRuntime,
    name: &[u8],
    link: &[u8],
    space: &'a mut [u8],
) -> Option<&'a [u8]>
    ensures { IfSome result (λ dump. length dump.now ≤ length space.old) }
{
    let said = if is_dash(name) {
        b"standard input"
    } else {
        name
    };
    let read = read_file(rt, name, link, &mut *space);
    dump_read(rt, said, read, space)
}

// The FCode bytes of a ROM: of a spread one laid in a room one behind the other, else its own, with nothing copied.
pub fn fcode_of<'a>(rom: &'a [u8], room: &'a mut [u8]) -> &'a [u8] {
    if !is_spread(rom) {
        return rom;
    }
    let spread = spread_of(rom);
    lay_fcode(rom, spread, &mut *room);
    up_to(room, fcode_count(rom, spread))
}
