// Every token that crate reckon leaves, by its family. These functions are lent every array of a state but the return stack's, since a
// token may change any of them: so they have one parameter for each, in the order of the state's own.
ghost use Rattle.std.specs.Prelude.{◌≡◌, ◌≤◌, length};
ghost use Rattle.state.specs.Joints.Hot.{Cold};
ghost use Rattle.acts.specs.Joints.Acts.{Fit, GlanceSeen, Comes, ActsKept, every_on, Unread, why_in};
ghost use Rattle.rom.specs.Refusal.{refusal_number};
ghost use Rattle.rom.specs.Sizes.{numbers_most};

use crate::acted::{Acted, refuse, with_tail};
use crate::define::define_number;
use crate::encode::{encode_int, encode_string, join_arrays};
use crate::flow::{end_program, leave_body, quote, widen_offsets};
use crate::memory_tokens::{fetch_from, store_to};
use crate::nodes::{close_node, open_node};
use crate::numbers::{assign_value, enter};
use crate::properties::{put_named, put_titled};
use rom::sizes::{DATA_MOST, FRAMES_MOST, NODES_MOST, NUMBERS_MOST, PROPERTIES_MOST};
use rom::{Refusal, byte};
use state::Core;
use tokens::programs::PROGRAMS_MOST;
use tokens::{Glance, family, family_of, glance_at, out_of_place, read_at};
use tree::Tail;

// A token that was seen at the place and may stand there.
fn act(
    rom: &[u8],
    work: &mut [u8],
    store: &mut [u8],
    cells: &mut [u32; DATA_MOST],
    places: &mut [u32; FRAMES_MOST],
    wides: &mut [bool; FRAMES_MOST],
    bases: &mut [usize; FRAMES_MOST],
    names: &mut [u32; NUMBERS_MOST],
    kinds: &mut [u8; NUMBERS_MOST],
    values: &mut [u32; NUMBERS_MOST],
    ways: &mut [bool; NUMBERS_MOST],
    parents: &mut [u32; NODES_MOST],
    owners: &mut [u32; PROPERTIES_MOST],
    titles: &mut [u32; PROPERTIES_MOST],
    sizes: &mut [u32; PROPERTIES_MOST],
    slots: &mut [u16; PROGRAMS_MOST],
    known: &mut [u8; PROGRAMS_MOST],
    core: Core,
    tail: Tail,
    seen: Glance,
) -> Acted
    requires { Fit rom.now core × GlanceSeen rom.now core seen × Cold rom.now core.place × (length names.old ≡ numbers_most)
        × (length kinds.old ≡ numbers_most)
        × ActsKept slots.old known.old names.old kinds.old store.old titles.old sizes.old core tail }
    ensures { Comes rom.now
        (every_on cells.old places.old wides.old bases.old names.old
        kinds.old values.old ways.old
        parents.old owners.old titles.old sizes.old)
        work.old store.old core result
        (every_on cells.new places.new wides.new bases.new names.new kinds.new
        values.new ways.new
        parents.new owners.new titles.new sizes.new)
        work.new store.new
        × ActsKept slots.new known.new names.new kinds.new store.new titles.new
        sizes.new result.core result.tail }
{
    let number = seen.number;
    let next = seen.next;
    let work_of = family_of(seen.code);
    match work_of {
        family::FINISH => with_tail(end_program(core, next), tail),
        family::TEXT => {
            let start = core.place + 2;
            with_tail(quote(cells, core, start, next - start, next), tail)
        }
        family::WIDEN => with_tail(widen_offsets(core, next), tail),
        family::LEAVE => with_tail(leave_body(&*places, &*wides, &*bases, core, next), tail),
        family::FETCH => with_tail(fetch_from(rom, &*work, cells, core, number, next), tail),
        family::STORE => with_tail(store_to(work, &*cells, core, number, next), tail),
        family::DEFINE => with_tail(
            define_number(
                rom, work, &*cells, names, kinds, values, ways, slots, known, core, number,
                seen.kind, next,
            ),
            tail,
        ),
        family::ASSIGN => with_tail(
            assign_value(
                &*cells, &*names, &*kinds, values, &*slots, core, number, next,
            ),
            tail,
        ),
        family::CALL => with_tail(
            enter(
                cells, places, wides, bases, &*names, &*kinds, &*values, &*ways, &*slots, core,
                number, next,
            ),
            tail,
        ),
        family::ENCODE_INT => with_tail(encode_int(work, cells, core, next), tail),
        family::ENCODE_STRING => with_tail(encode_string(rom, work, cells, core, next), tail),
        family::JOIN => with_tail(join_arrays(cells, core, next), tail),
        family::PROPERTY => put_named(
            rom, &*work, store, &*cells, owners, titles, sizes, core, tail, next,
        ),
        family::TITLED => put_titled(
            rom, &*work, store, &*cells, owners, titles, sizes, core, tail, number, next,
        ),
        family::NEW_DEVICE => with_tail(open_node(parents, core, next), tail),
        family::FINISH_DEVICE => with_tail(close_node(&*parents, core, next), tail),
        // no other family is seen here
        _ => refuse(core, tail, Refusal::Unlisted),
    }
}

// Why no token can be read at the place, where none can: 10, 18 or 11.
fn why_at(rom: &[u8], core: Core) -> Refusal
    requires { Unread rom.now core }
    ensures { refusal_number result ≡ why_in rom.now core }
{
    match read_at(rom, core.length, core.wide, 0 < core.frames, core.place) {
        Err(why) => why,
        // no token is read here
        Ok(_) => Refusal::Unlisted,
    }
}

// The token at the place by a glance at it.
fn by_glance(
    rom: &[u8],
    work: &mut [u8],
    store: &mut [u8],
    cells: &mut [u32; DATA_MOST],
    places: &mut [u32; FRAMES_MOST],
    wides: &mut [bool; FRAMES_MOST],
    bases: &mut [usize; FRAMES_MOST],
    names: &mut [u32; NUMBERS_MOST],
    kinds: &mut [u8; NUMBERS_MOST],
    values: &mut [u32; NUMBERS_MOST],
    ways: &mut [bool; NUMBERS_MOST],
    parents: &mut [u32; NODES_MOST],
    owners: &mut [u32; PROPERTIES_MOST],
    titles: &mut [u32; PROPERTIES_MOST],
    sizes: &mut [u32; PROPERTIES_MOST],
    slots: &mut [u16; PROGRAMS_MOST],
    known: &mut [u8; PROGRAMS_MOST],
    core: Core,
    tail: Tail,
) -> Acted
    requires { Fit rom.now core × Cold rom.now core.place × (length names.old ≡ numbers_most) × (length kinds.old ≡ numbers_most)
        × ActsKept slots.old known.old names.old kinds.old store.old titles.old sizes.old core tail }
    ensures { Comes rom.now
        (every_on cells.old places.old wides.old bases.old names.old
        kinds.old values.old ways.old
        parents.old owners.old titles.old sizes.old)
        work.old store.old core result
        (every_on cells.new places.new wides.new bases.new names.new kinds.new
        values.new ways.new
        parents.new owners.new titles.new sizes.new)
        work.new store.new
        × ActsKept slots.new known.new names.new kinds.new store.new titles.new
        sizes.new result.core result.tail }
{
    let seen = glance_at(rom, core.length, core.wide, core.place);
    if seen.code == 0 {
        return refuse(core, tail, why_at(rom, core));
    }
    if out_of_place(seen.code, 0 < core.frames) {
        return refuse(core, tail, Refusal::Misplaced);
    }
    act(
        rom, work, store, cells, places, wides, bases, names, kinds, values, ways, parents, owners,
        titles, sizes, slots, known, core, tail, seen,
    )
}

// The token at the place, where it is not one of crate reckon's. What calls and loops over memory are made of is known by its first byte
// and does not pay for a glance: program numbers, b(;), @, c@, !, c!.
pub fn cold_token(
    rom: &[u8],
    work: &mut [u8],
    store: &mut [u8],
    cells: &mut [u32; DATA_MOST],
    places: &mut [u32; FRAMES_MOST],
    wides: &mut [bool; FRAMES_MOST],
    bases: &mut [usize; FRAMES_MOST],
    names: &mut [u32; NUMBERS_MOST],
    kinds: &mut [u8; NUMBERS_MOST],
    values: &mut [u32; NUMBERS_MOST],
    ways: &mut [bool; NUMBERS_MOST],
    parents: &mut [u32; NODES_MOST],
    owners: &mut [u32; PROPERTIES_MOST],
    titles: &mut [u32; PROPERTIES_MOST],
    sizes: &mut [u32; PROPERTIES_MOST],
    slots: &mut [u16; PROGRAMS_MOST],
    known: &mut [u8; PROGRAMS_MOST],
    core: Core,
    tail: Tail,
) -> Acted
    requires { Fit rom.now core × Cold rom.now core.place × (length names.old ≡ numbers_most) × (length kinds.old ≡ numbers_most)
        × ActsKept slots.old known.old names.old kinds.old store.old titles.old sizes.old core tail }
    ensures { Comes rom.now
        (every_on cells.old places.old wides.old bases.old names.old
        kinds.old values.old ways.old
        parents.old owners.old titles.old sizes.old)
        work.old store.old core result
        (every_on cells.new places.new wides.new bases.new names.new kinds.new
        values.new ways.new
        parents.new owners.new titles.new sizes.new)
        work.new store.new
        × ActsKept slots.new known.new names.new kinds.new store.new titles.new
        sizes.new result.core result.tail }
{
    let place = core.place;
    if core.length <= place {
        return refuse(core, tail, why_at(rom, core));
    }
    let at = place as usize;
    let first = byte(rom, at);
    match first {
        0x08..=0x0F => {
            if core.length < place + 2 {
                return refuse(core, tail, why_at(rom, core));
            }
            let number = u32::from(first) * 256 + u32::from(byte(rom, at + 1));
            with_tail(
                enter(
                    cells,
                    places,
                    wides,
                    bases,
                    &*names,
                    &*kinds,
                    &*values,
                    &*ways,
                    &*slots,
                    core,
                    number,
                    place + 2,
                ),
                tail,
            )
        }
        0x6D => with_tail(fetch_from(rom, &*work, cells, core, 0x6D, place + 1), tail),
        0x71 => with_tail(fetch_from(rom, &*work, cells, core, 0x71, place + 1), tail),
        0x72 => with_tail(store_to(work, &*cells, core, 0x72, place + 1), tail),
        0x75 => with_tail(store_to(work, &*cells, core, 0x75, place + 1), tail),
        0xC2 => {
            if core.frames == 0 {
                return refuse(core, tail, Refusal::Misplaced);
            }
            with_tail(
                leave_body(&*places, &*wides, &*bases, core, place + 1),
                tail,
            )
        }
        _ => by_glance(
            rom, work, store, cells, places, wides, bases, names, kinds, values, ways, parents,
            owners, titles, sizes, slots, known, core, tail,
        ),
    }
}
