// From one token that must be met exactly once to the next.
ghost use Rattle.std.specs.Prelude.{◌≡◌, false, ◌&&◌, ◌||◌, ◌≢◌, eqb, ltb, suc, ◌≤◌, ◌<◌, ◌+◌, ◌-◌, set};
ghost use Rattle.tokens.specs.Body.{kind_of};
ghost use Rattle.tokens.specs.Joints.Quick.{Codes};
ghost use Rattle.rom.specs.Sizes.{rom_most, numbers_most};
ghost use Rattle.tokens.specs.Table.{last_program};
ghost use Rattle.tokens.specs.Family.{widen};
ghost use Rattle.screen.specs.Effect.{is_a, value_sum};
ghost use Rattle.screen.specs.Laws.Found.Sums.{packed_sum};
ghost use Rattle.screen.specs.Laws.Found.Model.{slot, apart_of, outside_text, stood_on as model_moved};
ghost use Rattle.screen.specs.Laws.Found.Model.{with_count, board, new_node, closed_node};
ghost use Rattle.screen.specs.Laws.Found.Model.{colon_of, define_of, advance_of, rounds_of};
ghost use Rattle.screen.specs.Laws.Code.Body.{Bounded};
ghost use Rattle.screen.specs.Laws.Code.Walk.{WalkTables};
ghost use Rattle.screen.specs.Laws.Code.Round.{EndBy, PassIs, StandFits, DefinesWithin, NodeIs, TurnIs, RoundIs, AfterIs, PassedIs};

use crate::body::{Survey, places, shift, sum_of, survey_body};
use crate::cell::{back_in, cell_of, height_in};
use crate::effect::{Sum, fixes, is_a, pack};
use crate::limits::{NODES_MOST, NUMBERS_MOST, ROM_MOST};
use crate::tables::{item_at, set_kind, set_sum};
use crate::walking::{Text, walk_from};
use tokens::programs::PROGRAMS_MOST;
use tokens::{
    Glance, Token, family, glance_from, kind_in, kind_of, new_number, out_of_place, quick_at,
    read_at, takes_here,
};

// Where a round starts, with which heights, and what is in force there.
#[derive(Clone, Copy)]
pub struct Stand {
    pub start: u32,
    pub cell: u32,
    pub wide: bool,
    pub children: u32,
    pub nodes: u32,
    pub count: u32,
}

// What comes behind a round: three outcomes by their names, plainer than an Option within an Option.
#[derive(Clone, Copy)]
pub enum After {
    Fails,
    Ends,
    Goes(Stand),
}

fn outside(length: u32, stand: Stand) -> Text
    ensures { result ≡ outside_text length stand }
{
    Text {
        length,
        wide: stand.wide,
        within: false,
        low: stand.start,
        children: stand.children,
    }
}

// Where the token of a place ends, by a glance at it, if it may stand there: one that ends a round is the highest.
fn end_seen(far: u32, place: u32, glance: Glance) -> Option<u32>
    requires { place < 0x4000_0000 }
    ensures { EndBy far place glance result }
{
    if glance.code == 0 || out_of_place(glance.code, false) {
        return Some(place + 1);
    }
    if place != far && fixes(glance.code) {
        return None;
    }
    Some(glance.next)
}

// A place of a round: no token may start before the last one ends, and one that ends a round is the highest. Where the next may start.
fn passed(
    codes: &[u32; 256],
    rom: &[u8],
    text: Text,
    far: u32,
    cell: u32,
    place: u32,
    free: u32,
) -> Option<u32>
    requires { Codes codes.now × (place < 0x4000_0000) }
    ensures { PassIs rom.now text far cell place free result }
{
    if cell == 0 {
        return Some(free);
    }
    if place < free {
        return None;
    }
    if text.length <= place {
        return Some(place + 1);
    }
    let quick = quick_at(codes, rom, text.length, place);
    if quick.next != 0 {
        return Some(quick.next);
    }
    let glance = glance_from(rom, text.length, text.wide, place, quick.first, quick.code);
    end_seen(far, place, glance)
}

// No two tokens of a round overlap, and none but the highest ends it.
fn apart(codes: &[u32; 256], rom: &[u8], text: Text, seen: &[u32], far: u32, start: u32) -> bool
    requires { Codes codes.now × (far < 0x4000_0000) }
    ensures { result ≡ apart_of rom.now text seen.now far (far + 1 - start) start 0 }
{
    let mut free = start;
    for place in start..far + 1 {
        let cell = item_at(seen, place, 0);
        let Some(end) = passed(codes, rom, text, far, cell, place, free) else {
            return false;
        };
        free = end;
    }
    true
}

// The walk of a round, and its overlaps: the highest place that it came to, where it is good.
fn walk_round(
    codes: &[u32; 256],
    rom: &[u8],
    length: u32,
    kinds: &[u8; PROGRAMS_MOST],
    sums: &[u64],
    seen: &mut [u32],
    work: &mut [u16],
    stand: Stand,
) -> Option<u32>
    requires { Codes codes.now × WalkTables length seen.old work.old × StandFits stand × (stand.cell ≤ 0x1000_0000)
        × Bounded 0x1000_0000 seen.old }
    ensures { RoundIs rom.now length (board seen.old kinds.now sums.now stand) result
        seen.new }
{
    let text = outside(length, stand);
    let walk = walk_from(
        codes,
        rom,
        text,
        kinds,
        sums,
        &mut *seen,
        &mut *work,
        stand.start,
        stand.cell,
    )?;
    if !apart(codes, rom, text, &*seen, walk.far, stand.start) {
        return None;
    }
    Some(walk.far)
}

fn widened(token: Token, wide: bool) -> bool
    ensures { result ≡ (is_a widen token || wide) }
{
    is_a(family::WIDEN, token) || wide
}

// Behind the token that ended a round.
fn moved(stand: Stand, token: Token, cell: u32) -> Stand
    ensures { result ≡ model_moved stand token cell }
{
    let height = height_in(cell).saturating_sub(takes_here(token));
    Stand {
        start: token.next,
        cell: cell_of(height, back_in(cell)),
        wide: widened(token, stand.wide),
        ..stand
    }
}

// One number more.
fn counted(stand: Stand, start: u32) -> Stand
    requires { stand.count < numbers_most }
    ensures { result ≡ with_count stand start (suc stand.count) }
{
    Stand {
        start,
        count: stand.count + 1,
        ..stand
    }
}

// new-device, and the stand that it leaves where it may stand, as of each token that ends a round.
fn new_node(stand: Stand) -> Option<Stand>
    requires { StandFits stand }
    ensures { NodeIs (λ b. new_node b stand) stand result }
{
    if NODES_MOST <= stand.nodes {
        return None;
    }
    Some(Stand {
        children: stand.children + 1,
        nodes: stand.nodes + 1,
        ..stand
    })
}

// finish-device
fn close_node(stand: Stand) -> Option<Stand>
    requires { StandFits stand }
    ensures { NodeIs (λ b. closed_node b stand) stand result }
{
    if stand.children == 0 {
        return None;
    }
    Some(Stand {
        children: stand.children - 1,
        ..stand
    })
}

// A number goes into the tables, with its kind and its sum.
fn enter(kinds: &mut [u8; PROGRAMS_MOST], sums: &mut [u64], number: u32, kind: u8, sum: Sum)
    requires { (number ≤ last_program) × (sum.need < 65536) }
    ensures { (kinds.new ≡ set kinds.old (slot number) kind)
        × (sums.new ≡ set sums.old (slot number) (packed_sum sum)) }
{
    set_kind(kinds, number, kind);
    set_sum(sums, number, pack(sum));
}

// b(:), whose number is new.
fn colon(
    codes: &[u32; 256],
    rom: &[u8],
    length: u32,
    seen: &mut [u32],
    work: &mut [u16],
    kinds: &mut [u8; PROGRAMS_MOST],
    sums: &mut [u64],
    stand: Stand,
    number: u32,
    entry: u32,
) -> Option<Stand>
    requires { Codes codes.now × WalkTables length seen.old work.old × (entry ≢ 0) × (entry ≤ length) × (number ≤ last_program)
        × (stand.count < numbers_most) × StandFits stand × Bounded 0x1000_0000 seen.old }
    ensures { (st : Stand) → TurnIs (colon_of rom.now length (board seen.old kinds.old sums.old st) stand number entry)
        seen.old stand.cell result seen.new kinds.new sums.new }
{
    let Survey { end, tally } = survey_body(
        codes, rom, length, &*kinds, &*sums, &mut *seen, &mut *work, stand, entry,
    )?;
    shift(&mut *seen, tally.need, entry, places(entry, end));
    enter(kinds, sums, number, 0xB7, sum_of(tally));
    Some(counted(stand, end + 1))
}

// A number is new that was not defined, where there is room for one more.
fn is_new(kinds: &[u8; PROGRAMS_MOST], stand: Stand, number: u32) -> bool
    ensures { result ≡ (eqb (kind_of kinds.now number) 0 && ltb stand.count numbers_most) }
{
    kind_of(kinds, number) == 0 && stand.count < NUMBERS_MOST
}

// A value, a variable or a constant gives one cell.
fn value_sum() -> Sum
    ensures { result ≡ value_sum }
{
    Sum {
        need: 0,
        out: 1,
        peak: 1,
        return_peak: 0,
        frames: 0,
    }
}

// A defining token, whose number must be new.
fn define(
    codes: &[u32; 256],
    rom: &[u8],
    length: u32,
    seen: &mut [u32],
    work: &mut [u16],
    kinds: &mut [u8; PROGRAMS_MOST],
    sums: &mut [u64],
    stand: Stand,
    token: Token,
) -> Option<Stand>
    requires { Codes codes.now × WalkTables length seen.old work.old × DefinesWithin length token × StandFits stand
        × Bounded 0x1000_0000 seen.old }
    ensures { (st : Stand) → st.count ≡ stand.count → TurnIs (define_of rom.now length (board seen.old
        kinds.old sums.old st) stand token) seen.old stand.cell result seen.new kinds.new sums.new }
{
    let operand = token.operand;
    let number = new_number(operand);
    let kind = kind_in(operand);
    if !is_new(&*kinds, stand, number) {
        return None;
    }
    if kind == 0xB7 {
        return colon(
            codes, rom, length, seen, work, kinds, sums, stand, number, token.next,
        );
    }
    enter(kinds, sums, number, kind as u8, value_sum());
    Some(counted(stand, token.next))
}

// The token that ended a round is carried out.
fn advance(
    codes: &[u32; 256],
    rom: &[u8],
    length: u32,
    seen: &mut [u32],
    work: &mut [u16],
    kinds: &mut [u8; PROGRAMS_MOST],
    sums: &mut [u64],
    stand: Stand,
    cell: u32,
    token: Token,
) -> Option<Stand>
    requires { Codes codes.now × WalkTables length seen.old work.old × DefinesWithin length token × StandFits stand
        × Bounded 0x1000_0000 seen.old }
    ensures { TurnIs (advance_of rom.now length (board seen.old kinds.old sums.old stand) cell token)
        seen.old (cell + 1) result seen.new kinds.new sums.new }
{
    let s = moved(stand, token, cell);
    if is_a(family::DEFINE, token) {
        return define(codes, rom, length, seen, work, kinds, sums, s, token);
    }
    if is_a(family::NEW_DEVICE, token) {
        return new_node(s);
    }
    if is_a(family::WIDEN, token) {
        return Some(s);
    }
    close_node(s)
}

// What the highest token of a round makes of the rest.
fn next_round(
    codes: &[u32; 256],
    rom: &[u8],
    length: u32,
    seen: &mut [u32],
    work: &mut [u16],
    kinds: &mut [u8; PROGRAMS_MOST],
    sums: &mut [u64],
    stand: Stand,
    far: u32,
) -> After
    requires { Codes codes.now × WalkTables length seen.old work.old × StandFits stand × Bounded 0x1000_0000 seen.old }
    ensures { AfterIs rom.now length seen.old kinds.old sums.old stand far seen.new kinds.new sums.new result }
{
    match read_at(rom, length, stand.wide, false, far) {
        Err(_) => After::Fails,
        Ok(token) => {
            if !fixes(token.code) {
                return After::Ends;
            }
            let cell = item_at(&*seen, far, 0);
            match advance(
                codes, rom, length, seen, work, kinds, sums, stand, cell, token,
            ) {
                Some(next) => After::Goes(next),
                None => After::Fails,
            }
        }
    }
}

// All rounds from the first on. Each starts behind the one before, so that there are turns enough.
pub fn all_rounds(
    codes: &[u32; 256],
    rom: &[u8],
    length: u32,
    seen: &mut [u32],
    work: &mut [u16],
    kinds: &mut [u8; PROGRAMS_MOST],
    sums: &mut [u64],
    first: Stand,
) -> bool
    requires { Codes codes.now × WalkTables length seen.old work.old × StandFits first × (first.cell ≤ 65536)
        × Bounded 65536 seen.old }
    ensures { PassedIs (rounds_of rom.now length rom_most (board seen.old kinds.old sums.old first)) result seen.new }
{
    let mut stand = first;
    for _ in 0..ROM_MOST {
        let Some(far) = walk_round(
            codes, rom, length, &*kinds, &*sums, &mut *seen, &mut *work, stand,
        ) else {
            return false;
        };
        match next_round(
            codes,
            rom,
            length,
            &mut *seen,
            &mut *work,
            &mut *kinds,
            &mut *sums,
            stand,
            far,
        ) {
            After::Fails => return false,
            After::Ends => return true,
            After::Goes(next) => stand = next,
        }
    }
    false
}
