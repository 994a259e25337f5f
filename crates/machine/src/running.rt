// A step and a run. Both test the state, take it apart once, carry tokens out in place, and put it together once.
ghost use Rattle.std.specs.Prelude.{◌≡◌, ◌≤◌, ◌<◌, min, max};
ghost use Rattle.rom.specs.Sizes.{rom_least};
ghost use Rattle.rom.specs.Spread.{view_of, fcode_of};
ghost use Rattle.state.specs.Answer.{answer_in, stepped_in, ran_in};
ghost use Rattle.state.specs.Scene.{scene, handed_back};
ghost use Rattle.state.specs.Step.{ready_of, step_of};
ghost use Rattle.state.specs.Run.{run_of, told_ran, ran_of};
ghost use Rattle.state.specs.Joints.Apart.{joined, arrays};
ghost use Rattle.state.specs.Laws.Sized.{Sized};
ghost use Rattle.acts.specs.Joints.Acts.{Ready};
ghost use Rattle.machine.specs.Joints.Cruised.{cruised_by, cruised_to, one_of};
ghost use Rattle.machine.specs.Joints.Rooms.{large_room, RoomFor, SpreadIs, Laying};

use acts::{cold_token, fill_tables};
use reckon::{Fared, fast};
use rom::sizes::{
    DATA_MOST, FRAMES_MOST, NODES_MOST, NUMBERS_MOST, PROPERTIES_MOST, RETURN_MOST, ROM_LEAST,
    ROM_MOST, STORE_SIZE, WORK_SIZE,
};
use rom::{Refusal, Spread, fcode_count, lay_fcode, spread_of, wrong_length, wrong_rom};
use state::{
    Answer, Back, Calls, Core, Numbers, Ran, Stack, State, Stepped, Told, core_of, going, is_whole,
};
use tokens::programs::PROGRAMS_MOST;
use tree::{Tree, tail_of};

// Rooms for the FCode bytes of a spread ROM: the largest has as many as there can be.
const SMALL_ROOM: usize = 512;

const MIDDLE_ROOM: usize = 4096;

const LARGE_ROOM: usize = ROM_MOST / 2;

// How a run ended, of a state that is taken apart.
#[derive(Clone, Copy)]
pub struct Cruised {
    pub answer: Answer,
    pub count: u32,
    pub core: Core,
}

// What is known before a token is looked at: 6, 1, 7, 4, or that the state is finished.
#[tactic(auto, unfolding(state::specs::Step::ready_of))]
fn ready(fcode: &[u8], work: &[u8], store: &[u8], st: State) -> Answer
    ensures { answer_in result ≡ ready_of (scene fcode.now work.now store.now st) }
{
    if work.len() != WORK_SIZE || store.len() != STORE_SIZE {
        return Answer::Refused(Refusal::WrongSize);
    }
    if wrong_rom(fcode, Spread::One) {
        return Answer::Refused(Refusal::WrongRom);
    }
    if !is_whole(st) {
        return Answer::Refused(Refusal::Damaged);
    }
    if wrong_length(fcode, Spread::One, st.length) {
        return Answer::Refused(Refusal::WrongLength);
    }
    if st.finished {
        Answer::Finished
    } else {
        Answer::Going
    }
}

fn halted(answer: Answer, count: u32, core: Core) -> Cruised
    ensures { result ≡ cruised_by answer count core }
{
    Cruised {
        answer,
        count,
        core,
    }
}

// The tokens of a state that is ready and taken apart, over FCode bytes that lie one behind the other, until one finishes or is refused or
// the budget is spent. It is lent every array of the state, and so has one parameter for each, in the state's order. The state is not
// tested again, but for one thing: a finish-device can make the root active where a state was offered whose node 2 or above is a child of
// the root, and that is 7.
fn cruise(
    rom: &[u8],
    work: &mut [u8],
    store: &mut [u8],
    cells: &mut [u32; DATA_MOST],
    back: &mut [u32; RETURN_MOST],
    places: &mut [u32; FRAMES_MOST],
    wides: &mut [bool; FRAMES_MOST],
    bases: &mut [usize; FRAMES_MOST],
    names: &mut [u32; NUMBERS_MOST],
    kinds: &mut [u8; NUMBERS_MOST],
    values: &mut [u32; NUMBERS_MOST],
    ways: &mut [bool; NUMBERS_MOST],
    parents: &mut [u32; NODES_MOST],
    owners: &mut [u32; PROPERTIES_MOST],
    titles: &mut [u32; PROPERTIES_MOST],
    sizes: &mut [u32; PROPERTIES_MOST],
    start: Core,
    budget: u32,
) -> Cruised
    requires { Ready rom.now work.old store.old (joined (arrays cells.old back.old places.old wides.old bases.old
        names.old kinds.old values.old ways.old parents.old owners.old titles.old sizes.old) start)
        × Sized (joined (arrays cells.old back.old places.old wides.old bases.old names.old kinds.old values.old ways.old
        parents.old owners.old titles.old sizes.old) start) }
    ensures { cruised_to result (arrays cells.new back.new places.new wides.new bases.new
        names.new kinds.new values.new ways.new parents.new owners.new
        titles.new sizes.new) work.new store.new
        ≡ run_of budget (scene rom.now work.old store.old
        (joined (arrays cells.old back.old places.old wides.old bases.old
        names.old kinds.old values.old ways.old parents.old owners.old
        titles.old sizes.old) start)) }
{
    let mut slots = [0u16; PROGRAMS_MOST];
    let mut known = [0u8; PROGRAMS_MOST];
    fill_tables(&mut slots, &mut known, names, kinds, start.held);
    let mut tail = tail_of(titles, sizes, start.records);
    let mut core = start;
    for n in 0..budget {
        let t = fast(
            rom,
            core.length,
            core.wide,
            cells,
            back,
            core.height,
            core.returns,
            bases,
            core.frames,
            core.place,
        );
        core.height = t.height;
        core.returns = t.returns;
        core.place = t.place;
        match t.fared {
            Fared::On => continue,
            Fared::Not(why) => return halted(Answer::Refused(why), n, core),
            Fared::Cold => {
                let r = cold_token(
                    rom, work, store, cells, places, wides, bases, names, kinds, values, ways,
                    parents, owners, titles, sizes, &mut slots, &mut known, core, tail,
                );
                core = r.core;
                tail = r.tail;
                match r.told {
                    Told::On => {
                        if core.active == 0 {
                            return halted(Answer::Refused(Refusal::Damaged), n + 1, core);
                        }
                    }
                    Told::Over => return halted(Answer::Finished, n + 1, core),
                    Told::Not(why) => return halted(Answer::Refused(why), n, core),
                }
            }
        }
    }
    halted(Answer::Spent(budget), budget, core)
}

// The same of a state: it is taken apart once and put together once.
fn tokens(rom: &[u8], work: &mut [u8], store: &mut [u8], st: State, budget: u32) -> Ran
    requires { Ready rom.now work.old store.old st × Sized st }
    ensures { told_ran (ran_in result) work.new store.new ≡ run_of budget
        (scene rom.now work.old store.old st) }
{
    let mut cells = st.stack.cells;
    let mut back = st.back.cells;
    let mut places = st.calls.places;
    let mut wides = st.calls.wides;
    let mut bases = st.calls.bases;
    let mut names = st.numbers.programs;
    let mut kinds = st.numbers.kinds;
    let mut values = st.numbers.values;
    let mut ways = st.numbers.wides;
    let mut parents = st.tree.parents;
    let mut owners = st.tree.owners;
    let mut titles = st.tree.name_sizes;
    let mut sizes = st.tree.value_sizes;
    let r = cruise(
        rom,
        work,
        store,
        &mut cells,
        &mut back,
        &mut places,
        &mut wides,
        &mut bases,
        &mut names,
        &mut kinds,
        &mut values,
        &mut ways,
        &mut parents,
        &mut owners,
        &mut titles,
        &mut sizes,
        core_of(st),
        budget,
    );
    let core = r.core;
    let state = State {
        length: core.length,
        place: core.place,
        wide: core.wide,
        finished: core.finished,
        stack: Stack {
            cells,
            height: core.height,
        },
        back: Back {
            cells: back,
            height: core.returns,
        },
        calls: Calls {
            places,
            wides,
            bases,
            count: core.frames,
        },
        numbers: Numbers {
            programs: names,
            kinds,
            values,
            wides: ways,
            count: core.held,
        },
        work_place: core.work_place,
        active: core.active,
        first: core.first,
        tree: Tree {
            parents,
            nodes: core.nodes,
            owners,
            name_sizes: titles,
            value_sizes: sizes,
            held: core.records,
        },
    };
    ended(r.answer, r.count, state)
}

#[tactic(auto, unfolding(state::specs::Answer::ran_in))]
fn ended(answer: Answer, count: u32, state: State) -> Ran
    ensures { ran_in result ≡ ran_of (answer_in answer) count state }
{
    Ran {
        answer,
        count,
        state,
    }
}

// A run over FCode bytes that lie one behind the other. It is the one function that the loop over tokens is laid out in.
fn run_fcode(fcode: &[u8], work: &mut [u8], store: &mut [u8], st: State, budget: u32) -> Ran
    ensures { told_ran (ran_in result) work.new store.new ≡ run_of budget
        (scene fcode.now work.old store.old st) }
{
    match ready(fcode, work, store, st) {
        Answer::Going => tokens(fcode, work, store, st, budget),
        known => ended(known, 0, st),
    }
}

// A run of a spread ROM: so many FCode bytes are laid into a room first, so that the loop over tokens reads every ROM alike.
fn run_laid(
    rom: &[u8],
    spread: Spread,
    room: &mut [u8],
    count: usize,
    work: &mut [u8],
    store: &mut [u8],
    st: State,
    budget: u32,
) -> Ran
    requires { Laying spread rom.now st.length count × RoomFor count room.old }
    ensures { told_ran (ran_in result) work.new store.new ≡ run_of budget
        (scene (view_of spread rom.now) work.old store.old st) }
{
    lay_fcode(rom, spread, &mut room[..count]);
    run_fcode(&room[..count], work, store, st, budget)
}

// A room is cleared at each call, so that a small program has a small one, and each size of room is a function of its own.
fn run_in<const ROOM: usize>(
    rom: &[u8],
    spread: Spread,
    count: usize,
    work: &mut [u8],
    store: &mut [u8],
    st: State,
    budget: u32,
) -> Ran
    requires { Laying spread rom.now st.length count × (count ≤ ROOM) × (ROOM ≤ large_room) }
    ensures { told_ran (ran_in result) work.new store.new ≡ run_of budget
        (scene (view_of spread rom.now) work.old store.old st) }
{
    let mut room = [0u8; ROOM];
    run_laid(rom, spread, &mut room, count, work, store, st, budget)
}

// How many FCode bytes a run asks for: as many as the state's length says, or all that there are if they are fewer; and not fewer than a
// header, since 1 is not for a state's length to say.
fn asked(count: usize, length: u32) -> usize
    ensures { result ≡ min count (max rom_least length) }
{
    count.min(ROM_LEAST.max(length as usize))
}

// A run of a spread ROM. One that is refused for its size is so by 1 as any that is too short, and there is nothing to lay out.
fn run_spread(
    rom: &[u8],
    spread: Spread,
    work: &mut [u8],
    store: &mut [u8],
    st: State,
    budget: u32,
) -> Ran
    requires { SpreadIs spread rom.now }
    ensures { told_ran (ran_in result) work.new store.new ≡ run_of budget
        (scene (view_of spread rom.now) work.old store.old st) }
{
    if wrong_rom(rom, spread) {
        return run_fcode(&rom[..0], work, store, st, budget);
    }
    let count = asked(fcode_count(rom, spread), st.length);
    if count <= SMALL_ROOM {
        return run_in::<SMALL_ROOM>(rom, spread, count, work, store, st, budget);
    }
    if count <= MIDDLE_ROOM {
        return run_in::<MIDDLE_ROOM>(rom, spread, count, work, store, st, budget);
    }
    run_in::<LARGE_ROOM>(rom, spread, count, work, store, st, budget)
}

// Tokens until one finishes or is refused or the budget is spent: 6, 1, 7 and 4 are tested first, then finish, then budget, then the token.
// The count is that of the tokens carried out. The ROM is as it is lent: its first byte tells how far apart its FCode bytes lie.
pub fn run(rom: &[u8], work: &mut [u8], store: &mut [u8], st: State, budget: u32) -> Ran
    ensures { told_ran (ran_in result) work.new store.new ≡ run_of budget
        (scene (fcode_of rom.now) work.old store.old st) }
{
    let spread = spread_of(rom);
    match spread {
        Spread::One => run_fcode(rom, work, store, st, budget),
        Spread::Two => run_spread(rom, spread, work, store, st, budget),
        Spread::Four => run_spread(rom, spread, work, store, st, budget),
    }
}

// A step from a run of one token: a token that was carried out goes on or finishes, whatever the run met behind it.
#[tactic(auto, unfolding(state::specs::Answer::ran_in))]
fn one(ran: Ran) -> Stepped
    ensures { stepped_in result ≡ one_of (ran_in ran) }
{
    if ran.count == 0 || matches!(ran.answer, Answer::Finished) {
        Stepped {
            answer: ran.answer,
            state: ran.state,
        }
    } else {
        going(ran.state)
    }
}

// One token, or why it is refused; a finished state says so again. A refused step leaves the state, work memory and store as they were.
pub fn step(rom: &[u8], work: &mut [u8], store: &mut [u8], st: State) -> Stepped
    ensures { handed_back (stepped_in result) work.new store.new ≡ step_of
        (scene (fcode_of rom.now) work.old store.old st) }
{
    one(run(rom, work, store, st, 1))
}
