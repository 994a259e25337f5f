// The conditions of refusal 7, in the order of its row in document 01 and behind them those of the first node, each under a number of its
// own. The state to damage has two open calls with bases 0 and 1 and two return cells, a colon definition as its oldest number, three
// nodes, and a property.
use state::State;

// The state damaged in one way, and as it is where no way has this number. A place is damaged to one below 8 and to one above the length,
// a node to one that is absent and to the root.
pub fn damaged(k: u32, state: State) -> State {
    let mut st = state;
    let above = st.length.wrapping_add(1);
    match k {
        0 => st.stack.height = 65,
        1 => st.back.height = 33,
        2 => st.calls.count = 17,
        3 => st.work_place = 16385,
        4 => st.numbers.count = 257,
        5 => st.tree.nodes = 1,
        6 => st.tree.nodes = 33,
        7 => st.tree.held = 129,
        8 => st.tree.name_sizes[0] = 0,
        9 => st.tree.name_sizes[0] = 32,
        10 => st.tree.value_sizes[0] = 16385,
        11 => st.numbers.programs[0] = 0x7FF,
        12 => st.numbers.programs[0] = 0x1000,
        13 => st.place = 7,
        14 => st.place = above,
        15 => st.calls.places[0] = 7,
        16 => st.calls.places[0] = above,
        17 => st.numbers.values[0] = 7,
        18 => st.numbers.values[0] = above,
        19 => st.calls.bases[0] = 2,
        20 => st.calls.bases[1] = 3,
        21 => st.active = 3,
        22 => st.tree.owners[0] = 3,
        23 => st.active = 0,
        24 => st.tree.parents[2] = 2,
        25 => st.tree.parents[1] = 1,
        26 => st.tree.parents[0] = 1,
        27 => st.tree.value_sizes[0] = 16384,
        28 => st.first = 3,
        29 => st.first = 0,
        _ => {}
    }
    st
}
