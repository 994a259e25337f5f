// Whether two states are the same in every number, live or not.
use state::{Back, Calls, Numbers, Stack, State};
use tree::Tree;

fn same_stacks(a: Stack, b: Stack) -> bool {
    a.height == b.height && a.cells == b.cells
}

fn same_backs(a: Back, b: Back) -> bool {
    a.height == b.height && a.cells == b.cells
}

fn same_calls(a: Calls, b: Calls) -> bool {
    a.count == b.count && a.places == b.places && a.wides == b.wides && a.bases == b.bases
}

fn same_numbers(a: Numbers, b: Numbers) -> bool {
    a.count == b.count
        && a.programs == b.programs
        && a.kinds == b.kinds
        && a.values == b.values
        && a.wides == b.wides
}

fn same_trees(a: Tree, b: Tree) -> bool {
    a.nodes == b.nodes
        && a.parents == b.parents
        && a.held == b.held
        && a.owners == b.owners
        && a.name_sizes == b.name_sizes
        && a.value_sizes == b.value_sizes
}

fn same_front(a: State, b: State) -> bool {
    a.length == b.length
        && a.place == b.place
        && a.wide == b.wide
        && a.finished == b.finished
        && a.work_place == b.work_place
        && a.active == b.active
        && a.first == b.first
}

pub fn same_states(a: State, b: State) -> bool {
    same_front(a, b)
        && same_stacks(a.stack, b.stack)
        && same_backs(a.back, b.back)
        && same_calls(a.calls, b.calls)
        && same_numbers(a.numbers, b.numbers)
        && same_trees(a.tree, b.tree)
}
