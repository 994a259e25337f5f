// The evaluator's state, what it takes to be whole, how a ROM is opened to one, and the moves on it that every token goes by: push, pop,
// call and leave. specs/ has what a token, a step and a run are. Every public call is total.
#![tactic(auto)]

mod answer;
mod apart;
mod entries;
mod lookup;
mod moves;
mod opening;
mod state;
#[cfg(test)]
mod tests;
mod whole;

pub use answer::{Answer, AnswerBy, Ran, Stepped, SteppedBy, Why, number_of};
pub use apart::{Core, Handed, HandedBy, Taken, Told, ToldBy, core_of, go, stop};
pub use entries::{entry, kind_byte, wide_at};
pub use lookup::{find_node_in, find_property_in, node_rows_in, node_table_in, property_value_in};
pub use moves::{base, call, going, leave, pop, push, refused};
pub use opening::open;
pub use state::{Back, Calls, Numbers, Stack, State};
pub use whole::is_whole;
