// The screen: whether stack heights can be assigned to a ROM by document 01's rules.
#![tactic(auto)]

mod body;
mod cell;
mod effect;
mod limits;
mod rounds;
mod screening;
mod tables;
mod tally;
mod visiting;
mod walking;

pub use screening::screen;
