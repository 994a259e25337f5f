// The tokens that crate reckon leaves, in place on the lent arrays of a state that is taken apart. For the loop of crate machine, which
// keeps heights, tables and records as `cold_token` requires; it is no call to make from elsewhere.
#![tactic(auto)]

mod acted;
mod define;
mod dispatch;
mod encode;
mod flow;
mod memory_tokens;
mod nodes;
mod numbers;
mod properties;
mod tables;

pub use acted::Acted;
pub use dispatch::cold_token;
pub use tables::fill_tables;
