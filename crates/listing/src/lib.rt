// The listing: what a person reads of a ROM. The call is total.
#![tactic(auto)]

mod listing;

pub use listing::list;
