// The tokens that are carried out in place, over the lent cells of the two stacks. For the loop of crate machine, which keeps heights and
// place in the limits that `fast` requires; it is no call to make from elsewhere.
#![tactic(auto)]

mod in_place;
mod reckon;
mod turned;

pub use in_place::fast;
pub use turned::{Fared, Turned};
