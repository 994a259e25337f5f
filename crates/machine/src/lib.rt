// The evaluator: a state is stepped or run against a budget. Work memory and the property store are lent beside it. Both calls are total:
// any bytes, any state, any buffers, any budget.
#![tactic(auto)]

mod running;

pub use running::{run, step};
