// The two windows of the address space, and what is fetched from them and written to work memory. Every call is total.
#![tactic(auto)]

mod cell;
mod window;
mod writing;

pub use cell::{fetch_byte, fetch_cell, store_byte, store_cell};
pub use window::{ROM_BASE, WORK_BASE, Window, resolve, window_of};
pub use writing::{clear_from, copy_in, copy_within, put, write_cell};
