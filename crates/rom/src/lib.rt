// A ROM's bytes, its header and its branches. All but the sum, which runs over the bytes as they lie, is read by `byte`. Places are counted
// in 32 bits, so that a place a few bytes on never wraps.
#![tactic(auto)]

mod branch;
mod bytes;
mod header;
mod refusal;
pub mod sizes;
mod spread;
mod sum;

pub use branch::{aim_at, destination, offset};
pub use bytes::{byte, word16, word32};
pub use header::{check_header, program_length, wide_start, wrong_length, wrong_rom};
pub use refusal::{Refusal, refusal_in};
pub use spread::{
    Spread, fcode_byte, fcode_count, fcode_word16, fcode_word32, is_spread, lay_fcode, spread_of,
};
pub use sum::{body_sum, least};
