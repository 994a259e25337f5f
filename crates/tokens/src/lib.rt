// The token list of document 01 with its names, the token at a place, whole, at a glance or by a quick read, reading a body to its end,
// and a reader that goes from place to place. Every call is total: any bytes, any place, any length; but a table that is lent must be that
// of `first_codes`, `quick_at` wants a place before the length, and `glance_from` what that has read. Places are counted in 32 bits.
#![tactic(auto)]

mod body;
mod code;
mod decoding;
mod definition;
pub mod family;
mod glance;
mod name;
pub mod programs;
mod quick;
mod read;
pub mod reader;

pub use body::{Stop, kind_of, number_in, read_body, unknown};
pub use code::{code_of, family_of, gives_of, return_gives_of, return_takes_of, takes_of};
pub use decoding::{Decoded, Operand, Token, decode, is_program};
pub use definition::{kind_in, new_number, takes_here};
pub use glance::{Glance, glance_at, glance_from};
pub use name::{name_front, name_rest};
pub use quick::{Quick, first_codes, quick_at};
pub use read::{out_of_place, read_at};
