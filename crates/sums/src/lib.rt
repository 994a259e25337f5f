// The sum of a program's bytes by itself, for speed/sums to count and to time: in the library it is a part of the header test, which a C
// program cannot call alone. It is no call of the library's, and include/fcode.h does not declare it.
#![tactic(auto)]

ghost use Rattle.std.specs.Prelude.{◌≡◌};
ghost use Rattle.rom.specs.Sum.{sum_of};

use rom::{Spread, body_sum};

// Of bytes that lie one behind the other, whatever the first of them is, as Rust's forms sum them.
#[unsafe(no_mangle)]
pub extern "C" fn library_sum(fcode: &[u8], length: u32) -> u16
    ensures { result ≡ sum_of fcode.now length }
{
    body_sum(fcode, Spread::One, length)
}
