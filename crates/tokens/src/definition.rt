// What a defining token says, and what a token takes, where a definition takes what its kind takes.
ghost use Rattle.std.specs.Prelude.{◌≡◌, ◌<◌};
ghost use Rattle.tokens.specs.Definition.{new_number, kind_in, takes_here};

use crate::code::{code_of, family_of, takes_of};
use crate::decoding::{Operand, Token};
use crate::family;

// The number that a definition defines: 0 where an operand is none.
pub fn new_number(operand: Operand) -> u32
    ensures { result ≡ new_number operand }
{
    match operand {
        Operand::Definition { number, .. } => number,
        _ => 0,
    }
}

// Its kind byte.
pub fn kind_in(operand: Operand) -> u32
    ensures { result ≡ kind_in operand }
{
    match operand {
        Operand::Definition { kind, .. } => kind,
        _ => 0,
    }
}

// The data cells that a token takes.
pub fn takes_here(token: Token) -> u32
    ensures { (result ≡ takes_here token) × (result < 32) }
{
    let own = takes_of(token.code);
    if family_of(token.code) == family::DEFINE {
        own + takes_of(code_of(kind_in(token.operand)))
    } else {
        own
    }
}
