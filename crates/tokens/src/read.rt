// A token by its bytes and its place: the refusals 10, 18 and 11, in this order.
ghost use Rattle.std.specs.Prelude.{◌≡◌};
ghost use Rattle.cells.specs.Choice.{pick};
ghost use Rattle.rom.specs.Refusal.{refusal_number, numbered};
ghost use Rattle.tokens.specs.Place.{misplaced_of, read_of};

use crate::decoding::{Decoded, Token, decode};
use rom::{Refusal, Spread};

// Whether a token of a code is out of place: `within` says that a body is read or a call is open.
#[tactic(auto, unfolding(crate::specs::Place::misplaced_of))]
pub fn out_of_place(code: u32, within: bool) -> bool
    ensures { result ≡ misplaced_of code within }
{
    let rule = code / 0x10_0000 % 16;
    match rule {
        1 => within,
        2 => !within,
        3 => true,
        _ => false,
    }
}

fn misfit(code: u32, within: bool) -> Refusal
    ensures { refusal_number result ≡ pick (misplaced_of code within) 18 11 }
{
    if out_of_place(code, within) {
        Refusal::Misplaced
    } else {
        Refusal::Unlisted
    }
}

// The token at a place, if it may stand there.
#[tactic(auto, unfolding(crate::specs::Place::read_of))]
pub fn read_at(
    rom: &[u8],
    length: u32,
    wide: bool,
    within: bool,
    place: u32,
) -> Result<Token, Refusal>
    ensures { numbered result ≡ read_of rom.now length wide within place }
{
    match decode(rom, Spread::One, length, wide, place) {
        Decoded::Cut => Err(Refusal::CutOff),
        Decoded::Unlisted(code) => Err(misfit(code, within)),
        Decoded::Whole(token) => {
            if out_of_place(token.code, within) {
                Err(Refusal::Misplaced)
            } else {
                Ok(token)
            }
        }
    }
}
