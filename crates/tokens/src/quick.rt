// A quick read, for a loop that meets the same few kinds of token most of the time: a byte, its code by one load, a test or two.
ghost use Rattle.std.specs.Prelude.{◌≡◌, ◌<◌};
ghost use Rattle.rom.specs.Bytes.{byte_of};
ghost use Rattle.tokens.specs.Joints.Glance.{first_says};
ghost use Rattle.tokens.specs.Joints.Quick.{Codes, Quickly};

use crate::code::FIRST_CODES;
use rom::byte;

// A token's first byte, what the table says of it, and the place behind the token, 0 where it is none of those that are read quickly.
#[derive(Clone, Copy)]
pub struct Quick {
    pub first: u8,
    pub code: u32,
    pub next: u32,
}

// b(lit), the one token of these that has an operand.
const LITERAL: u32 = 0x01_01_00_01;

// The codes of the numbers of one byte, as `first_code` in glance.rt has them; 01 to 0F have a second byte. Lent to a loop this makes byte
// to code one load: a `match` of this size is not inlined at more than one caller.
pub fn first_codes() -> [u32; 256]
    ensures { Codes result }
{
    FIRST_CODES
}

// A token of which most programs are made: it moves cells of the data stack alone, goes on behind itself, and may stand anywhere; of one
// byte, or a literal. Where another stands, `glance_from` goes on with what was read.
pub fn quick_at(codes: &[u32; 256], rom: &[u8], length: u32, place: u32) -> Quick
    requires { Codes codes.now × (place < length) }
    ensures { (result.first ≡ byte_of rom.now place) × (result.code ≡ first_says result.first)
        × Quickly rom.now length place result }
{
    let first = byte(rom, place as usize);
    let code = codes[first as usize];
    if code / 0x100 == 0x1_0000 {
        return Quick {
            first,
            code,
            next: place + 1,
        };
    }
    if code == LITERAL && 5 <= length - place {
        return Quick {
            first,
            code,
            next: place + 5,
        };
    }
    Quick {
        first,
        code,
        next: 0,
    }
}
