// What a token leaves: the numbers of the state with an answer, and the tail of the store.
ghost use Rattle.std.specs.Prelude.{◌≡◌};
ghost use Rattle.acts.specs.Joints.Acts.{acted_of, refused_of};

use rom::Refusal;
use state::{Core, Handed, Told};
use tree::Tail;

#[derive(Clone, Copy)]
pub struct Acted {
    pub told: Told,
    pub core: Core,
    pub tail: Tail,
}

// The numbers as they were, with why the token is refused.
pub fn refuse(core: Core, tail: Tail, why: Refusal) -> Acted
    ensures { result ≡ refused_of core tail why }
{
    Acted {
        told: Told::Not(why),
        core,
        tail,
    }
}

// A token that left the store alone.
pub fn with_tail(handed: Handed, tail: Tail) -> Acted
    ensures { result ≡ acted_of handed tail }
{
    Acted {
        told: handed.told,
        core: handed.core,
        tail,
    }
}
