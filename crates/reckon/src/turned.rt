// How a token in place ended.
ghost use Rattle.std.specs.Prelude.{◌≡◌};
ghost use Rattle.reckon.specs.Joints.Fast.{turned};
ghost use Rattle.rom.specs.Refusal.{refusal_number};
ghost use Rattle.reckon.specs.Joints.Turned.{On, Cold, Not, fared_in, turned_in};

use rom::Refusal;

// It was carried out; or it is none of those that are done in place, and is left as it was; or it is refused, and why.
#[derive(Clone, Copy)]
pub enum Fared {
    On,
    Cold,
    Not(Refusal),
}

// With the heights of the two stacks and the place behind it.
#[derive(Clone, Copy)]
pub struct Turned {
    pub fared: Fared,
    pub height: usize,
    pub returns: usize,
    pub place: u32,
}

#[tactic(auto, unfolding(crate::specs::Joints::Turned::turned_in))]
fn ended(fared: Fared, height: usize, returns: usize, place: u32) -> Turned
    ensures { turned_in result ≡ turned (fared_in fared) height returns place }
{
    Turned {
        fared,
        height,
        returns,
        place,
    }
}

pub fn on(h: usize, b: usize, place: u32) -> Turned
    ensures { turned_in result ≡ turned On h b place }
{
    ended(Fared::On, h, b, place)
}

pub fn cold(h: usize, b: usize, place: u32) -> Turned
    ensures { turned_in result ≡ turned Cold h b place }
{
    ended(Fared::Cold, h, b, place)
}

pub fn refuse(why: Refusal, h: usize, b: usize, place: u32) -> Turned
    ensures { turned_in result ≡ turned (Not (refusal_number why)) h b place }
{
    ended(Fared::Not(why), h, b, place)
}
