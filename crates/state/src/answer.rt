// What a step or a run answers.
ghost use Rattle.std.specs.Prelude.{ℕ, ◌≡◌};
ghost use Rattle.rom.specs.Refusal.{refusal_number};
ghost use Rattle.state.specs.Scene.{answer_number};
ghost use Rattle.state.specs.Answer.{answer_by};

use crate::state::State;
use rom::Refusal;

// Going on, finished, refused and why, or the budget spent with the count of tokens carried out.
#[derive(Clone, Copy)]
pub enum AnswerBy<W> {
    Going,
    Finished,
    Refused(W),
    Spent(u32),
}

#[derive(Clone, Copy)]
pub struct SteppedBy<W> {
    pub answer: AnswerBy<W>,
    pub state: State,
}

// Every step and run says why by a refusal's name.
pub type Answer = AnswerBy<Refusal>;

pub type Stepped = SteppedBy<Refusal>;

// A run's answer, how many tokens it carried out, and the state then.
#[derive(Clone, Copy)]
pub struct Ran {
    pub answer: Answer,
    pub count: u32,
    pub state: State,
}

// What says why, and has a number: a refusal's name, or a number, which is its own.
pub trait Why {
    ghost says: { Self → ℕ };

    fn as_number(self) -> u32
        ensures { result ≡ says self };
}

impl Why for Refusal {
    ghost says = { refusal_number };

    fn as_number(self) -> u32 {
        self.number()
    }
}

impl Why for u32 {
    ghost says = { λ n. n };

    fn as_number(self) -> u32 {
        self
    }
}

// Document 01's number of an answer: 0 going on or finished, a refusal's own, 28 for a spent budget.
pub fn number_of<W: Why + Drop>(answer: AnswerBy<W>) -> u32
    ensures { result ≡ answer_number (answer_by W.says answer) }
{
    match answer {
        AnswerBy::Going | AnswerBy::Finished => 0,
        AnswerBy::Refused(why) => why.as_number(),
        AnswerBy::Spent(_) => 28,
    }
}
