//! How a request was accepted.
ghost use Rattle.std.specs.Prelude.{◌≡◌};
ghost use Rattle.desk_core.specs.Machine.{answer_in};

use part_core::Answer;

/// How a request was accepted, with its answer.
#[derive(Drop)]
pub enum Accepted {
    /// The command was done, and the answer is new.
    Anew(Answer),
    /// The request is a repeat: nothing was done, and the answer is the one that was kept.
    Again(Answer),
}

impl Accepted {
    /// The answer, new or not.
    pub fn answer(self) -> Answer
        ensures { result ≡ answer_in self }
    {
        match self {
            Accepted::Anew(answer) => answer,
            Accepted::Again(answer) => answer,
        }
    }
}
