//! What requests are to be answered.
ghost use Rattle.desk_core.specs.Machine.{IsSoundState};
ghost use Rattle.desk_core.specs.ShopView.{state_of};

use desk_core::{Request, Shop};
use part_core::{Answer, CoreFault, Refusal};
use std::alloc::Global;
use std::test::Fail;

/// What a request is to be answered.
#[derive(Clone, Copy)]
pub enum Wanted {
    /// It draws the number, and writes so many entries.
    Drawn(u64, u64),
    /// It draws no number, and writes so many entries.
    Done(u64),
    Refused(Refusal),
}

fn is_answer(answer: &Answer, wanted: &Wanted) -> bool {
    let ids = answer.ids.as_slice();
    match wanted {
        Wanted::Drawn(number, entries) => ids == [*number].as_slice() && answer.entries == *entries,
        Wanted::Done(entries) => ids.is_empty() && answer.entries == *entries,
        Wanted::Refused(_) => false,
    }
}

fn is_told(outcome: &Result<Answer, CoreFault>, wanted: &Wanted) -> bool {
    match (outcome, wanted) {
        (Ok(answer), wanted) => is_answer(answer, wanted),
        (Err(CoreFault::Refused(refusal)), Wanted::Refused(other)) => *refusal == *other,
        _ => false,
    }
}

/// Whether the outcomes are those that are wanted, in order.
fn are_told(outcomes: &[Result<Answer, CoreFault>], wanted: &[Wanted]) -> bool {
    outcomes.len() == wanted.len()
        && outcomes
            .iter()
            .zip(wanted.iter())
            .all(|(outcome, wanted)| is_told(outcome, wanted))
}

/// Runs the requests, and fails where they are answered otherwise.
pub fn plays(
    alloc: Global,
    shop: &mut Shop,
    requests: Vec<Request>,
    wanted: &[Wanted],
) -> Result<(), Fail>
    requires { IsSoundState (state_of shop.old) }
    ensures { IsSoundState (state_of shop.new) }
{
    let outcomes = shop.run_list(alloc, requests.as_slice())?;
    holds(are_told(outcomes.as_slice(), wanted), "other outcomes")
}

/// Runs the requests, and fails where one is refused.
pub fn runs(alloc: Global, shop: &mut Shop, requests: Vec<Request>) -> Result<(), Fail>
    requires { IsSoundState (state_of shop.old) }
    ensures { IsSoundState (state_of shop.new) }
{
    let outcomes = shop.run_list(alloc, requests.as_slice())?;
    holds(
        outcomes.iter().all(|outcome| outcome.is_ok()),
        "a request is refused",
    )
}

/// Fails with the text where that doesn't hold.
pub fn holds(condition: bool, text: &'static str) -> Result<(), Fail> {
    if condition {
        Ok(())
    } else {
        Err(Fail::from(text))
    }
}
