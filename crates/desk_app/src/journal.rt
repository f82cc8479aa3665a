//! The journal: a request that has no key gets one before it is done, so that its answer is kept. The key has the request's
//! day, and a number: that of the answers that are kept, and one more. Where an answer is kept under that key, too, since
//! somebody gave it, the next number is taken under which none is.
ghost use Rattle.std.specs.Prelude.{◌≡◌, ◌+◌, is_some, IfOk};
ghost use Rattle.std.specs.FinMap as table;
ghost use Rattle.std.specs.String.{string_bytes};
ghost use Rattle.sheet_core.specs.Sheet.{now_of};
ghost use Rattle.desk_core.specs.ShopView.{state_of};
ghost use Rattle.desk_app.specs.Journal.{free_from, journal_key, journalled};
ghost use Rattle.desk_app.specs.Journal.{JournalKeepsAnswersAlone, JournalKeysAreNew, JournalLeavesOthers};

use desk_core::{Kept, Key, Request, Shop};
use part_core::{Day, Sheet};
use std::alloc::{AllocError, Global};

/// The text `DAY/N`.
#[tactic(auto, unfolding(crate::specs::Journal::journal_key))]
fn journal_key(alloc: Global, day: Day, number: u128) -> Result<String, AllocError>
    ensures { IfOk result (λ text. string_bytes text ≡ journal_key day number) }
{
    let day = day.text(alloc)?;
    format!(in alloc; "{day}/{number}")
}

/// Whether an answer is kept under that key.
fn is_kept(answers: &Sheet<Kept>, key: &String) -> bool
    ensures { result ≡ is_some (table.get (now_of answers.now) (string_bytes key.now)) }
{
    answers.get(key).is_some()
}

/// The key that a request of that day gets. Where nobody gave such a key it is the first that is looked up.
fn free_key(alloc: Global, answers: &Sheet<Kept>, day: Day) -> Result<String, AllocError>
    ensures { let count = table.len (now_of answers.now) in IfOk result (λ text.
        string_bytes text
        ≡ journal_key day (free_from (now_of answers.now) day (count + 1) count)) }
{
    let count = answers.len() as u128;
    for taken in 0..count {
        let key = journal_key(alloc, day, count + 1 + taken)?;
        if !is_kept(answers, &key) {
            return Ok(key);
        }
    }
    journal_key(alloc, day, count + 1 + count)
}

/// The request as it is to be done on that shop: where the journal is kept and it has no key, it gets one.
#[tactic(auto, unfolding(crate::specs::Journal::journalled, crate::specs::Journal::journal_number))]
pub fn journalled(
    alloc: Global,
    journal: bool,
    shop: &Shop,
    mut request: Request,
) -> Result<Request, AllocError>
    ensures { IfOk result (λ given. given ≡ journalled journal (state_of shop.now) request) }
{
    if journal && request.key.is_none() {
        request.key = Key::new(free_key(alloc, shop.answers(), request.day)?);
    }
    Ok(request)
}

/// The law that a key of the journal is one, and that no answer is kept under it, whatever keys were given. It is one of at
/// most as many numbers as there are kept answers, and one more.
pub fn journal_keys_are_new()
    ensures { JournalKeysAreNew }
{}

/// The law that the journal keeps answers, and does nothing else: a request without a key is accepted with it exactly where it
/// is accepted without it, with the same answer, and the books are the same after it but for that answer, which is kept
/// under its key. Where it is refused it is refused alike, and nothing is kept. A request that has a key stays as it is.
pub fn journal_keeps_answers_alone()
    ensures kept { JournalKeepsAnswersAlone }
    ensures others { JournalLeavesOthers }
{}
