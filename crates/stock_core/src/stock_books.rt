//! The stock books of a command: whether the limits leave room for it, and its end.
ghost use Rattle.std.specs.Prelude.{◌≡◌, ◌+◌, ◌||◌, nat_lt, Err, IfOk, IsOk, OnErr};
ghost use Rattle.word_core.specs.Counter.{lacks};
ghost use Rattle.word_core.specs.declared.refusal.CoreFault.{CoreFault};
ghost use Rattle.yard_core.specs.StockBooks.{answer_of, entries_in, is_full};
ghost use Rattle.yard_core.specs.BooksView.{books_before, books_now};
ghost use Rattle.stock_core.specs.Endings.{Closes};

use part_core::{Answer, CoreFault, Refusal};
use std::alloc::AllocError;
use yard_core::YardBooks;

/// Whether so many numbers, or so many entries, more pass the limits.
pub fn lacks_room(books: &YardBooks, numbers: u64, entries: u64) -> bool
    ensures { let b = books_now books.now in
        result ≡ (lacks numbers b.counter
        || nat_lt b.counter.limits.entries (entries_in b + entries)) }
{
    let most = books.counter.limits().entries;
    books.counter.lacks(numbers) || entries > most || books.yard.entries() > most - entries
}

/// Whether more numbers are drawn, or more entries written, than the limits allow.
fn is_over(books: &YardBooks) -> bool
    ensures { result ≡ is_full (books_now books.now) }
{
    let most = books.counter.limits().entries;
    books.counter.next() > books.counter.largest() || books.yard.entries() > most
}

/// Ends a command whose moves were tried whatever the limits are: answers what they drew and wrote, or, where that
/// passes the limits or there was no memory, takes everything back.
pub fn close(books: &mut YardBooks, moved: Result<(), AllocError>) -> Result<Answer, CoreFault>
    ensures closed { Closes (books_now books.old) moved result }
    ensures done { IfOk result (λ _. books_now books.new ≡ books_now books.old) }
    ensures told { IfOk result (λ answer.
        answer ≡ answer_of (books_before books.old) (books_now books.old)) }
    ensures back { OnErr result (books_now books.new ≡ books_before books.old) }
    ensures before { books_before books.new ≡ books_before books.old }
{
    let over = moved.is_ok() && is_over(books);
    let ended = conclude(books, moved);
    if over && ended.is_ok() {
        books.back();
        return Err(CoreFault::Refused(Refusal::Full));
    }
    ended
}

/// Ends a command whose moves were tried: answers what they drew and wrote since the request began, or,
/// where there was no memory for them or for the answer, takes everything back.
pub fn conclude(books: &mut YardBooks, moved: Result<(), AllocError>) -> Result<Answer, CoreFault>
    ensures moved { IfOk result (λ _. IsOk moved) }
    ensures done { IfOk result (λ _. books_now books.new ≡ books_now books.old) }
    ensures told { IfOk result (λ answer.
        answer ≡ answer_of (books_before books.old) (books_now books.old)) }
    ensures memory { OnErr result (result ≡ Err CoreFault.Memory) }
    ensures back { OnErr result (books_now books.new ≡ books_before books.old) }
    ensures before { books_before books.new ≡ books_before books.old }
{
    let entries = books
        .yard
        .entries()
        .saturating_sub(books.yard.entries_before());
    let ids = match moved {
        Ok(()) => books.counter.pending(books.alloc),
        Err(error) => Err(error),
    };
    match ids {
        Ok(ids) => Ok(Answer { ids, entries }),
        Err(_) => {
            books.back();
            Err(CoreFault::Memory)
        }
    }
}
