//! Books that tell a person why a line or a row wasn't done, and of a new name that is near another. What is told is no
//! part of the answers: it waits until what was done before it is kept. Where it can't be written it is left out, and so
//! it is where a fault has closed the books: what it is of was undone, and has no answer.
ghost use Rattle.std.specs.Prelude.{◌≡◌, ◌⊎◌, [], IsSome, None, OnErr, OnOk};
ghost use Rattle.std.specs.String.{string_bytes};
ghost use Rattle.sqlite.specs.Tree.{Trees};
ghost use Rattle.desk_store.specs.StateTables.{TablesAre};
ghost use Rattle.desk_app.specs.Reasons.{AddsReason, Notes};

use crate::books::Books;
use crate::reasons::reason;
use crate::undone::Why;
use desk_core::{Request, Shop};
use desk_store::Fault;
use list_core::NearNames;
use part_core::Answer;
use std::alloc::{AllocError, Global};
use std::io::Write;

/// Books, and the reasons that wait to be told. Where there is no writer, nobody is told.
#[derive(Drop)]
pub struct ExplainedBooks<B, W> {
    alloc: Global,
    books: B,
    writer: Option<W>,
    waits: String,
    names: NearNames,
}

impl<B: Books + Drop, W: Write + Drop> ExplainedBooks<B, W> {
    /// These books, of which nothing was told yet.
    pub fn new(alloc: Global, books: B, writer: Option<W>) -> Self
        ensures books { result.books ≡ books }
        ensures writer { result.writer ≡ writer }
        ensures none { string_bytes result.waits ≡ [] }
    {
        ExplainedBooks {
            alloc,
            books,
            writer,
            waits: String::new(alloc),
            names: NearNames::new(alloc),
        }
    }

    /// The books, after all lines. What waits is told, unless a fault has closed them.
    pub fn into_books(mut self) -> B
        requires { B.are_kept self.books }
        ensures { result ≡ self.books }
    {
        self.tell();
        let ExplainedBooks {
            alloc: _,
            books,
            writer: _,
            waits: _,
            names: _,
        } = self;
        books
    }

    // Writes what waits, where somebody is told.
    fn write(&mut self)
        ensures books { self.new.books ≡ self.old.books }
    {
        if let Some(writer) = &mut self.writer {
            if !self.waits.is_empty() {
                let _ = writer.write_all(self.waits.as_bytes());
            }
        }
    }

    // Tells what waits. Where a fault has closed the books it is dropped.
    fn tell(&mut self)
        requires { B.are_grouping self.old.books }
        ensures books { self.new.books ≡ self.old.books }
        ensures none { string_bytes self.new.waits ≡ [] }
        ensures undone { IsSome (B.failure_of self.old.books)
            → self.new.writer ≡ self.old.writer }
    {
        if self.books.shop().is_ok() {
            self.write();
        }
        self.waits = String::new(self.alloc);
    }

    // Files the names that the books have, where a request may give one and somebody is told. Without the memory for it
    // fewer are filed.
    fn file_names(&mut self, request: &Request)
        requires { B.are_grouping self.old.books }
        ensures books { self.new.books ≡ self.old.books }
        ensures writer { self.new.writer ≡ self.old.writer }
        ensures waits { self.new.waits ≡ self.old.waits }
    {
        if self.writer.is_none() || !NearNames::may_name(&request.command) {
            return;
        }
        if let Ok(shop) = self.books.shop() {
            let _ = self.names.catch_up(self.alloc, shop);
        }
    }

    // Adds a reason to those that wait, where it is told. An error is one of memory, and adds none.
    fn note(&mut self, why: &Why<'_>) -> Result<(), AllocError>
        requires { B.are_grouping self.old.books }
        ensures books { self.new.books ≡ self.old.books }
        ensures notes { Notes (B.state_in self.old.books) why.now (string_bytes self.old.waits)
            (string_bytes self.new.waits) }
        ensures told { OnOk result (IsSome self.old.writer → B.failure_of self.old.books ≡ None
            → AddsReason (B.state_in self.old.books) why.now (string_bytes self.old.waits)
            (string_bytes self.new.waits)) }
        ensures nobody { self.old.writer ≡ None → self.new ≡ self.old }
    {
        if self.writer.is_none() {
            return Ok(());
        }
        let Ok(shop) = self.books.shop() else {
            return Ok(());
        };
        let text = reason(self.alloc, shop, &self.names, why)?;
        self.waits.push_str(text.as_str())
    }
}

impl<B: Books + Drop, W: Write + Drop> Books for ExplainedBooks<B, W> {
    ghost state_in = { λ explained. B.state_in explained.books };

    ghost are_kept = { λ explained. B.are_kept explained.books };

    ghost are_grouping = { λ explained. B.are_grouping explained.books };

    ghost failure_of = { λ explained. B.failure_of explained.books };

    ghost may_leave = { λ explained. B.may_leave explained.books };

    ghost reasons_in = { λ explained. string_bytes explained.waits };

    ghost are_explained = { λ explained. IsSome explained.writer };

    fn run(&mut self, request: &Request) -> Result<Answer, Fault> {
        self.books.run(request)
    }

    fn run_grouped(&mut self, request: &Request) -> Result<Answer, Fault> {
        self.file_names(request);
        self.books.run_grouped(request)
    }

    // What waits is told once the group is kept.
    fn commit(&mut self) -> Result<(), Fault>
        requires { B.are_grouping self.old.books }
        ensures kept { B.are_kept self.new.books }
        ensures same { B.state_in self.new.books ≡ B.state_in self.old.books }
        ensures was_open { OnOk result (B.failure_of self.old.books ≡ None) }
        ensures open { OnOk result (B.failure_of self.new.books ≡ None) }
        ensures closed { OnErr result (IsSome (B.failure_of self.new.books)) }
        ensures left { (trees : Trees) → B.may_leave self.new.books trees
            → B.may_leave self.old.books trees ⊎ TablesAre (B.state_in self.new.books) trees }
        ensures undone { OnErr result (self.new.writer ≡ self.old.writer) }
    {
        let kept = self.books.commit();
        self.tell();
        kept
    }

    fn explain(&mut self, why: &Why<'_>) -> Result<(), AllocError> {
        self.note(why)
    }

    fn shop(&self) -> Result<&Shop, Fault> {
        self.books.shop()
    }

    ghost leave_their_tables = { λ explained kept none trees may.
        B.leave_their_tables explained.books kept none trees may };

    ghost begin_group = { λ explained kept. B.begin_group explained.books kept };

    ghost closed_are_kept = { λ explained grouping shut.
        B.closed_are_kept explained.books grouping shut };

    ghost are_in_order = { λ explained kept. B.are_in_order explained.books kept };
}
