//! A desk over a database.
//!
//! It holds the shop whose state the tables have. A request is decided on the shop; what it changes is written in one
//! transaction, and answered once that is committed. A refusal and a kept answer touch no table. Where memory runs out,
//! the shop and the tables are as they were. Where the database fails, the desk is closed: no later request is run, and
//! what the file then holds, the tables before or after that request, is found by opening it again.
ghost use Rattle.std.specs.Prelude.{◌≡◌, ◌↔◌, ◌⊎◌, ◌+◌, None, IfSome, IsSome};
ghost use Rattle.std.specs.Prelude.{is_some, length, IfOk, IfErr, OnErr, OnOk, Err};
ghost use Rattle.sqlite.specs.Held.{state};
ghost use Rattle.sqlite.specs.State.{HasCleanDisk, Survives};
ghost use Rattle.sqlite.specs.Tree.{Trees};
ghost use Rattle.desk_core.specs.Books.{AreInOrder};
ghost use Rattle.desk_core.specs.Machine.{AreDrawn, IsAnew, answers_of, entries_in, entries_of, ids_of, run, step};
ghost use Rattle.desk_core.specs.ShopView.{state_of};
ghost use Rattle.desk_store.specs.StateTables.{TablesAre};
ghost use Rattle.desk_store.specs.Desks.{IsDesk};
ghost use Rattle.desk_store.specs.Outcomes.{AreLeft, Closes, Tells, answered, stopped_at, told};

use crate::fault::Fault;
use crate::save::save;
use desk_core::{Accepted, Request, Shop};
use part_core::Answer;
use sqlite::{Alter, Connection};
use std::alloc::{AllocError, Global};
use table_store::{Failed, TableFault};

/// A workshop's books: a shop, and the database that keeps its state.
pub struct Desk<S: Alter> {
    pub(crate) conn: Connection<S>,
    pub(crate) shop: Shop,
    pub(crate) failed: Option<Failed>,
    pub(crate) alloc: Global,
}

// It is written out, so that a caller does not prove again how each part is dropped.
impl<S: Alter + Drop> Drop for Desk<S> {
    fn drop(self) {
        let Desk {
            conn: _,
            shop: _,
            failed: _,
            alloc: _,
        } = self;
    }
}

impl<S: Alter> Desk<S> {
    /// The shop, whose state the tables have: `Closed` where the desk is.
    pub fn shop(&self) -> Result<&Shop, Fault>
        ensures shop { IfOk result (λ shop. shop.now ≡ self.now.shop) }
        ensures closed { IfErr result (λ fault. fault ≡ Fault.Closed) }
        ensures exact { OnErr result (IsSome self.now.failed) }
        ensures open { OnOk result (self.now.failed ≡ None) }
    {
        match &self.failed {
            None => Ok(&self.shop),
            Some(_) => Err(Fault::Closed),
        }
    }

    /// What the database answered that closed the desk, which is there exactly where the desk is closed.
    pub fn failed(&self) -> Option<&Failed>
        ensures { is_some result ≡ is_some self.now.failed }
    {
        self.failed.as_ref()
    }

    /// Runs one request: its answer is given after its changes are committed.
    ///
    /// `Store` where the database failed, which closes the desk; what a crash then leaves are the tables before or
    /// after this request. Every call of a closed desk answers `Closed`. After `Refused` and `Memory` nothing has
    /// changed.
    pub fn run(&mut self, request: &Request) -> Result<Answer, Fault>
        requires { IsDesk S.Store self.old }
        ensures desk { IsDesk S.Store self.new }
        ensures tells { Tells (state_of self.old.shop) request.now result (state_of self.new.shop) }
        ensures closed { (result ≡ Err Fault.Closed) ↔ IsSome self.old.failed }
        ensures store { IsSome self.new.failed
            ↔ ((result ≡ Err Fault.Store) ⊎ IsSome self.old.failed) }
        ensures crash { Survives (state S.Store self.old.conn) (state S.Store self.new.conn)
            (λ trees. TablesAre (step (state_of self.old.shop) request.now).0 trees) }
        ensures idle { IsSome self.old.failed → self.new ≡ self.old }
    {
        if self.failed.is_some() {
            return Err(Fault::Closed);
        }
        let answer = match self.shop.accept(request)? {
            Accepted::Anew(answer) => answer,
            // A repeat has changed nothing.
            Accepted::Again(answer) => return Ok(answer),
        };
        match save(self.alloc, &mut self.conn, &self.shop) {
            Ok(()) => Ok(answer),
            Err(TableFault::Memory) => {
                self.shop.back();
                Err(Fault::Memory)
            }
            Err(
                TableFault::Store(failed)
                | TableFault::NoTable(failed)
                | TableFault::BadRow(failed),
            ) => {
                self.shop.back();
                self.failed = Some(failed);
                Err(Fault::Store)
            }
        }
    }

    /// Runs the requests in their order. The list of outcomes is made first: where there is no memory for it, none is
    /// run.
    pub fn run_list(
        &mut self,
        alloc: Global,
        requests: &[Request],
    ) -> Result<Vec<Result<Answer, Fault>>, AllocError>
        requires { IsDesk S.Store self.old }
        ensures desk { IsDesk S.Store self.new }
        ensures ran { IfOk result (λ outcomes.
            run (state_of self.old.shop) (answered requests.now outcomes.items)
            ≡ (state_of self.new.shop, told outcomes.items)) }
        ensures count { IfOk result (λ outcomes. length outcomes.items ≡ length requests.now) }
        ensures closes { IfOk result (λ outcomes.
            Closes (is_some self.old.failed) outcomes.items (is_some self.new.failed)) }
        ensures left { IfOk result (λ outcomes. self.old.failed ≡ None
            → HasCleanDisk (state S.Store self.new.conn) → (trees : Trees)
            → (state S.Store self.new.conn).may_leave trees
            → AreLeft (state_of self.new.shop) (stopped_at requests.now outcomes.items) trees) }
        ensures drawn { IfOk result (λ outcomes.
            let answers = answers_of (state_of self.old.shop)
            (answered requests.now outcomes.items) in
            AreDrawn (state_of self.old.shop).counter.next (ids_of answers)
            (state_of self.new.shop).counter.next) }
        ensures written { IfOk result (λ outcomes.
            let answers = answers_of (state_of self.old.shop)
            (answered requests.now outcomes.items) in
            entries_in (state_of self.new.shop)
            ≡ entries_in (state_of self.old.shop) + entries_of answers) }
        ensures stopped { IfOk result (λ outcomes.
            IfSome (stopped_at requests.now outcomes.items) (IsAnew (state_of self.new.shop))) }
        ensures in_order { AreInOrder (state_of self.new.shop) }
        ensures none_run { OnErr result (self.new ≡ self.old) }
    {
        let mut outcomes = Vec::with_capacity(alloc, requests.len())?;
        for request in requests {
            let outcome = self.run(request);
            outcomes.push_reserved(outcome);
        }
        Ok(outcomes)
    }

    /// The connection, as it is. After a fault of the database it has to be closed and opened again.
    pub fn close(self) -> Connection<S>
        ensures { result ≡ self.conn }
    {
        let Desk {
            conn,
            shop: _,
            failed: _,
            alloc: _,
        } = self;
        conn
    }
}
