//! A desk that runs requests in groups: what they change is committed together.
//!
//! A request comes from a run of lines (`desk_app` `src/run.rt`). The shop does it (`desk_core` `src/shop.rt`), and
//! what it changed goes by `src/add.rt` into the tables (`table_store` `src/write.rt`).
//!
//! What holds, each by the clauses of that name:
//!
//! 1. `grouping`: between `run_grouped` and `commit` the shop is that after all requests so far, and so are the tables
//!    that the transaction shows, but for the row of the counter, which `commit` writes. Behind a group it is a desk
//!    again (`desk`), whose database holds its state.
//! 2. `tells`: a request is told what one step of the machine tells, and the state is the one after it. Where it is
//!    told a fault, or that there is no memory, the state is the one before it.
//! 3. `crash`: until `commit` a crash leaves the tables of the last commit; as it commits, those or the tables of the
//!    desk's state.
//! 4. `store`, `stops`: a desk that is open is closed exactly where `Store` is told: of a fault of the database, and of
//!    a want of memory for a row of a group that has others, or for the commit. The whole group is undone then.
//! 5. `closed`, `idle`: every call of a closed desk answers `Closed` and does nothing.
//!
//! A group needs no beginning: the first request that changes anything begins the transaction, so a group of refusals,
//! of repeats or of none costs nothing.
ghost use Rattle.std.specs.Prelude.{◌≡◌, ◌↔◌, ◌⊎◌, None, IsSome, OnErr, OnOk, IfErr, Err};
ghost use Rattle.sqlite.specs.Held.{state};
ghost use Rattle.sqlite.specs.State.{HasCleanDisk, Survives};
ghost use Rattle.desk_core.specs.Machine.{IsSoundState};
ghost use Rattle.desk_core.specs.ShopView.{state_of};
ghost use Rattle.desk_store.specs.StateTables.{TablesAre};
ghost use Rattle.desk_store.specs.Desks.{IsDesk};
ghost use Rattle.desk_store.specs.Groups.{IsGrouping};
ghost use Rattle.desk_store.specs.Outcomes.{Tells};

use crate::add::{add, finish, undo};
use crate::desk::Desk;
use crate::fault::Fault;
use desk_core::{Accepted, Request};
use part_core::Answer;
use sqlite::Alter;
use table_store::{Failed, TableFault};

/// What a fault that closes a desk is known by.
fn why_closed(fault: TableFault) -> Failed {
    match fault {
        TableFault::Store(failed) | TableFault::NoTable(failed) | TableFault::BadRow(failed) => {
            failed
        }
        TableFault::Memory => Failed::no_memory(),
    }
}

impl<S: Alter> Desk<S> {
    /// Runs one request of a group. Its answer is to be given after the group is committed.
    ///
    /// `Store` where the database failed, which closes the desk and undoes the whole group: a crash leaves the tables of
    /// the last commit. So it is, too, where memory ran out for a row and the group had others. Every call of a closed
    /// desk answers `Closed`. After `Refused` and `Memory` nothing has changed.
    pub fn run_grouped(&mut self, request: &Request) -> Result<Answer, Fault>
        requires { IsGrouping S.Store self.old }
        ensures grouping { IsGrouping S.Store self.new }
        ensures tells { Tells (state_of self.old.shop) request.now result (state_of self.new.shop) }
        ensures closed { (result ≡ Err Fault.Closed) ↔ IsSome self.old.failed }
        ensures store { IsSome self.new.failed
            ↔ ((result ≡ Err Fault.Store) ⊎ IsSome self.old.failed) }
        ensures crash { Survives (state S.Store self.old.conn) (state S.Store self.new.conn)
            (λ _. ⊥) }
        ensures idle { IsSome self.old.failed → self.new ≡ self.old }
    {
        if self.failed.is_some() {
            return Err(Fault::Closed);
        }
        let answer = match self.shop.accept(request)? {
            Accepted::Anew(answer) => answer,
            // A repeat has changed nothing.
            Accepted::Again(answer) => return Ok(answer),
        };
        match add(self.alloc, &mut self.conn, &self.shop) {
            Ok(()) => Ok(answer),
            Err(TableFault::Memory) => {
                self.shop.back();
                Err(Fault::Memory)
            }
            Err(fault) => {
                self.shop.back();
                self.failed = Some(why_closed(fault));
                Err(Fault::Store)
            }
        }
    }

    /// Ends the group: what its requests changed is committed, all of it or nothing.
    ///
    /// `Store` where the database failed, or memory ran out, which closes the desk; what a crash then leaves are the
    /// tables of the last commit or those of the desk's state. A closed desk answers `Closed`.
    pub fn commit(&mut self) -> Result<(), Fault>
        requires { IsGrouping S.Store self.old }
        ensures desk { IsDesk S.Store self.new }
        ensures shop { self.new.shop ≡ self.old.shop }
        ensures closed { (result ≡ Err Fault.Closed) ↔ IsSome self.old.failed }
        ensures store { IsSome self.new.failed ↔ ((result ≡ Err Fault.Store) ⊎ IsSome self.old.failed) }
        ensures stops { OnErr result (IsSome self.new.failed) }
        ensures crash { Survives (state S.Store self.old.conn) (state S.Store self.new.conn)
            (λ trees. TablesAre (state_of self.old.shop) trees) }
        ensures idle { IsSome self.old.failed → self.new ≡ self.old }
    {
        if self.failed.is_some() {
            return Err(Fault::Closed);
        }
        if let Err(fault) = finish(self.alloc, &mut self.conn, &self.shop) {
            self.failed = Some(why_closed(fault));
            return Err(Fault::Store);
        }
        Ok(())
    }

    /// Ends the group where nothing of it may be kept: it is undone, and this fault closes the desk, so a crash leaves the
    /// tables of the last commit.
    ///
    /// The answer is `Store`, and that of a desk that was closed before, to which nothing is done, `Closed`.
    pub fn give_up(&mut self, why: Failed) -> Fault
        requires { IsGrouping S.Store self.old }
        ensures desk { IsDesk S.Store self.new }
        ensures shop { self.new.shop ≡ self.old.shop }
        ensures answer { (result ≡ Fault.Store) ⊎ (result ≡ Fault.Closed) }
        ensures closed { (result ≡ Fault.Closed) ↔ IsSome self.old.failed }
        ensures stops { IsSome self.new.failed }
        ensures crash { Survives (state S.Store self.old.conn) (state S.Store self.new.conn)
            (λ _. ⊥) }
        ensures idle { IsSome self.old.failed → self.new ≡ self.old }
    {
        if self.failed.is_some() {
            return Fault::Closed;
        }
        undo(&mut self.conn);
        self.failed = Some(why);
        Fault::Store
    }

    /// Runs one request where nothing may be kept: a refusal and a repeat, which change nothing, are told, and at any other
    /// request this fault closes the desk. No call of the database is made.
    ///
    /// A closed desk answers `Closed`. After `Refused` and `Memory` nothing has changed.
    pub fn run_unkept(&mut self, request: &Request, why: Failed) -> Result<Answer, Fault>
        requires { IsDesk S.Store self.old }
        ensures desk { IsDesk S.Store self.new }
        ensures tells { Tells (state_of self.old.shop) request.now result (state_of self.new.shop) }
        ensures closed { (result ≡ Err Fault.Closed) ↔ IsSome self.old.failed }
        ensures store { IsSome self.new.failed
            ↔ ((result ≡ Err Fault.Store) ⊎ IsSome self.old.failed) }
        ensures conn { self.new.conn ≡ self.old.conn }
        ensures idle { IsSome self.old.failed → self.new ≡ self.old }
    {
        if self.failed.is_some() {
            return Err(Fault::Closed);
        }
        match self.shop.accept(request)? {
            Accepted::Again(answer) => Ok(answer),
            Accepted::Anew(_answer) => {
                self.shop.back();
                self.failed = Some(why);
                Err(Fault::Store)
            }
        }
    }
}
