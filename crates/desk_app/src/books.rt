//! The books that lines are run on: a desk, or a shop alone. Requests are run alone, or in groups that are kept together; to
//! a shop alone a group is nothing.
ghost use Rattle.std.specs.Prelude.{◌≡◌, ◌↔◌, ◌⊎◌, ℕ, List, [], Option, None, IfOk, OnOk, OnErr, Err, IsSome};
ghost use Rattle.sqlite.specs.Held.{state};
ghost use Rattle.sqlite.specs.State.{HasCleanDisk};
ghost use Rattle.sqlite.specs.Tree.{Trees};
ghost use Rattle.table_store.specs.declared.fault.Failed.{Failed};
ghost use Rattle.desk_core.specs.Books.{AreInOrder};
ghost use Rattle.desk_core.specs.Machine.{IsSoundState, State, step};
ghost use Rattle.desk_core.specs.ShopView.{state_of};
ghost use Rattle.desk_core.proofs.InOrder.{in_order};
ghost use Rattle.desk_store.specs.StateTables.{TablesAre};
ghost use Rattle.desk_store.specs.Desks.{IsDesk};
ghost use Rattle.desk_store.specs.Groups.{IsGrouping};
ghost use Rattle.desk_store.specs.Outcomes.{Tells};
ghost use Rattle.desk_store.proofs.Grouping.{begins_group, closed_desk};
ghost use Rattle.desk_app.specs.Reasons.{AddsReason, Notes};

use crate::undone::Why;
use desk_core::{Request, Shop};
use desk_store::{Desk, Fault};
use part_core::Answer;
use sqlite::Alter;
use std::alloc::AllocError;

/// Books that requests are run on, and reports are made of.
pub trait Books {
    // the state of the machine that they hold
    ghost state_in: { Self → State };

    // what holds of them between two groups of requests
    ghost are_kept: { Self → Type 0 };

    // what holds of them in the midst of a group, of which nothing is committed yet
    ghost are_grouping: { Self → Type 0 };

    // the fault of the database that has closed them, if one has
    ghost failure_of: { Self → Option Failed };

    // the tables that a crash may leave of them
    ghost may_leave: { Self → Trees → Type 0 };

    // what waits to be told of why lines and rows weren't done
    ghost reasons_in: { Self → List ℕ } = { λ _. [] };

    // whether somebody is told
    ghost are_explained: { Self → Type 0 } = { λ _. ⊥ };

    /// Runs one request. What it changes is kept before it is answered.
    fn run(&mut self, request: &Request) -> Result<Answer, Fault>
        requires { are_kept self.old }
        ensures kept { are_kept self.new }
        ensures tells { Tells (state_in self.old) request.now result (state_in self.new) }
        ensures closed { (result ≡ Err Fault.Closed) ↔ IsSome (failure_of self.old) }
        ensures store { IsSome (failure_of self.new)
            ↔ ((result ≡ Err Fault.Store) ⊎ IsSome (failure_of self.old)) }
        ensures left { failure_of self.old ≡ None → (trees : Trees) → may_leave self.new trees
            → TablesAre (state_in self.new) trees
            ⊎ TablesAre (step (state_in self.new) request.now).0 trees };

    /// Runs one request of a group. Its answer is to be given once `commit` has kept what the group changes. Where a fault
    /// closes the books, the whole group is undone.
    fn run_grouped(&mut self, request: &Request) -> Result<Answer, Fault>
        requires { are_grouping self.old }
        ensures grouping { are_grouping self.new }
        ensures tells { Tells (state_in self.old) request.now result (state_in self.new) }
        ensures closed { (result ≡ Err Fault.Closed) ↔ IsSome (failure_of self.old) }
        ensures store { IsSome (failure_of self.new)
            ↔ ((result ≡ Err Fault.Store) ⊎ IsSome (failure_of self.old)) }
        ensures left { (trees : Trees) → may_leave self.new trees → may_leave self.old trees }
        ensures quiet { reasons_in self.new ≡ reasons_in self.old };

    /// Ends the group: what it changes is kept, all of it, or nothing where a fault closes the books.
    fn commit(&mut self) -> Result<(), Fault>
        requires { are_grouping self.old }
        ensures kept { are_kept self.new }
        ensures same { state_in self.new ≡ state_in self.old }
        ensures was_open { OnOk result (failure_of self.old ≡ None) }
        ensures open { OnOk result (failure_of self.new ≡ None) }
        ensures closed { OnErr result (IsSome (failure_of self.new)) }
        ensures left { (trees : Trees) → may_leave self.new trees
            → may_leave self.old trees ⊎ TablesAre (state_in self.new) trees };

    /// Is told why a line or a row wasn't done, for whoever is told of it. Nothing of what they hold changes. An error is one
    /// of memory. Then, or where a fault has closed them, nobody is told.
    fn explain(&mut self, why: &Why<'_>) -> Result<(), AllocError>
        requires { are_grouping self.old }
        ensures grouping { are_grouping self.new }
        ensures kept { are_kept self.old → are_kept self.new }
        ensures same { state_in self.new ≡ state_in self.old }
        ensures failure { failure_of self.new ≡ failure_of self.old }
        ensures left { (trees : Trees) → may_leave self.new trees → may_leave self.old trees }
        ensures notes { Notes (state_in self.old) why.now (reasons_in self.old)
            (reasons_in self.new) }
        ensures told { OnOk result (are_explained self.old → failure_of self.old ≡ None
            → AddsReason (state_in self.old) why.now (reasons_in self.old)
            (reasons_in self.new)) };

    /// The shop that holds their state: `Closed` where a fault has closed them.
    fn shop(&self) -> Result<&Shop, Fault>
        requires { are_grouping self.now }
        ensures shop { IfOk result (λ shop. state_of shop.now ≡ state_in self.now) }
        ensures sound { IfOk result (λ shop. IsSoundState (state_of shop.now)) }
        ensures open { OnOk result (failure_of self.now ≡ None) }
        ensures closed { OnErr result (IsSome (failure_of self.now)) };

    // where no fault has closed them, a crash leaves the tables of their state
    ghost leave_their_tables: { (books : Self) → are_kept books → failure_of books ≡ None
        → (trees : Trees) → may_leave books trees → TablesAre (state_in books) trees };

    // a group may begin between two
    ghost begin_group: { (books : Self) → are_kept books → are_grouping books };

    // what a fault has closed is in no group
    ghost closed_are_kept: { (books : Self) → are_grouping books → IsSome (failure_of books)
        → are_kept books };

    // nothing is lost in them, and nothing stands twice
    ghost are_in_order: { (books : Self) → are_kept books → AreInOrder (state_in books) };
}

impl<S: Alter> Books for Desk<S> {
    ghost state_in = { λ desk. state_of desk.shop };

    ghost are_kept = { IsDesk S.Store };

    ghost are_grouping = { IsGrouping S.Store };

    ghost failure_of = { λ desk. desk.failed };

    ghost may_leave = { λ desk trees. HasCleanDisk (state S.Store desk.conn)
        × (state S.Store desk.conn).may_leave trees };

    fn run(&mut self, request: &Request) -> Result<Answer, Fault> {
        Desk::run(self, request)
    }

    fn run_grouped(&mut self, request: &Request) -> Result<Answer, Fault> {
        Desk::run_grouped(self, request)
    }

    fn commit(&mut self) -> Result<(), Fault> {
        Desk::commit(self)
    }

    fn explain(&mut self, _why: &Why<'_>) -> Result<(), AllocError> {
        Ok(())
    }

    fn shop(&self) -> Result<&Shop, Fault> {
        Desk::shop(self)
    }

    ghost leave_their_tables = { λ desk kept none trees may.
        (kept.books none may.0).left trees may.1 };

    ghost begin_group = { λ desk kept. begins_group _ desk kept };

    ghost closed_are_kept = { λ desk grouping shut. closed_desk _ desk grouping shut };

    ghost are_in_order = { λ desk kept. in_order (state_of desk.shop) kept.sound };
}

// A shop alone ends with the run: nothing of it outlives a crash, and no database can fail under it.
impl Books for Shop {
    ghost state_in = { state_of };

    ghost are_kept = { λ shop. IsSoundState (state_of shop) };

    ghost are_grouping = { λ shop. IsSoundState (state_of shop) };

    ghost failure_of = { λ _. None };

    ghost may_leave = { λ _ _. ⊥ };

    fn run(&mut self, request: &Request) -> Result<Answer, Fault> {
        Ok(self.decide(request)?)
    }

    fn run_grouped(&mut self, request: &Request) -> Result<Answer, Fault> {
        Books::run(self, request)
    }

    fn commit(&mut self) -> Result<(), Fault> {
        Ok(())
    }

    fn explain(&mut self, _why: &Why<'_>) -> Result<(), AllocError> {
        Ok(())
    }

    fn shop(&self) -> Result<&Shop, Fault> {
        Ok(self)
    }

    ghost leave_their_tables = { λ shop kept none trees may. absurd may };

    ghost begin_group = { λ shop kept. kept };

    ghost closed_are_kept = { λ shop grouping shut. grouping };

    ghost are_in_order = { λ shop kept. in_order (state_of shop) kept };
}
