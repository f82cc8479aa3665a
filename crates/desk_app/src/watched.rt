//! A desk whose file is looked at before anything is kept in it, and whose fault of the database is told when it happens.
//! The desk is closed then, and nothing more is done: so it is told once, with the file and the reason, to whoever reads
//! the standard error.
//!
//! Where another file lies at the path, or none, that is a fault of the database: what was kept would be answered, and
//! nobody would find it.
ghost use Rattle.std.specs.Prelude.{◌≡◌, ◌↔◌, ◌⊎◌, true, false, Err, None, IsSome, OnErr, OnOk};
ghost use Rattle.sqlite.specs.Held.{state};
ghost use Rattle.sqlite.specs.State.{HasCleanDisk};
ghost use Rattle.sqlite.specs.Tree.{Trees};
ghost use Rattle.desk_core.specs.Machine.{step};
ghost use Rattle.desk_core.specs.ShopView.{state_of};
ghost use Rattle.desk_core.proofs.InOrder.{in_order};
ghost use Rattle.desk_store.specs.StateTables.{TablesAre};
ghost use Rattle.desk_store.specs.Desks.{IsDesk};
ghost use Rattle.desk_store.specs.Groups.{IsGrouping};
ghost use Rattle.desk_store.specs.Outcomes.{Tells};
ghost use Rattle.desk_store.proofs.Grouping.{begins_group, closed_desk};

use crate::books::Books;
use crate::held::HeldFile;
use crate::undone::Why;
use desk_core::{Request, Shop};
use desk_store::{Desk, Fault};
use part_core::Answer;
use sqlite::Alter;
use std::alloc::AllocError;
use std::io::Write;
use table_store::Failed;

/// What the line that tells of a fault says besides, to whoever keeps a service.
#[derive(Clone, Copy)]
pub enum Advice {
    Nothing,
    /// The service goes on, and answers nothing any more.
    StartAgain,
    /// The service ends.
    Ends,
}

impl Advice {
    /// What the line ends with.
    fn text(self) -> &'static str {
        match self {
            Advice::Nothing => "",
            Advice::StartAgain => "; all requests fail until the service is started again",
            Advice::Ends => "; the service ends, and what was answered is kept",
        }
    }
}

/// A desk, its file, and who is told of a fault. Where that can't be written it is left out.
#[derive(Drop)]
pub struct WatchedDesk<S: Alter, F, W> {
    desk: Desk<S>,
    file: F,
    advice: Advice,
    writer: W,
    told: bool,
}

impl<S: Alter, F: HeldFile + Drop, W: Write + Drop> WatchedDesk<S, F, W> {
    /// This desk of this file, of whose fault nothing was told yet.
    pub fn new(desk: Desk<S>, file: F, advice: Advice, writer: W) -> Self
        ensures desk { result.desk ≡ desk }
        ensures file { result.file ≡ file }
        ensures advice { result.advice ≡ advice }
        ensures writer { result.writer ≡ writer }
        ensures untold { result.told ≡ false }
    {
        WatchedDesk {
            desk,
            file,
            advice,
            writer,
            told: false,
        }
    }

    /// The desk, after the work on it.
    pub fn into_desk(self) -> Desk<S>
        ensures { result ≡ self.desk }
    {
        let WatchedDesk {
            desk,
            file: _,
            advice: _,
            writer: _,
            told: _,
        } = self;
        desk
    }

    // Tells the fault that has closed the desk, if one has and it wasn't told before.
    fn tell(&mut self)
        ensures desk { self.new.desk ≡ self.old.desk }
        ensures told { IsSome self.old.desk.failed → self.new.told ≡ true }
        ensures once { self.old.told ≡ true → self.new ≡ self.old }
        ensures silent { self.old.desk.failed ≡ None → self.new ≡ self.old }
    {
        if self.told {
            return;
        }
        if let Some(failed) = self.desk.failed() {
            let name = self.file.name();
            let advice = self.advice.text();
            let _ = writeln!(self.writer, "invdesk: {name}: {failed}{advice}");
            self.told = true;
        }
    }

    // Runs a request where the file was seen in its place. Elsewhere no call of the database is made, so nothing is kept.
    fn run_if_in_place(&mut self, in_place: bool, request: &Request) -> Result<Answer, Fault>
        requires { IsDesk S.Store self.old.desk }
        ensures kept { IsDesk S.Store self.new.desk }
        ensures tells { Tells (state_of self.old.desk.shop) request.now result
            (state_of self.new.desk.shop) }
        ensures closed { (result ≡ Err Fault.Closed) ↔ IsSome self.old.desk.failed }
        ensures store { IsSome self.new.desk.failed
            ↔ ((result ≡ Err Fault.Store) ⊎ IsSome self.old.desk.failed) }
        ensures left { self.old.desk.failed ≡ None → (trees : Trees)
            → HasCleanDisk (state S.Store self.new.desk.conn)
            × (state S.Store self.new.desk.conn).may_leave trees
            → TablesAre (state_of self.new.desk.shop) trees
            ⊎ TablesAre (step (state_of self.new.desk.shop) request.now).0 trees }
        ensures elsewhere { in_place ≡ false → self.new.desk.conn ≡ self.old.desk.conn }
    {
        if in_place {
            return Books::run(&mut self.desk, request);
        }
        self.desk.run_unkept(request, Failed::displaced())
    }

    // Ends the group where the file was seen in its place. Elsewhere the group isn't answered, and a crash leaves what it
    // would have left before.
    fn commit_if_in_place(&mut self, in_place: bool) -> Result<(), Fault>
        requires { IsGrouping S.Store self.old.desk }
        ensures kept { IsDesk S.Store self.new.desk }
        ensures same { state_of self.new.desk.shop ≡ state_of self.old.desk.shop }
        ensures was_open { OnOk result (self.old.desk.failed ≡ None) }
        ensures open { OnOk result (self.new.desk.failed ≡ None) }
        ensures closed { OnErr result (IsSome self.new.desk.failed) }
        ensures left { (trees : Trees)
            → HasCleanDisk (state S.Store self.new.desk.conn)
            × (state S.Store self.new.desk.conn).may_leave trees
            → (HasCleanDisk (state S.Store self.old.desk.conn)
            × (state S.Store self.old.desk.conn).may_leave trees)
            ⊎ TablesAre (state_of self.new.desk.shop) trees }
        ensures unanswered { in_place ≡ false → OnOk result ⊥ }
        ensures elsewhere { in_place ≡ false → (trees : Trees)
            → HasCleanDisk (state S.Store self.new.desk.conn)
            × (state S.Store self.new.desk.conn).may_leave trees
            → HasCleanDisk (state S.Store self.old.desk.conn)
            × (state S.Store self.old.desk.conn).may_leave trees }
    {
        if in_place {
            return Books::commit(&mut self.desk);
        }
        Err(self.desk.give_up(Failed::displaced()))
    }
}

impl<S: Alter, F: HeldFile + Drop, W: Write + Drop> Books for WatchedDesk<S, F, W> {
    ghost state_in = { λ watched. state_of watched.desk.shop };

    ghost are_kept = { λ watched. IsDesk S.Store watched.desk };

    ghost are_grouping = { λ watched. IsGrouping S.Store watched.desk };

    ghost failure_of = { λ watched. watched.desk.failed };

    ghost may_leave = { λ watched trees. HasCleanDisk (state S.Store watched.desk.conn)
        × (state S.Store watched.desk.conn).may_leave trees };

    fn run(&mut self, request: &Request) -> Result<Answer, Fault> {
        let in_place = self.file.is_in_place();
        let outcome = self.run_if_in_place(in_place, request);
        self.tell();
        outcome
    }

    fn run_grouped(&mut self, request: &Request) -> Result<Answer, Fault> {
        let outcome = Books::run_grouped(&mut self.desk, request);
        self.tell();
        outcome
    }

    fn commit(&mut self) -> Result<(), Fault> {
        let in_place = self.file.is_in_place();
        let outcome = self.commit_if_in_place(in_place);
        self.tell();
        outcome
    }

    fn explain(&mut self, _why: &Why<'_>) -> Result<(), AllocError> {
        Ok(())
    }

    fn shop(&self) -> Result<&Shop, Fault> {
        Books::shop(&self.desk)
    }

    ghost leave_their_tables = { λ watched kept none trees may.
        (kept.books none may.0).left trees may.1 };

    ghost begin_group = { λ watched kept. begins_group _ watched.desk kept };

    ghost closed_are_kept = { λ watched grouping shut. closed_desk _ watched.desk grouping shut };

    ghost are_in_order = { λ watched kept. in_order (state_of watched.desk.shop) kept.sound };
}
