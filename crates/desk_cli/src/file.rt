//! A desk in a database, and what is printed of it.
ghost use Rattle.std.specs.Prelude.{◌≡◌, ◌≢◌, ◌↔◌, ◌⊎◌, Bool, false, true, None, IfOk, IfErr, IsSome, IsTrue};
ghost use Rattle.std.specs.Io.KnownBytes.{Appends, Keeps};
ghost use Rattle.sqlite.specs.Held.{state};
ghost use Rattle.sqlite.specs.State.{HasCleanDisk};
ghost use Rattle.sqlite.specs.Tree.{Trees};
ghost use Rattle.sqlite_trees.specs.View.{IsClean};
ghost use Rattle.desk_core.specs.Machine.{IsSoundState, State};
ghost use Rattle.desk_core.specs.ShopView.{state_of};
ghost use Rattle.desk_store.specs.StateTables.{TablesAre};
ghost use Rattle.desk_store.specs.Desks.{IsDesk};
ghost use Rattle.desk_store.specs.Migrating.{EitherAre};
ghost use Rattle.desk_store.specs.Dumps.{dump_text};
ghost use Rattle.desk_store.specs.Exports.{AppendsFront, table_text};
ghost use Rattle.report_core.specs.History.{history_lines};
ghost use Rattle.report_core.specs.Reports.{report_lines};
ghost use Rattle.table_store.specs.Schema.{IsOwn};
ghost use Rattle.desk_core.specs.Empty.{AreLargest, IsEmpty};
ghost use Rattle.desk_cli.specs.FileFaults.{IsBare, IsOfMaking, MayBeMoved, MayBeNew, TellsUnmoved, TellsWhy};
ghost use Rattle.desk_cli.specs.Printed.{IsPrinted, migrated_text};
ghost use Rattle.desk_wire.specs.Printed.{printed};

use crate::database::FileFault;
use desk_core::RunEnd;
use desk_store::{Desk, ExportFault, WriteFailed, send};
use desk_wire::{refused_text, tell_report_as_text};
use part_core::{Limits, Refusal, Seed};
use report_core::ReportName;
use sqlite::{Alter, Connection};
use std::alloc::Global;
use std::io::Write;
use table_store::{TableName, has_old_tables, has_tables, is_bare};

/// Whether the database has the tables of a desk, of this version or of version 1, and nothing else.
fn has_own_tables<S: Alter>(conn: &Connection<S>) -> bool
    ensures { IsTrue result ↔ IsOwn (state S.Store conn.now).now.schema }
{
    has_tables(conn) || has_old_tables(conn)
}

/// A new desk, with the largest limits, in a database that has nothing.
fn make_desk<S: Alter + Drop>(
    alloc: Global,
    seed: Seed,
    conn: Connection<S>,
    limits: Limits,
) -> Result<Desk<S>, (FileFault, S)>
    requires bare { IsBare (state S.Store conn) }
    requires largest { AreLargest limits }
    requires free { HasCleanDisk (state S.Store conn)
        → (state S.Store conn).in_transaction ≡ false }
    ensures desk { IfOk result (λ desk. IsDesk S.Store desk) }
    ensures open { IfOk result (λ desk. desk.failed ≡ None) }
    ensures new { IfOk result (λ desk. IsEmpty (state_of desk.shop)) }
    ensures unmade { IfErr result (λ e. IsOfMaking e.0) }
    ensures crash { IfErr result (λ e. IsClean (S.Store.view e.1) → (trees : Trees)
        → S.Store.recovers e.1 trees → (state S.Store conn).may_leave trees
        ⊎ MayBeNew trees e.0) }
{
    match Desk::create(alloc, seed, conn, limits) {
        Ok(desk) => Ok(desk),
        Err((fault, database)) => Err((FileFault::from(fault), database)),
    }
}

/// The desk whose tables the database has.
fn open_desk<S: Alter + Drop>(
    alloc: Global,
    seed: Seed,
    conn: Connection<S>,
) -> Result<Desk<S>, (FileFault, S)>
    requires { IsOwn (state S.Store conn).now.schema }
    ensures desk { IfOk result (λ desk. IsDesk S.Store desk) }
    ensures open { IfOk result (λ desk. desk.failed ≡ None) }
    ensures found { IfOk result (λ desk. HasCleanDisk (state S.Store desk.conn)
        → TablesAre (state_of desk.shop) (state S.Store conn).committed.trees) }
    ensures one { IfOk result (λ desk. HasCleanDisk (state S.Store desk.conn)
        → (s : State) → IsSoundState s → TablesAre s (state S.Store conn).committed.trees
        → s ≡ state_of desk.shop) }
    ensures why { IfErr result (λ e. IsClean (S.Store.view e.1)
        → TellsWhy (state S.Store conn) e.0) }
    ensures kept { IfErr result (λ e. IsClean (S.Store.view e.1)
        → IsTrue (S.Store.view e.1).is_open
        → (S.Store.view e.1).trees ≡ (state S.Store conn).committed.trees) }
    ensures crash { IfErr result (λ e. IsClean (S.Store.view e.1) → (trees : Trees)
        → S.Store.recovers e.1 trees → (state S.Store conn).may_leave trees) }
{
    match Desk::open(alloc, seed, conn) {
        Ok(desk) => Ok(desk),
        Err((fault, database)) => Err((FileFault::from(fault), database)),
    }
}

/// The desk that the database has. Where it has nothing, a new one with the largest limits. The database is handed back
/// beside a fault.
pub fn take_desk<S: Alter + Drop>(
    alloc: Global,
    seed: Seed,
    conn: Connection<S>,
) -> Result<Desk<S>, (FileFault, S)>
    requires { HasCleanDisk (state S.Store conn) → (state S.Store conn).in_transaction ≡ false }
    ensures desk { IfOk result (λ desk. IsDesk S.Store desk) }
    ensures open { IfOk result (λ desk. desk.failed ≡ None) }
    ensures new { IsBare (state S.Store conn) → IfOk result (λ desk.
        IsEmpty (state_of desk.shop)) }
    ensures found { ¬ IsBare (state S.Store conn) → IfOk result (λ desk.
        HasCleanDisk (state S.Store desk.conn)
        → TablesAre (state_of desk.shop) (state S.Store conn).committed.trees) }
    ensures one { ¬ IsBare (state S.Store conn) → IfOk result (λ desk.
        HasCleanDisk (state S.Store desk.conn) → (s : State) → IsSoundState s
        → TablesAre s (state S.Store conn).committed.trees → s ≡ state_of desk.shop) }
    ensures unmade { IsBare (state S.Store conn) → IfErr result (λ e. IsOfMaking e.0) }
    ensures why { ¬ IsBare (state S.Store conn) → IfErr result (λ e. IsClean (S.Store.view e.1)
        → TellsWhy (state S.Store conn) e.0) }
    ensures crash { IfErr result (λ e. IsClean (S.Store.view e.1) → (trees : Trees)
        → S.Store.recovers e.1 trees → (state S.Store conn).may_leave trees
        ⊎ (IsBare (state S.Store conn) × MayBeNew trees e.0)) }
    ensures kept { ¬ IsBare (state S.Store conn) → IfErr result (λ e.
        IsClean (S.Store.view e.1) → IsTrue (S.Store.view e.1).is_open
        → (S.Store.view e.1).trees ≡ (state S.Store conn).committed.trees) }
{
    if is_bare(&conn) {
        return make_desk(alloc, seed, conn, Limits::LARGEST);
    }
    if !has_own_tables(&conn) {
        return Err((FileFault::OtherTables, conn.into_store()));
    }
    open_desk(alloc, seed, conn)
}

/// The desk that the database has, after tables that an earlier program left are made this version's. A database that has
/// nothing is refused, and stays so. The database is handed back beside a fault.
pub fn migrate_desk<S: Alter + Drop>(
    alloc: Global,
    seed: Seed,
    conn: Connection<S>,
) -> Result<Desk<S>, (FileFault, S)>
    ensures desk { IfOk result (λ desk. IsDesk S.Store desk) }
    ensures open { IfOk result (λ desk. desk.failed ≡ None) }
    ensures found { IfOk result (λ desk. HasCleanDisk (state S.Store desk.conn)
        → EitherAre (state_of desk.shop) (state S.Store conn).committed.trees) }
    ensures one { IfOk result (λ desk. HasCleanDisk (state S.Store desk.conn)
        → (s : State) → IsSoundState s → EitherAre s (state S.Store conn).committed.trees
        → s ≡ state_of desk.shop) }
    ensures why { IfErr result (λ e. IsClean (S.Store.view e.1)
        → TellsUnmoved (state S.Store conn) e.0) }
    ensures kept { IfErr result (λ e. IsClean (S.Store.view e.1)
        → IsTrue (S.Store.view e.1).is_open
        → (S.Store.view e.1).trees ≡ (state S.Store conn).committed.trees) }
    ensures crash { IfErr result (λ e. IsClean (S.Store.view e.1) → (trees : Trees)
        → S.Store.recovers e.1 trees → (state S.Store conn).may_leave trees
        ⊎ MayBeMoved (state S.Store conn).committed.trees trees e.0) }
{
    if !has_own_tables(&conn) {
        return Err((FileFault::OtherTables, conn.into_store()));
    }
    match Desk::migrate(alloc, seed, conn) {
        Ok(desk) => Ok(desk),
        Err((fault, database)) => Err((FileFault::from(fault), database)),
    }
}

/// Prints that a file was brought along.
pub fn print_migrated<W: Write>(writer: &mut W) -> RunEnd
    ensures whole { (all : Bool) → result ≡ RunEnd.Done all
        → (all ≡ true) × Appends (W.contents writer.old) (W.contents writer.new) migrated_text }
    ensures front { result ≡ RunEnd.WriteFailed
        → AppendsFront (W.contents writer.old) (W.contents writer.new) migrated_text }
    ensures only { (result ≡ RunEnd.Done true) ⊎ (result ≡ RunEnd.WriteFailed) }
{
    match send(writer, b"migrated\n") {
        Ok(()) => RunEnd::Done(true),
        Err(WriteFailed) => RunEnd::WriteFailed,
    }
}

/// Prints the report of that name as text, or that there is no such row, which isn't fine: the whole text in one write.
fn print_whole<S: Alter, W: Write>(
    alloc: Global,
    desk: &Desk<S>,
    name: ReportName,
    of: u64,
    writer: &mut W,
) -> RunEnd
    requires { IsSoundState (state_of desk.now.shop) }
    ensures whole { (there : Bool) → result ≡ RunEnd.Done there
        → IsPrinted (W.contents writer.old) (W.contents writer.new)
        (report_lines name of (state_of desk.now.shop)) there }
    ensures front { result ≡ RunEnd.WriteFailed
        → AppendsFront (W.contents writer.old) (W.contents writer.new)
        (printed (report_lines name of (state_of desk.now.shop))).0 }
    ensures nothing { (result ≡ RunEnd.Memory) ⊎ (result ≡ RunEnd.Store)
        → Keeps (W.contents writer.old) (W.contents writer.new) }
    ensures closed { (result ≡ RunEnd.Store) ↔ IsSome desk.now.failed }
    ensures never { result ≢ RunEnd.ReadFailed }
{
    let Ok(shop) = desk.shop() else {
        return RunEnd::Store;
    };
    let told = match tell_report_as_text(alloc, shop, name, of) {
        Ok(told) => told,
        Err(stop) => return stop.end(),
    };
    match send(writer, told.text.as_bytes()) {
        Ok(()) => RunEnd::Done(told.fine),
        Err(WriteFailed) => RunEnd::WriteFailed,
    }
}

/// Prints that there is no such row, which isn't fine.
fn print_no_such<W: Write>(alloc: Global, writer: &mut W) -> RunEnd
    ensures whole { (there : Bool) → result ≡ RunEnd.Done there
        → IsPrinted (W.contents writer.old) (W.contents writer.new) None there }
    ensures front { (result ≡ RunEnd.WriteFailed) ⊎ (result ≡ RunEnd.Memory)
        → AppendsFront (W.contents writer.old) (W.contents writer.new) (printed None).0 }
    ensures only { (result ≢ RunEnd.ReadFailed) × (result ≢ RunEnd.Store) }
{
    let Ok(text) = refused_text(alloc, Refusal::NoSuch) else {
        return RunEnd::Memory;
    };
    match send(writer, text.as_bytes()) {
        Ok(()) => RunEnd::Done(false),
        Err(WriteFailed) => RunEnd::WriteFailed,
    }
}

/// Prints the history of an item line by line, or that there is no such item, which isn't fine.
fn print_history<S: Alter, W: Write>(
    alloc: Global,
    desk: &Desk<S>,
    item: u64,
    writer: &mut W,
) -> RunEnd
    ensures whole { (there : Bool) → result ≡ RunEnd.Done there
        → IsPrinted (W.contents writer.old) (W.contents writer.new)
        (history_lines item (state_of desk.now.shop)) there }
    ensures front { (result ≡ RunEnd.WriteFailed) ⊎ (result ≡ RunEnd.Memory)
        → AppendsFront (W.contents writer.old) (W.contents writer.new)
        (printed (history_lines item (state_of desk.now.shop))).0 }
    ensures nothing { result ≡ RunEnd.Store
        → Keeps (W.contents writer.old) (W.contents writer.new) }
    ensures closed { (result ≡ RunEnd.Store) ↔ IsSome desk.now.failed }
    ensures never { result ≢ RunEnd.ReadFailed }
{
    match desk.history(item, writer) {
        Ok(()) => RunEnd::Done(true),
        Err(ExportFault::NoSuch) => print_no_such(alloc, writer),
        Err(ExportFault::Memory) => RunEnd::Memory,
        Err(ExportFault::Closed) => RunEnd::Store,
        Err(ExportFault::WriteFailed) => RunEnd::WriteFailed,
    }
}

/// Prints the report of that name as text, or that there is no such row, which isn't fine. A history is printed line by
/// line, so that a front of it may be printed before memory runs out.
pub fn print_report<S: Alter, W: Write>(
    alloc: Global,
    desk: &Desk<S>,
    name: ReportName,
    of: u64,
    writer: &mut W,
) -> RunEnd
    requires { IsSoundState (state_of desk.now.shop) }
    ensures whole { (there : Bool) → result ≡ RunEnd.Done there
        → IsPrinted (W.contents writer.old) (W.contents writer.new)
        (report_lines name of (state_of desk.now.shop)) there }
    ensures front { (result ≡ RunEnd.WriteFailed) ⊎ (result ≡ RunEnd.Memory)
        → AppendsFront (W.contents writer.old) (W.contents writer.new)
        (printed (report_lines name of (state_of desk.now.shop))).0 }
    ensures none { name ≢ ReportName.History → result ≡ RunEnd.Memory
        → Keeps (W.contents writer.old) (W.contents writer.new) }
    ensures nothing { result ≡ RunEnd.Store
        → Keeps (W.contents writer.old) (W.contents writer.new) }
    ensures closed { (result ≡ RunEnd.Store) ↔ IsSome desk.now.failed }
    ensures never { result ≢ RunEnd.ReadFailed }
{
    match name {
        ReportName::History => print_history(alloc, desk, of, writer),
        _ => print_whole(alloc, desk, name, of, writer),
    }
}

/// Prints a table as text, line by line, so that a front of it may be printed before memory runs out.
pub fn print_export<S: Alter, W: Write>(desk: &Desk<S>, table: TableName, writer: &mut W) -> RunEnd
    ensures whole { (all : Bool) → result ≡ RunEnd.Done all
        → (all ≡ true) × Appends (W.contents writer.old) (W.contents writer.new)
        (table_text table (state_of desk.now.shop)) }
    ensures front { (result ≡ RunEnd.WriteFailed) ⊎ (result ≡ RunEnd.Memory)
        → AppendsFront (W.contents writer.old) (W.contents writer.new)
        (table_text table (state_of desk.now.shop)) }
    ensures nothing { result ≡ RunEnd.Store
        → Keeps (W.contents writer.old) (W.contents writer.new) }
    ensures closed { (result ≡ RunEnd.Store) ↔ IsSome desk.now.failed }
    ensures never { result ≢ RunEnd.ReadFailed }
{
    match desk.export(table, writer) {
        Ok(()) => RunEnd::Done(true),
        Err(ExportFault::Memory) => RunEnd::Memory,
        Err(ExportFault::Closed) => RunEnd::Store,
        Err(ExportFault::WriteFailed) => RunEnd::WriteFailed,
        Err(ExportFault::NoSuch) => unreachable!(),
    }
}

/// Prints all tables as SQL, line by line, so that a front of it may be printed before memory runs out.
pub fn print_dump<S: Alter, W: Write>(desk: &Desk<S>, writer: &mut W) -> RunEnd
    ensures whole { (all : Bool) → result ≡ RunEnd.Done all
        → (all ≡ true) × Appends (W.contents writer.old) (W.contents writer.new)
        (dump_text (state_of desk.now.shop)) }
    ensures front { (result ≡ RunEnd.WriteFailed) ⊎ (result ≡ RunEnd.Memory)
        → AppendsFront (W.contents writer.old) (W.contents writer.new)
        (dump_text (state_of desk.now.shop)) }
    ensures nothing { result ≡ RunEnd.Store
        → Keeps (W.contents writer.old) (W.contents writer.new) }
    ensures closed { (result ≡ RunEnd.Store) ↔ IsSome desk.now.failed }
    ensures never { result ≢ RunEnd.ReadFailed }
{
    match desk.dump(writer) {
        Ok(()) => RunEnd::Done(true),
        Err(ExportFault::Memory) => RunEnd::Memory,
        Err(ExportFault::Closed) => RunEnd::Store,
        Err(ExportFault::WriteFailed) => RunEnd::WriteFailed,
        Err(ExportFault::NoSuch) => unreachable!(),
    }
}
