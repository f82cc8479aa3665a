//! Tables that an earlier program left, those of version 1: they are told from others, and brought along.
use crate::old_files::{OldFiles, made_old, stops_amid_migration};
use desk_play::play::plays_on;
use desk_store::{Desk, OpenFault};
use part_core::Seed;
use sqlite::{Alter, Connection, Files, MemStore};
use sqlite_disk::Disk;
use std::alloc::Global;
use std::test::Fail;
use store_play::devices::Sink;
use store_play::files::{connected, created};
use store_play::outcomes::holds;
use table_store::TableName;

/// Robots are built, and put into a cell, which is sold, comes back and is taken apart. Each request has a key.
const LINES: &str = r#"{"day":"2030-01-02","do":"add_location","key":"c1","name":"A"}
{"day":"2030-01-02","do":"add_location","key":"c2","name":"B"}
{"day":"2030-01-02","do":"add_part","flags":["component","purchaseable"],"key":"c3","name":"Screw"}
{"day":"2030-01-02","do":"add_part","flags":["component","trackable","purchaseable"],"key":"c4","name":"Motor"}
{"day":"2030-01-02","do":"add_part","flags":["assembly","component","trackable","salable"],"key":"c5","name":"Robot"}
{"day":"2030-01-02","do":"add_part","flags":["assembly","trackable","salable"],"key":"c6","name":"Cell"}
{"assembly":5,"component":3,"day":"2030-01-02","do":"add_line","key":"c7","quantity":4}
{"assembly":5,"component":4,"day":"2030-01-02","do":"add_line","key":"c8","quantity":2}
{"assembly":6,"component":5,"day":"2030-01-02","do":"add_line","key":"c9","quantity":1}
{"day":"2030-01-02","do":"found","key":"c10","location":1,"part":3,"quantity":100}
{"day":"2030-01-02","do":"found","key":"c11","location":1,"part":4,"quantity":2,"serials":"M1,M2"}
{"day":"2030-01-02","do":"build","key":"c12","part":5,"quantity":1}
{"build":13,"day":"2030-01-02","do":"issue_build","key":"c13"}
{"build":13,"day":"2030-01-02","do":"outputs","key":"c14","quantity":1,"serials":"R1"}
{"build":13,"day":"2030-01-02","do":"allocate_build","item":10,"key":"c15","line":7,"quantity":4}
{"build":13,"day":"2030-01-02","do":"allocate_build","item":11,"key":"c16","line":8,"output":14,"quantity":1}
{"build":13,"day":"2030-01-02","do":"allocate_build","item":12,"key":"c17","line":8,"output":14,"quantity":1}
{"day":"2030-01-02","do":"complete_output","key":"c18","location":1,"output":14}
{"build":13,"day":"2030-01-02","do":"complete_build","key":"c19"}
{"day":"2030-01-02","do":"build","key":"c20","part":6,"quantity":1}
{"build":19,"day":"2030-01-02","do":"issue_build","key":"c21"}
{"build":19,"day":"2030-01-02","do":"outputs","key":"c22","quantity":1,"serials":"C1"}
{"build":19,"day":"2030-01-02","do":"allocate_build","item":14,"key":"c23","line":9,"output":20,"quantity":1}
{"day":"2030-01-02","do":"complete_output","key":"c24","location":1,"output":20}
{"build":19,"day":"2030-01-02","do":"complete_build","key":"c25"}
{"day":"2030-01-02","do":"order","key":"c26","partner":"Acme","side":"sale"}
{"day":"2030-01-02","do":"order_line","key":"c27","order":22,"part":6,"quantity":1}
{"day":"2030-01-02","do":"issue_order","key":"c28","order":22}
{"day":"2030-01-02","do":"allocate_sale","item":20,"key":"c29","line":23,"quantity":1}
{"day":"2030-01-02","do":"ship","key":"c30","order":22}
{"day":"2030-01-02","do":"return_item","item":20,"key":"c31","location":2}
{"day":"2030-01-02","do":"uninstall","item":14,"key":"c32","location":2}
{"day":"2030-01-02","do":"disassemble","item":14,"key":"c33","location":1}
"#;

const ANSWERS: &str = r#"{"entries":0,"ids":[1]}
{"entries":0,"ids":[2]}
{"entries":0,"ids":[3]}
{"entries":0,"ids":[4]}
{"entries":0,"ids":[5]}
{"entries":0,"ids":[6]}
{"entries":0,"ids":[7]}
{"entries":0,"ids":[8]}
{"entries":0,"ids":[9]}
{"entries":1,"ids":[10]}
{"entries":2,"ids":[11,12]}
{"entries":0,"ids":[13]}
{"entries":0,"ids":[]}
{"entries":0,"ids":[14]}
{"entries":0,"ids":[15]}
{"entries":0,"ids":[16]}
{"entries":0,"ids":[17]}
{"entries":3,"ids":[]}
{"entries":2,"ids":[18]}
{"entries":0,"ids":[19]}
{"entries":0,"ids":[]}
{"entries":0,"ids":[20]}
{"entries":0,"ids":[21]}
{"entries":2,"ids":[]}
{"entries":0,"ids":[]}
{"entries":0,"ids":[22]}
{"entries":0,"ids":[23]}
{"entries":0,"ids":[]}
{"entries":0,"ids":[24]}
{"entries":4,"ids":[]}
{"entries":5,"ids":[]}
{"entries":1,"ids":[]}
{"entries":3,"ids":[]}
"#;

/// A shorter workshop, for stops.
const FEW: &str = r#"{"day":"2030-01-02","do":"add_location","key":"a","name":"A"}
{"day":"2030-01-02","do":"add_part","flags":["component","trackable"],"key":"b","name":"Motor"}
{"day":"2030-01-02","do":"found","key":"c","location":1,"part":2,"quantity":1,"serials":"M1"}
"#;

const FEW_ANSWERS: &str = r#"{"entries":0,"ids":[1]}
{"entries":0,"ids":[2]}
{"entries":1,"ids":[3]}
"#;

/// What is there of each part then.
const LEDGERS: &str = r#"{"of":6,"report":"ledger"}
{"of":5,"report":"ledger"}
{"of":4,"report":"ledger"}
{"of":3,"report":"ledger"}
"#;

const SUMS: &str =
    r#"{"report":[["ledger","6","Cell"],["received","0"],["found","0"],["built","1"],["returned","1"],["consumed","0"],["shipped","1"],["written","0"],["present","1"],["sent","0"],["used","0"]]}
{"report":[["ledger","5","Robot"],["received","0"],["found","0"],["built","1"],["returned","1"],["consumed","0"],["shipped","1"],["written","1"],["present","0"],["sent","0"],["used","0"]]}
{"report":[["ledger","4","Motor"],["received","0"],["found","2"],["built","0"],["returned","2"],["consumed","0"],["shipped","2"],["written","0"],["present","2"],["sent","0"],["used","0"]]}
{"report":[["ledger","3","Screw"],["received","0"],["found","100"],["built","0"],["returned","0"],["consumed","4"],["shipped","0"],["written","0"],["present","96"],["sent","0"],["used","4"]]}
"#;

/// All tables but `meta`, whose version changes.
const TABLES: [TableName; 13] = [
    TableName::Categories,
    TableName::Locations,
    TableName::Parts,
    TableName::Lines,
    TableName::Substitutes,
    TableName::Items,
    TableName::History,
    TableName::Orders,
    TableName::OrderLines,
    TableName::Builds,
    TableName::Allocations,
    TableName::Kept,
    TableName::Spent,
];

/// Changes after which the tables are none that an earlier program left: another table more, and a row of the counter
/// that is of another version, isn't there, or can't be read.
const FOREIGN: [&str; 5] = [
    "CREATE TABLE more (id INTEGER PRIMARY KEY) STRICT",
    "UPDATE meta SET version = 2",
    "UPDATE meta SET version = 3",
    "DELETE FROM meta",
    "UPDATE meta SET next = -1",
];

/// Changes after which they are version 1's, and those of no sound state: a serial that stands twice, a second row of the
/// counter, one under another key, a number beyond the limits, and limits that are none.
const DAMAGED: [&str; 6] = [
    "UPDATE items SET serial = 'M1' WHERE id = 12",
    "INSERT INTO meta VALUES (2, 1, 1, 0, 10, 10)",
    "UPDATE meta SET one = 2",
    "UPDATE meta SET next = 9000000000000000000",
    "UPDATE meta SET max_numbers = 0",
    "UPDATE parts SET flags = 999 WHERE id = 3",
];

/// A desk with the workshop.
fn workshop(alloc: Global) -> Result<Desk<MemStore>, Fail> {
    let conn = Connection::open_in_memory(alloc)?;
    let mut desk = created(alloc, conn)?;
    plays_on(alloc, &mut desk, LINES, ANSWERS)?;
    Ok(desk)
}

/// The tables of the workshop as an earlier program left them, after the change.
fn old_tables(alloc: Global, change: &str) -> Result<Connection<MemStore>, Fail> {
    let mut conn = workshop(alloc)?.close();
    made_old(&mut conn)?;
    conn.execute(change, &[])?;
    Ok(conn)
}

/// The tables as text, but for the row of the counter.
fn texts<S: Alter>(alloc: Global, desk: &Desk<S>) -> Result<Sink, Fail> {
    let mut sink = Sink::new(alloc, 4096);
    for table in TABLES {
        let exported = desk.export(table, &mut sink);
        holds(exported.is_ok(), "no export")?;
    }
    Ok(sink)
}

/// Why the tables aren't opened: none where they are.
fn refused<S: Alter + Drop>(alloc: Global, conn: Connection<S>) -> Option<(OpenFault, S)> {
    match Desk::open(alloc, Seed::new(2), conn) {
        Ok(_) => None,
        Err(refused) => Some(refused),
    }
}

/// Why the tables aren't brought along: none where they are.
fn unmoved<S: Alter + Drop>(alloc: Global, conn: Connection<S>) -> Option<(OpenFault, S)> {
    match Desk::migrate(alloc, Seed::new(2), conn) {
        Ok(_) => None,
        Err(unmoved) => Some(unmoved),
    }
}

/// The files, once they were told to be old ones.
fn told_old<D: Disk + Drop>(alloc: Global, files: Files<D>) -> Result<Files<D>, Fail> {
    let Ok(conn) = connected(alloc, files, 7) else {
        return Err(Fail::from("no database"));
    };
    match refused(alloc, conn) {
        Some((OpenFault::Old, database)) => Ok(database.close()),
        _ => Err(Fail::from("old files that are opened, or told as others")),
    }
}

/// However often old files are looked at, they are old.
#[test]
fn old_tables_are_told_and_left_alone(rt: HostRuntime) -> Result<(), Fail> {
    let alloc = rt.alloc();
    let old = OldFiles::closed(alloc, LINES, ANSWERS)?;
    let files = told_old(alloc, old.files)?;
    told_old(alloc, files)?;
    Ok(())
}

#[test]
fn others_are_foreign(rt: HostRuntime) -> Result<(), Fail> {
    let alloc = rt.alloc();
    for change in FOREIGN {
        let opened = refused(alloc, old_tables(alloc, change)?);
        assert!(rt; matches!(opened, Some((OpenFault::Foreign, _))), "{change}");
        let brought = unmoved(alloc, old_tables(alloc, change)?);
        assert!(rt;
            matches!(brought, Some((OpenFault::Foreign, _))),
            "{change}"
        );
    }
    Ok(())
}

#[test]
fn old_tables_of_no_sound_state_are_damaged(rt: HostRuntime) -> Result<(), Fail> {
    let alloc = rt.alloc();
    for change in DAMAGED {
        let opened = refused(alloc, old_tables(alloc, change)?);
        assert!(rt; matches!(opened, Some((OpenFault::Old, _))), "{change}");
        let brought = unmoved(alloc, old_tables(alloc, change)?);
        assert!(rt;
            matches!(brought, Some((OpenFault::Damaged(_), _))),
            "{change}"
        );
    }
    Ok(())
}

/// Old tables are brought along: what they have stays, each key has its answer, and a second time changes nothing.
#[test]
fn old_tables_are_brought_along(rt: HostRuntime) -> Result<(), Fail> {
    let alloc = rt.alloc();
    let before = texts(alloc, &workshop(alloc)?)?;
    let Ok(desk) = Desk::migrate(alloc, Seed::new(2), old_tables(alloc, "")?) else {
        return Err(Fail::from("an old file that isn't brought along"));
    };
    let after = texts(alloc, &desk)?;
    holds(
        after.bytes.as_slice() == before.bytes.as_slice(),
        "other tables",
    )?;
    let Ok(mut desk) = Desk::migrate(alloc, Seed::new(2), desk.close()) else {
        return Err(Fail::from("a file that isn't opened once more"));
    };
    plays_on(alloc, &mut desk, LEDGERS, SUMS)?;
    plays_on(alloc, &mut desk, LINES, ANSWERS)?;
    let last = texts(alloc, &desk)?;
    holds(
        last.bytes.as_slice() == before.bytes.as_slice(),
        "tables that were changed",
    )?;
    holds(
        refused(alloc, desk.close()).is_none(),
        "a file that isn't opened",
    )
}

/// A stop at each call of the log, while files are brought along that an earlier program closed.
#[test]
fn a_stop_at_each_call_of_the_log(rt: HostRuntime) -> Result<(), Fail> {
    let alloc = rt.alloc();
    let old = OldFiles::closed(alloc, FEW, FEW_ANSWERS)?;
    assert!(rt; stops_amid_migration(alloc, &old, true)? > 1);
    Ok(())
}

#[test]
fn a_stop_at_each_call_of_the_database(rt: HostRuntime) -> Result<(), Fail> {
    let alloc = rt.alloc();
    let old = OldFiles::closed(alloc, FEW, FEW_ANSWERS)?;
    assert!(rt; stops_amid_migration(alloc, &old, false)? > 1);
    Ok(())
}

/// The same where the earlier program was killed: what it did last is still in the log.
#[test]
fn a_stop_at_each_call_of_a_log_that_is_full(rt: HostRuntime) -> Result<(), Fail> {
    let alloc = rt.alloc();
    let old = OldFiles::killed(alloc, FEW, FEW_ANSWERS)?;
    assert!(rt; stops_amid_migration(alloc, &old, true)? > 1);
    Ok(())
}
