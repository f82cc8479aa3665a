//! Databases that no run could have left: one change by SQL of a small workshop's tables each.
use desk_play::play::plays_on;
use desk_store::{Desk, OpenFault};
use part_core::Seed;
use sqlite::{Connection, MemStore};
use std::alloc::Global;
use std::test::Fail;
use store_play::files::created;
use store_play::outcomes::holds;

const LINES: &str = r#"{"day":"2030-01-02","do":"add_location","name":"A"}
{"day":"2030-01-02","do":"add_category","name":"Bought"}
{"category":2,"day":"2030-01-02","do":"add_part","flags":["component","purchaseable"],"name":"Screw"}
{"day":"2030-01-02","do":"add_part","flags":["component","trackable"],"name":"Motor"}
{"day":"2030-01-02","do":"add_part","flags":["assembly","trackable"],"name":"Robot"}
{"assembly":5,"component":4,"day":"2030-01-02","do":"add_line","quantity":4}
{"day":"2030-01-02","do":"add_part","flags":["component"],"name":"Bolt"}
{"day":"2030-01-02","do":"add_substitute","line":6,"part":7}
{"day":"2030-01-02","do":"found","key":"k","location":1,"part":3,"quantity":100}
{"day":"2030-01-02","do":"found","location":1,"part":5,"quantity":1,"serials":"R1"}
{"day":"2030-01-02","do":"found","location":1,"part":4,"quantity":2,"serials":"S1,S2"}
{"day":"2030-01-02","do":"install","item":11,"parent":10,"quantity":1}
{"day":"2030-01-02","do":"add_part","flags":["purchaseable","salable"],"name":"Lamp"}
{"day":"2030-01-02","do":"order","partner":"Acme","side":"purchase"}
{"day":"2030-01-02","do":"order_line","order":14,"part":13,"quantity":20}
{"day":"2030-01-02","do":"issue_order","order":14}
{"day":"2030-01-02","do":"receive","line":15,"location":1,"quantity":12}
{"day":"2030-01-02","do":"order","partner":"Best","side":"sale"}
{"day":"2030-01-02","do":"order_line","order":17,"part":13,"quantity":20}
{"day":"2030-01-02","do":"issue_order","order":17}
{"day":"2030-01-02","do":"allocate_sale","item":16,"line":18,"quantity":1}
{"day":"2030-01-02","do":"ship","order":17}
{"day":"2030-01-02","do":"allocate_sale","item":16,"line":18,"quantity":4}
{"day":"2030-01-02","do":"order","partner":"Best","side":"sale"}
{"day":"2030-01-02","do":"order_line","order":22,"part":13,"quantity":20}
{"day":"2030-01-02","do":"issue_order","order":22}
"#;

const ANSWERS: &str = r#"{"entries":0,"ids":[1]}
{"entries":0,"ids":[2]}
{"entries":0,"ids":[3]}
{"entries":0,"ids":[4]}
{"entries":0,"ids":[5]}
{"entries":0,"ids":[6]}
{"entries":0,"ids":[7]}
{"entries":0,"ids":[8]}
{"entries":1,"ids":[9]}
{"entries":1,"ids":[10]}
{"entries":2,"ids":[11,12]}
{"entries":1,"ids":[]}
{"entries":0,"ids":[13]}
{"entries":0,"ids":[14]}
{"entries":0,"ids":[15]}
{"entries":0,"ids":[]}
{"entries":1,"ids":[16]}
{"entries":0,"ids":[17]}
{"entries":0,"ids":[18]}
{"entries":0,"ids":[]}
{"entries":0,"ids":[19]}
{"entries":2,"ids":[20]}
{"entries":0,"ids":[21]}
{"entries":0,"ids":[22]}
{"entries":0,"ids":[23]}
{"entries":0,"ids":[]}
"#;

/// A workshop that builds: a build with a done and a begun output and with allocations of both kinds, one with an output
/// of two on which something was spent, and one that is complete and used something.
const BUILD_LINES: &str = r#"{"day":"2030-01-02","do":"add_location","name":"A"}
{"day":"2030-01-02","do":"add_part","flags":["component","trackable"],"name":"Motor"}
{"day":"2030-01-02","do":"add_part","flags":["component"],"name":"Screw"}
{"day":"2030-01-02","do":"add_part","flags":["component"],"name":"Glue"}
{"day":"2030-01-02","do":"add_part","flags":["assembly","trackable"],"name":"Robot"}
{"assembly":5,"component":2,"day":"2030-01-02","do":"add_line","quantity":1}
{"assembly":5,"component":3,"day":"2030-01-02","do":"add_line","quantity":4}
{"assembly":5,"component":4,"consumable":true,"day":"2030-01-02","do":"add_line","quantity":1}
{"day":"2030-01-02","do":"add_part","flags":["assembly"],"name":"Frame"}
{"assembly":9,"component":3,"day":"2030-01-02","do":"add_line","quantity":2}
{"day":"2030-01-02","do":"found","location":1,"part":2,"quantity":3,"serials":"M1,M2,M3"}
{"day":"2030-01-02","do":"found","location":1,"part":3,"quantity":100}
{"day":"2030-01-02","do":"found","location":1,"part":4,"quantity":50}
{"day":"2030-01-02","do":"build","part":5,"quantity":3}
{"build":16,"day":"2030-01-02","do":"issue_build"}
{"build":16,"day":"2030-01-02","do":"outputs","quantity":2,"serials":"R1,R2"}
{"build":16,"day":"2030-01-02","do":"allocate_build","item":11,"line":6,"output":17,"quantity":1}
{"day":"2030-01-02","do":"complete_output","location":1,"output":17}
{"build":16,"day":"2030-01-02","do":"allocate_build","item":12,"line":6,"output":18,"quantity":1}
{"build":16,"day":"2030-01-02","do":"allocate_build","item":14,"line":7,"quantity":6}
{"day":"2030-01-02","do":"build","part":9,"quantity":5}
{"build":22,"day":"2030-01-02","do":"issue_build"}
{"build":22,"day":"2030-01-02","do":"outputs","quantity":2}
{"day":"2030-01-02","do":"build","part":9,"quantity":1}
{"build":24,"day":"2030-01-02","do":"issue_build"}
{"build":24,"day":"2030-01-02","do":"outputs","quantity":1}
{"build":24,"day":"2030-01-02","do":"allocate_build","item":14,"line":10,"quantity":2}
{"day":"2030-01-02","do":"complete_output","location":1,"output":25}
{"build":24,"day":"2030-01-02","do":"complete_build"}
{"build":22,"day":"2030-01-02","do":"allocate_build","item":14,"line":10,"quantity":3}
{"allocation":28,"day":"2030-01-02","do":"consume"}
"#;

const BUILD_ANSWERS: &str = r#"{"entries":0,"ids":[1]}
{"entries":0,"ids":[2]}
{"entries":0,"ids":[3]}
{"entries":0,"ids":[4]}
{"entries":0,"ids":[5]}
{"entries":0,"ids":[6]}
{"entries":0,"ids":[7]}
{"entries":0,"ids":[8]}
{"entries":0,"ids":[9]}
{"entries":0,"ids":[10]}
{"entries":3,"ids":[11,12,13]}
{"entries":1,"ids":[14]}
{"entries":1,"ids":[15]}
{"entries":0,"ids":[16]}
{"entries":0,"ids":[]}
{"entries":0,"ids":[17,18]}
{"entries":0,"ids":[19]}
{"entries":2,"ids":[]}
{"entries":0,"ids":[20]}
{"entries":0,"ids":[21]}
{"entries":0,"ids":[22]}
{"entries":0,"ids":[]}
{"entries":0,"ids":[23]}
{"entries":0,"ids":[24]}
{"entries":0,"ids":[]}
{"entries":0,"ids":[25]}
{"entries":0,"ids":[26]}
{"entries":1,"ids":[]}
{"entries":2,"ids":[27]}
{"entries":0,"ids":[28]}
{"entries":2,"ids":[29,30]}
"#;

/// Each breaks another clause of what a sound state is, or is no row.
const DAMAGES: [&str; 30] = [
    "UPDATE parts SET template = 99 WHERE id = 3",
    "UPDATE parts SET template = 4 WHERE id = 3",
    "UPDATE parts SET template = 3, flags = 21 WHERE id = 3",
    "INSERT INTO parts VALUES (9, 'T', NULL, 10, 1, 0), (10, 'U', NULL, 9, 1, 0)",
    "INSERT INTO parts VALUES (9, 'T', NULL, NULL, 1, 0), (10, 'U', NULL, 9, 1, 0), (11, 'V', NULL, 10, 1, 0), (12, 'W', NULL, 11, 1, 0), (14, 'X', NULL, 12, 1, 0)",
    "UPDATE parts SET category = 99 WHERE id = 3",
    "UPDATE parts SET flags = 999 WHERE id = 3",
    "UPDATE parts SET name = '' WHERE id = 3",
    "UPDATE categories SET parent = 2 WHERE id = 2",
    "UPDATE locations SET parent = 1 WHERE id = 1",
    "UPDATE lines SET component = 99 WHERE id = 6",
    "UPDATE lines SET component = 5 WHERE id = 6",
    "UPDATE lines SET quantity = 0 WHERE id = 6",
    "INSERT INTO substitutes VALUES (1, 6, 7)",
    "UPDATE substitutes SET line = 99",
    "UPDATE items SET ref = 11 WHERE id = 11",
    "UPDATE items SET place = 1, ref = 9 WHERE id = 11",
    "UPDATE items SET serial = 'S2' WHERE id = 11",
    "UPDATE items SET quantity = 99 WHERE id = 9",
    "UPDATE items SET part = 99 WHERE id = 9",
    "UPDATE items SET place = 9 WHERE id = 9",
    "UPDATE items SET part = -3 WHERE id = 9",
    "DELETE FROM history WHERE n = 2",
    "UPDATE history SET day = '2030-02-30' WHERE n = 1",
    "UPDATE kept SET answer = 'x'",
    "UPDATE kept SET word = ' '",
    "UPDATE meta SET next = 23",
    "UPDATE meta SET entries = 1",
    "DELETE FROM meta",
    "INSERT INTO meta VALUES (2, 2, 24, 8, 9, 9)",
];

/// Each breaks another clause on orders, on their lines, on allocations, or on what is sent.
const DAMAGED_ORDERS: [&str; 33] = [
    "INSERT INTO orders VALUES (0, 0, 'x', 0)",
    "INSERT INTO orders VALUES (99, 0, 'x', 0)",
    "UPDATE orders SET partner = '' WHERE id = 14",
    "UPDATE orders SET side = 2 WHERE id = 14",
    "UPDATE orders SET state = 4 WHERE id = 14",
    "INSERT INTO order_lines VALUES (0, 14, 13, 1, 0)",
    "INSERT INTO order_lines VALUES (99, 14, 13, 1, 0)",
    "UPDATE order_lines SET owner = 99 WHERE id = 15",
    "UPDATE order_lines SET part = 99 WHERE id = 15",
    "INSERT INTO order_lines VALUES (1, 14, 13, 0, 0)",
    "UPDATE order_lines SET quantity = 1000000001 WHERE id = 15",
    "UPDATE order_lines SET done = 21 WHERE id = 15",
    "UPDATE order_lines SET done = -1 WHERE id = 15",
    "UPDATE order_lines SET done = 17 WHERE id = 18",
    "INSERT INTO allocations VALUES (0, 16, 1, 0, 17, 18, 0)",
    "INSERT INTO allocations VALUES (99, 16, 1, 0, 17, 18, 0)",
    "UPDATE allocations SET quantity = 0",
    "UPDATE allocations SET quantity = 12",
    "UPDATE allocations SET quantity = -4",
    "UPDATE allocations SET item = 99",
    "UPDATE allocations SET item = 20, quantity = 1",
    "UPDATE allocations SET item = 9",
    "UPDATE allocations SET owner = 99",
    "UPDATE allocations SET line = 99",
    "UPDATE allocations SET line = 23",
    "UPDATE allocations SET output = 16",
    "UPDATE allocations SET side = 1",
    "UPDATE allocations SET side = 2",
    "UPDATE orders SET side = 0 WHERE id = 17",
    "UPDATE orders SET state = 0 WHERE id = 17",
    "UPDATE orders SET state = 3 WHERE id = 17",
    "UPDATE items SET ref = 99 WHERE id = 20",
    "UPDATE history SET ref = 99 WHERE place = 3",
];

/// Each breaks another clause on builds, on their outputs, on what is allocated for them, on what they used, or on what was
/// spent on them.
const DAMAGED_BUILDS: [&str; 53] = [
    "INSERT INTO builds VALUES (0, 9, 1, 0, 0)",
    "INSERT INTO builds VALUES (99, 9, 1, 0, 0)",
    "UPDATE builds SET part = 99 WHERE id = 24",
    "UPDATE builds SET quantity = 0, done = 0 WHERE id = 24",
    "UPDATE builds SET quantity = 1000000001 WHERE id = 24",
    "UPDATE builds SET quantity = -1 WHERE id = 24",
    "UPDATE builds SET state = 5 WHERE id = 24",
    "UPDATE builds SET done = -1 WHERE id = 24",
    "UPDATE builds SET done = 2 WHERE id = 24",
    "UPDATE builds SET done = 4 WHERE id = 22",
    "UPDATE builds SET state = 3 WHERE id = 22",
    "UPDATE builds SET state = 4 WHERE id = 22",
    "UPDATE builds SET part = 5 WHERE id = 22",
    "DELETE FROM builds WHERE id = 22",
    "UPDATE items SET ref = 99 WHERE id = 23",
    "UPDATE items SET part = 9 WHERE id = 18",
    "UPDATE items SET serial = NULL WHERE id = 18",
    "INSERT INTO items VALUES (1, 2, NULL, 'M9', 0, 1, 1, 18)",
    "UPDATE allocations SET owner = 24, line = 10, quantity = 2 WHERE id = 21",
    "UPDATE allocations SET owner = 22 WHERE id = 21",
    "UPDATE allocations SET owner = 99 WHERE id = 21",
    "UPDATE allocations SET side = 0 WHERE id = 21",
    "UPDATE allocations SET line = 99 WHERE id = 21",
    "UPDATE allocations SET line = 10 WHERE id = 21",
    "UPDATE allocations SET line = 8, item = 15, quantity = 1 WHERE id = 21",
    "UPDATE allocations SET item = 15 WHERE id = 21",
    "UPDATE allocations SET output = 0 WHERE id = 20",
    "UPDATE allocations SET output = 18, quantity = 4 WHERE id = 21",
    "UPDATE allocations SET output = 17 WHERE id = 20",
    "UPDATE allocations SET output = 23 WHERE id = 20",
    "UPDATE allocations SET output = 99 WHERE id = 20",
    "UPDATE allocations SET quantity = 13 WHERE id = 21",
    "INSERT INTO allocations VALUES (1, 13, 1, 1, 16, 6, 18)",
    "UPDATE allocations SET item = 11 WHERE id = 20",
    "UPDATE lines SET quantity = 1 WHERE id = 7",
    "UPDATE lines SET flags = 2 WHERE id = 7",
    "DELETE FROM lines WHERE id = 7",
    "UPDATE items SET ref = 99 WHERE id = 27",
    "UPDATE history SET ref = 99 WHERE place = 4",
    "UPDATE spent SET id = 0",
    "UPDATE spent SET id = 99",
    "UPDATE spent SET build = 99",
    "UPDATE spent SET build = 24, quantity = 2",
    "UPDATE spent SET line = 99",
    "UPDATE spent SET line = 7",
    "UPDATE spent SET build = 16, line = 6, quantity = 1",
    "UPDATE spent SET build = 16, line = 8, quantity = 1",
    "UPDATE spent SET quantity = 0",
    "UPDATE spent SET quantity = -3",
    "UPDATE spent SET quantity = 11",
    "UPDATE spent SET build = 16, line = 7, quantity = 7",
    "INSERT INTO spent VALUES (1, 22, 10, 1)",
    "DELETE FROM lines WHERE id = 10",
];

/// Each leaves tables with builds that some sound state has, if no run.
const HARMLESS_BUILDS: [&str; 16] = [
    "INSERT INTO builds VALUES (1, 9, 1, 0, 0)",
    "UPDATE builds SET quantity = 1000000000 WHERE id = 24",
    "UPDATE builds SET state = 1 WHERE id = 24",
    "UPDATE builds SET done = 0 WHERE id = 24",
    "UPDATE builds SET done = 3 WHERE id = 22",
    "UPDATE builds SET state = 2 WHERE id = 22",
    "UPDATE allocations SET quantity = 12 WHERE id = 21",
    "UPDATE allocations SET item = 13 WHERE id = 20",
    "UPDATE items SET serial = 'F1', quantity = 1 WHERE id = 23",
    "UPDATE items SET ref = 16 WHERE id = 27",
    "DELETE FROM allocations",
    "UPDATE spent SET id = 1",
    "UPDATE spent SET quantity = 10",
    "UPDATE spent SET build = 16, line = 7, quantity = 6",
    "INSERT INTO spent VALUES (1, 16, 7, 6)",
    "DELETE FROM spent",
];

/// Each leaves tables that some sound state has, if no run.
const HARMLESS: [&str; 11] = [
    "INSERT INTO parts VALUES (9, 'T', NULL, NULL, 1, 0), (10, 'U', NULL, 9, 1, 0), (11, 'V', NULL, 10, 1, 0), (12, 'W', NULL, 11, 1, 0)",
    "INSERT INTO builds VALUES (1, 5, 1, 0, 0)",
    "UPDATE parts SET name = 'Washer' WHERE id = 3",
    "INSERT INTO orders VALUES (1, 0, 'x', 0)",
    "UPDATE orders SET state = 2 WHERE id = 14",
    "UPDATE orders SET side = 1 WHERE id = 14",
    "UPDATE order_lines SET done = 20 WHERE id = 15",
    "UPDATE order_lines SET done = 16 WHERE id = 18",
    "UPDATE allocations SET quantity = 11",
    "UPDATE items SET ref = 14 WHERE id = 20",
    "DELETE FROM allocations",
];

/// A table that no desk has.
const OTHER: &str = "CREATE TABLE more (id INTEGER PRIMARY KEY) STRICT";

/// Each leaves tables that are no desk's of today.
const FOREIGN: [&str; 3] = ["UPDATE meta SET version = 3", "DROP TABLE builds", OTHER];

/// Lines, and their answers.
type Workshop = (&'static str, &'static str);

const SMALL: Workshop = (LINES, ANSWERS);

const BUILDING: Workshop = (BUILD_LINES, BUILD_ANSWERS);

/// The tables of the workshop.
fn tables_of(alloc: Global, (lines, answers): Workshop) -> Result<Connection<MemStore>, Fail> {
    let conn = Connection::open_in_memory(alloc)?;
    let mut desk = created(alloc, conn)?;
    plays_on(alloc, &mut desk, lines, answers)?;
    Ok(desk.close())
}

/// Why tables are refused after the change: none where they aren't.
fn refused_after(
    alloc: Global,
    mut conn: Connection<MemStore>,
    change: &str,
) -> Result<Option<OpenFault>, Fail> {
    conn.execute(change, &[])?;
    match Desk::open(alloc, Seed::new(2), conn) {
        Ok(_) => Ok(None),
        Err((fault, _)) => Ok(Some(fault)),
    }
}

/// Why the workshop's tables are refused after the change.
fn refused(alloc: Global, workshop: Workshop, change: &str) -> Result<Option<OpenFault>, Fail> {
    refused_after(alloc, tables_of(alloc, workshop)?, change)
}

#[test]
fn damaged_tables_are_refused(rt: HostRuntime) -> Result<(), Fail> {
    let alloc = rt.alloc();
    for (workshop, changes) in [
        (SMALL, DAMAGES.as_slice()),
        (SMALL, DAMAGED_ORDERS.as_slice()),
        (BUILDING, DAMAGED_BUILDS.as_slice()),
    ] {
        for change in changes {
            let fault = refused(alloc, workshop, change)?;
            assert!(rt; matches!(fault, Some(OpenFault::Damaged(_))), "{change}");
        }
    }
    Ok(())
}

#[test]
fn tables_of_others_are_foreign(rt: HostRuntime) -> Result<(), Fail> {
    let alloc = rt.alloc();
    for change in FOREIGN {
        let fault = refused(alloc, SMALL, change)?;
        assert!(rt; matches!(fault, Some(OpenFault::Foreign)), "{change}");
    }
    for change in ["", OTHER] {
        let conn = Connection::open_in_memory(alloc)?;
        let fault = refused_after(alloc, conn, change)?;
        assert!(rt; matches!(fault, Some(OpenFault::Foreign)), "{change} alone");
    }
    Ok(())
}

#[test]
fn changes_that_harm_nothing(rt: HostRuntime) -> Result<(), Fail> {
    let alloc = rt.alloc();
    for (workshop, changes) in [
        (SMALL, HARMLESS.as_slice()),
        (BUILDING, HARMLESS_BUILDS.as_slice()),
    ] {
        for change in changes {
            let fault = refused(alloc, workshop, change)?;
            assert!(rt; fault.is_none(), "{change}");
        }
    }
    Ok(())
}

/// Fails where a desk is made in the database, which has something.
fn isnt_made_in(alloc: Global, conn: Connection<MemStore>) -> Result<(), Fail> {
    if !conn.is_autocommit() {
        return Err(Fail::from("a transaction is open"));
    }
    let made = Desk::create(alloc, Seed::new(1), conn, part_core::Limits::LARGEST);
    holds(
        matches!(made, Err((OpenFault::Foreign, _))),
        "a second desk",
    )
}

/// A desk is made in a database that has nothing, and in no other.
#[test]
fn made_once(rt: HostRuntime) -> Result<(), Fail> {
    let alloc = rt.alloc();
    isnt_made_in(alloc, tables_of(alloc, SMALL)?)?;
    let mut conn = Connection::open_in_memory(alloc)?;
    conn.execute(OTHER, &[])?;
    isnt_made_in(alloc, conn)
}
