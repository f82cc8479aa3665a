//! A desk as SQL: the text, fronts of it through writers that fail, and the desk that a database has that was given it.

use desk_play::play::plays_on;
use desk_store::{Desk, ExportFault};
use part_core::Seed;
use sqlite::{Alter, Connection, MemStore};
use std::alloc::Global;
use std::test::Fail;
use store_play::devices::Sink;
use store_play::files::{created, tables_of};
use store_play::outcomes::holds;

/// Names with quotes, semicolons and characters beyond ASCII.
const LINES: &str = r#"{"day":"2030-01-02","do":"add_location","name":"Bob's shelf; left"}
{"day":"2030-01-02","do":"add_part","flags":["component","trackable"],"name":"'Größe' \"M\" 🔩"}
{"batch":"COMMIT;","day":"2030-01-02","do":"found","key":"k'","location":1,"part":2,"quantity":1,"serials":"S1"}
{"day":"2030-01-02","do":"found","location":1,"part":2,"quantity":1,"serials":"S2"}
"#;

const ANSWERS: &str = r#"{"entries":0,"ids":[1]}
{"entries":0,"ids":[2]}
{"entries":1,"ids":[3]}
{"entries":1,"ids":[4]}
"#;

const DUMP: &str = r#"BEGIN;
CREATE TABLE meta (one INTEGER PRIMARY KEY, version INTEGER NOT NULL, next INTEGER NOT NULL, entries INTEGER NOT NULL, max_numbers INTEGER NOT NULL, max_entries INTEGER NOT NULL) STRICT;
INSERT INTO meta VALUES(1,2,5,2,10000000000,10000000000);
CREATE TABLE categories (id INTEGER PRIMARY KEY, name TEXT NOT NULL, parent INTEGER) STRICT;
CREATE TABLE locations (id INTEGER PRIMARY KEY, name TEXT NOT NULL, parent INTEGER) STRICT;
INSERT INTO locations VALUES(1,'Bob''s shelf; left',NULL);
CREATE TABLE parts (id INTEGER PRIMARY KEY, name TEXT NOT NULL, category INTEGER, template INTEGER, flags INTEGER NOT NULL, retired INTEGER NOT NULL) STRICT;
INSERT INTO parts VALUES(2,'''Größe'' "M" 🔩',NULL,NULL,12,0);
CREATE TABLE lines (id INTEGER PRIMARY KEY, assembly INTEGER NOT NULL, component INTEGER NOT NULL, quantity INTEGER NOT NULL, flags INTEGER NOT NULL) STRICT;
CREATE TABLE substitutes (id INTEGER PRIMARY KEY, line INTEGER NOT NULL, part INTEGER NOT NULL) STRICT;
CREATE TABLE items (id INTEGER PRIMARY KEY, part INTEGER NOT NULL, batch TEXT, serial TEXT, status INTEGER NOT NULL, quantity INTEGER NOT NULL, place INTEGER NOT NULL, ref INTEGER NOT NULL) STRICT;
INSERT INTO items VALUES(3,2,'COMMIT;','S1',0,1,0,1);
INSERT INTO items VALUES(4,2,NULL,'S2',0,1,0,1);
CREATE TABLE history (n INTEGER PRIMARY KEY, day TEXT NOT NULL, kind INTEGER NOT NULL, item INTEGER NOT NULL, part INTEGER NOT NULL, quantity INTEGER NOT NULL, place INTEGER NOT NULL, ref INTEGER NOT NULL) STRICT;
INSERT INTO history VALUES(1,'2030-01-02',1,3,2,1,0,1);
INSERT INTO history VALUES(2,'2030-01-02',1,4,2,1,0,1);
CREATE TABLE orders (id INTEGER PRIMARY KEY, side INTEGER NOT NULL, partner TEXT NOT NULL, state INTEGER NOT NULL) STRICT;
CREATE TABLE order_lines (id INTEGER PRIMARY KEY, owner INTEGER NOT NULL, part INTEGER NOT NULL, quantity INTEGER NOT NULL, done INTEGER NOT NULL) STRICT;
CREATE TABLE builds (id INTEGER PRIMARY KEY, part INTEGER NOT NULL, quantity INTEGER NOT NULL, state INTEGER NOT NULL, done INTEGER NOT NULL) STRICT;
CREATE TABLE allocations (id INTEGER PRIMARY KEY, item INTEGER NOT NULL, quantity INTEGER NOT NULL, side INTEGER NOT NULL, owner INTEGER NOT NULL, line INTEGER NOT NULL, output INTEGER NOT NULL) STRICT;
CREATE TABLE kept (word TEXT PRIMARY KEY NOT NULL, command TEXT NOT NULL, answer TEXT NOT NULL) STRICT;
INSERT INTO kept VALUES('k''','{"batch":"COMMIT;","do":"found","location":1,"part":2,"quantity":1,"serials":["S1"]}','{"entries":1,"ids":[3]}');
CREATE TABLE spent (id INTEGER PRIMARY KEY, build INTEGER NOT NULL, line INTEGER NOT NULL, quantity INTEGER NOT NULL) STRICT;
COMMIT;
"#;

/// Puts a kept command that has a line break and a NUL, as another program may have left one.
const WILD: &str =
    "INSERT INTO kept VALUES('w',CAST(X'610A00' AS TEXT),'{\"entries\":0,\"ids\":[]}');\n";

/// What the desk tells as SQL.
fn dumped<S: Alter>(alloc: Global, desk: &Desk<S>) -> Result<Sink, Fail> {
    let mut sink = Sink::new(alloc, 4096);
    holds(desk.dump(&mut sink).is_ok(), "no dump")?;
    Ok(sink)
}

/// The desk that a database has once it was given the text.
fn made(alloc: Global, text: &str) -> Result<Desk<MemStore>, Fail> {
    let mut conn = Connection::open_in_memory(alloc)?;
    conn.execute_batch(text)?;
    match Desk::open(alloc, Seed::new(2), conn) {
        Ok(desk) => Ok(desk),
        Err((_fault, _database)) => Err(Fail::from("no desk of a dump")),
    }
}

#[test]
fn a_dump_is_this_text(rt: HostRuntime) -> Result<(), Fail> {
    let alloc = rt.alloc();
    let mut desk = created(alloc, Connection::open_in_memory(alloc)?)?;
    plays_on(alloc, &mut desk, LINES, ANSWERS)?;
    let sink = dumped(alloc, &desk)?;
    holds(sink.bytes.as_slice() == DUMP.as_bytes(), "another dump")?;
    for fails in 1..200u64 {
        let mut sink = Sink::new(alloc, 50);
        sink.fails = fails;
        let done = desk.dump(&mut sink);
        let front = DUMP.as_bytes().starts_with(sink.bytes.as_slice());
        holds(front, "no front of the dump")?;
        match done {
            Ok(()) => holds(sink.bytes.len() == DUMP.len(), "a dump cut short")?,
            Err(fault) => holds(fault == ExportFault::WriteFailed, "another fault")?,
        }
    }
    Ok(())
}

#[test]
fn a_dump_makes_the_desk_again(rt: HostRuntime) -> Result<(), Fail> {
    let alloc = rt.alloc();
    let mut desk = created(alloc, Connection::open_in_memory(alloc)?)?;
    plays_on(alloc, &mut desk, LINES, ANSWERS)?;
    let again = made(alloc, DUMP)?;
    let (wanted, told) = (tables_of(alloc, &desk)?, tables_of(alloc, &again)?);
    holds(told.as_str() == wanted.as_str(), "other tables")?;
    let sink = dumped(alloc, &again)?;
    holds(sink.bytes.as_slice() == DUMP.as_bytes(), "another dump")
}

#[test]
fn a_control_character_is_told_by_its_digits(rt: HostRuntime) -> Result<(), Fail> {
    let alloc = rt.alloc();
    let text = format!(in alloc; "{DUMP}{WILD}")?;
    let desk = made(alloc, text.as_str())?;
    let Some((first, last)) = DUMP.split_once("CREATE TABLE spent") else {
        return Err(Fail::from("no table of what was spent"));
    };
    let wanted = format!(in alloc; "{first}{WILD}CREATE TABLE spent{last}")?;
    let sink = dumped(alloc, &desk)?;
    holds(sink.bytes.as_slice() == wanted.as_bytes(), "another dump")
}
