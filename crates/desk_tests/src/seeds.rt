//! Books whose hashes begin otherwise: the same answers, the same tables and the same bytes in a file.
ghost use Rattle.std.specs.Prelude.{IfOk};
ghost use Rattle.sqlite.specs.Files.{over_files};
ghost use Rattle.desk_store.specs.Desks.{IsDesk};

use desk_app::{Books, LineOptions, RunOptions, run_lines};
use desk_core::{RunEnd, Shop};
use desk_store::Desk;
use part_core::{Limits, Seed};
use sqlite::{Connection, FileStore, Files, Options};
use sqlite_disk::Memory;
use std::alloc::Global;
use std::test::Fail;
use store_play::devices::Sink;
use store_play::outcomes::holds;
use store_play::tables::tables_text;

/// A template with two variants, of which a robot is built, sold and shipped. One serial is that of three pieces, and a
/// row is called by its name or by its request's key. The last lines are refused, or ask for reports.
const LINES: &str = r#"{"day":"2030-01-02","do":"add_location","name":"Store"}
{"day":"2030-01-02","do":"add_location","name":"Shelf","parent":"Store"}
{"day":"2030-01-02","do":"add_part","flags":["component","template","trackable"],"name":"Motor"}
{"day":"2030-01-02","do":"add_part","flags":["component","trackable"],"name":"12 V","template":"Motor"}
{"day":"2030-01-02","do":"add_part","flags":["component","trackable"],"name":"24 V","template":"Motor"}
{"day":"2030-01-02","do":"add_part","flags":["component"],"name":"Screw"}
{"day":"2030-01-02","do":"add_part","flags":["assembly","trackable","salable"],"name":"Robot"}
{"assembly":"Robot","component":"Motor","day":"2030-01-02","do":"add_line","key":"motors","quantity":1,"variants":true}
{"assembly":"Robot","component":"Screw","day":"2030-01-02","do":"add_line","key":"screws","quantity":4}
{"day":"2030-01-02","do":"found","location":["Store","Shelf"],"part":"Screw","quantity":100}
{"day":"2030-01-02","do":"found","location":"Store","part":"12 V","quantity":2,"serials":"1,2"}
{"day":"2030-01-02","do":"found","location":"Store","part":"Robot","quantity":2,"serials":"1,2"}
{"day":"2030-01-03","do":"build","key":"build","part":"Robot","quantity":1}
{"build":{"key":"build"},"day":"2030-01-03","do":"issue_build"}
{"build":{"key":"build"},"day":"2030-01-03","do":"outputs","quantity":1,"serials":"R1"}
{"build":{"key":"build"},"day":"2030-01-03","do":"auto_allocate"}
{"day":"2030-01-05","do":"order","key":"sale","partner":"Acme","side":"sale"}
{"day":"2030-01-05","do":"order_line","key":"sale/1","order":{"key":"sale"},"part":"Robot","quantity":1}
{"day":"2030-01-05","do":"issue_order","order":{"key":"sale"}}
{"day":"2030-01-05","do":"allocate_sale","item":{"part":"Robot","serial":"2"},"line":{"key":"sale/1"},"quantity":1}
{"day":"2030-01-05","do":"ship","order":{"key":"sale"}}
{"day":"2030-01-06","do":"found","location":"Store","part":"24 V","quantity":1,"serials":"1"}
{"day":"2030-01-06","do":"add_location","name":"Store"}
{"of":"Robot","report":"where_used"}
{"of":"12 V","report":"ledger"}
{"of":"Screw","report":"stock"}
"#;

const OPTIONS: RunOptions = RunOptions {
    lines: LineOptions {
        names: true,
        journal: true,
    },
    stop: false,
};

/// What answers the lines on such books.
fn answers<B: Books>(alloc: Global, books: &mut B) -> Result<Vec<u8>, Fail>
    requires { B.are_kept books.old }
    ensures { B.are_kept books.new }
{
    let mut sink = Sink::new(alloc, 4096);
    let mut reader = LINES.as_bytes();
    let end = run_lines(alloc, &mut reader, &mut sink, books, OPTIONS);
    holds(end == RunEnd::Done(false), "another end")?;
    Ok(sink.bytes)
}

/// How many of the answers are so.
fn count_of(answers: &str, word: &str) -> usize {
    answers.lines().filter(|line| line.contains(word)).count()
}

#[test]
fn shops_answer_alike(rt: HostRuntime) -> Result<(), Fail> {
    let alloc = rt.alloc();
    let mut shop = Shop::new(alloc, Seed::new(0), Limits::LARGEST);
    let mut other = Shop::new(alloc, Seed::new(7), Limits::LARGEST);
    let told = String::from_utf8(answers(alloc, &mut shop)?)?;
    let told_other = String::from_utf8(answers(alloc, &mut other)?)?;
    assert!(rt; told.as_str() == told_other.as_str());
    assert_eq!(rt; count_of(&told, "fault"), 0, "{told}");
    assert_eq!(rt; count_of(&told, "refused"), 2, "{told}");
    assert_eq!(rt; count_of(&told, "SerialTaken"), 1, "{told}");
    let tables = tables_text(alloc, &shop)?;
    assert!(rt; tables.as_str() == tables_text(alloc, &other)?.as_str());
    Ok(())
}

/// A desk of files in memory with nothing in it.
fn made(alloc: Global, seed: Seed) -> Result<Desk<FileStore<Memory>>, Fail>
    ensures { IfOk result (λ desk. IsDesk over_files desk) }
{
    let files = Files {
        log: Memory::new(alloc),
        db: Memory::new(alloc),
    };
    let Ok(conn) = Connection::open_files(alloc, files, Options::new(7)) else {
        return Err(Fail::from("no file is made"));
    };
    match Desk::create(alloc, seed, conn, Limits::LARGEST) {
        Ok(desk) => Ok(desk),
        Err((_, database)) => {
            drop(database.close());
            Err(Fail::from("no desk is made"))
        }
    }
}

/// The file and its log after the lines.
fn files(alloc: Global, seed: Seed) -> Result<Files<Memory>, Fail> {
    let mut desk = made(alloc, seed)?;
    let told = answers(alloc, &mut desk);
    let files = desk.close().into_store().close();
    told?;
    Ok(files)
}

#[test]
fn files_have_the_same_bytes(rt: HostRuntime) -> Result<(), Fail> {
    let alloc = rt.alloc();
    let first = files(alloc, Seed::new(0))?;
    let second = files(alloc, Seed::new(7))?;
    let (log, db) = (first.log.bytes(), first.db.bytes());
    assert!(rt;
        log.len() + db.len() > 65536,
        "{} and {}",
        log.len(),
        db.len()
    );
    assert!(rt; log == second.log.bytes());
    assert!(rt; db == second.db.bytes());
    Ok(())
}
