//! Tables and histories as text, whole and through writers that fail, and of a closed desk.
ghost use Rattle.desk_store.specs.Desks.{IsDesk};

use desk_app::{RunOptions, run_lines};
use desk_play::play::plays_on;
use desk_store::{Desk, ExportFault};
use sqlite::{Alter, Connection};
use std::alloc::Global;
use std::test::Fail;
use store_play::devices::Sink;
use store_play::files::{created, fresh, fused, opened};
use store_play::outcomes::holds;
use table_store::TableName;

const LINES: &str = r#"{"day":"2030-01-02","do":"add_location","name":"Shelf \"A\", left"}
{"day":"2030-01-02","do":"add_part","flags":["component","purchaseable","salable"],"name":"Screw"}
{"day":"2030-01-02","do":"found","key":"k","location":1,"part":2,"quantity":100}
{"day":"2030-01-03","do":"remove","item":3,"quantity":30}
{"day":"2030-01-03","do":"order","partner":"Acme, \"A\"","side":"sale"}
{"day":"2030-01-03","do":"order_line","order":4,"part":2,"quantity":7}
{"day":"2030-01-03","do":"issue_order","order":4}
{"day":"2030-01-03","do":"allocate_sale","item":3,"line":5,"quantity":2}
{"day":"2030-01-03","do":"order","partner":"Best","side":"purchase"}
{"day":"2030-01-03","do":"add_part","flags":["assembly","trackable"],"name":"Frame"}
{"assembly":8,"component":2,"day":"2030-01-03","do":"add_line","quantity":5}
{"day":"2030-01-03","do":"build","part":8,"quantity":4}
{"build":10,"day":"2030-01-03","do":"issue_build"}
{"batch":"L, 1","build":10,"day":"2030-01-03","do":"outputs","quantity":1,"serials":"F1"}
{"build":10,"day":"2030-01-03","do":"allocate_build","item":3,"line":9,"quantity":20}
{"day":"2030-01-03","do":"complete_output","location":1,"output":11}
{"day":"2030-01-03","do":"build","part":8,"quantity":2}
{"day":"2030-01-03","do":"build","part":8,"quantity":1}
{"build":14,"day":"2030-01-03","do":"issue_build"}
{"build":14,"day":"2030-01-03","do":"allocate_build","item":3,"line":9,"quantity":3}
{"allocation":15,"day":"2030-01-03","do":"consume"}
"#;

const ANSWERS: &str = r#"{"entries":0,"ids":[1]}
{"entries":0,"ids":[2]}
{"entries":1,"ids":[3]}
{"entries":1,"ids":[]}
{"entries":0,"ids":[4]}
{"entries":0,"ids":[5]}
{"entries":0,"ids":[]}
{"entries":0,"ids":[6]}
{"entries":0,"ids":[7]}
{"entries":0,"ids":[8]}
{"entries":0,"ids":[9]}
{"entries":0,"ids":[10]}
{"entries":0,"ids":[]}
{"entries":0,"ids":[11]}
{"entries":0,"ids":[12]}
{"entries":1,"ids":[]}
{"entries":0,"ids":[13]}
{"entries":0,"ids":[14]}
{"entries":0,"ids":[]}
{"entries":0,"ids":[15]}
{"entries":2,"ids":[16,17]}
"#;

const EXPORTS: [(TableName, &str); 11] = [
    (
        TableName::Meta,
        "one,version,next,entries,max_numbers,max_entries\n1,2,18,5,10000000000,10000000000\n",
    ),
    (
        TableName::Locations,
        "id,name,parent\n1,\"Shelf \"\"A\"\", left\",\n",
    ),
    (
        TableName::Parts,
        "id,name,category,template,flags,retired\n2,Screw,,,52,0\n8,Frame,,,10,0\n",
    ),
    (
        TableName::Lines,
        "id,assembly,component,quantity,flags\n9,8,2,5,0\n",
    ),
    (
        TableName::Items,
        "id,part,batch,serial,status,quantity,place,ref\n3,2,,,0,67,0,1\n11,8,\"L, 1\",F1,0,1,0,1\n16,2,,,0,3,4,14\n",
    ),
    (
        TableName::History,
        "n,day,kind,item,part,quantity,place,ref\n1,2030-01-02,1,3,2,100,0,1\n2,2030-01-03,6,3,2,30,5,0\n3,2030-01-03,2,11,8,1,0,1\n4,2030-01-03,8,16,2,3,0,1\n5,2030-01-03,3,16,2,3,4,14\n",
    ),
    (
        TableName::Orders,
        "id,side,partner,state\n4,1,\"Acme, \"\"A\"\"\",1\n7,0,Best,0\n",
    ),
    (
        TableName::OrderLines,
        "id,owner,part,quantity,done\n5,4,2,7,0\n",
    ),
    (
        TableName::Allocations,
        "id,item,quantity,side,owner,line,output\n6,3,2,0,4,5,0\n12,3,20,1,10,9,0\n",
    ),
    (
        TableName::Builds,
        "id,part,quantity,state,done\n10,8,4,1,1\n13,8,2,0,0\n14,8,1,1,0\n",
    ),
    (TableName::Spent, "id,build,line,quantity\n17,14,9,3\n"),
];

/// The table is exported as this text, and as a front of it through a writer that fails.
fn exports<S: Alter>(
    alloc: Global,
    desk: &Desk<S>,
    table: TableName,
    wanted: &str,
) -> Result<(), Fail> {
    let mut sink = Sink::new(alloc, 4096);
    holds(desk.export(table, &mut sink).is_ok(), "no export")?;
    holds(sink.bytes.as_slice() == wanted.as_bytes(), "another export")?;
    for fails in 1..40u64 {
        let mut sink = Sink::new(alloc, 10);
        sink.fails = fails;
        let done = desk.export(table, &mut sink);
        let front = wanted.as_bytes().starts_with(sink.bytes.as_slice());
        holds(front, "no front of the export")?;
        match done {
            Ok(()) => holds(sink.bytes.len() == wanted.len(), "an export cut short")?,
            Err(fault) => holds(fault == ExportFault::WriteFailed, "another fault")?,
        }
    }
    Ok(())
}

/// The history of item 3, and of item 11.
const HISTORIES: [(u64, &str); 2] = [
    (
        3,
        "1\t2030-01-02\tfound\t100\tat 1\n2\t2030-01-03\twritten\t30\toff removed\n",
    ),
    (11, "3\t2030-01-03\tbuilt\t1\tat 1\n"),
];

/// The item's history is written as this text, and as a front of it through a writer that fails.
fn tells_history<S: Alter>(
    alloc: Global,
    desk: &Desk<S>,
    item: u64,
    wanted: &str,
) -> Result<(), Fail> {
    let mut sink = Sink::new(alloc, 4096);
    holds(desk.history(item, &mut sink).is_ok(), "no history")?;
    holds(
        sink.bytes.as_slice() == wanted.as_bytes(),
        "another history",
    )?;
    for fails in 1..40u64 {
        let mut sink = Sink::new(alloc, 10);
        sink.fails = fails;
        let done = desk.history(item, &mut sink);
        let front = wanted.as_bytes().starts_with(sink.bytes.as_slice());
        holds(front, "no front of the history")?;
        match done {
            Ok(()) => holds(sink.bytes.len() == wanted.len(), "a history cut short")?,
            Err(fault) => holds(fault == ExportFault::WriteFailed, "another fault")?,
        }
    }
    Ok(())
}

#[test]
fn tables_as_text(rt: HostRuntime) -> Result<(), Fail> {
    let alloc = rt.alloc();
    let conn = Connection::open_in_memory(alloc)?;
    let mut desk = created(alloc, conn)?;
    plays_on(alloc, &mut desk, LINES, ANSWERS)?;
    for (table, wanted) in EXPORTS {
        exports(alloc, &desk, table, wanted)?;
    }
    Ok(())
}

#[test]
fn histories_as_text(rt: HostRuntime) -> Result<(), Fail> {
    let alloc = rt.alloc();
    let conn = Connection::open_in_memory(alloc)?;
    let mut desk = created(alloc, conn)?;
    plays_on(alloc, &mut desk, LINES, ANSWERS)?;
    for (item, wanted) in HISTORIES {
        tells_history(alloc, &desk, item, wanted)?;
    }
    // Number 2 is a part's.
    let mut sink = Sink::new(alloc, 4096);
    holds(
        desk.history(2, &mut sink) == Err(ExportFault::NoSuch),
        "a part has a history",
    )?;
    holds(sink.calls == 0, "something is written")
}

/// Runs the lines on the desk, of which a call may fail: whether that closed it. A closed desk writes nothing.
fn closes_amid_lines<S: Alter + Drop>(alloc: Global, mut desk: Desk<S>) -> Result<bool, Fail>
    requires { IsDesk S.Store desk }
{
    let mut sink = Sink::new(alloc, 4096);
    let mut lines = LINES.as_bytes();
    let _end = run_lines(alloc, &mut lines, &mut sink, &mut desk, RunOptions::PLAIN);
    if desk.failed().is_none() {
        return Ok(false);
    }
    let mut sink = Sink::new(alloc, 4096);
    let exported = desk.export(TableName::Parts, &mut sink);
    holds(exported == Err(ExportFault::Closed), "an export")?;
    let told = desk.history(3, &mut sink);
    holds(told == Err(ExportFault::Closed), "a history")?;
    let dumped = desk.dump(&mut sink);
    holds(dumped == Err(ExportFault::Closed), "a dump")?;
    holds(sink.calls == 0, "something is written")?;
    Ok(true)
}

/// Whether the desk of a file is closed as it runs the lines, whose log fails after so many calls.
fn closes(alloc: Global, calls: u64) -> Result<bool, Fail> {
    let files = fused(alloc, &fresh(alloc)?, calls, true)?;
    match opened(alloc, files, 8) {
        Ok(desk) => closes_amid_lines(alloc, desk),
        Err(_) => Ok(false),
    }
}

#[test]
fn a_closed_desk_writes_nothing(rt: HostRuntime) -> Result<(), Fail> {
    let alloc = rt.alloc();
    for calls in 0..2_000u64 {
        if closes(alloc, calls)? {
            return Ok(());
        }
    }
    Err(Fail::from("no fault closes a desk"))
}
