//! Rows as the columns of a file: each is written, and read back as it was.
use crate::outcomes::holds;
use crate::requests::name;
use alloc_core::{Allocation, OutputNumber, Purpose};
use bom_core::{Line, LineFlags, Substitute};
use build_core::{Build, BuildState};
use desk_core::{CommandText, Kept, Key, read_answer};
use order_core::{Order, OrderLine, OrderState};
use part_core::{Answer, Category, Column, Day, Flags, Ids, Part, Serial, Side, Status, Stored};
use std::alloc::Global;
use std::test::Fail;
use yard_core::{Entry, Item, Kind, Location, Lot, Note, Place, Reason};

/// The columns as a text, each ended by a bar.
fn shown(alloc: Global, columns: &[Column]) -> Result<String, Fail> {
    let mut text = String::new(alloc);
    for column in columns {
        match column {
            Column::Whole(number) => write!(text, "{number}")?,
            Column::Text(words) => text.push_str(words.as_str())?,
            Column::Absent => {}
        }
        text.push_str("|")?;
    }
    Ok(text)
}

/// That the row is written so, and read back, and that fewer columns are no row.
fn is_stored<R: Stored>(alloc: Global, row: &R, wanted: &str) -> Result<(), Fail> {
    let mut columns = row.columns(alloc)?;
    holds(
        shown(alloc, &columns)?.as_str() == wanted,
        "columns as wanted",
    )?;
    let read = R::from_columns(alloc, &columns).map_err(|_| "a row")?;
    holds(read.equals(row), "the row again")?;
    columns.pop();
    holds(
        R::from_columns(alloc, &columns).is_err(),
        "no row without its last column",
    )
}

fn stored_part(alloc: Global) -> Result<(), Fail> {
    let part = Part {
        number: 7,
        name: name(alloc, "Motor")?,
        category: Some(3),
        template: None,
        flags: Flags {
            assembly: true,
            component: true,
            is_virtual: true,
            ..Flags::default()
        },
        retired: true,
    };
    is_stored(alloc, &part, "7|Motor|3||70|1|")
}

fn stored_item(alloc: Global) -> Result<(), Fail> {
    let item = Item {
        number: 14,
        part: 7,
        lot: Lot {
            batch: None,
            serial: Serial::new(String::from_str(alloc, "A-1")?),
            status: Status::Quarantined,
        },
        quantity: 1,
        place: Place::In(9),
    };
    is_stored(alloc, &item, "14|7||A-1|6|1|1|9|")
}

fn stored_entry(alloc: Global) -> Result<(), Fail> {
    let day = Day::parse("2030-02-03").ok_or("a day")?;
    let note = Note {
        kind: Kind::Written,
        item: 14,
        part: 7,
        quantity: 30,
        place: Place::Off(Reason::Counted),
    };
    let entry = Entry {
        number: 5,
        day,
        note,
    };
    is_stored(alloc, &entry, "5|2030-02-03|6|14|7|30|5|1|")
}

fn stored_bill(alloc: Global) -> Result<(), Fail> {
    let line = Line {
        number: 16,
        assembly: 4,
        component: 7,
        quantity: 2,
        flags: LineFlags {
            consumable: true,
            variants: true,
            ..LineFlags::default()
        },
    };
    is_stored(alloc, &line, "16|4|7|2|10|")?;
    let substitute = Substitute {
        number: 17,
        line: 16,
        part: 8,
    };
    is_stored(alloc, &substitute, "17|16|8|")
}

fn stored_order(alloc: Global) -> Result<(), Fail> {
    let order = Order {
        number: 10,
        side: Side::Sale,
        partner: name(alloc, "Acme")?,
        state: OrderState::Cancelled,
    };
    is_stored(alloc, &order, "10|1|Acme|3|")?;
    let line = OrderLine {
        number: 11,
        order: 10,
        part: 7,
        quantity: 500,
        done: 20,
    };
    is_stored(alloc, &line, "11|10|7|500|20|")
}

fn stored_build(alloc: Global) -> Result<(), Fail> {
    let build = Build {
        number: 13,
        part: 5,
        quantity: 20,
        state: BuildState::OnHold,
        done: 7,
    };
    is_stored(alloc, &build, "13|5|20|2|7|")
}

fn allocation(purpose: Purpose) -> Allocation {
    Allocation {
        number: 12,
        item: 14,
        quantity: 3,
        purpose,
    }
}

/// Whether the columns of an allocation for that side and output are a row.
fn is_allocation(alloc: Global, side: u64, output: u64) -> Result<bool, Fail> {
    let columns = vec![in alloc;
        Column::Whole(12),
        Column::Whole(14),
        Column::Whole(3),
        Column::Whole(side),
        Column::Whole(10),
        Column::Whole(11),
        Column::Whole(output),
    ]?;
    Ok(Allocation::from_columns(alloc, columns.as_slice()).is_ok())
}

fn stored_allocation(alloc: Global) -> Result<(), Fail> {
    let sale = allocation(Purpose::Sale {
        order: 10,
        line: 11,
    });
    is_stored(alloc, &sale, "12|14|3|0|10|11|0|")?;
    let untracked = allocation(Purpose::Build {
        build: 10,
        line: 11,
        output: None,
    });
    is_stored(alloc, &untracked, "12|14|3|1|10|11|0|")?;
    let tracked = allocation(Purpose::Build {
        build: 10,
        line: 11,
        output: OutputNumber::new(13),
    });
    is_stored(alloc, &tracked, "12|14|3|1|10|11|13|")?;
    holds(is_allocation(alloc, 0, 0)?, "a sale without an output")?;
    holds(!is_allocation(alloc, 0, 13)?, "a sale has no output")?;
    holds(!is_allocation(alloc, 2, 0)?, "there is no third side")
}

fn is_no_answer(alloc: Global, text: &str) -> Result<(), Fail> {
    holds(read_answer(alloc, text).is_err(), "no line of an answer")
}

fn stored_answer(alloc: Global) -> Result<(), Fail> {
    let kept = Kept {
        word: Key::new(String::from_str(alloc, "k")?).ok_or("a key")?,
        command: CommandText::new(String::from_str(alloc, "{}")?),
        answer: Answer {
            ids: Ids::range(alloc, 12, 2)?,
            entries: 305,
        },
    };
    is_stored(alloc, &kept, r#"k|{}|{"entries":305,"ids":[12,13]}|"#)?;
    is_no_answer(alloc, "")?;
    is_no_answer(alloc, r#"{"entries":05,"ids":[]}"#)?;
    is_no_answer(alloc, r#"{"entries":5,"ids":[1,]}"#)?;
    is_no_answer(alloc, r#"{"entries":5,"ids":[1] }"#)?;
    is_no_answer(alloc, r#"{"ids":[1],"entries":5}"#)?;
    is_no_answer(alloc, r#"{"entries":18446744073709551616,"ids":[]}"#)
}

#[test]
fn stored_rows(rt: HostRuntime) -> Result<(), Fail> {
    let alloc = rt.alloc();
    let category = Category {
        number: 3,
        name: name(alloc, "Drives")?,
        parent: None,
    };
    is_stored(alloc, &category, "3|Drives||")?;
    let location = Location {
        number: 2,
        name: name(alloc, "Shelf")?,
        parent: Some(1),
    };
    is_stored(alloc, &location, "2|Shelf|1|")?;
    stored_part(alloc)?;
    stored_item(alloc)?;
    stored_entry(alloc)?;
    stored_bill(alloc)?;
    stored_answer(alloc)
}

#[test]
fn stored_orders(rt: HostRuntime) -> Result<(), Fail> {
    let alloc = rt.alloc();
    stored_order(alloc)?;
    stored_build(alloc)?;
    stored_allocation(alloc)
}
