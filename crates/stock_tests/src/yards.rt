//! Yards that are sound, and one for each fault.
use part_core::{Day, Id, Name, Quantity, Seed, Serial, Status};
use std::alloc::{AllocError, Global};
use std::test::Fail;
use yard_core::{Entry, Item, Kind, Location, Lot, Note, Place, Yard};

fn location(alloc: Global, number: Id, parent: Option<Id>) -> Result<Location, Fail> {
    let name = Name::new(String::from_str(alloc, "shelf")?).ok_or("a name")?;
    Ok(Location {
        number,
        name,
        parent,
    })
}

// Whether location 1 and another one are found sound, where the numbers below 10 were drawn.
fn are_found_sound(alloc: Global, other: Location) -> Result<bool, Fail> {
    let top = location(alloc, 1, None)?;
    let locations = vec![in alloc; top, other]?;
    let yard = Yard::assemble(
        alloc,
        Seed::new(0),
        locations,
        Vec::new(alloc),
        Vec::new(alloc),
    )?;
    let yard = yard.ok_or("no entries")?;
    Ok(yard.are_locations_sound(10)?)
}

#[test]
fn looks_at_each_location(rt: HostRuntime) -> Result<(), Fail> {
    let alloc = rt.alloc();
    for (number, parent, sound) in [
        (9, Some(1), true),
        (9, None, true),
        (10, Some(1), false),
        (0, None, false),
        (9, Some(9), false),
        (9, Some(8), false),
    ] {
        let other = location(alloc, number, parent)?;
        assert_eq!(rt; are_found_sound(alloc, other)?, sound, "{number}");
    }
    Ok(())
}

fn item(number: Id, serial: Option<Serial>, quantity: Quantity, place: Place) -> Item {
    Item {
        number,
        part: 5,
        lot: Lot {
            batch: None,
            serial,
            status: Status::Okay,
        },
        quantity,
        place,
    }
}

// One piece with a serial.
fn piece(alloc: Global, number: Id, place: Place) -> Result<Item, Fail> {
    let serial = Serial::new(String::from_str(alloc, "A-1")?);
    Ok(item(number, serial, 1, place))
}

fn found(number: Id, item: Id, quantity: Quantity) -> Result<Entry, Fail> {
    let day = Day::parse("2030-01-02").ok_or("a day")?;
    let note = Note {
        kind: Kind::Found,
        item,
        part: 5,
        quantity,
        place: Place::At(1),
    };
    Ok(Entry { number, day, note })
}

// Items 1, 2 and so on, each of which lies in the one before it.
fn chain(alloc: Global, count: u64) -> Result<Vec<Item>, Fail> {
    let mut items = Vec::new(alloc);
    for i in 0..count {
        let place = if i == 0 { Place::At(1) } else { Place::In(i) };
        items.push(piece(alloc, i + 1, place)?)?;
    }
    Ok(items)
}

// An entry of one piece for each of items 1, 2 and so on.
fn founds(alloc: Global, count: u64) -> Result<Vec<Entry>, Fail> {
    let mut history = Vec::new(alloc);
    for i in 0..count {
        history.push(found(i + 1, i + 1, 1)?)?;
    }
    Ok(history)
}

fn is_found_sound(
    alloc: Global,
    items: Vec<Item>,
    history: Vec<Entry>,
) -> Result<bool, AllocError> {
    match Yard::assemble(alloc, Seed::new(0), Vec::new(alloc), items, history)? {
        None => Ok(false),
        Some(yard) => yard.is_sound(),
    }
}

#[test]
fn takes_sixteen_levels(rt: HostRuntime) -> Result<(), Fail> {
    let alloc = rt.alloc();
    for (levels, sound) in [(0, true), (16, true), (17, false)] {
        let items = chain(alloc, levels)?;
        let history = founds(alloc, levels)?;
        assert_eq!(rt; is_found_sound(alloc, items, history)?, sound, "{levels}");
    }
    Ok(())
}

// Whether items 1 and 2, with their entries, are found sound with one more item and one more entry.
fn is_found_sound_with(alloc: Global, third: Item, entry: Entry) -> Result<bool, Fail> {
    let mut items = chain(alloc, 2)?;
    items.push(third)?;
    let mut history = founds(alloc, 2)?;
    history.push(entry)?;
    Ok(is_found_sound(alloc, items, history)?)
}

#[test]
fn looks_at_where_an_item_lies(rt: HostRuntime) -> Result<(), Fail> {
    let alloc = rt.alloc();
    for (place, sound) in [
        (Place::In(2), true),
        (Place::At(1), true),
        (Place::In(3), false),
        (Place::In(7), false),
    ] {
        let third = piece(alloc, 3, place)?;
        assert_eq!(rt;
            is_found_sound_with(alloc, third, found(3, 3, 1)?)?,
            sound,
            "{place:?}"
        );
    }
    Ok(())
}

#[test]
fn looks_at_quantities_and_entries(rt: HostRuntime) -> Result<(), Fail> {
    let alloc = rt.alloc();
    for (quantity, number, written, sound) in [
        (4, 3, 4, true),
        (0, 3, 0, false),
        (4, 3, 5, false),
        (4, 4, 4, false),
    ] {
        let third = item(3, None, quantity, Place::At(1));
        let entry = found(number, 3, written)?;
        assert_eq!(rt;
            is_found_sound_with(alloc, third, entry)?,
            sound,
            "{quantity} {written}"
        );
    }
    Ok(())
}

#[test]
fn refuses_an_item_in_one_without_serial(rt: HostRuntime) -> Result<(), Fail> {
    let alloc = rt.alloc();
    let mut items = vec![in alloc; item(1, None, 1, Place::At(1))]?;
    items.push(piece(alloc, 2, Place::In(1))?)?;
    let history = founds(alloc, 2)?;
    assert!(rt; !is_found_sound(alloc, items, history)?);
    Ok(())
}
