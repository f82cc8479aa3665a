//! Stock that is sound, and stock with one fault each.
ghost use Rattle.std.specs.Prelude.{◌==◌};

use part_core::{Catalogue, Counter, Day, Flags, Id, Limits, Name, Part, Seed, Serial, Status};
use std::alloc::{AllocError, Global};
use std::test::Fail;
use stock_core::{KnowsOwners, is_sound_stock};
use yard_core::{Entry, Item, Kind, Location, Lot, Note, Place, Yard, YardBooks};

// Order 4 and build 9, and no others.
#[derive(Clone, Copy)]
struct OneOfEach;

impl KnowsOwners for OneOfEach {
    ghost owners_of = { λ _. record { is_order = λ n. n == 4; is_build = λ n. n == 9 } };

    fn is_order(&self, number: Id) -> bool {
        number == 4
    }

    fn is_build(&self, number: Id) -> bool {
        number == 9
    }
}

fn name(alloc: Global, text: &str) -> Result<Name, Fail> {
    Ok(Name::new(String::from_str(alloc, text)?).ok_or("a name")?)
}

fn part(alloc: Global, number: Id, template: Option<Id>) -> Result<Part, Fail> {
    Ok(Part {
        number,
        name: name(alloc, "part")?,
        category: None,
        template,
        flags: Flags {
            template: template.is_none(),
            trackable: true,
            ..Flags::default()
        },
        retired: false,
    })
}

// Part 5 with its variants 6 and 7, and part 8.
fn catalogue(alloc: Global) -> Result<Catalogue, Fail> {
    let mut parts = Vec::new(alloc);
    for (number, template) in [(5, None), (6, Some(5)), (7, Some(5)), (8, None)] {
        parts.push(part(alloc, number, template)?)?;
    }
    Ok(Catalogue::assemble(alloc, Seed::new(0), Vec::new(alloc), parts)?)
}

// A counter that has drawn the numbers below 21.
fn drawn(limits: Limits) -> Counter {
    let mut counter = Counter::new(limits);
    for _i in 0..20u64 {
        if !counter.lacks(1) {
            let _ = counter.draw();
        }
    }
    counter
}

fn item(
    alloc: Global,
    number: Id,
    part: Id,
    serial: &str,
    place: Place,
) -> Result<Item, AllocError> {
    Ok(Item {
        number,
        part,
        lot: Lot {
            batch: None,
            serial: Serial::new(String::from_str(alloc, serial)?),
            status: Status::Okay,
        },
        quantity: 1,
        place,
    })
}

fn entry(number: Id, kind: Kind, item: Id, part: Id, place: Place) -> Result<Entry, Fail> {
    let day = Day::parse("2030-01-02").ok_or("a day")?;
    let note = Note {
        kind,
        item,
        part,
        quantity: 1,
        place,
    };
    Ok(Entry { number, day, note })
}

// Whether items at location 1 are found sound, with their history.
fn is_found_sound(
    alloc: Global,
    limits: Limits,
    items: Vec<Item>,
    history: Vec<Entry>,
) -> Result<bool, Fail> {
    let shelf = Location {
        number: 1,
        name: name(alloc, "shelf")?,
        parent: None,
    };
    let locations = vec![in alloc; shelf]?;
    let yard = Yard::assemble(alloc, Seed::new(0), locations, items, history)?.ok_or(
        "entries by number",
    )?;
    let catalogue = catalogue(alloc)?;
    let counter = drawn(limits);
    let books = YardBooks {
        yard,
        counter,
        alloc,
    };
    Ok(is_sound_stock(&OneOfEach, &catalogue, &books)?)
}

// Whether item 11, of part 6 and with serial A-1, is found sound beside another one, with an entry of each.
fn is_found_sound_beside(
    alloc: Global,
    limits: Limits,
    other: Item,
    entry_of_other: Entry,
) -> Result<bool, Fail> {
    let first = item(alloc, 11, 6, "A-1", Place::At(1))?;
    let items = vec![in alloc; first, other]?;
    let entry_of_first = entry(1, Kind::Found, 11, 6, Place::At(1))?;
    let history = vec![in alloc; entry_of_first, entry_of_other]?;
    is_found_sound(alloc, limits, items, history)
}

#[test]
fn looks_at_each_item(rt: HostRuntime) -> Result<(), Fail> {
    let alloc = rt.alloc();
    for (number, part, serial, place, sound) in [
        (12, 7, "A-2", Place::At(1), true),
        (12, 8, "A-1", Place::At(1), true),
        (12, 7, "A-1", Place::At(1), false),
        (12, 9, "A-2", Place::At(1), false),
        (12, 7, "A-2", Place::At(2), false),
        (30, 7, "A-2", Place::At(1), false),
    ] {
        let other = item(alloc, number, part, serial, place)?;
        let entry = entry(2, Kind::Found, number, part, Place::At(1))?;
        let found = is_found_sound_beside(alloc, Limits::LARGEST, other, entry)?;
        assert_eq!(rt; found, sound, "{number} {part} {serial} {place:?}");
    }
    Ok(())
}

#[test]
fn looks_at_each_entry(rt: HostRuntime) -> Result<(), Fail> {
    let alloc = rt.alloc();
    for (item_of_entry, place, sound) in [
        (12, Place::At(1), true),
        (13, Place::At(1), false),
        (12, Place::At(2), false),
    ] {
        let other = item(alloc, 12, 7, "A-2", Place::At(1))?;
        let entry = entry(2, Kind::Found, item_of_entry, 7, place)?;
        let found = is_found_sound_beside(alloc, Limits::LARGEST, other, entry)?;
        assert_eq!(rt; found, sound, "{item_of_entry} {place:?}");
    }
    Ok(())
}

#[test]
fn looks_at_the_limit_of_entries(rt: HostRuntime) -> Result<(), Fail> {
    let alloc = rt.alloc();
    for (entries, sound) in [(2, true), (1, false)] {
        let limits = Limits::new(20, entries).ok_or("limits")?;
        let other = item(alloc, 12, 7, "A-2", Place::At(1))?;
        let entry = entry(2, Kind::Found, 12, 7, Place::At(1))?;
        let found = is_found_sound_beside(alloc, limits, other, entry)?;
        assert_eq!(rt; found, sound, "{entries}");
    }
    Ok(())
}

// Whether an item that was found, and then went to that place with an entry of that kind, is found sound.
fn is_gone_well(alloc: Global, place: Place, kind: Kind) -> Result<bool, Fail> {
    let gone = item(alloc, 11, 6, "A-1", place)?;
    let found = entry(1, Kind::Found, 11, 6, Place::At(1))?;
    let went = entry(2, kind, 11, 6, place)?;
    let items = vec![in alloc; gone]?;
    let history = vec![in alloc; found, went]?;
    is_found_sound(alloc, Limits::LARGEST, items, history)
}

#[test]
fn looks_at_orders_and_builds(rt: HostRuntime) -> Result<(), Fail> {
    let alloc = rt.alloc();
    for (place, kind, sound) in [
        (Place::Sent(4), Kind::Shipped, true),
        (Place::Sent(9), Kind::Shipped, false),
        (Place::Sent(4), Kind::Consumed, false),
        (Place::Used(9), Kind::Consumed, true),
        (Place::Used(4), Kind::Consumed, false),
    ] {
        let found = is_gone_well(alloc, place, kind)?;
        assert_eq!(rt; found, sound, "{place:?} {kind:?}");
    }
    Ok(())
}

#[test]
fn looks_at_outputs(rt: HostRuntime) -> Result<(), Fail> {
    let alloc = rt.alloc();
    for (build, sound) in [(9, true), (4, false)] {
        let output = item(alloc, 11, 6, "A-1", Place::Output(build))?;
        let items = vec![in alloc; output]?;
        let found = is_found_sound(alloc, Limits::LARGEST, items, Vec::new(alloc))?;
        assert_eq!(rt; found, sound, "{build}");
    }
    Ok(())
}
