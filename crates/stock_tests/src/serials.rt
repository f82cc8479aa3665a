//! A serial that many parts have, asked of a part alone and of a large family.
use part_core::{Catalogue, Flags, Found, Id, Name, Part, Seed, Serial, Status};
use std::alloc::Global;
use std::test::Fail;
use yard_core::{Item, Lot, Place, Yard};

// Part 1 has the variants 2 to 40, and parts 41 to 300 are no variants.
const LAST_VARIANT: Id = 40;

const LAST_PART: Id = 300;

// Of the parts that are no variants this one has nothing left.
const EMPTY: Id = 200;

fn part(alloc: Global, number: Id) -> Result<Part, Fail> {
    let name = Name::new(String::from_str(alloc, "part")?).ok_or("a name")?;
    let is_variant = 1 < number && number <= LAST_VARIANT;
    Ok(Part {
        number,
        name,
        category: None,
        template: is_variant.then_some(1),
        flags: Flags {
            template: number == 1,
            trackable: true,
            ..Flags::default()
        },
        retired: false,
    })
}

fn catalogue(alloc: Global, seed: Seed) -> Result<Catalogue, Fail> {
    let mut parts = Vec::new(alloc);
    for number in 1..LAST_PART + 1 {
        parts.push(part(alloc, number)?)?;
    }
    Ok(Catalogue::assemble(alloc, seed, Vec::new(alloc), parts)?)
}

fn serial(alloc: Global, text: &str) -> Result<Serial, Fail> {
    Ok(Serial::new(String::from_str(alloc, text)?).ok_or("a serial")?)
}

// A piece of the part with the serial 1, or what is gone of it.
fn piece(alloc: Global, number: Id, part: Id, is_gone: bool) -> Result<Item, Fail> {
    let serial = serial(alloc, "1")?;
    let (place, quantity) = if is_gone {
        (Place::Gone, 0)
    } else {
        (Place::At(1), 1)
    };
    Ok(Item {
        number,
        part,
        lot: Lot {
            batch: None,
            serial: Some(serial),
            status: Status::Okay,
        },
        quantity,
        place,
    })
}

// A piece of each part that is no variant, under its number, and one of variant 25 under number 1000, each with serial 1.
fn yard(alloc: Global, seed: Seed, is_variant_gone: bool) -> Result<Yard, Fail> {
    let mut items = Vec::new(alloc);
    for number in LAST_VARIANT + 1..LAST_PART + 1 {
        items.push(piece(alloc, number, number, number == EMPTY)?)?;
    }
    items.push(piece(alloc, 1000, 25, is_variant_gone)?)?;
    let yard = Yard::assemble(alloc, seed, Vec::new(alloc), items, Vec::new(alloc))?;
    Ok(yard.ok_or("no entries")?)
}

#[test]
fn asks_for_a_serial_in_the_family_alone(rt: HostRuntime) -> Result<(), Fail> {
    let alloc = rt.alloc();
    let one = serial(alloc, "1")?;
    let two = serial(alloc, "2")?;
    for seed in [Seed::new(0), Seed::new(7)] {
        let catalogue = catalogue(alloc, seed)?;
        for is_gone in [false, true] {
            let yard = yard(alloc, seed, is_gone)?;
            for part in [1, 2, 25, 40] {
                assert_eq!(rt; yard.serial_free(&catalogue, &one, part), is_gone, "{part}");
                assert!(rt; yard.serial_free(&catalogue, &two, part));
            }
            assert!(rt; yard.serial_free(&catalogue, &one, EMPTY));
            assert!(rt; !yard.serial_free(&catalogue, &one, 101));
            assert!(rt; !yard.serial_free(&catalogue, &one, LAST_PART));
            assert!(rt; yard.serial_free(&catalogue, &one, LAST_PART + 1));
        }
    }
    Ok(())
}

#[test]
fn names_an_item_by_its_part_and_serial(rt: HostRuntime) -> Result<(), Fail> {
    let alloc = rt.alloc();
    let one = serial(alloc, "1")?;
    for seed in [Seed::new(0), Seed::new(7)] {
        let yard = yard(alloc, seed, false)?;
        assert!(rt; matches!(yard.item_named(25, &one)?, Found::One(1000)));
        assert!(rt; matches!(yard.item_named(150, &one)?, Found::One(150)));
        assert!(rt; matches!(yard.item_named(26, &one)?, Found::Nothing));
    }
    Ok(())
}
