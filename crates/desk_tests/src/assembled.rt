//! A shop is taken from the rows of its tables, and goes on as the shop did; and from no rows that no run left.
ghost use Rattle.desk_core.specs.Machine.{IsSoundState};
ghost use Rattle.desk_core.specs.ShopView.{state_of};

use bom_core::Substitute;
use desk_core::{AssembleFault, Shop, Tables};
use desk_play::play::plays_on_shop;
use part_core::{Limits, MOST, Row, Seed, Sheet};
use std::alloc::Global;
use std::test::Fail;
use store_play::outcomes::holds;
use yard_core::Place;

const LINES: &str = r#"{"day":"2030-01-02","do":"add_location","name":"A"}
{"day":"2030-01-02","do":"add_category","name":"Bought"}
{"category":2,"day":"2030-01-02","do":"add_part","flags":["component","purchaseable"],"name":"Screw"}
{"day":"2030-01-02","do":"add_part","flags":["component","trackable"],"name":"Motor"}
{"day":"2030-01-02","do":"add_part","flags":["assembly","trackable"],"name":"Robot"}
{"assembly":5,"component":3,"day":"2030-01-02","do":"add_line","quantity":4}
{"assembly":5,"component":4,"day":"2030-01-02","do":"add_line","quantity":2}
{"day":"2030-01-02","do":"add_part","flags":["component"],"name":"Bolt"}
{"day":"2030-01-02","do":"add_substitute","line":6,"part":8}
{"day":"2030-01-02","do":"found","key":"k","location":1,"part":3,"quantity":100}
{"day":"2030-01-02","do":"found","location":1,"part":5,"quantity":1,"serials":"R1"}
{"day":"2030-01-02","do":"found","location":1,"part":4,"quantity":2,"serials":"S1,S2"}
{"day":"2030-01-02","do":"install","item":12,"parent":11,"quantity":1}
"#;

const ANSWERS: &str = r#"{"entries":0,"ids":[1]}
{"entries":0,"ids":[2]}
{"entries":0,"ids":[3]}
{"entries":0,"ids":[4]}
{"entries":0,"ids":[5]}
{"entries":0,"ids":[6]}
{"entries":0,"ids":[7]}
{"entries":0,"ids":[8]}
{"entries":0,"ids":[9]}
{"entries":1,"ids":[10]}
{"entries":1,"ids":[11]}
{"entries":2,"ids":[12,13]}
{"entries":1,"ids":[]}
"#;

const LATER: &str =
    r#"{"day":"2030-01-03","do":"found","key":"k","location":1,"part":3,"quantity":100}
{"day":"2030-01-03","do":"remove","item":10,"quantity":30}
{"day":"2030-01-03","do":"found","location":1,"part":4,"quantity":1,"serials":"S1"}
{"day":"2030-01-03","do":"add_part","flags":["component"],"name":"Bolt"}
{"day":"2030-01-03","do":"found","location":1,"part":8,"quantity":5}
{"of":10,"report":"history"}
{"of":11,"report":"content"}
"#;

const LATER_ANSWERS: &str = r#"{"entries":1,"ids":[10]}
{"entries":1,"ids":[]}
{"refused":"SerialTaken"}
{"refused":"NameTaken"}
{"entries":1,"ids":[14]}
{"report":[["1","2030-01-02","found","100","at 1"],["6","2030-01-03","written","30","off removed"]]}
{"report":[["1","11","Robot","1","R1"],["2","12","Motor","1","S1"]]}
"#;

/// The rows of a sheet, in the order of the key.
fn rows_of<R: Row>(alloc: Global, sheet: &Sheet<R>) -> Result<Vec<R>, Fail> {
    let mut rows = Vec::new(alloc);
    for row in sheet.select(|_row| true)? {
        rows.push(row.copy(alloc)?)?;
    }
    Ok(rows)
}

/// The tables that a shop's file has.
fn tables_of(alloc: Global, shop: &Shop) -> Result<Tables, Fail> {
    Ok(Tables {
        categories: rows_of(alloc, shop.catalogue().categories())?,
        parts: rows_of(alloc, shop.catalogue().parts())?,
        lines: rows_of(alloc, shop.boms().lines())?,
        substitutes: rows_of(alloc, shop.boms().substitutes())?,
        locations: rows_of(alloc, shop.yard().locations())?,
        items: rows_of(alloc, shop.yard().items())?,
        history: shop.yard().whole_history().as_slice().to_vec(alloc)?,
        allocations: rows_of(alloc, shop.allocations().rows())?,
        orders: rows_of(alloc, shop.orders().orders())?,
        order_lines: rows_of(alloc, shop.orders().lines())?,
        builds: rows_of(alloc, shop.builds().rows())?,
        spent: rows_of(alloc, shop.builds().spent())?,
        answers: rows_of(alloc, shop.answers())?,
        next: shop.counter().next(),
        entries: shop.yard().entries(),
        limits: shop.counter().limits(),
    })
}

/// The tables of a small workshop.
fn workshop(alloc: Global) -> Result<Tables, Fail> {
    let mut shop = Shop::new(alloc, Seed::new(0), Limits::LARGEST);
    plays_on_shop(alloc, &mut shop, LINES, ANSWERS)?;
    tables_of(alloc, &shop)
}

#[test]
fn taken_and_gone_on_with(rt: HostRuntime) -> Result<(), Fail> {
    let alloc = rt.alloc();
    let tables = workshop(alloc)?;
    match Shop::assemble(alloc, Seed::new(0), tables) {
        Ok(shop) => {
            let mut shop = shop;
            plays_on_shop(alloc, &mut shop, LATER, LATER_ANSWERS)
        }
        Err(_) => Err(Fail::from("tables that a run left are refused")),
    }
}

/// What no run leaves.
#[derive(Clone, Copy)]
enum Damage {
    EntriesMiscounted,
    NumberDrawnLater,
    NumberPastTheLimit,
    CategoryInItself,
    TemplateNotFlagged,
    ComponentMissing,
    PartInItself,
    SubstituteTwice,
    LocationInItself,
    PlaceMissing,
    ItemInItself,
    NoQuantity,
    SerialTwice,
    EntryGone,
    EntryMisnumbered,
    EntryOfNothing,
}

fn damage_counter(tables: &mut Tables, damage: Damage) {
    match damage {
        Damage::EntriesMiscounted => tables.entries = 4,
        Damage::NumberDrawnLater => tables.next = 13,
        _ => tables.next = MOST + 2,
    }
}

fn damage_catalogue(tables: &mut Tables, damage: Damage) -> Result<(), Fail> {
    if matches!(damage, Damage::CategoryInItself) {
        let mut row = tables.categories.pop().ok_or("a category")?;
        row.parent = Some(row.number);
        tables.categories.push(row)?;
    } else {
        let mut row = tables.parts.pop().ok_or("a part")?;
        row.template = Some(4);
        tables.parts.push(row)?;
    }
    Ok(())
}

fn damage_bills(tables: &mut Tables, damage: Damage) -> Result<(), Fail> {
    if matches!(damage, Damage::SubstituteTwice) {
        let row = Substitute {
            number: 1,
            line: 6,
            part: 8,
        };
        tables.substitutes.push(row)?;
        return Ok(());
    }
    let mut row = tables.lines.pop().ok_or("a line")?;
    if matches!(damage, Damage::PartInItself) {
        row.component = row.assembly;
    } else {
        row.component = 2;
    }
    tables.lines.push(row)?;
    Ok(())
}

/// Damages the last item: the motor S2, which is loose.
fn damage_item(alloc: Global, tables: &mut Tables, damage: Damage) -> Result<(), Fail> {
    let mut item = tables.items.pop().ok_or("an item")?;
    match damage {
        Damage::PlaceMissing => item.place = Place::At(2),
        Damage::ItemInItself => item.place = Place::In(item.number),
        Damage::NoQuantity => item.quantity = 0,
        _ => {
            let other = tables.items.last().ok_or("another item")?;
            item.lot = other.lot.copy(alloc)?;
        }
    }
    tables.items.push(item)?;
    Ok(())
}

fn damage_history(tables: &mut Tables, damage: Damage) -> Result<(), Fail> {
    let mut entry = tables.history.pop().ok_or("an entry")?;
    match damage {
        Damage::EntryMisnumbered => entry.number = 7,
        Damage::EntryOfNothing => entry.note.quantity = 0,
        _ => {
            // The entry before it tells that the motors were found.
            tables.history.pop();
            tables.entries = 3;
            return Ok(());
        }
    }
    tables.history.push(entry)?;
    Ok(())
}

fn damage_location(tables: &mut Tables) -> Result<(), Fail> {
    let mut row = tables.locations.pop().ok_or("a location")?;
    row.parent = Some(row.number);
    tables.locations.push(row)?;
    Ok(())
}

fn damaged(alloc: Global, damage: Damage) -> Result<Tables, Fail> {
    let mut tables = workshop(alloc)?;
    match damage {
        Damage::EntriesMiscounted | Damage::NumberDrawnLater | Damage::NumberPastTheLimit => {
            damage_counter(&mut tables, damage);
        }
        Damage::CategoryInItself | Damage::TemplateNotFlagged => {
            damage_catalogue(&mut tables, damage)?;
        }
        Damage::ComponentMissing | Damage::PartInItself | Damage::SubstituteTwice => {
            damage_bills(&mut tables, damage)?;
        }
        Damage::LocationInItself => damage_location(&mut tables)?,
        Damage::EntryGone | Damage::EntryMisnumbered | Damage::EntryOfNothing => {
            damage_history(&mut tables, damage)?;
        }
        _ => damage_item(alloc, &mut tables, damage)?,
    }
    Ok(tables)
}

fn is_refused(alloc: Global, damage: Damage) -> Result<(), Fail> {
    let tables = damaged(alloc, damage)?;
    match Shop::assemble(alloc, Seed::new(0), tables) {
        Err(AssembleFault::Unsound) => Ok(()),
        _ => Err(Fail::from("damaged tables are taken")),
    }
}

#[test]
fn refused_where_damaged(rt: HostRuntime) -> Result<(), Fail> {
    let alloc = rt.alloc();
    let damages = [
        Damage::EntriesMiscounted,
        Damage::NumberDrawnLater,
        Damage::NumberPastTheLimit,
        Damage::CategoryInItself,
        Damage::TemplateNotFlagged,
        Damage::ComponentMissing,
        Damage::PartInItself,
        Damage::SubstituteTwice,
        Damage::LocationInItself,
        Damage::PlaceMissing,
        Damage::ItemInItself,
        Damage::NoQuantity,
        Damage::SerialTwice,
        Damage::EntryGone,
        Damage::EntryMisnumbered,
        Damage::EntryOfNothing,
    ];
    for damage in damages {
        is_refused(alloc, damage)?;
    }
    Ok(())
}
