//! What is told of requests, on the shop of the lists.
//!
//! Each text was written by hand, from what that shop has.
use crate::lists::filled;
use crate::outcomes::holds;
use crate::requests::{
    found_of, found_serials, issue_build, issue_order, keyed, part, received_one, remove, salable,
    serialise, serialised,
};
use desk_core::{Request, Shop};
use list_core::request_facts;
use part_core::NO_FLAGS;
use std::alloc::Global;
use std::test::Fail;

/// That this is told of the request.
fn tells(alloc: Global, shop: &Shop, request: Request, wanted: &str) -> Result<(), Fail> {
    let told = request_facts(alloc, shop, &request)?;
    holds(told.as_str() == wanted, "other facts")
}

/// A key is told with the command that it was used for, and one that wasn't used isn't told.
#[test]
fn tells_what_a_key_was_used_for(rt: HostRuntime) -> Result<(), Fail> {
    let alloc = rt.alloc();
    let shop = filled(alloc)?;
    tells(
        alloc,
        &shop,
        keyed(alloc, "A-1/screws", remove(12, 1)?)?,
        "key A-1/screws was used for {\"batch\":\"A-1\",\"do\":\"found\",\"location\":5,\"part\":7,\"quantity\":10,\"serials\":null}, item 12 (Screw, batch A-1, Hall / Shelf / Bin A-1, 10, 1 free, OK), quantity 1",
    )?;
    tells(
        alloc,
        &shop,
        keyed(alloc, "A-1/screw", issue_order(28)?)?,
        "order 28 (sale, pending, Later)",
    )
}

/// Serials are taken in the family of a command's part, of a line's, of a build's or of an item's; those of other parts
/// aren't.
#[test]
fn tells_which_serials_are_taken(rt: HostRuntime) -> Result<(), Fail> {
    let alloc = rt.alloc();
    let shop = filled(alloc)?;
    tells(
        alloc,
        &shop,
        found_serials(alloc, 8, 4, 4, "M-2,M-9,A-10,A-1")?,
        "part 8 (Motor A-1, component, trackable), location 4 (Hall / Shelf), quantity 4, 4 serials, serial M-2 is taken, serial A-1 is taken",
    )?;
    tells(
        alloc,
        &shop,
        received_one(alloc, 24, 3, "R-2")?,
        "line 24 (Robot, 1 wanted, 0 done, 0 allocated, order 22, 1 outstanding, sale, in progress, Acme), location 3 (Hall), quantity 1, 1 serials, serial R-2 is taken",
    )?;
    tells(
        alloc,
        &shop,
        serialised(alloc, 34, 2, "A-10,R-3")?,
        "build 34 (Robot, cancelled, 5 wanted, 0 done), quantity 2, 2 serials, serial A-10 is taken",
    )?;
    tells(
        alloc,
        &shop,
        serialise(alloc, 13, 1, "M-2")?,
        "item 13 (Motor A-1, serial A-1, Hall / Shelf, 1, 0 free, OK), quantity 1, 1 serials, serial M-2 is taken",
    )
}

/// What an order has still to come or to go, and what a build lacks, is told line by line; of what is closed there is
/// none.
#[test]
fn tells_what_is_lacking(rt: HostRuntime) -> Result<(), Fail> {
    let alloc = rt.alloc();
    let shop = filled(alloc)?;
    tells(
        alloc,
        &shop,
        issue_order(22)?,
        "order 22 (sale, in progress, Acme, 6 of Screw outstanding, 1 of Robot outstanding)",
    )?;
    tells(
        alloc,
        &shop,
        issue_order(26)?,
        "order 26 (purchase, cancelled, Nuts)",
    )?;
    tells(
        alloc,
        &shop,
        issue_build(29)?,
        "build 29 (Robot, in production, 3 wanted, 0 done, 13 of Screw missing, 5 of Motor A-1 missing)",
    )
}

#[test]
fn tells_flags(rt: HostRuntime) -> Result<(), Fail> {
    let alloc = rt.alloc();
    let shop = filled(alloc)?;
    let mut flags = salable();
    flags.component = true;
    tells(
        alloc,
        &shop,
        part(alloc, "Screw", None, flags)?,
        "name Screw, flags component salable",
    )?;
    tells(
        alloc,
        &shop,
        part(alloc, "Screw", Some(7), NO_FLAGS)?,
        "name Screw, template 7 (Screw, component, purchaseable, salable), flags none",
    )
}
