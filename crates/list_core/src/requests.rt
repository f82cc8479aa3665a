//! Facts of a request, for whoever is told why it was refused: what its key was used for, the facts of its command, and
//! which of its serials are taken.
ghost use Rattle.std.specs.Prelude.{◌≡◌, ◌∷◌, [], filter, map, option_map, IfOk};
ghost use Rattle.std.specs.FinMap as table;
ghost use Rattle.std.specs.String.{string_bytes};
ghost use Rattle.desk_core.specs.ShopView.{state_of};
ghost use Rattle.report_core.specs.Lines.{fields_of};
ghost use Rattle.list_core.specs.RequestFacts.{is_taken, key_facts, request_facts, taken, taken_by_build};
ghost use Rattle.list_core.specs.RequestFacts.{taken_by_order, taken_by_stock, taken_fact, taken_facts, taken_in};
ghost use Rattle.list_core.specs.RequestFacts.{used_fact};

use crate::command_facts::{commas, facts};
use build_core::BuildCommand;
use desk_core::{Command, Key, Request, Shop};
use order_core::OrderCommand;
use part_core::{Id, Serial, Serials};
use std::alloc::{AllocError, Global};
use stock_core::StockCommand;

/// What a key was used for.
fn used_fact(alloc: Global, key: &str, command: &str) -> Result<String, AllocError>
    ensures { IfOk result (λ fact. string_bytes fact ≡ used_fact key.now command.now) }
{
    format!(in alloc; "key {key} was used for {command}")
}

/// What is said of a request's key: what it was used for, if there is one and an answer is kept under it.
fn key_facts(alloc: Global, shop: &Shop, key: &Option<Key>) -> Result<Vec<String>, AllocError>
    ensures { IfOk result (λ facts. fields_of facts ≡ key_facts (state_of shop.now) key.now) }
{
    let Some(key) = key else {
        return Ok(Vec::new(alloc));
    };
    let Some(kept) = shop.answers().get(key.text()) else {
        return Ok(Vec::new(alloc));
    };
    let fact = used_fact(alloc, key.as_str(), kept.command.as_str())?;
    Ok(vec![in alloc; fact]?)
}

fn taken_fact(alloc: Global, serial: &Serial) -> Result<String, AllocError>
    ensures { IfOk result (λ fact. string_bytes fact ≡ taken_fact serial.now) }
{
    let serial = serial.as_str();
    format!(in alloc; "serial {serial} is taken")
}

/// Which of the serials aren't free in the part's family, in order.
fn taken_of(
    alloc: Global,
    shop: &Shop,
    serials: &[Serial],
    part: Id,
) -> Result<Vec<String>, AllocError>
    ensures { IfOk result (λ facts. fields_of facts
        ≡ map taken_fact (filter (is_taken (state_of shop.now) part) serials.now)) }
{
    let mut facts = Vec::new(alloc);
    for serial in serials {
        if !shop.yard().serial_free(shop.catalogue(), serial, part) {
            facts.push(taken_fact(alloc, serial)?)?;
        }
    }
    Ok(facts)
}

/// The same, if there is such a part.
fn taken_facts(
    alloc: Global,
    shop: &Shop,
    serials: &[Serial],
    part: Option<Id>,
) -> Result<Vec<String>, AllocError>
    ensures { IfOk result (λ facts.
        fields_of facts ≡ taken_facts (state_of shop.now) serials.now part) }
{
    match part {
        Some(part) => taken_of(alloc, shop, serials, part),
        None => Ok(Vec::new(alloc)),
    }
}

/// The same of new items, if they are to have serials.
fn taken_in(
    alloc: Global,
    shop: &Shop,
    serials: &Option<Serials>,
    part: Option<Id>,
) -> Result<Vec<String>, AllocError>
    ensures { IfOk result (λ facts.
        fields_of facts ≡ taken_in (state_of shop.now) serials.now part) }
{
    match serials {
        Some(serials) => taken_facts(alloc, shop, serials.as_slice(), part),
        None => Ok(Vec::new(alloc)),
    }
}

/// The part of the item of that number, if there is one.
fn part_of_item(shop: &Shop, number: Id) -> Option<Id>
    ensures { let s = state_of shop.now in
        result ≡ option_map (λ x. x.part) (table.get s.stock.items (number ∷ [])) }
{
    match shop.yard().item(number) {
        Some(item) => Some(item.part),
        None => None,
    }
}

/// The part of the line of an order of that number, if there is one.
fn part_of_line(shop: &Shop, number: Id) -> Option<Id>
    ensures { let s = state_of shop.now in
        result ≡ option_map (λ l. l.part) (table.get s.order_lines (number ∷ [])) }
{
    match shop.orders().line(number) {
        Some(line) => Some(line.part),
        None => None,
    }
}

/// The part of the build of that number, if there is one.
fn part_of_build(shop: &Shop, number: Id) -> Option<Id>
    ensures { let s = state_of shop.now in
        result ≡ option_map (λ b. b.part) (table.get s.builds (number ∷ [])) }
{
    match shop.builds().build(number) {
        Some(build) => Some(build.part),
        None => None,
    }
}

/// Which serials of a command on stock are taken.
fn taken_by_stock(
    alloc: Global,
    shop: &Shop,
    command: &StockCommand,
) -> Result<Vec<String>, AllocError>
    ensures { IfOk result (λ facts.
        fields_of facts ≡ taken_by_stock (state_of shop.now) command.now) }
{
    match command {
        StockCommand::Found { part, new, .. } => {
            taken_in(alloc, shop, &new.serials, Some(*part))
        }
        StockCommand::Serialise { item, serials, .. } => {
            taken_facts(alloc, shop, serials.as_slice(), part_of_item(shop, *item))
        }
        _ => Ok(Vec::new(alloc)),
    }
}

/// Which serials of a command on orders are taken.
fn taken_by_order(
    alloc: Global,
    shop: &Shop,
    command: &OrderCommand,
) -> Result<Vec<String>, AllocError>
    ensures { IfOk result (λ facts.
        fields_of facts ≡ taken_by_order (state_of shop.now) command.now) }
{
    match command {
        OrderCommand::Receive { line, new, .. } => {
            taken_in(alloc, shop, &new.serials, part_of_line(shop, *line))
        }
        _ => Ok(Vec::new(alloc)),
    }
}

/// Which serials of a command on builds are taken.
fn taken_by_build(
    alloc: Global,
    shop: &Shop,
    command: &BuildCommand,
) -> Result<Vec<String>, AllocError>
    ensures { IfOk result (λ facts.
        fields_of facts ≡ taken_by_build (state_of shop.now) command.now) }
{
    match command {
        BuildCommand::NewOutputs { build, new } => {
            taken_in(alloc, shop, &new.serials, part_of_build(shop, *build))
        }
        _ => Ok(Vec::new(alloc)),
    }
}

/// Which serials of a command are taken.
fn taken(alloc: Global, shop: &Shop, command: &Command) -> Result<Vec<String>, AllocError>
    ensures { IfOk result (λ facts. fields_of facts ≡ taken (state_of shop.now) command.now) }
{
    match command {
        Command::Stock(command) => taken_by_stock(alloc, shop, command),
        Command::Order(command) => taken_by_order(alloc, shop, command),
        Command::Build(command) => taken_by_build(alloc, shop, command),
        _ => Ok(Vec::new(alloc)),
    }
}

/// The facts of a request, with a comma between two: what its key was used for, where an answer is kept under it; each row
/// that its command names, and what it asks for; and each of its serials that isn't free in the family of the part that
/// it would have there. An error is one of memory.
pub fn request_facts(alloc: Global, shop: &Shop, request: &Request) -> Result<String, AllocError>
    ensures { IfOk result (λ text. string_bytes text
        ≡ request_facts (state_of shop.now) request.now.key request.now.command) }
{
    let mut told = key_facts(alloc, shop, &request.key)?;
    let mut more = facts(alloc, shop, &request.command)?;
    let mut last = taken(alloc, shop, &request.command)?;
    more.append(&mut last)?;
    told.append(&mut more)?;
    commas(alloc, told.as_slice())
}
