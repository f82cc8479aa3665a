//! Requests, each by the name of its command.
use alloc_core::AllocCommand;
use bom_core::{BomCommand, LineFlags, NewLine};
use build_core::BuildCommand;
use desk_core::{Command, Key, Request};
use order_core::OrderCommand;
use part_core::{
    Day, Flags, Name, NewPart, PartCommand, Serials, Side, Status, Text, read_serials,
};
use std::alloc::Global;
use std::test::Fail;
use stock_core::{NewStock, StockCommand};
use yard_core::YardCommand;

pub fn name(alloc: Global, text: &str) -> Result<Name, Fail> {
    Ok(Text::new(String::from_str(alloc, text)?).ok_or("a name")?)
}

fn request(command: Command) -> Result<Request, Fail> {
    let day = Day::parse("2030-01-02").ok_or("a day")?;
    Ok(Request {
        key: None,
        day,
        command,
    })
}

fn of_part(command: PartCommand) -> Result<Request, Fail> {
    request(Command::Part(command))
}

fn of_bom(command: BomCommand) -> Result<Request, Fail> {
    request(Command::Bom(command))
}

pub fn of_stock(command: StockCommand) -> Result<Request, Fail> {
    request(Command::Stock(command))
}

fn of_order(command: OrderCommand) -> Result<Request, Fail> {
    request(Command::Order(command))
}

fn of_build(command: BuildCommand) -> Result<Request, Fail> {
    request(Command::Build(command))
}

/// The request under this key.
pub fn keyed(alloc: Global, key: &str, mut request: Request) -> Result<Request, Fail> {
    let key = Key::new(String::from_str(alloc, key)?).ok_or("a key")?;
    request.key = Some(key);
    Ok(request)
}

// ---- locations, categories and parts

pub fn location(alloc: Global, text: &str, parent: Option<u64>) -> Result<Request, Fail> {
    let name = name(alloc, text)?;
    request(Command::Yard(YardCommand::AddLocation { name, parent }))
}

pub fn category(alloc: Global, text: &str, parent: Option<u64>) -> Result<Request, Fail> {
    let name = name(alloc, text)?;
    of_part(PartCommand::AddCategory { name, parent })
}

pub fn component() -> Flags {
    let mut flags = Flags::default();
    flags.component = true;
    flags
}

/// What may be sold.
pub fn salable() -> Flags {
    let mut flags = Flags::default();
    flags.salable = true;
    flags
}

/// What holds others, and what others may hold, with serials.
pub fn assembly() -> Flags {
    let mut flags = component();
    flags.assembly = true;
    flags.trackable = true;
    flags
}

pub fn part(
    alloc: Global,
    text: &str,
    template: Option<u64>,
    flags: Flags,
) -> Result<Request, Fail> {
    let name = name(alloc, text)?;
    of_part(PartCommand::AddPart(NewPart {
        name,
        category: None,
        template,
        flags,
    }))
}

/// A part in a category.
pub fn part_in(alloc: Global, text: &str, category: u64, flags: Flags) -> Result<Request, Fail> {
    let name = name(alloc, text)?;
    of_part(PartCommand::AddPart(NewPart {
        name,
        category: Some(category),
        template: None,
        flags,
    }))
}

// ---- bills of materials

pub fn line(assembly: u64, component: u64, quantity: u64) -> Result<Request, Fail> {
    of_bom(BomCommand::AddLine(NewLine {
        assembly,
        component,
        quantity,
        flags: LineFlags::default(),
    }))
}

pub fn drop_line(line: u64) -> Result<Request, Fail> {
    of_bom(BomCommand::DropLine { line })
}

pub fn substitute(line: u64, part: u64) -> Result<Request, Fail> {
    of_bom(BomCommand::AddSubstitute { line, part })
}

// ---- stock

pub fn found_of(part: u64, location: u64, new: NewStock) -> Result<Request, Fail> {
    of_stock(StockCommand::Found {
        part,
        location,
        new,
    })
}

pub fn found(part: u64, location: u64, quantity: u64) -> Result<Request, Fail> {
    let new = NewStock {
        quantity,
        batch: None,
        serials: None,
    };
    found_of(part, location, new)
}

/// Pieces of a batch.
pub fn found_batch(
    alloc: Global,
    part: u64,
    location: u64,
    quantity: u64,
    batch: &str,
) -> Result<Request, Fail> {
    let batch = name(alloc, batch)?;
    let new = NewStock {
        quantity,
        batch: Some(batch),
        serials: None,
    };
    found_of(part, location, new)
}

/// So many pieces, with these serials.
fn pieces(alloc: Global, quantity: u64, list: &str) -> Result<NewStock, Fail> {
    let serials = read_serials(alloc, list).ok().ok_or("serials")?;
    Ok(NewStock {
        quantity,
        batch: None,
        serials: Some(Serials::new(serials)),
    })
}

/// Pieces with these serials.
pub fn found_serials(
    alloc: Global,
    part: u64,
    location: u64,
    quantity: u64,
    list: &str,
) -> Result<Request, Fail> {
    found_of(part, location, pieces(alloc, quantity, list)?)
}

/// A piece with a serial.
pub fn found_one(alloc: Global, part: u64, location: u64, serial: &str) -> Result<Request, Fail> {
    found_serials(alloc, part, location, 1, serial)
}

pub fn serialise(alloc: Global, item: u64, quantity: u64, list: &str) -> Result<Request, Fail> {
    let serials = read_serials(alloc, list).ok().ok_or("serials")?;
    of_stock(StockCommand::Serialise {
        item,
        quantity,
        serials: Serials::new(serials),
    })
}

pub fn remove(item: u64, quantity: u64) -> Result<Request, Fail> {
    of_stock(StockCommand::Remove { item, quantity })
}

pub fn transfer(item: u64, location: u64, quantity: u64) -> Result<Request, Fail> {
    of_stock(StockCommand::Transfer {
        item,
        location,
        quantity,
    })
}

pub fn install(item: u64, parent: u64, quantity: u64) -> Result<Request, Fail> {
    of_stock(StockCommand::Install {
        item,
        parent,
        quantity,
    })
}

pub fn set_status(item: u64, status: Status) -> Result<Request, Fail> {
    of_stock(StockCommand::SetStatus { item, status })
}

// ---- orders and allocations

pub fn purchase(alloc: Global, partner: &str) -> Result<Request, Fail> {
    of_order(OrderCommand::NewOrder {
        side: Side::Purchase,
        partner: name(alloc, partner)?,
    })
}

pub fn sale(alloc: Global, partner: &str) -> Result<Request, Fail> {
    of_order(OrderCommand::NewOrder {
        side: Side::Sale,
        partner: name(alloc, partner)?,
    })
}

pub fn order_line(order: u64, part: u64, quantity: u64) -> Result<Request, Fail> {
    of_order(OrderCommand::NewLine {
        order,
        part,
        quantity,
    })
}

pub fn issue_order(order: u64) -> Result<Request, Fail> {
    of_order(OrderCommand::IssueOrder { order })
}

pub fn cancel_order(order: u64) -> Result<Request, Fail> {
    of_order(OrderCommand::CancelOrder { order })
}

/// Pieces with neither a batch nor serials come by a line of a purchase.
pub fn receive(line: u64, location: u64, quantity: u64) -> Result<Request, Fail> {
    let new = NewStock {
        quantity,
        batch: None,
        serials: None,
    };
    of_order(OrderCommand::Receive {
        line,
        location,
        new,
    })
}

/// Pieces of a batch come by a line of a purchase.
pub fn received_batch(
    alloc: Global,
    line: u64,
    location: u64,
    quantity: u64,
    batch: &str,
) -> Result<Request, Fail> {
    let batch = name(alloc, batch)?;
    let new = NewStock {
        quantity,
        batch: Some(batch),
        serials: None,
    };
    of_order(OrderCommand::Receive {
        line,
        location,
        new,
    })
}

/// A piece with a serial comes by a line of a purchase.
pub fn received_one(
    alloc: Global,
    line: u64,
    location: u64,
    serial: &str,
) -> Result<Request, Fail> {
    let new = pieces(alloc, 1, serial)?;
    of_order(OrderCommand::Receive {
        line,
        location,
        new,
    })
}

pub fn allocate_sale(line: u64, item: u64, quantity: u64) -> Result<Request, Fail> {
    of_order(OrderCommand::AllocateSale {
        line,
        item,
        quantity,
    })
}

pub fn ship(order: u64) -> Result<Request, Fail> {
    of_order(OrderCommand::Ship { order })
}

pub fn return_item(item: u64, location: u64) -> Result<Request, Fail> {
    of_order(OrderCommand::ReturnItem { item, location })
}

pub fn release(allocation: u64) -> Result<Request, Fail> {
    request(Command::Alloc(AllocCommand::Release { allocation }))
}

// ---- builds

pub fn build(part: u64, quantity: u64) -> Result<Request, Fail> {
    of_build(BuildCommand::NewBuild { part, quantity })
}

pub fn issue_build(build: u64) -> Result<Request, Fail> {
    of_build(BuildCommand::IssueBuild { build })
}

pub fn hold_build(build: u64) -> Result<Request, Fail> {
    of_build(BuildCommand::HoldBuild { build })
}

pub fn cancel_build(build: u64) -> Result<Request, Fail> {
    of_build(BuildCommand::CancelBuild { build })
}

/// Outputs with these serials.
pub fn serialised(alloc: Global, build: u64, quantity: u64, list: &str) -> Result<Request, Fail> {
    let new = pieces(alloc, quantity, list)?;
    of_build(BuildCommand::NewOutputs { build, new })
}

pub fn complete_output(output: u64, location: u64) -> Result<Request, Fail> {
    of_build(BuildCommand::CompleteOutput { output, location })
}

pub fn cancel_output(output: u64) -> Result<Request, Fail> {
    of_build(BuildCommand::CancelOutput { output })
}

pub fn scrap_output(output: u64) -> Result<Request, Fail> {
    of_build(BuildCommand::ScrapOutput { output })
}

/// For an untracked line.
pub fn allocate_build(build: u64, line: u64, item: u64, quantity: u64) -> Result<Request, Fail> {
    of_build(BuildCommand::AllocateBuild {
        build,
        line,
        item,
        quantity,
        output: None,
    })
}

/// For a tracked line.
pub fn allocate_output(
    output: u64,
    build: u64,
    line: u64,
    item: u64,
    quantity: u64,
) -> Result<Request, Fail> {
    of_build(BuildCommand::AllocateBuild {
        build,
        line,
        item,
        quantity,
        output: Some(output),
    })
}

/// From the components and their variants, for the lines that aren't optional.
pub fn auto_allocate(build: u64) -> Result<Request, Fail> {
    of_build(BuildCommand::AutoAllocate {
        build,
        with_substitutes: false,
        with_optional: false,
    })
}

pub fn complete_build(build: u64) -> Result<Request, Fail> {
    of_build(BuildCommand::CompleteBuild { build })
}
