//! What a clerk may ask.
ghost use Rattle.std.specs.Prelude.{◌≡◌, option_map};
ghost use Rattle.word_core.specs.Forms.{form_named, shown};
ghost use Rattle.word_core.specs.FormTables.{command_by, forms_by};
ghost use Rattle.desk_core.specs.CommandForms.{command_back, command_distinct, command_fields};
ghost use Rattle.desk_core.specs.CommandForms.{command_fills, command_forms, command_made, command_verb};

use crate::key::Key;
use alloc_core::AllocCommand;
use bom_core::BomCommand;
use build_core::BuildCommand;
use order_core::OrderCommand;
use part_core::{Day, Field, Form, Formed, PartCommand};
use std::alloc::{AllocError, Global};
use stock_core::StockCommand;
use yard_core::YardCommand;

/// What a clerk may ask, by the crate whose machine does it.
#[derive(Drop)]
pub enum Command {
    /// Of the catalogue: categories and parts.
    Part(PartCommand),
    /// Of the bills of materials.
    Bom(BomCommand),
    /// Of the yard itself: locations.
    Yard(YardCommand),
    /// Of stock.
    Stock(StockCommand),
    /// Of allocations themselves.
    Alloc(AllocCommand),
    /// Of orders.
    Order(OrderCommand),
    /// Of builds.
    Build(BuildCommand),
}

impl Formed for Command {
    ghost forms_of = { forms_by command_forms };

    ghost verb_of = { command_verb };

    ghost fields_of = { command_fields };

    ghost command_of = { command_by command_forms };

    #[tactic(auto, using(crate::proofs::ByCrate::form_by_crate))]
    fn form(verb: &str) -> Option<&'static Form> {
        if let Some(form) = StockCommand::form(verb) {
            return Some(form);
        }
        if let Some(form) = OrderCommand::form(verb) {
            return Some(form);
        }
        if let Some(form) = BuildCommand::form(verb) {
            return Some(form);
        }
        if let Some(form) = PartCommand::form(verb) {
            return Some(form);
        }
        if let Some(form) = BomCommand::form(verb) {
            return Some(form);
        }
        if let Some(form) = YardCommand::form(verb) {
            return Some(form);
        }
        AllocCommand::form(verb)
    }

    fn verb(&self) -> &'static str {
        match self {
            Command::Part(command) => command.verb(),
            Command::Bom(command) => command.verb(),
            Command::Yard(command) => command.verb(),
            Command::Stock(command) => command.verb(),
            Command::Alloc(command) => command.verb(),
            Command::Order(command) => command.verb(),
            Command::Build(command) => command.verb(),
        }
    }

    fn fields(&self, alloc: Global) -> Result<Vec<Field>, AllocError> {
        match self {
            Command::Part(command) => command.fields(alloc),
            Command::Bom(command) => command.fields(alloc),
            Command::Yard(command) => command.fields(alloc),
            Command::Stock(command) => command.fields(alloc),
            Command::Alloc(command) => command.fields(alloc),
            Command::Order(command) => command.fields(alloc),
            Command::Build(command) => command.fields(alloc),
        }
    }

    // The verb is looked up here anew, once in the forms of a crate and once by the crate itself, though the fields were read
    // by its form: a form doesn't say whose it is, and a verb of one's own choice has to be told apart all the same.
    #[tactic(auto, using(crate::proofs::ByCrate::command_by_crate))]
    fn from_fields(verb: &str, fields: Vec<Field>) -> Option<Self> {
        if StockCommand::form(verb).is_some() {
            let command = StockCommand::from_fields(verb, fields)?;
            return Some(Command::Stock(command));
        }
        if OrderCommand::form(verb).is_some() {
            let command = OrderCommand::from_fields(verb, fields)?;
            return Some(Command::Order(command));
        }
        if BuildCommand::form(verb).is_some() {
            let command = BuildCommand::from_fields(verb, fields)?;
            return Some(Command::Build(command));
        }
        if PartCommand::form(verb).is_some() {
            let command = PartCommand::from_fields(verb, fields)?;
            return Some(Command::Part(command));
        }
        if BomCommand::form(verb).is_some() {
            let command = BomCommand::from_fields(verb, fields)?;
            return Some(Command::Bom(command));
        }
        if YardCommand::form(verb).is_some() {
            let command = YardCommand::from_fields(verb, fields)?;
            return Some(Command::Yard(command));
        }
        let command = AllocCommand::from_fields(verb, fields)?;
        Some(Command::Alloc(command))
    }

    ghost fills = { command_fills };

    ghost back = { command_back };

    ghost made = { command_made };

    ghost distinct = { command_distinct };
}

/// A command, the day that it carries, and the key that it is called by, if any. Days needn't rise.
pub struct Request {
    pub key: Option<Key>,
    pub day: Day,
    pub command: Command,
}

// It is written out, so that a caller does not prove again how each part is dropped.
impl Drop for Request {
    fn drop(self) {
        let Request {
            key: _,
            day: _,
            command: _,
        } = self;
    }
}
