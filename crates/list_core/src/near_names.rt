//! Names that nearly collide. Rows are filed by what counts of their names, so that those that may be near a new name are
//! found without a look at the others; whether one is near is asked of the row itself.
ghost use Rattle.std.specs.Prelude.{◌≡◌, ◌≤◌, nat_lt, is_some, IfOk, OnOk, IfSome, option_copied, option_map};
ghost use Rattle.std.specs.String.{string_bytes};
ghost use Rattle.part_core.specs.CatalogueView.{parts_of};
ghost use Rattle.yard_core.specs.YardView.{stock_of};
ghost use Rattle.desk_core.specs.ShopView.{state_of};
ghost use Rattle.list_core.specs.NearNames.{IsNote, StandsNear, child_name, is_near, name_on, new_name, quoted};

use crate::folds::{fold, is_blank, shown};
use desk_core::{Command, Shop};
use part_core::{Catalogue, Id, Name, NamedRow, PartCommand, Seed, is_same_number};
use std::alloc::{AllocError, Global};
use std::collections::BTreeSet;
use yard_core::{Yard, YardCommand};

/// Where a name stands: among the parts, or among the categories or locations under one parent or at the top.
#[derive(Clone, Copy, Debug)]
pub(crate) enum Shelf {
    Parts,
    Categories(Option<Id>),
    Locations(Option<Id>),
}

// What names are filed by: the shelf, and what counts of the name.
#[derive(Clone, Copy, Debug, PartialEq, Eq, Hash)]
enum NearLookup<'a> {
    Part(&'a str),
    Category(Id, &'a str),
    Location(Id, &'a str),
}

// The hash of what a name is filed by, begun with the seed of the shop, with the number of its row.
#[derive(Clone, Copy, PartialEq, Eq, PartialOrd, Ord)]
struct Filing {
    key: u64,
    number: Id,
}

/// The rows that have names, by what counts of these. It goes no further than it was taken, by `catch_up`.
#[derive(Drop)]
pub struct NearNames {
    filings: BTreeSet<Filing>,
    next: Id,
}

/// The number of a parent, or 0, which is no row's.
fn parent_number(parent: Option<Id>) -> Id {
    match parent {
        Some(number) => number,
        None => 0,
    }
}

/// What a name is filed under.
fn key_of(seed: Seed, shelf: Shelf, folded: &str) -> u64 {
    match shelf {
        Shelf::Parts => seed.hash_of(NearLookup::Part(folded)),
        Shelf::Categories(parent) => {
            seed.hash_of(NearLookup::Category(parent_number(parent), folded))
        }
        Shelf::Locations(parent) => {
            seed.hash_of(NearLookup::Location(parent_number(parent), folded))
        }
    }
}

/// The row's name, where it is under this parent.
fn child_name(row: Option<&NamedRow>, parent: Option<Id>) -> Option<&Name>
    ensures { option_copied result ≡ child_name parent (option_copied row.entry) }
{
    let Some(row) = row else {
        return None;
    };
    if is_same_number(row.parent, parent) {
        Some(&row.name)
    } else {
        None
    }
}

/// The name of the row of that number, where it stands on the shelf.
fn name_on<'a>(
    catalogue: &'a Catalogue,
    yard: &'a Yard,
    shelf: Shelf,
    number: Id,
) -> Option<&'a Name>
    ensures { option_copied result
        ≡ name_on (parts_of catalogue.now) (stock_of yard.now) shelf number }
{
    match shelf {
        Shelf::Parts => match catalogue.part(number) {
            Some(part) => Some(&part.name),
            None => None,
        },
        Shelf::Categories(parent) => child_name(catalogue.category(number), parent),
        Shelf::Locations(parent) => child_name(yard.location(number), parent),
    }
}

/// Whether another name has the same that counts. An error is one of memory.
fn is_near(alloc: Global, name: &Name, other: &Name) -> Result<bool, AllocError>
    ensures { IfOk result (λ near. near ≡ is_near name.now other.now) }
{
    if other.equals(name) {
        return Ok(false);
    }
    let folded = fold(alloc, other.as_str())?;
    let wanted = fold(alloc, name.as_str())?;
    Ok(folded.as_str() == wanted.as_str())
}

/// The name that a command gives, and where it stands.
fn new_name(command: &Command) -> Option<(Shelf, &Name)>
    ensures { option_map (λ new. (new.0, new.1.now)) result ≡ new_name command.now }
{
    match command {
        Command::Part(PartCommand::AddPart(new)) => Some((Shelf::Parts, &new.name)),
        Command::Part(PartCommand::AddCategory { name, parent }) => {
            Some((Shelf::Categories(*parent), name))
        }
        Command::Yard(YardCommand::AddLocation { name, parent }) => {
            Some((Shelf::Locations(*parent), name))
        }
        _ => None,
    }
}

/// A name in quotes, as a person is shown it.
fn quoted(alloc: Global, name: &Name) -> Result<String, AllocError>
    ensures { IfOk result (λ text. string_bytes text ≡ quoted name.now) }
{
    let name = shown(alloc, name.as_str())?;
    format!(in alloc; "\"{name}\"")
}

impl NearNames {
    /// No rows yet. It takes no memory.
    pub fn new(alloc: Global) -> Self
        ensures { result.next ≡ 0 }
    {
        NearNames {
            filings: BTreeSet::new(alloc),
            next: 0,
        }
    }

    /// Whether the command gives a name to a part, a category or a location.
    pub fn may_name(command: &Command) -> bool
        ensures { result ≡ is_some (new_name command.now) }
    {
        new_name(command).is_some()
    }

    // Files a name with the number of its row.
    fn file(
        &mut self,
        alloc: Global,
        seed: Seed,
        shelf: Shelf,
        name: &Name,
        number: Id,
    ) -> Result<(), AllocError>
        ensures { self.new.next ≡ self.old.next }
    {
        let folded = fold(alloc, name.as_str())?;
        let key = key_of(seed, shelf, folded.as_str());
        self.filings.insert(Filing { key, number })?;
        Ok(())
    }

    // Files the name of the row of that number, if it has one.
    fn file_row(&mut self, alloc: Global, shop: &Shop, number: Id) -> Result<(), AllocError>
        ensures { self.new.next ≡ self.old.next }
    {
        let seed = shop.catalogue().seed();
        if let Some(part) = shop.catalogue().part(number) {
            return self.file(alloc, seed, Shelf::Parts, &part.name, number);
        }
        if let Some(row) = shop.catalogue().category(number) {
            return self.file(
                alloc,
                seed,
                Shelf::Categories(row.parent),
                &row.name,
                number,
            );
        }
        if let Some(row) = shop.yard().location(number) {
            return self.file(alloc, seed, Shelf::Locations(row.parent), &row.name, number);
        }
        Ok(())
    }

    /// Files the names of the rows whose numbers were drawn since it was last called: each number is looked at once. An
    /// error is one of memory, and what was filed before it stays so.
    pub fn catch_up(&mut self, alloc: Global, shop: &Shop) -> Result<(), AllocError>
        ensures caught { OnOk result ((state_of shop.now).counter.next ≤ self.new.next) }
        ensures on { self.old.next ≤ self.new.next }
    {
        for number in self.next..shop.counter().next() {
            self.file_row(alloc, shop, number)?;
            self.next = number + 1;
        }
        Ok(())
    }

    /// Whether a number was drawn since it last caught up.
    pub fn is_behind(&self, shop: &Shop) -> bool
        ensures { result ≡ nat_lt self.now.next (state_of shop.now).counter.next }
    {
        self.next < shop.counter().next()
    }

    // The first of the filed names on the shelf that is near this one.
    fn near<'a>(
        &self,
        alloc: Global,
        catalogue: &'a Catalogue,
        yard: &'a Yard,
        shelf: Shelf,
        name: &Name,
    ) -> Result<Option<&'a Name>, AllocError>
        ensures { IfOk result (λ near. IfSome near (λ other.
            StandsNear (parts_of catalogue.now) (stock_of yard.now) shelf name.now other.now)) }
    {
        let folded = fold(alloc, name.as_str())?;
        let key = key_of(catalogue.seed(), shelf, folded.as_str());
        let first = Filing { key, number: 0 };
        let last = Filing {
            key,
            number: u64::MAX,
        };
        for filing in self.filings.range(first..=last) {
            if let Some(other) = name_on(catalogue, yard, shelf, filing.number) {
                if is_near(alloc, name, other)? {
                    return Ok(Some(other));
                }
            }
        }
        Ok(None)
    }

    /// What a person is told of the name that the command gave, in the books in which it was done: that nothing is seen of
    /// it, or the first name beside it that is the same but for the case of letters, blanks, punctuation and characters of
    /// no width. It looks at those that were filed, and at those alone of which the same counts. An error is one of memory.
    pub fn note(
        &self,
        alloc: Global,
        shop: &Shop,
        command: &Command,
    ) -> Result<Option<String>, AllocError>
        ensures { IfOk result (λ note.
            IsNote (state_of shop.now) command.now (option_map string_bytes note)) }
    {
        let Some((shelf, name)) = new_name(command) else {
            return Ok(None);
        };
        let told = quoted(alloc, name)?;
        if is_blank(alloc, name.as_str())? {
            return Ok(Some(format!(in alloc; "the name {told} is blank")?));
        }
        let near = self.near(alloc, shop.catalogue(), shop.yard(), shelf, name)?;
        let Some(other) = near else {
            return Ok(None);
        };
        let other = quoted(alloc, other)?;
        Ok(Some(format!(in alloc; "{told} is new beside {other}")?))
    }
}
