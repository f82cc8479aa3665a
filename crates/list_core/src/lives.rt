//! Of each item the day of its first entry, and what was built of it.
ghost use Rattle.std.specs.Prelude.{◌≡◌, ◌∷◌, [], IfOk, OnOk};
ghost use Rattle.std.specs.FinMap as table;
ghost use Rattle.sheet_core.specs.Sheet.{now_of};
ghost use Rattle.desk_core.specs.ShopView.{state_of};
ghost use Rattle.list_core.specs.Lives.{TellLives, built_by, built_in, day_in, life_at, life_with};
ghost use Rattle.list_core.specs.Lives.{with_entries, with_entry};

use crate::amounts::added;
use desk_core::Shop;
use part_core::{Day, Id, Row, Sheet};
use std::alloc::{AllocError, Global};
use yard_core::{Entry, Kind, Place};

/// What the history says of an item.
#[derive(Drop)]
pub struct Life {
    pub item: Id,
    /// That of its first entry.
    pub day: Day,
    /// What builds made of it. An output that was thrown away was none.
    pub built: u128,
}

impl Row for Life {
    type Key = u64;

    ghost key_of = { λ life. life.item ∷ [] };

    fn key(&self, _alloc: Global) -> Result<u64, AllocError> {
        Ok(self.item)
    }

    fn equals(&self, other: &Self) -> bool {
        if self.item != other.item {
            return false;
        }
        if !self.day.equals(&other.day) {
            return false;
        }
        self.built == other.built
    }

    fn copy(&self, _alloc: Global) -> Result<Self, AllocError> {
        Ok(Life {
            item: self.item,
            day: self.day,
            built: self.built,
        })
    }
}

/// What an entry adds to what was built.
fn built_by(entry: &Entry) -> u64
    ensures { result ≡ built_by entry.now }
{
    let note = entry.note;
    if matches!(note.kind, Kind::Built) && !matches!(note.place, Place::Output(_)) {
        note.quantity
    } else {
        0
    }
}

/// What is known of the entry's item, with the entry. An error is one of memory.
fn life_with(lives: &Sheet<Life>, entry: &Entry) -> Result<Life, AllocError>
    ensures { IfOk result (λ life. life
        ≡ life_with entry.now (life_at entry.now.note.item (now_of lives.now))) }
{
    let item = entry.note.item;
    let built = u128::from(built_by(entry));
    match lives.get(&item) {
        None => Ok(Life {
            item,
            day: entry.day,
            built,
        }),
        Some(life) => Ok(Life {
            item,
            day: life.day,
            built: added(life.built, built)?,
        }),
    }
}

/// An entry comes to what is known of its item. An error is one of memory.
fn gather(lives: &mut Sheet<Life>, entry: &Entry) -> Result<(), AllocError>
    ensures { OnOk result (now_of lives.new ≡ with_entry entry.now (now_of lives.old)) }
{
    let life = life_with(lives, entry)?;
    lives.put(life)
}

/// The same of each entry. An error is one of memory.
fn gather_all(lives: &mut Sheet<Life>, entries: &[Entry]) -> Result<(), AllocError>
    ensures { OnOk result (now_of lives.new ≡ with_entries entries.now (now_of lives.old)) }
{
    for entry in entries {
        gather(lives, entry)?;
    }
    Ok(())
}

/// What the history says of each item, in one pass. An error is one of memory.
#[tactic(auto, using(crate::proofs::LivesTold::lives_told))]
pub(crate) fn lives(alloc: Global, shop: &Shop) -> Result<Sheet<Life>, AllocError>
    ensures { IfOk result (λ lives. TellLives (state_of shop.now) (now_of lives)) }
{
    let mut lives = Sheet::new(alloc, shop.catalogue().seed());
    gather_all(&mut lives, shop.yard().whole_history().as_slice())?;
    Ok(lives)
}

/// The day of the item's first entry, where it has one.
pub(crate) fn first_day(lives: &Sheet<Life>, item: Id) -> Option<Day>
    ensures { result ≡ day_in (life_at item (now_of lives.now)) }
{
    match lives.get(&item) {
        Some(life) => Some(life.day),
        None => None,
    }
}

/// How many were built of the item.
pub(crate) fn built_of(lives: &Sheet<Life>, item: Id) -> u128
    ensures { result ≡ built_in (life_at item (now_of lives.now)) }
{
    match lives.get(&item) {
        Some(life) => life.built,
        None => 0,
    }
}
