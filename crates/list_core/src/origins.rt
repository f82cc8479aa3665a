//! What made a row: the kept request that drew its number, and what its text says of it.
ghost use Rattle.std.specs.Prelude.{◌≡◌, ◌↔◌, ◌++◌, ◌∷◌, [], IfOk, IsTrue, MatchResult, OnOk, Some, None};
ghost use Rattle.std.specs.Prelude.{codes, flat_map, map, option_and_then, option_copied, option_map, unwrap_or};
ghost use Rattle.std.specs.FinMap as table;
ghost use Rattle.std.specs.String.{string_bytes};
ghost use Rattle.sheet_core.specs.Indexed.{index_key_of};
ghost use Rattle.serde_json.specs.Read.{read};
ghost use Rattle.serde_json.specs.View.{view};
ghost use Rattle.sheet_core.specs.Sheet.{now_of};
ghost use Rattle.desk_core.specs.ShopView.{state_of};
ghost use Rattle.list_core.specs.Origins.{begun, begun_for, begun_key, cut_key, cut_off, cut_off_it};
ghost use Rattle.list_core.specs.Origins.{day_or_empty, is_begun_for, is_cut_off, is_cutting};
ghost use Rattle.list_core.specs.Origins.{is_received_for, key_day, key_day_text, key_text, number_in};
ghost use Rattle.list_core.specs.Origins.{origin_at, origin_day, origin_keys, origin_of, origin_rows};
ghost use Rattle.list_core.specs.Origins.{origins_in, origins_of, received, received_for, received_key};
ghost use Rattle.list_core.specs.Origins.{source_by, source_in, source_keys, source_of, text_in};
ghost use Rattle.list_core.specs.Origins.{verb_of, verb_text};

use desk_core::{CommandText, Kept, Key, Shop};
use part_core::{Day, Id, Indexed, IndexedSheet, Row, Seed};
use serde_json::Value;
use std::alloc::{AllocError, Global};
use std::hash::Hash;
use std::marker::Model;
use yard_core::rows_in_order;

/// What a text says of the rows that its request made.
#[derive(Clone, Copy, Debug, PartialEq, Eq)]
pub enum Source {
    /// They were begun for this build.
    Begun(Id),
    /// They were received for this line of an order.
    Received(Id),
    /// They were cut off this item.
    CutOff(Id),
    /// They were made, and it says no more.
    Made,
}

/// What a row is looked up by, besides its number.
#[derive(Clone, Copy, Debug, PartialEq, Eq, Hash)]
pub enum SourceLookup {
    Begun(Id),
    Received(Id),
    CutOff(Id),
}

/// The word of a command's text. A clause sees its bytes.
#[derive(Drop)]
pub struct Verb {
    text: String,
}

impl Model for Verb {
    ghost use Rattle.std.specs.Prelude.{ℕ, List};
    ghost use Rattle.std.specs.String.{string_bytes};

    ghost Value = { List ℕ };

    ghost view = { λ v. string_bytes v.text };
}

impl Verb {
    /// The word of this text.
    pub fn new(text: String) -> Self
        ensures { result ≡ string_bytes text }
    {
        Verb { text }
    }

    pub fn as_str(&self) -> &str
        ensures { result.now ≡ self.now }
    {
        self.text.as_str()
    }

    /// An equal word.
    pub fn copy(&self, alloc: Global) -> Result<Self, AllocError>
        ensures { IfOk result (λ verb. verb ≡ self.now) }
    {
        let text = String::from_str(alloc, self.text.as_str())?;
        Ok(Verb { text })
    }

    /// Whether the words are equal.
    pub fn equals(&self, other: &Verb) -> bool
        ensures { IsTrue result ↔ (self.now ≡ other.now) }
    {
        self.text.as_str() == other.text.as_str()
    }
}

/// What made the row of a number.
#[derive(Drop)]
pub struct Origin {
    pub number: Id,
    pub source: Source,
    /// The word of the text of the request.
    pub verb: Verb,
    /// The key of the request.
    pub key: Key,
}

impl Source {
    /// Whether the sources are the same.
    pub fn equals(&self, other: &Source) -> bool
        ensures { IsTrue result ↔ (self.now ≡ other.now) }
    {
        *self == *other
    }

    /// Whether it was begun for the build.
    pub fn is_begun_for(self, build: Id) -> bool
        ensures { result ≡ is_begun_for build self }
    {
        match self {
            Source::Begun(own) => own == build,
            _ => false,
        }
    }

    /// Whether it was received for the line of an order.
    pub fn is_received_for(self, line: Id) -> bool
        ensures { result ≡ is_received_for line self }
    {
        match self {
            Source::Received(own) => own == line,
            _ => false,
        }
    }

    /// Whether it was cut off the item.
    pub fn is_cut_off(self, item: Id) -> bool
        ensures { result ≡ is_cut_off item self }
    {
        match self {
            Source::CutOff(own) => own == item,
            _ => false,
        }
    }
}

/// The look-up of the rows that were begun for the build.
fn begun_key(build: Id) -> SourceLookup
    ensures { index_key_of (⟦<SourceLookup as Hash>⟧.hash_input result) ≡ begun_key build }
{
    SourceLookup::Begun(build)
}

/// The look-up of the rows that were received for the line of an order.
fn received_key(line: Id) -> SourceLookup
    ensures { index_key_of (⟦<SourceLookup as Hash>⟧.hash_input result) ≡ received_key line }
{
    SourceLookup::Received(line)
}

/// The look-up of the rows that were cut off the item.
fn cut_key(item: Id) -> SourceLookup
    ensures { index_key_of (⟦<SourceLookup as Hash>⟧.hash_input result) ≡ cut_key item }
{
    SourceLookup::CutOff(item)
}

impl Row for Origin {
    type Key = u64;

    ghost key_of = { λ row. row.number ∷ [] };

    fn key(&self, _alloc: Global) -> Result<u64, AllocError> {
        Ok(self.number)
    }

    fn equals(&self, other: &Self) -> bool {
        if self.number != other.number {
            return false;
        }
        if !self.source.equals(&other.source) {
            return false;
        }
        if !self.verb.equals(&other.verb) {
            return false;
        }
        self.key.equals(&other.key)
    }

    fn copy(&self, alloc: Global) -> Result<Self, AllocError> {
        let verb = self.verb.copy(alloc)?;
        let key = self.key.copy(alloc)?;
        Ok(Origin {
            number: self.number,
            source: self.source,
            verb,
            key,
        })
    }
}

impl Indexed for Origin {
    ghost index_keys = { origin_keys };

    fn index_key(&self, seed: &Seed, place: usize) -> Option<u64> {
        if place != 0 {
            return None;
        }
        match self.source {
            Source::Begun(build) => Some(seed.hash_of(begun_key(build))),
            Source::Received(line) => Some(seed.hash_of(received_key(line))),
            Source::CutOff(item) => Some(seed.hash_of(cut_key(item))),
            Source::Made => None,
        }
    }
}

/// The number that a member is, where it is one.
fn number_in(object: &Value, name: &str) -> Option<u64>
    ensures { result ≡ number_in name.now (view object.now) }
{
    match object.get(name) {
        Some(value) => value.as_u64(),
        None => None,
    }
}

/// The text that a member is, where it is one.
fn text_in<'a>(object: &'a Value, name: &str) -> Option<&'a str>
    ensures { option_map (λ text. text.now) result ≡ text_in name.now (view object.now) }
{
    match object.get(name) {
        Some(value) => value.as_str(),
        None => None,
    }
}

fn begun(build: Option<u64>) -> Source
    ensures { result ≡ begun build }
{
    match build {
        Some(build) => Source::Begun(build),
        None => Source::Made,
    }
}

fn received(line: Option<u64>) -> Source
    ensures { result ≡ received line }
{
    match line {
        Some(line) => Source::Received(line),
        None => Source::Made,
    }
}

fn cut_off(item: Option<u64>) -> Source
    ensures { result ≡ cut_off item }
{
    match item {
        Some(item) => Source::CutOff(item),
        None => Source::Made,
    }
}

/// Whether a command of this word may cut a piece off the item that it names.
fn is_cutting(word: &str) -> bool
    ensures { result ≡ is_cutting word.now }
{
    word == "transfer" || word == "split" || word == "serialise" || word == "install"
}

/// What the word and the members beside it say.
fn source_by(word: &str, object: &Value) -> Source
    ensures { result ≡ source_by word.now (view object.now) }
{
    if word == "outputs" {
        return begun(number_in(object, "build"));
    }
    if word == "receive" {
        return received(number_in(object, "line"));
    }
    if is_cutting(word) {
        return cut_off(number_in(object, "item"));
    }
    Source::Made
}

/// What a text says, with its word.
#[derive(Drop)]
struct Saying {
    source: Source,
    verb: Verb,
}

fn saying_by(alloc: Global, object: &Value) -> Result<Saying, AllocError>
    ensures source { IfOk result (λ told. told.source
        ≡ source_in (text_in (codes "do") (view object.now)) (view object.now)) }
    ensures verb { IfOk result (λ told. told.verb
        ≡ unwrap_or (text_in (codes "do") (view object.now)) []) }
{
    match text_in(object, "do") {
        Some(word) => {
            let verb = Verb::new(String::from_str(alloc, word)?);
            Ok(Saying {
                source: source_by(word, object),
                verb,
            })
        }
        None => Ok(Saying {
            source: Source::Made,
            verb: Verb::new(String::new(alloc)),
        }),
    }
}

/// What a kept text says. An error is one of memory.
#[tactic(auto, unfolding(crate::specs::Origins::source_of, crate::specs::Origins::verb_of))]
fn saying_of(alloc: Global, text: &CommandText) -> Result<Saying, AllocError>
    ensures source { IfOk result (λ told. told.source ≡ source_of text.now) }
    ensures verb { IfOk result (λ told. told.verb ≡ verb_of text.now) }
{
    match Value::from_str(alloc, text.as_str()) {
        Ok(object) => saying_by(alloc, &object),
        Err(e) => {
            if e.is_memory() {
                return Err(AllocError);
            }
            Ok(Saying {
                source: Source::Made,
                verb: Verb::new(String::new(alloc)),
            })
        }
    }
}

/// Adds a row for each number that the kept request drew. An error is one of memory.
fn push_origins(alloc: Global, kept: &Kept, rows: &mut Vec<Origin>) -> Result<(), AllocError>
    ensures { OnOk result (rows.new.items ≡ rows.old.items ++ origins_of kept.now) }
{
    let told = saying_of(alloc, &kept.command)?;
    let numbers = kept.answer.ids.as_slice();
    for number in numbers {
        let verb = told.verb.copy(alloc)?;
        let key = kept.word.copy(alloc)?;
        rows.push(Origin {
            number: *number,
            source: told.source,
            verb,
            key,
        })?;
    }
    Ok(())
}

/// A row for each number that these kept requests drew, in order. An error is one of memory.
fn origin_rows(alloc: Global, answers: &[&Kept]) -> Result<Vec<Origin>, AllocError>
    ensures { IfOk result (λ rows. rows.items
        ≡ flat_map origins_of (map (λ k. k.now) answers.now)) }
{
    let mut rows = Vec::new(alloc);
    for kept in answers {
        push_origins(alloc, kept, &mut rows)?;
    }
    Ok(rows)
}

/// The origin of each row that has one, found by its number, and by its build, its line or the item that it was cut off.
/// It reads each text that is kept, once. An error is one of memory.
pub(crate) fn origins(alloc: Global, shop: &Shop) -> Result<IndexedSheet<Origin>, AllocError>
    ensures { IfOk result (λ origins. now_of origins ≡ origins_in (state_of shop.now)) }
{
    let answers = rows_in_order(shop.answers())?;
    let rows = origin_rows(alloc, answers.as_slice())?;
    IndexedSheet::filled(alloc, shop.catalogue().seed(), rows)
}

/// The rows that were begun for the build, in order of number. It looks at those alone. An error is one of memory.
#[tactic(auto, using(crate::proofs::SourcesFiled::begun_filed))]
pub(crate) fn begun_for(
    origins: &IndexedSheet<Origin>,
    build: Id,
) -> Result<Vec<&Origin>, AllocError>
    ensures { IfOk result (λ rows.
        map (λ o. o.now) rows.items ≡ begun_for build (now_of origins.now)) }
{
    origins.select_under(begun_key(build), |o| o.source.is_begun_for(build))
}

/// The rows that were received for the line of an order, in order of number. It looks at those alone. An error is one of
/// memory.
#[tactic(auto, using(crate::proofs::SourcesFiled::received_filed))]
pub(crate) fn received_for(
    origins: &IndexedSheet<Origin>,
    line: Id,
) -> Result<Vec<&Origin>, AllocError>
    ensures { IfOk result (λ rows.
        map (λ o. o.now) rows.items ≡ received_for line (now_of origins.now)) }
{
    origins.select_under(received_key(line), |o| o.source.is_received_for(line))
}

/// The rows that were cut off the item, in order of number. It looks at those alone. An error is one of memory.
#[tactic(auto, using(crate::proofs::SourcesFiled::cut_filed))]
pub(crate) fn cut_off_it(
    origins: &IndexedSheet<Origin>,
    item: Id,
) -> Result<Vec<&Origin>, AllocError>
    ensures { IfOk result (λ rows.
        map (λ o. o.now) rows.items ≡ cut_off_it item (now_of origins.now)) }
{
    origins.select_under(cut_key(item), |o| o.source.is_cut_off(item))
}

/// The day with which a key begins, where its first ten bytes are one.
pub(crate) fn key_day(key: &Key) -> Option<Day>
    ensures { result ≡ key_day key.now }
{
    let bytes = key.as_str().as_bytes();
    let front = &bytes[..bytes.len().min(10)];
    match str::from_utf8(front) {
        Ok(text) => Day::parse(text),
        Err(_) => None,
    }
}

/// A day as a text, or nothing where there is none.
pub(crate) fn day_field(alloc: Global, day: Option<Day>) -> Result<String, AllocError>
    ensures { IfOk result (λ text. string_bytes text ≡ day_or_empty day) }
{
    match day {
        Some(day) => day.text(alloc),
        None => Ok(String::new(alloc)),
    }
}

/// The key of the row's origin, or nothing where it has none.
pub(crate) fn key_field(
    alloc: Global,
    origins: &IndexedSheet<Origin>,
    number: Id,
) -> Result<String, AllocError>
    ensures { IfOk result (λ text.
        string_bytes text ≡ key_text (origin_at number (now_of origins.now))) }
{
    match origins.get(number) {
        Some(origin) => String::from_str(alloc, origin.key.as_str()),
        None => Ok(String::new(alloc)),
    }
}

/// The day of the key of the row's origin, where it has one.
pub(crate) fn origin_day(origins: &IndexedSheet<Origin>, number: Id) -> Option<Day>
    ensures { result ≡ origin_day (origin_at number (now_of origins.now)) }
{
    match origins.get(number) {
        Some(origin) => key_day(&origin.key),
        None => None,
    }
}

/// The day of the key of the row's origin as a text, or nothing where there is none.
pub(crate) fn key_day_field(
    alloc: Global,
    origins: &IndexedSheet<Origin>,
    number: Id,
) -> Result<String, AllocError>
    ensures { IfOk result (λ text.
        string_bytes text ≡ key_day_text (origin_at number (now_of origins.now))) }
{
    day_field(alloc, origin_day(origins, number))
}

/// The word of the row's origin, or nothing where it has none.
pub(crate) fn verb_field(
    alloc: Global,
    origins: &IndexedSheet<Origin>,
    number: Id,
) -> Result<String, AllocError>
    ensures { IfOk result (λ text.
        string_bytes text ≡ verb_text (origin_at number (now_of origins.now))) }
{
    match origins.get(number) {
        Some(origin) => String::from_str(alloc, origin.verb.as_str()),
        None => Ok(String::new(alloc)),
    }
}

/// The numbers of these rows. An error is one of memory.
fn numbers_of(alloc: Global, rows: &[&Origin]) -> Result<Vec<Id>, AllocError>
    ensures { IfOk result (λ numbers. numbers.items
        ≡ map (λ o. o.number) (map (λ o. o.now) rows.now)) }
{
    let mut numbers = Vec::new(alloc);
    for row in rows {
        numbers.push(row.number)?;
    }
    Ok(numbers)
}

/// The numbers of the rows that were begun for the build, in order. An error is one of memory.
pub(crate) fn begun_numbers(
    alloc: Global,
    origins: &IndexedSheet<Origin>,
    build: Id,
) -> Result<Vec<Id>, AllocError>
    ensures { IfOk result (λ numbers. numbers.items
        ≡ map (λ o. o.number) (begun_for build (now_of origins.now))) }
{
    let rows = begun_for(origins, build)?;
    numbers_of(alloc, rows.as_slice())
}

/// The numbers of the rows that were cut off the item, in order. An error is one of memory.
pub(crate) fn cut_numbers(
    alloc: Global,
    origins: &IndexedSheet<Origin>,
    item: Id,
) -> Result<Vec<Id>, AllocError>
    ensures { IfOk result (λ numbers. numbers.items
        ≡ map (λ o. o.number) (cut_off_it item (now_of origins.now))) }
{
    let rows = cut_off_it(origins, item)?;
    numbers_of(alloc, rows.as_slice())
}
