//! A list of what a desk keeps, as it is shown to a person or saved for a spreadsheet.
ghost use Rattle.std.specs.Prelude.{◌≡◌, ◌≢◌, ◌↔◌, ◌⊎◌, Bool, IsSome, MatchResult, Ok};
ghost use Rattle.std.specs.Io.KnownBytes.{Appends, Keeps};
ghost use Rattle.desk_core.specs.Machine.{IsSoundState};
ghost use Rattle.desk_core.specs.ShopView.{state_of};
ghost use Rattle.desk_store.specs.Exports.{AppendsFront};
ghost use Rattle.list_core.specs.Listings.{listing_lines};
ghost use Rattle.list_words.specs.Lists.{listing_by};
ghost use Rattle.desk_cli.specs.Layouts.{laid_out};
ghost use Rattle.desk_cli.specs.Subjects.{TellsNoRow};

use crate::subject::NoRow;
use desk_core::RunEnd;
use desk_store::{Desk, WriteFailed, send};
use desk_wire::Unread;
use list_core::{Listing, is_item};
use list_words::{ListOf, listing_in, row_at, told_list};
use part_core::RowKind;
use sqlite::Alter;
use std::alloc::Global;
use std::io::Write;

/// Whether the word says an item that is there.
fn is_item_called<S: Alter>(alloc: Global, desk: &Desk<S>, word: &str) -> bool {
    let Ok(shop) = desk.shop() else {
        return false;
    };
    match row_at(alloc, shop, RowKind::Item, word) {
        Ok(number) => is_item(shop, number),
        Err(_) => false,
    }
}

/// Whether the list is of a batch, and its word says an item, too.
pub fn says_item_too<S: Alter>(alloc: Global, desk: &Desk<S>, listing: &Listing<'_>) -> bool {
    match listing {
        Listing::TraceBatch(word) => is_item_called(alloc, desk, word),
        _ => false,
    }
}

/// The list that is asked for, its row looked up among those of the desk.
pub fn listing_of<'a, S: Alter>(
    alloc: Global,
    desk: &Desk<S>,
    list: ListOf<'a>,
) -> Result<Listing<'a>, NoRow>
    ensures { MatchResult result
        (λ listing. listing_by list.entry (state_of desk.now.shop) ≡ Ok listing)
        (λ why. TellsNoRow desk.now.failed (listing_by list.entry (state_of desk.now.shop)) why) }
{
    let Ok(shop) = desk.shop() else {
        return Err(NoRow::Closed);
    };
    match listing_in(alloc, shop, list) {
        Ok(listing) => Ok(listing),
        Err(Unread::Wrong(what)) => Err(NoRow::Wrong(what)),
        Err(Unread::Memory) => Err(NoRow::Memory),
    }
}

/// How a list is laid out.
#[derive(Clone, Copy, Debug)]
pub struct ListLayout {
    /// As comma-separated values, and not in columns.
    pub csv: bool,
    /// For a person's terminal, and not for a program or a file.
    pub person: bool,
    /// How many columns the terminal has, if that is known.
    pub most: Option<usize>,
}

/// Prints a list, laid out so, or that there is no such row, which isn't fine: the whole text in one write.
pub fn print_list<S: Alter, W: Write>(
    alloc: Global,
    desk: &Desk<S>,
    listing: Listing<'_>,
    layout: ListLayout,
    writer: &mut W,
) -> RunEnd
    requires { IsSoundState (state_of desk.now.shop) }
    ensures whole { (there : Bool) → result ≡ RunEnd.Done there
        → (there ≡ (laid_out layout (listing_lines listing.entry (state_of desk.now.shop))).1)
        × Appends (W.contents writer.old) (W.contents writer.new)
        (laid_out layout (listing_lines listing.entry (state_of desk.now.shop))).0 }
    ensures front { result ≡ RunEnd.WriteFailed
        → AppendsFront (W.contents writer.old) (W.contents writer.new)
        (laid_out layout (listing_lines listing.entry (state_of desk.now.shop))).0 }
    ensures nothing { (result ≡ RunEnd.Memory) ⊎ (result ≡ RunEnd.Store)
        → Keeps (W.contents writer.old) (W.contents writer.new) }
    ensures closed { (result ≡ RunEnd.Store) ↔ IsSome desk.now.failed }
    ensures never { result ≢ RunEnd.ReadFailed }
{
    let Ok(shop) = desk.shop() else {
        return RunEnd::Store;
    };
    let shown = match told_list(alloc, shop, listing, layout.csv, layout.person, layout.most) {
        Ok(shown) => shown,
        Err(stop) => return stop.end(),
    };
    match send(writer, shown.text.as_slice()) {
        Ok(()) => RunEnd::Done(shown.fine),
        Err(WriteFailed) => RunEnd::WriteFailed,
    }
}
