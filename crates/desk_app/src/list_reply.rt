//! What is replied to a list that is asked for by its name.
ghost use Rattle.std.specs.Prelude.{◌≡◌, [], IfErr, IfOk, Ok};
ghost use Rattle.desk_core.specs.Machine.{IsSoundState};
ghost use Rattle.desk_core.specs.ShopView.{state_of};
ghost use Rattle.list_core.specs.Listings.{listing_lines};
ghost use Rattle.desk_wire.specs.Writing.{fault_text as text_of_fault};
ghost use Rattle.list_words.specs.Lists.{lines_by, listed_of};
ghost use Rattle.desk_http.specs.Services.{reply_view};
ghost use Rattle.desk_http.specs.Targets.{some_text};
ghost use Rattle.desk_app.specs.Services.{by_listed, list_outcome, show_list};

use desk_core::Shop;
use desk_http::{Failure, ListWords, NoReply, Outcome, Reply};
use desk_wire::{Unread, What, WireFault, fault_text};
use list_core::Listing;
use list_words::{ListOf, ShownList, list_called, listing_in, show_listing};
use std::alloc::Global;

/// Of what kind a list is replied.
fn list_outcome(csv: bool) -> Outcome
    ensures { result ≡ list_outcome csv }
{
    if csv {
        Outcome::Exported
    } else {
        Outcome::Reported
    }
}

/// Replies a list of a shop, or that there is no such row.
fn reply_with_listing(
    alloc: Global,
    shop: &Shop,
    listing: Listing<'_>,
    csv: bool,
) -> Result<Reply, NoReply>
    requires { IsSoundState (state_of shop.now) }
    ensures ok { IfOk result (λ reply. reply_view reply
        ≡ by_listed csv (Ok (listing_lines listing.entry (state_of shop.now)))) }
    ensures memory { IfErr result (λ why. why ≡ NoReply.Failed Failure.Memory) }
{
    match show_listing(alloc, shop, listing, csv) {
        Ok(ShownList { text, fine: true }) => Ok(Reply {
            outcome: list_outcome(csv),
            body: text,
        }),
        Ok(ShownList { text, fine: false }) => Ok(Reply {
            outcome: Outcome::Refused,
            body: text,
        }),
        Err(_) => Err(NoReply::Failed(Failure::Memory)),
    }
}

/// Replies why the word of a list says no row.
fn no_row(alloc: Global, what: What) -> Result<Reply, NoReply>
    ensures ok { IfOk result (λ reply. reply_view reply
        ≡ (Outcome.Refused, text_of_fault (record { line = 0; what = what }))) }
    ensures memory { IfErr result (λ why. why ≡ NoReply.Failed Failure.Memory) }
{
    match fault_text(alloc, WireFault { line: 0, what }) {
        Ok(text) => Ok(Reply {
            outcome: Outcome::Refused,
            body: text.into_bytes(),
        }),
        Err(_) => Err(NoReply::Failed(Failure::Memory)),
    }
}

/// Replies the list that is asked for, its row looked up among those of the shop.
fn reply_with_asked(
    alloc: Global,
    shop: &Shop,
    list: ListOf<'_>,
    csv: bool,
) -> Result<Reply, NoReply>
    requires { IsSoundState (state_of shop.now) }
    ensures ok { IfOk result (λ reply. reply_view reply
        ≡ by_listed csv (lines_by (listed_of list.entry) (state_of shop.now))) }
    ensures memory { IfErr result (λ why. why ≡ NoReply.Failed Failure.Memory) }
{
    match listing_in(alloc, shop, list) {
        Ok(listing) => reply_with_listing(alloc, shop, listing, csv),
        Err(Unread::Wrong(what)) => no_row(alloc, what),
        Err(Unread::Memory) => Err(NoReply::Failed(Failure::Memory)),
    }
}

/// Replies the list of that name, or that there is none with which these words go.
#[tactic(auto, unfolding(crate::specs::Services::show_list))]
pub(crate) fn reply_with_list(
    alloc: Global,
    shop: &Shop,
    name: &str,
    word: Option<&str>,
    said: ListWords,
) -> Result<Reply, NoReply>
    requires { IsSoundState (state_of shop.now) }
    ensures ok { IfOk result (λ reply. reply_view reply
        ≡ show_list (state_of shop.now) name.now (some_text word.entry) said) }
    ensures memory { IfErr result (λ why. why ≡ NoReply.Failed Failure.Memory) }
{
    match list_called(name, word, said.low, said.only_open) {
        Some(list) => reply_with_asked(alloc, shop, list, said.csv),
        None => Ok(Reply {
            outcome: Outcome::Unknown,
            body: Vec::new(alloc),
        }),
    }
}
