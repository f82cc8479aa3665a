//! One request of HTTP, read and answered. The connection gives the bytes, a service does what they ask: this crate
//! knows what a request is, which are refused and how each is answered, and of the service only its trait. It is the
//! other side, too: it asks such a service, and reads what it answers.
//!
//! - `Service`, the trait of what is asked: it says by ghost members what a caller may rely on: its state (`state`),
//!   the machine of its operations (`machine`), whether it may be asked (`is_kept`), what may be left without a reply
//!   (`left`), and what else holds (`relates`). `NoReply::Failed` leaves what `left` says, `NoReply::Untold` that, the
//!   state before or the state after (`Services.Stops`). Names of commands and lists are the service's to know
//!   (`Unknown`), and so is that two states of one `tag` are the same.
//! - `serve_one`: answers one request, by the bytes that its reader has where they are known (`serves`:
//!   `Serving.ServesOne`), and by some bytes in any case (`read`). Which of two faults a malformed head with more than
//!   64 field lines has is left open (law `one_class`).
//! - `serve_connections`: one operation or nothing for each connection, of so many at most (`steps`, `operations`,
//!   `most`).
//! - `ask_service`: writes the request of its question, or a front of it, and tells what the connection's bytes say, or
//!   why nothing (`Answering.IsAsked`). That the service did what it answers has no clause.
#![tactic(auto)]

mod access;
mod answer;
mod aside;
mod ask;
mod asked;
mod body_length;
mod expect;
mod field;
mod head;
mod head_end;
mod loopback;
mod pace;
mod plan;
mod proof;
mod query;
mod question;
mod receive;
mod rejection;
mod request;
mod respond;
mod response;
mod route;
mod send;
mod serve;
mod served;
mod service;
mod site;
mod target;
mod token;

pub use access::Access;
pub use answer::{Answer, Unheard};
pub use ask::ask_service;
pub use head::one_class;
pub use loopback::{Clients, serve_connections};
pub use plan::{nothing_is_read_without_a_page, untold_requests_pass};
pub use query::{LineWords, ListWords};
pub use question::Question;
pub use rejection::Rejection;
pub use response::statuses_are_named;
pub use serve::serve_one;
pub use served::Served;
pub use service::{
    CutShort, Failure, NoReply, Outcome, Reply, Service, Tag, readings_change_nothing,
    unchanged_books_are_known,
};
pub use site::{Page, Site};
pub use target::{ImportKind, ReportName, read_number};
pub use token::{Token, first_line};
