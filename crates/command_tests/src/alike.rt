//! Requests on a desk in memory, one by one, and as a list on a shop. Both tell the same of each, and memory is never
//! lacking, no fault of the database comes, and the desk is never closed.
ghost use Rattle.desk_store.specs.Desks.{IsDesk};

use desk_core::{Request, Shop};
use desk_store::{Desk, Fault};
use part_core::{Answer, CoreFault, Limits, Seed};
use sqlite::{Alter, Connection};
use std::alloc::Global;
use std::test::Fail;
use store_play::files::{created, tables_of};
use store_play::outcomes::holds;
use store_play::tables::tables_text;

/// Whether a desk tells of a request what a shop told.
fn is_told(outcome: &Result<Answer, Fault>, wanted: &Result<Answer, CoreFault>) -> bool {
    match (outcome, wanted) {
        (Ok(answer), Ok(wanted)) => answer.equals(wanted),
        (Err(Fault::Refused(refusal)), Err(CoreFault::Refused(wanted))) => refusal == wanted,
        _ => false,
    }
}

/// Runs each request on the desk, which tells the same as the shop did.
fn runs_on<S: Alter>(
    desk: &mut Desk<S>,
    requests: &[Request],
    wanted: &[Result<Answer, CoreFault>],
) -> Result<(), Fail>
    requires { IsDesk S.Store desk.old }
    ensures { IsDesk S.Store desk.new }
{
    for pair in requests.iter().zip(wanted.iter()) {
        let (request, wanted) = pair;
        let outcome = desk.run(request);
        holds(is_told(&outcome, wanted), "another outcome")?;
    }
    Ok(())
}

/// Runs the requests on a shop and on a desk with nothing in them, which then have the same tables: what is told of
/// each.
pub fn run_alike(
    alloc: Global,
    requests: &[Request],
) -> Result<Vec<Result<Answer, CoreFault>>, Fail> {
    let mut shop = Shop::new(alloc, Seed::new(0), Limits::LARGEST);
    let outcomes = shop.run_list(alloc, requests)?;
    let mut desk = created(alloc, Connection::open_in_memory(alloc)?)?;
    runs_on(&mut desk, requests, &outcomes)?;
    let tables = tables_text(alloc, &shop)?;
    holds(
        tables_of(alloc, &desk)?.as_str() == tables.as_str(),
        "other tables",
    )?;
    Ok(outcomes)
}
