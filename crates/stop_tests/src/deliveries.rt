//! A stop at each call of the disk amid the import of a delivery.
use desk_stops::stops::{Keyed, Sending, stops_in_groups};
use std::alloc::Global;
use std::test::Fail;
use store_play::delivery::{DELIVERY, DELIVERY_OUT, ORDERED, ORDERED_OUT};
use store_play::outcomes::holds;

/// The delivery, with a stop at each call of the log or of the database.
fn stops(alloc: Global, of_log: bool) -> Result<(), Fail> {
    let keyed = Keyed::receipts(alloc, ORDERED, ORDERED_OUT, DELIVERY, DELIVERY_OUT)?;
    let stops = stops_in_groups(alloc, &keyed, Sending::Receipts, of_log)?;
    holds(stops > 1, "hardly a stop")
}

#[test]
fn a_stop_at_each_call_of_the_log(rt: HostRuntime) -> Result<(), Fail> {
    stops(rt.alloc(), true)
}

#[test]
fn a_stop_at_each_call_of_the_database(rt: HostRuntime) -> Result<(), Fail> {
    stops(rt.alloc(), false)
}
