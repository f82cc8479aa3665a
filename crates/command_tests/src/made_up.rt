//! Two thousand requests that are made up over a small workshop, most of them so that they are accepted, on a desk
//! and on a shop.
ghost use Rattle.desk_core.specs.Machine.{IsSoundState};
ghost use Rattle.desk_core.specs.ShopView.{state_of};

use crate::alike::run_alike;
use crate::maker::{Maker, OFTEN};
use crate::requests::request_of;
use desk_core::{Request, Shop};
use part_core::{Answer, CoreFault, Formed, Limits, Seed};
use std::alloc::Global;
use std::test::Fail;

/// The workshop: robots are made of screws and motors, and frames of screws. No day is written here.
const WORKSHOP: &str = r#"{"do":"add_location","name":"A"}
{"do":"add_location","name":"B"}
{"do":"add_part","flags":["component","purchaseable","salable"],"name":"Screw"}
{"do":"add_part","flags":["component","trackable","purchaseable","salable"],"name":"Motor"}
{"do":"add_part","flags":["assembly","component","trackable","salable"],"name":"Robot"}
{"do":"add_part","flags":["assembly","salable"],"name":"Frame"}
{"do":"add_line","assembly":5,"component":3,"quantity":4}
{"do":"add_line","assembly":5,"component":4,"quantity":1}
{"do":"add_line","assembly":6,"component":3,"quantity":2}
{"do":"found","location":1,"part":3,"quantity":500}
{"do":"found","location":1,"part":4,"quantity":200}
"#;

/// Whether the shop accepts the request, of which the maker then takes down what it drew.
fn is_accepted(maker: &mut Maker, shop: &mut Shop, request: &Request) -> Result<bool, Fail>
    requires { IsSoundState (state_of shop.old) }
    ensures { IsSoundState (state_of shop.new) }
{
    match shop.decide(request) {
        Ok(answer) => {
            maker.note(&request.command, &answer)?;
            Ok(true)
        }
        Err(CoreFault::Refused(_)) => Ok(false),
        Err(CoreFault::Memory) => Err(Fail::from("memory is lacking")),
    }
}

/// Of up to sixteen requests of one command the first that the shop accepts, or else the last.
fn likely(alloc: Global, maker: &mut Maker, shop: &mut Shop) -> Result<Request, Fail>
    requires { IsSoundState (state_of shop.old) }
    ensures { IsSoundState (state_of shop.new) }
{
    let verb = maker.verb();
    for _ in 1..16u64 {
        let request = maker.request(alloc, verb)?;
        if is_accepted(maker, shop, &request)? {
            return Ok(request);
        }
    }
    let request = maker.request(alloc, verb)?;
    is_accepted(maker, shop, &request)?;
    Ok(request)
}

/// The requests of the workshop, and so many that are made up.
fn made_up(alloc: Global, count: u64) -> Result<Vec<Request>, Fail> {
    let mut maker = Maker::new(alloc);
    let mut shop = Shop::new(alloc, Seed::new(0), Limits::LARGEST);
    let mut requests = Vec::new(alloc);
    for line in WORKSHOP.lines() {
        let request = request_of(alloc, line)?;
        is_accepted(&mut maker, &mut shop, &request)?;
        requests.push(request)?;
    }
    for _ in 0..count {
        requests.push(likely(alloc, &mut maker, &mut shop)?)?;
    }
    Ok(requests)
}

/// How many of the requests are of the command and were accepted.
fn accepted(requests: &[Request], outcomes: &[Result<Answer, CoreFault>], verb: &str) -> u64 {
    let mut count = 0u64;
    for (request, outcome) in requests.iter().zip(outcomes.iter()) {
        if outcome.is_ok() && request.command.verb() == verb {
            count = count.saturating_add(1);
        }
    }
    count
}

#[test]
fn two_thousand_requests(rt: HostRuntime) -> Result<(), Fail> {
    let alloc = rt.alloc();
    let requests = made_up(alloc, 2_000)?;
    let outcomes = run_alike(alloc, &requests)?;
    let mut all = 0u64;
    for (verb, _) in OFTEN {
        let count = accepted(&requests, &outcomes, verb);
        assert!(rt; count > 0, "{verb} is never accepted");
        all = all.saturating_add(count);
    }
    assert!(rt; all > 1_000, "{all} are accepted");
    Ok(())
}
