//! Each command once where it is accepted, and once for each of its refusals, on a desk and on a shop.
use crate::alike::run_alike;
use crate::commands::{BUILDS, ORDERS, PARTS, REFUSALS, STOCK, TOWER};
use crate::requests::request_of;
use part_core::{Answer, CoreFault};
use std::alloc::{AllocError, Global};
use std::test::Fail;

/// The numbers that were drawn, with commas between them, or the refusal.
fn told(alloc: Global, outcome: &Result<Answer, CoreFault>) -> Result<String, AllocError> {
    let answer = match outcome {
        Ok(answer) => answer,
        Err(CoreFault::Refused(refusal)) => return String::from_str(alloc, refusal.name()),
        Err(CoreFault::Memory) => return String::from_str(alloc, "no memory"),
    };
    let mut text = String::new(alloc);
    for number in answer.ids.as_slice() {
        if text.len() > 0 {
            text.push(',')?;
        }
        write!(text, "{number}")?;
    }
    if text.len() == 0 {
        text.push('-')?;
    }
    Ok(text)
}

/// Runs the requests of a table: the first line of which something else comes, if there is one.
fn other_line<'a>(alloc: Global, table: &'a str) -> Result<Option<&'a str>, Fail> {
    let mut requests = Vec::new(alloc);
    for line in table.lines() {
        requests.push(request_of(alloc, line)?)?;
    }
    let outcomes = run_alike(alloc, &requests)?;
    for (line, outcome) in table.lines().zip(outcomes.iter()) {
        let (wanted, _) = line.split_once(' ').ok_or("a line tells no outcome")?;
        if told(alloc, outcome)?.as_str() != wanted {
            return Ok(Some(line));
        }
    }
    Ok(None)
}

#[test]
fn parts_and_bills(rt: HostRuntime) -> Result<(), Fail> {
    assert_eq!(rt; other_line(rt.alloc(), PARTS)?, None);
    Ok(())
}

#[test]
fn stock(rt: HostRuntime) -> Result<(), Fail> {
    assert_eq!(rt; other_line(rt.alloc(), STOCK)?, None);
    Ok(())
}

#[test]
fn orders(rt: HostRuntime) -> Result<(), Fail> {
    assert_eq!(rt; other_line(rt.alloc(), ORDERS)?, None);
    Ok(())
}

#[test]
fn builds(rt: HostRuntime) -> Result<(), Fail> {
    assert_eq!(rt; other_line(rt.alloc(), BUILDS)?, None);
    Ok(())
}

/// The lines of a tower of sixteen items.
fn tower(alloc: Global) -> Result<String, AllocError> {
    let mut lines = String::from_str(alloc, "1 {\"do\":\"add_location\",\"name\":\"A\"}\n")?;
    for part in 2..19u64 {
        write!(
            lines,
            "{part} {{\"do\":\"add_part\",\"flags\":[\"assembly\",\"component\",\"trackable\"],\"name\":\"Link {part}\"}}\n"
        )?;
    }
    for part in 2..18u64 {
        let (line, below) = (part + 17, part + 1);
        write!(
            lines,
            "{line} {{\"do\":\"add_line\",\"assembly\":{part},\"component\":{below},\"quantity\":1}}\n"
        )?;
    }
    for part in 2..19u64 {
        let item = part + 33;
        write!(
            lines,
            "{item} {{\"do\":\"found\",\"location\":1,\"part\":{part},\"quantity\":1,\"serials\":\"S\"}}\n"
        )?;
    }
    for item in 36..51u64 {
        let parent = item - 1;
        write!(
            lines,
            "- {{\"do\":\"install\",\"item\":{item},\"parent\":{parent},\"quantity\":1}}\n"
        )?;
    }
    Ok(lines)
}

#[test]
fn a_tower(rt: HostRuntime) -> Result<(), Fail> {
    let mut lines = tower(rt.alloc())?;
    lines.push_str(TOWER)?;
    assert_eq!(rt; other_line(rt.alloc(), lines.as_str())?, None);
    Ok(())
}

/// Whether a request of which that comes is accepted: the numbers that it draws are told, and no refusal.
fn is_acceptance(told: &str) -> bool {
    match told.as_bytes() {
        [first, ..] => !first.is_ascii_uppercase(),
        [] => false,
    }
}

/// Whether a line of the tables has the command, with that outcome, or accepted where none is named.
fn stands(verb: &str, outcome: Option<&str>) -> bool {
    for table in [PARTS, STOCK, ORDERS, BUILDS, TOWER] {
        for line in table.lines() {
            let (told, request) = line.split_once(' ').unwrap_or(("", line));
            let is_wanted = match outcome {
                Some(refusal) => told == refusal,
                None => is_acceptance(told),
            };
            let (_, rest) = request.split_once("\"do\":\"").unwrap_or(("", ""));
            let (named, _) = rest.split_once('"').unwrap_or((rest, ""));
            if is_wanted && named == verb {
                return true;
            }
        }
    }
    false
}

/// The tables have each command accepted, and refused for each of its refusals.
#[test]
fn each_refusal_stands(rt: HostRuntime) {
    for (verb, refusals) in REFUSALS {
        assert!(rt; stands(verb, None), "{verb} isn't accepted");
        for refusal in refusals.split_whitespace() {
            assert!(rt; stands(verb, Some(refusal)), "{verb} isn't {refusal}");
        }
    }
    assert!(rt; stands("receive", Some("KeyTaken")), "no key is taken");
}
