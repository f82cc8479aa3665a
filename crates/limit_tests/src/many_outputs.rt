//! Many serialised outputs of a build: a thousand, the most that a command takes, on a shop, and fewer on a desk too.
ghost use Rattle.std.specs.Prelude.{◌≤◌};

use desk_core::Shop;
use desk_play::play::{plays, plays_on_shop};
use part_core::{Limits, Seed};
use std::alloc::Global;
use std::test::Fail;

/// A robot of one motor each. The motors are one item, 5; line 4 wants them, and build 6 is of the robots.
fn lines(alloc: Global, count: u64) -> Result<String, Fail>
    requires { count ≤ 1000 }
{
    let mut text = String::from_str(
        alloc,
        r#"{"day":"2030-01-02","do":"add_location","name":"A"}
{"day":"2030-01-02","do":"add_part","flags":["component","trackable"],"name":"Motor"}
{"day":"2030-01-02","do":"add_part","flags":["assembly","trackable"],"name":"Robot"}
{"assembly":3,"component":2,"day":"2030-01-02","do":"add_line","quantity":1}
"#,
    )?;
    write!(
        text,
        "{{\"day\":\"2030-01-02\",\"do\":\"found\",\"location\":1,\"part\":2,\"quantity\":{count}}}\n"
    )?;
    push_build(&mut text, 6, count)?;
    push_outputs(&mut text, 6, 1, count)?;
    text.push_str(
        "{\"build\":6,\"day\":\"2030-01-02\",\"do\":\"outputs\",\"quantity\":1,\"serials\":\"A\"}\n",
    )?;
    push_each(&mut text, count)?;
    push_rest(&mut text, count)?;
    Ok(text)
}

/// The outputs from 7 on are allocated a motor each, and completed.
fn push_each(text: &mut String, count: u64) -> Result<(), Fail>
    requires { count ≤ 1000 }
{
    for output in 7..7 + count {
        write!(
            text,
            "{{\"build\":6,\"day\":\"2030-01-02\",\"do\":\"allocate_build\",\"item\":5,\"line\":4,\"output\":{output},\"quantity\":1}}\n"
        )?;
    }
    for output in 7..7 + count {
        write!(
            text,
            "{{\"day\":\"2030-01-02\",\"do\":\"complete_output\",\"location\":1,\"output\":{output}}}\n"
        )?;
    }
    Ok(())
}

/// So many robots are to be built, under that number.
fn push_build(text: &mut String, build: u64, count: u64) -> Result<(), Fail> {
    write!(
        text,
        "{{\"day\":\"2030-01-02\",\"do\":\"build\",\"part\":3,\"quantity\":{count}}}\n"
    )?;
    write!(
        text,
        "{{\"build\":{build},\"day\":\"2030-01-02\",\"do\":\"issue_build\"}}\n"
    )?;
    Ok(())
}

/// All outputs of the build, with serials from the first.
fn push_outputs(text: &mut String, build: u64, first: u64, count: u64) -> Result<(), Fail>
    requires first { first ≤ 2000 }
    requires count { count ≤ 1000 }
{
    let end = first + count;
    let last = end.saturating_sub(1);
    write!(
        text,
        "{{\"build\":{build},\"day\":\"2030-01-02\",\"do\":\"outputs\",\"quantity\":{count},\"serials\":\"{first}-{last}\"}}\n"
    )?;
    Ok(())
}

/// The build is complete. Another has as many outputs, and is given up with them.
fn push_rest(text: &mut String, count: u64) -> Result<(), Fail>
    requires { count ≤ 1000 }
{
    text.push_str("{\"build\":6,\"day\":\"2030-01-02\",\"do\":\"complete_build\"}\n")?;
    let build = 6 + 3 * count;
    push_build(text, build, count)?;
    push_outputs(text, build, count + 1, count)?;
    write!(
        text,
        "{{\"build\":{build},\"day\":\"2030-01-02\",\"do\":\"cancel_build\"}}\n"
    )?;
    text.push_str("{\"of\":2,\"report\":\"ledger\"}\n{\"of\":3,\"report\":\"ledger\"}\n")?;
    Ok(())
}

/// An answer that draws as many numbers from the first.
fn push_drawn(text: &mut String, first: u64, count: u64) -> Result<(), Fail>
    requires first { first ≤ 10000 }
    requires count { count ≤ 1000 }
{
    write!(text, "{{\"entries\":0,\"ids\":[{first}")?;
    for number in first + 1..first + count {
        write!(text, ",{number}")?;
    }
    text.push_str("]}\n")?;
    Ok(())
}

/// Outputs have the numbers from 7 and are told by no entry. A motor is cut off for each but the last, which gets the
/// item itself; three entries tell of an output that is completed so, and two of the last.
fn answers(alloc: Global, count: u64) -> Result<String, Fail>
    requires { count ≤ 1000 }
{
    let mut text = String::new(alloc);
    for number in 1..5u64 {
        push_drawn(&mut text, number, 1)?;
    }
    text.push_str("{\"entries\":1,\"ids\":[5]}\n")?;
    push_drawn(&mut text, 6, 1)?;
    text.push_str("{\"entries\":0,\"ids\":[]}\n")?;
    push_drawn(&mut text, 7, count)?;
    text.push_str("{\"refused\":\"OverNeed\"}\n")?;
    let first = 7 + count;
    for number in first..first + count {
        push_drawn(&mut text, number, 1)?;
    }
    let first = 7 + 2 * count;
    for number in first..6 + 3 * count {
        write!(text, "{{\"entries\":3,\"ids\":[{number}]}}\n")?;
    }
    text.push_str("{\"entries\":2,\"ids\":[]}\n{\"entries\":0,\"ids\":[]}\n")?;
    push_last_answers(&mut text, count)?;
    Ok(text)
}

fn push_last_answers(text: &mut String, count: u64) -> Result<(), Fail>
    requires { count ≤ 1000 }
{
    let build = 6 + 3 * count;
    push_drawn(text, build, 1)?;
    text.push_str("{\"entries\":0,\"ids\":[]}\n")?;
    push_drawn(text, build + 1, count)?;
    text.push_str("{\"entries\":0,\"ids\":[]}\n")?;
    push_ledger(text, 2, "Motor", count, 0)?;
    push_ledger(text, 3, "Robot", 0, count)?;
    Ok(())
}

/// The ledger of a part, of which so many were found and so many built, all of them present.
fn push_ledger(
    text: &mut String,
    part: u64,
    name: &str,
    found: u64,
    built: u64,
) -> Result<(), Fail> {
    let present = if found == 0 { built } else { found };
    write!(
        text,
        "{{\"report\":[[\"ledger\",\"{part}\",\"{name}\"],[\"received\",\"0\"],[\"found\",\"{found}\"],[\"built\",\"{built}\"],"
    )?;
    write!(
        text,
        "[\"returned\",\"0\"],[\"consumed\",\"0\"],[\"shipped\",\"0\"],[\"written\",\"0\"],[\"present\",\"{present}\"],"
    )?;
    text.push_str("[\"sent\",\"0\"],[\"used\",\"0\"]]}\n")?;
    Ok(())
}

#[test]
fn a_thousand_outputs(rt: HostRuntime) -> Result<(), Fail> {
    let alloc = rt.alloc();
    let lines = lines(alloc, 1000)?;
    let answers = answers(alloc, 1000)?;
    let mut shop = Shop::new(alloc, Seed::new(0), Limits::LARGEST);
    plays_on_shop(alloc, &mut shop, lines.as_str(), answers.as_str())
}

#[test]
fn many_outputs(rt: HostRuntime) -> Result<(), Fail> {
    let alloc = rt.alloc();
    let lines = lines(alloc, 30)?;
    let answers = answers(alloc, 30)?;
    plays(alloc, Limits::LARGEST, lines.as_str(), answers.as_str())
}
