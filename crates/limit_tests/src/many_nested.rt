//! Many screws in one robot, which go in one by one, are counted off with it and come back: a thousand on a shop, and
//! thirty on a desk too.
ghost use Rattle.std.specs.Prelude.{◌≤◌};

use desk_core::Shop;
use desk_play::play::{plays, plays_on_shop};
use part_core::{Limits, Seed};
use std::alloc::Global;
use std::test::Fail;

const FIRST: &str = r#"{"day":"2030-01-02","do":"add_location","name":"A"}
{"day":"2030-01-02","do":"add_part","flags":["component"],"name":"Screw"}
{"day":"2030-01-02","do":"add_part","flags":["assembly","component","trackable"],"name":"Robot"}
{"assembly":3,"component":2,"day":"2030-01-02","do":"add_line","quantity":1}
"#;

const FIRST_ANSWERS: &str = r#"{"entries":0,"ids":[1]}
{"entries":0,"ids":[2]}
{"entries":0,"ids":[3]}
{"entries":0,"ids":[4]}
{"entries":1,"ids":[5]}
{"entries":1,"ids":[6]}
"#;

const INSTALL: &str =
    "{\"day\":\"2030-01-02\",\"do\":\"install\",\"item\":5,\"parent\":6,\"quantity\":1}\n";

/// The robot is counted off and reinstated, and a screw comes out and goes in again.
const LAST: &str = r#"{"day":"2030-01-02","do":"count","item":6,"quantity":0}
{"day":"2030-01-02","do":"uninstall","item":7,"location":1}
{"day":"2030-01-02","do":"reinstate","item":6,"location":1}
{"day":"2030-01-02","do":"uninstall","item":7,"location":1}
{"day":"2030-01-02","do":"install","item":7,"parent":6,"quantity":1}
{"of":6,"report":"content"}
"#;

/// So many screws are found, item 5, and a robot, item 6.
fn lines(alloc: Global, screws: u64) -> Result<String, Fail> {
    let mut text = String::from_str(alloc, FIRST)?;
    write!(
        text,
        "{{\"day\":\"2030-01-02\",\"do\":\"found\",\"location\":1,\"part\":2,\"quantity\":{screws}}}\n"
    )?;
    text.push_str(
        "{\"day\":\"2030-01-02\",\"do\":\"found\",\"location\":1,\"part\":3,\"quantity\":1,\"serials\":\"R1\"}\n",
    )?;
    for _ in 0..screws {
        text.push_str(INSTALL)?;
    }
    text.push_str(LAST)?;
    Ok(text)
}

/// Each screw but the last is cut off under a number of its own, from 7 on. What is done with the robot has an entry for
/// each of its nodes.
fn answers(alloc: Global, screws: u64) -> Result<String, Fail>
    requires { screws ≤ 1000 }
{
    let mut text = String::from_str(alloc, FIRST_ANSWERS)?;
    for number in 7..6 + screws {
        write!(text, "{{\"entries\":2,\"ids\":[{number}]}}\n")?;
    }
    text.push_str("{\"entries\":1,\"ids\":[]}\n")?;
    let nodes = screws + 1;
    write!(text, "{{\"entries\":{nodes},\"ids\":[]}}\n")?;
    text.push_str("{\"refused\":\"NotLoose\"}\n")?;
    write!(text, "{{\"entries\":{nodes},\"ids\":[]}}\n")?;
    text.push_str("{\"entries\":1,\"ids\":[]}\n{\"entries\":1,\"ids\":[]}\n")?;
    push_content(&mut text, screws)?;
    Ok(text)
}

/// The robot and what lies in it, in order of number.
fn push_content(text: &mut String, screws: u64) -> Result<(), Fail>
    requires { screws ≤ 1000 }
{
    text.push_str(
        "{\"report\":[[\"1\",\"6\",\"Robot\",\"1\",\"R1\"],[\"2\",\"5\",\"Screw\",\"1\",\"\"]",
    )?;
    for number in 7..6 + screws {
        write!(text, ",[\"2\",\"{number}\",\"Screw\",\"1\",\"\"]")?;
    }
    text.push_str("]}\n")?;
    Ok(())
}

#[test]
fn a_thousand_screws(rt: HostRuntime) -> Result<(), Fail> {
    let alloc = rt.alloc();
    let lines = lines(alloc, 1000)?;
    let answers = answers(alloc, 1000)?;
    let mut shop = Shop::new(alloc, Seed::new(0), Limits::LARGEST);
    plays_on_shop(alloc, &mut shop, lines.as_str(), answers.as_str())
}

#[test]
fn thirty_screws(rt: HostRuntime) -> Result<(), Fail> {
    let alloc = rt.alloc();
    let lines = lines(alloc, 30)?;
    let answers = answers(alloc, 30)?;
    plays(alloc, Limits::LARGEST, lines.as_str(), answers.as_str())
}
