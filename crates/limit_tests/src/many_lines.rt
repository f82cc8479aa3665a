//! A bill of many lines, each served from many items: automatic allocation takes the items in order, line by line, and
//! leaves the rest to the next build. Fifty lines of two thousand items each on a shop, and fewer on a desk too.
use desk_core::Shop;
use desk_play::play::{plays, plays_on_shop};
use part_core::{Limits, Seed};
use std::alloc::Global;
use std::test::Fail;

/// A frame, part 2, of so many kinds of bolts, and four times so many items of each kind, two pieces in each. A frame
/// wants six times so many of each kind, so that the first build of one gets three items of four, and the second the rest.
#[derive(Clone, Copy)]
struct Size {
    kinds: u64,
    quarter: u64,
}

impl Size {
    /// How many items there are of all kinds, if there are so many of each.
    fn of_each(self, items: u64) -> u64 {
        self.kinds.saturating_mul(items)
    }

    /// The number of the first line of the bill. The bolts have those from 3 on.
    fn first_line(self) -> u64 {
        self.kinds.saturating_add(3)
    }

    /// The number of the first item.
    fn first_item(self) -> u64 {
        self.first_line().saturating_add(self.kinds)
    }

    /// How many items there are of each kind.
    fn items(self) -> u64 {
        self.quarter.saturating_mul(4)
    }

    /// How many of each kind a frame wants.
    fn wanted(self) -> u64 {
        self.quarter.saturating_mul(6)
    }

    /// The number of the first build, behind all items.
    fn first_build(self) -> u64 {
        self.first_item().saturating_add(self.of_each(self.items()))
    }

    /// How many allocations serve the first build: three items of four.
    fn first_served(self) -> u64 {
        self.of_each(self.quarter.saturating_mul(3))
    }

    /// The number of the second build, behind these allocations.
    fn second_build(self) -> u64 {
        let behind = self.first_served().saturating_add(1);
        self.first_build().saturating_add(behind)
    }
}

/// The bolts, the bill of the frame, and the items.
fn push_stock(text: &mut String, size: Size) -> Result<(), Fail> {
    for bolt in 3..size.first_line() {
        write!(
            text,
            "{{\"day\":\"2030-01-02\",\"do\":\"add_part\",\"flags\":[\"component\"],\"name\":\"Bolt {bolt}\"}}\n"
        )?;
    }
    let wanted = size.wanted();
    for bolt in 3..size.first_line() {
        write!(
            text,
            "{{\"assembly\":2,\"component\":{bolt},\"day\":\"2030-01-02\",\"do\":\"add_line\",\"quantity\":{wanted}}}\n"
        )?;
    }
    for bolt in 3..size.first_line() {
        for _ in 0..size.items() {
            write!(
                text,
                "{{\"day\":\"2030-01-02\",\"do\":\"found\",\"location\":1,\"part\":{bolt},\"quantity\":2}}\n"
            )?;
        }
    }
    Ok(())
}

/// A frame is to be built, under that number, and what it needs is allocated, and then nothing more.
fn push_build(text: &mut String, build: u64) -> Result<(), Fail> {
    text.push_str("{\"day\":\"2030-01-02\",\"do\":\"build\",\"part\":2,\"quantity\":1}\n")?;
    for _ in 0..2u8 {
        write!(
            text,
            "{{\"build\":{build},\"day\":\"2030-01-02\",\"do\":\"auto_allocate\"}}\n"
        )?;
    }
    write!(text, "{{\"of\":{build},\"report\":\"shortage\"}}\n")?;
    Ok(())
}

fn lines(alloc: Global, size: Size) -> Result<String, Fail> {
    let mut text = String::from_str(
        alloc,
        r#"{"day":"2030-01-02","do":"add_location","name":"A"}
{"day":"2030-01-02","do":"add_part","flags":["assembly"],"name":"Frame"}
"#,
    )?;
    push_stock(&mut text, size)?;
    push_build(&mut text, size.first_build())?;
    push_build(&mut text, size.second_build())?;
    Ok(text)
}

/// Answers that each draw a number, the first of them that one, and write as many entries.
fn push_each(text: &mut String, first: u64, end: u64, entries: u64) -> Result<(), Fail> {
    for number in first..end {
        write!(text, "{{\"entries\":{entries},\"ids\":[{number}]}}\n")?;
    }
    Ok(())
}

/// The answer of an allocation that draws so many numbers behind that of the build.
fn push_served(text: &mut String, build: u64, served: u64) -> Result<(), Fail> {
    let first = build.saturating_add(1);
    write!(text, "{{\"entries\":0,\"ids\":[{first}")?;
    for number in first.saturating_add(1)..first.saturating_add(served) {
        write!(text, ",{number}")?;
    }
    text.push_str("]}\n")?;
    Ok(())
}

/// The report of what is allocated for each line and missing from it.
fn push_shortage(text: &mut String, size: Size, allocated: u64, missing: u64) -> Result<(), Fail> {
    text.push_str("{\"report\":[")?;
    let wanted = size.wanted();
    for bolt in 3..size.first_line() {
        let line = bolt.saturating_add(size.kinds);
        let comma = if bolt == 3 { "" } else { "," };
        write!(
            text,
            "{comma}[\"{line}\",\"Bolt {bolt}\",\"{wanted}\",\"{allocated}\",\"{missing}\"]"
        )?;
    }
    text.push_str("]}\n")?;
    Ok(())
}

/// The answers of a build: its number, those of so many allocations, none more, and what it has and lacks.
fn push_built(
    text: &mut String,
    size: Size,
    build: u64,
    served: u64,
    allocated: u64,
) -> Result<(), Fail> {
    push_each(text, build, build.saturating_add(1), 0)?;
    push_served(text, build, served)?;
    text.push_str("{\"entries\":0,\"ids\":[]}\n")?;
    let missing = size.wanted().saturating_sub(allocated);
    push_shortage(text, size, allocated, missing)
}

fn answers(alloc: Global, size: Size) -> Result<String, Fail> {
    let mut text = String::new(alloc);
    push_each(&mut text, 1, size.first_item(), 0)?;
    push_each(&mut text, size.first_item(), size.first_build(), 1)?;
    let served = size.first_served();
    push_built(&mut text, size, size.first_build(), served, size.wanted())?;
    let served = size.of_each(size.quarter);
    let rest = size.quarter.saturating_mul(2);
    push_built(&mut text, size, size.second_build(), served, rest)?;
    Ok(text)
}

#[test]
fn fifty_lines(rt: HostRuntime) -> Result<(), Fail> {
    let alloc = rt.alloc();
    let size = Size {
        kinds: 50,
        quarter: 500,
    };
    let lines = lines(alloc, size)?;
    let answers = answers(alloc, size)?;
    let mut shop = Shop::new(alloc, Seed::new(0), Limits::LARGEST);
    plays_on_shop(alloc, &mut shop, lines.as_str(), answers.as_str())
}

#[test]
fn five_lines(rt: HostRuntime) -> Result<(), Fail> {
    let alloc = rt.alloc();
    let size = Size {
        kinds: 5,
        quarter: 5,
    };
    let lines = lines(alloc, size)?;
    let answers = answers(alloc, size)?;
    plays(alloc, Limits::LARGEST, lines.as_str(), answers.as_str())
}
