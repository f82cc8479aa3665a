//! Small limits at each point of what one command draws and writes. Where all of it has room it is done; else it is Full,
//! at whichever piece that is, and nothing has changed.
use desk_play::play::plays;
use part_core::Limits;
use std::alloc::Global;
use std::test::Fail;

const FULL: &str = "{\"refused\":\"Full\"}\n";

const ALLOCATED: &str = "{\"refused\":\"Allocated\"}\n";

const NO_SUCH: &str = "{\"refused\":\"NoSuch\"}\n";

const DONE: &str = "{\"entries\":0,\"ids\":[]}\n";

/// The texts, one after another.
fn joined(alloc: Global, texts: &[&str]) -> Result<String, Fail> {
    let mut whole = String::new(alloc);
    for text in texts {
        whole.push_str(text)?;
    }
    Ok(whole)
}

/// Plays the lines under these limits.
fn plays_within(
    alloc: Global,
    numbers: u64,
    entries: u64,
    lines: &[&str],
    answers: &[&str],
) -> Result<(), Fail> {
    let limits = Limits::new(numbers, entries).ok_or("limits")?;
    let lines = joined(alloc, lines)?;
    let answers = joined(alloc, answers)?;
    plays(alloc, limits, lines.as_str(), answers.as_str())
}

// ---- a sale is shipped

/// Of item 3, ten lamps, two amounts are allocated that are cut off when they are shipped, and then the rest: eight numbers
/// and one entry are used.
const LAMPS_ALLOCATED: &str = r#"{"day":"2030-01-02","do":"add_location","name":"A"}
{"day":"2030-01-02","do":"add_part","flags":["salable"],"name":"Lamp"}
{"day":"2030-01-02","do":"found","location":1,"part":2,"quantity":10}
{"day":"2030-01-02","do":"order","partner":"Acme","side":"sale"}
{"day":"2030-01-02","do":"order_line","order":4,"part":2,"quantity":10}
{"day":"2030-01-02","do":"issue_order","order":4}
{"day":"2030-01-02","do":"allocate_sale","item":3,"line":5,"quantity":2}
{"day":"2030-01-02","do":"allocate_sale","item":3,"line":5,"quantity":3}
{"day":"2030-01-02","do":"allocate_sale","item":3,"line":5,"quantity":5}
"#;

const LAMPS_ANSWERS: &str = r#"{"entries":0,"ids":[1]}
{"entries":0,"ids":[2]}
{"entries":1,"ids":[3]}
{"entries":0,"ids":[4]}
{"entries":0,"ids":[5]}
{"entries":0,"ids":[]}
{"entries":0,"ids":[6]}
{"entries":0,"ids":[7]}
{"entries":0,"ids":[8]}
"#;

const SHIP: &str = "{\"day\":\"2030-01-02\",\"do\":\"ship\",\"order\":4}\n";

/// There is as much allocated as before, and shipping is refused again, up to the cut that there is room for.
const SHIP_LESS: &str = r#"{"day":"2030-01-02","do":"remove","item":3,"quantity":1}
{"day":"2030-01-02","do":"ship","order":4}
{"allocation":8,"day":"2030-01-02","do":"release"}
{"allocation":7,"day":"2030-01-02","do":"release"}
{"day":"2030-01-02","do":"ship","order":4}
"#;

/// Shipping takes two numbers more and five entries, one cut alone a number and two entries.
fn ship_within(alloc: Global, numbers: u64, entries: u64) -> Result<(), Fail> {
    if numbers >= 10 && entries >= 6 {
        let lines = [LAMPS_ALLOCATED, SHIP];
        let answers = [LAMPS_ANSWERS, "{\"entries\":5,\"ids\":[9,10]}\n"];
        return plays_within(alloc, numbers, entries, &lines, &answers);
    }
    let last = if numbers > 8 && entries > 2 {
        "{\"entries\":2,\"ids\":[9]}\n"
    } else {
        FULL
    };
    let lines = [LAMPS_ALLOCATED, SHIP, SHIP_LESS];
    let answers = [LAMPS_ANSWERS, FULL, ALLOCATED, FULL, DONE, DONE, last];
    plays_within(alloc, numbers, entries, &lines, &answers)
}

/// A sale is shipped in two cuts and a rest.
#[test]
fn shipping(rt: HostRuntime) -> Result<(), Fail> {
    let alloc = rt.alloc();
    for numbers in 8..11u64 {
        for entries in 1..7u64 {
            ship_within(alloc, numbers, entries)?;
        }
    }
    Ok(())
}

// ---- a build is completed

/// A frame takes ten bolts, by line 4. Of item 5, ten bolts, 2, 3 and 5 are allocated for build 6, whose one frame, item
/// 10, is done: ten numbers and two entries are used.
const BOLTS_ALLOCATED: &str = r#"{"day":"2030-01-02","do":"add_location","name":"A"}
{"day":"2030-01-02","do":"add_part","flags":["component"],"name":"Bolt"}
{"day":"2030-01-02","do":"add_part","flags":["assembly","component","trackable"],"name":"Frame"}
{"assembly":3,"component":2,"day":"2030-01-02","do":"add_line","quantity":10}
{"day":"2030-01-02","do":"found","location":1,"part":2,"quantity":10}
{"day":"2030-01-02","do":"build","part":3,"quantity":1}
{"build":6,"day":"2030-01-02","do":"issue_build"}
{"build":6,"day":"2030-01-02","do":"allocate_build","item":5,"line":4,"quantity":2}
{"build":6,"day":"2030-01-02","do":"allocate_build","item":5,"line":4,"quantity":3}
{"build":6,"day":"2030-01-02","do":"allocate_build","item":5,"line":4,"quantity":5}
{"build":6,"day":"2030-01-02","do":"outputs","quantity":1}
{"day":"2030-01-02","do":"complete_output","location":1,"output":10}
"#;

const BOLTS_ANSWERS: &str = r#"{"entries":0,"ids":[1]}
{"entries":0,"ids":[2]}
{"entries":0,"ids":[3]}
{"entries":0,"ids":[4]}
{"entries":1,"ids":[5]}
{"entries":0,"ids":[6]}
{"entries":0,"ids":[]}
{"entries":0,"ids":[7]}
{"entries":0,"ids":[8]}
{"entries":0,"ids":[9]}
{"entries":0,"ids":[10]}
{"entries":1,"ids":[]}
"#;

const COMPLETE_BUILD: &str = "{\"build\":6,\"day\":\"2030-01-02\",\"do\":\"complete_build\"}\n";

/// There is as much allocated as before, and it is refused again, until the build is given up with what is allocated.
const GIVE_UP_BUILD: &str = r#"{"day":"2030-01-02","do":"remove","item":5,"quantity":1}
{"build":6,"day":"2030-01-02","do":"complete_build"}
{"build":6,"day":"2030-01-02","do":"cancel_build"}
{"allocation":9,"day":"2030-01-02","do":"release"}
"#;

/// Completing it takes two numbers more and five entries.
fn complete_within(alloc: Global, numbers: u64, entries: u64) -> Result<(), Fail> {
    if numbers >= 12 && entries >= 7 {
        let lines = [BOLTS_ALLOCATED, COMPLETE_BUILD];
        let answers = [BOLTS_ANSWERS, "{\"entries\":5,\"ids\":[11,12]}\n"];
        return plays_within(alloc, numbers, entries, &lines, &answers);
    }
    let lines = [BOLTS_ALLOCATED, COMPLETE_BUILD, GIVE_UP_BUILD];
    let answers = [BOLTS_ANSWERS, FULL, ALLOCATED, FULL, DONE, NO_SUCH];
    plays_within(alloc, numbers, entries, &lines, &answers)
}

/// A build uses up two cuts and a rest.
#[test]
fn completing(rt: HostRuntime) -> Result<(), Fail> {
    let alloc = rt.alloc();
    for numbers in 10..13u64 {
        for entries in 2..8u64 {
            complete_within(alloc, numbers, entries)?;
        }
    }
    Ok(())
}

// ---- an output is completed

/// A robot takes ten motors, by line 4. Of item 5, ten motors, 2, 3 and 5 are allocated for output 7 of build 6: ten
/// numbers and an entry are used.
const MOTORS_ALLOCATED: &str = r#"{"day":"2030-01-02","do":"add_location","name":"A"}
{"day":"2030-01-02","do":"add_part","flags":["assembly","component","trackable"],"name":"Motor"}
{"day":"2030-01-02","do":"add_part","flags":["assembly","component","trackable"],"name":"Robot"}
{"assembly":3,"component":2,"day":"2030-01-02","do":"add_line","quantity":10}
{"day":"2030-01-02","do":"found","location":1,"part":2,"quantity":10}
{"day":"2030-01-02","do":"build","part":3,"quantity":1}
{"build":6,"day":"2030-01-02","do":"issue_build"}
{"build":6,"day":"2030-01-02","do":"outputs","quantity":1,"serials":"R1"}
{"build":6,"day":"2030-01-02","do":"allocate_build","item":5,"line":4,"output":7,"quantity":2}
{"build":6,"day":"2030-01-02","do":"allocate_build","item":5,"line":4,"output":7,"quantity":3}
{"build":6,"day":"2030-01-02","do":"allocate_build","item":5,"line":4,"output":7,"quantity":5}
"#;

const MOTORS_ANSWERS: &str = r#"{"entries":0,"ids":[1]}
{"entries":0,"ids":[2]}
{"entries":0,"ids":[3]}
{"entries":0,"ids":[4]}
{"entries":1,"ids":[5]}
{"entries":0,"ids":[6]}
{"entries":0,"ids":[]}
{"entries":0,"ids":[7]}
{"entries":0,"ids":[8]}
{"entries":0,"ids":[9]}
{"entries":0,"ids":[10]}
"#;

const COMPLETE_OUTPUT: &str =
    "{\"day\":\"2030-01-02\",\"do\":\"complete_output\",\"location\":1,\"output\":7}\n";

/// There is as much allocated as before, and it is refused again, until the output is given up with what is allocated.
const GIVE_UP_OUTPUT: &str = r#"{"day":"2030-01-02","do":"remove","item":5,"quantity":1}
{"day":"2030-01-02","do":"complete_output","location":1,"output":7}
{"day":"2030-01-02","do":"cancel_output","output":7}
{"allocation":10,"day":"2030-01-02","do":"release"}
{"day":"2030-01-02","do":"cancel_output","output":7}
"#;

/// Completing it takes two numbers more and six entries: that it is built, two cuts, and that three amounts are in it.
fn fit_within(alloc: Global, numbers: u64, entries: u64) -> Result<(), Fail> {
    if numbers >= 12 && entries >= 7 {
        let lines = [MOTORS_ALLOCATED, COMPLETE_OUTPUT];
        let answers = [MOTORS_ANSWERS, "{\"entries\":6,\"ids\":[11,12]}\n"];
        return plays_within(alloc, numbers, entries, &lines, &answers);
    }
    let lines = [MOTORS_ALLOCATED, COMPLETE_OUTPUT, GIVE_UP_OUTPUT];
    let last = "{\"refused\":\"WrongState\"}\n";
    let answers = [MOTORS_ANSWERS, FULL, ALLOCATED, FULL, DONE, NO_SUCH, last];
    plays_within(alloc, numbers, entries, &lines, &answers)
}

/// An output takes in two cuts and a rest.
#[test]
fn fitting(rt: HostRuntime) -> Result<(), Fail> {
    let alloc = rt.alloc();
    for numbers in 10..13u64 {
        for entries in 1..8u64 {
            fit_within(alloc, numbers, entries)?;
        }
    }
    Ok(())
}

// ---- stock is allocated by itself

/// Items 5, 6 and 7 have 2, 3 and 9 bolts, of which build 8 wants ten by line 4: eight numbers and three entries are used.
const BOLTS_WANTED: &str = r#"{"day":"2030-01-02","do":"add_location","name":"A"}
{"day":"2030-01-02","do":"add_part","flags":["component"],"name":"Bolt"}
{"day":"2030-01-02","do":"add_part","flags":["assembly","component","trackable"],"name":"Frame"}
{"assembly":3,"component":2,"day":"2030-01-02","do":"add_line","quantity":5}
{"day":"2030-01-02","do":"found","location":1,"part":2,"quantity":2}
{"day":"2030-01-02","do":"found","location":1,"part":2,"quantity":3}
{"day":"2030-01-02","do":"found","location":1,"part":2,"quantity":9}
{"day":"2030-01-02","do":"build","part":3,"quantity":2}
{"build":8,"day":"2030-01-02","do":"issue_build"}
"#;

const WANTED_ANSWERS: &str = r#"{"entries":0,"ids":[1]}
{"entries":0,"ids":[2]}
{"entries":0,"ids":[3]}
{"entries":0,"ids":[4]}
{"entries":1,"ids":[5]}
{"entries":1,"ids":[6]}
{"entries":1,"ids":[7]}
{"entries":0,"ids":[8]}
{"entries":0,"ids":[]}
"#;

const ALLOCATE: &str = "{\"build\":8,\"day\":\"2030-01-02\",\"do\":\"auto_allocate\"}\n";

/// The three amounts that are asked for at once, one by one.
const ALLOCATE_EACH: &str =
    r#"{"build":8,"day":"2030-01-02","do":"allocate_build","item":5,"line":4,"quantity":2}
{"build":8,"day":"2030-01-02","do":"allocate_build","item":6,"line":4,"quantity":3}
{"build":8,"day":"2030-01-02","do":"allocate_build","item":7,"line":4,"quantity":5}
"#;

/// Three are allocated, or, where there is no room for one of them, none: then no item is held, and the three that are
/// asked for one by one are, as far as there is room.
fn allocate_within(alloc: Global, numbers: u64) -> Result<(), Fail> {
    if numbers >= 11 {
        let lines = [BOLTS_WANTED, ALLOCATE];
        let answers = [WANTED_ANSWERS, "{\"entries\":0,\"ids\":[9,10,11]}\n"];
        return plays_within(alloc, numbers, 3, &lines, &answers);
    }
    let first = if numbers > 8 {
        "{\"entries\":0,\"ids\":[9]}\n"
    } else {
        FULL
    };
    let second = if numbers > 9 {
        "{\"entries\":0,\"ids\":[10]}\n"
    } else {
        FULL
    };
    let lines = [BOLTS_WANTED, ALLOCATE, ALLOCATE_EACH];
    let answers = [WANTED_ANSWERS, FULL, first, second, FULL];
    plays_within(alloc, numbers, 3, &lines, &answers)
}

/// A build is allocated three amounts at once.
#[test]
fn allocating(rt: HostRuntime) -> Result<(), Fail> {
    let alloc = rt.alloc();
    for numbers in 8..12u64 {
        allocate_within(alloc, numbers)?;
    }
    Ok(())
}
