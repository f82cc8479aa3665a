//! A stop at each call of the disk amid requests on parts, bills and stock, in groups and alone.
use desk_stops::stops::{Keyed, stops_at_each_call};
use std::test::Fail;
use store_play::each_stop::{Unbroken, stops_amid_requests};

const LINES: &str = r#"{"day":"2030-01-02","do":"add_location","name":"A"}
{"day":"2030-01-02","do":"add_part","flags":["component","trackable"],"name":"Motor"}
{"day":"2030-01-02","do":"add_part","flags":["assembly","trackable"],"name":"Robot"}
{"assembly":3,"component":2,"day":"2030-01-02","do":"add_line","quantity":1}
{"day":"2030-01-02","do":"found","location":1,"part":3,"quantity":1,"serials":"R1"}
{"day":"2030-01-02","do":"found","location":1,"part":2,"quantity":2,"serials":"M1,M2"}
{"day":"2030-01-02","do":"install","item":6,"parent":5,"quantity":1}
{"day":"2030-01-02","do":"drop_line","line":4}
"#;

const ANSWERS: &str = r#"{"entries":0,"ids":[1]}
{"entries":0,"ids":[2]}
{"entries":0,"ids":[3]}
{"entries":0,"ids":[4]}
{"entries":1,"ids":[5]}
{"entries":2,"ids":[6,7]}
{"entries":1,"ids":[]}
{"entries":0,"ids":[]}
"#;

/// A few, each of which is committed alone.
const FEW: &str = r#"{"day":"2030-01-02","do":"add_location","name":"A"}
{"day":"2030-01-02","do":"add_part","flags":["component"],"name":"Screw"}
{"day":"2030-01-02","do":"found","location":1,"part":2,"quantity":100}
"#;

const FEW_ANSWERS: &str = r#"{"entries":0,"ids":[1]}
{"entries":0,"ids":[2]}
{"entries":1,"ids":[3]}
"#;

#[test]
fn a_stop_at_each_call_of_the_log(rt: HostRuntime) -> Result<(), Fail> {
    let alloc = rt.alloc();
    stops_at_each_call(alloc, &Keyed::new(alloc, LINES, ANSWERS)?, true)
}

#[test]
fn a_stop_at_each_call_of_the_database(rt: HostRuntime) -> Result<(), Fail> {
    let alloc = rt.alloc();
    stops_at_each_call(alloc, &Keyed::new(alloc, LINES, ANSWERS)?, false)
}

/// A stop at each call of the log, where each request is committed alone.
#[test]
fn a_stop_amid_requests_alone(rt: HostRuntime) -> Result<(), Fail> {
    let alloc = rt.alloc();
    let unbroken = Unbroken::new(alloc, FEW, FEW_ANSWERS)?;
    assert!(rt; stops_amid_requests(alloc, &unbroken, true)? > 1);
    Ok(())
}
