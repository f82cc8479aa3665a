//! The report of an import.
use desk_wire::import_report;
use part_core::{Answer, Ids, Refusal};
use std::test::Fail;

#[test]
fn reports_rows(rt: HostRuntime) -> Result<(), Fail> {
    let alloc = rt.alloc();
    let drawn = Answer {
        ids: Ids::range(alloc, 15, 2)?,
        entries: 2,
    };
    let none = Answer {
        ids: Ids::none(alloc),
        entries: 0,
    };
    let outcomes = vec![in alloc; Ok(none), Err(Refusal::KeyTaken), Ok(drawn)]?;
    let report = import_report(alloc, [1, 999_999_999, 7].as_slice(), outcomes.as_slice())?;
    assert_eq!(rt;
        report.as_str(),
        "1\t{\"entries\":0,\"ids\":[]}\n999999999\t{\"refused\":\"KeyTaken\"}\n7\t{\"entries\":2,\"ids\":[15,16]}\n"
    );
    let report = import_report(alloc, [].as_slice(), outcomes.as_slice())?;
    assert_eq!(rt; report.as_str(), "");
    Ok(())
}
