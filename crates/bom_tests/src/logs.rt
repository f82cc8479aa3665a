//! Rows that are put in a log, also after `keep` and `back`.
use crate::sheets::Stock;
use part_core::Log;
use std::alloc::{AllocError, Global};
use std::process::Abort;
use std::test::Fail;

fn put_next(rt: &impl Abort, log: &mut Log<Stock>, count: u64) -> Result<(), AllocError> {
    let last = log.len() as u64;
    assert!(rt; last < 100);
    log.put(Stock {
        number: last + 1,
        count,
    })
}

fn counts_of(alloc: Global, rows: &[Stock]) -> Result<Vec<u64>, AllocError> {
    rows.iter().map(|row| row.count).collect(alloc)
}

fn rows_of(alloc: Global, numbers: &[u64]) -> Result<Vec<Stock>, AllocError> {
    let mut rows = Vec::new(alloc);
    for number in numbers {
        rows.push(Stock {
            number: *number,
            count: 7,
        })?;
    }
    Ok(rows)
}

#[test]
fn takes_rows_back(rt: HostRuntime) -> Result<(), Fail> {
    let alloc = rt.alloc();
    let mut log = Log::new(alloc);
    put_next(&rt, &mut log, 2)?;
    put_next(&rt, &mut log, 3)?;
    log.keep();
    assert!(rt; log.pending().is_empty());
    put_next(&rt, &mut log, 4)?;
    put_next(&rt, &mut log, 5)?;
    assert_eq!(rt; log.len(), 4);
    assert_eq!(rt; log.length_before(), 2);
    let pending = counts_of(alloc, log.pending())?;
    assert_eq!(rt; pending.as_slice(), [4, 5].as_slice());
    log.back();
    assert!(rt; log.pending().is_empty());
    put_next(&rt, &mut log, 6)?;
    log.keep();
    log.back();
    let counts = counts_of(alloc, log.as_slice())?;
    assert_eq!(rt; counts.as_slice(), [2, 3, 6].as_slice());
    Ok(())
}

#[test]
fn is_filled_by_number_alone(rt: HostRuntime) -> Result<(), Fail> {
    let alloc = rt.alloc();
    for (numbers, taken) in [
        ([1, 2, 3], true),
        ([1, 3, 2], false),
        ([1, 1, 2], false),
        ([1, 2, 4], false),
        ([2, 3, 4], false),
    ] {
        let log = Log::filled(alloc, rows_of(alloc, &numbers)?)?;
        assert_eq!(rt; log.is_some(), taken, "{numbers:?}");
    }
    let log = Log::filled(alloc, rows_of(alloc, &[1, 2])?)?.ok_or("no log")?;
    assert_eq!(rt; log.length_before(), 2);
    assert!(rt; log.pending().is_empty());
    Ok(())
}
