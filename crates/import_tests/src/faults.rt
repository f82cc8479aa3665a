//! What is wrong with files.
use crate::shown::{rows_of, show, under};
use desk_wire::{FileError, ImportKind};
use std::test::Fail;

const RECEIPTS: &str = "number,line,location,quantity,batch,serials";

const COUNTS: &str = "number,item,quantity";

#[test]
fn finds_what_is_wrong_with_a_header(rt: HostRuntime) -> Result<(), Fail> {
    let alloc = rt.alloc();
    let files: [&[u8]; 11] = [
        b"",
        b"\n\r\n",
        b"number,item,quantity\n",
        b"number,line,location,quantity,batch\n",
        b"number,line,location,quantity,batch,serials,\n",
        b"number,line,location,quantity,serials,batch\n",
        b"Number,line,location,quantity,batch,serials\n",
        b"number, line,location,quantity,batch,serials\n",
        b"number,line,location,quantity,batch,\xff\n",
        b"\xef\xbb\xbf\xef\xbb\xbfnumber,line,location,quantity,batch,serials\n",
        b"1,11,1,100,,\nnumber,line,location,quantity,batch,serials\n",
    ];
    for file in files {
        let shown = show(alloc, None, ImportKind::Receipts, file)?;
        assert_eq!(rt; shown.as_str(), "Header 1");
    }
    Ok(())
}

#[test]
fn finds_what_is_wrong_with_a_receipt(rt: HostRuntime) -> Result<(), Fail> {
    let alloc = rt.alloc();
    let cases: [(&[u8], &str); 24] = [
        (b"1,11,1,100,", "Csv 2"),
        (b"1,11,1,100,,,", "Csv 2"),
        (b"1,11,1,100,\xff,", "Csv 2"),
        (b"x,11,1,100,,\xff", "Csv 2"),
        (b"01,11,1,100,,\n", "WrongType 2"),
        (b"0,11,1,100,,", "WrongType 2"),
        (b"00,11,1,100,,", "WrongType 2"),
        (b",11,1,100,,", "WrongType 2"),
        (b"1234567890,11,1,100,,", "WrongType 2"),
        (b"1,,1,100,,", "WrongType 2"),
        (b"1,+11,1,100,,", "WrongType 2"),
        (b"1,11,1, 100,,", "WrongType 2"),
        (b"1,11,1,1.0,,", "WrongType 2"),
        (b"1,11,12345678901234567890,1,,", "WrongType 2"),
        (b"1,11,1,x,\x01,a b", "WrongType 2"),
        (b"1,11,1,100,\x01,a b", "BadText 2"),
        (b"1,11,1,100,\"a\nb\",", "BadText 2"),
        (b"1,11,1,100,,a b", "BadSerials 2"),
        (b"1,11,1,100,,\"1,\"", "BadSerials 2"),
        (b"1,11,1,100,,1-1001", "BadSerials 2"),
        (b"1,11,1,100,,\n2,11,1,100,\n", "Csv 3"),
        (b"1,11,1,x,,\n2,11,1,100,\n", "WrongType 2"),
        (
            b"1,11,1,1,\"a\"\"b\",\n\r\n\n2,11,1,1,\x7f,\n3\n",
            "BadText 3",
        ),
        (b"1,11,1,1,,\r2,11,1,1,,\r\n0,1,1,1,,", "WrongType 4"),
    ];
    for (lines, want) in cases {
        let file = under(alloc, RECEIPTS, lines)?;
        let shown = show(alloc, None, ImportKind::Receipts, file.as_slice())?;
        assert_eq!(rt; shown.as_str(), want);
    }
    Ok(())
}

#[test]
fn finds_what_is_wrong_with_a_count(rt: HostRuntime) -> Result<(), Fail> {
    let alloc = rt.alloc();
    let cases: [(&[u8], &str); 4] = [
        (b"0,3,70", "WrongType 2"),
        (b"1,3", "Csv 2"),
        (b"1,3,70\n2,x,70\n3,3,x", "WrongType 3"),
        (b"1,3,70,\n", "Csv 2"),
    ];
    for (lines, want) in cases {
        let file = under(alloc, COUNTS, lines)?;
        let shown = show(alloc, None, ImportKind::Counts, file.as_slice())?;
        assert_eq!(rt; shown.as_str(), want);
    }
    Ok(())
}

#[test]
fn reads_files_of_16_mebibytes(rt: HostRuntime) -> Result<(), Fail> {
    let alloc = rt.alloc();
    let mut bytes = Vec::with_capacity(alloc, 16_777_217)?;
    bytes.extend_from_slice(COUNTS.as_bytes())?;
    bytes.resize(16_777_216, b'\n')?;
    let read = rows_of(alloc, None, ImportKind::Counts, "D1", bytes.as_slice())?;
    assert!(rt; read.is_ok());
    bytes.push(b'\n')?;
    let read = rows_of(alloc, None, ImportKind::Counts, "D1", bytes.as_slice())?;
    let told = match &read {
        Err(FileError::Wrong(fault, _)) => (fault.what.name(), fault.line),
        _ => ("none", 1),
    };
    assert_eq!(rt; told, ("TooLong", 0));
    Ok(())
}
