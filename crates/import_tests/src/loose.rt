//! Files as people keep them, which are read loosely.
use crate::shown::show_as;
use desk_wire::ImportKind;
use std::alloc::Global;
use std::test::Fail;

/// The receipt that most of the files have, as a text.
const RECEIPT: &str = "1 receipts/D1/1 DAY receive 11 1 5 L1\n";

const MARCH: &str = "Day { year: 2030, month: 3, day: 1 }";

/// Fails unless the file is shown so, read loosely.
fn is_shown(alloc: Global, kind: ImportKind, file: &[u8], shown: &str) -> Result<(), Fail> {
    let shown = shown.replace(alloc, "DAY", MARCH)?;
    if show_as(alloc, true, kind, file)?.as_str() == shown.as_str() {
        Ok(())
    } else {
        Err("a file is shown otherwise".into())
    }
}

#[test]
fn takes_columns_by_their_names(rt: HostRuntime) -> Result<(), Fail> {
    let alloc = rt.alloc();
    let files: [&[u8]; 6] = [
        b"number,line,location,quantity,batch,serials\n1,11,1,5,L1,\n",
        b"serials,batch,quantity,location,line,number\n,L1,5,1,11,1\n",
        b"note;number;line;location;quantity;batch\nhere, it came;1;11;1;5;L1\n",
        b"number\tline\tlocation\tbatch\tquantity\r\n1\t11\t1\tL1\t5\r\n",
        b"\xef\xbb\xbfnumber;batch;line;location;quantity;serials;\n1;L1;11;1;5;;\n",
        b"batch,number,line,location,quantity,serials\nL1,1,11,1,5\n",
    ];
    for file in files {
        is_shown(alloc, ImportKind::Receipts, file, RECEIPT)?;
    }
    Ok(())
}

#[test]
fn leaves_out_rows_without_a_quantity(rt: HostRuntime) -> Result<(), Fail> {
    let alloc = rt.alloc();
    is_shown(
        alloc,
        ImportKind::Counts,
        b"number,item,part,expected,quantity\n1,7,Screw,40,\n2,8,Nut,5,6\n,,,,\n\n3,9\nx,y,,,\n",
        "2 counts/D1/2 DAY count 8 6\n",
    )?;
    is_shown(alloc, ImportKind::Counts, b"number;item;quantity\n", "")
}

#[test]
fn finds_what_is_wrong_with_it(rt: HostRuntime) -> Result<(), Fail> {
    let alloc = rt.alloc();
    let cases: [(&[u8], &str); 15] = [
        (b"", "Header 1"),
        (b"number,item\n1,7\n", "Header 1"),
        (b"number,item,quantity,quantity\n1,7,5,5\n", "Header 1"),
        (b"Number,item,quantity\n1,7,5\n", "Header 1"),
        (b"number|item|quantity\n1|7|5\n", "Header 1"),
        (b"number,item,quantity\n1,7,5,6\n", "Csv 2"),
        (b"number,item,quantity,note\n1,7,5,\xff\n", "Csv 2"),
        (b"number,item,quantity\n1,7,,\n", "Csv 2"),
        (
            b"number,item,quantity,note\n1,7,5,\n2,8,6,\"x\n3,9,7,\n",
            "Csv 3",
        ),
        (b"number,item,quantity,\"note\n1,7,5,\n", "Csv 1"),
        (b"number,item,quantity\n1;7;5\n", "Csv 2"),
        (
            b"number,item,quantity\n1,7,10.0\n",
            "WrongType 2: quantity is 10.0",
        ),
        (
            b"number,item,quantity\n,,\n1,7,\"1,000\"\n",
            "WrongType 3: quantity is 1,000",
        ),
        (
            b"number;quantity;item\n01;x;y\n",
            "WrongType 2: number is 01",
        ),
        (b"number;quantity;item\n1;x;y\n", "WrongType 2: item is y"),
    ];
    for (file, shown) in cases {
        is_shown(alloc, ImportKind::Counts, file, shown)?;
    }
    Ok(())
}

#[test]
fn tells_the_field_of_a_file_that_is_read_strictly(rt: HostRuntime) -> Result<(), Fail> {
    let alloc = rt.alloc();
    let cases: [(&[u8], &str); 4] = [
        (
            b"number,item,quantity\n1,7,5\n",
            "1 counts/D1/1 DAY count 7 5\n",
        ),
        (b"number,item,quantity\n1,7,\n", "WrongType 2: quantity is "),
        (b"number,item,quantity\n1,7\n", "Csv 2"),
        (b"number;item;quantity\n1;7;5\n", "Header 1"),
    ];
    for (file, shown) in cases {
        let shown = shown.replace(alloc, "DAY", MARCH)?;
        assert_eq!(rt;
            show_as(alloc, false, ImportKind::Counts, file)?.as_str(),
            shown.as_str()
        );
    }
    Ok(())
}
