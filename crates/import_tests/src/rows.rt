//! Files and their rows.
use crate::shown::show;
use desk_wire::ImportKind;
use std::test::Fail;

const MARCH: &str = "Day { year: 2030, month: 3, day: 1 }";

#[test]
fn reads_receipts(rt: HostRuntime) -> Result<(), Fail> {
    let alloc = rt.alloc();
    let cases: [(&[u8], &str); 5] = [
        (
            b"number,line,location,quantity,batch,serials\n1,11,1,100,L1,\n2,11,1,50,,\n3,12,2,2,,\"M1,M2\"\n",
            "1 receipts/D1/1 DAY receive 11 1 100 L1\n2 receipts/D1/2 DAY receive 11 1 50 none\n3 receipts/D1/3 DAY receive 12 2 2 none M1 M2\n",
        ),
        (
            b"\xef\xbb\xbfnumber,line,location,quantity,batch,serials\r\n7,11,1,0,\"a, \"\"b\"\"\",3-5\r\n\r\n7,0011,1,9,c,",
            "7 receipts/D1/7 DAY receive 11 1 0 a, \"b\" 3 4 5\n7 receipts/D1/7 DAY receive 11 1 9 c\n",
        ),
        (
            b"\"number\",line,location,quantity,batch,serials\n999999999,9999999999999999999,0,1,\"\",\"\"\n",
            "999999999 receipts/D1/999999999 DAY receive 9999999999999999999 0 1 none\n",
        ),
        (
            "number,line,location,quantity,batch,serials\n1,1,1,1, é ,\n".as_bytes(),
            "1 receipts/D1/1 DAY receive 1 1 1  é \n",
        ),
        (b"number,line,location,quantity,batch,serials", ""),
    ];
    for (file, want) in cases {
        let shown = show(alloc, None, ImportKind::Receipts, file)?;
        let want = want.replace(alloc, "DAY", MARCH)?;
        assert_eq!(rt; shown.as_str(), want.as_str());
    }
    Ok(())
}

#[test]
fn reads_counts(rt: HostRuntime) -> Result<(), Fail> {
    let alloc = rt.alloc();
    let cases: [(&[u8], &str); 3] = [
        (
            b"number,item,quantity\n1,3,70\n",
            "1 counts/D1/1 DAY count 3 70\n",
        ),
        (
            b"\n\nnumber,item,quantity\r\r\n12,\"3\",0",
            "12 counts/D1/12 DAY count 3 0\n",
        ),
        (b"number,item,quantity\n\n", ""),
    ];
    for (file, want) in cases {
        let shown = show(alloc, None, ImportKind::Counts, file)?;
        let want = want.replace(alloc, "DAY", MARCH)?;
        assert_eq!(rt; shown.as_str(), want.as_str());
    }
    Ok(())
}
