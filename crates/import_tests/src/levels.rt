//! Files of levels, of a shop with the parts Screw, 5, and Robot, 6.
use crate::called::shop;
use crate::shown::show_field;
use desk_core::Shop;
use desk_wire::{FileError, LevelRow, read_levels};
use std::alloc::{AllocError, Global};
use std::test::Fail;

/// Each part with its level.
fn show_levels(alloc: Global, levels: &[LevelRow]) -> Result<String, AllocError> {
    let mut text = String::new(alloc);
    for level in levels {
        let (part, amount) = (level.part, level.amount);
        text.push_str(format!(in alloc; "{part} at {amount};")?.as_str())?;
    }
    Ok(text)
}

/// The levels that a file says, or its fault with the field that can't be read.
fn show(alloc: Global, shop: &Shop, bytes: &[u8]) -> Result<String, AllocError> {
    match &read_levels(alloc, shop, bytes) {
        Ok(levels) => show_levels(alloc, levels.as_slice()),
        Err(FileError::Wrong(fault, field)) => show_field(alloc, fault, field),
        Err(FileError::Memory) => String::from_str(alloc, "no memory"),
    }
}

#[test]
fn reads_levels(rt: HostRuntime) -> Result<(), Fail> {
    let alloc = rt.alloc();
    let shop = shop(alloc)?;
    let files: [(&[u8], &str); 7] = [
        (
            b"part,level\nScrew,20\n6,1\nScrew,007\n",
            "5 at 20;6 at 1;5 at 7;",
        ),
        (b"level;remark;part\r\n3;dear;Robot\r\n", "6 at 3;"),
        (
            b"\xef\xbb\xbfpart\tlevel\n99\t9999999999999999999",
            "99 at 9999999999999999999;",
        ),
        (b"part,level\nBolt,\n,\n\n\"[5\"\nScrew,0\n", "5 at 0;"),
        (b"level,part\n2\n", "NoName part 2: part is "),
        (b"part,level\n", ""),
        (b"part,level\nBolt\n", ""),
    ];
    for (file, want) in files {
        let shown = show(alloc, &shop, file)?;
        assert_eq!(rt; shown.as_str(), want);
    }
    Ok(())
}

#[test]
fn finds_what_is_wrong_with_levels(rt: HostRuntime) -> Result<(), Fail> {
    let alloc = rt.alloc();
    let shop = shop(alloc)?;
    let files: [(&[u8], &str); 13] = [
        (b"", "Header 1"),
        (b"part,number\nScrew,1\n", "Header 1"),
        (b"part,level,part\nScrew,1,Screw\n", "Header 1"),
        (b"part,level\n\xff,1\n", "Csv 2"),
        (b"part,level\nScrew,1\nScrew,1,\n", "Csv 3"),
        (b"part,level\nBolt,few,\n", "Csv 2"),
        (b"part,level\nBolt,few\n", "NoName part 2: part is Bolt"),
        (
            b"part,level\nScrew,few\nBolt,1\n",
            "WrongType 2: level is few",
        ),
        (b"part,level\nScrew,-1\n", "WrongType 2: level is -1"),
        (
            b"part,level\nScrew,1\nScr\0ew,1\n",
            "NoName part 3: part is Scr\0ew",
        ),
        (b"part,level\nScrew,1\n\"Screw,1\n", "Csv 3"),
        (b"part,\"level\nScrew,1\n", "Header 1"),
        (b"part,level\nScrew;1\n", "Csv 2"),
    ];
    for (file, want) in files {
        let shown = show(alloc, &shop, file)?;
        assert_eq!(rt; shown.as_str(), want);
    }
    Ok(())
}
