//! Names of documents and of kinds, and numbers.
use crate::shown::rows_of;
use desk_wire::{Document, ImportKind, import_kind_named, number_in};
use std::test::Fail;

#[test]
fn tells_names_of_documents(rt: HostRuntime) -> Result<(), Fail> {
    let alloc = rt.alloc();
    for (name, want) in [
        ("D1", true),
        ("-", true),
        ("aZ09._-", true),
        ("12345678901234567890123456789012", true),
        ("", false),
        ("123456789012345678901234567890123", false),
        ("a b", false),
        ("a/b", false),
        ("é", false),
    ] {
        let document = Document::new(String::from_str(alloc, name)?);
        assert_eq!(rt; document.is_some(), want, "at {name}");
    }
    let rows = rows_of(
        alloc,
        None,
        ImportKind::Counts,
        "._-",
        b"number,item,quantity\n1,2,3",
    )?;
    let rows = rows.map_err(|_| "it is a file")?;
    for row in rows.as_slice() {
        let request = row.request(alloc)?;
        let key = request.key.as_ref().ok_or("it has a key")?;
        assert_eq!(rt; key.as_str(), "counts/._-/1");
    }
    Ok(())
}

#[test]
fn tells_kinds_and_numbers(rt: HostRuntime) -> Result<(), Fail> {
    assert_eq!(rt; import_kind_named("receipts"), Some(ImportKind::Receipts));
    assert_eq!(rt; import_kind_named("counts"), Some(ImportKind::Counts));
    assert_eq!(rt; import_kind_named("Counts"), None);
    assert_eq!(rt; ImportKind::Counts.name(), "counts");
    for (text, want) in [
        ("007", Some(7)),
        ("9999999999999999999", Some(9_999_999_999_999_999_999)),
        ("00000000000000000001", None),
        ("", None),
        ("-1", None),
    ] {
        assert_eq!(rt; number_in(text), want, "at {text}");
    }
    Ok(())
}
