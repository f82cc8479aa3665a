//! Rows that are put and changed, also after `keep` and `back`.
use part_core::{Row, Seed, Sheet};
use std::alloc::{AllocError, Global};
use std::process::Abort;
use std::test::Fail;

// So many of a part.
#[derive(Drop)]
pub struct Stock {
    pub number: u64,
    pub count: u64,
}

impl Row for Stock {
    ghost use Rattle.std.specs.Prelude.{◌∷◌, []};

    type Key = u64;

    ghost key_of = { λ row. row.number ∷ [] };

    fn key(&self, _alloc: Global) -> Result<u64, AllocError> {
        Ok(self.number)
    }

    fn copy(&self, _alloc: Global) -> Result<Self, AllocError> {
        Ok(Stock {
            number: self.number,
            count: self.count,
        })
    }

    fn equals(&self, other: &Self) -> bool {
        self.number == other.number && self.count == other.count
    }
}

fn put_count(sheet: &mut Sheet<Stock>, number: u64, count: u64) -> Result<(), AllocError> {
    sheet.put(Stock { number, count })
}

fn set_count(
    rt: &impl Abort,
    sheet: &mut Sheet<Stock>,
    number: u64,
    count: u64,
) -> Result<(), AllocError> {
    assert!(rt; sheet.get(&number).is_some());
    let row = sheet.get_mut(number)?;
    row.count = count;
    Ok(())
}

fn count_of(sheet: &Sheet<Stock>, number: u64) -> Option<u64> {
    sheet.get(&number).map(|row| row.count)
}

// A sheet with two of part 1 and three of part 2, now and before.
fn sheet_before(alloc: Global) -> Result<Sheet<Stock>, AllocError> {
    let mut sheet = Sheet::new(alloc, Seed::new(0));
    put_count(&mut sheet, 1, 2)?;
    put_count(&mut sheet, 2, 3)?;
    sheet.keep();
    Ok(sheet)
}

#[test]
fn takes_changes_back(rt: HostRuntime) -> Result<(), Fail> {
    let mut sheet = sheet_before(rt.alloc())?;
    assert!(rt; sheet.pending()?.is_empty());
    assert_eq!(rt; sheet.len(), 2);

    set_count(&rt, &mut sheet, 1, 5)?;
    sheet.remove(&2)?;
    assert_eq!(rt; count_of(&sheet, 1), Some(5));
    assert_eq!(rt; count_of(&sheet, 2), None);
    let pending = sheet.pending()?;
    assert_eq!(rt; pending.len(), 2);
    assert_eq!(rt; *pending[0].key, 1);
    assert_eq!(rt; pending[0].row.map(|row| row.count), Some(5));
    assert_eq!(rt; *pending[1].key, 2);
    assert!(rt; pending[1].row.is_none());
    drop(pending);

    sheet.back();
    assert!(rt; sheet.pending()?.is_empty());
    assert_eq!(rt; sheet.len(), 2);
    assert_eq!(rt; count_of(&sheet, 1), Some(2));
    assert_eq!(rt; count_of(&sheet, 2), Some(3));
    Ok(())
}

#[test]
fn lists_no_row_that_is_as_before(rt: HostRuntime) -> Result<(), Fail> {
    let mut sheet = sheet_before(rt.alloc())?;
    set_count(&rt, &mut sheet, 1, 5)?;
    set_count(&rt, &mut sheet, 1, 2)?;
    put_count(&mut sheet, 3, 4)?;
    sheet.remove(&3)?;
    assert!(rt; sheet.pending()?.is_empty());
    Ok(())
}

#[test]
fn selects_in_order_of_key(rt: HostRuntime) -> Result<(), Fail> {
    let mut sheet = Sheet::new(rt.alloc(), Seed::new(0));
    assert!(rt; sheet.is_empty());
    for number in [30, 4, 200, 1, 5] {
        put_count(&mut sheet, number, number * 2)?;
    }
    assert!(rt; !sheet.is_empty());
    let rows = sheet.select(|row| row.count > 2)?;
    let numbers: Vec<u64> = rows.iter().map(|row| row.number).collect(rt.alloc())?;
    assert_eq!(rt; numbers.as_slice(), [4, 5, 30, 200].as_slice());
    assert!(rt; sheet.any(|row| row.count == 400));
    assert!(rt; !sheet.any(|row| row.count == 3));
    Ok(())
}

#[test]
fn puts_a_removed_row_again(rt: HostRuntime) -> Result<(), Fail> {
    let mut sheet = sheet_before(rt.alloc())?;
    sheet.remove(&1)?;
    assert_eq!(rt; sheet.len(), 1);
    assert_eq!(rt; sheet.length_before(), 2);
    put_count(&mut sheet, 1, 7)?;
    put_count(&mut sheet, 3, 4)?;
    sheet.remove(&2)?;
    assert_eq!(rt; sheet.len(), 2);
    sheet.keep();
    assert_eq!(rt; sheet.len(), 2);
    assert_eq!(rt; count_of(&sheet, 1), Some(7));
    assert_eq!(rt; count_of(&sheet, 2), None);
    assert_eq!(rt; count_of(&sheet, 3), Some(4));

    sheet.remove(&1)?;
    put_count(&mut sheet, 5, 6)?;
    sheet.back();
    assert_eq!(rt; sheet.len(), 2);
    assert_eq!(rt; count_of(&sheet, 1), Some(7));
    assert_eq!(rt; count_of(&sheet, 5), None);
    Ok(())
}
