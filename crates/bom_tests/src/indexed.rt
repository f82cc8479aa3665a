//! Rows that are found by what stands in them, also after changes, and after `keep` and `back`.
use part_core::{Indexed, IndexedSheet, Row, Seed};
use std::alloc::{AllocError, Global};
use std::process::Abort;
use std::test::Fail;

// A tool, which is looked up by the drawer that it lies in and by who made it. A drawer and a maker may have one number,
// and then they are one index key.
#[derive(Drop)]
struct Tool {
    number: u64,
    drawer: u64,
    maker: u64,
}

impl Row for Tool {
    ghost use Rattle.std.specs.Prelude.{◌∷◌, []};

    type Key = u64;

    ghost key_of = { λ row. row.number ∷ [] };

    fn key(&self, _alloc: Global) -> Result<u64, AllocError> {
        Ok(self.number)
    }

    fn copy(&self, _alloc: Global) -> Result<Self, AllocError> {
        Ok(Tool {
            number: self.number,
            drawer: self.drawer,
            maker: self.maker,
        })
    }

    fn equals(&self, other: &Self) -> bool {
        self.number == other.number && self.drawer == other.drawer && self.maker == other.maker
    }
}

impl Indexed for Tool {
    ghost use Rattle.std.specs.Prelude.{◌∷◌, []};
    ghost use Rattle.std.specs.Hash as fed;
    ghost use Rattle.sheet_core.specs.Indexed.{index_key_of};

    ghost index_keys = { λ row.
        index_key_of (fed.u64 row.drawer) ∷ index_key_of (fed.u64 row.maker) ∷ [] };

    fn index_key(&self, seed: &Seed, place: usize) -> Option<u64> {
        match place {
            0 => Some(seed.hash_of(self.drawer)),
            1 => Some(seed.hash_of(self.maker)),
            _ => None,
        }
    }
}

fn put_tool(
    sheet: &mut IndexedSheet<Tool>,
    number: u64,
    drawer: u64,
    maker: u64,
) -> Result<(), AllocError> {
    sheet.put(Tool {
        number,
        drawer,
        maker,
    })
}

// The tools in the drawer are those of these numbers, in this order.
fn expect_drawer(
    rt: &impl Abort,
    alloc: Global,
    sheet: &IndexedSheet<Tool>,
    drawer: u64,
    numbers: &[u64],
) -> Result<(), AllocError> {
    let tools = sheet.select_under(drawer, |tool| tool.drawer == drawer)?;
    let found: Vec<u64> = tools.iter().map(|tool| tool.number).collect(alloc)?;
    assert_eq!(rt; found.as_slice(), numbers);
    let any = sheet.any_under(drawer, |tool| tool.drawer == drawer);
    assert_eq!(rt; any, !numbers.is_empty());
    Ok(())
}

// The tools of the maker are those of these numbers, in this order.
fn expect_maker(
    rt: &impl Abort,
    alloc: Global,
    sheet: &IndexedSheet<Tool>,
    maker: u64,
    numbers: &[u64],
) -> Result<(), AllocError> {
    let tools = sheet.select_under(maker, |tool| tool.maker == maker)?;
    let found: Vec<u64> = tools.iter().map(|tool| tool.number).collect(alloc)?;
    assert_eq!(rt; found.as_slice(), numbers);
    Ok(())
}

// Tools 20 and 3 in drawer 1 and tool 5 in drawer 2, all of maker 1 but tool 3, now and before.
fn sheet_before(alloc: Global) -> Result<IndexedSheet<Tool>, AllocError> {
    let mut sheet = IndexedSheet::new(alloc, Seed::new(0));
    put_tool(&mut sheet, 20, 1, 1)?;
    put_tool(&mut sheet, 3, 1, 2)?;
    put_tool(&mut sheet, 5, 2, 1)?;
    sheet.keep();
    Ok(sheet)
}

#[test]
fn finds_rows_by_each_key(rt: HostRuntime) -> Result<(), Fail> {
    let sheet = sheet_before(rt.alloc())?;
    expect_drawer(&rt, rt.alloc(), &sheet, 1, &[3, 20])?;
    expect_drawer(&rt, rt.alloc(), &sheet, 2, &[5])?;
    expect_drawer(&rt, rt.alloc(), &sheet, 3, &[])?;
    expect_maker(&rt, rt.alloc(), &sheet, 1, &[5, 20])?;
    expect_maker(&rt, rt.alloc(), &sheet, 2, &[3])?;
    Ok(())
}

#[test]
fn takes_a_changed_row_back(rt: HostRuntime) -> Result<(), Fail> {
    let mut sheet = sheet_before(rt.alloc())?;
    put_tool(&mut sheet, 3, 2, 2)?;
    expect_drawer(&rt, rt.alloc(), &sheet, 1, &[20])?;
    expect_drawer(&rt, rt.alloc(), &sheet, 2, &[3, 5])?;
    expect_maker(&rt, rt.alloc(), &sheet, 2, &[3])?;
    sheet.back();
    expect_drawer(&rt, rt.alloc(), &sheet, 1, &[3, 20])?;
    expect_drawer(&rt, rt.alloc(), &sheet, 2, &[5])?;
    Ok(())
}

#[test]
fn keeps_a_row_changed_twice(rt: HostRuntime) -> Result<(), Fail> {
    let mut sheet = sheet_before(rt.alloc())?;
    put_tool(&mut sheet, 3, 7, 2)?;
    put_tool(&mut sheet, 3, 2, 7)?;
    sheet.keep();
    expect_drawer(&rt, rt.alloc(), &sheet, 7, &[])?;
    expect_drawer(&rt, rt.alloc(), &sheet, 2, &[3, 5])?;
    sheet.back();
    expect_maker(&rt, rt.alloc(), &sheet, 7, &[3])?;
    expect_maker(&rt, rt.alloc(), &sheet, 2, &[])?;
    Ok(())
}

#[test]
fn takes_removed_rows_back(rt: HostRuntime) -> Result<(), Fail> {
    let mut sheet = sheet_before(rt.alloc())?;
    sheet.remove(3)?;
    sheet.remove(4)?;
    put_tool(&mut sheet, 8, 1, 9)?;
    sheet.remove(8)?;
    expect_drawer(&rt, rt.alloc(), &sheet, 1, &[20])?;
    expect_maker(&rt, rt.alloc(), &sheet, 9, &[])?;
    sheet.back();
    expect_drawer(&rt, rt.alloc(), &sheet, 1, &[3, 20])?;
    expect_maker(&rt, rt.alloc(), &sheet, 9, &[])?;
    Ok(())
}

#[test]
fn keeps_removed_rows_out(rt: HostRuntime) -> Result<(), Fail> {
    let mut sheet = sheet_before(rt.alloc())?;
    sheet.remove(3)?;
    sheet.remove(20)?;
    put_tool(&mut sheet, 20, 1, 4)?;
    sheet.keep();
    sheet.back();
    assert_eq!(rt; sheet.rows().len(), 2);
    expect_drawer(&rt, rt.alloc(), &sheet, 1, &[20])?;
    expect_maker(&rt, rt.alloc(), &sheet, 1, &[5])?;
    expect_maker(&rt, rt.alloc(), &sheet, 4, &[20])?;
    Ok(())
}
