//! Files that are imported: a delivery and a stocktake, sent once and again, faulty files, and writers and readers that
//! fail.
ghost use Rattle.std.specs.Prelude.{IfOk};
ghost use Rattle.desk_core.specs.Machine.{IsSoundState};
ghost use Rattle.desk_core.specs.ShopView.{state_of};

use desk_app::{CountedBooks, ImportOf, import_file, read_file};
use desk_core::{RunEnd, Shop, Stop};
use desk_play::imports::imports;
use desk_play::play::plays_on_shop;
use desk_wire::{FileReading, ImportKind};
use part_core::{Limits, Seed};
use std::alloc::Global;
use std::io::ErrorKind;
use std::test::Fail;
use store_play::delivery::{
    DELIVERY, DELIVERY_OUT, ORDERED, ORDERED_OUT, OTHER, OTHER_OUT, STOCK, STOCK_OUT, day, document,
};
use store_play::devices::{Sink, Source};
use store_play::outcomes::holds;

/// A shop that ordered screws and motors.
fn ordered(alloc: Global) -> Result<Shop, Fail>
    ensures { IfOk result (λ shop. IsSoundState (state_of shop)) }
{
    let mut shop = Shop::new(alloc, Seed::new(0), Limits::LARGEST);
    plays_on_shop(alloc, &mut shop, ORDERED, ORDERED_OUT)?;
    Ok(shop)
}

fn delivers(alloc: Global, shop: &mut Shop, on: &str, sink: &mut Sink) -> Result<RunEnd, Fail>
    requires { IsSoundState (state_of shop.old) }
    ensures { IsSoundState (state_of shop.new) }
{
    imports(alloc, shop, ImportKind::Receipts, on, DELIVERY, sink)
}

/// Sends the delivery on that day: it is told its report, and the stock is that of one delivery.
fn delivers_once(alloc: Global, shop: &mut Shop, on: &str) -> Result<(), Fail>
    requires { IsSoundState (state_of shop.old) }
    ensures { IsSoundState (state_of shop.new) }
{
    let mut sink = Sink::new(alloc, 7);
    let end = delivers(alloc, shop, on, &mut sink)?;
    holds(end == RunEnd::Done(true), "a row is refused")?;
    holds(
        sink.bytes.as_slice() == DELIVERY_OUT.as_bytes(),
        "another report",
    )?;
    plays_on_shop(alloc, shop, STOCK, STOCK_OUT)
}

/// A delivery comes once, however often and on whatever day it is sent.
#[test]
fn a_delivery(rt: HostRuntime) -> Result<(), Fail> {
    let alloc = rt.alloc();
    let mut shop = ordered(alloc)?;
    delivers_once(alloc, &mut shop, "2030-03-01")?;
    delivers_once(alloc, &mut shop, "2030-03-01")?;
    delivers_once(alloc, &mut shop, "2030-03-02")?;
    let mut sink = Sink::new(alloc, 4096);
    let end = imports(
        alloc,
        &mut shop,
        ImportKind::Receipts,
        "2030-03-02",
        OTHER,
        &mut sink,
    )?;
    holds(end == RunEnd::Done(false), "another quantity is taken")?;
    holds(
        sink.bytes.as_slice() == OTHER_OUT.as_bytes(),
        "another report",
    )?;
    plays_on_shop(alloc, &mut shop, STOCK, STOCK_OUT)
}

/// Counts the screws of the batch, and an item that isn't there.
fn counts(alloc: Global, shop: &mut Shop) -> Result<(), Fail>
    requires { IsSoundState (state_of shop.old) }
    ensures { IsSoundState (state_of shop.new) }
{
    let counted = "\u{feff}number,item,quantity\r\n1,7,97\r\n2,99,1\r\n";
    let mut sink = Sink::new(alloc, 4096);
    let end = imports(
        alloc,
        shop,
        ImportKind::Counts,
        "2030-03-03",
        counted,
        &mut sink,
    )?;
    holds(end == RunEnd::Done(false), "no row is refused")?;
    let told = "1\t{\"entries\":1,\"ids\":[]}\n2\t{\"refused\":\"NoSuch\"}\n";
    holds(sink.bytes.as_slice() == told.as_bytes(), "another report")
}

/// A stocktake after the delivery, sent twice.
#[test]
fn a_stocktake(rt: HostRuntime) -> Result<(), Fail> {
    let alloc = rt.alloc();
    let mut shop = ordered(alloc)?;
    let mut sink = Sink::new(alloc, 4096);
    delivers(alloc, &mut shop, "2030-03-01", &mut sink)?;
    counts(alloc, &mut shop)?;
    counts(alloc, &mut shop)
}

const HEADER: &str = "number,line,location,quantity,batch,serials\n";

/// Rows of a delivery with LFs behind them, until the file has so many bytes, and whether its import is fine, with what is
/// told. None of the rows is run, not even those that are right.
const FAULTY: [(&str, usize, bool, &str); 5] = [
    (
        "1,5,1,100,L1,\n2,5,1,x,,\n",
        0,
        false,
        "{\"fault\":\"WrongType\",\"line\":3}\n",
    ),
    (
        "1,5,1,100,L1\n2,5,1,50,,\n",
        0,
        false,
        "{\"fault\":\"Csv\",\"line\":2}\n",
    ),
    (
        "01,5,1,100,L1,\n2,5,1,50,,\n",
        0,
        false,
        "{\"fault\":\"WrongType\",\"line\":2}\n",
    ),
    ("", 0, true, ""),
    (
        "1,5,1,100,L1,\n",
        16_777_217,
        false,
        "{\"fault\":\"TooLong\",\"line\":0}\n",
    ),
];

/// Imports such a file: how that ends, and what is told. Then there is no stock.
fn imports_none(alloc: Global, rows: &str, length: usize) -> Result<(RunEnd, Sink), Fail> {
    let mut file = Vec::new(alloc);
    file.extend_from_slice(HEADER.as_bytes())?;
    file.extend_from_slice(rows.as_bytes())?;
    file.resize(file.len().max(length), b'\n')?;
    let mut shop = ordered(alloc)?;
    let mut sink = Sink::new(alloc, 1);
    let document = document(alloc)?;
    let asked = ImportOf {
        kind: ImportKind::Receipts,
        document: &document,
        day: day("2030-03-01")?,
        reading: FileReading::Strict,
        names: false,
    };
    let end = import_file(alloc, &file, &asked, &mut sink, &mut shop);
    plays_on_shop(alloc, &mut shop, STOCK, "{\"report\":[]}\n")?;
    Ok((end, sink))
}

#[test]
fn faulty_files(rt: HostRuntime) -> Result<(), Fail> {
    let alloc = rt.alloc();
    for (rows, length, fine, told) in FAULTY {
        let (end, sink) = imports_none(alloc, rows, length)?;
        assert!(rt; end == RunEnd::Done(fine), "{told}");
        assert!(rt; sink.bytes.as_slice() == told.as_bytes(), "{told}");
    }
    Ok(())
}

/// Where the report isn't written, the rows were run: the file is sent again, and its report is whole.
#[test]
fn each_write_fails(rt: HostRuntime) -> Result<(), Fail> {
    let alloc = rt.alloc();
    for fails in 1..12u64 {
        let mut shop = ordered(alloc)?;
        let mut sink = Sink::new(alloc, 10);
        sink.fails = fails;
        let end = delivers(alloc, &mut shop, "2030-03-01", &mut sink)?;
        assert!(rt; DELIVERY_OUT.as_bytes().starts_with(sink.bytes.as_slice()));
        assert!(rt; end == RunEnd::WriteFailed || end == RunEnd::Done(true));
        plays_on_shop(alloc, &mut shop, STOCK, STOCK_OUT)?;
        let mut sink = Sink::new(alloc, 4096);
        let end = delivers(alloc, &mut shop, "2030-03-02", &mut sink)?;
        assert!(rt; end == RunEnd::Done(true));
        assert!(rt; sink.bytes.as_slice() == DELIVERY_OUT.as_bytes());
    }
    Ok(())
}

/// A file comes whole in pieces of any length, and past an interruption; a read that fails ends it.
#[test]
fn reads_in_pieces(rt: HostRuntime) -> Result<(), Fail> {
    let alloc = rt.alloc();
    for step in [1, 7, 4096, 100_000] {
        let mut source = Source::new(DELIVERY.as_bytes(), step);
        source.fails = 2;
        source.failure = ErrorKind::Interrupted;
        match read_file(alloc, &mut source) {
            Ok(bytes) => assert!(rt; bytes.as_slice() == DELIVERY.as_bytes()),
            Err(_) => return Err("it reads on past an interruption".into()),
        }
        let mut source = Source::new(DELIVERY.as_bytes(), step);
        source.fails = 2;
        assert!(rt; matches!(read_file(alloc, &mut source), Err(Stop::ReadFailed)));
    }
    Ok(())
}

/// The file of a stocktake in which an item is found as it is, so many times.
fn counted(alloc: Global, times: u64) -> Result<String, Fail> {
    let mut file = String::from_str(alloc, "number,item,quantity\n")?;
    for number in 1..=times {
        file.push_str(format!(in alloc; "{number},7,100\n")?.as_str())?;
    }
    Ok(file)
}

/// Imports such a file: whoever waits is told each thousand that others follow.
fn tells_how_many(alloc: Global, times: u64, told: &str) -> Result<(), Fail> {
    let mut shop = ordered(alloc)?;
    delivers(alloc, &mut shop, "2030-03-01", &mut Sink::new(alloc, 4096))?;
    let file = counted(alloc, times)?;
    let mut terminal = Sink::new(alloc, 4096);
    let mut books = CountedBooks::new(shop, Some(&mut terminal));
    let document = document(alloc)?;
    let asked = ImportOf {
        kind: ImportKind::Counts,
        document: &document,
        day: day("2030-03-02")?,
        reading: FileReading::Strict,
        names: false,
    };
    let mut sink = Sink::new(alloc, 4096);
    let end = import_file(alloc, file.as_bytes(), &asked, &mut sink, &mut books);
    let mut shop = books.into_books();
    holds(end == RunEnd::Done(true), "a row is refused")?;
    holds(
        terminal.bytes.as_slice() == told.as_bytes(),
        "another count is told",
    )?;
    plays_on_shop(alloc, &mut shop, STOCK, STOCK_OUT)
}

#[test]
fn long_files(rt: HostRuntime) -> Result<(), Fail> {
    let alloc = rt.alloc();
    tells_how_many(alloc, 1_000, "")?;
    tells_how_many(alloc, 2_001, "1000 rows done\n2000 rows done\n")
}

/// Imports the stocktake of a hundred thousand rows on that day, and fails where a row is refused.
fn takes_stock(alloc: Global, shop: &mut Shop, on: &str, file: &str) -> Result<(), Fail>
    requires { IsSoundState (state_of shop.old) }
    ensures { IsSoundState (state_of shop.new) }
{
    let mut sink = Sink::new(alloc, 4096);
    let end = imports(alloc, shop, ImportKind::Counts, on, file, &mut sink)?;
    holds(end == RunEnd::Done(true), "a row is refused")?;
    let last = "100000\t{\"entries\":0,\"ids\":[]}\n";
    holds(
        sink.bytes.as_slice().ends_with(last.as_bytes()),
        "another report",
    )
}

/// A stocktake of a hundred thousand rows, and the same file on another day.
#[test]
fn a_long_stocktake(rt: HostRuntime) -> Result<(), Fail> {
    let alloc = rt.alloc();
    let mut shop = ordered(alloc)?;
    delivers_once(alloc, &mut shop, "2030-03-01")?;
    let file = counted(alloc, 100_000)?;
    takes_stock(alloc, &mut shop, "2030-03-02", file.as_str())?;
    takes_stock(alloc, &mut shop, "2030-03-03", file.as_str())?;
    plays_on_shop(alloc, &mut shop, STOCK, STOCK_OUT)
}
