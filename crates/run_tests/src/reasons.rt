//! Why lines and rows aren't done, as it is told beside the answers.
ghost use Rattle.std.specs.Prelude.{IfOk};
ghost use Rattle.desk_core.specs.Machine.{IsSoundState};
ghost use Rattle.desk_core.specs.ShopView.{state_of};

use desk_app::{
    Books, ExplainedBooks, ImportOf, LineOptions, RunOptions, explain_faults, guide_to,
    import_file, run_in_memory, run_lines,
};
use desk_core::{RunEnd, Shop};
use desk_wire::{FileReading, ImportKind};
use part_core::{Limits, Seed};
use std::alloc::Global;
use std::str;
use std::test::Fail;
use store_play::delivery::{day, document};
use store_play::devices::{Sink, Source};
use store_play::outcomes::holds;

/// Lines of which the fourth is refused, and those behind it are refused or faulty too.
const LINES: &str = r#"{"day":"2030-01-02","do":"add_location","name":"A"}
{"day":"2030-01-02","do":"add_part","flags":["component","purchaseable"],"name":"Screw"}
{"day":"2030-01-02","do":"found","location":"A","part":"Screw","quantity":40}
{"day":"2030-01-02","do":"remove","item":3,"quantity":50}
{"of":9,"report":"stock"}
{"day":"2030-01-02","do":"add_part","flags":["purchasable"],"name":"Nut"}
{"day":"2030-01-02","do":"found","location":"B","part":"Screw","quantity":40}
not JSON
"#;

/// How each line begins that is told of them.
const TOLD: [&str; 5] = [
    "line 4: Short: item 3 (Screw, A, 40, 40 free, OK), quantity 50. There is less than that;",
    "line 5: NoSuch: of 9 (no such row). A number, or a key, says no row",
    "line 6: flags: BadWord: [\"purchasable\"] (did you mean purchaseable?). There is no such",
    "line 7: location: NoName: \"B\". Nothing is called so.",
    "line 8: NotJson: at byte 1. The line is no JSON, or not UTF-8",
];

/// Lines of which the last two are refused, about names that a terminal acts on, or that turn text.
const HIDDEN: &str = "{\"day\":\"2030-01-02\",\"do\":\"add_location\",\"name\":\"A\u{85}B\"}
{\"day\":\"2030-01-02\",\"do\":\"add_part\",\"flags\":[\"component\"],\"name\":\"Screw\u{202e}\"}
{\"day\":\"2030-01-02\",\"do\":\"found\",\"location\":1,\"part\":2,\"quantity\":4,\"batch\":\"\u{2066}L\"}
{\"day\":\"2030-01-02\",\"do\":\"remove\",\"item\":3,\"quantity\":5}
{\"of\":1,\"report\":\"stock\"}
";

/// How each line begins that is told of them.
const ESCAPED: [&str; 2] = [
    "line 4: Short: item 3 (Screw\\u{202e}, batch \\u{2066}L, A\\u{85}B, 4, 4 free, OK), quantity 5. There",
    "line 5: NoSuch: of 1 (no such row). A number",
];

/// Names of parts, most of which differ from the first in blanks, in the case of letters or in characters of no width, or
/// are blank. One has a mark that is drawn before a number, and one is another name.
const NEAR: &str = "{\"day\":\"2030-01-02\",\"do\":\"add_part\",\"flags\":[],\"name\":\"M 3\"}
{\"day\":\"2030-01-02\",\"do\":\"add_part\",\"flags\":[],\"name\":\"m\u{a0}3\"}
{\"day\":\"2030-01-02\",\"do\":\"add_part\",\"flags\":[],\"name\":\"M\u{200b}3\"}
{\"day\":\"2030-01-02\",\"do\":\"add_part\",\"flags\":[],\"name\":\"M\u{fff9}3\"}
{\"day\":\"2030-01-02\",\"do\":\"add_part\",\"flags\":[],\"name\":\"M\u{600}3\"}
{\"day\":\"2030-01-02\",\"do\":\"add_part\",\"flags\":[],\"name\":\"M 4\"}
{\"day\":\"2030-01-02\",\"do\":\"add_part\",\"flags\":[],\"name\":\" \u{fffb}\u{ad}\"}
";

/// What is told of them.
const NOTED: [&str; 4] = [
    "line 2: note: \"m\u{25a1}3\" is new beside \"M 3\"",
    "line 3: note: \"M\u{25a1}3\" is new beside \"M 3\"",
    "line 4: note: \"M\u{25a1}3\" is new beside \"M 3\"",
    "line 7: note: the name \" \u{25a1}\u{25a1}\" is blank",
];

/// The rows of a stocktake, of which one is refused, with columns in another order, and a row that wasn't counted.
const SHEET: &str = "quantity;item;part;number\n41;3;Screw;1\n;3;Screw;2\n1;9;Nut;3\n";

/// Fails unless each line that is told begins so.
fn begin_so(told: &Sink, fronts: &[&str]) -> Result<(), Fail> {
    let Ok(text) = str::from_utf8(told.bytes.as_slice()) else {
        return Err("what is told isn't text".into());
    };
    holds(
        text.lines().count() == fronts.len(),
        "another count is told",
    )?;
    for (line, front) in text.lines().zip(fronts) {
        holds(line.starts_with(*front), "another reason is told")?;
    }
    Ok(())
}

/// Runs the lines on the books, so many bytes at a time, and tells why one isn't done.
fn explains_lines<B: Books + Drop>(
    alloc: Global,
    books: B,
    lines: &str,
    step: usize,
    told: &mut Sink,
) -> RunEnd
    requires { B.are_kept books }
{
    let mut answers = Sink::new(alloc, 4096);
    let mut source = Source::new(lines.as_bytes(), step);
    let mut explained = ExplainedBooks::new(alloc, books, Some(told));
    let end = run_lines(
        alloc,
        &mut source,
        &mut answers,
        &mut explained,
        RunOptions::NAMED,
    );
    explained.into_books();
    end
}

#[test]
fn tells_why_lines_are_not_done(rt: HostRuntime) -> Result<(), Fail> {
    let alloc = rt.alloc();
    for step in [4096, 1] {
        let mut told = Sink::new(alloc, step);
        let shop = Shop::new(alloc, Seed::new(0), Limits::LARGEST);
        let end = explains_lines(alloc, shop, LINES, step, &mut told);
        holds(end == RunEnd::Done(false), "another end")?;
        begin_so(&told, TOLD.as_slice())?;
    }
    Ok(())
}

#[test]
fn escapes_what_a_terminal_acts_on(rt: HostRuntime) -> Result<(), Fail> {
    let alloc = rt.alloc();
    let mut told = Sink::new(alloc, 4096);
    let shop = Shop::new(alloc, Seed::new(0), Limits::LARGEST);
    let end = explains_lines(alloc, shop, HIDDEN, 4096, &mut told);
    holds(end == RunEnd::Done(false), "another end")?;
    begin_so(&told, ESCAPED.as_slice())
}

#[test]
fn tells_of_names_that_are_near_or_blank(rt: HostRuntime) -> Result<(), Fail> {
    let alloc = rt.alloc();
    let mut told = Sink::new(alloc, 4096);
    let shop = Shop::new(alloc, Seed::new(0), Limits::LARGEST);
    let end = explains_lines(alloc, shop, NEAR, 4096, &mut told);
    holds(end == RunEnd::Done(true), "another end")?;
    begin_so(&told, NOTED.as_slice())
}

#[test]
fn tells_nobody_who_does_not_ask(rt: HostRuntime) -> Result<(), Fail> {
    let alloc = rt.alloc();
    let (mut answers, mut told) = (Sink::new(alloc, 4096), Sink::new(alloc, 4096));
    let mut source = Source::new(LINES.as_bytes(), 4096);
    let nobody = None::<&mut Sink>;
    let end = run_in_memory(
        alloc,
        Seed::new(0),
        &mut source,
        &mut answers,
        nobody,
        RunOptions::NAMED,
    );
    holds(end == RunEnd::Done(false), "another end")?;
    let mut source = Source::new(LINES.as_bytes(), 4096);
    let mut again = Sink::new(alloc, 4096);
    let end = run_in_memory(
        alloc,
        Seed::new(0),
        &mut source,
        &mut again,
        Some(&mut told),
        RunOptions::NAMED,
    );
    holds(end == RunEnd::Done(false), "another end")?;
    holds(
        answers.bytes.as_slice() == again.bytes.as_slice(),
        "the answers are others",
    )?;
    begin_so(&told, TOLD.as_slice())
}

#[test]
fn tells_the_faults_of_a_check(rt: HostRuntime) -> Result<(), Fail> {
    let alloc = rt.alloc();
    let mut told = Sink::new(alloc, 4096);
    explain_faults(alloc, LINES.as_bytes(), true, &mut told);
    begin_so(&told, &[TOLD[2], TOLD[4]])
}

/// A shop in which the first three lines were run.
fn stocked(alloc: Global) -> Result<Shop, Fail>
    ensures { IfOk result (λ shop. IsSoundState (state_of shop)) }
{
    let mut shop = Shop::new(alloc, Seed::new(0), Limits::LARGEST);
    let mut source = Source::new(LINES.as_bytes(), 4096);
    let mut answers = Sink::new(alloc, 4096);
    run_lines(
        alloc,
        &mut source,
        &mut answers,
        &mut shop,
        RunOptions {
            lines: LineOptions::NAMED,
            stop: true,
        },
    );
    Ok(shop)
}

/// Imports the file to the books, and tells why a row isn't done.
fn explains_rows<B: Books + Drop>(
    alloc: Global,
    books: B,
    file: &str,
    reading: FileReading,
    sink: &mut Sink,
    told: &mut Sink,
) -> Result<(), Fail>
    requires { B.are_kept books }
{
    let document = document(alloc)?;
    let asked = ImportOf {
        kind: ImportKind::Counts,
        document: &document,
        day: day("2030-01-03")?,
        reading,
        names: false,
    };
    let mut explained = ExplainedBooks::new(alloc, books, Some(told));
    import_file(alloc, file.as_bytes(), &asked, sink, &mut explained);
    explained.into_books();
    Ok(())
}

/// Imports the sheet: how it begins what is told, and the report.
fn takes(
    alloc: Global,
    file: &str,
    reading: FileReading,
    report: &str,
    fronts: &[&str],
) -> Result<(), Fail> {
    let (mut sink, mut told) = (Sink::new(alloc, 4096), Sink::new(alloc, 4096));
    let shop = stocked(alloc)?;
    explains_rows(alloc, shop, file, reading, &mut sink, &mut told)?;
    holds(sink.bytes.as_slice() == report.as_bytes(), "another report")?;
    begin_so(&told, fronts)
}

#[test]
fn tells_why_rows_are_not_done(rt: HostRuntime) -> Result<(), Fail> {
    let alloc = rt.alloc();
    takes(
        alloc,
        SHEET,
        FileReading::Loose,
        "1\t{\"entries\":1,\"ids\":[]}\n3\t{\"refused\":\"NoSuch\"}\n",
        &["row 3: NoSuch: item 9 (no such row), quantity 1. A number,"],
    )?;
    takes(
        alloc,
        SHEET,
        FileReading::Strict,
        "{\"fault\":\"Header\",\"line\":1}\n",
        &["record 1: Header: number,item,quantity is wanted. The first record isn't the header"],
    )?;
    takes(
        alloc,
        "number;item;quantity\n1;3;10.0\n",
        FileReading::Loose,
        "{\"fault\":\"WrongType\",\"line\":2}\n",
        &["record 2: quantity: WrongType: 10.0. A field has something of another kind"],
    )?;
    takes(
        alloc,
        "number;item;expected;quantity\n1;3;40;41\n2;3;39;\n",
        FileReading::Unchanged,
        "1\t{\"entries\":1,\"ids\":[]}\n",
        &[],
    )?;
    takes(
        alloc,
        "number;item;expected;quantity\n1;3;40;41\n2;3;39;41\n",
        FileReading::Unchanged,
        "{\"fault\":\"Changed\",\"line\":3}\n",
        &["record 3: Changed. "],
    )
}

#[test]
fn helps_on_words(rt: HostRuntime) {
    assert!(rt; guide_to("refusals").is_some() && guide_to("faults").is_some());
    assert!(rt; guide_to("Short").is_some() && guide_to("found").is_some());
    assert!(rt; guide_to("nothing").is_none());
}
