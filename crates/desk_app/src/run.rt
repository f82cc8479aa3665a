//! A run over the lines of a reader, in groups: the lines that one read gave whole are run together, what they change
//! is kept together, and their answers are written after it, in one write.
//!
//! A line comes from `src/lines.rt`. `desk_wire` `src/read.rt` reads what it asks for, and a request goes to
//! `Books::run_grouped`, which of a file is that of `desk_store` `src/group.rt`.
//!
//! What holds, each by the clauses of that name:
//!
//! 1. `ok`, `cut`: a line is answered, and changes the books, as its definition says (`Runs.line_step`). One that an
//!    error leaves without its answer is done whole or not at all, and where the database failed, not at all.
//! 2. `grouping`, `kept`: between two lines the books are in a group, and as it ends all that it changed is kept.
//! 3. `waits`, `bounded`: no answer waits for a line that hasn't been read, so of a clerk who types each line is a
//!    group of its own; and a group goes on only while its answers are short.
//! 4. `answered`: nothing of an answer is written before what its group changed is kept. However a run ends, at
//!    whichever of its calls, what was answered is kept.
//! 5. `left`: within a group a crash leaves what it left before the group; as the group ends, that or the tables of the
//!    books; and behind a run that doesn't end by `Store`, these alone.
//! 6. `stays_open`, `ends_open`, `was_open`: what stops by `Store` has closed the books, nothing else closes them, and
//!    closed ones aren't opened again.
//! 7. `done`, `stopped`: a run ends behind its last line, or stops, and how it stops says which lines were run and
//!    which of these answered. None is run behind a failure, nor, where it is to stop there, behind one that is refused
//!    or faulty. Where the writer fails the group is kept, and a front of its answers is written. Where the database
//!    fails nothing of the group's answers is written, and a crash leaves the tables from before it or, where the
//!    commit failed, maybe those after it.
//! 8. `reasons`, `quiet`: the books are told why a line isn't done, and of a blank line nothing.
ghost use Rattle.std.specs.Prelude.{◌≡◌, ◌≢◌, ◌⊎◌, ◌<◌, ◌≤◌, ◌++◌, ℕ, List, [], Bool, None, false};
ghost use Rattle.std.specs.Prelude.{length, true, IfOk, OnOk, IfErr, OnErr, Err, IsSome, option_map};
ghost use Rattle.std.specs.String.{string_bytes};
ghost use Rattle.std.specs.Io.KnownBytes.{Appends, Keeps};
ghost use Rattle.sqlite.specs.Tree.{Trees};
ghost use Rattle.desk_core.specs.Books.{AreInOrder};
ghost use Rattle.desk_core.specs.Machine.{IsSoundState, step};
ghost use Rattle.desk_core.specs.Naming.{naming_in};
ghost use Rattle.desk_core.specs.ShopView.{state_of};
ghost use Rattle.desk_store.specs.StateTables.{TablesAre};
ghost use Rattle.desk_core.specs.declared.end.Stop.{Stop};
ghost use Rattle.desk_app.specs.Answered.{AnsweredIsKept};
ghost use Rattle.desk_app.specs.Cuts.{has_end, unread};
ghost use Rattle.desk_app.specs.Journal.{journalled};
ghost use Rattle.desk_core.specs.Ends.{end_of};
ghost use Rattle.desk_app.specs.LineRequests.{LinesAloneAsk, LinesAreRequests};
ghost use Rattle.report_core.specs.Reports.{report_lines};
ghost use Rattle.desk_app.specs.Reasons.{NotesLine, NotesOutcome, NotesReport};
ghost use Rattle.desk_app.specs.Runs.{by_outcome, by_report, is_blank, line_step, line_after};
ghost use Rattle.desk_app.specs.Runs.{line_out, is_fine, CutLine, CutRequest, CutSettling};
ghost use Rattle.desk_app.specs.Runs.{EndsOpen, Finished, Gathered, Halts, IsOfBooks, IsOfSettling};
ghost use Rattle.desk_app.specs.Runs.{StaysOpen, Stopped, naming};

use crate::books::Books;
use crate::journal::journalled;
use crate::lines::Lines;
use crate::options::{LineOptions, RunOptions};
use crate::undone::{Place, Why};
use desk_core::{Request, RunEnd, Shop, Stop};
use desk_store::{Fault, send};
use desk_wire::{
    ReadError, Told, Wish, answer_text, fault_text, read_line, refused_text, report_text,
};
use part_core::CoreFault;
use report_core::{ReportName, report};
use std::alloc::Global;
use std::io::{Read, Write};

/// A group ends once so many bytes of answers wait.
const ENOUGH: usize = 65_536;

pub(crate) fn is_blank(line: &[u8]) -> bool
    ensures { result ≡ is_blank line.now }
{
    match line {
        [] => true,
        [b] => *b == b'\r',
        _ => false,
    }
}

/// Runs a request of a group that stands there, and tells its outcome.
pub(crate) fn tell_outcome<B: Books>(
    alloc: Global,
    books: &mut B,
    place: Place,
    request: &Request,
) -> Result<Told, Stop>
    requires { B.are_grouping books.old }
    ensures ok { IfOk result (λ told. by_outcome (step (B.state_in books.old) request.now)
        ≡ (B.state_in books.new, string_bytes told.text, told.fine)) }
    ensures cut { IfErr result (λ stop. CutRequest stop (B.state_in books.old)
        (B.state_in books.new) request.now) }
    ensures grouping { B.are_grouping books.new }
    ensures stays_open { StaysOpen (B.failure_of books.old) (B.failure_of books.new) result }
    ensures ends_open { EndsOpen (B.failure_of books.old) (B.failure_of books.new) result }
    ensures left { (trees : Trees) → B.may_leave books.new trees → B.may_leave books.old trees }
    ensures reasons { OnOk result (NotesOutcome place request.now
        (step (B.state_in books.old) request.now) (B.reasons_in books.old) (B.reasons_in books.new)) }
{
    match books.run_grouped(request) {
        Ok(answer) => {
            let _ = books.explain(&Why::NewName { place, request });
            Ok(Told {
                text: answer_text(alloc, &answer)?,
                fine: true,
            })
        }
        Err(Fault::Refused(refusal)) => {
            let _ = books.explain(&Why::Refused {
                place,
                request,
                refusal,
            });
            Ok(Told {
                text: refused_text(alloc, refusal)?,
                fine: false,
            })
        }
        Err(Fault::Memory) => Err(Stop::Memory),
        Err(Fault::Store | Fault::Closed) => Err(Stop::Store),
    }
}

/// Tells the report of that name as a line of JSON.
fn tell_report_as_line(alloc: Global, shop: &Shop, name: ReportName, of: u64) -> Result<Told, Stop>
    requires { IsSoundState (state_of shop.now) }
    ensures ok { IfOk result (λ told.
        by_report (state_of shop.now) (report_lines name of (state_of shop.now))
        ≡ (state_of shop.now, string_bytes told.text, told.fine)) }
    ensures memory { IfErr result (λ stop. stop ≡ Stop.Memory) }
{
    match report(alloc, shop, name, of) {
        Ok(report) => Ok(Told {
            text: report_text(alloc, &report)?,
            fine: true,
        }),
        Err(CoreFault::Refused(refusal)) => Ok(Told {
            text: refused_text(alloc, refusal)?,
            fine: false,
        }),
        Err(CoreFault::Memory) => Err(Stop::Memory),
    }
}

/// Tells the report of that name, of the shop that the books hold.
fn tell_of_books<B: Books>(
    alloc: Global,
    books: &B,
    name: ReportName,
    of: u64,
) -> Result<Told, Stop>
    requires { B.are_grouping books.now }
    ensures ok { IfOk result (λ told.
        by_report (B.state_in books.now) (report_lines name of (B.state_in books.now))
        ≡ (B.state_in books.now, string_bytes told.text, told.fine)) }
    ensures stop { IfErr result IsOfBooks }
    ensures open { result ≢ Err Stop.Store → B.failure_of books.now ≡ None }
    ensures closed { result ≡ Err Stop.Store → IsSome (B.failure_of books.now) }
{
    match books.shop() {
        Ok(shop) => tell_report_as_line(alloc, shop, name, of),
        Err(_) => Err(Stop::Store),
    }
}

/// Tells the report of that name, of the shop that the books hold, as the line of that number asks for it.
fn tell_report<B: Books>(
    alloc: Global,
    books: &mut B,
    line: u64,
    name: ReportName,
    of: u64,
) -> Result<Told, Stop>
    requires { B.are_grouping books.old }
    ensures ok { IfOk result (λ told.
        by_report (B.state_in books.old) (report_lines name of (B.state_in books.old))
        ≡ (B.state_in books.new, string_bytes told.text, told.fine)) }
    ensures stop { IfErr result IsOfBooks }
    ensures same { B.state_in books.new ≡ B.state_in books.old }
    ensures grouping { B.are_grouping books.new }
    ensures failure { B.failure_of books.new ≡ B.failure_of books.old }
    ensures left { (trees : Trees) → B.may_leave books.new trees → B.may_leave books.old trees }
    ensures open { result ≢ Err Stop.Store → B.failure_of books.old ≡ None }
    ensures closed { result ≡ Err Stop.Store → IsSome (B.failure_of books.old) }
    ensures reasons { OnOk result (NotesReport (B.state_in books.old) line name of
        (report_lines name of (B.state_in books.old)) (B.reasons_in books.old)
        (B.reasons_in books.new)) }
{
    let told = tell_of_books(alloc, books, name, of)?;
    if !told.fine {
        let _ = books.explain(&Why::NoReport { line, name, of });
    }
    Ok(told)
}

/// The shop whose rows a line may name: none where lines name no rows, and then nothing is asked of the books.
pub(crate) fn named_shop<B: Books>(books: &B, names: bool) -> Result<Option<&Shop>, Stop>
    requires { B.are_grouping books.now }
    ensures naming { IfOk result (λ named.
        option_map (λ shop. naming_in (state_of shop.now)) named
        ≡ naming names (B.state_in books.now)) }
    ensures store { IfErr result (λ stop. stop ≡ Stop.Store) }
    ensures closed { OnErr result (IsSome (B.failure_of books.now)) }
{
    if !names {
        return Ok(None);
    }
    let Ok(shop) = books.shop() else {
        return Err(Stop::Store);
    };
    Ok(Some(shop))
}

/// The request as it is to be done on the books: where the journal is kept and it has no key, it gets one. The shop is
/// borrowed anew, as `named_shop` did for the line's names: that borrow ended as the request was read.
fn journalled_in<B: Books>(
    alloc: Global,
    books: &B,
    journal: bool,
    request: Request,
) -> Result<Request, Stop>
    requires { B.are_grouping books.now }
    ensures given { IfOk result (λ given.
        given ≡ journalled journal (B.state_in books.now) request) }
    ensures stop { IfErr result IsOfBooks }
    ensures closed { result ≡ Err Stop.Store → IsSome (B.failure_of books.now) }
{
    match books.shop() {
        Ok(shop) => Ok(journalled(alloc, journal, shop, request)?),
        Err(_closed) => Err(Stop::Store),
    }
}

/// Runs one line of a group, which isn't blank, and tells what is answered. Names of rows are looked up as they are before
/// the line.
#[tactic(auto, unfolding(crate::specs::Runs::line_step))]
fn tell<B: Books>(
    alloc: Global,
    books: &mut B,
    number: u64,
    line: &[u8],
    options: LineOptions,
) -> Result<Told, Stop>
    requires filled { is_blank line.now ≡ false }
    requires grouping { B.are_grouping books.old }
    ensures ok { IfOk result (λ told. line_step options (B.state_in books.old) number line.now
        ≡ (B.state_in books.new, string_bytes told.text, told.fine)) }
    ensures cut { IfErr result (λ stop. CutLine options stop (B.state_in books.old)
        (B.state_in books.new) number line.now) }
    ensures grouping { B.are_grouping books.new }
    ensures stays_open { StaysOpen (B.failure_of books.old) (B.failure_of books.new) result }
    ensures was_open { B.failure_of books.new ≡ None → B.failure_of books.old ≡ None }
    ensures left { (trees : Trees) → B.may_leave books.new trees → B.may_leave books.old trees }
    ensures reasons { OnOk result (NotesLine options (B.state_in books.old) number line.now
        (B.reasons_in books.old) (B.reasons_in books.new)) }
{
    let named = named_shop(books, options.names)?;
    match read_line(alloc, named, line, number) {
        Ok(Wish::Request(request)) => {
            let request = journalled_in(alloc, books, options.journal, request)?;
            tell_outcome(alloc, books, Place::Line(number), &request)
        }
        Ok(Wish::Report { name, of }) => tell_report(alloc, books, number, name, of),
        Err(ReadError::Wrong(fault)) => {
            let _ = books.explain(&Why::FaultyLine {
                names: options.names,
                line,
                fault: &fault,
            });
            Ok(Told {
                text: fault_text(alloc, fault)?,
                fine: false,
            })
        }
        Err(ReadError::Memory) => Err(Stop::Memory),
    }
}

/// Runs one line of a group, of which as much is here as is held, and adds its answer to those that wait. True where
/// nothing was refused or faulty.
fn add_line<B: Books>(
    alloc: Global,
    books: &mut B,
    number: u64,
    line: &[u8],
    options: LineOptions,
    text: &mut Vec<u8>,
) -> Result<bool, Stop>
    requires short { length line.now ≤ 65537 }
    requires grouping { B.are_grouping books.old }
    ensures fine { IfOk result (λ fine.
        fine ≡ is_fine options (B.state_in books.old) number line.now) }
    ensures ok { OnOk result (B.state_in books.new
        ≡ line_after options (B.state_in books.old) number line.now) }
    ensures text { OnOk result (text.new.items ≡ text.old.items
        ++ line_out options (B.state_in books.old) number line.now) }
    ensures cut { IfErr result (λ stop. CutLine options stop (B.state_in books.old)
        (B.state_in books.new) number line.now) }
    ensures unanswered { OnErr result (text.new.items ≡ text.old.items) }
    ensures grouping { B.are_grouping books.new }
    ensures stays_open { StaysOpen (B.failure_of books.old) (B.failure_of books.new) result }
    ensures was_open { B.failure_of books.new ≡ None → B.failure_of books.old ≡ None }
    ensures left { (trees : Trees) → B.may_leave books.new trees → B.may_leave books.old trees }
    ensures quiet { is_blank line.now ≡ true
        → OnOk result (B.reasons_in books.new ≡ B.reasons_in books.old) }
    ensures reasons { is_blank line.now ≡ false
        → OnOk result (NotesLine options (B.state_in books.old) number line.now
        (B.reasons_in books.old) (B.reasons_in books.new)) }
{
    if is_blank(line) {
        return Ok(true);
    }
    let told = tell(alloc, books, number, line, options)?;
    text.extend_from_slice(told.text.as_bytes())?;
    Ok(told.fine)
}

/// Ends a group: what it changed is kept, and then its answers are written, all of them or, where the writer fails, a
/// front. Whatever tables a crash leaves, nothing was written, or they have what the group changed.
fn settle<B: Books, W: Write>(writer: &mut W, books: &mut B, text: &mut Vec<u8>) -> Result<(), Stop>
    requires { B.are_grouping books.old }
    ensures written { OnOk result (Appends (W.contents writer.old) (W.contents writer.new)
        text.old.items) }
    ensures none { OnOk result (text.new.items ≡ []) }
    ensures cut { IfErr result (λ stop. CutSettling stop (W.contents writer.old)
        (W.contents writer.new) text.old.items) }
    ensures kept { B.are_kept books.new }
    ensures same { B.state_in books.new ≡ B.state_in books.old }
    ensures stays_open { StaysOpen (B.failure_of books.old) (B.failure_of books.new) result }
    ensures ends_open { EndsOpen (B.failure_of books.old) (B.failure_of books.new) result }
    ensures left { (trees : Trees) → B.may_leave books.new trees
        → B.may_leave books.old trees ⊎ TablesAre (B.state_in books.new) trees }
    ensures answered { (trees : Trees) → B.may_leave books.new trees
        → Keeps (W.contents writer.old) (W.contents writer.new)
        ⊎ TablesAre (B.state_in books.new) trees }
{
    match books.commit() {
        Ok(()) => {}
        Err(_) => return Err(Stop::Store),
    }
    if text.len() == 0 {
        return Ok(());
    }
    send(writer, text.as_slice())?;
    text.clear();
    Ok(())
}

/// Ends the group where no further line was read whole, or where its answers are long.
fn settle_if_due<B: Books, W: Write>(
    lines: &Lines,
    writer: &mut W,
    books: &mut B,
    text: &mut Vec<u8>,
) -> Result<(), Stop>
    requires { B.are_grouping books.old }
    ensures ok { OnOk result (((books.new ≡ books.old)
        × (W.contents writer.new ≡ W.contents writer.old) × (text.new.items ≡ text.old.items))
        ⊎ (B.are_kept books.new × (B.state_in books.new ≡ B.state_in books.old)
        × (text.new.items ≡ []) × Appends (W.contents writer.old) (W.contents writer.new)
        text.old.items)) }
    ensures cut { IfErr result (λ stop. CutSettling stop (W.contents writer.old)
        (W.contents writer.new) text.old.items) }
    ensures kept { OnErr result (B.are_kept books.new) }
    ensures waits { has_end (unread lines.now) ≡ false → OnOk result (text.new.items ≡ []) }
    ensures bounded { OnOk result (length text.new.items < 65536) }
    ensures same { B.state_in books.new ≡ B.state_in books.old }
    ensures grouping { B.are_grouping books.new }
    ensures stays_open { StaysOpen (B.failure_of books.old) (B.failure_of books.new) result }
    ensures was_open { B.failure_of books.new ≡ None → B.failure_of books.old ≡ None }
    ensures open { IfErr result (λ stop.
        stop ≡ Stop.WriteFailed → B.failure_of books.new ≡ None) }
    ensures left { (trees : Trees) → B.may_leave books.new trees
        → B.may_leave books.old trees ⊎ TablesAre (B.state_in books.new) trees }
{
    if text.len() < ENOUGH && lines.has_line() {
        return Ok(());
    }
    settle(writer, books, text)
}

/// Runs each line of the reader, in groups, and ends all groups but the last, whose answers wait: true where nothing was
/// refused or faulty. With `stop` the first line that is refused or faulty is the last.
fn gather<B: Books, R: Read, W: Write>(
    alloc: Global,
    reader: &mut R,
    writer: &mut W,
    books: &mut B,
    options: RunOptions,
    text: &mut Vec<u8>,
) -> Result<bool, Stop>
    requires kept { B.are_kept books.old }
    requires none { text.old.items ≡ [] }
    ensures done { IfOk result (λ all. Gathered options (R.remaining reader.old)
        (W.contents writer.old) (W.contents writer.new) (B.state_in books.old)
        (B.state_in books.new) all text.new.items
        (λ trees. (B.failure_of books.old ≡ None) × B.may_leave books.new trees)) }
    ensures stopped { IfErr result (λ why. Halts options why (R.remaining reader.old)
        (W.contents writer.old) (W.contents writer.new) (B.state_in books.old)
        (B.state_in books.new) text.new.items
        (λ trees. (B.failure_of books.old ≡ None) × B.may_leave books.new trees)) }
    ensures grouping { B.are_grouping books.new }
    ensures kept { IfErr result (λ why. IsOfSettling why → B.are_kept books.new) }
    ensures stays_open { StaysOpen (B.failure_of books.old) (B.failure_of books.new) result }
    ensures was_open { B.failure_of books.new ≡ None → B.failure_of books.old ≡ None }
    ensures open { IfErr result (λ why.
        why ≡ Stop.WriteFailed → B.failure_of books.new ≡ None) }
{
    let mut lines = Lines::new(alloc)?;
    let mut line = Vec::new(alloc);
    let mut all = true;
    for number in 1..u64::MAX {
        settle_if_due(&lines, writer, books, text)?;
        if !lines.next_line(reader, &mut line)? {
            return Ok(all);
        }
        let fine = add_line(alloc, books, number, &line, options.lines, text)?;
        all = all && fine;
        if options.stop && !all {
            return Ok(false);
        }
    }
    Err(Stop::ReadFailed)
}

/// Answers each line of the reader: true where nothing was refused or faulty. With `stop` the first line that is
/// refused or faulty is the last.
fn answer_all<B: Books, R: Read, W: Write>(
    alloc: Global,
    reader: &mut R,
    writer: &mut W,
    books: &mut B,
    options: RunOptions,
) -> Result<bool, Stop>
    requires { B.are_kept books.old }
    ensures done { IfOk result (λ all. Finished options (R.remaining reader.old)
        (W.contents writer.old) (W.contents writer.new) (B.state_in books.old)
        (B.state_in books.new) all) }
    ensures stopped { IfErr result (λ why.
        Stopped options why (R.remaining reader.old) (W.contents writer.old)
        (W.contents writer.new) (B.state_in books.old) (B.state_in books.new)
        (λ trees. (B.failure_of books.old ≡ None) × B.may_leave books.new trees)) }
    ensures kept { B.are_kept books.new }
    ensures ends_open { EndsOpen (B.failure_of books.old) (B.failure_of books.new) result }
{
    let mut text = Vec::new(alloc);
    match gather(alloc, reader, writer, books, options, &mut text) {
        Ok(all) => {
            settle(writer, books, &mut text)?;
            Ok(all)
        }
        Err(Stop::ReadFailed) => {
            settle(writer, books, &mut text)?;
            Err(Stop::ReadFailed)
        }
        Err(Stop::Memory) => {
            settle(writer, books, &mut text)?;
            Err(Stop::Memory)
        }
        Err(Stop::WriteFailed) => Err(Stop::WriteFailed),
        Err(Stop::Store) => Err(Stop::Store),
    }
}

/// Answers each line of the reader, one line each but for blank lines. However the run ends, what was answered is kept
/// (`answered`): so it is where a run is stopped between two of its calls, since a writer may fail at any of them, and so
/// may a disk, and then the run ends there. With `names` a line may say what a row is called in the place of its number: a
/// name is looked up as the line comes, so it may be one that a line before it gave. With `journal` a request without a
/// key gets one. With `stop` the run ends behind the first line that is refused or faulty, whose answer is the last.
pub fn run_lines<B: Books, R: Read, W: Write>(
    alloc: Global,
    reader: &mut R,
    writer: &mut W,
    books: &mut B,
    options: RunOptions,
) -> RunEnd
    requires { B.are_kept books.old }
    ensures done { (all : Bool) → result ≡ RunEnd.Done all
        → Finished options (R.remaining reader.old) (W.contents writer.old)
        (W.contents writer.new) (B.state_in books.old) (B.state_in books.new) all }
    ensures stopped { (why : Stop) → result ≡ end_of why
        → Stopped options why (R.remaining reader.old) (W.contents writer.old)
        (W.contents writer.new) (B.state_in books.old) (B.state_in books.new)
        (λ trees. (B.failure_of books.old ≡ None) × B.may_leave books.new trees) }
    ensures kept { B.are_kept books.new }
    ensures in_order { AreInOrder (B.state_in books.new) }
    ensures open { result ≢ RunEnd.Store
        → (B.failure_of books.old ≡ None) × (B.failure_of books.new ≡ None) }
    ensures closed { result ≡ RunEnd.Store → IsSome (B.failure_of books.new) }
    ensures left { result ≢ RunEnd.Store → (trees : Trees) → B.may_leave books.new trees
        → TablesAre (B.state_in books.new) trees }
    ensures answered { AnsweredIsKept options (R.remaining reader.old) (W.contents writer.old)
        (W.contents writer.new) (B.state_in books.old)
        (λ trees. (B.failure_of books.old ≡ None) × B.may_leave books.new trees) }
{
    match answer_all(alloc, reader, writer, books, options) {
        Ok(all) => RunEnd::Done(all),
        Err(why) => why.end(),
    }
}

/// The law that lines change the books by the requests alone that they ask for, in their order: a blank line, a report and
/// a faulty line change nothing. Where no row may be named, what they ask for is the same in any state of the books.
pub fn lines_are_requests()
    ensures requests { LinesAreRequests }
    ensures alone { LinesAloneAsk }
{}
