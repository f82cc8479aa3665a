//! The service that requests are handed to.
ghost use Rattle.std.specs.Prelude.{◌≡◌, ℕ, Bool, List, Option, Some, None, true, IfOk, IfErr, OnErr, OnOk};
ghost use Rattle.std.specs.Io.KnownBytes.{Appends};
ghost use Rattle.desk_http.specs.Targets.{is_document, some_text};
ghost use Rattle.desk_http.specs.Services.{Machine, Operation, RunLine, ImportFile, ShowReport};
ghost use Rattle.desk_http.specs.Services.{ShowTable, ShowBooks, ShowHistory, ImportSheet};
ghost use Rattle.desk_http.specs.Services.{ShowList, RunLines, ShowDump, StopService};
ghost use Rattle.desk_http.specs.Serving.{AppendsFront};
ghost use Rattle.desk_http.specs.Services.{IsReading, Stops, reply_view, step, tag_text, why_none};

use crate::query::{LineWords, ListWords};
use crate::target::{ImportKind, ReportName};
use std::alloc::Global;
use std::io::Write;
use word_core::Day;

/// What tells the books of a service from what they were, and will be: when the service began, in nanoseconds since 1970,
/// and how many requests it has accepted since.
#[derive(Clone, Copy, Debug)]
pub struct Tag {
    pub began: u64,
    pub accepted: u64,
}

/// Of what kind a reply is.
#[derive(Clone, Copy, Debug)]
pub enum Outcome {
    /// A line was run: 200, as JSON.
    Answered,
    /// Nothing was done, and the reply says why: 409, as JSON.
    Refused,
    /// The body isn't what it has to be: 400, as JSON.
    Faulty,
    /// A report, or the report of an import: 200, as plain text.
    Reported,
    /// A table: 200, as CSV.
    Exported,
    /// What the books hold: 200, as JSON, with the tag of it, where there is one.
    Shown(Option<Tag>),
    /// The books are still those of this tag: 304, and no body is told.
    Unchanged(Tag),
    /// There is no table, no command or no list of the name: 404, and no body is told.
    Unknown,
    /// Lines of the body aren't what they have to be: 400, as plain text, a line for each.
    FaultyLines,
    /// Lines were run: 200, as lines of JSON.
    AnsweredLines,
    /// All tables: 200, as SQL.
    Dumped,
}

/// What the service replies, the LF at its end too.
#[derive(Drop)]
pub struct Reply {
    pub outcome: Outcome,
    pub body: Vec<u8>,
}

/// Why an operation failed.
#[derive(Clone, Copy, Debug)]
pub enum Failure {
    /// The database failed, or has been closed: 500.
    Store,
    /// There was no memory for the operation: 503.
    Memory,
}

/// Why there is no reply.
#[derive(Clone, Copy, Debug)]
pub enum NoReply {
    Failed(Failure),
    /// There was no memory to read the body, or to tell the reply: nothing is answered.
    Untold,
}

/// A text was not written whole: the writer failed, or a growth was refused.
#[derive(Clone, Copy, Debug)]
pub struct CutShort;

/// A service that runs lines, takes files in, shows reports and lists, and tells a page what the books hold, until it is
/// over.
///
/// It is a state, and a machine on states that says of each operation what it does to the state and what is replied.
pub trait Service {
    ghost use Rattle.desk_http.specs.declared.service.Failure.{Failure};
    ghost use Rattle.desk_http.specs.declared.service.NoReply.{NoReply};

    // what the service is a state of
    ghost State: { Type 0 };

    ghost state: { Self → State };

    ghost machine: { Machine State };

    // what a failure leaves of a state
    ghost left: { Failure → State → Operation → State → Type 0 };

    // what holds of the service before a call and after it
    ghost is_kept: { Self → Type 0 };

    // whether it takes no further request
    ghost over: { Self → Bool };

    // what is to be said besides of the service before an operation and after it, and why there was no reply, if so
    ghost relates: { Self → Operation → Option NoReply → Self → Type 0 };

    /// Runs one line.
    fn run(&mut self, alloc: Global, line: &[u8]) -> Result<Reply, NoReply>
        requires { is_kept self.old }
        ensures kept { is_kept self.new }
        ensures ok { IfOk result (λ reply. (state self.new, reply_view reply)
            ≡ step machine (state self.old) (RunLine line.now)) }
        ensures err { IfErr result (λ e. Stops machine left e (state self.old)
            (RunLine line.now) (state self.new)) }
        ensures relates { relates self.old (RunLine line.now) (why_none result) self.new };

    /// Takes the rows of a file in, as those of a document on a day. Where `loose` is true, its columns are taken by their
    /// names.
    fn import(
        &mut self,
        alloc: Global,
        loose: bool,
        kind: ImportKind,
        document: &str,
        day: Day,
        rows: &[u8],
    ) -> Result<Reply, NoReply>
        requires kept { is_kept self.old }
        requires document { is_document document.now ≡ true }
        ensures kept { is_kept self.new }
        ensures ok { IfOk result (λ reply. (state self.new, reply_view reply)
            ≡ step machine (state self.old) (ImportFile loose kind document.now day rows.now)) }
        ensures err { IfErr result (λ e. Stops machine left e (state self.old)
            (ImportFile loose kind document.now day rows.now) (state self.new)) }
        ensures relates { relates self.old (ImportFile loose kind document.now day rows.now)
            (why_none result) self.new };

    /// Shows a report of the number.
    fn report(&self, alloc: Global, name: ReportName, number: u64) -> Result<Reply, NoReply>
        requires { is_kept self.now }
        ensures ok { IfOk result (λ reply. (state self.now, reply_view reply)
            ≡ step machine (state self.now) (ShowReport name number)) }
        ensures relates { relates self.now (ShowReport name number) (why_none result) self.now };

    /// The tag of the books as they are, where they can be told from what they were. It tells, too, that they may be shown.
    fn tag(&self) -> Result<Option<Tag>, NoReply>
        requires { is_kept self.now }
        ensures ok { IfOk result (λ tag. tag ≡ machine.tag (state self.now)) }
        ensures relates { (known : Option (List ℕ))
            → relates self.now (ShowBooks known) (why_none result) self.now };

    /// Exports the table of a name, or replies that it is unknown.
    fn export(&self, alloc: Global, table: &[u8]) -> Result<Reply, NoReply>
        requires { is_kept self.now }
        ensures ok { IfOk result (λ reply. (state self.now, reply_view reply)
            ≡ step machine (state self.now) (ShowTable table.now)) }
        ensures relates { relates self.now (ShowTable table.now) (why_none result) self.now };

    /// Shows the books whole.
    fn books(&self, alloc: Global) -> Result<Reply, NoReply>
        requires { is_kept self.now }
        ensures ok { IfOk result (λ reply. (state self.now, reply_view reply)
            ≡ step machine (state self.now) (ShowBooks None)) }
        ensures relates { (known : Option (List ℕ))
            → relates self.now (ShowBooks known) (why_none result) self.now };

    /// Shows entries of the history, from a number on.
    fn history(&self, alloc: Global, from: u64) -> Result<Reply, NoReply>
        requires { is_kept self.now }
        ensures ok { IfOk result (λ reply. (state self.now, reply_view reply)
            ≡ step machine (state self.now) (ShowHistory from)) }
        ensures relates { relates self.now (ShowHistory from) (why_none result) self.now };

    /// Takes a file of the command of a name in, as that of a document on a day, or replies that the command is unknown.
    fn import_sheet(
        &mut self,
        alloc: Global,
        command: &str,
        document: &str,
        day: Day,
        file: &[u8],
    ) -> Result<Reply, NoReply>
        requires kept { is_kept self.old }
        requires document { is_document document.now ≡ true }
        ensures kept { is_kept self.new }
        ensures ok { IfOk result (λ reply. (state self.new, reply_view reply)
            ≡ step machine (state self.old) (ImportSheet command.now document.now day file.now)) }
        ensures err { IfErr result (λ e. Stops machine left e (state self.old)
            (ImportSheet command.now document.now day file.now) (state self.new)) }
        ensures relates { relates self.old (ImportSheet command.now document.now day file.now)
            (why_none result) self.new };

    /// Shows the list of a name, of what a word says if there is one; or replies that there is no such list, or that the
    /// word says nothing.
    fn show(
        &self,
        alloc: Global,
        list: &str,
        word: Option<&str>,
        said: ListWords,
    ) -> Result<Reply, NoReply>
        requires { is_kept self.now }
        ensures ok { IfOk result (λ reply. (state self.now, reply_view reply)
            ≡ step machine (state self.now) (ShowList list.now (some_text word.entry) said)) }
        ensures relates { relates self.now (ShowList list.now (some_text word.entry) said)
            (why_none result) self.now };

    /// Runs the lines of a text, of which one that is refused or faulty keeps none of the others from being run, unless it
    /// is said so.
    fn run_lines(&mut self, alloc: Global, said: LineWords, text: &[u8]) -> Result<Reply, NoReply>
        requires { is_kept self.old }
        ensures kept { is_kept self.new }
        ensures ok { IfOk result (λ reply. (state self.new, reply_view reply)
            ≡ step machine (state self.old) (RunLines said text.now)) }
        ensures err { IfErr result (λ e. Stops machine left e (state self.old)
            (RunLines said text.now) (state self.new)) }
        ensures relates { relates self.old (RunLines said text.now) (why_none result) self.new };

    /// Whether all tables may be dumped: else why they can't be.
    fn may_dump(&self) -> Result<(), NoReply>
        requires { is_kept self.now }
        ensures { relates self.now ShowDump (why_none result) self.now };

    /// Writes all tables as SQL, as one that may be dumped does: else a front of that text is written. It is not flushed.
    fn dump<W: Write>(&self, alloc: Global, writer: &mut W) -> Result<(), CutShort>
        requires { is_kept self.now }
        ensures whole { OnOk result (Appends (W.contents writer.old) (W.contents writer.new)
            (machine.show_dump (state self.now))) }
        ensures front { OnErr result (AppendsFront (W.contents writer.old)
            (W.contents writer.new) (machine.show_dump (state self.now))) };

    /// Stops: once that is replied it is over.
    fn stop(&mut self, alloc: Global) -> Result<Reply, NoReply>
        requires { is_kept self.old }
        ensures kept { is_kept self.new }
        ensures ok { IfOk result (λ reply. (state self.new, reply_view reply)
            ≡ step machine (state self.old) StopService) }
        ensures err { IfErr result (λ e. Stops machine left e (state self.old)
            StopService (state self.new)) }
        ensures over { OnOk result (over self.new ≡ true) }
        ensures relates { relates self.old StopService (why_none result) self.new };

    /// Whether it takes no further request.
    fn is_over(&self) -> bool
        requires { is_kept self.now }
        ensures { result ≡ over self.now };
}

/// What only reads leaves a service in the state that it was in, whether it is replied to or not.
pub fn readings_change_nothing<S: Service>()
    ensures replied { (s : S.State) (o : Operation) → IsReading o
        → (step S.machine s o).0 ≡ s }
    ensures stopped { (why : NoReply) (s s' : S.State) (o : Operation) → IsReading o
        → Stops S.machine S.left why s o s' → s' ≡ s }
{}

/// Whoever asks for the books is told that they haven't changed only where their tag is the one that is known.
pub fn unchanged_books_are_known<S: Service>()
    ensures { (s : S.State) (known : Option (List ℕ)) (tag : Tag) (body : List ℕ)
        → (step S.machine s (ShowBooks known)).1 ≡ (Outcome.Unchanged tag, body)
        → (known ≡ Some (tag_text tag)) × (S.machine.tag s ≡ Some tag) }
{}
