//! A service for tests. It shows, too, that what the trait asks can be met.
ghost use Rattle.std.specs.Prelude.{◌≡◌, ◌++◌, [], ◌∷◌, IfOk, OnErr, OnOk, if◌then◌else◌, false, replicate};
ghost use Rattle.std.specs.Prelude.{string_bytes};
ghost use Rattle.std.specs.Io.KnownBytes.{Appends};
ghost use Rattle.http_tests.specs.Counting.{list_outcome, list_said, low_or};
ghost use Rattle.http_tests.specs.Counting.{number_line, more, table_said, total_tag, word_said};
ghost use Rattle.desk_http.specs.Services.{reply_view, stopped_reply};
ghost use Rattle.desk_http.specs.Serving.{AppendsFront};
ghost use Rattle.desk_http.specs.Targets.{some_text};

use desk_http::{
    CutShort, Failure, ImportKind, LineWords, ListWords, NoReply, Outcome, Reply, ReportName,
    Service, Tag,
};
use std::alloc::{AllocError, Global};
use std::io::Write;
use word_core::Day;

/// What is dumped.
pub const DUMP: &str = "BEGIN;\nCOMMIT;\n";

/// Counts the bytes of lines and files. Some words as a line are replied to in other ways: `faulty`, `store`, `memory`
/// and `untold`. Where 6 are counted, it has failed, and shows nothing more.
#[derive(Drop)]
pub struct Counting {
    pub total: u64,
    pub stopped: bool,
}

impl Counting {
    /// So many are counted.
    pub fn new(total: u64) -> Self
        ensures total { result.total ≡ total }
        ensures goes_on { result.stopped ≡ false }
    {
        Counting {
            total,
            stopped: false,
        }
    }
}

fn number_text(alloc: Global, number: u64) -> Result<String, AllocError>
    ensures { IfOk result (λ text. string_bytes text ≡ number_line number) }
{
    format!(in alloc; "{number}\n")
}

/// What is replied with a number as its body.
fn number_reply(alloc: Global, outcome: Outcome, number: u64) -> Result<Reply, NoReply>
    ensures { IfOk result (λ reply. reply_view reply ≡ (outcome, number_line number)) }
{
    match number_text(alloc, number) {
        Ok(text) => Ok(Reply {
            outcome,
            body: text.into_bytes(),
        }),
        Err(_) => Err(NoReply::Untold),
    }
}

fn document_text(alloc: Global, document: &str) -> Result<String, AllocError>
    ensures { IfOk result (λ text. string_bytes text ≡ document.now ++ 10 ∷ []) }
{
    format!(in alloc; "{document}\n")
}

/// The text of a document that is taken loosely or not.
fn taken_text(alloc: Global, document: &str, loose: bool) -> Result<String, AllocError>
    ensures { IfOk result (λ text. string_bytes text
        ≡ document.now ++ (if loose then 126 ∷ 10 ∷ [] else 10 ∷ [])) }
{
    if loose {
        return format!(in alloc; "{document}~\n");
    }
    document_text(alloc, document)
}

fn total_tag(total: u64) -> Option<Tag>
    ensures { result ≡ total_tag total }
{
    if total == 7 {
        None
    } else {
        Some(Tag {
            began: 5,
            accepted: total,
        })
    }
}

/// So many bytes.
fn many(alloc: Global, count: u64) -> Result<Vec<u8>, AllocError>
    ensures { IfOk result (λ bytes. bytes.items ≡ replicate count 97) }
{
    Vec::from_elem(alloc, b'a', count as usize)
}

fn table_reply(alloc: Global, total: u64, table: &[u8]) -> Result<Reply, NoReply>
    ensures { IfOk result (λ reply. reply_view reply ≡ table_said total table.now) }
{
    if table == b"parts".as_slice() {
        number_reply(alloc, Outcome::Exported, total)
    } else if table == b"items".as_slice() {
        match many(alloc, total) {
            Ok(body) => Ok(Reply {
                outcome: Outcome::Exported,
                body,
            }),
            Err(_) => Err(NoReply::Untold),
        }
    } else {
        Ok(Reply {
            outcome: Outcome::Unknown,
            body: Vec::new(alloc),
        })
    }
}

fn list_outcome(said: ListWords) -> Outcome
    ensures { result ≡ list_outcome said }
{
    if said.csv {
        Outcome::Exported
    } else {
        Outcome::Reported
    }
}

fn low_or(total: u64, low: Option<u64>) -> u64
    ensures { result ≡ low_or total low }
{
    match low {
        Some(low) => low,
        None => total,
    }
}

fn word_reply(alloc: Global, word: Option<&str>, said: ListWords) -> Result<Reply, NoReply>
    ensures { IfOk result (λ reply. reply_view reply ≡ word_said (some_text word.entry) said) }
{
    let Some(word) = word else {
        return Ok(Reply {
            outcome: Outcome::Unknown,
            body: Vec::new(alloc),
        });
    };
    match document_text(alloc, word) {
        Ok(text) => Ok(Reply {
            outcome: list_outcome(said),
            body: text.into_bytes(),
        }),
        Err(_) => Err(NoReply::Untold),
    }
}

fn list_reply(
    alloc: Global,
    total: u64,
    list: &str,
    word: Option<&str>,
    said: ListWords,
) -> Result<Reply, NoReply>
    ensures { IfOk result (λ reply. reply_view reply
        ≡ list_said total list.now (some_text word.entry) said) }
{
    if said.only_open {
        return number_reply(alloc, Outcome::Refused, total);
    }
    if list == "stock" {
        return number_reply(alloc, list_outcome(said), low_or(total, said.low));
    }
    word_reply(alloc, word, said)
}

fn stopped_text(alloc: Global) -> Result<String, AllocError>
    ensures { IfOk result (λ text. string_bytes text ≡ stopped_reply.1) }
{
    format!(in alloc; "{{\"stopped\":true}}\n")
}

/// Writes all the bytes; else a front of them.
fn write_text<W: Write>(writer: &mut W, text: &[u8]) -> Result<(), CutShort>
    ensures whole { OnOk result (Appends (W.contents writer.old) (W.contents writer.new) text.now) }
    ensures front { OnErr result
        (AppendsFront (W.contents writer.old) (W.contents writer.new) text.now) }
{
    let mut at = 0;
    while at < text.len() {
        match writer.write(&text[at..]) {
            Ok(0) => return Err(CutShort),
            Ok(n) => at += n,
            Err(_) => return Err(CutShort),
        }
    }
    Ok(())
}

fn more(total: u64, body: &[u8]) -> u64
    ensures { result ≡ more total body.now }
{
    (total % 65536 + body.len() as u64 % 65536) % 65536
}

impl Service for Counting {
    ghost use Rattle.std.specs.Prelude.{ℕ};
    ghost use Rattle.http_tests.specs.Counting.{counting, nothing_counted};

    ghost State = { ℕ };

    ghost state = { λ service. service.total };

    ghost machine = { counting };

    ghost left = { nothing_counted };

    ghost is_kept = { λ _. Unit {0} };

    ghost over = { λ service. service.stopped };

    ghost relates = { λ _ _ _ _. Unit {0} };

    fn run(&mut self, alloc: Global, line: &[u8]) -> Result<Reply, NoReply> {
        if line == b"store".as_slice() {
            return Err(NoReply::Failed(Failure::Store));
        }
        if line == b"memory".as_slice() {
            return Err(NoReply::Failed(Failure::Memory));
        }
        if line == b"untold".as_slice() {
            return Err(NoReply::Untold);
        }
        let (outcome, total) = if line.is_empty() {
            (Outcome::Refused, self.total)
        } else if line == b"faulty".as_slice() {
            (Outcome::Faulty, self.total)
        } else {
            (Outcome::Answered, more(self.total, line))
        };
        match number_reply(alloc, outcome, total) {
            Ok(reply) => {
                self.total = total;
                Ok(reply)
            }
            Err(why) => Err(why),
        }
    }

    fn import(
        &mut self,
        alloc: Global,
        loose: bool,
        _kind: ImportKind,
        document: &str,
        _day: Day,
        rows: &[u8],
    ) -> Result<Reply, NoReply> {
        if rows == b"faulty".as_slice() {
            return number_reply(alloc, Outcome::Faulty, self.total);
        }
        match taken_text(alloc, document, loose) {
            Ok(text) => {
                self.total = more(self.total, rows);
                Ok(Reply {
                    outcome: Outcome::Reported,
                    body: text.into_bytes(),
                })
            }
            Err(_) => Err(NoReply::Untold),
        }
    }

    fn report(&self, alloc: Global, _name: ReportName, number: u64) -> Result<Reply, NoReply> {
        if number == 9 {
            return Ok(Reply {
                outcome: Outcome::Reported,
                body: Vec::new(alloc),
            });
        }
        let outcome = if number == 0 {
            Outcome::Refused
        } else {
            Outcome::Reported
        };
        number_reply(alloc, outcome, number)
    }

    fn tag(&self) -> Result<Option<Tag>, NoReply> {
        if self.total == 6 {
            return Err(NoReply::Failed(Failure::Store));
        }
        Ok(total_tag(self.total))
    }

    fn export(&self, alloc: Global, table: &[u8]) -> Result<Reply, NoReply> {
        if self.total == 6 {
            return Err(NoReply::Failed(Failure::Store));
        }
        table_reply(alloc, self.total, table)
    }

    fn books(&self, alloc: Global) -> Result<Reply, NoReply> {
        if self.total == 6 {
            return Err(NoReply::Failed(Failure::Store));
        }
        number_reply(alloc, Outcome::Shown(total_tag(self.total)), self.total)
    }

    fn history(&self, alloc: Global, from: u64) -> Result<Reply, NoReply> {
        number_reply(alloc, Outcome::Shown(None), from)
    }

    fn import_sheet(
        &mut self,
        alloc: Global,
        command: &str,
        document: &str,
        _day: Day,
        file: &[u8],
    ) -> Result<Reply, NoReply> {
        if command == "add_part" {
            if file == b"faulty".as_slice() {
                return number_reply(alloc, Outcome::FaultyLines, self.total);
            }
            match document_text(alloc, document) {
                Ok(text) => {
                    self.total = more(self.total, file);
                    Ok(Reply {
                        outcome: Outcome::Reported,
                        body: text.into_bytes(),
                    })
                }
                Err(_) => Err(NoReply::Untold),
            }
        } else {
            Ok(Reply {
                outcome: Outcome::Unknown,
                body: Vec::new(alloc),
            })
        }
    }

    fn show(
        &self,
        alloc: Global,
        list: &str,
        word: Option<&str>,
        said: ListWords,
    ) -> Result<Reply, NoReply> {
        if self.total == 6 {
            return Err(NoReply::Failed(Failure::Store));
        }
        list_reply(alloc, self.total, list, word, said)
    }

    fn run_lines(&mut self, alloc: Global, said: LineWords, text: &[u8]) -> Result<Reply, NoReply> {
        if text == b"store".as_slice() {
            return Err(NoReply::Failed(Failure::Store));
        }
        if said.check && text == b"faulty".as_slice() {
            return number_reply(alloc, Outcome::FaultyLines, self.total);
        }
        let total = more(self.total, text);
        let told = if said.stop { 0 } else { total };
        match number_reply(alloc, Outcome::AnsweredLines, told) {
            Ok(reply) => {
                self.total = total;
                Ok(reply)
            }
            Err(why) => Err(why),
        }
    }

    fn may_dump(&self) -> Result<(), NoReply> {
        if self.total == 6 {
            return Err(NoReply::Failed(Failure::Store));
        }
        Ok(())
    }

    fn dump<W: Write>(&self, _alloc: Global, writer: &mut W) -> Result<(), CutShort> {
        write_text(writer, DUMP.as_bytes())
    }

    fn stop(&mut self, alloc: Global) -> Result<Reply, NoReply> {
        match stopped_text(alloc) {
            Ok(text) => {
                self.stopped = true;
                Ok(Reply {
                    outcome: Outcome::Answered,
                    body: text.into_bytes(),
                })
            }
            Err(_) => Err(NoReply::Untold),
        }
    }

    fn is_over(&self) -> bool {
        self.stopped
    }
}
