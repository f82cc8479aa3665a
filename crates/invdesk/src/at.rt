//! A service on the loopback is asked.
ghost use Rattle.std.specs.Prelude.{◌≡◌, ◌⊎◌, ◌&&◌, not, IfErr};
ghost use Rattle.desk_http.specs.Asking.{is_done};
ghost use Rattle.invdesk.specs.Asks.{end_of_asking, question_of, AsksOnce, AsksService, IsAskedSo};
ghost use Rattle.invdesk.specs.Asks.{sent_as_they_come};

use crate::bytes::{all_of, bytes_at};
use crate::lines::{greet, lines_in};
use crate::pipe::{Output, end_of_print};
use crate::serve::token_to_show;
use crate::tell::{tell_line, told_columns};
use desk_app::{Asker, Trouble, ask_and_print, ask_lines};
use desk_cli::{Asked, AskedLines};
use desk_core::RunEnd;
use desk_http::{Access, Answer, LineWords, ListWords, Question, Unheard, ask_service};
use report_core::{cut_lines, escaped};
use std::alloc::{AllocError, Global};
use std::io::{self, IsTerminal, Write};
use std::net::{Ipv4Addr, TcpStream};

/// Whoever asks the service at a port of the loopback, which it shows a token, if there is one.
#[derive(Drop)]
struct Caller<'a> {
    rt: &'a HostRuntime,
    port: u16,
    access: Access,
}

impl Asker for Caller<'_> {
    ghost use Rattle.std.specs.Prelude.{None};

    ghost log = { λ _. None };

    fn ask(&mut self, question: Question<'_>, body: &[u8]) -> Result<Answer, Unheard> {
        let address = (Ipv4Addr::LOCALHOST, self.port);
        let stream = match TcpStream::connect(self.rt, address) {
            Ok(stream) => stream,
            Err(error) => {
                let port = self.port;
                tell_line(self.rt, format_args!("127.0.0.1:{port}: {error}"));
                return Err(Unheard::Failed);
            }
        };
        let (mut reader, mut writer) = (&stream, &stream);
        ask_service(
            self.rt.alloc(),
            &mut reader,
            &mut writer,
            &self.access,
            question,
            body,
        )
    }
}

/// What is asked, by the words.
fn question_of(asked: Asked<'_>) -> Question<'_>
    ensures { result ≡ question_of asked.entry }
{
    match asked {
        Asked::Lines(how) => Question::Lines(LineWords {
            stop: how.stop,
            check: how.check,
        }),
        Asked::Report(name, number) => Question::Report(name, number),
        Asked::Table(table) => Question::Export(table),
        Asked::Dump => Question::Dump,
        Asked::Show { list, of, words } => Question::Show(
            list,
            of,
            ListWords {
                csv: words.csv,
                only_open: words.only_open,
                low: words.low,
            },
        ),
        Asked::File {
            loose,
            kind,
            document,
            day,
            ..
        } => Question::Import(loose, kind, document, day),
        Asked::Stop => Question::Stop,
    }
}

/// What is sent with a question that isn't of lines as they come.
fn body_of(rt: &HostRuntime, asked: Asked<'_>) -> Result<Vec<u8>, Trouble>
    ensures { IfErr result (λ why. (why ≡ Trouble.ReadFailed) ⊎ (why ≡ Trouble.Memory)) }
{
    let read = match asked {
        Asked::Lines(_) => all_of(rt.alloc(), &mut lines_in(rt)),
        Asked::File { path, .. } => bytes_at(rt, path),
        _ => return Ok(Vec::new(rt.alloc())),
    };
    match read {
        Ok(bytes) => Ok(bytes),
        Err(RunEnd::Memory) => Err(Trouble::Memory),
        Err(_) => Err(Trouble::ReadFailed),
    }
}

/// The standard output where it is a terminal, on which no character that is shown may act, and which has so many columns, if
/// that is known.
#[derive(Drop)]
struct Terminal<W> {
    alloc: Global,
    most: Option<usize>,
    writer: W,
}

impl<W: Write> Terminal<W> {
    /// A line as it is told: escaped, and cut.
    fn told(&self, line: &str) -> Result<String, AllocError> {
        let told = escaped(self.alloc, line)?;
        match self.most {
            Some(most) => cut_lines(self.alloc, told.as_str(), most),
            None => Ok(told),
        }
    }
}

impl<W: Write> Write for Terminal<W> {
    /// Takes a whole text.
    fn write(&mut self, text: &[u8]) -> io::Result<usize> {
        let shown = String::from_utf8_lossy(self.alloc, text)?;
        for line in shown.lines() {
            let told = self.told(line)?;
            self.writer.write_all(told.as_str().as_bytes())?;
            self.writer.write_all(b"\n")?;
        }
        Ok(text.len())
    }

    fn flush(&mut self) -> io::Result<()> {
        self.writer.flush()
    }
}

/// Whether a list in columns is asked for.
fn is_in_columns(asked: Asked<'_>) -> bool {
    match asked {
        Asked::Show { words, .. } => !words.csv,
        _ => false,
    }
}

/// Tells of a list that isn't there which word says no row.
fn tell_no_row(rt: &HostRuntime, asked: Asked<'_>, fine: bool) {
    if let Asked::Show { of: Some(word), .. } = asked {
        if !fine {
            tell_line(rt, format_args!("{word}: it says no row, or several"));
        }
    }
}

/// Asks, and prints the list that is answered at a person's terminal.
fn ask_for_person(
    rt: &HostRuntime,
    caller: &mut Caller<'_>,
    question: Question<'_>,
    body: &[u8],
) -> Result<bool, Trouble>
    ensures { AsksOnce question.entry result }
{
    let (alloc, most, writer) = (rt.alloc(), told_columns(rt), io::writer(rt));
    let mut terminal = Terminal {
        alloc,
        most,
        writer,
    };
    ask_and_print(rt.alloc(), caller, question, body, &mut terminal)
}

/// Asks once, and prints what is answered.
#[tactic(auto, using(crate::proofs::Asking::asked_same))]
fn ask_once<W: Write>(
    rt: &HostRuntime,
    caller: &mut Caller<'_>,
    asked: Asked<'_>,
    output: &mut Output<W>,
) -> Result<bool, Trouble>
    ensures { AsksOnce (question_of asked.entry) result }
{
    let body = body_of(rt, asked)?;
    let bytes = body.as_slice();
    let question = question_of(asked);
    if is_in_columns(asked) && rt.stdout().is_terminal() {
        return ask_for_person(rt, caller, question, bytes);
    }
    ask_and_print(rt.alloc(), caller, question, bytes, output)
}

/// How lines are run that are sent as they come: those that aren't to be looked at before.
fn sent_as_they_come(asked: Asked<'_>) -> Option<AskedLines>
    ensures { result ≡ sent_as_they_come asked.entry }
{
    match asked {
        Asked::Lines(how) => {
            if how.check {
                return None;
            }
            Some(how)
        }
        _ => None,
    }
}

/// Asks as the words say, and prints what is answered.
#[tactic(auto, using(crate::proofs::Asking::asked_by))]
fn ask<W: Write>(
    rt: &HostRuntime,
    caller: &mut Caller<'_>,
    asked: Asked<'_>,
    output: &mut Output<W>,
) -> Result<bool, Trouble>
    ensures { IsAskedSo asked.entry result }
{
    match sent_as_they_come(asked) {
        Some(how) => {
            let port = caller.port;
            greet(rt, format_args!("127.0.0.1:{port} runs them."));
            ask_lines(rt.alloc(), &mut lines_in(rt), output, caller, how.stop)
        }
        None => ask_once(rt, caller, asked, output),
    }
}

/// What is told of a trouble, unless the status tells all of it.
fn trouble_text(why: Trouble) -> Option<&'static str> {
    match why {
        Trouble::Foreign => Some("what answers there isn't 'invdesk serve --page'"),
        Trouble::Cut => Some("the connection broke before the whole answer came"),
        Trouble::Failed => Some("the service isn't there, or the connection broke"),
        Trouble::NoToken => Some("the service asks for a token, or for another: --token FILE"),
        Trouble::TooLong => Some(
            "a service takes 1048576 bytes at once, behind a head of 8192, and this is more",
        ),
        Trouble::Store => Some("the file of the service failed"),
        Trouble::ReadFailed | Trouble::WriteFailed | Trouble::Memory => None,
    }
}

/// How the program ends, by what was asked. A trouble is told.
fn end_of_asking(rt: &HostRuntime, port: u16, heard: Result<bool, Trouble>) -> RunEnd
    ensures { result ≡ end_of_asking heard }
{
    let why = match heard {
        Ok(fine) => return RunEnd::Done(fine),
        Err(why) => why,
    };
    if let Some(text) = trouble_text(why) {
        tell_line(rt, format_args!("127.0.0.1:{port}: {text}"));
    }
    match why {
        Trouble::Memory => RunEnd::Memory,
        Trouble::Store => RunEnd::Store,
        Trouble::WriteFailed => RunEnd::WriteFailed,
        _ => RunEnd::ReadFailed,
    }
}

/// Whether what is asked for ends well though it isn't printed whole: it is only read, and whoever reads it has gone.
fn ends_unread(asked: Asked<'_>, is_left: bool) -> bool
    ensures { result ≡ (is_left && not (is_done (question_of asked.entry))) }
{
    is_left && !question_of(asked).is_done()
}

/// Asks the service at that port as the words say, and prints what it answers. The token, if one is shown, stands in the file
/// at the path.
#[tactic(auto, using(crate::proofs::Asking::never_asked, crate::proofs::Asking::asked_so))]
pub fn ask_at(rt: &HostRuntime, port: u16, token: Option<&str>, asked: Asked<'_>) -> RunEnd
    ensures { AsksService asked.entry result }
{
    let token = match token_to_show(rt, token) {
        Ok(token) => token,
        Err(end) => return end,
    };
    let Ok(access) = Access::new(rt.alloc(), port, token) else {
        return RunEnd::Memory;
    };
    let mut caller = Caller { rt, port, access };
    let mut output = Output::new(io::writer(rt));
    let heard = ask(rt, &mut caller, asked, &mut output);
    if let Ok(fine) = heard {
        tell_no_row(rt, asked, fine);
    }
    let end = end_of_asking(rt, port, heard);
    end_of_print(end, ends_unread(asked, output.is_left))
}
