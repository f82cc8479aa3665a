//! What is printed of what a service answers, and whether all of it is fine.
ghost use Rattle.std.specs.Prelude.{◌≡◌, ◌≢◌, ◌≤◌, ◌<◌, ◌++◌, ◌∷◌, [], length, drop, IfOk, IfSome, OnOk, Err};
ghost use Rattle.std.specs.Prelude.{option_map};
ghost use Rattle.std.specs.String.{string_bytes};
ghost use Rattle.desk_http.specs.Targets.{place_in};
ghost use Rattle.desk_app.specs.Heard.{are_fine, behind_last, is_fine, is_wrong, moved};
ghost use Rattle.desk_app.specs.Heard.{moved_lines, of_answered, of_faulty, of_refused, of_status};
ghost use Rattle.desk_app.specs.Heard.{of_unheard, raised, shown_of, shown_view, whole_dump};
ghost use Rattle.desk_app.specs.Heard.{with_end, with_raised};
ghost use Rattle.desk_app.specs.Runs.{lines_of};

use crate::checked::first_line;
use desk_http::{Answer, Question, Unheard, read_number};
use std::alloc::{AllocError, AllocFailed, Global};

/// Why a service did nothing, or what it did isn't known.
#[derive(Clone, Copy, Debug, PartialEq, Eq)]
pub enum Trouble {
    /// What answers is no service with a page.
    Foreign,
    /// The connection ended before the answer did.
    Cut,
    /// Nobody listens, or the connection failed.
    Failed,
    /// It asks for a token, or for another.
    NoToken,
    /// More is sent than it takes at once.
    TooLong,
    /// What is sent can't be read.
    ReadFailed,
    /// What is answered can't be printed.
    WriteFailed,
    /// Its file failed.
    Store,
    /// A growth was refused, here or there.
    Memory,
}

impl From<AllocError> for Trouble {
    ghost use Rattle.std.specs.Prelude.{◌≡◌};
    ghost use Rattle.desk_app.specs.declared.heard.Trouble.TheVariants.{Memory};

    ghost from_gives = { λ _ why. why ≡ Memory };

    fn from(_: AllocError) -> Self {
        Trouble::Memory
    }
}

impl<T: Drop> From<AllocFailed<T>> for Trouble {
    ghost use Rattle.std.specs.Prelude.{◌≡◌};
    ghost use Rattle.desk_app.specs.declared.heard.Trouble.TheVariants.{Memory};

    ghost from_gives = { λ _ why. why ≡ Memory };

    fn from(_: AllocFailed<T>) -> Self {
        Trouble::Memory
    }
}

/// What is printed, and whether nothing of it was refused or faulty.
#[derive(Debug, Drop)]
pub struct Shown {
    pub text: Vec<u8>,
    pub fine: bool,
}

/// Where the first such byte stands.
#[tactic(auto, unfolding(desk_http::specs::Targets::place_in))]
fn place_of(byte: u8, bytes: &[u8]) -> Option<usize>
    ensures at { result ≡ place_in byte bytes.now }
    ensures within { IfSome result (λ i. i < length bytes.now) }
{
    for (i, b) in bytes.iter().enumerate() {
        if *b == byte {
            return Some(i);
        }
    }
    None
}

fn is_wrong(answer: &[u8]) -> bool
    ensures { result ≡ is_wrong answer.now }
{
    answer.starts_with(b"{\"refused\":") || answer.starts_with(b"{\"fault\":")
}

/// Whether nothing was refused or faulty, by what a line is answered, or by what is reported of a row.
#[tactic(auto, unfolding(crate::specs::Heard::is_fine))]
fn is_fine(line: &[u8]) -> bool
    ensures { result ≡ is_fine line.now }
{
    match place_of(b'\t', line) {
        Some(i) => !is_wrong(&line[i + 1..]),
        None => !is_wrong(line),
    }
}

/// Where the number begins that a line ends with: behind the last colon.
#[tactic(auto, unfolding(crate::specs::Heard::behind_last))]
fn end_of_line(line: &[u8]) -> usize
    ensures within { result ≤ length line.now }
    ensures behind { drop result line.now ≡ behind_last 58 line.now line.now }
{
    let mut last = 0;
    for (i, b) in line.iter().enumerate() {
        if *b == b':' {
            last = i + 1;
        }
    }
    last
}

/// The number with so many more and a brace, if it can be told.
fn number_text(alloc: Global, number: u64, before: u64) -> Result<Option<String>, AllocError>
    ensures { IfOk result (λ text. option_map string_bytes text ≡ raised number before) }
{
    let Some(moved) = number.checked_add(before) else {
        return Ok(None);
    };
    let mut text = String::new(alloc);
    write!(text, "{moved}}}")?;
    Ok(Some(text))
}

/// Adds a line whose end begins there, which tells the number, with so much more as its number.
fn push_raised(
    alloc: Global,
    text: &mut Vec<u8>,
    before: u64,
    line: &[u8],
    end: usize,
    number: u64,
) -> Result<(), AllocError>
    requires { end ≤ length line.now }
    ensures { OnOk result (text.new.items ≡ text.old.items
        ++ with_raised line.now (drop end line.now) (raised number before)) }
{
    match number_text(alloc, number, before)? {
        Some(raised) => {
            text.extend_from_slice(&line[..end])?;
            text.extend_from_slice(raised.as_str().as_bytes())
        }
        None => text.extend_from_slice(line),
    }
}

/// Adds a line that tells a fault, with so much more as the number at its end.
fn push_fault(alloc: Global, text: &mut Vec<u8>, before: u64, line: &[u8]) -> Result<(), AllocError>
    ensures { OnOk result (text.new.items ≡ text.old.items
        ++ with_end before line.now (behind_last 58 line.now line.now)) }
{
    let end = end_of_line(line);
    let behind = &line[end..];
    match read_number(&behind[..behind.len().saturating_sub(1)]) {
        Some(number) => push_raised(alloc, text, before, line, end, number),
        None => text.extend_from_slice(line),
    }
}

/// Adds a line as it is told where so many lines stand before those that were sent.
#[tactic(auto, unfolding(crate::specs::Heard::moved))]
fn push_moved(alloc: Global, text: &mut Vec<u8>, before: u64, line: &[u8]) -> Result<(), AllocError>
    ensures { OnOk result (text.new.items ≡ text.old.items ++ moved before line.now) }
{
    if before != 0 && line.starts_with(b"{\"fault\":") {
        push_fault(alloc, text, before, line)
    } else {
        text.extend_from_slice(line)
    }
}

/// Adds a line and its LF, as it is told where so many lines stand before those that were sent.
fn push_line(alloc: Global, text: &mut Vec<u8>, before: u64, line: &[u8]) -> Result<(), AllocError>
    ensures { OnOk result (text.new.items ≡ text.old.items ++ moved before line.now ++ 10 ∷ []) }
{
    push_moved(alloc, text, before, line)?;
    text.push(b'\n')?;
    Ok(())
}

/// What is told of lines that were answered so, and whether nothing of it was refused or faulty.
pub fn shown_lines(alloc: Global, before: u64, body: &[u8]) -> Result<Shown, AllocError>
    ensures text { IfOk result (λ shown.
        shown.text.items ≡ moved_lines before (lines_of body.now)) }
    ensures fine { IfOk result (λ shown. shown.fine ≡ are_fine (lines_of body.now)) }
{
    let mut text = Vec::new(alloc);
    let mut fine = true;
    let mut at = 0;
    while at < body.len() {
        let line = first_line(&body[at..]);
        push_line(alloc, &mut text, before, line)?;
        let line_fine = is_fine(line);
        fine = fine && line_fine;
        at += line.len() + 1;
    }
    Ok(Shown { text, fine })
}

/// A dump, if it came whole.
fn whole_dump(body: Vec<u8>) -> Result<Shown, Trouble>
    ensures { shown_view result ≡ whole_dump body.items }
{
    if body.ends_with(b"COMMIT;\n") {
        Ok(Shown {
            text: body,
            fine: true,
        })
    } else {
        Err(Trouble::Cut)
    }
}

/// What is printed where all is well.
fn of_answered(
    alloc: Global,
    question: Question<'_>,
    before: u64,
    body: Vec<u8>,
) -> Result<Shown, Trouble>
    ensures { result ≢ Err Trouble.Memory
        → shown_view result ≡ of_answered question.entry before body.items }
{
    match question {
        Question::Lines(_) | Question::Import(_, _, _, _) => {
            Ok(shown_lines(alloc, before, &body)?)
        }
        Question::Report(_, _) | Question::Export(_) | Question::Show(_, _, _) => Ok(Shown {
            text: body,
            fine: true,
        }),
        Question::Dump => whole_dump(body),
        Question::Stop => Ok(Shown {
            text: Vec::new(alloc),
            fine: true,
        }),
    }
}

/// What is printed where what was sent is none of what it is to be.
fn of_faulty(question: Question<'_>, body: Vec<u8>) -> Result<Shown, Trouble>
    ensures { shown_view result ≡ of_faulty question.entry body.items }
{
    match question {
        Question::Lines(_) | Question::Import(_, _, _, _) => Ok(Shown {
            text: body,
            fine: false,
        }),
        _ => Err(Trouble::Foreign),
    }
}

/// What is printed where something is refused.
fn of_refused(alloc: Global, body: Vec<u8>) -> Shown
    ensures { (result.text.items, result.fine) ≡ of_refused body.items }
{
    let text = if body.starts_with(b"{\"fault\":") {
        Vec::new(alloc)
    } else {
        body
    };
    Shown { text, fine: false }
}

/// What is printed of an answer.
fn of_status(
    alloc: Global,
    question: Question<'_>,
    before: u64,
    answer: Answer,
) -> Result<Shown, Trouble>
    ensures { result ≢ Err Trouble.Memory
        → shown_view result ≡ of_status question.entry before answer.status answer.body.items }
{
    let Answer { status, body } = answer;
    match status {
        200 => of_answered(alloc, question, before, body),
        400 => of_faulty(question, body),
        409 => Ok(of_refused(alloc, body)),
        401 => Err(Trouble::NoToken),
        413 | 431 => Err(Trouble::TooLong),
        500 => Err(Trouble::Store),
        503 => Err(Trouble::Memory),
        _ => Err(Trouble::Foreign),
    }
}

fn of_unheard(why: Unheard) -> Trouble
    ensures { result ≡ of_unheard why }
{
    match why {
        Unheard::Foreign => Trouble::Foreign,
        Unheard::Cut => Trouble::Cut,
        Unheard::Failed => Trouble::Failed,
        Unheard::Memory => Trouble::Memory,
    }
}

/// What is printed of what was heard, where so many lines were sent before. `Memory` may be a want of it here, too.
pub fn shown_of(
    alloc: Global,
    question: Question<'_>,
    before: u64,
    heard: Result<Answer, Unheard>,
) -> Result<Shown, Trouble>
    ensures { result ≢ Err Trouble.Memory
        → shown_view result ≡ shown_of question.entry before heard }
{
    match heard {
        Ok(answer) => of_status(alloc, question, before, answer),
        Err(why) => Err(of_unheard(why)),
    }
}
