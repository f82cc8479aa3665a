//! Texts that list serial numbers.
ghost use Rattle.std.specs.Prelude.{◌≡◌, ◌≢◌, ◌≤◌, IfOk, IfErr, length};
ghost use Rattle.std.specs.Char.{is_ascii_digit};
ghost use Rattle.std.specs.List.{list_all};
ghost use Rattle.word_core.specs.Serials.{serials_in, element_serials, range_serials};
ghost use Rattle.word_core.specs.Serials.{decimals, range_of, number_of, is_number};

use crate::serial::{Serial, are_serial};
use std::alloc::{AllocError, Global};
use thiserror::Error;

/// How many serial numbers a text may list.
const MOST_SERIALS: usize = 1_000;

/// Why a text isn't read as serial numbers.
#[derive(Clone, Copy, Debug, PartialEq, Eq, Error)]
pub enum SerialFault {
    #[error("an element is empty")]
    Empty,
    #[error("a character that no serial number has")]
    BadChar,
    /// The second number of a range isn't greater than the first.
    #[error("a range that doesn't rise")]
    Falling,
    #[error("more than 1,000 serial numbers")]
    TooMany,
    #[error("a serial number of more than 24 characters")]
    TooLong,
    #[error("no memory")]
    Memory,
}

impl From<AllocError> for SerialFault {
    ghost use Rattle.std.specs.Prelude.{◌≡◌};
    ghost use Rattle.word_core.specs.declared.serials.SerialFault.TheVariants.{Memory};

    ghost from_gives = { λ _ fault. fault ≡ Memory };

    fn from(_: AllocError) -> Self {
        SerialFault::Memory
    }
}

fn are_digits(bytes: &[u8]) -> bool
    ensures { result ≡ list_all is_ascii_digit bytes.now }
{
    bytes.iter().all(|b| b.is_ascii_digit())
}

/// Whether a text is a number of 1 to 18 digits without a leading zero.
fn is_number(text: &str) -> bool
    ensures { result ≡ is_number text.now }
{
    let bytes = text.as_bytes();
    0 < bytes.len()
        && bytes.len() <= 18
        && are_digits(bytes)
        && (bytes.len() == 1 || bytes[0] != b'0')
}

fn number(text: &str) -> Option<u64>
    ensures { result ≡ number_of text.now }
{
    if is_number(text) {
        text.parse().ok()
    } else {
        None
    }
}

/// The two ends of a range of serial numbers, `FIRST-LAST`, where the element of a list is one.
/// Whether the range rises is another matter.
pub fn serial_range(element: &str) -> Option<(u64, u64)>
    ensures { result ≡ range_of element.now }
{
    let (first, last) = element.split_once('-')?;
    Some((number(first)?, number(last)?))
}

/// The numbers from the first to the last.
fn decimals(alloc: Global, first: u64, last: u64) -> Result<Vec<Serial>, AllocError>
    requires { first ≤ last }
    ensures { IfOk result (λ serials. serials.items ≡ decimals first last) }
{
    let mut serials = Vec::new(alloc);
    for number in first..=last {
        let text = number.to_string(alloc)?;
        serials.push(Serial::new(text).unwrap())?;
    }
    Ok(serials)
}

fn range_serials(alloc: Global, first: u64, last: u64) -> Result<Vec<Serial>, SerialFault>
    ensures read { IfOk result (λ serials. range_serials first last ≡ Ok serials.items) }
    ensures fault { IfErr result (λ fault.
        fault ≢ SerialFault.Memory → range_serials first last ≡ Err fault) }
{
    if last <= first {
        return Err(SerialFault::Falling);
    }
    if last - first >= MOST_SERIALS as u64 {
        return Err(SerialFault::TooMany);
    }
    Ok(decimals(alloc, first, last)?)
}

#[tactic(auto, unfolding(crate::specs::Serials::element_serials))]
fn element_serials(alloc: Global, element: &str) -> Result<Vec<Serial>, SerialFault>
    ensures read { IfOk result (λ serials. element_serials element.now ≡ Ok serials.items) }
    ensures fault { IfErr result (λ fault.
        fault ≢ SerialFault.Memory → element_serials element.now ≡ Err fault) }
{
    if element.is_empty() {
        return Err(SerialFault::Empty);
    }
    if !are_serial(element.as_bytes()) {
        return Err(SerialFault::BadChar);
    }
    if let Some((first, last)) = serial_range(element) {
        return range_serials(alloc, first, last);
    }
    let text = String::from_str(alloc, element)?;
    let serial = Serial::new(text).ok_or(SerialFault::TooLong)?;
    Ok(vec![in alloc; serial].map_err(AllocError::from)?)
}

/// The serial numbers that a text lists: 1 to 1,000 of them.
///
/// The text is cut at commas. An element of two numbers with a `-` between them, each of 1 to 18 digits
/// without a leading zero, is a range, and stands for the numbers from the first to the second. Any other
/// element is one serial number. The first fault from the left is the answer; within an element `BadChar`
/// comes before the others but `Empty`.
pub fn read_serials(alloc: Global, text: &str) -> Result<Vec<Serial>, SerialFault>
    ensures read { IfOk result (λ serials. serials_in text.now ≡ Ok serials.items) }
    ensures fault { IfErr result (λ fault.
        fault ≢ SerialFault.Memory → serials_in text.now ≡ Err fault) }
    ensures count { IfOk result (λ serials.
        (1 ≤ length serials.items) × (length serials.items ≤ 1000)) }
{
    let mut serials = Vec::new(alloc);
    for element in text.split(',') {
        let mut more = element_serials(alloc, element)?;
        if serials.len() + more.len() > MOST_SERIALS {
            return Err(SerialFault::TooMany);
        }
        serials.append(&mut more)?;
    }
    Ok(serials)
}
