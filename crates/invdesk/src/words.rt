//! The words that the program is called with, and what is told of them at once, where they ask for no desk.
ghost use Rattle.std.specs.Prelude.{◌≡◌, ◌⊎◌, IfErr};

use crate::pipe::is_of_a_reader;
use desk_app::guide_to;
use desk_cli::{DEVICE, Task};
use report_core::escaped;
use std::alloc::AllocError;
use std::env::{self, Env};
use std::io;

/// The words that the program is called with, the first its name. Which these are is known to no clause.
pub fn given<R: Env + AllocGlobal>(rt: &R) -> Result<Vec<String>, Task<'static>>
    ensures { IfErr result (λ task. (task ≡ Task.Memory) ⊎ (task ≡ Task.Unreadable)) }
{
    let words = match env::args(rt) {
        Ok(words) => words,
        Err(e) => {
            if e.kind() == io::ErrorKind::OutOfMemory {
                return Err(Task::Memory);
            }
            return Err(Task::Unreadable);
        }
    };
    match words.collect(rt.alloc()) {
        Ok(words) => Ok(words),
        Err(_) => Err(Task::Memory),
    }
}

/// The words of a fault as they are told to a person, of which each line is escaped.
fn told_words<R: AllocGlobal>(rt: &R, fault: &clap::Error) -> Result<String, AllocError> {
    let text = fault.to_string(rt.alloc())?;
    let mut told = String::new(rt.alloc());
    for line in text.lines() {
        told.push_str(escaped(rt.alloc(), line)?.as_str())?;
        told.push_str("\n")?;
    }
    Ok(told)
}

/// Tells on the standard error what is wrong with the words. Where there is no memory for it, the status alone tells.
pub fn tell_words<R: Eprint + AllocGlobal>(rt: &R, fault: &clap::Error) -> io::Result<()> {
    match told_words(rt, fault) {
        Ok(told) => eprint!(rt; "{told}"),
        Err(_) => Ok(()),
    }
}

/// Prints the help on a topic.
pub fn print_guide<R: Print + AllocGlobal>(rt: &R, topic: &str) -> io::Result<()> {
    match guide_to(topic) {
        Some(entry) => println!(rt; "{entry}"),
        None => Ok(()),
    }
}

/// The status to end with at once, where what the words ask for was printed so. Where it couldn't be, that is the device's,
/// unless whoever reads it has gone.
pub fn status_at_once(printed: io::Result<()>, status: u8) -> u8
    ensures { (result ≡ status) ⊎ (result ≡ 3) }
{
    match printed {
        Ok(()) => status,
        Err(error) => {
            if is_of_a_reader(&error) {
                status
            } else {
                DEVICE
            }
        }
    }
}
