//! Lines that are typed at a terminal: a prompt before each, help, and an end.

use crate::guide::guide_to;
use std::io::{self, Read, Write};
use std::str;

/// What stands before a line that is typed.
const PROMPT: &str = "> ";

/// Lines as they come and, where they are typed, the screen on which they are prompted for. A line `help`, or `help` and a
/// name, is then answered on the screen, and is no line of the run; a line `quit` or `exit` is the end of them. Where the
/// screen fails, nothing is told.
#[derive(Drop)]
pub struct TypedLines<R, E> {
    reader: R,
    screen: E,
    are_typed: bool,
    /// Whether what is read next begins a line.
    begins: bool,
}

/// The name that a whole line asks for help on, if it does.
fn name_in(line: &[u8]) -> Option<&str> {
    let Ok(text) = str::from_utf8(line) else {
        return None;
    };
    let text = text.strip_suffix("\n")?;
    if text == "help" {
        return Some(text);
    }
    text.strip_prefix("help ")
}

/// Whether the whole line asks for the end.
fn is_end(line: &[u8]) -> bool {
    line == b"quit\n".as_slice() || line == b"exit\n".as_slice()
}

impl<R: Read, E: Write> TypedLines<R, E> {
    /// Nothing of them was read yet.
    pub fn new(reader: R, screen: E, are_typed: bool) -> Self {
        TypedLines {
            reader,
            screen,
            are_typed,
            begins: true,
        }
    }

    fn show(&mut self, text: &str) {
        let _ = self.screen.write_all(text.as_bytes());
        let _ = self.screen.flush();
    }

    fn tell(&mut self, name: &str) {
        match guide_to(name) {
            Some(entry) => self.show(entry),
            None => self.show("There is no help on that; help alone lists what there is."),
        }
        self.show("\n");
    }
}

impl<R: Read, E: Write> Read for TypedLines<R, E> {
    fn read(&mut self, buf: &mut [u8]) -> io::Result<usize> {
        for _ in 0..u64::MAX {
            if self.are_typed && self.begins {
                self.show(PROMPT);
            }
            let n = self.reader.read(buf)?;
            let read = &buf[..n];
            let began = self.begins;
            self.begins = read.ends_with(b"\n");
            if self.are_typed && began && is_end(read) {
                return Ok(0);
            }
            match name_in(read) {
                Some(name) if self.are_typed && began => self.tell(name),
                _ => return Ok(n),
            }
        }
        Ok(0)
    }
}
