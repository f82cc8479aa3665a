//! Readers and writers for tests: slow ones, and ones that fail.
use std::alloc::Global;
use std::io::{self, ErrorKind, Read, Write};

/// Gives a text, at most `step` bytes at a read. The read of number `fails`, from 1, fails.
#[derive(Drop)]
pub struct Source<'a> {
    pub text: &'a [u8],
    pub step: usize,
    pub calls: u64,
    pub fails: u64,
    pub failure: ErrorKind,
}

impl<'a> Source<'a> {
    pub fn new(text: &'a [u8], step: usize) -> Self {
        Source {
            text,
            step,
            calls: 0,
            fails: 0,
            failure: ErrorKind::Other,
        }
    }
}

impl Read for Source<'_> {
    fn read(&mut self, buf: &mut [u8]) -> io::Result<usize> {
        self.calls = self.calls.wrapping_add(1);
        if self.calls == self.fails {
            return Err(io::Error::from(self.failure));
        }
        let n = self.text.len().min(self.step).min(buf.len());
        buf[..n].copy_from_slice(&self.text[..n]);
        self.text = &self.text[n..];
        Ok(n)
    }
}

/// Holds what was written, at most `step` bytes at a write. The call of number `fails`, from 1, fails,
/// whether it writes or flushes.
#[derive(Drop)]
pub struct Sink {
    pub bytes: Vec<u8>,
    pub step: usize,
    pub calls: u64,
    pub fails: u64,
}

impl Sink {
    pub fn new(alloc: Global, step: usize) -> Self {
        Sink {
            bytes: Vec::new(alloc),
            step,
            calls: 0,
            fails: 0,
        }
    }

    fn fails_now(&mut self) -> bool {
        self.calls = self.calls.wrapping_add(1);
        self.calls == self.fails
    }
}

impl Write for Sink {
    fn write(&mut self, buf: &[u8]) -> io::Result<usize> {
        if self.fails_now() {
            return Err(io::Error::from(ErrorKind::Other));
        }
        let n = buf.len().min(self.step);
        self.bytes.extend_from_slice(&buf[..n])?;
        Ok(n)
    }

    fn flush(&mut self) -> io::Result<()> {
        if self.fails_now() {
            return Err(io::Error::from(ErrorKind::Other));
        }
        Ok(())
    }
}
