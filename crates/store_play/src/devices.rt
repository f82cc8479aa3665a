//! Readers and writers for tests: slow ones, and ones that fail.
ghost use Rattle.std.specs.Prelude.{◌≡◌, ◌==◌, [], ◌+◌, ◌%◌, ◌^◌};

use std::alloc::Global;
use std::io::{self, ErrorKind, Read, Write};

/// Gives a text, at most `step` bytes at a read. The read of number `fails`, from 1, fails.
#[derive(Drop)]
pub struct Source<'a> {
    pub text: &'a [u8],
    pub step: usize,
    pub calls: u64,
    pub fails: u64,
    pub failure: ErrorKind,
}

impl<'a> Source<'a> {
    /// One that never fails. The caller sets `fails`, and `failure` where another is wanted.
    pub fn new(text: &'a [u8], step: usize) -> Self
        ensures step { result.step ≡ step }
        ensures calls { result.calls ≡ 0 }
        ensures never { result.fails ≡ 0 }
    {
        Source {
            text,
            step,
            calls: 0,
            fails: 0,
            failure: ErrorKind::Other,
        }
    }
}

impl Read for Source<'_> {
    fn read(&mut self, buf: &mut [u8]) -> io::Result<usize> {
        self.calls = self.calls.wrapping_add(1);
        if self.calls == self.fails {
            return Err(io::Error::from(self.failure));
        }
        let n = self.text.len().min(self.step).min(buf.len());
        buf[..n].copy_from_slice(&self.text[..n]);
        self.text = &self.text[n..];
        Ok(n)
    }
}

/// Holds what was written, at most `step` bytes at a write. The call of number `fails`, from 1, fails,
/// whether it writes or flushes.
#[derive(Drop)]
pub struct Sink {
    pub bytes: Vec<u8>,
    pub step: usize,
    pub calls: u64,
    pub fails: u64,
}

impl Sink {
    /// One with nothing in it that never fails. The caller sets `fails`.
    pub fn new(alloc: Global, step: usize) -> Self
        ensures empty { result.bytes.items ≡ [] }
        ensures step { result.step ≡ step }
        ensures calls { result.calls ≡ 0 }
        ensures never { result.fails ≡ 0 }
    {
        Sink {
            bytes: Vec::new(alloc),
            step,
            calls: 0,
            fails: 0,
        }
    }

    /// Counts a call: whether it is the one that fails.
    fn fails_now(&mut self) -> bool
        ensures calls { self.new.calls ≡ (self.old.calls + 1) % 2 ^ 64 }
        ensures fails { result ≡ (self.new.calls == self.old.fails) }
    {
        self.calls = self.calls.wrapping_add(1);
        self.calls == self.fails
    }
}

impl Write for Sink {
    fn write(&mut self, buf: &[u8]) -> io::Result<usize> {
        if self.fails_now() {
            return Err(io::Error::from(ErrorKind::Other));
        }
        let n = buf.len().min(self.step);
        self.bytes.extend_from_slice(&buf[..n])?;
        Ok(n)
    }

    fn flush(&mut self) -> io::Result<()> {
        if self.fails_now() {
            return Err(io::Error::from(ErrorKind::Other));
        }
        Ok(())
    }
}

/// Is interrupted at each read, and counts them.
#[derive(Drop)]
pub struct Interrupted {
    pub calls: u64,
}

impl Read for Interrupted {
    fn read(&mut self, _buf: &mut [u8]) -> io::Result<usize> {
        self.calls = self.calls.wrapping_add(1);
        Err(io::Error::from(ErrorKind::Interrupted))
    }
}
