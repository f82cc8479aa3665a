//! Bytes as they come. What was read is held whole; each read counts, an interrupted one too, and past a bound of reads
//! the reader has failed.
ghost use Rattle.std.specs.Prelude.{ℕ, ◌≡◌, ◌≤◌, ◌<◌, ◌+◌, ◌++◌, [], length, take, true, false};
ghost use Rattle.std.specs.Prelude.{Some, None, Ok, Err, OnOk, IfOk, IfErr, IfSome, ◌⊎◌};

use crate::head_end::{find_head_end, front_of};
use crate::served::Stop;
use std::alloc::Global;
use std::io::{self, ErrorKind, Read};

/// What has come of a head.
#[derive(Clone, Copy)]
pub enum HeadArrival {
    /// All of it, so many bytes.
    Head(usize),
    /// 8,192 bytes, in which it doesn't end.
    TooLong,
    /// Not all of it, and the input has ended.
    Incomplete,
}

/// How often a connection is read at most.
const MOST_READS: u64 = 2_000_000;

/// What was read of a connection, and how many reads are left.
#[derive(Drop)]
pub struct Input {
    pub bytes: Vec<u8>,
    reads: u64,
}

impl Input {
    ghost use Rattle.std.specs.Io.{ReadsAtMost, StartsWith};
    ghost use Rattle.std.specs.Io.KnownBytes.{Keeps, IsAtEnd, ReadConsumes, prepend_known};
    ghost use Rattle.desk_http.specs.HeadEnds.{head_end, front, arrival, EndsWithHead, IsInside, all_of};

    pub fn new(alloc: Global) -> Self
        ensures empty { result.bytes.items ≡ [] }
        ensures reads { result.reads ≡ 2000000 }
    {
        Input {
            bytes: Vec::new(alloc),
            reads: MOST_READS,
        }
    }

    /// One read, which takes one of those that are left. There is no other call of `read` for a request.
    fn read_once<R: Read>(&mut self, reader: &mut R, chunk: &mut [u8]) -> io::Result<usize>
        requires { 0 < self.old.reads }
        ensures takes { self.new.reads + 1 ≡ self.old.reads }
        ensures bytes { self.new.bytes ≡ self.old.bytes }
        ensures within { ReadsAtMost result chunk.new }
        ensures read { ReadConsumes (R.remaining reader.old) (R.remaining reader.new) result
            chunk.new }
    {
        self.reads -= 1;
        reader.read(chunk)
    }

    /// Reads once more, over interruptions: false where there is nothing left.
    fn read_more<R: Read>(&mut self, reader: &mut R) -> Result<bool, Stop>
        ensures bytes { OnOk result (Keeps (all_of (R.remaining reader.old) self.old.bytes.items)
            (all_of (R.remaining reader.new) self.new.bytes.items)) }
        ensures same { IfOk result (λ more. more ≡ false
            → self.new.bytes.items ≡ self.old.bytes.items) }
        ensures end { IfOk result (λ more. more ≡ false → IsAtEnd (R.remaining reader.new)) }
        ensures longer { OnOk result (length self.old.bytes.items ≤ length self.new.bytes.items) }
        ensures more { StartsWith self.new.bytes.items self.old.bytes.items }
        ensures most { length self.new.bytes.items ≤ length self.old.bytes.items + 4096 }
        ensures reads { self.new.reads ≤ self.old.reads }
        ensures counts { OnOk result (self.new.reads < self.old.reads) }
        ensures refuses { self.old.reads ≡ 0
            → (result ≡ Err Stop.ReadFailed) × (reader.new ≡ reader.old) }
        ensures failed { IfErr result (λ e. (e ≡ Stop.ReadFailed) ⊎ (e ≡ Stop.Memory)) }
    {
        let mut chunk = [0u8; 4096];
        while self.reads > 0 {
            match self.read_once(reader, &mut chunk) {
                Ok(n) => {
                    self.bytes.extend_from_slice(&chunk[..n])?;
                    return Ok(n > 0);
                }
                Err(e) => {
                    if e.kind() != ErrorKind::Interrupted {
                        return Err(Stop::ReadFailed);
                    }
                }
            }
        }
        Err(Stop::ReadFailed)
    }

    /// Reads from the first byte on until a head has ended, or 8,192 bytes have come.
    #[tactic(auto, using(crate::proofs::Arriving::found, crate::proofs::Arriving::too_long, crate::proofs::Arriving::incomplete, crate::proofs::Arriving::found_here, crate::proofs::Arriving::too_long_here, crate::proofs::Arriving::incomplete_here, crate::proofs::Arriving::nothing_read, crate::proofs::Arriving::read_once_more))]
    pub fn receive_head<R: Read>(&mut self, reader: &mut R) -> Result<HeadArrival, Stop>
        requires fresh { self.old.bytes.items ≡ [] }
        ensures bytes { OnOk result (Keeps (all_of (R.remaining reader.old) self.old.bytes.items)
            (all_of (R.remaining reader.new) self.new.bytes.items)) }
        ensures head { IfOk result (λ a. IfSome (all_of (R.remaining reader.new) self.new.bytes.items)
            (λ xs. a ≡ arrival xs)) }
        ensures read { IfOk result (λ a. a ≡ arrival self.new.bytes.items) }
        ensures within { IfOk result (λ a. IsInside (length self.new.bytes.items) a) }
        ensures last { OnOk result (EndsWithHead self.new.bytes.items) }
        ensures reads { self.new.reads ≤ self.old.reads }
        ensures refuses { self.old.reads ≡ 0 → (reader.new ≡ reader.old)
            × IfErr result (λ e. e ≡ Stop.ReadFailed) }
        ensures failed { IfErr result (λ e. (e ≡ Stop.ReadFailed) ⊎ (e ≡ Stop.Memory)) }
    {
        loop {
            if let Some(n) = find_head_end(front_of(&self.bytes)) {
                return Ok(HeadArrival::Head(n));
            }
            if self.bytes.len() >= 8192 {
                return Ok(HeadArrival::TooLong);
            }
            if !self.read_more(reader)? {
                return Ok(HeadArrival::Incomplete);
            }
        }
    }

    /// The bytes that were read.
    pub fn into_bytes(self) -> Vec<u8>
        ensures { result ≡ self.bytes }
    {
        self.bytes
    }

    /// Reads until a body of this length has come behind the head: false where the input ended first.
    pub fn receive_body<R: Read>(
        &mut self,
        reader: &mut R,
        head: usize,
        len: usize,
    ) -> Result<bool, Stop>
        requires { head ≤ length self.old.bytes.items }
        ensures bytes { OnOk result (Keeps (all_of (R.remaining reader.old) self.old.bytes.items)
            (all_of (R.remaining reader.new) self.new.bytes.items)) }
        ensures whole { IfOk result (λ whole. whole ≡ true
            → head + len ≤ length self.new.bytes.items) }
        ensures short { IfOk result (λ whole. whole ≡ false → IsAtEnd (R.remaining reader.new)
            × (length self.new.bytes.items < head + len)) }
        ensures more { StartsWith self.new.bytes.items self.old.bytes.items }
        ensures kept { OnOk result (length self.old.bytes.items ≤ length self.new.bytes.items) }
        ensures reads { self.new.reads ≤ self.old.reads }
        ensures refuses { self.old.reads ≡ 0 → (reader.new ≡ reader.old)
            × IfErr result (λ e. e ≡ Stop.ReadFailed) }
        ensures failed { IfErr result (λ e. (e ≡ Stop.ReadFailed) ⊎ (e ≡ Stop.Memory)) }
    {
        while self.bytes.len() - head < len {
            if !self.read_more(reader)? {
                return Ok(false);
            }
        }
        Ok(true)
    }
}
