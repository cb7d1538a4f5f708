//! A reader that gives its bytes in pieces, and a writer that takes them so. Each counts its calls, and fails at one of
//! them.
ghost use Rattle.std.specs.Prelude.{true};

use desk_streams::{Sink, Source};
use std::alloc::Global;
use std::fmt::Display;
use std::io;
use std::io::{ErrorKind, Read, Write};

/// Gives bytes in pieces, one of which ends at a cut, and fails at one read, as one that is interrupted. It counts its
/// reads.
#[derive(Drop)]
pub struct FailingSource<'a> {
    pub rest: &'a [u8],
    pub piece: usize,
    /// So many bytes stand before the cut; there is none where it is 0
    pub before_cut: usize,
    pub reads: usize,
    /// The number of the read that fails, from 1; none does where it is 0
    pub fails_at: usize,
}

impl<'a> FailingSource<'a> {
    /// One that gives such pieces of these bytes with no cut, and fails at this read; at none where it is 0.
    pub fn new(bytes: &'a [u8], piece: usize, fails_at: usize) -> FailingSource<'a> {
        FailingSource {
            rest: bytes,
            piece,
            before_cut: 0,
            reads: 0,
            fails_at,
        }
    }
}

impl Read for FailingSource<'_> {
    fn read(&mut self, buf: &mut [u8]) -> io::Result<usize> {
        self.reads = self.reads.wrapping_add(1);
        if self.reads == self.fails_at {
            return Err(io::Error::from(ErrorKind::Interrupted));
        }
        let most = if self.before_cut == 0 {
            self.piece
        } else {
            self.piece.min(self.before_cut)
        };
        let count = most.min(self.rest.len()).min(buf.len());
        buf[..count].copy_from_slice(&self.rest[..count]);
        self.rest = &self.rest[count..];
        self.before_cut = self.before_cut.saturating_sub(count);
        Ok(count)
    }
}

impl Source for FailingSource<'_> {
    ghost may_fail = { true };

    fn read_some(&mut self, buffer: &mut [u8]) -> io::Result<usize> {
        self.read(buffer)
    }
}

/// Takes a piece a write, and fails at one write, or takes nothing then. It counts its writes.
#[derive(Drop)]
pub struct FailingSink {
    pub taken: Vec<u8>,
    pub piece: usize,
    pub writes: usize,
    /// The number of the write that fails, from 1; none does where it is 0
    pub fails_at: usize,
    /// Whether that write takes nothing, in place of an error
    pub is_full: bool,
}

impl FailingSink {
    /// One that takes such pieces, and fails at this write with an error; at none where it is 0.
    pub fn new(alloc: Global, piece: usize, fails_at: usize) -> FailingSink {
        FailingSink {
            taken: Vec::new(alloc),
            piece,
            writes: 0,
            fails_at,
            is_full: false,
        }
    }
}

impl Write for FailingSink {
    fn write(&mut self, buf: &[u8]) -> io::Result<usize> {
        self.writes = self.writes.wrapping_add(1);
        if self.writes == self.fails_at {
            if self.is_full {
                return Ok(0);
            }
            return Err(io::Error::from(ErrorKind::Other));
        }
        let count = self.piece.min(buf.len());
        self.taken.extend_from_slice(&buf[..count])?;
        Ok(count)
    }

    fn flush(&mut self) -> io::Result<()> {
        Ok(())
    }
}

impl Sink for FailingSink {
    ghost may_fail = { true };

    fn put(&mut self, bytes: &[u8]) -> io::Result<()> {
        self.write_all(bytes)
    }

    fn put_text<D: Display + Drop>(&mut self, text: D) -> io::Result<()> {
        self.write_fmt(text)
    }

    fn send(&mut self) -> io::Result<()> {
        self.flush()
    }
}
