//! A reader that gives its bytes in pieces, and a writer that takes them so. Each counts its calls, and fails at the one of a
//! number; at none where that is 0.
ghost use Rattle.std.specs.Prelude.{true};

use desk_streams::{Sink, Source};
use std::alloc::Global;
use std::fmt::Display;
use std::io;
use std::io::{ErrorKind, Read, Write};

#[derive(Drop)]
pub struct FailingSource<'a> {
    rest: &'a [u8],
    piece: usize,
    pub reads: usize,
    fails_at: usize,
}

impl<'a> FailingSource<'a> {
    pub fn new(bytes: &'a [u8], piece: usize, fails_at: usize) -> FailingSource<'a> {
        FailingSource {
            rest: bytes,
            piece,
            reads: 0,
            fails_at,
        }
    }
}

impl Read for FailingSource<'_> {
    fn read(&mut self, buf: &mut [u8]) -> io::Result<usize> {
        self.reads = self.reads.wrapping_add(1);
        if self.reads == self.fails_at {
            return Err(io::Error::from(ErrorKind::Interrupted));
        }
        let count = self.piece.min(self.rest.len()).min(buf.len());
        buf[..count].copy_from_slice(&self.rest[..count]);
        self.rest = &self.rest[count..];
        Ok(count)
    }
}

impl Source for FailingSource<'_> {
    ghost may_fail = { true };

    fn read_some(&mut self, buffer: &mut [u8]) -> io::Result<usize> {
        self.read(buffer)
    }
}

#[derive(Drop)]
pub struct FailingSink {
    pub taken: Vec<u8>,
    piece: usize,
    pub writes: usize,
    fails_at: usize,
}

impl FailingSink {
    pub fn new(alloc: Global, piece: usize, fails_at: usize) -> FailingSink {
        FailingSink {
            taken: Vec::new(alloc),
            piece,
            writes: 0,
            fails_at,
        }
    }
}

impl Write for FailingSink {
    fn write(&mut self, buf: &[u8]) -> io::Result<usize> {
        self.writes = self.writes.wrapping_add(1);
        if self.writes == self.fails_at {
            return Err(io::Error::from(ErrorKind::Other));
        }
        let count = self.piece.min(buf.len());
        self.taken.extend_from_slice(&buf[..count])?;
        Ok(count)
    }

    fn flush(&mut self) -> io::Result<()> {
        Ok(())
    }
}

impl Sink for FailingSink {
    ghost may_fail = { true };

    fn put(&mut self, bytes: &[u8]) -> io::Result<()> {
        self.write_all(bytes)
    }

    fn put_text<D: Display + Drop>(&mut self, text: D) -> io::Result<()> {
        self.write_fmt(text)
    }

    fn send(&mut self) -> io::Result<()> {
        self.flush()
    }
}
