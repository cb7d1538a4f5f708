//! What a connection sends, served in each way in which the bytes may come and go.

use crate::failure::Failure;
use crate::in_memory::new_desk;
use crate::streams::{FailingSink, FailingSource};
use desk_book::Desk;
use desk_http::{HttpFault, LONGEST_REQUEST, Routes, connection, serve_one};
use desk_streams::PIECE;
use memory_register::ListRegister;
use std::alloc::Global;
use std::rt::Files;
use std::{fs, io};

/// What comes byte by byte is no longer than this where each of its reads fails in turn.
const SHORT: usize = 1000;

/// The writer whose writes fail takes so many bytes a write.
const MOUTHFUL: usize = 7;

/// Tries what the files say, and prints how many ways passed. Whether all did.
pub fn try_files(
    rt: &(impl Print + AllocGlobal + Files),
    sent: &str,
    response: &str,
    setup: Option<&str>,
) -> Result<bool, Failure> {
    let sent: Vec<u8> = fs::read(rt, sent)?;
    let response: Vec<u8> = fs::read(rt, response)?;
    let setup: Vec<u8> = match setup {
        Some(path) => fs::read(rt, path)?,
        None => Vec::new(rt.alloc()),
    };
    tell(rt, tried(rt.alloc(), &sent, &response, &setup))
}

/// Tries what is sent in every way.
fn tried(alloc: Global, sent: &[u8], response: &[u8], setup: &[u8]) -> Result<Counts, Failure> {
    let routes = Routes::new(alloc)?;
    let exchange = Exchange {
        routes: &routes,
        sent,
        response,
        setup,
    };
    exchange.tried(alloc)
}

/// Prints how many ways passed. Whether all did.
fn tell(rt: &impl Print, counts: Result<Counts, Failure>) -> Result<bool, Failure> {
    let Counts { passed, failed } = counts?;
    println!(rt; "{passed} passed, {failed} failed")?;
    Ok(failed == 0)
}

/// How many ways passed, and how many did not.
#[derive(Clone, Copy)]
struct Counts {
    passed: usize,
    failed: usize,
}

impl Counts {
    fn count(&mut self, is_right: bool) {
        if is_right {
            self.passed = self.passed.wrapping_add(1);
        } else {
            self.failed = self.failed.wrapping_add(1);
        }
    }
}

/// What is sent, and the response that is wanted.
#[derive(Clone, Copy)]
struct Exchange<'a> {
    routes: &'a Routes,
    sent: &'a [u8],
    response: &'a [u8],
    /// A script that is played on the desk first
    setup: &'a [u8],
}

/// A way in which the bytes come and go. They come in pieces of a length, one of which ends at a cut (0: no cut).
#[derive(Clone, Copy)]
enum Way {
    /// All goes well
    Well { piece: usize, before_cut: usize },
    /// This read fails
    FailedRead { piece: usize, read: usize },
    /// This write of a mouthful fails, or takes nothing
    FailedWrite { write: usize, is_full: bool },
}

impl Exchange<'_> {
    /// Tries every way.
    fn tried(&self, alloc: Global) -> Result<Counts, Failure> {
        let mut counts = Counts {
            passed: 0,
            failed: 0,
        };
        counts.count(self.is_as_said());
        let byte_by_byte = Way::Well {
            piece: 1,
            before_cut: 0,
        };
        counts.count(self.passes(alloc, byte_by_byte)?);
        for before_cut in 0..self.sent.len().max(1) {
            let piece = usize::MAX;
            counts.count(self.passes(alloc, Way::Well { piece, before_cut })?);
        }
        let piece = if self.sent.len() <= SHORT {
            1
        } else {
            usize::MAX
        };
        let (reads, writes) = self.calls(alloc, piece)?;
        for read in 1..reads.saturating_add(1) {
            counts.count(self.passes(alloc, Way::FailedRead { piece, read })?);
        }
        for write in 1..writes.saturating_add(1) {
            let is_full = false;
            counts.count(self.passes(alloc, Way::FailedWrite { write, is_full })?);
            let is_full = true;
            counts.count(self.passes(alloc, Way::FailedWrite { write, is_full })?);
        }
        Ok(counts)
    }

    /// Whether the response ends with the text of HTTP's own refusal, where what is sent is refused so.
    fn is_as_said(&self) -> bool {
        match connection(self.routes, self.sent) {
            Ok(_) => true,
            Err(refusal) => self.response.ends_with(refusal.text().as_bytes()),
        }
    }

    /// A desk on which the setup was played.
    fn desk(&self, alloc: Global) -> Result<Desk<ListRegister>, Failure> {
        let mut desk = new_desk(alloc);
        let mut script = self.setup;
        match desk.play(alloc, &mut script, &mut io::sink()) {
            Ok(()) => Ok(desk),
            Err(_) => Err(Failure::Setup),
        }
    }

    /// How many reads of such pieces it takes, and how many writes where the writer takes a mouthful at a time.
    fn calls(&self, alloc: Global, piece: usize) -> Result<(usize, usize), Failure> {
        let mut desk = self.desk(alloc)?;
        let mut reader = FailingSource::new(self.sent, piece, 0);
        let mut writer = FailingSink::new(alloc, MOUTHFUL, 0);
        let _ = serve_one(alloc, self.routes, &mut reader, &mut writer, &mut desk);
        Ok((reader.reads, writer.writes))
    }

    /// Whether a new desk answers as it must where the bytes come and go in a way.
    fn passes(&self, alloc: Global, way: Way) -> Result<bool, Failure> {
        let mut desk = self.desk(alloc)?;
        match way {
            Way::Well { piece, before_cut } => self.is_answered(
                alloc, &mut desk, piece, before_cut,
            ),
            Way::FailedRead { piece, read } => {
                self.is_failed_read_told(alloc, &mut desk, piece, read)
            }
            Way::FailedWrite { write, is_full } => {
                self.is_failed_write_told(alloc, &mut desk, write, is_full)
            }
        }
    }

    /// Whether a desk gives the response to what comes in such pieces, in few reads and writes.
    fn is_answered(
        &self,
        alloc: Global,
        desk: &mut Desk<ListRegister>,
        piece: usize,
        before_cut: usize,
    ) -> Result<bool, Failure> {
        let mut reader = FailingSource::new(self.sent, piece, 0);
        reader.before_cut = before_cut;
        let mut writer = FailingSink::new(alloc, usize::MAX, 0);
        match serve_one(alloc, self.routes, &mut reader, &mut writer, desk) {
            Ok(()) => Ok(
                writer.taken.as_slice() == self.response
                    && writer.writes == self.response.len().div_ceil(PIECE)
                    && reader.reads <= self.sent.len().min(LONGEST_REQUEST).saturating_add(1),
            ),
            Err(HttpFault::Memory) => Err(Failure::Memory),
            Err(_) => Ok(false),
        }
    }

    /// Whether a read that fails is told, with nothing written or asked: the same desk then gives the response.
    fn is_failed_read_told(
        &self,
        alloc: Global,
        desk: &mut Desk<ListRegister>,
        piece: usize,
        read: usize,
    ) -> Result<bool, Failure> {
        let mut reader = FailingSource::new(self.sent, piece, read);
        let mut writer = FailingSink::new(alloc, usize::MAX, 0);
        let told = serve_one(alloc, self.routes, &mut reader, &mut writer, desk);
        if told != Err(HttpFault::ReadFailed) || writer.writes != 0 {
            return Ok(false);
        }
        self.is_answered(alloc, desk, usize::MAX, 0)
    }

    /// Whether a write that fails is told, with the front of the response written; the same desk then gives the response.
    fn is_failed_write_told(
        &self,
        alloc: Global,
        desk: &mut Desk<ListRegister>,
        write: usize,
        is_full: bool,
    ) -> Result<bool, Failure> {
        let mut reader = FailingSource::new(self.sent, usize::MAX, 0);
        let mut writer = FailingSink::new(alloc, MOUTHFUL, write);
        writer.is_full = is_full;
        let told = serve_one(alloc, self.routes, &mut reader, &mut writer, desk);
        if told != Err(HttpFault::WriteFailed)
            || !self.response.starts_with(writer.taken.as_slice())
        {
            return Ok(false);
        }
        self.is_answered(alloc, desk, usize::MAX, 0)
    }
}
