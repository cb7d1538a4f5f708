//! Bytes on their way out: they wait until there are as many as are written at once.
ghost use Rattle.std.specs.Prelude.{◌≡◌, ◌<◌, ◌≤◌, [], true, vec_capacity, vec_len, IfOk, OnErr, OnOk};
ghost use Rattle.std.specs.Io.KnownBytes.{Appends, append_known};
ghost use Rattle.std.specs.Fmt.{decimal};
ghost use Rattle.desk_streams.specs.Waiting.{HasRoom, waits};

use crate::sink::Sink;
use itoa::Buffer;
use std::alloc::{AllocError, Global};
use std::io;

/// So many bytes are written at once.
pub const PIECE: usize = 8192;

/// The bytes that wait to be written.
#[derive(Drop)]
pub struct Outbox {
    /// They are fewer than are written at once.
    waiting: Vec<u8>,
}

impl Outbox {
    /// One in which nothing waits. All the room that it needs is taken.
    pub fn new(alloc: Global) -> Result<Outbox, AllocError>
        ensures empty { IfOk result (λ outbox. waits outbox ≡ []) }
        ensures room { IfOk result (λ outbox. HasRoom outbox) }
    {
        let waiting = Vec::with_capacity(alloc, PIECE)?;
        Ok(Outbox { waiting })
    }

    /// Adds bytes to what waits. Each piece that is full is written. After an `Err` nothing is said of what was written.
    pub fn add<W: Sink>(&mut self, writer: &mut W, bytes: &[u8]) -> io::Result<()>
        requires { HasRoom self.old }
        ensures room { OnOk result (HasRoom self.new) }
        ensures written { OnOk result (Appends (append_known (W.contents writer.old) (waits self.old)) (append_known (W.contents writer.new) (waits self.new)) bytes.now) }
        ensures failed { OnErr result (W.may_fail ≡ true) }
    {
        add(&mut self.waiting, writer, bytes)
    }

    /// Adds a number to what waits, in decimal digits, as `add` does.
    pub fn add_number<W: Sink>(&mut self, writer: &mut W, number: u16) -> io::Result<()>
        requires { HasRoom self.old }
        ensures room { OnOk result (HasRoom self.new) }
        ensures written { OnOk result (Appends (append_known (W.contents writer.old) (waits self.old)) (append_known (W.contents writer.new) (waits self.new)) (decimal number)) }
        ensures failed { OnErr result (W.may_fail ≡ true) }
    {
        self.add(writer, Buffer::new().format(number).as_bytes())
    }

    /// Writes what waits still.
    pub fn finish<W: Sink>(&mut self, writer: &mut W) -> io::Result<()>
        ensures written { OnOk result (Appends (W.contents writer.old) (W.contents writer.new) (waits self.old)) }
        ensures failed { OnErr result (W.may_fail ≡ true) }
    {
        writer.put(&self.waiting)
    }
}

/// Adds a text to what waits, and writes each piece that is full.
fn add<W: Sink>(waiting: &mut Vec<u8>, writer: &mut W, text: &[u8]) -> io::Result<()>
    requires few { vec_len waiting.old < PIECE }
    requires room { PIECE ≤ vec_capacity waiting.old }
    ensures few { OnOk result (vec_len waiting.new < PIECE) }
    ensures room { OnOk result (PIECE ≤ vec_capacity waiting.new) }
    ensures written { OnOk result (Appends (append_known (W.contents writer.old) waiting.old.items) (append_known (W.contents writer.new) waiting.new.items) text.now) }
    ensures failed { OnErr result (W.may_fail ≡ true) }
{
    let mut rest = text;
    'pieces: while rest.len() >= PIECE - waiting.len() {
        let (now, later) = rest.split_at(PIECE - waiting.len());
        waiting.extend_from_slice(now).unwrap();
        writer.put(waiting)?;
        waiting.clear();
        rest = later;
    }
    waiting.extend_from_slice(rest).unwrap();
    Ok(())
}
