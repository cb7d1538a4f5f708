//! What is read from.
ghost use Rattle.std.specs.Prelude.{◌≡◌, Bool, true, false, OnErr};
ghost use Rattle.std.specs.Io.{ReadsAtMost};
ghost use Rattle.std.specs.Io.KnownBytes.{ReadConsumes};

use std::io::{self, Read, Stdin};
use std::net::TcpStream;

/// A reader of which it is said whether a read may fail. Of bytes in memory none does.
pub trait Source: Read {
    // Whether a read may fail
    ghost may_fail: { Bool };

    /// One read, as `Read::read` makes it.
    fn read_some(&mut self, buffer: &mut [u8]) -> io::Result<usize>
        ensures bound { ReadsAtMost result buffer.new }
        ensures bytes { ReadConsumes (Self.remaining self.old) (Self.remaining self.new) result buffer.new }
        ensures failed { OnErr result (may_fail ≡ true) };
}

impl Source for &[u8] {
    ghost may_fail = { false };

    fn read_some(&mut self, buffer: &mut [u8]) -> io::Result<usize> {
        self.read(buffer)
    }
}

impl Source for Stdin {
    ghost may_fail = { true };

    fn read_some(&mut self, buffer: &mut [u8]) -> io::Result<usize> {
        self.read(buffer)
    }
}

impl Source for &TcpStream {
    ghost may_fail = { true };

    fn read_some(&mut self, buffer: &mut [u8]) -> io::Result<usize> {
        self.read(buffer)
    }
}
