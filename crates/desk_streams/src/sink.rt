//! What is written to.
ghost use Rattle.std.specs.Prelude.{◌≡◌, Bool, true, false, OnErr, OnOk, IfSome};
ghost use Rattle.std.specs.Io.KnownBytes.{Appends, Keeps};

use std::fmt::Display;
use std::io::{self, Printer, Write};
use std::net::TcpStream;

/// A writer of which it is said whether a write may fail. What is written to memory wants room.
pub trait Sink: Write {
    // Whether a write may fail
    ghost may_fail: { Bool };

    /// Writes all of these bytes, as `Write::write_all` does.
    fn put(&mut self, bytes: &[u8]) -> io::Result<()>
        ensures bytes { OnOk result (Appends (Self.contents self.old) (Self.contents self.new) bytes.now) }
        ensures failed { OnErr result (may_fail ≡ true) };

    /// Writes a text, as `Write::write_fmt` does.
    fn put_text<D: Display + Drop>(&mut self, text: D) -> io::Result<()>
        ensures bytes { OnOk result (IfSome (D.output text) (Appends (Self.contents self.old) (Self.contents self.new))) }
        ensures failed { OnErr result (may_fail ≡ true) };

    /// Has what was written go out at once, as `Write::flush` does.
    fn send(&mut self) -> io::Result<()>
        ensures bytes { OnOk result (Keeps (Self.contents self.old) (Self.contents self.new)) }
        ensures failed { OnErr result (may_fail ≡ true) };
}

impl<P: Print> Sink for Printer<'_, P> {
    ghost may_fail = { true };

    fn put(&mut self, bytes: &[u8]) -> io::Result<()> {
        self.write_all(bytes)
    }

    fn put_text<D: Display + Drop>(&mut self, text: D) -> io::Result<()> {
        self.write_fmt(text)
    }

    fn send(&mut self) -> io::Result<()> {
        self.flush()
    }
}

impl Sink for Vec<u8> {
    ghost may_fail = { true };

    fn put(&mut self, bytes: &[u8]) -> io::Result<()> {
        self.write_all(bytes)
    }

    fn put_text<D: Display + Drop>(&mut self, text: D) -> io::Result<()> {
        self.write_fmt(text)
    }

    fn send(&mut self) -> io::Result<()> {
        self.flush()
    }
}

impl Sink for &TcpStream {
    ghost may_fail = { true };

    fn put(&mut self, bytes: &[u8]) -> io::Result<()> {
        self.write_all(bytes)
    }

    fn put_text<D: Display + Drop>(&mut self, text: D) -> io::Result<()> {
        self.write_fmt(text)
    }

    fn send(&mut self) -> io::Result<()> {
        self.flush()
    }
}

impl Sink for io::Sink {
    ghost may_fail = { false };

    fn put(&mut self, _bytes: &[u8]) -> io::Result<()> {
        Ok(())
    }

    fn put_text<D: Display + Drop>(&mut self, text: D) -> io::Result<()> {
        drop(text);
        Ok(())
    }

    fn send(&mut self) -> io::Result<()> {
        Ok(())
    }
}
