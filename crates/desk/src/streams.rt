//! Standard input and output, of whose failures people are told on standard error. No clause speaks of it.
ghost use Rattle.std.specs.Prelude.{true};

use desk_book::LONGEST_SCRIPT;
use desk_streams::{Sink, Source};
use std::fmt::Display;
use std::io::{self, IsTerminal, Printer, Read, Stdin, Write};

/// Standard input. It is told where a read fails, and where it gives more than the longest script has.
#[derive(Drop)]
pub struct Input<'a> {
    rt: &'a HostRuntime,
    stdin: Stdin,
    /// So many bytes were read
    taken: usize,
}

impl<'a> Input<'a> {
    /// Of which nothing is read.
    pub fn new(rt: &'a HostRuntime) -> Input<'a> {
        Input {
            rt,
            stdin: rt.stdin(),
            taken: 0,
        }
    }

    /// Whether somebody types there.
    pub fn is_terminal(&self) -> bool {
        self.stdin.is_terminal()
    }
}

impl Read for Input<'_> {
    fn read(&mut self, buf: &mut [u8]) -> io::Result<usize> {
        let done = self.stdin.read(buf);
        match &done {
            Ok(count) => {
                self.taken = self.taken.saturating_add(*count);
                if self.taken > LONGEST_SCRIPT {
                    let _ = eprintln!(self.rt;
                        "desk: standard input: it has more than {LONGEST_SCRIPT} bytes"
                    );
                }
            }
            Err(error) => {
                let _ = eprintln!(self.rt; "desk: standard input: {error}");
            }
        }
        done
    }
}

impl Source for Input<'_> {
    ghost may_fail = { true };

    fn read_some(&mut self, buffer: &mut [u8]) -> io::Result<usize> {
        self.read(buffer)
    }
}

/// Standard output. It is told where a write fails, but where its reader has gone.
#[derive(Drop)]
pub struct Output<'a> {
    rt: &'a HostRuntime,
    printer: Printer<'a, HostRuntime>,
}

impl<'a> Output<'a> {
    /// To which nothing is written.
    pub fn new(rt: &'a HostRuntime) -> Output<'a> {
        Output {
            rt,
            printer: io::writer(rt),
        }
    }
}

impl Write for Output<'_> {
    fn write(&mut self, buf: &[u8]) -> io::Result<usize> {
        let done = self.printer.write(buf);
        if let Err(error) = &done {
            match error.kind() {
                // one that was interrupted is written again
                io::ErrorKind::BrokenPipe | io::ErrorKind::Interrupted => {}
                _ => {
                    let _ = eprintln!(self.rt; "desk: standard output: {error}");
                }
            }
        }
        done
    }

    fn flush(&mut self) -> io::Result<()> {
        self.printer.flush()
    }
}

impl Sink for Output<'_> {
    ghost may_fail = { true };

    fn put(&mut self, bytes: &[u8]) -> io::Result<()> {
        self.write_all(bytes)
    }

    fn put_text<D: Display + Drop>(&mut self, text: D) -> io::Result<()> {
        self.write_fmt(text)
    }

    fn send(&mut self) -> io::Result<()> {
        self.flush()
    }
}
