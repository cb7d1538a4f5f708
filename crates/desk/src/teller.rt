//! What people are told beside the answers, on standard error, of the file of a desk, and of a port. No clause speaks of it.

use crate::obstacle::{Obstacle, obstacle_to};
use crate::status::Failure;
use desk_book::Fault;
use desk_codes::Day;
use desk_file::{Difference, MirroredRegister, OpenFault, Progress, Table};
use desk_rules::{Entry, Reply};
use memory_register::ListRegister;
use sql_register::{Failures, Session, SqlRegister};
use sqlite::{Error, ErrorCode};
use std::io::{self, IsTerminal};

/// So many entries are read before it is told how far the opening of a file is.
const UNTOLD: u64 = 20_000;

/// It is told each time so many entries more are read.
const TOLD_EACH: u64 = 5_000;

/// As many files may be read, or answers written, before it is told how far that is, and it is told each time so many more are.
const FILES_TOLD_EACH: usize = 2_000;

/// How many files of a folder were taken, and how many of them were accepted, refused, or answered by a fault.
#[derive(Clone, Copy)]
pub struct Tally {
    files: usize,
    accepted: usize,
    refused: usize,
    failed: usize,
}

impl Tally {
    /// That of no files.
    pub fn new() -> Tally {
        Tally {
            files: 0,
            accepted: 0,
            refused: 0,
            failed: 0,
        }
    }

    /// Counts a file with this answer.
    pub fn count(&mut self, answer: &Result<Reply, Fault>) {
        self.files = self.files.saturating_add(1);
        let same = match answer {
            Ok(reply) if reply.status == 200 => &mut self.accepted,
            Ok(_) => &mut self.refused,
            Err(_) => &mut self.failed,
        };
        *same = same.saturating_add(1);
    }
}

/// A register of which it can be told what failed in it.
pub trait Failing {
    /// The calls that failed so far.
    fn failures(&self) -> Failures;
}

impl Failing for ListRegister {
    fn failures(&self) -> Failures {
        Failures::none()
    }
}

impl<S: Session + Drop> Failing for MirroredRegister<ListRegister, SqlRegister<S>> {
    fn failures(&self) -> Failures {
        self.tables().failures()
    }
}

/// Who is told of a port, of what failed, and whether a desk is closed.
pub trait Watch {
    /// The port can be listened at, or not.
    fn bound<T>(&self, port: u16, bound: &io::Result<T>);

    /// The desk is closed or not, and its register met these failures, now that requests were answered.
    fn look(&mut self, is_closed: bool, failures: Failures);
}

/// Tells of a port alone: a desk in memory stays open.
#[derive(Drop)]
pub struct Crier<'a> {
    pub rt: &'a HostRuntime,
}

impl Watch for Crier<'_> {
    fn bound<T>(&self, port: u16, bound: &io::Result<T>) {
        if let Err(error) = bound {
            let _ = eprintln!(self.rt; "desk: port {port} of 127.0.0.1: {error}");
        }
    }

    fn look(&mut self, _is_closed: bool, _failures: Failures) {}
}

/// The code of what the library told, where it has one.
fn code_of(error: &Error) -> Option<ErrorCode> {
    match error {
        Error::SqliteFailure(code) => Some(*code),
        _ => None,
    }
}

/// What a code tells of a file, where it tells which thing failed.
fn words_of(code: Option<ErrorCode>) -> Option<&'static str> {
    match code {
        Some(ErrorCode::DatabaseBusy) => Some("another program has it open, or its log"),
        Some(ErrorCode::DiskFull) => Some("no room is left on its device"),
        Some(ErrorCode::DatabaseCorrupt) => Some("its device gave other bytes than it took"),
        _ => None,
    }
}

/// Tells of a file.
#[derive(Drop)]
pub struct Teller<'a> {
    rt: &'a HostRuntime,
    path: &'a str,
    /// Whether somebody looks at a terminal
    is_watched: bool,
    /// Whether it was told that the desk is closed
    has_told: bool,
    /// How many failures had been met when it was last looked
    failures: u64,
    /// How many entries were read when the file was opened
    entries: u64,
    /// The day of the last run among them, if there is one
    last_run: Option<Day>,
    /// The version that its tables say, if they are of another
    version: Option<i64>,
    /// What the library told of files that it did not open
    code: Option<ErrorCode>,
}

impl<'a> Teller<'a> {
    /// Who tells of the file of this path.
    pub fn new(rt: &'a HostRuntime, path: &'a str) -> Teller<'a> {
        Teller {
            rt,
            path,
            is_watched: rt.stderr().is_terminal(),
            has_told: false,
            failures: 0,
            entries: 0,
            last_run: None,
            version: None,
            code: None,
        }
    }

    /// Tells what was found in the file, which is opened.
    pub fn opened(&self, was_there: bool) {
        let path = self.path;
        let _ = match self.entries {
            0 if !was_there => {
                eprintln!(self.rt; "desk: {path}: it is new: a desk without entries is made in it")
            }
            0 => eprintln!(self.rt; "desk: {path}: it holds no entries"),
            count => self.found(count, if count == 1 { "entry" } else { "entries" }),
        };
    }

    /// Tells how many entries were found, with the day of the last run.
    fn found(&self, count: u64, noun: &str) -> io::Result<()> {
        let path = self.path;
        match &self.last_run {
            Some(day) => {
                let day = day.as_str();
                eprintln!(self.rt;
                    "desk: {path}: it holds {count} {noun}; the last run is of {day}"
                )
            }
            None => eprintln!(self.rt; "desk: {path}: it holds {count} {noun}, and no run"),
        }
    }

    /// Tells why the file is not opened; whether it was before it failed.
    pub fn unopened(&self, fault: OpenFault, was_open: bool) {
        match fault {
            OpenFault::NotOurFile(difference) => self.differs(difference),
            OpenFault::OtherVersion => self.of_version(match self.version {
                Some(1 | 2) =>
                    "those of this program of 3; desk migrate brings over a desk's of 1 and 2",
                _ => "those of this program of 3",
            }),
            OpenFault::Memory => self.tell(60, "memory is wanting"),
            OpenFault::Storage => self.failed_so(was_open),
        }
    }

    /// Tells why the file of an earlier version is not read.
    pub fn unread(&self, fault: OpenFault, was_open: bool) {
        match fault {
            OpenFault::OtherVersion => self.of_version(match self.version {
                Some(3) => "as those of this program are: it needs no migration",
                _ => "1 and 2 are brought over",
            }),
            _ => self.unopened(fault, was_open),
        }
    }

    /// Tells of which version the file is, and what that comes to.
    fn of_version(&self, words: &str) {
        let path = self.path;
        let _ = match self.version {
            Some(number) => {
                eprintln!(self.rt;
                    "desk: {path}: fault 51: its tables are of version {number}, {words}"
                )
            }
            None => eprintln!(self.rt;
                "desk: {path}: fault 51: its tables are of another version, {words}"
            ),
        };
    }

    /// Tells how the file failed: what the library told, or what stands in its way. Once it was open, the system says no more.
    fn failed_so(&self, was_open: bool) {
        match words_of(self.code) {
            Some(words) => self.tell(61, words),
            None if was_open => self.device_failed(),
            None => self.obstructed(),
        }
    }

    /// Tells that the device failed.
    fn device_failed(&self) {
        self.tell(
            61,
            "its device failed as it was read, or written: an error there, or no room left",
        );
    }

    /// Tells that the file is none that may be read, or made, and why.
    pub fn refused(&self, words: &str) {
        self.tell(50, words);
    }

    /// Tells in what a call of the system failed, and why.
    pub fn hindered(&self, words: &str, error: &io::Error) {
        match error.kind() {
            io::ErrorKind::OutOfMemory => self.tell(60, "memory is wanting"),
            _ => self.tell_error(words, error),
        }
    }

    /// Tells that a history could not be put into the file.
    pub fn unfilled(&self, failure: Failure) {
        match failure {
            Failure::Memory => self.tell(60, "memory is wanting"),
            Failure::NotOurFile => self.tell(50, "it holds entries already"),
            _ => self.device_failed(),
        }
    }

    /// Tells what stands in the way of the file.
    fn obstructed(&self) {
        match obstacle_to(self.rt, self.path) {
            Ok(Obstacle::NoFolder(error)) => self.tell_error("its folder", &error),
            Ok(Obstacle::Unmade) => self.tell(
                61,
                "it is not there, and cannot be made: nothing may be written in its folder, no room is left, or the name is one as :memory: or file:NAME",
            ),
            Ok(Obstacle::Closed(error)) => self.tell_error("it cannot be read and written", &error),
            Ok(Obstacle::Journal) => self.tell(
                61,
                "a journal stands beside it, with changes of another program that came to no end",
            ),
            Ok(Obstacle::Log(error)) => self.tell_error(
                "its log cannot be read and written",
                &error,
            ),
            Ok(Obstacle::NoneFound) => self.tell(
                61,
                "another program has it open, or its log, or the device failed as it was opened",
            ),
            Err(error) => self.tell_error("it cannot be looked at", &error),
        }
    }

    /// Tells that nobody can say whether there is a file, and why.
    pub fn unseen(&self, error: &io::Error) {
        self.tell_error("it cannot be looked at", error);
    }

    /// Tells that there is no file.
    pub fn missing(&self) {
        self.tell(61, "there is no such file, and none is made");
    }

    /// Tells what a call on the file met that failed; nothing of one behind an earlier one that closed it.
    pub fn met(&self, error: &Error) {
        let code = code_of(error);
        if let Some(ErrorCode::Closed) = code {
            return;
        }
        let words = words_of(code).unwrap_or("its device failed as it was read, or written");
        let _ = eprintln!(self.rt; "desk: {}: a call on it failed: {words}", self.path);
    }

    /// Tells that the file could not be closed.
    pub fn unclosed(&self) {
        self.tell(
            61,
            "it could not be closed: its log stays beside it, and belongs to it",
        );
    }

    /// Tells of which folder something failed, and why, and hands it on. What is not printable in its name is escaped.
    pub fn told<T: Drop>(&self, path: &str, done: io::Result<T>) -> io::Result<T> {
        if let Err(error) = &done {
            let _ = eprintln!(self.rt; "desk: {}: {path:?}: {error}", self.path);
        }
        done
    }

    /// The same of a file in a folder.
    pub fn told_in<T: Drop>(&self, folder: &str, name: &str, done: io::Result<T>) -> io::Result<T> {
        if let Err(error) = &done {
            let _ = eprintln!(self.rt;
                "desk: {}: \"{}/{}\": {error}",
                self.path,
                folder.escape_debug(),
                name.escape_debug()
            );
        }
        done
    }

    /// Tells that a file in a folder has a name that is not UTF-8.
    pub fn odd_name(&self, folder: &str, name: &[u8]) {
        let _ = eprintln!(self.rt;
            "desk: {}: \"{}/{}\": its name is not UTF-8",
            self.path,
            folder.escape_debug(),
            name.escape_ascii()
        );
    }

    /// Tells how many files of a folder are read.
    pub fn has_read(&self, count: usize) {
        if self.is_watched && count % FILES_TOLD_EACH == 0 {
            let _ = eprintln!(self.rt; "desk: {}: {count} files are read", self.path);
        }
    }

    /// Tells how many answers are written.
    pub fn has_written(&self, tally: Tally) {
        let count = tally.files;
        if self.is_watched && count % FILES_TOLD_EACH == 0 {
            let _ = eprintln!(self.rt; "desk: {}: {count} answers are written", self.path);
        }
    }

    /// Tells how a folder was taken.
    pub fn taken_folder(&self, tally: Tally) {
        let Tally {
            files,
            accepted,
            refused,
            failed,
        } = tally;
        let _ = eprintln!(self.rt;
            "desk: {}: {files} files are taken: {accepted} accepted, {refused} refused, {failed} not answered for a fault",
            self.path
        );
    }

    /// Tells in what the file differs from those of the desk.
    fn differs(&self, difference: Difference) {
        match difference {
            Difference::NoDatabase => self.tell(50, "it is no database, or a damaged one"),
            Difference::OtherTables => {
                self.tell(50, "it has other tables than the desk's, or others beside")
            }
            Difference::Entry(number) => self.differs_at(number),
            Difference::Table(table) => self.differs_in(table),
        }
    }

    /// Tells at which entry it differs.
    fn differs_at(&self, number: u64) {
        let _ = eprintln!(self.rt;
            "desk: {}: fault 50: entry {number}, in the table register, is not one that was accepted there with this reply",
            self.path
        );
    }

    /// Tells in which table it differs.
    fn differs_in(&self, table: Table) {
        let name = match table {
            Table::State => "state",
            Table::Sent => "sent",
            Table::Amounts => "balance, cash or total",
        };
        let _ = eprintln!(self.rt;
            "desk: {}: fault 50: the table {name} does not say what the entries come to",
            self.path
        );
    }

    /// Tells a fault of the file.
    fn tell(&self, number: u8, words: &str) {
        let _ = eprintln!(self.rt; "desk: {}: fault {number}: {words}", self.path);
    }

    /// Tells that the file failed, and what the system told.
    fn tell_error(&self, words: &str, error: &io::Error) {
        let _ = eprintln!(self.rt; "desk: {}: fault 61: {words}: {error}", self.path);
    }
}

impl Progress for Teller<'_> {
    fn says_version(&mut self, number: i64) {
        self.version = Some(number);
    }

    fn failed(&mut self, error: &Error) {
        if let Some(code) = code_of(error) {
            self.code = Some(code);
        }
    }

    fn taken(&mut self, count: u64, entry: &Entry) {
        self.entries = count;
        if let Entry::Run { day, .. } = entry {
            self.last_run = Some(*day);
        }
        if self.is_watched && count >= UNTOLD && count % TOLD_EACH == 0 {
            let _ = eprintln!(self.rt; "desk: {}: {count} entries are read", self.path);
        }
    }
}

impl Watch for Teller<'_> {
    fn bound<T>(&self, port: u16, bound: &io::Result<T>) {
        Crier { rt: self.rt }.bound(port, bound);
    }

    fn look(&mut self, is_closed: bool, failures: Failures) {
        if failures.count > self.failures {
            if let Some(error) = &failures.last {
                self.met(error);
            }
        }
        self.failures = failures.count;
        if is_closed && !self.has_told {
            self.has_told = true;
            let _ = eprintln!(self.rt;
                "desk: {}: fault 62: the file failed, and the desk is closed: it answers nothing more; run it anew over the file",
                self.path
            );
        }
    }
}
