//! `desk migrate`.
ghost use Rattle.std.specs.Prelude.{◌≡◌, true, false, length, IfErr, IfOk, IfSome, IsOkAnd, IsSomeAnd, OnErr, OnOk};
ghost use Rattle.std.specs.Io.KnownBytes.{Appends};
ghost use Rattle.sqlite.specs.Files.{file_state};
ghost use Rattle.sqlite_wal.specs.Files.{image_at};
ghost use Rattle.desk_rules.specs.Verdict.{WasAccepted};
ghost use Rattle.desk_old.specs.Old.{AreHistory};
ghost use Rattle.desk_rules.specs.declared.limits.TheConstants.{MOST_ENTRIES};
ghost use Rattle.desk_register.specs.declared.register.Stage.TheVariants.{Idle};
ghost use Rattle.desk_engine.specs.Ready.{IsReady};
ghost use Rattle.desk_engine.specs.Rebuilt.{HoldsEntries};
ghost use Rattle.desk_file.specs.Opened.{IsOpened, IsReadyFor, view_of_both};
ghost use Rattle.desk.specs.Closed.{AreClosed};
ghost use Rattle.desk.specs.MigrateAnswer.{HoldHistory, IsMigrateAnswer, IsMigrated, IsRead, SayHistory, migrated_line};
ghost use Rattle.desk.specs.Status.{IsOpeningFailure};

use crate::folders::make_way;
use crate::status::{Failure, Status, tell_failure};
use crate::store::{FileRegister, close, connection_of, remove_log};
use crate::teller::Teller;
use desk_engine::{Failure as Undoing, rebuild};
use desk_file::{Difference, MirroredRegister, OpenFault, open_file};
use desk_old::old_entries;
use desk_register::{Fault, Register};
use desk_rules::{Entry, MOST_ENTRIES};
use desk_streams::Sink;
use memory_register::ListRegister;
use sql_register::{Session, SqlRegister};
use sqlite::{Connection, FileFrom, FileStore, Files, Start};
use sqlite_disk::Disk;
use std::alloc::Global;
use std::path::Path;
use std::rt::HostRuntime;
use std::{fs, io};

/// A new file is made under its name with this behind it, until it is whole.
const UNFINISHED: &str = "-unfinished";

/// The two files of a migration.
#[derive(Clone, Copy)]
pub struct Paths<'a> {
    pub old: &'a str,
    pub new: &'a str,
}

/// What is behind a migration that was done.
#[derive(Drop)]
pub struct Migrated<A: Disk, B: Disk> {
    /// The entries of the history
    pub entries: Vec<Entry>,
    /// The store of the old file, which was read alone
    pub read: FileStore<A>,
    /// What was made of it
    pub made: Made<B>,
}

/// A file that was made.
#[derive(Drop)]
pub struct Made<D: Disk> {
    /// What was closed of it; by contract never its store, which would stand here where it could not be
    pub files: Result<Files<D>, FileStore<D>>,
}

/// Brings the history of a file of an earlier version over into a new file, and tells how many entries it has. Standard error says
/// of which file a fault is told. What was read and what was made is handed back, where the new file stands at its name. `held` and
/// `start` stand for what the old file holds, and for what the new one's place does, as at `open_file`.
pub fn migrate_file<A: Start, B: Start, W: Sink>(
    rt: &HostRuntime,
    paths: Paths<'_>,
    held: A,
    start: B,
    writer: &mut W,
) -> (
    io::Result<Status>,
    Option<Migrated<FileFrom<A>, FileFrom<B>>>,
)
    ensures migrated { IfSome result.1 (IsMigrated (image_at A.Start)) }
    ensures told { IfOk result.0 (λ status. IsMigrateAnswer status (Appends (W.contents writer.old) (W.contents writer.new))) }
    ensures count { IfOk result.0 (λ status. status ≡ Status.Done → IsSomeAnd result.1 (λ it. Appends (W.contents writer.old) (W.contents writer.new) (migrated_line (length it.entries.items)))) }
    ensures failed { OnErr result.0 (W.may_fail ≡ true) }
{
    match read_and_put(rt, paths, held, start) {
        Ok(it) => (tell_count(it.entries.len(), writer), Some(it)),
        Err(failure) => (tell_failure(failure, writer), None),
    }
}

/// Tells how many entries there are.
fn tell_count<W: Sink>(count: usize, writer: &mut W) -> io::Result<Status>
    ensures told { IfOk result (λ status. (status ≡ Status.Done) × Appends (W.contents writer.old) (W.contents writer.new) (migrated_line count)) }
    ensures failed { OnErr result (W.may_fail ≡ true) }
{
    writer.put_text(format_args!("migrated {count}\n"))?;
    Ok(Status::Done)
}

/// The history of the old file, read and put into the new one.
fn read_and_put<A: Start, B: Start>(
    rt: &HostRuntime,
    paths: Paths<'_>,
    held: A,
    start: B,
) -> Result<Migrated<FileFrom<A>, FileFrom<B>>, Failure>
    ensures migrated { IfOk result (IsMigrated (image_at A.Start)) }
    ensures failure { IfErr result IsOpeningFailure }
{
    let (entries, read) = read_alone(rt, paths.old, held)?;
    match made_file(rt, paths, start, &entries) {
        Ok(made) => Ok(Migrated {
            entries,
            read,
            made,
        }),
        Err(failure) => Err(failure),
    }
}

/// The same as `read_old`, with no log beside the old file where there was none: one that holds nothing comes where a file is opened.
fn read_alone<A: Start>(
    rt: &HostRuntime,
    path: &str,
    held: A,
) -> Result<(Vec<Entry>, FileStore<FileFrom<A>>), Failure>
    ensures accepted { IfOk result (λ it. AreHistory it.0.items) }
    ensures which { IfOk result (λ it. IsRead (image_at A.Start) it.0.items it.1) }
    ensures failure { IfErr result IsOpeningFailure }
{
    let had_log = has_log(rt, path);
    let read = read_old(rt, path, held);
    if !had_log {
        let _ = remove_log(rt, path);
    }
    read
}

/// Whether a log stands beside a file; where that cannot be seen, it counts as one.
fn has_log(rt: &HostRuntime, path: &str) -> bool {
    match format!(in rt.alloc(); "{path}-wal") {
        Ok(log) => fs::exists(rt, log.as_str()).unwrap_or(true),
        Err(_) => true,
    }
}

/// The entries of the history of the old file, and its store, in which nothing was written.
fn read_old<A: Start>(
    rt: &HostRuntime,
    path: &str,
    held: A,
) -> Result<(Vec<Entry>, FileStore<FileFrom<A>>), Failure>
    ensures accepted { IfOk result (λ it. AreHistory it.0.items) }
    ensures which { IfOk result (λ it. IsRead (image_at A.Start) it.0.items it.1) }
    ensures failure { IfErr result IsOpeningFailure }
{
    if let Err(failure) = look_at_old(rt, path) {
        return Err(failure);
    }
    let mut teller = Teller::new(rt, path);
    match old_entries(rt, path, held, &mut teller) {
        Ok(read) => Ok(read),
        Err((fault, left)) => {
            teller.unread(fault, left.is_some());
            Err(Failure::from(fault))
        }
    }
}

/// Whether there is an old file: where none is, or one of no bytes, an opening would make one.
fn look_at_old(rt: &HostRuntime, path: &str) -> Result<(), Failure>
    ensures { IfErr result IsOpeningFailure }
{
    match holds_bytes(rt, path) {
        Ok(true) => Ok(()),
        Ok(false) => {
            Teller::new(rt, path).refused("there is no such file, or it holds nothing");
            Err(Failure::from(OpenFault::NotOurFile(Difference::NoDatabase)))
        }
        Err(error) => Err(hindered_at(rt, path, "it cannot be looked at", &error)),
    }
}

/// Tells in what a call of the system failed, and gives what that comes to.
fn hindered_at(rt: &HostRuntime, path: &str, words: &str, error: &io::Error) -> Failure
    ensures { IsOpeningFailure result }
{
    Teller::new(rt, path).hindered(words, error);
    failure_of(error)
}

/// Makes a new file of a history under another name, and renames it once it is whole and closed: so it stands at its name whole, or
/// not at all.
fn made_file<B: Start>(
    rt: &HostRuntime,
    paths: Paths<'_>,
    start: B,
    entries: &[Entry],
) -> Result<Made<FileFrom<B>>, Failure>
    requires accepted { AreHistory entries.now }
    ensures holds { IfOk result (λ made. HoldHistory made.files entries.now) }
    ensures failure { IfErr result IsOpeningFailure }
{
    let unfinished = free_place(rt, paths)?;
    let made = filled_file(rt, unfinished.as_str(), start, entries)?;
    match fs::rename(rt, unfinished.as_str(), paths.new) {
        Ok(()) => Ok(made),
        Err(error) => Err(hindered_at(rt, paths.new, "it cannot be put there", &error)),
    }
}

/// The path at which a new file is made. Where a file that holds something stands at its own, or a log beside it, there is none, and
/// none where the old file would be removed for it.
fn free_place(rt: &HostRuntime, paths: Paths<'_>) -> Result<String, Failure>
    ensures { IfErr result IsOpeningFailure }
{
    match is_in_the_way(rt, paths) {
        Ok(true) => {
            let teller = Teller::new(rt, paths.new);
            teller.refused(
                "it, or a log beside it, is there already, or OLD stands where it is made",
            );
            return Err(Failure::NotOurFile);
        }
        Ok(false) => {}
        Err(error) => return Err(hindered_at(rt, paths.new, "it cannot be looked at", &error)),
    }
    match cleared_place(rt, paths.new) {
        Ok(unfinished) => Ok(unfinished),
        Err(error) => Err(hindered_at(rt, paths.new, "what was left of it stays", &error)),
    }
}

/// Whether something stands in the way of a new file that may not be removed.
fn is_in_the_way(rt: &HostRuntime, paths: Paths<'_>) -> io::Result<bool> {
    Ok(is_taken(rt, paths.new)? || is_made_over_old(rt, paths)?)
}

/// Whether the new file, or its log, is made where the old file stands.
fn is_made_over_old(rt: &HostRuntime, paths: Paths<'_>) -> io::Result<bool> {
    let unfinished = unfinished_of(rt, paths.new)?;
    let log = format!(in rt.alloc(); "{unfinished}-wal")?;
    Ok(is_same(rt, paths.old, unfinished.as_str())? || is_same(rt, paths.old, log.as_str())?)
}

/// Whether two paths lead to one file; the first leads to some.
fn is_same(rt: &HostRuntime, path: &str, other: &str) -> io::Result<bool> {
    if !fs::exists(rt, other)? {
        return Ok(false);
    }
    let first = fs::canonicalize(rt, path)?;
    let second = fs::canonicalize(rt, other)?;
    Ok(first.as_str() == second.as_str())
}

/// Whether a file that holds something stands at a path, or a log beside it.
fn is_taken(rt: &HostRuntime, path: &str) -> io::Result<bool> {
    let log = format!(in rt.alloc(); "{path}-wal")?;
    Ok(holds_bytes(rt, path)? || holds_bytes(rt, log.as_str())?)
}

/// Whether a file that holds something stands at a path.
fn holds_bytes(rt: &HostRuntime, path: &str) -> io::Result<bool> {
    match fs::metadata(rt, path) {
        Ok(found) => Ok(found.len() > 0),
        Err(error) if error.kind() == io::ErrorKind::NotFound => Ok(false),
        Err(error) => Err(error),
    }
}

/// The path at which a new file is made, once what a killed run left there is removed.
fn cleared_place(rt: &HostRuntime, path: &str) -> io::Result<String> {
    let unfinished = unfinished_of(rt, path)?;
    let log = format!(in rt.alloc(); "{unfinished}-wal")?;
    make_way(rt, Path::new(unfinished.as_str()))?;
    make_way(rt, Path::new(log.as_str()))?;
    Ok(unfinished)
}

/// Where the new file of a path is made.
fn unfinished_of(rt: &HostRuntime, path: &str) -> io::Result<String> {
    Ok(format!(in rt.alloc(); "{path}{UNFINISHED}")?)
}

/// What is told of a file that cannot be made.
fn failure_of(error: &io::Error) -> Failure
    ensures { IsOpeningFailure result }
{
    match error.kind() {
        io::ErrorKind::OutOfMemory => Failure::Memory,
        _ => Failure::Storage,
    }
}

/// Makes a file of a history at a path, and closes it.
fn filled_file<B: Start>(
    rt: &HostRuntime,
    path: &str,
    start: B,
    entries: &[Entry],
) -> Result<Made<FileFrom<B>>, Failure>
    requires accepted { AreHistory entries.now }
    ensures holds { IfOk result (λ made. HoldHistory made.files entries.now) }
    ensures failure { IfErr result IsOpeningFailure }
{
    let mut teller = Teller::new(rt, path);
    match open_file(rt, path, start, MOST_ENTRIES, &mut teller) {
        Ok(both) => fill_and_close(rt, path, both, entries),
        Err((fault, left)) => {
            teller.unopened(fault, left.is_some());
            Err(Failure::from(fault))
        }
    }
}

/// Puts a history into the file of a desk that was opened, and closes it.
fn fill_and_close<D: Disk + Drop>(
    rt: &HostRuntime,
    path: &str,
    both: FileRegister<D>,
    entries: &[Entry],
) -> Result<Made<D>, Failure>
    requires ready { IsReadyFor MOST_ENTRIES (view_of_both file_state both) }
    requires accepted { AreHistory entries.now }
    ensures holds { IfOk result (λ made. HoldHistory made.files entries.now) }
    ensures failure { IfErr result IsOpeningFailure }
{
    let (filled, conn) = fill(rt.alloc(), both, entries);
    match filled {
        Ok(()) => close_made(rt, path, conn),
        Err(failure) => {
            Teller::new(rt, path).unfilled(failure);
            close_unfilled(rt, path, conn);
            Err(failure)
        }
    }
}

/// Closes a file into which a history could not be put.
fn close_unfilled<D: Disk + Drop>(rt: &HostRuntime, path: &str, conn: Connection<FileStore<D>>) {
    match close(rt, path, conn) {
        Ok(_files) => {}
        Err(_store) => {}
    }
}

/// Closes a file that was made.
fn close_made<D: Disk + Drop>(
    rt: &HostRuntime,
    path: &str,
    conn: Connection<FileStore<D>>,
) -> Result<Made<D>, Failure>
    ensures closed { IfOk result (λ made. IsOkAnd made.files (AreClosed conn)) }
    ensures failure { IfErr result IsOpeningFailure }
{
    match close(rt, path, conn) {
        Ok(files) => Ok(Made { files: Ok(files) }),
        Err(_store) => {
            Teller::new(rt, path).unclosed();
            Err(Failure::Storage)
        }
    }
}

/// Puts a history into the tables of a desk that holds nothing, whose connection is given back.
fn fill<S: Session + Drop>(
    alloc: Global,
    both: MirroredRegister<ListRegister, SqlRegister<S>>,
    entries: &[Entry],
) -> (Result<(), Failure>, S)
    requires ready { IsReadyFor MOST_ENTRIES (view_of_both S.state both) }
    requires accepted { AreHistory entries.now }
    ensures says { OnOk result.0 (SayHistory (S.state result.1) entries.now) }
    ensures failure { IfErr result.0 IsOpeningFailure }
{
    let mut both = both;
    let filled = put_all(alloc, &mut both, entries);
    (filled, connection_of(both))
}

/// Puts a history into a register that holds nothing.
fn put_all<R: Register>(alloc: Global, register: &mut R, entries: &[Entry]) -> Result<(), Failure>
    requires ready { IsReady false (R.view register.old) }
    requires accepted { WasAccepted (R.view register.old).room entries.now }
    ensures stage { OnOk result ((R.view register.new).stage ≡ Idle) }
    ensures holds { (R.view register.new).is_honest → OnOk result (HoldsEntries (R.view register.old).room entries.now (R.view register.new).content) }
    ensures failure { IfErr result IsOpeningFailure }
{
    match register.count(alloc) {
        Ok(0) => {}
        Ok(_) => return Err(Failure::NotOurFile),
        Err(fault) => return Err(failure_at(Undoing::Undone(fault))),
    }
    match rebuild(alloc, entries, register) {
        Ok(()) => Ok(()),
        Err(failure) => Err(failure_at(failure)),
    }
}

/// What is told where a history cannot be put into a register, which is given up then.
fn failure_at(failure: Undoing) -> Failure
    ensures { IsOpeningFailure result }
{
    match failure {
        Undoing::Undone(Fault::Memory) => Failure::Memory,
        Undoing::Undone(Fault::Storage) | Undoing::Lost => Failure::Storage,
    }
}
