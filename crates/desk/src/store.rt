//! The desk of a file: opened, and closed again.
ghost use Rattle.std.specs.Prelude.{◌≡◌, Ok, true, is_ok, IfErr, IfOk, OnErr};
ghost use Rattle.std.specs.Io.KnownBytes.{Appends};
ghost use Rattle.sqlite.specs.Files.{file_state, IsClosed};
ghost use Rattle.sqlite_wal.specs.Files.{image_at};
ghost use Rattle.desk_register.specs.declared.register.Stage.TheVariants.{Idle};
ghost use Rattle.desk_file.specs.Opened.{IsOpened, view_of_both};
ghost use Rattle.memory_register.specs.ListsView.{view_of_lists};
ghost use Rattle.desk_rules.specs.Books.{Books};
ghost use Rattle.desk_rules.specs.declared.limits.TheConstants.{MOST_ENTRIES};
ghost use Rattle.desk.specs.Closed.{AreClosed};
ghost use Rattle.desk.specs.Left.{AreLeft, AreSaid, IsFoundIn, PassesOn, TablesSay};
ghost use Rattle.desk.specs.PlayAnswer.{KeptBy};
ghost use Rattle.desk.specs.Status.{Ends, IsFailureTold, IsOpeningFailure, IsUnopened};

use crate::status::{Failure, Status, tell_failure};
use crate::teller::Teller;
use desk_book::WasClosed;
use desk_file::{MirroredRegister, is_live, open_file};
use desk_rules::MOST_ENTRIES;
use desk_streams::Sink;
use memory_register::ListRegister;
use sql_register::{Session, SqlRegister};
use sqlite::{Connection, FileFrom, FileStore, Files, Start};
use sqlite_disk::Disk;
use std::rt::HostRuntime;
use std::{fs, io};

/// A log that holds nothing has so many bytes at most: its head of 32, and some that make no commit count.
const LONGEST_EMPTY_LOG: u64 = 64;

/// A register in memory beside the tables of a file on such a disk.
pub type FileRegister<D> = MirroredRegister<ListRegister, SqlRegister<Connection<FileStore<D>>>>;

/// What is behind a job that was done over the desk of a file.
#[derive(Drop)]
pub struct Behind<D: Disk> {
    /// That the desk was closed, where it was
    pub was_closed: Option<WasClosed>,
    /// Its files, which were closed; or their store, where they could not be
    pub files: Result<Files<D>, FileStore<D>>,
}

/// Opens the desk of a file, which is made where there is none. What is found in it, or why it is not opened, is told on standard error. `start` stands
/// for what the files hold, as at `open_file`.
pub fn open<S: Start>(
    rt: &HostRuntime,
    path: &str,
    start: S,
) -> Result<FileRegister<FileFrom<S>>, Failure>
    ensures opened { IfOk result (IsOpened file_state MOST_ENTRIES) }
    ensures which { IfOk result (IsFoundIn (image_at S.Start)) }
    ensures failure { IfErr result IsOpeningFailure }
{
    let was_there = fs::exists(rt, path).unwrap_or(true);
    let mut teller = Teller::new(rt, path);
    match open_file(rt, path, start, MOST_ENTRIES, &mut teller) {
        Ok(both) => {
            teller.opened(was_there);
            Ok(both)
        }
        Err((fault, left)) => {
            teller.unopened(fault, left.is_some());
            Err(Failure::from(fault))
        }
    }
}

/// Opens the desk of a file that is there.
pub fn open_there<S: Start>(
    rt: &HostRuntime,
    path: &str,
    start: S,
) -> Result<FileRegister<FileFrom<S>>, Failure>
    ensures opened { IfOk result (IsOpened file_state MOST_ENTRIES) }
    ensures which { IfOk result (IsFoundIn (image_at S.Start)) }
    ensures failure { IfErr result IsOpeningFailure }
{
    open_found(rt, path, start, fs::exists(rt, path))
}

/// The same once it was looked whether there is a file: where none was found, none is opened.
fn open_found<S: Start>(
    rt: &HostRuntime,
    path: &str,
    start: S,
    found: io::Result<bool>,
) -> Result<FileRegister<FileFrom<S>>, Failure>
    ensures opened { IfOk result (IsOpened file_state MOST_ENTRIES) }
    ensures which { IfOk result (IsFoundIn (image_at S.Start)) }
    ensures found { IfOk result (λ both. found ≡ Ok true) }
    ensures failure { IfErr result IsOpeningFailure }
{
    match found {
        Ok(true) => return open(rt, path, start),
        Ok(false) => Teller::new(rt, path).missing(),
        Err(error) => Teller::new(rt, path).unseen(&error),
    }
    Err(Failure::Storage)
}

/// Closes the file of a desk behind a run over it, which told this, and tells where it could not be closed.
pub fn close_behind<D: Disk + Drop, W: Sink>(
    rt: &HostRuntime,
    teller: &Teller<'_>,
    told: io::Result<Status>,
    path: &str,
    was_closed: Option<WasClosed>,
    conn: Connection<FileStore<D>>,
    writer: &mut W,
) -> (io::Result<Status>, Behind<D>)
    requires { OnErr told (W.may_fail ≡ true) }
    ensures closed { IfOk result.1.files (AreClosed conn) }
    ensures unclosed { IfErr result.1.files (IsClosed conn) }
    ensures left { PassesOn (AreSaid was_closed (file_state conn)) (AreLeft D.Disk result.1.was_closed result.1.files) }
    ensures ends { Ends (is_ok result.1.files) told result.0 (W.contents writer.old) (W.contents writer.new) }
    ensures failed { OnErr result.0 (W.may_fail ≡ true) }
{
    let files = close(rt, path, conn);
    (
        ended(teller, told, &files, writer),
        Behind { was_closed, files },
    )
}

/// Closes the file of a desk: what its log holds goes into it, and the log is removed while nobody else can open the two, which are
/// handed back. Where that fails their store is: a crash, or its end, leaves of them nothing else than it might have left before.
pub fn close<D: Disk + Drop>(
    rt: &HostRuntime,
    path: &str,
    conn: Connection<FileStore<D>>,
) -> Result<Files<D>, FileStore<D>>
    ensures closed { IfOk result (AreClosed conn) }
    ensures unclosed { IfErr result (IsClosed conn) }
{
    match conn.close_files() {
        Ok(files) => {
            // a log that holds nothing and stays is no harm
            let _ = remove_log(rt, path);
            Ok(files)
        }
        Err((error, store)) => {
            Teller::new(rt, path).met(&error);
            Err(store)
        }
    }
}

/// Writes why the file of a desk is not opened.
pub fn tell_unopened<W: Sink>(failure: Failure, writer: &mut W) -> io::Result<Status>
    requires { IsOpeningFailure failure }
    ensures told { IfOk result (λ status. IsUnopened status (Appends (W.contents writer.old) (W.contents writer.new))) }
    ensures which { IfOk result (λ status. IsFailureTold failure status (Appends (W.contents writer.old) (W.contents writer.new))) }
    ensures failed { OnErr result (W.may_fail ≡ true) }
{
    tell_failure(failure, writer)
}

/// Removes the log of a file, which stands beside the file itself where the path is a link.
pub fn remove_log(rt: &HostRuntime, path: &str) -> io::Result<()> {
    let file = fs::canonicalize(rt, path)?;
    let log = format!(in rt.alloc(); "{}-wal", file.display())?;
    // one that holds something is that of another file, which came to stand at this path meanwhile
    if fs::metadata(rt, log.as_str())?.len() <= LONGEST_EMPTY_LOG {
        fs::remove_file(rt, log.as_str())?;
    }
    Ok(())
}

/// The connection to the tables of a register that is two.
pub fn connection_of<S: Session + Drop>(both: MirroredRegister<ListRegister, SqlRegister<S>>) -> S
    ensures connection { result ≡ both.tables.connection }
    ensures left { both.stage ≡ Idle → (books : Books) → KeptBy (view_of_both S.state both) books → TablesSay (S.state result) books }
{
    parts_of(both).1
}

/// The same behind the register in memory.
pub fn parts_of<S: Session + Drop>(
    both: MirroredRegister<ListRegister, SqlRegister<S>>,
) -> (ListRegister, S)
    ensures memory { result.0 ≡ both.memory }
    ensures idle { both.stage ≡ Idle → (view_of_lists result.0).stage ≡ Idle }
    ensures connection { result.1 ≡ both.tables.connection }
    ensures left { both.stage ≡ Idle → (books : Books) → KeptBy (view_of_both S.state both) books → TablesSay (S.state result.1) books }
{
    let (memory, tables) = both.into_parts();
    let conn = tables.into_connection();
    is_live(&conn);
    (memory, conn)
}

/// Tells how a run over a file ended, which was closed then, or could not be. A run that ended in a fault tells no other.
fn ended<F, E, W: Sink>(
    teller: &Teller<'_>,
    told: io::Result<Status>,
    closed: &Result<F, E>,
    writer: &mut W,
) -> io::Result<Status>
    requires { OnErr told (W.may_fail ≡ true) }
    ensures ends { Ends (is_ok closed.now) told result (W.contents writer.old) (W.contents writer.new) }
    ensures failed { OnErr result (W.may_fail ≡ true) }
{
    let said = told?;
    match (said, closed) {
        (Status::Fault, _) | (_, Ok(_)) => Ok(said),
        _ => {
            teller.unclosed();
            tell_failure(Failure::Storage, writer)
        }
    }
}
