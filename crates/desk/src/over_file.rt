//! What is done over the desk of a file, which is opened before it, and closed behind it.
ghost use Rattle.std.specs.Prelude.{◌≡◌, true, false, is_ok, is_some, None, IfErr, IfOk, IfSome, OnErr};
ghost use Rattle.std.specs.Io.KnownBytes.{Appends};
ghost use Rattle.sqlite.specs.Files.{file_state};
ghost use Rattle.sqlite.specs.State.{HasCleanDisk};
ghost use Rattle.sqlite_wal.specs.Files.{image_at};
ghost use Rattle.desk_rules.specs.Books.{Books};
ghost use Rattle.desk_rules.specs.declared.limits.TheConstants.{MOST_ENTRIES};
ghost use Rattle.desk_engine.specs.Ready.{IsReady};
ghost use Rattle.desk_register.specs.View.{IsLater};
ghost use Rattle.desk_file.specs.Opened.{IsOpened, IsReadyFor, view_of_both};
ghost use Rattle.desk.specs.Left.{AreLeft, AreSaid, IsCleanBehind, IsFoundIn, IsLeft};
ghost use Rattle.desk.specs.OverFile.{IsAsked, IsDone, IsDoneOver, IsFileAnswer, IsOpenAnswer, LeavesFiles};
ghost use Rattle.desk.specs.PlayAnswer.{AreHeld, KeptBy};
ghost use Rattle.desk.specs.Status.{IsOpeningFailure, IsUnopened};

use crate::answers::{
    Folders, Shown, Trial, play_desk, report_desk, serve_desk, show_on_both, take_folder,
    try_on_both,
};
use crate::status::{Failure, Status};
use crate::store::{
    Behind, FileRegister, close_behind, connection_of, open, open_there, tell_unopened,
};
use crate::teller::{Failing, Teller, Watch};
use desk_book::{Desk, WasClosed};
use desk_codes::Bic;
use desk_file::MirroredRegister;
use desk_register::Register;
use desk_report::Format;
use desk_streams::{Sink, Source};
use memory_register::ListRegister;
use sql_register::{Session, SqlRegister};
use sqlite::{FileFrom, Start};
use sqlite_disk::Disk;
use std::io;
use std::rt::HostRuntime;

/// What is done over the desk of a file.
#[derive(Clone, Copy)]
pub enum Job<'a> {
    /// It is asked
    Ask(Ask<'a>),
    /// This is shown of it
    Show(Shown, Format),
    /// A script is tried over it
    Try(Trial),
}

/// What a desk is asked.
#[derive(Clone, Copy)]
pub enum Ask<'a> {
    /// What the lines of a script ask
    Play,
    /// What so many connections ask at a port of 127.0.0.1
    Serve(u16, u32),
    /// What the files of a folder ask
    Take(Folders<'a>),
    /// What an account of a participant holds, or the totals where none is named
    Tell(Option<Bic>, &'a [u8]),
}

/// Opens the desk of a file, does a job over it, and closes it. What is told is what the job tells by itself; a file that is not
/// opened, or not closed, is its fault. Where the desk was closed, standard error says so. What is behind the job is handed back,
/// where the file was opened. `start` stands for what the files held, as at `open_file`.
pub fn over_file<S: Start, R: Source, W: Sink>(
    rt: &HostRuntime,
    path: &str,
    start: S,
    job: &Job<'_>,
    reader: &mut R,
    writer: &mut W,
) -> (io::Result<Status>, Option<Behind<FileFrom<S>>>)
    ensures done { IfSome result.1 (λ behind. IsDoneOver (image_at S.Start) job.now behind result.0 (R.remaining reader.old) (reader.new ≡ reader.old) R.may_fail (Appends (W.contents writer.old) (W.contents writer.new))) }
    ensures unopened { result.1 ≡ None → (reader.new ≡ reader.old) × IfOk result.0 (λ status. IsUnopened status (Appends (W.contents writer.old) (W.contents writer.new))) }
    ensures told { IfOk result.0 (λ status. IsFileAnswer job.now (R.remaining reader.old) (reader.new ≡ reader.old) R.may_fail status (Appends (W.contents writer.old) (W.contents writer.new))) }
    ensures failed { OnErr result.0 (W.may_fail ≡ true) }
{
    match open_for(rt, path, start, job) {
        Ok(both) => {
            let (told, behind) = over_opened(rt, path, both, job, reader, writer);
            (told, Some(behind))
        }
        Err(failure) => (tell_unopened(failure, writer), None),
    }
}

/// Opens the desk of a file. One that is told of, or tried over, is there; else it is made where there is none.
fn open_for<S: Start>(
    rt: &HostRuntime,
    path: &str,
    start: S,
    job: &Job<'_>,
) -> Result<FileRegister<FileFrom<S>>, Failure>
    ensures opened { IfOk result (IsOpened file_state MOST_ENTRIES) }
    ensures which { IfOk result (IsFoundIn (image_at S.Start)) }
    ensures failure { IfErr result IsOpeningFailure }
{
    match job {
        Job::Ask(Ask::Tell(..)) | Job::Show(..) | Job::Try(_) => open_there(rt, path, start),
        Job::Ask(_) => open(rt, path, start),
    }
}

/// The job over a file that was opened.
fn over_opened<D: Disk + Drop, R: Source, W: Sink>(
    rt: &HostRuntime,
    path: &str,
    both: FileRegister<D>,
    job: &Job<'_>,
    reader: &mut R,
    writer: &mut W,
) -> (io::Result<Status>, Behind<D>)
    requires { IsReadyFor MOST_ENTRIES (view_of_both file_state both) }
    ensures told { (books : Books) → KeptBy (view_of_both file_state both) books
        → IfOk result.0 (λ status. IsOpenAnswer job.now (is_ok result.1.files) (AreLeft D.Disk result.1.was_closed result.1.files) books (R.remaining reader.old) (reader.new ≡ reader.old) R.may_fail status (Appends (W.contents writer.old) (W.contents writer.new))) }
    ensures answered { IfOk result.0 (λ status. IsFileAnswer job.now (R.remaining reader.old) (reader.new ≡ reader.old) R.may_fail status (Appends (W.contents writer.old) (W.contents writer.new))) }
    ensures left { (books : Books) → KeptBy (view_of_both file_state both) books → LeavesFiles D.Disk job.now result.0 result.1.was_closed result.1.files books (R.remaining reader.old) }
    ensures clean { IsCleanBehind result.1.files → HasCleanDisk (file_state both.tables.connection) }
    ensures failed { OnErr result.0 (W.may_fail ≡ true) }
{
    let mut teller = Teller::new(rt, path);
    let (told, was_closed, conn) = over_both(rt, both, job, &mut teller, reader, writer);
    close_behind(rt, &teller, told, path, was_closed, conn, writer)
}

/// The job over tables with a register in memory beside them, of which the connection is given back, with that the desk was closed,
/// where it was.
fn over_both<S: Session + Drop, R: Source, W: Sink>(
    rt: &HostRuntime,
    both: MirroredRegister<ListRegister, SqlRegister<S>>,
    job: &Job<'_>,
    teller: &mut Teller<'_>,
    reader: &mut R,
    writer: &mut W,
) -> (io::Result<Status>, Option<WasClosed>, S)
    requires { IsReadyFor MOST_ENTRIES (view_of_both S.state both) }
    ensures done { IsDone job.now (KeptBy (view_of_both S.state both)) (AreSaid result.1 (S.state result.2)) (R.remaining reader.old) (reader.new ≡ reader.old) R.may_fail result.0 (Appends (W.contents writer.old) (W.contents writer.new)) }
    ensures clean { HasCleanDisk (S.state result.2) → HasCleanDisk (S.state both.tables.connection) }
    ensures failed { OnErr result.0 (W.may_fail ≡ true) }
{
    match job {
        Job::Ask(ask) => ask_on_both(rt, both, ask, teller, reader, writer),
        Job::Show(shown, format) => {
            let (told, conn) = show_on_both(rt.alloc(), both, *shown, *format, writer);
            (told, None, conn)
        }
        Job::Try(trial) => {
            let (told, conn) = try_on_both(rt.alloc(), both, *trial, reader, writer);
            (told, None, conn)
        }
    }
}

/// Asks the desk over such tables.
fn ask_on_both<S: Session + Drop, R: Source, W: Sink>(
    rt: &HostRuntime,
    both: MirroredRegister<ListRegister, SqlRegister<S>>,
    ask: &Ask<'_>,
    teller: &mut Teller<'_>,
    reader: &mut R,
    writer: &mut W,
) -> (io::Result<Status>, Option<WasClosed>, S)
    requires { IsReadyFor MOST_ENTRIES (view_of_both S.state both) }
    ensures asked { IsAsked ask.now MOST_ENTRIES (KeptBy (view_of_both S.state both)) (AreSaid result.1 (S.state result.2)) (R.remaining reader.old) (reader.new ≡ reader.old) R.may_fail result.0 (Appends (W.contents writer.old) (W.contents writer.new)) }
    ensures clean { HasCleanDisk (S.state result.2) → HasCleanDisk (S.state both.tables.connection) }
    ensures failed { OnErr result.0 (W.may_fail ≡ true) }
{
    let (told, was_closed, both) = ask_on(rt, both, ask, teller, reader, writer);
    teller.look(was_closed.is_some(), both.failures());
    (told, was_closed, connection_of(both))
}

/// Asks the desk over a register, which is given back, with that the desk was closed, where it was.
fn ask_on<D: Register + Failing + Drop, R: Source, W: Sink>(
    rt: &HostRuntime,
    register: D,
    ask: &Ask<'_>,
    teller: &mut Teller<'_>,
    reader: &mut R,
    writer: &mut W,
) -> (io::Result<Status>, Option<WasClosed>, D)
    requires { IsReady false (D.view register) }
    ensures asked { IsAsked ask.now (D.view register).room (AreHeld (D.view register) (D.view result.2)) (IsLeft (is_some result.1) (D.view result.2)) (R.remaining reader.old) (reader.new ≡ reader.old) R.may_fail result.0 (Appends (W.contents writer.old) (W.contents writer.new)) }
    ensures ready { IsReady (is_some result.1) (D.view result.2) }
    ensures later { IsLater (D.view register) (D.view result.2) }
    ensures failed { OnErr result.0 (W.may_fail ≡ true) }
{
    let mut desk = Desk::new(register);
    let told = ask_desk(rt, &mut desk, ask, teller, reader, writer);
    let (register, was_closed) = desk.into_parts();
    (told, was_closed, register)
}

/// Asks a desk that is open.
fn ask_desk<D: Register + Failing + Drop, R: Source, W: Sink>(
    rt: &HostRuntime,
    desk: &mut Desk<D>,
    ask: &Ask<'_>,
    teller: &mut Teller<'_>,
    reader: &mut R,
    writer: &mut W,
) -> io::Result<Status>
    requires { desk.old.is_closed ≡ false }
    ensures asked { IsAsked ask.now (D.view desk.old.register).room (AreHeld (D.view desk.old.register) (D.view desk.new.register)) (IsLeft desk.new.is_closed (D.view desk.new.register)) (R.remaining reader.old) (reader.new ≡ reader.old) R.may_fail result (Appends (W.contents writer.old) (W.contents writer.new)) }
    ensures later { IsLater (D.view desk.old.register) (D.view desk.new.register) }
    ensures failed { OnErr result (W.may_fail ≡ true) }
{
    match ask {
        Ask::Play => play_desk(rt.alloc(), desk, reader, writer),
        Ask::Serve(port, count) => serve_desk(rt, rt.alloc(), *port, *count, desk, teller, writer),
        Ask::Take(folders) => take_folder(rt, desk, teller, *folders, writer),
        Ask::Tell(owner, account) => report_desk(rt.alloc(), desk, *owner, account, writer),
    }
}
