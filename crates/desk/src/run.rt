//! What the words ask for, answered.
ghost use Rattle.std.specs.Prelude.{◌≡◌, ◌⊎◌, ℕ, List, [], ◌∷◌, None, true, map, IfOk, OnErr};
ghost use Rattle.std.specs.Io.KnownBytes.{Appends};
ghost use Rattle.std.specs.IoError.{error_kind};
ghost use Rattle.clap.specs.Words.{kind_of};
ghost use Rattle.desk.specs.CallAnswer.{IsAnswer, IsCallAnswer, IsMemoryTold};
ghost use Rattle.desk.specs.MigrateAnswer.{IsMigrateAnswer};
ghost use Rattle.desk.specs.OverFile.{IsFileAnswer};
ghost use Rattle.desk.specs.Status.{IsFailureTold, IsNoWordsTold, status_of_error};
ghost use Rattle.desk_words.specs.Words.{CallValue, IsAskable, ReadsOnlyInstructions, value_of_call, words_for};

use crate::answers::{
    Folders, Paths, Shown, Trial, answer_check, answer_explain, answer_isin, answer_overview,
    answer_play, answer_read, answer_serve, migrate_file,
};
use crate::over_file::{Ask, Job, over_file};
use crate::status::{Failure, Status, tell_failure};
use clap::error::{Error, ErrorKind};
use desk_streams::{Sink, Source};
use desk_words::{Call, NO_TEXT, call_of};
use sqlite::Unknown;
use std::convert::AsStr;
use std::io;
use std::rt::HostRuntime;

/// Answers what the words ask for, on the writer. It is a fault where the writer fails.
pub fn run<S: AsStr, R: Source, W: Sink>(
    rt: &HostRuntime,
    words: &[S],
    reader: &mut R,
    writer: &mut W,
) -> Status
    ensures asked { (program : List ℕ) (asked : CallValue) → IsAskable asked → map S.text words.now ≡ program ∷ words_for asked
        → ((result ≡ Status.Fault) × (W.may_fail ≡ true))
        ⊎ (IsMemoryTold (reader.new ≡ reader.old) result (Appends (W.contents writer.old) (W.contents writer.new))
        ⊎ IsCallAnswer asked (R.remaining reader.old) (reader.new ≡ reader.old) R.may_fail result (Appends (W.contents writer.old) (W.contents writer.new))) }
    ensures nothing { (program : List ℕ) → map S.text words.now ≡ program ∷ []
        → ((result ≡ Status.Fault) × (W.may_fail ≡ true))
        ⊎ (IsMemoryTold (reader.new ≡ reader.old) result (Appends (W.contents writer.old) (W.contents writer.new))
        ⊎ IsCallAnswer (CallValue.play None) (R.remaining reader.old) (reader.new ≡ reader.old) R.may_fail result (Appends (W.contents writer.old) (W.contents writer.new))) }
    ensures told { ((result ≡ Status.Fault) × (W.may_fail ≡ true))
        ⊎ IsAnswer (map S.text words.now) (R.remaining reader.old) (reader.new ≡ reader.old) R.may_fail result (Appends (W.contents writer.old) (W.contents writer.new)) }
{
    answer_words(rt, words, reader, writer).unwrap_or(Status::Fault)
}

/// As `run`, where the writer does not fail.
fn answer_words<S: AsStr, R: Source, W: Sink>(
    rt: &HostRuntime,
    words: &[S],
    reader: &mut R,
    writer: &mut W,
) -> io::Result<Status>
    ensures asked { (program : List ℕ) (asked : CallValue) → IsAskable asked → map S.text words.now ≡ program ∷ words_for asked
        → IfOk result (λ status. IsMemoryTold (reader.new ≡ reader.old) status (Appends (W.contents writer.old) (W.contents writer.new))
        ⊎ IsCallAnswer asked (R.remaining reader.old) (reader.new ≡ reader.old) R.may_fail status (Appends (W.contents writer.old) (W.contents writer.new))) }
    ensures nothing { (program : List ℕ) → map S.text words.now ≡ program ∷ []
        → IfOk result (λ status. IsMemoryTold (reader.new ≡ reader.old) status (Appends (W.contents writer.old) (W.contents writer.new))
        ⊎ IsCallAnswer (CallValue.play None) (R.remaining reader.old) (reader.new ≡ reader.old) R.may_fail status (Appends (W.contents writer.old) (W.contents writer.new))) }
    ensures told { IfOk result (λ status. IsAnswer (map S.text words.now) (R.remaining reader.old) (reader.new ≡ reader.old) R.may_fail status (Appends (W.contents writer.old) (W.contents writer.new))) }
    ensures failed { OnErr result (W.may_fail ≡ true) }
{
    match call_of(rt.alloc(), words) {
        Ok(call) => answer(rt, &call, reader, writer),
        Err(error) => tell_error(&error, writer),
    }
}

/// Answers a call on the writer.
fn answer<R: Source, W: Sink>(
    rt: &HostRuntime,
    call: &Call<'_>,
    reader: &mut R,
    writer: &mut W,
) -> io::Result<Status>
    requires { ReadsOnlyInstructions call.now }
    ensures told { IfOk result (λ status. IsCallAnswer (value_of_call call.now) (R.remaining reader.old) (reader.new ≡ reader.old) R.may_fail status (Appends (W.contents writer.old) (W.contents writer.new))) }
    ensures failed { OnErr result (W.may_fail ≡ true) }
{
    match *call {
        Call::Isin(code) => answer_isin(code.as_bytes(), writer),
        Call::Read(mt) => answer_read(rt.alloc(), mt, reader, writer),
        Call::Play => answer_play(rt.alloc(), reader, writer),
        Call::PlayOn(db) => over_real_file(rt, db, &Job::Ask(Ask::Play), reader, writer),
        Call::TryOn(db) => over_real_file(rt, db, &Job::Try(Trial::Play), reader, writer),
        Call::Check(format) => answer_check(rt.alloc(), format, reader, writer),
        Call::CheckOn(db, format) => {
            let job = Job::Try(Trial::Check(format));
            over_real_file(rt, db, &job, reader, writer)
        }
        Call::Explain(quoted) => answer_explain(quoted, writer),
        Call::Serve(port, count) => answer_serve(rt, port, count, writer),
        Call::ServeOn(db, port, count) => {
            let job = Job::Ask(Ask::Serve(port, count));
            over_real_file(rt, db, &job, reader, writer)
        }
        Call::Holdings(db, owner, account) => {
            let job = Job::Ask(Ask::Tell(Some(owner), account.as_bytes()));
            over_real_file(rt, db, &job, reader, writer)
        }
        Call::Sums(db) => {
            let job = Job::Ask(Ask::Tell(None, b""));
            over_real_file(rt, db, &job, reader, writer)
        }
        Call::Folder(db, from, to) => {
            let job = Job::Ask(Ask::Take(Folders { from, to }));
            over_real_file(rt, db, &job, reader, writer)
        }
        Call::Report(parts, format) => {
            answer_overview(rt.alloc(), Shown::Report(parts), format, reader, writer)
        }
        Call::ReportOn(db, parts, format) => {
            let job = Job::Show(Shown::Report(parts), format);
            over_real_file(rt, db, &job, reader, writer)
        }
        Call::Journal(from, format) => {
            answer_overview(rt.alloc(), Shown::Journal(from), format, reader, writer)
        }
        Call::JournalOn(db, from, format) => {
            let job = Job::Show(Shown::Journal(from), format);
            over_real_file(rt, db, &job, reader, writer)
        }
        Call::Migrate(old, new) => migrate_real_file(rt, Paths { old, new }, writer),
    }
}

/// The job over the file of a path, of which nothing is known beforehand.
fn over_real_file<R: Source, W: Sink>(
    rt: &HostRuntime,
    path: &str,
    job: &Job<'_>,
    reader: &mut R,
    writer: &mut W,
) -> io::Result<Status>
    ensures told { IfOk result (λ status. IsFileAnswer job.now (R.remaining reader.old) (reader.new ≡ reader.old) R.may_fail status (Appends (W.contents writer.old) (W.contents writer.new))) }
    ensures failed { OnErr result (W.may_fail ≡ true) }
{
    over_file(rt, path, Unknown, job, reader, writer).0
}

/// The same of a migration.
fn migrate_real_file<W: Sink>(
    rt: &HostRuntime,
    paths: Paths<'_>,
    writer: &mut W,
) -> io::Result<Status>
    ensures told { IfOk result (λ status. IsMigrateAnswer status (Appends (W.contents writer.old) (W.contents writer.new))) }
    ensures failed { OnErr result (W.may_fail ≡ true) }
{
    migrate_file(rt, paths, Unknown, Unknown, writer).0
}

/// Prints help that was asked for, or what is wrong with the words; want of memory is a failure.
fn tell_error<W: Sink>(error: &Error, writer: &mut W) -> io::Result<Status>
    ensures status { IfOk result (λ status. status ≡ status_of_error (kind_of error.now)) }
    ensures memory { kind_of error.now ≡ ErrorKind.OutOfMemory
        → IfOk result (λ status. IsFailureTold Failure.Memory status (Appends (W.contents writer.old) (W.contents writer.new))) }
    ensures failed { OnErr result (W.may_fail ≡ true) }
{
    match error.kind() {
        ErrorKind::OutOfMemory => tell_failure(Failure::Memory, writer),
        ErrorKind::DisplayHelp | ErrorKind::DisplayVersion => {
            writer.put_text(format_args!("{error}"))?;
            Ok(Status::Done)
        }
        _ => {
            writer.put_text(format_args!("{error}"))?;
            Ok(Status::Usage)
        }
    }
}

/// Prints why the words could not be had: they are no text, or memory is wanting.
pub fn tell_no_words<W: Sink>(error: &io::Error, writer: &mut W) -> Status
    ensures { ((result ≡ Status.Fault) × (W.may_fail ≡ true))
        ⊎ IsNoWordsTold (error_kind error.now) result (Appends (W.contents writer.old) (W.contents writer.new)) }
{
    write_no_words(error.kind(), writer).unwrap_or(Status::Fault)
}

/// As `tell_no_words`, where the writer does not fail.
fn write_no_words<W: Sink>(kind: io::ErrorKind, writer: &mut W) -> io::Result<Status>
    ensures told { IfOk result (λ status. IsNoWordsTold kind status (Appends (W.contents writer.old) (W.contents writer.new))) }
    ensures failed { OnErr result (W.may_fail ≡ true) }
{
    match kind {
        io::ErrorKind::OutOfMemory => tell_failure(Failure::Memory, writer),
        _ => {
            writer.put(NO_TEXT.as_bytes())?;
            Ok(Status::Usage)
        }
    }
}
