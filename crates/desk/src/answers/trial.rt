//! `desk play --dry-run` and `desk check --db`.
ghost use Rattle.std.specs.Prelude.{◌≡◌, true, false, IfOk, OnErr};
ghost use Rattle.std.specs.Io.KnownBytes.{Appends};
ghost use Rattle.sqlite.specs.State.{HasCleanDisk};
ghost use Rattle.desk_engine.specs.Ready.{IsReady};
ghost use Rattle.desk_file.specs.Opened.{IsReadyFor, view_of_both};
ghost use Rattle.desk_rules.specs.Books.{Books};
ghost use Rattle.desk_rules.specs.declared.limits.TheConstants.{MOST_ENTRIES};
ghost use Rattle.memory_register.specs.ListsView.{view_of_lists};
ghost use Rattle.desk.specs.Left.{TablesSay};
ghost use Rattle.desk.specs.PlayAnswer.{KeptBy};
ghost use Rattle.desk.specs.TrialAnswer.{IsTrialFrom};

use super::check::check_on;
use super::play::play_on;
use crate::status::Status;
use crate::store::parts_of;
use desk_file::MirroredRegister;
use desk_report::Format;
use desk_streams::{Sink, Source};
use memory_register::ListRegister;
use sql_register::{Session, SqlRegister};
use std::alloc::Global;
use std::io;

/// What is told of a script that is tried.
#[derive(Clone, Copy)]
pub enum Trial {
    /// Its answers
    Play,
    /// What is refused in it, written so
    Check(Format),
}

/// Plays a script on a desk in memory that holds what tables with such a register beside them do, and tells of it. The connection to
/// the tables, which stay as they are, is given back.
pub fn try_on_both<S: Session + Drop, R: Source, W: Sink>(
    alloc: Global,
    both: MirroredRegister<ListRegister, SqlRegister<S>>,
    trial: Trial,
    reader: &mut R,
    writer: &mut W,
) -> (io::Result<Status>, S)
    requires { IsReadyFor MOST_ENTRIES (view_of_both S.state both) }
    ensures told { (books : Books) → KeptBy (view_of_both S.state both) books
        → IfOk result.0 (λ status. IsTrialFrom trial books (R.remaining reader.old) (reader.new ≡ reader.old) R.may_fail status (Appends (W.contents writer.old) (W.contents writer.new))) }
    ensures left { (books : Books) → KeptBy (view_of_both S.state both) books → TablesSay (S.state result.1) books }
    ensures clean { HasCleanDisk (S.state result.1) → HasCleanDisk (S.state both.tables.connection) }
    ensures failed { OnErr result.0 (W.may_fail ≡ true) }
{
    let (memory, conn) = parts_of(both);
    (try_on(alloc, memory, trial, reader, writer), conn)
}

/// The same on a register in memory.
fn try_on<R: Source, W: Sink>(
    alloc: Global,
    memory: ListRegister,
    trial: Trial,
    reader: &mut R,
    writer: &mut W,
) -> io::Result<Status>
    requires ready { IsReady false (view_of_lists memory) }
    requires room { (view_of_lists memory).room ≡ MOST_ENTRIES }
    ensures told { (books : Books) → KeptBy (view_of_lists memory) books
        → IfOk result (λ status. IsTrialFrom trial books (R.remaining reader.old) (reader.new ≡ reader.old) R.may_fail status (Appends (W.contents writer.old) (W.contents writer.new))) }
    ensures failed { OnErr result (W.may_fail ≡ true) }
{
    match trial {
        Trial::Play => play_on(alloc, memory, reader, writer),
        Trial::Check(format) => check_on(alloc, memory, format, reader, writer),
    }
}
