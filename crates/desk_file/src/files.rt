//! A database that is found in files.
ghost use Rattle.std.specs.Prelude.{◌≡◌, ◌<◌, ◌↔◌, ◌⊎◌, false, None, IfErr, IfOk, IfSome, IsTrue};
ghost use Rattle.sqlite_wal.specs.Files.{image_at};
ghost use Rattle.sqlite.specs.State.{HasCleanDisk};
ghost use Rattle.sqlite.specs.Files.{file_state, tally_left, IsOpened};
ghost use Rattle.sqlite.specs.Held.{IsNew};
ghost use Rattle.sqlite.specs.Opening.{is_open_error};
ghost use Rattle.sqlite.specs.declared.error.ErrorCode.TheVariants.{CannotOpen, DatabaseBusy, OutOfMemory};
ghost use Rattle.sqlite.specs.Start.{FindsIn};
ghost use Rattle.sql_tables.specs.Order.{AreInOrder};
ghost use Rattle.desk_file.specs.Left.{IsUnopened};

use sqlite::{Connection, Error, FileFrom, FileStore, Leftover, Start};
use sqlite_disk::{Disk, Tally};
use std::rt::HostRuntime;

/// Opens a file, in whose tables the rows then stand in the order of their numbers. An error is one of opening, and comes with
/// what is left of the files, once they were opened.
pub fn open_in_order<S: Start>(
    rt: &HostRuntime,
    path: &str,
    start: S,
) -> Result<Connection<FileStore<FileFrom<S>>>, (Error, Option<Leftover<FileFrom<S>>>)>
    ensures opened { IfOk result (λ c. HasCleanDisk (file_state c) → IsOpened c) }
    ensures found { IfOk result (λ c. HasCleanDisk (file_state c) → FindsIn (image_at S.Start) (file_state c)) }
    ensures fresh { IfOk result IsNew }
    ensures order { IfOk result (λ c. HasCleanDisk (file_state c) → AreInOrder (file_state c).committed.schema (file_state c).committed.trees) }
    ensures named { IfErr result (λ e. IsTrue (is_open_error e.0)) }
    ensures unopened { IfErr result (λ e. e.1 ≡ None → (e.0 ≡ Error.SqliteFailure CannotOpen) ⊎ ((e.0 ≡ Error.SqliteFailure OutOfMemory) ⊎ (e.0 ≡ Error.SqliteFailure DatabaseBusy))) }
    ensures cause { IfErr result (λ e. IfSome e.1 (IsUnopened (image_at S.Start) e.0)) }
{
    Connection::open_from(rt, path, false, start)
}

/// What the failed calls of files met, by what is left of them.
fn tally<D: Disk>(left: &Leftover<D>) -> Tally
    ensures { result ≡ tally_left left.now }
{
    match left {
        Leftover::Files(files) => files.tally(),
        Leftover::Unopened(files) => files.tally(),
        Leftover::Store(store) => store.tally(),
    }
}

/// Whether the device gave other bytes than it took, as far as what is left of files tells.
pub fn is_caught<D: Disk>(left: &Option<Leftover<D>>) -> bool
    ensures none { left.now ≡ None → result ≡ false }
    ensures some { IfSome left.now (λ rest. IsTrue result ↔ (0 < (tally_left rest).caught)) }
{
    match left {
        Some(left) => tally(left).caught > 0,
        None => false,
    }
}
