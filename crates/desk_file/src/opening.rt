//! The way in.
ghost use Rattle.std.specs.Prelude.{◌≡◌, ◌≤◌, ◌<◌, IfErr, IfOk, IfSome, IsSomeAnd, IsTrue};
ghost use Rattle.sqlite.specs.Files.{file_state, IsCleanLeft};
ghost use Rattle.sqlite.specs.Held.{state};
ghost use Rattle.sqlite.specs.State.{HasCleanDisk};
ghost use Rattle.sqlite_trees.specs.View.{IsClean};
ghost use Rattle.sqlite_wal.specs.Files.{image_at};
ghost use Rattle.memory_register.specs.ListsView.{view_of_lists};
ghost use Rattle.desk_rules.specs.declared.limits.TheConstants.{MOST_ENTRIES};
ghost use Rattle.desk_file.specs.Desks.{IsDesks, IsDesksIn};
ghost use Rattle.desk_file.specs.Faults.{IsRefusal};
ghost use Rattle.desk_file.specs.Left.{HasFailed, LeavesIn};
ghost use Rattle.desk_file.specs.Opened.{Finds, FindsIn, IsHandedBack, IsOpened};
ghost use Rattle.desk_file.specs.OtherVersion.{SaysOther, SaysOtherIn};
ghost use Rattle.desk_file.specs.declared.fault.OpenFault.TheVariants.{Storage};

use crate::audit::progress::{Progress, Silent};
use crate::fault::{OpenFault, fault_of_files, fault_of_opening};
use crate::files::{is_caught, open_in_order};
use crate::mirror::mirrored_register::MirroredRegister;
use crate::reopening::{give_up, reopen};
use crate::taking::take_over;
use memory_register::ListRegister;
use sql_register::SqlRegister;
use sqlite::{Alter, Connection, FileFrom, FileStore, Leftover, Start};
use std::alloc::Global;
use std::rt::HostRuntime;

/// Takes over the database of a connection, for at most `limit` entries, which are `MOST_ENTRIES` at most. A transaction that is
/// open in it is taken back first. One that has no table, index or view gets the desk's, in one transaction; one that is that of
/// an accepted history is opened, and stays as it is. Any other is refused, and its store handed back, with what was committed and
/// nothing else.
///
/// It reads the database twice: once as the library does that opens one, and once to compare its tables with its entries.
pub fn adopt<S: Alter + Drop>(
    alloc: Global,
    conn: Connection<S>,
    limit: u64,
) -> Result<MirroredRegister<ListRegister, SqlRegister<Connection<S>>>, (OpenFault, S)>
    requires { limit ≤ MOST_ENTRIES }
    ensures opened { IfOk result (IsOpened (state S.Store) limit) }
    ensures which { IfOk result (λ both. HasCleanDisk (state S.Store both.tables.connection) → Finds (state S.Store conn).committed (state S.Store both.tables.connection).committed (view_of_lists both.memory).content) }
    ensures back { IfErr result (λ e. IsClean (S.Store.view e.1) → IsTrue (S.Store.view e.1).is_open → IsHandedBack (S.Store.view e.1) (state S.Store conn)) }
    ensures refused { IfErr result (λ e. IsClean (S.Store.view e.1) → IsRefusal e.0 → ¬ IsDesks limit (state S.Store conn).committed) }
    ensures other { IfErr result (λ e. IsClean (S.Store.view e.1) → e.0 ≡ OpenFault.OtherVersion → SaysOther (state S.Store) (state S.Store conn).committed) }
    ensures blame { IfErr result (λ e. IsClean (S.Store.view e.1) → IsTrue (state S.Store conn).is_open → e.0 ≡ Storage → 0 < S.Store.faults e.1) }
{
    let conn = match reopen(alloc, conn) {
        Ok(conn) => conn,
        Err((error, store)) => return Err((fault_of_opening(&error), store)),
    };
    match take_over(alloc, conn, limit, &mut Silent) {
        Ok(both) => Ok(both),
        Err((fault, conn)) => Err((fault, give_up(conn))),
    }
}

/// Opens the file of a path for at most `limit` entries, which are `MOST_ENTRIES` at most; where there is none, it is made. What
/// it does with a database is what `adopt` does, without reading it twice. A fault comes with what is left of the files, once they
/// were opened, and leaves in them what they held. `progress` is told how many entries are taken in.
///
/// `start` stands for what the files hold, by which the clauses tell what was opened, or left; of `Unknown` nothing is known
/// beforehand, so that they tell nothing. No clause ties them to the path.
pub fn open_file<S: Start, P: Progress>(
    rt: &HostRuntime,
    path: &str,
    start: S,
    limit: u64,
    progress: &mut P,
) -> Result<
    MirroredRegister<ListRegister, SqlRegister<Connection<FileStore<FileFrom<S>>>>>,
    (OpenFault, Option<Leftover<FileFrom<S>>>),
>
    requires { limit ≤ MOST_ENTRIES }
    ensures opened { IfOk result (IsOpened file_state limit) }
    ensures which { IfOk result (λ both. HasCleanDisk (file_state both.tables.connection) → FindsIn (image_at S.Start) (file_state both.tables.connection).committed (view_of_lists both.memory).content) }
    ensures back { IfErr result (λ e. IfSome e.1 (λ left. IsCleanLeft left → LeavesIn (image_at S.Start) left)) }
    ensures refused { IfErr result (λ e. IsRefusal e.0 → IsSomeAnd e.1 (λ left. IsCleanLeft left → ¬ IsDesksIn limit (image_at S.Start))) }
    ensures other { IfErr result (λ e. e.0 ≡ OpenFault.OtherVersion → IsSomeAnd e.1 (λ left. IsCleanLeft left → SaysOtherIn (image_at S.Start) left)) }
    ensures blame { IfErr result (λ e. e.0 ≡ Storage → IfSome e.1 (λ left. IsCleanLeft left → HasFailed left)) }
{
    let conn = match open_in_order(rt, path, start) {
        Ok(conn) => conn,
        Err((error, left)) => {
            progress.failed(&error);
            let fault = fault_of_files(&error, is_caught(&left));
            return Err((fault, left));
        }
    };
    match take_over(rt.alloc(), conn, limit, progress) {
        Ok(both) => Ok(both),
        Err((fault, conn)) => Err((fault, Some(Leftover::Store(give_up(conn))))),
    }
}
