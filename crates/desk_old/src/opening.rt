//! The way in.
ghost use Rattle.std.specs.Prelude.{◌≡◌, ◌<◌, IfErr, IfOk, IfSome, IsSomeAnd, IsTrue};
ghost use Rattle.sqlite.specs.Files.{IsCleanLeft};
ghost use Rattle.sqlite.specs.Held.{state};
ghost use Rattle.sqlite_store.specs.FileStore.{view};
ghost use Rattle.sqlite_trees.specs.View.{IsClean};
ghost use Rattle.sqlite_wal.specs.Files.{image_at};
ghost use Rattle.sqlite.specs.declared.file.Leftover.TheVariants as left;
ghost use Rattle.desk_file.specs.Faults.{IsRefusal};
ghost use Rattle.desk_file.specs.Left.{HasFailed, LeavesIn};
ghost use Rattle.desk_file.specs.Opened.{IsHandedBack};
ghost use Rattle.desk_file.specs.declared.fault.OpenFault.TheVariants.{Storage};
ghost use Rattle.desk_old.specs.Old.{AreHistory, HoldsEntries, HoldsEntriesIn, IsOld, IsOldIn, SaysNeither, SaysNeitherIn};

use crate::reading::read_old;
use desk_file::{
    OpenFault, Progress, Silent, fault_of_files, fault_of_opening, give_up, is_caught,
    open_in_order, reopen,
};
use desk_rules::Entry;
use sqlite::{Alter, Connection, FileFrom, FileStore, Leftover, Start};
use std::alloc::Global;
use std::rt::HostRuntime;

/// The entries of the history that the database of a connection holds, which is one of version 1 or 2. A transaction that is open in
/// it is taken back first. Its store is handed back, with what was committed and nothing else.
pub fn old_entries_from<S: Alter + Drop>(
    alloc: Global,
    conn: Connection<S>,
) -> Result<(Vec<Entry>, S), (OpenFault, S)>
    ensures which { IfOk result (λ read. IsClean (S.Store.view read.1) → HoldsEntries (state S.Store conn).committed read.0.items) }
    ensures accepted { IfOk result (λ read. AreHistory read.0.items) }
    ensures kept { IfOk result (λ read. IsClean (S.Store.view read.1) → IsTrue (S.Store.view read.1).is_open → IsHandedBack (S.Store.view read.1) (state S.Store conn)) }
    ensures back { IfErr result (λ e. IsClean (S.Store.view e.1) → IsTrue (S.Store.view e.1).is_open → IsHandedBack (S.Store.view e.1) (state S.Store conn)) }
    ensures refused { IfErr result (λ e. IsClean (S.Store.view e.1) → IsRefusal e.0 → ¬ IsOld (state S.Store conn).committed) }
    ensures other { IfErr result (λ e. IsClean (S.Store.view e.1) → e.0 ≡ OpenFault.OtherVersion → SaysNeither (state S.Store) (state S.Store conn).committed) }
    ensures blame { IfErr result (λ e. IsClean (S.Store.view e.1) → IsTrue (state S.Store conn).is_open → e.0 ≡ Storage → 0 < S.Store.faults e.1) }
{
    match reopen(alloc, conn) {
        Ok(mut conn) => match read_old(alloc, &mut conn, &mut Silent) {
            Ok(entries) => Ok((entries, give_up(conn))),
            Err(fault) => Err((fault, give_up(conn))),
        },
        Err((error, store)) => Err((fault_of_opening(&error), store)),
    }
}

/// The entries of the history that the file of a path holds, which is one of version 1 or 2. Where there is none, it is made as an
/// empty one, and refused: who must not make it looks first. The store comes with the entries, or what is left of the files with a
/// fault, once they were opened; it is let go, so that neither file is written. `progress` is told how many entries are read.
///
/// `start` stands for what the files hold, by which the clauses tell what was read; of `Unknown` nothing is known beforehand, so that
/// they tell nothing. No clause ties them to the path.
pub fn old_entries<S: Start, P: Progress>(
    rt: &HostRuntime,
    path: &str,
    start: S,
    progress: &mut P,
) -> Result<(Vec<Entry>, FileStore<FileFrom<S>>), (OpenFault, Option<Leftover<FileFrom<S>>>)>
    ensures which { IfOk result (λ read. IsCleanLeft (left.Store read.1) → HoldsEntriesIn (image_at S.Start) read.0.items) }
    ensures accepted { IfOk result (λ read. AreHistory read.0.items) }
    ensures kept { IfOk result (λ read. IsCleanLeft (left.Store read.1) → LeavesIn (image_at S.Start) (left.Store read.1)) }
    ensures back { IfErr result (λ e. IfSome e.1 (λ left. IsCleanLeft left → LeavesIn (image_at S.Start) left)) }
    ensures refused { IfErr result (λ e. IsRefusal e.0 → IsSomeAnd e.1 (λ left. IsCleanLeft left → ¬ IsOldIn (image_at S.Start))) }
    ensures other { IfErr result (λ e. e.0 ≡ OpenFault.OtherVersion → IsSomeAnd e.1 (λ left. IsCleanLeft left → SaysNeitherIn (image_at S.Start) left)) }
    ensures blame { IfErr result (λ e. e.0 ≡ Storage → IfSome e.1 (λ left. IsCleanLeft left → HasFailed left)) }
{
    let mut conn = match open_in_order(rt, path, start) {
        Ok(conn) => conn,
        Err((error, left)) => {
            progress.failed(&error);
            let fault = fault_of_files(&error, is_caught(&left));
            return Err((fault, left));
        }
    };
    match read_old(rt.alloc(), &mut conn, progress) {
        Ok(entries) => Ok((entries, give_up(conn))),
        Err(fault) => Err((fault, Some(Leftover::Store(give_up(conn))))),
    }
}
