//! The same way in, for the tables alone.
ghost use Rattle.std.specs.Prelude.{◌≡◌, ◌≤◌, ◌<◌, IfErr, IfOk, IfSome, IsSomeAnd, IsTrue};
ghost use Rattle.sqlite.specs.Files.{file_state, IsCleanLeft};
ghost use Rattle.sqlite.specs.Held.{state};
ghost use Rattle.sqlite_trees.specs.View.{IsClean};
ghost use Rattle.sqlite_wal.specs.Files.{image_at};
ghost use Rattle.desk_rules.specs.declared.limits.TheConstants.{MOST_ENTRIES};
ghost use Rattle.desk_file.specs.Alone.{AreFoundIn, AreFoundOf, AreOpened, IsAlone};
ghost use Rattle.desk_file.specs.Desks.{IsDesks, IsDesksIn};
ghost use Rattle.desk_file.specs.Faults.{IsRefusal};
ghost use Rattle.desk_file.specs.Left.{HasFailed, LeavesIn};
ghost use Rattle.desk_file.specs.Opened.{IsHandedBack};
ghost use Rattle.desk_file.specs.OtherVersion.{SaysOther, SaysOtherIn};
ghost use Rattle.desk_file.specs.declared.fault.OpenFault.TheVariants.{Storage};

use crate::audit::progress::Silent;
use crate::fault::OpenFault;
use crate::mirror::mirrored_register::MirroredRegister;
use crate::opening::{adopt, open_file};
use memory_register::ListRegister;
use sql_register::SqlRegister;
use sql_tables::session::Session;
use sqlite::{Alter, Connection, FileFrom, FileStore, Leftover, Start};
use std::alloc::Global;
use std::rt::HostRuntime;

/// The tables of what was opened, without the register in memory beside them; a fault stays.
fn alone<S: Session + Drop, E>(
    opened: Result<MirroredRegister<ListRegister, SqlRegister<S>>, E>,
) -> Result<SqlRegister<S>, E>
    ensures { IsAlone opened result }
{
    match opened {
        Ok(both) => Ok(both.into_parts().1),
        Err(fault) => Err(fault),
    }
}

/// As `adopt`; the register in memory is given up, once the tables were compared with it.
pub fn adopt_tables<S: Alter + Drop>(
    alloc: Global,
    conn: Connection<S>,
    limit: u64,
) -> Result<SqlRegister<Connection<S>>, (OpenFault, S)>
    requires { limit ≤ MOST_ENTRIES }
    ensures opened { IfOk result (AreOpened (state S.Store) limit) }
    ensures which { IfOk result (AreFoundOf (state S.Store) (state S.Store conn).committed) }
    ensures back { IfErr result (λ e. IsClean (S.Store.view e.1) → IsTrue (S.Store.view e.1).is_open → IsHandedBack (S.Store.view e.1) (state S.Store conn)) }
    ensures refused { IfErr result (λ e. IsClean (S.Store.view e.1) → IsRefusal e.0 → ¬ IsDesks limit (state S.Store conn).committed) }
    ensures other { IfErr result (λ e. IsClean (S.Store.view e.1) → e.0 ≡ OpenFault.OtherVersion → SaysOther (state S.Store) (state S.Store conn).committed) }
    ensures blame { IfErr result (λ e. IsClean (S.Store.view e.1) → IsTrue (state S.Store conn).is_open → e.0 ≡ Storage → 0 < S.Store.faults e.1) }
{
    alone(adopt(alloc, conn, limit))
}

/// As `open_file`; the register in memory is given up, once the tables were compared with it.
pub fn open_tables<S: Start>(
    rt: &HostRuntime,
    path: &str,
    start: S,
    limit: u64,
) -> Result<
    SqlRegister<Connection<FileStore<FileFrom<S>>>>,
    (OpenFault, Option<Leftover<FileFrom<S>>>),
>
    requires { limit ≤ MOST_ENTRIES }
    ensures opened { IfOk result (AreOpened file_state limit) }
    ensures which { IfOk result (AreFoundIn file_state (image_at S.Start)) }
    ensures back { IfErr result (λ e. IfSome e.1 (λ left. IsCleanLeft left → LeavesIn (image_at S.Start) left)) }
    ensures refused { IfErr result (λ e. IsRefusal e.0 → IsSomeAnd e.1 (λ left. IsCleanLeft left → ¬ IsDesksIn limit (image_at S.Start))) }
    ensures other { IfErr result (λ e. e.0 ≡ OpenFault.OtherVersion → IsSomeAnd e.1 (λ left. IsCleanLeft left → SaysOtherIn (image_at S.Start) left)) }
    ensures blame { IfErr result (λ e. e.0 ≡ Storage → IfSome e.1 (λ left. IsCleanLeft left → HasFailed left)) }
{
    alone(open_file(rt, path, start, limit, &mut Silent))
}
