//! A database that was opened is made the desk's, or found to be.
ghost use Rattle.std.specs.Prelude.{◌≡◌, ◌≢◌, ◌≤◌, pos, false, IfErr, IfOk, IsSomeAnd, IsTrue, None};
ghost use Rattle.sqlite.specs.State.{HasCleanDisk};
ghost use Rattle.memory_register.specs.ListsView.{view_of_lists};
ghost use Rattle.desk_rules.specs.declared.limits.TheConstants.{MOST_ENTRIES};
ghost use Rattle.desk_rules.specs.Content.{Content};
ghost use Rattle.sql_tables.specs.Calls.{tables};
ghost use Rattle.sql_tables.specs.Ends.{IsLater};
ghost use Rattle.sql_tables.specs.Making.{KeepsCommitted};
ghost use Rattle.sql_tables.specs.Schema.{no_schema};
ghost use Rattle.desk_file.specs.Audited.{IsAudited};
ghost use Rattle.desk_file.specs.Desks.{IsDesks};
ghost use Rattle.desk_file.specs.Faults.{IsBlamed, IsRefusal};
ghost use Rattle.desk_file.specs.Opened.{Finds, IsOpened, StandsOpen};
ghost use Rattle.desk_file.specs.OtherVersion.{SaysOther};
ghost use Rattle.desk_file.specs.Spared.{Spares};

use crate::audit::auditing::{Audited, audit};
use crate::audit::progress::Progress;
use crate::fault::{Difference, OpenFault, fault_of, fault_of_audit};
use crate::mirror::mirrored_register::MirroredRegister;
use crate::version::version_said;
use memory_register::ListRegister;
use sql_register::{SqlRegister, has_no_table};
use sql_tables::session::Session;
use sql_tables::version::VERSION;
use std::alloc::Global;

/// Tells the version that a database says, if it says one.
pub fn tell_version<P: Progress>(said: Option<i64>, progress: &mut P) {
    if let Some(number) = said {
        progress.says_version(number);
    }
}

/// Why a database is refused that says this of its version.
fn refused_for(said: Option<i64>) -> OpenFault
    ensures other { result ≡ OpenFault.OtherVersion → IsSomeAnd said (λ number. number ≢ pos 3) }
    ensures refuses { result ≢ OpenFault.Storage }
{
    match said {
        Some(number) => {
            if number == VERSION as i64 {
                OpenFault::NotOurFile(Difference::OtherTables)
            } else {
                OpenFault::OtherVersion
            }
        }
        None => OpenFault::NotOurFile(Difference::OtherTables),
    }
}

/// Why a database that is not the desk's, in this version, is refused.
fn refusal<S: Session, P: Progress>(conn: &mut S, progress: &mut P) -> OpenFault
    ensures spares { Spares (S.state conn.old) (S.state conn.new) }
    ensures blame { HasCleanDisk (S.state conn.new) → IsTrue (S.state conn.old).is_open → (S.state conn.old).in_transaction ≡ false → (S.state conn.old).step_limit ≡ None → IsBlamed (S.state conn.old) (S.state conn.new) result }
    ensures other { HasCleanDisk (S.state conn.new) → result ≡ OpenFault.OtherVersion → SaysOther S.state (tables S.state conn.old) }
{
    match version_said(conn) {
        Ok(said) => {
            tell_version(said, progress);
            refused_for(said)
        }
        Err(error) => fault_of(&error),
    }
}

/// Makes the tables in a database that has none, with a register in memory beside them.
fn make<S: Session + Drop>(
    alloc: Global,
    conn: S,
    limit: u64,
) -> Result<MirroredRegister<ListRegister, SqlRegister<S>>, (OpenFault, S)>
    requires limit { limit ≤ MOST_ENTRIES }
    requires unlimited { (S.state conn).step_limit ≡ None }
    requires open { HasCleanDisk (S.state conn) → StandsOpen (S.state conn) }
    requires empty { (tables S.state conn).schema ≡ no_schema }
    ensures opened { IfOk result (IsOpened S.state limit) }
    ensures which { IfOk result (λ both. HasCleanDisk (S.state both.tables.connection) → Finds (S.state conn).committed (S.state both.tables.connection).committed (view_of_lists both.memory).content) }
    ensures later { IfOk result (λ both. IsLater (S.state conn) (S.state both.tables.connection)) }
    ensures handed { IfErr result (λ e. IsLater (S.state conn) (S.state e.1)) }
    ensures kept { IfErr result (λ e. HasCleanDisk (S.state e.1) → KeepsCommitted (S.state conn) (S.state e.1)) }
    ensures refused { IfErr result (λ e. ¬ IsRefusal e.0) }
    ensures blame { IfErr result (λ e. HasCleanDisk (S.state e.1) → IsBlamed (S.state conn) (S.state e.1) e.0) }
{
    match SqlRegister::new(conn, limit) {
        Ok(tables) => Ok(MirroredRegister::new(ListRegister::new(alloc, limit), tables)),
        Err((error, conn)) => Err((fault_of(&error), conn)),
    }
}

/// Fills a register in memory from a database that has tables, and sees whether these are the ones of what it holds then.
fn find<S: Session + Drop, P: Progress>(
    alloc: Global,
    mut conn: S,
    limit: u64,
    progress: &mut P,
) -> Result<MirroredRegister<ListRegister, SqlRegister<S>>, (OpenFault, S)>
    requires limit { limit ≤ MOST_ENTRIES }
    requires unlimited { (S.state conn).step_limit ≡ None }
    requires open { HasCleanDisk (S.state conn) → StandsOpen (S.state conn) }
    ensures opened { IfOk result (IsOpened S.state limit) }
    ensures which { IfOk result (λ both. HasCleanDisk (S.state both.tables.connection) → Finds (S.state conn).committed (S.state both.tables.connection).committed (view_of_lists both.memory).content) }
    ensures later { IfOk result (λ both. IsLater (S.state conn) (S.state both.tables.connection)) }
    ensures handed { IfErr result (λ e. IsLater (S.state conn) (S.state e.1)) }
    ensures kept { IfErr result (λ e. HasCleanDisk (S.state e.1) → KeepsCommitted (S.state conn) (S.state e.1)) }
    ensures refused { IfErr result (λ e. HasCleanDisk (S.state e.1) → IsRefusal e.0 → (content : Content) → ¬ IsAudited (tables S.state conn) limit content) }
    ensures other { IfErr result (λ e. HasCleanDisk (S.state e.1) → e.0 ≡ OpenFault.OtherVersion → SaysOther S.state (tables S.state conn)) }
    ensures blame { IfErr result (λ e. HasCleanDisk (S.state e.1) → IsBlamed (S.state conn) (S.state e.1) e.0) }
{
    let mut memory = ListRegister::new(alloc, limit);
    match audit(alloc, &mut conn, &mut memory, progress) {
        Ok(Audited::Whole) => Ok(MirroredRegister::new(memory, SqlRegister::over(conn, limit))),
        Ok(Audited::OtherTables | Audited::OtherVersion) => {
            let fault = refusal(&mut conn, progress);
            Err((fault, conn))
        }
        Ok(Audited::OtherEntry(number)) => {
            Err((OpenFault::NotOurFile(Difference::Entry(number)), conn))
        }
        Ok(Audited::Differs(table)) => {
            Err((OpenFault::NotOurFile(Difference::Table(table)), conn))
        }
        Err(fault) => Err((fault_of_audit(&fault), conn)),
    }
}

/// Takes a database over that was just opened, so that no limit is set on the steps of a query. One with no table gets the desk's.
pub fn take_over<S: Session + Drop, P: Progress>(
    alloc: Global,
    conn: S,
    limit: u64,
    progress: &mut P,
) -> Result<MirroredRegister<ListRegister, SqlRegister<S>>, (OpenFault, S)>
    requires limit { limit ≤ MOST_ENTRIES }
    requires unlimited { (S.state conn).step_limit ≡ None }
    requires open { HasCleanDisk (S.state conn) → StandsOpen (S.state conn) }
    ensures opened { IfOk result (IsOpened S.state limit) }
    ensures which { IfOk result (λ both. HasCleanDisk (S.state both.tables.connection) → Finds (S.state conn).committed (S.state both.tables.connection).committed (view_of_lists both.memory).content) }
    ensures later { IfOk result (λ both. IsLater (S.state conn) (S.state both.tables.connection)) }
    ensures handed { IfErr result (λ e. IsLater (S.state conn) (S.state e.1)) }
    ensures kept { IfErr result (λ e. HasCleanDisk (S.state e.1) → KeepsCommitted (S.state conn) (S.state e.1)) }
    ensures refused { IfErr result (λ e. HasCleanDisk (S.state e.1) → IsRefusal e.0 → ¬ IsDesks limit (tables S.state conn)) }
    ensures other { IfErr result (λ e. HasCleanDisk (S.state e.1) → e.0 ≡ OpenFault.OtherVersion → SaysOther S.state (tables S.state conn)) }
    ensures blame { IfErr result (λ e. HasCleanDisk (S.state e.1) → IsBlamed (S.state conn) (S.state e.1) e.0) }
{
    if has_no_table(&conn) {
        make(alloc, conn, limit)
    } else {
        find(alloc, conn, limit, progress)
    }
}
