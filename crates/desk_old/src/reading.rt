//! The entries of a database of an earlier version.
ghost use Rattle.std.specs.Prelude.{◌≡◌, ◌≢◌, ◌↔◌, false, Err, IfErr, IfOk, IsSomeAnd, IsTrue, None};
ghost use Rattle.sqlite.specs.State.{HasCleanDisk};
ghost use Rattle.desk_rules.specs.Content.{Content};
ghost use Rattle.sql_tables.specs.Calls.{tables};
ghost use Rattle.sql_tables.specs.Schema.{first_schema};
ghost use Rattle.desk_file.specs.Faults.{IsBlamed, IsRefusal};
ghost use Rattle.desk_file.specs.Opened.{StandsOpen};
ghost use Rattle.desk_file.specs.Spared.{Spares};
ghost use Rattle.desk_old.specs.Old.{AreHistory, HoldsEntries, HoldsOld, IsNeither, SaysNeither};

use crate::held::entries_held;
use desk_file::{
    Audited, Difference, OpenFault, Progress, audit_version, fault_of, fault_of_audit,
    has_desk_tables, tell_version, version_said,
};
use desk_rules::{Entry, MOST_ENTRIES};
use memory_register::ListRegister;
use sql_tables::session::Session;
use sql_tables::versions::Version;
use std::alloc::Global;

/// The version that a database is audited as: the first, where it has just these tables.
fn version_of<S: Session>(conn: &S) -> Version
    ensures earlier { result ≢ Version.Third }
    ensures first { (result ≡ Version.First) ↔ ((S.state conn.now).now.schema ≡ first_schema) }
{
    if has_desk_tables(conn, Version::First) {
        Version::First
    } else {
        Version::Second
    }
}

/// Why a database is refused that says this of its version.
fn refused_for(said: Option<i64>) -> OpenFault
    ensures other { result ≡ OpenFault.OtherVersion → IsSomeAnd said IsNeither }
    ensures refuses { result ≢ OpenFault.Storage }
{
    match said {
        Some(1 | 2) | None => OpenFault::NotOurFile(Difference::OtherTables),
        Some(_) => OpenFault::OtherVersion,
    }
}

/// Why a database that is none of these versions is refused.
fn refusal<S: Session, P: Progress>(conn: &mut S, progress: &mut P) -> OpenFault
    ensures spares { Spares (S.state conn.old) (S.state conn.new) }
    ensures blame { HasCleanDisk (S.state conn.new) → IsTrue (S.state conn.old).is_open → (S.state conn.old).in_transaction ≡ false → (S.state conn.old).step_limit ≡ None → IsBlamed (S.state conn.old) (S.state conn.new) result }
    ensures other { HasCleanDisk (S.state conn.new) → result ≡ OpenFault.OtherVersion → SaysNeither S.state (tables S.state conn.old) }
{
    match version_said(conn) {
        Ok(said) => {
            tell_version(said, progress);
            refused_for(said)
        }
        Err(error) => fault_of(&error),
    }
}

/// The entries that a database holds which was just opened, so that no limit is set on the steps of a query.
pub fn read_old<S: Session, P: Progress>(
    alloc: Global,
    conn: &mut S,
    progress: &mut P,
) -> Result<Vec<Entry>, OpenFault>
    requires unlimited { (S.state conn.old).step_limit ≡ None }
    requires open { HasCleanDisk (S.state conn.old) → StandsOpen (S.state conn.old) }
    ensures which { HasCleanDisk (S.state conn.new) → IfOk result (λ entries. HoldsEntries (tables S.state conn.old) entries.items) }
    ensures accepted { IfOk result (λ entries. AreHistory entries.items) }
    ensures spares { Spares (S.state conn.old) (S.state conn.new) }
    ensures refused { HasCleanDisk (S.state conn.new) → IfErr result (λ fault. IsRefusal fault → (content : Content) → ¬ HoldsOld (tables S.state conn.old) content) }
    ensures other { HasCleanDisk (S.state conn.new) → result ≡ Err OpenFault.OtherVersion → SaysNeither S.state (tables S.state conn.old) }
    ensures blame { HasCleanDisk (S.state conn.new) → IfErr result (IsBlamed (S.state conn.old) (S.state conn.new)) }
{
    let mut memory = ListRegister::new(alloc, MOST_ENTRIES);
    let version = version_of(conn);
    match audit_version(alloc, conn, version, &mut memory, progress) {
        Ok(Audited::Whole) => match entries_held(alloc, &mut memory) {
            Ok(entries) => Ok(entries),
            Err(_) => Err(OpenFault::Memory),
        },
        Ok(Audited::OtherTables | Audited::OtherVersion) => Err(refusal(conn, progress)),
        Ok(Audited::OtherEntry(number)) => { Err(OpenFault::NotOurFile(Difference::Entry(number))) }
        Ok(Audited::Differs(table)) => Err(OpenFault::NotOurFile(Difference::Table(table))),
        Err(fault) => Err(fault_of_audit(&fault)),
    }
}
