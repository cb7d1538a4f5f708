//! A database beside a register in memory that is filled from it.
ghost use Rattle.std.specs.Prelude.{◌≡◌, ◌≢◌, ◌≤◌, [], true, IfOk, IsTrue, OnOk};
ghost use Rattle.sqlite.specs.State.{HasCleanDisk};
ghost use Rattle.desk_engine.specs.Accepting.{IsDone};
ghost use Rattle.desk_register.specs.View.{IfTrusted, IsLater};
ghost use Rattle.desk_engine.specs.KeptHistory.{HoldsKept};
ghost use Rattle.desk_rules.specs.declared.limits.TheConstants.{MOST_ENTRIES};
ghost use Rattle.desk_rules.specs.Content.{Content};
ghost use Rattle.sql_tables.specs.Calls.{SoundlyIn, tables};
ghost use Rattle.sql_tables.specs.Ends.{IsSame};
ghost use Rattle.sql_tables.specs.Making.{KeepsCommitted};
ghost use Rattle.sql_tables.specs.Schema.{desk_schema};
ghost use Rattle.sql_tables.specs.Versions.{schema_in, AreAllFormedIn};
ghost use Rattle.sql_tables.specs.Order.{AreInOrder};
ghost use Rattle.sql_tables.specs.Audits.{of_register, Audits, AuditsForCause, AuditsIn};
ghost use Rattle.desk_file.specs.Reading.{HoldsFormed};
ghost use Rattle.desk_file.specs.Taking.{BlamesTaking};
ghost use Rattle.desk_file.specs.Audited.{HoldsVersion, IsAudited, IsFilled};

use crate::audit::progress::Progress;
use crate::audit::register::{Reading, read_register};
use crate::audit::rest::{Table, first_other};
use crate::schema::ours::has_desk_tables;
use desk_register::{Messages, Stage};
use sql_tables::compared::has_version;
use sql_tables::fault::AuditFault;
use sql_tables::session::Session;
use sql_tables::versions::Version;
use std::alloc::Global;

/// What an audit found.
#[derive(Clone, Copy)]
pub enum Audited {
    /// The database is that of an accepted history.
    Whole,
    /// It has other tables than the desk's, or others beside.
    OtherTables,
    /// Its tables are of another version.
    OtherVersion,
    /// The row of this number in `register` is not that of an entry which is accepted behind those before it with the kept
    /// reply; or it lacks, and there are rows of other numbers.
    OtherEntry(u64),
    /// This table says something else than the entries come to.
    Differs(Table),
}

/// Fills a register that holds nothing from the table `register`, and compares the tables beside it with what the register says
/// then.
fn fill<S: Session, R: Messages, P: Progress>(
    alloc: Global,
    conn: &mut S,
    version: Version,
    register: &mut R,
    progress: &mut P,
) -> Result<Audited, AuditFault>
    requires stage { (R.Register.view register.old).stage ≡ Stage.Idle }
    requires empty { IfTrusted (R.Register.view register.old) (R.Register.view register.old) (HoldsKept (R.Register.view register.old).room [] (R.Register.view register.old).content) }
    ensures filled { SoundlyIn S.state conn.old conn.new (schema_in version) (IfTrusted (R.Register.view register.old) (R.Register.view register.new)
        (AreInOrder (schema_in version) (tables S.state conn.old).trees → AreAllFormedIn version (tables S.state conn.old).trees
        → IfOk result (λ audited. audited ≡ Audited.Whole → IsFilled version (tables S.state conn.old) (R.Register.view register.old).room (R.Register.view register.new).content))) }
    ensures holds { IfTrusted (R.Register.view register.old) (R.Register.view register.new) (IfOk result (λ audited. audited ≡ Audited.Whole → HoldsFormed (R.Register.view register.old).room (R.Register.view register.new).content)) }
    ensures exact { SoundlyIn S.state conn.old conn.new (schema_in version) (IfTrusted (R.Register.view register.old) (R.Register.view register.new)
        ((content : Content) → IsFilled version (tables S.state conn.old) (R.Register.view register.old).room content → IfOk result (λ audited. audited ≡ Audited.Whole))) }
    ensures not_other { IfOk result (λ audited. audited ≢ Audited.OtherTables) }
    ensures look { AuditsIn S.state conn.old conn.new (schema_in version) result }
    ensures cause { SoundlyIn S.state conn.old conn.new (schema_in version) (IfTrusted (R.Register.view register.old) (R.Register.view register.new)
        (AreInOrder (schema_in version) (tables S.state conn.old).trees → AreAllFormedIn version (tables S.state conn.old).trees → AuditsForCause S.state conn.old conn.new result)) }
    ensures done { OnOk result (IsDone (R.Register.view register.old) (R.Register.view register.new)) }
    ensures later { IsLater (R.Register.view register.old) (R.Register.view register.new) }
    ensures blame { R.Register.in_memory ≡ true → BlamesTaking (of_register result) (R.Register.view register.old) (R.Register.view register.new) }
{
    match read_register(alloc, conn, version, register, progress)? {
        Reading::Whole => {}
        Reading::Stops(number) => return Ok(Audited::OtherEntry(number)),
    }
    match first_other(alloc, conn, version, register)? {
        Some(table) => Ok(Audited::Differs(table)),
        None => Ok(Audited::Whole),
    }
}

/// Audits a database as one of a version of the file, and fills a register that holds nothing from it. One that is that of an accepted history is found whole.
/// What is found whole, with its rows in order, is that of one, and the register holds its content; that it holds some accepted
/// history rests on no answer of the tables. Else, and after a fault, the register should be given up. `progress` is told how
/// many entries are taken in.
pub fn audit_version<S: Session, R: Messages, P: Progress>(
    alloc: Global,
    conn: &mut S,
    version: Version,
    register: &mut R,
    progress: &mut P,
) -> Result<Audited, AuditFault>
    requires stage { (R.Register.view register.old).stage ≡ Stage.Idle }
    requires empty { IfTrusted (R.Register.view register.old) (R.Register.view register.old) (HoldsKept (R.Register.view register.old).room [] (R.Register.view register.old).content) }
    ensures whole { HasCleanDisk (S.state conn.new) → IsTrue (S.state conn.old).is_open → IfTrusted (R.Register.view register.old) (R.Register.view register.new)
        (AreInOrder (tables S.state conn.old).schema (tables S.state conn.old).trees
        → IfOk result (λ audited. audited ≡ Audited.Whole → HoldsVersion version (tables S.state conn.old) (R.Register.view register.old).room (R.Register.view register.new).content)) }
    ensures holds { IfTrusted (R.Register.view register.old) (R.Register.view register.new) (IfOk result (λ audited. audited ≡ Audited.Whole → HoldsFormed (R.Register.view register.old).room (R.Register.view register.new).content)) }
    ensures same { HasCleanDisk (S.state conn.new) → IsTrue (S.state conn.old).is_open → OnOk result (IsSame (S.state conn.old) (S.state conn.new)) }
    ensures exact { HasCleanDisk (S.state conn.new) → IsTrue (S.state conn.old).is_open → IfTrusted (R.Register.view register.old) (R.Register.view register.new)
        ((content : Content) → HoldsVersion version (tables S.state conn.old) (R.Register.view register.old).room content → IfOk result (λ audited. audited ≡ Audited.Whole)) }
    ensures kept { HasCleanDisk (S.state conn.new) → IsTrue (S.state conn.old).is_open → KeepsCommitted (S.state conn.old) (S.state conn.new) }
    ensures other_tables { IfOk result (λ audited. audited ≡ Audited.OtherTables → (tables S.state conn.old).schema ≢ schema_in version) }
    ensures look { AuditsIn S.state conn.old conn.new (schema_in version) result }
    ensures cause { HasCleanDisk (S.state conn.new) → IsTrue (S.state conn.old).is_open → IfTrusted (R.Register.view register.old) (R.Register.view register.new)
        (AreInOrder (tables S.state conn.old).schema (tables S.state conn.old).trees → AuditsForCause S.state conn.old conn.new result) }
    ensures done { OnOk result (IsDone (R.Register.view register.old) (R.Register.view register.new)) }
    ensures later { IsLater (R.Register.view register.old) (R.Register.view register.new) }
    ensures blame { R.Register.in_memory ≡ true → BlamesTaking (of_register result) (R.Register.view register.old) (R.Register.view register.new) }
{
    if !has_desk_tables(conn, version) {
        return Ok(Audited::OtherTables);
    }
    if !has_version(conn, version)? {
        return Ok(Audited::OtherVersion);
    }
    fill(alloc, conn, version, register, progress)
}

/// Audits a database as one that this program writes, and fills a register that holds nothing from it. One that is that of an accepted history is found whole.
/// What is found whole, with its rows in order, is that of one, and the register holds its content; that it holds some accepted
/// history rests on no answer of the tables. Else, and after a fault, the register should be given up. `progress` is told how
/// many entries are taken in.
pub fn audit<S: Session, R: Messages, P: Progress>(
    alloc: Global,
    conn: &mut S,
    register: &mut R,
    progress: &mut P,
) -> Result<Audited, AuditFault>
    requires stage { (R.Register.view register.old).stage ≡ Stage.Idle }
    requires empty { IfTrusted (R.Register.view register.old) (R.Register.view register.old) (HoldsKept (R.Register.view register.old).room [] (R.Register.view register.old).content) }
    ensures whole { HasCleanDisk (S.state conn.new) → IsTrue (S.state conn.old).is_open → IfTrusted (R.Register.view register.old) (R.Register.view register.new)
        (AreInOrder (tables S.state conn.old).schema (tables S.state conn.old).trees → (R.Register.view register.old).room ≤ MOST_ENTRIES
        → IfOk result (λ audited. audited ≡ Audited.Whole → IsAudited (tables S.state conn.old) (R.Register.view register.old).room (R.Register.view register.new).content)) }
    ensures holds { IfTrusted (R.Register.view register.old) (R.Register.view register.new) (IfOk result (λ audited. audited ≡ Audited.Whole → HoldsFormed (R.Register.view register.old).room (R.Register.view register.new).content)) }
    ensures same { HasCleanDisk (S.state conn.new) → IsTrue (S.state conn.old).is_open → OnOk result (IsSame (S.state conn.old) (S.state conn.new)) }
    ensures exact { HasCleanDisk (S.state conn.new) → IsTrue (S.state conn.old).is_open → IfTrusted (R.Register.view register.old) (R.Register.view register.new)
        ((content : Content) → IsAudited (tables S.state conn.old) (R.Register.view register.old).room content → IfOk result (λ audited. audited ≡ Audited.Whole)) }
    ensures kept { HasCleanDisk (S.state conn.new) → IsTrue (S.state conn.old).is_open → KeepsCommitted (S.state conn.old) (S.state conn.new) }
    ensures other_tables { IfOk result (λ audited. audited ≡ Audited.OtherTables → (tables S.state conn.old).schema ≢ desk_schema) }
    ensures look { Audits S.state conn.old conn.new result }
    ensures cause { HasCleanDisk (S.state conn.new) → IsTrue (S.state conn.old).is_open → IfTrusted (R.Register.view register.old) (R.Register.view register.new)
        (AreInOrder (tables S.state conn.old).schema (tables S.state conn.old).trees → AuditsForCause S.state conn.old conn.new result) }
    ensures done { OnOk result (IsDone (R.Register.view register.old) (R.Register.view register.new)) }
    ensures later { IsLater (R.Register.view register.old) (R.Register.view register.new) }
    ensures blame { R.Register.in_memory ≡ true → BlamesTaking (of_register result) (R.Register.view register.old) (R.Register.view register.new) }
{
    audit_version(alloc, conn, Version::Third, register, progress)
}
