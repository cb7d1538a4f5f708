//! The tables that a register in memory says whole: all but `version` and `register`.
ghost use Rattle.std.specs.Prelude.{◌≡◌, None, IfOk};
ghost use Rattle.desk_register.specs.View.{IfTrusted};
ghost use Rattle.desk_rules.specs.Content.{history_of};
ghost use Rattle.desk_rules.specs.WellFormed.{AreWellFormed};
ghost use Rattle.desk_engine.specs.KeptHistory.{HoldsKept};
ghost use Rattle.sql_tables.specs.Calls.{Soundly, SoundlyIn, tables};
ghost use Rattle.sql_tables.specs.Schema.{desk_schema};
ghost use Rattle.sql_tables.specs.Forms.{AreAllFormed};
ghost use Rattle.sql_tables.specs.Order.{AreInOrder};
ghost use Rattle.sql_tables.specs.Audits.{Audits, AuditsForCause, AuditsIn, Consults};
ghost use Rattle.sql_tables.specs.Versions.{schema_in, AreAllFormedIn};
ghost use Rattle.desk_file.specs.Audited.{HasRest, SaysRest};

use desk_register::{Messages, Stage};
use sql_rows::{has_amounts, has_sent, has_standings};
use sql_tables::fault::AuditFault;
use sql_tables::session::Session;
use sql_tables::versions::Version;
use std::alloc::Global;

/// A table whose rows follow from the entries.
#[derive(Clone, Copy, Debug)]
pub enum Table {
    /// `state`
    State,
    /// `sent`
    Sent,
    /// One of `balance`, `cash` and `total`
    Amounts,
}

/// Of a version that has these tables, the first that does not say what a register does, which holds an accepted history; None
/// where each does.
fn first_unlike<S: Session, R: Messages>(
    alloc: Global,
    conn: &mut S,
    version: Version,
    register: &mut R,
) -> Result<Option<Table>, AuditFault>
    requires stage { (R.Register.view register.old).stage ≡ Stage.Idle }
    ensures says { Soundly S.state conn.old conn.new (IfTrusted (R.Register.view register.old) (R.Register.view register.new)
        (AreInOrder desk_schema (tables S.state conn.old).trees → AreAllFormed (tables S.state conn.old).trees
        → HoldsKept (R.Register.view register.old).room (R.Register.view register.old).content.register (R.Register.view register.old).content
        → IfOk result (λ other. other ≡ None → SaysRest version (tables S.state conn.old) (R.Register.view register.old).content))) }
    ensures exact { Soundly S.state conn.old conn.new (IfTrusted (R.Register.view register.old) (R.Register.view register.new)
        (HoldsKept (R.Register.view register.old).room (R.Register.view register.old).content.register (R.Register.view register.old).content → AreWellFormed (history_of (R.Register.view register.old).content)
        → SaysRest version (tables S.state conn.old) (R.Register.view register.old).content → IfOk result (λ other. other ≡ None))) }
    ensures look { Audits S.state conn.old conn.new result }
    ensures cause { Soundly S.state conn.old conn.new (IfTrusted (R.Register.view register.old) (R.Register.view register.new)
        (AreInOrder desk_schema (tables S.state conn.old).trees → AreAllFormed (tables S.state conn.old).trees → AuditsForCause S.state conn.old conn.new result)) }
    ensures read { Consults result (R.Register.view register.old) (R.Register.view register.new) }
{
    if !has_standings(alloc, conn, version, register)? {
        return Ok(Some(Table::State));
    }
    if !has_sent(alloc, conn, register)? {
        return Ok(Some(Table::Sent));
    }
    if !has_amounts(alloc, conn, register)? {
        return Ok(Some(Table::Amounts));
    }
    Ok(None)
}

/// The first table that does not say what a register does, which holds an accepted history; None where each does that a version of
/// the file has.
pub fn first_other<S: Session, R: Messages>(
    alloc: Global,
    conn: &mut S,
    version: Version,
    register: &mut R,
) -> Result<Option<Table>, AuditFault>
    requires stage { (R.Register.view register.old).stage ≡ Stage.Idle }
    ensures says { SoundlyIn S.state conn.old conn.new (schema_in version) (IfTrusted (R.Register.view register.old) (R.Register.view register.new)
        (AreInOrder (schema_in version) (tables S.state conn.old).trees → AreAllFormedIn version (tables S.state conn.old).trees
        → HoldsKept (R.Register.view register.old).room (R.Register.view register.old).content.register (R.Register.view register.old).content
        → IfOk result (λ other. other ≡ None → HasRest version (tables S.state conn.old) (R.Register.view register.old).content))) }
    ensures exact { SoundlyIn S.state conn.old conn.new (schema_in version) (IfTrusted (R.Register.view register.old) (R.Register.view register.new)
        (HoldsKept (R.Register.view register.old).room (R.Register.view register.old).content.register (R.Register.view register.old).content → AreWellFormed (history_of (R.Register.view register.old).content)
        → HasRest version (tables S.state conn.old) (R.Register.view register.old).content → IfOk result (λ other. other ≡ None))) }
    ensures look { AuditsIn S.state conn.old conn.new (schema_in version) result }
    ensures cause { SoundlyIn S.state conn.old conn.new (schema_in version) (IfTrusted (R.Register.view register.old) (R.Register.view register.new)
        (AreInOrder (schema_in version) (tables S.state conn.old).trees → AreAllFormedIn version (tables S.state conn.old).trees → AuditsForCause S.state conn.old conn.new result)) }
    ensures read { Consults result (R.Register.view register.old) (R.Register.view register.new) }
{
    match version {
        Version::First => Ok(None),
        _ => first_unlike(alloc, conn, version, register),
    }
}
