//! The tables of amounts, beside what a register has.

mod recorded;
mod row;
mod said;
mod table;

ghost use Rattle.std.specs.Prelude.{◌≡◌, IsTrue, IfOk};
ghost use Rattle.desk_register.specs.View.{IfTrusted};
ghost use Rattle.sql_tables.specs.Calls.{Soundly, tables};
ghost use Rattle.sql_tables.specs.Schema.{desk_schema};
ghost use Rattle.sql_tables.specs.Forms.{AreAllFormed};
ghost use Rattle.sql_tables.specs.Order.{AreInOrder};
ghost use Rattle.sql_tables.specs.Audits.{Audits, AuditsForCause, Consults};
ghost use Rattle.sql_rows.specs.Said.{HasAmounts, HasNoStranger, HasReadable};

use crate::amounts::compared::recorded::{are_entries_recorded, is_paid_recorded};
use crate::amounts::compared::table::are_true_tables;
use desk_register::{Register, Stage};
use sql_tables::fault::AuditFault;
use sql_tables::session::Session;
use std::alloc::Global;

/// Whether the tables of amounts say what a register has, and nothing else. What is 0 may have a row or none; but a currency
/// has a row exactly where some of it was ever paid in.
pub fn has_amounts<S: Session, R: Register>(
    alloc: Global,
    conn: &mut S,
    register: &mut R,
) -> Result<bool, AuditFault>
    requires stage { (R.view register.old).stage ≡ Stage.Idle }
    ensures says { Soundly S.state conn.old conn.new (IfTrusted (R.view register.old) (R.view register.new)
        (AreInOrder desk_schema (tables S.state conn.old).trees → AreAllFormed (tables S.state conn.old).trees → HasNoStranger (R.view register.old).content
        → IfOk result (λ so. IsTrue so → HasAmounts (tables S.state conn.old) (R.view register.old).content))) }
    ensures exact { Soundly S.state conn.old conn.new (IfTrusted (R.view register.old) (R.view register.new)
        (HasReadable (R.view register.old).content → HasAmounts (tables S.state conn.old) (R.view register.old).content → IfOk result (λ so. IsTrue so))) }
    ensures look { Audits S.state conn.old conn.new result }
    ensures blame { Soundly S.state conn.old conn.new (IfTrusted (R.view register.old) (R.view register.new)
        (AreInOrder desk_schema (tables S.state conn.old).trees → AreAllFormed (tables S.state conn.old).trees → AuditsForCause S.state conn.old conn.new result)) }
    ensures read { Consults result (R.view register.old) (R.view register.new) }
{
    if !are_true_tables(alloc, conn, register)? {
        return Ok(false);
    }
    if !are_entries_recorded(alloc, conn, register)? {
        return Ok(false);
    }
    is_paid_recorded(alloc, conn, register)
}
