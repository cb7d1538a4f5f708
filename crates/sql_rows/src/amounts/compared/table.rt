//! A table of amounts, beside what a register has.
ghost use Rattle.std.specs.Prelude.{◌≡◌, map, IsTrue, IfOk};
ghost use Rattle.std.specs.List.Sorted.{IsPermutation};
ghost use Rattle.desk_register.specs.View.{IfTrusted};
ghost use Rattle.sql_rows.specs.Keys.{tree_of};
ghost use Rattle.sql_tables.specs.Calls.{FailsForCause, Looks, Soundly, tables};
ghost use Rattle.sql_tables.specs.Schema.{desk_schema};
ghost use Rattle.sql_tables.specs.Forms.{AreAllFormed};
ghost use Rattle.sql_tables.specs.Order.{AreInOrder};
ghost use Rattle.sql_tables.specs.Audits.{Audits, AuditsForCause, Consults};
ghost use Rattle.sql_rows.specs.Said.{HasReadable};
ghost use Rattle.sql_rows.specs.Shown.{all_text, shown, AreTrueTables, IsTrueTable};

use crate::amounts::compared::row::show_true;
use crate::amounts::key::Ledger;
use desk_register::{Register, Stage};
use sql_tables::fault::AuditFault;
use sql_tables::session::Session;
use sql_tables::statement::query;
use sqlite::{Error, Row};
use std::alloc::Global;

/// The query of all rows.
fn query_of_all(ledger: Ledger) -> &'static str
    ensures { result.now ≡ all_text ledger }
{
    match ledger {
        Ledger::Balance => "SELECT account, isin, quantity FROM balance",
        Ledger::Cash => "SELECT bic, currency, amount FROM cash",
        Ledger::Total => "SELECT subject, code, amount FROM total",
    }
}

/// All rows of a table.
fn rows_of<S: Session>(conn: &mut S, ledger: Ledger) -> Result<Vec<Row>, Error>
    ensures shown { Soundly S.state conn.old conn.new (IfOk result (λ rows. IsPermutation (map shown ((tables S.state conn.old).trees (tree_of ledger))) rows.items)) }
    ensures look { Looks S.state conn.old conn.new result }
    ensures blame { Soundly S.state conn.old conn.new (FailsForCause S.state conn.old conn.new result) }
{
    let text = query_of_all(ledger);
    query(conn, text, &[])
}

/// Whether each row of a table has an amount of 0, or what a register has under its key.
fn is_true_table<S: Session, R: Register>(
    alloc: Global,
    conn: &mut S,
    register: &mut R,
    ledger: Ledger,
) -> Result<bool, AuditFault>
    requires stage { (R.view register.old).stage ≡ Stage.Idle }
    ensures says { Soundly S.state conn.old conn.new (IfTrusted (R.view register.old) (R.view register.new)
        (AreInOrder desk_schema (tables S.state conn.old).trees → AreAllFormed (tables S.state conn.old).trees
        → IfOk result (λ so. IsTrue so → IsTrueTable (tables S.state conn.old) (R.view register.old).content ledger))) }
    ensures exact { Soundly S.state conn.old conn.new (IfTrusted (R.view register.old) (R.view register.new)
        (IsTrueTable (tables S.state conn.old) (R.view register.old).content ledger → HasReadable (R.view register.old).content → IfOk result (λ so. IsTrue so))) }
    ensures look { Audits S.state conn.old conn.new result }
    ensures blame { Soundly S.state conn.old conn.new (AuditsForCause S.state conn.old conn.new result) }
    ensures read { Consults result (R.view register.old) (R.view register.new) }
{
    let rows = rows_of(conn, ledger)?;
    let so = show_true(alloc, register, ledger, &rows)?;
    Ok(so)
}

/// Whether so it is of all three tables.
pub fn are_true_tables<S: Session, R: Register>(
    alloc: Global,
    conn: &mut S,
    register: &mut R,
) -> Result<bool, AuditFault>
    requires stage { (R.view register.old).stage ≡ Stage.Idle }
    ensures says { Soundly S.state conn.old conn.new (IfTrusted (R.view register.old) (R.view register.new)
        (AreInOrder desk_schema (tables S.state conn.old).trees → AreAllFormed (tables S.state conn.old).trees
        → IfOk result (λ so. IsTrue so → AreTrueTables (tables S.state conn.old) (R.view register.old).content))) }
    ensures exact { Soundly S.state conn.old conn.new (IfTrusted (R.view register.old) (R.view register.new)
        (AreTrueTables (tables S.state conn.old) (R.view register.old).content → HasReadable (R.view register.old).content → IfOk result (λ so. IsTrue so))) }
    ensures look { Audits S.state conn.old conn.new result }
    ensures blame { Soundly S.state conn.old conn.new (AuditsForCause S.state conn.old conn.new result) }
    ensures read { Consults result (R.view register.old) (R.view register.new) }
{
    if !is_true_table(alloc, conn, register, Ledger::Balance)? {
        return Ok(false);
    }
    if !is_true_table(alloc, conn, register, Ledger::Cash)? {
        return Ok(false);
    }
    is_true_table(alloc, conn, register, Ledger::Total)
}
