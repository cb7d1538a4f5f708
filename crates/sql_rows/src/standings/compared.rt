//! The table `state` beside where a register says that its entries stand.
ghost use Rattle.std.specs.Prelude.{◌≡◌, ◌<◌, ◌∷◌, ◌↔◌, true, pos, length, map, IsTrue, IfOk, IsOk};
ghost use Rattle.sqlite.specs.declared.types.Value.TheVariants.{Int};
ghost use Rattle.sqlite.specs.Order.{column};
ghost use Rattle.sqlite_trees.specs.Tree.{IsTable};
ghost use Rattle.desk_register.specs.View.{IfTrusted, IsRead};
ghost use Rattle.sql_tables.specs.Calls.{FailsForCause, Looks, Soundly, tables};
ghost use Rattle.sql_tables.specs.Schema.{desk_schema};
ghost use Rattle.sql_tables.specs.Forms.{AreAllFormed};
ghost use Rattle.sql_tables.specs.Order.{AreInOrder};
ghost use Rattle.sql_rows.specs.Standings.{columns_of};
ghost use Rattle.sql_tables.specs.Audits.{of_register, Audits, AuditsForCause, Consults};
ghost use Rattle.sql_tables.specs.Whole.{shown_by};
ghost use Rattle.sql_rows.specs.StandingsTold.{written_of, AreTold, IsTold, SaysStandingsIn, StandsWithin, as_said};

use crate::standings::states::{reason_code, state_code};
use desk_register::{Fault, Register, Stage};
use desk_rules::{Standing, State};
use sql_tables::compared::MOST;
use sql_tables::fault::AuditFault;
use sql_tables::rows::number_at;
use sql_tables::session::Session;
use sql_tables::statement::query;
use sql_tables::versions::Version;
use sqlite::{Error, Row};
use std::alloc::Global;

/// All rows, with their numbers, in the order of these.
fn rows_of<S: Session>(conn: &mut S) -> Result<Vec<Row>, Error>
    ensures shown { Soundly S.state conn.old conn.new (IsTable ((tables S.state conn.old).trees 8) → IfOk result (λ rows. rows.items ≡ map (shown_by 4) ((tables S.state conn.old).trees 8))) }
    ensures look { Looks S.state conn.old conn.new result }
    ensures blame { Soundly S.state conn.old conn.new (FailsForCause S.state conn.old conn.new result) }
{
    query(
        conn,
        "SELECT number, mate, state, reason, asked FROM state ORDER BY number",
        &[],
    )
}

/// Whether a row can tell where the entry of a number stands, or it stands nowhere.
fn is_told(number: u64, standing: &Standing) -> bool
    ensures { IsTrue result ↔ IsTold number standing.now }
{
    match standing.state {
        State::NoInstruction => standing.mate.is_none() && !standing.cancel_requested,
        _ => number <= MOST && standing.mate != Some(0),
    }
}

/// Whether a shown row has a number in a column.
fn has_at(row: &Row, at: usize, number: u64) -> bool
    requires { at < length row.now }
    ensures { IsTrue result ↔ (column row.now at ≡ Int (pos number)) }
{
    match number_at(row, at) {
        Ok(shown) => shown == number,
        Err(_) => false,
    }
}

/// Whether a shown row is that of a number and its standing.
fn is_row(row: &Row, number: u64, standing: &Standing) -> bool
    ensures { IsTrue result ↔ (row.now ≡ Int (pos number) ∷ columns_of (written_of standing.now)) }
{
    row.column_count() == 5
        && has_at(row, 0, number)
        && has_at(row, 1, standing.mate.unwrap_or(0))
        && has_at(row, 2, state_code(standing.state))
        && has_at(row, 3, reason_code(standing.state))
        && has_at(row, 4, if standing.cancel_requested { 1 } else { 0 })
}

/// What a version of the file tells of a standing.
fn said_by(version: Version, standing: Standing) -> Standing
    ensures { result ≡ as_said version standing }
{
    match version {
        Version::First | Version::Second => Standing {
            cancel_requested: false,
            ..standing
        },
        Version::Third => standing,
    }
}

/// Whether rows show where the first entries of a register stand, in order of their numbers, and nothing else.
fn standings_told<R: Register>(
    alloc: Global,
    version: Version,
    register: &mut R,
    count: u64,
    rows: &[Row],
) -> Result<bool, Fault>
    requires stage { (R.view register.old).stage ≡ Stage.Idle }
    ensures told { IfTrusted (R.view register.old) (R.view register.new) (IfOk result (λ all. IsTrue all ↔ AreTold (λ n. as_said version ((R.view register.old).content.standing n)) count rows.now)) }
    ensures read { IsRead result (R.view register.old) (R.view register.new) }
    ensures in_memory { R.in_memory ≡ true → IsOk result }
{
    let mut at = 0usize;
    for before in 0..count {
        let number = before + 1;
        let standing = register.standing(alloc, number)?;
        let standing = said_by(version, standing);
        if !is_told(number, &standing) {
            return Ok(false);
        }
        match standing.state {
            State::NoInstruction => {}
            _ => {
                match rows.get(at) {
                    Some(row) => {
                        if !is_row(row, number, &standing) {
                            return Ok(false);
                        }
                    }
                    None => return Ok(false),
                }
                at += 1;
            }
        }
    }
    Ok(at == rows.len())
}

/// Whether shown rows tell where each entry of a register stands.
fn rows_told<R: Register>(
    alloc: Global,
    version: Version,
    register: &mut R,
    rows: &[Row],
) -> Result<bool, Fault>
    requires stage { (R.view register.old).stage ≡ Stage.Idle }
    ensures told { IfTrusted (R.view register.old) (R.view register.new) (IfOk result (λ all. IsTrue all ↔ AreTold (λ n. as_said version ((R.view register.old).content.standing n)) (length (R.view register.old).content.register) rows.now)) }
    ensures read { IsRead result (R.view register.old) (R.view register.new) }
    ensures in_memory { R.in_memory ≡ true → IsOk result }
{
    let count = register.count(alloc)?;
    standings_told(alloc, version, register, count, rows)
}

/// Whether the table `state` says of each entry of a register where it stands, as the register does, and nothing else, as far as
/// a version of the file tells. It reads the whole table, and asks the register of each number.
pub fn has_standings<S: Session, R: Register>(
    alloc: Global,
    conn: &mut S,
    version: Version,
    register: &mut R,
) -> Result<bool, AuditFault>
    requires stage { (R.view register.old).stage ≡ Stage.Idle }
    ensures says { Soundly S.state conn.old conn.new (IfTrusted (R.view register.old) (R.view register.new)
        (AreInOrder desk_schema (tables S.state conn.old).trees → AreAllFormed (tables S.state conn.old).trees → StandsWithin (R.view register.old).content
        → IfOk result (λ all. IsTrue all → SaysStandingsIn version (tables S.state conn.old) (R.view register.old).content))) }
    ensures exact { Soundly S.state conn.old conn.new (IfTrusted (R.view register.old) (R.view register.new)
        (StandsWithin (R.view register.old).content → IfOk result (λ all. SaysStandingsIn version (tables S.state conn.old) (R.view register.old).content → IsTrue all))) }
    ensures look { Audits S.state conn.old conn.new result }
    ensures blame { Soundly S.state conn.old conn.new (AuditsForCause S.state conn.old conn.new result) }
    ensures read { Consults result (R.view register.old) (R.view register.new) }
    ensures in_memory { R.in_memory ≡ true → IsOk (of_register result) }
{
    let rows = rows_of(conn)?;
    let told = rows_told(alloc, version, register, &rows)?;
    Ok(told)
}
