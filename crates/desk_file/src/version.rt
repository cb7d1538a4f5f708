//! Which version a database tells that is not the desk's.
ghost use Rattle.std.specs.Prelude.{◌≡◌, [], false, Err, IfErr, IfOk, IfSome, IsOkAnd, IsTrue, OnOk};
ghost use Rattle.sqlite.specs.State.{HasCleanDisk, Shown};
ghost use Rattle.sql_tables.specs.Calls.{FailsForCause, tables};
ghost use Rattle.sql_tables.specs.Control.{Begins};
ghost use Rattle.sql_tables.specs.Ends.{SaysWhy};
ghost use Rattle.desk_file.specs.OtherVersion.{versions_text, SaysNumber, TellsVersion};
ghost use Rattle.desk_file.specs.Spared.{Spares};

use sql_tables::session::Session;
use sqlite::types::ValueRef;
use sqlite::{Error, Row};
use sqlite_schema::names::same_name;

/// Begins a transaction, whatever tables there are: what is read of tables that nobody knows is given up afterwards.
fn begin<S: Session>(conn: &mut S) -> Result<usize, Error>
    ensures inside { HasCleanDisk (S.state conn.new) → OnOk result (IsTrue (S.state conn.new).in_transaction) }
    ensures spares { Spares (S.state conn.old) (S.state conn.new) }
    ensures same { HasCleanDisk (S.state conn.new) → OnOk result (Begins (S.state conn.old) (S.state conn.new)) }
    ensures blame { HasCleanDisk (S.state conn.new) → IsTrue (S.state conn.old).is_open → (S.state conn.old).in_transaction ≡ false → FailsForCause S.state conn.old conn.new result }
{
    conn.execute("BEGIN", &[])
}

/// The versions that a table `version` says, two of them at most.
fn versions<S: Session>(conn: &mut S) -> Result<Vec<Row>, Error>
    ensures spares { (HasCleanDisk (S.state conn.old) → IsTrue (S.state conn.old).in_transaction) → Spares (S.state conn.old) (S.state conn.new) }
    ensures why { HasCleanDisk (S.state conn.new) → IsTrue (S.state conn.old).is_open → IfErr result (SaysWhy (S.state conn.old) (S.state conn.new)) }
    ensures shown { HasCleanDisk (S.state conn.new) → IfOk result (λ rows. Shown versions_text [] (S.state conn.old) (S.state conn.new) rows.items) }
{
    conn.query_all("SELECT number FROM version LIMIT 2", &[])
}

/// Whether a database has a table of that name, in which the library can read: a view is none.
fn has_versions<S: Session>(conn: &S) -> bool {
    conn.schema().tables.as_slice().iter().any(|table| same_name(
        table.name.as_slice(),
        "version".as_bytes(),
    ))
}

/// The number that rows say, which are one; None where they say none.
fn number_said(rows: &[Row]) -> Option<i64>
    ensures { IfSome result (SaysNumber rows.now) }
{
    match rows {
        [row] => match row.get_ref(0) {
            Ok(ValueRef::Int(number)) => Some(number),
            _ => None,
        },
        _ => None,
    }
}

/// What shown versions come to. Where none are shown though the transaction is still open, there are none to read; where it was
/// taken back, memory is wanting or the device failed.
fn told<S: Session>(conn: &S, shown: Result<Vec<Row>, Error>) -> Result<Option<i64>, Error>
    ensures said { IfOk result (λ said. IfSome said (λ number. IsOkAnd shown (λ rows. SaysNumber rows.items number))) }
    ensures none { IfErr result (λ e. (shown ≡ Err e) × ((S.state conn.now).in_transaction ≡ false)) }
{
    match shown {
        Ok(rows) => Ok(number_said(&rows)),
        Err(error) => {
            if conn.is_autocommit() {
                Err(error)
            } else {
                Ok(None)
            }
        }
    }
}

/// The number that the one row of a table `version` says, whatever other tables there are; None where there is no such table, or
/// no such row. Nothing is committed; a transaction may be left open.
pub fn version_said<S: Session>(conn: &mut S) -> Result<Option<i64>, Error>
    ensures spares { Spares (S.state conn.old) (S.state conn.new) }
    ensures blame { HasCleanDisk (S.state conn.new) → IsTrue (S.state conn.old).is_open → (S.state conn.old).in_transaction ≡ false → FailsForCause S.state conn.old conn.new result }
    ensures said { HasCleanDisk (S.state conn.new) → IfOk result (λ said. IfSome said (TellsVersion S.state (tables S.state conn.old))) }
{
    if !has_versions(conn) {
        return Ok(None);
    }
    begin(conn)?;
    let shown = versions(conn);
    told(conn, shown)
}
