//! The version of the tables.

ghost use Rattle.std.specs.Prelude.{◌≡◌, ℕ, Option, None, IfOk, OnOk};
ghost use Rattle.sql_tables.specs.Rows.{number_rows};
ghost use Rattle.sql_tables.specs.Version.{HasVersion, SetsVersion};
ghost use Rattle.sql_tables.specs.Calls.{FailsForCause, Looks, Soundly, Writes, tables};

use crate::rows::only_number;
use crate::session::Session;
use crate::statement::{execute, query};
use crate::values::integer;
use sqlite::{Error, Row};

/// The version of these tables, as a row of `version` says it.
pub const VERSION: u64 = 3;

/// The version that the table says; None where it says none.
pub fn version<S: Session>(conn: &mut S) -> Result<Option<u64>, Error>
    ensures value { Soundly S.state conn.old conn.new ((number : Option ℕ) → HasVersion (tables S.state conn.old) number → IfOk result (λ r. r ≡ number)) }
    ensures look { Looks S.state conn.old conn.new result }
    ensures blame { Soundly S.state conn.old conn.new ((number : Option ℕ) → HasVersion (tables S.state conn.old) number → FailsForCause S.state conn.old conn.new result) }
{
    let rows = version_rows(conn)?;
    only_number(&rows)
}

/// Says the version of these tables, where none was said.
pub fn set_version<S: Session>(conn: &mut S) -> Result<(), Error>
    ensures set { Soundly S.state conn.old conn.new (HasVersion (tables S.state conn.old) None → OnOk result (SetsVersion (tables S.state conn.old) (tables S.state conn.new) 3)) }
    ensures write { Writes S.state conn.old conn.new result }
    ensures blame { Soundly S.state conn.old conn.new (HasVersion (tables S.state conn.old) None → FailsForCause S.state conn.old conn.new result) }
{
    insert(conn)?;
    Ok(())
}

fn version_rows<S: Session>(conn: &mut S) -> Result<Vec<Row>, Error>
    ensures shown { Soundly S.state conn.old conn.new ((number : Option ℕ) → HasVersion (tables S.state conn.old) number → IfOk result (λ rows. rows.items ≡ number_rows number)) }
    ensures look { Looks S.state conn.old conn.new result }
    ensures blame { Soundly S.state conn.old conn.new (FailsForCause S.state conn.old conn.new result) }
{
    query(
        conn,
        "SELECT number FROM version ORDER BY number LIMIT 1",
        &[],
    )
}

fn insert<S: Session>(conn: &mut S) -> Result<usize, Error>
    ensures set { Soundly S.state conn.old conn.new (HasVersion (tables S.state conn.old) None → OnOk result (SetsVersion (tables S.state conn.old) (tables S.state conn.new) 3)) }
    ensures write { Writes S.state conn.old conn.new result }
    ensures blame { Soundly S.state conn.old conn.new (HasVersion (tables S.state conn.old) None → FailsForCause S.state conn.old conn.new result) }
{
    execute(
        conn,
        "INSERT INTO version (number) VALUES (?1)",
        &[integer(VERSION)],
    )
}
