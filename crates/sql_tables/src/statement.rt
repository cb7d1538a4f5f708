//! The texts that change or read rows of the tables.

ghost use Rattle.std.specs.Prelude.{IfOk, IfErr, IsTrue};
ghost use Rattle.sqlite.specs.State.{HasCleanDisk, Executes, Shown, FailsToQuery};
ghost use Rattle.sqlite.specs.Effect.{IsDatabase};
ghost use Rattle.sqlite.specs.Values.{bound};
ghost use Rattle.sqlite.specs.Schema.{Schema};
ghost use Rattle.sql_tables.specs.Statements.{IsEdit, IsQuery, IsQueryIn};
ghost use Rattle.sql_tables.specs.Calls.{Looks, LooksIn, Writes, tables};

use crate::session::Session;
use sqlite::types::ValueRef;
use sqlite::{Error, Row};

/// Puts rows into a table, changes some of its rows or takes some out, and says how many.
pub fn execute<S: Session>(
    conn: &mut S,
    text: &str,
    params: &[ValueRef<'_>],
) -> Result<usize, Error>
    requires edit { IsEdit text.now }
    ensures obeyed { IsTrue (S.state conn.old).is_open → IsDatabase (tables S.state conn.old) }
    ensures runs { HasCleanDisk (S.state conn.new) → Executes text.now (bound params.now) (S.state conn.old) (S.state conn.new) result }
    ensures write { Writes S.state conn.old conn.new result }
{
    let _obeyed = conn.schema();
    conn.execute(text, params)
}

/// The rows that a query shows, whichever tables there are.
pub fn query_of<S: Session>(
    conn: &mut S,
    text: &str,
    params: &[ValueRef<'_>],
) -> Result<Vec<Row>, Error>
    ensures shown { HasCleanDisk (S.state conn.new) → IfOk result (λ rows. Shown text.now (bound params.now) (S.state conn.old) (S.state conn.new) rows.items) }
    ensures fails { HasCleanDisk (S.state conn.new) → IfErr result (FailsToQuery text.now (bound params.now) (S.state conn.old) (S.state conn.new)) }
    ensures look { (schema : Schema) → IsQueryIn schema text.now → LooksIn S.state conn.old conn.new schema result }
{
    conn.query_all(text, params)
}

/// The rows that a query of the desk's tables shows.
pub fn query<S: Session>(
    conn: &mut S,
    text: &str,
    params: &[ValueRef<'_>],
) -> Result<Vec<Row>, Error>
    requires query { IsQuery text.now }
    ensures shown { HasCleanDisk (S.state conn.new) → IfOk result (λ rows. Shown text.now (bound params.now) (S.state conn.old) (S.state conn.new) rows.items) }
    ensures fails { HasCleanDisk (S.state conn.new) → IfErr result (FailsToQuery text.now (bound params.now) (S.state conn.old) (S.state conn.new)) }
    ensures look { Looks S.state conn.old conn.new result }
{
    query_of(conn, text, params)
}
