//! The tables are made, in a database that has none.

ghost use Rattle.std.specs.Prelude.{IsTrue, OnErr, OnOk};
ghost use Rattle.sqlite.specs.State.{HasCleanDisk};
ghost use Rattle.sqlite.specs.Schema.{Schema};
ghost use Rattle.sql_tables.specs.Schema.{desk_schema, no_schema};
ghost use Rattle.sql_tables.specs.Calls.{FailsForCause, tables};
ghost use Rattle.sql_tables.specs.Ends.{IsLater};
ghost use Rattle.sql_tables.specs.Making.{first_of, Makes, IsEmpty, HasMade, KeepsCommitted};

use crate::session::Session;
use crate::tables::{
    MAKES_BALANCE, MAKES_CASH, MAKES_REGISTER, MAKES_SENT, MAKES_STATE, MAKES_TOTAL, MAKES_VERSION,
};
use sqlite::Error;

/// Makes a table.
fn make<S: Session>(conn: &mut S, text: &str) -> Result<usize, Error>
    ensures made { HasCleanDisk (S.state conn.new) → IsTrue (S.state conn.old).is_open → (before after : Schema) → Makes text.now before after → IsEmpty before (tables S.state conn.old) → OnOk result (HasMade after (S.state conn.old) (S.state conn.new)) }
    ensures kept { HasCleanDisk (S.state conn.new) → OnErr result (KeepsCommitted (S.state conn.old) (S.state conn.new)) }
    ensures blame { HasCleanDisk (S.state conn.new) → IsTrue (S.state conn.old).is_open → (before after : Schema) → Makes text.now before after → IsEmpty before (tables S.state conn.old) → FailsForCause S.state conn.old conn.new result }
    ensures later { IsLater (S.state conn.old) (S.state conn.new) }
{
    conn.execute(text, &[])
}

/// The tables of amounts.
fn make_amounts<S: Session>(conn: &mut S) -> Result<(), Error>
    ensures made { HasCleanDisk (S.state conn.new) → IsTrue (S.state conn.old).is_open → IsEmpty no_schema (tables S.state conn.old) → OnOk result (HasMade (first_of 3 3) (S.state conn.old) (S.state conn.new)) }
    ensures kept { HasCleanDisk (S.state conn.new) → IsTrue (S.state conn.old).is_open → IsTrue (S.state conn.old).in_transaction → IsEmpty no_schema (tables S.state conn.old) → OnErr result (KeepsCommitted (S.state conn.old) (S.state conn.new)) }
    ensures blame { HasCleanDisk (S.state conn.new) → IsTrue (S.state conn.old).is_open → IsEmpty no_schema (tables S.state conn.old) → FailsForCause S.state conn.old conn.new result }
    ensures later { IsLater (S.state conn.old) (S.state conn.new) }
{
    make(conn, MAKES_BALANCE)?;
    make(conn, MAKES_CASH)?;
    make(conn, MAKES_TOTAL)?;
    Ok(())
}

/// The tables of entries and of where instructions stand.
fn make_register<S: Session>(conn: &mut S) -> Result<(), Error>
    ensures made { HasCleanDisk (S.state conn.new) → IsTrue (S.state conn.old).is_open → IsEmpty (first_of 3 3) (tables S.state conn.old) → OnOk result (HasMade (first_of 5 4) (S.state conn.old) (S.state conn.new)) }
    ensures kept { HasCleanDisk (S.state conn.new) → IsTrue (S.state conn.old).is_open → IsTrue (S.state conn.old).in_transaction → IsEmpty (first_of 3 3) (tables S.state conn.old) → OnErr result (KeepsCommitted (S.state conn.old) (S.state conn.new)) }
    ensures blame { HasCleanDisk (S.state conn.new) → IsTrue (S.state conn.old).is_open → IsEmpty (first_of 3 3) (tables S.state conn.old) → FailsForCause S.state conn.old conn.new result }
    ensures later { IsLater (S.state conn.old) (S.state conn.new) }
{
    make(conn, MAKES_REGISTER)?;
    make(conn, MAKES_STATE)?;
    Ok(())
}

/// The tables of what was sent, and of the version.
fn make_messages<S: Session>(conn: &mut S) -> Result<(), Error>
    ensures made { HasCleanDisk (S.state conn.new) → IsTrue (S.state conn.old).is_open → IsEmpty (first_of 5 4) (tables S.state conn.old) → OnOk result (HasMade desk_schema (S.state conn.old) (S.state conn.new)) }
    ensures kept { HasCleanDisk (S.state conn.new) → IsTrue (S.state conn.old).is_open → IsTrue (S.state conn.old).in_transaction → IsEmpty (first_of 5 4) (tables S.state conn.old) → OnErr result (KeepsCommitted (S.state conn.old) (S.state conn.new)) }
    ensures blame { HasCleanDisk (S.state conn.new) → IsTrue (S.state conn.old).is_open → IsEmpty (first_of 5 4) (tables S.state conn.old) → FailsForCause S.state conn.old conn.new result }
    ensures later { IsLater (S.state conn.old) (S.state conn.new) }
{
    make(conn, MAKES_SENT)?;
    make(conn, MAKES_VERSION)?;
    Ok(())
}

/// Makes the tables, in a database that has none. Where it fails, the transaction that it is made in should be given up.
pub fn make_tables<S: Session>(conn: &mut S) -> Result<(), Error>
    ensures made { HasCleanDisk (S.state conn.new) → IsTrue (S.state conn.old).is_open → IsEmpty no_schema (tables S.state conn.old) → OnOk result (HasMade desk_schema (S.state conn.old) (S.state conn.new)) }
    ensures kept { HasCleanDisk (S.state conn.new) → IsTrue (S.state conn.old).is_open → IsTrue (S.state conn.old).in_transaction → IsEmpty no_schema (tables S.state conn.old) → OnErr result (KeepsCommitted (S.state conn.old) (S.state conn.new)) }
    ensures blame { HasCleanDisk (S.state conn.new) → IsTrue (S.state conn.old).is_open → IsEmpty no_schema (tables S.state conn.old) → FailsForCause S.state conn.old conn.new result }
    ensures later { IsLater (S.state conn.old) (S.state conn.new) }
{
    make_amounts(conn)?;
    make_register(conn)?;
    make_messages(conn)?;
    Ok(())
}
