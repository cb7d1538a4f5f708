//! The transaction is taken back.
ghost use Rattle.std.specs.Prelude.{◌≡◌, [], false, IsTrue, OnOk, OnErr};
ghost use Rattle.sqlite.specs.State.{HasCleanDisk};
ghost use Rattle.sql_tables.specs.Calls.{FailsForCause, Soundly, tables};
ghost use Rattle.sql_tables.specs.Ends.{IsLater};
ghost use Rattle.sql_tables.specs.Schema.{desk_schema};
ghost use Rattle.sql_register.specs.Undone.{IsTakenBack, IsNotTakenBack};

use sql_tables::control::{probe, roll_back};
use sql_tables::session::Session;
use sqlite::Error;

/// Takes back what the transaction has changed, if one is open, and sees that the connection still is.
pub fn take_back<S: Session>(conn: &mut S) -> Result<(), Error>
    requires schema { HasCleanDisk (S.state conn.old) → IsTrue (S.state conn.old).is_open → (tables S.state conn.old).schema ≡ desk_schema }
    requires committed { HasCleanDisk (S.state conn.old) → IsTrue (S.state conn.old).is_open → (S.state conn.old).committed.schema ≡ desk_schema }
    requires outside { HasCleanDisk (S.state conn.old) → IsTrue (S.state conn.old).is_open → (S.state conn.old).in_transaction ≡ false → (S.state conn.old).marks ≡ [] }
    ensures back { HasCleanDisk (S.state conn.new) → OnOk result (IsTakenBack (S.state conn.old) (S.state conn.new)) }
    ensures err { HasCleanDisk (S.state conn.new) → IsTrue (S.state conn.new).is_open → OnErr result (IsNotTakenBack (S.state conn.old) (S.state conn.new)) }
    ensures opened { HasCleanDisk (S.state conn.new) → IsTrue (S.state conn.new).is_open → IsTrue (S.state conn.old).is_open }
    ensures later { IsLater (S.state conn.old) (S.state conn.new) }
    ensures blame { Soundly S.state conn.old conn.new (IsTrue (S.state conn.new).is_open → FailsForCause S.state conn.old conn.new result) }
{
    if conn.is_autocommit() {
        return probe(conn);
    }
    roll_back(conn)?;
    probe(conn)
}
