//! What is cancelled: an unmatched instruction alone.
ghost use Rattle.std.specs.Prelude.{OnOk};
ghost use Rattle.desk_register.specs.Changes.{CanCancel, cancelled};
ghost use Rattle.sql_register.specs.Content.{content_in};
ghost use Rattle.sql_register.specs.Holds.{Becomes, IsDesk};
ghost use Rattle.sql_tables.specs.Calls.{FailsForCause, Soundly, Writes, tables};

use crate::numbers::checked;
use desk_rules::State;
use sql_rows::set_state;
use sql_tables::session::Session;
use sqlite::Error;

/// Lets an unmatched instruction stand cancelled.
pub fn cancel<S: Session>(conn: &mut S, number: u64) -> Result<(), Error>
    ensures changed { Soundly S.state conn.old conn.new (IsDesk (tables S.state conn.old) → CanCancel (content_in (tables S.state conn.old)) number → OnOk result (Becomes (tables S.state conn.new) (cancelled number (content_in (tables S.state conn.old))))) }
    ensures write { Writes S.state conn.old conn.new result }
    ensures blame { Soundly S.state conn.old conn.new (IsDesk (tables S.state conn.old) → CanCancel (content_in (tables S.state conn.old)) number → FailsForCause S.state conn.old conn.new result) }
{
    let number = checked(number)?;
    set_state(conn, number, State::Cancelled)
}
