//! How both instructions of a pair stand.
ghost use Rattle.std.specs.Prelude.{◌≢◌, ◌<◌, OnOk};
ghost use Rattle.sql_rows.specs.Standings.{AreStandings};
ghost use Rattle.sql_register.specs.Pairs.{StandAlready, StandBoth};
ghost use Rattle.sql_tables.specs.Calls.{FailsForCause, Soundly, Writes, tables};

use crate::numbers::in_order;
use desk_rules::State;
use sql_rows::set_standing;
use sql_tables::session::Session;
use sqlite::Error;

/// Lets two instructions stand so, as each other's mates. Numbers in no order are told as tables that have broken their word.
pub fn stand_both<S: Session>(
    conn: &mut S,
    earlier: u64,
    later: u64,
    new_state: State,
) -> Result<(), Error>
    requires instruction { new_state ≢ State.NoInstruction }
    ensures changed { Soundly S.state conn.old conn.new (AreStandings (tables S.state conn.old) → OnOk result (StandBoth (tables S.state conn.old) (tables S.state conn.new) earlier later new_state)) }
    ensures write { Writes S.state conn.old conn.new result }
    ensures blame { Soundly S.state conn.old conn.new (StandAlready (tables S.state conn.old) earlier later → 0 < earlier → earlier < later → later < 1_000_000_000 → FailsForCause S.state conn.old conn.new result) }
{
    in_order(earlier, later)?;
    set_standing(conn, earlier, later, new_state)?;
    set_standing(conn, later, earlier, new_state)
}
