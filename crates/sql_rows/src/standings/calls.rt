//! Where each instruction stands.

ghost use Rattle.std.specs.Prelude.{◌≡◌, ◌≢◌, ◌<◌, ◌≤◌, ◌^◌, true, Some, IfOk, IfSome, OnOk};
ghost use Rattle.desk_rules.specs.Standing.{no_standing};
ghost use Rattle.desk_register.specs.Changes.{standing_at};
ghost use Rattle.sql_rows.specs.Standings.{fresh_standing, mate_written, standing_in, state_written, AreReadable, AreStandings, IsNextMatched, IsNextShown, IsStandingShown, StandingsChanged};
ghost use Rattle.sql_tables.specs.Calls.{FailsForCause, Looks, Soundly, Writes, tables};

use crate::standings::states::{no_standing, reason_code, standing_shown, state_code};
use desk_rules::{Standing, State};
use sql_tables::rows::only_number;
use sql_tables::session::Session;
use sql_tables::statement::{execute, query};
use sql_tables::values::{integer, one_row};
use sqlite::{Error, Row};

/// No row has a number above it.
const MOST: u64 = 9_223_372_036_854_775_807;

/// The rows of a number.
fn rows_of<S: Session>(conn: &mut S, number: u64) -> Result<Vec<Row>, Error>
    requires { number < 2 ^ 63 }
    ensures shown { Soundly S.state conn.old conn.new (AreStandings (tables S.state conn.old) → IfOk result (λ rows. IsStandingShown rows.items (standing_in (tables S.state conn.old) number))) }
    ensures look { Looks S.state conn.old conn.new result }
    ensures reads { Soundly S.state conn.old conn.new (AreStandings (tables S.state conn.old) → IfOk result (λ rows. AreReadable rows.items)) }
    ensures blame { Soundly S.state conn.old conn.new (FailsForCause S.state conn.old conn.new result) }
{
    query(
        conn,
        "SELECT mate, state, reason, asked FROM state WHERE number = ?1",
        &[integer(number)],
    )
}

/// Where the instruction of a number stands; what is no instruction stands nowhere. A row that says no standing is
/// answered with `DatabaseCorrupt`, and one with a number below 0 with an error of its column.
pub fn standing<S: Session>(conn: &mut S, number: u64) -> Result<Standing, Error>
    ensures value { Soundly S.state conn.old conn.new (AreStandings (tables S.state conn.old) → IfOk result (λ r. r ≡ standing_in (tables S.state conn.old) number)) }
    ensures look { Looks S.state conn.old conn.new result }
    ensures blame { Soundly S.state conn.old conn.new (AreStandings (tables S.state conn.old) → FailsForCause S.state conn.old conn.new result) }
{
    if number > MOST {
        return Ok(no_standing());
    }
    let rows = rows_of(conn, number)?;
    standing_shown(rows.as_slice())
}

/// The row with the least number above one whose instruction is matched.
fn first_row<S: Session>(conn: &mut S, after: u64) -> Result<Vec<Row>, Error>
    requires { after < 2 ^ 63 }
    ensures shown { Soundly S.state conn.old conn.new (AreStandings (tables S.state conn.old) → IfOk result (λ rows. IsNextShown (tables S.state conn.old) after rows.items)) }
    ensures look { Looks S.state conn.old conn.new result }
    ensures blame { Soundly S.state conn.old conn.new (FailsForCause S.state conn.old conn.new result) }
{
    query(
        conn,
        "SELECT number FROM state WHERE state = 2 AND number > ?1 ORDER BY number LIMIT 1",
        &[integer(after)],
    )
}

/// The least number above one whose instruction is matched and waits to be settled; None where there is none.
pub fn next_matched<S: Session>(conn: &mut S, after: u64) -> Result<Option<u64>, Error>
    requires { after < 2 ^ 63 }
    ensures value { Soundly S.state conn.old conn.new (AreStandings (tables S.state conn.old) → IfOk result (λ r. IsNextMatched (tables S.state conn.old) after r)) }
    ensures small { Soundly S.state conn.old conn.new (AreStandings (tables S.state conn.old) → IfOk result (λ r. IfSome r (λ n. n < 2 ^ 63))) }
    ensures look { Looks S.state conn.old conn.new result }
    ensures blame { Soundly S.state conn.old conn.new (AreStandings (tables S.state conn.old) → FailsForCause S.state conn.old conn.new result) }
{
    let rows = first_row(conn, after)?;
    only_number(&rows)
}

/// A row for a number, and how many rows there are more.
fn add_row<S: Session>(conn: &mut S, number: u64) -> Result<usize, Error>
    requires { number < 2 ^ 63 }
    ensures changed { Soundly S.state conn.old conn.new (AreStandings (tables S.state conn.old) → OnOk result (StandingsChanged (tables S.state conn.old) (tables S.state conn.new) (standing_at (standing_in (tables S.state conn.old)) number fresh_standing))) }
    ensures write { Writes S.state conn.old conn.new result }
    ensures blame { Soundly S.state conn.old conn.new (AreStandings (tables S.state conn.old) → (standing_in (tables S.state conn.old) number).state ≡ State.NoInstruction → FailsForCause S.state conn.old conn.new result) }
{
    execute(
        conn,
        "INSERT INTO state (number, mate, state, reason, asked) VALUES (?1, 0, 1, 0, 0)",
        &[integer(number)],
    )
}

/// A new instruction: unmatched, with no mate, its cancellation not requested. Where the number has a standing already it
/// is refused with `ConstraintViolation`, and nothing has changed.
pub fn add_standing<S: Session>(conn: &mut S, number: u64) -> Result<(), Error>
    requires { number < 2 ^ 63 }
    ensures changed { Soundly S.state conn.old conn.new (AreStandings (tables S.state conn.old) → OnOk result (StandingsChanged (tables S.state conn.old) (tables S.state conn.new) (standing_at (standing_in (tables S.state conn.old)) number fresh_standing))) }
    ensures write { Writes S.state conn.old conn.new result }
    ensures blame { Soundly S.state conn.old conn.new (AreStandings (tables S.state conn.old) → (standing_in (tables S.state conn.old) number).state ≡ State.NoInstruction → FailsForCause S.state conn.old conn.new result) }
{
    add_row(conn, number)?;
    Ok(())
}

/// Changes the mate and the state of the row of a number, if there is one, and says how many were changed.
fn write_standing<S: Session>(
    conn: &mut S,
    number: u64,
    mate: u64,
    code: u64,
    reason: u64,
) -> Result<usize, Error>
    requires number { number < 2 ^ 63 }
    requires mate { mate < 2 ^ 63 }
    requires code { code ≤ 4 }
    requires reason { reason ≤ 3 }
    requires instruction { state_written code reason ≢ State.NoInstruction }
    ensures changed { Soundly S.state conn.old conn.new (AreStandings (tables S.state conn.old) → IfOk result (λ count. count ≡ 1
        → StandingsChanged (tables S.state conn.old) (tables S.state conn.new) (standing_at (standing_in (tables S.state conn.old)) number (record (standing_in (tables S.state conn.old) number) { mate = mate_written mate; state = state_written code reason })))) }
    ensures write { Writes S.state conn.old conn.new result }
    ensures counted { Soundly S.state conn.old conn.new (AreStandings (tables S.state conn.old) → (standing_in (tables S.state conn.old) number).state ≢ State.NoInstruction → IfOk result (λ count. count ≡ 1)) }
    ensures blame { Soundly S.state conn.old conn.new (AreStandings (tables S.state conn.old) → FailsForCause S.state conn.old conn.new result) }
{
    execute(
        conn,
        "UPDATE state SET mate = ?2, state = ?3, reason = ?4 WHERE number = ?1",
        &[
            integer(number),
            integer(mate),
            integer(code),
            integer(reason),
        ],
    )
}

/// An instruction has a mate, and stands so. Where the number has no standing yet nothing has changed, and the answer is
/// `DatabaseCorrupt`.
pub fn set_standing<S: Session>(
    conn: &mut S,
    number: u64,
    mate: u64,
    new_state: State,
) -> Result<(), Error>
    requires number { number < 2 ^ 63 }
    requires some_mate { 0 < mate }
    requires mate { mate < 2 ^ 63 }
    requires instruction { new_state ≢ State.NoInstruction }
    ensures changed { Soundly S.state conn.old conn.new (AreStandings (tables S.state conn.old) → OnOk result (StandingsChanged (tables S.state conn.old) (tables S.state conn.new)
        (standing_at (standing_in (tables S.state conn.old)) number (record (standing_in (tables S.state conn.old) number) { mate = Some mate; state = new_state })))) }
    ensures write { Writes S.state conn.old conn.new result }
    ensures blame { Soundly S.state conn.old conn.new (AreStandings (tables S.state conn.old) → (standing_in (tables S.state conn.old) number).state ≢ State.NoInstruction → FailsForCause S.state conn.old conn.new result) }
{
    let count = write_standing(
        conn,
        number,
        mate,
        state_code(new_state),
        reason_code(new_state),
    )?;
    one_row(count)
}

/// Changes the state of the row of a number, if there is one, and says how many were changed.
fn write_state<S: Session>(
    conn: &mut S,
    number: u64,
    code: u64,
    reason: u64,
) -> Result<usize, Error>
    requires number { number < 2 ^ 63 }
    requires code { code ≤ 4 }
    requires reason { reason ≤ 3 }
    requires instruction { state_written code reason ≢ State.NoInstruction }
    ensures changed { Soundly S.state conn.old conn.new (AreStandings (tables S.state conn.old) → IfOk result (λ count. count ≡ 1
        → StandingsChanged (tables S.state conn.old) (tables S.state conn.new) (standing_at (standing_in (tables S.state conn.old)) number (record (standing_in (tables S.state conn.old) number) { state = state_written code reason })))) }
    ensures write { Writes S.state conn.old conn.new result }
    ensures counted { Soundly S.state conn.old conn.new (AreStandings (tables S.state conn.old) → (standing_in (tables S.state conn.old) number).state ≢ State.NoInstruction → IfOk result (λ count. count ≡ 1)) }
    ensures blame { Soundly S.state conn.old conn.new (AreStandings (tables S.state conn.old) → FailsForCause S.state conn.old conn.new result) }
{
    execute(
        conn,
        "UPDATE state SET state = ?2, reason = ?3 WHERE number = ?1",
        &[integer(number), integer(code), integer(reason)],
    )
}

/// An instruction stands so, with the mate that it has. Where the number has no standing yet nothing has changed, and the
/// answer is `DatabaseCorrupt`.
pub fn set_state<S: Session>(conn: &mut S, number: u64, new_state: State) -> Result<(), Error>
    requires number { number < 2 ^ 63 }
    requires instruction { new_state ≢ State.NoInstruction }
    ensures changed { Soundly S.state conn.old conn.new (AreStandings (tables S.state conn.old) → OnOk result (StandingsChanged (tables S.state conn.old) (tables S.state conn.new)
        (standing_at (standing_in (tables S.state conn.old)) number (record (standing_in (tables S.state conn.old) number) { state = new_state })))) }
    ensures write { Writes S.state conn.old conn.new result }
    ensures blame { Soundly S.state conn.old conn.new (AreStandings (tables S.state conn.old) → (standing_in (tables S.state conn.old) number).state ≢ State.NoInstruction → FailsForCause S.state conn.old conn.new result) }
{
    let count = write_state(conn, number, state_code(new_state), reason_code(new_state))?;
    one_row(count)
}

/// Notes the request on the row of a number, if there is one, and says how many were changed.
fn write_request<S: Session>(conn: &mut S, number: u64) -> Result<usize, Error>
    requires { number < 2 ^ 63 }
    ensures changed { Soundly S.state conn.old conn.new (AreStandings (tables S.state conn.old) → IfOk result (λ count. count ≡ 1
        → StandingsChanged (tables S.state conn.old) (tables S.state conn.new) (standing_at (standing_in (tables S.state conn.old)) number (record (standing_in (tables S.state conn.old) number) { cancel_requested = true })))) }
    ensures write { Writes S.state conn.old conn.new result }
    ensures counted { Soundly S.state conn.old conn.new (AreStandings (tables S.state conn.old) → (standing_in (tables S.state conn.old) number).state ≢ State.NoInstruction → IfOk result (λ count. count ≡ 1)) }
    ensures blame { Soundly S.state conn.old conn.new (AreStandings (tables S.state conn.old) → FailsForCause S.state conn.old conn.new result) }
{
    execute(
        conn,
        "UPDATE state SET asked = 1 WHERE number = ?1",
        &[integer(number)],
    )
}

/// The cancellation of an instruction is requested. Where the number has no standing yet nothing has changed, and the
/// answer is `DatabaseCorrupt`.
pub fn ask<S: Session>(conn: &mut S, number: u64) -> Result<(), Error>
    requires { number < 2 ^ 63 }
    ensures changed { Soundly S.state conn.old conn.new (AreStandings (tables S.state conn.old) → OnOk result (StandingsChanged (tables S.state conn.old) (tables S.state conn.new)
        (standing_at (standing_in (tables S.state conn.old)) number (record (standing_in (tables S.state conn.old) number) { cancel_requested = true })))) }
    ensures write { Writes S.state conn.old conn.new result }
    ensures blame { Soundly S.state conn.old conn.new (AreStandings (tables S.state conn.old) → (standing_in (tables S.state conn.old) number).state ≢ State.NoInstruction → FailsForCause S.state conn.old conn.new result) }
{
    let count = write_request(conn, number)?;
    one_row(count)
}
