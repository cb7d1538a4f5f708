//! What is found by walking the tables: the first opposite instruction that is unmatched, and the first matched pair that is due.
//! Each costs a look for each row that is passed; the desk's program asks the register in memory for both.
ghost use Rattle.std.specs.Prelude.{◌≡◌, ◌<◌, ◌^◌, ℕ, Some, IfOk, IfSome, IsOk};
ghost use Rattle.desk_codes.specs.Number.{number_of};
ghost use Rattle.desk_rules.specs.Content.{Content, history_of};
ghost use Rattle.desk_rules.specs.History.{instruction_at};
ghost use Rattle.desk_rules.specs.declared.history.entry.Instructed.{Instructed};
ghost use Rattle.desk_register.specs.Looked.{IsDuePairAfter, IsFirstOpposite};
ghost use Rattle.sql_register.specs.Content.{content_in};
ghost use Rattle.sql_register.specs.Holds.{IsDesk};
ghost use Rattle.sql_register.specs.Walking.{is_unmatched, sooner, IsDueAt, IsPairAbove, IsCandidateAbove};
ghost use Rattle.sql_tables.specs.Calls.{FailsForCause, Looks, Soundly, tables};

use crate::looking::instruction;
use desk_codes::{Bic, Day};
use desk_msg::Instruction;
use desk_rules::{Instructed, MOST_ENTRIES, Place, Standing, State};
use sql_entries::next_opposite;
use sql_rows::{next_matched, standing};
use sql_tables::session::Session;
use sql_tables::values::CORRUPT;
use sqlite::Error;
use std::alloc::Global;

/// The number that was found above another, where a register can have an entry of it; else the tables have broken their word.
fn above(found: Option<u64>, after: u64) -> Result<Option<u64>, Error>
    ensures same { IfOk result (λ r. r ≡ found) }
    ensures within { IfOk result (λ r. IfSome r (λ n. (after < n) × (n < 1_000_000_000))) }
    ensures all { IfSome found (λ n. (after < n) × (n < 1_000_000_000)) → IsOk result }
{
    let Some(number) = found else {
        return Ok(None);
    };
    if after < number && number <= MOST_ENTRIES {
        Ok(Some(number))
    } else {
        Err(CORRUPT)
    }
}

/// Whether an instruction that stands so is unmatched.
fn is_unmatched(state: State) -> bool
    ensures { result ≡ is_unmatched state }
{
    matches!(state, State::Unmatched)
}

/// The least number above one of an instruction that is opposite to one of this sender, and whether it is unmatched.
fn candidate_above<S: Session>(
    conn: &mut S,
    sender: Bic,
    instruction: &Instruction,
    after: u64,
) -> Result<Option<(u64, bool)>, Error>
    requires { after < 2 ^ 63 }
    ensures value { Soundly S.state conn.old conn.new (IsDesk (tables S.state conn.old) → IfOk result (IsCandidateAbove (content_in (tables S.state conn.old)) (record { sender = sender; instruction = instruction.now }) after)) }
    ensures within { IfOk result (λ r. IfSome r (λ found. (after < found.0) × (found.0 < 1_000_000_000))) }
    ensures look { Looks S.state conn.old conn.new result }
    ensures blame { Soundly S.state conn.old conn.new (IsDesk (tables S.state conn.old) → FailsForCause S.state conn.old conn.new result) }
{
    let found = next_opposite(conn, sender, instruction, after)?;
    let Some(number) = above(found, after)? else {
        return Ok(None);
    };
    let standing = standing(conn, number)?;
    Ok(Some((number, is_unmatched(standing.state))))
}

/// The least number of an unmatched instruction that is opposite to one of this sender.
pub fn first_opposite<S: Session>(
    conn: &mut S,
    sender: Bic,
    instruction: &Instruction,
) -> Result<Option<u64>, Error>
    ensures value { Soundly S.state conn.old conn.new (IsDesk (tables S.state conn.old) → IfOk result (λ r. IsFirstOpposite (content_in (tables S.state conn.old)) (record { sender = sender; instruction = instruction.now }) r)) }
    ensures look { Looks S.state conn.old conn.new result }
    ensures blame { Soundly S.state conn.old conn.new (IsDesk (tables S.state conn.old) → FailsForCause S.state conn.old conn.new result) }
{
    let mut after = 0;
    while let Some((number, unmatched)) = candidate_above(conn, sender, instruction, after)? {
        if unmatched {
            return Ok(Some(number));
        }
        after = number;
    }
    Ok(None)
}

/// The place of a number's matched pair, by what stands at the number, where it is due by a day and past a place.
fn place_due(
    number: u64,
    standing: Standing,
    later: &Instructed,
    day: Day,
    place: Option<Place>,
) -> Option<Place>
    ensures { (content : Content) → content.standing number ≡ standing → instruction_at (history_of content) number ≡ Some later.now → IsDueAt content (number_of day) place number result }
{
    let State::Matched(_) = standing.state else {
        return None;
    };
    let mate = standing.mate?;
    let found = Place {
        day: later.instruction.day.yyyymmdd(),
        number,
    };
    if mate >= number || found.day > day.yyyymmdd() {
        return None;
    }
    if !found.is_past(&place) {
        return None;
    }
    Some(found)
}

/// The least number above one whose instruction is matched, and the place of its pair where that is due by a day and past a place.
fn pair_above<S: Session>(
    conn: &mut S,
    alloc: Global,
    after: u64,
    day: Day,
    place: Option<Place>,
) -> Result<Option<(u64, Option<Place>)>, Error>
    requires { after < 2 ^ 63 }
    ensures value { Soundly S.state conn.old conn.new (IsDesk (tables S.state conn.old) → IfOk result (IsPairAbove (tables S.state conn.old) (number_of day) place after)) }
    ensures within { IfOk result (λ r. IfSome r (λ found. (after < found.0) × (found.0 < 1_000_000_000))) }
    ensures look { Looks S.state conn.old conn.new result }
    ensures blame { Soundly S.state conn.old conn.new (IsDesk (tables S.state conn.old) → FailsForCause S.state conn.old conn.new result) }
{
    let found = next_matched(conn, after)?;
    let Some(number) = above(found, after)? else {
        return Ok(None);
    };
    let standing = standing(conn, number)?;
    let later = instruction(conn, alloc, number)?;
    Ok(Some((number, place_due(number, standing, &later, day, place))))
}

/// The sooner one of two places; where there is only one, that.
fn sooner(first: Option<Place>, found: Option<Place>) -> Option<Place>
    ensures { result ≡ sooner first found }
{
    match (first, found) {
        (None, found) => found,
        (first, None) => first,
        (Some(first), Some(place)) => {
            if first.is_past(&found) {
                Some(place)
            } else {
                Some(first)
            }
        }
    }
}

/// The first matched pair due by a day, after a place.
pub fn due_pair_after<S: Session>(
    conn: &mut S,
    alloc: Global,
    day: Day,
    place: Option<Place>,
) -> Result<Option<Place>, Error>
    ensures value { Soundly S.state conn.old conn.new (IsDesk (tables S.state conn.old) → IfOk result (λ r. IsDuePairAfter (content_in (tables S.state conn.old)) (number_of day) place r)) }
    ensures look { Looks S.state conn.old conn.new result }
    ensures blame { Soundly S.state conn.old conn.new (IsDesk (tables S.state conn.old) → FailsForCause S.state conn.old conn.new result) }
{
    let mut first = None;
    let mut after = 0;
    while let Some((number, due)) = pair_above(conn, alloc, after, day, place)? {
        first = sooner(first, due);
        after = number;
    }
    Ok(first)
}
