//! How a state is written in two numbers, and read.

ghost use Rattle.std.specs.Prelude.{◌≡◌, ◌≢◌, ◌≤◌, ◌==◌, [], ◌∷◌, IfOk, IsOk};
ghost use Rattle.sql_rows.specs.Standings.{state_code, reason_code, state_written, mate_written, columns_of, standing_written, IsStandingShown, Written};
ghost use Rattle.desk_rules.specs.declared.history.standing.Standing.{Standing};
ghost use Rattle.desk_rules.specs.Standing.{no_standing};

use desk_msg::Reason;
use desk_rules::{Standing, State};
use sql_tables::rows::number_at;
use sql_tables::values::CORRUPT;
use sqlite::{Error, Row};

/// Which state it is.
pub fn state_code(state: State) -> u64
    ensures code { result ≡ state_code state }
    ensures small { result ≤ 4 }
{
    match state {
        State::NoInstruction => 0,
        State::Unmatched => 1,
        State::Matched(_) => 2,
        State::Cancelled => 3,
        State::Settled => 4,
    }
}

/// Why a matched instruction is not settled; 0 where it is not matched.
pub fn reason_code(state: State) -> u64
    ensures code { result ≡ reason_code state }
    ensures small { result ≤ 3 }
{
    match state {
        State::Matched(Reason::Future) => 1,
        State::Matched(Reason::Lack) => 2,
        State::Matched(Reason::Money) => 3,
        _ => 0,
    }
}

/// The state that two numbers write; an error where they write none.
fn state_written(state: u64, reason: u64) -> Result<State, Error>
    ensures value { IfOk result (λ s. s ≡ state_written state reason) }
    ensures all { state_written state reason ≢ State.NoInstruction → IsOk result }
{
    match (state, reason) {
        (1, 0) => Ok(State::Unmatched),
        (2, 1) => Ok(State::Matched(Reason::Future)),
        (2, 2) => Ok(State::Matched(Reason::Lack)),
        (2, 3) => Ok(State::Matched(Reason::Money)),
        (3, 0) => Ok(State::Cancelled),
        (4, 0) => Ok(State::Settled),
        _ => Err(CORRUPT),
    }
}

/// Whether a cancellation was requested; an error where the number is neither 0 nor 1.
fn request_written(asked: u64) -> Result<bool, Error>
    ensures value { IfOk result (λ r. r ≡ (asked == 1)) }
    ensures all { asked ≤ 1 → IsOk result }
{
    match asked {
        0 => Ok(false),
        1 => Ok(true),
        _ => Err(CORRUPT),
    }
}

/// The mate of this number, 0 for none.
fn mate_written(mate: u64) -> Option<u64>
    ensures { result ≡ mate_written mate }
{
    if mate == 0 { None } else { Some(mate) }
}

/// The standing that the columns of a row say.
fn standing_of_row(row: &Row) -> Result<Standing, Error>
    ensures value { (w : Written) → row.now ≡ columns_of w → IfOk result (λ s. s ≡ standing_written w) }
    ensures all { (w : Written) → row.now ≡ columns_of w → state_written w.state w.reason ≢ State.NoInstruction → w.asked ≤ 1 → IsOk result }
{
    Ok(Standing {
        mate: mate_written(number_at(row, 0)?),
        state: state_written(number_at(row, 1)?, number_at(row, 2)?)?,
        cancel_requested: request_written(number_at(row, 3)?)?,
    })
}

/// Where what is no instruction stands.
pub fn no_standing() -> Standing
    ensures { result ≡ no_standing }
{
    Standing {
        mate: None,
        state: State::NoInstruction,
        cancel_requested: false,
    }
}

/// The standing that the rows of one number show.
pub fn standing_shown(rows: &[Row]) -> Result<Standing, Error>
    ensures value { (standing : Standing) → IsStandingShown rows.now standing → IfOk result (λ s. s ≡ standing) }
    ensures all { (w : Written) → rows.now ≡ columns_of w ∷ [] → state_written w.state w.reason ≢ State.NoInstruction → w.asked ≤ 1 → IsOk result }
    ensures none { rows.now ≡ [] → IsOk result }
{
    match rows.first() {
        None => Ok(no_standing()),
        Some(row) => standing_of_row(row),
    }
}
