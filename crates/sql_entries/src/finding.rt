//! The look-ups. Each fails as its statement does; a row that says nothing that the desk writes is told as a damaged
//! database, `ErrorCode::DatabaseCorrupt`.
ghost use Rattle.std.specs.Prelude.{◌≡◌, ◌<◌, ◌^◌, ℕ, List, Option, option_map, IfOk, IfSome};
ghost use Rattle.desk_codes.specs.Number.{number_of};
ghost use Rattle.desk_rules.specs.declared.answers.reply.Kept.{Kept};
ghost use Rattle.desk_rules.specs.Facts.{is_participant, owner_of, kind_of, last_run};
ghost use Rattle.desk_rules.specs.History.{number_of_key};
ghost use Rattle.desk_rules.specs.WellFormed.{AreWellFormed};
ghost use Rattle.desk_register.specs.Looked.{IsSecurityAfter};
ghost use Rattle.sql_entries.specs.Entries.{AreEntries, entries_in};
ghost use Rattle.sql_entries.specs.Opposites.{IsNextOpposite};
ghost use Rattle.sql_tables.specs.Rows.{number_rows, text_rows};
ghost use Rattle.sql_tables.specs.Calls.{FailsForCause, Looks, Soundly, tables};

use crate::texts;
use desk_codes::{AccountId, Bic, Day, Isin, Reference};
use desk_msg::{Instruction, Kind};
use desk_rules::Sender;
use sql_tables::rows::{is_shown, only_bic, only_day, only_isin, only_kind, only_number};
use sql_tables::session::Session;
use sqlite::{Error, Row};

/// The row of the first entry of this sender and reference.
fn rows_of_key<S: Session>(
    conn: &mut S,
    sender: Sender,
    reference: Reference,
) -> Result<Vec<Row>, Error>
    ensures shown { Soundly S.state conn.old conn.new ((register : List Kept) → AreEntries (tables S.state conn.old) register → IfOk result (λ rows. rows.items ≡ number_rows (number_of_key (entries_in register) sender reference))) }
    ensures look { Looks S.state conn.old conn.new result }
    ensures blame { Soundly S.state conn.old conn.new (FailsForCause S.state conn.old conn.new result) }
{
    match sender {
        Sender::Operator => texts::entry_of_operator(conn, reference),
        Sender::Participant(bic) => texts::entry_of_participant(conn, bic, reference),
    }
}

/// The number of the first entry of this sender and reference; None where there is none.
pub fn number_of<S: Session>(
    conn: &mut S,
    sender: Sender,
    reference: Reference,
) -> Result<Option<u64>, Error>
    ensures value { Soundly S.state conn.old conn.new ((register : List Kept) → AreEntries (tables S.state conn.old) register → IfOk result (λ r. r ≡ number_of_key (entries_in register) sender reference)) }
    ensures look { Looks S.state conn.old conn.new result }
    ensures blame { Soundly S.state conn.old conn.new ((register : List Kept) → AreEntries (tables S.state conn.old) register → FailsForCause S.state conn.old conn.new result) }
{
    let rows = rows_of_key(conn, sender, reference)?;
    only_number(&rows)
}

/// Whether a BIC is a participant's.
pub fn is_participant<S: Session>(conn: &mut S, bic: Bic) -> Result<bool, Error>
    ensures value { Soundly S.state conn.old conn.new ((register : List Kept) → AreEntries (tables S.state conn.old) register → IfOk result (λ r. r ≡ is_participant (entries_in register) bic)) }
    ensures look { Looks S.state conn.old conn.new result }
    ensures blame { Soundly S.state conn.old conn.new ((register : List Kept) → AreEntries (tables S.state conn.old) register → FailsForCause S.state conn.old conn.new result) }
{
    let rows = texts::participant(conn, bic)?;
    is_shown(&rows)
}

/// Whose an account is; None where there is no such account.
pub fn owner_of<S: Session>(conn: &mut S, account: AccountId) -> Result<Option<Bic>, Error>
    ensures value { Soundly S.state conn.old conn.new ((register : List Kept) → AreEntries (tables S.state conn.old) register → IfOk result (λ r. r ≡ owner_of (entries_in register) account)) }
    ensures look { Looks S.state conn.old conn.new result }
    ensures blame { Soundly S.state conn.old conn.new ((register : List Kept) → AreEntries (tables S.state conn.old) register → AreWellFormed (entries_in register) → FailsForCause S.state conn.old conn.new result) }
{
    let rows = texts::owner(conn, account)?;
    only_bic(&rows)
}

/// How a security is counted; None where there is no such security.
pub fn kind_of<S: Session>(conn: &mut S, isin: Isin) -> Result<Option<Kind>, Error>
    ensures value { Soundly S.state conn.old conn.new ((register : List Kept) → AreEntries (tables S.state conn.old) register → IfOk result (λ r. r ≡ kind_of (entries_in register) isin)) }
    ensures look { Looks S.state conn.old conn.new result }
    ensures blame { Soundly S.state conn.old conn.new ((register : List Kept) → AreEntries (tables S.state conn.old) register → FailsForCause S.state conn.old conn.new result) }
{
    let rows = texts::security(conn, isin)?;
    only_kind(&rows)
}

/// The row of the first security above one; with none, of the first of all.
fn rows_above<S: Session>(conn: &mut S, isin: Option<Isin>) -> Result<Vec<Row>, Error>
    ensures shown { Soundly S.state conn.old conn.new ((register : List Kept) → AreEntries (tables S.state conn.old) register → IfOk result (λ rows. (found : Option (List ℕ)) × (rows.items ≡ text_rows found) × IsSecurityAfter (entries_in register) isin found)) }
    ensures look { Looks S.state conn.old conn.new result }
    ensures blame { Soundly S.state conn.old conn.new (FailsForCause S.state conn.old conn.new result) }
{
    match isin {
        Some(isin) => texts::security_above(conn, isin),
        None => texts::first_security(conn),
    }
}

/// The first security, in order of its bytes, after one; with none, the first of all. None where there is none.
pub fn security_after<S: Session>(conn: &mut S, isin: Option<Isin>) -> Result<Option<Isin>, Error>
    ensures value { Soundly S.state conn.old conn.new ((register : List Kept) → AreEntries (tables S.state conn.old) register → IfOk result (λ r. IsSecurityAfter (entries_in register) isin r)) }
    ensures look { Looks S.state conn.old conn.new result }
    ensures blame { Soundly S.state conn.old conn.new ((register : List Kept) → AreEntries (tables S.state conn.old) register → AreWellFormed (entries_in register) → FailsForCause S.state conn.old conn.new result) }
{
    let rows = rows_above(conn, isin)?;
    only_isin(&rows)
}

/// The day of the last run; None before any.
pub fn last_run<S: Session>(conn: &mut S) -> Result<Option<Day>, Error>
    ensures value { Soundly S.state conn.old conn.new ((register : List Kept) → AreEntries (tables S.state conn.old) register → IfOk result (λ r. option_map number_of r ≡ last_run (entries_in register))) }
    ensures look { Looks S.state conn.old conn.new result }
    ensures blame { Soundly S.state conn.old conn.new ((register : List Kept) → AreEntries (tables S.state conn.old) register → AreWellFormed (entries_in register) → FailsForCause S.state conn.old conn.new result) }
{
    let rows = texts::last_run_day(conn)?;
    only_day(&rows)
}

/// The least number above one of an instruction that is opposite to this one of its sender, whether it waits or not; None
/// where there is none.
pub fn next_opposite<S: Session>(
    conn: &mut S,
    sender: Bic,
    instruction: &Instruction,
    after: u64,
) -> Result<Option<u64>, Error>
    requires { after < 2 ^ 63 }
    ensures value { Soundly S.state conn.old conn.new ((register : List Kept) → AreEntries (tables S.state conn.old) register → IfOk result (λ r. IsNextOpposite (entries_in register) (record { sender = sender; instruction = instruction.now }) after r)) }
    ensures small { Soundly S.state conn.old conn.new ((register : List Kept) → AreEntries (tables S.state conn.old) register → IfOk result (λ r. IfSome r (λ n. n < 2 ^ 63))) }
    ensures look { Looks S.state conn.old conn.new result }
    ensures blame { Soundly S.state conn.old conn.new ((register : List Kept) → AreEntries (tables S.state conn.old) register → FailsForCause S.state conn.old conn.new result) }
{
    let rows = texts::opposite_above(conn, sender, instruction, after)?;
    only_number(&rows)
}
