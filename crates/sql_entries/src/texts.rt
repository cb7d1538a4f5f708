//! The statements, and what each shows.
ghost use Rattle.std.specs.Prelude.{◌≡◌, ◌<◌, ◌^◌, if◌then◌else◌, ℕ, List, Option, option_map, IfOk, IfSome};
ghost use Rattle.desk_codes.specs.Day.{IsDay};
ghost use Rattle.desk_codes.specs.Number.{number_of};
ghost use Rattle.desk_msg.specs.Profile.{code_of_kind};
ghost use Rattle.desk_rules.specs.declared.answers.reply.Kept.{Kept};
ghost use Rattle.desk_rules.specs.Facts.{is_participant, owner_of, kind_of, last_run};
ghost use Rattle.desk_rules.specs.History.{number_of_key};
ghost use Rattle.desk_rules.specs.WellFormed.{AreWellFormed};
ghost use Rattle.desk_register.specs.Looked.{IsSecurityAfter};
ghost use Rattle.sql_entries.specs.Entries.{AreEntries, entries_in};
ghost use Rattle.sql_entries.specs.Opposites.{IsNextOpposite};
ghost use Rattle.sql_tables.specs.Rows.{number_rows, text_rows};
ghost use Rattle.sql_tables.specs.Calls.{FailsForCause, Looks, Soundly, tables};

use crate::opposite::values_asked;
use desk_codes::{AccountId, Bic, Isin, Reference};
use desk_msg::Instruction;
use desk_rules::Sender;
use sql_tables::session::Session;
use sql_tables::statement::query;
use sqlite::types::ValueRef;
use sqlite::{Error, Row};

/// The number of the first entry of a participant with this reference.
pub fn entry_of_participant<S: Session>(
    conn: &mut S,
    sender: Bic,
    reference: Reference,
) -> Result<Vec<Row>, Error>
    ensures shown { Soundly S.state conn.old conn.new ((register : List Kept) → AreEntries (tables S.state conn.old) register → IfOk result (λ rows. rows.items ≡ number_rows (number_of_key (entries_in register) (Sender.Participant sender) reference))) }
    ensures look { Looks S.state conn.old conn.new result }
    ensures blame { Soundly S.state conn.old conn.new (FailsForCause S.state conn.old conn.new result) }
{
    query(
        conn,
        "SELECT number FROM register WHERE sender = ?1 AND reference = ?2 ORDER BY number LIMIT 1",
        &[
            ValueRef::Text(sender.as_bytes()),
            ValueRef::Text(reference.as_bytes()),
        ],
    )
}

/// The number of the first entry of the operator with this reference: of one that is no instruction and no cancellation.
pub fn entry_of_operator<S: Session>(conn: &mut S, reference: Reference) -> Result<Vec<Row>, Error>
    ensures shown { Soundly S.state conn.old conn.new ((register : List Kept) → AreEntries (tables S.state conn.old) register → IfOk result (λ rows. rows.items ≡ number_rows (number_of_key (entries_in register) Sender.Operator reference))) }
    ensures look { Looks S.state conn.old conn.new result }
    ensures blame { Soundly S.state conn.old conn.new (FailsForCause S.state conn.old conn.new result) }
{
    query(
        conn,
        "SELECT number FROM register WHERE sender = '' AND reference = ?1 AND kind <> 8 AND kind <> 9 ORDER BY number LIMIT 1",
        &[ValueRef::Text(reference.as_bytes())],
    )
}

/// The BIC, where it is a participant's.
pub fn participant<S: Session>(conn: &mut S, bic: Bic) -> Result<Vec<Row>, Error>
    ensures shown { Soundly S.state conn.old conn.new ((register : List Kept) → AreEntries (tables S.state conn.old) register → IfOk result (λ rows. rows.items ≡ text_rows (if is_participant (entries_in register) bic then Option.Some bic else Option.None))) }
    ensures look { Looks S.state conn.old conn.new result }
    ensures blame { Soundly S.state conn.old conn.new (FailsForCause S.state conn.old conn.new result) }
{
    query(
        conn,
        "SELECT bic FROM register WHERE kind = 1 AND about = ?1 ORDER BY number LIMIT 1",
        &[ValueRef::Text(bic.as_bytes())],
    )
}

/// Whose an account is.
pub fn owner<S: Session>(conn: &mut S, account: AccountId) -> Result<Vec<Row>, Error>
    ensures shown { Soundly S.state conn.old conn.new ((register : List Kept) → AreEntries (tables S.state conn.old) register → IfOk result (λ rows. rows.items ≡ text_rows (owner_of (entries_in register) account))) }
    ensures look { Looks S.state conn.old conn.new result }
    ensures blame { Soundly S.state conn.old conn.new (FailsForCause S.state conn.old conn.new result) }
{
    query(
        conn,
        "SELECT bic FROM register WHERE kind = 2 AND about = ?1 ORDER BY number LIMIT 1",
        &[ValueRef::Text(account.as_bytes())],
    )
}

/// The quantity type code of a security.
pub fn security<S: Session>(conn: &mut S, isin: Isin) -> Result<Vec<Row>, Error>
    ensures shown { Soundly S.state conn.old conn.new ((register : List Kept) → AreEntries (tables S.state conn.old) register → IfOk result (λ rows. rows.items ≡ text_rows (option_map code_of_kind (kind_of (entries_in register) isin)))) }
    ensures look { Looks S.state conn.old conn.new result }
    ensures blame { Soundly S.state conn.old conn.new (FailsForCause S.state conn.old conn.new result) }
{
    query(
        conn,
        "SELECT unit FROM register WHERE kind = 3 AND about = ?1 ORDER BY number LIMIT 1",
        &[ValueRef::Text(isin.as_bytes())],
    )
}

/// The first security, in order of its bytes.
pub fn first_security<S: Session>(conn: &mut S) -> Result<Vec<Row>, Error>
    ensures shown { Soundly S.state conn.old conn.new ((register : List Kept) → AreEntries (tables S.state conn.old) register → IfOk result (λ rows. (found : Option (List ℕ)) × (rows.items ≡ text_rows found) × IsSecurityAfter (entries_in register) Option.None found)) }
    ensures look { Looks S.state conn.old conn.new result }
    ensures blame { Soundly S.state conn.old conn.new (FailsForCause S.state conn.old conn.new result) }
{
    query(
        conn,
        "SELECT about FROM register WHERE kind = 3 ORDER BY about LIMIT 1",
        &[],
    )
}

/// The first security above one, in order of their bytes.
pub fn security_above<S: Session>(conn: &mut S, isin: Isin) -> Result<Vec<Row>, Error>
    ensures shown { Soundly S.state conn.old conn.new ((register : List Kept) → AreEntries (tables S.state conn.old) register → IfOk result (λ rows. (found : Option (List ℕ)) × (rows.items ≡ text_rows found) × IsSecurityAfter (entries_in register) (Option.Some isin) found)) }
    ensures look { Looks S.state conn.old conn.new result }
    ensures blame { Soundly S.state conn.old conn.new (FailsForCause S.state conn.old conn.new result) }
{
    query(
        conn,
        "SELECT about FROM register WHERE kind = 3 AND about > ?1 ORDER BY about LIMIT 1",
        &[ValueRef::Text(isin.as_bytes())],
    )
}

/// The day of the last run.
pub fn last_run_day<S: Session>(conn: &mut S) -> Result<Vec<Row>, Error>
    ensures shown { Soundly S.state conn.old conn.new ((register : List Kept) → AreEntries (tables S.state conn.old) register → IfOk result (λ rows. (found : Option (List ℕ)) × (rows.items ≡ text_rows found) × (option_map number_of found ≡ last_run (entries_in register)))) }
    ensures days { Soundly S.state conn.old conn.new ((register : List Kept) → AreEntries (tables S.state conn.old) register → AreWellFormed (entries_in register) → IfOk result (λ rows. (found : Option (List ℕ)) × (rows.items ≡ text_rows found) × IfSome found IsDay)) }
    ensures look { Looks S.state conn.old conn.new result }
    ensures blame { Soundly S.state conn.old conn.new (FailsForCause S.state conn.old conn.new result) }
{
    query(
        conn,
        "SELECT day FROM register WHERE kind = 10 AND about = '' ORDER BY number DESC LIMIT 1",
        &[],
    )
}

/// The number of the first instruction above a number that is opposite to this one of this sender.
pub fn opposite_above<S: Session>(
    conn: &mut S,
    sender: Bic,
    instruction: &Instruction,
    after: u64,
) -> Result<Vec<Row>, Error>
    requires { after < 2 ^ 63 }
    ensures shown { Soundly S.state conn.old conn.new ((register : List Kept) → AreEntries (tables S.state conn.old) register → IfOk result (λ rows. (found : Option ℕ) × (rows.items ≡ number_rows found) × IsNextOpposite (entries_in register) (record { sender = sender; instruction = instruction.now }) after found)) }
    ensures look { Looks S.state conn.old conn.new result }
    ensures blame { Soundly S.state conn.old conn.new (FailsForCause S.state conn.old conn.new result) }
{
    let asked = values_asked(&sender, instruction, after);
    query(
        conn,
        "SELECT number FROM register WHERE kind = 8 AND isin = ?1 AND day = ?2 AND quantity = ?3 AND sender = ?4 AND bic = ?5 AND mt = ?6 AND unit = ?7 AND currency = ?8 AND amount = ?9 AND number > ?10 ORDER BY number LIMIT 1",
        &asked,
    )
}
