//! What is looked up in the tables, as the register says it.
ghost use Rattle.std.specs.Prelude.{◌≡◌, Some, option_and_then, IfOk, IsOk};
ghost use Rattle.desk_rules.specs.Content.{history_of};
ghost use Rattle.desk_rules.specs.History.{instructed, instruction_at};
ghost use Rattle.desk_rules.specs.declared.history.entry.Instructed.{Instructed};
ghost use Rattle.desk_register.specs.Looked.{IsHoldingAfter};
ghost use Rattle.sql_register.specs.Content.{content_in};
ghost use Rattle.sql_register.specs.Holds.{IsDesk, holding_found};
ghost use Rattle.sql_rows.specs.Amounts.{AreAmounts};
ghost use Rattle.sql_rows.specs.Changes.{had};
ghost use Rattle.sql_tables.specs.Calls.{FailsForCause, Looks, Soundly, tables};

use desk_codes::{AccountId, Isin};
use desk_register::Holding;
use desk_rules::{Entry, Instructed};
use sql_entries::entry_at;
use sql_rows::{AmountKey, amount, next_holding};
use sql_tables::session::Session;
use sql_tables::values::CORRUPT;
use sqlite::Error;
use std::alloc::Global;

/// What is recorded under a key; 0 where nothing is.
pub fn recorded<S: Session>(conn: &mut S, key: &AmountKey) -> Result<u64, Error>
    ensures value { Soundly S.state conn.old conn.new (AreAmounts (tables S.state conn.old) → IfOk result (λ r. r ≡ had (tables S.state conn.old) key.now)) }
    ensures look { Looks S.state conn.old conn.new result }
    ensures blame { Soundly S.state conn.old conn.new (AreAmounts (tables S.state conn.old) → FailsForCause S.state conn.old conn.new result) }
{
    Ok(amount(conn, key)?.unwrap_or(0))
}

fn holding_of(found: Option<(Isin, u64)>) -> Option<Holding>
    ensures { result ≡ holding_found found }
{
    match found {
        Some((isin, quantity)) => Some(Holding { isin, quantity }),
        None => None,
    }
}

/// The first security, in order of its bytes, after one, of which an account holds some, and how much.
pub fn holding_after<S: Session>(
    conn: &mut S,
    account: AccountId,
    isin: Option<Isin>,
) -> Result<Option<Holding>, Error>
    ensures value { Soundly S.state conn.old conn.new (IsDesk (tables S.state conn.old) → IfOk result (λ r. IsHoldingAfter (content_in (tables S.state conn.old)) account isin r)) }
    ensures look { Looks S.state conn.old conn.new result }
    ensures blame { Soundly S.state conn.old conn.new (IsDesk (tables S.state conn.old) → FailsForCause S.state conn.old conn.new result) }
{
    let found = next_holding(conn, account, isin)?;
    Ok(holding_of(found))
}

fn instructed_by(entry: Option<Entry>) -> Result<Instructed, Error>
    ensures value { IfOk result (λ i. option_and_then instructed entry ≡ Some i) }
    ensures all { (i : Instructed) → option_and_then instructed entry ≡ Some i → IsOk result }
{
    match entry {
        Some(entry) => entry.instructed().ok_or(CORRUPT),
        None => Err(CORRUPT),
    }
}

/// The instruction of this number, where the entry of it is one.
pub fn instruction<S: Session>(
    conn: &mut S,
    alloc: Global,
    number: u64,
) -> Result<Instructed, Error>
    ensures value { Soundly S.state conn.old conn.new (IsDesk (tables S.state conn.old) → IfOk result (λ i. instruction_at (history_of (content_in (tables S.state conn.old))) number ≡ Some i)) }
    ensures look { Looks S.state conn.old conn.new result }
    ensures blame { Soundly S.state conn.old conn.new (IsDesk (tables S.state conn.old) → (i : Instructed) → instruction_at (history_of (content_in (tables S.state conn.old))) number ≡ Some i → FailsForCause S.state conn.old conn.new result) }
{
    let found = entry_at(conn, alloc, number)?;
    instructed_by(found)
}
