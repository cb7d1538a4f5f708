//! The calls on one amount.
ghost use Rattle.std.specs.Prelude.{◌≡◌, ◌+◌, ◌<◌, ◌^◌, IfOk, OnOk};
ghost use Rattle.sql_tables.specs.Rows.{number_rows};
ghost use Rattle.sql_rows.specs.Amounts.{AreAmounts, amount_at};
ghost use Rattle.sql_rows.specs.Changes.{Raises, SetsAmount, Takes, had};
ghost use Rattle.sql_tables.specs.Calls.{FailsForCause, Looks, Soundly, Writes, tables};

use crate::amounts::key::AmountKey;
use crate::amounts::statements;
use sql_tables::rows::only_number;
use sql_tables::session::Session;
use sql_tables::statement::{execute, query};
use sql_tables::values::integer;
use sqlite::types::ValueRef;
use sqlite::{Error, Row};

/// The rows of a key: one, or none.
fn rows_of<S: Session>(conn: &mut S, key: &AmountKey) -> Result<Vec<Row>, Error>
    ensures value { Soundly S.state conn.old conn.new (AreAmounts (tables S.state conn.old) → IfOk result (λ rows. rows.items ≡ number_rows (amount_at (tables S.state conn.old) key.now))) }
    ensures look { Looks S.state conn.old conn.new result }
    ensures blame { Soundly S.state conn.old conn.new (FailsForCause S.state conn.old conn.new result) }
{
    let text = statements::amount_of_key(key.ledger());
    query(
        conn,
        text,
        &[ValueRef::Text(key.first()), ValueRef::Text(key.second())],
    )
}

/// What is recorded under a key; None where nothing is. An amount below 0, which no call writes, is answered with
/// `DatabaseCorrupt`.
pub fn amount<S: Session>(conn: &mut S, key: &AmountKey) -> Result<Option<u64>, Error>
    ensures value { Soundly S.state conn.old conn.new (AreAmounts (tables S.state conn.old) → IfOk result (λ r. r ≡ amount_at (tables S.state conn.old) key.now)) }
    ensures look { Looks S.state conn.old conn.new result }
    ensures blame { Soundly S.state conn.old conn.new (AreAmounts (tables S.state conn.old) → FailsForCause S.state conn.old conn.new result) }
{
    let rows = rows_of(conn, key)?;
    only_number(&rows)
}

/// Takes an amount off, where there is as much: true. Where there is less, or nothing: false, and nothing has changed.
/// What is 0 then stays recorded.
pub fn take<S: Session>(conn: &mut S, key: &AmountKey, amount: u64) -> Result<bool, Error>
    requires small { amount < 2 ^ 63 }
    ensures changed { Soundly S.state conn.old conn.new (AreAmounts (tables S.state conn.old) → IfOk result (Takes (tables S.state conn.old) (tables S.state conn.new) key.now amount)) }
    ensures write { Writes S.state conn.old conn.new result }
    ensures blame { Soundly S.state conn.old conn.new (AreAmounts (tables S.state conn.old) → FailsForCause S.state conn.old conn.new result) }
{
    let text = statements::take_off(key.ledger());
    let count = execute(
        conn,
        text,
        &[
            ValueRef::Text(key.first()),
            ValueRef::Text(key.second()),
            integer(amount),
        ],
    )?;
    Ok(count == 1)
}

/// Puts an amount on what is recorded under a key: true. Where nothing is: false, and nothing has changed.
fn raise<S: Session>(conn: &mut S, key: &AmountKey, amount: u64) -> Result<bool, Error>
    requires small { amount < 2 ^ 63 }
    ensures changed { Soundly S.state conn.old conn.new (AreAmounts (tables S.state conn.old) → had (tables S.state conn.old) key.now + amount < 2 ^ 63 → IfOk result (Raises (tables S.state conn.old) (tables S.state conn.new) key.now amount)) }
    ensures write { Writes S.state conn.old conn.new result }
    ensures blame { Soundly S.state conn.old conn.new (AreAmounts (tables S.state conn.old) → had (tables S.state conn.old) key.now + amount < 2 ^ 63 → FailsForCause S.state conn.old conn.new result) }
{
    let text = statements::put_on(key.ledger());
    let raised = execute(
        conn,
        text,
        &[
            ValueRef::Text(key.first()),
            ValueRef::Text(key.second()),
            integer(amount),
        ],
    )?;
    Ok(raised == 1)
}

/// Records the first amount of a key.
fn insert<S: Session>(conn: &mut S, key: &AmountKey, amount: u64) -> Result<usize, Error>
    requires small { amount < 2 ^ 63 }
    ensures changed { Soundly S.state conn.old conn.new (AreAmounts (tables S.state conn.old) → amount_at (tables S.state conn.old) key.now ≡ None → OnOk result (SetsAmount (tables S.state conn.old) (tables S.state conn.new) key.now amount)) }
    ensures write { Writes S.state conn.old conn.new result }
    ensures blame { Soundly S.state conn.old conn.new (AreAmounts (tables S.state conn.old) → amount_at (tables S.state conn.old) key.now ≡ None → FailsForCause S.state conn.old conn.new result) }
{
    let text = statements::first_row(key.ledger());
    execute(
        conn,
        text,
        &[
            ValueRef::Text(key.first()),
            ValueRef::Text(key.second()),
            integer(amount),
        ],
    )
}

/// Puts an amount on, whether or not something is recorded under the key. A sum that is not below 2^63 is refused with
/// `ConstraintViolation`, and nothing has changed.
pub fn put<S: Session>(conn: &mut S, key: &AmountKey, amount: u64) -> Result<(), Error>
    requires small { amount < 2 ^ 63 }
    ensures changed { Soundly S.state conn.old conn.new (AreAmounts (tables S.state conn.old) → had (tables S.state conn.old) key.now + amount < 2 ^ 63 → OnOk result (SetsAmount (tables S.state conn.old) (tables S.state conn.new) key.now (had (tables S.state conn.old) key.now + amount))) }
    ensures write { Writes S.state conn.old conn.new result }
    ensures blame { Soundly S.state conn.old conn.new (AreAmounts (tables S.state conn.old) → had (tables S.state conn.old) key.now + amount < 2 ^ 63 → FailsForCause S.state conn.old conn.new result) }
{
    if !raise(conn, key, amount)? {
        insert(conn, key, amount)?;
    }
    Ok(())
}
