//! The messages that were sent.

ghost use Rattle.std.specs.Prelude.{◌≡◌, ◌+◌, ◌<◌, ◌^◌, ℕ, List, length, Ok, IfOk, IfSome, OnOk, unwrap_or};
ghost use Rattle.desk_rules.specs.declared.answers.reply.Sent.{Sent as Message};
ghost use Rattle.desk_rules.specs.Questions.{confirms_it, sent_at};
ghost use Rattle.std.specs.List.{find};
ghost use Rattle.sql_rows.specs.Messages.{AreSent, Adds, IsLast, IsMessage, IsNext, IsSendable, ShowsNext, sent_to};
ghost use Rattle.sql_tables.specs.Calls.{FailsForCause, Looks, Soundly, Writes, tables};

use crate::sent::counting::{integer, next};
use crate::sent::reading::message_in;
use desk_codes::Bic;
use desk_rules::Sent;
use sql_tables::rows::only_number;
use sql_tables::session::Session;
use sql_tables::statement::{execute, query};
use sqlite::types::ValueRef;
use sqlite::{Error, Row};
use std::alloc::Global;

/// How many messages were sent.
pub fn sent_count<S: Session>(conn: &mut S) -> Result<u64, Error>
    ensures value { Soundly S.state conn.old conn.new ((messages : List Message) → AreSent (tables S.state conn.old) messages → IfOk result (λ r. r ≡ length messages)) }
    ensures look { Looks S.state conn.old conn.new result }
    ensures blame { Soundly S.state conn.old conn.new ((messages : List Message) → AreSent (tables S.state conn.old) messages → FailsForCause S.state conn.old conn.new result) }
{
    let rows = last_number_rows(conn)?;
    last_in(&rows)
}

/// The message of this place among those that were sent to a participant, counted from 1; None where there is none. It looks once
/// for each message to the participant up to this one.
pub fn sent_at<S: Session>(
    conn: &mut S,
    alloc: Global,
    bic: Bic,
    place: u64,
) -> Result<Option<Sent>, Error>
    ensures value { Soundly S.state conn.old conn.new ((messages : List Message) → AreSent (tables S.state conn.old) messages → IfOk result (λ r. r ≡ sent_at (sent_to messages bic) place)) }
    ensures look { Looks S.state conn.old conn.new result }
    ensures blame { Soundly S.state conn.old conn.new ((messages : List Message) → AreSent (tables S.state conn.old) messages → IfSome (sent_at (sent_to messages bic) place) IsSendable → FailsForCause S.state conn.old conn.new result) }
{
    let Some(number) = number_to(conn, bic, place)? else {
        return Ok(None);
    };
    message_numbered(conn, alloc, number)
}

/// The first message that confirms the instruction of this number; None where none was sent.
pub fn confirmation_of<S: Session>(
    conn: &mut S,
    alloc: Global,
    number: u64,
) -> Result<Option<Sent>, Error>
    ensures value { Soundly S.state conn.old conn.new ((messages : List Message) → AreSent (tables S.state conn.old) messages → IfOk result (λ r. r ≡ find (confirms_it number) messages)) }
    ensures look { Looks S.state conn.old conn.new result }
    ensures blame { Soundly S.state conn.old conn.new ((messages : List Message) → AreSent (tables S.state conn.old) messages → IfSome (find (confirms_it number) messages) IsSendable → FailsForCause S.state conn.old conn.new result) }
{
    let rows = confirmation_rows(conn, number)?;
    message_in(alloc, &rows)
}

/// Adds a message to those that were sent. Where its number would pass 2^63 - 1, it is refused as an overflow.
pub fn add_sent<S: Session>(conn: &mut S, message: &Sent) -> Result<(), Error>
    ensures added { Soundly S.state conn.old conn.new ((messages : List Message) → AreSent (tables S.state conn.old) messages → OnOk result (Adds (tables S.state conn.old) (tables S.state conn.new) messages message.now)) }
    ensures write { Writes S.state conn.old conn.new result }
    ensures blame { Soundly S.state conn.old conn.new ((messages : List Message) → AreSent (tables S.state conn.old) messages → length messages + 1 < 2 ^ 63 → FailsForCause S.state conn.old conn.new result) }
{
    let count = sent_count(conn)?;
    let number = next(count)?;
    insert(conn, number, message)?;
    Ok(())
}

/// The number of the message of this place among those that were sent to a participant; None where there is none.
fn number_to<S: Session>(conn: &mut S, bic: Bic, place: u64) -> Result<Option<u64>, Error>
    ensures value { Soundly S.state conn.old conn.new ((messages : List Message) → AreSent (tables S.state conn.old) messages → IfOk result (λ found. sent_at messages (unwrap_or found 0) ≡ sent_at (sent_to messages bic) place)) }
    ensures look { Looks S.state conn.old conn.new result }
    ensures blame { Soundly S.state conn.old conn.new ((messages : List Message) → AreSent (tables S.state conn.old) messages → FailsForCause S.state conn.old conn.new result) }
{
    let mut last = None;
    for _passed in 0..place {
        last = next_to(conn, bic, last.unwrap_or(0))?;
        if last.is_none() {
            return Ok(None);
        }
    }
    Ok(last)
}

/// The number of the first message to a participant past one number; None where there is none.
fn next_to<S: Session>(conn: &mut S, bic: Bic, after: u64) -> Result<Option<u64>, Error>
    ensures value { Soundly S.state conn.old conn.new ((messages : List Message) → AreSent (tables S.state conn.old) messages → after < 2 ^ 63 → IfOk result (λ found. IsNext messages bic after found)) }
    ensures look { Looks S.state conn.old conn.new result }
    ensures blame { Soundly S.state conn.old conn.new ((messages : List Message) → AreSent (tables S.state conn.old) messages → after < 2 ^ 63 → FailsForCause S.state conn.old conn.new result) }
{
    let rows = next_rows(conn, bic, after)?;
    only_number(&rows)
}

/// The message of this number; None where there is none.
fn message_numbered<S: Session>(
    conn: &mut S,
    alloc: Global,
    number: u64,
) -> Result<Option<Sent>, Error>
    ensures value { Soundly S.state conn.old conn.new ((messages : List Message) → AreSent (tables S.state conn.old) messages → IfOk result (λ r. r ≡ sent_at messages number)) }
    ensures look { Looks S.state conn.old conn.new result }
    ensures blame { Soundly S.state conn.old conn.new ((messages : List Message) → AreSent (tables S.state conn.old) messages → IfSome (sent_at messages number) IsSendable → FailsForCause S.state conn.old conn.new result) }
{
    let rows = message_rows(conn, number)?;
    message_in(alloc, &rows)
}

fn last_in(rows: &[Row]) -> Result<u64, Error>
    ensures { (last : ℕ) → IsLast rows.now last → result ≡ Ok last }
{
    let number = only_number(rows)?;
    Ok(number.unwrap_or(0))
}

fn last_number_rows<S: Session>(conn: &mut S) -> Result<Vec<Row>, Error>
    ensures shown { Soundly S.state conn.old conn.new ((messages : List Message) → AreSent (tables S.state conn.old) messages → IfOk result (λ rows. IsLast rows.items (length messages))) }
    ensures look { Looks S.state conn.old conn.new result }
    ensures blame { Soundly S.state conn.old conn.new (FailsForCause S.state conn.old conn.new result) }
{
    query(
        conn,
        "SELECT number FROM sent ORDER BY number DESC LIMIT 1",
        &[],
    )
}

fn next_rows<S: Session>(conn: &mut S, bic: Bic, after: u64) -> Result<Vec<Row>, Error>
    ensures shown { Soundly S.state conn.old conn.new ((messages : List Message) → AreSent (tables S.state conn.old) messages → after < 2 ^ 63 → IfOk result (λ rows. ShowsNext messages bic after rows.items)) }
    ensures look { Looks S.state conn.old conn.new result }
    ensures blame { Soundly S.state conn.old conn.new (FailsForCause S.state conn.old conn.new result) }
{
    query(
        conn,
        "SELECT number FROM sent WHERE bic = ?1 AND number > ?2 ORDER BY number LIMIT 1",
        &[ValueRef::Text(bic.as_bytes()), integer(after)],
    )
}

fn message_rows<S: Session>(conn: &mut S, number: u64) -> Result<Vec<Row>, Error>
    ensures shown { Soundly S.state conn.old conn.new ((messages : List Message) → AreSent (tables S.state conn.old) messages → IfOk result (λ rows. IsMessage rows.items (sent_at messages number))) }
    ensures look { Looks S.state conn.old conn.new result }
    ensures blame { Soundly S.state conn.old conn.new (FailsForCause S.state conn.old conn.new result) }
{
    query(
        conn,
        "SELECT bic, mt, about, text FROM sent WHERE number = ?1",
        &[integer(number)],
    )
}

fn confirmation_rows<S: Session>(conn: &mut S, number: u64) -> Result<Vec<Row>, Error>
    ensures shown { Soundly S.state conn.old conn.new ((messages : List Message) → AreSent (tables S.state conn.old) messages → IfOk result (λ rows. IsMessage rows.items (find (confirms_it number) messages))) }
    ensures look { Looks S.state conn.old conn.new result }
    ensures blame { Soundly S.state conn.old conn.new (FailsForCause S.state conn.old conn.new result) }
{
    query(
        conn,
        "SELECT bic, mt, about, text FROM sent WHERE about = ?1 AND mt >= 544 AND mt <= 547 ORDER BY number LIMIT 1",
        &[integer(number)],
    )
}

fn insert<S: Session>(conn: &mut S, number: u64, message: &Sent) -> Result<usize, Error>
    requires { number < 2 ^ 63 }
    ensures added { Soundly S.state conn.old conn.new ((messages : List Message) → AreSent (tables S.state conn.old) messages → number ≡ length messages + 1 → OnOk result (Adds (tables S.state conn.old) (tables S.state conn.new) messages message.now)) }
    ensures write { Writes S.state conn.old conn.new result }
    ensures blame { Soundly S.state conn.old conn.new ((messages : List Message) → AreSent (tables S.state conn.old) messages → number ≡ length messages + 1 → FailsForCause S.state conn.old conn.new result) }
{
    execute(
        conn,
        "INSERT INTO sent (number, bic, mt, about, text) VALUES (?1, ?2, ?3, ?4, ?5)",
        &[
            integer(number),
            ValueRef::Text(message.bic.as_bytes()),
            integer(u64::from(message.mt)),
            integer(message.about),
            ValueRef::Text(message.text.as_bytes()),
        ],
    )
}
