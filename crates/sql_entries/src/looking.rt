//! How many entries there are, and what the one of a number is and was answered.
ghost use Rattle.std.specs.Prelude.{◌≡◌, ◌<◌, ◌^◌, ◌+◌, ℕ, List, Option, Ok, IfErr, IfOk, IfSome, IsOk, length, option_map};
ghost use Rattle.sqlite.specs.declared.error.ErrorCode.TheVariants.{OutOfMemory};
ghost use Rattle.desk_rules.specs.declared.answers.reply.Kept.{Kept};
ghost use Rattle.desk_rules.specs.History.{entry_at};
ghost use Rattle.desk_rules.specs.Spelt.{IsSpelt};
ghost use Rattle.desk_rules.specs.WellFormed.{AreWellFormed};
ghost use Rattle.desk_register.specs.Looked.{kept_at};
ghost use Rattle.desk_rules.specs.declared.answers.reply.Reply.{Reply};
ghost use Rattle.sqlite_value.specs.Order.{column};
ghost use Rattle.sql_tables.specs.Ends.{IsCorrupt};
ghost use Rattle.sql_entries.specs.Unread.{IsUnread};
ghost use Rattle.sql_entries.specs.Reading.{SaysReply};
ghost use Rattle.sql_entries.specs.Entries.{AreEntries, entries_in, type_value};
ghost use Rattle.sql_entries.specs.Shown.{HasShortNumbers, HaveShortNumbers, count_rows, row_if, shown_entry, shown_reply};
ghost use Rattle.sql_tables.specs.Calls.{FailsForCause, Looks, Soundly, tables};

use crate::entry::entry_in;
use desk_rules::{Entry, Reply, Text};
use sql_tables::rows::{number_at, short_at, text_at};
use sql_tables::session::Session;
use sql_tables::statement::query;
use sql_tables::values::integer;
use sqlite::types::ValueRef;
use sqlite::{Error, ErrorCode, Row};
use std::alloc::Global;

/// The greatest integer of SQL.
const GREATEST: u64 = i64::MAX as u64;

fn last_rows<S: Session>(conn: &mut S) -> Result<Vec<Row>, Error>
    ensures shown { Soundly S.state conn.old conn.new ((register : List Kept) → AreEntries (tables S.state conn.old) register → IfOk result (λ rows. rows.items ≡ count_rows (length register))) }
    ensures look { Looks S.state conn.old conn.new result }
    ensures blame { Soundly S.state conn.old conn.new (FailsForCause S.state conn.old conn.new result) }
{
    query(
        conn,
        "SELECT number FROM register ORDER BY number DESC LIMIT 1",
        &[],
    )
}

fn entry_rows<S: Session>(conn: &mut S, number: u64) -> Result<Vec<Row>, Error>
    requires { number < 2 ^ 63 }
    ensures shown { Soundly S.state conn.old conn.new ((register : List Kept) → AreEntries (tables S.state conn.old) register → IfOk result (λ rows. rows.items ≡ row_if (λ kept. shown_entry kept.entry) (kept_at register number))) }
    ensures look { Looks S.state conn.old conn.new result }
    ensures blame { Soundly S.state conn.old conn.new (FailsForCause S.state conn.old conn.new result) }
{
    query(
        conn,
        "SELECT sender, reference, kind, bic, account, isin, unit, quantity, currency, amount, day, rule, mt, settlement, place, previous FROM register WHERE number = ?1",
        &[integer(number)],
    )
}

fn reply_rows<S: Session>(conn: &mut S, number: u64) -> Result<Vec<Row>, Error>
    requires { number < 2 ^ 63 }
    ensures shown { Soundly S.state conn.old conn.new ((register : List Kept) → AreEntries (tables S.state conn.old) register → IfOk result (λ rows. rows.items ≡ row_if (λ kept. shown_reply kept.reply) (kept_at register number))) }
    ensures look { Looks S.state conn.old conn.new result }
    ensures blame { Soundly S.state conn.old conn.new (FailsForCause S.state conn.old conn.new result) }
{
    query(
        conn,
        "SELECT status, reply_mt, reply FROM register WHERE number = ?1",
        &[integer(number)],
    )
}

/// The number in the one row, 0 where there is none.
fn count_in(rows: &[Row]) -> Result<u64, Error>
    ensures { (n : ℕ) → rows.now ≡ count_rows n → result ≡ Ok n }
{
    match rows.first() {
        Some(row) => number_at(row, 0),
        None => Ok(0),
    }
}

/// The entry in the one row.
fn first_entry(alloc: Global, rows: &[Row]) -> Result<Option<Entry>, Error>
    ensures value { (kept : Option Kept) → rows.now ≡ row_if (λ kept. shown_entry kept.entry) kept → IfOk result (λ entry. entry ≡ option_map (λ kept. kept.entry) kept) }
    ensures all { (kept : Option Kept) → rows.now ≡ row_if (λ kept. shown_entry kept.entry) kept → IfSome kept (λ kept. IsSpelt kept.entry) → IfErr result (λ e. e ≡ Error.SqliteFailure OutOfMemory) }
{
    match rows.first() {
        Some(row) => Ok(Some(entry_in(alloc, row)?)),
        None => Ok(None),
    }
}

/// A message type, or none.
fn message_type_in(row: &Row, at: usize) -> Result<Option<u16>, Error>
    ensures value { (mt : Option ℕ) → column row.now at ≡ type_value mt → IfOk result (λ r. r ≡ mt) }
    ensures all { (mt : Option ℕ) → at < length row.now → column row.now at ≡ type_value mt → IfSome mt (λ n. n < 2 ^ 16) → IsOk result }
    ensures fails { at < length row.now → IfErr result IsCorrupt }
{
    match row.get_ref(at)? {
        ValueRef::Null => Ok(None),
        _ => Ok(Some(short_at(row, at)?)),
    }
}

/// The reply that a shown row says, in three columns from a place on.
pub fn reply_in(alloc: Global, row: &Row, at: usize) -> Result<Reply, Error>
    requires { at < 2 ^ 16 }
    ensures value { (reply : Reply) → SaysReply row.now at reply → IfOk result (λ r. r ≡ reply) }
    ensures all { (reply : Reply) → at + 2 < length row.now → SaysReply row.now at reply → reply.status < 2 ^ 16 → IfSome reply.mt (λ n. n < 2 ^ 16) → IfErr result (λ e. e ≡ Error.SqliteFailure OutOfMemory) }
    ensures fails { at + 2 < length row.now → IfErr result IsUnread }
{
    let status = short_at(row, at)?;
    let mt = message_type_in(row, at + 1)?;
    match Vec::from_slice(alloc, text_at(row, at + 2)?) {
        Ok(bytes) => Ok(Reply {
            status,
            mt,
            text: Text::new(bytes),
        }),
        Err(_) => Err(Error::SqliteFailure(ErrorCode::OutOfMemory)),
    }
}

/// The reply in the one row.
fn first_reply(alloc: Global, rows: &[Row]) -> Result<Option<Reply>, Error>
    ensures value { (kept : Option Kept) → rows.now ≡ row_if (λ kept. shown_reply kept.reply) kept → IfOk result (λ reply. reply ≡ option_map (λ kept. kept.reply) kept) }
    ensures all { (kept : Option Kept) → rows.now ≡ row_if (λ kept. shown_reply kept.reply) kept → IfSome kept (λ kept. HasShortNumbers kept.reply) → IfErr result (λ e. e ≡ Error.SqliteFailure OutOfMemory) }
{
    match rows.first() {
        Some(row) => Ok(Some(reply_in(alloc, row, 0)?)),
        None => Ok(None),
    }
}

/// How many entries there are.
pub fn entry_count<S: Session>(conn: &mut S) -> Result<u64, Error>
    ensures value { Soundly S.state conn.old conn.new ((register : List Kept) → AreEntries (tables S.state conn.old) register → IfOk result (λ count. count ≡ length register)) }
    ensures look { Looks S.state conn.old conn.new result }
    ensures blame { Soundly S.state conn.old conn.new ((register : List Kept) → AreEntries (tables S.state conn.old) register → FailsForCause S.state conn.old conn.new result) }
{
    let rows = last_rows(conn)?;
    count_in(&rows)
}

/// The entry of this number, counted from 1; None where there is none. Of a row that says no entry of the desk's it is
/// told that the database is damaged.
pub fn entry_at<S: Session>(
    conn: &mut S,
    alloc: Global,
    number: u64,
) -> Result<Option<Entry>, Error>
    ensures value { Soundly S.state conn.old conn.new ((register : List Kept) → AreEntries (tables S.state conn.old) register → IfOk result (λ entry. entry ≡ entry_at (entries_in register) number)) }
    ensures look { Looks S.state conn.old conn.new result }
    ensures blame { Soundly S.state conn.old conn.new ((register : List Kept) → AreEntries (tables S.state conn.old) register → AreWellFormed (entries_in register) → FailsForCause S.state conn.old conn.new result) }
{
    if number > GREATEST {
        return Ok(None);
    }
    let rows = entry_rows(conn, number)?;
    first_entry(alloc, &rows)
}

/// The reply that the entry of this number got, counted from 1; None where there is none. Of a row that says no reply it
/// is told that the database is damaged.
pub fn reply_at<S: Session>(
    conn: &mut S,
    alloc: Global,
    number: u64,
) -> Result<Option<Reply>, Error>
    ensures value { Soundly S.state conn.old conn.new ((register : List Kept) → AreEntries (tables S.state conn.old) register → IfOk result (λ reply. reply ≡ option_map (λ kept. kept.reply) (kept_at register number))) }
    ensures look { Looks S.state conn.old conn.new result }
    ensures blame { Soundly S.state conn.old conn.new ((register : List Kept) → AreEntries (tables S.state conn.old) register → HaveShortNumbers register → FailsForCause S.state conn.old conn.new result) }
{
    if number > GREATEST {
        return Ok(None);
    }
    let rows = reply_rows(conn, number)?;
    first_reply(alloc, &rows)
}
