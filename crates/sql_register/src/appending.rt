//! One entry more, with what it moves.
ghost use Rattle.std.specs.Prelude.{◌≡◌, ℕ, ◌+◌, ◌-◌, ◌<◌, ◌≤◌, ◌^◌, List, length, None, IfOk, IsOk, OnOk};
ghost use Rattle.desk_rules.specs.declared.answers.reply.Kept.{Kept};
ghost use Rattle.desk_rules.specs.declared.history.entry.Entry.TheVariants.{Cancel};
ghost use Rattle.desk_rules.specs.declared.history.entry.Sender.TheVariants.{Operator};
ghost use Rattle.sql_rows.specs.Amounts.{AreAmounts};
ghost use Rattle.desk_rules.specs.History.{number_of_key, reference_of, sender_of};
ghost use Rattle.desk_rules.specs.WellFormed.{AreWellFormed, IsWellFormed};
ghost use Rattle.sql_entries.specs.Entries.{AreEntries, EntryAdded, entries_in};
ghost use Rattle.sql_entries.specs.Shown.{HasShortNumbers};
ghost use Rattle.desk_register.specs.Changes.{CanAppend, appended};
ghost use Rattle.sql_register.specs.Content.{content_in};
ghost use Rattle.sql_register.specs.Holds.{Becomes, IsDesk};
ghost use Rattle.sql_register.specs.Posting.{CanPost, Posts};
ghost use Rattle.sql_tables.specs.Calls.{FailsForCause, Soundly, Writes, tables};

use crate::numbers::checked;
use crate::posting::{Direction, posting_of};
use desk_codes::Bic;
use desk_msg::CancelOrder;
use desk_rules::{Entry, Reply, Sender, well_formed};
use sql_entries::{add_entry, entry_count, number_of};
use sql_rows::{AmountKey, add_standing, ask, put, take};
use sql_tables::session::Session;
use sql_tables::values::CORRUPT;
use sqlite::Error;

/// An entry is well formed: whoever sends one has a name.
fn formed(entry: &Entry)
    ensures { IsWellFormed entry.now }
{
    well_formed(entry);
}

/// A number of 16 bits is below 65,536.
fn bounded(number: u16)
    ensures { number < 2 ^ 16 }
{}

/// The status of a reply, and its message type, are numbers of 16 bits.
fn short(reply: &Reply)
    ensures { HasShortNumbers reply.now }
{
    bounded(reply.status);
    match reply.mt {
        Some(mt) => bounded(mt),
        None => (),
    }
}

/// The number of the next entry, where there are so many.
fn number_after(count: u64) -> Result<u64, Error>
    ensures next { IfOk result (λ n. n ≡ count + 1) }
    ensures small { IfOk result (λ n. n < 1_000_000_000) }
    ensures all { count + 1 < 1_000_000_000 → IsOk result }
{
    checked(count.saturating_add(1))
}

/// Adds the row of an entry with its reply, and gives its number.
fn add_row<S: Session>(conn: &mut S, entry: &Entry, reply: &Reply) -> Result<u64, Error>
    ensures added { Soundly S.state conn.old conn.new ((register : List Kept) → AreEntries (tables S.state conn.old) register → IfOk result (λ number. (number ≡ length register + 1) × EntryAdded (tables S.state conn.old) (tables S.state conn.new) register entry.now reply.now)) }
    ensures within { IfOk result (λ number. number < 1_000_000_000) }
    ensures small { IfOk result (λ number. number < 2 ^ 63) }
    ensures formed { IsWellFormed entry.now }
    ensures short { HasShortNumbers reply.now }
    ensures write { Writes S.state conn.old conn.new result }
    ensures blame { Soundly S.state conn.old conn.new ((register : List Kept) → AreEntries (tables S.state conn.old) register → length register + 1 < 1_000_000_000 → AreWellFormed (entries_in register)
        → number_of_key (entries_in register) (sender_of entry.now) (reference_of entry.now) ≡ None → FailsForCause S.state conn.old conn.new result) }
{
    formed(entry);
    short(reply);
    let count = entry_count(conn)?;
    let number = number_after(count)?;
    add_entry(conn, number, entry, reply)?;
    Ok(number)
}

/// Posts an amount under a key. Where a debit finds less, the tables have broken their word.
fn post<S: Session>(
    conn: &mut S,
    key: &AmountKey,
    amount: u64,
    direction: Direction,
) -> Result<(), Error>
    requires small { amount < 2 ^ 63 }
    ensures changed { Soundly S.state conn.old conn.new (AreAmounts (tables S.state conn.old) → OnOk result (Posts direction (tables S.state conn.old) (tables S.state conn.new) key.now amount)) }
    ensures write { Writes S.state conn.old conn.new result }
    ensures blame { Soundly S.state conn.old conn.new (AreAmounts (tables S.state conn.old) → CanPost direction (tables S.state conn.old) key.now amount → FailsForCause S.state conn.old conn.new result) }
{
    match direction {
        Direction::Credit => put(conn, key, amount),
        Direction::Debit => {
            if take(conn, key, amount)? {
                Ok(())
            } else {
                Err(CORRUPT)
            }
        }
    }
}

/// Adds an entry of the operator's, with what it posts.
fn append_command<S: Session>(conn: &mut S, entry: &Entry, reply: &Reply) -> Result<(), Error>
    ensures changed { Soundly S.state conn.old conn.new (IsDesk (tables S.state conn.old) → sender_of entry.now ≡ Operator → (room : ℕ) → CanAppend room entry.now reply.now (content_in (tables S.state conn.old)) → OnOk result (Becomes (tables S.state conn.new) (appended entry.now reply.now (content_in (tables S.state conn.old))))) }
    ensures write { Writes S.state conn.old conn.new result }
    ensures blame { Soundly S.state conn.old conn.new (IsDesk (tables S.state conn.old) → (room : ℕ) → room < 1_000_000_000 → CanAppend room entry.now reply.now (content_in (tables S.state conn.old)) → FailsForCause S.state conn.old conn.new result) }
{
    add_row(conn, entry, reply)?;
    let Some(posting) = posting_of(entry) else {
        return Ok(());
    };
    post(conn, &posting.balance, posting.amount, posting.direction)?;
    post(conn, &posting.total, posting.amount, posting.direction)
}

/// Adds a cancellation, and notes the request at the instruction that it names: of those that can be added, each names
/// one, by its sender and its reference.
fn append_cancel<S: Session>(
    conn: &mut S,
    sender: Bic,
    order: &CancelOrder,
    reply: &Reply,
) -> Result<(), Error>
    ensures changed { Soundly S.state conn.old conn.new (IsDesk (tables S.state conn.old) → (room : ℕ) → CanAppend room (Cancel sender order.now) reply.now (content_in (tables S.state conn.old)) → OnOk result (Becomes (tables S.state conn.new) (appended (Cancel sender order.now) reply.now (content_in (tables S.state conn.old))))) }
    ensures write { Writes S.state conn.old conn.new result }
    ensures blame { Soundly S.state conn.old conn.new (IsDesk (tables S.state conn.old) → (room : ℕ) → room < 1_000_000_000 → CanAppend room (Cancel sender order.now) reply.now (content_in (tables S.state conn.old)) → FailsForCause S.state conn.old conn.new result) }
{
    let Some(number) = number_of(conn, Sender::Participant(sender), order.previous)? else {
        return Err(CORRUPT);
    };
    let named = checked(number)?;
    let entry = Entry::Cancel {
        sender,
        order: *order,
    };
    add_row(conn, &entry, reply)?;
    ask(conn, named)
}

/// Adds an entry with its reply, and what it moves, asks for and waits for.
pub fn append<S: Session>(conn: &mut S, entry: &Entry, reply: &Reply) -> Result<(), Error>
    ensures changed { Soundly S.state conn.old conn.new (IsDesk (tables S.state conn.old) → (room : ℕ) → CanAppend room entry.now reply.now (content_in (tables S.state conn.old)) → OnOk result (Becomes (tables S.state conn.new) (appended entry.now reply.now (content_in (tables S.state conn.old))))) }
    ensures write { Writes S.state conn.old conn.new result }
    ensures blame { Soundly S.state conn.old conn.new (IsDesk (tables S.state conn.old) → (room : ℕ) → room < 1_000_000_000 → CanAppend room entry.now reply.now (content_in (tables S.state conn.old)) → FailsForCause S.state conn.old conn.new result) }
{
    match entry {
        Entry::Instruct { .. } => {
            let number = add_row(conn, entry, reply)?;
            add_standing(conn, number)
        }
        Entry::Cancel { sender, order } => append_cancel(conn, *sender, order, reply),
        Entry::Participant { .. }
        | Entry::Account { .. }
        | Entry::Security { .. }
        | Entry::Issue(_)
        | Entry::Redeem(_)
        | Entry::PayIn(_)
        | Entry::PayOut(_)
        | Entry::Run { .. } => append_command(conn, entry, reply),
    }
}
