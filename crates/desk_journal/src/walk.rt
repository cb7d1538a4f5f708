//! The walk over the entries, row by row.
ghost use Rattle.std.specs.Prelude.{◌≡◌, ◌≢◌, ◌<◌, ◌≤◌, ℕ, nat_lt, true, false, map, Ok, Err, IfOk, length};
ghost use Rattle.std.specs.List.{range_with_len};
ghost use Rattle.desk_rules.specs.Books.{AreBooks, Books};
ghost use Rattle.desk_rules.specs.Tables.{AreTables};
ghost use Rattle.desk_register.specs.View.{IfTrusted, IsRead};
ghost use Rattle.desk_register.specs.Ends.{at_register};
ghost use Rattle.desk_engine.specs.Ready.{IsReady};
ghost use Rattle.desk_book.specs.RowByRow.{WritesText};
ghost use Rattle.desk_rules.specs.declared.limits.TheConstants.{MOST_ENTRIES};
ghost use Rattle.desk_engine.specs.Applied.{Keeps};
ghost use Rattle.desk_journal.specs.Journal.{IsJournalText, data_of, row_from};
ghost use Rattle.desk_journal.specs.Messages.{messages_of, sent_upto};
ghost use Rattle.desk_journal.specs.Sending.{HoldsBooks, IsSending};
ghost use Rattle.desk_journal.specs.Writing.{AreRowsText, WritesIf};

use crate::keys::add_keys;
use crate::outcomes::outcome;
use crate::rows::journal::{JournalRow, MessageKey};
use crate::rows::writing::write_journal_row;
use crate::sending::{Sending, note_all_settled, note_entries};
use desk_book::write_text;
use desk_msg::SinkFault;
use desk_register::{Register, Stage, WalkFault};
use desk_report::Format;
use desk_streams::Sink;
use std::alloc::Global;
use std::collections::BTreeMap;

/// How many messages were sent up to the end of an entry; none were before the first one.
fn sent_by(ends: &[usize], number: u64) -> usize
    ensures { (books : Books) → (count : ℕ) → ends.now ≡ map (sent_upto books) (range_with_len 1 count) → number ≤ count → result ≡ sent_upto books number }
{
    match number.checked_sub(1) {
        Some(index) => ends.get(index as usize).copied().unwrap_or(0),
        None => 0,
    }
}

/// The messages that the entry of a number caused.
fn messages_by(sending: &Sending, number: u64) -> &[MessageKey]
    ensures { (books : Books) → AreBooks books → IsSending books sending.now → 0 < number → number ≤ length books.history → result.now ≡ messages_of books number }
{
    let begin = sent_by(&sending.ends, number.saturating_sub(1));
    let end = sent_by(&sending.ends, number);
    sending.keys.get(begin..end).unwrap_or(&[])
}

/// Writes the row of a number from one on, where an entry has it. Gives whether a row was written up to here.
fn write_number<R: Register, W: Sink>(
    alloc: Global,
    register: &mut R,
    format: Format,
    from: u64,
    sending: &Sending,
    number: u64,
    is_later: bool,
    writer: &mut W,
) -> Result<bool, WalkFault>
    requires stage { (R.view register.old).stage ≡ Stage.Idle }
    requires known { IfTrusted (R.view register.old) (R.view register.old) (HoldsBooks (R.view register.old).content) }
    ensures written { (books : Books) → format ≡ Format.Json → IfTrusted (R.view register.old) (R.view register.new) (AreTables books (R.view register.old).content → IsSending books sending.now
        → WritesIf (data_of books) result (row_from books from number) is_later (W.contents writer.old) (W.contents writer.new)) }
    ensures read { IsRead (at_register result) (R.view register.old) (R.view register.new) }
    ensures unwritten { result ≡ Err (WalkFault.Sink SinkFault.Write) → W.may_fail ≡ true }
{
    if number < from {
        return Ok(is_later);
    }
    let Some(entry) = register.entry(alloc, number)? else {
        return Ok(is_later);
    };
    let outcome = outcome(alloc, register, &sending.notices, number, &entry)?;
    let row = JournalRow {
        number,
        entry,
        outcome,
    };
    let messages = messages_by(sending, number);
    write_journal_row(alloc, format, &row, messages, is_later, writer)?;
    Ok(true)
}

/// Writes the rows of the entries' numbers from one on.
fn write_rows<R: Register, W: Sink>(
    alloc: Global,
    register: &mut R,
    format: Format,
    from: u64,
    count: u64,
    sending: &Sending,
    writer: &mut W,
) -> Result<(), WalkFault>
    requires stage { (R.view register.old).stage ≡ Stage.Idle }
    requires known { IfTrusted (R.view register.old) (R.view register.old) (HoldsBooks (R.view register.old).content) }
    ensures written { (books : Books) → format ≡ Format.Json → IfTrusted (R.view register.old) (R.view register.new) (AreTables books (R.view register.old).content → IsSending books sending.now
        → count ≡ length books.history → WritesText (AreRowsText books from) result (W.contents writer.old) (W.contents writer.new)) }
    ensures read { IsRead (at_register result) (R.view register.old) (R.view register.new) }
    ensures unwritten { result ≡ Err (WalkFault.Sink SinkFault.Write) → W.may_fail ≡ true }
{
    let mut is_later = false;
    'numbers: for before in 0..count {
        is_later = write_number(
            alloc,
            register,
            format,
            from,
            sending,
            before + 1,
            is_later,
            writer,
        )?;
    }
    Ok(())
}

/// Writes the rows as the array of a JSON object.
fn write_object<R: Register, W: Sink>(
    alloc: Global,
    register: &mut R,
    from: u64,
    count: u64,
    sending: &Sending,
    writer: &mut W,
) -> Result<(), WalkFault>
    requires stage { (R.view register.old).stage ≡ Stage.Idle }
    requires known { IfTrusted (R.view register.old) (R.view register.old) (HoldsBooks (R.view register.old).content) }
    ensures written { (books : Books) → IfTrusted (R.view register.old) (R.view register.new) (AreTables books (R.view register.old).content → IsSending books sending.now
        → count ≡ length books.history → WritesText (IsJournalText books from) result (W.contents writer.old) (W.contents writer.new)) }
    ensures read { IsRead (at_register result) (R.view register.old) (R.view register.new) }
    ensures unwritten { result ≡ Err (WalkFault.Sink SinkFault.Write) → W.may_fail ≡ true }
{
    write_text(writer, b"{\"journal\":[")?;
    write_rows(alloc, register, Format::Json, from, count, sending, writer)?;
    write_text(writer, b"]}")
}

/// Learns what the entries caused to be sent.
fn read_sending<R: Register>(
    alloc: Global,
    register: &mut R,
    count: u64,
) -> Result<Sending, WalkFault>
    requires stage { (R.view register.old).stage ≡ Stage.Idle }
    requires known { IfTrusted (R.view register.old) (R.view register.old) (HoldsBooks (R.view register.old).content) }
    requires entries { IfTrusted (R.view register.old) (R.view register.old) (count ≡ length (R.view register.old).content.register) }
    ensures sending { (books : Books) → IfTrusted (R.view register.old) (R.view register.new) (AreTables books (R.view register.old).content → IfOk result (IsSending books)) }
    ensures read { IsRead (at_register result) (R.view register.old) (R.view register.new) }
    ensures unwritten { result ≢ Err (WalkFault.Sink SinkFault.Write) }
{
    let mut notices = Vec::new(alloc);
    let mut ends = Vec::new(alloc);
    note_entries(alloc, register, count, &mut notices, &mut ends)?;
    note_all_settled(alloc, register, count, &mut notices)?;
    let mut counts = BTreeMap::new(alloc);
    let mut keys = Vec::new(alloc);
    add_keys(alloc, register, &notices, &mut counts, &mut keys)?;
    Ok(Sending {
        notices,
        ends,
        keys,
    })
}

/// Whether so many entries are more than a store may hold.
fn are_too_many(count: u64, limit: u64) -> bool
    ensures { result ≡ nat_lt limit count }
{
    count > limit
}

/// How many entries there are. A store that tells of more than it may hold does not show what it holds: it is given up as one that
/// failed.
fn known_count<R: Register>(alloc: Global, register: &mut R) -> Result<u64, WalkFault>
    requires ready { IsReady false (R.view register.old) }
    ensures count { IfTrusted (R.view register.old) (R.view register.new) (IfOk result (λ count. count ≡ length (R.view register.old).content.register)) }
    ensures most { IfOk result (λ count. count ≤ MOST_ENTRIES) }
    ensures read { IsRead (at_register result) (R.view register.old) (R.view register.new) }
    ensures unwritten { result ≢ Err (WalkFault.Sink SinkFault.Write) }
{
    let count = register.count(alloc)?;
    if are_too_many(count, register.limit()) {
        return Err(WalkFault::Storage);
    }
    Ok(count)
}

/// Writes the journal of a desk: its accepted entries in the order of their numbers, from one on, each with how it fares by now and
/// the messages that were sent because of it; as a JSON object, or in lines of text, of which nothing is promised. For a register
/// that keeps the tables of an open desk. Only reading calls are made. Three walks learn what was sent, two over the entries and
/// one over the messages; they keep a key and two numbers a message, a number an entry, and a count a participant. A fourth writes
/// each row as soon as it is read, and keeps none.
///
/// Sink: the writer failed, or memory was wanting. Memory and Storage: a call of the register failed, or, Storage, a store does not
/// show what it holds. After an `Err` what was written as JSON, if anything, is a front of the journal; where the writer failed,
/// nothing is said of it.
pub fn write_journal<R: Register, W: Sink>(
    alloc: Global,
    register: &mut R,
    from: u64,
    format: Format,
    writer: &mut W,
) -> Result<(), WalkFault>
    requires ready { IsReady false (R.view register.old) }
    ensures written { format ≡ Format.Json → (books : Books) → IfTrusted (R.view register.old) (R.view register.new) (Keeps (R.view register.old).room books (R.view register.old).content
        → WritesText (IsJournalText books from) result (W.contents writer.old) (W.contents writer.new)) }
    ensures read { IsRead (at_register result) (R.view register.old) (R.view register.new) }
    ensures unwritten { result ≡ Err (WalkFault.Sink SinkFault.Write) → W.may_fail ≡ true }
{
    let count = known_count(alloc, register)?;
    let sending = read_sending(alloc, register, count)?;
    match format {
        Format::Json => write_object(alloc, register, from, count, &sending, writer),
        Format::Text => write_rows(alloc, register, format, from, count, &sending, writer),
    }
}
