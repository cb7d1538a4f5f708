//! One entry more.
ghost use Rattle.std.specs.Prelude.{◌≡◌, ◌+◌, ◌<◌, ◌^◌, List, None, OnOk, length};
ghost use Rattle.desk_rules.specs.declared.answers.reply.Kept.{Kept};
ghost use Rattle.desk_rules.specs.History.{number_of_key, reference_of, sender_of};
ghost use Rattle.desk_rules.specs.WellFormed.{AreWellFormed, IsWellFormed};
ghost use Rattle.sql_entries.specs.Entries.{AreEntries, EntryAdded, entries_in};
ghost use Rattle.sql_tables.specs.Calls.{FailsForCause, Soundly, Writes, tables};

use crate::values::row_values;
use desk_rules::{Entry, Reply, well_formed};
use sql_tables::session::Session;
use sql_tables::statement::execute;
use sql_tables::versions::Version;
use sqlite::Error;

/// An entry is well formed: whoever sends one has a name.
fn formed(entry: &Entry)
    ensures { IsWellFormed entry.now }
{
    well_formed(entry);
}

/// Adds the entry of this number, one above the last, with its reply. It is refused where its sender has used its
/// reference before.
pub fn add_entry<S: Session>(
    conn: &mut S,
    number: u64,
    entry: &Entry,
    reply: &Reply,
) -> Result<(), Error>
    requires { number < 2 ^ 63 }
    ensures added { Soundly S.state conn.old conn.new ((register : List Kept) → AreEntries (tables S.state conn.old) register → number ≡ length register + 1 → OnOk result (EntryAdded (tables S.state conn.old) (tables S.state conn.new) register entry.now reply.now)) }
    ensures write { Writes S.state conn.old conn.new result }
    ensures blame { Soundly S.state conn.old conn.new ((register : List Kept) → AreEntries (tables S.state conn.old) register → number ≡ length register + 1 → AreWellFormed (entries_in register) → number_of_key (entries_in register) (sender_of entry.now) (reference_of entry.now) ≡ None → FailsForCause S.state conn.old conn.new result) }
{
    formed(entry);
    let row = row_values(Version::Third, number, entry, reply);
    execute(
        conn,
        "INSERT INTO register (number, sender, reference, kind, about, bic, account, isin, unit, quantity, currency, amount, day, rule, mt, settlement, place, previous, status, reply_mt, reply) VALUES (?1, ?2, ?3, ?4, ?5, ?6, ?7, ?8, ?9, ?10, ?11, ?12, ?13, ?14, ?15, ?16, ?17, ?18, ?19, ?20, ?21)",
        &row,
    )?;
    Ok(())
}
