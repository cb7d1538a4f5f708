//! The rows of `register` by their numbers, in a version of the file.
ghost use Rattle.std.specs.Prelude.{◌≡◌, ◌↔◌, ℕ, ◌<◌, ◌^◌, ◌∷◌, ◌++◌, [], length, map, filter, Some, IsTrue, IfErr, IfOk};
ghost use Rattle.std.specs.List.{AllByRecursion};
ghost use Rattle.std.specs.List.Sorted.{IsPermutation};
ghost use Rattle.sqlite.specs.Order.{Row as Values};
ghost use Rattle.sqlite.specs.Values.{bound};
ghost use Rattle.sqlite.specs.declared.error.ErrorCode.TheVariants.{OutOfMemory};
ghost use Rattle.sqlite_value.specs.Value.{owned};
ghost use Rattle.desk_rules.specs.declared.answers.reply.Kept.{Kept as Pair};
ghost use Rattle.desk_rules.specs.declared.answers.reply.Reply.{Reply as Answer};
ghost use Rattle.desk_rules.specs.declared.history.entry.Entry.{Entry as AnyEntry};
ghost use Rattle.desk_rules.specs.Spelt.{IsSpelt};
ghost use Rattle.desk_rules.specs.WellFormed.{IsWellFormed};
ghost use Rattle.sql_tables.specs.Calls.{FailsForCause, LooksIn, SoundlyIn, tables};
ghost use Rattle.sql_tables.specs.Versions.{register_tree, schema_in};
ghost use Rattle.sql_tables.specs.declared.versions.Version.{Version as AnyVersion};
ghost use Rattle.sql_tables.specs.Schema.{register_table};
ghost use Rattle.sql_tables.specs.Forms.{HasForm};
ghost use Rattle.sql_tables.specs.ByNumber.{has_number, is_above, is_below, HasNoOther};
ghost use Rattle.sql_tables.specs.Plain.{IsPlain};
ghost use Rattle.sql_entries.specs.Found.{IsFormed, IsFound, IsRowOf, IsShownAs, IsShownRow};
ghost use Rattle.sql_entries.specs.Reading.{SaysReply};
ghost use Rattle.sql_entries.specs.Rows.{shown, shown_kept};
ghost use Rattle.sql_entries.specs.Told.{CanSay};
ghost use Rattle.sql_entries.specs.Shown.{shown_in, HasShortNumbers};

use crate::looking::reply_in;
use crate::told::{can_say, entry_of};
use crate::values::row_values;
use desk_rules::{Entry, Kept, Reply, well_formed};
use sql_tables::compared::same_row;
use sql_tables::session::Session;
use sql_tables::statement::query_of;
use sql_tables::values::integer;
use sql_tables::versions::Version;
use sqlite::types::ValueRef;
use sqlite::{Error, ErrorCode, Row};
use std::alloc::Global;

/// Where the columns of a reply begin in a row that is shown.
const REPLY: usize = 16;

/// The rows of a number: the columns that say an entry, those of its reply, and the two that are not read but compared.
fn rows_at<S: Session>(conn: &mut S, number: u64) -> Result<Vec<Row>, Error>
    requires { number < 2 ^ 63 }
    ensures shown { (version : AnyVersion) → SoundlyIn S.state conn.old conn.new (schema_in version) (IfOk result (λ rows. IsPermutation (map shown (filter (has_number number) ((tables S.state conn.old).trees (register_tree version)))) rows.items)) }
    ensures look { (version : AnyVersion) → LooksIn S.state conn.old conn.new (schema_in version) result }
    ensures blame { (version : AnyVersion) → SoundlyIn S.state conn.old conn.new (schema_in version) (FailsForCause S.state conn.old conn.new result) }
{
    query_of(
        conn,
        "SELECT sender, reference, kind, bic, account, isin, unit, quantity, currency, amount, day, rule, mt, settlement, place, previous, status, reply_mt, reply, number, about FROM register WHERE number = ?1",
        &[integer(number)],
    )
}

/// The numbers above one.
fn rows_above<S: Session>(conn: &mut S, number: u64) -> Result<Vec<Row>, Error>
    requires { number < 2 ^ 63 }
    ensures shown { (version : AnyVersion) → SoundlyIn S.state conn.old conn.new (schema_in version) (IfOk result (λ rows. rows.items ≡ [] ↔ filter (is_above number) ((tables S.state conn.old).trees (register_tree version)) ≡ [])) }
    ensures look { (version : AnyVersion) → LooksIn S.state conn.old conn.new (schema_in version) result }
    ensures blame { (version : AnyVersion) → SoundlyIn S.state conn.old conn.new (schema_in version) (FailsForCause S.state conn.old conn.new result) }
{
    query_of(
        conn,
        "SELECT number FROM register WHERE number > ?1",
        &[integer(number)],
    )
}

/// The numbers below one.
fn rows_below<S: Session>(conn: &mut S, number: u64) -> Result<Vec<Row>, Error>
    requires { number < 2 ^ 63 }
    ensures shown { (version : AnyVersion) → SoundlyIn S.state conn.old conn.new (schema_in version) (IfOk result (λ rows. rows.items ≡ [] ↔ filter (is_below number) ((tables S.state conn.old).trees (register_tree version)) ≡ [])) }
    ensures look { (version : AnyVersion) → LooksIn S.state conn.old conn.new (schema_in version) result }
    ensures blame { (version : AnyVersion) → SoundlyIn S.state conn.old conn.new (schema_in version) (FailsForCause S.state conn.old conn.new result) }
{
    query_of(
        conn,
        "SELECT number FROM register WHERE number < ?1",
        &[integer(number)],
    )
}

/// What is shown of the row of an entry with its reply.
fn values(version: Version, number: u64, kept: &Kept) -> [ValueRef<'_>; 21]
    requires { number < 2 ^ 63 }
    ensures said { bound result ≡ shown_kept version number kept.now }
    ensures plain { AllByRecursion (λ value. IsPlain (owned value)) result }
{
    let [
        number,
        sender,
        reference,
        kind,
        about,
        bic,
        account,
        isin,
        unit,
        quantity,
        currency,
        amount,
        day,
        rule,
        mt,
        settlement,
        place,
        previous,
        status,
        reply_mt,
        reply,
    ] = row_values(version, number, &kept.entry, &kept.reply);
    [
        sender, reference, kind, bic, account, isin, unit, quantity, currency, amount, day, rule,
        mt, settlement, place, previous, status, reply_mt, reply, number, about,
    ]
}

/// Whether shown rows are the one of an entry with its reply, which the version can say.
fn is_row_of(rows: &[Row], version: Version, number: u64, kept: &Kept) -> bool
    requires { number < 2 ^ 63 }
    ensures { IsTrue result ↔ ((rows.now ≡ shown_kept version number kept.now ∷ []) × CanSay version kept.now.entry) }
{
    match rows {
        [row] => can_say(version, &kept.entry) && same_row(row, &values(version, number, kept)),
        _ => false,
    }
}

/// The entry that a shown row says; None where it says none of the desk's.
fn entry_said(alloc: Global, version: Version, row: &Row) -> Result<Option<Entry>, Error>
    ensures exact { (entry : AnyEntry) (rest : Values) → row.now ≡ shown_in version entry ++ rest → IsSpelt entry → IfOk result (λ said. said ≡ Some entry) }
    ensures fails { 15 < length row.now → IfErr result (λ e. e ≡ Error.SqliteFailure OutOfMemory) }
{
    match entry_of(alloc, version, row) {
        Ok(entry) => Ok(Some(entry)),
        Err(Error::SqliteFailure(ErrorCode::DatabaseCorrupt)) => Ok(None),
        Err(error) => Err(error),
    }
}

/// The reply that it says; None where it says none.
fn reply_said(alloc: Global, row: &Row) -> Result<Option<Reply>, Error>
    ensures exact { (reply : Answer) → 18 < length row.now → SaysReply row.now 16 reply → HasShortNumbers reply → IfOk result (λ said. said ≡ Some reply) }
    ensures fails { 18 < length row.now → IfErr result (λ e. e ≡ Error.SqliteFailure OutOfMemory) }
{
    match reply_in(alloc, row, REPLY) {
        Ok(reply) => Ok(Some(reply)),
        Err(Error::SqliteFailure(ErrorCode::DatabaseCorrupt)) => Ok(None),
        Err(error) => Err(error),
    }
}

/// The entry with its reply that a shown row says. Nothing has to be known of them: the whole row is compared with what they
/// would write.
fn kept_said(alloc: Global, version: Version, row: &Row) -> Result<Option<Kept>, Error>
    ensures exact { (number : ℕ) (kept : Pair) → row.now ≡ shown_kept version number kept → IsWellFormed kept.entry → HasShortNumbers kept.reply → IfOk result (λ said. said ≡ Some kept) }
    ensures fails { 18 < length row.now → IfErr result (λ e. e ≡ Error.SqliteFailure OutOfMemory) }
{
    let Some(entry) = entry_said(alloc, version, row)? else {
        return Ok(None);
    };
    let Some(reply) = reply_said(alloc, row)? else {
        return Ok(None);
    };
    Ok(Some(Kept { entry, reply }))
}

/// What stands in the table under a number.
pub enum Found {
    /// No row
    Nothing,
    /// A row that no entry writes
    Another,
    /// The row of an entry with its reply
    Entry(Kept),
}

/// What shown rows of a number are.
fn found_in(alloc: Global, rows: &[Row], version: Version, number: u64) -> Result<Found, Error>
    requires { number < 2 ^ 63 }
    ensures shown { IfOk result (λ found. IsShownAs version rows.now number found) }
    ensures exact { (kept : Pair) → IsShownRow version rows.now number kept → HasShortNumbers kept.reply → IfOk result (λ found. found ≡ Found.Entry kept) }
    ensures nothing { IfOk result (λ found. (found ≡ Found.Nothing) ↔ (rows.now ≡ [])) }
    ensures formed { IfOk result IsFormed }
    ensures fails { AllByRecursion (λ row. length row ≡ 21) rows.now → IfErr result (λ e. e ≡ Error.SqliteFailure OutOfMemory) }
{
    let Some(row) = rows.first() else {
        return Ok(Found::Nothing);
    };
    let Some(kept) = kept_said(alloc, version, row)? else {
        return Ok(Found::Another);
    };
    if !is_row_of(rows, version, number, &kept) {
        return Ok(Found::Another);
    }
    well_formed(&kept.entry);
    Ok(Found::Entry(kept))
}

/// What stands under a number. The row of a well-formed entry with a reply of short numbers is always found to be it.
pub fn found_at<S: Session>(
    alloc: Global,
    conn: &mut S,
    version: Version,
    number: u64,
) -> Result<Found, Error>
    requires { number < 2 ^ 63 }
    ensures found { SoundlyIn S.state conn.old conn.new (schema_in version) (AllByRecursion (HasForm register_table) ((tables S.state conn.old).trees (register_tree version)) → IfOk result (λ found. IsFound version ((tables S.state conn.old).trees (register_tree version)) number found)) }
    ensures exact { SoundlyIn S.state conn.old conn.new (schema_in version) ((kept : Pair) → IsRowOf version ((tables S.state conn.old).trees (register_tree version)) number kept → HasShortNumbers kept.reply → IfOk result (λ found. found ≡ Found.Entry kept)) }
    ensures nothing { SoundlyIn S.state conn.old conn.new (schema_in version) (IfOk result (λ found. (found ≡ Found.Nothing) ↔ (filter (has_number number) ((tables S.state conn.old).trees (register_tree version)) ≡ []))) }
    ensures formed { IfOk result IsFormed }
    ensures look { LooksIn S.state conn.old conn.new (schema_in version) result }
    ensures blame { SoundlyIn S.state conn.old conn.new (schema_in version) (FailsForCause S.state conn.old conn.new result) }
{
    let rows = rows_at(conn, number)?;
    found_in(alloc, &rows, version, number)
}

/// Whether there is no row below 1, nor above the last.
pub fn has_no_other<S: Session>(conn: &mut S, count: u64) -> Result<bool, Error>
    requires { count < 2 ^ 63 }
    ensures none { (version : AnyVersion) → SoundlyIn S.state conn.old conn.new (schema_in version) (IfOk result (λ ok. IsTrue ok ↔ HasNoOther ((tables S.state conn.old).trees (register_tree version)) count)) }
    ensures look { (version : AnyVersion) → LooksIn S.state conn.old conn.new (schema_in version) result }
    ensures blame { (version : AnyVersion) → SoundlyIn S.state conn.old conn.new (schema_in version) (FailsForCause S.state conn.old conn.new result) }
{
    if !rows_above(conn, count)?.is_empty() {
        return Ok(false);
    }
    Ok(rows_below(conn, 1)?.is_empty())
}
