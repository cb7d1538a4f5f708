//! The rows of `sent` by their numbers.
ghost use Rattle.std.specs.Prelude.{◌≡◌, ◌<◌, ◌^◌, ◌↔◌, ◌∷◌, [], pos, map, filter, IsTrue, IfOk};
ghost use Rattle.std.specs.List.{AllByRecursion};
ghost use Rattle.std.specs.List.Sorted.{IsPermutation};
ghost use Rattle.sqlite.specs.Values.{bound};
ghost use Rattle.sqlite.specs.declared.types.Value.TheVariants.{Int};
ghost use Rattle.sqlite_value.specs.Value.{owned};
ghost use Rattle.sql_tables.specs.Calls.{FailsForCause, Looks, Soundly, tables};
ghost use Rattle.sql_tables.specs.Schema.{sent_table};
ghost use Rattle.sql_tables.specs.Forms.{HasForm};
ghost use Rattle.sql_tables.specs.ByNumber.{has_number, is_above, is_below, HasNoOther, HasOne};
ghost use Rattle.sql_tables.specs.Plain.{IsPlain};
ghost use Rattle.sql_tables.specs.Whole.{shown_by};
ghost use Rattle.sql_rows.specs.SentTold.{values_of};

use desk_rules::Sent;
use sql_tables::compared::same_row;
use sql_tables::session::Session;
use sql_tables::statement::query;
use sql_tables::values::{integer, signed};
use sqlite::types::ValueRef;
use sqlite::{Error, Row};

/// The rows of a number.
fn rows_at<S: Session>(conn: &mut S, number: u64) -> Result<Vec<Row>, Error>
    requires { number < 2 ^ 63 }
    ensures shown { Soundly S.state conn.old conn.new (IfOk result (λ rows. IsPermutation (map (shown_by 4) (filter (has_number number) ((tables S.state conn.old).trees 9))) rows.items)) }
    ensures look { Looks S.state conn.old conn.new result }
    ensures blame { Soundly S.state conn.old conn.new (FailsForCause S.state conn.old conn.new result) }
{
    query(
        conn,
        "SELECT number, bic, mt, about, text FROM sent WHERE number = ?1",
        &[integer(number)],
    )
}

/// The numbers above one.
fn rows_above<S: Session>(conn: &mut S, number: u64) -> Result<Vec<Row>, Error>
    requires { number < 2 ^ 63 }
    ensures shown { Soundly S.state conn.old conn.new (IfOk result (λ rows. rows.items ≡ [] ↔ filter (is_above number) ((tables S.state conn.old).trees 9) ≡ [])) }
    ensures look { Looks S.state conn.old conn.new result }
    ensures blame { Soundly S.state conn.old conn.new (FailsForCause S.state conn.old conn.new result) }
{
    query(
        conn,
        "SELECT number FROM sent WHERE number > ?1",
        &[integer(number)],
    )
}

/// The numbers below one.
fn rows_below<S: Session>(conn: &mut S, number: u64) -> Result<Vec<Row>, Error>
    requires { number < 2 ^ 63 }
    ensures shown { Soundly S.state conn.old conn.new (IfOk result (λ rows. rows.items ≡ [] ↔ filter (is_below number) ((tables S.state conn.old).trees 9) ≡ [])) }
    ensures look { Looks S.state conn.old conn.new result }
    ensures blame { Soundly S.state conn.old conn.new (FailsForCause S.state conn.old conn.new result) }
{
    query(
        conn,
        "SELECT number FROM sent WHERE number < ?1",
        &[integer(number)],
    )
}

/// The values of a message's row.
fn values(number: u64, message: &Sent) -> [ValueRef<'_>; 5]
    requires { number < 2 ^ 63 }
    ensures said { bound result ≡ Int (pos number) ∷ values_of message.now }
    ensures plain { AllByRecursion (λ value. IsPlain (owned value)) result }
{
    [
        integer(number),
        ValueRef::Text(message.bic.as_bytes()),
        integer(u64::from(message.mt)),
        signed(message.about.cast_signed()),
        ValueRef::Text(message.text.as_bytes()),
    ]
}

/// Whether shown rows are the one of a message.
fn is_row_of(rows: &[Row], number: u64, message: &Sent) -> bool
    requires { number < 2 ^ 63 }
    ensures { IsTrue result ↔ rows.now ≡ (Int (pos number) ∷ values_of message.now) ∷ [] }
{
    match rows {
        [row] => same_row(row, &values(number, message)),
        _ => false,
    }
}

/// Whether the row of a number is that of a message.
pub fn has_row<S: Session>(conn: &mut S, number: u64, message: &Sent) -> Result<bool, Error>
    requires { number < 2 ^ 63 }
    ensures row { Soundly S.state conn.old conn.new (AllByRecursion (HasForm sent_table) ((tables S.state conn.old).trees 9)
        → IfOk result (λ ok. IsTrue ok → HasOne ((tables S.state conn.old).trees 9) number (values_of message.now))) }
    ensures exact { Soundly S.state conn.old conn.new (IfOk result (λ ok. HasOne ((tables S.state conn.old).trees 9) number (values_of message.now) → IsTrue ok)) }
    ensures look { Looks S.state conn.old conn.new result }
    ensures blame { Soundly S.state conn.old conn.new (FailsForCause S.state conn.old conn.new result) }
{
    let rows = rows_at(conn, number)?;
    Ok(is_row_of(&rows, number, message))
}

/// Whether there is no row below 1, nor above the last.
pub fn has_no_other<S: Session>(conn: &mut S, count: u64) -> Result<bool, Error>
    requires { count < 2 ^ 63 }
    ensures none { Soundly S.state conn.old conn.new (IfOk result (λ ok. IsTrue ok ↔ HasNoOther ((tables S.state conn.old).trees 9) count)) }
    ensures look { Looks S.state conn.old conn.new result }
    ensures blame { Soundly S.state conn.old conn.new (FailsForCause S.state conn.old conn.new result) }
{
    if !rows_above(conn, count)?.is_empty() {
        return Ok(false);
    }
    Ok(rows_below(conn, 1)?.is_empty())
}
