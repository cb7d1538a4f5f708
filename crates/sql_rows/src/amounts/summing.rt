//! What all accounts together hold, and all participants together have.
ghost use Rattle.std.specs.Prelude.{◌≡◌, ◌<◌, ◌^◌, IfOk};
ghost use Rattle.sql_rows.specs.Amounts.{AreAmounts};
ghost use Rattle.sql_rows.specs.Held.{ShowSum, total_cash, total_held};
ghost use Rattle.sql_tables.specs.Calls.{FailsForCause, Looks, Soundly, tables};

use crate::amounts::reading::sum_shown;
use desk_codes::{Ccy, Isin};
use sql_tables::session::Session;
use sql_tables::statement::query;
use sqlite::types::ValueRef;
use sqlite::{Error, Row};

/// What each account holds of a security.
fn held_rows<S: Session>(conn: &mut S, isin: Isin) -> Result<Vec<Row>, Error>
    ensures value { Soundly S.state conn.old conn.new (AreAmounts (tables S.state conn.old) → IfOk result (λ rows. ShowSum rows.items (total_held (tables S.state conn.old) isin))) }
    ensures look { Looks S.state conn.old conn.new result }
    ensures blame { Soundly S.state conn.old conn.new (FailsForCause S.state conn.old conn.new result) }
{
    query(
        conn,
        "SELECT quantity FROM balance WHERE isin = ?1",
        &[ValueRef::Text(isin.as_bytes())],
    )
}

/// What each participant has of a currency.
fn cash_rows<S: Session>(conn: &mut S, ccy: Ccy) -> Result<Vec<Row>, Error>
    ensures value { Soundly S.state conn.old conn.new (AreAmounts (tables S.state conn.old) → IfOk result (λ rows. ShowSum rows.items (total_cash (tables S.state conn.old) ccy))) }
    ensures look { Looks S.state conn.old conn.new result }
    ensures blame { Soundly S.state conn.old conn.new (FailsForCause S.state conn.old conn.new result) }
{
    query(
        conn,
        "SELECT amount FROM cash WHERE currency = ?1",
        &[ValueRef::Text(ccy.as_bytes())],
    )
}

/// What all accounts together hold of a security, by its unit. The balances are added up: no total is read. More than a u64
/// can count is answered with `DatabaseCorrupt`.
pub fn held<S: Session>(conn: &mut S, isin: Isin) -> Result<u64, Error>
    ensures value { Soundly S.state conn.old conn.new (AreAmounts (tables S.state conn.old) → IfOk result (λ r. r ≡ total_held (tables S.state conn.old) isin)) }
    ensures look { Looks S.state conn.old conn.new result }
    ensures blame { Soundly S.state conn.old conn.new (AreAmounts (tables S.state conn.old) → total_held (tables S.state conn.old) isin < 2 ^ 64 → FailsForCause S.state conn.old conn.new result) }
{
    let rows = held_rows(conn, isin)?;
    sum_shown(rows.as_slice())
}

/// What all participants together have of a currency, in minor units, added up as in `held`.
pub fn held_cash<S: Session>(conn: &mut S, ccy: Ccy) -> Result<u64, Error>
    ensures value { Soundly S.state conn.old conn.new (AreAmounts (tables S.state conn.old) → IfOk result (λ r. r ≡ total_cash (tables S.state conn.old) ccy)) }
    ensures look { Looks S.state conn.old conn.new result }
    ensures blame { Soundly S.state conn.old conn.new (AreAmounts (tables S.state conn.old) → total_cash (tables S.state conn.old) ccy < 2 ^ 64 → FailsForCause S.state conn.old conn.new result) }
{
    let rows = cash_rows(conn, ccy)?;
    sum_shown(rows.as_slice())
}
