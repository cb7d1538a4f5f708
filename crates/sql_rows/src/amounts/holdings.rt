//! The walk over what an account holds.
ghost use Rattle.std.specs.Prelude.{◌≡◌, [], unwrap_or, IfOk};
ghost use Rattle.sql_rows.specs.Amounts.{AreAmounts};
ghost use Rattle.sql_rows.specs.Holdings.{HoldsIsins, IsNextHolding, ShowsNext};
ghost use Rattle.sql_tables.specs.Calls.{FailsForCause, Looks, Soundly, tables};

use crate::amounts::reading::holding_shown;
use desk_codes::{AccountId, Isin};
use sql_tables::session::Session;
use sql_tables::statement::query;
use sqlite::types::ValueRef;
use sqlite::{Error, Row};

/// The bytes of a security; with none, the empty text.
fn bytes_of(isin: &Option<Isin>) -> &[u8]
    ensures { result.now ≡ unwrap_or isin.now [] }
{
    match isin {
        Some(isin) => isin.as_bytes(),
        None => b"",
    }
}

/// The row of the first security above one of which the account holds some, or none.
fn next_rows<S: Session>(
    conn: &mut S,
    account: AccountId,
    above: Option<Isin>,
) -> Result<Vec<Row>, Error>
    ensures value { Soundly S.state conn.old conn.new (AreAmounts (tables S.state conn.old) → IfOk result (λ rows. ShowsNext (tables S.state conn.old) account above rows.items)) }
    ensures look { Looks S.state conn.old conn.new result }
    ensures blame { Soundly S.state conn.old conn.new (FailsForCause S.state conn.old conn.new result) }
{
    query(
        conn,
        "SELECT isin, quantity FROM balance WHERE account = ?1 AND isin > ?2 AND quantity > 0 ORDER BY isin LIMIT 1",
        &[
            ValueRef::Text(account.as_bytes()),
            ValueRef::Text(bytes_of(&above)),
        ],
    )
}

/// The first security, in order of its bytes, above one of which the account holds some, and how much; with none, the
/// first of all. None where there is none. A row of a text that is no ISIN, which no call writes, is answered with
/// `DatabaseCorrupt`.
pub fn next_holding<S: Session>(
    conn: &mut S,
    account: AccountId,
    above: Option<Isin>,
) -> Result<Option<(Isin, u64)>, Error>
    ensures value { Soundly S.state conn.old conn.new (AreAmounts (tables S.state conn.old) → IfOk result (IsNextHolding (tables S.state conn.old) account above)) }
    ensures look { Looks S.state conn.old conn.new result }
    ensures blame { Soundly S.state conn.old conn.new (AreAmounts (tables S.state conn.old) → HoldsIsins (tables S.state conn.old) account → FailsForCause S.state conn.old conn.new result) }
{
    let rows = next_rows(conn, account, above)?;
    holding_shown(rows.as_slice())
}
