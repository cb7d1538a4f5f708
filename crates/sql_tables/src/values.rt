//! What is handed to a statement, and the answer to what does not read.

ghost use Rattle.std.specs.Prelude.{◌≡◌, ◌<◌, ◌^◌, pos, OnOk, IsOk};
ghost use Rattle.sqlite.specs.declared.types.Value.TheVariants.{Int};
ghost use Rattle.sqlite_value.specs.Value.{owned};
ghost use Rattle.sql_tables.specs.CashColumns.{amount_of, currency_of};

use desk_msg::Cash;
use sqlite::types::ValueRef;
use sqlite::{Error, ErrorCode};

/// The answer to a row that does not read, or is not there.
pub const CORRUPT: Error = Error::SqliteFailure(ErrorCode::DatabaseCorrupt);

/// A number as a parameter.
pub fn integer<'a>(number: u64) -> ValueRef<'a>
    requires { number < 2 ^ 63 }
    ensures { owned result ≡ Int (pos number) }
{
    ValueRef::Int(number as i64)
}

/// A number with a sign as a parameter.
pub fn signed<'a>(number: i64) -> ValueRef<'a>
    ensures { owned result ≡ Int number }
{
    ValueRef::Int(number)
}

/// The letters of a settlement amount's currency; nothing where there is none.
pub fn currency_text(cash: &Option<Cash>) -> &[u8]
    ensures { result.now ≡ currency_of cash.now }
{
    match cash {
        Some(cash) => cash.ccy.as_bytes(),
        None => b"",
    }
}

/// A settlement amount, in minor units.
fn units(cash: &Cash) -> u64
    ensures amount { result ≡ cash.now.amount }
    ensures fits { result < 2 ^ 63 }
{
    cash.amount
}

/// A settlement amount in minor units, 0 where there is none.
pub fn amount(cash: &Option<Cash>) -> u64
    ensures amount { result ≡ amount_of cash.now }
    ensures fits { result < 2 ^ 63 }
{
    match cash {
        Some(cash) => units(cash),
        None => 0,
    }
}

/// One row was changed. It is an error where there was none.
pub fn one_row(count: usize) -> Result<(), Error>
    ensures one { OnOk result (count ≡ 1) }
    ensures all { count ≡ 1 → IsOk result }
{
    if count == 1 { Ok(()) } else { Err(CORRUPT) }
}
