//! Numbers as SQL has them, which are signed.

ghost use Rattle.std.specs.Prelude.{◌≡◌, ◌+◌, ◌<◌, ◌^◌, IfOk, IfErr, IsOk};
ghost use Rattle.std.specs.Int.{w64, cast_signed};
ghost use Rattle.sqlite_value.specs.Value.{owned};
ghost use Rattle.sqlite.specs.declared.types.Value.TheVariants.{Int};
ghost use Rattle.sqlite.specs.declared.error.ErrorCode.TheVariants.{IntegerOverflow};

use sqlite::types::ValueRef;
use sqlite::{Error, ErrorCode};

/// The number as an integer of SQL, which sees the signed one of the same 64 bits.
pub fn integer<'a>(number: u64) -> ValueRef<'a>
    ensures { owned result ≡ Int (cast_signed w64 number) }
{
    ValueRef::Int(number.cast_signed())
}

/// One more; an overflow where SQL would see no positive number.
pub fn next(last: u64) -> Result<u64, Error>
    ensures value { IfOk result (λ number. number ≡ last + 1) }
    ensures below { IfOk result (λ number. number < 2 ^ 63) }
    ensures all { last + 1 < 2 ^ 63 → IsOk result }
    ensures err { IfErr result (λ e. e ≡ Error.SqliteFailure IntegerOverflow) }
{
    if last < i64::MAX as u64 {
        Ok(last + 1)
    } else {
        Err(Error::SqliteFailure(ErrorCode::IntegerOverflow))
    }
}
