//! What the rows that a statement shows say.
ghost use Rattle.std.specs.Prelude.{ℕ, Option, IfOk, IsOk, List, [], ◌∷◌, ◌≡◌, ◌<◌, ◌^◌, All, pos, sum_by};
ghost use Rattle.desk_codes.specs.CheckDigit.{IsIsin};
ghost use Rattle.sqlite.specs.Effect.{Database};
ghost use Rattle.sqlite.specs.declared.types.Value.TheVariants.{Int, Text as Words};
ghost use Rattle.sql_rows.specs.Held.{ShowsNumber, number_shown};
ghost use Rattle.sql_rows.specs.Holdings.{ShowsNext, IsNextHolding};

use desk_codes::Isin;
use sql_tables::rows::{isin_at, number_at};
use sql_tables::values::CORRUPT;
use sqlite::{Error, Row};

/// The holding that the rows of a walk show.
pub(crate) fn holding_shown(rows: &[Row]) -> Result<Option<(Isin, u64)>, Error>
    ensures value { (db : Database) (account : List ℕ) (above : Option (List ℕ)) → ShowsNext db account above rows.now → IfOk result (IsNextHolding db account above) }
    ensures all { (isin : List ℕ) (quantity : ℕ) → rows.now ≡ (Words isin ∷ Int (pos quantity) ∷ []) ∷ [] → IsIsin isin → IsOk result }
    ensures none { rows.now ≡ [] → IsOk result }
{
    match rows.first() {
        Some(row) => Ok(Some((isin_at(row, 0)?, number_at(row, 1)?))),
        None => Ok(None),
    }
}

/// The sum of the numbers that rows show.
pub(crate) fn sum_shown(rows: &[Row]) -> Result<u64, Error>
    ensures value { IfOk result (λ sum. sum ≡ sum_by number_shown rows.now) }
    ensures all { All ShowsNumber rows.now → sum_by number_shown rows.now < 2 ^ 64 → IsOk result }
{
    let mut sum: u64 = 0;
    for row in rows {
        sum = sum.checked_add(number_at(row, 0)?).ok_or(CORRUPT)?;
    }
    Ok(sum)
}
