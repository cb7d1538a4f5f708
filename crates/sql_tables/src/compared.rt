//! Whether a row says given values, and, in `version.rt`, whether the table `version` says this version.

mod version;

ghost use Rattle.std.specs.Prelude.{◌≡◌, ◌<◌, length, IsTrue};
ghost use Rattle.std.specs.List.{AllByRecursion};
ghost use Rattle.sqlite.specs.Values.{bound, bound_value};
ghost use Rattle.sqlite_value.specs.Value.{owned};
ghost use Rattle.sqlite_value.specs.Order.{column};
ghost use Rattle.sql_tables.specs.Plain.{IsPlain};

use sqlite::Row;
use sqlite::types::ValueRef;
pub use version::has_version;

/// The greatest integer of SQL.
pub const MOST: u64 = i64::MAX as u64;

/// Whether a value that is shown is one that was given.
fn same_value(shown: ValueRef<'_>, given: ValueRef<'_>) -> bool
    ensures same { IsTrue result → owned shown.entry ≡ bound_value (owned given.entry) }
    ensures all { IsPlain (owned given.entry) → owned shown.entry ≡ bound_value (owned given.entry) → IsTrue result }
{
    match (shown, given) {
        (ValueRef::Null, ValueRef::Null) => true,
        (ValueRef::Int(a), ValueRef::Int(b)) => a == b,
        (ValueRef::Text(a), ValueRef::Text(b)) => a == b,
        _ => false,
    }
}

/// Whether a row says the value at a place.
fn says(row: &Row, at: usize, given: ValueRef<'_>) -> bool
    ensures same { IsTrue result → column row.now at ≡ bound_value (owned given.entry) }
    ensures all { IsPlain (owned given.entry) → at < length row.now → column row.now at ≡ bound_value (owned given.entry) → IsTrue result }
{
    match row.get_ref(at) {
        Ok(shown) => same_value(shown, given),
        Err(_) => false,
    }
}

/// Whether a row says these values, and no more. It is known of plain values alone that a row which says them is found to.
#[tactic(auto, using(crate::proofs::RowLemmas::same_values))]
pub fn same_row(row: &Row, given: &[ValueRef<'_>]) -> bool
    ensures same { IsTrue result → row.now ≡ bound given.now }
    ensures all { AllByRecursion (λ value. IsPlain (owned value)) given.now → row.now ≡ bound given.now → IsTrue result }
{
    if row.column_count() != given.len() {
        return false;
    }
    for at in 0..given.len() {
        if !says(row, at, given[at]) {
            return false;
        }
    }
    true
}
