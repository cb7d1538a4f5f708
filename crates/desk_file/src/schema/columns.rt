//! The columns of a table.
ghost use Rattle.std.specs.Prelude.{◌≡◌, ◌↔◌, IsTrue, map};
ghost use Rattle.sql_tables.specs.Schema.{column_of};
ghost use Rattle.desk_file.specs.Outline.{outline, plain};

use sql_tables::tables::{self, Holds};
use sqlite_items::Items;
use sqlite_schema::schema::{Column, Kind};
use sqlite_value::keys::Collation;
use sqlite_value::value::Value;

/// Whether it is the column of a strict table with no default.
fn is_plain(column: &Column, name: &str, kind: Kind, not_null: bool) -> bool
    ensures { IsTrue result ↔ (column.now ≡ plain name.now kind not_null) }
{
    column.name.as_slice() == name.as_bytes()
        && column.kind == kind
        && column.is_strict
        && column.not_null == not_null
        && matches!(column.default, Value::Null)
        && column.collation == Collation::Binary
}

/// Whether it is this column.
fn is_column(column: &Column, wanted: &tables::Column<'_>) -> bool
    ensures { IsTrue result ↔ (column.now ≡ column_of (outline wanted.now)) }
{
    let (name, holds) = *wanted;
    match holds {
        Holds::Text => is_plain(column, name, Kind::Text, true),
        Holds::Number | Holds::Amount => is_plain(column, name, Kind::Integer, true),
        Holds::Key | Holds::Optional => is_plain(column, name, Kind::Integer, false),
    }
}

/// Whether these are the columns, in this order.
pub fn are_columns(columns: &[Column], wanted: &[tables::Column<'_>]) -> bool
    ensures { IsTrue result ↔ (columns.now ≡ map column_of (map outline wanted.now)) }
{
    match (columns, wanted) {
        ([], []) => true,
        ([column, more @ ..], [first, others @ ..]) => {
            is_column(column, first) && are_columns(more, others)
        }
        _ => false,
    }
}
