//! The test of a table: none, or that its third column is not below 0.
ghost use Rattle.std.specs.Prelude.{◌≡◌, ◌↔◌, ◌∷◌, [], pos, IsTrue, slice_index_or};
ghost use Rattle.sqlite.specs.declared.types.Value.TheVariants.{Int, Null};
ghost use Rattle.sqlite_schema.specs.declared.code.Op.TheVariants.{Literal as Constant, Column as Place};
ghost use Rattle.sqlite_schema.specs.Code.{term_in};
ghost use Rattle.sql_tables.specs.Schema.{checks_of, not_below_nought};
ghost use Rattle.desk_file.specs.Checks.{IsTestAt};

use sqlite_items::Items;
use sqlite_schema::code::{Op, Terms};
use sqlite_sql::ops::{BinaryOp, CompareOp};
use sqlite_value::keys::Collation;
use sqlite_value::value::Value;

/// Whether the node at a place is the third column of the row.
fn is_third(nodes: &[Op], at: usize) -> bool
    ensures { IsTrue result ↔ (slice_index_or nodes.now at (Constant Null) ≡ Place 1 3) }
{
    match nodes.get(at) {
        Some(Op::Column(slot, column)) => *slot == 1 && *column == 3,
        _ => false,
    }
}

/// Whether the node at a place is the number 0.
fn is_nought(nodes: &[Op], at: usize) -> bool
    ensures { IsTrue result ↔ (slice_index_or nodes.now at (Constant Null) ≡ Constant (Int (pos 0))) }
{
    match nodes.get(at) {
        Some(Op::Literal(Value::Int(number))) => *number == 0,
        _ => false,
    }
}

/// Whether the node at a place says that the third column is not below 0.
fn is_test(nodes: &[Op], at: usize) -> bool
    ensures { IsTrue result ↔ IsTestAt nodes.now at }
{
    match nodes.get(at) {
        Some(Op::Binary(BinaryOp::Compare(CompareOp::Ge, Collation::Binary), left, right)) => {
            is_third(nodes, *left) && is_nought(nodes, *right)
        }
        _ => false,
    }
}

/// Whether the term at a place says that the third column is not below 0.
fn says_test(nodes: &[Op], root: usize) -> bool
    ensures { IsTrue result ↔ (term_in nodes.now root ≡ not_below_nought 3) }
{
    nodes.len() > 1 && is_test(nodes, root)
}

/// Whether there is no test, or the one of the third column.
pub fn are_checks(terms: &Terms, is_checked: bool) -> bool
    ensures { IsTrue result ↔ (terms.now ≡ checks_of is_checked) }
{
    match terms.roots.as_slice() {
        [] => !is_checked,
        [root] => is_checked && says_test(terms.nodes.as_slice(), *root),
        _ => false,
    }
}
