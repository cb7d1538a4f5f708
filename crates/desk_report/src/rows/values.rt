//! Rows as JSON.
ghost use Rattle.std.specs.Prelude.{◌≡◌, ◌++◌, map, codes, IfOk, OnOk, List, ℕ};
ghost use Rattle.serde_json.specs.Data.{string, array};
ghost use Rattle.serde_json.specs.View.{view, items_view, items_of};
ghost use Rattle.desk_msg.specs.Profile.{code_of_kind};
ghost use Rattle.desk_msg.specs.declared.writing.statement_row.StatementRow.{StatementRow as Held};
ghost use Rattle.desk_report.specs.RowData.{account_data, cash_data, name_if, names_of, nearest_data, number_data, or_null, pending_data, side_data, unmatched_data};

use crate::rows::balances::{AccountRow, CashRow};
use crate::rows::object::{Object, amount_value, ccy_value, optional_number, reason_code};
use crate::rows::pending::{PendingPair, Side};
use crate::rows::unmatched::{Differences, Nearest, UnmatchedInstruction};
use desk_msg::StatementRow;
use serde_json::Value;
use std::alloc::{AllocError, Global};

/// A side of a pair.
fn side_value(alloc: Global, side: &Side) -> Result<Value, AllocError>
    ensures { IfOk result (λ value. view value ≡ side_data side.now) }
{
    let object = Object::new(alloc)
        .text("account", side.account.as_str())?
        .text("bic", side.bic.as_str())?
        .with("cancel", Ok(Value::from(side.is_cancel_requested)))?
        .number("number", side.number)?
        .text("ref", side.reference.as_str())?;
    Ok(object.into_value())
}

/// A pair that waits.
pub fn pending_value(alloc: Global, row: &PendingPair) -> Result<Value, AllocError>
    ensures { IfOk result (λ value. view value ≡ pending_data row.now) }
{
    let object = Object::new(alloc)
        .with("amount", Ok(amount_value(row.cash)))?
        .with("ccy", ccy_value(alloc, row.cash))?
        .text("day", row.day.as_str())?
        .with("deliverer", side_value(alloc, &row.deliverer))?
        .text("isin", row.isin.as_str())?
        .text("kind", row.kind.as_str())?
        .with("lacking", Ok(optional_number(row.lacking)))?
        .number("quantity", row.quantity)?
        .text("reason", reason_code(row.reason))?
        .with("receiver", side_value(alloc, &row.receiver))?;
    Ok(object.into_value())
}

/// Adds a name, where it applies.
fn add_name(
    alloc: Global,
    names: &mut Vec<Value>,
    applies: bool,
    name: &str,
) -> Result<(), AllocError>
    ensures { OnOk result ((told : List (List ℕ)) → items_view names.old.items ≡ items_of (map string told) → items_view names.new.items ≡ items_of (map string (told ++ name_if applies name.now))) }
{
    if applies {
        names.push(Value::try_from_str(alloc, name)?)?;
    }
    Ok(())
}

/// The names of what differs.
fn names_value(alloc: Global, differs: &Differences) -> Result<Value, AllocError>
    ensures { IfOk result (λ value. view value ≡ array (items_of (map string (names_of differs.now)))) }
{
    let mut names = Vec::new(alloc);
    add_name(alloc, &mut names, differs.kind, "kind")?;
    add_name(alloc, &mut names, differs.quantity, "quantity")?;
    add_name(alloc, &mut names, differs.day, "day")?;
    add_name(alloc, &mut names, differs.payment, "payment")?;
    add_name(alloc, &mut names, differs.currency, "currency")?;
    add_name(alloc, &mut names, differs.amount, "amount")?;
    Ok(Value::Array(names))
}

/// The unmatched instruction that comes nearest; null where there is none.
fn nearest_value(alloc: Global, nearest: &Option<Nearest>) -> Result<Value, AllocError>
    ensures { IfOk result (λ value. view value ≡ or_null nearest_data nearest.now) }
{
    let Some(nearest) = nearest else {
        return Ok(Value::Null);
    };
    let object = Object::new(alloc)
        .with("differs", names_value(alloc, &nearest.differs))?
        .number("number", nearest.number)?
        .text("ref", nearest.reference.as_str())?;
    Ok(object.into_value())
}

/// An unmatched instruction.
pub fn unmatched_value(alloc: Global, row: &UnmatchedInstruction) -> Result<Value, AllocError>
    ensures { IfOk result (λ value. view value ≡ unmatched_data row.now) }
{
    let instruction = &row.instructed.instruction;
    let object = Object::new(alloc)
        .text("account", instruction.account.as_str())?
        .with("amount", Ok(amount_value(instruction.cash)))?
        .text("bic", row.instructed.sender.as_str())?
        .with("ccy", ccy_value(alloc, instruction.cash))?
        .text("counterparty", instruction.counterparty.as_str())?
        .text("day", instruction.day.as_str())?
        .text("isin", instruction.isin.as_str())?
        .text("kind", instruction.kind.as_str())?
        .number("mt", u64::from(instruction.mt.number()))?
        .with("nearest", nearest_value(alloc, &row.nearest))?
        .number("number", row.number)?
        .number("quantity", instruction.quantity)?
        .text("ref", instruction.reference.as_str())?;
    Ok(object.into_value())
}

/// The security that is held; null where none is.
fn isin_value(alloc: Global, holding: Option<StatementRow>) -> Result<Value, AllocError>
    ensures { IfOk result (λ value. view value ≡ or_null (λ (held : Held). string held.isin) holding) }
{
    match holding {
        Some(held) => Value::try_from_str(alloc, held.isin.as_str()),
        None => Ok(Value::Null),
    }
}

/// How it is counted; null where none is held.
fn kind_value(alloc: Global, holding: Option<StatementRow>) -> Result<Value, AllocError>
    ensures { IfOk result (λ value. view value ≡ or_null (λ (held : Held). string (code_of_kind held.kind)) holding) }
{
    match holding {
        Some(held) => Value::try_from_str(alloc, held.kind.as_str()),
        None => Ok(Value::Null),
    }
}

/// How much of it is held; null where none is.
fn quantity_value(holding: Option<StatementRow>) -> Value
    ensures { view result ≡ or_null (λ (held : Held). number_data held.quantity) holding }
{
    match holding {
        Some(held) => Value::from(held.quantity),
        None => Value::Null,
    }
}

/// What an account holds of a security, or that it holds nothing.
pub fn account_value(alloc: Global, row: &AccountRow) -> Result<Value, AllocError>
    ensures { IfOk result (λ value. view value ≡ account_data row.now) }
{
    let object = Object::new(alloc)
        .text("account", row.account.as_str())?
        .with("isin", isin_value(alloc, row.holding))?
        .with("kind", kind_value(alloc, row.holding))?
        .text("owner", row.owner.as_str())?
        .with("quantity", Ok(quantity_value(row.holding)))?;
    Ok(object.into_value())
}

/// What a participant has of a currency.
pub fn cash_value(alloc: Global, row: &CashRow) -> Result<Value, AllocError>
    ensures { IfOk result (λ value. view value ≡ cash_data row.now) }
{
    let object = Object::new(alloc)
        .number("amount", row.amount)?
        .text("bic", row.bic.as_str())?
        .text("ccy", row.ccy.as_str())?;
    Ok(object.into_value())
}
