//! What a message says, as text for people.
ghost use Rattle.std.specs.Prelude.{◌≡◌, ◌∷◌, ◌++◌, ◌≤◌, IfOk, OnOk};
ghost use Rattle.std.specs.Str.{byte};
ghost use Rattle.desk_codes.specs.Number.{written_number};
ghost use Rattle.desk_msg.specs.FieldsText.{message_text, named, trade_lines, settlement_lines, cash_lines};
ghost use Rattle.desk_msg.specs.FedLines.{fed};

use crate::instruction::{CancelOrder, Cash, Instruction, Message};
use crate::writing::pieces::joined;
use desk_codes::write_number;
use std::alloc::{AllocError, Global};

/// So many bytes the lines of a message seldom go beyond.
const USUAL_ROOM: usize = 256;

/// A text that begins so, with room for the lines of a message.
fn begun(alloc: Global, first: &[u8]) -> Result<Vec<u8>, AllocError>
    ensures { IfOk result (λ text. text.items ≡ first.now) }
{
    let mut text = Vec::with_capacity(alloc, USUAL_ROOM)?;
    text.extend_from_slice(first)?;
    Ok(text)
}

/// Adds a name, a space and a value, behind a line feed.
fn add_line(text: &mut Vec<u8>, name: &[u8], value: &[u8]) -> Result<(), AllocError>
    ensures { OnOk result (text.new.items ≡ text.old.items ++ byte "\n" ∷ named name.now value.now) }
{
    text.push(b'\n')?;
    text.extend_from_slice(name)?;
    text.push(b' ')?;
    text.extend_from_slice(value)
}

/// A name, a space and a number.
fn named_number(
    alloc: Global,
    name: &[u8],
    value: u64,
    decimals: usize,
) -> Result<Vec<u8>, AllocError>
    requires { decimals ≤ 3 }
    ensures { IfOk result (λ text. text.items ≡ named name.now (written_number value decimals)) }
{
    let number = write_number(alloc, value, decimals)?;
    joined(alloc, &[name, b" ", &number])
}

/// Adds what is traded, and when.
fn add_trade(alloc: Global, text: &mut Vec<u8>, instruction: &Instruction) -> Result<(), AllocError>
    ensures { OnOk result (text.new.items ≡ text.old.items ++ fed (trade_lines instruction.now)) }
{
    let kind = instruction.kind.as_str();
    let quantity = named_number(alloc, kind.as_bytes(), instruction.quantity, 0)?;
    add_line(text, b"reference", instruction.reference.as_bytes())?;
    add_line(text, b"date", instruction.day.as_bytes())?;
    add_line(text, b"isin", instruction.isin.as_bytes())?;
    add_line(text, b"quantity", &quantity)?;
    Ok(())
}

/// Adds how it is settled, and with whom.
fn add_settlement(text: &mut Vec<u8>, instruction: &Instruction) -> Result<(), AllocError>
    ensures { OnOk result (text.new.items ≡ text.old.items ++ fed (settlement_lines instruction.now)) }
{
    add_line(text, b"account", instruction.account.as_bytes())?;
    add_line(text, b"settlement", instruction.settlement.as_bytes())?;
    add_line(text, b"place", instruction.place.as_bytes())?;
    add_line(text, b"counterparty", instruction.counterparty.as_bytes())?;
    Ok(())
}

/// Adds the amount, if there is one.
fn add_cash(alloc: Global, text: &mut Vec<u8>, cash: Option<Cash>) -> Result<(), AllocError>
    ensures { OnOk result (text.new.items ≡ text.old.items ++ fed (cash_lines cash)) }
{
    let Some(cash) = cash else {
        return Ok(());
    };
    let amount = named_number(alloc, cash.ccy.as_bytes(), cash.amount, cash.ccy.decimals())?;
    add_line(text, b"amount", &amount)
}

/// The lines of an instruction.
fn instruction_text(alloc: Global, instruction: &Instruction) -> Result<Vec<u8>, AllocError>
    ensures { IfOk result (λ text. text.items ≡ message_text (Message.New instruction.now)) }
{
    let mut text = begun(alloc, b"function NEWM")?;
    add_trade(alloc, &mut text, instruction)?;
    add_settlement(&mut text, instruction)?;
    add_cash(alloc, &mut text, instruction.cash)?;
    Ok(text)
}

/// The lines of a cancellation.
fn cancellation_text(alloc: Global, order: &CancelOrder) -> Result<Vec<u8>, AllocError>
    ensures { IfOk result (λ text. text.items ≡ message_text (Message.Cancel order.now)) }
{
    let mut text = begun(alloc, b"function CANC")?;
    add_line(&mut text, b"reference", order.reference.as_bytes())?;
    add_line(&mut text, b"previous", order.previous.as_bytes())?;
    Ok(text)
}

/// What a message says, a line each: a name, a space and the value, with a line feed between lines and none
/// at the end. The only fault is want of memory.
pub fn fields_text(alloc: Global, message: &Message) -> Result<Vec<u8>, AllocError>
    ensures { IfOk result (λ text. text.items ≡ message_text message.now) }
{
    match message {
        Message::New(instruction) => instruction_text(alloc, instruction),
        Message::Cancel(order) => cancellation_text(alloc, order),
    }
}
