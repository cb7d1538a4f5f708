//! The confirmation of a settlement, MT544 to MT547, as it is written.
ghost use Rattle.std.specs.Prelude.{◌≡◌, ◌<◌, ◌^◌, ◌++◌, List, IfOk, codes, if◌then◌else◌, Ok};
ghost use Rattle.std.specs.Option.{ForSome};
ghost use Rattle.desk_text.specs.Fields.{Found, IsBlock};
ghost use Rattle.desk_codes.specs.Currency.{letters_of};
ghost use Rattle.desk_msg.specs.MessageType.{is_delivery};
ghost use Rattle.desk_msg.specs.Profile.{code_of_kind};
ghost use Rattle.desk_msg.specs.ConfirmationText.{confirmation, confirming_type, paid_parts};
ghost use Rattle.desk_msg.specs.ConfirmationPieces.{text_with, paid_text, AreCodes};
ghost use Rattle.desk_msg.specs.HoldingsPieces.{text_of};
ghost use Rattle.desk_msg.specs.Confirms.{Confirms, confirmed_of};

use crate::instruction::{Instruction, Kind};
use crate::writing::digits::number_text;
use crate::writing::pieces::joined;
use crate::writing::status::{Own, own_value};
use desk_codes::{Ccy, Day};
use std::alloc::{AllocError, Global};

/// What a confirmation's fields say, but the amount's; of the quantity and of the counterparty also what their values
/// begin with.
#[derive(Clone, Copy)]
struct Values<'a> {
    own: &'a [u8],
    related: &'a [u8],
    day: &'a [u8],
    security: &'a [u8],
    quantity_begins: &'a [u8],
    quantity: &'a [u8],
    account: &'a [u8],
    settlement: &'a [u8],
    counterparty_begins: &'a [u8],
    counterparty: &'a [u8],
}

/// The lines of the amount in pieces; where nothing is paid there are none, and all are empty.
#[derive(Clone, Copy)]
struct PaidLines<'a> {
    front: &'a [u8],
    currency: &'a [u8],
    amount: &'a [u8],
    end: &'a [u8],
}

/// The confirmation of these values, and of the lines of the amount.
fn write_confirmation(
    alloc: Global,
    values: &Values<'_>,
    paid: &PaidLines<'_>,
) -> Result<Vec<u8>, AllocError>
    ensures { IfOk result (λ text. text.items ≡ text_with values.now paid.now) }
{
    joined(
        alloc,
        &[
            b"{4:\r\n:16R:GENL\r\n:20C:",
            values.own,
            b"\r\n:23G:NEWM\r\n:16R:LINK\r\n:20C::RELA//",
            values.related,
            b"\r\n:16S:LINK\r\n:16S:GENL\r\n:16R:TRADDET\r\n:98A::ESET//",
            values.day,
            b"\r\n:35B:ISIN ",
            values.security,
            b"\r\n:16S:TRADDET\r\n:16R:FIAC\r\n:36B:",
            values.quantity_begins,
            values.quantity,
            b"\r\n:97A::SAFE//",
            values.account,
            b"\r\n:16S:FIAC\r\n:16R:SETDET\r\n:22F::SETR//",
            values.settlement,
            b"\r\n:16R:SETPRTY\r\n:95P:",
            values.counterparty_begins,
            values.counterparty,
            b"\r\n:16S:SETPRTY\r\n:16R:SETPRTY\r\n:95P::PSET//DESKDEFF\r\n:16S:SETPRTY\r\n",
            paid.front,
            paid.currency,
            paid.amount,
            paid.end,
            b":16S:SETDET\r\n-}",
        ],
    )
}

/// What the value of the quantity begins with.
fn quantity_begins(kind: Kind) -> &'static [u8]
    ensures { result.now ≡ codes ":ESTT//" ++ (code_of_kind kind ++ codes "/") }
{
    match kind {
        Kind::Unit => b":ESTT//UNIT/",
        Kind::FaceAmount => b":ESTT//FAMT/",
    }
}

/// What the value of the counterparty begins with: the receiving agent of a delivery, the delivering one of a receipt.
fn counterparty_begins(delivers: bool) -> &'static [u8]
    ensures { result.now ≡ codes ":" ++ ((if delivers then codes "REAG" else codes "DEAG") ++ codes "//") }
{
    if delivers { b":REAG//" } else { b":DEAG//" }
}

/// What a confirmation of an instruction says, with its own reference, the day and the quantity as they are written.
fn values_of<'a>(
    instruction: &'a Instruction,
    own: &'a [u8],
    day: &'a [u8],
    quantity: &'a [u8],
) -> Values<'a>
    ensures own { result.own.now ≡ own.now }
    ensures related { result.related.now ≡ instruction.now.reference }
    ensures day { result.day.now ≡ day.now }
    ensures security { result.security.now ≡ instruction.now.isin }
    ensures kind { result.quantity_begins.now ≡ codes ":ESTT//" ++ (code_of_kind instruction.now.kind ++ codes "/") }
    ensures quantity { result.quantity.now ≡ quantity.now }
    ensures account { result.account.now ≡ instruction.now.account }
    ensures settlement { result.settlement.now ≡ instruction.now.settlement }
    ensures side { result.counterparty_begins.now ≡ codes ":" ++ ((if is_delivery instruction.now.mt then codes "REAG" else codes "DEAG") ++ codes "//") }
    ensures counterparty { result.counterparty.now ≡ instruction.now.counterparty }
    ensures codes { AreCodes instruction.now }
{
    Values {
        own,
        related: instruction.reference.as_bytes(),
        day,
        security: instruction.isin.as_bytes(),
        quantity_begins: quantity_begins(instruction.kind),
        quantity,
        account: instruction.account.as_bytes(),
        settlement: instruction.settlement.as_bytes(),
        counterparty_begins: counterparty_begins(instruction.mt.is_delivery()),
        counterparty: instruction.counterparty.as_bytes(),
    }
}

/// The lines of an amount, which is written so.
fn paid_lines<'a>(ccy: &'a Ccy, amount: &'a [u8]) -> PaidLines<'a>
    ensures { paid_text result ≡ codes ":16R:AMT\r\n:19A::ESTT//" ++ (letters_of ccy.now ++ (amount.now ++ codes "\r\n:16S:AMT\r\n")) }
{
    PaidLines {
        front: b":16R:AMT\r\n:19A::ESTT//",
        currency: ccy.as_bytes(),
        amount,
        end: b"\r\n:16S:AMT\r\n",
    }
}

/// The confirmation with the lines of the amount, if there is one.
fn confirmation_with(
    alloc: Global,
    n: u64,
    instruction: &Instruction,
    day: Day,
    paid: &PaidLines<'_>,
) -> Result<Vec<u8>, AllocError>
    requires paid { paid_text paid.now ≡ text_of (paid_parts instruction.now.cash) }
    requires fits { ForSome instruction.now.cash (λ cash. cash.amount < 2 ^ 64) }
    ensures text { IfOk result (λ text. text.items ≡ confirmation n instruction.now day) }
    ensures said { IfOk result (λ text. (said : List Found) × IsBlock text.items said × Confirms (confirming_type instruction.now.mt) said (Ok (confirmed_of instruction.now day))) }
{
    let instruction = *instruction;
    let own = own_value(Own::Sent(n));
    let digits = day.write();
    let quantity = number_text(alloc, instruction.quantity, 0)?;
    let values = values_of(&instruction, &own, &digits, &quantity);
    write_confirmation(alloc, &values, paid)
}

/// The n-th message that the desk sends: that an instruction was settled on that day, in the type that confirms it
/// (MT544 to MT547). The only fault is want of memory.
///
/// The number has at most 15 digits. The text is read back as what was settled.
pub fn confirmation_text(
    alloc: Global,
    n: u64,
    instruction: &Instruction,
    day: Day,
) -> Result<Vec<u8>, AllocError>
    requires { n < 10 ^ 15 }
    ensures text { IfOk result (λ text. text.items ≡ confirmation n instruction.now day) }
    ensures said { IfOk result (λ text. (said : List Found) × IsBlock text.items said × Confirms (confirming_type instruction.now.mt) said (Ok (confirmed_of instruction.now day))) }
{
    match instruction.cash {
        Some(cash) => {
            let amount = number_text(alloc, cash.amount, cash.ccy.decimals())?;
            let paid = paid_lines(&cash.ccy, &amount);
            confirmation_with(alloc, n, instruction, day, &paid)
        }
        None => {
            let paid = PaidLines {
                front: b"",
                currency: b"",
                amount: b"",
                end: b"",
            };
            confirmation_with(alloc, n, instruction, day, &paid)
        }
    }
}
