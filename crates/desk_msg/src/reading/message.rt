//! Reading a message from the fields of a block.
ghost use Rattle.std.specs.Prelude.{◌≡◌, true, if◌then◌else◌};
ghost use Rattle.desk_text.specs.Seen.{found_in};
ghost use Rattle.desk_msg.specs.MessageType.{is_instruction};
ghost use Rattle.desk_msg.specs.Profile.{text_said, counterparty_row};
ghost use Rattle.desk_msg.specs.Reads.{ReadsFields};
ghost use Rattle.desk_msg.specs.Finding.{found_all, ReadsRow, ReadsInstruction, ReadsCancellation};

use crate::fault::MsgFault;
use crate::instruction::{CancelOrder, Instruction, Message};
use crate::mt::Mt;
use crate::reading::function::FunctionCode;
use crate::reading::profile::{
    AMOUNT, DATE, DEAG, PREV, PSET, QUANTITY, REAG, SAFE, SECURITY, SEME, SETR,
};
use crate::reading::rows::{read_function, read_payment, read_row};
use desk_codes::Bic;
use desk_text::{Block, Field};

/// The other side: of a receipt the one that delivers, of a delivery the one that receives.
fn read_counterparty(mt: Mt, fields: &[Field]) -> Result<Bic, MsgFault>
    ensures { ReadsRow (found_all fields.now) (counterparty_row mt) text_said result }
{
    let row = if mt.is_delivery() { &REAG } else { &DEAG };
    read_row(fields, row)
}

/// A new instruction.
fn read_instruction(mt: Mt, fields: &[Field]) -> Result<Instruction, MsgFault>
    requires { is_instruction mt ≡ true }
    ensures { ReadsInstruction mt (found_all fields.now) result }
{
    let reference = read_row(fields, &SEME)?;
    let day = read_row(fields, &DATE)?;
    let isin = read_row(fields, &SECURITY)?;
    let (kind, quantity) = read_row(fields, &QUANTITY)?;
    let account = read_row(fields, &SAFE)?;
    let settlement = read_row(fields, &SETR)?;
    let place = read_row(fields, &PSET)?;
    let counterparty = read_counterparty(mt, fields)?;
    let cash = read_payment(mt, fields, &AMOUNT)?;
    Ok(Instruction {
        mt,
        reference,
        day,
        isin,
        kind,
        quantity,
        account,
        settlement,
        counterparty,
        place,
        cash,
    })
}

/// A cancellation.
fn read_cancellation(mt: Mt, fields: &[Field]) -> Result<CancelOrder, MsgFault>
    requires { is_instruction mt ≡ true }
    ensures { ReadsCancellation mt (found_all fields.now) result }
{
    let reference = read_row(fields, &SEME)?;
    let previous = read_row(fields, &PREV)?;
    Ok(CancelOrder {
        mt,
        reference,
        previous,
    })
}

/// A message.
fn read_fields(mt: Mt, fields: &[Field]) -> Result<Message, MsgFault>
    requires { is_instruction mt ≡ true }
    ensures { ReadsFields mt (found_all fields.now) result }
{
    match read_function(fields)? {
        FunctionCode::Newm => {
            let instruction = read_instruction(mt, fields)?;
            Ok(Message::New(instruction))
        }
        FunctionCode::Canc => {
            let order = read_cancellation(mt, fields)?;
            Ok(Message::Cancel(order))
        }
    }
}

/// The message that the fields of a block are, for an instruction's type (MT540 to MT543).
///
/// The used fields are looked for one after another; the fault is that of the first one that is missing (5), is there
/// more than once (6), or has a value that doesn't fit (7); a function other than NEWM and CANC is 8. Other fields and
/// sequences are not looked at.
pub fn read_message(mt: Mt, block: &Block) -> Result<Message, MsgFault>
    requires { is_instruction mt ≡ true }
    ensures { ReadsFields mt (found_in block.now) result }
{
    read_fields(mt, block.fields())
}
