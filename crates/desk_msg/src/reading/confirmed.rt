//! Reading the confirmation of a settlement, MT544 to MT547.
ghost use Rattle.std.specs.Prelude.{◌≡◌, false, codes};
ghost use Rattle.desk_text.specs.Seen.{found_in};
ghost use Rattle.desk_msg.specs.MessageType.{is_instruction};
ghost use Rattle.desk_msg.specs.Confirms.{Confirms, paid_by as paid_of};
ghost use Rattle.desk_msg.specs.Finding.{found_all, ReadsNew, ReadsSettlement};

use crate::fault::MsgFault;
use crate::instruction::{Cash, Kind};
use crate::mt::Mt;
use crate::reading::function::FunctionCode;
use crate::reading::profile::{ESET, PAID, RELA, SAFE, SECURITY, SETTLED};
use crate::reading::rows::{read_function, read_payment, read_row};
use desk_codes::{AccountId, Ccy, Day, Isin, Reference};
use desk_text::{Block, Field};

/// What a confirmation says of a settlement. `cash` is there exactly against payment.
#[derive(Clone, Copy)]
pub struct Confirmed {
    /// The reference of the instruction that was settled (20C RELA)
    pub related: Reference,
    /// The day of the settlement (98A ESET)
    pub day: Day,
    /// The security (35B)
    pub isin: Isin,
    /// Whether its quantity counts units or a face amount (36B ESTT)
    pub kind: Kind,
    /// How much of the security, in units or by face amount (36B ESTT)
    pub quantity: u64,
    /// The safekeeping account (97A SAFE)
    pub account: AccountId,
    /// The amount that was paid, in minor units (19A ESTT)
    pub cash: Option<(Ccy, u64)>,
}

/// The function, which is NEWM.
fn read_new(fields: &[Field]) -> Result<(), MsgFault>
    ensures { ReadsNew (found_all fields.now) result }
{
    match read_function(fields)? {
        FunctionCode::Newm => Ok(()),
        FunctionCode::Canc => Err(MsgFault::Function),
    }
}

/// An amount as its currency and its minor units.
fn paid_by(cash: Option<Cash>) -> Option<(Ccy, u64)>
    ensures { result ≡ paid_of cash }
{
    match cash {
        Some(cash) => Some((cash.ccy, cash.amount)),
        None => None,
    }
}

/// The rows behind the function.
fn read_settlement(mt: Mt, fields: &[Field]) -> Result<Confirmed, MsgFault>
    ensures { ReadsSettlement mt (found_all fields.now) result }
{
    let related = read_row(fields, &RELA)?;
    let day = read_row(fields, &ESET)?;
    let isin = read_row(fields, &SECURITY)?;
    let (kind, quantity) = read_row(fields, &SETTLED)?;
    let account = read_row(fields, &SAFE)?;
    let cash = read_payment(mt, fields, &PAID)?;
    Ok(Confirmed {
        related,
        day,
        isin,
        kind,
        quantity,
        account,
        cash: paid_by(cash),
    })
}

/// A confirmation.
fn read_fields(mt: Mt, fields: &[Field]) -> Result<Confirmed, MsgFault>
    ensures { Confirms mt (found_all fields.now) result }
{
    read_new(fields)?;
    read_settlement(mt, fields)
}

/// What the fields of a block confirm, for a confirmation's type (MT544 to MT547).
///
/// The used fields are looked for one after another; the fault is that of the first one that is missing (5), is there
/// more than once (6), or has a value that doesn't fit (7); a function other than NEWM is 8. Other fields and sequences
/// are not looked at, in a free one the amount neither.
pub fn read_confirmation(mt: Mt, block: &Block) -> Result<Confirmed, MsgFault>
    requires { is_instruction mt ≡ false }
    ensures { Confirms mt (found_in block.now) result }
{
    read_fields(mt, block.fields())
}
