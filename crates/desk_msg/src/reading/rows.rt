//! Reading the one field that belongs to a row.
ghost use Rattle.std.specs.Prelude.{◌≡◌};
ghost use Rattle.desk_msg.specs.Profile.{function_row, amount_form, text_said};
ghost use Rattle.desk_msg.specs.Reads.{code_of_function};
ghost use Rattle.desk_msg.specs.Finding.{found_all, row_seen, ReadsRow, ReadsPayment};

use crate::fault::MsgFault;
use crate::instruction::Cash;
use crate::mt::Mt;
use crate::reading::find::find_field;
use crate::reading::function::FunctionCode;
use crate::reading::profile::{FUNCTION, Row};
use crate::reading::value::{Value, function_in};
use desk_text::Field;

/// What the value of the one field of a row says; else how the row fails.
pub fn read_row<T: Value>(fields: &[Field], row: &Row) -> Result<T, MsgFault>
    ensures { ReadsRow (found_all fields.now) (row_seen T.form row.now) T.said result }
{
    let field = find_field(fields, row)?;
    T::read(row, field).ok_or(MsgFault::BadValue(row.word))
}

/// The function: NEWM or CANC.
pub fn read_function(fields: &[Field]) -> Result<FunctionCode, MsgFault>
    ensures { ReadsRow (found_all fields.now) function_row (λ function. text_said (code_of_function function)) result }
{
    let field = find_field(fields, &FUNCTION)?;
    let Some(function) = function_in(field) else {
        return Err(MsgFault::BadValue(FUNCTION.word));
    };
    if function == b"NEWM".as_slice() {
        return Ok(FunctionCode::Newm);
    }
    if function == b"CANC".as_slice() {
        return Ok(FunctionCode::Canc);
    }
    Err(MsgFault::Function)
}

/// The amount that a row has, where the type is against payment.
pub fn read_payment(mt: Mt, fields: &[Field], row: &Row) -> Result<Option<Cash>, MsgFault>
    ensures { ReadsPayment mt (found_all fields.now) (row_seen amount_form row.now) result }
{
    if !mt.is_against_payment() {
        return Ok(None);
    }
    let cash = read_row(fields, row)?;
    Ok(Some(cash))
}
