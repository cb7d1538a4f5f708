//! The row of an unmatched instruction.
ghost use Rattle.std.specs.Prelude.{◌≡◌, ◌≢◌, true, Err, IfOk, length};
ghost use Rattle.desk_register.specs.View.{IfTrusted, IsRead};
ghost use Rattle.desk_register.specs.Ends.{at_register};
ghost use Rattle.desk_report.specs.FirstNumbers.{AreFirst};
ghost use Rattle.desk_report.specs.Unmatched.{nearest_of, unmatched_row};

use crate::rows::unmatched::{Nearest, UnmatchedInstruction};
use crate::unmatched::first_numbers::number_at;
use crate::unmatched::near::{NearKey, near_key, nearest_told};
use crate::unmatched::reading::{instruction, unmatched};
use desk_register::{Fault, Register, Stage};
use desk_rules::Instructed;
use std::alloc::Global;
use std::collections::BTreeMap;

/// The nearest to an instruction; None where there is none. A store that tells no instruction of a number that it told one
/// of does not show what it holds: it is given up as one that failed.
fn nearest<R: Register>(
    alloc: Global,
    register: &mut R,
    numbers: &BTreeMap<NearKey, u64>,
    one: &Instructed,
) -> Result<Option<Nearest>, Fault>
    requires stage { (R.view register.old).stage ≡ Stage.Idle }
    requires first { IfTrusted (R.view register.old) (R.view register.old) (AreFirst numbers.now (R.view register.old).content (length (R.view register.old).content.register)) }
    ensures nearest { IfTrusted (R.view register.old) (R.view register.new) (IfOk result (λ found. found ≡ nearest_of (R.view register.old).content one.now)) }
    ensures read { IsRead result (R.view register.old) (R.view register.new) }
    ensures in_memory { R.in_memory ≡ true → result ≢ Err Fault.Memory }
{
    let Some(number) = number_at(numbers, &near_key(one)) else {
        return Ok(None);
    };
    let Some(other) = instruction(alloc, register, number)? else {
        return Err(Fault::Storage);
    };
    Ok(Some(nearest_told(one, number, &other)))
}

/// The row of a number; None where no unmatched instruction has it.
pub fn row<R: Register>(
    alloc: Global,
    register: &mut R,
    numbers: &BTreeMap<NearKey, u64>,
    number: u64,
) -> Result<Option<UnmatchedInstruction>, Fault>
    requires stage { (R.view register.old).stage ≡ Stage.Idle }
    requires first { IfTrusted (R.view register.old) (R.view register.old) (AreFirst numbers.now (R.view register.old).content (length (R.view register.old).content.register)) }
    ensures row { IfTrusted (R.view register.old) (R.view register.new) (IfOk result (λ row. row ≡ unmatched_row (R.view register.old).content number)) }
    ensures read { IsRead result (R.view register.old) (R.view register.new) }
    ensures in_memory { R.in_memory ≡ true → result ≢ Err Fault.Memory }
{
    let Some(instructed) = unmatched(alloc, register, number)? else {
        return Ok(None);
    };
    let nearest = nearest(alloc, register, numbers, &instructed)?;
    Ok(Some(UnmatchedInstruction {
        number,
        instructed,
        nearest,
    }))
}
