//! The instruction that a cancellation names.
ghost use Rattle.std.specs.Prelude.{◌≡◌, ◌==◌, IfOk, true, IsOk};
ghost use Rattle.desk_msg.specs.MessageType.{number_of_type};
ghost use Rattle.desk_register.specs.View.{IsRead};
ghost use Rattle.desk_rules.specs.Content.{history_of};
ghost use Rattle.desk_rules.specs.History.{instructed};
ghost use Rattle.desk_rules.specs.Verdict.{if_of_type, named_by};
ghost use Rattle.desk_engine.specs.Decision.{Reading};
ghost use Rattle.std.specs.Prelude.{option_and_then};

use desk_codes::Bic;
use desk_msg::{CancelOrder, Mt};
use desk_register::{Fault, Register};
use desk_rules::{Entry, Sender};
use std::alloc::Global;

fn same_type(a: Mt, b: Mt) -> bool
    ensures { result ≡ (number_of_type a == number_of_type b) }
{
    a.number() == b.number()
}

/// A number, where what was found under it is an instruction of a type.
fn of_type(number: u64, found: &Option<Entry>, mt: Mt) -> Option<u64>
    ensures { result ≡ if_of_type (number_of_type mt) number (option_and_then instructed found.now) }
{
    match found {
        Some(Entry::Instruct { instruction, .. }) if same_type(instruction.mt, mt) => Some(number),
        _ => None,
    }
}

/// The number of the instruction that a participant's cancellation names: its own, of the cancellation's type, under the
/// reference that the cancellation gives (20C PREV). None where it names none.
pub fn instruction_named<R: Register>(
    alloc: Global,
    register: &mut R,
    sender: &Bic,
    order: &CancelOrder,
) -> Result<Option<u64>, Fault>
    ensures value { Reading (R.view register.old) (R.view register.new) (λ c. IfOk result (λ r. r ≡ named_by (history_of c) sender.now order.now)) }
    ensures read { IsRead result (R.view register.old) (R.view register.new) }
    ensures in_memory { R.in_memory ≡ true → IsOk result }
{
    let key = Sender::Participant(*sender);
    let Some(number) = register.number_of(alloc, key, order.previous)? else {
        return Ok(None);
    };
    let found = register.entry(alloc, number)?;
    Ok(of_type(number, &found, order.mt))
}
