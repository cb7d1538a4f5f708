//! Instructions as a register tells them.
ghost use Rattle.std.specs.Prelude.{◌≡◌, true, IfOk, IsOk};
ghost use Rattle.desk_rules.specs.Content.{history_of};
ghost use Rattle.desk_rules.specs.History.{instruction_at};
ghost use Rattle.desk_register.specs.View.{IfTrusted, IsRead};
ghost use Rattle.desk_rules.specs.Unmatched.{unmatched_in};

use desk_register::{Fault, Register, Stage};
use desk_rules::{Instructed, State};
use std::alloc::Global;

/// The instruction of a number; None where the entry is none.
pub fn instruction<R: Register>(
    alloc: Global,
    register: &mut R,
    number: u64,
) -> Result<Option<Instructed>, Fault>
    requires stage { (R.view register.old).stage ≡ Stage.Idle }
    ensures found { IfTrusted (R.view register.old) (R.view register.new) (IfOk result (λ found. found ≡ instruction_at (history_of (R.view register.old).content) number)) }
    ensures read { IsRead result (R.view register.old) (R.view register.new) }
    ensures in_memory { R.in_memory ≡ true → IsOk result }
{
    match register.entry(alloc, number)? {
        Some(entry) => Ok(entry.instructed()),
        None => Ok(None),
    }
}

/// The unmatched instruction of a number; None where the entry is no instruction, or stands otherwise.
pub fn unmatched<R: Register>(
    alloc: Global,
    register: &mut R,
    number: u64,
) -> Result<Option<Instructed>, Fault>
    requires stage { (R.view register.old).stage ≡ Stage.Idle }
    ensures found { IfTrusted (R.view register.old) (R.view register.new) (IfOk result (λ found. found ≡ unmatched_in (R.view register.old).content number)) }
    ensures read { IsRead result (R.view register.old) (R.view register.new) }
    ensures in_memory { R.in_memory ≡ true → IsOk result }
{
    let standing = register.standing(alloc, number)?;
    match standing.state {
        State::Unmatched => instruction(alloc, register, number),
        _ => Ok(None),
    }
}
