//! The entries, one by one.
ghost use Rattle.std.specs.Prelude.{◌≡◌, ◌≢◌, true, is_some, Some, Err, IfOk};
ghost use Rattle.desk_rules.specs.Content.{history_of};
ghost use Rattle.desk_rules.specs.History.{entry_at};
ghost use Rattle.desk_register.specs.View.{IfTrusted, IsRead};

use desk_register::{Fault, Register, Stage};
use desk_rules::Entry;
use std::alloc::Global;

/// The entry of a number. A store that has none of a number up to the count does not show what it holds: it is given up as one
/// that failed.
pub fn entry_of<R: Register>(alloc: Global, register: &mut R, number: u64) -> Result<Entry, Fault>
    requires stage { (R.view register.old).stage ≡ Stage.Idle }
    requires known { IfTrusted (R.view register.old) (R.view register.old) (is_some (entry_at (history_of (R.view register.old).content) number) ≡ true) }
    ensures entry { IfTrusted (R.view register.old) (R.view register.new) (IfOk result (λ entry. entry_at (history_of (R.view register.old).content) number ≡ Some entry)) }
    ensures read { IsRead result (R.view register.old) (R.view register.new) }
    ensures in_memory { R.in_memory ≡ true → result ≢ Err Fault.Memory }
{
    let Some(entry) = register.entry(alloc, number)? else {
        return Err(Fault::Storage);
    };
    Ok(entry)
}
