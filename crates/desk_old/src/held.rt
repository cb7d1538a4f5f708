//! The entries that a register holds.
ghost use Rattle.std.specs.Prelude.{◌≡◌, true, IfErr, IfOk};
ghost use Rattle.desk_register.specs.View.{IfTrusted};
ghost use Rattle.desk_rules.specs.Content.{history_of};

use desk_register::{Fault, Register, Stage};
use desk_rules::Entry;
use std::alloc::Global;

/// All entries that a register holds, in their order. A number below the last that has none is told as a storage fault.
pub fn entries_held<R: Register>(alloc: Global, register: &mut R) -> Result<Vec<Entry>, Fault>
    requires { (R.view register.old).stage ≡ Stage.Idle }
    ensures all { IfTrusted (R.view register.old) (R.view register.new) (IfOk result (λ entries. entries.items ≡ history_of (R.view register.old).content)) }
    ensures fault { R.in_memory ≡ true → IfTrusted (R.view register.old) (R.view register.new) (IfErr result (λ fault. fault ≡ Fault.Memory)) }
{
    let count = register.count(alloc)?;
    let mut entries = Vec::new(alloc);
    for before in 0..count {
        match register.entry(alloc, before + 1)? {
            Some(entry) => {
                entries.reserve(1)?;
                entries.push(entry).unwrap();
            }
            None => return Err(Fault::Storage),
        }
    }
    Ok(entries)
}
