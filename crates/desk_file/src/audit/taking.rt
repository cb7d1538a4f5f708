//! An entry that was kept, taken into a register.
ghost use Rattle.std.specs.Prelude.{◌≡◌, true, List, IfOk, OnOk};
ghost use Rattle.desk_rules.specs.declared.answers.reply.Kept.{Kept};
ghost use Rattle.desk_register.specs.declared.register.Fault.{Fault};
ghost use Rattle.desk_register.specs.View.{IfTrusted, IsLater};
ghost use Rattle.desk_engine.specs.Accepting.{IsDone};
ghost use Rattle.desk_engine.specs.declared.accepting.Failure.TheVariants.{Undone};
ghost use Rattle.desk_engine.specs.KeptHistory.{HoldsKept, KeepsSome};
ghost use Rattle.desk_engine.specs.Taken.{IsNext};
ghost use Rattle.desk_file.specs.Taking.{BlamesTaking};

use desk_engine::{Failure, take_kept};
use desk_register::{Fault, Register, Stage};
use desk_rules::Kept;
use std::alloc::Global;

/// The fault behind a failure. A register that is lost is told as a device that failed; one in memory is never lost.
fn fault_of(failure: Failure) -> Fault
    ensures undone { (fault : Fault) → failure ≡ Undone fault → result ≡ fault }
    ensures lost { failure ≡ Failure.Lost → result ≡ Fault.Storage }
{
    match failure {
        Failure::Undone(fault) => fault,
        Failure::Lost => Fault::Storage,
    }
}

/// Takes an entry into a register. True only where it is accepted with the reply that was kept.
pub fn take<R: Register>(alloc: Global, register: &mut R, kept: &Kept) -> Result<bool, Fault>
    requires stage { (R.view register.old).stage ≡ Stage.Idle }
    requires keeps { IfTrusted (R.view register.old) (R.view register.old) (KeepsSome (R.view register.old).room (R.view register.old).content) }
    ensures next { (before : List Kept) → IfTrusted (R.view register.old) (R.view register.new) (HoldsKept (R.view register.old).room before (R.view register.old).content
        → IfOk result (λ taken. IsNext (R.view register.old).room before kept.now taken (R.view register.new).content)) }
    ensures ok { OnOk result (IsDone (R.view register.old) (R.view register.new)) }
    ensures later { IsLater (R.view register.old) (R.view register.new) }
    ensures blame { R.in_memory ≡ true → BlamesTaking result (R.view register.old) (R.view register.new) }
{
    match take_kept(alloc, register, kept) {
        Ok(taken) => Ok(taken),
        Err(failure) => Err(fault_of(failure)),
    }
}
