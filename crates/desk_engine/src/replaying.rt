//! A whole list of entries that were kept, taken in once more.
ghost use Rattle.std.specs.Prelude.{◌≡◌, ◌≢◌, ◌↔◌, true, [], IfErr, IfOk, IsTrue, OnOk};
ghost use Rattle.desk_register.specs.View.{IfTrusted, IsLater};
ghost use Rattle.desk_engine.specs.Accepting.{BlamesStep, IsDone};
ghost use Rattle.desk_engine.specs.KeptHistory.{CanBeKept, HoldsKept};
ghost use Rattle.desk_engine.specs.Replayed.{BreaksOff};

use crate::accepting::Failure;
use crate::taking::take_kept;
use desk_register::{Register, Stage};
use desk_rules::Kept;
use std::alloc::Global;

/// Takes a list that was kept into a register that holds nothing, from the first entry on. True exactly where a desk can
/// have kept it: each entry is accepted in its turn, and each reply is the one that it gets. Then the register holds the
/// list, with all that follows from it; where it is false, the register should be given up. A failure leaves nothing of the
/// entry that it came in: the first ones stay taken in.
pub fn replay<R: Register>(alloc: Global, register: &mut R, kept: &[Kept]) -> Result<bool, Failure>
    requires stage { (R.view register.old).stage ≡ Stage.Idle }
    requires empty { IfTrusted (R.view register.old) (R.view register.old) (HoldsKept (R.view register.old).room [] (R.view register.old).content) }
    ensures exact { IfTrusted (R.view register.old) (R.view register.new) (IfOk result (λ all. IsTrue all ↔ CanBeKept (R.view register.old).room kept.now)) }
    ensures held { IfTrusted (R.view register.old) (R.view register.new) (IfOk result (λ all. IsTrue all → HoldsKept (R.view register.old).room kept.now (R.view register.new).content)) }
    ensures ok { OnOk result (IsDone (R.view register.old) (R.view register.new)) }
    ensures err { IfErr result (λ failure. BreaksOff failure kept.now (R.view register.old) (R.view register.new)) }
    ensures later { IsLater (R.view register.old) (R.view register.new) }
    ensures blame { BlamesStep result (R.view register.old) (R.view register.new) }
    ensures in_memory { R.in_memory ≡ true → IfErr result (λ failure. failure ≢ Failure.Lost) }
{
    for one in kept {
        if !take_kept(alloc, register, one)? {
            return Ok(false);
        }
    }
    Ok(true)
}
