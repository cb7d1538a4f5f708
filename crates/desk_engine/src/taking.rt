//! One entry that was kept, taken in once more.
ghost use Rattle.std.specs.Prelude.{◌≡◌, ◌≢◌, true, List, IfErr, IfOk, OnOk};
ghost use Rattle.desk_rules.specs.Books.{Books};
ghost use Rattle.desk_rules.specs.declared.answers.reply.Kept.{Kept};
ghost use Rattle.desk_register.specs.View.{IfTrusted, IsLater};
ghost use Rattle.desk_engine.specs.Accepting.{BlamesStep, IsDone, IsLeft};
ghost use Rattle.desk_engine.specs.Applied.{CanApply, Keeps};
ghost use Rattle.desk_engine.specs.KeptHistory.{HoldsKept, KeepsSome};
ghost use Rattle.desk_engine.specs.Taken.{IsCompared, IsDecided, IsNext};

use crate::accepting::{Failure, accept, recover};
use crate::decision::decide;
use crate::same::is_reply;
use desk_register::{Register, Stage};
use desk_rules::{Entry, Kept, Reply, Verdict};
use std::alloc::Global;

/// Takes an accepted entry in, and answers its reply.
fn take_accepted<R: Register>(
    alloc: Global,
    register: &mut R,
    entry: Entry,
) -> Result<Option<Reply>, Failure>
    requires stage { (R.view register.old).stage ≡ Stage.Idle }
    requires accepted { IfTrusted (R.view register.old) (R.view register.old) (CanApply (R.view register.old).room entry (R.view register.old).content) }
    ensures decided { (books : Books) → IfTrusted (R.view register.old) (R.view register.new) (Keeps (R.view register.old).room books (R.view register.old).content
        → IfOk result (λ reply. IsDecided (R.view register.old).room books entry reply (R.view register.old).content (R.view register.new).content)) }
    ensures ok { OnOk result (IsDone (R.view register.old) (R.view register.new)) }
    ensures err { IfErr result (λ failure. IsLeft failure (R.view register.old).content (R.view register.new)) }
    ensures later { IsLater (R.view register.old) (R.view register.new) }
    ensures blame { BlamesStep result (R.view register.old) (R.view register.new) }
    ensures in_memory { R.in_memory ≡ true → IfErr result (λ failure. failure ≢ Failure.Lost) }
{
    match accept(alloc, register, entry) {
        Ok(accepted) => Ok(Some(accepted.reply)),
        Err(failure) => Err(failure),
    }
}

/// Decides on an entry, and takes it in where it is accepted. Answers its reply then, else None.
fn take_in<R: Register>(
    alloc: Global,
    register: &mut R,
    entry: Entry,
) -> Result<Option<Reply>, Failure>
    requires stage { (R.view register.old).stage ≡ Stage.Idle }
    requires keeps { IfTrusted (R.view register.old) (R.view register.old) (KeepsSome (R.view register.old).room (R.view register.old).content) }
    ensures decided { (books : Books) → IfTrusted (R.view register.old) (R.view register.new) (Keeps (R.view register.old).room books (R.view register.old).content
        → IfOk result (λ reply. IsDecided (R.view register.old).room books entry reply (R.view register.old).content (R.view register.new).content)) }
    ensures ok { OnOk result (IsDone (R.view register.old) (R.view register.new)) }
    ensures err { IfErr result (λ failure. IsLeft failure (R.view register.old).content (R.view register.new)) }
    ensures later { IsLater (R.view register.old) (R.view register.new) }
    ensures blame { BlamesStep result (R.view register.old) (R.view register.new) }
    ensures in_memory { R.in_memory ≡ true → IfErr result (λ failure. failure ≢ Failure.Lost) }
{
    match decide(alloc, register, &entry) {
        Ok(Verdict::Accept) => take_accepted(alloc, register, entry),
        Ok(Verdict::Repeat(_)) => Ok(None),
        Ok(Verdict::Refuse(_)) => Ok(None),
        Err(fault) => Err(recover(alloc, register, fault)),
    }
}

/// Takes in one entry that was kept, a run by the rule that it names: decides on it, takes it in where it is accepted, and
/// compares the reply that it gets with the kept one. True exactly where it is accepted with that reply; then it is kept
/// as the next entry. Where it is not accepted, nothing changes; where it got another reply, it is kept with that one.
///
/// That the entry is well formed is not asked: the verdict does not look at it, and `Keeps` does not say it. After a
/// failure of which nothing is left the register shows what it held.
pub fn take_kept<R: Register>(alloc: Global, register: &mut R, kept: &Kept) -> Result<bool, Failure>
    requires stage { (R.view register.old).stage ≡ Stage.Idle }
    requires keeps { IfTrusted (R.view register.old) (R.view register.old) (KeepsSome (R.view register.old).room (R.view register.old).content) }
    ensures compared { (books : Books) → IfTrusted (R.view register.old) (R.view register.new) (Keeps (R.view register.old).room books (R.view register.old).content
        → IfOk result (λ taken. IsCompared (R.view register.old).room books kept.now taken (R.view register.old).content (R.view register.new).content)) }
    ensures next { (before : List Kept) → IfTrusted (R.view register.old) (R.view register.new) (HoldsKept (R.view register.old).room before (R.view register.old).content
        → IfOk result (λ taken. IsNext (R.view register.old).room before kept.now taken (R.view register.new).content)) }
    ensures ok { OnOk result (IsDone (R.view register.old) (R.view register.new)) }
    ensures err { IfErr result (λ failure. IsLeft failure (R.view register.old).content (R.view register.new)) }
    ensures later { IsLater (R.view register.old) (R.view register.new) }
    ensures blame { BlamesStep result (R.view register.old) (R.view register.new) }
    ensures in_memory { R.in_memory ≡ true → IfErr result (λ failure. failure ≢ Failure.Lost) }
{
    let reply = take_in(alloc, register, kept.entry)?;
    Ok(is_reply(&reply, &kept.reply))
}
