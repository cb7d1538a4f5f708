//! The tables of a history, made anew.
ghost use Rattle.std.specs.Prelude.{◌≡◌, ◌≢◌, true, [], IfErr, IfOk, OnErr, OnOk};
ghost use Rattle.desk_rules.specs.Verdict.{WasAccepted};
ghost use Rattle.desk_register.specs.View.{Blames, IfTrusted, IsLater};
ghost use Rattle.desk_engine.specs.Accepting.{BlamesStep, IsDone, IsLeft};
ghost use Rattle.desk_engine.specs.KeptHistory.{HoldsKept};
ghost use Rattle.desk_engine.specs.Rebuilt.{HoldsEntries, KeepsEntries};
ghost use Rattle.desk_engine.specs.Steps.{Breaks, IsStep};

use crate::accepting::{Failure, recover, take_back};
use crate::applying::apply;
use desk_register::{Fault, Register, Stage};
use desk_rules::Entry;
use std::alloc::Global;

/// Takes the entries into the tables, each in its turn, within an open `begin`.
fn apply_all<R: Register>(alloc: Global, entries: &[Entry], register: &mut R) -> Result<(), Fault>
    requires stage { (R.view register.old).stage ≡ Stage.Begun }
    requires empty { IfTrusted (R.view register.old) (R.view register.old) (KeepsEntries (R.view register.old).room [] (R.view register.old).content) }
    requires accepted { IfTrusted (R.view register.old) (R.view register.old) (WasAccepted (R.view register.old).room entries.now) }
    ensures keeps { IfTrusted (R.view register.old) (R.view register.new) (OnOk result (KeepsEntries (R.view register.old).room entries.now (R.view register.new).content)) }
    ensures step { IsStep result (R.view register.old) (R.view register.new) }
{
    for entry in entries {
        apply(alloc, register, *entry)?;
    }
    Ok(())
}

/// Takes the entries into the tables, and keeps them, all at once.
fn put_all<R: Register>(alloc: Global, entries: &[Entry], register: &mut R) -> Result<(), Fault>
    requires stage { (R.view register.old).stage ≡ Stage.Begun }
    requires empty { IfTrusted (R.view register.old) (R.view register.old) (KeepsEntries (R.view register.old).room [] (R.view register.old).content) }
    requires accepted { IfTrusted (R.view register.old) (R.view register.old) (WasAccepted (R.view register.old).room entries.now) }
    ensures keeps { IfTrusted (R.view register.old) (R.view register.new) (OnOk result (KeepsEntries (R.view register.old).room entries.now (R.view register.new).content)) }
    ensures ok { OnOk result (IsDone (R.view register.old) (R.view register.new)) }
    ensures err { OnErr result (Breaks (R.view register.old) (R.view register.new)) }
    ensures later { IsLater (R.view register.old) (R.view register.new) }
    ensures blame { Blames result (R.view register.old) (R.view register.new) }
{
    apply_all(alloc, entries, register)?;
    register.commit(alloc)
}

/// Makes the tables of a history anew: takes its entries into a register that holds nothing, each in its turn, a run by the
/// rule that it names, and keeps them all at once. Each gets its reply again. None of them is decided on, so they are to be
/// ones that were accepted in their turn. The register should be given up after a failure.
pub fn rebuild<R: Register>(
    alloc: Global,
    entries: &[Entry],
    register: &mut R,
) -> Result<(), Failure>
    requires stage { (R.view register.old).stage ≡ Stage.Idle }
    requires empty { IfTrusted (R.view register.old) (R.view register.old) (HoldsKept (R.view register.old).room [] (R.view register.old).content) }
    requires accepted { IfTrusted (R.view register.old) (R.view register.old) (WasAccepted (R.view register.old).room entries.now) }
    ensures holds { IfTrusted (R.view register.old) (R.view register.new) (OnOk result (HoldsEntries (R.view register.old).room entries.now (R.view register.new).content)) }
    ensures ok { OnOk result (IsDone (R.view register.old) (R.view register.new)) }
    ensures err { IfErr result (λ failure. IsLeft failure (R.view register.old).content (R.view register.new)) }
    ensures later { IsLater (R.view register.old) (R.view register.new) }
    ensures blame { BlamesStep result (R.view register.old) (R.view register.new) }
    ensures in_memory { R.in_memory ≡ true → IfErr result (λ failure. failure ≢ Failure.Lost) }
{
    if let Err(fault) = register.begin(alloc) {
        return Err(recover(alloc, register, fault));
    }
    match put_all(alloc, entries, register) {
        Ok(()) => Ok(()),
        Err(fault) => Err(take_back(alloc, register, fault)),
    }
}
