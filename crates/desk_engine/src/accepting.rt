//! The one step by which an accepted entry is taken in: begun, applied, and committed or taken back.
ghost use Rattle.std.specs.Prelude.{◌≡◌, ◌≢◌, true, IfErr, IfOk, OnErr, OnOk};
ghost use Rattle.desk_rules.specs.Books.{Books};
ghost use Rattle.desk_rules.specs.WellFormed.{AreWellFormed, IsWellFormed};
ghost use Rattle.desk_register.specs.View.{Blames, IfTrusted, IsLater};
ghost use Rattle.desk_engine.specs.Accepting.{BlamesStep, IsDone, IsLeft, Recovers};
ghost use Rattle.desk_engine.specs.Applied.{CanApply, HasApplied, Keeps};
ghost use Rattle.desk_engine.specs.Sound.{LeavesSound};
ghost use Rattle.desk_engine.specs.Steps.{Breaks};

use crate::applied::Accepted;
use crate::applying::apply;
use desk_register::{Fault, Register, Stage};
use desk_rules::Entry;
use std::alloc::Global;

/// What a fault leaves of a register.
#[derive(Clone, Copy)]
pub enum Failure {
    /// Of this fault nothing is left: the register shows what it held before, with no `begin` open.
    Undone(Fault),
    /// What was done could not be taken back, or the register does not show what it holds: it should not be used
    /// further.
    Lost,
}

/// Takes back what was done, after a fault within a `begin`.
pub fn take_back<R: Register>(alloc: Global, register: &mut R, fault: Fault) -> Failure
    requires { (R.view register.old).stage ≢ Stage.Idle }
    ensures recovers { Recovers fault result (R.view register.old).mark (R.view register.old) (R.view register.new) }
    ensures in_memory { R.in_memory ≡ true → result ≢ Failure.Lost }
{
    match register.back(alloc) {
        Ok(()) => Failure::Undone(fault),
        Err(_) => Failure::Lost,
    }
}

/// Tries, after a fault with no `begin` open, whether the register still shows what it holds.
pub fn recover<R: Register>(alloc: Global, register: &mut R, fault: Fault) -> Failure
    requires { (R.view register.old).stage ≡ Stage.Idle }
    ensures recovers { Recovers fault result (R.view register.old).content (R.view register.old) (R.view register.new) }
    ensures in_memory { R.in_memory ≡ true → result ≢ Failure.Lost }
{
    match register.begin(alloc) {
        Ok(()) => take_back(alloc, register, fault),
        Err(_) => Failure::Lost,
    }
}

/// Takes an accepted entry into the tables, and keeps it.
fn put<R: Register>(alloc: Global, register: &mut R, entry: Entry) -> Result<Accepted, Fault>
    requires stage { (R.view register.old).stage ≡ Stage.Begun }
    requires accepted { IfTrusted (R.view register.old) (R.view register.old) (CanApply (R.view register.old).room entry (R.view register.old).content) }
    ensures put { (books : Books) → IfTrusted (R.view register.old) (R.view register.new) (Keeps (R.view register.old).room books (R.view register.old).content
        → IfOk result (λ accepted. HasApplied (R.view register.old).room books entry accepted (R.view register.new).content)) }
    ensures ok { OnOk result (IsDone (R.view register.old) (R.view register.new)) }
    ensures err { OnErr result (Breaks (R.view register.old) (R.view register.new)) }
    ensures later { IsLater (R.view register.old) (R.view register.new) }
    ensures blame { Blames result (R.view register.old) (R.view register.new) }
{
    let accepted = apply(alloc, register, entry)?;
    register.commit(alloc)?;
    Ok(accepted)
}

/// Takes an entry that `decide` accepts into the tables, with all that follows from it, within a `begin` of its own, and
/// keeps it. Answers how it fared, with its reply, as it is kept with it. What the register keeps then is sound, and stays
/// so after a failure of which nothing is left.
pub fn accept<R: Register>(
    alloc: Global,
    register: &mut R,
    entry: Entry,
) -> Result<Accepted, Failure>
    requires stage { (R.view register.old).stage ≡ Stage.Idle }
    requires accepted { IfTrusted (R.view register.old) (R.view register.old) (CanApply (R.view register.old).room entry (R.view register.old).content) }
    ensures accepted { (books : Books) → IfTrusted (R.view register.old) (R.view register.new) (Keeps (R.view register.old).room books (R.view register.old).content
        → IfOk result (λ accepted. HasApplied (R.view register.old).room books entry accepted (R.view register.new).content)) }
    ensures sound { (books : Books) → IfTrusted (R.view register.old) (R.view register.new) (Keeps (R.view register.old).room books (R.view register.old).content
        → AreWellFormed books.history → IsWellFormed entry → LeavesSound books entry result (R.view register.new).content) }
    ensures ok { OnOk result (IsDone (R.view register.old) (R.view register.new)) }
    ensures err { IfErr result (λ failure. IsLeft failure (R.view register.old).content (R.view register.new)) }
    ensures later { IsLater (R.view register.old) (R.view register.new) }
    ensures blame { BlamesStep result (R.view register.old) (R.view register.new) }
    ensures in_memory { R.in_memory ≡ true → IfErr result (λ failure. failure ≢ Failure.Lost) }
{
    if let Err(fault) = register.begin(alloc) {
        return Err(recover(alloc, register, fault));
    }
    match put(alloc, register, entry) {
        Ok(accepted) => Ok(accepted),
        Err(fault) => Err(take_back(alloc, register, fault)),
    }
}
