//! What the desk sends while it takes an entry in: an advice to the earlier party of a pair, and a confirmation to each
//! party of a settlement.
ghost use Rattle.std.specs.Prelude.{◌≡◌, ◌+◌, ◌*◌, ◌<◌, ◌≤◌, length, IfOk, IfSome, OnOk, Some, ℕ};
ghost use Rattle.desk_register.specs.View.{IfTrusted, IsRead};
ghost use Rattle.desk_register.specs.Changes.{IsPairAt};
ghost use Rattle.desk_register.specs.Told.{IsKnownAt};
ghost use Rattle.desk_rules.specs.declared.history.entry.Instructed.{Instructed as InstructedValue};
ghost use Rattle.desk_rules.specs.Content.{history_of};
ghost use Rattle.desk_rules.specs.History.{instruction_at};
ghost use Rattle.desk_rules.specs.declared.limits.TheConstants.{MOST_SENT, SENT_A_PAIR};
ghost use Rattle.desk_engine.specs.Steps.{IsStep};
ghost use Rattle.desk_engine.specs.Sending.{with_advised, with_both_confirmed, with_confirmed};

use desk_codes::Day;
use desk_register::{Fault, KnownPair, Register, Stage};
use desk_rules::{Entry, Instructed, SENT_A_PAIR, pairing_advice, settlement_confirmation};
use std::alloc::Global;

/// The number of the next message among all that are sent, where one may be sent.
fn next_message<R: Register>(alloc: Global, register: &mut R) -> Result<u64, Fault>
    requires { (R.view register.old).stage ≡ Stage.Begun }
    ensures value { IfTrusted (R.view register.old) (R.view register.new) (length (R.view register.old).content.sent < SENT_A_PAIR * (R.view register.old).room
        → IfOk result (λ number. number ≡ length (R.view register.old).content.sent + 1)) }
    ensures most { IfOk result (λ number. number ≤ MOST_SENT) }
    ensures read { IsRead result (R.view register.old) (R.view register.new) }
{
    let most = SENT_A_PAIR * register.limit();
    let count = register.sent_count(alloc)?;
    if count < most {
        return Ok(count + 1);
    }
    Ok(most)
}

/// The instruction of a number, and who sent it; None where there is none.
fn instructed<R: Register>(
    alloc: Global,
    register: &mut R,
    number: u64,
) -> Result<Option<Instructed>, Fault>
    requires { (R.view register.old).stage ≡ Stage.Begun }
    ensures value { IfTrusted (R.view register.old) (R.view register.new) (IfOk result (λ found. found ≡ instruction_at (history_of (R.view register.old).content) number)) }
    ensures read { IsRead result (R.view register.old) (R.view register.new) }
{
    let found = register.entry(alloc, number)?;
    match &found {
        Some(entry) => Ok(entry.instructed()),
        None => Ok(None),
    }
}

/// Tells the sender of an instruction, by its number, that it was paired.
pub fn advise<R: Register>(alloc: Global, register: &mut R, about: u64) -> Result<(), Fault>
    requires stage { (R.view register.old).stage ≡ Stage.Begun }
    requires room { IfTrusted (R.view register.old) (R.view register.old) (length (R.view register.old).content.sent < SENT_A_PAIR * (R.view register.old).room) }
    ensures sent { IfTrusted (R.view register.old) (R.view register.new) (OnOk result ((R.view register.new).content ≡ with_advised about (R.view register.old).content)) }
    ensures step { IsStep result (R.view register.old) (R.view register.new) }
{
    let Some(paired) = instructed(alloc, register, about)? else {
        return Ok(());
    };
    let number = next_message(alloc, register)?;
    let message = pairing_advice(alloc, number, about, &paired)?;
    register.send(alloc, message)
}

/// The pair of a number, that of its later instruction; None where there is none.
fn pair_of<R: Register>(
    alloc: Global,
    register: &mut R,
    number: u64,
) -> Result<Option<KnownPair>, Fault>
    requires { (R.view register.old).stage ≡ Stage.Begun }
    ensures found { (mate : ℕ) (earlier later : InstructedValue) → IfTrusted (R.view register.old) (R.view register.new) (IsPairAt (R.view register.old).content number mate earlier later
        → IfOk result (λ found. found ≡ Some (record { mate = mate; number = number; earlier = earlier; later = later }))) }
    ensures known { IfTrusted (R.view register.old) (R.view register.new) (IfOk result (λ found. IfSome found (λ pair. IsKnownAt (R.view register.old).content number pair))) }
    ensures read { IsRead result (R.view register.old) (R.view register.new) }
{
    let standing = register.standing(alloc, number)?;
    let Some(mate) = standing.mate else {
        return Ok(None);
    };
    let earlier = instructed(alloc, register, mate)?;
    let later = instructed(alloc, register, number)?;
    Ok(pair_between(mate, number, earlier, later))
}

/// The pair of two numbers, where both are those of instructions.
fn pair_between(
    mate: u64,
    number: u64,
    earlier: Option<Instructed>,
    later: Option<Instructed>,
) -> Option<KnownPair>
    ensures found { (first second : InstructedValue) → earlier ≡ Some first → later ≡ Some second → result ≡ Some (record { mate = mate; number = number; earlier = first; later = second }) }
    ensures made { IfSome result (λ p. (p.mate ≡ mate) × (p.number ≡ number) × (earlier ≡ Some p.earlier) × (later ≡ Some p.later)) }
{
    Some(KnownPair {
        mate,
        number,
        earlier: earlier?,
        later: later?,
    })
}

/// Confirms to the sender of an instruction, with its number, that a run of this day settled it.
fn confirm<R: Register>(
    alloc: Global,
    register: &mut R,
    about: u64,
    settled: &Instructed,
    day: Day,
) -> Result<(), Fault>
    requires stage { (R.view register.old).stage ≡ Stage.Begun }
    requires room { IfTrusted (R.view register.old) (R.view register.old) (length (R.view register.old).content.sent < SENT_A_PAIR * (R.view register.old).room) }
    ensures sent { IfTrusted (R.view register.old) (R.view register.new) (instruction_at (history_of (R.view register.old).content) about ≡ Some settled.now
        → OnOk result ((R.view register.new).content ≡ with_confirmed about day (R.view register.old).content)) }
    ensures step { IsStep result (R.view register.old) (R.view register.new) }
{
    let number = next_message(alloc, register)?;
    let message = settlement_confirmation(alloc, number, about, settled, day)?;
    register.send(alloc, message)
}

/// Confirms both instructions of a pair, the deliverer's first.
fn confirm_both<R: Register>(
    alloc: Global,
    register: &mut R,
    pair: &KnownPair,
    day: Day,
) -> Result<(), Fault>
    requires stage { (R.view register.old).stage ≡ Stage.Begun }
    requires room { IfTrusted (R.view register.old) (R.view register.old) (length (R.view register.old).content.sent + 1 < SENT_A_PAIR * (R.view register.old).room) }
    requires known { IfTrusted (R.view register.old) (R.view register.old) (IsPairAt (R.view register.old).content pair.now.number pair.now.mate pair.now.earlier pair.now.later) }
    ensures sent { IfTrusted (R.view register.old) (R.view register.new) (OnOk result ((R.view register.new).content ≡ with_both_confirmed pair.now.mate pair.now.number pair.now.earlier day (R.view register.old).content)) }
    ensures step { IsStep result (R.view register.old) (R.view register.new) }
{
    let (delivering, receiving) = pair.numbers();
    confirm(alloc, register, delivering, pair.deliverer(), day)?;
    confirm(alloc, register, receiving, pair.receiver(), day)
}

/// Confirms the settlement of a pair, by the number of its later instruction, to both parties: to the deliverer first.
pub fn confirm_settlement<R: Register>(
    alloc: Global,
    register: &mut R,
    number: u64,
    day: Day,
) -> Result<(), Fault>
    requires stage { (R.view register.old).stage ≡ Stage.Begun }
    requires room { IfTrusted (R.view register.old) (R.view register.old) (length (R.view register.old).content.sent + 1 < SENT_A_PAIR * (R.view register.old).room) }
    ensures sent { (mate : ℕ) (earlier later : InstructedValue) → IfTrusted (R.view register.old) (R.view register.new) (IsPairAt (R.view register.old).content number mate earlier later
        → OnOk result ((R.view register.new).content ≡ with_both_confirmed mate number earlier day (R.view register.old).content)) }
    ensures step { IsStep result (R.view register.old) (R.view register.new) }
{
    let Some(pair) = pair_of(alloc, register, number)? else {
        return Ok(());
    };
    confirm_both(alloc, register, &pair, day)
}
