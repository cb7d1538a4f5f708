//! A matched pair, as a register has it.
ghost use Rattle.std.specs.Prelude.{◌≡◌, ◌≢◌, true, is_some, option_and_then, Err, IfOk};
ghost use Rattle.desk_msg.specs.MessageType.{is_delivery};
ghost use Rattle.desk_rules.specs.Balances.{delivering, receiving};
ghost use Rattle.desk_rules.specs.Content.{history_of};
ghost use Rattle.desk_rules.specs.History.{instructed, instruction_at};
ghost use Rattle.desk_register.specs.View.{IfTrusted, IsRead};
ghost use Rattle.desk_report.specs.PendingReading.{IsLeg, IsPair, IsWaitingPair};

use desk_msg::Reason;
use desk_register::{Fault, Register, Stage};
use desk_rules::{Entry, Instructed, Place, Standing, State};
use std::alloc::Global;

/// An instruction of a pair.
#[derive(Clone, Copy)]
pub struct Leg {
    pub number: u64,
    pub instructed: Instructed,
    pub standing: Standing,
}

/// A matched pair that waits.
#[derive(Clone, Copy)]
pub struct WaitingPair {
    pub reason: Reason,
    pub later: Instructed,
    pub deliverer: Leg,
    pub receiver: Leg,
}

/// What was found under a number, where it is an instruction.
fn instruction_found(found: &Option<Entry>) -> Option<Instructed>
    ensures { result ≡ option_and_then instructed found.now }
{
    match found {
        Some(entry) => entry.instructed(),
        None => None,
    }
}

/// The instruction of a number, which there is. A store that answers none does not show what it holds: it is given up as one
/// that failed.
fn instruction<R: Register>(
    alloc: Global,
    register: &mut R,
    number: u64,
) -> Result<Instructed, Fault>
    requires stage { (R.view register.old).stage ≡ Stage.Idle }
    requires known { IfTrusted (R.view register.old) (R.view register.old) (is_some (instruction_at (history_of (R.view register.old).content) number) ≡ true) }
    ensures value { IfTrusted (R.view register.old) (R.view register.new) (IfOk result (λ found. instruction_at (history_of (R.view register.old).content) number ≡ Some found)) }
    ensures read { IsRead result (R.view register.old) (R.view register.new) }
    ensures in_memory { R.in_memory ≡ true → result ≢ Err Fault.Memory }
{
    let found = register.entry(alloc, number)?;
    match instruction_found(&found) {
        Some(found) => Ok(found),
        None => Err(Fault::Storage),
    }
}

/// The instruction of a number, which there is, and where it stands.
fn read_leg<R: Register>(alloc: Global, register: &mut R, number: u64) -> Result<Leg, Fault>
    requires stage { (R.view register.old).stage ≡ Stage.Idle }
    requires known { IfTrusted (R.view register.old) (R.view register.old) (is_some (instruction_at (history_of (R.view register.old).content) number) ≡ true) }
    ensures value { IfTrusted (R.view register.old) (R.view register.new) (IfOk result (λ leg. IsLeg (R.view register.old).content number leg)) }
    ensures read { IsRead result (R.view register.old) (R.view register.new) }
    ensures in_memory { R.in_memory ≡ true → result ≢ Err Fault.Memory }
{
    let instructed = instruction(alloc, register, number)?;
    let standing = register.standing(alloc, number)?;
    Ok(Leg {
        number,
        instructed,
        standing,
    })
}

/// The pair of two legs, which waits for a reason.
fn sided(reason: Reason, earlier: Leg, later: Leg) -> WaitingPair
    ensures reason { result.reason ≡ reason }
    ensures later { result.later ≡ later.instructed }
    ensures deliverer { result.deliverer ≡ delivering (is_delivery earlier.instructed.instruction.mt) earlier later }
    ensures receiver { result.receiver ≡ receiving (is_delivery earlier.instructed.instruction.mt) earlier later }
{
    if earlier.instructed.instruction.mt.is_delivery() {
        WaitingPair {
            reason,
            later: later.instructed,
            deliverer: earlier,
            receiver: later,
        }
    } else {
        WaitingPair {
            reason,
            later: later.instructed,
            deliverer: later,
            receiver: earlier,
        }
    }
}

/// The matched pair of a place. A store that answers for it what is no matched pair does not show what it holds: it is given up
/// as one that failed.
pub fn waiting_pair<R: Register>(
    alloc: Global,
    register: &mut R,
    place: Place,
) -> Result<WaitingPair, Fault>
    requires stage { (R.view register.old).stage ≡ Stage.Idle }
    requires known { IfTrusted (R.view register.old) (R.view register.old) (IsWaitingPair (R.view register.old).content place) }
    ensures value { IfTrusted (R.view register.old) (R.view register.new) (IfOk result (λ pair. IsPair (R.view register.old).content place pair)) }
    ensures read { IsRead result (R.view register.old) (R.view register.new) }
    ensures in_memory { R.in_memory ≡ true → result ≢ Err Fault.Memory }
{
    let later = read_leg(alloc, register, place.number)?;
    let Some(mate) = later.standing.mate else {
        return Err(Fault::Storage);
    };
    let State::Matched(reason) = later.standing.state else {
        return Err(Fault::Storage);
    };
    let earlier = read_leg(alloc, register, mate)?;
    Ok(sided(reason, earlier, later))
}
