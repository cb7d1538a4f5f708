//! How entries fare by now.
ghost use Rattle.std.specs.Prelude.{◌≡◌, IfOk};
ghost use Rattle.desk_rules.specs.Books.{Books};
ghost use Rattle.desk_rules.specs.Pairing.{mate_of};
ghost use Rattle.desk_rules.specs.Sent.{notices_of};
ghost use Rattle.desk_rules.specs.Standing.{state_of};
ghost use Rattle.desk_rules.specs.Tables.{AreTables};
ghost use Rattle.desk_rules.specs.declared.history.standing.State.TheVariants.{Settled};
ghost use Rattle.desk_rules.specs.Verdict.{named_by};
ghost use Rattle.desk_register.specs.View.{IfTrusted, IsRead};
ghost use Rattle.desk_journal.specs.Outcomes.{cancel_outcome, instructed_outcome, outcome_of, state_if};
ghost use Rattle.desk_journal.specs.Runs.{settled_in};
ghost use Rattle.desk_journal.specs.Sending.{HoldsBooks, HoldsEntry};

use crate::rows::journal::Outcome;
use crate::runs::{counts_of_run, day_of_run};
use crate::sending::confirmed_place;
use desk_codes::Bic;
use desk_engine::instruction_named;
use desk_msg::CancelOrder;
use desk_register::{Fault, Register, Stage};
use desk_rules::{Entry, Notice, State};
use std::alloc::Global;

/// The run that settled an instruction; None where it is not settled.
fn run_of_settled<R: Register>(
    alloc: Global,
    register: &mut R,
    notices: &[Notice],
    number: u64,
) -> Result<Option<u64>, Fault>
    requires stage { (R.view register.old).stage ≡ Stage.Idle }
    requires known { IfTrusted (R.view register.old) (R.view register.old) (HoldsBooks (R.view register.old).content) }
    ensures run { (books : Books) → IfTrusted (R.view register.old) (R.view register.new) (AreTables books (R.view register.old).content → notices.now ≡ notices_of books
        → state_of books number ≡ Settled → IfOk result (λ run. run ≡ settled_in books number)) }
    ensures read { IsRead result (R.view register.old) (R.view register.new) }
{
    let Some(place) = confirmed_place(alloc, register, number)? else {
        return Ok(None);
    };
    match notices.get(place) {
        Some(notice) => Ok(notice.run),
        None => Ok(None),
    }
}

/// How a settled instruction fares, which has this mate.
fn settled_outcome<R: Register>(
    alloc: Global,
    register: &mut R,
    notices: &[Notice],
    number: u64,
    mate: Option<u64>,
) -> Result<Outcome, Fault>
    requires stage { (R.view register.old).stage ≡ Stage.Idle }
    requires known { IfTrusted (R.view register.old) (R.view register.old) (HoldsBooks (R.view register.old).content) }
    ensures outcome { (books : Books) → IfTrusted (R.view register.old) (R.view register.new) (AreTables books (R.view register.old).content → notices.now ≡ notices_of books
        → state_of books number ≡ Settled → mate ≡ mate_of books.pairs number → IfOk result (λ outcome. outcome ≡ instructed_outcome books number Settled)) }
    ensures read { IsRead result (R.view register.old) (R.view register.new) }
{
    let run = run_of_settled(alloc, register, notices, number)?;
    let day = match run {
        Some(run) => day_of_run(alloc, register, run)?,
        None => None,
    };
    Ok(Outcome::Settled { mate, run, day })
}

/// How an instruction fares.
fn instruction_outcome<R: Register>(
    alloc: Global,
    register: &mut R,
    notices: &[Notice],
    number: u64,
) -> Result<Outcome, Fault>
    requires stage { (R.view register.old).stage ≡ Stage.Idle }
    requires known { IfTrusted (R.view register.old) (R.view register.old) (HoldsBooks (R.view register.old).content) }
    ensures outcome { (books : Books) → IfTrusted (R.view register.old) (R.view register.new) (AreTables books (R.view register.old).content → notices.now ≡ notices_of books
        → IfOk result (λ outcome. outcome ≡ instructed_outcome books number (state_of books number))) }
    ensures read { IsRead result (R.view register.old) (R.view register.new) }
{
    let standing = register.standing(alloc, number)?;
    let mate = standing.mate;
    match standing.state {
        State::Unmatched => Ok(Outcome::Unmatched),
        State::Matched(reason) => Ok(Outcome::Matched { mate, reason }),
        State::Settled => settled_outcome(alloc, register, notices, number, mate),
        State::Cancelled => Ok(Outcome::Cancelled { mate }),
        State::NoInstruction => Ok(Outcome::Booked),
    }
}

/// Where the instruction of a number stands, if there is one.
fn state_named<R: Register>(
    alloc: Global,
    register: &mut R,
    number: Option<u64>,
) -> Result<State, Fault>
    requires stage { (R.view register.old).stage ≡ Stage.Idle }
    ensures state { (books : Books) → IfTrusted (R.view register.old) (R.view register.new) (AreTables books (R.view register.old).content → IfOk result (λ state. state ≡ state_if books number)) }
    ensures read { IsRead result (R.view register.old) (R.view register.new) }
{
    let Some(number) = number else {
        return Ok(State::NoInstruction);
    };
    let standing = register.standing(alloc, number)?;
    Ok(standing.state)
}

/// How a cancellation fares of an instruction that stands so.
fn cancellation_told(instruction: Option<u64>, state: State) -> Outcome
    ensures { result ≡ cancel_outcome instruction state }
{
    match state {
        State::Cancelled => Outcome::CancelDone { instruction },
        State::Settled => Outcome::CancelLate { instruction },
        _ => Outcome::CancelWaits { instruction },
    }
}

/// How a cancellation fares.
fn cancellation_outcome<R: Register>(
    alloc: Global,
    register: &mut R,
    sender: &Bic,
    order: &CancelOrder,
) -> Result<Outcome, Fault>
    requires stage { (R.view register.old).stage ≡ Stage.Idle }
    ensures outcome { (books : Books) → IfTrusted (R.view register.old) (R.view register.new) (AreTables books (R.view register.old).content
        → IfOk result (λ outcome. outcome ≡ cancel_outcome (named_by books.history sender.now order.now) (state_if books (named_by books.history sender.now order.now)))) }
    ensures read { IsRead result (R.view register.old) (R.view register.new) }
{
    let instruction = instruction_named(alloc, register, sender, order)?;
    let state = state_named(alloc, register, instruction)?;
    Ok(cancellation_told(instruction, state))
}

/// How the entry of a number fares by now, by the notices of all that was sent.
pub fn outcome<R: Register>(
    alloc: Global,
    register: &mut R,
    notices: &[Notice],
    number: u64,
    entry: &Entry,
) -> Result<Outcome, Fault>
    requires stage { (R.view register.old).stage ≡ Stage.Idle }
    requires known { IfTrusted (R.view register.old) (R.view register.old) (HoldsEntry (R.view register.old).content number entry.now) }
    ensures outcome { (books : Books) → IfTrusted (R.view register.old) (R.view register.new) (AreTables books (R.view register.old).content → notices.now ≡ notices_of books
        → IfOk result (λ outcome. outcome ≡ outcome_of books number entry.now)) }
    ensures read { IsRead result (R.view register.old) (R.view register.new) }
{
    match entry {
        Entry::Instruct { .. } => instruction_outcome(alloc, register, notices, number),
        Entry::Cancel { sender, order } => cancellation_outcome(alloc, register, sender, order),
        Entry::Run { .. } => {
            let (settled, waiting) = counts_of_run(alloc, register, number)?;
            Ok(Outcome::Ran { settled, waiting })
        }
        _ => Ok(Outcome::Booked),
    }
}
