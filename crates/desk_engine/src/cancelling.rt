//! What an accepted cancellation calls off.
ghost use Rattle.std.specs.Prelude.{◌≡◌, IfOk, OnOk, true, IsOk};
ghost use Rattle.desk_register.specs.Changes.{appended};
ghost use Rattle.desk_register.specs.View.{IfTrusted, IsChange, IsRead};
ghost use Rattle.desk_rules.specs.Books.{Books};
ghost use Rattle.desk_rules.specs.Content.{history_of};
ghost use Rattle.desk_rules.specs.Verdict.{named_by};
ghost use Rattle.desk_engine.specs.Cancelling.{called_off, off_by, off_with, pair_with, state_then};
ghost use Rattle.desk_engine.specs.Decision.{Reading};
ghost use Rattle.desk_engine.specs.Tables.{Grown, IsAccepted, Tables};

use crate::naming::instruction_named;
use desk_codes::Bic;
use desk_msg::CancelOrder;
use desk_register::{Fault, Register, Stage};
use desk_rules::{Entry, Pair, Reply, State};
use std::alloc::Global;

/// What the request to cancel an instruction calls off.
#[derive(Clone, Copy)]
pub enum CallsOff {
    /// The unmatched instruction of this number
    Alone(u64),
    /// A pair, of which the other side asked before
    Both(Pair),
    /// Nothing: the instruction stands on as it does
    Nothing(State),
}

impl CallsOff {
    /// Where the instruction stands then.
    pub fn state(self) -> State
        ensures { result ≡ state_then self }
    {
        match self {
            CallsOff::Alone(_) | CallsOff::Both(_) => State::Cancelled,
            CallsOff::Nothing(state) => state,
        }
    }
}

/// The pair of an instruction and its mate.
fn pair_with(number: u64, mate: u64) -> Pair
    ensures { result ≡ pair_with number mate }
{
    if mate < number {
        return Pair {
            earlier: mate,
            later: number,
        };
    }
    Pair {
        earlier: number,
        later: mate,
    }
}

/// What a request to cancel an instruction that is matched calls off.
fn off_with<R: Register>(
    alloc: Global,
    register: &mut R,
    number: u64,
    state: State,
    mate: Option<u64>,
) -> Result<CallsOff, Fault>
    ensures value { Reading (R.view register.old) (R.view register.new) (λ c. IfOk result (λ r. r ≡ off_with c.standing number state mate)) }
    ensures read { IsRead result (R.view register.old) (R.view register.new) }
    ensures in_memory { R.in_memory ≡ true → IsOk result }
{
    let Some(mate) = mate else {
        return Ok(CallsOff::Nothing(state));
    };
    let other = register.standing(alloc, mate)?;
    if other.cancel_requested {
        return Ok(CallsOff::Both(pair_with(number, mate)));
    }
    Ok(CallsOff::Nothing(state))
}

/// What a request to cancel the instruction of a number calls off.
fn off_by<R: Register>(
    alloc: Global,
    register: &mut R,
    named: Option<u64>,
) -> Result<CallsOff, Fault>
    ensures value { Reading (R.view register.old) (R.view register.new) (λ c. IfOk result (λ r. r ≡ off_by c.standing named)) }
    ensures read { IsRead result (R.view register.old) (R.view register.new) }
    ensures in_memory { R.in_memory ≡ true → IsOk result }
{
    let Some(number) = named else {
        return Ok(CallsOff::Nothing(State::NoInstruction));
    };
    let standing = register.standing(alloc, number)?;
    match standing.state {
        State::Unmatched => Ok(CallsOff::Alone(number)),
        State::Matched(_) => off_with(alloc, register, number, standing.state, standing.mate),
        state => Ok(CallsOff::Nothing(state)),
    }
}

/// What a participant's cancellation calls off.
pub fn calls_off<R: Register>(
    alloc: Global,
    register: &mut R,
    sender: &Bic,
    order: &CancelOrder,
) -> Result<CallsOff, Fault>
    ensures value { Reading (R.view register.old) (R.view register.new) (λ c. IfOk result (λ r. r ≡ off_by c.standing (named_by (history_of c) sender.now order.now))) }
    ensures read { IsRead result (R.view register.old) (R.view register.new) }
    ensures in_memory { R.in_memory ≡ true → IsOk result }
{
    let named = instruction_named(alloc, register, sender, order)?;
    off_by(alloc, register, named)
}

/// Adds an accepted cancellation with its reply, and lets what it calls off stand cancelled.
pub fn add_cancellation<R: Register>(
    alloc: Global,
    register: &mut R,
    sender: Bic,
    order: CancelOrder,
    off: CallsOff,
    reply: Reply,
) -> Result<(), Fault>
    requires stage { (R.view register.old).stage ≡ Stage.Begun }
    requires status { reply.status ≡ 200 }
    requires accepted { IfTrusted (R.view register.old) (R.view register.old) (IsAccepted (R.view register.old).room (Entry.Cancel sender order) (R.view register.old).content) }
    requires off { IfTrusted (R.view register.old) (R.view register.old) (off ≡ off_by (R.view register.old).content.standing (named_by (history_of (R.view register.old).content) sender order)) }
    ensures added { IfTrusted (R.view register.old) (R.view register.new) (OnOk result ((R.view register.new).content ≡ called_off off (appended (Entry.Cancel sender order) reply (R.view register.old).content))) }
    ensures tables { (books : Books) → IfTrusted (R.view register.old) (R.view register.new) (Tables (R.view register.old).room books (R.view register.old).content
        → OnOk result (Grown (R.view register.old).room books (Entry.Cancel sender order) (R.view register.new).content)) }
    ensures change { IsChange result (R.view register.old) (R.view register.new) }
{
    register.append(alloc, Entry::Cancel { sender, order }, reply)?;
    match off {
        CallsOff::Alone(number) => register.cancel(alloc, number),
        CallsOff::Both(pair) => register.cancel_pair(alloc, pair.earlier, pair.later),
        CallsOff::Nothing(_) => Ok(()),
    }
}
