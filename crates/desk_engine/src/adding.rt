//! An accepted entry, added to the register: a booking, or an instruction with its mate.
ghost use Rattle.std.specs.Prelude.{◌≡◌, ◌+◌, ◌*◌, ◌<◌, ◌≤◌, length, IfOk, OnOk, IsTrue};
ghost use Rattle.desk_register.specs.View.{IfTrusted, IsChange, IsRead};
ghost use Rattle.desk_register.specs.Changes.{appended, paired, CanPair};
ghost use Rattle.desk_register.specs.Looked.{IsFirstOpposite};
ghost use Rattle.desk_engine.specs.Tables.{Grown, IsAccepted, Tables, is_booking, mated};
ghost use Rattle.desk_engine.specs.Steps.{IsStep};
ghost use Rattle.desk_engine.specs.Sending.{with_advised};
ghost use Rattle.desk_rules.specs.Books.{Books};
ghost use Rattle.desk_rules.specs.declared.limits.TheConstants.{SENT_A_PAIR};

use crate::sending::advise;
use desk_codes::Bic;
use desk_msg::Instruction;
use desk_register::{Fault, Register, Stage};
use desk_rules::{Entry, MOST_ENTRIES, Reply};
use std::alloc::Global;

/// The number of the next entry, where there is room for it.
pub fn next_number<R: Register>(alloc: Global, register: &mut R) -> Result<u64, Fault>
    requires { (R.view register.old).stage ≡ Stage.Begun }
    ensures value { IfTrusted (R.view register.old) (R.view register.new) (length (R.view register.old).content.register < (R.view register.old).room
        → IfOk result (λ n. n ≡ length (R.view register.old).content.register + 1)) }
    ensures most { IfOk result (λ n. n ≤ MOST_ENTRIES) }
    ensures read { IsRead result (R.view register.old) (R.view register.new) }
{
    let limit = register.limit();
    let count = register.count(alloc)?;
    if count < limit {
        return Ok(count + 1);
    }
    Ok(limit)
}

/// Adds what the operator books, which was accepted, with its reply.
pub fn add_booking<R: Register>(
    alloc: Global,
    register: &mut R,
    entry: Entry,
    reply: Reply,
) -> Result<(), Fault>
    requires stage { (R.view register.old).stage ≡ Stage.Begun }
    requires kind { IsTrue (is_booking entry) }
    requires status { reply.status ≡ 200 }
    requires accepted { IfTrusted (R.view register.old) (R.view register.old) (IsAccepted (R.view register.old).room entry (R.view register.old).content) }
    ensures added { IfTrusted (R.view register.old) (R.view register.new) (OnOk result ((R.view register.new).content ≡ appended entry reply (R.view register.old).content)) }
    ensures tables { (books : Books) → IfTrusted (R.view register.old) (R.view register.new) (Tables (R.view register.old).room books (R.view register.old).content
        → OnOk result (Grown (R.view register.old).room books entry (R.view register.new).content)) }
    ensures change { IsChange result (R.view register.old) (R.view register.new) }
{
    register.append(alloc, entry, reply)
}

/// Adds an accepted instruction with its reply, under the next number, and pairs it with its mate, whose sender is told.
pub fn add_instruction<R: Register>(
    alloc: Global,
    register: &mut R,
    sender: Bic,
    instruction: Instruction,
    number: u64,
    mate: Option<u64>,
    reply: Reply,
) -> Result<(), Fault>
    requires stage { (R.view register.old).stage ≡ Stage.Begun }
    requires accepted { IfTrusted (R.view register.old) (R.view register.old) (IsAccepted (R.view register.old).room (Entry.Instruct sender instruction) (R.view register.old).content) }
    requires status { reply.status ≡ 200 }
    requires number { IfTrusted (R.view register.old) (R.view register.old) (number ≡ length (R.view register.old).content.register + 1) }
    requires mate { IfTrusted (R.view register.old) (R.view register.old) (IsFirstOpposite (R.view register.old).content (record { sender = sender; instruction = instruction }) mate) }
    ensures added { IfTrusted (R.view register.old) (R.view register.new) (OnOk result ((R.view register.new).content ≡ mated number mate (appended (Entry.Instruct sender instruction) reply (R.view register.old).content))) }
    ensures tables { (books : Books) → IfTrusted (R.view register.old) (R.view register.new) (Tables (R.view register.old).room books (R.view register.old).content
        → OnOk result (Grown (R.view register.old).room books (Entry.Instruct sender instruction) (R.view register.new).content)) }
    ensures step { IsStep result (R.view register.old) (R.view register.new) }
{
    register.append(
        alloc,
        Entry::Instruct {
            sender,
            instruction,
        },
        reply,
    )?;
    match mate {
        Some(earlier) => pair_with(alloc, register, earlier, number),
        None => Ok(()),
    }
}

/// Pairs two unmatched opposite instructions, by their numbers, and tells the sender of the earlier one.
fn pair_with<R: Register>(
    alloc: Global,
    register: &mut R,
    earlier: u64,
    later: u64,
) -> Result<(), Fault>
    requires stage { (R.view register.old).stage ≡ Stage.Begun }
    requires fits { IfTrusted (R.view register.old) (R.view register.old) (CanPair (R.view register.old).content earlier later) }
    requires room { IfTrusted (R.view register.old) (R.view register.old) (length (R.view register.old).content.sent < SENT_A_PAIR * (R.view register.old).room) }
    ensures paired { IfTrusted (R.view register.old) (R.view register.new) (OnOk result ((R.view register.new).content ≡ with_advised earlier (paired earlier later (R.view register.old).content))) }
    ensures step { IsStep result (R.view register.old) (R.view register.new) }
{
    register.pair(alloc, earlier, later)?;
    advise(alloc, register, earlier)
}
