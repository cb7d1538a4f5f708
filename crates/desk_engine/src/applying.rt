//! An accepted entry, taken into the tables with all that follows from it.
ghost use Rattle.std.specs.Prelude.{◌≡◌, ◌+◌, ◌<◌, length, IfOk, OnOk, IsTrue};
ghost use Rattle.desk_register.specs.View.{IfTrusted};
ghost use Rattle.desk_engine.specs.Applied.{CanApply, HasApplied, Keeps};
ghost use Rattle.desk_engine.specs.Steps.{IsStep};
ghost use Rattle.desk_engine.specs.Tables.{is_booking};
ghost use Rattle.desk_rules.specs.Books.{Books};

use crate::adding::{add_booking, add_instruction, next_number};
use crate::applied::{Accepted, Applied};
use crate::cancelling::{add_cancellation, calls_off};
use crate::replies::{accepted_reply, once_more};
use crate::settlement_run::{add_run, run_passes};
use desk_codes::{Bic, Day, Reference};
use desk_msg::{CancelOrder, Instruction};
use desk_register::{Fault, Register, Stage};
use desk_rules::{Entry, RunRule, State};
use std::alloc::Global;

/// Takes an entry that `decide` accepts into the tables, with all that follows from it: an instruction is paired
/// with its mate, a cancellation cancels its instruction, or a pair of which both sides asked, and a run settles what is
/// covered. Answers how it fared, and its reply, of which a copy is kept with it. It is one step within an open `begin`, over
/// what the register holds by then, so that several entries can be taken in and kept together. After a fault the tables are
/// not known until `back`.
pub fn apply<R: Register>(alloc: Global, register: &mut R, entry: Entry) -> Result<Accepted, Fault>
    requires stage { (R.view register.old).stage ≡ Stage.Begun }
    requires accepted { IfTrusted (R.view register.old) (R.view register.old) (CanApply (R.view register.old).room entry (R.view register.old).content) }
    ensures applied { (books : Books) → IfTrusted (R.view register.old) (R.view register.new) (Keeps (R.view register.old).room books (R.view register.old).content
        → IfOk result (λ accepted. HasApplied (R.view register.old).room books entry accepted (R.view register.new).content)) }
    ensures step { IsStep result (R.view register.old) (R.view register.new) }
{
    match entry {
        Entry::Instruct {
            sender,
            instruction,
        } => apply_instruction(alloc, register, sender, instruction),
        Entry::Run {
            reference,
            day,
            rule,
        } => apply_run(alloc, register, reference, day, rule),
        Entry::Cancel { sender, order } => apply_cancellation(alloc, register, sender, order),
        _ => apply_booking(alloc, register, entry),
    }
}

/// What the operator books: all commands but runs.
fn apply_booking<R: Register>(
    alloc: Global,
    register: &mut R,
    entry: Entry,
) -> Result<Accepted, Fault>
    requires stage { (R.view register.old).stage ≡ Stage.Begun }
    requires kind { IsTrue (is_booking entry) }
    requires accepted { IfTrusted (R.view register.old) (R.view register.old) (CanApply (R.view register.old).room entry (R.view register.old).content) }
    ensures applied { (books : Books) → IfTrusted (R.view register.old) (R.view register.new) (Keeps (R.view register.old).room books (R.view register.old).content
        → IfOk result (λ accepted. HasApplied (R.view register.old).room books entry accepted (R.view register.new).content)) }
    ensures step { IsStep result (R.view register.old) (R.view register.new) }
{
    let number = next_number(alloc, register)?;
    let applied = Applied {
        number,
        mate: None,
        settled: 0,
        waiting: 0,
        passes: 0,
        named: State::NoInstruction,
    };
    let reply = accepted_reply(alloc, &entry, &applied)?;
    let kept = once_more(alloc, &reply)?;
    add_booking(alloc, register, entry, kept)?;
    Ok(Accepted { applied, reply })
}

/// An instruction.
fn apply_instruction<R: Register>(
    alloc: Global,
    register: &mut R,
    sender: Bic,
    instruction: Instruction,
) -> Result<Accepted, Fault>
    requires stage { (R.view register.old).stage ≡ Stage.Begun }
    requires accepted { IfTrusted (R.view register.old) (R.view register.old) (CanApply (R.view register.old).room (Entry.Instruct sender instruction) (R.view register.old).content) }
    ensures applied { (books : Books) → IfTrusted (R.view register.old) (R.view register.new) (Keeps (R.view register.old).room books (R.view register.old).content
        → IfOk result (λ accepted. HasApplied (R.view register.old).room books (Entry.Instruct sender instruction) accepted (R.view register.new).content)) }
    ensures step { IsStep result (R.view register.old) (R.view register.new) }
{
    let number = next_number(alloc, register)?;
    let mate = register.first_opposite(alloc, sender, &instruction)?;
    let applied = Applied {
        number,
        mate,
        settled: 0,
        waiting: 0,
        passes: 0,
        named: State::NoInstruction,
    };
    let entry = Entry::Instruct {
        sender,
        instruction,
    };
    let reply = accepted_reply(alloc, &entry, &applied)?;
    let kept = once_more(alloc, &reply)?;
    add_instruction(alloc, register, sender, instruction, number, mate, kept)?;
    Ok(Accepted { applied, reply })
}

/// A cancellation.
fn apply_cancellation<R: Register>(
    alloc: Global,
    register: &mut R,
    sender: Bic,
    order: CancelOrder,
) -> Result<Accepted, Fault>
    requires stage { (R.view register.old).stage ≡ Stage.Begun }
    requires accepted { IfTrusted (R.view register.old) (R.view register.old) (CanApply (R.view register.old).room (Entry.Cancel sender order) (R.view register.old).content) }
    ensures applied { (books : Books) → IfTrusted (R.view register.old) (R.view register.new) (Keeps (R.view register.old).room books (R.view register.old).content
        → IfOk result (λ accepted. HasApplied (R.view register.old).room books (Entry.Cancel sender order) accepted (R.view register.new).content)) }
    ensures step { IsStep result (R.view register.old) (R.view register.new) }
{
    let number = next_number(alloc, register)?;
    let off = calls_off(alloc, register, &sender, &order)?;
    let applied = Applied {
        number,
        mate: None,
        settled: 0,
        waiting: 0,
        passes: 0,
        named: off.state(),
    };
    let entry = Entry::Cancel { sender, order };
    let reply = accepted_reply(alloc, &entry, &applied)?;
    let kept = once_more(alloc, &reply)?;
    add_cancellation(alloc, register, sender, order, off, kept)?;
    Ok(Accepted { applied, reply })
}

/// A run.
fn apply_run<R: Register>(
    alloc: Global,
    register: &mut R,
    reference: Reference,
    day: Day,
    rule: RunRule,
) -> Result<Accepted, Fault>
    requires stage { (R.view register.old).stage ≡ Stage.Begun }
    requires accepted { IfTrusted (R.view register.old) (R.view register.old) (CanApply (R.view register.old).room (Entry.Run reference day rule) (R.view register.old).content) }
    ensures applied { (books : Books) → IfTrusted (R.view register.old) (R.view register.new) (Keeps (R.view register.old).room books (R.view register.old).content
        → IfOk result (λ accepted. HasApplied (R.view register.old).room books (Entry.Run reference day rule) accepted (R.view register.new).content)) }
    ensures step { IsStep result (R.view register.old) (R.view register.new) }
{
    let number = next_number(alloc, register)?;
    let made = run_passes(alloc, register, day, rule, number)?;
    let applied = Applied {
        number,
        mate: None,
        settled: made.settled,
        waiting: made.waiting,
        passes: made.passes,
        named: State::NoInstruction,
    };
    let entry = Entry::Run {
        reference,
        day,
        rule,
    };
    let reply = accepted_reply(alloc, &entry, &applied)?;
    let kept = once_more(alloc, &reply)?;
    add_run(alloc, register, reference, day, rule, kept)?;
    Ok(Accepted { applied, reply })
}
