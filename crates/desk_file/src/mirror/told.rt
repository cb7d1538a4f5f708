//! What the tables are told: of a pair that was tried in memory, they look nothing up again.
ghost use Rattle.std.specs.Prelude.{◌≡◌, Some, option_and_then, IfSome, OnOk};
ghost use Rattle.desk_codes.specs.Number.{number_of};
ghost use Rattle.desk_register.specs.declared.register.Stage.TheVariants.{Begun};
ghost use Rattle.desk_register.specs.View.{HasRead, IfRead, IfTrusted, IsChange};
ghost use Rattle.desk_register.specs.Changes.{CanSettle, TriesPair};
ghost use Rattle.desk_rules.specs.History.{instructed, instruction_at};
ghost use Rattle.desk_rules.specs.Content.{Content, history_of};
ghost use Rattle.desk_file.specs.Told.{IsDone};
ghost use Rattle.desk_register.specs.Told.{IsKnownAt};

use desk_codes::Day;
use desk_register::{Fault, KnownPair, MemoryRegister, Outcome, ToldRegister};
use desk_rules::{Entry, Instructed};
use std::alloc::Global;

/// What an entry instructs; None where there is none, or one that instructs nothing.
fn instructed_by(entry: Option<Entry>) -> Option<Instructed>
    ensures { result ≡ option_and_then instructed entry }
{
    match entry? {
        Entry::Instruct {
            sender,
            instruction,
        } => Some(Instructed {
            sender,
            instruction,
        }),
        _ => None,
    }
}

/// The instruction of a number; None where there is none.
fn instruction<R: MemoryRegister>(
    alloc: Global,
    register: &mut R,
    number: u64,
) -> Option<Instructed>
    ensures value { IfRead (R.view register.old) (R.view register.new) (IfSome result (λ i. instruction_at (history_of (R.view register.old).content) number ≡ Some i)) }
    ensures read { HasRead (R.view register.old) (R.view register.new) }
{
    instructed_by(register.entry(alloc, number).unwrap())
}

/// The pair of a number, as memory knows it; None where there is none.
pub(crate) fn known_pair<R: MemoryRegister>(
    alloc: Global,
    register: &mut R,
    number: u64,
) -> Option<KnownPair>
    ensures known { IfRead (R.view register.old) (R.view register.new) (IfSome result (λ pair. IsKnownAt (R.view register.old).content number pair)) }
    ensures read { HasRead (R.view register.old) (R.view register.new) }
{
    let mate = register.standing(alloc, number).unwrap().mate?;
    let earlier = instruction(alloc, register, mate)?;
    let later = instruction(alloc, register, number)?;
    Some(KnownPair {
        mate,
        number,
        earlier,
        later,
    })
}

/// Makes of the tables what a try of a pair, of this outcome, has made of memory.
pub(crate) fn follow<S: ToldRegister>(
    alloc: Global,
    tables: &mut S,
    known: Option<KnownPair>,
    number: u64,
    day: Day,
    outcome: Outcome,
) -> Result<(), Fault>
    requires stage { (S.view tables.old).stage ≡ Begun }
    requires fits { IfTrusted (S.view tables.old) (S.view tables.old) (CanSettle (S.view tables.old).content number (number_of day)) }
    requires known { IfTrusted (S.view tables.old) (S.view tables.old) (IfSome known (λ pair. IsKnownAt (S.view tables.old).content number pair)) }
    ensures followed { IfTrusted (S.view tables.old) (S.view tables.new) ((new : Content) → TriesPair (S.view tables.old).content number outcome new → OnOk result ((S.view tables.new).content ≡ new)) }
    ensures change { IsChange result (S.view tables.old) (S.view tables.new) }
{
    match (known, outcome) {
        (Some(pair), Outcome::Lacks(lack)) => tables.wait_for(alloc, pair.mate, number, lack),
        (Some(pair), Outcome::Settled) => done(tables.settle_told(alloc, &pair, day)),
        (None, _) => done(tables.settle_pair(alloc, number, day)),
    }
}

/// The end of a try, without its outcome.
fn done(tried: Result<Outcome, Fault>) -> Result<(), Fault>
    ensures { IsDone tried result }
{
    match tried {
        Ok(_) => Ok(()),
        Err(fault) => Err(fault),
    }
}
