//! A settlement run over the register.
ghost use Rattle.std.specs.Prelude.{◌≡◌, ◌+◌, ◌-◌, ◌<◌, ◌≤◌, ◌&&◌, nat_lt, true, false, length, IfErr, IfOk, OnOk, Err, List, Some, ℕ};
ghost use Rattle.desk_codes.specs.Number.{number_of};
ghost use Rattle.desk_register.specs.View.{IfTrusted, IsChange, IsRead};
ghost use Rattle.desk_rules.specs.Content.{history_of};
ghost use Rattle.desk_register.specs.Changes.{appended};
ghost use Rattle.desk_register.specs.Looked.{IsDue};
ghost use Rattle.desk_engine.specs.Tables.{Grown, Tables};
ghost use Rattle.desk_engine.specs.Steps.{IsStep};
ghost use Rattle.desk_engine.specs.Pass.{CanPass, CanRun, CanTry, Fares, HasMade, IsNextPair, IsPassed, IsTakenPast, IsTried, PassEnds, RanTo, Takes, has_settled, one_if};
ghost use Rattle.desk_rules.specs.declared.history.pair.Settled.{Settled};
ghost use Rattle.desk_rules.specs.Settlement.{allows_more, is_past};
ghost use Rattle.desk_rules.specs.declared.limits.TheConstants.{MOST_ENTRIES};
ghost use Rattle.desk_rules.specs.Books.{Books};

use crate::sending::confirm_settlement;
use desk_codes::{Day, Reference};
use desk_register::{Fault, Outcome, Register, Stage};
use desk_rules::{Entry, Place, Reply, RunRule};
use std::alloc::Global;

/// A due pair that a run came to, and whether it settled.
#[derive(Clone, Copy)]
pub struct Taken {
    pub place: Place,
    pub settles: bool,
}

/// Whether a pair settled that was tried.
fn has_settled(outcome: Outcome) -> bool
    ensures { result ≡ has_settled outcome }
{
    match outcome {
        Outcome::Settled => true,
        Outcome::Lacks(_) => false,
    }
}

/// Tries a pair, by the number of its later instruction; where it settles, both parties are told.
fn try_pair<R: Register>(
    alloc: Global,
    register: &mut R,
    number: u64,
    day: Day,
) -> Result<Outcome, Fault>
    requires stage { (R.view register.old).stage ≡ Stage.Begun }
    requires fits { IfTrusted (R.view register.old) (R.view register.old) (CanTry (R.view register.old).room (R.view register.old).content number (number_of day)) }
    ensures tried { IfTrusted (R.view register.old) (R.view register.new) (IfOk result (λ outcome. IsTried (R.view register.old).content number day outcome (R.view register.new).content)) }
    ensures step { IsStep result (R.view register.old) (R.view register.new) }
{
    let outcome = register.settle_pair(alloc, number, day)?;
    match outcome {
        Outcome::Settled => confirm_settlement(alloc, register, number, day)?,
        Outcome::Lacks(_) => (),
    }
    Ok(outcome)
}

/// Whether the pair settles that a store answered as the next one past a place; one that stays short needs no try. A store
/// that goes backwards does not show what it holds: it is given up as one that failed.
fn settles<R: Register>(
    alloc: Global,
    register: &mut R,
    day: Day,
    place: Option<Place>,
    next: Place,
) -> Result<bool, Fault>
    requires stage { (R.view register.old).stage ≡ Stage.Begun }
    requires due { IfTrusted (R.view register.old) (R.view register.old) (IsDue (R.view register.old).content (number_of day) place next) }
    requires fits { IfTrusted (R.view register.old) (R.view register.old) (CanTry (R.view register.old).room (R.view register.old).content next.number (number_of day)) }
    ensures fares { IfTrusted (R.view register.old) (R.view register.new) (IfOk result (λ settles. Fares (R.view register.old).content next.number day settles (R.view register.new).content)) }
    ensures past { IfOk result (λ settles. is_past place next ≡ true) }
    ensures backwards { is_past place next ≡ false → result ≡ Err Fault.Storage }
    ensures step { IsStep result (R.view register.old) (R.view register.new) }
{
    if !next.is_past(&place) {
        return Err(Fault::Storage);
    }
    if register.stays_short(alloc, next)? {
        return Ok(false);
    }
    let outcome = try_pair(alloc, register, next.number, day)?;
    Ok(has_settled(outcome))
}

/// The next pair that a pass takes past a place: the first due one, or where the run goes over them again the first that may
/// be covered by now.
fn next_pair<R: Register>(
    alloc: Global,
    register: &mut R,
    day: Day,
    place: Option<Place>,
    again: bool,
) -> Result<Option<Place>, Fault>
    requires { (R.view register.old).stage ≡ Stage.Begun }
    ensures next { IfTrusted (R.view register.old) (R.view register.new) (IfOk result (λ next. IsNextPair again (R.view register.old).content (number_of day) place next)) }
    ensures read { IsRead result (R.view register.old) (R.view register.new) }
{
    if again {
        register.pair_to_try_after(alloc, day, place)
    } else {
        register.due_pair_after(alloc, day, place)
    }
}

/// Takes the next pair of a pass past a place; None where there is none.
fn take<R: Register>(
    alloc: Global,
    register: &mut R,
    day: Day,
    place: Option<Place>,
    again: bool,
) -> Result<Option<Taken>, Fault>
    requires stage { (R.view register.old).stage ≡ Stage.Begun }
    requires fits { IfTrusted (R.view register.old) (R.view register.old) ((next : Place) → IsNextPair again (R.view register.old).content (number_of day) place (Some next)
        → CanTry (R.view register.old).room (R.view register.old).content next.number (number_of day)) }
    ensures taken { IfTrusted (R.view register.old) (R.view register.new) (IfOk result (λ taken. Takes again (R.view register.old).content day place taken (R.view register.new).content)) }
    ensures past { IfOk result (λ taken. IsTakenPast place taken) }
    ensures step { IsStep result (R.view register.old) (R.view register.new) }
{
    match next_pair(alloc, register, day, place, again)? {
        None => Ok(None),
        Some(next) => {
            let settles = settles(alloc, register, day, place, next)?;
            Ok(Some(Taken {
                place: next,
                settles,
            }))
        }
    }
}

/// With one pair more, which settled or did not.
fn counted(settled: u64, settles: bool) -> u64
    requires { settled < u64.MAX }
    ensures { result ≡ settled + one_if settles }
{
    if settles { settled + 1 } else { settled }
}

/// How many pairs were due in a pass: each that the first one tried, and in a further one those that waited after the last.
fn due_in(again: bool, waiting: u64, tried: u64) -> u64
    ensures first { again ≡ false → result ≡ tried }
    ensures further { again ≡ true → result ≡ waiting }
{
    if again { waiting } else { tried }
}

/// The passes that a run has begun, and what they came to.
#[derive(Clone, Copy)]
pub struct Ran {
    /// How many passes there were, each counted as it begins
    pub passes: u64,
    /// How many pairs settled
    pub settled: u64,
    /// How many of them in the last pass
    pub last: u64,
    /// How many pairs that are due are not settled
    pub waiting: u64,
}

impl Ran {
    /// Before the first pass.
    fn none() -> Ran
        ensures { result ≡ record { passes = 0; settled = 0; last = 0; waiting = 0 } }
    {
        Ran {
            passes: 0,
            settled: 0,
            last: 0,
            waiting: 0,
        }
    }

    /// A pass more begins.
    fn begun(self) -> Ran
        requires { self.passes < u64.MAX }
        ensures { result ≡ record { passes = self.passes + 1; settled = self.settled; last = 0; waiting = self.waiting } }
    {
        Ran {
            passes: self.passes + 1,
            settled: self.settled,
            last: 0,
            waiting: self.waiting,
        }
    }

    /// The pass is over, in which so many settled of those that were due.
    fn over(self, settled: u64, due: u64) -> Ran
        requires { self.settled + settled ≤ u64.MAX }
        ensures { result ≡ record { passes = self.passes; settled = self.settled + settled; last = settled; waiting = due - settled } }
    {
        Ran {
            passes: self.passes,
            settled: self.settled + settled,
            last: settled,
            waiting: due.saturating_sub(settled),
        }
    }

    /// What the passes came to, where no more pairs settled than there are entries, by the number of the next one. A store
    /// that settles more does not show what it holds: it is given up as one that failed.
    fn within(self, number: u64) -> Result<Ran, Fault>
        ensures same { IfOk result (λ ran. ran ≡ self) }
        ensures few { IfOk result (λ ran. ran.settled < number) }
        ensures storage { IfErr result (λ fault. fault ≡ Fault.Storage) }
        ensures many { IfErr result (λ fault. number ≤ self.settled) }
    {
        if number <= self.settled {
            return Err(Fault::Storage);
        }
        Ok(self)
    }
}

/// Makes a pass of a run, which is counted as it begins: takes the due pairs once, in order of settlement day and number, and
/// settles those that are covered. Where the run goes over them again, it tries those that may be covered by now. A store that
/// answers more pairs than it has entries, or settles more, is given up as one that failed.
fn run_pass<R: Register>(
    alloc: Global,
    register: &mut R,
    day: Day,
    number: u64,
    before: Ran,
) -> Result<Ran, Fault>
    requires stage { (R.view register.old).stage ≡ Stage.Begun }
    requires number { IfTrusted (R.view register.old) (R.view register.old) (number ≡ length (R.view register.old).content.register + 1) }
    requires most { number ≤ MOST_ENTRIES }
    requires few { before.settled ≤ number }
    requires counted { before.passes ≤ before.settled }
    requires fits { IfTrusted (R.view register.old) (R.view register.old) (CanPass (R.view register.old).room day before (R.view register.old).content) }
    ensures kept { IfTrusted (R.view register.old) (R.view register.new) (OnOk result ((R.view register.new).content.register ≡ (R.view register.old).content.register)) }
    ensures passes { IfOk result (λ ran. ran.passes ≡ before.passes + 1) }
    ensures settled { IfOk result (λ ran. ran.settled ≡ before.settled + ran.last) }
    ensures few { IfOk result (λ ran. ran.settled < number) }
    ensures ran { (books : Books) (reference : List ℕ) (rule : RunRule) (start : List Settled) → IfTrusted (R.view register.old) (R.view register.new)
        (HasMade (R.view register.old).room books (Entry.Run reference day rule) before start (R.view register.old).content
        → IfOk result (λ ran. PassEnds books (Entry.Run reference day rule) (before.passes + 1) start ran.last ran.waiting (R.view register.new).content)) }
    ensures step { IsStep result (R.view register.old) (R.view register.new) }
{
    let again = 0 < before.passes;
    let begun = before.begun();
    let mut settled = 0;
    let mut place = None;
    'pairs: for tried in 0..number {
        match take(alloc, register, day, place, again)? {
            None => {
                let due = due_in(again, before.waiting, tried);
                let ran = begun.over(settled, due).within(number)?;
                return Ok(ran);
            }
            Some(taken) => {
                settled = counted(settled, taken.settles);
                place = Some(taken.place);
            }
        }
    }
    // there are fewer pairs than entries
    Err(Fault::Storage)
}

/// Whether a run goes over the due pairs again after a pass that settled so many.
fn makes_another(rule: RunRule, settled: u64) -> bool
    ensures { result ≡ (allows_more (Some rule) && nat_lt 0 settled) }
{
    match rule {
        RunRule::OnePass => false,
        RunRule::Passes => 0 < settled,
    }
}

/// Makes the passes of a run that is to be the entry of this number: one, or where the rule allows it passes until one settles
/// nothing. A store that goes on for more passes than it has entries is given up as one that failed.
pub fn run_passes<R: Register>(
    alloc: Global,
    register: &mut R,
    day: Day,
    rule: RunRule,
    number: u64,
) -> Result<Ran, Fault>
    requires stage { (R.view register.old).stage ≡ Stage.Begun }
    requires number { IfTrusted (R.view register.old) (R.view register.old) (number ≡ length (R.view register.old).content.register + 1) }
    requires most { number ≤ MOST_ENTRIES }
    requires tables { IfTrusted (R.view register.old) (R.view register.old) (CanRun (R.view register.old).room (R.view register.old).content) }
    ensures kept { IfTrusted (R.view register.old) (R.view register.new) (OnOk result ((R.view register.new).content.register ≡ (R.view register.old).content.register)) }
    ensures few { IfOk result (λ ran. ran.settled < number) }
    ensures passes { IfOk result (λ ran. ran.passes ≤ ran.settled + 1) }
    ensures ran { (books : Books) (reference : List ℕ) → IfTrusted (R.view register.old) (R.view register.new) (Tables (R.view register.old).room books (R.view register.old).content
        → IfOk result (λ ran. RanTo books (Entry.Run reference day rule) ran.settled ran.waiting ran.passes (R.view register.new).content)) }
    ensures step { IsStep result (R.view register.old) (R.view register.new) }
{
    let mut ran = Ran::none();
    'passes: for _begun in 0..number {
        ran = run_pass(alloc, register, day, number, ran)?;
        if !makes_another(rule, ran.last) {
            return Ok(ran);
        }
    }
    // each pass but the last settles a pair, and there are fewer pairs than entries
    Err(Fault::Storage)
}

/// Adds an accepted run with its reply, after its passes over the due pairs.
pub fn add_run<R: Register>(
    alloc: Global,
    register: &mut R,
    reference: Reference,
    day: Day,
    rule: RunRule,
    reply: Reply,
) -> Result<(), Fault>
    requires stage { (R.view register.old).stage ≡ Stage.Begun }
    requires status { reply.status ≡ 200 }
    requires passed { IfTrusted (R.view register.old) (R.view register.old) (IsPassed (R.view register.old).room (Entry.Run reference day rule) (R.view register.old).content) }
    ensures added { IfTrusted (R.view register.old) (R.view register.new) (OnOk result ((R.view register.new).content ≡ appended (Entry.Run reference day rule) reply (R.view register.old).content)) }
    ensures tables { IfTrusted (R.view register.old) (R.view register.new)
        (OnOk result ((books : Books) × (books.history ≡ history_of (R.view register.old).content) × Grown (R.view register.old).room books (Entry.Run reference day rule) (R.view register.new).content)) }
    ensures change { IsChange result (R.view register.old) (R.view register.new) }
{
    register.append(
        alloc,
        Entry::Run {
            reference,
            day,
            rule,
        },
        reply,
    )
}
