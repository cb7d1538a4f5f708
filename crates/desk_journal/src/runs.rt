//! What runs did.
ghost use Rattle.std.specs.Prelude.{◌≡◌, IfOk};
ghost use Rattle.desk_rules.specs.Books.{Books};
ghost use Rattle.desk_rules.specs.Settlement.{settled_count};
ghost use Rattle.desk_rules.specs.Tables.{AreTables};
ghost use Rattle.desk_register.specs.View.{IfTrusted, IsRead};
ghost use Rattle.desk_journal.specs.Runs.{day_of_number, day_of_run, left_waiting};
ghost use Rattle.desk_journal.specs.Sending.{HoldsRun};

use crate::texts::run::run_counts;
use desk_codes::Day;
use desk_register::{Fault, Register, Stage};
use desk_rules::Entry;
use std::alloc::Global;

/// How many pairs a run settled, and how many due ones it left, as its reply tells. A store that holds no such reply does not
/// show what it holds: it is given up as one that failed.
pub fn counts_of_run<R: Register>(
    alloc: Global,
    register: &mut R,
    number: u64,
) -> Result<(u64, u64), Fault>
    requires stage { (R.view register.old).stage ≡ Stage.Idle }
    requires known { IfTrusted (R.view register.old) (R.view register.old) (HoldsRun (R.view register.old).content number) }
    ensures counts { (books : Books) → IfTrusted (R.view register.old) (R.view register.new) (AreTables books (R.view register.old).content
        → IfOk result (λ counts. (counts.0 ≡ settled_count books.settled number) × (counts.1 ≡ left_waiting books number))) }
    ensures read { IsRead result (R.view register.old) (R.view register.new) }
{
    let Some(reply) = register.reply(alloc, number)? else {
        return Err(Fault::Storage);
    };
    let Some(counts) = run_counts(reply.text.as_bytes()) else {
        return Err(Fault::Storage);
    };
    Ok(counts)
}

/// The day of an entry, if it is a run.
fn day_if_run(entry: &Entry) -> Option<Day>
    ensures { result ≡ day_of_run entry.now }
{
    match entry {
        Entry::Run { day, .. } => Some(*day),
        _ => None,
    }
}

/// The day of an entry that is a run; None of another one.
pub fn day_of_run<R: Register>(
    alloc: Global,
    register: &mut R,
    number: u64,
) -> Result<Option<Day>, Fault>
    requires stage { (R.view register.old).stage ≡ Stage.Idle }
    ensures day { (books : Books) → IfTrusted (R.view register.old) (R.view register.new) (AreTables books (R.view register.old).content → IfOk result (λ day. day ≡ day_of_number books number)) }
    ensures read { IsRead result (R.view register.old) (R.view register.new) }
{
    match register.entry(alloc, number)? {
        Some(entry) => Ok(day_if_run(&entry)),
        None => Ok(None),
    }
}
