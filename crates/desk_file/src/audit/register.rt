//! The register, read entry by entry.
ghost use Rattle.std.specs.Prelude.{◌≡◌, ◌↔◌, ◌<◌, ◌^◌, ◌∷◌, ◌++◌, [], filter, true, IfOk, OnOk};
ghost use Rattle.std.specs.List.{AllByRecursion};
ghost use Rattle.desk_engine.specs.Accepting.{IsDone};
ghost use Rattle.desk_register.specs.View.{IfTrusted, IsLater};
ghost use Rattle.desk_engine.specs.KeptHistory.{CanBeKept, HoldsKept};
ghost use Rattle.desk_rules.specs.declared.answers.reply.Kept.{Kept};
ghost use Rattle.desk_rules.specs.Content.{Content};
ghost use Rattle.sql_tables.specs.Calls.{FailsForCause, LooksIn, SoundlyIn, tables};
ghost use Rattle.sql_tables.specs.Schema.{register_table};
ghost use Rattle.sql_tables.specs.Forms.{HasForm};
ghost use Rattle.sql_tables.specs.Order.{AreInOrder};
ghost use Rattle.sql_tables.specs.Audits.{of_register, AuditsForCause, AuditsIn};
ghost use Rattle.sql_tables.specs.ByNumber.{has_number, HasNoOther};
ghost use Rattle.sql_tables.specs.Versions.{register_tree, schema_in, AreAllFormedIn};
ghost use Rattle.sql_tables.specs.declared.versions.Version.{Version as AnyVersion};
ghost use Rattle.sql_entries.specs.Found.{IsRowOf};
ghost use Rattle.sql_entries.specs.Shown.{HasShortNumbers};
ghost use Rattle.desk_file.specs.Reading.{HoldsFormed, IsReadIn, TakesRow};
ghost use Rattle.desk_file.specs.Taking.{BlamesTaking};

use crate::audit::progress::Progress;
use crate::audit::taking::take;
use desk_register::{Register, Stage};
use sql_entries::{Found, found_at, has_no_other};
use sql_tables::compared::MOST;
use sql_tables::fault::AuditFault;
use sql_tables::session::Session;
use sql_tables::versions::Version;
use sqlite::Error;
use std::alloc::Global;

/// What was read of the table `register`.
#[derive(Clone, Copy)]
pub enum Reading {
    /// Each row is that of an entry that was accepted in its turn, with the reply that it got.
    Whole,
    /// The row of this number is not that of an entry that is accepted behind those before it with that reply; or it lacks, and
    /// there are rows of other numbers.
    Stops(u64),
}

/// What the row of a number came to.
#[derive(Clone, Copy)]
pub enum Step {
    /// Its entry is taken in.
    Taken,
    /// It is not that of an accepted entry with its reply.
    Another,
    /// There is none.
    Nothing,
}

/// Reads the row of a number, and takes its entry into a register.
fn read_entry<S: Session, R: Register, P: Progress>(
    alloc: Global,
    conn: &mut S,
    version: Version,
    register: &mut R,
    progress: &mut P,
    number: u64,
) -> Result<Step, AuditFault>
    requires number { number < 2 ^ 63 }
    requires stage { (R.view register.old).stage ≡ Stage.Idle }
    requires holds { IfTrusted (R.view register.old) (R.view register.old) (HoldsFormed (R.view register.old).room (R.view register.old).content) }
    ensures takes { SoundlyIn S.state conn.old conn.new (schema_in version) (IfTrusted (R.view register.old) (R.view register.new) (AllByRecursion (HasForm register_table) ((tables S.state conn.old).trees (register_tree version))
        → HoldsKept (R.view register.old).room (R.view register.old).content.register (R.view register.old).content
        → IfOk result (λ step. step ≡ Step.Taken → TakesRow version ((tables S.state conn.old).trees (register_tree version)) number (R.view register.old).room (R.view register.old).content (R.view register.new).content))) }
    ensures holds { IfTrusted (R.view register.old) (R.view register.new) (IfOk result (λ step. step ≡ Step.Taken → HoldsFormed (R.view register.old).room (R.view register.new).content)) }
    ensures exact { SoundlyIn S.state conn.old conn.new (schema_in version) (IfTrusted (R.view register.old) (R.view register.new) ((kept : Kept) → IsRowOf version ((tables S.state conn.old).trees (register_tree version)) number kept → HasShortNumbers kept.reply
        → CanBeKept (R.view register.old).room ((R.view register.old).content.register ++ kept ∷ [])
        → IfOk result (λ step. (step ≡ Step.Taken) × HoldsKept (R.view register.old).room ((R.view register.old).content.register ++ kept ∷ []) (R.view register.new).content))) }
    ensures nothing { SoundlyIn S.state conn.old conn.new (schema_in version) (IfOk result (λ step. (step ≡ Step.Nothing) ↔ (filter (has_number number) ((tables S.state conn.old).trees (register_tree version)) ≡ []))) }
    ensures same { IfTrusted (R.view register.old) (R.view register.new) (IfOk result (λ step. step ≡ Step.Nothing → (R.view register.new).content ≡ (R.view register.old).content)) }
    ensures look { AuditsIn S.state conn.old conn.new (schema_in version) result }
    ensures done { OnOk result (IsDone (R.view register.old) (R.view register.new)) }
    ensures later { IsLater (R.view register.old) (R.view register.new) }
    ensures cause { SoundlyIn S.state conn.old conn.new (schema_in version) (AuditsForCause S.state conn.old conn.new result) }
    ensures blame { R.in_memory ≡ true → BlamesTaking (of_register result) (R.view register.old) (R.view register.new) }
{
    match found_at(alloc, conn, version, number)? {
        Found::Nothing => Ok(Step::Nothing),
        Found::Another => Ok(Step::Another),
        Found::Entry(kept) => {
            if take(alloc, register, &kept)? {
                progress.taken(number, &kept.entry);
                Ok(Step::Taken)
            } else {
                Ok(Step::Another)
            }
        }
    }
}

/// What the table comes to behind so many entries: whether there is no other row.
fn read_end<S: Session>(conn: &mut S, count: u64) -> Result<Reading, Error>
    requires { count < 2 ^ 63 }
    ensures none { (version : AnyVersion) → SoundlyIn S.state conn.old conn.new (schema_in version) (IfOk result (λ reading. (reading ≡ Reading.Whole) ↔ HasNoOther ((tables S.state conn.old).trees (register_tree version)) count)) }
    ensures look { (version : AnyVersion) → LooksIn S.state conn.old conn.new (schema_in version) result }
    ensures cause { (version : AnyVersion) → SoundlyIn S.state conn.old conn.new (schema_in version) (FailsForCause S.state conn.old conn.new result) }
{
    if has_no_other(conn, count)? {
        Ok(Reading::Whole)
    } else {
        Ok(Reading::Stops(count + 1))
    }
}

/// Reads the table `register` of a version of the file from its first entry to its last and takes each into a register that holds nothing. It is whole
/// where it is an accepted history of well-formed entries, and exactly the list that the register holds then. Else, and after a
/// fault, the register should be given up: it holds the entries so far, and the last one that was read with the reply that it
/// gets.
pub fn read_register<S: Session, R: Register, P: Progress>(
    alloc: Global,
    conn: &mut S,
    version: Version,
    register: &mut R,
    progress: &mut P,
) -> Result<Reading, AuditFault>
    requires stage { (R.view register.old).stage ≡ Stage.Idle }
    requires empty { IfTrusted (R.view register.old) (R.view register.old) (HoldsKept (R.view register.old).room [] (R.view register.old).content) }
    ensures entries { SoundlyIn S.state conn.old conn.new (schema_in version) (IfTrusted (R.view register.old) (R.view register.new) (AreInOrder (schema_in version) (tables S.state conn.old).trees → AreAllFormedIn version (tables S.state conn.old).trees
        → IfOk result (λ reading. reading ≡ Reading.Whole → IsReadIn version (tables S.state conn.old) (R.view register.old).room (R.view register.new).content))) }
    ensures holds { IfTrusted (R.view register.old) (R.view register.new) (IfOk result (λ reading. reading ≡ Reading.Whole → HoldsFormed (R.view register.old).room (R.view register.new).content)) }
    ensures exact { SoundlyIn S.state conn.old conn.new (schema_in version) (IfTrusted (R.view register.old) (R.view register.new) ((content : Content) → IsReadIn version (tables S.state conn.old) (R.view register.old).room content
        → IfOk result (λ reading. (reading ≡ Reading.Whole) × ((R.view register.new).content.register ≡ content.register)))) }
    ensures look { AuditsIn S.state conn.old conn.new (schema_in version) result }
    ensures done { OnOk result (IsDone (R.view register.old) (R.view register.new)) }
    ensures later { IsLater (R.view register.old) (R.view register.new) }
    ensures cause { SoundlyIn S.state conn.old conn.new (schema_in version) (AuditsForCause S.state conn.old conn.new result) }
    ensures blame { R.in_memory ≡ true → BlamesTaking (of_register result) (R.view register.old) (R.view register.new) }
{
    for before in 0..MOST {
        match read_entry(alloc, conn, version, register, progress, before + 1)? {
            Step::Taken => {}
            Step::Another => return Ok(Reading::Stops(before + 1)),
            Step::Nothing => {
                let end = read_end(conn, before)?;
                return Ok(end);
            }
        }
    }
    let end = read_end(conn, MOST)?;
    Ok(end)
}
