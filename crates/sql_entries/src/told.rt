//! How a version of the file tells the rule of a run.
ghost use Rattle.std.specs.Prelude.{◌≡◌, ◌↔◌, ◌<◌, ◌^◌, ◌++◌, Some, length, IfErr, IsTrue};
ghost use Rattle.sqlite.specs.Order.{Row as Values};
ghost use Rattle.desk_rules.specs.declared.history.entry.Entry.{Entry as AnyEntry};
ghost use Rattle.desk_rules.specs.declared.history.entry.RunRule.{RunRule as Rule};
ghost use Rattle.desk_rules.specs.Spelt.{IsSpelt};
ghost use Rattle.sql_entries.specs.Shown.{shown_in};
ghost use Rattle.sql_entries.specs.Told.{kind_by_rule, kind_in, kind_of_rule, rule_in, CanSay, IsOfOnePass, IsReadAs, TellsRule};
ghost use Rattle.sql_entries.specs.Unread.{IsUnread};

use crate::columns::filled_by;
use crate::entry::{entry_in, run_of};
use crate::keyed::kind_number;
use crate::kind::{RUN, RUN_IN_PASSES};
use crate::places::KIND;
use desk_rules::{Entry, RunRule};
use sql_tables::rows::number_at;
use sql_tables::versions::Version;
use sqlite::{Error, Row};
use std::alloc::Global;

/// The kind that tells the rule of a run.
fn kind_of_rule(rule: RunRule) -> u64
    ensures kind { result ≡ kind_of_rule rule }
    ensures few { result < 2 ^ 63 }
{
    match rule {
        RunRule::OnePass => RUN,
        RunRule::Passes => RUN_IN_PASSES,
    }
}

/// The kind of an entry, where it tells the rule of a run.
fn kind_by_rule(entry: &Entry) -> u64
    ensures kind { result ≡ kind_by_rule entry.now }
    ensures few { result < 2 ^ 63 }
{
    match entry {
        Entry::Run { rule, .. } => kind_of_rule(*rule),
        _ => kind_number(entry),
    }
}

/// The kind of an entry in a version of the file.
pub(crate) fn kind_in(version: Version, entry: &Entry) -> u64
    ensures kind { result ≡ kind_in version entry.now }
    ensures few { result < 2 ^ 63 }
{
    match version {
        Version::First | Version::Second => kind_by_rule(entry),
        Version::Third => kind_number(entry),
    }
}

/// The column `rule` of an entry in a version of the file.
pub(crate) fn rule_in(version: Version, entry: &Entry) -> u64
    ensures rule { result ≡ rule_in version entry.now }
    ensures few { result < 2 ^ 63 }
{
    match version {
        Version::First | Version::Second => 0,
        Version::Third => filled_by(entry).rule,
    }
}

fn is_of_one_pass(entry: &Entry) -> bool
    ensures { IsTrue result ↔ IsOfOnePass entry.now }
{
    match entry {
        Entry::Run { rule, .. } => match rule {
            RunRule::OnePass => true,
            RunRule::Passes => false,
        },
        _ => true,
    }
}

/// Whether a version of the file can say an entry.
pub(crate) fn can_say(version: Version, entry: &Entry) -> bool
    ensures { IsTrue result ↔ CanSay version entry.now }
{
    match version {
        Version::First => is_of_one_pass(entry),
        Version::Second | Version::Third => true,
    }
}

/// The rule that a kind tells; None where it tells none.
fn rule_of_kind(kind: u64) -> Option<RunRule>
    ensures { (rule : Rule) → (result ≡ Some rule) ↔ (kind ≡ kind_of_rule rule) }
{
    match kind {
        RUN => Some(RunRule::OnePass),
        RUN_IN_PASSES => Some(RunRule::Passes),
        _ => None,
    }
}

/// The rule that a shown row tells by its kind; None where it tells none so.
fn rule_told(version: Version, row: &Row) -> Option<RunRule>
    ensures { KIND < length row.now → (rule : Rule) → (result ≡ Some rule) ↔ TellsRule version row.now rule }
{
    match version {
        Version::First | Version::Second => match number_at(row, KIND) {
            Ok(kind) => rule_of_kind(kind),
            Err(_) => None,
        },
        Version::Third => None,
    }
}

/// The entry that a shown row says, in its first sixteen columns, in a version of the file. What says none is told as a damaged
/// database.
pub(crate) fn entry_of(alloc: Global, version: Version, row: &Row) -> Result<Entry, Error>
    ensures exact { (entry : AnyEntry) (rest : Values) → row.now ≡ shown_in version entry ++ rest → IsSpelt entry → IsReadAs entry result }
    ensures fails { 15 < length row.now → IfErr result IsUnread }
{
    match rule_told(version, row) {
        Some(rule) => run_of(row, rule),
        None => entry_in(alloc, row),
    }
}
