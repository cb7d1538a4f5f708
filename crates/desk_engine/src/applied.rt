//! How an accepted entry fared, and its reply.
ghost use Rattle.std.specs.Prelude.{◌+◌, ◌≤◌};
ghost use Rattle.desk_rules.specs.declared.limits.TheConstants.{MOST_ENTRIES};

use desk_rules::{Reply, State};

/// What came of an accepted entry.
#[derive(Clone, Copy)]
pub struct Applied {
    /// Its number, from 1
    pub number: u64,
    /// The number of the earlier instruction that it was paired with
    pub mate: Option<u64>,
    /// How many pairs it settled; 0 unless it is a run
    pub settled: u64,
    /// How many pairs that were due in it are not settled; 0 unless it is a run
    pub waiting: u64,
    /// How many passes a run made, each counted as it begins, the last one also where it settled nothing; 0 unless it is a run
    pub passes: u64,
    /// Where the instruction stands then that it asks to cancel; NoInstruction unless it is a cancellation
    pub named: State,
    ghost within: { number ≤ MOST_ENTRIES },
    ghost few: { settled ≤ number },
    ghost begun: { passes ≤ settled + 1 },
}

/// An accepted entry: what came of it, and its reply, as it is kept with it.
#[derive(Drop)]
pub struct Accepted {
    pub applied: Applied,
    pub reply: Reply,
}
