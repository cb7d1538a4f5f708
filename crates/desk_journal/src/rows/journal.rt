//! An accepted entry in the desk's journal.

use desk_codes::{Bic, Day};
use desk_msg::Reason;
use desk_rules::Entry;

/// A message that the desk sent, as its addressee asks for it.
#[derive(Clone, Copy)]
pub struct MessageKey {
    /// The message's type: 548, or 544 to 547
    pub mt: u16,
    /// The participant that it was sent to
    pub bic: Bic,
    /// Its number among those that were sent to the participant, from 1
    pub number: u64,
}

/// How an accepted entry fares by now.
#[derive(Clone, Copy)]
pub enum Outcome {
    /// A command of the operator that is no run: it is booked
    Booked,
    /// An instruction without a mate
    Unmatched,
    /// A matched instruction that waits for its settlement
    Matched {
        mate: Option<u64>,
        reason: Reason,
    },
    /// A settled instruction: the number of its mate, that of the run that settled it, and the run's day
    Settled {
        mate: Option<u64>,
        run: Option<u64>,
        day: Option<Day>,
    },
    /// A cancelled instruction; it keeps its mate, if it has one
    Cancelled {
        mate: Option<u64>,
    },
    /// A cancellation whose instruction is cancelled
    CancelDone {
        instruction: Option<u64>,
    },
    /// A cancellation that waits for one of the other side
    CancelWaits {
        instruction: Option<u64>,
    },
    /// A cancellation whose instruction was settled all the same
    CancelLate {
        instruction: Option<u64>,
    },
    /// A settlement run: how many pairs it settled, and how many due ones it left
    Ran {
        settled: u64,
        waiting: u64,
    },
}

/// An accepted entry, and how it fares by now.
#[derive(Clone, Copy)]
pub struct JournalRow {
    pub number: u64,
    pub entry: Entry,
    pub outcome: Outcome,
}
