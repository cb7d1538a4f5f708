//! Where an accepted entry stands.

use desk_msg::Reason;

/// How far an instruction has come.
#[derive(Clone, Copy, PartialEq, Eq)]
pub enum State {
    /// It is no instruction.
    NoInstruction,
    Unmatched,
    /// Paired and not settled, for this reason
    Matched(Reason),
    Cancelled,
    Settled,
}

/// Where an entry stands: its mate, its state, and whether its cancellation was requested.
#[derive(Clone, Copy)]
pub struct Standing {
    /// The number of the other instruction of its pair
    pub mate: Option<u64>,
    pub state: State,
    /// Whether an accepted cancellation names it, whatever came of that
    pub cancel_requested: bool,
}
