//! How a pair fares in a run.

use desk_rules::Lack;

/// How a pair fared in a run.
#[derive(Clone, Copy)]
pub enum Outcome {
    Settled,
    Lacks(Lack),
}
