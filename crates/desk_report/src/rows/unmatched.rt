//! An instruction that is not matched.

use desk_codes::Reference;
use desk_rules::Instructed;

/// In what two instructions differ that are of opposite sides, of one security, and name each other's senders.
#[derive(Clone, Copy)]
pub struct Differences {
    /// How the quantity counts: units, or face amount
    pub kind: bool,
    pub quantity: bool,
    /// The settlement day
    pub day: bool,
    /// One is free of payment, and the other against it
    pub payment: bool,
    /// Both are against payment, in different currencies
    pub currency: bool,
    /// Both are against payment in one currency, for different amounts
    pub amount: bool,
}

/// The unmatched instruction that comes nearest to being another's opposite.
#[derive(Clone, Copy)]
pub struct Nearest {
    pub number: u64,
    pub reference: Reference,
    pub differs: Differences,
}

/// An instruction that is not matched.
#[derive(Clone, Copy)]
pub struct UnmatchedInstruction {
    pub number: u64,
    pub instructed: Instructed,
    /// The least-numbered unmatched instruction of the opposite side, of the same security, where each names the other's
    /// sender; None where there is none
    pub nearest: Option<Nearest>,
}
