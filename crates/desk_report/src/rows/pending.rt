//! A matched pair that waits for its settlement.

use desk_codes::{AccountId, Bic, Day, Isin, Reference};
use desk_msg::{Cash, Kind, Reason};

/// One side of a matched pair.
#[derive(Clone, Copy)]
pub struct Side {
    /// The number of its instruction
    pub number: u64,
    /// The participant that sent it
    pub bic: Bic,
    pub reference: Reference,
    /// Its safekeeping account
    pub account: AccountId,
    /// Whether it has asked to cancel
    pub is_cancel_requested: bool,
}

/// A matched pair that waits for its settlement. Its number is the greater one of its sides'.
#[derive(Clone, Copy)]
pub struct PendingPair {
    /// The settlement day
    pub day: Day,
    /// Why it waits
    pub reason: Reason,
    /// How much is lacking now of what the last try found too little of: units or face amount of the security for LACK, minor
    /// units of the currency for MONY, 0 where it has come since; None where no run has tried the pair
    pub lacking: Option<u64>,
    pub isin: Isin,
    pub kind: Kind,
    /// In units or by face amount
    pub quantity: u64,
    /// None free of payment
    pub cash: Option<Cash>,
    pub deliverer: Side,
    pub receiver: Side,
}
