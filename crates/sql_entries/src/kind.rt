//! The numbers that stand for the kinds of entries.

/// A new participant
pub const PARTICIPANT: u64 = 1;

/// A new account
pub const ACCOUNT: u64 = 2;

/// A new security
pub const SECURITY: u64 = 3;

/// A security issued to an account
pub const ISSUE: u64 = 4;

/// A security redeemed from an account
pub const REDEMPTION: u64 = 5;

/// Cash paid in
pub const PAY_IN: u64 = 6;

/// Cash paid out
pub const PAY_OUT: u64 = 7;

/// An instruction
pub const INSTRUCTION: u64 = 8;

/// A cancellation
pub const CANCELLATION: u64 = 9;

/// A settlement run; in earlier versions of the file one of one pass
pub const RUN: u64 = 10;

/// In earlier versions a run in passes
pub const RUN_IN_PASSES: u64 = 11;
