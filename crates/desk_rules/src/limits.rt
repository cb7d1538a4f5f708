//! The limits of the desk, each said once. They are this depository's own choice.

/// The most of a security, in units or by face amount, that one command issues or redeems, and that is outstanding.
pub const MOST_QUANTITY: u64 = 99_999_999_999_999;

/// The most of a currency, in minor units, that one command pays in or out, and that is paid in less what is paid out.
pub const MOST_PAID: u64 = 999_999_999_999_999_999;

/// The most entries that a desk holds.
pub const MOST_ENTRIES: u64 = 999_999_999;

/// How many messages a pair causes at most: an advice to its earlier party, and a confirmation to each when it settles.
pub const SENT_A_PAIR: u64 = 3;

/// The most messages that a desk sends: more than those of all pairs, which are fewer than the entries.
pub const MOST_SENT: u64 = 3_000_000_000;
