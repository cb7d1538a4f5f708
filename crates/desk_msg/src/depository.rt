//! The depository.

/// The depository's own BIC: the place of settlement of the instructions that it takes, and of its confirmations.
pub const DESK_BIC: &[u8] = b"DESKDEFF";
