//! What an account holds.

use desk_codes::Isin;

/// A security, and how much of it an account holds.
#[derive(Clone, Copy)]
pub struct Holding {
    pub isin: Isin,
    pub quantity: u64,
}
