//! Why a text is no ISIN or no BIC.

use thiserror::Error;

/// Why a text is no code. `Isin::parse` gives Length, Prefix, Body or Check, and `Bic::parse` Length or
/// Shape; each the first of its list that fits.
#[derive(Clone, Copy, Debug, PartialEq, Eq, Error)]
pub enum CodeFault {
    /// Not 12 characters (ISIN), not 8 or 11 (BIC).
    #[error("length")]
    Length,
    /// An ISIN's first two characters are not letters A to Z.
    #[error("prefix")]
    Prefix,
    /// One of an ISIN's next nine characters is no letter A to Z and no digit.
    #[error("body")]
    Body,
    /// An ISIN's last character is not its check digit, which is this number, 0 to 9.
    #[error("check {0}")]
    Check(u8),
    /// A BIC's characters are not four letters or digits, two letters, and letters or digits.
    #[error("shape")]
    Shape,
}
