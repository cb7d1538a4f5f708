//! Why a text is no block.
ghost use Rattle.std.specs.Prelude.{◌≡◌};
ghost use Rattle.desk_text.specs.declared.faults.TextFault.TheVariants.{Memory};

use std::alloc::{AllocError, AllocFailed};
use thiserror::Error;

/// Why a text isn't read. Lines are counted from 1.
#[derive(Clone, Copy, Debug, PartialEq, Eq, Error)]
pub enum TextFault {
    /// The first line isn't `{4:`, or the text ends before its `-}`, with no wrong line.
    #[error("no block")]
    NotBlock,
    /// A line that may not stand there.
    #[error("line {0} is wrong")]
    BadLine(usize),
    /// A closing that doesn't fit, a seventeenth opening, or `-}` with a sequence open.
    #[error("line {0} is nested wrongly")]
    BadNesting(usize),
    /// More than `LONGEST_TEXT` bytes.
    #[error("too long")]
    TooLong,
    /// A growth was refused.
    #[error("out of memory")]
    Memory,
}

impl From<AllocError> for TextFault {
    ghost from_gives = { λ _ fault. fault ≡ Memory };

    fn from(_error: AllocError) -> TextFault {
        TextFault::Memory
    }
}

impl<T: Drop> From<AllocFailed<T>> for TextFault {
    ghost from_gives = { λ _ fault. fault ≡ Memory };

    fn from(_error: AllocFailed<T>) -> TextFault {
        TextFault::Memory
    }
}
