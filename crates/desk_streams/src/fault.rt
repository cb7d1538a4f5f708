//! Why a reader gave no text.
use thiserror::Error;

/// Why a reader gave no text.
#[derive(Clone, Copy, Debug, PartialEq, Eq, Error)]
pub enum InputFault {
    /// There was no room for the text; nothing was read.
    #[error("out of memory")]
    Memory,
    /// The reader failed. An interrupted read counts as failed.
    #[error("reading failed")]
    ReadFailed,
    /// The reader has more bytes than the longest text.
    #[error("the text is too long")]
    TooLong,
}
