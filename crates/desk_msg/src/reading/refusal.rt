//! From the bytes of a text to its message, or to the refusal.
ghost use Rattle.std.specs.Prelude.{◌≡◌, ◌++◌, true, IfOk};
ghost use Rattle.desk_msg.specs.MessageType.{is_instruction};
ghost use Rattle.std.specs.Fmt.{decimal};
ghost use Rattle.desk_msg.specs.Words.{letters_of_word};
ghost use Rattle.desk_msg.specs.Refused.{ReadsText, refusal_line, fault_of_text, fault_of_fields};

use crate::fault::{MsgFault, Word};
use crate::instruction::Message;
use crate::mt::Mt;
use crate::reading::message::read_message;
use crate::writing::pieces::two_joined;
use desk_text::{TextFault, read_block};
use std::alloc::{AllocError, Global};
use thiserror::Error;

/// Why a text is no message that is read. `TooLong` goes before all others; else the fault is that of the first wrong
/// line; the fields are looked at only where the text is a block. Lines are counted from 1.
#[derive(Clone, Copy, Debug, PartialEq, Eq, Error)]
pub enum TextRefusal {
    /// The first line isn't `{4:`, or the text ends before its `-}`, with no wrong line (refusal 1).
    #[error("no block")]
    NotBlock,
    /// A line that may not stand there (refusal 2).
    #[error("line {0} is wrong")]
    BadLine(usize),
    /// A line that is nested wrongly (refusal 3).
    #[error("line {0} is nested wrongly")]
    BadNesting(usize),
    /// More than `LONGEST_TEXT` bytes (refusal 4).
    #[error("too long")]
    TooLong,
    /// The fields are no message (refusals 5 to 8).
    #[error("{0}")]
    Fields(MsgFault),
}

/// Why no message was read.
#[derive(Clone, Copy, Debug, PartialEq, Eq, Error)]
pub enum ReadFault {
    /// The text is refused, whatever memory there is.
    #[error("{0}")]
    Refused(TextRefusal),
    /// A growth was refused.
    #[error("out of memory")]
    Memory,
}

impl From<TextFault> for ReadFault {
    ghost from_gives = { λ fault read. read ≡ fault_of_text fault };

    fn from(fault: TextFault) -> ReadFault {
        match fault {
            TextFault::NotBlock => ReadFault::Refused(TextRefusal::NotBlock),
            TextFault::BadLine(line) => ReadFault::Refused(TextRefusal::BadLine(line)),
            TextFault::BadNesting(line) => ReadFault::Refused(TextRefusal::BadNesting(line)),
            TextFault::TooLong => ReadFault::Refused(TextRefusal::TooLong),
            TextFault::Memory => ReadFault::Memory,
        }
    }
}

impl From<MsgFault> for ReadFault {
    ghost from_gives = { λ fault read. read ≡ fault_of_fields fault };

    fn from(fault: MsgFault) -> ReadFault {
        ReadFault::Refused(TextRefusal::Fields(fault))
    }
}

/// The message of a text of an instruction's type (MT540 to MT543): block 4 of ISO 15022, read by the profile.
/// Refused: why the text is no message, refusals 1 to 8. Memory: a growth was refused; a text that is too long, or whose
/// first line isn't `{4:`, is refused without one.
pub fn read_instruction_text(alloc: Global, mt: Mt, text: &[u8]) -> Result<Message, ReadFault>
    requires { is_instruction mt ≡ true }
    ensures { ReadsText mt text.now result }
{
    let block = read_block(alloc, text)?;
    let message = read_message(mt, &block)?;
    Ok(message)
}

/// `refused`, the number and a line's number in decimal digits.
fn line_text(alloc: Global, front: &[u8], line: usize) -> Result<Vec<u8>, AllocError>
    ensures { IfOk result (λ text. text.items ≡ front.now ++ decimal line) }
{
    let number = line.to_string(alloc)?;
    two_joined(alloc, front, number.as_bytes())
}

/// `refused`, the number and a field's word.
fn word_text(alloc: Global, front: &[u8], word: Word) -> Result<Vec<u8>, AllocError>
    ensures { IfOk result (λ text. text.items ≡ front.now ++ letters_of_word word) }
{
    two_joined(alloc, front, word.as_str().as_bytes())
}

/// A refusal's text: `refused 1`, `refused 2 LINE`, `refused 3 LINE`, `refused 4`, `refused 5 WORD`, `refused 6
/// WORD`, `refused 7 WORD` or `refused 8`. The only fault is want of memory.
pub fn refusal_text(alloc: Global, refusal: TextRefusal) -> Result<Vec<u8>, AllocError>
    ensures { IfOk result (λ text. text.items ≡ refusal_line refusal) }
{
    match refusal {
        TextRefusal::NotBlock => Vec::from_slice(alloc, b"refused 1"),
        TextRefusal::BadLine(line) => line_text(alloc, b"refused 2 ", line),
        TextRefusal::BadNesting(line) => line_text(alloc, b"refused 3 ", line),
        TextRefusal::TooLong => Vec::from_slice(alloc, b"refused 4"),
        TextRefusal::Fields(MsgFault::Missing(word)) => word_text(alloc, b"refused 5 ", word),
        TextRefusal::Fields(MsgFault::Repeated(word)) => word_text(alloc, b"refused 6 ", word),
        TextRefusal::Fields(MsgFault::BadValue(word)) => word_text(alloc, b"refused 7 ", word),
        TextRefusal::Fields(MsgFault::Function) => Vec::from_slice(alloc, b"refused 8"),
    }
}
