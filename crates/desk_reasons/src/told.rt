//! What is told of a text that is refused.
ghost use Rattle.std.specs.Prelude.{◌≡◌, true};
ghost use Rattle.desk_text.specs.Seen.{found_in};
ghost use Rattle.desk_msg.specs.Finding.{found_all};
ghost use Rattle.desk_msg.specs.MessageType.{is_instruction};
ghost use Rattle.desk_reasons.specs.Told.{FailsRead, TellsRead, TellsBlock, TellsRefusal, TellsText};
ghost use Rattle.desk_msg.specs.declared.reading.refusal.TextRefusal.TheVariants.{NotBlock};

use crate::blocks::{block_line, block_reason, line_reason, nesting_reason};
use crate::fields::spot_in_fields;
use crate::lines::line_at;
use crate::reasons::Reason;
use desk_msg::{Message, MsgFault, Mt, TextRefusal, read_message};
use desk_text::{Block, Field, TextFault, read_block};
use std::alloc::{AllocError, Global};

/// What is wrong with a text that is refused as a message.
#[derive(Clone, Copy, PartialEq, Eq)]
pub struct Told {
    /// The answer that the desk gives.
    pub refusal: TextRefusal,
    /// The line of the text at which the fault stands, counted from 1; 1 where a field stands nowhere.
    pub line: usize,
    /// What is wrong there.
    pub reason: Reason,
}

/// What is told of fields by what they read as.
fn told_of_read(fields: &[Field], read: Result<Message, MsgFault>) -> Option<Told>
    requires { FailsRead (found_all fields.now) read }
    ensures { TellsRead (found_all fields.now) read result }
{
    match read {
        Ok(_) => None,
        Err(fault) => {
            let spot = spot_in_fields(fields, fault);
            Some(Told {
                refusal: TextRefusal::Fields(fault),
                line: spot.line,
                reason: spot.reason,
            })
        }
    }
}

/// Why the fields of a block are no message.
fn told_of_block(mt: Mt, block: &Block) -> Option<Told>
    requires { is_instruction mt ≡ true }
    ensures { TellsBlock mt (found_in block.now) result }
{
    told_of_read(block.fields(), read_message(mt, block))
}

/// Why a text is no block, where no line of it is wrong but the first.
fn told_of_no_block(text: &[u8]) -> Told
    ensures refusal { result.refusal ≡ NotBlock }
    ensures told { TellsRefusal text.now result.refusal result.line result.reason }
{
    let reason = block_reason(text);
    Told {
        refusal: TextRefusal::NotBlock,
        line: block_line(reason, text),
        reason: Reason::Block(reason),
    }
}

/// Why a text is refused as a message of an instruction's type (MT540 to MT543), in which line that stands, and with which
/// answer; None where it is read. The only fault is want of memory.
pub fn reason_of_message(alloc: Global, mt: Mt, text: &[u8]) -> Result<Option<Told>, AllocError>
    requires { is_instruction mt ≡ true }
    ensures { TellsText mt text.now result }
{
    match read_block(alloc, text) {
        Ok(block) => Ok(told_of_block(mt, &block)),
        Err(TextFault::NotBlock) => Ok(Some(told_of_no_block(text))),
        Err(TextFault::BadLine(line)) => Ok(Some(Told {
            refusal: TextRefusal::BadLine(line),
            line,
            reason: Reason::Line(line_reason(line_at(line, text))),
        })),
        Err(TextFault::BadNesting(line)) => match nesting_reason(alloc, line, text) {
            Ok(reason) => Ok(Some(Told {
                refusal: TextRefusal::BadNesting(line),
                line,
                reason: Reason::Nesting(reason),
            })),
            Err(fault) => Err(fault),
        },
        Err(TextFault::TooLong) => Ok(Some(Told {
            refusal: TextRefusal::TooLong,
            line: 1,
            reason: Reason::TooLong,
        })),
        Err(TextFault::Memory) => Err(AllocError),
    }
}
