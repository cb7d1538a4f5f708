//! What can be wrong with a line of a script.
ghost use Rattle.std.specs.Prelude.{◌≡◌, ℕ, List, true, OnErr, OnOk};
ghost use Rattle.std.specs.Io.KnownBytes.{Appends};

use crate::commands::fault::words_of_code;
use crate::lines::form::Named;
use desk_codes::CodeFault;
use desk_streams::Sink;
use std::io;

/// What is wrong with a line that asks nothing: the first of these that fits.
#[derive(Clone, Copy)]
pub enum LineFault {
    /// It is longer than `desk_book::LONGEST_LINE`
    TooLong,
    /// Its first word is none that asks something
    UnknownWord,
    /// Something stands behind `op`, as a command that belongs on the lines behind it
    BehindCommand,
    /// Something stands behind `sums`
    BehindSums,
    /// It has not the two parts behind its first word, single spaces between them
    PartMissing(Named),
    /// What stands behind its first word is no BIC, for this reason
    NoBic(CodeFault),
    /// Something stands behind the message type, as a message that belongs on the lines behind it
    BehindType,
    /// What stands behind the BIC is no type of a message that the desk reads
    NoType,
    /// What stands behind the BIC is no number of a sent message
    NoNumber,
    /// The line is in order, and no line of the script ends the body behind it
    NoStop,
}

/// Writes what is wrong with a line, in words of printable ASCII, with no quotes and no full stop behind.
pub fn write_line_fault<W: Sink>(fault: LineFault, writer: &mut W) -> io::Result<()>
    ensures written { OnOk result ((words : List ℕ) × Appends (W.contents writer.old) (W.contents writer.new) words) }
    ensures failed { OnErr result (W.may_fail ≡ true) }
{
    match fault {
        LineFault::NoBic(fault) => {
            let words = words_of_code(fault);
            writer.put_text(format_args!("the BIC {words}"))
        }
        _ => writer.put(words_of(fault)),
    }
}

/// What a fault is called that tells no other.
fn words_of(fault: LineFault) -> &'static [u8] {
    match fault {
        LineFault::TooLong => b"the line has more than 1024 bytes",
        LineFault::UnknownWord => b"the first word is none of op, in, status, sent, holdings, sums",
        LineFault::BehindCommand =>
            b"op stands alone on its line, and its body on the lines behind it",
        LineFault::BehindSums => b"sums stands alone on its line",
        LineFault::PartMissing(Named::Message) => b"a part is missing of in BIC MT",
        LineFault::PartMissing(Named::Status) => b"a part is missing of status BIC REFERENCE",
        LineFault::PartMissing(Named::Sent) => b"a part is missing of sent BIC K",
        LineFault::PartMissing(Named::Holdings) => b"a part is missing of holdings BIC ACCOUNT",
        LineFault::NoBic(_) => b"the BIC is none",
        LineFault::BehindType =>
            b"in BIC MT stands alone on its line, and the body on the lines behind it",
        LineFault::NoType => b"the message type is none of 540, 541, 542, 543",
        LineFault::NoNumber => b"the number of the message is not one to nine digits",
        LineFault::NoStop => b"no line with a full stop alone ends the body",
    }
}
