//! `desk read MT`.
ghost use Rattle.std.specs.Prelude.{◌≡◌, ◌++◌, codes, true, IfOk, OnErr, OnOk};
ghost use Rattle.std.specs.Io.KnownBytes.{Appends};
ghost use Rattle.desk_msg.specs.MessageType.{is_instruction};
ghost use Rattle.desk_msg.specs.Refused.{refusal_line};
ghost use Rattle.desk.specs.ReadAnswer.{IsReadAnswer, IsRefusalTold, IsTextAnswer};

use crate::status::{Failure, Status, tell_failure};
use desk_msg::{MsgFault, Mt, ReadFault, TextRefusal, fields_text, read_instruction_text};
use desk_streams::{InputFault, Sink, Source, read_whole};
use desk_text::LONGEST_TEXT;
use std::alloc::Global;
use std::io;

/// Reads a message of a type, block 4 of it, and prints what its fields say or why it is refused; `fault io` tells
/// that the reader failed, and `fault 60` that memory is wanting.
pub fn answer_read<R: Source, W: Sink>(
    alloc: Global,
    mt: Mt,
    reader: &mut R,
    writer: &mut W,
) -> io::Result<Status>
    requires { is_instruction mt ≡ true }
    ensures told { IfOk result (λ status. IsReadAnswer mt (R.remaining reader.old) (reader.new ≡ reader.old) R.may_fail status (Appends (W.contents writer.old) (W.contents writer.new))) }
    ensures failed { OnErr result (W.may_fail ≡ true) }
{
    match read_whole(alloc, reader, LONGEST_TEXT) {
        Ok(text) => answer_text(alloc, mt, text.as_slice(), writer),
        Err(InputFault::TooLong) => tell_refusal(TextRefusal::TooLong, writer),
        Err(InputFault::ReadFailed) => tell_failure(Failure::Input, writer),
        Err(InputFault::Memory) => tell_failure(Failure::Memory, writer),
    }
}

/// Prints what a text of a type says, or why it is refused.
fn answer_text<W: Sink>(alloc: Global, mt: Mt, text: &[u8], writer: &mut W) -> io::Result<Status>
    requires { is_instruction mt ≡ true }
    ensures told { IfOk result (λ status. IsTextAnswer mt text.now status (Appends (W.contents writer.old) (W.contents writer.new))) }
    ensures failed { OnErr result (W.may_fail ≡ true) }
{
    match read_instruction_text(alloc, mt, text) {
        Ok(message) => match fields_text(alloc, &message) {
            Ok(fields) => {
                write_line(fields.as_slice(), writer)?;
                Ok(Status::Done)
            }
            Err(_) => tell_failure(Failure::Memory, writer),
        },
        Err(ReadFault::Refused(refusal)) => tell_refusal(refusal, writer),
        Err(ReadFault::Memory) => tell_failure(Failure::Memory, writer),
    }
}

/// Prints why a text is refused, and gives that status.
fn tell_refusal<W: Sink>(refusal: TextRefusal, writer: &mut W) -> io::Result<Status>
    ensures told { IfOk result (λ status. IsRefusalTold refusal status (Appends (W.contents writer.old) (W.contents writer.new))) }
    ensures failed { OnErr result (W.may_fail ≡ true) }
{
    write_refusal(refusal, writer)?;
    Ok(Status::Refused)
}

/// Writes a refusal's line, which takes no memory.
fn write_refusal<W: Sink>(refusal: TextRefusal, writer: &mut W) -> io::Result<()>
    ensures written { OnOk result (Appends (W.contents writer.old) (W.contents writer.new) (refusal_line refusal ++ codes "\n")) }
    ensures failed { OnErr result (W.may_fail ≡ true) }
{
    match refusal {
        TextRefusal::NotBlock => writer.put(b"refused 1\n"),
        TextRefusal::BadLine(line) => writer.put_text(format_args!("refused 2 {line}\n")),
        TextRefusal::BadNesting(line) => writer.put_text(format_args!("refused 3 {line}\n")),
        TextRefusal::TooLong => writer.put(b"refused 4\n"),
        TextRefusal::Fields(MsgFault::Missing(word)) => {
            writer.put_text(format_args!("refused 5 {}\n", word.as_str()))
        }
        TextRefusal::Fields(MsgFault::Repeated(word)) => {
            writer.put_text(format_args!("refused 6 {}\n", word.as_str()))
        }
        TextRefusal::Fields(MsgFault::BadValue(word)) => {
            writer.put_text(format_args!("refused 7 {}\n", word.as_str()))
        }
        TextRefusal::Fields(MsgFault::Function) => writer.put(b"refused 8\n"),
    }
}

/// Writes a line and its line feed.
fn write_line<W: Sink>(line: &[u8], writer: &mut W) -> io::Result<()>
    ensures written { OnOk result (Appends (W.contents writer.old) (W.contents writer.new) (line.now ++ codes "\n")) }
    ensures failed { OnErr result (W.may_fail ≡ true) }
{
    writer.put(line)?;
    writer.put(b"\n")
}
