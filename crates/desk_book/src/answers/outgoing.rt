//! Answers on their way out, among the bytes that wait to be written.
ghost use Rattle.std.specs.Prelude.{◌≡◌, ◌≤◌, true, drop, OnErr, OnOk};
ghost use Rattle.std.specs.Io.KnownBytes.{Appends, append_known};
ghost use Rattle.desk_streams.specs.Waiting.{HasRoom, waits};
ghost use Rattle.desk_book.specs.WrittenAnswers.{head_line, written_answer, written_bad_line, written_fault};

use crate::fault::Fault;
use desk_streams::{DIGITS, Outbox, Sink, number_before, text_before};
use std::io;

/// The room in which the first line of an answer is made: for two numbers, a space and a line feed.
const HEAD_ROOM: usize = 2 * DIGITS + 2;

/// Adds an answer to what waits: its status, behind a space the message type where the text is a message, the text,
/// and a line `.`. Each piece that is full is written. After an `Err` nothing is said of what was written.
pub fn add_answer<W: Sink>(
    outbox: &mut Outbox,
    writer: &mut W,
    status: u16,
    mt: Option<u16>,
    text: &[u8],
) -> io::Result<()>
    requires { HasRoom outbox.old }
    ensures room { OnOk result (HasRoom outbox.new) }
    ensures written { OnOk result (Appends (append_known (W.contents writer.old) (waits outbox.old)) (append_known (W.contents writer.new) (waits outbox.new))
        (written_answer status mt text.now)) }
    ensures failed { OnErr result (W.may_fail ≡ true) }
{
    add_head_line(outbox, writer, status, mt)?;
    outbox.add(writer, text)?;
    outbox.add(writer, b"\n.\n")
}

/// Adds what stands in place of an answer.
pub fn add_fault<W: Sink>(outbox: &mut Outbox, writer: &mut W, fault: Fault) -> io::Result<()>
    requires { HasRoom outbox.old }
    ensures room { OnOk result (HasRoom outbox.new) }
    ensures written { OnOk result (Appends (append_known (W.contents writer.old) (waits outbox.old)) (append_known (W.contents writer.new) (waits outbox.new))
        (written_fault fault)) }
    ensures failed { OnErr result (W.may_fail ≡ true) }
{
    add_answer(
        outbox,
        writer,
        fault.status(),
        None,
        fault.text().as_bytes(),
    )
}

/// Adds the answer to what is no request.
pub fn add_bad_line<W: Sink>(outbox: &mut Outbox, writer: &mut W) -> io::Result<()>
    requires { HasRoom outbox.old }
    ensures room { OnOk result (HasRoom outbox.new) }
    ensures written { OnOk result (Appends (append_known (W.contents writer.old) (waits outbox.old)) (append_known (W.contents writer.new) (waits outbox.new))
        written_bad_line) }
    ensures failed { OnErr result (W.may_fail ≡ true) }
{
    add_answer(outbox, writer, 400, None, b"refused 41")
}

/// Adds the first line of an answer.
fn add_head_line<W: Sink>(
    outbox: &mut Outbox,
    writer: &mut W,
    status: u16,
    mt: Option<u16>,
) -> io::Result<()>
    requires { HasRoom outbox.old }
    ensures room { OnOk result (HasRoom outbox.new) }
    ensures written { OnOk result (Appends (append_known (W.contents writer.old) (waits outbox.old)) (append_known (W.contents writer.new) (waits outbox.new)) (head_line status mt)) }
    ensures failed { OnErr result (W.may_fail ≡ true) }
{
    let mut room = [0; HEAD_ROOM];
    let start = head_line(&mut room, status, mt);
    outbox.add(writer, &room[start..])
}

/// Makes the first line of an answer at the end of the room. Gives where it begins.
fn head_line(room: &mut [u8; HEAD_ROOM], status: u16, mt: Option<u16>) -> usize
    ensures within { result ≤ HEAD_ROOM }
    ensures line { drop result room.new ≡ head_line status mt }
{
    let end = text_before(room, HEAD_ROOM, b"\n");
    match mt {
        Some(mt) => {
            let end = number_before(room, end, b" ", u64::from(mt));
            number_before(room, end, b"", u64::from(status))
        }
        None => number_before(room, end, b"", u64::from(status)),
    }
}
