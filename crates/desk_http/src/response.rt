//! The response to a request.
ghost use Rattle.std.specs.Prelude.{◌≡◌, [], true, OnErr, OnOk, unwrap_or};
ghost use Rattle.std.specs.Io.KnownBytes.{Appends, append_known};
ghost use Rattle.http.specs.StatusCode.{reason_phrase};
ghost use Rattle.desk_streams.specs.Waiting.{HasRoom, waits};
ghost use Rattle.desk_http.specs.Response.{phrase, response, response_head, status_lines, type_line};

use desk_streams::{Outbox, Sink};
use http::StatusCode;
use std::io;

/// Writes a response, in pieces of `PIECE` bytes and what is left at the end.
pub fn write_response<W: Sink>(
    writer: &mut W,
    outbox: &mut Outbox,
    status: u16,
    mt: Option<u16>,
    text: &[u8],
) -> io::Result<()>
    requires room { HasRoom outbox.old }
    requires empty { waits outbox.old ≡ [] }
    ensures written { OnOk result (Appends (W.contents writer.old) (W.contents writer.new) (response status mt text.now)) }
    ensures failed { OnErr result (W.may_fail ≡ true) }
{
    add_head(writer, outbox, status, mt)?;
    outbox.add(writer, text)?;
    outbox.finish(writer)
}

/// Adds what stands before the text.
fn add_head<W: Sink>(
    writer: &mut W,
    outbox: &mut Outbox,
    status: u16,
    mt: Option<u16>,
) -> io::Result<()>
    requires { HasRoom outbox.old }
    ensures room { OnOk result (HasRoom outbox.new) }
    ensures written { OnOk result (Appends (append_known (W.contents writer.old) (waits outbox.old)) (append_known (W.contents writer.new) (waits outbox.new)) (response_head status mt)) }
    ensures failed { OnErr result (W.may_fail ≡ true) }
{
    add_status(writer, outbox, status)?;
    add_type(writer, outbox, mt)?;
    outbox.add(writer, b"Connection: close\r\n\r\n")
}

/// Adds the status line, and the type of the text.
fn add_status<W: Sink>(writer: &mut W, outbox: &mut Outbox, status: u16) -> io::Result<()>
    requires { HasRoom outbox.old }
    ensures room { OnOk result (HasRoom outbox.new) }
    ensures written { OnOk result (Appends (append_known (W.contents writer.old) (waits outbox.old)) (append_known (W.contents writer.new) (waits outbox.new)) (status_lines status)) }
    ensures failed { OnErr result (W.may_fail ≡ true) }
{
    outbox.add(writer, b"HTTP/1.1 ")?;
    outbox.add_number(writer, status)?;
    outbox.add(writer, b" ")?;
    outbox.add(writer, phrase_of(status).as_bytes())?;
    outbox.add(writer, b"\r\nContent-Type: text/plain\r\n")
}

/// Adds the type of the message, where the text is one.
fn add_type<W: Sink>(writer: &mut W, outbox: &mut Outbox, mt: Option<u16>) -> io::Result<()>
    requires { HasRoom outbox.old }
    ensures room { OnOk result (HasRoom outbox.new) }
    ensures written { OnOk result (Appends (append_known (W.contents writer.old) (waits outbox.old)) (append_known (W.contents writer.new) (waits outbox.new)) (type_line mt)) }
    ensures failed { OnErr result (W.may_fail ≡ true) }
{
    let Some(mt) = mt else {
        return Ok(());
    };
    outbox.add(writer, b"Message-Type: ")?;
    outbox.add_number(writer, mt)?;
    outbox.add(writer, b"\r\n")
}

/// The phrase of a status code; none of another number.
fn phrase_of(status: u16) -> &'static str
    ensures { result.now ≡ phrase status }
{
    match StatusCode::from_u16(status) {
        Ok(code) => reason_of(code),
        Err(_) => "",
    }
}

/// The phrase of a status code; none where it has none.
fn reason_of(code: StatusCode) -> &'static str
    ensures { result.now ≡ unwrap_or (reason_phrase code) [] }
{
    code.canonical_reason().unwrap_or("")
}
