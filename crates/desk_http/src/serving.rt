//! One connection: its request, asked of the desk, and the response.
ghost use Rattle.std.specs.Prelude.{◌≡◌, ℕ, ◌+◌, ◌≤◌, List, [], true, length, Option, IfSome, IfOk, OnErr, OnOk, Ok, Err};
ghost use Rattle.std.specs.Io.KnownBytes.{Appends, Consumes};
ghost use Rattle.desk_book.specs.Held.{IfHolds};
ghost use Rattle.desk_book.specs.Left.{LeavesDesk};
ghost use Rattle.desk_book.specs.Asked.{asked_by};
ghost use Rattle.desk_streams.specs.Waiting.{HasRoom, waits};
ghost use Rattle.desk_http.specs.Connection.{Connection};
ghost use Rattle.desk_http.specs.Decisions.{asked_by_found};
ghost use Rattle.desk_http.specs.Served.{Responds, Serves, refusal_response};

use crate::limits::LONGEST_REQUEST;
use crate::reading::{Found, read_request};
use crate::refusal::{HttpFault, Refusal};
use crate::response::write_response;
use crate::route::Routes;
use desk_book::{Desk, Request};
use desk_register::Register;
use desk_streams::{Outbox, Sink, Source};
use std::alloc::Global;
use std::io;

/// Reads a request, asks it of the desk and writes the response. The room for the request, and for a piece of the
/// response, is taken before the first read, so after `Memory` nothing was read; after `ReadFailed` nothing was asked or
/// written; after `WriteFailed` what was asked stands, and asked again it is answered again. What is refused asks
/// nothing. Each read but the last gives a byte or more, and `LONGEST_REQUEST` bytes at most are read.
pub fn serve_one<I: Source, O: Sink, R: Register>(
    alloc: Global,
    routes: &Routes,
    reader: &mut I,
    writer: &mut O,
    desk: &mut Desk<R>,
) -> Result<(), HttpFault>
    ensures responds { OnOk result (IfHolds R.view desk.old desk.new (λ books.
        Responds desk.old.is_closed books (I.remaining reader.old) (O.contents writer.old) (O.contents writer.new) desk.new.is_closed (R.view desk.old.register) (R.view desk.new.register))) }
    ensures unread { result ≡ Err HttpFault.ReadFailed → (desk.new ≡ desk.old) × (writer.new ≡ writer.old) × (I.may_fail ≡ true) }
    ensures memory { result ≡ Err HttpFault.Memory → (desk.new ≡ desk.old) × (writer.new ≡ writer.old) × (reader.new ≡ reader.old) }
    ensures stands { result ≡ Err HttpFault.WriteFailed → IfHolds R.view desk.old desk.new (λ books.
        Serves desk.old.is_closed books (I.remaining reader.old) desk.new.is_closed (R.view desk.old.register) (R.view desk.new.register)) }
    ensures unwritten { result ≡ Err HttpFault.WriteFailed → O.may_fail ≡ true }
    ensures taken { (taken : List ℕ) × Consumes (I.remaining reader.old) (I.remaining reader.new) taken × (length taken ≤ LONGEST_REQUEST) }
    ensures left { LeavesDesk R.view R.in_memory desk.old desk.new }
{
    let Ok(mut input) = Vec::with_capacity(alloc, LONGEST_REQUEST) else {
        return Err(HttpFault::Memory);
    };
    let Ok(mut outbox) = Outbox::new(alloc) else {
        return Err(HttpFault::Memory);
    };
    let Ok(found) = read_request(routes, reader, &mut input) else {
        return Err(HttpFault::ReadFailed);
    };
    match respond(alloc, found, &input, &mut outbox, writer, desk) {
        Ok(()) => Ok(()),
        Err(_) => Err(HttpFault::WriteFailed),
    }
}

/// Asks what was found, if it is a request, and writes the response.
fn respond<O: Sink, R: Register>(
    alloc: Global,
    found: Result<Found, Refusal>,
    input: &[u8],
    outbox: &mut Outbox,
    writer: &mut O,
    desk: &mut Desk<R>,
) -> io::Result<()>
    requires within { IfOk found (λ f. f.1 + f.0.length ≤ length input.now) }
    requires room { HasRoom outbox.old }
    requires empty { waits outbox.old ≡ [] }
    ensures responds { (stream : Option (List ℕ)) → IfSome stream (λ bytes. Connection bytes (asked_by_found input.now found)) → IfHolds R.view desk.old desk.new (λ books.
        OnOk result (Responds desk.old.is_closed books stream (O.contents writer.old) (O.contents writer.new) desk.new.is_closed (R.view desk.old.register) (R.view desk.new.register))) }
    ensures stands { (stream : Option (List ℕ)) → IfSome stream (λ bytes. Connection bytes (asked_by_found input.now found)) → IfHolds R.view desk.old desk.new (λ books.
        Serves desk.old.is_closed books stream desk.new.is_closed (R.view desk.old.register) (R.view desk.new.register)) }
    ensures failed { OnErr result (O.may_fail ≡ true) }
    ensures left { LeavesDesk R.view R.in_memory desk.old desk.new }
{
    match found {
        Ok((call, start)) => answer(alloc, &call.request(input, start), outbox, writer, desk),
        Err(refusal) => refuse(refusal, outbox, writer),
    }
}

/// Asks a request, and writes the response to the answer.
fn answer<O: Sink, R: Register>(
    alloc: Global,
    request: &Request<'_>,
    outbox: &mut Outbox,
    writer: &mut O,
    desk: &mut Desk<R>,
) -> io::Result<()>
    requires room { HasRoom outbox.old }
    requires empty { waits outbox.old ≡ [] }
    ensures responds { (stream : Option (List ℕ)) → IfSome stream (λ bytes. Connection bytes (Ok (asked_by request.now))) → IfHolds R.view desk.old desk.new (λ books.
        OnOk result (Responds desk.old.is_closed books stream (O.contents writer.old) (O.contents writer.new) desk.new.is_closed (R.view desk.old.register) (R.view desk.new.register))) }
    ensures stands { (stream : Option (List ℕ)) → IfSome stream (λ bytes. Connection bytes (Ok (asked_by request.now))) → IfHolds R.view desk.old desk.new (λ books.
        Serves desk.old.is_closed books stream desk.new.is_closed (R.view desk.old.register) (R.view desk.new.register)) }
    ensures failed { OnErr result (O.may_fail ≡ true) }
    ensures left { LeavesDesk R.view R.in_memory desk.old desk.new }
{
    match desk.ask(alloc, request) {
        Ok(reply) => write_response(
            writer,
            outbox,
            reply.status,
            reply.mt,
            reply.text.as_bytes(),
        ),
        Err(fault) => write_response(
            writer,
            outbox,
            fault.status(),
            None,
            fault.text().as_bytes(),
        ),
    }
}

/// Writes the response to what is refused.
fn refuse<O: Sink>(refusal: Refusal, outbox: &mut Outbox, writer: &mut O) -> io::Result<()>
    requires room { HasRoom outbox.old }
    requires empty { waits outbox.old ≡ [] }
    ensures written { OnOk result (Appends (O.contents writer.old) (O.contents writer.new) (refusal_response refusal)) }
    ensures failed { OnErr result (O.may_fail ≡ true) }
{
    write_response(
        writer,
        outbox,
        refusal.status().as_u16(),
        None,
        refusal.text().as_bytes(),
    )
}
