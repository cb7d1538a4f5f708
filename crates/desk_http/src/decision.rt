//! What the bytes read so far ask.
ghost use Rattle.std.specs.Prelude.{◌≡◌};
ghost use Rattle.httparse.specs.Grammar.{HasNoRequest, MayBecomeRequest};
ghost use Rattle.desk_http.specs.Connection.{Connection, front};
ghost use Rattle.desk_http.specs.Decisions.{HasCall, IsDecision, asked_in};

use crate::call::{Call, call_of};
use crate::limits::{LONGEST_HEAD, MOST_FIELDS};
use crate::refusal::{Refusal, refusal_of};
use crate::route::Routes;
use desk_book::Request;
use httparse::Status;
use httparse::spans::{EMPTY_HEADER_SPAN, parse_request};

/// What the bytes read so far say of the stream that they begin.
#[derive(Clone, Copy)]
pub enum Decision {
    /// They ask this, with the body that begins at this place.
    Asks(Call, usize),
    /// They are refused.
    Refuses(Refusal),
    /// More are wanted, up to so many bytes in all. A stream that ends before is refused as bad.
    Wants(usize),
}

/// What a whole stream of bytes asks, or how it is refused. The request's texts lie in the stream.
pub fn connection<'a>(routes: &Routes, stream: &'a [u8]) -> Result<Request<'a>, Refusal>
    ensures { Connection stream.now (asked_in result) }
{
    match decide(routes, stream) {
        Decision::Asks(call, start) => { Ok(call.request(stream, start)) }
        Decision::Refuses(refusal) => Err(refusal),
        Decision::Wants(_) => Err(Refusal::BadRequest),
    }
}

/// What the bytes read so far decide, whatever follows them.
pub fn decide(routes: &Routes, bytes: &[u8]) -> Decision
    ensures { IsDecision bytes.now result }
{
    let mut fields = [EMPTY_HEADER_SPAN; MOST_FIELDS];
    let front = front_of(bytes);
    match parse_request(front, &mut fields) {
        Ok(Status::Complete(head)) => match call_of(routes, front, &head, &fields) {
            Ok(call) => by_length(bytes, call, head.len),
            Err(refusal) => Decision::Refuses(refusal),
        },
        Ok(Status::Partial) => unfinished(bytes),
        Err(error) => Decision::Refuses(refusal_of(error)),
    }
}

/// Whether the body of a call that begins at this place is there.
fn by_length(bytes: &[u8], call: Call, start: usize) -> Decision
    requires { HasCall bytes.now call start }
    ensures { IsDecision bytes.now result }
{
    if call.length <= bytes.len() - start {
        Decision::Asks(call, start)
    } else {
        Decision::Wants(start + call.length)
    }
}

/// Whether the head that the bytes begin may become whole.
fn unfinished(bytes: &[u8]) -> Decision
    requires none { HasNoRequest (front bytes.now) }
    requires begins { MayBecomeRequest (front bytes.now) }
    ensures { IsDecision bytes.now result }
{
    if bytes.len() < LONGEST_HEAD {
        Decision::Wants(bytes.len() + 1)
    } else {
        Decision::Refuses(Refusal::HeaderFieldsTooLarge)
    }
}

/// The bytes in which a head has to be whole.
fn front_of(bytes: &[u8]) -> &[u8]
    ensures { result.now ≡ front bytes.now }
{
    &bytes[..bytes.len().min(LONGEST_HEAD)]
}
