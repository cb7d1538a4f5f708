//! Reading a request, in whatever pieces it comes.
ghost use Rattle.std.specs.Prelude.{◌≡◌, ◌≤◌, ◌+◌, ◌↔◌, ◌++◌, [], ℕ, List, vec_len, vec_capacity, IfOk, IfSome, OnErr, IsTrue, true, false};
ghost use Rattle.std.specs.Io.KnownBytes.{Consumes, IsAtEnd};
ghost use Rattle.desk_http.specs.Connection.{Connection};
ghost use Rattle.desk_http.specs.Decisions.{asked_by_found};

use crate::call::Call;
use crate::decision::{Decision, decide};
use crate::limits::LONGEST_REQUEST;
use crate::refusal::Refusal;
use crate::route::Routes;
use desk_streams::{CHUNK, Source, read_more};
use std::io;

/// A call, and the place in what was read where its body begins.
pub type Found = (Call, usize);

/// Reads as long as the bytes read so far leave open what the stream asks, and says what that is.
pub fn read_request<R: Source>(
    routes: &Routes,
    reader: &mut R,
    input: &mut Vec<u8>,
) -> io::Result<Result<Found, Refusal>>
    requires empty { input.old.items ≡ [] }
    requires room { LONGEST_REQUEST ≤ vec_capacity input.old }
    ensures asked { IfOk result (λ found. IfSome (R.remaining reader.old) (λ stream. Connection stream (asked_by_found input.new.items found))) }
    ensures within { IfOk result (λ found. IfOk found (λ f. f.1 + f.0.length ≤ vec_len input.new)) }
    ensures taken { Consumes (R.remaining reader.old) (R.remaining reader.new) input.new.items }
    ensures limit { vec_len input.new ≤ LONGEST_REQUEST }
    ensures unread { OnErr result (R.may_fail ≡ true) }
{
    let mut chunk = [0; CHUNK];
    'reads: loop {
        let count = match decide(routes, input) {
            Decision::Asks(call, start) => return Ok(Ok((call, start))),
            Decision::Refuses(refusal) => return Ok(Err(refusal)),
            Decision::Wants(count) => count,
        };
        if !read_at_least(reader, &mut chunk, input, count)? {
            return Ok(Err(Refusal::BadRequest));
        }
    }
}

/// Reads until so many bytes are there, or the stream is at its end. Whether they are there. Each read asks for as many
/// bytes as a request may still have.
fn read_at_least<R: Source>(
    reader: &mut R,
    chunk: &mut [u8; CHUNK],
    input: &mut Vec<u8>,
    count: usize,
) -> io::Result<bool>
    requires count { count ≤ LONGEST_REQUEST }
    requires room { LONGEST_REQUEST ≤ vec_capacity input.old }
    requires limit { vec_len input.old ≤ LONGEST_REQUEST }
    ensures taken { (more : List ℕ) × (input.new.items ≡ input.old.items ++ more)
        × Consumes (R.remaining reader.old) (R.remaining reader.new) more }
    ensures whole { IfOk result (λ whole. IsTrue whole ↔ (count ≤ vec_len input.new)) }
    ensures ended { IfOk result (λ whole. whole ≡ false → IsAtEnd (R.remaining reader.new)) }
    ensures room { LONGEST_REQUEST ≤ vec_capacity input.new }
    ensures limit { vec_len input.new ≤ LONGEST_REQUEST }
    ensures unread { OnErr result (R.may_fail ≡ true) }
{
    'reads: while input.len() < count {
        if !read_more(reader, chunk, input, LONGEST_REQUEST)? {
            return Ok(false);
        }
    }
    Ok(true)
}
