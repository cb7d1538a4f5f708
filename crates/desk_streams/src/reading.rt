//! Reading all that a reader gives.
ghost use Rattle.std.specs.Prelude.{◌≡◌, ℕ, ◌<◌, ◌≤◌, ◌+◌, ◌↔◌, ◌++◌, List, length, vec_len, vec_capacity, IfOk, IfSome, OnErr, IsTrue, Err, true, false};
ghost use Rattle.std.specs.Io.KnownBytes.{Consumes, Keeps, IsAtEnd};

use crate::fault::InputFault;
use crate::source::Source;
use std::alloc::Global;
use std::io;

/// So many bytes are asked for in one read.
pub const CHUNK: usize = 4096;

/// So many bytes are read whole, at most.
pub const LONGEST_READ: usize = 16_777_216;

/// All that the reader gives, which may be so many bytes at most. The room is taken before the first read, and one
/// byte at most is read past the longest text. Each read but the last gives a byte or more. A reader that cannot fail
/// is never told to have failed.
pub fn read_whole<R: Source>(
    alloc: Global,
    reader: &mut R,
    longest: usize,
) -> Result<Vec<u8>, InputFault>
    requires { longest ≤ LONGEST_READ }
    ensures whole { IfOk result (λ text. IfSome (R.remaining reader.old) (λ input. text.items ≡ input)) }
    ensures fits { IfOk result (λ text. vec_len text ≤ longest) }
    ensures taken { (taken : List ℕ) × Consumes (R.remaining reader.old) (R.remaining reader.new) taken × (length taken ≤ longest + 1) }
    ensures too_long { result ≡ Err InputFault.TooLong → IfSome (R.remaining reader.old) (λ input. longest < length input) }
    ensures memory { result ≡ Err InputFault.Memory → reader.new ≡ reader.old }
    ensures unread { result ≡ Err InputFault.ReadFailed → R.may_fail ≡ true }
{
    let Ok(mut text) = Vec::with_capacity(alloc, longest + 1) else {
        return Err(InputFault::Memory);
    };
    let mut chunk = [0; CHUNK];
    'reads: while text.len() <= longest {
        match read_more(reader, &mut chunk, &mut text, longest + 1) {
            Ok(true) => {}
            Ok(false) => return Ok(text),
            Err(_) => return Err(InputFault::ReadFailed),
        }
    }
    Err(InputFault::TooLong)
}

/// Reads once through a chunk, into room that is there, and so that the buffer has `limit` bytes at most. Whether a byte
/// came: if not, the reader is at its end. An interrupted read counts as failed; after a failed one nothing was read.
pub fn read_more<R: Source>(
    reader: &mut R,
    chunk: &mut [u8; CHUNK],
    buffer: &mut Vec<u8>,
    limit: usize,
) -> io::Result<bool>
    requires more { vec_len buffer.old < limit }
    requires room { limit ≤ vec_capacity buffer.old }
    ensures ok { IfOk result (λ came. (more : List ℕ)
        × (buffer.new.items ≡ buffer.old.items ++ more)
        × Consumes (R.remaining reader.old) (R.remaining reader.new) more
        × (IsTrue came ↔ (0 < length more))
        × (came ≡ false → IsAtEnd (R.remaining reader.new))) }
    ensures err { OnErr result ((buffer.new.items ≡ buffer.old.items)
        × Keeps (R.remaining reader.old) (R.remaining reader.new)
        × (R.may_fail ≡ true)) }
    ensures limit { vec_len buffer.new ≤ limit }
    ensures room { limit ≤ vec_capacity buffer.new }
{
    let wanted = CHUNK.min(limit - buffer.len());
    let count = reader.read_some(&mut chunk[..wanted])?;
    buffer.extend_from_slice(&chunk[..count]).unwrap();
    Ok(count != 0)
}
