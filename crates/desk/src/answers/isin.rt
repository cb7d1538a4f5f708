//! `desk isin CODE`.
ghost use Rattle.std.specs.Prelude.{◌≡◌, true, IfOk, OnErr};
ghost use Rattle.std.specs.Io.KnownBytes.{Appends};
ghost use Rattle.desk.specs.IsinAnswer.{IsIsinAnswer};

use crate::status::Status;
use desk_codes::{CodeFault, Isin};
use desk_streams::Sink;
use std::io;

/// Prints whether a code is an ISIN (`valid`), or the first thing that is wrong with it: `length`,
/// `prefix`, `body`, or `check D` with the digit that was expected.
pub fn answer_isin<W: Sink>(code: &[u8], writer: &mut W) -> io::Result<Status>
    ensures told { IfOk result (λ status. IsIsinAnswer code.now status (Appends (W.contents writer.old) (W.contents writer.new))) }
    ensures failed { OnErr result (W.may_fail ≡ true) }
{
    let line: &[u8] = match Isin::parse(code) {
        Ok(_) => {
            writer.put(b"valid\n")?;
            return Ok(Status::Done);
        }
        Err(CodeFault::Length) => b"length\n",
        Err(CodeFault::Prefix) => b"prefix\n",
        Err(CodeFault::Body) => b"body\n",
        Err(CodeFault::Check(digit)) => {
            writer.put(&[b'c', b'h', b'e', b'c', b'k', b' ', b'0' + digit, b'\n'])?;
            return Ok(Status::Refused);
        }
        Err(CodeFault::Shape) => unreachable!(),
    };
    writer.put(line)?;
    Ok(Status::Refused)
}
