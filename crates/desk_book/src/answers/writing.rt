//! Texts and rows on their way to a writer.
ghost use Rattle.std.specs.Prelude.{◌≡◌, ◌++◌, true, IfErr, OnErr, OnOk};
ghost use Rattle.std.specs.Io.KnownBytes.{Appends};
ghost use Rattle.serde_json.specs.Written.{comma_if};

use desk_msg::SinkFault;
use desk_register::WalkFault;
use desk_streams::Sink;

/// Writes a text.
pub fn write_text<W: Sink>(writer: &mut W, text: &[u8]) -> Result<(), WalkFault>
    ensures written { OnOk result (Appends (W.contents writer.old) (W.contents writer.new) text.now) }
    ensures fault { IfErr result (λ fault. fault ≡ WalkFault.Sink SinkFault.Write) }
    ensures unwritten { OnErr result (W.may_fail ≡ true) }
{
    match writer.put(text) {
        Ok(()) => Ok(()),
        Err(_) => Err(WalkFault::Sink(SinkFault::Write)),
    }
}

/// Writes a row, behind a comma where rows stand before it.
pub fn write_row<W: Sink>(writer: &mut W, is_later: bool, row: &[u8]) -> Result<(), WalkFault>
    ensures written { OnOk result (Appends (W.contents writer.old) (W.contents writer.new) (comma_if is_later ++ row.now)) }
    ensures fault { IfErr result (λ fault. fault ≡ WalkFault.Sink SinkFault.Write) }
    ensures unwritten { OnErr result (W.may_fail ≡ true) }
{
    write_text(writer, comma_before(is_later))?;
    write_text(writer, row)
}

/// The comma between two rows.
fn comma_before(is_later: bool) -> &'static [u8]
    ensures { result.now ≡ comma_if is_later }
{
    if is_later { b"," } else { b"" }
}
