//! Rows on their way to a writer.
ghost use Rattle.std.specs.Prelude.{◌≡◌, true, Ok, Err};
ghost use Rattle.desk_register.specs.Ends.{at_register};
ghost use Rattle.desk_report.specs.RowWritten.{WritesRow};
ghost use Rattle.desk_journal.specs.JournalData.{journal_data};

use crate::rows::journal::{JournalRow, MessageKey};
use crate::rows::json::journal_json;
use crate::rows::text::journal_text;
use desk_book::{write_row, write_text};
use desk_msg::SinkFault;
use desk_register::WalkFault;
use desk_report::Format;
use desk_streams::Sink;
use std::alloc::Global;

/// Writes an accepted entry with the messages that were sent because of it: as JSON behind a comma where rows stand before it,
/// or in a line, and one more for each message.
///
/// Sink: the writer failed, or memory was wanting for the row.
pub fn write_journal_row<W: Sink>(
    alloc: Global,
    format: Format,
    row: &JournalRow,
    messages: &[MessageKey],
    is_later: bool,
    writer: &mut W,
) -> Result<(), WalkFault>
    ensures written { format ≡ Format.Json
        → WritesRow (journal_data row.now messages.now) is_later result (W.contents writer.old) (W.contents writer.new) }
    ensures register { at_register result ≡ Ok tt }
    ensures unwritten { result ≡ Err (WalkFault.Sink SinkFault.Write) → W.may_fail ≡ true }
{
    let text = match format {
        Format::Json => journal_json(alloc, row, messages),
        Format::Text => journal_text(alloc, row, messages),
    };
    let Ok(text) = text else {
        return Err(WalkFault::Sink(SinkFault::Memory));
    };
    match format {
        Format::Json => write_row(writer, is_later, text.as_bytes()),
        Format::Text => write_text(writer, text.as_bytes()),
    }
}
