//! The statement of holdings, MT535, written row by row.
ghost use Rattle.std.specs.Prelude.{◌≡◌, ◌<◌, ◌^◌, ◌++◌, true, false, Err, IfOk, OnOk, codes};
ghost use Rattle.std.specs.Io.KnownBytes.{Appends};
ghost use Rattle.desk_codes.specs.Account.{IsAccount};
ghost use Rattle.desk_codes.specs.CheckDigit.{IsIsin};
ghost use Rattle.desk_codes.specs.Day.{IsDay};
ghost use Rattle.desk_msg.specs.OwnText.{own_reference};
ghost use Rattle.desk_msg.specs.Profile.{code_of_kind};
ghost use Rattle.desk_msg.specs.HoldingsText.{holdings};
ghost use Rattle.desk_msg.specs.TookRows.{TookAll};
ghost use Rattle.desk_msg.specs.HoldingsPieces.{added_by, rest_text, TakesRow};
ghost use Rattle.desk_msg.specs.RowPieces.{pieces_text, row_behind, general_before};

use crate::instruction::Kind;
use crate::writing::digits::number_text;
use crate::writing::pieces::joined;
use crate::writing::statement_row::{RowSink, SinkFault, StatementRow};
use crate::writing::status::{Own, own_value};
use desk_codes::{AccountId, Day};
use desk_streams::Sink;
use std::alloc::{AllocError, Global};

/// What a statement says of itself.
#[derive(Clone, Copy)]
struct Heading {
    /// How many entries were accepted by then
    entries: u64,
    day: Day,
    account: AccountId,
}

/// What stands behind the account in a statement, or a row alone, in pieces.
#[derive(Clone, Copy)]
struct RowPieces<'a> {
    front: &'a [u8],
    security: &'a [u8],
    balance_begins: &'a [u8],
    quantity: &'a [u8],
    end: &'a [u8],
}

/// What the line of a row's balance begins with, behind the line in front of it.
fn balance_begins<'a>(kind: Kind) -> &'a [u8]
    ensures { result.now ≡ codes "\r\n:93B::AGGR//" ++ (code_of_kind kind ++ codes "/") }
{
    match kind {
        Kind::Unit => b"\r\n:93B::AGGR//UNIT/",
        Kind::FaceAmount => b"\r\n:93B::AGGR//FAMT/",
    }
}

/// A row, with this text in front of its security.
fn row_pieces<'a>(front: &'a [u8], row: &'a StatementRow, quantity: &'a [u8]) -> RowPieces<'a>
    ensures text { pieces_text result ≡ row_behind front.now row.now.isin row.now.kind quantity.now }
    ensures isin { IsIsin row.now.isin }
{
    RowPieces {
        front,
        security: row.isin.as_bytes(),
        balance_begins: balance_begins(row.kind),
        quantity,
        end: b"\r\n:16S:FIN\r\n",
    }
}

/// Text in one piece.
fn one_piece(front: &[u8]) -> RowPieces<'_>
    ensures { pieces_text result ≡ front.now }
{
    RowPieces {
        front,
        security: b"",
        balance_begins: b"",
        quantity: b"",
        end: b"",
    }
}

/// What stands behind the account in a statement without a row.
fn empty_pieces<'a>() -> RowPieces<'a>
    ensures { pieces_text result ≡ codes "\r\n:17B::ACTI//N\r\n:17B::CONS//N\r\n:16S:GENL\r\n-}" }
{
    one_piece(b"\r\n:17B::ACTI//N\r\n:17B::CONS//N\r\n:16S:GENL\r\n-}")
}

/// What these pieces are.
fn write_pieces(alloc: Global, pieces: &RowPieces<'_>) -> Result<Vec<u8>, AllocError>
    ensures { IfOk result (λ text. text.items ≡ pieces_text pieces.now) }
{
    joined(
        alloc,
        &[
            pieces.front,
            pieces.security,
            pieces.balance_begins,
            pieces.quantity,
            pieces.end,
        ],
    )
}

/// A statement as far as its account, and these pieces behind it.
fn write_behind(
    alloc: Global,
    own: &[u8],
    day: &[u8],
    account: &[u8],
    pieces: &RowPieces<'_>,
) -> Result<Vec<u8>, AllocError>
    ensures { IfOk result (λ text. text.items ≡ general_before own.now day.now account.now (pieces_text pieces.now)) }
{
    joined(
        alloc,
        &[
            b"{4:\r\n:16R:GENL\r\n:28E:1/ONLY\r\n:20C:",
            own,
            b"\r\n:23G:NEWM\r\n:98A::STAT//",
            day,
            b"\r\n:22F::SFRE//ADHO\r\n:22F::CODE//COMP\r\n:22F::STTY//CUST\r\n:22F::STBA//SETT\r\n:97A::SAFE//",
            account,
            pieces.front,
            pieces.security,
            pieces.balance_begins,
            pieces.quantity,
            pieces.end,
        ],
    )
}

/// What a statement says of itself as far as its account, and these pieces behind it.
fn write_general(
    alloc: Global,
    heading: &Heading,
    pieces: &RowPieces<'_>,
) -> Result<Vec<u8>, AllocError>
    ensures text { IfOk result (λ text. text.items ≡ general_before (codes ":SEME//" ++ own_reference (Own.Answer heading.now.entries)) heading.now.day heading.now.account (pieces_text pieces.now)) }
    ensures day { IsDay heading.now.day }
    ensures account { IsAccount heading.now.account }
{
    let own = own_value(Own::Answer(heading.entries));
    let day = heading.day.write();
    write_behind(alloc, &own, &day, heading.account.as_bytes(), pieces)
}

/// What a row adds to a statement.
fn write_row(
    alloc: Global,
    heading: &Heading,
    is_begun: bool,
    row: StatementRow,
) -> Result<Vec<u8>, AllocError>
    ensures { IfOk result (λ text. text.items ≡ added_by heading.now is_begun row) }
{
    let quantity = number_text(alloc, row.quantity, 0)?;
    if is_begun {
        let pieces = row_pieces(b":16R:FIN\r\n:35B:ISIN ", &row, &quantity);
        return write_pieces(alloc, &pieces);
    }
    let front =
        b"\r\n:17B::ACTI//Y\r\n:17B::CONS//N\r\n:16S:GENL\r\n:16R:SUBSAFE\r\n:16R:FIN\r\n:35B:ISIN ";
    let pieces = row_pieces(front, &row, &quantity);
    write_general(alloc, heading, &pieces)
}

/// What ends a statement; without a row it is the whole of it.
fn write_rest(alloc: Global, heading: &Heading, is_begun: bool) -> Result<Vec<u8>, AllocError>
    ensures { IfOk result (λ text. text.items ≡ rest_text heading.now is_begun) }
{
    if is_begun {
        return Vec::from_slice(alloc, b":16S:SUBSAFE\r\n-}");
    }
    let pieces = empty_pieces();
    write_general(alloc, heading, &pieces)
}

/// A statement of holdings on its way to a writer. Its rows are taken one by one, and each is written at once, so that no
/// more memory is wanted for many rows than for one.
///
/// After a `take` that answered `Write` nothing is said of what was written.
#[derive(Drop)]
pub struct HoldingsWriter<'a, W> {
    writer: &'a mut W,
    alloc: Global,
    heading: Heading,
    /// Whether a row was written, and so what stands before the rows
    is_begun: bool,
}

impl<'a, W: Sink> HoldingsWriter<'a, W> {
    /// A statement without a row yet, of an account on a day, after so many entries. Nothing is written yet, and no
    /// memory is taken.
    ///
    /// The number of entries has at most 15 digits.
    pub fn new(
        alloc: Global,
        writer: &'a mut W,
        entries: u64,
        day: Day,
        account: &AccountId,
    ) -> HoldingsWriter<'a, W>
        requires { entries < 10 ^ 15 }
        ensures same_writer { result.writer.ghost_name ≡ writer.entry.ghost_name }
        ensures nothing_written { result.writer.now ≡ writer.old }
        ensures heading { result.heading ≡ record { entries = entries; day = day; account = account.now } }
        ensures no_row { result.is_begun ≡ false }
    {
        HoldingsWriter {
            writer,
            alloc,
            heading: Heading {
                entries,
                day,
                account: *account,
            },
            is_begun: false,
        }
    }

    /// Writes what ends the statement; without a row the whole of it. After `Memory` the writer is as before; after `Write`
    /// nothing is said of what was written.
    pub fn finish(self) -> Result<(), SinkFault>
        ensures written { OnOk result (Appends (W.contents self.entry.writer.now) (W.contents self.exit.0.now) (rest_text self.entry.heading self.entry.is_begun)) }
        ensures memory { result ≡ Err SinkFault.Memory → self.exit.0.now ≡ self.entry.writer.now }
        ensures unwritten { result ≡ Err SinkFault.Write → W.may_fail ≡ true }
    {
        let HoldingsWriter {
            writer,
            alloc,
            heading,
            is_begun,
        } = self;
        let Ok(rest) = write_rest(alloc, &heading, is_begun) else {
            return Err(SinkFault::Memory);
        };
        match writer.put(&rest) {
            Ok(()) => Ok(()),
            Err(_) => Err(SinkFault::Write),
        }
    }
}

impl<W: Sink> RowSink for HoldingsWriter<'_, W> {
    ghost took = { λ before row after. TakesRow W.contents before row after };

    ghost may_fail = { W.may_fail };

    fn take(&mut self, row: StatementRow) -> Result<(), SinkFault> {
        let Ok(text) = write_row(self.alloc, &self.heading, self.is_begun, row) else {
            return Err(SinkFault::Memory);
        };
        if self.writer.put(&text).is_err() {
            return Err(SinkFault::Write);
        }
        self.is_begun = true;
        Ok(())
    }
}

/// Hands rows to a sink, in their order.
fn take_all<S: RowSink>(sink: &mut S, rows: &[StatementRow]) -> Result<(), SinkFault>
    ensures took { OnOk result (TookAll S.took sink.old rows.now sink.new) }
    ensures unwritten { result ≡ Err SinkFault.Write → S.may_fail ≡ true }
{
    for row in rows {
        sink.take(*row)?;
    }
    Ok(())
}

/// Writes the statement of these rows.
fn write_statement<W: Sink>(
    alloc: Global,
    writer: &mut W,
    entries: u64,
    day: Day,
    account: &AccountId,
    rows: &[StatementRow],
) -> Result<(), SinkFault>
    requires { entries < 10 ^ 15 }
    ensures written { OnOk result (Appends (W.contents writer.old) (W.contents writer.new) (holdings entries day account.now rows.now)) }
    ensures unwritten { result ≡ Err SinkFault.Write → W.may_fail ≡ true }
{
    let mut statement = HoldingsWriter::new(alloc, writer, entries, day, account);
    take_all(&mut statement, rows)?;
    statement.finish()
}

/// The statement of holdings, MT535, of an account on a day, after so many entries: a row for each security, in the order
/// of the rows. The only fault is want of memory.
///
/// The number of entries has at most 15 digits.
pub fn holdings_text(
    alloc: Global,
    entries: u64,
    day: Day,
    account: &AccountId,
    rows: &[StatementRow],
) -> Result<Vec<u8>, AllocError>
    requires { entries < 10 ^ 15 }
    ensures { IfOk result (λ text. text.items ≡ holdings entries day account.now rows.now) }
{
    let mut text = Vec::new(alloc);
    match write_statement(alloc, &mut text, entries, day, account, rows) {
        Ok(()) => Ok(text),
        Err(_) => Err(AllocError),
    }
}
