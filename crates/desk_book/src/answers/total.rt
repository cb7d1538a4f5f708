//! A row of the desk's totals, as compact JSON.
ghost use Rattle.std.specs.Prelude.{◌≡◌, ◌≤◌, ◌++◌, true, drop, IfErr, OnErr, OnOk};
ghost use Rattle.std.specs.Io.KnownBytes.{Appends};
ghost use Rattle.serde_json.specs.Written.{comma_if, compact_text};
ghost use Rattle.desk_book.specs.Sums.{cash_data, security_data};

use crate::answers::writing::write_row;
use desk_codes::{Ccy, Isin};
use desk_msg::SinkFault;
use desk_register::WalkFault;
use desk_streams::{Sink, number_before, text_before};

/// The total of a currency, in minor units.
#[derive(Clone, Copy)]
pub struct CashTotal {
    pub ccy: Ccy,
    /// What the participants hold together
    pub held: u64,
    /// What was paid in less what was paid out
    pub net: u64,
}

/// The total of a security, in units or by face amount.
#[derive(Clone, Copy)]
pub struct SecurityTotal {
    pub isin: Isin,
    /// What the accounts hold together
    pub held: u64,
    /// What was issued less what was redeemed
    pub outstanding: u64,
}

/// The most bytes of a row.
const LONGEST_ROW: usize = 96;

/// Writes the row of a currency, behind a comma where rows stand before it.
pub fn write_cash_row<W: Sink>(
    writer: &mut W,
    is_later: bool,
    total: &CashTotal,
) -> Result<(), WalkFault>
    ensures written { OnOk result (Appends (W.contents writer.old) (W.contents writer.new) (comma_if is_later ++ compact_text (cash_data total.now))) }
    ensures fault { IfErr result (λ fault. fault ≡ WalkFault.Sink SinkFault.Write) }
    ensures unwritten { OnErr result (W.may_fail ≡ true) }
{
    let mut room = [0; LONGEST_ROW];
    let start = cash_row(&mut room, total);
    write_row(writer, is_later, &room[start..])
}

/// Makes the row of a currency at the end of the room. Gives where it begins.
fn cash_row(room: &mut [u8; LONGEST_ROW], total: &CashTotal) -> usize
    ensures within { result ≤ LONGEST_ROW }
    ensures row { drop result room.new ≡ compact_text (cash_data total.now) }
{
    let end = text_before(room, LONGEST_ROW, b"}");
    let end = number_before(room, end, b",\"net\":", total.net);
    let end = number_before(room, end, b"\",\"held\":", total.held);
    let end = text_before(room, end, total.ccy.as_bytes());
    text_before(room, end, b"{\"ccy\":\"")
}

/// Writes the row of a security, behind a comma where rows stand before it.
pub fn write_security_row<W: Sink>(
    writer: &mut W,
    is_later: bool,
    total: &SecurityTotal,
) -> Result<(), WalkFault>
    ensures written { OnOk result (Appends (W.contents writer.old) (W.contents writer.new) (comma_if is_later ++ compact_text (security_data total.now))) }
    ensures fault { IfErr result (λ fault. fault ≡ WalkFault.Sink SinkFault.Write) }
    ensures unwritten { OnErr result (W.may_fail ≡ true) }
{
    let mut room = [0; LONGEST_ROW];
    let start = security_row(&mut room, total);
    write_row(writer, is_later, &room[start..])
}

/// Makes the row of a security at the end of the room. Gives where it begins.
fn security_row(room: &mut [u8; LONGEST_ROW], total: &SecurityTotal) -> usize
    ensures within { result ≤ LONGEST_ROW }
    ensures row { drop result room.new ≡ compact_text (security_data total.now) }
{
    let end = text_before(room, LONGEST_ROW, b"}");
    let end = number_before(room, end, b"\",\"outstanding\":", total.outstanding);
    let end = text_before(room, end, total.isin.as_bytes());
    let end = text_before(room, end, b",\"isin\":\"");
    number_before(room, end, b"{\"held\":", total.held)
}
