//! What no subcommand calls: a confirmation is read, and a statement is written that stands in memory.
mod vectors;

use crate::msg::vectors::{CONFIRMED_DELIVERY, STATEMENT};
use desk_codes::{AccountId, Ccy, Day, Isin};
use desk_msg::{Kind, MsgFault, Mt, StatementRow, Word, holdings_text, read_confirmation};
use desk_text::read_block;
use std::alloc::Global;
use std::test::Fail;

#[test]
fn reads_a_confirmation(rt: HostRuntime) -> Result<(), Fail> {
    let block = read_block(rt.alloc(), CONFIRMED_DELIVERY.as_bytes())?;
    let read = read_confirmation(Mt::Mt547, &block)?;
    assert!(rt; read.related.as_bytes() == b"A1".as_slice() && read.quantity == 400);
    assert!(rt; read.cash == Some((Ccy::Eur, 100_050)));
    Ok(())
}

/// Changes of the confirmed delivery, and how the confirmation then fails.
const CHANGES: [(&str, &str, MsgFault); 15] = [
    (":23G:NEWM\r\n", "", MsgFault::Missing(Word::Field23G)),
    ("23G:NEWM", "23G:CANC", MsgFault::Function),
    ("23G:NEWM", "23G:INST", MsgFault::Function),
    ("23G:NEWM", "23G:NEW", MsgFault::BadValue(Word::Field23G)),
    (":20C::RELA//A1\r\n", "", MsgFault::Missing(Word::Rela)),
    (
        ":20C::RELA//A1\r\n",
        ":20C::RELA//A1\r\n:20C::RELA//A1\r\n",
        MsgFault::Repeated(Word::Rela),
    ),
    ("RELA//A1", "RELA///A1", MsgFault::BadValue(Word::Rela)),
    (
        "98A::ESET//20240229",
        "98C::ESET//20240229101500",
        MsgFault::Missing(Word::Eset),
    ),
    ("ESET//2024", "ESET//2023", MsgFault::BadValue(Word::Eset)),
    (
        "DE0007164600",
        "DE0007164601",
        MsgFault::BadValue(Word::Field35B),
    ),
    ("36B::ESTT", "36B::SETT", MsgFault::Missing(Word::Field36B)),
    ("UNIT/400,", "UNIT/0,", MsgFault::BadValue(Word::Field36B)),
    ("97A::SAFE", "97B::SAFE", MsgFault::Missing(Word::Safe)),
    ("19A::ESTT", "19A::SETT", MsgFault::Missing(Word::Field19A)),
    (
        "ESTT//EUR",
        "ESTT//NEUR",
        MsgFault::BadValue(Word::Field19A),
    ),
];

/// How the confirmation fails with a change of its text, if it does.
fn fault_of(alloc: Global, from: &str, to: &str) -> Result<Option<MsgFault>, Fail> {
    let text = CONFIRMED_DELIVERY.replace(alloc, from, to)?;
    let block = read_block(alloc, text.as_bytes())?;
    Ok(read_confirmation(Mt::Mt547, &block).err())
}

#[test]
fn refuses_changed_confirmations(rt: HostRuntime) -> Result<(), Fail> {
    for (from, to, fault) in &CHANGES {
        assert!(rt; fault_of(rt.alloc(), from, to)? == Some(*fault));
    }
    Ok(())
}

/// The statement of two rows.
fn statement(alloc: Global) -> Result<Vec<u8>, Fail> {
    let day = Day::read(b"20240229").ok_or("no day")?;
    let account = AccountId::read(b"B-1").ok_or("no account")?;
    let first = StatementRow {
        isin: Isin::parse(b"DE0007164600")?,
        kind: Kind::Unit,
        quantity: 400,
    };
    let second = StatementRow {
        isin: Isin::parse(b"US0378331005")?,
        kind: Kind::FaceAmount,
        quantity: 99_999_999_999_999,
    };
    Ok(holdings_text(alloc, 12, day, &account, &[first, second])?)
}

#[test]
fn writes_a_statement(rt: HostRuntime) -> Result<(), Fail> {
    assert!(rt; statement(rt.alloc())?.as_slice() == STATEMENT.as_bytes());
    Ok(())
}
