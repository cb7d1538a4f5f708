//! Statements and sums written straight to a writer, where a write fails.
use crate::book::streams::FailingSink;
use crate::made::new_desk;
use desk_book::*;
use desk_codes::Bic;
use desk_rules::MOST_ENTRIES;
use memory_register::ListRegister;
use std::alloc::Global;
use std::io;
use std::test::Fail;

/// Two securities that an account holds, some cash, and a run on a day with nothing due.
const SCRIPT: &[u8] = b"\
op\n{\"op\":\"participant\",\"ref\":\"P1\",\"bic\":\"BETADEFF\"}\n.\n\
op\n{\"op\":\"account\",\"ref\":\"C1\",\"bic\":\"BETADEFF\",\"account\":\"B-1\"}\n.\n\
op\n{\"op\":\"security\",\"ref\":\"S1\",\"isin\":\"DE0007164600\",\"kind\":\"UNIT\"}\n.\n\
op\n{\"op\":\"security\",\"ref\":\"S2\",\"isin\":\"US0378331005\",\"kind\":\"UNIT\"}\n.\n\
op\n{\"op\":\"issue\",\"ref\":\"I1\",\"account\":\"B-1\",\"isin\":\"DE0007164600\",\"quantity\":400}\n.\n\
op\n{\"op\":\"issue\",\"ref\":\"I2\",\"account\":\"B-1\",\"isin\":\"US0378331005\",\"quantity\":7}\n.\n\
op\n{\"op\":\"payin\",\"ref\":\"M1\",\"bic\":\"BETADEFF\",\"ccy\":\"EUR\",\"amount\":100050}\n.\n\
op\n{\"op\":\"run\",\"ref\":\"R1\",\"day\":\"20240229\"}\n.\n";

/// The writer takes so many bytes a write.
const MOUTHFUL: usize = 64;

/// Has the statement of the account written, or the sums where there is no owner.
fn write_to(
    alloc: Global,
    desk: &mut Desk<ListRegister>,
    owner: &Option<Bic>,
    writer: &mut FailingSink,
) -> Result<Head, ToFault> {
    match owner {
        Some(owner) => desk.holdings_to(alloc, *owner, b"B-1", writer),
        None => desk.sums_to(alloc, writer),
    }
}

/// Whether each write that fails is told, with a front of the text written and nothing behind it. A report changes nothing, so
/// the same desk is asked.
fn are_failed_writes_told(
    alloc: Global,
    desk: &mut Desk<ListRegister>,
    owner: &Option<Bic>,
) -> Result<bool, Fail> {
    let mut whole = FailingSink::new(alloc, MOUTHFUL, 0);
    let _head = write_to(alloc, desk, owner, &mut whole)?;
    for fails_at in 1..whole.writes.saturating_add(1) {
        let mut front = FailingSink::new(alloc, MOUTHFUL, fails_at);
        let told = write_to(alloc, desk, owner, &mut front).err();
        let is_told = told == Some(ToFault::WriteFailed) && front.writes == fails_at;
        if !is_told || !whole.taken.starts_with(&front.taken) {
            return Ok(false);
        }
    }
    Ok(whole.writes > 1)
}

/// Whether that is so of the statement and of the sums, once the script was played.
fn are_all_told(alloc: Global, desk: &mut Desk<ListRegister>) -> Result<bool, Fail> {
    let owner = Bic::parse(b"BETADEFF")?;
    let mut script = SCRIPT;
    desk.play(alloc, &mut script, &mut io::sink())?;
    Ok(
        are_failed_writes_told(alloc, desk, &Some(owner))?
            && are_failed_writes_told(alloc, desk, &None)?,
    )
}

/// Whichever write fails, that is told, and a front of the text was written.
#[test]
fn each_failed_write_is_told(rt: HostRuntime) -> Result<(), Fail> {
    assert!(rt; are_all_told(rt.alloc(), &mut new_desk(rt.alloc(), MOST_ENTRIES))?);
    Ok(())
}
