//! Two deliveries in the wrong order: BETADEFF delivers to GAMMDEFF what it gets from ALPHDEFF by the second one.
use crate::made::new_desk;
use desk_rules::MOST_ENTRIES;
use memory_register::ListRegister;
use std::alloc::Global;
use std::io;
use std::test::Fail;

/// Three participants with an account each, and a security: seven entries.
const OPENING: &[u8] = b"\
op\n{\"op\":\"participant\",\"ref\":\"P1\",\"bic\":\"ALPHDEFF\"}\n.\n\
op\n{\"op\":\"participant\",\"ref\":\"P2\",\"bic\":\"BETADEFF\"}\n.\n\
op\n{\"op\":\"participant\",\"ref\":\"P3\",\"bic\":\"GAMMDEFF\"}\n.\n\
op\n{\"op\":\"account\",\"ref\":\"C1\",\"bic\":\"ALPHDEFF\",\"account\":\"A-1\"}\n.\n\
op\n{\"op\":\"account\",\"ref\":\"C2\",\"bic\":\"BETADEFF\",\"account\":\"B-1\"}\n.\n\
op\n{\"op\":\"account\",\"ref\":\"C3\",\"bic\":\"GAMMDEFF\",\"account\":\"C-1\"}\n.\n\
op\n{\"op\":\"security\",\"ref\":\"S1\",\"isin\":\"DE0007164600\",\"kind\":\"UNIT\"}\n.\n";

/// What the first account delivers.
pub const UNITS: &[u8] =
    b"op\n{\"op\":\"issue\",\"ref\":\"I1\",\"account\":\"A-1\",\"isin\":\"DE0007164600\",\"quantity\":100}\n.\n";

/// A side of a delivery.
struct Side {
    /// By whom it is instructed, and in which message type
    sent: &'static str,
    key: &'static str,
    account: &'static str,
    /// Who is on the other side
    party: &'static str,
}

/// The sides of both deliveries.
const SIDES: [Side; 4] = [
    Side {
        sent: "BETADEFF 542",
        key: "B1",
        account: "B-1",
        party: "REAG//GAMMDEFF",
    },
    Side {
        sent: "GAMMDEFF 540",
        key: "G1",
        account: "C-1",
        party: "DEAG//BETADEFF",
    },
    Side {
        sent: "ALPHDEFF 542",
        key: "A1",
        account: "A-1",
        party: "REAG//BETADEFF",
    },
    Side {
        sent: "BETADEFF 540",
        key: "B2",
        account: "B-1",
        party: "DEAG//ALPHDEFF",
    },
];

/// What a side instructs, of 100 of the security, free.
fn instruction(alloc: Global, side: &Side) -> Result<String, Fail> {
    let sent = side.sent;
    let key = side.key;
    let account = side.account;
    let party = side.party;
    Ok(format!(in alloc;
        "in {sent}\n{{4:\n:16R:GENL\n:20C::SEME//{key}\n:23G:NEWM\n:16S:GENL\n:16R:TRADDET\n:98A::SETT//20240229\n:35B:ISIN DE0007164600\n:16S:TRADDET\n:16R:FIAC\n:36B::SETT//UNIT/100,\n:97A::SAFE//{account}\n:16S:FIAC\n:16R:SETDET\n:22F::SETR//TRAD\n:16R:SETPRTY\n:95P::{party}\n:16S:SETPRTY\n:16R:SETPRTY\n:95P::PSET//DESKDEFF\n:16S:SETPRTY\n:16S:SETDET\n-}}\n.\n"
    )?)
}

/// Writes a script: the opening, `before`, both deliveries and `behind`.
fn write_script(
    alloc: Global,
    before: &[u8],
    behind: &[u8],
    script: &mut Vec<u8>,
) -> Result<(), Fail> {
    script.extend_from_slice(OPENING)?;
    script.extend_from_slice(before)?;
    for side in &SIDES {
        script.extend_from_slice(instruction(alloc, side)?.as_bytes())?;
    }
    script.extend_from_slice(behind)?;
    Ok(())
}

/// The register of a desk that has played such a script.
pub fn played(alloc: Global, before: &[u8], behind: &[u8]) -> Result<ListRegister, Fail> {
    let mut script = Vec::new(alloc);
    write_script(alloc, before, behind, &mut script)?;
    let mut desk = new_desk(alloc, MOST_ENTRIES);
    desk.play(alloc, &mut script.as_slice(), &mut io::sink())?;
    Ok(desk.into_register())
}
