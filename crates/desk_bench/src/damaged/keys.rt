//! What the damaged rows are looked up by.

use crate::failure::Failure;
use desk_codes::{AccountId, Bic, Isin, Reference};
use desk_msg::{Instruction, Message, Mt, ReadFault, read_instruction_text};
use std::alloc::Global;

/// A key of each kind.
#[derive(Clone, Copy)]
pub struct Keys {
    /// ALPHDEFF
    pub bic: Bic,
    /// A-1
    pub account: AccountId,
    /// DE0007164600
    pub isin: Isin,
    /// A1
    pub reference: Reference,
    /// 400 of the security, delivered free by ALPHDEFF to BETADEFF
    pub delivery: Instruction,
}

/// The message that instructs the delivery.
const DELIVERY: &[u8] = b"\
{4:\n\
:16R:GENL\n\
:20C::SEME//A1\n\
:23G:NEWM\n\
:16S:GENL\n\
:16R:TRADDET\n\
:98A::SETT//20240229\n\
:35B:ISIN DE0007164600\n\
:16S:TRADDET\n\
:16R:FIAC\n\
:36B::SETT//UNIT/400,\n\
:97A::SAFE//A-1\n\
:16S:FIAC\n\
:16R:SETDET\n\
:22F::SETR//TRAD\n\
:16R:SETPRTY\n\
:95P::REAG//BETADEFF\n\
:16S:SETPRTY\n\
:16R:SETPRTY\n\
:95P::PSET//DESKDEFF\n\
:16S:SETPRTY\n\
:16S:SETDET\n\
-}\n";

fn delivery(alloc: Global) -> Result<Instruction, Failure> {
    match read_instruction_text(alloc, Mt::Mt542, DELIVERY) {
        Ok(Message::New(instruction)) => Ok(instruction),
        Ok(Message::Cancel(_)) | Err(ReadFault::Refused(_)) => Err(Failure::Form),
        Err(ReadFault::Memory) => Err(Failure::Memory),
    }
}

impl Keys {
    /// The keys of the rows.
    pub fn new(alloc: Global) -> Result<Keys, Failure> {
        let delivery = delivery(alloc)?;
        Ok(Keys {
            bic: Bic::parse(b"ALPHDEFF")?,
            account: AccountId::read(b"A-1").ok_or(Failure::Form)?,
            isin: Isin::parse(b"DE0007164600")?,
            reference: delivery.reference,
            delivery,
        })
    }
}
