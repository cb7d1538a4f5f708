//! What a participant instructs.
ghost use Rattle.std.specs.Prelude.{◌≡◌, ◌<◌, ◌≤◌, true, length, is_some};
ghost use Rattle.std.specs.Option.{ForSome};
ghost use Rattle.desk_codes.specs.Number.{written_number};
ghost use Rattle.desk_codes.specs.Currency.{decimals_of};
ghost use Rattle.desk_msg.specs.MessageType.{is_instruction, is_against_payment};

use crate::mt::Mt;
use desk_codes::{AccountId, Bic, Ccy, Day, Isin, Reference, are_code_chars};
use std::marker::Model;
use thiserror::Error;

/// Whether a security is counted in units or by face amount (ISO 15022, field 36B, quantity type code).
#[derive(Clone, Copy, PartialEq, Eq, PartialOrd, Ord)]
pub enum Kind {
    /// UNIT
    Unit,
    /// FAMT
    FaceAmount,
}

/// A text that is no quantity type code of the desk.
#[derive(Clone, Copy, Debug, PartialEq, Eq, Error)]
#[error("no quantity type code")]
pub struct UnknownKind;

/// The kind that a quantity type code names.
impl TryFrom<&[u8]> for Kind {
    ghost use Rattle.desk_msg.specs.Named.{ReadsKind};

    type Error = UnknownKind;

    ghost try_from_gives = { λ code read. ReadsKind code.now read };

    fn try_from(code: &[u8]) -> Result<Kind, UnknownKind> {
        match code {
            b"UNIT" => Ok(Kind::Unit),
            b"FAMT" => Ok(Kind::FaceAmount),
            _ => Err(UnknownKind),
        }
    }
}

impl Kind {
    ghost use Rattle.desk_msg.specs.Profile.{code_of_kind};

    /// The quantity type code, four letters.
    pub fn as_str(self) -> &'static str
        ensures { result.now ≡ code_of_kind self }
    {
        match self {
            Kind::Unit => "UNIT",
            Kind::FaceAmount => "FAMT",
        }
    }
}

/// The type of a settlement transaction, as TRAD: four letters or digits (ISO 15022, field 22F,
/// qualifier SETR).
#[derive(Clone, Copy, PartialEq, Eq, PartialOrd, Ord)]
pub struct SettlementType {
    code: [u8; 4],
}

impl Model for SettlementType {
    ghost use Rattle.std.specs.Prelude.{List, ℕ, All};
    ghost use Rattle.desk_codes.specs.Characters.{IsCodeChar};

    ghost Value = { List ℕ };

    ghost view = { λ settlement. settlement.code };

    ghost invariant = { λ settlement. All IsCodeChar settlement.code };

    ghost inverse = { λ text. record { code = text } };
}

impl SettlementType {
    ghost use Rattle.desk_msg.specs.Profile.{IsCode};
    ghost use Rattle.desk_msg.specs.Named.{IsFound, code_itself};

    /// The type that four letters or digits name; None for any other text.
    pub fn read(text: &[u8]) -> Option<SettlementType>
        ensures { IsFound code_itself (λ settlement. IsCode 4 settlement × (text.now ≡ settlement)) result }
    {
        if text.len() != 4 || !are_code_chars(text) {
            return None;
        }
        let mut code = [0; 4];
        code.copy_from_slice(text);
        Some(SettlementType { code })
    }

    /// Its four characters.
    pub fn as_bytes(&self) -> &[u8]
        ensures bytes { result.now ≡ self.now }
        ensures code { IsCode 4 self.now }
    {
        &self.code
    }
}

/// An amount of money above 0, in minor units, whose written form has at most 15 characters (ISO 15022,
/// format 15d).
#[derive(Clone, Copy)]
pub struct Cash {
    pub ccy: Ccy,
    pub amount: u64,
    ghost some: { 0 < amount },
    ghost short: { length (written_number amount (decimals_of ccy)) ≤ 15 },
}

/// An instruction to receive or deliver securities, free or against payment: a new MT540, MT541, MT542 or
/// MT543. `cash` is there exactly against payment.
#[derive(Clone, Copy)]
pub struct Instruction {
    /// The message's type, MT540 to MT543
    pub mt: Mt,
    /// The sender's reference (20C SEME)
    pub reference: Reference,
    /// The settlement date (98A or 98C SETT)
    pub day: Day,
    /// The security (35B)
    pub isin: Isin,
    /// Whether its quantity counts units or a face amount (36B SETT)
    pub kind: Kind,
    /// How much of the security, in units or by face amount (36B SETT)
    pub quantity: u64,
    /// The sender's safekeeping account (97A SAFE)
    pub account: AccountId,
    /// The type of the settlement, as TRAD (22F SETR)
    pub settlement: SettlementType,
    /// The other side: the delivering agent of a receipt (95P DEAG), the receiving agent of a delivery
    /// (95P REAG)
    pub counterparty: Bic,
    /// The place of settlement (95P PSET)
    pub place: Bic,
    /// The settlement amount (19A SETT)
    pub cash: Option<Cash>,
    ghost instructs: { is_instruction mt ≡ true },
    ghost some: { 0 < quantity },
    ghost short: { length (written_number quantity 0) ≤ 15 },
    ghost paid: { is_some cash ≡ is_against_payment mt },
}

/// A request to cancel the sender's own instruction of the same type (function CANC).
#[derive(Clone, Copy)]
pub struct CancelOrder {
    pub mt: Mt,
    /// The sender's reference (20C SEME)
    pub reference: Reference,
    /// The reference of the instruction to cancel (20C PREV)
    pub previous: Reference,
    ghost instructs: { is_instruction mt ≡ true },
}

/// What a message of a participant says.
#[derive(Clone, Copy)]
pub enum Message {
    New(Instruction),
    Cancel(CancelOrder),
}
