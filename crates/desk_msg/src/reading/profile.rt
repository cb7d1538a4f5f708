//! The used fields as tables: the profile of the settlement instructions MT540 to MT543, and that of their
//! confirmations MT544 to MT547 (ISO 15022).
use crate::fault::Word;

/// A row of a table: the word that names its field in a refusal, the sequences that the field stands in (the outermost
/// first), the tags that it may have, and what its value begins with, `:QUAL/` (nothing where it has no qualifier).
#[derive(Clone, Copy)]
pub struct Row {
    pub word: Word,
    pub path: &'static [&'static [u8]],
    pub tags: &'static [&'static [u8]],
    pub begins: &'static [u8],
}

/// The function
pub const FUNCTION: Row = Row {
    word: Word::Field23G,
    path: &[b"GENL"],
    tags: &[b"23G"],
    begins: b"",
};

/// The sender's reference
pub const SEME: Row = Row {
    word: Word::Seme,
    path: &[b"GENL"],
    tags: &[b"20C"],
    begins: b":SEME/",
};

/// The reference of the instruction to cancel
pub const PREV: Row = Row {
    word: Word::Prev,
    path: &[b"GENL", b"LINK"],
    tags: &[b"20C"],
    begins: b":PREV/",
};

/// The settlement date
pub const DATE: Row = Row {
    word: Word::Date,
    path: &[b"TRADDET"],
    tags: &[b"98A", b"98C"],
    begins: b":SETT/",
};

/// The security
pub const SECURITY: Row = Row {
    word: Word::Field35B,
    path: &[b"TRADDET"],
    tags: &[b"35B"],
    begins: b"",
};

/// The quantity
pub const QUANTITY: Row = Row {
    word: Word::Field36B,
    path: &[b"FIAC"],
    tags: &[b"36B"],
    begins: b":SETT/",
};

/// The safekeeping account
pub const SAFE: Row = Row {
    word: Word::Safe,
    path: &[b"FIAC"],
    tags: &[b"97A"],
    begins: b":SAFE/",
};

/// The type of the settlement transaction
pub const SETR: Row = Row {
    word: Word::Setr,
    path: &[b"SETDET"],
    tags: &[b"22F"],
    begins: b":SETR/",
};

/// The place of settlement
pub const PSET: Row = Row {
    word: Word::Pset,
    path: &[b"SETDET", b"SETPRTY"],
    tags: &[b"95P"],
    begins: b":PSET/",
};

/// The delivering agent
pub const DEAG: Row = Row {
    word: Word::Deag,
    path: &[b"SETDET", b"SETPRTY"],
    tags: &[b"95P"],
    begins: b":DEAG/",
};

/// The receiving agent
pub const REAG: Row = Row {
    word: Word::Reag,
    path: &[b"SETDET", b"SETPRTY"],
    tags: &[b"95P"],
    begins: b":REAG/",
};

/// The settlement amount
pub const AMOUNT: Row = Row {
    word: Word::Field19A,
    path: &[b"SETDET", b"AMT"],
    tags: &[b"19A"],
    begins: b":SETT/",
};

/// The reference of the instruction that is confirmed
pub const RELA: Row = Row {
    word: Word::Rela,
    path: &[b"GENL", b"LINK"],
    tags: &[b"20C"],
    begins: b":RELA/",
};

/// The day of the settlement
pub const ESET: Row = Row {
    word: Word::Eset,
    path: &[b"TRADDET"],
    tags: &[b"98A"],
    begins: b":ESET/",
};

/// The quantity that was settled
pub const SETTLED: Row = Row {
    word: Word::Field36B,
    path: &[b"FIAC"],
    tags: &[b"36B"],
    begins: b":ESTT/",
};

/// The amount that was paid
pub const PAID: Row = Row {
    word: Word::Field19A,
    path: &[b"SETDET", b"AMT"],
    tags: &[b"19A"],
    begins: b":ESTT/",
};
