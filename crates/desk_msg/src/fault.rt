//! Why a message isn't read.
ghost use Rattle.std.specs.Prelude.{◌≡◌};
ghost use Rattle.desk_msg.specs.Words.{letters_of_word};

use thiserror::Error;

/// A used field, by the word that names it in a refusal: the qualifier that it is known by, or its tag.
#[derive(Clone, Copy, Debug, PartialEq, Eq)]
pub enum Word {
    /// The function of the message (23G)
    Field23G,
    /// The sender's reference (20C SEME)
    Seme,
    /// The previous message's reference (20C PREV)
    Prev,
    /// The settlement date (98A or 98C SETT)
    Date,
    /// The security (35B)
    Field35B,
    /// The quantity (36B)
    Field36B,
    /// The safekeeping account (97A SAFE)
    Safe,
    /// The type of the settlement transaction (22F SETR)
    Setr,
    /// The place of settlement (95P PSET)
    Pset,
    /// The delivering agent (95P DEAG)
    Deag,
    /// The receiving agent (95P REAG)
    Reag,
    /// The amount (19A)
    Field19A,
    /// The reference of the message that is spoken of (20C RELA)
    Rela,
    /// The day of the settlement (98A ESET)
    Eset,
}

impl Word {
    /// The word, as a refusal prints it: three or four characters.
    pub fn as_str(self) -> &'static str
        ensures { result.now ≡ letters_of_word self }
    {
        match self {
            Word::Field23G => "23G",
            Word::Seme => "SEME",
            Word::Prev => "PREV",
            Word::Date => "DATE",
            Word::Field35B => "35B",
            Word::Field36B => "36B",
            Word::Safe => "SAFE",
            Word::Setr => "SETR",
            Word::Pset => "PSET",
            Word::Deag => "DEAG",
            Word::Reag => "REAG",
            Word::Field19A => "19A",
            Word::Rela => "RELA",
            Word::Eset => "ESET",
        }
    }
}

/// Why the fields of a block are no message: what is wrong with the first used field that fails, in the
/// order in which they are looked for.
#[derive(Clone, Copy, Debug, PartialEq, Eq, Error)]
pub enum MsgFault {
    /// There is no such field (refusal 5).
    #[error("{} is missing", .0.as_str())]
    Missing(Word),
    /// There are two or more such fields (refusal 6).
    #[error("{} is repeated", .0.as_str())]
    Repeated(Word),
    /// Its value doesn't fit (refusal 7).
    #[error("{} has a bad value", .0.as_str())]
    BadValue(Word),
    /// The function is another than the message may have (refusal 8).
    #[error("another function")]
    Function,
}
