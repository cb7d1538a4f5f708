//! The reasons for which texts are refused, by what was to be read. Of each reader's reasons the first in its list that holds is
//! told. `Other` says no more than the answer does.

use desk_codes::CodeFault;

/// Why a text is no message.
#[derive(Clone, Copy, PartialEq, Eq)]
pub enum Reason {
    /// It is no block (refusal 1).
    Block(BlockReason),
    /// A line may not stand there (refusal 2).
    Line(LineReason),
    /// A line is nested wrongly (refusal 3).
    Nesting(NestingReason),
    /// It has more than `LONGEST_TEXT` bytes (refusal 4).
    TooLong,
    /// A field is missing (refusal 5).
    Missing(MissingReason),
    /// A field stands more than once, first in this line (refusal 6).
    Repeated(usize),
    /// The value of a field does not fit (refusal 7).
    Value(ValueReason),
    /// The function is neither NEWM nor CANC (refusal 8).
    OtherFunction,
}

/// Why a text is no block 4.
#[derive(Clone, Copy, PartialEq, Eq)]
pub enum BlockReason {
    /// It has no byte.
    Empty,
    /// It begins with the byte order mark of UTF-8.
    ByteOrderMark,
    /// It begins with a block 1, 2 or 3.
    EarlierBlock,
    /// Behind the `{4:` that it begins with stands a carriage return without line feed.
    ReturnAlone,
    /// It has no line feed.
    NoLineFeed,
    /// Its first line is another than `{4:`.
    FirstLine,
    /// It ends before its `-}`.
    CutOff,
}

/// Why a line may not stand where it stands.
#[derive(Clone, Copy, PartialEq, Eq)]
pub enum LineReason {
    /// In this column, counted from 1, stands this byte, which is outside 0x20 to 0x7E.
    Byte(usize, u8),
    /// A block 5 stands there.
    Trailer,
    /// More stands behind its `-}`.
    BehindEnd,
    /// It begins with a hyphen.
    Hyphen,
    /// The name behind 16R or 16S is not 1 to 16 capital letters or digits.
    Name,
    /// It begins with a tag of two digits and a letter in lower case between colons.
    LowerCaseTag,
    /// It begins with a colon, and has no tag between that and the next.
    Tag,
    /// It is empty, where no value goes on.
    Blank,
    /// It is a further line of a value, where no value goes on.
    NoValue,
    /// It does not fit there.
    Other,
}

/// Why a line opens or closes a sequence wrongly.
#[derive(Clone, Copy, PartialEq, Eq)]
pub enum NestingReason {
    /// It opens a sequence more than may be open.
    TooMany,
    /// It closes a sequence where none is open.
    NoneOpen,
    /// It closes another sequence than the one that was opened last, in this line.
    OtherOpen(usize),
    /// It ends the block where a sequence is open that was opened in this line.
    StillOpen(usize),
}

/// Why a field is missing.
#[derive(Clone, Copy, PartialEq, Eq)]
pub enum MissingReason {
    /// In its sequences stands its tag with this letter, which is not read.
    OtherOption(u8),
    /// In its sequences stands its tag with its qualifier behind one colon.
    OneColon,
    /// In its sequences stands its tag with its qualifier, of which a letter is in lower case.
    LowerCaseQualifier,
    /// It stands in other sequences, or in none.
    OtherSequence,
    /// It stands nowhere.
    Absent,
}

/// Why the value of a field does not fit.
#[derive(Clone, Copy, PartialEq, Eq)]
pub enum ValueReason {
    /// It has more than one line.
    SecondLine,
    /// Behind the qualifier one slash stands, or a source of data between two.
    OneSlash,
    /// Nothing stands behind the qualifier.
    Empty,
    /// 23G
    Function(FunctionReason),
    /// 20C
    Reference(ReferenceReason),
    /// 98A and 98C
    Day(DayReason),
    /// 35B
    Security(SecurityReason),
    /// 36B
    Quantity(QuantityReason),
    /// 97A
    Account(AccountReason),
    /// 22F
    Settlement(SettlementReason),
    /// 95P
    Party(PartyReason),
    /// 19A
    Amount(AmountReason),
    /// The value does not fit.
    Other,
}

/// Why a text is no amount.
#[derive(Clone, Copy, PartialEq, Eq)]
pub enum AmountReason {
    /// Its first three characters are no currency of the desk.
    Currency(CurrencyReason),
    /// What stands behind the currency is no number, with the decimals that the currency has.
    Number(NumberReason),
}

/// Why a text begins with no currency of the desk.
#[derive(Clone, Copy, PartialEq, Eq)]
pub enum CurrencyReason {
    /// N stands before a currency: the sign of a negative amount.
    Negative,
    /// Of its first three characters one is a letter in lower case.
    LowerCase,
    /// It does not begin with three capital letters.
    NoCurrency,
    /// Its three capital letters are no currency of the desk.
    Unknown,
}

/// Why a text is no number.
#[derive(Clone, Copy, PartialEq, Eq)]
pub enum NumberReason {
    /// It is not digits, one comma, digits.
    Shape(ShapeReason),
    /// It has more than 15 characters.
    TooLong,
    /// A digit other than 0 stands behind so many decimals, which are the most.
    Decimals(usize),
    /// It is 0.
    Nought,
    /// It does not fit.
    Other,
}

/// Why a text is not digits, one comma, digits, with one digit at least before the comma.
#[derive(Clone, Copy, PartialEq, Eq)]
pub enum ShapeReason {
    /// It has no character.
    Empty,
    /// A space stands in it.
    Space,
    /// It begins with a sign.
    Sign,
    /// A point stands in it, and no comma.
    Point,
    /// A point stands in it beside a comma.
    Thousands,
    /// A character is neither a digit nor a comma.
    NotDigit,
    /// It has no comma.
    NoComma,
    /// It begins with its comma.
    NoWhole,
    /// It has more than one comma.
    TwoCommas,
    /// It does not fit.
    Other,
}

/// Why a text is no quantity.
#[derive(Clone, Copy, PartialEq, Eq)]
pub enum QuantityReason {
    /// It begins with no code of how a security is counted, and a slash.
    Kind(KindReason),
    /// What stands behind the slash is no whole number.
    Number(NumberReason),
}

/// Why a text does not begin with UNIT or FAMT, and a slash.
#[derive(Clone, Copy, PartialEq, Eq)]
pub enum KindReason {
    /// Of its first four characters one is a letter in lower case.
    LowerCase,
    /// Directly behind UNIT or FAMT stands no slash.
    NoSlash,
    /// Its first four characters are neither UNIT nor FAMT.
    Unknown,
}

/// Why a text is no security.
#[derive(Clone, Copy, PartialEq, Eq)]
pub enum SecurityReason {
    /// It does not begin with ISIN and a space.
    NoIsin,
    /// Behind that a letter stands in lower case.
    LowerCase,
    /// The ISIN is none.
    Isin(CodeFault),
    /// It does not fit.
    Other,
}

/// Why a text is no day.
#[derive(Clone, Copy, PartialEq, Eq)]
pub enum DayReason {
    /// It is not eight digits (98A).
    NotEightDigits,
    /// It is not eight digits and six of a time (98C).
    NotFourteenDigits,
    /// The calendar has no such date.
    NoSuchDate,
    /// It does not fit.
    Other,
}

/// Why a text is no party.
#[derive(Clone, Copy, PartialEq, Eq)]
pub enum PartyReason {
    /// A letter is in lower case.
    LowerCase,
    /// The BIC is none.
    Bic(CodeFault),
    /// It does not fit.
    Other,
}

/// Why a text is no account.
#[derive(Clone, Copy, PartialEq, Eq)]
pub enum AccountReason {
    /// It has more than 35 characters.
    TooLong,
    /// It does not fit.
    Other,
}

/// Why a text is no reference.
#[derive(Clone, Copy, PartialEq, Eq)]
pub enum ReferenceReason {
    /// It has more than 16 characters.
    TooLong,
    /// It begins with a slash.
    SlashFirst,
    /// It ends with a slash.
    SlashLast,
    /// Two slashes stand together.
    TwoSlashes,
    /// It does not fit.
    Other,
}

/// Why a text is no type of settlement.
#[derive(Clone, Copy, PartialEq, Eq)]
pub enum SettlementReason {
    /// A letter is in lower case.
    LowerCase,
    /// No slash stands in it.
    NoSlash,
    /// It does not fit.
    Other,
}

/// Why a text is no function.
#[derive(Clone, Copy, PartialEq, Eq)]
pub enum FunctionReason {
    /// A letter is in lower case.
    LowerCase,
    /// It is not four letters or digits, and a slash with four more or nothing.
    Other,
}
