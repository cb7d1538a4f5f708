//! Reasons in words.
ghost use Rattle.std.specs.Prelude.{◌≡◌};
ghost use Rattle.desk_reasons.specs.Words.{block_words, line_words, nesting_words, missing_words, shape_words, number_words, currency_words, amount_words, kind_words, quantity_words, isin_words, security_words, bic_words, party_words, day_words, account_words, reference_words, settlement_words, function_words, value_words, front_words, byte_words};

use crate::reasons::{
    AccountReason, AmountReason, BlockReason, CurrencyReason, DayReason, FunctionReason,
    KindReason, LineReason, MissingReason, NestingReason, NumberReason, PartyReason,
    QuantityReason, Reason, ReferenceReason, SecurityReason, SettlementReason, ShapeReason,
    ValueReason,
};
use desk_codes::CodeFault;

/// A byte by its name, where it has one, and before its two digits.
fn byte_words(byte: u8) -> &'static str
    ensures { result.now ≡ byte_words byte }
{
    match byte {
        b'\t' => "here stands a tab, the byte 0x",
        b'\r' => "here stands a carriage return without line feed, the byte 0x",
        _ => "here stands the byte 0x",
    }
}

/// Of a text that is no block.
fn block_words(reason: BlockReason) -> &'static str
    ensures { result.now ≡ block_words reason }
{
    match reason {
        BlockReason::Empty => "the text is empty",
        BlockReason::ByteOrderMark => "the text begins with a byte order mark",
        BlockReason::EarlierBlock => "the text begins with a block 1, 2 or 3",
        BlockReason::ReturnAlone => "a carriage return without line feed stands behind {4:",
        BlockReason::NoLineFeed => "the text has no line feed",
        BlockReason::FirstLine => "the first line is not {4:",
        BlockReason::CutOff => "the text ends before its -}",
    }
}

/// Of a line that may not stand there.
fn line_words(reason: LineReason) -> &'static str
    ensures { result.now ≡ line_words reason }
{
    match reason {
        LineReason::Byte(_, byte) => byte_words(byte),
        LineReason::Trailer => "a block 5 begins here",
        LineReason::BehindEnd => "something stands behind -}",
        LineReason::Hyphen => "the line begins with a hyphen",
        LineReason::Name => "the name of the sequence is not 1 to 16 capitals or digits",
        LineReason::LowerCaseTag => "the letter of the tag is in lower case",
        LineReason::Tag => "no tag of two digits and a letter stands between the first two colons",
        LineReason::Blank => "the line is empty, and no value goes on here",
        LineReason::NoValue => "no value goes on here",
        LineReason::Other => "the line may not stand here",
    }
}

/// Of a line that is nested wrongly.
fn nesting_words(reason: NestingReason) -> &'static str
    ensures { result.now ≡ nesting_words reason }
{
    match reason {
        NestingReason::TooMany => "more than 16 sequences would be open",
        NestingReason::NoneOpen => "no sequence is open here",
        NestingReason::OtherOpen(_) => "the sequence to be closed here is that of line ",
        NestingReason::StillOpen(_) => "a sequence is still open, that of line ",
    }
}

/// Of a missing field.
fn missing_words(reason: MissingReason) -> &'static str
    ensures { result.now ≡ missing_words reason }
{
    match reason {
        MissingReason::OtherOption(_) => "it stands here with an option that is not read: ",
        MissingReason::OneColon => "one colon stands before its qualifier, where two must",
        MissingReason::LowerCaseQualifier => "its qualifier has a letter in lower case",
        MissingReason::OtherSequence => "it stands here, and not in its own sequence",
        MissingReason::Absent => "it stands nowhere",
    }
}

/// Of a text that has not the shape of a number.
fn shape_words(reason: ShapeReason) -> &'static str
    ensures { result.now ≡ shape_words reason }
{
    match reason {
        ShapeReason::Empty => "the number is missing",
        ShapeReason::Space => "a space stands in the number",
        ShapeReason::Sign => "the number has a sign",
        ShapeReason::Point => "a point stands in the number, and no comma",
        ShapeReason::Thousands => "a point stands in the number, and a comma too",
        ShapeReason::NotDigit => "a character of the number is neither digit nor comma",
        ShapeReason::NoComma => "the number has no comma",
        ShapeReason::NoWhole => "the number begins with a comma",
        ShapeReason::TwoCommas => "the number has more than one comma",
        ShapeReason::Other => "the number does not fit",
    }
}

/// Of a number.
fn number_words(reason: NumberReason) -> &'static str
    ensures { result.now ≡ number_words reason }
{
    match reason {
        NumberReason::Shape(reason) => shape_words(reason),
        NumberReason::TooLong => "the number is longer than 15 characters",
        NumberReason::Decimals(_) => "the number has too many decimals; the most are ",
        NumberReason::Nought => "the number is 0",
        NumberReason::Other => "the number does not fit",
    }
}

/// Of a currency.
fn currency_words(reason: CurrencyReason) -> &'static str
    ensures { result.now ≡ currency_words reason }
{
    match reason {
        CurrencyReason::Negative => "N, the sign of a negative amount, stands before the currency",
        CurrencyReason::LowerCase => "a letter in lower case stands where the currency must",
        CurrencyReason::NoCurrency => "the amount does not begin with a currency of three letters",
        CurrencyReason::Unknown => "the currency is none of these:",
    }
}

/// Of an amount.
fn amount_words(reason: AmountReason) -> &'static str
    ensures { result.now ≡ amount_words reason }
{
    match reason {
        AmountReason::Currency(reason) => currency_words(reason),
        AmountReason::Number(reason) => number_words(reason),
    }
}

/// Of the code of a quantity.
fn kind_words(reason: KindReason) -> &'static str
    ensures { result.now ≡ kind_words reason }
{
    match reason {
        KindReason::LowerCase => "a letter in lower case stands where UNIT or FAMT must",
        KindReason::NoSlash => "no slash stands directly behind UNIT or FAMT",
        KindReason::Unknown => "the quantity begins with neither UNIT/ nor FAMT/",
    }
}

/// Of a quantity.
fn quantity_words(reason: QuantityReason) -> &'static str
    ensures { result.now ≡ quantity_words reason }
{
    match reason {
        QuantityReason::Kind(reason) => kind_words(reason),
        QuantityReason::Number(reason) => number_words(reason),
    }
}

/// Of an ISIN.
fn isin_words(reason: CodeFault) -> &'static str
    ensures { result.now ≡ isin_words reason }
{
    match reason {
        CodeFault::Length =>
            "not twelve characters stand in the first line behind ISIN and a space",
        CodeFault::Prefix => "the ISIN does not begin with two letters",
        CodeFault::Body => "the ISIN has a character that is no letter and no digit",
        CodeFault::Check(_) => "the check digit of the ISIN should be ",
        CodeFault::Shape => "the ISIN does not fit",
    }
}

/// Of a security.
fn security_words(reason: SecurityReason) -> &'static str
    ensures { result.now ≡ security_words reason }
{
    match reason {
        SecurityReason::NoIsin => "the first line does not begin with ISIN and a space",
        SecurityReason::LowerCase =>
            "a letter in lower case stands in the first line behind ISIN and a space",
        SecurityReason::Isin(fault) => isin_words(fault),
        SecurityReason::Other => "the security does not fit",
    }
}

/// Of a BIC.
fn bic_words(reason: CodeFault) -> &'static str
    ensures { result.now ≡ bic_words reason }
{
    match reason {
        CodeFault::Length => "not 8 or 11 characters stand behind the two slashes",
        CodeFault::Shape => "a character of the BIC may not stand in its place",
        _ => "the BIC does not fit",
    }
}

/// Of a party.
fn party_words(reason: PartyReason) -> &'static str
    ensures { result.now ≡ party_words reason }
{
    match reason {
        PartyReason::LowerCase => "a letter in lower case stands behind the two slashes",
        PartyReason::Bic(fault) => bic_words(fault),
        PartyReason::Other => "the party does not fit",
    }
}

/// Of a day.
fn day_words(reason: DayReason) -> &'static str
    ensures { result.now ≡ day_words reason }
{
    match reason {
        DayReason::NotEightDigits => "the day is not eight digits",
        DayReason::NotFourteenDigits => "the day and the time are not fourteen digits",
        DayReason::NoSuchDate => "the calendar has no such date",
        DayReason::Other => "the day does not fit",
    }
}

/// Of an account.
fn account_words(reason: AccountReason) -> &'static str
    ensures { result.now ≡ account_words reason }
{
    match reason {
        AccountReason::TooLong => "the account is longer than 35 characters",
        AccountReason::Other => "the account does not fit",
    }
}

/// Of a reference.
fn reference_words(reason: ReferenceReason) -> &'static str
    ensures { result.now ≡ reference_words reason }
{
    match reason {
        ReferenceReason::TooLong => "the reference is longer than 16 characters",
        ReferenceReason::SlashFirst => "the reference begins with a slash",
        ReferenceReason::SlashLast => "the reference ends with a slash",
        ReferenceReason::TwoSlashes => "two slashes stand together in the reference",
        ReferenceReason::Other => "the reference does not fit",
    }
}

/// Of a type of settlement.
fn settlement_words(reason: SettlementReason) -> &'static str
    ensures { result.now ≡ settlement_words reason }
{
    match reason {
        SettlementReason::LowerCase => "a letter in lower case stands behind SETR",
        SettlementReason::NoSlash => "one slash stands behind SETR, where two must",
        SettlementReason::Other =>
            "its form is neither //TRAD nor /ISSUER/TRAD, with one to eight capitals or digits for ISSUER and four for TRAD",
    }
}

/// Of a function.
fn function_words(reason: FunctionReason) -> &'static str
    ensures { result.now ≡ function_words reason }
{
    match reason {
        FunctionReason::LowerCase => "a letter in lower case stands in the value",
        FunctionReason::Other => "the function has not the form NEWM or NEWM/CODE",
    }
}

/// Of a value.
fn value_words(reason: ValueReason) -> &'static str
    ensures { result.now ≡ value_words reason }
{
    match reason {
        ValueReason::SecondLine => "the value has a second line",
        ValueReason::OneSlash => "two slashes must stand behind the qualifier",
        ValueReason::Empty => "the value is empty",
        ValueReason::Function(reason) => function_words(reason),
        ValueReason::Reference(reason) => reference_words(reason),
        ValueReason::Day(reason) => day_words(reason),
        ValueReason::Security(reason) => security_words(reason),
        ValueReason::Quantity(reason) => quantity_words(reason),
        ValueReason::Account(reason) => account_words(reason),
        ValueReason::Settlement(reason) => settlement_words(reason),
        ValueReason::Party(reason) => party_words(reason),
        ValueReason::Amount(reason) => amount_words(reason),
        ValueReason::Other => "the value does not fit",
    }
}

/// The words of a reason, up to what it has of the text.
pub fn front_words(reason: Reason) -> &'static str
    ensures { result.now ≡ front_words reason }
{
    match reason {
        Reason::Block(reason) => block_words(reason),
        Reason::Line(reason) => line_words(reason),
        Reason::Nesting(reason) => nesting_words(reason),
        Reason::TooLong => "the text has more than 65,536 bytes",
        Reason::Missing(reason) => missing_words(reason),
        Reason::Repeated(_) => "it stands here too, first in line ",
        Reason::Value(reason) => value_words(reason),
        Reason::OtherFunction => "the function is neither NEWM nor CANC",
    }
}
