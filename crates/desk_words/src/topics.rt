//! What the words of an answer name, and what is told of it.
ghost use Rattle.std.specs.Prelude.{◌≡◌, [], Some, map};
ghost use Rattle.std.specs.Option.{option_map};
ghost use Rattle.desk_words.specs.Causes.{value_of_cause};
ghost use Rattle.desk_words.specs.Topics.{detail_among, details_of, explained_alone, explained_behind, explained_with, explanation, is_kind, is_numeral, listed, other_among, other_text, spelled_among, spells, tells_field, tells_line, text_with, topic_text, value_of_detail, value_of_other, words_quoted};

use crate::causes::{CAUSES, Cause};

/// What may stand behind a number in an answer, or in the command that it refuses: its name, and what it is.
pub type Detail = (&'static str, &'static str);

/// What is told in place of an answer with none of the desk's numbers: `refused` or `fault`, what stands behind that, what it
/// means, in a line, and what to do about it.
pub type Other = (&'static str, &'static str, &'static str, &'static str);

/// The words of an answer, as far as they are given; none counts behind one that is missing.
#[derive(Clone, Copy)]
pub struct Quoted<'a> {
    pub first: Option<&'a str>,
    pub second: Option<&'a str>,
    pub third: Option<&'a str>,
}

/// What is explained.
#[derive(Clone, Copy)]
pub enum Topic {
    /// Each refusal and each fault that has a number
    Catalogue,
    /// What a number means, with all that may stand behind it
    Cause(Cause),
    /// What a number means, with this behind it
    Detail(Cause, Detail),
    /// What is told with none of the desk's numbers
    Other(Other),
}

/// What is told of words that are those of no answer.
pub const NO_ANSWER: &str =
    "no refusal and no fault of the desk has these words; without any, all that have a number are told\n";

/// HTTP's own refusals, by their status (RFC 9110, section 15.5; RFC 6585, section 5), and the fault that has no number.
pub const OTHERS: [Other; 7] = [
    (
        "refused",
        "400",
        "HTTP: what was sent is no request, or ends before its head or its body is whole, or Content-Length stands twice or is no number of one to ten digits",
        "Send one whole request of HTTP/1.1, with the body's length in bytes.",
    ),
    (
        "refused",
        "404",
        "HTTP: the path is none of the desk's, or a part of it is no BIC, no type of an instruction or no number",
        "Take one of the paths, without a query and without escapes (docs/RULES.md, Requests, has them).",
    ),
    (
        "refused",
        "405",
        "HTTP: the path has another method",
        "Take the method that stands beside the path (docs/RULES.md, Requests).",
    ),
    (
        "refused",
        "411",
        "HTTP: the head tells no length of the body",
        "Send Content-Length, and the body not in chunks.",
    ),
    (
        "refused",
        "413",
        "HTTP: the body has more than 65,536 bytes",
        "Send a shorter body.",
    ),
    (
        "refused",
        "431",
        "HTTP: the head has more than 64 fields or 8,192 bytes",
        "Send fewer fields, or shorter ones.",
    ),
    (
        "fault",
        "io",
        "what was to be read cannot be, or is too long, the answers cannot be written into a folder, or nobody can listen at the port",
        "Standard error tells which file, folder or port it is, or that it is standard input, and why: it is not there, is a folder or none, may not be read or written, is in use by another program, has a name that cannot be taken, is too long, or the device is full. Nothing more was asked then: mend it, and run it again.",
    ),
];

/// The words of the fields, behind `refused 5`, `6` and `7`, with where a field stands and what its value is.
pub const FIELDS: [Detail; 12] = [
    ("23G", "the function, in GENL: NEWM or CANC, as :23G:NEWM"),
    (
        "SEME",
        "the sender's reference, in GENL: 1 to 16 printable characters, no slash first or last and no two together, as :20C::SEME//A1",
    ),
    (
        "PREV",
        "the reference of what a cancellation cancels, in GENL and LINK: of the form of SEME, as :20C::PREV//A1",
    ),
    (
        "DATE",
        "the settlement day, in TRADDET: the eight digits of a date, as :98A::SETT//20240314; under 98C six digits more stand behind them at once",
    ),
    (
        "35B",
        "the security, in TRADDET: ISIN, one space and a number whose check digit is right, as :35B:ISIN US0378331005",
    ),
    (
        "36B",
        "the quantity, in FIAC: UNIT/ or FAMT/ and a whole number of 1 or more with a comma, of at most 15 characters, as :36B::SETT//UNIT/400,",
    ),
    (
        "SAFE",
        "the safekeeping account, in FIAC: 1 to 35 printable characters, as :97A::SAFE//A-1",
    ),
    (
        "SETR",
        "the type of the settlement transaction, in SETDET: four characters A to Z or 0 to 9, as :22F::SETR//TRAD",
    ),
    (
        "PSET",
        "the place of settlement, in SETDET and SETPRTY: a BIC, as :95P::PSET//DESKDEFF",
    ),
    (
        "DEAG",
        "the delivering agent, a receipt's counterparty (540, 541), in SETDET and SETPRTY: a BIC, as :95P::DEAG//ALPHDEFF",
    ),
    (
        "REAG",
        "the receiving agent, a delivery's counterparty (542, 543), in SETDET and SETPRTY: a BIC, as :95P::REAG//BETADEFF",
    ),
    (
        "19A",
        "the amount against payment (541, 543), in SETDET and AMT: a currency's three capitals and at once a number above 0 with a comma, of at most 15 characters and not more decimals than the currency has, without a sign, as :19A::SETT//EUR1000,5",
    ),
];

/// The operator's commands, with an example of each, and their members, with what each is.
pub const COMMANDS: [Detail; 17] = [
    (
        "participant",
        r#"{"op":"participant","ref":"P-1","bic":"ALPHDEFF"}"#,
    ),
    (
        "account",
        r#"{"op":"account","ref":"A-1","bic":"ALPHDEFF","account":"ALPHA-1"}"#,
    ),
    (
        "security",
        r#"{"op":"security","ref":"S-1","isin":"US0378331005","kind":"UNIT"}"#,
    ),
    (
        "issue",
        r#"{"op":"issue","ref":"I-1","account":"ALPHA-1","isin":"US0378331005","quantity":1000}"#,
    ),
    (
        "redeem",
        r#"{"op":"redeem","ref":"R-1","account":"ALPHA-1","isin":"US0378331005","quantity":1000}"#,
    ),
    (
        "payin",
        r#"{"op":"payin","ref":"C-1","bic":"ALPHDEFF","ccy":"EUR","amount":100050}"#,
    ),
    (
        "payout",
        r#"{"op":"payout","ref":"C-2","bic":"ALPHDEFF","ccy":"EUR","amount":100050}"#,
    ),
    ("run", r#"{"op":"run","ref":"RUN-1","day":"20240314"}"#),
    (
        "ref",
        "a text, the reference: 1 to 16 printable characters, no slash first or last and no two together",
    ),
    (
        "bic",
        "a text, the participant: a BIC of 8 or 11 characters",
    ),
    (
        "account",
        "a text, the number of the safekeeping account: 1 to 35 printable characters",
    ),
    (
        "isin",
        "a text, the security: an ISIN whose check digit is right",
    ),
    (
        "kind",
        "a text: UNIT, counted in units, or FAMT, by face amount",
    ),
    (
        "quantity",
        "a whole number, 1 to 99999999999999, without quotation marks",
    ),
    ("ccy", "a text: the three capitals of a currency, as EUR"),
    (
        "amount",
        "a whole number, 1 to 999999999999999999, in minor units of the currency, without quotation marks",
    ),
    ("day", "a text: the eight digits of a date, as 20240314"),
];

/// What these words of an answer name: `refused` or `fault`, which may be left out, a number or what stands in its place, and
/// what stands behind it in the answer. None where the desk gives no such answer.
pub fn topic_of(quoted: Quoted<'_>) -> Option<Topic>
    ensures { option_map topic_text result ≡ explanation (words_quoted quoted.entry) }
{
    match quoted.first {
        None => Some(Topic::Catalogue),
        Some(word) if is_kind(word) => topic_behind(quoted.second, quoted.third, None),
        Some(_) => topic_behind(quoted.first, quoted.second, quoted.third),
    }
}

/// Whether a word tells how an answer begins.
fn is_kind(word: &str) -> bool
    ensures { result ≡ is_kind word.now }
{
    word == "refused" || word == "fault"
}

/// What the words behind that name.
fn topic_behind(key: Option<&str>, name: Option<&str>, more: Option<&str>) -> Option<Topic>
    ensures { option_map topic_text result ≡ explained_behind (listed key.entry (listed name.entry (listed more.entry []))) }
{
    match (key, name, more) {
        (Some(key), None, _) => topic_alone(key),
        (Some(key), Some(name), None) => topic_with(key, name),
        _ => None,
    }
}

/// What a number names, or what stands in its place.
fn topic_alone(key: &str) -> Option<Topic>
    ensures { option_map topic_text result ≡ explained_alone key.now }
{
    match spelled_among(&CAUSES, key) {
        Some(cause) => Some(Topic::Cause(cause)),
        None => other_topic(other_among(&OTHERS, key)),
    }
}

/// What has none of the desk's numbers, where it was found.
fn other_topic(found: Option<Other>) -> Option<Topic>
    ensures { option_map topic_text result ≡ option_map other_text (option_map value_of_other found.entry) }
{
    match found {
        Some(other) => Some(Topic::Other(other)),
        None => None,
    }
}

/// What a number names with this behind it: the line of a text, or what has the name.
fn topic_with(key: &str, name: &str) -> Option<Topic>
    ensures { option_map topic_text result ≡ explained_with key.now name.now }
{
    match spelled_among(&CAUSES, key) {
        Some(cause) => named_topic(cause, name),
        None => None,
    }
}

/// A cause with this behind its number.
fn named_topic(cause: Cause, name: &str) -> Option<Topic>
    ensures { option_map topic_text result ≡ text_with name.now (Some (value_of_cause cause.entry)) }
{
    if tells_line(cause.0) && is_numeral(name) {
        return Some(Topic::Cause(cause));
    }
    match detail_among(details_of(cause.0), name) {
        Some(detail) => Some(Topic::Detail(cause, detail)),
        None => None,
    }
}

/// Whether the line of a text stands behind a number.
fn tells_line(number: u8) -> bool
    ensures { result ≡ tells_line number }
{
    number == 2 || number == 3
}

/// Whether the word of a field stands behind a number.
fn tells_field(number: u8) -> bool
    ensures { result ≡ tells_field number }
{
    number == 5 || number == 6 || number == 7
}

/// What may stand behind a number.
pub fn details_of(number: u8) -> &'static [Detail]
    ensures { map value_of_detail result.now ≡ details_of number }
{
    if tells_field(number) {
        &FIELDS
    } else if number == 30 {
        &COMMANDS
    } else {
        &[]
    }
}

/// The first of these causes whose number the text spells.
fn spelled_among(causes: &[Cause], text: &str) -> Option<Cause>
    ensures { option_map value_of_cause result ≡ spelled_among text.now (map value_of_cause causes.now) }
{
    causes.iter().copied().find(|cause| spells(cause.0, text))
}

/// Whether a text spells a number, before which a plus and zeros may stand.
fn spells(number: u8, text: &str) -> bool
    ensures { result ≡ spells number text.now }
{
    match text.parse::<u8>() {
        Ok(read) => read == number,
        Err(_) => false,
    }
}

/// Whether a text is the number of a line: one decimal digit or more.
fn is_numeral(text: &str) -> bool
    ensures { result ≡ is_numeral text.now }
{
    !text.is_empty() && text.bytes().all(|c| c.is_ascii_digit())
}

/// The first of these that stands in the place of a number by this text.
fn other_among(others: &[Other], text: &str) -> Option<Other>
    ensures { option_map value_of_other result ≡ other_among text.now (map value_of_other others.now) }
{
    others.iter().copied().find(|other| other.1 == text)
}

/// The first of these of this name.
fn detail_among(details: &[Detail], name: &str) -> Option<Detail>
    ensures { option_map value_of_detail result ≡ detail_among name.now (map value_of_detail details.now) }
{
    details.iter().copied().find(|detail| detail.0 == name)
}
