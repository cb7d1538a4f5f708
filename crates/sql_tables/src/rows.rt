//! What a shown row holds: the number, the text or the code in a column; and what a look-up shows, one column of one row or no
//! row. What is none that the desk writes is answered with `CORRUPT`.
ghost use Rattle.std.specs.Prelude.{◌≡◌, ◌<◌, ◌^◌, ℕ, List, Option, length, pos, is_some, option_map, Ok, IfErr, IfOk, IfSome, IsOk};
ghost use Rattle.sqlite.specs.Order.{column};
ghost use Rattle.sqlite.specs.declared.types.Value.TheVariants.{Int, Text as Words};
ghost use Rattle.desk_codes.specs.Account.{IsAccount};
ghost use Rattle.desk_codes.specs.Bic.{IsBic};
ghost use Rattle.desk_codes.specs.CheckDigit.{IsIsin};
ghost use Rattle.desk_codes.specs.Currency.{letters_of};
ghost use Rattle.desk_codes.specs.Day.{IsDay};
ghost use Rattle.desk_codes.specs.Reference.{IsReference};
ghost use Rattle.desk_codes.specs.declared.currency.Ccy.{Ccy as Currency};
ghost use Rattle.desk_msg.specs.MessageType.{number_of_type};
ghost use Rattle.desk_msg.specs.Profile.{code_of_kind, IsCode};
ghost use Rattle.desk_msg.specs.declared.instruction.Kind.{Kind as QuantityType};
ghost use Rattle.desk_msg.specs.declared.mt.Mt.{Mt as MessageType};
ghost use Rattle.sql_tables.specs.Ends.{IsCorrupt};
ghost use Rattle.sql_tables.specs.Rows.{number_rows, text_rows};

use crate::values::CORRUPT;
use desk_codes::{AccountId, Bic, Ccy, Day, Isin, Reference};
use desk_msg::{Kind, Mt, SettlementType};
use sqlite::types::ValueRef;
use sqlite::{Error, Row};

/// The text in a column.
pub fn text_at(row: &Row, at: usize) -> Result<&[u8], Error>
    ensures value { IfOk result (λ text. column row.now at ≡ Words text.now) }
    ensures all { (text : List ℕ) → at < length row.now → column row.now at ≡ Words text → IsOk result }
    ensures fails { at < length row.now → IfErr result IsCorrupt }
{
    match row.get_ref(at)? {
        ValueRef::Text(text) => Ok(text),
        _ => Err(CORRUPT),
    }
}

/// The number in a column, which is not below 0.
pub fn number_at(row: &Row, at: usize) -> Result<u64, Error>
    ensures value { IfOk result (λ number. column row.now at ≡ Int (pos number)) }
    ensures all { (number : ℕ) → at < length row.now → column row.now at ≡ Int (pos number) → result ≡ Ok number }
    ensures fails { at < length row.now → IfErr result IsCorrupt }
{
    match row.get_ref(at)? {
        ValueRef::Int(number) => match u64::try_from(number) {
            Ok(number) => Ok(number),
            Err(_) => Err(CORRUPT),
        },
        _ => Err(CORRUPT),
    }
}

/// The reference in a column.
pub fn reference_at(row: &Row, at: usize) -> Result<Reference, Error>
    ensures value { IfOk result (λ reference. column row.now at ≡ Words reference) }
    ensures all { (text : List ℕ) → at < length row.now → column row.now at ≡ Words text → IsReference text → IsOk result }
    ensures fails { at < length row.now → IfErr result IsCorrupt }
{
    match Reference::read(text_at(row, at)?) {
        Some(reference) => Ok(reference),
        None => Err(CORRUPT),
    }
}

/// The safekeeping account in a column.
pub fn account_at(row: &Row, at: usize) -> Result<AccountId, Error>
    ensures value { IfOk result (λ account. column row.now at ≡ Words account) }
    ensures all { (text : List ℕ) → at < length row.now → column row.now at ≡ Words text → IsAccount text → IsOk result }
    ensures fails { at < length row.now → IfErr result IsCorrupt }
{
    match AccountId::read(text_at(row, at)?) {
        Some(account) => Ok(account),
        None => Err(CORRUPT),
    }
}

/// The ISIN in a column.
pub fn isin_at(row: &Row, at: usize) -> Result<Isin, Error>
    ensures value { IfOk result (λ isin. column row.now at ≡ Words isin) }
    ensures all { (text : List ℕ) → at < length row.now → column row.now at ≡ Words text → IsIsin text → IsOk result }
    ensures fails { at < length row.now → IfErr result IsCorrupt }
{
    match Isin::parse(text_at(row, at)?) {
        Ok(isin) => Ok(isin),
        Err(_) => Err(CORRUPT),
    }
}

/// The BIC in a column, in its one spelling, without the branch XXX.
pub fn bic_at(row: &Row, at: usize) -> Result<Bic, Error>
    ensures value { IfOk result (λ bic. column row.now at ≡ Words bic) }
    ensures all { (text : List ℕ) → at < length row.now → column row.now at ≡ Words text → IsBic text → IsOk result }
    ensures fails { at < length row.now → IfErr result IsCorrupt }
{
    let text = text_at(row, at)?;
    match Bic::parse(text) {
        Ok(bic) => {
            if bic.as_bytes() != text {
                return Err(CORRUPT);
            }
            Ok(bic)
        }
        Err(_) => Err(CORRUPT),
    }
}

/// The day in a column.
pub fn day_at(row: &Row, at: usize) -> Result<Day, Error>
    ensures value { IfOk result (λ day. column row.now at ≡ Words day) }
    ensures all { (text : List ℕ) → at < length row.now → column row.now at ≡ Words text → IsDay text → IsOk result }
    ensures fails { at < length row.now → IfErr result IsCorrupt }
{
    let text = text_at(row, at)?;
    if text.len() != 8 {
        return Err(CORRUPT);
    }
    let mut digits = [0; 8];
    digits.copy_from_slice(text);
    match Day::read(&digits) {
        Some(day) => Ok(day),
        None => Err(CORRUPT),
    }
}

/// The currency in a column.
pub fn currency_at(row: &Row, at: usize) -> Result<Ccy, Error>
    ensures value { IfOk result (λ ccy. column row.now at ≡ Words (letters_of ccy)) }
    ensures all { (ccy : Currency) → at < length row.now → column row.now at ≡ Words (letters_of ccy) → IsOk result }
    ensures fails { at < length row.now → IfErr result IsCorrupt }
{
    match Ccy::parse(text_at(row, at)?) {
        Some(ccy) => Ok(ccy),
        None => Err(CORRUPT),
    }
}

/// The quantity type in a column.
pub fn kind_at(row: &Row, at: usize) -> Result<Kind, Error>
    ensures value { IfOk result (λ kind. column row.now at ≡ Words (code_of_kind kind)) }
    ensures all { (kind : QuantityType) → at < length row.now → column row.now at ≡ Words (code_of_kind kind) → IsOk result }
    ensures fails { at < length row.now → IfErr result IsCorrupt }
{
    match Kind::try_from(text_at(row, at)?) {
        Ok(kind) => Ok(kind),
        Err(_) => Err(CORRUPT),
    }
}

/// The settlement type in a column.
pub fn settlement_at(row: &Row, at: usize) -> Result<SettlementType, Error>
    ensures value { IfOk result (λ settlement. column row.now at ≡ Words settlement) }
    ensures all { (text : List ℕ) → at < length row.now → column row.now at ≡ Words text → IsCode 4 text → IsOk result }
    ensures fails { at < length row.now → IfErr result IsCorrupt }
{
    match SettlementType::read(text_at(row, at)?) {
        Some(settlement) => Ok(settlement),
        None => Err(CORRUPT),
    }
}

/// The number of 16 bits in a column.
pub fn short_at(row: &Row, at: usize) -> Result<u16, Error>
    ensures value { IfOk result (λ number. column row.now at ≡ Int (pos number)) }
    ensures all { (number : ℕ) → number < 2 ^ 16 → at < length row.now → column row.now at ≡ Int (pos number) → IsOk result }
    ensures fails { at < length row.now → IfErr result IsCorrupt }
{
    match u16::try_from(number_at(row, at)?) {
        Ok(number) => Ok(number),
        Err(_) => Err(CORRUPT),
    }
}

/// The message type whose number a column holds.
pub fn mt_at(row: &Row, at: usize) -> Result<Mt, Error>
    ensures value { IfOk result (λ mt. column row.now at ≡ Int (pos (number_of_type mt))) }
    ensures all { (mt : MessageType) → at < length row.now → column row.now at ≡ Int (pos (number_of_type mt)) → IsOk result }
    ensures fails { at < length row.now → IfErr result IsCorrupt }
{
    match Mt::try_from(short_at(row, at)?) {
        Ok(mt) => Ok(mt),
        Err(_) => Err(CORRUPT),
    }
}

/// The number that is shown; None where no row is.
pub fn only_number(rows: &[Row]) -> Result<Option<u64>, Error>
    ensures { (found : Option ℕ) → rows.now ≡ number_rows found → result ≡ Ok found }
{
    match rows {
        [] => Ok(None),
        [row] => Ok(Some(number_at(row, 0)?)),
        _ => Err(CORRUPT),
    }
}

/// Whether a text is shown.
pub fn is_shown(rows: &[Row]) -> Result<bool, Error>
    ensures value { (found : Option (List ℕ)) → rows.now ≡ text_rows found → IfOk result (λ r. r ≡ is_some found) }
    ensures all { (found : Option (List ℕ)) → rows.now ≡ text_rows found → IsOk result }
{
    match rows {
        [] => Ok(false),
        [row] => text_at(row, 0).map(|_| true),
        _ => Err(CORRUPT),
    }
}

/// The BIC that is shown.
pub fn only_bic(rows: &[Row]) -> Result<Option<Bic>, Error>
    ensures value { (found : Option (List ℕ)) → rows.now ≡ text_rows found → IfOk result (λ r. r ≡ found) }
    ensures all { (found : Option (List ℕ)) → rows.now ≡ text_rows found → IfSome found IsBic → IsOk result }
{
    match rows {
        [] => Ok(None),
        [row] => Ok(Some(bic_at(row, 0)?)),
        _ => Err(CORRUPT),
    }
}

/// The ISIN that is shown.
pub fn only_isin(rows: &[Row]) -> Result<Option<Isin>, Error>
    ensures value { (found : Option (List ℕ)) → rows.now ≡ text_rows found → IfOk result (λ r. r ≡ found) }
    ensures all { (found : Option (List ℕ)) → rows.now ≡ text_rows found → IfSome found IsIsin → IsOk result }
{
    match rows {
        [] => Ok(None),
        [row] => Ok(Some(isin_at(row, 0)?)),
        _ => Err(CORRUPT),
    }
}

/// The quantity type that is shown.
pub fn only_kind(rows: &[Row]) -> Result<Option<Kind>, Error>
    ensures value { (found : Option QuantityType) → rows.now ≡ text_rows (option_map code_of_kind found) → IfOk result (λ r. r ≡ found) }
    ensures all { (found : Option QuantityType) → rows.now ≡ text_rows (option_map code_of_kind found) → IsOk result }
{
    match rows {
        [] => Ok(None),
        [row] => Ok(Some(kind_at(row, 0)?)),
        _ => Err(CORRUPT),
    }
}

/// The day that is shown.
pub fn only_day(rows: &[Row]) -> Result<Option<Day>, Error>
    ensures value { (found : Option (List ℕ)) → rows.now ≡ text_rows found → IfOk result (λ r. r ≡ found) }
    ensures all { (found : Option (List ℕ)) → rows.now ≡ text_rows found → IfSome found IsDay → IsOk result }
{
    match rows {
        [] => Ok(None),
        [row] => Ok(Some(day_at(row, 0)?)),
        _ => Err(CORRUPT),
    }
}
