//! What the value of a field says, by its form. Each function finds its answer exactly where the text has
//! that form.
ghost use Rattle.std.specs.Prelude.{◌≡◌, ◌↔◌, ◌++◌, ◌∷◌, [], List, ℕ, IsTrue, codes};
ghost use Rattle.std.specs.Str.{byte};
ghost use Rattle.desk_codes.specs.Day.{IsDay};
ghost use Rattle.desk_text.specs.Seen.{found_of};
ghost use Rattle.desk_msg.specs.Profile.{Bears, IsCode, IsFunctionText, IsReferenceText, IsDayText, IsTimed, IsQuantityText, IsAccountText, IsSettlementText, IsPartyText, IsSecurityText, IsAmountText, slashed, SaysText, function_form, reference_form, day_form, security_form, quantity_form, account_form, settlement_form, party_form, amount_form, text_said, quantity_said, amount_said, code_of_kind};
ghost use Rattle.desk_msg.specs.Finding.{text_in, kinded, quantity_itself, amount_of_cash};
ghost use Rattle.desk_msg.specs.Named.{IsFound, code_itself};

use crate::instruction::{Cash, Kind, SettlementType};
use crate::reading::profile::Row;
use desk_codes::{
    AccountId, Bic, Ccy, Day, Isin, Reference, are_code_chars, are_digits, read_number,
};
use desk_text::Field;

/// What a text has behind its beginning.
fn text_behind<'a>(text: &'a [u8], begins: &[u8]) -> Option<&'a [u8]>
    ensures { IsFound text_in (λ rest. text.entry.now ≡ begins.now ++ rest) result }
{
    if !text.starts_with(begins) {
        return None;
    }
    Some(&text[begins.len()..])
}

/// What a value of one line has behind its beginning.
fn value_behind<'a>(field: &Field<'a>, begins: &[u8]) -> Option<&'a [u8]>
    ensures { IsFound text_in (Bears begins.now (found_of field.now)) result }
{
    match field.values.as_slice() {
        [line] => text_behind(line, begins),
        _ => None,
    }
}

/// What the value of a row's field has behind `:QUAL//`, where it has one line.
fn text_under<'a>(row: &Row, field: &Field<'a>) -> Option<&'a [u8]>
    ensures { IsFound text_in (Bears (slashed row.now.begins.now) (found_of field.now)) result }
{
    let rest = value_behind(field, row.begins)?;
    text_behind(rest, b"/")
}

/// Whether a text is four letters or digits.
fn is_code(text: &[u8]) -> bool
    ensures { IsTrue result ↔ IsCode 4 text.now }
{
    text.len() == 4 && are_code_chars(text)
}

/// A reference.
fn reference_of(text: &[u8]) -> Option<Reference>
    ensures { IsFound code_itself (IsReferenceText text.now) result }
{
    Reference::read(text)
}

/// A safekeeping account.
fn account_of(text: &[u8]) -> Option<AccountId>
    ensures { IsFound code_itself (IsAccountText text.now) result }
{
    AccountId::read(text)
}

/// The function's four characters; behind them a slash and four more may stand.
fn function_of(text: &[u8]) -> Option<&[u8]>
    ensures { IsFound text_in (IsFunctionText text.entry.now) result }
{
    if text.len() < 4 {
        return None;
    }
    let (function, further) = text.split_at(4);
    if !are_code_chars(function) {
        return None;
    }
    if further.is_empty() {
        return Some(function);
    }
    let subfunction = text_behind(further, b"/")?;
    if !is_code(subfunction) {
        return None;
    }
    Some(function)
}

/// The function of a field.
pub fn function_in<'a>(field: &Field<'a>) -> Option<&'a [u8]>
    ensures { IsFound text_in (SaysText function_form [] (found_of field.now)) result }
{
    let text = value_behind(field, b"")?;
    function_of(text)
}

/// A day of eight digits.
fn day_of(text: &[u8]) -> Option<Day>
    ensures { IsFound code_itself (λ day. IsDay day × (text.now ≡ day)) result }
{
    if text.len() != 8 {
        return None;
    }
    let mut digits = [0; 8];
    digits.copy_from_slice(text);
    Day::read(&digits)
}

/// What stands before six digits at the end.
fn text_before_time(text: &[u8]) -> Option<&[u8]>
    ensures { IsFound text_in (IsTimed text.entry.now) result }
{
    if text.len() < 6 {
        return None;
    }
    let (front, time) = text.split_at(text.len() - 6);
    if !are_digits(time) {
        return None;
    }
    Some(front)
}

/// A day before a time of six digits.
fn day_before_time(text: &[u8]) -> Option<Day>
    ensures { IsFound code_itself (λ day. IsDay day × IsTimed text.now day) result }
{
    let front = text_before_time(text)?;
    day_of(front)
}

/// A day, under 98C with a time of six digits.
fn day_under(tag: &[u8], text: &[u8]) -> Option<Day>
    ensures { IsFound code_itself (IsDayText tag.now text.now) result }
{
    if tag == b"98A".as_slice() {
        return day_of(text);
    }
    if tag == b"98C".as_slice() {
        return day_before_time(text);
    }
    None
}

/// How a security is counted, and the number behind the slash.
fn kind_and_number(text: &[u8]) -> Option<(Kind, &[u8])>
    ensures { IsFound kinded (λ found. text.entry.now ≡ code_of_kind found.0 ++ byte "/" ∷ found.1) result }
{
    if text.len() < 4 {
        return None;
    }
    let (code, rest) = text.split_at(4);
    let Ok(kind) = Kind::try_from(code) else {
        return None;
    };
    let number = text_behind(rest, b"/")?;
    Some((kind, number))
}

/// A quantity: how the security is counted, and the number in whole units.
fn quantity_of(text: &[u8]) -> Option<(Kind, u64)>
    ensures { IsFound quantity_itself (λ quantity. IsQuantityText text.now quantity.0 quantity.1) result }
{
    let (kind, number) = kind_and_number(text)?;
    match read_number(number, 0) {
        Ok(quantity) => Some((kind, quantity)),
        Err(_) => None,
    }
}

/// The type of a settlement transaction, behind an issuer code or none.
fn settlement_of(text: &[u8]) -> Option<SettlementType>
    ensures { IsFound code_itself (IsSettlementText text.now) result }
{
    if text.len() < 5 {
        return None;
    }
    let (issuer, rest) = text.split_at(text.len() - 5);
    if issuer.len() > 8 || !are_code_chars(issuer) {
        return None;
    }
    let code = text_behind(rest, b"/")?;
    SettlementType::read(code)
}

/// An amount: its currency, and the number in minor units.
fn amount_of(text: &[u8]) -> Option<Cash>
    ensures { IsFound amount_of_cash (λ cash. IsAmountText text.now cash.0 cash.1) result }
{
    if text.len() < 3 {
        return None;
    }
    let (letters, number) = text.split_at(3);
    let ccy = Ccy::parse(letters)?;
    match read_number(number, ccy.decimals()) {
        Ok(amount) => Some(Cash { ccy, amount }),
        Err(_) => None,
    }
}

/// A security, in the first line of its field.
fn security_of(line: &[u8]) -> Option<Isin>
    ensures { IsFound code_itself (IsSecurityText line.now) result }
{
    let code = text_behind(line, b"ISIN ")?;
    match Isin::parse(code) {
        Ok(isin) => Some(isin),
        Err(_) => None,
    }
}

/// A party.
fn party_of(text: &[u8]) -> Option<Bic>
    ensures { IsFound code_itself (IsPartyText text.now) result }
{
    match Bic::parse(text) {
        Ok(bic) => Some(bic),
        Err(_) => None,
    }
}

/// A value that a field has, read by its form.
pub trait Value: Sized {
    ghost use Rattle.desk_text.specs.Seen.{found_of};
    ghost use Rattle.desk_msg.specs.Profile.{Form, Said, Says};
    ghost use Rattle.desk_msg.specs.Finding.{row_seen};
    ghost use Rattle.desk_msg.specs.Named.{IsFound};

    ghost form: { Form };

    ghost said: { Self → Said };

    /// What the value of a row's field says; None where it doesn't fit.
    fn read(row: &Row, field: &Field) -> Option<Self>
        ensures { IsFound said (Says (row_seen form row.now) (found_of field.now)) result };
}

impl Value for Reference {
    ghost form = { reference_form };

    ghost said = { text_said };

    fn read(row: &Row, field: &Field) -> Option<Reference> {
        let text = text_under(row, field)?;
        reference_of(text)
    }
}

/// Under 98C six digits stand behind the day.
impl Value for Day {
    ghost form = { day_form };

    ghost said = { text_said };

    fn read(row: &Row, field: &Field) -> Option<Day> {
        let text = text_under(row, field)?;
        day_under(field.tag, text)
    }
}

/// The further lines of a security are free.
impl Value for Isin {
    ghost form = { security_form };

    ghost said = { text_said };

    fn read(_row: &Row, field: &Field) -> Option<Isin> {
        let line = field.values.as_slice().first()?;
        security_of(line)
    }
}

impl Value for (Kind, u64) {
    ghost form = { quantity_form };

    ghost said = { λ quantity. quantity_said quantity.0 quantity.1 };

    fn read(row: &Row, field: &Field) -> Option<(Kind, u64)> {
        let text = text_under(row, field)?;
        quantity_of(text)
    }
}

impl Value for AccountId {
    ghost form = { account_form };

    ghost said = { text_said };

    fn read(row: &Row, field: &Field) -> Option<AccountId> {
        let text = text_under(row, field)?;
        account_of(text)
    }
}

/// An issuer code may stand between the slashes.
impl Value for SettlementType {
    ghost form = { settlement_form };

    ghost said = { text_said };

    fn read(row: &Row, field: &Field) -> Option<SettlementType> {
        let text = value_behind(field, row.begins)?;
        settlement_of(text)
    }
}

impl Value for Bic {
    ghost form = { party_form };

    ghost said = { text_said };

    fn read(row: &Row, field: &Field) -> Option<Bic> {
        let text = text_under(row, field)?;
        party_of(text)
    }
}

impl Value for Cash {
    ghost form = { amount_form };

    ghost said = { λ cash. amount_said cash.ccy cash.amount };

    fn read(row: &Row, field: &Field) -> Option<Cash> {
        let text = text_under(row, field)?;
        amount_of(text)
    }
}
