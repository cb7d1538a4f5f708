//! Why texts are no codes.
ghost use Rattle.std.specs.Prelude.{◌≡◌, ◌≤◌, ◌↔◌, IsTrue};
ghost use Rattle.desk_reasons.specs.Codes.{AreDigits, IsIsinReason, IsSecurityReason, IsPartyReason, IsDateReason, IsDayReason, account_reason, reference_reason, settlement_reason, function_reason};

use crate::characters::{begins_so, ends_so, has_lower_case, has_slashes, rest_of, stands_in};
use crate::reasons::{
    AccountReason, DayReason, FunctionReason, PartyReason, ReferenceReason, SecurityReason,
    SettlementReason,
};
use desk_codes::{Bic, Day, Isin, are_digits};

/// Why what stands behind `ISIN` and a space is no ISIN.
fn isin_reason(code: &[u8]) -> SecurityReason
    ensures { IsIsinReason code.now result }
{
    if has_lower_case(code) {
        return SecurityReason::LowerCase;
    }
    match Isin::parse(code) {
        Err(fault) => SecurityReason::Isin(fault),
        Ok(_) => SecurityReason::Other,
    }
}

/// Why the first line of a security names none.
pub fn security_reason(line: &[u8]) -> SecurityReason
    ensures { IsSecurityReason line.now result }
{
    if !begins_so(line, b"ISIN ") {
        return SecurityReason::NoIsin;
    }
    isin_reason(rest_of(line, 5))
}

/// Why a text names no party.
pub fn party_reason(text: &[u8]) -> PartyReason
    ensures { IsPartyReason text.now result }
{
    if has_lower_case(text) {
        return PartyReason::LowerCase;
    }
    match Bic::parse(text) {
        Err(fault) => PartyReason::Bic(fault),
        Ok(_) => PartyReason::Other,
    }
}

/// Whether a text is so many digits.
fn are_so_many_digits(count: usize, text: &[u8]) -> bool
    ensures { IsTrue result ↔ AreDigits count text.now }
{
    text.len() == count && are_digits(text)
}

/// Whether the calendar has the date of the first eight of so many digits.
fn date_reason(count: usize, text: &[u8]) -> DayReason
    requires digits { AreDigits count text.now }
    requires some { 8 ≤ count }
    ensures { IsDateReason text.now result }
{
    let mut digits = [0; 8];
    digits.copy_from_slice(&text[..8]);
    match Day::read(&digits) {
        None => DayReason::NoSuchDate,
        Some(_) => DayReason::Other,
    }
}

/// Why a text is no day, under 98C no day and time.
pub fn day_reason(tag: &[u8], text: &[u8]) -> DayReason
    ensures { IsDayReason tag.now text.now result }
{
    if tag == b"98C".as_slice() {
        if !are_so_many_digits(14, text) {
            return DayReason::NotFourteenDigits;
        }
        return date_reason(14, text);
    }
    if !are_so_many_digits(8, text) {
        return DayReason::NotEightDigits;
    }
    date_reason(8, text)
}

/// Why a text is no account.
pub fn account_reason(text: &[u8]) -> AccountReason
    ensures { result ≡ account_reason text.now }
{
    if text.len() > 35 {
        return AccountReason::TooLong;
    }
    AccountReason::Other
}

/// Why a text is no reference.
pub fn reference_reason(text: &[u8]) -> ReferenceReason
    ensures { result ≡ reference_reason text.now }
{
    if text.len() > 16 {
        return ReferenceReason::TooLong;
    }
    if begins_so(text, b"/") {
        return ReferenceReason::SlashFirst;
    }
    if ends_so(text, b"/") {
        return ReferenceReason::SlashLast;
    }
    if has_slashes(text) {
        return ReferenceReason::TwoSlashes;
    }
    ReferenceReason::Other
}

/// Why a text is no type of settlement.
pub fn settlement_reason(text: &[u8]) -> SettlementReason
    ensures { result ≡ settlement_reason text.now }
{
    if has_lower_case(text) {
        return SettlementReason::LowerCase;
    }
    if !stands_in(b'/', text) {
        return SettlementReason::NoSlash;
    }
    SettlementReason::Other
}

/// Why a text is no function.
pub fn function_reason(text: &[u8]) -> FunctionReason
    ensures { result ≡ function_reason text.now }
{
    if has_lower_case(text) {
        return FunctionReason::LowerCase;
    }
    FunctionReason::Other
}
