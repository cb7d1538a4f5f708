//! Why a text is no amount.
ghost use Rattle.std.specs.Prelude.{◌≡◌};
ghost use Rattle.desk_reasons.specs.Characters.{are_capitals};
ghost use Rattle.desk_codes.specs.Currency.{decimals_of};
ghost use Rattle.desk_reasons.specs.Numbers.{IsNumberReason};
ghost use Rattle.desk_reasons.specs.Amounts.{is_negative, currency_reason, IsAmountReason};

use crate::characters::{begins_so, front_of, has_lower_case, rest_of};
use crate::numbers::number_reason;
use crate::reasons::{AmountReason, CurrencyReason, NumberReason};
use desk_codes::Ccy;

/// Whether each character is a capital letter.
fn are_capitals(text: &[u8]) -> bool
    ensures { result ≡ are_capitals text.now }
{
    text.iter().all(|c| *c >= b'A' && *c <= b'Z')
}

/// Whether N stands before a currency.
fn is_negative(text: &[u8]) -> bool
    ensures { result ≡ is_negative text.now }
{
    begins_so(text, b"N") && Ccy::parse(front_of(rest_of(text, 1), 3)).is_some()
}

/// Why the first three characters are no currency.
fn currency_reason(text: &[u8]) -> CurrencyReason
    ensures { result ≡ currency_reason text.now }
{
    if is_negative(text) {
        return CurrencyReason::Negative;
    }
    let letters = front_of(text, 3);
    if has_lower_case(letters) {
        return CurrencyReason::LowerCase;
    }
    if letters.len() == 3 && are_capitals(letters) {
        return CurrencyReason::Unknown;
    }
    CurrencyReason::NoCurrency
}

/// Why a text is no number of a currency.
fn number_in(ccy: Ccy, number: &[u8]) -> NumberReason
    ensures { IsNumberReason (decimals_of ccy) number.now result }
{
    number_reason(number, ccy.decimals())
}

/// Why a text is no amount.
pub fn amount_reason(text: &[u8]) -> AmountReason
    ensures { IsAmountReason text.now result }
{
    match Ccy::parse(front_of(text, 3)) {
        Some(ccy) => AmountReason::Number(number_in(ccy, rest_of(text, 3))),
        None => AmountReason::Currency(currency_reason(text)),
    }
}
