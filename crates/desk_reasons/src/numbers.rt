//! Why a text is no number.
ghost use Rattle.std.specs.Prelude.{◌≡◌, ◌≤◌};
ghost use Rattle.desk_reasons.specs.Characters.{are_of_numbers};
ghost use Rattle.desk_reasons.specs.Numbers.{comma_reason, shape_reason, IsNumberReason};

use crate::characters::{begins_so, stands_in, stands_twice};
use crate::reasons::{NumberReason, ShapeReason};
use desk_codes::{NumberFault, read_number};

/// Whether each character is a digit or a comma.
fn are_of_numbers(text: &[u8]) -> bool
    ensures { result ≡ are_of_numbers text.now }
{
    text.iter().all(|c| c.is_ascii_digit() || *c == b',')
}

/// Why a text is not digits, one comma, digits.
fn shape_reason(text: &[u8]) -> ShapeReason
    ensures { result ≡ shape_reason text.now }
{
    if text.is_empty() {
        return ShapeReason::Empty;
    }
    if stands_in(b' ', text) {
        return ShapeReason::Space;
    }
    if begins_so(text, b"-") || begins_so(text, b"+") {
        return ShapeReason::Sign;
    }
    if stands_in(b'.', text) {
        return if stands_in(b',', text) {
            ShapeReason::Thousands
        } else {
            ShapeReason::Point
        };
    }
    if !are_of_numbers(text) {
        return ShapeReason::NotDigit;
    }
    comma_reason(text)
}

/// Why a text of digits and commas is not digits, one comma, digits.
fn comma_reason(text: &[u8]) -> ShapeReason
    ensures { result ≡ comma_reason text.now }
{
    if !stands_in(b',', text) {
        return ShapeReason::NoComma;
    }
    if begins_so(text, b",") {
        return ShapeReason::NoWhole;
    }
    if stands_twice(b',', text) {
        return ShapeReason::TwoCommas;
    }
    ShapeReason::Other
}

/// Why a text is no number with so many decimals at most.
pub fn number_reason(text: &[u8], decimals: usize) -> NumberReason
    requires { decimals ≤ 3 }
    ensures { IsNumberReason decimals text.now result }
{
    match read_number(text, decimals) {
        Err(NumberFault::Shape) => NumberReason::Shape(shape_reason(text)),
        Err(NumberFault::TooLong) => NumberReason::TooLong,
        Err(NumberFault::Decimals) => NumberReason::Decimals(decimals),
        Err(NumberFault::Zero) => NumberReason::Nought,
        Ok(_) => NumberReason::Other,
    }
}
