//! Reading decimal numbers with a comma (ISO 15022, format 15d).
ghost use Rattle.std.specs.Prelude.{◌≡◌, ◌↔◌, ◌≤◌, ◌<◌, ◌+◌, ◌^◌, ◌++◌, [], ℕ, All, IsTrue, length, drop};
ghost use Rattle.std.specs.Str.{byte};
ghost use Rattle.desk_codes.specs.Characters.{IsDigit};
ghost use Rattle.desk_codes.specs.Number.{ReadsNumber, padded_part, number_of};

use crate::characters::{are_digits, split_at};
use thiserror::Error;

/// The longest number, in characters, the comma counted.
const LONGEST: usize = 15;

/// Why a text is no number: the first of this list that fits.
#[derive(Clone, Copy, Debug, PartialEq, Eq, Error)]
pub enum NumberFault {
    /// Not digits, one comma, digits, with one digit at least before the comma.
    #[error("shape")]
    Shape,
    /// More than 15 characters, the comma counted.
    #[error("too long")]
    TooLong,
    /// A digit other than 0 stands behind the allowed decimals.
    #[error("decimals")]
    Decimals,
    /// The value is 0.
    #[error("zero")]
    Zero,
}

/// The value that a text spells, in minor units: with 2 decimals `1000,5` is 100050. Leading zeros, and
/// zeros at the end, are accepted. Of several faults it is the first.
pub fn read_number(text: &[u8], decimals: usize) -> Result<u64, NumberFault>
    requires { decimals ≤ 3 }
    ensures { ReadsNumber text.now decimals result }
{
    let Some((whole, part)) = split_at(text, b',') else {
        return Err(NumberFault::Shape);
    };
    if whole.is_empty() || !are_digits(whole) || !are_digits(part) {
        return Err(NumberFault::Shape);
    }
    if text.len() > LONGEST {
        return Err(NumberFault::TooLong);
    }
    if decimals < part.len() && !are_zeros(&part[decimals..]) {
        return Err(NumberFault::Decimals);
    }
    let value = minor_units(whole, part, decimals);
    if value == 0 {
        return Err(NumberFault::Zero);
    }
    Ok(value)
}

fn are_zeros(text: &[u8]) -> bool
    ensures { IsTrue result ↔ All (λ c. c ≡ byte "0") text.now }
{
    text.iter().all(|c| *c == b'0')
}

/// The number that digits write.
pub fn whole_number(digits: &[u8]) -> u64
    requires short { length digits.now ≤ 14 }
    requires digits { All IsDigit digits.now }
    ensures value { result ≡ number_of digits.now }
    ensures bound { result < 10 ^ length digits.now }
{
    let mut value = 0u64;
    for c in digits {
        value = 10 * value + u64::from(*c - b'0');
    }
    value
}

/// The number that the digits before the comma and the first ones after it write.
fn minor_units(whole: &[u8], part: &[u8], decimals: usize) -> u64
    requires short { length whole.now ≤ 14 }
    requires few { decimals ≤ 3 }
    requires whole_digits { All IsDigit whole.now }
    requires part_digits { All IsDigit part.now }
    ensures { result ≡ number_of (whole.now ++ padded_part decimals part.now) }
{
    let mut value = whole_number(whole);
    for index in 0..decimals {
        let digit = if index < part.len() {
            part[index] - b'0'
        } else {
            0
        };
        value = 10 * value + u64::from(digit);
    }
    value
}
