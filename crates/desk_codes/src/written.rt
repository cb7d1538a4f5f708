//! Writing decimal numbers.
ghost use Rattle.std.specs.Prelude.{◌≡◌, ◌≤◌, ◌<◌, ◌^◌, ◌/◌, ◌%◌, ◌+◌, IfOk, decimal, length};
ghost use Rattle.desk_codes.specs.Number.{written_number};

use crate::short_text::ShortText;
use itoa::write_digits;
use std::alloc::{AllocError, Global};
use std::marker::Model;

/// The most digits before the comma.
const MOST_DIGITS: usize = 20;

/// The shortest text that spells a value in minor units, as `write_number` writes it, which takes no memory.
#[derive(Clone, Copy)]
pub struct NumberText {
    text: ShortText<24>,
}

impl Model for NumberText {
    ghost use Rattle.std.specs.Prelude.{List, ℕ, ◌≤◌, length};

    ghost Value = { List ℕ };

    ghost view = { λ number. number.text };

    ghost invariant = { λ number. length number.text ≤ 24 };

    ghost inverse = { λ text. record { text = text } };
}

impl NumberText {
    /// The text of a value with so many decimals.
    pub fn of(value: u64, decimals: usize) -> NumberText
        requires { decimals ≤ 3 }
        ensures { result ≡ written_number value decimals }
    {
        let (whole, part) = parts_of(value, decimals);
        let mut text = whole_text(whole);
        text.push(b',');
        let mut rest = part;
        for place in (0..decimals).rev() {
            if rest == 0 {
                return NumberText { text };
            }
            let one = power_of_ten(place);
            text.push(b'0' + (rest / one) as u8);
            rest %= one;
        }
        NumberText { text }
    }

    /// Its characters, at most 24.
    pub fn as_bytes(&self) -> &[u8]
        ensures bytes { result.now ≡ self.now }
        ensures short { length self.now ≤ 24 }
    {
        self.text.as_bytes()
    }
}

/// The shortest text that spells a value in minor units: 100050 with 2 decimals is `1000,5`. No leading
/// zeros but one digit before the comma, the comma always, no zeros at the end. The only fault is want
/// of memory.
pub fn write_number(alloc: Global, value: u64, decimals: usize) -> Result<Vec<u8>, AllocError>
    requires { decimals ≤ 3 }
    ensures { IfOk result (λ text. text.items ≡ written_number value decimals) }
{
    Vec::from_slice(alloc, NumberText::of(value, decimals).as_bytes())
}

/// The digits of a whole number.
fn whole_text(whole: u64) -> ShortText<24>
    ensures digits { result ≡ decimal whole }
    ensures short { length result ≤ 20 }
{
    let mut digits = [0; MOST_DIGITS];
    let start = write_digits(whole, &mut digits, MOST_DIGITS);
    ShortText::new(&digits[start..])
}

/// What stands before the comma and behind it, in major and in minor units.
fn parts_of(value: u64, decimals: usize) -> (u64, u64)
    requires { decimals ≤ 3 }
    ensures whole { result.0 ≡ value / 10 ^ decimals }
    ensures part { result.1 ≡ value % 10 ^ decimals }
    ensures small { result.1 < 10 ^ decimals }
{
    match decimals {
        0 => (value, 0),
        1 => (value / 10, value % 10),
        2 => (value / 100, value % 100),
        _ => (value / 1000, value % 1000),
    }
}

fn power_of_ten(exponent: usize) -> u64
    requires { exponent ≤ 3 }
    ensures value { result ≡ 10 ^ exponent }
    ensures some { 0 < result }
{
    match exponent {
        0 => 1,
        1 => 10,
        2 => 100,
        _ => 1000,
    }
}
