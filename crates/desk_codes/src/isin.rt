//! The identification number of a security (ISO 6166).
ghost use Rattle.std.specs.Prelude.{◌≡◌, ◌↔◌, ◌≤◌, ◌<◌, ◌^◌, ◌+◌, All, IsTrue, length, nat_eq, refl};
ghost use Rattle.std.specs.Option.{SomeIff};
ghost use Rattle.std.specs.Ordering.{as_partial_cmp, nat_cmp};
ghost use Rattle.std.specs.Cmp.{partial_equiv_from_equiv, unsigned_po};
ghost use Rattle.std.specs.Cmp.Lexicographic.{pointwise, slice_cmp, slice_partial_cmp, lists_agrees, lists_po, nat_list_eq_equiv, nat_list_cmp_total, texts_ties};
ghost use Rattle.desk_codes.specs.Characters.{IsCodeChar};
ghost use Rattle.desk_codes.specs.CheckDigit.{IsIsin, check_of, weight};
ghost use Rattle.desk_codes.specs.Isin.{ReadsIsin};

use crate::characters::{are_capitals, ascii_str};
use crate::fault::CodeFault;
use crate::words::order_words;
use std::cmp::Ordering;
use std::marker::Model;

/// An ISIN: two letters, nine letters or digits, and their check digit (ISO 6166).
#[derive(Clone, Copy)]
pub struct Isin {
    bytes: [u8; 12],
}

impl Model for Isin {
    ghost use Rattle.std.specs.Prelude.{List, ℕ};
    ghost use Rattle.desk_codes.specs.CheckDigit.{IsIsin};

    ghost Value = { List ℕ };

    ghost view = { λ isin. isin.bytes };

    ghost invariant = { λ isin. IsIsin isin.bytes };

    ghost inverse = { λ text. record { bytes = text } };
}

impl Isin {
    /// The ISIN that a text spells, else the first of Length, Prefix, Body and Check. A last character
    /// that is no digit is Check too, with the digit that was expected.
    pub fn parse(text: &[u8]) -> Result<Isin, CodeFault>
        ensures { ReadsIsin text.now result }
    {
        if text.len() != 12 {
            return Err(CodeFault::Length);
        }
        if !are_capitals(&text[..2]) {
            return Err(CodeFault::Prefix);
        }
        let mut body = [0; 11];
        body.copy_from_slice(&text[..11]);
        let Some(expected) = check_digit(body) else {
            return Err(CodeFault::Body);
        };
        if text[11] != b'0' + expected {
            return Err(CodeFault::Check(expected));
        }
        let mut bytes = [0; 12];
        bytes.copy_from_slice(text);
        Ok(Isin { bytes })
    }

    /// Its twelve characters.
    pub fn as_bytes(&self) -> &[u8]
        ensures bytes { result.now ≡ self.now }
        ensures isin { IsIsin self.now }
    {
        &self.bytes
    }

    /// Its twelve characters as text.
    pub fn as_str(&self) -> &str
        ensures { result.now ≡ self.now }
    {
        ascii_str(&self.bytes)
    }
}

impl PartialEq for Isin {
    ghost eq = { pointwise nat_eq };

    ghost laws = { partial_equiv_from_equiv nat_list_eq_equiv };

    #[inline]
    fn eq(&self, other: &Isin) -> bool {
        self.cmp(other).is_eq()
    }
}

impl Eq for Isin {
    ghost laws = { nat_list_eq_equiv };
}

impl PartialOrd for Isin {
    ghost partial_cmp = { slice_partial_cmp (as_partial_cmp nat_cmp) };

    ghost laws = { lists_po unsigned_po };

    #[inline]
    fn partial_cmp(&self, other: &Isin) -> Option<Ordering> {
        Some(self.cmp(other))
    }
}

impl Ord for Isin {
    ghost cmp = { slice_cmp nat_cmp };

    ghost total = { nat_list_cmp_total };

    ghost matches_partial_cmp = { lists_agrees (λ a b. refl) };

    ghost matches_eq = { texts_ties };

    #[inline]
    fn cmp(&self, other: &Isin) -> Ordering {
        order_words(&self.bytes, &other.bytes)
    }
}

/// What a digit adds to the sum, where an even count of digits stands to its right, or an odd one.
fn weigh(right_is_even: bool, digit: u8) -> u32
    requires { digit < 10 }
    ensures value { result ≡ weight right_is_even digit }
    ensures small { result ≤ 9 }
{
    let product = if right_is_even { 2 * digit } else { digit };
    u32::from(product / 10 + product % 10)
}

/// The check digit, 0 to 9, that ISO 6166 puts behind eleven characters; None where one of them is no
/// letter A to Z and no digit.
pub fn check_digit(body: [u8; 11]) -> Option<u8>
    ensures { SomeIff result (All IsCodeChar body) (check_of body) }
{
    let mut sum = 0u32;
    let mut is_even = true;
    for i in (0..body.len()).rev() {
        let c = body[i];
        if c.is_ascii_digit() {
            sum += weigh(is_even, c - b'0');
            is_even = !is_even;
        } else if c.is_ascii_uppercase() {
            let number = c - b'A' + 10;
            sum += weigh(is_even, number % 10) + weigh(!is_even, number / 10);
        } else {
            return None;
        }
    }
    Some(((10 - sum % 10) % 10) as u8)
}
