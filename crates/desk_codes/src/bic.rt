//! The business identifier code of a party (ISO 9362).
ghost use Rattle.std.specs.Prelude.{◌≡◌, ◌≤◌, ◌↔◌, IsTrue, length};
ghost use Rattle.desk_codes.specs.Bic.{IsBic, IsBicShaped, ReadsBic};

use crate::characters::{are_capitals, are_code_chars, ascii_str};
use crate::fault::CodeFault;
use crate::short_text::ShortText;
use std::marker::Model;

/// The branch code of a head office, which is left out of a BIC's one spelling.
const HEAD_OFFICE: &[u8] = b"XXX";

/// A party's BIC, of eight characters, or eleven with a branch other than XXX (ISO 9362).
#[derive(Clone, Copy, PartialEq, Eq, PartialOrd, Ord)]
pub struct Bic {
    // with room for whole words, by which it is compared
    text: ShortText<16>,
}

impl Model for Bic {
    ghost use Rattle.std.specs.Prelude.{List, ℕ};
    ghost use Rattle.desk_codes.specs.Bic.{IsBic};

    ghost Value = { List ℕ };

    ghost view = { λ bic. bic.text };

    ghost invariant = { λ bic. IsBic bic.text };

    ghost inverse = { λ text. record { text = text } };
}

impl Bic {
    /// The party that a text names, else Length or Shape. Eleven characters that end in XXX name the
    /// party of the first eight; any other branch is a party of its own.
    pub fn parse(text: &[u8]) -> Result<Bic, CodeFault>
        ensures { ReadsBic text.now result }
    {
        if text.len() != 8 && text.len() != 11 {
            return Err(CodeFault::Length);
        }
        if !is_shaped(text) {
            return Err(CodeFault::Shape);
        }
        let (head, branch) = text.split_at(8);
        if branch == HEAD_OFFICE {
            return Ok(Bic::of(head));
        }
        Ok(Bic::of(text))
    }

    /// The party of a code in its one spelling.
    fn of(text: &[u8]) -> Bic
        requires { IsBic text.now }
        ensures { result ≡ text.now }
    {
        Bic {
            text: ShortText::new(text),
        }
    }

    /// Its eight or eleven characters.
    pub fn as_bytes(&self) -> &[u8]
        ensures bytes { result.now ≡ self.now }
        ensures bic { IsBic self.now }
    {
        self.text.as_bytes()
    }

    /// Its eight or eleven characters as text.
    pub fn as_str(&self) -> &str
        ensures { result.now ≡ self.now }
    {
        ascii_str(self.text.as_bytes())
    }
}

fn is_shaped(text: &[u8]) -> bool
    requires { 6 ≤ length text.now }
    ensures { IsTrue result ↔ IsBicShaped text.now }
{
    let (party, tail) = text.split_at(4);
    let (country, rest) = tail.split_at(2);
    if !are_code_chars(party) {
        return false;
    }
    if !are_capitals(country) {
        return false;
    }
    are_code_chars(rest)
}
