//! A message's reference.
ghost use Rattle.std.specs.Prelude.{◌≡◌, ◌↔◌, IsTrue, IsSome, IfSome};
ghost use Rattle.desk_codes.specs.Reference.{IsReference};

use crate::characters::{are_printable, ascii_str};
use crate::short_text::ShortText;
use std::marker::Model;

/// The longest reference, in characters.
const LONGEST: usize = 16;

/// A sender's reference: 1 to 16 printable characters, 0x20 to 0x7E, no slash first or last and no two together
/// (ISO 15022, field 20C, format 16x; the standard's set x has fewer characters).
#[derive(Clone, Copy, PartialEq, Eq, PartialOrd, Ord)]
pub struct Reference {
    text: ShortText<16>,
}

impl Model for Reference {
    ghost use Rattle.std.specs.Prelude.{List, ℕ};
    ghost use Rattle.desk_codes.specs.Reference.{IsReference};

    ghost Value = { List ℕ };

    ghost view = { λ reference. reference.text };

    ghost invariant = { λ reference. IsReference reference.text };

    ghost inverse = { λ text. record { text = text } };
}

impl Reference {
    /// The reference that a text spells; None where it spells none.
    pub fn read(text: &[u8]) -> Option<Reference>
        ensures found { IsSome result ↔ IsReference text.now }
        ensures value { IfSome result (λ reference. reference ≡ text.now) }
    {
        if !is_reference(text) {
            return None;
        }
        Some(Reference {
            text: ShortText::new(text),
        })
    }

    /// Its characters.
    pub fn as_bytes(&self) -> &[u8]
        ensures bytes { result.now ≡ self.now }
        ensures reference { IsReference self.now }
    {
        self.text.as_bytes()
    }

    /// Its characters as text.
    pub fn as_str(&self) -> &str
        ensures { result.now ≡ self.now }
    {
        ascii_str(self.text.as_bytes())
    }
}

fn is_reference(text: &[u8]) -> bool
    ensures { IsTrue result ↔ IsReference text.now }
{
    if text.is_empty() || text.len() > LONGEST {
        return false;
    }
    if text[0] == b'/' || text[text.len() - 1] == b'/' {
        return false;
    }
    if !are_printable(text) {
        return false;
    }
    for i in 1..text.len() {
        if text[i - 1] == b'/' && text[i] == b'/' {
            return false;
        }
    }
    true
}
