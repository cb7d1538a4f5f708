//! A safekeeping account's identifier.
ghost use Rattle.std.specs.Prelude.{◌≡◌, ◌↔◌, IsSome, IfSome};
ghost use Rattle.desk_codes.specs.Account.{IsAccount};

use crate::characters::{are_printable, ascii_str};
use crate::short_text::ShortText;
use std::marker::Model;

/// The longest account, in characters.
const LONGEST: usize = 35;

/// The plain number of a safekeeping account: 1 to 35 printable characters, 0x20 to 0x7E
/// (ISO 15022, field 97A, format 35x; the standard's set x has fewer characters).
#[derive(Clone, Copy, PartialEq, Eq, PartialOrd, Ord)]
pub struct AccountId {
    // with room for whole words, by which it is compared
    text: ShortText<40>,
}

impl Model for AccountId {
    ghost use Rattle.std.specs.Prelude.{List, ℕ};
    ghost use Rattle.desk_codes.specs.Account.{IsAccount};

    ghost Value = { List ℕ };

    ghost view = { λ account. account.text };

    ghost invariant = { λ account. IsAccount account.text };

    ghost inverse = { λ text. record { text = text } };
}

impl AccountId {
    /// The account that a text spells; None where it spells none.
    pub fn read(text: &[u8]) -> Option<AccountId>
        ensures found { IsSome result ↔ IsAccount text.now }
        ensures value { IfSome result (λ account. account ≡ text.now) }
    {
        if text.is_empty() || text.len() > LONGEST || !are_printable(text) {
            return None;
        }
        Some(AccountId {
            text: ShortText::new(text),
        })
    }

    /// Its characters.
    pub fn as_bytes(&self) -> &[u8]
        ensures bytes { result.now ≡ self.now }
        ensures account { IsAccount self.now }
    {
        self.text.as_bytes()
    }

    /// Its characters as text.
    pub fn as_str(&self) -> &str
        ensures { result.now ≡ self.now }
    {
        ascii_str(self.text.as_bytes())
    }
}
