//! Tests of the characters that codes are made of, their text, and its parts.
ghost use Rattle.std.specs.Prelude.{◌≡◌, ◌≢◌, ◌↔◌, ◌<◌, ◌++◌, ◌∷◌, All, IfNone, IfSome, IsTrue};
ghost use Rattle.desk_codes.specs.Characters.{IsPrintable, IsDigit, IsCapital, IsCodeChar};

use std::str;

/// Whether each byte is a printable character, 0x20 to 0x7E.
pub fn are_printable(text: &[u8]) -> bool
    ensures { IsTrue result ↔ All IsPrintable text.now }
{
    text.iter().all(|c| *c >= 0x20 && *c <= 0x7e)
}

/// Whether each byte is a digit.
pub fn are_digits(text: &[u8]) -> bool
    ensures { IsTrue result ↔ All IsDigit text.now }
{
    text.iter().all(|c| c.is_ascii_digit())
}

/// Whether each byte is a capital letter.
pub fn are_capitals(text: &[u8]) -> bool
    ensures { IsTrue result ↔ All IsCapital text.now }
{
    text.iter().all(|c| c.is_ascii_uppercase())
}

/// Whether a byte is a capital letter or a digit.
fn is_code_char(c: u8) -> bool
    ensures { IsTrue result ↔ IsCodeChar c }
{
    c.is_ascii_digit() || c.is_ascii_uppercase()
}

/// Whether each byte is a capital letter or a digit.
pub fn are_code_chars(text: &[u8]) -> bool
    ensures { IsTrue result ↔ All IsCodeChar text.now }
{
    text.iter().all(|c| is_code_char(*c))
}

/// The text of ASCII bytes.
pub fn ascii_str(bytes: &[u8]) -> &str
    requires { All (λ c. c < 128) bytes.now }
    ensures { result.now ≡ bytes.now }
{
    str::from_utf8(bytes).unwrap()
}

/// What stands before the first byte that is the separator, and what stands behind it; None where it stands nowhere.
pub fn split_at(text: &[u8], separator: u8) -> Option<(&[u8], &[u8])>
    ensures found { IfSome result (λ parts. (text.now ≡ parts.0.now ++ separator ∷ parts.1.now) × All (λ c. c ≢ separator) parts.0.now) }
    ensures none { IfNone result (All (λ c. c ≢ separator) text.now) }
{
    for (index, c) in text.iter().enumerate() {
        if *c == separator {
            return Some((&text[..index], &text[index + 1..]));
        }
    }
    None
}
