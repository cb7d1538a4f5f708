//! What is looked for in a text, and its parts.
ghost use Rattle.std.specs.Prelude.{◌≡◌, ◌++◌, ◌∷◌, take, drop};
ghost use Rattle.std.specs.List.{list_all, starts_with};
ghost use Rattle.std.specs.Str.{str_eq_ignore_ascii_case};
ghost use Rattle.desk_text.specs.BlockGrammar.{is_digit};
ghost use Rattle.desk_reasons.specs.Characters.{stands_in, has_lower_case, begins_so, ends_so, has_slashes, behind_first};

use desk_codes::split_at;

/// Whether a byte stands in a text.
pub fn stands_in(byte: u8, text: &[u8]) -> bool
    ensures { result ≡ stands_in byte text.now }
{
    text.iter().any(|c| *c == byte)
}

/// Whether a lower case letter stands in a text.
pub fn has_lower_case(text: &[u8]) -> bool
    ensures { result ≡ has_lower_case text.now }
{
    text.iter().any(|c| *c >= b'a' && *c <= b'z')
}

/// Whether each character is a digit.
pub fn are_digits(text: &[u8]) -> bool
    ensures { result ≡ list_all is_digit text.now }
{
    text.iter().all(|c| c.is_ascii_digit())
}

/// Whether a text begins so.
pub fn begins_so(text: &[u8], front: &[u8]) -> bool
    ensures { result ≡ begins_so text.now front.now }
{
    text.starts_with(front)
}

/// Whether a text ends so.
pub fn ends_so(text: &[u8], end: &[u8]) -> bool
    ensures { result ≡ ends_so text.now end.now }
{
    text.ends_with(end)
}

/// Whether two texts are the same once their letters are in lower case.
pub fn is_same_but_for_case(text: &[u8], other: &[u8]) -> bool
    ensures { result ≡ str_eq_ignore_ascii_case text.now other.now }
{
    text.eq_ignore_ascii_case(other)
}

/// Whether two slashes stand together.
pub fn has_slashes(text: &[u8]) -> bool
    ensures { result ≡ has_slashes text.now }
{
    for index in 0..text.len() {
        if text[index] == b'/' && begins_so(&text[index + 1..], b"/") {
            return true;
        }
    }
    false
}

/// Whether a byte stands twice in a text.
pub fn stands_twice(byte: u8, text: &[u8]) -> bool
    ensures { result ≡ stands_in byte (behind_first byte text.now) }
{
    match split_at(text, byte) {
        Some((_front, rest)) => stands_in(byte, rest),
        None => false,
    }
}

/// The first so many bytes of a text, or all.
pub fn front_of(text: &[u8], count: usize) -> &[u8]
    ensures { result.now ≡ take count text.now }
{
    if text.len() <= count {
        return text;
    }
    &text[..count]
}

/// What stands behind so many bytes of a text.
pub fn rest_of(text: &[u8], count: usize) -> &[u8]
    ensures { result.now ≡ drop count text.now }
{
    if text.len() <= count {
        return &text[..0];
    }
    &text[count..]
}
