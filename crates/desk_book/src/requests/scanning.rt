//! The parts of an object in JSON (RFC 8259), each read at the front of a text, together with what stands behind it.
ghost use Rattle.std.specs.Prelude.{◌≡◌, ◌<◌, ◌≤◌, ◌^◌, [], ◌∷◌, ◌++◌, All, length, slice_index, true, decimal, IfSome};
ghost use Rattle.std.specs.Str.{byte};
ghost use Rattle.json.specs.Lex.{token, operator_lexeme};
ghost use Rattle.json.specs.Token.{string, number};
ghost use Rattle.json.specs.Word.{is_operator, is_space, ends_word};
ghost use Rattle.desk_codes.specs.Characters.{IsDigit};
ghost use Rattle.desk_book.specs.Flat.{Fits, Passes, member_lexemes, scalar_token};
ghost use Rattle.desk_book.specs.Runs.{IsPlainTo, is_special};

use crate::limits::{LONGEST_MEMBER, LONGEST_NUMBER, LONGEST_SPACE};
use crate::requests::flat::{Member, Scalar};
use crate::requests::form::number_of;
use crate::requests::lanes::{LANES, before_special};

/// What stands behind white space (section 2), of which no more than `LONGEST_SPACE` bytes are passed over.
pub fn after_space(text: &[u8]) -> &[u8]
    ensures { Passes [] text.now result.now }
{
    match text.first() {
        Some(c) if *c <= b' ' => behind_spaces(text),
        _ => text,
    }
}

/// The same, byte by byte.
fn behind_spaces(text: &[u8]) -> &[u8]
    ensures { Passes [] text.now result.now }
{
    for (index, c) in text.iter().enumerate() {
        if index == LONGEST_SPACE || !is_space(*c) {
            return &text[index..];
        }
    }
    &[]
}

/// Whether a byte is white space.
fn is_space(c: u8) -> bool
    ensures { result ≡ is_space c }
{
    (c == b' ') | (c == b'\t') | (c == b'\n') | (c == b'\r')
}

/// What stands behind a mark of the grammar, and white space before it.
pub fn behind_mark(text: &[u8], mark: u8) -> Option<&[u8]>
    requires { (is_operator mark ≡ true) × (mark < 128) }
    ensures { IfSome result (λ rest. Passes (operator_lexeme mark ∷ []) text.now rest.now) }
{
    let rest = after_space(text).strip_prefix(&[mark])?;
    Some(rest)
}

/// The member at the front, and what stands behind it.
pub fn member(text: &[u8]) -> Option<(Member<'_>, &[u8])>
    ensures passed { IfSome result (λ parts. Passes (member_lexemes parts.0) text.now parts.1.now) }
    ensures fits { IfSome result (λ parts. Fits parts.0.value) }
{
    let (name, behind) = quoted(after_space(text))?;
    let written = behind_mark(behind, b':')?;
    let (value, rest) = scalar(after_space(written))?;
    Some((Member { name, value }, rest))
}

/// The text or the whole number at the front, and what stands behind it.
fn scalar(text: &[u8]) -> Option<(Scalar<'_>, &[u8])>
    ensures passed { IfSome result (λ parts. Passes (token (scalar_token parts.0) ∷ []) text.now parts.1.now) }
    ensures fits { IfSome result (λ parts. Fits parts.0) }
{
    if let [b'"', ..] = text {
        let (text, rest) = quoted(text)?;
        return Some((Scalar::Text(text), rest));
    }
    let (number, rest) = whole(text)?;
    Some((Scalar::Whole(number), rest))
}

/// The text between quotes at the front, and what stands behind it; None where a byte of it is a backslash or no printable
/// character of ASCII, or where it has more than `LONGEST_MEMBER` bytes.
fn quoted(text: &[u8]) -> Option<(&[u8], &[u8])>
    ensures { IfSome result (λ parts. Passes (token (string parts.0.now) ∷ []) text.now parts.1.now) }
{
    let rest = text.strip_prefix(b"\"")?;
    let length = plain_length(rest);
    if LONGEST_MEMBER < length {
        return None;
    }
    let behind = rest[length..].strip_prefix(b"\"")?;
    Some((&rest[..length], behind))
}

/// How many bytes at the front stand for themselves between quotes: all up to one that does not, or to the end, or some more
/// than `LONGEST_MEMBER`.
#[inline(always)]
fn plain_length(text: &[u8]) -> usize
    ensures within { result ≤ length text.now }
    ensures plain { IsPlainTo text.now result }
{
    let mut at = 0;
    while LANES <= text.len() - at {
        let run = before_special(text, at);
        if run < LANES || LONGEST_MEMBER < at + run {
            return at + run;
        }
        at += LANES;
    }
    for index in at..text.len() {
        if is_special(text[index]) {
            return index;
        }
    }
    text.len()
}

/// Whether a byte does not stand for itself between quotes.
fn is_special(c: u8) -> bool
    ensures { result ≡ is_special c }
{
    c == b'"' || c == b'\\' || c < b' ' || b'~' < c
}

/// The whole number at the front, and what stands behind it; None where it is not written with digits alone, the first of
/// them no nought beside others, where it has more than `LONGEST_NUMBER` digits, or where what stands behind it may go on with
/// the word.
fn whole(text: &[u8]) -> Option<(u64, &[u8])>
    ensures passed { IfSome result (λ parts. Passes (token (number (decimal parts.0)) ∷ []) text.now parts.1.now) }
    ensures fits { IfSome result (λ parts. parts.0 < 2 ^ 64) }
{
    let (digits, rest) = digits_at_front(text)?;
    let number = number_of(digits);
    if !ends_word(rest) || !is_shortest(digits) {
        return None;
    }
    Some((number, rest))
}

/// Whether there are digits, the first of them no nought beside others.
fn is_shortest(digits: &[u8]) -> bool
    ensures some { result ≡ true → 0 < length digits.now }
    ensures first { result ≡ true → slice_index digits.now 0 ≡ byte "0" → length digits.now ≡ 1 }
{
    match digits.first() {
        Some(b'0') => digits.len() == 1,
        Some(_) => true,
        None => false,
    }
}

/// The digits at the front, and what stands behind them; None where they are more than `LONGEST_NUMBER`, or where nothing
/// stands behind them.
fn digits_at_front(text: &[u8]) -> Option<(&[u8], &[u8])>
    ensures split { IfSome result (λ parts. text.now ≡ parts.0.now ++ parts.1.now) }
    ensures digits { IfSome result (λ parts. All IsDigit parts.0.now) }
    ensures short { IfSome result (λ parts. length parts.0.now ≤ LONGEST_NUMBER) }
{
    for (index, c) in text.iter().enumerate() {
        if !c.is_ascii_digit() {
            return Some(text.split_at(index));
        }
        if index == LONGEST_NUMBER {
            return None;
        }
    }
    None
}

/// Whether white space, or a mark that may follow a member, is at the front: then no word goes on there.
fn ends_word(text: &[u8]) -> bool
    ensures { result ≡ true → ends_word text.now ≡ true }
{
    matches!(
        text.first(),
        Some(b',' | b'}' | b' ' | b'\t' | b'\n' | b'\r')
    )
}
