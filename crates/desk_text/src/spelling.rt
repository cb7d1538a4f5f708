//! What names, tags and values are made of.
ghost use Rattle.std.specs.Prelude.{◌≡◌, ◌≢◌, ◌∷◌, ◌++◌, ◌||◌, All, IfSome, IfNone};
ghost use Rattle.std.specs.List.{list_all};
ghost use Rattle.std.specs.Str.{byte};
ghost use Rattle.desk_text.specs.Lines.{value_lines};
ghost use Rattle.desk_text.specs.BlockGrammar.{is_capital, is_digit, is_name as spells_name, is_any_tag, is_tag as spells_tag, is_first, is_further};
ghost use Rattle.desk_text.specs.Written.{is_value as spells_value};

use crate::limits::LONGEST_NAME;
use crate::scanning::{are_of_names, are_printable, find_feed};

/// Whether a sequence may have this name: 1 to `LONGEST_NAME` characters A to Z or 0 to 9.
pub fn is_name(name: &[u8]) -> bool
    ensures { result ≡ spells_name name.now }
{
    if name.is_empty() {
        return false;
    }
    if name.len() > LONGEST_NAME {
        return false;
    }
    are_of_names(name)
}

/// Two digits, and at most one letter A to Z.
fn is_any_tag(tag: &[u8]) -> bool
    ensures { result ≡ is_any_tag tag.now }
{
    match tag {
        [a, b] => a.is_ascii_digit() && b.is_ascii_digit(),
        [a, b, c] => a.is_ascii_digit() && b.is_ascii_digit() && c.is_ascii_uppercase(),
        _ => false,
    }
}

/// Whether a field may have this tag: two digits and at most one letter A to Z, but not 16R and 16S, which open and
/// close sequences.
pub fn is_tag(tag: &[u8]) -> bool
    ensures { result ≡ spells_tag tag.now }
{
    is_any_tag(tag) && tag != b"16R".as_slice() && tag != b"16S".as_slice()
}

/// Whether all characters are 0x20 to 0x7E.
pub fn is_printable_line(line: &[u8]) -> bool
    ensures { result ≡ is_first line.now }
{
    are_printable(line)
}

/// Whether a line may go on a value: printable, and it begins with neither `:` nor `-`.
pub fn is_further_line(line: &[u8]) -> bool
    ensures { result ≡ is_further line.now }
{
    match line {
        [b':' | b'-', ..] => false,
        _ => is_printable_line(line),
    }
}

/// What stands before the first line feed, and after it.
#[inline]
pub fn split_feed(text: &[u8]) -> Option<(&[u8], &[u8])>
    ensures found { IfSome result (λ parts. (text.now ≡ parts.0.now ++ byte "\n" ∷ parts.1.now) × All (λ c. c ≢ byte "\n") parts.0.now) }
    ensures none { IfNone result (All (λ c. c ≢ byte "\n") text.now) }
{
    let index = find_feed(text)?;
    Some((&text[..index], &text[index + 1..]))
}

/// Whether all lines may go on a value.
fn are_further_lines(lines: &[u8]) -> bool
    ensures { result ≡ list_all is_further (value_lines lines.now) }
{
    let mut rest = lines;
    while let Some((line, after)) = split_feed(rest) {
        if !is_further_line(line) {
            return false;
        }
        rest = after;
    }
    is_further_line(rest)
}

/// Whether a field may have this value: printable characters, and LF between its lines, of which none but the first
/// begins with `:` or `-`.
pub fn is_value(value: &[u8]) -> bool
    ensures { result ≡ spells_value value.now }
{
    match split_feed(value) {
        Some((first, further)) => is_printable_line(first) && are_further_lines(further),
        None => is_printable_line(value),
    }
}
