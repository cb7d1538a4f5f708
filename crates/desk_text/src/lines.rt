//! Lines, and what each is by itself.
ghost use Rattle.std.specs.Prelude.{◌≡◌, ◌≢◌, ◌∷◌, ◌<◌, [], List, ℕ, length, IfSome, IfNone};
ghost use Rattle.std.specs.Option.{option_map};
ghost use Rattle.desk_text.specs.Lines.{lines_of};
ghost use Rattle.desk_text.specs.Reading.{strip_return};
ghost use Rattle.desk_text.specs.Signs.{sign_of, sign_of_tag, split_tag as tag_split};
ghost use Rattle.desk_text.specs.Seen.{sign_seen};

use crate::spelling::{is_further_line, is_name, is_printable_line, is_tag, split_feed};

/// What a line after the first is by itself.
#[derive(Clone, Copy)]
pub enum Line<'a> {
    /// `:16R:` and a name.
    Opening(&'a [u8]),
    /// `:16S:` and a name.
    Closing(&'a [u8]),
    /// A field's tag and the first line of its value.
    Start(&'a [u8], &'a [u8]),
    /// A further line of a value.
    Further(&'a [u8]),
    /// `-}`
    End,
    /// None of these.
    Strange,
}

/// A line without the CR at its end, if it has one.
fn without_return(line: &[u8]) -> &[u8]
    ensures { result.now ≡ strip_return line.now }
{
    if line.is_empty() {
        return line;
    }
    let front = line.len() - 1;
    if line[front] == b'\r' {
        return &line[..front];
    }
    line
}

/// The first line of a text, without its end, and what comes after it. None at the end of the text.
pub fn next_line(text: &[u8]) -> Option<(&[u8], &[u8])>
    ensures found { IfSome result (λ parts. lines_of text.now ≡ parts.0.now ∷ lines_of parts.1.now) }
    ensures shorter { IfSome result (λ parts. length parts.1.now < length text.now) }
    ensures none { IfNone result (text.now ≡ []) }
{
    if text.is_empty() {
        return None;
    }
    match split_feed(text) {
        Some((line, rest)) => Some((without_return(line), rest)),
        None => Some((text, &text[..0])),
    }
}

/// What comes after the line end that a text begins with.
#[inline(always)]
#[tactic(auto, using(crate::proofs::LinesLemmas::first_not_empty))]
pub fn after_line_end(text: &[u8]) -> Option<&[u8]>
    ensures some { IfSome result (λ rest. lines_of text.now ≡ [] ∷ lines_of rest.now) }
    ensures shorter { IfSome result (λ rest. length rest.now < length text.now) }
    ensures none { IfNone result ((rest : List (List ℕ)) → lines_of text.now ≢ [] ∷ rest) }
{
    match text {
        [b'\n', rest @ ..] | [b'\r', b'\n', rest @ ..] => Some(rest),
        _ => None,
    }
}

/// The tag and the value of a line `tag:value`, where a colon stands behind two or three characters.
fn split_tag(line: &[u8]) -> Option<(&[u8], &[u8])>
    ensures { option_map (λ parts. (parts.0.now, parts.1.now)) result ≡ tag_split line.now }
{
    if line.len() < 3 {
        return None;
    }
    if line[2] == b':' {
        return Some((&line[..2], &line[3..]));
    }
    if line.len() < 4 {
        return None;
    }
    if line[3] == b':' {
        return Some((&line[..3], &line[4..]));
    }
    None
}

/// What a line `:tag:value` is.
fn read_tagged<'a>(tag: &'a [u8], value: &'a [u8]) -> Line<'a>
    ensures { sign_seen result ≡ sign_of_tag tag.now value.now }
{
    if tag == b"16R".as_slice() {
        return if is_name(value) {
            Line::Opening(value)
        } else {
            Line::Strange
        };
    }
    if tag == b"16S".as_slice() {
        return if is_name(value) {
            Line::Closing(value)
        } else {
            Line::Strange
        };
    }
    if is_tag(tag) && is_printable_line(value) {
        return Line::Start(tag, value);
    }
    Line::Strange
}

/// What a line after the first is by itself.
pub fn read_line(line: &[u8]) -> Line<'_>
    ensures { sign_seen result ≡ sign_of line.now }
{
    if let [b':', rest @ ..] = line {
        return match split_tag(rest) {
            Some((tag, value)) => read_tagged(tag, value),
            None => Line::Strange,
        };
    }
    if line == b"-}".as_slice() {
        return Line::End;
    }
    if is_further_line(line) {
        return Line::Further(line);
    }
    Line::Strange
}
