//! The lines of a script, and of answers.
ghost use Rattle.std.specs.Prelude.{◌≡◌, ◌<◌, ◌≤◌, ◌==◌, ◌++◌, ◌∷◌, [], length, IfSome, IfNone};
ghost use Rattle.std.specs.List.{position_or_len};
ghost use Rattle.desk_book.specs.Lines.{script_lines, said_by as said_of, is_skipped as skips, has_body as posts, is_stop as stops, first_word as word_of};

use crate::requests::lanes::{LANES, before_byte};

/// The first word of a line that a participant's message follows.
pub const MESSAGE: &[u8] = b"in";

/// The first word of a line that an operator's command follows.
pub const COMMAND: &[u8] = b"op";

/// The line that ends a body, or an answer.
const STOP: &[u8] = b".";

/// The first line with its line end, and what stands behind it; None of an empty text.
pub fn first_line(text: &[u8]) -> Option<(&[u8], &[u8])>
    ensures first { IfSome result (λ parts. script_lines text.now ≡ parts.0.now ∷ script_lines parts.1.now) }
    ensures split { IfSome result (λ parts. text.now ≡ parts.0.now ++ parts.1.now) }
    ensures shorter { IfSome result (λ parts. length parts.1.now < length text.now) }
    ensures none { IfNone result (text.now ≡ []) }
{
    if text.is_empty() {
        return None;
    }
    let index = index_of(text, b'\n');
    if index == text.len() {
        return Some((text, &[]));
    }
    Some((&text[..index + 1], &text[index + 1..]))
}

/// Where a byte stands first, or the length of the text where it stands nowhere.
fn index_of(text: &[u8], byte: u8) -> usize
    ensures place { result ≡ position_or_len (λ c. c == byte) text.now }
    ensures within { result ≤ length text.now }
{
    let mut at = 0;
    while LANES <= text.len() - at {
        let run = before_byte(text, at, byte);
        if run < LANES {
            return at + run;
        }
        at += LANES;
    }
    for index in at..text.len() {
        if text[index] == byte {
            return index;
        }
    }
    text.len()
}

/// What a line says: without its line feed and a carriage return right before that.
pub fn said_by(line: &[u8]) -> &[u8]
    ensures { result.now ≡ said_of line.now }
{
    if let Some(said) = line.strip_suffix(b"\r\n") {
        return said;
    }
    if let Some(said) = line.strip_suffix(b"\n") {
        return said;
    }
    line
}

/// Whether a line that says this asks nothing: an empty one, or a comment.
pub fn is_skipped(said: &[u8]) -> bool
    ensures { result ≡ skips said.now }
{
    match said.first() {
        Some(c) => *c == b'#',
        None => true,
    }
}

/// Whether a body follows a line that says this.
pub fn has_body(said: &[u8]) -> bool
    ensures { result ≡ posts said.now }
{
    let word = first_word(said);
    word == MESSAGE || word == COMMAND
}

/// What stands before the first space, or all of it.
fn first_word(said: &[u8]) -> &[u8]
    ensures { result.now ≡ word_of said.now }
{
    &said[..index_of(said, b' ')]
}

/// Whether the line ends a body, or an answer. Of most lines their second byte tells.
pub fn is_stop(line: &[u8]) -> bool
    ensures { result ≡ stops line.now }
{
    match line.get(1) {
        Some(c) if *c != b'\n' && *c != b'\r' => false,
        _ => said_by(line) == STOP,
    }
}
