//! The lines of a text.
ghost use Rattle.std.specs.Prelude.{◌≡◌, ◌≢◌, ◌∷◌, ◌<◌, ◌+◌, ◌^◌, [], length, IfSome, IfNone};
ghost use Rattle.desk_text.specs.Lines.{lines_of};
ghost use Rattle.desk_text.specs.Reading.{strip_return};
ghost use Rattle.desk_reasons.specs.BlockFaults.{line_at};

use desk_codes::split_at;

/// A line without the CR at its end, if it has one.
fn without_return(line: &[u8]) -> &[u8]
    ensures { result.now ≡ strip_return line.now }
{
    if line.is_empty() {
        return line;
    }
    let front = line.len() - 1;
    if line[front] == b'\r' {
        return &line[..front];
    }
    line
}

/// The first line of a text, without its end, and what comes after it. None at the end of the text.
pub fn next_line(text: &[u8]) -> Option<(&[u8], &[u8])>
    ensures found { IfSome result (λ parts. lines_of text.now ≡ parts.0.now ∷ lines_of parts.1.now) }
    ensures shorter { IfSome result (λ parts. length parts.1.now < length text.now) }
    ensures none { IfNone result (text.now ≡ []) }
{
    if text.is_empty() {
        return None;
    }
    match split_at(text, b'\n') {
        Some((line, rest)) => Some((without_return(line), rest)),
        None => Some((text, &text[..0])),
    }
}

/// The line of that number, counted from 1; an empty one where there is none.
pub fn line_at(number: usize, text: &[u8]) -> &[u8]
    ensures { result.now ≡ line_at number text.now }
{
    let mut rest = text;
    for _line in 1..number {
        match next_line(rest) {
            Some((_, after)) => rest = after,
            None => return rest,
        }
    }
    match next_line(rest) {
        Some((line, _)) => line,
        None => rest,
    }
}

/// How many lines a text has.
pub fn count_lines(text: &[u8]) -> usize
    ensures { result ≡ length (lines_of text.now) }
{
    let mut count = 0usize;
    let mut rest = text;
    while let Some((_, after)) = next_line(rest) {
        count += 1;
        rest = after;
    }
    count
}
