//! Scripts: requests as lines of text, with bodies.
ghost use Rattle.std.specs.Prelude.{◌≡◌, ◌≢◌, ℕ, ◌<◌, ◌≤◌, [], ◌∷◌, ◌++◌, List, Some, None, false, true, length, All, IfSome, IfNone};
ghost use Rattle.std.specs.Str.{byte};
ghost use Rattle.desk_book.specs.Lines.{script_lines, said_by as said_of, is_skipped as skips, has_body as posts, is_stop as stops};
ghost use Rattle.desk_book.specs.Script.{Asking, Means, BeginsWith, HasNoStop, SpellsOnly, item_of};
ghost use Rattle.desk_book.specs.Items.{BeginsWithBody, ends_line};

use crate::requests::form::{bodiless, posted};
use crate::requests::line::{first_line, has_body, is_skipped, is_stop, said_by};
use crate::requests::question::Request;
use desk_text::LONGEST_TEXT;
use memchr::memchr;

/// So many bytes of a body count: one more than a message or a command may have.
const COUNTED: usize = LONGEST_TEXT + 1;

/// An item of a script.
#[derive(Clone, Copy)]
pub enum Item<'a> {
    /// What the desk is asked
    Ask(Request<'a>),
    /// What is no request: it is answered 400 and `refused 41`, whatever the desk holds, and not asked
    BadLine,
}

/// The first item of a script, and the bytes behind it; None where nothing is asked. No memory is taken, and
/// the item's texts lie in the script.
pub fn first_item(script: &[u8]) -> Option<(Item<'_>, &[u8])>
    ensures first { IfSome result (λ first. BeginsWith (script_lines script.now) (item_of first.0) first.1.now) }
    ensures shorter { IfSome result (λ first. length first.1.now < length script.now) }
    ensures none { IfNone result (Asking (script_lines script.now) []) }
{
    let mut rest = script;
    while let Some((line, after)) = first_line(rest) {
        if !is_skipped(said_by(line)) {
            return Some(item_at(line, after));
        }
        rest = after;
    }
    None
}

/// How many items a script has. To have a count at all is a law: each script spells exactly one list of items.
pub fn item_count(script: &[u8]) -> usize
    ensures { SpellsOnly script.now result }
{
    let mut count = 0;
    let mut rest = script;
    while let Some((_, after)) = first_item(rest) {
        count += 1;
        rest = after;
    }
    count
}

/// The item that begins with this line, and the bytes behind it.
fn item_at<'a>(line: &'a [u8], after: &'a [u8]) -> (Item<'a>, &'a [u8])
    requires { skips (said_of line.now) ≡ false }
    ensures first { BeginsWith (line.now ∷ script_lines after.now) (item_of result.0) result.1.now }
    ensures shorter { length result.1.now ≤ length after.now }
{
    let said = said_by(line);
    if !has_body(said) {
        return (bodiless(said), after);
    }
    match split_body(after) {
        Some((body, rest)) => (posted(said, &body[..body.len().min(COUNTED)]), rest),
        None => (Item::BadLine, &[]),
    }
}

/// The text up to the line that ends the body, and what stands behind that line; None where none ends it. Such a line
/// begins with a full stop, so that only the lines with one are looked at.
fn split_body(text: &[u8]) -> Option<(&[u8], &[u8])>
    ensures body { IfSome result (λ parts. BeginsWithBody (script_lines text.now) parts.0.now parts.1.now) }
    ensures shorter { IfSome result (λ parts. length parts.1.now ≤ length text.now) }
    ensures none { IfNone result (HasNoStop (script_lines text.now)) }
{
    let mut rest = text;
    while let Some((front, line, after)) = at_full_stop(rest) {
        if ends_line(front) && is_stop(line) {
            return Some((&text[..text.len() - (line.len() + after.len())], after));
        }
        rest = after;
    }
    None
}

/// What stands before the first full stop, from there to the end of its line, and behind that; None where there is none.
fn at_full_stop(text: &[u8]) -> Option<(&[u8], &[u8], &[u8])>
    ensures split { IfSome result (λ parts. text.now ≡ parts.0.now ++ (parts.1.now ++ parts.2.now)) }
    ensures line { IfSome result (λ parts. script_lines (parts.1.now ++ parts.2.now) ≡ parts.1.now ∷ script_lines parts.2.now) }
    ensures front { IfSome result (λ parts. All (λ c. c ≢ byte ".") parts.0.now) }
    ensures shorter { IfSome result (λ parts. length parts.2.now < length text.now) }
    ensures none { IfNone result (All (λ c. c ≢ byte ".") text.now) }
{
    let index = match text.first() {
        Some(b'.') => 0,
        _ => memchr(b'.', text)?,
    };
    let (front, behind) = text.split_at(index);
    let Some((line, after)) = first_line(behind) else {
        return None;
    };
    Some((front, line, after))
}

/// Whether a text ends where a line does: it is empty, or its last byte is a line feed.
fn ends_line(text: &[u8]) -> bool
    ensures { result ≡ ends_line text.now }
{
    match text.last() {
        Some(c) => *c == b'\n',
        None => true,
    }
}
