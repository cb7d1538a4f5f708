//! The fields of a head, and the length of the body that they tell.
ghost use Rattle.std.specs.Prelude.{◌≡◌, ℕ, List, [], ◌∷◌, length, map, All};
ghost use Rattle.httparse.specs.Spans.{IsHeaderWithin, header_bytes};
ghost use Rattle.desk_http.specs.Length.{BodyLength, LengthBy, is_named, values_of as values_by};
ghost use Rattle.desk_http.specs.Values.{AreValues};

use crate::limits::MOST_LENGTH_DIGITS;
use crate::refusal::Refusal;
use desk_book::number_of;
use desk_codes::are_digits;
use desk_text::LONGEST_TEXT;
use httparse::spans::HeaderSpan;

/// The values of the fields of one name.
#[derive(Clone, Copy)]
enum Values<'a> {
    Absent,
    One(&'a [u8]),
    Several,
}

/// The length of the body, by the fields of a head.
pub fn body_length(front: &[u8], fields: &[HeaderSpan]) -> Result<usize, Refusal>
    requires { All (IsHeaderWithin (length front.now)) fields.now }
    ensures { BodyLength (map (header_bytes front.now) fields.now) result }
{
    match values_of(front, fields, "Transfer-Encoding") {
        Values::Absent => one_length(values_of(front, fields, "Content-Length")),
        _ => Err(Refusal::LengthRequired),
    }
}

/// The length by the values of `Content-Length`.
fn one_length(lengths: Values<'_>) -> Result<usize, Refusal>
    ensures { (values : List (List ℕ)) → AreValues lengths.entry values → LengthBy values result }
{
    match lengths {
        Values::Absent => Err(Refusal::LengthRequired),
        Values::One(text) => length_of(text),
        Values::Several => Err(Refusal::BadRequest),
    }
}

/// The length that a text writes.
fn length_of(text: &[u8]) -> Result<usize, Refusal>
    ensures { LengthBy (text.now ∷ []) result }
{
    if text.is_empty() || text.len() > MOST_LENGTH_DIGITS || !are_digits(text) {
        return Err(Refusal::BadRequest);
    }
    match usize::try_from(number_of(text)) {
        Ok(length) if length <= LONGEST_TEXT => Ok(length),
        _ => Err(Refusal::PayloadTooLarge),
    }
}

/// The values of the fields of this name.
fn values_of<'a>(front: &'a [u8], fields: &[HeaderSpan], name: &str) -> Values<'a>
    requires { All (IsHeaderWithin (length front.now)) fields.now }
    ensures { AreValues result (values_by name.now (map (header_bytes front.now) fields.now)) }
{
    let mut found = None;
    for field in fields {
        if has_name(front, *field, name) {
            if found.is_some() {
                return Values::Several;
            }
            found = Some(field.value.of(front));
        }
    }
    match found {
        Some(value) => Values::One(value),
        None => Values::Absent,
    }
}

/// Whether a field has this name, in whatever case.
fn has_name(front: &[u8], field: HeaderSpan, name: &str) -> bool
    requires { IsHeaderWithin (length front.now) field }
    ensures { result ≡ is_named name.now (header_bytes front.now field) }
{
    field.name.of(front).eq_ignore_ascii_case(name.as_bytes())
}
