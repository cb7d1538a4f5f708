//! Finding the one field of a row of the profile.
ghost use Rattle.std.specs.Prelude.{◌≡◌, ◌∷◌, [], ◌&&◌, IfSome, IfNone, nat_eq};
ghost use Rattle.std.specs.List.{starts_with, list_any};
ghost use Rattle.std.specs.Str.{bytes_eq};
ghost use Rattle.std.specs.Cmp.Lexicographic.{pointwise};
ghost use Rattle.desk_text.specs.Seen.{texts, found_of};
ghost use Rattle.desk_msg.specs.Reads.{belongs as belongs_to, first_value};
ghost use Rattle.desk_msg.specs.Finding.{found_among, IsOne};

use crate::fault::MsgFault;
use crate::reading::profile::Row;
use desk_text::Field;

/// Whether two paths of any length have the same names.
fn has_names(path: &[&[u8]], other: &[&[u8]]) -> bool
    ensures { result ≡ pointwise bytes_eq (texts path.now) (texts other.now) }
{
    path == other
}

/// Whether two paths have the same names. Those of one name and of two are compared name by name.
fn is_same_path(path: &[&[u8]], other: &[&[u8]]) -> bool
    ensures { result ≡ pointwise bytes_eq (texts path.now) (texts other.now) }
{
    match (path, other) {
        ([name], [same]) => name == same,
        ([outer, inner], [same_outer, same_inner]) => outer == same_outer && inner == same_inner,
        _ => has_names(path, other),
    }
}

/// Whether the first line of a field's value begins so.
fn value_begins(field: &Field, begins: &[u8]) -> bool
    ensures { result ≡ starts_with nat_eq (first_value (found_of field.now).values) begins.now }
{
    match field.values.first() {
        Some(line) => line.starts_with(begins),
        None => begins.is_empty(),
    }
}

/// Whether a tag is these three characters.
fn is_tag_of(tag: &[u8], x: u8, y: u8, z: u8) -> bool
    ensures { result ≡ bytes_eq tag.now (x ∷ y ∷ z ∷ []) }
{
    match tag {
        [a, b, c] => *a == x && *b == y && *c == z,
        _ => false,
    }
}

/// Whether a tag is one of these.
fn has_tag(tags: &[&[u8]], tag: &[u8]) -> bool
    ensures { result ≡ list_any (bytes_eq tag.now) (texts tags.now) }
{
    for other in tags {
        if tag == *other {
            return true;
        }
    }
    false
}

/// Whether a field's value begins as a row says, and it stands in the row's sequences.
fn stands_there(field: &Field, row: &Row) -> bool
    ensures { result ≡ (starts_with nat_eq (first_value (found_of field.now).values) row.now.begins.now && pointwise bytes_eq (found_of field.now).path (texts row.now.path.now)) }
{
    value_begins(field, row.begins) && is_same_path(&field.path, row.path)
}

/// Whether a field belongs to a row: it has one of its tags, its value begins as the row says, and it stands in the row's
/// sequences.
fn belongs(field: &Field, row: &Row) -> bool
    ensures { result ≡ belongs_to (texts row.now.path.now) (texts row.now.tags.now) row.now.begins.now (found_of field.now) }
{
    has_tag(row.tags, field.tag) && stands_there(field, row)
}

/// The first field that belongs to a row of this one tag, and the fields after it.
fn next_of_tag<'b, 'a>(
    fields: &'b [Field<'a>],
    row: &Row,
    x: u8,
    y: u8,
    z: u8,
) -> Option<(&'b Field<'a>, &'b [Field<'a>])>
    requires { texts row.now.tags.now ≡ (x ∷ y ∷ z ∷ []) ∷ [] }
    ensures found { IfSome result (λ next. found_among row.now fields.now ≡ found_of next.0.now ∷ found_among row.now next.1.now) }
    ensures none { IfNone result (found_among row.now fields.now ≡ []) }
{
    for (index, field) in fields.iter().enumerate() {
        if is_tag_of(field.tag, x, y, z) && stands_there(field, row) {
            return Some((field, &fields[index + 1..]));
        }
    }
    None
}

/// The first field that belongs to a row, and the fields after it.
fn next_of_tags<'b, 'a>(
    fields: &'b [Field<'a>],
    row: &Row,
) -> Option<(&'b Field<'a>, &'b [Field<'a>])>
    ensures found { IfSome result (λ next. found_among row.now fields.now ≡ found_of next.0.now ∷ found_among row.now next.1.now) }
    ensures none { IfNone result (found_among row.now fields.now ≡ []) }
{
    for (index, field) in fields.iter().enumerate() {
        if belongs(field, row) {
            return Some((field, &fields[index + 1..]));
        }
    }
    None
}

/// The first field that belongs to a row, and the fields after it. One tag of three characters, as most rows have, is
/// compared character by character.
fn next_belonging<'b, 'a>(
    fields: &'b [Field<'a>],
    row: &Row,
) -> Option<(&'b Field<'a>, &'b [Field<'a>])>
    ensures found { IfSome result (λ next. found_among row.now fields.now ≡ found_of next.0.now ∷ found_among row.now next.1.now) }
    ensures none { IfNone result (found_among row.now fields.now ≡ []) }
{
    match row.tags {
        [[x, y, z]] => next_of_tag(fields, row, *x, *y, *z),
        _ => next_of_tags(fields, row),
    }
}

/// The one field that belongs to a row. Else the row's word is missing or repeated; values are not looked at.
pub fn find_field<'b, 'a>(fields: &'b [Field<'a>], row: &Row) -> Result<&'b Field<'a>, MsgFault>
    ensures { IsOne row.now.word (found_among row.now fields.now) result }
{
    let Some((field, rest)) = next_belonging(fields, row) else {
        return Err(MsgFault::Missing(row.word));
    };
    if next_belonging(rest, row).is_some() {
        return Err(MsgFault::Repeated(row.word));
    }
    Ok(field)
}
