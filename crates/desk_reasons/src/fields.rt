//! Where the fields of a block fail, and why.
ghost use Rattle.std.specs.Prelude.{◌≡◌, ◌<◌, ◌∷◌, [], Some, None, IfSome, IfNone, find, length, take, get_or};
ghost use Rattle.desk_text.specs.Seen.{found_of};
ghost use Rattle.desk_text.specs.Fields.{Found};
ghost use Rattle.desk_msg.specs.Finding.{found_all};
ghost use Rattle.desk_msg.specs.declared.fault.MsgFault.TheVariants as faults;
ghost use Rattle.desk_msg.specs.Reads.{belonging, first_value};
ghost use Rattle.desk_reasons.specs.Rows.{row_of};
ghost use Rattle.desk_reasons.specs.FieldFaults.{has_digits, is_other_option, has_one_colon, has_lower_qualifier, is_misspelt, spelling_reason, is_elsewhere, IsMissing, TellsFields, FailsSo};

use crate::characters::{begins_so, front_of, is_same_but_for_case, rest_of};
use crate::reasons::{MissingReason, Reason};
use crate::rows::{
    begins_of, has_tag, is_same_path, next_belonging, path_of, tags_of, value_begins,
};
use crate::values::value_reason;
use desk_msg::{MsgFault, Word};
use desk_text::Field;

/// The line of a text at which a fault stands, and why it does.
#[derive(Clone, Copy)]
pub struct Spot {
    pub line: usize,
    pub reason: Reason,
}

/// The digits of the tags that the field of a word may have.
fn digits_of(word: Word) -> &'static [u8]
    ensures { result.now ≡ take 2 (first_value (row_of word).tags) }
{
    match word {
        Word::Field23G => b"23",
        Word::Seme | Word::Prev | Word::Rela => b"20",
        Word::Date | Word::Eset => b"98",
        Word::Field35B => b"35",
        Word::Field36B => b"36",
        Word::Safe => b"97",
        Word::Setr => b"22",
        Word::Pset | Word::Deag | Word::Reag => b"95",
        Word::Field19A => b"19",
    }
}

/// Whether a field has the digits of a word's tags, and one letter behind them.
fn has_digits(field: &Field, word: Word) -> bool
    ensures { result ≡ has_digits word (found_of field.now) }
{
    field.tag.len() == 3 && begins_so(field.tag, digits_of(word))
}

/// Whether a field stands in a word's place with its digits.
fn is_other_option(field: &Field, word: Word) -> bool
    ensures { result ≡ is_other_option word (found_of field.now) }
{
    has_digits(field, word)
        && value_begins(field, begins_of(word))
        && is_same_path(&field.path, path_of(word))
}

/// Whether a field's value begins as a word's, but for the first colon.
fn has_one_colon(field: &Field, word: Word) -> bool
    ensures { result ≡ has_one_colon word (found_of field.now) }
{
    value_begins(field, rest_of(begins_of(word), 1))
}

/// Whether a field's value begins as a word's, but for letters in lower case.
fn has_lower_qualifier(field: &Field, word: Word) -> bool
    ensures { result ≡ has_lower_qualifier word (found_of field.now) }
{
    let begins = begins_of(word);
    match field.values.first() {
        Some(line) => is_same_but_for_case(front_of(line, 6), begins),
        None => begins.is_empty(),
    }
}

/// Whether a field stands in a word's place with its tag, and a qualifier that is spelled otherwise.
fn is_misspelt(field: &Field, word: Word) -> bool
    ensures { result ≡ is_misspelt word (found_of field.now) }
{
    has_tag(tags_of(word), field.tag)
        && is_same_path(&field.path, path_of(word))
        && (has_one_colon(field, word) || has_lower_qualifier(field, word))
}

/// How its qualifier is spelled.
fn spelling_reason(field: &Field, word: Word) -> MissingReason
    ensures { result ≡ spelling_reason word (found_of field.now) }
{
    if has_one_colon(field, word) {
        return MissingReason::OneColon;
    }
    MissingReason::LowerCaseQualifier
}

/// Whether a field has a word's tag and beginning.
fn is_elsewhere(field: &Field, word: Word) -> bool
    ensures { result ≡ is_elsewhere word (found_of field.now) }
{
    has_tag(tags_of(word), field.tag) && value_begins(field, begins_of(word))
}

/// The first field that stands in a word's place with its digits.
fn first_other_option<'b, 'a>(fields: &'b [Field<'a>], word: Word) -> Option<&'b Field<'a>>
    ensures found { IfSome result (λ field. find (is_other_option word) (found_all fields.now) ≡ Some (found_of field.now)) }
    ensures none { IfNone result (find (is_other_option word) (found_all fields.now) ≡ None) }
{
    for field in fields {
        if is_other_option(field, word) {
            return Some(field);
        }
    }
    None
}

/// The first field that is misspelt.
fn first_misspelt<'b, 'a>(fields: &'b [Field<'a>], word: Word) -> Option<&'b Field<'a>>
    ensures found { IfSome result (λ field. find (is_misspelt word) (found_all fields.now) ≡ Some (found_of field.now)) }
    ensures none { IfNone result (find (is_misspelt word) (found_all fields.now) ≡ None) }
{
    for field in fields {
        if is_misspelt(field, word) {
            return Some(field);
        }
    }
    None
}

/// The first field that has a word's tag and beginning.
fn first_elsewhere<'b, 'a>(fields: &'b [Field<'a>], word: Word) -> Option<&'b Field<'a>>
    ensures found { IfSome result (λ field. find (is_elsewhere word) (found_all fields.now) ≡ Some (found_of field.now)) }
    ensures none { IfNone result (find (is_elsewhere word) (found_all fields.now) ≡ None) }
{
    for field in fields {
        if is_elsewhere(field, word) {
            return Some(field);
        }
    }
    None
}

/// The letter behind the digits of a tag.
fn letter_of(tag: &[u8]) -> u8
    ensures { result ≡ get_or tag.now 2 0 }
{
    if tag.len() > 2 { tag[2] } else { 0 }
}

/// Why no field belongs to the row of a word.
fn missing_spot(fields: &[Field], word: Word) -> Spot
    ensures { TellsFields (found_all fields.now) (faults.Missing word) result.line result.reason }
{
    if let Some(field) = first_other_option(fields, word) {
        return Spot {
            line: field.line,
            reason: Reason::Missing(MissingReason::OtherOption(letter_of(field.tag))),
        };
    }
    if let Some(field) = first_misspelt(fields, word) {
        return Spot {
            line: field.line,
            reason: Reason::Missing(spelling_reason(field, word)),
        };
    }
    match first_elsewhere(fields, word) {
        Some(field) => Spot {
            line: field.line,
            reason: Reason::Missing(MissingReason::OtherSequence),
        },
        None => Spot {
            line: 1,
            reason: Reason::Missing(MissingReason::Absent),
        },
    }
}

/// Where a second field belongs to the row of a word.
fn repeated_spot(fields: &[Field], word: Word) -> Spot
    requires { 1 < length (belonging (row_of word) (found_all fields.now)) }
    ensures { TellsFields (found_all fields.now) (faults.Repeated word) result.line result.reason }
{
    let (first, rest) = next_belonging(fields, word).unwrap();
    let (second, _) = next_belonging(rest, word).unwrap();
    Spot {
        line: second.line,
        reason: Reason::Repeated(first.line),
    }
}

/// The one field that belongs to the row of a word.
fn only_belonging<'b, 'a>(fields: &'b [Field<'a>], word: Word) -> &'b Field<'a>
    requires { (field : Found) × (belonging (row_of word) (found_all fields.now) ≡ field ∷ []) }
    ensures { belonging (row_of word) (found_all fields.now) ≡ found_of result.now ∷ [] }
{
    let (only, _) = next_belonging(fields, word).unwrap();
    only
}

/// Why and where fields fail.
pub fn spot_in_fields(fields: &[Field], fault: MsgFault) -> Spot
    requires { FailsSo (found_all fields.now) fault }
    ensures { TellsFields (found_all fields.now) fault result.line result.reason }
{
    match fault {
        MsgFault::Missing(word) => missing_spot(fields, word),
        MsgFault::Repeated(word) => repeated_spot(fields, word),
        MsgFault::BadValue(word) => {
            let field = only_belonging(fields, word);
            Spot {
                line: field.line,
                reason: Reason::Value(value_reason(word, field)),
            }
        }
        MsgFault::Function => Spot {
            line: only_belonging(fields, Word::Field23G).line,
            reason: Reason::OtherFunction,
        },
    }
}
