//! The rows of the profile by the words that name them, and the fields that belong to them.
ghost use Rattle.std.specs.Prelude.{◌≡◌, ◌∷◌, [], IfSome, IfNone};
ghost use Rattle.std.specs.List.{list_any, starts_with};
ghost use Rattle.std.specs.Prelude.{nat_eq};
ghost use Rattle.std.specs.Str.{bytes_eq};
ghost use Rattle.std.specs.Cmp.Lexicographic.{pointwise};
ghost use Rattle.desk_text.specs.Seen.{texts, found_of};
ghost use Rattle.desk_msg.specs.Reads.{belongs as belongs_to, belonging, first_value};
ghost use Rattle.desk_msg.specs.Finding.{found_all};
ghost use Rattle.desk_reasons.specs.Rows.{row_of, before_text};

use desk_msg::Word;
use desk_text::Field;

/// The sequences that the field of a word stands in, the outermost first.
pub fn path_of(word: Word) -> &'static [&'static [u8]]
    ensures { texts result.now ≡ (row_of word).path }
{
    match word {
        Word::Field23G | Word::Seme => &[b"GENL"],
        Word::Prev | Word::Rela => &[b"GENL", b"LINK"],
        Word::Date | Word::Field35B | Word::Eset => &[b"TRADDET"],
        Word::Field36B | Word::Safe => &[b"FIAC"],
        Word::Setr => &[b"SETDET"],
        Word::Pset | Word::Deag | Word::Reag => &[b"SETDET", b"SETPRTY"],
        Word::Field19A => &[b"SETDET", b"AMT"],
    }
}

/// The tags that it may have.
pub fn tags_of(word: Word) -> &'static [&'static [u8]]
    ensures { texts result.now ≡ (row_of word).tags }
{
    match word {
        Word::Field23G => &[b"23G"],
        Word::Seme | Word::Prev | Word::Rela => &[b"20C"],
        Word::Date => &[b"98A", b"98C"],
        Word::Field35B => &[b"35B"],
        Word::Field36B => &[b"36B"],
        Word::Safe => &[b"97A"],
        Word::Setr => &[b"22F"],
        Word::Pset | Word::Deag | Word::Reag => &[b"95P"],
        Word::Field19A => &[b"19A"],
        Word::Eset => &[b"98A"],
    }
}

/// What its value begins with, and a slash behind it; without one where the row has no qualifier, and of the type of
/// settlement.
pub fn before_text(word: Word) -> &'static [u8]
    ensures { result.now ≡ before_text word }
{
    match word {
        Word::Field23G | Word::Field35B => b"",
        Word::Seme => b":SEME//",
        Word::Prev => b":PREV//",
        Word::Date | Word::Field36B | Word::Field19A => b":SETT//",
        Word::Safe => b":SAFE//",
        Word::Setr => b":SETR/",
        Word::Pset => b":PSET//",
        Word::Deag => b":DEAG//",
        Word::Reag => b":REAG//",
        Word::Rela => b":RELA//",
        Word::Eset => b":ESET//",
    }
}

/// What its value begins with.
pub fn begins_of(word: Word) -> &'static [u8]
    ensures { result.now ≡ (row_of word).begins }
{
    let before = before_text(word);
    match word {
        Word::Field23G | Word::Field35B | Word::Setr => before,
        _ => &before[..6],
    }
}

/// Whether two paths have the same names.
pub fn is_same_path(path: &[&[u8]], other: &[&[u8]]) -> bool
    ensures { result ≡ pointwise bytes_eq (texts path.now) (texts other.now) }
{
    path == other
}

/// Whether a tag is one of these.
pub fn has_tag(tags: &[&[u8]], tag: &[u8]) -> bool
    ensures { result ≡ list_any (bytes_eq tag.now) (texts tags.now) }
{
    for other in tags {
        if tag == *other {
            return true;
        }
    }
    false
}

/// Whether the first line of a field's value begins so.
pub fn value_begins(field: &Field, begins: &[u8]) -> bool
    ensures { result ≡ starts_with nat_eq (first_value (found_of field.now).values) begins.now }
{
    match field.values.first() {
        Some(line) => line.starts_with(begins),
        None => begins.is_empty(),
    }
}

/// Whether a field belongs to the row of a word.
fn belongs(field: &Field, word: Word) -> bool
    ensures { result ≡ belongs_to (row_of word).path (row_of word).tags (row_of word).begins (found_of field.now) }
{
    has_tag(tags_of(word), field.tag)
        && value_begins(field, begins_of(word))
        && is_same_path(&field.path, path_of(word))
}

/// The first field that belongs to the row of a word, and the fields after it.
pub fn next_belonging<'b, 'a>(
    fields: &'b [Field<'a>],
    word: Word,
) -> Option<(&'b Field<'a>, &'b [Field<'a>])>
    ensures found { IfSome result (λ next. belonging (row_of word) (found_all fields.now) ≡ found_of next.0.now ∷ belonging (row_of word) (found_all next.1.now)) }
    ensures none { IfNone result (belonging (row_of word) (found_all fields.now) ≡ []) }
{
    for (index, field) in fields.iter().enumerate() {
        if belongs(field, word) {
            return Some((field, &fields[index + 1..]));
        }
    }
    None
}
