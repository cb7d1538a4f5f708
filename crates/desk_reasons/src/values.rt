//! Why the value of a field does not fit.
ghost use Rattle.std.specs.Prelude.{◌≡◌, ◌≢◌, []};
ghost use Rattle.desk_text.specs.Seen.{found_of};
ghost use Rattle.desk_msg.specs.declared.fault.Word.TheVariants.{Field35B};
ghost use Rattle.desk_reasons.specs.Values.{IsTextReason, IsLineReason, IsValueReason};

use crate::amounts::amount_reason;
use crate::characters::{begins_so, rest_of};
use crate::codes::{
    account_reason, day_reason, function_reason, party_reason, reference_reason, security_reason,
    settlement_reason,
};
use crate::quantities::quantity_reason;
use crate::reasons::ValueReason;
use crate::rows::before_text;
use desk_msg::Word;
use desk_text::Field;

/// Why the text that is read of a field does not fit.
fn text_reason(word: Word, tag: &[u8], text: &[u8]) -> ValueReason
    requires { word ≢ Field35B }
    ensures { IsTextReason word tag.now text.now result }
{
    match word {
        Word::Field23G => ValueReason::Function(function_reason(text)),
        Word::Seme | Word::Prev | Word::Rela => ValueReason::Reference(reference_reason(text)),
        Word::Date | Word::Eset => ValueReason::Day(day_reason(tag, text)),
        Word::Field36B => ValueReason::Quantity(quantity_reason(text)),
        Word::Safe => ValueReason::Account(account_reason(text)),
        Word::Setr => ValueReason::Settlement(settlement_reason(text)),
        Word::Pset | Word::Deag | Word::Reag => ValueReason::Party(party_reason(text)),
        Word::Field19A => ValueReason::Amount(amount_reason(text)),
        Word::Field35B => ValueReason::Other,
    }
}

/// Why a value of one line does not fit.
fn line_reason(word: Word, tag: &[u8], line: &[u8]) -> ValueReason
    requires { word ≢ Field35B }
    ensures { IsLineReason word tag.now line.now result }
{
    let before = before_text(word);
    if !begins_so(line, before) {
        return ValueReason::OneSlash;
    }
    let text = rest_of(line, before.len());
    if text.is_empty() {
        return ValueReason::Empty;
    }
    text_reason(word, tag, text)
}

/// Why the value of a field with that word does not fit.
pub fn value_reason(word: Word, field: &Field) -> ValueReason
    ensures { IsValueReason word (found_of field.now) result }
{
    match field.values.as_slice() {
        [] => ValueReason::Other,
        [line, ..] if word == Word::Field35B => ValueReason::Security(security_reason(line)),
        [line] => line_reason(word, field.tag, line),
        _ => ValueReason::SecondLine,
    }
}
