//! The lines that ask something.
ghost use Rattle.std.specs.Prelude.{◌≡◌, ◌≤◌, ℕ, List, [], Some, None, All, length, IfSome, IfNone};
ghost use Rattle.desk_codes.specs.Characters.{IsDigit};
ghost use Rattle.desk_codes.specs.Number.{number_of as number_by};
ghost use Rattle.desk_book.specs.Forms.{IsCount, IsLineOf, NamesParty, SpellsBic};
ghost use Rattle.desk_book.specs.Script.{Means, item_of};

use crate::limits::{LONGEST_LINE, LONGEST_NUMBER, MOST_DIGITS};
use crate::requests::line::COMMAND;
use crate::requests::question::{InstructionType, Question};
use crate::requests::script::Item;
use desk_codes::{Bic, are_digits, split_at};

/// The line that asks for the desk's totals.
const SUMS: &[u8] = b"sums";

/// What a line with this body behind it asks.
pub fn posted<'a>(said: &'a [u8], text: &'a [u8]) -> Item<'a>
    ensures { Means said.now (Some text.now) (item_of result) }
{
    if said.len() > LONGEST_LINE {
        return Item::BadLine;
    }
    if said == COMMAND {
        return Item::Ask(Question::Operator.with(text));
    }
    match message_line(said) {
        Some((sender, kind)) => Item::Ask(Question::Message(sender, kind).with(text)),
        None => Item::BadLine,
    }
}

/// What a line asks that no body follows.
pub fn bodiless(said: &[u8]) -> Item<'_>
    ensures { Means said.now None (item_of result) }
{
    if said.len() > LONGEST_LINE {
        return Item::BadLine;
    }
    if said == SUMS {
        return Item::Ask(Question::Sums.with(&[]));
    }
    if let Some((sender, text)) = behind_party(said, b"status ") {
        return Item::Ask(Question::Status(sender).with(text));
    }
    if let Some((receiver, number)) = sent_line(said) {
        return Item::Ask(Question::Sent(receiver, number).with(&[]));
    }
    match behind_party(said, b"holdings ") {
        Some((owner, text)) => Item::Ask(Question::Holdings(owner).with(text)),
        None => Item::BadLine,
    }
}

/// The sender and the type that a line `in BIC MT` names.
fn message_line(said: &[u8]) -> Option<(Bic, InstructionType)>
    ensures form { IfSome result (λ named. IsLineOf (Question.Message named.0 named.1) [] said.now) }
    ensures none { IfNone result ((sender : List ℕ) (kind : InstructionType) → ¬ IsLineOf (Question.Message sender kind) [] said.now) }
{
    let Some(named) = behind_party(said, b"in ") else {
        return None;
    };
    let kind = InstructionType::parse(named.1)?;
    Some((named.0, kind))
}

/// The participant and the number that a line `sent BIC K` names.
fn sent_line(said: &[u8]) -> Option<(Bic, u64)>
    ensures form { IfSome result (λ named. IsLineOf (Question.Sent named.0 named.1) [] said.now) }
    ensures none { IfNone result ((receiver : List ℕ) (number : ℕ) → ¬ IsLineOf (Question.Sent receiver number) [] said.now) }
{
    let Some(named) = behind_party(said, b"sent ") else {
        return None;
    };
    let number = count_of(named.1)?;
    Some((named.0, number))
}

/// The party whose BIC stands behind a word, up to a space, and what stands behind the space.
fn behind_party<'a>(said: &'a [u8], word: &[u8]) -> Option<(Bic, &'a [u8])>
    ensures some { IfSome result (λ named. NamesParty word.now named.0 named.1.now said.now) }
    ensures none { IfNone result ((party behind : List ℕ) → ¬ NamesParty word.now party behind said.now) }
{
    let rest = said.strip_prefix(word)?;
    let (bic, behind) = split_at(rest, b' ')?;
    let party = party(bic)?;
    Some((party, behind))
}

/// The party of a BIC; None where the text is no BIC (ISO 9362).
pub fn party(bic: &[u8]) -> Option<Bic>
    ensures some { IfSome result (λ party. SpellsBic bic.now party) }
    ensures none { IfNone result ((party : List ℕ) → ¬ SpellsBic bic.now party) }
{
    match Bic::parse(bic) {
        Ok(party) => Some(party),
        Err(_) => None,
    }
}

/// The number of a sent message as digits write it; None where there are none, or more than `MOST_DIGITS`, or where
/// they are no digits.
pub fn count_of(digits: &[u8]) -> Option<u64>
    ensures some { IfSome result (λ number. IsCount digits.now number) }
    ensures none { IfNone result ((number : ℕ) → ¬ IsCount digits.now number) }
{
    if digits.is_empty() || digits.len() > MOST_DIGITS || !are_digits(digits) {
        return None;
    }
    Some(number_of(digits))
}

/// The number that digits write, of which there are few enough that it fits.
pub fn number_of(digits: &[u8]) -> u64
    requires short { length digits.now ≤ LONGEST_NUMBER }
    requires digits { All IsDigit digits.now }
    ensures { result ≡ number_by digits.now }
{
    let mut number = 0u64;
    for c in digits {
        number = 10 * number + u64::from(*c - b'0');
    }
    number
}
