//! What a file asks, by its name.
ghost use Rattle.std.specs.Prelude.{◌≡◌, ◌++◌, ℕ, List, codes, IfSome, IfNone};
ghost use Rattle.desk_book.specs.declared.requests.question.InstructionType.{InstructionType};
ghost use Rattle.desk_book.specs.declared.requests.question.Question.{Question};
ghost use Rattle.desk_drop.specs.Names.{IsNameOf};

use desk_book::{InstructionType, Question, party};
use desk_codes::{Bic, split_at};

/// The question that a file of this name asks with what it holds. `BIC.MT.ANY.fin` is a message of that sender and type, MT
/// being 540 to 543, and ANY any characters, full stops among them, or none; a name that ends `.json` is an operator's
/// command. None for any other name. Capitals and small letters differ.
pub fn question_of(name: &str) -> Option<Question>
    ensures named { IfSome result (λ question. IsNameOf question name.now) }
    ensures none { IfNone result ((question : Question) → ¬ IsNameOf question name.now) }
{
    let name = name.as_bytes();
    match name.strip_suffix(b".json") {
        Some(_front) => Some(Question::Operator),
        None => message_question(name),
    }
}

/// The question that the name of a message asks.
fn message_question(name: &[u8]) -> Option<Question>
    ensures named { IfSome result (λ question. IsNameOf question name.now) }
    ensures none { IfNone result ((sender : List ℕ) (kind : InstructionType) → ¬ IsNameOf (Question.Message sender kind) name.now) }
{
    let (sender, kind) = message_name(name)?;
    Some(Question::Message(sender, kind))
}

/// The sender and the type that the name of a message names.
fn message_name(name: &[u8]) -> Option<(Bic, InstructionType)>
    ensures named { IfSome result (λ named. IsNameOf (Question.Message named.0 named.1) name.now) }
    ensures none { IfNone result ((sender : List ℕ) (kind : InstructionType) → ¬ IsNameOf (Question.Message sender kind) name.now) }
{
    let front = name.strip_suffix(b".fin")?;
    let (bic, behind) = split_at(front, b'.')?;
    let (digits, _others) = split_at(behind, b'.')?;
    let sender = party(bic)?;
    let kind = InstructionType::parse(digits)?;
    Some((sender, kind))
}
