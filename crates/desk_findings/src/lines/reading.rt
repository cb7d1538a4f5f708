//! Why a line asks nothing.
ghost use Rattle.std.specs.Prelude.{◌≡◌, ◌≢◌, ◌↔◌, ◌<◌, ◌≤◌, ◌++◌, ◌∷◌, ℕ, IsTrue, List, IfSome, IfNone, Option, Some, option_map};
ghost use Rattle.std.specs.Str.{byte};
ghost use Rattle.desk_book.specs.Asked.{mt_of};
ghost use Rattle.desk_msg.specs.MessageType.{digits_of_type};
ghost use Rattle.desk_book.specs.declared.requests.question.InstructionType.{InstructionType as TypeValue};
ghost use Rattle.desk_findings.specs.LineFaults.{CanAsk, IsBadFor, IsFormFault, IsLineFault, IsNamedFault, IsNoBadLine, IsRight, IsRightBehind, IsWords, IsTypeFault};

use crate::lines::fault::LineFault;
use crate::lines::form::{Form, Named};
use desk_book::{
    InstructionType, Item, LONGEST_LINE, count_of, first_item, first_line, is_skipped, said_by,
};
use desk_codes::{Bic, split_at};

/// What is wrong with the first line of a script, where that begins what is no request (`desk_book::Item::BadLine`); None
/// where it begins a request, or asks nothing. No memory is taken.
pub fn why_no_request(script: &[u8]) -> Option<LineFault>
    ensures fault { IfSome result (IsBadFor script.now) }
    ensures none { IfNone result (IsNoBadLine script.now) }
{
    let (line, _) = first_line(script)?;
    let said = said_by(line);
    if is_skipped(said) {
        return None;
    }
    match first_item(script) {
        Some((Item::BadLine, _)) => Some(line_fault(said).unwrap_or(LineFault::NoStop)),
        Some((Item::Ask(_), _)) => None,
        None => None,
    }
}

/// What is wrong with what a line says; None where it asks something, with a body behind it or without one.
fn line_fault(said: &[u8]) -> Option<LineFault>
    ensures fault { IfSome result (IsLineFault said.now) }
    ensures right { IfNone result (CanAsk said.now) }
{
    if said.len() > LONGEST_LINE {
        return Some(LineFault::TooLong);
    }
    let (word, rest) = words_in(said);
    let Some(form) = Form::with_word(word) else {
        return Some(LineFault::UnknownWord);
    };
    form_fault(form, rest)
}

/// The first word of a line, and what stands behind the space behind it.
fn words_in(said: &[u8]) -> (&[u8], Option<&[u8]>)
    ensures { IsWords result.0.now (option_map (λ rest. rest.now) result.1) said.now }
{
    match split_at(said, b' ') {
        Some((word, rest)) => (word, Some(rest)),
        None => (said, None),
    }
}

/// What is wrong with a line of this form, by what stands behind its first word.
fn form_fault(form: Form, rest: Option<&[u8]>) -> Option<LineFault>
    ensures fault { IfSome result (IsFormFault form (option_map (λ rest. rest.now) rest.entry)) }
    ensures right { IfNone result (IsRight form (option_map (λ rest. rest.now) rest.entry)) }
{
    match form {
        Form::Command => match rest {
            Some(_) => Some(LineFault::BehindCommand),
            None => None,
        },
        Form::Sums => match rest {
            Some(_) => Some(LineFault::BehindSums),
            None => None,
        },
        Form::Named(named) => match rest {
            Some(rest) => named_fault(named, rest),
            None => Some(LineFault::PartMissing(named)),
        },
    }
}

fn named_fault(named: Named, rest: &[u8]) -> Option<LineFault>
    ensures fault { IfSome result (IsNamedFault named rest.now) }
    ensures right { IfNone result (IsRightBehind named rest.now) }
{
    let Some((bic, behind)) = split_at(rest, b' ') else {
        return Some(LineFault::PartMissing(named));
    };
    if let Err(fault) = Bic::parse(bic) {
        return Some(LineFault::NoBic(fault));
    }
    match named {
        Named::Message => type_fault(behind),
        Named::Sent => match count_of(behind) {
            Some(_) => None,
            None => Some(LineFault::NoNumber),
        },
        Named::Status | Named::Holdings => None,
    }
}

/// What is wrong with what must be the type of a message.
fn type_fault(behind: &[u8]) -> Option<LineFault>
    ensures fault { IfSome result (IsTypeFault behind.now) }
    ensures right { IfNone result ((kind : TypeValue) × (digits_of_type (mt_of kind) ≡ behind.now)) }
{
    if let Some(_) = InstructionType::parse(behind) {
        return None;
    }
    if let Some((word, _)) = split_at(behind, b' ') {
        if let Some(_) = InstructionType::parse(word) {
            return Some(LineFault::BehindType);
        }
    }
    Some(LineFault::NoType)
}
