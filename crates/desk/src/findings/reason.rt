//! Where in a script the fault of a refused request stands, and why it is refused.
ghost use Rattle.std.specs.Prelude.{◌≡◌, ◌≢◌, [], List, ℕ, IfOk};
ghost use Rattle.desk_book.specs.Asked.{mt_of};
ghost use Rattle.desk.specs.Reason.{IsBadLine, IsNoCommand, IsNoMessage, IsUnread};

use crate::findings::finding::tell_front;
use desk_book::{InstructionType, Item, Question, first_item, first_line, said_by};
use desk_findings::{
    CommandFault, command_reference, other_member, why_no_command, why_no_request,
    write_command_fault, write_line_fault,
};
use desk_reasons::{NestingReason, Reason as MessageReason, reason_of_message, write_reason};
use desk_streams::Sink;
use std::alloc::{AllocError, Global};

/// The front of the line in which a message gives its reference.
const REFERENCE: &[u8] = b":20C::SEME//";

/// The front of the line that opens a sequence.
const OPENS: &[u8] = b":16R:";

/// What is told of a refused request besides its answer.
#[derive(Drop)]
pub struct Reason {
    /// The line of the script at which the fault stands, counted from 1
    pub line: usize,
    /// The reference that the request gives itself; nothing where it has none, or none can be read
    pub reference: Vec<u8>,
    /// Why it cannot be read, in words; nothing where it is read, since the answer says why it is refused
    pub words: Vec<u8>,
}

/// What is told of the request that begins at this line of a script, where this text of the script begins.
pub fn reason_of(alloc: Global, line: usize, text: &[u8]) -> Result<Reason, AllocError>
    ensures { IfOk result (λ reason. reason.words.items ≢ [] → IsUnread text.now) }
{
    match first_item(text) {
        Some((Item::BadLine, _)) => line_reason(alloc, line, text),
        Some((Item::Ask(request), _)) => match request.question {
            Question::Operator => command_reason(alloc, line, request.text),
            Question::Message(_, kind) => message_reason(alloc, line, kind, request.text),
            _ => Ok(no_reason(alloc, line)),
        },
        None => Ok(no_reason(alloc, line)),
    }
}

/// What is told where the answer says all.
fn no_reason(alloc: Global, line: usize) -> Reason
    ensures { result.words.items ≡ [] }
{
    Reason {
        line,
        reference: Vec::new(alloc),
        words: Vec::new(alloc),
    }
}

/// What is told of a line that asks nothing.
fn line_reason(alloc: Global, line: usize, text: &[u8]) -> Result<Reason, AllocError>
    ensures { IfOk result (λ reason. reason.words.items ≢ [] → IsBadLine text.now) }
{
    let mut reason = no_reason(alloc, line);
    if let Some(fault) = why_no_request(text) {
        write_line_fault(fault, &mut reason.words).map_err(|_| AllocError)?;
    }
    Ok(reason)
}

/// What is told of an operator's command with this text.
fn command_reason(alloc: Global, line: usize, text: &[u8]) -> Result<Reason, AllocError>
    ensures { IfOk result (λ reason. reason.words.items ≢ [] → IsNoCommand text.now) }
{
    let reference = match command_reference(alloc, text)? {
        Some(reference) => reference,
        None => Vec::new(alloc),
    };
    let mut words = Vec::new(alloc);
    let Some(fault) = why_no_command(alloc, text)? else {
        let line = line.saturating_add(1);
        return Ok(Reason {
            line,
            reference,
            words,
        });
    };
    write_command_fault(fault, &mut words).map_err(|_| AllocError)?;
    if let CommandFault::OtherMembers = fault {
        tell_other(alloc, text, &mut words)?;
    }
    let line = line.saturating_add(line_within(fault));
    Ok(Reason {
        line,
        reference,
        words,
    })
}

/// Tells which member a command should not have.
fn tell_other(alloc: Global, text: &[u8], words: &mut Vec<u8>) -> Result<(), AllocError> {
    if let Some(name) = other_member(alloc, text)? {
        words.put(b": ").map_err(|_| AllocError)?;
        tell_front(name.as_slice(), words).map_err(|_| AllocError)?;
    }
    Ok(())
}

/// The line of a command's text at which its fault stands, as far as it is known, counted from 1.
fn line_within(fault: CommandFault) -> usize {
    match fault {
        CommandFault::NoJson(line, _) => line.max(1),
        _ => 1,
    }
}

/// The line that opens the sequence of which a reason tells.
fn opened_by(reason: MessageReason) -> Option<usize> {
    match reason {
        MessageReason::Nesting(NestingReason::OtherOpen(line) | NestingReason::StillOpen(line)) =>
            Some(line),
        _ => None,
    }
}

/// Tells the name of the sequence that a line of a message opens.
fn tell_sequence(text: &[u8], line: usize, words: &mut Vec<u8>) -> Result<(), AllocError> {
    if let Some(name) = said_in(text, line).strip_prefix(OPENS) {
        words.put(b", ").map_err(|_| AllocError)?;
        tell_front(name, words).map_err(|_| AllocError)?;
    }
    Ok(())
}

/// What a line of a text says; nothing where it has fewer.
fn said_in(text: &[u8], line: usize) -> &[u8] {
    let mut rest = text;
    for _ in 1..line {
        match first_line(rest) {
            Some((_, after)) => rest = after,
            None => return &[],
        }
    }
    match first_line(rest) {
        Some((found, _)) => said_by(found),
        None => &[],
    }
}

/// What is told of a message of this type with this text.
fn message_reason(
    alloc: Global,
    line: usize,
    kind: InstructionType,
    text: &[u8],
) -> Result<Reason, AllocError>
    ensures { IfOk result (λ reason. reason.words.items ≢ [] → IsNoMessage (mt_of kind) text.now) }
{
    let reference = Vec::from_slice(alloc, reference_in(text))?;
    let mut words = Vec::new(alloc);
    let Some(told) = reason_of_message(alloc, kind.mt(), text)? else {
        let line = line.saturating_add(1);
        return Ok(Reason {
            line,
            reference,
            words,
        });
    };
    write_reason(told.reason, &mut words).map_err(|_| AllocError)?;
    if let Some(opened) = opened_by(told.reason) {
        tell_sequence(text, opened, &mut words)?;
    }
    let line = line.saturating_add(told.line);
    Ok(Reason {
        line,
        reference,
        words,
    })
}

/// The reference that a message gives itself in the first line that may give one; nothing where none does.
fn reference_in(text: &[u8]) -> &[u8] {
    let mut rest = text;
    while let Some((line, after)) = first_line(rest) {
        if let Some(reference) = said_by(line).strip_prefix(REFERENCE) {
            return reference;
        }
        rest = after;
    }
    &[]
}
