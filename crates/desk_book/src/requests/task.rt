//! What a request is read as.
ghost use Rattle.std.specs.Prelude.{◌≡◌, IfOk};
ghost use Rattle.desk_rules.specs.Reply.{untyped_reply};
ghost use Rattle.desk_book.specs.Asked.{asked_by, mt_of};
ghost use Rattle.desk_book.specs.Task.{IsTask, IsMessageTask, IsCommandTask, IsFormed, entry_of_message};

use crate::requests::command::read_command;
use crate::requests::question::{InstructionType, Question, Request};
use desk_codes::{AccountId, Bic, Reference};
use desk_msg::{Message, ReadFault, read_instruction_text, refusal_text};
use desk_rules::{Entry, Reply, Text};
use std::alloc::{AllocError, Global};

/// What a request is read as.
#[derive(Drop)]
pub enum Task {
    /// A command to decide on: an operator's, or a participant's message
    Decide(Entry),
    /// How the message of this sender and reference stands; None for a text that is no reference
    Status(Bic, Option<Reference>),
    /// The message that was sent to this participant as its k-th, counted from 1
    Sent(Bic, u64),
    /// What this participant's account holds; None for a text that names no account
    Holdings(Bic, Option<AccountId>),
    /// The desk's totals
    Totals,
    /// Nothing, since its text could not be read: the refusal answers it
    Answer(Reply),
}

/// What a request is read as. The only fault is want of memory.
pub fn task_of(alloc: Global, request: &Request<'_>) -> Result<Task, AllocError>
    ensures task { IfOk result (λ task. IsTask (asked_by request.now) task) }
    ensures formed { IfOk result (λ task. IsFormed task) }
{
    let text = request.text;
    match request.question {
        Question::Message(sender, kind) => message_task(alloc, sender, kind, text),
        Question::Operator => command_task(alloc, text),
        Question::Status(sender) => Ok(Task::Status(sender, Reference::read(text))),
        Question::Sent(receiver, number) => Ok(Task::Sent(receiver, number)),
        Question::Holdings(owner) => Ok(Task::Holdings(owner, AccountId::read(text))),
        Question::Sums => Ok(Task::Totals),
    }
}

/// What a participant's message gives the desk to do.
fn message_task(
    alloc: Global,
    sender: Bic,
    kind: InstructionType,
    text: &[u8],
) -> Result<Task, AllocError>
    ensures task { IfOk result (λ task. IsMessageTask sender (mt_of kind) text.now task) }
    ensures formed { IfOk result (λ task. IsFormed task) }
{
    match read_instruction_text(alloc, kind.mt(), text) {
        Ok(message) => {
            // what its type keeps: it is a BIC
            let _ = sender.as_bytes();
            Ok(Task::Decide(entry_of_message(sender, message)))
        }
        Err(ReadFault::Refused(refusal)) => {
            let line = refusal_text(alloc, refusal)?;
            Ok(Task::Answer(bad_request(line)))
        }
        Err(ReadFault::Memory) => Err(AllocError),
    }
}

/// The entry that a participant's message asks for.
fn entry_of_message(sender: Bic, message: Message) -> Entry
    ensures { result ≡ entry_of_message sender message }
{
    match message {
        Message::New(instruction) => Entry::Instruct {
            sender,
            instruction,
        },
        Message::Cancel(order) => Entry::Cancel { sender, order },
    }
}

/// What an operator's text gives the desk to do.
fn command_task(alloc: Global, text: &[u8]) -> Result<Task, AllocError>
    ensures task { IfOk result (λ task. IsCommandTask text.now task) }
    ensures formed { IfOk result (λ task. IsFormed task) }
{
    match read_command(alloc, text)? {
        Some(entry) => Ok(Task::Decide(entry)),
        None => {
            let line = Vec::from_slice(alloc, b"refused 30")?;
            Ok(Task::Answer(bad_request(line)))
        }
    }
}

/// The answer to what was refused as it was read: its line.
fn bad_request(line: Vec<u8>) -> Reply
    ensures { result ≡ untyped_reply 400 line.items }
{
    Reply {
        status: 400,
        mt: None,
        text: Text::new(line),
    }
}
