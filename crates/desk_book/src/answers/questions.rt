//! What a participant asks: how a message of its own stands, and what was sent to it. Each answer only reads.
ghost use Rattle.std.specs.Prelude.{◌≡◌, IfOk, IfErr};
ghost use Rattle.desk_msg.specs.StatusText.{IsCase};
ghost use Rattle.desk_register.specs.View.{IfTrusted, IsRead};
ghost use Rattle.desk_rules.specs.Books.{Books};
ghost use Rattle.desk_rules.specs.Questions.{instruction_reply, message_reply as reply_about, named_reply, refused_question, sent_reply, sent_text_reply, standing_reply};
ghost use Rattle.desk_rules.specs.Reply.{cancellation_case};
ghost use Rattle.desk_rules.specs.Standing.{state_of};
ghost use Rattle.desk_rules.specs.Verdict.{named_by};
ghost use Rattle.desk_engine.specs.Applied.{Keeps};
ghost use Rattle.desk_book.specs.Answered.{number_used, status_answer};

use desk_codes::{Bic, Reference};
use desk_engine::instruction_named;
use desk_msg::{CancelOrder, Case, Instruction, Mt};
use desk_register::{Fault, Register, Stage};
use desk_rules::{Entry, Refusal, Reply, Sender, Sent, State, message_reply, question_refused};
use std::alloc::Global;

/// The refusal of a question for a message that was not sent.
const NO_MESSAGE: u8 = 42;

/// How a participant's message with a reference stands.
pub fn status<R: Register>(
    alloc: Global,
    register: &mut R,
    sender: Bic,
    reference: Option<Reference>,
) -> Result<Reply, Fault>
    requires stage { (R.view register.old).stage ≡ Stage.Idle }
    ensures told { (books : Books) → IfTrusted (R.view register.old) (R.view register.new) (Keeps (R.view register.old).room books (R.view register.old).content
        → IfOk result (λ reply. reply ≡ status_answer books sender reference)) }
    ensures read { IsRead result (R.view register.old) (R.view register.new) }
{
    let is_participant = register.participant(alloc, sender)?;
    if !is_participant {
        return refused(alloc, Refusal::SenderUnknown.number());
    }
    named_status(alloc, register, sender, reference)
}

/// The message of this number among those that were sent to a participant, counted from 1, as it was sent.
pub fn sent_message<R: Register>(
    alloc: Global,
    register: &mut R,
    receiver: Bic,
    number: u64,
) -> Result<Reply, Fault>
    requires stage { (R.view register.old).stage ≡ Stage.Idle }
    ensures told { (books : Books) → IfTrusted (R.view register.old) (R.view register.new) (Keeps (R.view register.old).room books (R.view register.old).content
        → IfOk result (λ reply. reply ≡ sent_reply books receiver number)) }
    ensures read { IsRead result (R.view register.old) (R.view register.new) }
{
    let is_participant = register.participant(alloc, receiver)?;
    if !is_participant {
        return refused(alloc, Refusal::SenderUnknown.number());
    }
    let found = register.sent(alloc, receiver, number)?;
    sent_text(alloc, found)
}

/// The refusal of a question.
pub fn refused(alloc: Global, number: u8) -> Result<Reply, Fault>
    ensures reply { IfOk result (λ reply. reply ≡ refused_question number) }
    ensures memory { IfErr result (λ fault. fault ≡ Fault.Memory) }
{
    Ok(question_refused(alloc, number)?)
}

/// A sent message as an answer.
fn sent_text(alloc: Global, found: Option<Sent>) -> Result<Reply, Fault>
    ensures reply { IfOk result (λ reply. reply ≡ sent_text_reply found) }
    ensures memory { IfErr result (λ fault. fault ≡ Fault.Memory) }
{
    match found {
        Some(message) => Ok(Reply {
            status: 200,
            mt: Some(message.mt),
            text: message.text,
        }),
        None => refused(alloc, NO_MESSAGE),
    }
}

/// How the message stands that a participant used a reference for.
fn named_status<R: Register>(
    alloc: Global,
    register: &mut R,
    sender: Bic,
    reference: Option<Reference>,
) -> Result<Reply, Fault>
    requires stage { (R.view register.old).stage ≡ Stage.Idle }
    ensures told { (books : Books) → IfTrusted (R.view register.old) (R.view register.new) (Keeps (R.view register.old).room books (R.view register.old).content
        → IfOk result (λ reply. reply ≡ named_reply books (number_used books.history sender reference))) }
    ensures read { IsRead result (R.view register.old) (R.view register.new) }
{
    let Some(reference) = reference else {
        return refused(alloc, Refusal::NoSuchInstruction.number());
    };
    let Some(number) = register.number_of(alloc, Sender::Participant(sender), reference)? else {
        return refused(alloc, Refusal::NoSuchInstruction.number());
    };
    let Some(entry) = register.entry(alloc, number)? else {
        return refused(alloc, Refusal::NoSuchInstruction.number());
    };
    message_status(alloc, register, number, &entry)
}

/// How the message of a number stands.
fn message_status<R: Register>(
    alloc: Global,
    register: &mut R,
    number: u64,
    entry: &Entry,
) -> Result<Reply, Fault>
    requires stage { (R.view register.old).stage ≡ Stage.Idle }
    ensures told { (books : Books) → IfTrusted (R.view register.old) (R.view register.new) (Keeps (R.view register.old).room books (R.view register.old).content
        → IfOk result (λ reply. reply ≡ reply_about books number entry.now)) }
    ensures read { IsRead result (R.view register.old) (R.view register.new) }
{
    match entry {
        Entry::Instruct { instruction, .. } => {
            instruction_status(alloc, register, number, instruction)
        }
        Entry::Cancel { sender, order } => cancellation_status(alloc, register, sender, order),
        _ => refused(alloc, Refusal::NoSuchInstruction.number()),
    }
}

/// How the instruction of a number stands or, once it is settled, its confirmation as it was sent.
fn instruction_status<R: Register>(
    alloc: Global,
    register: &mut R,
    number: u64,
    instruction: &Instruction,
) -> Result<Reply, Fault>
    requires stage { (R.view register.old).stage ≡ Stage.Idle }
    ensures told { (books : Books) → IfTrusted (R.view register.old) (R.view register.new) (Keeps (R.view register.old).room books (R.view register.old).content
        → IfOk result (λ reply. reply ≡ instruction_reply books number instruction.now (state_of books number))) }
    ensures read { IsRead result (R.view register.old) (R.view register.new) }
{
    let standing = register.standing(alloc, number)?;
    match standing.state {
        State::NoInstruction => refused(alloc, Refusal::NoSuchInstruction.number()),
        State::Unmatched => instruction_advice(alloc, register, instruction, Case::Unmatched),
        State::Matched(reason) => {
            instruction_advice(alloc, register, instruction, Case::Matched(reason))
        }
        State::Cancelled => instruction_advice(alloc, register, instruction, Case::Cancelled),
        State::Settled => {
            let found = register.confirmation(alloc, number)?;
            sent_text(alloc, found)
        }
    }
}

/// A status advice of now about an instruction.
fn instruction_advice<R: Register>(
    alloc: Global,
    register: &mut R,
    instruction: &Instruction,
    about: Case,
) -> Result<Reply, Fault>
    requires case { IsCase about }
    requires stage { (R.view register.old).stage ≡ Stage.Idle }
    ensures told { (books : Books) → IfTrusted (R.view register.old) (R.view register.new) (Keeps (R.view register.old).room books (R.view register.old).content
        → IfOk result (λ reply. reply ≡ standing_reply books instruction.now.mt instruction.now.reference about)) }
    ensures read { IsRead result (R.view register.old) (R.view register.new) }
{
    advice(
        alloc,
        register,
        instruction.mt,
        &instruction.reference,
        about,
    )
}

/// How a cancellation stands, by where the instruction stands that it names.
fn cancellation_status<R: Register>(
    alloc: Global,
    register: &mut R,
    sender: &Bic,
    order: &CancelOrder,
) -> Result<Reply, Fault>
    requires stage { (R.view register.old).stage ≡ Stage.Idle }
    ensures told { (books : Books) → IfTrusted (R.view register.old) (R.view register.new) (Keeps (R.view register.old).room books (R.view register.old).content
        → IfOk result (λ reply. reply ≡ standing_reply books order.now.mt order.now.reference (cancellation_case books (named_by books.history sender.now order.now)))) }
    ensures read { IsRead result (R.view register.old) (R.view register.new) }
{
    let Some(number) = instruction_named(alloc, register, sender, order)? else {
        return advice(
            alloc,
            register,
            order.mt,
            &order.reference,
            Case::CancelWaits,
        );
    };
    let standing = register.standing(alloc, number)?;
    let about = standing.state.cancellation_case();
    advice(alloc, register, order.mt, &order.reference, about)
}

/// A status advice of now, about the message of this type and reference.
fn advice<R: Register>(
    alloc: Global,
    register: &mut R,
    mt: Mt,
    reference: &Reference,
    about: Case,
) -> Result<Reply, Fault>
    requires case { IsCase about }
    requires stage { (R.view register.old).stage ≡ Stage.Idle }
    ensures told { (books : Books) → IfTrusted (R.view register.old) (R.view register.new) (Keeps (R.view register.old).room books (R.view register.old).content
        → IfOk result (λ reply. reply ≡ standing_reply books mt reference.now about)) }
    ensures read { IsRead result (R.view register.old) (R.view register.new) }
{
    let limit = register.limit();
    let count = register.count(alloc)?;
    Ok(message_reply(alloc, count.min(limit), mt, reference, about)?)
}
