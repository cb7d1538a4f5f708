//! The replies to entries, as they are written.
ghost use Rattle.std.specs.Prelude.{◌≡◌, ◌++◌, ◌≤◌, codes, decimal, length, string_bytes, Some, None, IfOk};
ghost use Rattle.desk_msg.specs.StatusText.{IsCase, IsOwn, advice};
ghost use Rattle.desk_rules.specs.Reply.{accepted_text, advice_reply, case_by_state, refused_reply, untyped_reply};
ghost use Rattle.desk_rules.specs.Books.{Books};
ghost use Rattle.desk_rules.specs.Questions.{refused_question};
ghost use Rattle.desk_rules.specs.Refusals.{number_of_refusal};

use crate::answers::reply::{Reply, Text};
use crate::answers::verdict::Refusal;
use crate::history::entry::Entry;
use crate::history::standing::State;
use crate::limits::MOST_ENTRIES;
use desk_codes::Reference;
use desk_msg::{Case, Mt, Own, status_text};
use std::alloc::{AllocError, Global};

/// The message type of a status advice.
pub const ADVICE: u16 = 548;

/// The status of what was accepted.
const DONE: u16 = 200;

/// The status of what was refused.
const REFUSED: u16 = 422;

impl State {
    /// How a cancellation stands, by where the instruction stands that it names: it is carried out, or comes too late,
    /// or waits for one of the other side of the pair.
    pub fn cancellation_case(self) -> Case
        ensures value { result ≡ case_by_state self }
        ensures case { IsCase result }
    {
        match self {
            State::Cancelled => Case::CancelDone,
            State::Settled => Case::CancelRefused(Refusal::AlreadySettled.number()),
            _ => Case::CancelWaits,
        }
    }
}

/// A reply that is no message.
fn untyped(status: u16, text: String) -> Reply
    ensures { result ≡ untyped_reply status (string_bytes text) }
{
    Reply {
        status,
        mt: None,
        text: Text::new(text.into_bytes()),
    }
}

/// A status advice.
fn advising(
    alloc: Global,
    status: u16,
    entries: u64,
    mt: Mt,
    reference: &Reference,
    about: Case,
) -> Result<Reply, AllocError>
    requires entries { entries ≤ MOST_ENTRIES }
    requires case { IsCase about }
    ensures { IfOk result (λ reply. reply ≡ advice_reply status (advice (Own.Answer entries) mt reference.now about)) }
{
    let text = status_text(alloc, Own::Answer(entries), mt, reference, about)?;
    Ok(Reply {
        status,
        mt: Some(ADVICE),
        text: Text::new(text),
    })
}

/// The reply to an accepted command that is no run, by its number: `accepted N`.
pub fn command_reply(alloc: Global, number: u64) -> Result<Reply, AllocError>
    ensures { IfOk result (λ reply. reply ≡ untyped_reply 200 (accepted_text number)) }
{
    Ok(untyped(DONE, format!(in alloc; "accepted {number}")?))
}

/// The reply to an accepted run, by its number, how many pairs it settled, and how many that were due in it wait:
/// `accepted N settled P waiting Q`.
pub fn run_reply(
    alloc: Global,
    number: u64,
    settled: u64,
    waiting: u64,
) -> Result<Reply, AllocError>
    ensures { IfOk result (λ reply. reply ≡ untyped_reply 200 (accepted_text number ++ codes " settled " ++ decimal settled ++ codes " waiting " ++ decimal waiting)) }
{
    let text = format!(in alloc; "accepted {number} settled {settled} waiting {waiting}")?;
    Ok(untyped(DONE, text))
}

/// The reply to an accepted message of this type and reference, by its number and how what it asks for stands: a status
/// advice.
pub fn message_reply(
    alloc: Global,
    number: u64,
    mt: Mt,
    reference: &Reference,
    about: Case,
) -> Result<Reply, AllocError>
    requires number { number ≤ MOST_ENTRIES }
    requires case { IsCase about }
    ensures { IfOk result (λ reply. reply ≡ advice_reply 200 (advice (Own.Answer number) mt reference.now about)) }
{
    advising(alloc, DONE, number, mt, reference, about)
}

/// The answer to a question that is refused with a number: `refused N`.
pub fn question_refused(alloc: Global, number: u8) -> Result<Reply, AllocError>
    ensures { IfOk result (λ reply. reply ≡ refused_question number) }
{
    Ok(untyped(REFUSED, format!(in alloc; "refused {number}")?))
}

/// The reply to an entry that is refused by a desk of so many entries: to a message a status advice with the refusal's
/// number, else `refused N`.
pub fn refused_reply(
    alloc: Global,
    entry: &Entry,
    count: u64,
    refusal: Refusal,
) -> Result<Reply, AllocError>
    requires { count ≤ MOST_ENTRIES }
    ensures { (books : Books) → count ≡ length books.history → IfOk result (λ reply. reply ≡ refused_reply books entry.now (number_of_refusal refusal)) }
{
    let number = refusal.number();
    match entry {
        Entry::Instruct { instruction, .. } => {
            let about = Case::NewRefused(number);
            advising(
                alloc,
                REFUSED,
                count,
                instruction.mt,
                &instruction.reference,
                about,
            )
        }
        Entry::Cancel { order, .. } => {
            let about = Case::CancelRefused(number);
            advising(alloc, REFUSED, count, order.mt, &order.reference, about)
        }
        _ => question_refused(alloc, number),
    }
}
