//! The answer to one request, from an open desk's register.
ghost use Rattle.std.specs.Prelude.{◌≡◌, ◌≢◌, true, false, IfOk, OnOk};
ghost use Rattle.desk_rules.specs.Books.{Books};
ghost use Rattle.desk_rules.specs.Refusals.{number_of_refusal};
ghost use Rattle.desk_rules.specs.Reply.{IsFirstReply, refused_reply};
ghost use Rattle.desk_rules.specs.Verdict.{AsksTheSame};
ghost use Rattle.desk_engine.specs.Applied.{CanApply, Keeps};
ghost use Rattle.desk_rules.specs.Questions.{sent_reply};
ghost use Rattle.desk_book.specs.Answered.{says_closed, status_answer};
ghost use Rattle.desk_book.specs.RowByRow.{IsReported, answer_in_memory};
ghost use Rattle.desk_book.specs.Task.{IsFormed};
ghost use Rattle.desk_engine.specs.Ready.{IsReady, KeepsFormed};
ghost use Rattle.desk_book.specs.Answering.{Answers, Decides, Ends, IsPut, AnswersFault, fault_of_register, fault_of_failure};

use crate::answers::head::Head;
use crate::answers::questions::{sent_message, status};
use crate::answers::telling::{Report, tell_to};
use crate::fault::{Fault, ToFault};
use crate::requests::task::Task;
use desk_codes::{Bic, Reference};
use desk_engine::{Failure, accept, decide, recover, refused_reply};
use desk_register::{Fault as RegisterFault, Register, Stage};
use desk_rules::{Entry, Refusal, Reply, Verdict};
use std::alloc::Global;

/// What the desk answers to a failure: the fault, of which nothing is left, or that it is closed.
fn fault_of_failure(failure: Failure) -> Fault
    ensures { result ≡ fault_of_failure failure }
{
    match failure {
        Failure::Undone(fault) => fault.into(),
        Failure::Lost => Fault::Closed,
    }
}

/// What is answered to a fault with no `begin` open: what the register shows is tried, and where that fails the
/// desk is closed.
fn recovered<R: Register>(alloc: Global, register: &mut R, fault: RegisterFault) -> Fault
    requires { (R.view register.old).stage ≡ Stage.Idle }
    ensures recovers { AnswersFault (fault_of_register fault) result (R.view register.old) (R.view register.old).content (R.view register.new) }
    ensures in_memory { R.in_memory ≡ true → result ≢ Fault.Closed }
{
    fault_of_failure(recover(alloc, register, fault))
}

/// Takes an accepted entry in, and answers its reply.
fn take_in<R: Register>(alloc: Global, register: &mut R, entry: Entry) -> Result<Reply, Fault>
    requires ready { IsReady false (R.view register.old) }
    requires accepted { (R.view register.old).is_honest → CanApply (R.view register.old).room entry (R.view register.old).content }
    ensures put { (books : Books) → (R.view register.new).is_honest → Keeps (R.view register.old).room books (R.view register.old).content
        → IfOk result (λ reply. IsPut (R.view register.old).room books entry reply (R.view register.new).content) }
    ensures ends { Ends result (R.view register.old) (R.view register.new) }
    ensures in_memory { R.in_memory ≡ true → says_closed result ≡ false }
{
    match accept(alloc, register, entry) {
        Ok(accepted) => Ok(accepted.reply),
        Err(failure) => Err(fault_of_failure(failure)),
    }
}

/// The reply to an entry that is refused.
fn refuse<R: Register>(
    alloc: Global,
    register: &mut R,
    entry: &Entry,
    refusal: Refusal,
) -> Result<Reply, Fault>
    requires ready { IsReady false (R.view register.old) }
    ensures refused { (books : Books) → (R.view register.new).is_honest → Keeps (R.view register.old).room books (R.view register.old).content
        → IfOk result (λ reply. reply ≡ refused_reply books entry.now (number_of_refusal refusal)) }
    ensures same { (R.view register.new).is_honest → OnOk result ((R.view register.new).content ≡ (R.view register.old).content) }
    ensures ends { Ends result (R.view register.old) (R.view register.new) }
    ensures in_memory { R.in_memory ≡ true → says_closed result ≡ false }
{
    let limit = register.limit();
    match register.count(alloc) {
        Ok(count) => Ok(refused_reply(alloc, entry, count.min(limit), refusal)?),
        Err(fault) => Err(recovered(alloc, register, fault)),
    }
}

/// The first reply of the entry of a number, which was given before.
fn repeat<R: Register>(
    alloc: Global,
    register: &mut R,
    entry: &Entry,
    number: u64,
) -> Result<Reply, Fault>
    requires ready { IsReady false (R.view register.old) }
    ensures repeated { (books : Books) → (R.view register.new).is_honest → Keeps (R.view register.old).room books (R.view register.old).content
        → AsksTheSame books.history number entry.now → IfOk result (λ reply. IsFirstReply books.history number reply) }
    ensures same { (R.view register.new).is_honest → OnOk result ((R.view register.new).content ≡ (R.view register.old).content) }
    ensures ends { Ends result (R.view register.old) (R.view register.new) }
    ensures in_memory { R.in_memory ≡ true → says_closed result ≡ false }
{
    match register.reply(alloc, number) {
        Ok(Some(reply)) => Ok(reply),
        // only a store that does not hold what was written answers so
        Ok(None) => refuse(alloc, register, entry, Refusal::ReferenceReused),
        Err(fault) => Err(recovered(alloc, register, fault)),
    }
}

/// Decides on an entry, and answers it.
fn rule<R: Register>(alloc: Global, register: &mut R, entry: Entry) -> Result<Reply, Fault>
    requires ready { IsReady false (R.view register.old) }
    ensures decides { (books : Books) → (R.view register.new).is_honest → Keeps (R.view register.old).room books (R.view register.old).content
        → IfOk result (λ reply. Decides (R.view register.old).room books entry reply (R.view register.new).content) }
    ensures ends { Ends result (R.view register.old) (R.view register.new) }
    ensures in_memory { R.in_memory ≡ true → says_closed result ≡ false }
{
    match decide(alloc, register, &entry) {
        Ok(Verdict::Accept) => take_in(alloc, register, entry),
        Ok(Verdict::Repeat(number)) => repeat(alloc, register, &entry, number),
        Ok(Verdict::Refuse(refusal)) => refuse(alloc, register, &entry, refusal),
        Err(fault) => Err(recovered(alloc, register, fault)),
    }
}

/// Tells how a participant's message stands.
fn tell_status<R: Register>(
    alloc: Global,
    register: &mut R,
    sender: Bic,
    reference: Option<Reference>,
) -> Result<Reply, Fault>
    requires ready { IsReady false (R.view register.old) }
    ensures told { (books : Books) → (R.view register.new).is_honest → Keeps (R.view register.old).room books (R.view register.old).content
        → IfOk result (λ reply. reply ≡ status_answer books sender reference) }
    ensures same { (R.view register.new).is_honest → OnOk result ((R.view register.new).content ≡ (R.view register.old).content) }
    ensures ends { Ends result (R.view register.old) (R.view register.new) }
    ensures in_memory { R.in_memory ≡ true → says_closed result ≡ false }
{
    match status(alloc, register, sender, reference) {
        Ok(reply) => Ok(reply),
        Err(fault) => Err(recovered(alloc, register, fault)),
    }
}

/// Tells what was sent to a participant under a number.
fn tell_sent<R: Register>(
    alloc: Global,
    register: &mut R,
    receiver: Bic,
    number: u64,
) -> Result<Reply, Fault>
    requires ready { IsReady false (R.view register.old) }
    ensures told { (books : Books) → (R.view register.new).is_honest → Keeps (R.view register.old).room books (R.view register.old).content
        → IfOk result (λ reply. reply ≡ sent_reply books receiver number) }
    ensures same { (R.view register.new).is_honest → OnOk result ((R.view register.new).content ≡ (R.view register.old).content) }
    ensures ends { Ends result (R.view register.old) (R.view register.new) }
    ensures in_memory { R.in_memory ≡ true → says_closed result ≡ false }
{
    match sent_message(alloc, register, receiver, number) {
        Ok(reply) => Ok(reply),
        Err(fault) => Err(recovered(alloc, register, fault)),
    }
}

/// Tells a report, which is written in memory.
fn tell_report<R: Register>(alloc: Global, register: &mut R, report: Report) -> Result<Reply, Fault>
    requires ready { IsReady false (R.view register.old) }
    ensures told { (books : Books) → (R.view register.new).is_honest → Keeps (R.view register.old).room books (R.view register.old).content
        → IfOk result (λ reply. IsReported (R.view register.old).room books report reply) }
    ensures same { (R.view register.new).is_honest → OnOk result ((R.view register.new).content ≡ (R.view register.old).content) }
    ensures ends { Ends result (R.view register.old) (R.view register.new) }
    ensures in_memory { R.in_memory ≡ true → says_closed result ≡ false }
{
    let mut text = Vec::new(alloc);
    let written = tell_to(alloc, register, report, &mut text);
    answer_in_memory(written, text)
}

/// The answer whose text was written in memory, where a write fails for want of memory alone.
fn answer_in_memory(written: Result<Head, ToFault>, text: Vec<u8>) -> Result<Reply, Fault>
    ensures { result ≡ answer_in_memory written text.items }
{
    match written {
        Ok(head) => Ok(head.with_text(text)),
        Err(ToFault::WriteFailed | ToFault::Memory) => Err(Fault::Memory),
        Err(ToFault::Storage) => Err(Fault::Storage),
        Err(ToFault::Closed | ToFault::Lost) => Err(Fault::Closed),
    }
}

/// Answers what a request is read as.
pub fn answer<R: Register>(alloc: Global, register: &mut R, task: Task) -> Result<Reply, Fault>
    requires ready { IsReady false (R.view register.old) }
    requires formed { IsFormed task }
    ensures answered { (books : Books) → (R.view register.new).is_honest → KeepsFormed (R.view register.old).room books (R.view register.old).content
        → IfOk result (λ reply. Answers (R.view register.old).room books task reply (R.view register.new).content) }
    ensures ends { Ends result (R.view register.old) (R.view register.new) }
    ensures in_memory { R.in_memory ≡ true → says_closed result ≡ false }
{
    match task {
        Task::Decide(entry) => rule(alloc, register, entry),
        Task::Status(sender, reference) => tell_status(alloc, register, sender, reference),
        Task::Sent(receiver, number) => tell_sent(alloc, register, receiver, number),
        Task::Holdings(owner, account) => {
            tell_report(alloc, register, Report::Holdings(owner, account))
        }
        Task::Totals => tell_report(alloc, register, Report::Totals),
        Task::Answer(reply) => Ok(reply),
    }
}
