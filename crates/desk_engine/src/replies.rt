//! The replies to entries, by how they fared.
ghost use Rattle.std.specs.Prelude.{◌≡◌, ◌≤◌, length, is_some, if◌then◌else◌, IfOk, IfErr};
ghost use Rattle.desk_engine.specs.Applied.{IsApplied};
ghost use Rattle.desk_rules.specs.Reply.{refused_reply, reply_to};
ghost use Rattle.desk_rules.specs.Books.{Books};
ghost use Rattle.desk_rules.specs.Refusals.{number_of_refusal};

use crate::applied::Applied;
use desk_msg::{Case, Reason};
use desk_register::Fault;
use desk_rules::{Entry, MOST_ENTRIES, Refusal, Reply, command_reply, message_reply, run_reply};
use std::alloc::{AllocError, Global};

/// How an instruction stands right after it was accepted.
fn first_case(mate: Option<u64>) -> Case
    ensures { result ≡ (if is_some mate then Case.Matched Reason.Future else Case.Unmatched) }
{
    match mate {
        Some(_) => Case::Matched(Reason::Future),
        None => Case::Unmatched,
    }
}

/// The reply to an accepted entry that fared so. The only fault is want of memory.
fn reply_of(alloc: Global, entry: &Entry, applied: &Applied) -> Result<Reply, AllocError>
    ensures reply { (books : Books) → IsApplied books entry.now applied.now → IfOk result (λ reply. reply ≡ reply_to books entry.now) }
    ensures status { IfOk result (λ reply. reply.status ≡ 200) }
{
    let number = applied.number;
    match entry {
        Entry::Run { .. } => run_reply(alloc, number, applied.settled, applied.waiting),
        Entry::Instruct { instruction, .. } => {
            let about = first_case(applied.mate);
            message_reply(alloc, number, instruction.mt, &instruction.reference, about)
        }
        Entry::Cancel { order, .. } => {
            let about = applied.named.cancellation_case();
            message_reply(alloc, number, order.mt, &order.reference, about)
        }
        _ => command_reply(alloc, number),
    }
}

/// The reply to an accepted entry that fared so. The only fault is want of memory.
pub fn accepted_reply(alloc: Global, entry: &Entry, applied: &Applied) -> Result<Reply, Fault>
    ensures reply { (books : Books) → IsApplied books entry.now applied.now → IfOk result (λ reply. reply ≡ reply_to books entry.now) }
    ensures status { IfOk result (λ reply. reply.status ≡ 200) }
    ensures memory { IfErr result (λ fault. fault ≡ Fault.Memory) }
{
    Ok(reply_of(alloc, entry, applied)?)
}

/// The reply to an entry that is refused by a desk of so many entries. The only fault is want of memory.
pub fn refused_reply(
    alloc: Global,
    entry: &Entry,
    count: u64,
    refusal: Refusal,
) -> Result<Reply, Fault>
    requires { count ≤ MOST_ENTRIES }
    ensures reply { (books : Books) → count ≡ length books.history → IfOk result (λ reply. reply ≡ refused_reply books entry.now (number_of_refusal refusal)) }
    ensures memory { IfErr result (λ fault. fault ≡ Fault.Memory) }
{
    Ok(desk_rules::refused_reply(alloc, entry, count, refusal)?)
}

/// A reply once more. The only fault is want of memory.
pub fn once_more(alloc: Global, reply: &Reply) -> Result<Reply, Fault>
    ensures reply { IfOk result (λ copy. copy ≡ reply.now) }
    ensures memory { IfErr result (λ fault. fault ≡ Fault.Memory) }
{
    Ok(reply.try_clone(alloc)?)
}
