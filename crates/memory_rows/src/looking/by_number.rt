//! Entries found in the lists by their number.
ghost use Rattle.std.specs.Prelude.{◌≡◌, IfOk, option_copied, option_map};
ghost use Rattle.desk_rules.specs.History.{entry_at, instruction_at};
ghost use Rattle.desk_rules.specs.Content.{history_of};
ghost use Rattle.memory_rows.specs.Lists.{content_in, listed, standing_in};
ghost use Rattle.memory_rows.specs.Transfers.{as_instructed};
ghost use Rattle.desk_register.specs.Looked.{reply_at};

use crate::lists::Lists;
use desk_codes::Bic;
use desk_msg::Instruction;
use desk_rules::{Entry, Instructed, Reply, Standing, State};
use std::alloc::{AllocError, Global};

/// The entry of a number, where it is kept.
pub fn kept_entry(lists: &Lists, number: u64) -> Option<&Entry>
    ensures { option_copied result ≡ entry_at (history_of (content_in (listed lists.now))) number }
{
    if number == 0 || number > lists.kept.len() as u64 {
        return None;
    }
    Some(&lists.kept[(number - 1) as usize].entry)
}

/// The entry of a number.
pub fn entry(lists: &Lists, number: u64) -> Option<Entry>
    ensures { result ≡ entry_at (history_of (content_in (listed lists.now))) number }
{
    kept_entry(lists, number).copied()
}

/// The reply that is kept with the entry of a number.
pub fn reply(lists: &Lists, alloc: Global, number: u64) -> Result<Option<Reply>, AllocError>
    ensures { IfOk result (λ r. r ≡ reply_at (content_in (listed lists.now)) number) }
{
    if number == 0 || number > lists.kept.len() as u64 {
        return Ok(None);
    }
    let kept = lists.kept[(number - 1) as usize].reply.try_clone(alloc)?;
    Ok(Some(kept))
}

/// The instruction of a number.
pub fn instruction(lists: &Lists, number: u64) -> Option<Instructed>
    ensures { result ≡ instruction_at (history_of (content_in (listed lists.now))) number }
{
    kept_entry(lists, number)?.instructed()
}

/// The sender and the text of the instruction of a number, where they are kept.
pub fn kept_instruction(lists: &Lists, number: u64) -> Option<(&Bic, &Instruction)>
    ensures { option_map (λ p. as_instructed p.0.now p.1.now) result ≡ instruction_at (history_of (content_in (listed lists.now))) number }
{
    match kept_entry(lists, number)? {
        Entry::Instruct {
            sender,
            instruction,
        } => Some((sender, instruction)),
        _ => None,
    }
}

/// Where the entry of a number stands.
pub fn standing(lists: &Lists, number: u64) -> Standing
    ensures { result ≡ standing_in (listed lists.now).standings number }
{
    if number == 0 || number > lists.standings.len() as u64 {
        return Standing {
            mate: None,
            state: State::NoInstruction,
            cancel_requested: false,
        };
    }
    lists.standings[(number - 1) as usize]
}
