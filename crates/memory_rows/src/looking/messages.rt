//! Look-ups in the list of sent messages, and one message more.
ghost use Rattle.std.specs.Prelude.{◌≡◌, IfOk, OnOk};
ghost use Rattle.desk_register.specs.Changes.{with_sent};
ghost use Rattle.desk_rules.specs.Questions.{sent_at};
ghost use Rattle.memory_rows.specs.Balanced.{IsSound};
ghost use Rattle.memory_rows.specs.Lists.{content_in, listed, undone};

use crate::changing::changes::push_sent;
use crate::changing::trimming::trimmed_message;
use crate::lists::{Change, Lists};
use desk_rules::{Sent, Text};
use std::alloc::{AllocError, Global};

/// A copy of the message of a number among all that were sent.
pub fn message(sent: &[Sent], alloc: Global, number: u64) -> Result<Option<Sent>, AllocError>
    ensures { IfOk result (λ r. r ≡ sent_at sent.now number) }
{
    if number == 0 || number > sent.len() as u64 {
        return Ok(None);
    }
    let found = copy_of(&sent[(number - 1) as usize], alloc)?;
    Ok(Some(found))
}

fn copy_of(message: &Sent, alloc: Global) -> Result<Sent, AllocError>
    ensures { IfOk result (λ copy. copy ≡ message.now) }
{
    let bytes = Vec::from_slice(alloc, message.text.as_bytes())?;
    Ok(Sent {
        bic: message.bic,
        mt: message.mt,
        about: message.about,
        text: Text::new(bytes),
    })
}

/// Adds a message to those that were sent.
pub fn send_message(
    lists: &mut Lists,
    changes: &mut Vec<Change>,
    message: Sent,
) -> Result<(), AllocError>
    ensures sent { OnOk result (content_in (listed lists.new) ≡ with_sent message (content_in (listed lists.old))) }
    ensures sound { IsSound (listed lists.old) → OnOk result (IsSound (listed lists.new)) }
    ensures before { undone changes.new.items (listed lists.new) ≡ undone changes.old.items (listed lists.old) }
{
    push_sent(lists, changes, trimmed_message(message))
}
