//! What a cancellation asks for, noted where the instruction stands that it names.
ghost use Rattle.std.specs.Prelude.{◌≡◌, ◌==◌, ◌<◌, ◌≤◌, length, option_and_then, IfSome, OnOk};
ghost use Rattle.desk_msg.specs.MessageType.{number_of_type};
ghost use Rattle.desk_rules.specs.Content.{history_of};
ghost use Rattle.desk_rules.specs.History.{instruction_at};
ghost use Rattle.desk_rules.specs.Verdict.{if_of_type};
ghost use Rattle.memory_rows.specs.Named.{number_named};
ghost use Rattle.desk_register.specs.Changes.{requested_by, requests_noted};
ghost use Rattle.memory_rows.specs.Lists.{content_in, listed, standing_in, undone};
ghost use Rattle.memory_rows.specs.Moves.{SameBooks};

use crate::changing::standings::stand_number;
use crate::lists::{Change, Lists};
use crate::looking::by_number::{instruction, standing};
use desk_msg::Mt;
use desk_rules::{Entry, Standing};
use std::alloc::AllocError;

/// A number, where it is that of an instruction of a type.
fn of_type(lists: &Lists, number: Option<u64>, mt: Mt) -> Option<u64>
    ensures named { result ≡ option_and_then (λ k. if_of_type (number_of_type mt) k (instruction_at (history_of (content_in (listed lists.now))) k)) number }
    ensures known { IfSome result (λ k. (0 < k) × (k ≤ length lists.now.kept.items)) }
{
    let number = number?;
    let named = instruction(lists, number)?;
    if same_type(named.instruction.mt, mt) {
        return Some(number);
    }
    None
}

fn same_type(a: Mt, b: Mt) -> bool
    ensures { result ≡ (number_of_type a == number_of_type b) }
{
    a.number() == b.number()
}

/// The number of the instruction whose cancellation an entry requests, by the key that it names.
fn requested_by(lists: &Lists, entry: &Entry, named: Option<u64>) -> Option<u64>
    requires { named ≡ number_named (history_of (content_in (listed lists.now))) entry.now }
    ensures requested { result ≡ requested_by (history_of (content_in (listed lists.now))) entry.now }
    ensures known { IfSome result (λ k. (0 < k) × (k ≤ length lists.now.kept.items)) }
{
    match entry {
        Entry::Cancel { order, .. } => of_type(lists, named, order.mt),
        _ => None,
    }
}

/// Notes what an entry requests, if it is a cancellation that names an instruction.
pub fn note_request(
    lists: &mut Lists,
    changes: &mut Vec<Change>,
    entry: &Entry,
    named: Option<u64>,
) -> Result<(), AllocError>
    requires { named ≡ number_named (history_of (content_in (listed lists.old))) entry.now }
    ensures noted { OnOk result (standing_in (listed lists.new).standings ≡ requests_noted (history_of (content_in (listed lists.old))) entry.now (standing_in (listed lists.old).standings)) }
    ensures rest { SameBooks (listed lists.old) (listed lists.new) }
    ensures before { undone changes.new.items (listed lists.new) ≡ undone changes.old.items (listed lists.old) }
{
    let Some(number) = requested_by(lists, entry, named) else {
        return Ok(());
    };
    let requested = Standing {
        cancel_requested: true,
        ..standing(lists, number)
    };
    stand_number(lists, changes, number, requested)
}
