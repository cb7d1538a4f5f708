//! Where entries stand, changed in the lists by their numbers.
ghost use Rattle.std.specs.Prelude.{◌≡◌, ◌<◌, ◌≤◌, ◌-◌, length, OnOk};
ghost use Rattle.desk_register.specs.Changes.{cancelled, pair_cancelled, paired, CanCancel, CanCancelPair, CanPair, standing_at, standing_both};
ghost use Rattle.memory_rows.specs.Lists.{content_in, listed, undone, standing_in};
ghost use Rattle.memory_rows.specs.Moves.{SameBooks};

use crate::changing::changes::stand;
use crate::lists::{Change, Lists};
use crate::looking::by_number::standing;
use desk_msg::Reason;
use desk_rules::{Standing, State};
use std::alloc::AllocError;

/// Lets the entry of a number stand otherwise.
pub fn stand_number(
    lists: &mut Lists,
    changes: &mut Vec<Change>,
    number: u64,
    standing: Standing,
) -> Result<(), AllocError>
    requires some { 0 < number }
    requires known { number ≤ length lists.old.kept.items }
    ensures stands { OnOk result (standing_in (listed lists.new).standings ≡ standing_at (standing_in (listed lists.old).standings) number standing) }
    ensures rest { SameBooks (listed lists.old) (listed lists.new) }
    ensures before { undone changes.new.items (listed lists.new) ≡ undone changes.old.items (listed lists.old) }
{
    stand(lists, changes, (number - 1) as usize, standing)
}

/// Lets the two instructions of a pair stand so, as each other's mates.
pub fn stand_both(
    lists: &mut Lists,
    changes: &mut Vec<Change>,
    earlier: u64,
    later: u64,
    state: State,
) -> Result<(), AllocError>
    requires some { 0 < earlier }
    requires known { earlier ≤ length lists.old.kept.items }
    requires later_some { 0 < later }
    requires later_known { later ≤ length lists.old.kept.items }
    ensures stands { OnOk result (standing_in (listed lists.new).standings ≡ standing_both (standing_in (listed lists.old).standings) earlier later state) }
    ensures rest { SameBooks (listed lists.old) (listed lists.new) }
    ensures before { undone changes.new.items (listed lists.new) ≡ undone changes.old.items (listed lists.old) }
{
    let first = Standing {
        mate: Some(later),
        state,
        ..standing(lists, earlier)
    };
    let second = Standing {
        mate: Some(earlier),
        state,
        ..standing(lists, later)
    };
    stand_number(lists, changes, earlier, first)?;
    stand_number(lists, changes, later, second)
}

/// Makes two instructions each other's mates.
pub fn pair_entries(
    lists: &mut Lists,
    changes: &mut Vec<Change>,
    earlier: u64,
    later: u64,
) -> Result<(), AllocError>
    requires { CanPair (content_in (listed lists.old)) earlier later }
    ensures paired { OnOk result (content_in (listed lists.new) ≡ paired earlier later (content_in (listed lists.old))) }
    ensures rest { SameBooks (listed lists.old) (listed lists.new) }
    ensures before { undone changes.new.items (listed lists.new) ≡ undone changes.old.items (listed lists.old) }
{
    stand_both(
        lists,
        changes,
        earlier,
        later,
        State::Matched(Reason::Future),
    )
}

/// Lets an unmatched instruction stand cancelled.
pub fn cancel_entry(
    lists: &mut Lists,
    changes: &mut Vec<Change>,
    number: u64,
) -> Result<(), AllocError>
    requires { CanCancel (content_in (listed lists.old)) number }
    ensures cancelled { OnOk result (content_in (listed lists.new) ≡ cancelled number (content_in (listed lists.old))) }
    ensures rest { SameBooks (listed lists.old) (listed lists.new) }
    ensures before { undone changes.new.items (listed lists.new) ≡ undone changes.old.items (listed lists.old) }
{
    let cancelled = Standing {
        state: State::Cancelled,
        ..standing(lists, number)
    };
    stand_number(lists, changes, number, cancelled)
}

/// Lets both instructions of a matched pair stand cancelled.
pub fn cancel_both(
    lists: &mut Lists,
    changes: &mut Vec<Change>,
    earlier: u64,
    later: u64,
) -> Result<(), AllocError>
    requires { CanCancelPair (content_in (listed lists.old)) earlier later }
    ensures cancelled { OnOk result (content_in (listed lists.new) ≡ pair_cancelled earlier later (content_in (listed lists.old))) }
    ensures rest { SameBooks (listed lists.old) (listed lists.new) }
    ensures before { undone changes.new.items (listed lists.new) ≡ undone changes.old.items (listed lists.old) }
{
    stand_both(lists, changes, earlier, later, State::Cancelled)
}
