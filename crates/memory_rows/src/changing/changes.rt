//! Changes of the lists of a list register, each of which can be undone.
ghost use Rattle.std.specs.Prelude.{◌≡◌, ◌<◌, ◌∷◌, ◌++◌, [], Some, length, IfOk, OnOk, OnErr, slice_set};
ghost use Rattle.memory_rows.specs.BalanceKeys.{with_record, HasNoNought};
ghost use Rattle.memory_rows.specs.Lists.{balance_in, listed, undo, undone};
ghost use Rattle.memory_rows.specs.Shifts.{shifted, CanShift};
ghost use Rattle.memory_rows.specs.Moves.{kept_for_good, SameEntries};

use crate::balance_key::BalanceKey;
use crate::changing::recording;
use crate::changing::shift::{Shift, shifted};
use crate::lists::{Change, Lists};
use desk_rules::{Kept, Sent, Standing};
use std::alloc::AllocError;

impl Lists {
    /// Goes back to before a change.
    pub fn undo(&mut self, change: Change)
        ensures { listed self.new ≡ undo change (listed self.old) }
    {
        match change {
            Change::Appended => {
                let _ = self.kept.pop();
                let _ = self.standings.pop();
            }
            Change::Stood { index, was } => {
                if index < self.standings.len() {
                    self.standings[index] = was;
                }
            }
            Change::Sent => {
                let _ = self.sent.pop();
            }
            Change::Moved { key, was } => {
                self.may_have_nought = true;
                recording::put_back(&mut self.balances, &key, was);
            }
        }
    }

    /// Keeps a change for good, and takes out the balance that it moved where that is 0.
    fn keep(&mut self, change: &Change)
        ensures { listed self.new ≡ kept_for_good change.now (listed self.old) }
    {
        if let Change::Moved { key, .. } = change {
            recording::drop_nought(&mut self.balances, key);
        }
    }

    /// Records a balance as it is once it has changed, and gives what was recorded of it.
    fn record_balance(&mut self, key: &BalanceKey, shift: Shift) -> Result<Option<u64>, AllocError>
        requires { CanShift (balance_in (listed self.old) key.now) shift }
        ensures put { OnOk result (listed self.new ≡ record (listed self.old) { balances = with_record (listed self.old).balances key.now (Some (shifted (balance_in (listed self.old) key.now) shift)) }) }
        ensures was { IfOk result (λ was. was ≡ (listed self.old).balances key.now) }
        ensures err { OnErr result (listed self.new ≡ listed self.old) }
    {
        let was = recording::record(&mut self.balances, key, shift)?;
        if shifted(was.unwrap_or(0), shift) == 0 {
            self.may_have_nought = true;
        }
        Ok(was)
    }
}

/// Goes back to before all of these changes.
pub fn undo_all(lists: &mut Lists, changes: &mut Vec<Change>)
    ensures before { listed lists.new ≡ undone changes.old.items (listed lists.old) }
    ensures none { changes.new.items ≡ [] }
{
    while let Some(change) = changes.pop() {
        lists.undo(change);
    }
}

/// Keeps all of these changes for good, and takes out the balances that they left at 0. No memory is taken.
pub fn keep_all(lists: &mut Lists, changes: &mut Vec<Change>)
    requires { HasNoNought (undone changes.old.items (listed lists.old)).balances }
    ensures amounts { balance_in (listed lists.new) ≡ balance_in (listed lists.old) }
    ensures rest { SameEntries (listed lists.old) (listed lists.new) }
    ensures lean { HasNoNought (listed lists.new).balances }
    ensures none { changes.new.items ≡ [] }
{
    if !lists.may_have_nought {
        changes.truncate(0);
        return;
    }
    keep_each(lists, changes);
    lists.may_have_nought = false;
}

/// Keeps each of these changes for good, and takes out the balance that it moved where that is 0.
fn keep_each(lists: &mut Lists, changes: &mut Vec<Change>)
    ensures amounts { balance_in (listed lists.new) ≡ balance_in (listed lists.old) }
    ensures rest { SameEntries (listed lists.old) (listed lists.new) }
    ensures lean { HasNoNought (undone changes.old.items (listed lists.old)).balances → HasNoNought (listed lists.new).balances }
    ensures none { changes.new.items ≡ [] }
{
    while let Some(change) = changes.pop() {
        lists.keep(&change);
    }
}

/// Adds an entry with its reply, and where it stands.
pub fn push_entry(
    lists: &mut Lists,
    changes: &mut Vec<Change>,
    kept: Kept,
    standing: Standing,
) -> Result<(), AllocError>
    ensures added { OnOk result (listed lists.new ≡ record (listed lists.old) { kept = lists.old.kept.items ++ kept ∷ []; standings = lists.old.standings.items ++ standing ∷ [] }) }
    ensures before { OnOk result (undone changes.new.items (listed lists.new) ≡ undone changes.old.items (listed lists.old)) }
    ensures err { OnErr result ((listed lists.new ≡ listed lists.old) × (changes.new.items ≡ changes.old.items)) }
{
    lists.kept.reserve(1)?;
    lists.standings.reserve(1)?;
    changes.push(Change::Appended)?;
    lists.kept.push(kept).unwrap();
    lists.standings.push(standing).unwrap();
    Ok(())
}

/// Adds a message to those that were sent.
pub fn push_sent(
    lists: &mut Lists,
    changes: &mut Vec<Change>,
    message: Sent,
) -> Result<(), AllocError>
    ensures sent { OnOk result (listed lists.new ≡ record (listed lists.old) { sent = lists.old.sent.items ++ message ∷ [] }) }
    ensures before { OnOk result (undone changes.new.items (listed lists.new) ≡ undone changes.old.items (listed lists.old)) }
    ensures err { OnErr result ((listed lists.new ≡ listed lists.old) × (changes.new.items ≡ changes.old.items)) }
{
    lists.sent.reserve(1)?;
    changes.push(Change::Sent)?;
    lists.sent.push(message).unwrap();
    Ok(())
}

/// Lets the entry at an index stand otherwise.
pub fn stand(
    lists: &mut Lists,
    changes: &mut Vec<Change>,
    index: usize,
    standing: Standing,
) -> Result<(), AllocError>
    requires { index < length lists.old.standings.items }
    ensures stands { OnOk result (listed lists.new ≡ record (listed lists.old) { standings = slice_set lists.old.standings.items index standing }) }
    ensures before { OnOk result (undone changes.new.items (listed lists.new) ≡ undone changes.old.items (listed lists.old)) }
    ensures err { OnErr result ((listed lists.new ≡ listed lists.old) × (changes.new.items ≡ changes.old.items)) }
{
    let was = lists.standings[index];
    changes.push(Change::Stood { index, was })?;
    lists.standings[index] = standing;
    Ok(())
}

/// Lets the balance of a key change so.
pub fn put_balance(
    lists: &mut Lists,
    changes: &mut Vec<Change>,
    key: BalanceKey,
    shift: Shift,
) -> Result<(), AllocError>
    requires { CanShift (balance_in (listed lists.old) key) shift }
    ensures put { OnOk result (listed lists.new ≡ record (listed lists.old) { balances = with_record (listed lists.old).balances key (Some (shifted (balance_in (listed lists.old) key) shift)) }) }
    ensures before { OnOk result (undone changes.new.items (listed lists.new) ≡ undone changes.old.items (listed lists.old)) }
    ensures err { OnErr result ((listed lists.new ≡ listed lists.old) × (changes.new.items ≡ changes.old.items)) }
{
    changes.reserve(1)?;
    let was = lists.record_balance(&key, shift)?;
    changes.push(Change::Moved { key, was }).unwrap();
    Ok(())
}
