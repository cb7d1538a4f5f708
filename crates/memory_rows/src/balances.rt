//! Balances: amounts found, and changed, by their keys.
ghost use Rattle.std.specs.Prelude.{◌≡◌, ◌+◌, ◌<◌, ◌≤◌, ◌^◌, OnOk};
ghost use Rattle.memory_rows.specs.Lists.{balance_in, listed, undone};
ghost use Rattle.memory_rows.specs.Shifts.{shifted, CanShift};
ghost use Rattle.memory_rows.specs.Moves.{with_balance, with_less, with_more, SameEntries};

use crate::balance_key::BalanceKey;
use crate::changing::changes::put_balance;
use crate::changing::shift::Shift;
use crate::lists::{Change, Lists};
use std::alloc::AllocError;

/// The balance of a key.
pub fn balance_of(lists: &Lists, key: &BalanceKey) -> u64
    ensures { result ≡ balance_in (listed lists.now) key.now }
{
    lists.balances.get(key).copied().unwrap_or(0)
}

/// Lets the balance of a key change so, and says how the balances are then.
fn shift_balance(
    lists: &mut Lists,
    changes: &mut Vec<Change>,
    key: BalanceKey,
    shift: Shift,
) -> Result<(), AllocError>
    requires { CanShift (balance_in (listed lists.old) key) shift }
    ensures put { OnOk result (balance_in (listed lists.new) ≡ with_balance (balance_in (listed lists.old)) key (shifted (balance_in (listed lists.old) key) shift)) }
    ensures rest { OnOk result (SameEntries (listed lists.old) (listed lists.new)) }
    ensures before { undone changes.new.items (listed lists.new) ≡ undone changes.old.items (listed lists.old) }
{
    put_balance(lists, changes, key, shift)
}

/// Puts so much more on the balance of a key.
pub fn add_to(
    lists: &mut Lists,
    changes: &mut Vec<Change>,
    key: BalanceKey,
    amount: u64,
) -> Result<(), AllocError>
    requires { balance_in (listed lists.old) key + amount < 2 ^ 64 }
    ensures put { OnOk result (balance_in (listed lists.new) ≡ with_more (balance_in (listed lists.old)) key amount) }
    ensures rest { OnOk result (SameEntries (listed lists.old) (listed lists.new)) }
    ensures before { undone changes.new.items (listed lists.new) ≡ undone changes.old.items (listed lists.old) }
{
    shift_balance(lists, changes, key, Shift::More(amount))
}

/// Takes so much off the balance of a key.
pub fn take_from(
    lists: &mut Lists,
    changes: &mut Vec<Change>,
    key: BalanceKey,
    amount: u64,
) -> Result<(), AllocError>
    requires { amount ≤ balance_in (listed lists.old) key }
    ensures put { OnOk result (balance_in (listed lists.new) ≡ with_less (balance_in (listed lists.old)) key amount) }
    ensures rest { OnOk result (SameEntries (listed lists.old) (listed lists.new)) }
    ensures before { undone changes.new.items (listed lists.new) ≡ undone changes.old.items (listed lists.old) }
{
    shift_balance(lists, changes, key, Shift::Less(amount))
}
