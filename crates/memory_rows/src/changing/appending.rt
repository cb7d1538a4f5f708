//! An entry, added to the lists.
ghost use Rattle.std.specs.Prelude.{◌≡◌, ◌+◌, ◌<◌, ◌≤◌, ◌^◌, ℕ, false, OnOk};
ghost use Rattle.desk_register.specs.Changes.{BalancesAllow, CanAppend, appended};
ghost use Rattle.desk_rules.specs.Content.{history_of};
ghost use Rattle.memory_rows.specs.Named.{number_named};
ghost use Rattle.memory_rows.specs.Balanced.{IsSound};
ghost use Rattle.memory_rows.specs.Lists.{TotalsAreKept, balance_in, content_in, listed, undone};
ghost use Rattle.memory_rows.specs.BalanceKeys.{is_key};
ghost use Rattle.memory_rows.specs.Moves.{balances_after, with_less, with_more, SameEntries};

use crate::balance_key::BalanceKey;
use crate::balances::{add_to, take_from};
use crate::changing::changes::push_entry;
use crate::changing::entries::first_standing;
use crate::changing::requests::note_request;
use crate::changing::trimming::trimmed_reply;
use crate::lists::{Change, Lists};
use desk_rules::{Entry, Kept, Movement, Payment, Reply};
use std::alloc::AllocError;

/// The position that a movement changes, and the total of its security.
fn keys_of_movement(movement: &Movement) -> (BalanceKey, BalanceKey)
    ensures position { result.0 ≡ BalanceKey.Position movement.now.account movement.now.isin }
    ensures total { result.1 ≡ BalanceKey.Outstanding movement.now.isin }
{
    let Movement { account, isin, .. } = *movement;
    (
        BalanceKey::Position { account, isin },
        BalanceKey::Outstanding { isin },
    )
}

/// The cash that a payment changes, and the total of its currency.
fn keys_of_payment(payment: &Payment) -> (BalanceKey, BalanceKey)
    ensures cash { result.0 ≡ BalanceKey.Cash payment.now.bic payment.now.ccy }
    ensures total { result.1 ≡ BalanceKey.Paid payment.now.ccy }
{
    let Payment { bic, ccy, .. } = *payment;
    (BalanceKey::Cash { bic, ccy }, BalanceKey::Paid { ccy })
}

/// Puts so much more on a balance, and on the total that it counts in.
fn add_to_both(
    lists: &mut Lists,
    changes: &mut Vec<Change>,
    keys: (BalanceKey, BalanceKey),
    amount: u64,
) -> Result<(), AllocError>
    requires apart { is_key keys.0 keys.1 ≡ false }
    requires fits { balance_in (listed lists.old) keys.0 + amount < 2 ^ 64 }
    requires total_fits { balance_in (listed lists.old) keys.1 + amount < 2 ^ 64 }
    ensures put { OnOk result (balance_in (listed lists.new) ≡ with_more (with_more (balance_in (listed lists.old)) keys.0 amount) keys.1 amount) }
    ensures rest { OnOk result (SameEntries (listed lists.old) (listed lists.new)) }
    ensures before { undone changes.new.items (listed lists.new) ≡ undone changes.old.items (listed lists.old) }
{
    let (balance, total) = keys;
    add_to(lists, changes, balance, amount)?;
    add_to(lists, changes, total, amount)
}

/// Takes so much off a balance, and off the total that it counts in.
fn take_from_both(
    lists: &mut Lists,
    changes: &mut Vec<Change>,
    keys: (BalanceKey, BalanceKey),
    amount: u64,
) -> Result<(), AllocError>
    requires apart { is_key keys.0 keys.1 ≡ false }
    requires held { amount ≤ balance_in (listed lists.old) keys.0 }
    requires total_held { amount ≤ balance_in (listed lists.old) keys.1 }
    ensures put { OnOk result (balance_in (listed lists.new) ≡ with_less (with_less (balance_in (listed lists.old)) keys.0 amount) keys.1 amount) }
    ensures rest { OnOk result (SameEntries (listed lists.old) (listed lists.new)) }
    ensures before { undone changes.new.items (listed lists.new) ≡ undone changes.old.items (listed lists.old) }
{
    let (balance, total) = keys;
    take_from(lists, changes, balance, amount)?;
    take_from(lists, changes, total, amount)
}

/// Moves what an entry issues or redeems, and what it pays in or out.
fn move_balances(
    lists: &mut Lists,
    changes: &mut Vec<Change>,
    entry: &Entry,
) -> Result<(), AllocError>
    requires fits { BalancesAllow entry.now (content_in (listed lists.old)) }
    requires totals { TotalsAreKept (listed lists.old) }
    ensures moved { OnOk result (balance_in (listed lists.new) ≡ balances_after entry.now (balance_in (listed lists.old))) }
    ensures rest { OnOk result (SameEntries (listed lists.old) (listed lists.new)) }
    ensures before { undone changes.new.items (listed lists.new) ≡ undone changes.old.items (listed lists.old) }
{
    match entry {
        Entry::Issue(issue) => {
            add_to_both(lists, changes, keys_of_movement(issue), issue.quantity)
        }
        Entry::Redeem(redemption) => {
            take_from_both(
                lists,
                changes,
                keys_of_movement(redemption),
                redemption.quantity,
            )
        }
        Entry::PayIn(payment) => {
            add_to_both(lists, changes, keys_of_payment(payment), payment.amount)
        }
        Entry::PayOut(payment) => {
            take_from_both(lists, changes, keys_of_payment(payment), payment.amount)
        }
        _ => Ok(()),
    }
}

/// Adds an entry with its reply, moves what it issues or redeems, pays in or out, and notes what it requests, by the
/// number of the key that it names.
pub fn append_entry(
    lists: &mut Lists,
    changes: &mut Vec<Change>,
    entry: Entry,
    reply: Reply,
    named: Option<u64>,
) -> Result<(), AllocError>
    requires fits { (room : ℕ) × CanAppend room entry reply (content_in (listed lists.old)) }
    requires named { named ≡ number_named (history_of (content_in (listed lists.old))) entry }
    requires sound { IsSound (listed lists.old) }
    ensures added { OnOk result (content_in (listed lists.new) ≡ appended entry reply (content_in (listed lists.old))) }
    ensures sound { OnOk result (IsSound (listed lists.new)) }
    ensures before { undone changes.new.items (listed lists.new) ≡ undone changes.old.items (listed lists.old) }
{
    move_balances(lists, changes, &entry)?;
    note_request(lists, changes, &entry, named)?;
    let standing = first_standing(&entry);
    let reply = trimmed_reply(reply);
    push_entry(lists, changes, Kept { entry, reply }, standing)
}
