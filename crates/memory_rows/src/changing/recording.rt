//! The balances that are recorded, by their keys.
ghost use Rattle.std.specs.Prelude.{◌≡◌, Some, IfOk, OnOk, OnErr, unwrap_or};
ghost use Rattle.std.specs.BTreeMap.{get};
ghost use Rattle.memory_rows.specs.BalanceKeys.{balance_cmp, put_back, with_record, without_nought, HasNoneBelow, IsFromLeast};
ghost use Rattle.memory_rows.specs.Shifts.{shifted, CanShift};

use crate::balance_key::BalanceKey;
use crate::changing::shift::{Shift, shifted};
use std::alloc::AllocError;
use std::collections::BTreeMap;

/// Records a balance as it is once it has changed, and gives what was recorded of it. Only a balance that was not
/// recorded wants memory.
pub fn record(
    balances: &mut BTreeMap<BalanceKey, u64>,
    key: &BalanceKey,
    shift: Shift,
) -> Result<Option<u64>, AllocError>
    requires { CanShift (unwrap_or (get balance_cmp balances.old key.now) 0) shift }
    ensures put { OnOk result (get balance_cmp balances.new ≡ with_record (get balance_cmp balances.old) key.now (Some (shifted (unwrap_or (get balance_cmp balances.old key.now) 0) shift))) }
    ensures was { IfOk result (λ was. was ≡ get balance_cmp balances.old key.now) }
    ensures err { OnErr result (get balance_cmp balances.new ≡ get balance_cmp balances.old) }
    ensures floored { HasNoneBelow (get balance_cmp balances.old) → HasNoneBelow (get balance_cmp balances.new) }
{
    is_from_least(key);
    if let Some(amount) = balances.get_mut(key) {
        let was = *amount;
        *amount = shifted(was, shift);
        return Ok(Some(was));
    }
    Ok(balances.insert(*key, shifted(0, shift))?)
}

/// Takes a balance out that is recorded as 0. No memory is taken.
pub fn drop_nought(balances: &mut BTreeMap<BalanceKey, u64>, key: &BalanceKey)
    ensures dropped { get balance_cmp balances.new ≡ without_nought (get balance_cmp balances.old) key.now }
    ensures floored { HasNoneBelow (get balance_cmp balances.old) → HasNoneBelow (get balance_cmp balances.new) }
{
    if balances.get(key).copied() == Some(0) {
        let _ = balances.remove(key);
    }
}

/// The key of a position has an ISIN, so none below the least.
fn is_from_least(key: &BalanceKey)
    ensures { IsFromLeast key.now }
{
    if let BalanceKey::Position { isin, .. } = key {
        let _ = isin.as_bytes();
    }
}

/// Lets a balance that is recorded be so much again, or takes it out. No memory is taken.
pub fn put_back(balances: &mut BTreeMap<BalanceKey, u64>, key: &BalanceKey, was: Option<u64>)
    ensures back { get balance_cmp balances.new ≡ put_back (get balance_cmp balances.old) key.now was }
    ensures floored { HasNoneBelow (get balance_cmp balances.old) → HasNoneBelow (get balance_cmp balances.new) }
{
    match was {
        Some(was) => {
            if let Some(amount) = balances.get_mut(key) {
                *amount = was;
            }
        }
        None => {
            let _ = balances.remove(key);
        }
    }
}
