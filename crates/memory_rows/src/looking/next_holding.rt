//! The holdings of an account, in the order of the ISINs.
ghost use Rattle.std.specs.Prelude.{◌≡◌, ◌<◌, ◌≤◌, ◌-◌, None, IfSome, length, option_map};
ghost use Rattle.std.proofs.Common.{get_or};
ghost use Rattle.memory_rows.specs.BalanceKeys.{least_isin};
ghost use Rattle.memory_rows.specs.Lists.{Listed, content_in, listed};
ghost use Rattle.desk_register.specs.Looked.{IsHoldingAfter};
ghost use Rattle.memory_rows.specs.Walk.{AreNextHoldings, IsHeldAbove, Walks, start_of};

use crate::balance_key::BalanceKey;
use crate::lists::Lists;
use desk_codes::{AccountId, Isin};
use desk_register::{Holding, is_above};
use std::collections::btree_map::Range;
use std::ops::Bound;

/// The least of all ISINs.
fn least_isin() -> Isin
    ensures { result ≡ least_isin }
{
    Isin::parse(b"AA0000000006").unwrap()
}

/// Where to begin, to find what an account holds above a security, or above none.
fn start_of(account: &AccountId, above: &Option<Isin>) -> Bound<BalanceKey>
    ensures { result ≡ start_of account.now above.now }
{
    match above {
        Some(isin) => Bound::Excluded(BalanceKey::Position {
            account: *account,
            isin: *isin,
        }),
        None => Bound::Included(BalanceKey::Position {
            account: *account,
            isin: least_isin(),
        }),
    }
}

/// So much of a security as a holding, where it is some, and the security is above one, or above none.
fn held_above(quantity: u64, isin: &Isin, above: &Option<Isin>) -> Option<Holding>
    ensures { IsHeldAbove quantity above.now isin.now result }
{
    if quantity == 0 {
        return None;
    }
    if is_above(above, isin) {
        return Some(Holding {
            isin: *isin,
            quantity,
        });
    }
    None
}

/// A walk over the balances, from where the holdings of an account above a security, or above none, begin.
fn walk_from<'a>(
    lists: &'a Lists,
    account: &AccountId,
    above: &Option<Isin>,
) -> Range<'a, BalanceKey, u64>
    ensures { Walks (listed lists.now) account.now above.now result }
{
    lists
        .balances
        .range((start_of(account, above), Bound::Unbounded))
}

/// The first holding that a walk comes to; the walk then stands behind it.
fn next_on(
    walk: &mut Range<'_, BalanceKey, u64>,
    account: &AccountId,
    above: &Option<Isin>,
) -> Option<Holding>
    ensures first { (l : Listed) → Walks l account.now above.now walk.old → IsHoldingAfter (content_in l) account.now above.now result }
    ensures behind { (l : Listed) → Walks l account.now above.now walk.old → IfSome result (λ holding. Walks l account.now (Some holding.isin) walk.new) }
{
    while let Some((key, amount)) = walk.next() {
        let BalanceKey::Position {
            account: holder,
            isin,
        } = key
        else {
            return None;
        };
        if holder != account {
            return None;
        }
        if let Some(holding) = held_above(*amount, isin, above) {
            return Some(holding);
        }
    }
    None
}

/// The security of a holding, where there is one.
fn isin_of(found: &Option<Holding>) -> Option<Isin>
    ensures { result ≡ option_map (λ holding. holding.isin) found.now }
{
    match found {
        Some(holding) => Some(holding.isin),
        None => None,
    }
}

/// Puts the first holding of an account above a security, or above none, into the first row, and into each further row the
/// first above that of the row before, in the order of the ISINs, as far as there are rows and holdings. Gives how many rows
/// were written; the last is None where no more is held.
pub fn holdings_after(
    lists: &Lists,
    account: &AccountId,
    above: &Option<Isin>,
    rows: &mut [Option<Holding>],
) -> usize
    requires { 0 < length rows.old }
    ensures first { IsHoldingAfter (content_in (listed lists.now)) account.now above.now (get_or rows.new 0 None) }
    ensures further { AreNextHoldings (content_in (listed lists.now)) account.now rows.new result }
    ensures some { 0 < result }
    ensures most { result ≤ length rows.new }
    ensures full { result < length rows.new → get_or rows.new (result - 1) None ≡ None }
{
    let mut walk = walk_from(lists, account, above);
    let mut found = next_on(&mut walk, account, above);
    rows[0] = found;
    for count in 1..rows.len() {
        let last = isin_of(&found);
        if last.is_none() {
            return count;
        }
        found = next_on(&mut walk, account, &last);
        rows[count] = found;
    }
    rows.len()
}
