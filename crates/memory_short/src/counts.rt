//! Counts by their keys, in order.
ghost use Rattle.std.specs.Prelude.{◌≡◌, true, false, is_some, IfSome, IfNone, OnOk};
ghost use Rattle.std.specs.BTreeMap.{get};
ghost use Rattle.std.specs.BTreeMap.Range.{IsLeBy, IsLtBy};
ghost use Rattle.std.specs.Ordering.{is_eq};

use std::alloc::AllocError;
use std::collections::BTreeMap;
use std::ops::Bound;

/// Begins to count down at a key.
pub fn begin_count<K: Ord + Copy + Drop>(
    counts: &mut BTreeMap<K, u64>,
    key: K,
    count: u64,
) -> Result<(), AllocError>
    ensures all { (q : K) → is_some (get K.cmp counts.old q) ≡ true → is_some (get K.cmp counts.new q) ≡ true }
    ensures there { OnOk result (is_some (get K.cmp counts.new key) ≡ true) }
    ensures others { (q : K) → is_eq (K.cmp key q) ≡ false → is_some (get K.cmp counts.new q) ≡ is_some (get K.cmp counts.old q) }
{
    counts.insert(key, count)?;
    Ok(())
}

/// Counts no more at a key; whether there was a count.
pub fn end_count<K: Ord + Copy + Drop>(counts: &mut BTreeMap<K, u64>, key: K) -> bool
    ensures was { result ≡ is_some (get K.cmp counts.old key) }
    ensures gone { is_some (get K.cmp counts.new key) ≡ false }
    ensures others { (q : K) → is_eq (K.cmp key q) ≡ false → is_some (get K.cmp counts.new q) ≡ is_some (get K.cmp counts.old q) }
{
    counts.remove(&key).is_some()
}

/// The count at a key, which is one less from then on, unless it is 0; None where there is none.
pub fn count_down<K: Ord + Copy>(counts: &mut BTreeMap<K, u64>, key: K) -> Option<u64>
    ensures was { is_some result ≡ is_some (get K.cmp counts.old key) }
    ensures same { (q : K) → is_some (get K.cmp counts.new q) ≡ is_some (get K.cmp counts.old q) }
{
    let count = counts.get_mut(&key)?;
    let left = *count;
    if left > 0 {
        *count = left - 1;
    }
    Some(left)
}

/// The first key behind another that has a count.
pub fn first_behind<K: Ord + Copy>(counts: &BTreeMap<K, u64>, start: K) -> Option<K>
    ensures behind { IfSome result (λ k. IsLtBy K.cmp start k) }
    ensures there { IfSome result (λ k. is_some (get K.cmp counts.now k) ≡ true) }
    ensures least { IfSome result (λ k. (q : K) → IsLtBy K.cmp start q → is_some (get K.cmp counts.now q) ≡ true → IsLeBy K.cmp k q) }
    ensures none { IfNone result ((q : K) → IsLtBy K.cmp start q → is_some (get K.cmp counts.now q) ≡ false) }
{
    match counts
        .range((Bound::Excluded(start), Bound::Unbounded))
        .next()
    {
        Some((key, _)) => Some(*key),
        None => None,
    }
}
