//! The numbers that stand at each key, in order.
ghost use Rattle.std.specs.Prelude.{◌≡◌, ◌<◌, ◌≤◌, ℕ, true, false, IfSome, IfNone};
ghost use Rattle.std.specs.BTreeSet.{contains};
ghost use Rattle.memory_register.specs.NumbersByKey.{numbered_cmp};

use memory_short::ordered::first_from;
use std::cmp::Ordering;
use std::collections::BTreeSet;

/// The least number at a key that is not below another.
pub fn next_number<K: Ord + Copy>(numbers: &BTreeSet<(K, u64)>, key: K, from: u64) -> Option<u64>
    ensures above { IfSome result (λ n. from ≤ n) }
    ensures there { IfSome result (λ n. contains (numbered_cmp K.cmp) numbers.now (key, n) ≡ true) }
    ensures least { IfSome result (λ n. (m : ℕ) → from ≤ m → m < n → contains (numbered_cmp K.cmp) numbers.now (key, m) ≡ false) }
    ensures none { IfNone result ((m : ℕ) → from ≤ m → contains (numbered_cmp K.cmp) numbers.now (key, m) ≡ false) }
{
    let (next, number) = first_from(numbers, (key, from))?;
    match next.cmp(&key) {
        Ordering::Equal => Some(number),
        Ordering::Less | Ordering::Greater => None,
    }
}
