//! The numbers that came at each key, one behind another.
ghost use Rattle.std.specs.Prelude.{◌≡◌, ◌++◌, ◌∷◌, [], if◌then◌else◌, slice_get, OnOk, OnErr};
ghost use Rattle.std.specs.Ordering.{is_eq};
ghost use Rattle.memory_register.specs.NumbersAt.{numbers_at, without_last};

use std::alloc::AllocError;
use std::collections::BTreeMap;

/// The numbers that came at a key.
pub fn numbers_at<'a, K: Ord + Copy>(numbers: &'a BTreeMap<K, Vec<u64>>, key: &K) -> &'a [u64]
    ensures { result.now ≡ numbers_at K.cmp numbers.now key.now }
{
    match numbers.get(key) {
        Some(found) => found.as_slice(),
        None => &[],
    }
}

/// The number behind so many others.
pub fn number_behind(numbers: &[u64], before: u64) -> Option<u64>
    ensures { result ≡ slice_get numbers.now before }
{
    numbers.get(before as usize).copied()
}

/// Puts a number behind those of a key.
pub fn push_number<K: Ord + Copy>(
    numbers: &mut BTreeMap<K, Vec<u64>>,
    key: K,
    number: u64,
) -> Result<(), AllocError>
    ensures pushed { OnOk result ((q : K) → numbers_at K.cmp numbers.new q ≡ (if is_eq (K.cmp key q) then numbers_at K.cmp numbers.old q ++ number ∷ [] else numbers_at K.cmp numbers.old q)) }
    ensures err { OnErr result ((q : K) → numbers_at K.cmp numbers.new q ≡ numbers_at K.cmp numbers.old q) }
{
    numbers.entry(key)?.or_default().push(number)?;
    Ok(())
}

/// Takes off the last number of a key. No memory is taken.
pub fn pop_number<K: Ord + Copy>(numbers: &mut BTreeMap<K, Vec<u64>>, key: &K)
    ensures { (q : K) → numbers_at K.cmp numbers.new q ≡ (if is_eq (K.cmp key.now q) then without_last (numbers_at K.cmp numbers.old q) else numbers_at K.cmp numbers.old q) }
{
    if let Some(found) = numbers.get_mut(key) {
        let _ = found.pop();
    }
}
