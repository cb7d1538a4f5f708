//! The number of the first entry that has each key.
ghost use Rattle.std.specs.Prelude.{◌≡◌, if◌then◌else◌, OnOk, OnErr};
ghost use Rattle.std.specs.BTreeMap.{get};
ghost use Rattle.std.specs.Ordering.{is_eq};
ghost use Rattle.memory_register.specs.FirstNumbers.{number_if, or_number, without};

use std::alloc::AllocError;
use std::collections::BTreeMap;

/// Puts a number at a key that has none.
pub fn put_first<K: Ord + Copy>(
    numbers: &mut BTreeMap<K, u64>,
    key: K,
    number: u64,
) -> Result<(), AllocError>
    ensures put { OnOk result ((q : K) → get K.cmp numbers.new q ≡ or_number (get K.cmp numbers.old q) (number_if (is_eq (K.cmp key q)) number)) }
    ensures err { OnErr result ((q : K) → get K.cmp numbers.new q ≡ get K.cmp numbers.old q) }
{
    numbers.entry(key)?.or_insert(number);
    Ok(())
}

/// Takes a key's number away, where it is this one.
pub fn take_number<K: Ord + Copy>(numbers: &mut BTreeMap<K, u64>, key: K, number: u64)
    ensures { (q : K) → get K.cmp numbers.new q ≡ (if is_eq (K.cmp key q) then without number (get K.cmp numbers.old q) else get K.cmp numbers.old q) }
{
    if numbers.get(&key).copied() == Some(number) {
        let _ = numbers.remove(&key);
    }
}
