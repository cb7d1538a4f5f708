//! The least number of an unmatched instruction with each key: the first walk over a register.
ghost use Rattle.std.specs.Prelude.{◌≡◌, ◌≢◌, true, Err, OnOk};
ghost use Rattle.std.specs.Bool.{then_some};
ghost use Rattle.std.specs.BTreeMap.{get, IsEmpty};
ghost use Rattle.std.specs.Option.{option_or};
ghost use Rattle.std.specs.Ordering.{is_eq};
ghost use Rattle.desk_register.specs.View.{IfTrusted, IsRead};
ghost use Rattle.desk_register.specs.Ends.{at_register};
ghost use Rattle.desk_report.specs.FirstNumbers.{AreFirst, IsNoted};

use crate::unmatched::near::{NearKey, key_of};
use crate::unmatched::reading::unmatched;
use desk_msg::SinkFault;
use desk_register::{Register, Stage, WalkFault};
use std::alloc::{AllocError, Global};
use std::collections::BTreeMap;

/// Puts a number at a key that has none.
fn put_first<K: Ord + Copy>(
    numbers: &mut BTreeMap<K, u64>,
    key: K,
    number: u64,
) -> Result<(), AllocError>
    ensures { OnOk result ((q : K) → get K.cmp numbers.new q ≡ option_or (get K.cmp numbers.old q) (then_some (is_eq (K.cmp key q)) number)) }
{
    numbers.entry(key)?.or_insert(number);
    Ok(())
}

/// The number at a key.
pub fn number_at<K: Ord + Copy>(numbers: &BTreeMap<K, u64>, key: &K) -> Option<u64>
    ensures { result ≡ get K.cmp numbers.now key.now }
{
    numbers.get(key).copied()
}

/// Puts a number at the key of its instruction, where that is unmatched and the first with the key.
fn note_number<R: Register>(
    alloc: Global,
    register: &mut R,
    number: u64,
    numbers: &mut BTreeMap<NearKey, u64>,
) -> Result<(), WalkFault>
    requires stage { (R.view register.old).stage ≡ Stage.Idle }
    ensures noted { IfTrusted (R.view register.old) (R.view register.new) (OnOk result (IsNoted (R.view register.old).content number numbers.old numbers.new)) }
    ensures read { IsRead (at_register result) (R.view register.old) (R.view register.new) }
    ensures in_memory { R.in_memory ≡ true → result ≢ Err WalkFault.Memory }
    ensures unwritten { result ≢ Err (WalkFault.Sink SinkFault.Write) }
{
    let Some(one) = unmatched(alloc, register, number)? else {
        return Ok(());
    };
    match put_first(numbers, key_of(&one), number) {
        Ok(()) => Ok(()),
        Err(_) => Err(WalkFault::Sink(SinkFault::Memory)),
    }
}

/// Puts the least number of an unmatched instruction with each key into a map that is empty, of the entries up to a number.
///
/// Sink: memory was wanting for the map. Memory and Storage: a call of the register failed.
pub fn note_first<R: Register>(
    alloc: Global,
    register: &mut R,
    count: u64,
    numbers: &mut BTreeMap<NearKey, u64>,
) -> Result<(), WalkFault>
    requires stage { (R.view register.old).stage ≡ Stage.Idle }
    requires empty { IsEmpty numbers.old }
    ensures first { IfTrusted (R.view register.old) (R.view register.new) (OnOk result (AreFirst numbers.new (R.view register.old).content count)) }
    ensures read { IsRead (at_register result) (R.view register.old) (R.view register.new) }
    ensures in_memory { R.in_memory ≡ true → result ≢ Err WalkFault.Memory }
    ensures unwritten { result ≢ Err (WalkFault.Sink SinkFault.Write) }
{
    'numbers: for before in 0..count {
        note_number(alloc, register, before + 1, numbers)?;
    }
    Ok(())
}
