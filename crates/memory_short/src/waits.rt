//! The places that wait, under what they wait for, in order of how much of it.
ghost use Rattle.std.specs.Prelude.{◌≡◌, ◌&&◌, ◌<◌, ◌≤◌, ℕ, true, false, IfSome, IfNone, OnOk};
ghost use Rattle.std.specs.Ordering.{is_eq};
ghost use Rattle.desk_rules.specs.declared.history.pair.Place.{Place};
ghost use Rattle.memory_short.specs.declared.wants.Want.{Want as WantValue};
ghost use Rattle.memory_short.specs.Wants.{amount_cmp, how_many, is_waiting, want_cmp};

use crate::ordered::{drop_key, first_behind, first_key, put_key};
use crate::wants::Want;
use desk_rules::Place;
use std::alloc::{AllocError, Global};
use std::collections::{BTreeMap, BTreeSet};

/// The places that wait for something, each behind how much of it, under what that is
pub type Waits = BTreeMap<Want, BTreeSet<(u64, Place)>>;

/// Lets a place wait for so much of something.
pub fn put_wait(
    waits: &mut Waits,
    alloc: Global,
    want: &Want,
    amount: u64,
    place: Place,
) -> Result<(), AllocError>
    ensures all { (w : WantValue) (a : ℕ) (q : Place) → is_waiting waits.old w a q ≡ true → is_waiting waits.new w a q ≡ true }
    ensures there { OnOk result (is_waiting waits.new want.now amount place ≡ true) }
    ensures others { (w : WantValue) (a : ℕ) (q : Place) → (is_eq (want_cmp want.now w) && is_eq (amount_cmp (amount, place) (a, q))) ≡ false → is_waiting waits.new w a q ≡ is_waiting waits.old w a q }
{
    if let Some(places) = waits.get_mut(want) {
        return put_key(places, (amount, place));
    }
    let mut places = BTreeSet::new(alloc);
    put_key(&mut places, (amount, place))?;
    waits.insert(*want, places)?;
    Ok(())
}

/// Lets a place wait for so much of something no more. No memory is taken.
pub fn drop_wait(waits: &mut Waits, want: &Want, amount: u64, place: Place)
    ensures gone { is_waiting waits.new want.now amount place ≡ false }
    ensures all { (w : WantValue) (a : ℕ) (q : Place) → is_waiting waits.old w a q ≡ false → is_waiting waits.new w a q ≡ false }
    ensures others { (w : WantValue) (a : ℕ) (q : Place) → (is_eq (want_cmp want.now w) && is_eq (amount_cmp (amount, place) (a, q))) ≡ false → is_waiting waits.new w a q ≡ is_waiting waits.old w a q }
    ensures most { (w : WantValue) → how_many waits.new w ≤ how_many waits.old w }
    ensures fewer { is_waiting waits.old want.now amount place ≡ true → how_many waits.new want.now < how_many waits.old want.now }
{
    let Some(places) = waits.get_mut(want) else {
        return;
    };
    drop_key(places, (amount, place));
    let is_last = places.is_empty();
    if is_last {
        let _ = waits.remove(want);
    }
}

/// Who waits for the least of something, and how much that is.
pub fn first_wait(waits: &Waits, want: &Want) -> Option<(u64, Place)>
    ensures there { IfSome result (λ found. is_waiting waits.now want.now found.0 found.1 ≡ true) }
    ensures least { IfSome result (λ found. (n : ℕ) (at : Place) → is_waiting waits.now want.now n at ≡ true → found.0 ≤ n) }
    ensures none { IfNone result ((n : ℕ) (at : Place) → is_waiting waits.now want.now n at ≡ false) }
{
    first_key(waits.get(want)?)
}

/// Somebody who waits for more of something than so much, as long as there is one; else None.
pub fn wait_above(waits: &Waits, want: &Want, most: u64) -> Option<(u64, Place)>
    ensures there { IfSome result (λ found. is_waiting waits.now want.now found.0 found.1 ≡ true) }
    ensures none { IfNone result ((n : ℕ) (at : Place) → most < n → is_waiting waits.now want.now n at ≡ false) }
{
    first_behind(
        waits.get(want)?,
        (
            most,
            Place {
                day: u64::MAX,
                number: u64::MAX,
            },
        ),
    )
}
