//! The places of pairs by what they wait for, and how much of it.
ghost use Rattle.std.specs.Prelude.{◌≡◌, ◌<◌, false, true, ℕ, OnOk};
ghost use Rattle.memory_rows.specs.Transfers.{moved_by};
ghost use Rattle.memory_short.specs.declared.wants.Want.{Want as WantValue};
ghost use Rattle.memory_short.specs.Wants.{AreWaiting, FewerWait, KeepsOtherWaits, IsWantOf, NoneWaits, how_many, is_waiting};

use crate::waits::{Waits, drop_wait, first_wait, put_wait};
use crate::wants::{Want, less_given, more_given, more_had};
use desk_register::KnownPair;
use desk_rules::{Lack, Place};
use std::alloc::{AllocError, Global};

/// Lets the place of a pair wait for what would end a lack.
pub fn put_wants(
    waits: &mut Waits,
    alloc: Global,
    pair: &KnownPair,
    lack: Lack,
    place: Place,
) -> Result<(), AllocError>
    ensures others { KeepsOtherWaits place waits.old waits.new }
    ensures waiting { OnOk result (AreWaiting waits.new (moved_by pair.now) lack place) }
    ensures only { (want : WantValue) (amount : ℕ) → is_waiting waits.new want amount place ≡ true → is_waiting waits.old want amount place ≡ false → IsWantOf (moved_by pair.now) lack want amount }
{
    match lack {
        Lack::Securities => {
            let more = more_given(pair);
            put_wait(waits, alloc, &more, pair.later.instruction.quantity, place)
        }
        Lack::Money => {
            let less = less_given(pair);
            put_wait(waits, alloc, &less, pair.later.instruction.quantity, place)?;
            match pair.later.instruction.cash {
                Some(asked) => {
                    let more = more_had(pair, asked.ccy);
                    put_wait(waits, alloc, &more, asked.amount, place)
                }
                None => Ok(()),
            }
        }
    }
}

/// Takes out all that the place of a pair waits for by a lack. No memory is taken.
pub fn drop_wants(waits: &mut Waits, pair: &KnownPair, lack: Lack, place: Place)
    ensures others { KeepsOtherWaits place waits.old waits.new }
    ensures gone { (want : WantValue) (amount : ℕ) → IsWantOf (moved_by pair.now) lack want amount → is_waiting waits.new want amount place ≡ false }
    ensures fewer { FewerWait waits.old waits.new }
    ensures less { (want : WantValue) (amount : ℕ) → IsWantOf (moved_by pair.now) lack want amount → is_waiting waits.old want amount place ≡ true → how_many waits.new want < how_many waits.old want }
{
    match lack {
        Lack::Securities => {
            let more = more_given(pair);
            drop_wait(waits, &more, pair.later.instruction.quantity, place);
        }
        Lack::Money => {
            let less = less_given(pair);
            drop_wait(waits, &less, pair.later.instruction.quantity, place);
            if let Some(asked) = pair.later.instruction.cash {
                let more = more_had(pair, asked.ccy);
                drop_wait(waits, &more, asked.amount, place);
            }
        }
    }
}

/// Whether a place waits for something.
pub fn is_waited_for(waits: &Waits, want: &Want) -> bool
    ensures { result ≡ false → NoneWaits waits.now want.now }
{
    first_wait(waits, want).is_some()
}
