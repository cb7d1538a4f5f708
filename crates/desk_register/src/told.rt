//! A register that is told what is known of a pair.
ghost use Rattle.std.specs.Prelude.{◌≡◌, IfOk, OnOk};
ghost use Rattle.desk_codes.specs.Number.{number_of};
ghost use Rattle.desk_msg.specs.MessageType.{is_delivery};
ghost use Rattle.desk_register.specs.declared.register.Stage.TheVariants.{Begun};
ghost use Rattle.desk_register.specs.View.{IfTrusted, IsChange};
ghost use Rattle.desk_register.specs.Changes.{CanCancelPair, CanSettle, TriesPair, delivering_number, delivering_side, receiving_number, receiving_side};
ghost use Rattle.desk_register.specs.Told.{IsKnownAt, waiting};

use crate::outcome::Outcome;
use crate::register::{Fault, Register};
use desk_codes::Day;
use desk_rules::{Instructed, Lack};
use std::alloc::Global;

/// A pair, with the numbers of its two instructions and what they say.
#[derive(Clone, Copy)]
pub struct KnownPair {
    /// Of the earlier instruction
    pub mate: u64,
    /// Of the later one, which is the pair's
    pub number: u64,
    pub earlier: Instructed,
    pub later: Instructed,
}

impl KnownPair {
    /// Whether the earlier instruction delivers; else the later one does.
    fn earlier_delivers(&self) -> bool
        ensures { result ≡ is_delivery self.now.earlier.instruction.mt }
    {
        self.earlier.instruction.mt.is_delivery()
    }

    /// The instruction that delivers.
    pub fn deliverer(&self) -> &Instructed
        ensures { result.now ≡ delivering_side self.now.earlier self.now.later }
    {
        if self.earlier_delivers() {
            return &self.earlier;
        }
        &self.later
    }

    /// The instruction that receives.
    pub fn receiver(&self) -> &Instructed
        ensures { result.now ≡ receiving_side self.now.earlier self.now.later }
    {
        if self.earlier_delivers() {
            return &self.later;
        }
        &self.earlier
    }

    /// The number of the deliverer's instruction, and that of the receiver's.
    pub fn numbers(&self) -> (u64, u64)
        ensures deliverer { result.0 ≡ delivering_number self.now.earlier self.now.mate self.now.number }
        ensures receiver { result.1 ≡ receiving_number self.now.earlier self.now.mate self.now.number }
    {
        if self.earlier_delivers() {
            return (self.mate, self.number);
        }
        (self.number, self.mate)
    }
}

/// A register that is told what another, which holds the same, knows of a pair: it looks nothing of that up.
pub trait ToldRegister: Register {
    /// Lets both instructions of a matched pair, by their numbers, wait for what it lacks. They keep their mates.
    fn wait_for(&mut self, alloc: Global, earlier: u64, later: u64, lack: Lack) -> Result<(), Fault>
        requires stage { (Self.view self.old).stage ≡ Begun }
        requires fits { IfTrusted (Self.view self.old) (Self.view self.old) (CanCancelPair (Self.view self.old).content earlier later) }
        ensures waits { IfTrusted (Self.view self.old) (Self.view self.new) (OnOk result ((Self.view self.new).content ≡ waiting earlier later lack (Self.view self.old).content)) }
        ensures change { IsChange result (Self.view self.old) (Self.view self.new) };

    /// Tries a matched pair as `settle_pair` does.
    fn settle_told(&mut self, alloc: Global, pair: &KnownPair, day: Day) -> Result<Outcome, Fault>
        requires stage { (Self.view self.old).stage ≡ Begun }
        requires fits { IfTrusted (Self.view self.old) (Self.view self.old) (CanSettle (Self.view self.old).content pair.now.number (number_of day)) }
        requires known { IfTrusted (Self.view self.old) (Self.view self.old) (IsKnownAt (Self.view self.old).content pair.now.number pair.now) }
        ensures settled { IfTrusted (Self.view self.old) (Self.view self.new) (IfOk result (λ outcome. TriesPair (Self.view self.old).content pair.now.number outcome (Self.view self.new).content)) }
        ensures change { IsChange result (Self.view self.old) (Self.view self.new) };
}
