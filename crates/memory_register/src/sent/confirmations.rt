//! The sent messages that confirm an instruction.
ghost use Rattle.std.specs.Prelude.{◌≡◌, ◌+◌, ◌++◌, ◌∷◌, [], List, length, OnOk, OnErr};
ghost use Rattle.memory_register.specs.declared.sent.heading.Heading.{Heading as HeadingValue};
ghost use Rattle.memory_register.specs.Confirmations.{AreConfirmations, confirms};
ghost use Rattle.memory_register.specs.FirstNumbers.{first_number};

use crate::entries::first_numbers::{put_first, take_number};
use crate::sent::heading::Heading;
use std::alloc::{AllocError, Global};
use std::collections::BTreeMap;

/// The number, among all that were sent, of the first message that confirms each instruction.
#[derive(Drop)]
pub struct Confirmations {
    pub numbers: BTreeMap<u64, u64>,
}

impl Confirmations {
    /// No confirmations.
    pub fn new(alloc: Global) -> Confirmations
        ensures { AreConfirmations result [] }
    {
        Confirmations {
            numbers: BTreeMap::new(alloc),
        }
    }

    /// The number among all of the first message that confirms an instruction.
    pub fn number(&self, about: u64) -> Option<u64>
        ensures { (headings : List HeadingValue) → AreConfirmations self.now headings → result ≡ first_number (confirms about) headings }
    {
        self.numbers.get(&about).copied()
    }

    /// Notes a message, which has this number among all.
    pub fn note(&mut self, heading: &Heading, number: u64) -> Result<(), AllocError>
        ensures noted { (headings : List HeadingValue) → AreConfirmations self.old headings → number ≡ length headings + 1
            → OnOk result (AreConfirmations self.new (headings ++ heading.now ∷ [])) }
        ensures err { (headings : List HeadingValue) → AreConfirmations self.old headings → OnErr result (AreConfirmations self.new headings) }
    {
        if heading.is_confirmation() {
            return put_first(&mut self.numbers, heading.about, number);
        }
        Ok(())
    }

    /// Forgets the last message, which has this number among all. No memory is taken.
    pub fn forget(&mut self, heading: &Heading, number: u64)
        ensures { (headings : List HeadingValue) → AreConfirmations self.old (headings ++ heading.now ∷ []) → number ≡ length headings + 1
            → AreConfirmations self.new headings }
    {
        if heading.is_confirmation() {
            take_number(&mut self.numbers, heading.about, number);
        }
    }
}
