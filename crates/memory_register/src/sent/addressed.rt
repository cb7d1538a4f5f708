//! The sent messages by the participants that they were sent to.
ghost use Rattle.std.specs.Prelude.{◌≡◌, ◌+◌, ◌++◌, ◌∷◌, [], List, length, OnOk, OnErr};
ghost use Rattle.memory_register.specs.declared.sent.heading.Heading.{Heading as HeadingValue};
ghost use Rattle.memory_register.specs.FirstNumbers.{nth_number};
ghost use Rattle.memory_register.specs.Addressed.{AreAddressed, is_to};

use crate::collections::numbers_at::{number_behind, numbers_at, pop_number, push_number};
use crate::sent::heading::Heading;
use desk_codes::Bic;
use std::alloc::{AllocError, Global};
use std::collections::BTreeMap;

/// The numbers, among all messages that were sent, of those that were sent to each participant, in their order.
#[derive(Drop)]
pub struct Addressed {
    pub numbers: BTreeMap<Bic, Vec<u64>>,
}

impl Addressed {
    /// No messages.
    pub fn new(alloc: Global) -> Addressed
        ensures { AreAddressed result [] }
    {
        Addressed {
            numbers: BTreeMap::new(alloc),
        }
    }

    /// The number among all of the message of this number, counted from 1, among those of a participant.
    pub fn number(&self, bic: &Bic, number: u64) -> Option<u64>
        ensures { (headings : List HeadingValue) → AreAddressed self.now headings → result ≡ nth_number (is_to bic.now) number headings }
    {
        let before = number.checked_sub(1)?;
        number_behind(numbers_at(&self.numbers, bic), before)
    }

    /// Notes a message, which has this number among all.
    pub fn note(&mut self, heading: &Heading, number: u64) -> Result<(), AllocError>
        ensures noted { (headings : List HeadingValue) → AreAddressed self.old headings → number ≡ length headings + 1
            → OnOk result (AreAddressed self.new (headings ++ heading.now ∷ [])) }
        ensures err { (headings : List HeadingValue) → AreAddressed self.old headings → OnErr result (AreAddressed self.new headings) }
    {
        push_number(&mut self.numbers, heading.bic, number)
    }

    /// Forgets the last message. No memory is taken.
    pub fn forget(&mut self, heading: &Heading)
        ensures { (headings : List HeadingValue) → AreAddressed self.old (headings ++ heading.now ∷ []) → AreAddressed self.new headings }
    {
        pop_number(&mut self.numbers, &heading.bic);
    }
}
