//! Where the sent messages are found: by the participants that they were sent to, and by what they confirm.
ghost use Rattle.std.specs.Prelude.{◌≡◌, ◌+◌, ◌++◌, ◌∷◌, [], List, length, OnOk, OnErr};
ghost use Rattle.memory_register.specs.declared.sent.heading.Heading.{Heading as HeadingValue};
ghost use Rattle.memory_register.specs.Messages.{AreMessagesOf};

use crate::sent::addressed::Addressed;
use crate::sent::confirmations::Confirmations;
use crate::sent::heading::Heading;
use std::alloc::{AllocError, Global};

/// The numbers of the sent messages, by participant and by what they confirm.
#[derive(Drop)]
pub struct Messages {
    pub addressed: Addressed,
    pub confirmations: Confirmations,
}

impl Messages {
    /// No messages.
    pub fn new(alloc: Global) -> Messages
        ensures { AreMessagesOf result [] }
    {
        Messages {
            addressed: Addressed::new(alloc),
            confirmations: Confirmations::new(alloc),
        }
    }

    /// Notes a message, which has this number among all.
    pub fn note(&mut self, heading: &Heading, number: u64) -> Result<(), AllocError>
        ensures noted { (headings : List HeadingValue) → AreMessagesOf self.old headings → number ≡ length headings + 1
            → OnOk result (AreMessagesOf self.new (headings ++ heading.now ∷ [])) }
        ensures err { (headings : List HeadingValue) → AreMessagesOf self.old headings → number ≡ length headings + 1
            → OnErr result (AreMessagesOf self.new headings) }
    {
        self.confirmations.note(heading, number)?;
        let noted = self.addressed.note(heading, number);
        if noted.is_err() {
            self.confirmations.forget(heading, number);
        }
        noted
    }

    /// Forgets the last message, which has this number among all. No memory is taken.
    pub fn forget(&mut self, heading: &Heading, number: u64)
        ensures { (headings : List HeadingValue) → AreMessagesOf self.old (headings ++ heading.now ∷ []) → number ≡ length headings + 1
            → AreMessagesOf self.new headings }
    {
        self.addressed.forget(heading);
        self.confirmations.forget(heading, number);
    }
}
