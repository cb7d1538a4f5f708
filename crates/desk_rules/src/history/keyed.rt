//! An entry's key: who sent it, and its reference.
ghost use Rattle.std.specs.Prelude.{◌≡◌};
ghost use Rattle.desk_rules.specs.History.{has_key, reference_of, same_sender, sender_of};

use crate::history::entry::{Entry, Sender};
use desk_codes::Reference;

/// Whether two senders are one.
fn same_sender(a: &Sender, b: &Sender) -> bool
    ensures { result ≡ same_sender a.now b.now }
{
    match (a, b) {
        (Sender::Operator, Sender::Operator) => true,
        (Sender::Participant(a), Sender::Participant(b)) => a == b,
        (Sender::Operator, Sender::Participant(_)) | (Sender::Participant(_), Sender::Operator) =>
            false,
    }
}

impl Entry {
    /// Who sent it.
    pub fn sender(&self) -> Sender
        ensures { result ≡ sender_of self.now }
    {
        match self {
            Entry::Instruct { sender, .. } | Entry::Cancel { sender, .. } => Sender::Participant(
                *sender,
            ),
            _ => Sender::Operator,
        }
    }

    /// Its reference.
    pub fn reference(&self) -> Reference
        ensures { result ≡ reference_of self.now }
    {
        match self {
            Entry::Participant { reference, .. }
            | Entry::Account { reference, .. }
            | Entry::Security { reference, .. }
            | Entry::Run { reference, .. } => *reference,
            Entry::Issue(movement) | Entry::Redeem(movement) => movement.reference,
            Entry::PayIn(payment) | Entry::PayOut(payment) => payment.reference,
            Entry::Instruct { instruction, .. } => instruction.reference,
            Entry::Cancel { order, .. } => order.reference,
        }
    }

    /// Whether this sender sent it under this reference.
    pub fn has_key(&self, sender: &Sender, reference: &Reference) -> bool
        ensures { result ≡ has_key sender.now reference.now self.now }
    {
        same_sender(&self.sender(), sender) && self.reference() == *reference
    }
}
