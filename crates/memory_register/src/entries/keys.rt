//! Where each key stands: the number of the first entry with it.
ghost use Rattle.std.specs.Prelude.{◌≡◌, ◌+◌, ◌++◌, ◌∷◌, [], List, length, OnOk, OnErr};
ghost use Rattle.desk_rules.specs.declared.history.entry.Entry.{Entry as EntryValue};
ghost use Rattle.desk_rules.specs.History.{number_of_key};
ghost use Rattle.memory_rows.specs.Named.{number_named};
ghost use Rattle.memory_register.specs.Keys.{AreKeysOf, command_key, message_key};

use crate::collections::tail_number::tail_number;
use crate::entries::first_numbers::{put_first, take_number};
use desk_codes::{Bic, Reference};
use desk_rules::{Entry, Sender};
use std::alloc::{AllocError, Global};
use std::collections::BTreeMap;

/// The numbers of entries by their keys: the operator's by their references, participants' by sender and reference. Before
/// each key stands the tail number of its reference, so that most keys are told apart by one comparison of numbers.
#[derive(Drop)]
pub struct Keys {
    pub commands: BTreeMap<(u64, Reference), u64>,
    pub messages: BTreeMap<(u64, (Bic, Reference)), u64>,
}

/// A command's key, behind its tail number.
fn command_key(reference: &Reference) -> (u64, Reference)
    ensures { result ≡ command_key reference.now }
{
    (tail_number(reference.as_bytes()), *reference)
}

/// A message's key, behind its tail number.
fn message_key(bic: &Bic, reference: &Reference) -> (u64, (Bic, Reference))
    ensures { result ≡ message_key bic.now reference.now }
{
    (tail_number(reference.as_bytes()), (*bic, *reference))
}

impl Keys {
    /// No keys.
    pub fn new(alloc: Global) -> Keys
        ensures { AreKeysOf result [] }
    {
        Keys {
            commands: BTreeMap::new(alloc),
            messages: BTreeMap::new(alloc),
        }
    }

    /// The number of the first entry with a key.
    pub fn number(&self, sender: &Sender, reference: &Reference) -> Option<u64>
        ensures { (history : List EntryValue) → AreKeysOf self.now history → result ≡ number_of_key history sender.now reference.now }
    {
        match sender {
            Sender::Operator => self.commands.get(&command_key(reference)).copied(),
            Sender::Participant(bic) => self.messages.get(&message_key(bic, reference)).copied(),
        }
    }

    /// The number of the entry with the key that a cancellation names.
    pub fn number_named(&self, entry: &Entry) -> Option<u64>
        ensures { (history : List EntryValue) → AreKeysOf self.now history → result ≡ number_named history entry.now }
    {
        match entry {
            Entry::Cancel { sender, order } => {
                self.number(&Sender::Participant(*sender), &order.previous)
            }
            _ => None,
        }
    }

    /// Notes an entry, which has this number.
    pub fn note(&mut self, entry: &Entry, number: u64) -> Result<(), AllocError>
        ensures noted { (history : List EntryValue) → AreKeysOf self.old history → number ≡ length history + 1
            → OnOk result (AreKeysOf self.new (history ++ entry.now ∷ [])) }
        ensures err { (history : List EntryValue) → AreKeysOf self.old history → OnErr result (AreKeysOf self.new history) }
    {
        let reference = entry.reference();
        match entry.sender() {
            Sender::Operator => put_first(&mut self.commands, command_key(&reference), number),
            Sender::Participant(bic) => {
                put_first(&mut self.messages, message_key(&bic, &reference), number)
            }
        }
    }

    /// Forgets the last entry, which has this number. No memory is taken.
    pub fn forget(&mut self, entry: &Entry, number: u64)
        ensures { (history : List EntryValue) → AreKeysOf self.old (history ++ entry.now ∷ []) → number ≡ length history + 1
            → AreKeysOf self.new history }
    {
        let reference = entry.reference();
        match entry.sender() {
            Sender::Operator => {
                take_number(&mut self.commands, command_key(&reference), number);
            }
            Sender::Participant(bic) => {
                take_number(&mut self.messages, message_key(&bic, &reference), number);
            }
        }
    }
}
