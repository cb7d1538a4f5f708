//! What is known of the entries by a key: their numbers, and what they register.
ghost use Rattle.std.specs.Prelude.{◌≡◌, ◌+◌, ◌++◌, ◌∷◌, [], List, length, OnOk, OnErr};
ghost use Rattle.desk_rules.specs.declared.history.entry.Entry.{Entry as EntryValue};
ghost use Rattle.memory_register.specs.Known.{AreKnown};

use crate::entries::keys::Keys;
use crate::entries::registered::Registered;
use desk_rules::Entry;
use std::alloc::{AllocError, Global};

/// The numbers of the entries by their keys, and what they register.
#[derive(Drop)]
pub struct Known {
    pub keys: Keys,
    pub registered: Registered,
}

impl Known {
    /// Of no entries.
    pub fn new(alloc: Global) -> Known
        ensures { AreKnown result [] }
    {
        Known {
            keys: Keys::new(alloc),
            registered: Registered::new(alloc),
        }
    }

    /// Notes an entry, which has this number.
    pub fn note(&mut self, entry: &Entry, number: u64) -> Result<(), AllocError>
        ensures noted { (history : List EntryValue) → AreKnown self.old history → number ≡ length history + 1
            → OnOk result (AreKnown self.new (history ++ entry.now ∷ [])) }
        ensures err { (history : List EntryValue) → AreKnown self.old history → number ≡ length history + 1 → OnErr result (AreKnown self.new history) }
    {
        self.registered.note(entry, number)?;
        let noted = self.keys.note(entry, number);
        if noted.is_err() {
            self.registered.forget(entry, number);
        }
        noted
    }

    /// Forgets the last entry, which has this number. No memory is taken.
    pub fn forget(&mut self, entry: &Entry, number: u64)
        ensures { (history : List EntryValue) → AreKnown self.old (history ++ entry.now ∷ []) → number ≡ length history + 1
            → AreKnown self.new history }
    {
        self.keys.forget(entry, number);
        self.registered.forget(entry, number);
    }
}
