//! What an entry instructs. (In a file of its own: the definitions of specs/History.antt use the types of `entry.rt`, so
//! that no contract there can name them.)
ghost use Rattle.std.specs.Prelude.{◌≡◌};
ghost use Rattle.desk_rules.specs.History.{instructed};

use crate::history::entry::{Entry, Instructed};

impl Entry {
    /// What it instructs, and who; None where it is no instruction.
    pub fn instructed(&self) -> Option<Instructed>
        ensures { result ≡ instructed self.now }
    {
        match self {
            Entry::Instruct {
                sender,
                instruction,
            } => Some(Instructed {
                sender: *sender,
                instruction: *instruction,
            }),
            _ => None,
        }
    }
}
