//! A pair, taken from the entries, and how it fared.
ghost use Rattle.std.specs.Prelude.{◌≡◌, Some};
ghost use Rattle.desk_rules.specs.declared.history.entry.Instructed.{Instructed as InstructedValue};
ghost use Rattle.desk_rules.specs.Content.{history_of};
ghost use Rattle.desk_rules.specs.History.{instruction_at};
ghost use Rattle.memory_rows.specs.Lists.{content_in, listed};
ghost use Rattle.memory_rows.specs.Transfers.{as_instructed};

use crate::lists::Lists;
use crate::looking::by_number::kept_instruction;
use desk_codes::Bic;
use desk_msg::Instruction;
use desk_register::{KnownPair, Outcome};
use desk_rules::Instructed;

/// A pair that was tried, and how it fared.
#[derive(Clone, Copy)]
pub struct Tried {
    /// The number of its earlier instruction
    pub mate: u64,
    pub outcome: Outcome,
}

/// What is kept of an instruction.
fn instructed(kept: (&Bic, &Instruction)) -> Instructed
    ensures { result ≡ as_instructed kept.entry.0.now kept.entry.1.now }
{
    Instructed {
        sender: *kept.0,
        instruction: *kept.1,
    }
}

/// The pair of two numbers, the earlier first. Both are those of instructions.
pub fn pair_of(lists: &Lists, mate: u64, number: u64) -> KnownPair
    requires { (first second : InstructedValue) × (instruction_at (history_of (content_in (listed lists.now))) mate ≡ Some first) × (instruction_at (history_of (content_in (listed lists.now))) number ≡ Some second) }
    ensures { (first second : InstructedValue) → instruction_at (history_of (content_in (listed lists.now))) mate ≡ Some first → instruction_at (history_of (content_in (listed lists.now))) number ≡ Some second
        → result ≡ record { mate = mate; number = number; earlier = first; later = second } }
{
    KnownPair {
        mate,
        number,
        earlier: instructed(kept_instruction(lists, mate).unwrap()),
        later: instructed(kept_instruction(lists, number).unwrap()),
    }
}
