//! Whether an instruction is the counterpart that another wants.
ghost use Rattle.std.specs.Prelude.{◌≡◌, ◌↔◌, IsTrue};
ghost use Rattle.memory_rows.specs.Lists.{content_in, listed};
ghost use Rattle.desk_register.specs.Looked.{IsOppositeAt};

use crate::lists::Lists;
use crate::looking::by_number::{instruction, standing};
use desk_rules::{Instructed, State, are_opposite};

/// Whether the instruction of a number is unmatched, and opposite to one.
pub fn is_opposite_at(lists: &Lists, number: u64, wanted: &Instructed) -> bool
    ensures { IsTrue result ↔ IsOppositeAt (content_in (listed lists.now)) wanted.now number }
{
    let Some(other) = instruction(lists, number) else {
        return false;
    };
    let State::Unmatched = standing(lists, number).state else {
        return false;
    };
    are_opposite(&other, wanted)
}
