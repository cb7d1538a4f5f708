//! Whether a pair is due.
ghost use Rattle.std.specs.Prelude.{◌≡◌, IfSome, IfNone};
ghost use Rattle.desk_rules.specs.declared.history.pair.Place.{Place};
ghost use Rattle.memory_rows.specs.Lists.{content_in, listed};
ghost use Rattle.desk_register.specs.Looked.{IsDue};

use crate::lists::Lists;
use crate::looking::by_number::{kept_instruction, standing};
use desk_rules::{Place, State};

/// The place of a number's matched pair, where it is due by a day and above a place.
pub fn due_place(lists: &Lists, number: u64, day: u64, above: &Option<Place>) -> Option<Place>
    ensures found { IfSome result (λ p. (p.number ≡ number) × IsDue (content_in (listed lists.now)) day above.now p) }
    ensures none { IfNone result ((p : Place) → p.number ≡ number → IsDue (content_in (listed lists.now)) day above.now p → ⊥) }
{
    let (_, later) = kept_instruction(lists, number)?;
    let standing = standing(lists, number);
    let mate = standing.mate?;
    let State::Matched(_) = standing.state else {
        return None;
    };
    let place = Place {
        day: later.day.yyyymmdd(),
        number,
    };
    if mate >= number || place.day > day {
        return None;
    }
    if !place.is_past(above) {
        return None;
    }
    Some(place)
}
