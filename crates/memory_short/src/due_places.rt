//! The matched pairs by their settlement days and numbers.
ghost use Rattle.std.specs.Prelude.{◌≡◌, ℕ, [], true, false, OnOk};
ghost use Rattle.std.specs.BTreeSet.{contains};
ghost use Rattle.desk_rules.specs.declared.history.pair.Place.{Place};
ghost use Rattle.desk_rules.specs.Content.{Content};
ghost use Rattle.desk_register.specs.Looked.{IsDuePairAfter};
ghost use Rattle.desk_register.specs.Short.{IsToTryAfter};
ghost use Rattle.memory_rows.specs.RowsView.{view_of_rows};
ghost use Rattle.memory_short.specs.DuePlaces.{HasDue, IsDueAt, IsFirstDueOf, beginning};
ghost use Rattle.desk_rules.specs.Places.{place_cmp};
ghost use Rattle.memory_short.specs.Shortages.{KnowsShort, is_to_try};
ghost use Rattle.memory_short.specs.Wants.{want_cmp};
ghost use Rattle.memory_short.specs.declared.wants.Want.{Want as WantValue};

use crate::counts::{begin_count, first_behind};
use crate::shortages::Shortages;
use desk_rules::Place;
use memory_rows::Rows;
use std::alloc::AllocError;
use std::collections::{BTreeMap, BTreeSet};
use std::ops::Bound;

/// The pair that stands at a place, where it is due by a day and above a place.
fn due_at(held: &Rows, at: Place, day: u64, above: &Option<Place>) -> Option<Place>
    ensures { IsDueAt (view_of_rows held.now).content day above.now at result }
{
    let place = held.due_place(at.number, day, above)?;
    if place.day != at.day {
        return None;
    }
    Some(place)
}

/// The place behind which to begin, to find what is above one.
fn beginning(above: &Option<Place>) -> Place
    ensures { result ≡ beginning above.now }
{
    match above {
        Some(place) => *place,
        None => Place { day: 0, number: 0 },
    }
}

/// The first place of a matched pair among some that is due by a day, above a place.
fn first_due_of(
    held: &Rows,
    places: &BTreeSet<Place>,
    day: u64,
    above: &Option<Place>,
) -> Option<Place>
    ensures { IsFirstDueOf places.now (view_of_rows held.now).content day above.now result }
{
    for place in places.range((Bound::Excluded(beginning(above)), Bound::Unbounded)) {
        if place.day > day {
            return None;
        }
        if let Some(due) = due_at(held, *place, day, above) {
            return Some(due);
        }
    }
    None
}

/// The first place of a matched pair that is due by a day, above a place.
pub fn first_due(
    held: &Rows,
    places: &BTreeSet<Place>,
    day: u64,
    above: &Option<Place>,
) -> Option<Place>
    requires { HasDue places.now (view_of_rows held.now).content }
    ensures { IsDuePairAfter (view_of_rows held.now).content day above.now result }
{
    first_due_of(held, places, day, above)
}

/// The first place of a matched pair that is to be tried and due by a day, above a place: before it stands none but those
/// that stay short. What was brought is taken up.
pub fn first_to_try(shortages: &Shortages, day: u64, above: &Option<Place>) -> Option<Place>
    requires known { shortages.now.is_known ≡ true }
    requires none { (want : WantValue) → contains want_cmp shortages.now.brought want ≡ false }
    ensures { (content : Content) → KnowsShort shortages.now content → IsToTryAfter content day above.now result }
{
    let place = first_behind(&shortages.to_try, beginning(above))?;
    if place.day > day {
        return None;
    }
    Some(place)
}

/// Begins to count down tries of each of some pairs, where none are counted.
pub fn begin_each(
    counts: &mut BTreeMap<Place, u64>,
    places: &BTreeSet<Place>,
    tries: u64,
) -> Result<(), AllocError>
    requires { counts.old.entries ≡ [] }
    ensures { OnOk result ((q : Place) → is_to_try counts.new q ≡ contains place_cmp places.now q) }
{
    for place in places {
        begin_count(counts, *place, tries)?;
    }
    Ok(())
}
