//! What an entry, a pair, and a message add to the look-ups.
ghost use Rattle.std.specs.Prelude.{◌≡◌, ◌≢◌, ◌+◌, ◌≤◌, ◌++◌, ◌∷◌, [], ℕ, List, length, true, OnOk, OnErr, Some};
ghost use Rattle.std.specs.BTreeSet.{contains};
ghost use Rattle.std.specs.Vec.{vec_capacity, vec_len};
ghost use Rattle.desk_rules.specs.declared.history.entry.Entry.{Entry as EntryValue};
ghost use Rattle.desk_rules.specs.declared.history.pair.Place.{Place};
ghost use Rattle.desk_rules.specs.History.{instructed, instruction_at};
ghost use Rattle.desk_rules.specs.Content.{Content, history_of};
ghost use Rattle.memory_rows.specs.RowsView.{view_of_rows};
ghost use Rattle.memory_register.specs.declared.sent.heading.Heading.{Heading as HeadingValue};
ghost use Rattle.memory_short.specs.DuePlaces.{AreMatched, ArePlaced, HoldsDue, PlacedAt};
ghost use Rattle.desk_rules.specs.Places.{place_cmp};
ghost use Rattle.memory_register.specs.Known.{AreKnown};
ghost use Rattle.memory_register.specs.Messages.{AreMessagesOf};
ghost use Rattle.memory_register.specs.Open.{HoldsOpen, OpensAt};
ghost use Rattle.memory_register.specs.Touched.{then_touched};

use crate::entries::known::Known;
use crate::pairs::match_key::{MatchKey, key_of};
use crate::sent::heading::Heading;
use crate::sent::messages::Messages;
use desk_register::Outcome;
use desk_rules::{Entry, Instructed, Place};
use memory_rows::Rows;
use memory_short::ordered::put_key;
use std::alloc::AllocError;
use std::collections::BTreeSet;

/// Opens a number at the key of the instruction that an entry gives, if it gives one.
fn open_entry(
    numbers: &mut BTreeSet<(MatchKey, u64)>,
    entry: &Entry,
    number: u64,
) -> Result<(), AllocError>
    ensures all { HoldsOpen numbers.old numbers.new }
    ensures opened { OnOk result (OpensAt numbers.new (instructed entry.now) number) }
{
    match entry.instructed() {
        Some(i) => open_instruction(numbers, &i, number),
        None => Ok(()),
    }
}

/// Opens a number at the key of an instruction.
fn open_instruction(
    numbers: &mut BTreeSet<(MatchKey, u64)>,
    i: &Instructed,
    number: u64,
) -> Result<(), AllocError>
    ensures all { HoldsOpen numbers.old numbers.new }
    ensures opened { OnOk result (OpensAt numbers.new (Some i.now) number) }
{
    put_key(numbers, (key_of(i), number))
}

/// Notes an entry in all look-ups, and the entry itself.
pub fn note_entry(
    known: &mut Known,
    numbers: &mut BTreeSet<(MatchKey, u64)>,
    noted: &mut Vec<Entry>,
    entry: &Entry,
    number: u64,
) -> Result<(), AllocError>
    ensures all { HoldsOpen numbers.old numbers.new }
    ensures opened { OnOk result (OpensAt numbers.new (instructed entry.now) number) }
    ensures keyed { (history : List EntryValue) → AreKnown known.old history → number ≡ length history + 1 → OnOk result (AreKnown known.new (history ++ entry.now ∷ [])) }
    ensures more { OnOk result (noted.new.items ≡ noted.old.items ++ entry.now ∷ []) }
    ensures err_known { (history : List EntryValue) → AreKnown known.old history → number ≡ length history + 1 → OnErr result (AreKnown known.new history) }
    ensures err { OnErr result (noted.new.items ≡ noted.old.items) }
{
    noted.reserve(1)?;
    open_entry(numbers, entry, number)?;
    known.note(entry, number)?;
    noted.push(*entry).unwrap();
    Ok(())
}

/// Notes a pair by the numbers of its two instructions, and by its place.
pub fn note_pair(
    held: &Rows,
    places: &mut BTreeSet<Place>,
    touched: &mut Vec<u64>,
    earlier: u64,
    later: u64,
) -> Result<(), AllocError>
    ensures all { HoldsDue places.old places.new }
    ensures opened { OnOk result (PlacedAt places.new (instruction_at (history_of (view_of_rows held.now).content) later) later) }
    ensures placed { ArePlaced places.old (history_of (view_of_rows held.now).content) → ArePlaced places.new (history_of (view_of_rows held.now).content) }
    ensures touched { OnOk result (touched.new.items ≡ touched.old.items ++ earlier ∷ later ∷ []) }
    ensures kept { (content : Content) → AreMatched places.old content touched.old.items → AreMatched places.new content touched.new.items }
{
    touch_both(touched, earlier, later)?;
    place_instruction(held, places, later)
}

/// Notes that two instructions stand otherwise.
pub fn touch_both(touched: &mut Vec<u64>, earlier: u64, later: u64) -> Result<(), AllocError>
    ensures ok { OnOk result (touched.new.items ≡ touched.old.items ++ earlier ∷ later ∷ []) }
    ensures err { OnErr result (touched.new.items ≡ touched.old.items) }
{
    touched.reserve(2)?;
    push_both(touched, earlier, later);
    Ok(())
}

/// Notes that the two of a pair that was tried stand otherwise, where it has settled. There is room for both.
pub fn touch_settled(touched: &mut Vec<u64>, earlier: u64, later: u64, outcome: Outcome)
    requires { vec_len touched.old + 2 ≤ vec_capacity touched.old }
    ensures { touched.new.items ≡ then_touched outcome earlier later touched.old.items }
{
    if let Outcome::Settled = outcome {
        push_both(touched, earlier, later);
    }
}

/// Adds two numbers, for which there is room.
fn push_both(touched: &mut Vec<u64>, earlier: u64, later: u64)
    requires { vec_len touched.old + 2 ≤ vec_capacity touched.old }
    ensures { touched.new.items ≡ touched.old.items ++ earlier ∷ later ∷ [] }
{
    touched.push(earlier).unwrap();
    touched.push(later).unwrap();
}

/// Notes a pair by its place, where its number is an instruction's.
fn place_instruction(
    held: &Rows,
    places: &mut BTreeSet<Place>,
    number: u64,
) -> Result<(), AllocError>
    ensures all { HoldsDue places.old places.new }
    ensures opened { OnOk result (PlacedAt places.new (instruction_at (history_of (view_of_rows held.now).content) number) number) }
    ensures placed { ArePlaced places.old (history_of (view_of_rows held.now).content) → ArePlaced places.new (history_of (view_of_rows held.now).content) }
    ensures others { (q : Place) → q.number ≢ number → contains place_cmp places.new q ≡ contains place_cmp places.old q }
{
    match held.day_of(number) {
        Some(day) => put_key(
            places,
            Place {
                day: day.yyyymmdd(),
                number,
            },
        ),
        None => Ok(()),
    }
}

/// Notes a message, which has this number among all, in the look-ups, and its heading.
pub fn note_message(
    messages: &mut Messages,
    told: &mut Vec<Heading>,
    heading: &Heading,
    number: u64,
) -> Result<(), AllocError>
    ensures noted { (headings : List HeadingValue) → AreMessagesOf messages.old headings → number ≡ length headings + 1 → OnOk result (AreMessagesOf messages.new (headings ++ heading.now ∷ [])) }
    ensures more { OnOk result (told.new.items ≡ told.old.items ++ heading.now ∷ []) }
    ensures err_noted { (headings : List HeadingValue) → AreMessagesOf messages.old headings → number ≡ length headings + 1 → OnErr result (AreMessagesOf messages.new headings) }
    ensures err { OnErr result (told.new.items ≡ told.old.items) }
{
    told.reserve(1)?;
    messages.note(heading, number)?;
    told.push(*heading).unwrap();
    Ok(())
}
