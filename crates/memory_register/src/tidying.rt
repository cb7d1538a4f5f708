//! What is taken out of the look-ups: keys and messages at `back`, and what was matched or settled. No memory is taken.
ghost use Rattle.std.specs.Prelude.{◌≡◌, ℕ, ◌+◌, ◌++◌, [], ◌∷◌, List, length, true, false, ◌<◌, ◌≤◌, ◌^◌};
ghost use Rattle.std.specs.BTreeSet.{contains};
ghost use Rattle.desk_rules.specs.declared.history.entry.Entry.{Entry as EntryValue};
ghost use Rattle.desk_rules.specs.declared.history.pair.Place.{Place};
ghost use Rattle.desk_rules.specs.Content.{Content, history_of};
ghost use Rattle.desk_register.specs.Looked.{IsMatchedPair};
ghost use Rattle.memory_rows.specs.RowsView.{view_of_rows};
ghost use Rattle.memory_register.specs.declared.sent.heading.Heading.{Heading as HeadingValue};
ghost use Rattle.memory_short.specs.DuePlaces.{AreMatched, ArePlaced, FewerDue, HasDue};
ghost use Rattle.desk_rules.specs.Places.{place_cmp};
ghost use Rattle.memory_register.specs.Indexed.{HoldsOn};
ghost use Rattle.memory_register.specs.Known.{AreKnown};
ghost use Rattle.memory_register.specs.Messages.{AreMessagesOf};
ghost use Rattle.memory_register.specs.Open.{HasOpen};

use crate::entries::known::Known;
use crate::pairs::match_key::{MatchKey, key_of};
use crate::sent::heading::Heading;
use crate::sent::messages::Messages;
use desk_register::Outcome;
use desk_rules::{Entry, Place, State};
use memory_rows::{Rows, Tried};
use memory_short::ordered::drop_key;
use std::collections::BTreeSet;

/// Forgets all entries that were noted, behind so many others, and the places of pairs with their numbers.
pub fn forget_all(
    known: &mut Known,
    places: &mut BTreeSet<Place>,
    noted: &mut Vec<Entry>,
    count: u64,
)
    requires { count < 2 ^ 63 }
    ensures forgot { (history : List EntryValue) → AreKnown known.old (history ++ noted.old.items) → count ≡ length history → AreKnown known.new history }
    ensures none { noted.new.items ≡ [] }
    ensures due { (mark : Content) → count ≡ length mark.register → HasDue places.old mark → HasDue places.new mark }
    ensures placed { (history : List EntryValue) → count ≡ length history → ArePlaced places.old (history ++ noted.old.items) → ArePlaced places.new history }
    ensures fewer { FewerDue places.old places.new }
{
    while let Some(entry) = noted.pop() {
        let number = count + noted.len() as u64 + 1;
        known.forget(&entry, number);
        forget_place(places, &entry, number);
    }
}

/// Takes out the place of a pair whose later instruction is an entry of this number.
fn forget_place(places: &mut BTreeSet<Place>, entry: &Entry, number: u64)
    ensures due { (mark : Content) → length mark.register < number → HasDue places.old mark → HasDue places.new mark }
    ensures placed { (history : List EntryValue) → number ≡ length history + 1 → ArePlaced places.old (history ++ entry.now ∷ []) → ArePlaced places.new history }
    ensures fewer { FewerDue places.old places.new }
{
    if let Entry::Instruct { instruction, .. } = entry {
        drop_key(
            places,
            Place {
                day: instruction.day.yyyymmdd(),
                number,
            },
        );
    }
}

/// Forgets all messages that were told, behind so many others.
pub fn forget_messages(messages: &mut Messages, told: &mut Vec<Heading>, count: u64)
    requires { count < 2 ^ 63 }
    ensures forgot { (headings : List HeadingValue) → AreMessagesOf messages.old (headings ++ told.old.items) → count ≡ length headings → AreMessagesOf messages.new headings }
    ensures none { told.new.items ≡ [] }
{
    while let Some(heading) = told.pop() {
        messages.forget(&heading, count + told.len() as u64 + 1);
    }
}

/// Takes out an instruction that is matched.
fn tidy_open(held: &Rows, numbers: &mut BTreeSet<(MatchKey, u64)>, number: u64)
    ensures now { HasOpen numbers.old (view_of_rows held.now).content → HasOpen numbers.new (view_of_rows held.now).content }
    ensures others { (mark : Content) → length mark.register < number → HasOpen numbers.old mark → HasOpen numbers.new mark }
{
    if let State::Unmatched = held.standing_at(number).state {
        return;
    }
    if let Some(i) = held.instruction_at(number) {
        drop_key(numbers, (key_of(&i), number));
    }
}

/// Takes out a pair that is matched no more.
fn tidy_due(held: &Rows, places: &mut BTreeSet<Place>, number: u64)
    ensures now { HasDue places.old (view_of_rows held.now).content → HasDue places.new (view_of_rows held.now).content }
    ensures others { (mark : Content) → length mark.register < number → HasDue places.old mark → HasDue places.new mark }
    ensures fewer { FewerDue places.old places.new }
    ensures only { ArePlaced places.old (history_of (view_of_rows held.now).content) → (q : Place) → q.number ≡ number → contains place_cmp places.new q ≡ true → IsMatchedPair (view_of_rows held.now).content q }
{
    if held.due_place(number, u64::MAX, &None).is_some() {
        return;
    }
    if let Some(day) = held.day_of(number) {
        drop_key(
            places,
            Place {
                day: day.yyyymmdd(),
                number,
            },
        );
    }
}

/// Whether a number was added since `begin`, of so many: what `back` goes back to has no such number.
fn is_new(held: &Rows, noted: usize, number: u64) -> bool
    ensures new { result ≡ true → (mark : Content) → length mark.register + noted ≡ length (view_of_rows held.now).content.register → length mark.register < number }
    ensures old { result ≡ false → noted ≤ length (view_of_rows held.now).content.register → number + noted ≤ length (view_of_rows held.now).content.register }
{
    let count = held.entry_count();
    noted as u64 <= count && number > count - noted as u64
}

/// Takes out an instruction that is matched, where it was added since `begin`.
fn tidy_new_open(held: &Rows, numbers: &mut BTreeSet<(MatchKey, u64)>, noted: usize, number: u64)
    ensures { HoldsOn (HasOpen numbers.old) (HasOpen numbers.new) (view_of_rows held.now).content noted }
{
    if is_new(held, noted, number) {
        tidy_open(held, numbers, number);
    }
}

/// Takes out a pair that is settled, where it was made since `begin`.
fn tidy_new_due(held: &Rows, places: &mut BTreeSet<Place>, noted: usize, number: u64)
    ensures due { HoldsOn (HasDue places.old) (HasDue places.new) (view_of_rows held.now).content noted }
    ensures fewer { FewerDue places.old places.new }
{
    if is_new(held, noted, number) {
        tidy_due(held, places, number);
    }
}

/// Takes out what is matched and settled of a pair's two instructions, where they were added since `begin`.
pub fn tidy_new(
    held: &Rows,
    numbers: &mut BTreeSet<(MatchKey, u64)>,
    places: &mut BTreeSet<Place>,
    noted: usize,
    earlier: u64,
    later: u64,
)
    ensures unmatched { HoldsOn (HasOpen numbers.old) (HasOpen numbers.new) (view_of_rows held.now).content noted }
    ensures matched { HoldsOn (HasDue places.old) (HasDue places.new) (view_of_rows held.now).content noted }
    ensures fewer { FewerDue places.old places.new }
{
    tidy_new_open(held, numbers, noted, earlier);
    tidy_new_open(held, numbers, noted, later);
    tidy_new_due(held, places, noted, later);
}

/// Takes out what is settled of a pair that was tried, where it was made since `begin`.
pub fn tidy_settled(
    held: &Rows,
    numbers: &mut BTreeSet<(MatchKey, u64)>,
    places: &mut BTreeSet<Place>,
    noted: usize,
    number: u64,
    tried: &Tried,
)
    ensures unmatched { HoldsOn (HasOpen numbers.old) (HasOpen numbers.new) (view_of_rows held.now).content noted }
    ensures matched { HoldsOn (HasDue places.old) (HasDue places.new) (view_of_rows held.now).content noted }
    ensures fewer { FewerDue places.old places.new }
{
    if let Outcome::Settled = tried.outcome {
        tidy_new(held, numbers, places, noted, tried.mate, number);
    }
}

/// Takes out what is unmatched no more, and matched no more, of what came to stand otherwise.
pub fn tidy_all(
    held: &Rows,
    numbers: &mut BTreeSet<(MatchKey, u64)>,
    places: &mut BTreeSet<Place>,
    touched: &mut Vec<u64>,
)
    ensures unmatched { HasOpen numbers.old (view_of_rows held.now).content → HasOpen numbers.new (view_of_rows held.now).content }
    ensures matched { HasDue places.old (view_of_rows held.now).content → HasDue places.new (view_of_rows held.now).content }
    ensures none { touched.new.items ≡ [] }
    ensures placed { ArePlaced places.old (history_of (view_of_rows held.now).content) → ArePlaced places.new (history_of (view_of_rows held.now).content) }
    ensures only { ArePlaced places.old (history_of (view_of_rows held.now).content) → AreMatched places.old (view_of_rows held.now).content touched.old.items → AreMatched places.new (view_of_rows held.now).content [] }
{
    while let Some(number) = touched.pop() {
        tidy_open(held, numbers, number);
        tidy_due(held, places, number);
    }
}
