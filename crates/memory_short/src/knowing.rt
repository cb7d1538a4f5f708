//! Which matched pairs are known to stay short, so that a run need not try them.
//!
//! A pair is to be tried from when it is made. Its tries in vain are counted; once they pay for a note, the pair waits: for so
//! much of the security on its deliverer's account, or where it lacks money alone, for so much of the payer's cash, and also for
//! less of the security, since then it may lack that instead. What a call brings about is put down, once, where somebody waits
//! for it. It is taken up when the register is next asked: who waits for what has come by then is to be tried again.
ghost use Rattle.std.specs.Prelude.{◌≡◌, ◌<◌, ◌≤◌, true, false, OnOk, Some, ℕ, []};
ghost use Rattle.std.specs.BTreeSet.{contains};
ghost use Rattle.desk_codes.specs.Number.{number_of};
ghost use Rattle.desk_rules.specs.declared.history.entry.Instructed.{Instructed as InstructedValue};
ghost use Rattle.desk_rules.specs.declared.history.pair.Lack.{Lack as LackValue};
ghost use Rattle.desk_rules.specs.declared.history.standing.State.TheVariants.{Matched};
ghost use Rattle.desk_rules.specs.declared.history.pair.Place.{Place};
ghost use Rattle.desk_rules.specs.Content.{Content, history_of};
ghost use Rattle.desk_rules.specs.History.{instruction_at};
ghost use Rattle.desk_rules.specs.Standing.{reason_of_lack};
ghost use Rattle.desk_register.specs.Changes.{empty_content};
ghost use Rattle.memory_rows.specs.RowsView.{view_of_rows};
ghost use Rattle.memory_rows.specs.Transfers.{moved_by, transfer_of};
ghost use Rattle.memory_short.specs.declared.wants.Want.{Want as WantValue};
ghost use Rattle.memory_short.specs.DuePlaces.{AreMatched, HasDue, place_at};
ghost use Rattle.memory_short.specs.Shortages.{Brings, IsBrought, IsBroughtIfAny, IsNotedLack, IsNotedSettled, IsNotedTried, IsUncovered, KnowsShort, PutsIn, TakesOut, is_to_try};
ghost use Rattle.memory_short.specs.Wants.{how_many, is_waiting, want_cmp, woken_by};

use crate::counts::{begin_count, count_down, end_count};
use crate::due_places::begin_each;
use crate::ordered::{drop_key, first_key, put_key};
use crate::shortages::Shortages;
use crate::waiting::{drop_wants, is_waited_for, put_wants};
use crate::waits::{first_wait, wait_above};
use crate::wants::{Want, cash_want, less_given, more_taken, woken_by};
use desk_msg::Reason;
use desk_register::{KnownPair, Outcome};
use desk_rules::{Entry, Lack, Place, Standing, State};
use memory_rows::{Rows, Tried};
use std::alloc::{AllocError, Global};
use std::collections::{BTreeMap, BTreeSet};

/// How many tries of a pair in vain cost as much as to note that it is short, and to let it be tried again.
const TRIES_OF_A_NOTE: u64 = 8;

/// What a matched instruction is said to lack.
fn lack_told(standing: &Standing) -> Lack
    ensures { (lack : LackValue) → standing.now.state ≡ Matched (reason_of_lack (Some lack)) → result ≡ lack }
{
    match standing.state {
        State::Matched(Reason::Money) => Lack::Money,
        _ => Lack::Securities,
    }
}

/// How many tries in vain it takes until a pair that is woken is noted again: none where those that were saved pay for it;
/// else twice as many as of a new pair, since what woke it may do so often.
fn tries_once_woken(saved: &mut u64) -> u64 {
    if *saved < TRIES_OF_A_NOTE {
        return 2 * TRIES_OF_A_NOTE;
    }
    *saved -= TRIES_OF_A_NOTE;
    0
}

/// The place of a pair in the order of settlement.
fn place_of(pair: &KnownPair) -> Place
    ensures { result ≡ place_at (number_of pair.now.later.instruction.day) pair.now.number }
{
    Place {
        day: pair.later.instruction.day.yyyymmdd(),
        number: pair.number,
    }
}

/// The place of the pair of a number, which is an instruction's.
fn numbered_place(held: &Rows, number: u64) -> Place
    requires { (later : InstructedValue) × (instruction_at (history_of (view_of_rows held.now).content) number ≡ Some later) }
    ensures { (later : InstructedValue) → instruction_at (history_of (view_of_rows held.now).content) number ≡ Some later → result ≡ place_at (number_of later.instruction.day) number }
{
    Place {
        day: held.day_of(number).unwrap().yyyymmdd(),
        number,
    }
}

impl Shortages {
    /// Of no pairs.
    pub fn new(alloc: Global) -> Shortages
        ensures { KnowsShort result empty_content }
    {
        Shortages {
            is_known: true,
            to_try: BTreeMap::new(alloc),
            waits: BTreeMap::new(alloc),
            brought: BTreeSet::new(alloc),
            tries: 0,
            saved: 0,
        }
    }

    /// Forgets all that is known, and keeps nothing. No memory is taken.
    pub fn forget(&mut self)
        ensures known { self.new.is_known ≡ false }
        ensures to_try { self.new.to_try.entries ≡ [] }
        ensures waits { self.new.waits.entries ≡ [] }
        ensures brought { self.new.brought.keys ≡ [] }
    {
        self.to_try.clear();
        self.waits.clear();
        self.brought.clear();
        self.tries = 0;
        self.is_known = false;
    }

    /// Begins anew where nothing is known: every matched pair is to be tried. That is done where nothing stands otherwise than
    /// at `begin`, and as many pairs were tried since all was forgotten as there are, so that the tries have paid for it.
    fn learn(&mut self, matched: &BTreeSet<Place>, touched: &Vec<u64>)
        ensures { (content : Content) → HasDue matched.now content → AreMatched matched.now content touched.now.items → KnowsShort self.old content → KnowsShort self.new content }
    {
        if self.is_known || !touched.is_empty() || self.tries < matched.len() as u64 {
            return;
        }
        if begin_each(&mut self.to_try, matched, TRIES_OF_A_NOTE).is_err() {
            self.to_try.clear();
            self.tries = 0;
            return;
        }
        self.is_known = true;
    }

    /// Begins anew where nothing is known, as far as that is paid for, and takes up what was brought: who waits for what has come
    /// is to be tried again.
    pub fn catch_up(&mut self, held: &Rows, matched: &BTreeSet<Place>, touched: &Vec<u64>)
        requires due { HasDue matched.now (view_of_rows held.now).content }
        requires only { AreMatched matched.now (view_of_rows held.now).content touched.now.items }
        requires knows { KnowsShort self.old (view_of_rows held.now).content }
        ensures knows { KnowsShort self.new (view_of_rows held.now).content }
        ensures none { (want : WantValue) → contains want_cmp self.new.brought want ≡ false }
    {
        self.learn(matched, touched);
        if !self.is_known {
            return;
        }
        if self.take_up(held).is_err() {
            self.forget();
        }
    }

    /// Whether the pair of a place, if a matched one stands there, is known to stay short: then a try is saved.
    pub fn passes_over(&mut self, place: &Place) -> bool
        ensures short { result ≡ true → (self.old.is_known ≡ true) × (is_to_try self.old.to_try place.now ≡ false) }
        ensures knows { (content : Content) → KnowsShort self.old content → KnowsShort self.new content }
    {
        let is_short = self.is_known && !self.to_try.contains_key(place);
        self.saved = self.saved.saturating_add(u64::from(is_short));
        is_short
    }

    /// Notes an entry: what it brings about is put down.
    pub fn note_added(&mut self, entry: &Entry)
        ensures { self.new.is_known ≡ true → Brings self.old self.new × IsBroughtIfAny self.new (woken_by entry.now) }
    {
        self.bring_if_any(woken_by(entry));
    }

    /// Notes a pair that is made, by the number of its later instruction: it is to be tried.
    pub fn note_made(&mut self, held: &Rows, number: u64)
        ensures { self.new.is_known ≡ true → (later : InstructedValue) → instruction_at (history_of (view_of_rows held.now).content) number ≡ Some later
            → PutsIn (place_at (number_of later.instruction.day) number) self.old self.new }
    {
        if !self.is_known {
            return;
        }
        if let Some(day) = held.day_of(number) {
            let place = Place {
                day: day.yyyymmdd(),
                number,
            };
            if begin_count(&mut self.to_try, place, TRIES_OF_A_NOTE).is_err() {
                self.forget();
            }
        }
    }

    /// Notes how the pair of a number fared that was tried.
    pub fn note_tried(&mut self, held: &Rows, alloc: Global, number: u64, tried: &Tried)
        requires { (first second : InstructedValue) × (instruction_at (history_of (view_of_rows held.now).content) tried.now.mate ≡ Some first) × (instruction_at (history_of (view_of_rows held.now).content) number ≡ Some second) }
        ensures { self.new.is_known ≡ true → (earlier later : InstructedValue) → instruction_at (history_of (view_of_rows held.now).content) tried.now.mate ≡ Some earlier → instruction_at (history_of (view_of_rows held.now).content) number ≡ Some later
            → IsNotedTried tried.now.outcome (transfer_of earlier later) (place_at (number_of later.instruction.day) number) self.old self.new }
    {
        if !self.is_known {
            self.tries = self.tries.saturating_add(1);
            return;
        }
        match tried.outcome {
            Outcome::Settled => {
                let pair = held.pair_of(tried.mate, number);
                self.note_settled(&pair, place_of(&pair));
            }
            Outcome::Lacks(lack) => {
                if self
                    .note_lack(held, alloc, tried.mate, number, lack)
                    .is_err()
                {
                    self.forget();
                }
            }
        }
    }

    /// Notes that the pair of two numbers is cancelled. No memory is taken.
    pub fn note_cancelled(&mut self, held: &Rows, mate: u64, number: u64)
        requires { (first second : InstructedValue) × (instruction_at (history_of (view_of_rows held.now).content) mate ≡ Some first) × (instruction_at (history_of (view_of_rows held.now).content) number ≡ Some second) }
        ensures { self.new.is_known ≡ true → (earlier later : InstructedValue) → instruction_at (history_of (view_of_rows held.now).content) mate ≡ Some earlier → instruction_at (history_of (view_of_rows held.now).content) number ≡ Some later
            → TakesOut (transfer_of earlier later) (place_at (number_of later.instruction.day) number) self.old self.new }
    {
        if !self.is_known {
            return;
        }
        let pair = held.pair_of(mate, number);
        self.take_out(&pair, place_of(&pair));
    }

    /// Notes that the pair of a place settled.
    fn note_settled(&mut self, pair: &KnownPair, place: Place)
        requires { self.old.is_known ≡ true }
        ensures { self.new.is_known ≡ true → IsNotedSettled (moved_by pair.now) place self.old self.new }
    {
        self.take_out(pair, place);
        self.bring(&more_taken(pair));
        self.bring(&less_given(pair));
        self.bring_if_any(cash_want(pair.deliverer().sender, pair.later.instruction.cash));
    }

    /// Notes what the pair of a number lacks, once enough tries in vain have paid for that. Until then it stays to be tried.
    fn note_lack(
        &mut self,
        held: &Rows,
        alloc: Global,
        mate: u64,
        number: u64,
        lack: Lack,
    ) -> Result<(), AllocError>
        requires known { self.old.is_known ≡ true }
        requires pair { (first second : InstructedValue) × (instruction_at (history_of (view_of_rows held.now).content) mate ≡ Some first) × (instruction_at (history_of (view_of_rows held.now).content) number ≡ Some second) }
        ensures known { self.new.is_known ≡ true }
        ensures noted { OnOk result ((earlier later : InstructedValue) → instruction_at (history_of (view_of_rows held.now).content) mate ≡ Some earlier → instruction_at (history_of (view_of_rows held.now).content) number ≡ Some later
            → IsNotedLack (transfer_of earlier later) lack (place_at (number_of later.instruction.day) number) self.old self.new) }
    {
        let place = numbered_place(held, number);
        match count_down(&mut self.to_try, place) {
            // it was known to stay short, and fared otherwise
            None => {
                self.take_out(&held.pair_of(mate, number), place);
                begin_count(&mut self.to_try, place, TRIES_OF_A_NOTE)
            }
            Some(left) if 0 < left => Ok(()),
            Some(_) => {
                end_count(&mut self.to_try, place);
                let pair = held.pair_of(mate, number);
                put_wants(&mut self.waits, alloc, &pair, lack, place)
            }
        }
    }

    /// Takes out the pair of a place. No memory is taken.
    fn take_out(&mut self, pair: &KnownPair, place: Place)
        requires { self.old.is_known ≡ true }
        ensures known { self.new.is_known ≡ true }
        ensures out { TakesOut (moved_by pair.now) place self.old self.new }
    {
        if end_count(&mut self.to_try, place) {
            return;
        }
        drop_wants(&mut self.waits, pair, Lack::Securities, place);
        drop_wants(&mut self.waits, pair, Lack::Money, place);
    }

    /// Puts down that something came, where somebody waits for it.
    fn bring(&mut self, want: &Want)
        ensures brings { self.new.is_known ≡ true → Brings self.old self.new }
        ensures there { self.new.is_known ≡ true → IsBrought self.new want.now }
    {
        if !self.is_known || !is_waited_for(&self.waits, want) {
            return;
        }
        if put_key(&mut self.brought, *want).is_err() {
            self.forget();
        }
    }

    /// Puts down that something came, if anything did.
    fn bring_if_any(&mut self, want: Option<Want>)
        ensures brings { self.new.is_known ≡ true → Brings self.old self.new }
        ensures there { self.new.is_known ≡ true → IsBroughtIfAny self.new want }
    {
        if let Some(want) = want {
            self.bring(&want);
        }
    }

    /// Takes up all that was brought.
    fn take_up(&mut self, held: &Rows) -> Result<(), AllocError>
        requires known { self.old.is_known ≡ true }
        requires knows { KnowsShort self.old (view_of_rows held.now).content }
        ensures known { self.new.is_known ≡ true }
        ensures knows { OnOk result (KnowsShort self.new (view_of_rows held.now).content) }
        ensures none { OnOk result ((want : WantValue) → contains want_cmp self.new.brought want ≡ false) }
    {
        while let Some(want) = first_key(&self.brought) {
            self.wake(held, &want)?;
            drop_key(&mut self.brought, want);
        }
        Ok(())
    }

    /// Lets be tried again who waits for something, and for no more of it than there is.
    fn wake(&mut self, held: &Rows, want: &Want) -> Result<(), AllocError>
        requires known { self.old.is_known ≡ true }
        requires knows { KnowsShort self.old (view_of_rows held.now).content }
        ensures known { self.new.is_known ≡ true }
        ensures knows { OnOk result (KnowsShort self.new (view_of_rows held.now).content) }
        ensures brought { self.new.brought ≡ self.old.brought }
        ensures uncovered { OnOk result ((amount : ℕ) (at : Place) → is_waiting self.new.waits want.now amount at ≡ true → IsUncovered (view_of_rows held.now).content want.now amount) }
    {
        match want {
            Want::MoreHeld { account, isin } => {
                self.wake_up_to(held, want, held.position_at(*account, *isin))
            }
            Want::LessHeld { account, isin } => {
                self.wake_above(held, want, held.position_at(*account, *isin))
            }
            Want::MoreCash { bic, ccy } => self.wake_up_to(held, want, held.cash_at(*bic, *ccy)),
        }
    }

    /// Lets be tried again who waits for something, and for so much of it at most.
    fn wake_up_to(&mut self, held: &Rows, want: &Want, most: u64) -> Result<(), AllocError>
        requires known { self.old.is_known ≡ true }
        requires knows { KnowsShort self.old (view_of_rows held.now).content }
        ensures known { self.new.is_known ≡ true }
        ensures knows { OnOk result (KnowsShort self.new (view_of_rows held.now).content) }
        ensures brought { self.new.brought ≡ self.old.brought }
        ensures more { OnOk result ((amount : ℕ) (at : Place) → is_waiting self.new.waits want.now amount at ≡ true → most < amount) }
    {
        while let Some((amount, place)) = first_wait(&self.waits, want) {
            if most < amount {
                return Ok(());
            }
            self.wake_place(held, want, amount, place)?;
        }
        Ok(())
    }

    /// Lets be tried again who waits for something, and for more than so much of it.
    fn wake_above(&mut self, held: &Rows, want: &Want, most: u64) -> Result<(), AllocError>
        requires known { self.old.is_known ≡ true }
        requires knows { KnowsShort self.old (view_of_rows held.now).content }
        ensures known { self.new.is_known ≡ true }
        ensures knows { OnOk result (KnowsShort self.new (view_of_rows held.now).content) }
        ensures brought { self.new.brought ≡ self.old.brought }
        ensures less { OnOk result ((amount : ℕ) (at : Place) → is_waiting self.new.waits want.now amount at ≡ true → amount ≤ most) }
    {
        while let Some((amount, place)) = wait_above(&self.waits, want, most) {
            self.wake_place(held, want, amount, place)?;
        }
        Ok(())
    }

    /// Lets the pair of a place be tried again, which waits for so much of something.
    fn wake_place(
        &mut self,
        held: &Rows,
        want: &Want,
        amount: u64,
        place: Place,
    ) -> Result<(), AllocError>
        requires known { self.old.is_known ≡ true }
        requires knows { KnowsShort self.old (view_of_rows held.now).content }
        requires waits { is_waiting self.old.waits want.now amount place ≡ true }
        ensures known { self.new.is_known ≡ true }
        ensures knows { OnOk result (KnowsShort self.new (view_of_rows held.now).content) }
        ensures brought { self.new.brought ≡ self.old.brought }
        ensures fewer { OnOk result (how_many self.new.waits want.now < how_many self.old.waits want.now) }
    {
        let standing = held.standing_at(place.number);
        let pair = held.pair_of(standing.mate.unwrap(), place.number);
        let tries = tries_once_woken(&mut self.saved);
        begin_count(&mut self.to_try, place, tries)?;
        drop_wants(&mut self.waits, &pair, lack_told(&standing), place);
        Ok(())
    }
}
