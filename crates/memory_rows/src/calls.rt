//! What begins, changes, keeps and takes back the rows.
ghost use Rattle.std.specs.Prelude.{◌≡◌, ◌≢◌, ◌≤◌, IfOk, OnOk, Some};
ghost use Rattle.desk_codes.specs.Number.{number_of};
ghost use Rattle.memory_rows.specs.RowsView.{view_of_rows};
ghost use Rattle.desk_register.specs.Changes.{CanAppend, CanCancel, CanCancelPair, CanPair, CanSend, CanSettle, TriesPair, appended, cancelled, empty_content, pair_cancelled, paired, with_sent};
ghost use Rattle.desk_register.specs.View.{Begins, Commits, GoesBack, IsChange, IsLater, fallen};
ghost use Rattle.desk_rules.specs.Content.{history_of};
ghost use Rattle.memory_rows.specs.Named.{number_named};

use crate::changing::appending::append_entry;
use crate::changing::changes::{keep_all, undo_all};
use crate::changing::settling::try_settle;
use crate::changing::standings::{cancel_both, cancel_entry, pair_entries};
use crate::changing::tried::Tried;
use crate::lists::Lists;
use crate::looking::messages::send_message;
use crate::rows::Rows;
use desk_codes::Day;
use desk_register::{Fault, Stage};
use desk_rules::{Entry, MOST_ENTRIES, Reply, Sent};
use std::alloc::Global;
use std::collections::BTreeMap;

impl Rows {
    /// No rows, for at most `limit` entries, which are `MOST_ENTRIES` at most.
    pub fn new(alloc: Global, limit: u64) -> Rows
        requires { limit ≤ MOST_ENTRIES }
        ensures empty { (view_of_rows result).content ≡ empty_content }
        ensures limit { (view_of_rows result).room ≡ limit }
        ensures stage { (view_of_rows result).stage ≡ Stage.Idle }
    {
        Rows {
            limit,
            lists: Lists {
                kept: Vec::new(alloc),
                standings: Vec::new(alloc),
                balances: BTreeMap::new(alloc),
                sent: Vec::new(alloc),
                may_have_nought: false,
            },
            changes: Vec::new(alloc),
            stage: Stage::Idle,
        }
    }

    /// Whether a `begin` is open, and whether a call within it has failed.
    pub fn stage(&self) -> Stage
        ensures { result ≡ (view_of_rows self.now).stage }
    {
        self.stage
    }

    /// The greatest number of entries.
    pub fn limit(&self) -> u64
        ensures limit { result ≡ (view_of_rows self.now).room }
        ensures most { result ≤ MOST_ENTRIES }
    {
        self.limit
    }

    /// Begins a group of changes, which are then kept or taken back together.
    pub fn begin(&mut self)
        requires { (view_of_rows self.old).stage ≡ Stage.Idle }
        ensures begins { Begins (view_of_rows self.old) (view_of_rows self.new) }
        ensures later { IsLater (view_of_rows self.old) (view_of_rows self.new) }
    {
        self.stage = Stage::Begun;
    }

    /// Keeps all that was changed since `begin`, for good. No memory is taken.
    pub fn commit(&mut self)
        requires { (view_of_rows self.old).stage ≡ Stage.Begun }
        ensures commits { Commits (view_of_rows self.old) (view_of_rows self.new) }
        ensures later { IsLater (view_of_rows self.old) (view_of_rows self.new) }
    {
        keep_all(&mut self.lists, &mut self.changes);
        self.stage = Stage::Idle;
    }

    /// Takes back all that was changed since `begin`. No memory is taken.
    pub fn back(&mut self)
        requires { (view_of_rows self.old).stage ≢ Stage.Idle }
        ensures goes_back { GoesBack (view_of_rows self.old) (view_of_rows self.new) }
        ensures later { IsLater (view_of_rows self.old) (view_of_rows self.new) }
    {
        undo_all(&mut self.lists, &mut self.changes);
        self.stage = Stage::Idle;
    }

    /// Adds an entry with its reply, by the number of the key that a cancellation names. Such a one is noted where the
    /// instruction stands that it names.
    pub fn append(&mut self, entry: Entry, reply: Reply, named: Option<u64>) -> Result<(), Fault>
        requires stage { (view_of_rows self.old).stage ≡ Stage.Begun }
        requires fits { CanAppend (view_of_rows self.old).room entry reply (view_of_rows self.old).content }
        requires named { named ≡ number_named (history_of (view_of_rows self.old).content) entry }
        ensures added { OnOk result ((view_of_rows self.new).content ≡ appended entry reply (view_of_rows self.old).content) }
        ensures change { IsChange result (view_of_rows self.old) (view_of_rows self.new) }
    {
        match append_entry(&mut self.lists, &mut self.changes, entry, reply, named) {
            Ok(()) => Ok(()),
            Err(_) => {
                self.stage = Stage::Failed;
                Err(Fault::Memory)
            }
        }
    }

    /// Makes two unmatched opposite instructions each other's mates, by their numbers.
    pub fn pair(&mut self, earlier: u64, later: u64) -> Result<(), Fault>
        requires stage { (view_of_rows self.old).stage ≡ Stage.Begun }
        requires fits { CanPair (view_of_rows self.old).content earlier later }
        ensures paired { OnOk result ((view_of_rows self.new).content ≡ paired earlier later (view_of_rows self.old).content) }
        ensures change { IsChange result (view_of_rows self.old) (view_of_rows self.new) }
    {
        match pair_entries(&mut self.lists, &mut self.changes, earlier, later) {
            Ok(()) => Ok(()),
            Err(_) => {
                self.stage = Stage::Failed;
                Err(Fault::Memory)
            }
        }
    }

    /// Lets an unmatched instruction, by its number, stand cancelled.
    pub fn cancel(&mut self, number: u64) -> Result<(), Fault>
        requires stage { (view_of_rows self.old).stage ≡ Stage.Begun }
        requires fits { CanCancel (view_of_rows self.old).content number }
        ensures cancelled { OnOk result ((view_of_rows self.new).content ≡ cancelled number (view_of_rows self.old).content) }
        ensures change { IsChange result (view_of_rows self.old) (view_of_rows self.new) }
    {
        match cancel_entry(&mut self.lists, &mut self.changes, number) {
            Ok(()) => Ok(()),
            Err(_) => {
                self.stage = Stage::Failed;
                Err(Fault::Memory)
            }
        }
    }

    /// Lets both instructions of a matched pair, by their numbers, stand cancelled. They keep their mates.
    pub fn cancel_pair(&mut self, earlier: u64, later: u64) -> Result<(), Fault>
        requires stage { (view_of_rows self.old).stage ≡ Stage.Begun }
        requires fits { CanCancelPair (view_of_rows self.old).content earlier later }
        ensures cancelled { OnOk result ((view_of_rows self.new).content ≡ pair_cancelled earlier later (view_of_rows self.old).content) }
        ensures change { IsChange result (view_of_rows self.old) (view_of_rows self.new) }
    {
        match cancel_both(&mut self.lists, &mut self.changes, earlier, later) {
            Ok(()) => Ok(()),
            Err(_) => {
                self.stage = Stage::Failed;
                Err(Fault::Memory)
            }
        }
    }

    /// Adds a message to those that were sent.
    pub fn send(&mut self, message: Sent) -> Result<(), Fault>
        requires stage { (view_of_rows self.old).stage ≡ Stage.Begun }
        requires fits { CanSend (view_of_rows self.old).content }
        ensures sent { OnOk result ((view_of_rows self.new).content ≡ with_sent message (view_of_rows self.old).content) }
        ensures change { IsChange result (view_of_rows self.old) (view_of_rows self.new) }
    {
        match send_message(&mut self.lists, &mut self.changes, message) {
            Ok(()) => Ok(()),
            Err(_) => {
                self.stage = Stage::Failed;
                Err(Fault::Memory)
            }
        }
    }

    /// Tries the matched pair of a number, which is due by a day: settles it where it is covered, and moves its quantity from
    /// the deliverer's account to the receiver's, and its cash from the receiver to the deliverer; else changes the reason
    /// alone. Hands on the number of its
    /// mate.
    pub fn try_pair(&mut self, number: u64, _day: Day) -> Result<Tried, Fault>
        requires stage { (view_of_rows self.old).stage ≡ Stage.Begun }
        requires fits { CanSettle (view_of_rows self.old).content number (number_of _day) }
        ensures settled { IfOk result (λ tried. TriesPair (view_of_rows self.old).content number tried.outcome (view_of_rows self.new).content) }
        ensures mate { IfOk result (λ tried. ((view_of_rows self.old).content.standing number).mate ≡ Some tried.mate) }
        ensures change { IsChange result (view_of_rows self.old) (view_of_rows self.new) }
    {
        match try_settle(&mut self.lists, &mut self.changes, number) {
            Ok(tried) => Ok(tried),
            Err(_) => {
                self.stage = Stage::Failed;
                Err(Fault::Memory)
            }
        }
    }
}

/// The stage after a call that failed.
pub fn fallen(stage: Stage) -> Stage
    ensures { result ≡ fallen stage }
{
    match stage {
        Stage::Idle => Stage::Idle,
        Stage::Begun | Stage::Failed => Stage::Failed,
    }
}
