//! What the register in memory keeps.
ghost use Rattle.memory_rows.specs.RowsView.{view_of_rows};
ghost use Rattle.memory_register.specs.Ahead.{HoldsAhead};
ghost use Rattle.memory_short.specs.DuePlaces.{HoldsMatched};
ghost use Rattle.memory_register.specs.Indexed.{IsIndexed};
ghost use Rattle.memory_register.specs.Messages.{IsTold};
ghost use Rattle.memory_register.specs.OneAhead.{holds_ahead_prop, holds_sums_prop};
ghost use Rattle.memory_short.specs.OneShortage.{holds_matched_prop, holds_short_prop};
ghost use Rattle.memory_short.specs.Shortages.{HoldsShort};
ghost use Rattle.memory_register.specs.Sums.{HoldsSums};

use crate::ahead::Ahead;
use crate::entries::known::Known;
use crate::pairs::match_key::MatchKey;
use crate::sent::heading::Heading;
use crate::sent::messages::Messages;
use crate::sums::Sums;
use desk_rules::{Entry, Place};
use memory_rows::Rows;
use memory_short::Shortages;
use std::collections::BTreeSet;

/// The register in memory: its rows, with look-ups beside them. What it holds is what the rows hold; all else follows from them,
/// and is kept so that no call walks the entries. Contracts see it by `view_of_lists`. What is known by keys is exact, and so are
/// the messages. The two sets may have too much, never too little: what they find is looked at in the rows. With nothing touched
/// the matched pairs are exact. A pair that is known to stay short does; of others nothing is said.
#[derive(Drop)]
pub struct ListRegister {
    pub(crate) held: Rows,
    /// What is asked for by a key: references, and what is registered
    pub(crate) known: Known,
    /// The unmatched instructions by their match keys, and some that are matched since `begin` or were taken back: for the first
    /// opposite one
    pub(crate) unmatched: BTreeSet<(MatchKey, u64)>,
    /// The matched pairs by their days and numbers, and some that are settled or cancelled since `begin`: for the next due one
    pub(crate) matched: BTreeSet<Place>,
    /// What was added since `begin`: `back` forgets it of what is known
    pub(crate) noted: Vec<Entry>,
    /// The numbers that came to stand otherwise since `begin`: where there are none the matched pairs are exact
    pub(crate) touched: Vec<u64>,
    /// Where in the rows a participant's messages are, and what confirms an instruction
    pub(crate) messages: Messages,
    /// What was sent since `begin`: `back` forgets it of the messages
    pub(crate) told: Vec<Heading>,
    /// The matched pairs that are known to stay short: a run passes over them
    pub(crate) shortages: Shortages,
    /// Rows of the statement that was asked for last
    pub(crate) ahead: Ahead,
    /// Rows of the totals that were asked for last
    pub(crate) sums: Sums,
    ghost indexed: { IsIndexed (view_of_rows held) known unmatched matched noted.items },
    ghost sent_indexed: { IsTold (view_of_rows held) messages told.items },
    ghost matched_only: { HoldsMatched (view_of_rows held) matched noted.items touched.items } by { holds_matched_prop (view_of_rows held) matched noted.items touched.items },
    ghost shortages_known: { HoldsShort (view_of_rows held) shortages } by { holds_short_prop (view_of_rows held) shortages },
    ghost rows_ahead: { HoldsAhead (view_of_rows held) ahead } by { holds_ahead_prop (view_of_rows held) ahead },
    ghost rows_summed: { HoldsSums (view_of_rows held) sums } by { holds_sums_prop (view_of_rows held) sums },
}
