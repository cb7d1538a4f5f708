//! What is kept of pairs that stay short.
ghost use Rattle.std.specs.Prelude.{◌≡◌, false, []};

use crate::waits::Waits;
use crate::wants::Want;
use desk_rules::Place;
use std::collections::{BTreeMap, BTreeSet};

/// Which matched pairs are known to stay short: all but those that are to be tried. Where memory is wanting what is known is
/// forgotten, and nothing fails.
#[derive(Drop)]
pub struct Shortages {
    /// Where it is false nothing is known of any pair
    pub is_known: bool,
    /// The pairs that are to be tried, by their days and numbers, each with how many tries in vain it takes until it is noted
    pub to_try: BTreeMap<Place, u64>,
    /// What each of the others waits for
    pub waits: Waits,
    /// What came that some wait for, and was not taken up
    pub brought: BTreeSet<Want>,
    /// How many pairs were tried since all was forgotten, where nothing is known
    pub tries: u64,
    /// How many tries of pairs that stay short were saved, and have not paid for a note
    pub saved: u64,
    ghost none_to_try: { is_known ≡ false → to_try.entries ≡ [] },
    ghost none_waits: { is_known ≡ false → waits.entries ≡ [] },
    ghost none_brought: { is_known ≡ false → brought.keys ≡ [] },
}
