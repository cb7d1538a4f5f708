//! A law of what calls of a register leave, the contract of a function with an empty body.
ghost use Rattle.std.specs.Prelude.{ℕ};
ghost use Rattle.desk_rules.specs.Content.{Content};
ghost use Rattle.desk_register.specs.AddsUp.{AddsUp};
ghost use Rattle.desk_register.specs.Changes.{CanAppend, TriesPair, appended};

use crate::outcome::Outcome;
use desk_rules::{Entry, Reply};

/// `append` and `settle_pair` keep that the sums add up: where accounts and participants hold what is outstanding of each
/// security and currency, they do after an entry is added that can be, and after a pair is tried, whatever comes of it.
pub fn sums_stay()
    ensures append { (room : ℕ) (entry : Entry) (reply : Reply) (content : Content) → AddsUp content → CanAppend room entry reply content
        → AddsUp (appended entry reply content) }
    ensures settle_pair { (n : ℕ) (outcome : Outcome) (old new : Content) → AddsUp old → TriesPair old n outcome new → AddsUp new }
{}
