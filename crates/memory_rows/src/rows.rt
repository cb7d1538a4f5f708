//! What a register in memory keeps.
ghost use Rattle.std.specs.Prelude.{◌≡◌, ◌≢◌, ◌≤◌, []};
ghost use Rattle.memory_rows.specs.BalanceKeys.{HasNoNought};
ghost use Rattle.memory_rows.specs.Balanced.{IsSound};
ghost use Rattle.memory_rows.specs.Lists.{listed, undone};
ghost use Rattle.desk_register.specs.declared.register.Stage.TheVariants.{Idle, Failed};
ghost use Rattle.desk_rules.specs.declared.limits.TheConstants.{MOST_ENTRIES};

use crate::lists::{Change, Lists};
use desk_register::Stage;

/// The entries, where each stands, the balances and the messages. What is changed since `begin` is noted, so that `back` undoes
/// it without a copy of the whole; a balance that fell to 0 stays recorded until `commit` takes it out. Contracts see it by
/// `view_of_rows`.
#[derive(Drop)]
pub struct Rows {
    /// At most `MOST_ENTRIES`
    pub(crate) limit: u64,
    pub(crate) lists: Lists,
    pub(crate) changes: Vec<Change>,
    pub(crate) stage: Stage,
    ghost limited: { limit ≤ MOST_ENTRIES },
    ghost idle: { stage ≡ Idle → changes.items ≡ [] },
    ghost sound: { stage ≢ Failed → IsSound (listed lists) },
    ghost sound_marked: { IsSound (undone changes.items (listed lists)) },
    ghost lean_marked: { HasNoNought (undone changes.items (listed lists)).balances },
}
