//! The lists that the rows are kept in, and their changes that can be undone.
ghost use Rattle.std.specs.Prelude.{◌≡◌, false, length};
ghost use Rattle.std.specs.BTreeMap.{get};
ghost use Rattle.memory_rows.specs.BalanceKeys.{balance_cmp, HasNoNought, HasNoneBelow};

use crate::balance_key::BalanceKey;
use desk_rules::{Kept, Sent, Standing};
use std::collections::BTreeMap;

/// A change of the lists, with what is needed to undo it.
#[derive(Clone, Copy)]
pub enum Change {
    /// An entry was added.
    Appended,
    /// An entry came to stand otherwise; it stood so.
    Stood { index: usize, was: Standing },
    /// A message was sent.
    Sent,
    /// A balance was put; it was so much, or there was none.
    Moved { key: BalanceKey, was: Option<u64> },
}

/// The entries with their replies, where each stands, the balances by their keys, and what was sent.
#[derive(Drop)]
pub struct Lists {
    pub kept: Vec<Kept>,
    pub standings: Vec<Standing>,
    pub balances: BTreeMap<BalanceKey, u64>,
    pub sent: Vec<Sent>,
    /// Whether a balance may be recorded as 0: where none is, `commit` walks none
    pub may_have_nought: bool,
    ghost standing_each: { length standings.items ≡ length kept.items },
    ghost floored: { HasNoneBelow (get balance_cmp balances) },
    ghost lean: { may_have_nought ≡ false → HasNoNought (get balance_cmp balances) },
}
