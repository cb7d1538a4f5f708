//! The unmatched instructions by what opposite instructions have in common.
ghost use Rattle.std.specs.Prelude.{◌≡◌, ◌<◌, ◌≤◌, ℕ, true, false, IfSome, IfNone};
ghost use Rattle.std.specs.BTreeSet.{contains};
ghost use Rattle.desk_register.specs.Looked.{IsFirstOpposite};
ghost use Rattle.memory_rows.specs.RowsView.{view_of_rows};
ghost use Rattle.memory_register.specs.NumbersByKey.{numbered_cmp};
ghost use Rattle.memory_register.specs.Open.{HasOpen, match_cmp, wanted_key};

use crate::collections::numbers_by_key::next_number;
use crate::pairs::match_key::{MatchKey, wanted_key};
use desk_rules::Instructed;
use memory_rows::Rows;
use std::collections::BTreeSet;

/// The next number under the key of what is opposite to an instruction.
fn next_wanted(numbers: &BTreeSet<(MatchKey, u64)>, wanted: &Instructed, from: u64) -> Option<u64>
    ensures there { IfSome result (λ n. contains (numbered_cmp match_cmp) numbers.now (wanted_key wanted.now, n) ≡ true) }
    ensures above { IfSome result (λ n. from ≤ n) }
    ensures least { IfSome result (λ n. (m : ℕ) → from ≤ m → m < n → contains (numbered_cmp match_cmp) numbers.now (wanted_key wanted.now, m) ≡ false) }
    ensures none { IfNone result ((m : ℕ) → from ≤ m → contains (numbered_cmp match_cmp) numbers.now (wanted_key wanted.now, m) ≡ false) }
{
    next_number(numbers, wanted_key(wanted), from)
}

/// The least number of an unmatched instruction that is opposite to one.
pub fn first_open_opposite(
    held: &Rows,
    numbers: &BTreeSet<(MatchKey, u64)>,
    wanted: &Instructed,
) -> Option<u64>
    requires { HasOpen numbers.now (view_of_rows held.now).content }
    ensures { IsFirstOpposite (view_of_rows held.now).content wanted.now result }
{
    let mut from = 0;
    'numbers: while let Some(number) = next_wanted(numbers, wanted, from) {
        if held.is_opposite_at(number, wanted) {
            return Some(number);
        }
        if number >= held.entry_count() {
            return None;
        }
        from = number + 1;
    }
    None
}
