//! What is outstanding of securities one after another.
ghost use Rattle.std.specs.Prelude.{◌≤◌, length};
ghost use Rattle.memory_rows.specs.Lists.{listed};
ghost use Rattle.memory_rows.specs.Walk.{AreOutstanding};

use crate::balance_key::BalanceKey;
use crate::lists::Lists;
use desk_codes::Isin;
use desk_register::Holding;
use std::ops::Bound;

/// Puts what is outstanding of securities into rows, from one on in the order of the ISINs, as far as there are rows and
/// balances. Gives how many rows were written.
pub fn totals_from(lists: &Lists, isin: &Isin, rows: &mut [Option<Holding>]) -> usize
    ensures outstanding { AreOutstanding (listed lists.now) rows.new result }
    ensures most { result ≤ length rows.new }
{
    let mut count = 0;
    let start = BalanceKey::Outstanding { isin: *isin };
    for (key, amount) in lists
        .balances
        .range((Bound::Included(start), Bound::Unbounded))
    {
        let BalanceKey::Outstanding { isin } = key else {
            return count;
        };
        if count >= rows.len() {
            return count;
        }
        rows[count] = Some(Holding {
            isin: *isin,
            quantity: *amount,
        });
        count += 1;
    }
    count
}
