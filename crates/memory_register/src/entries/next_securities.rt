//! Securities in the order of their bytes, several in one walk.
ghost use Rattle.std.specs.Prelude.{◌≡◌, ◌<◌, ◌≤◌, ◌-◌, ℕ, List, Option, None, IfSome, length};
ghost use Rattle.std.proofs.Common.{get_or};
ghost use Rattle.std.specs.BTreeMap.{BTreeMap as MapValue};
ghost use Rattle.memory_rows.specs.FollowOn.{FollowOn};
ghost use Rattle.memory_register.specs.SecurityRows.{IsNextSecurity, Walks, start_of};

use desk_codes::Isin;
use std::collections::BTreeMap;
use std::collections::btree_map::Range;
use std::ops::Bound;

/// Where a walk above a security, or above none, begins.
fn start_of(above: &Option<Isin>) -> Bound<Isin>
    ensures { result ≡ start_of above.now }
{
    match above {
        Some(isin) => Bound::Excluded(*isin),
        None => Bound::Unbounded,
    }
}

/// A walk over the securities above one, or above none.
fn walk_from<'a>(securities: &'a BTreeMap<Isin, u64>, above: &Option<Isin>) -> Range<'a, Isin, u64>
    ensures { Walks securities.now above.now result }
{
    securities.range((start_of(above), Bound::Unbounded))
}

/// The next security of a walk.
fn next_on(walk: &mut Range<'_, Isin, u64>) -> Option<Isin>
    ensures next { (securities : MapValue (List ℕ) ℕ) (above : Option (List ℕ)) → Walks securities above walk.old → IsNextSecurity securities above result }
    ensures behind { (securities : MapValue (List ℕ) ℕ) (above : Option (List ℕ)) → Walks securities above walk.old → IfSome result (λ isin. Walks securities (Some isin) walk.new) }
{
    match walk.next() {
        Some((isin, _)) => Some(*isin),
        None => None,
    }
}

/// Puts the first security above one, or above none, into the first row, and into each further row the first above that of the
/// row before, as far as there are rows and securities. Gives how many rows were written; the last is None where there is no
/// more.
pub fn securities_after(
    securities: &BTreeMap<Isin, u64>,
    above: &Option<Isin>,
    rows: &mut [Option<Isin>],
) -> usize
    requires { 0 < length rows.old }
    ensures first { IsNextSecurity securities.now above.now (get_or rows.new 0 None) }
    ensures further { FollowOn (IsNextSecurity securities.now) rows.new result }
    ensures some { 0 < result }
    ensures most { result ≤ length rows.new }
    ensures full { result < length rows.new → get_or rows.new (result - 1) None ≡ None }
{
    let mut walk = walk_from(securities, above);
    let mut last = next_on(&mut walk);
    rows[0] = last;
    for count in 1..rows.len() {
        if last.is_none() {
            return count;
        }
        last = next_on(&mut walk);
        rows[count] = last;
    }
    rows.len()
}
