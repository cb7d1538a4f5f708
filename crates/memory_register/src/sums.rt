//! The securities whose totals are asked for next, and what is outstanding of them, found together in two walks.
ghost use Rattle.std.specs.Prelude.{◌≡◌, ◌≢◌, ◌<◌, ◌≤◌, true, List, None, IfSome};
ghost use Rattle.std.proofs.Common.{get_or};
ghost use Rattle.desk_register.specs.declared.register.Stage.TheVariants.{Failed};
ghost use Rattle.desk_rules.specs.declared.history.entry.Entry.{Entry};
ghost use Rattle.desk_rules.specs.Content.{Content, history_of};
ghost use Rattle.desk_register.specs.Looked.{IsSecurityAfter};
ghost use Rattle.memory_rows.specs.RowsView.{view_of_rows};
ghost use Rattle.memory_rows.specs.Walk.{IsTotal};
ghost use Rattle.memory_register.specs.Registered.{AreRegistered};

use crate::entries::registered::Registered;
use desk_codes::Isin;
use desk_register::Holding;
use memory_rows::Rows;

/// Rows of securities that were found together, each the next after the one before, and how many of them were told; and rows of
/// what is outstanding, with the place of the one that was told last, or of the first. Where `known` is 0 no security is known,
/// where `counted` is 0 no total.
#[derive(Clone, Copy)]
pub struct Sums {
    pub securities: [Option<Isin>; 16],
    pub known: usize,
    pub told: usize,
    pub totals: [Option<Holding>; 16],
    pub counted: usize,
    pub at: usize,
    ghost within: { known ≤ 16 },
    ghost counted_within: { counted ≤ 16 },
}

/// Whether a row is of this security.
fn is_of(row: &Option<Isin>, above: &Option<Isin>) -> bool
    ensures { result ≡ true → row.now ≡ above.now }
{
    match (row, above) {
        (Some(told), Some(isin)) => told == isin,
        _ => false,
    }
}

/// What is outstanding of a security, where a row has it.
fn quantity_in(row: &Option<Holding>, isin: &Isin) -> Option<u64>
    ensures { (content : Content) → IfSome row.now (IsTotal content) → IfSome result (λ quantity. IsTotal content (record { isin = isin.now; quantity = quantity })) }
{
    match row {
        Some(total) if total.isin == *isin => Some(total.quantity),
        _ => None,
    }
}

impl Sums {
    ghost use Rattle.memory_register.specs.Sums.{IsSums, IsNext};

    /// No rows.
    pub fn nothing() -> Sums
        ensures known { result.known ≡ 0 }
        ensures counted { result.counted ≡ 0 }
    {
        Sums {
            securities: [None; 16],
            known: 0,
            told: 0,
            totals: [None; 16],
            counted: 0,
            at: 0,
        }
    }

    /// Forgets all rows.
    pub fn clear(&mut self)
        ensures known { self.new.known ≡ 0 }
        ensures counted { self.new.counted ≡ 0 }
    {
        self.known = 0;
        self.counted = 0;
    }

    /// Whether the next row is known, and the one that was told last is of this security.
    fn has_next(&self, above: &Option<Isin>) -> bool
        ensures { result ≡ true → IsNext self.now above.now }
    {
        if self.told == 0 || self.told >= self.known {
            return false;
        }
        is_of(&self.securities[self.told - 1], above)
    }

    /// The next security.
    fn take_next(&mut self) -> Option<Isin>
        requires { self.old.told < self.old.known }
        ensures row { result ≡ get_or self.old.securities self.old.told None }
        ensures kept { (content : Content) → IsSums content self.old → IsSums content self.new }
    {
        let row = self.securities[self.told];
        self.told += 1;
        row
    }

    /// Looks for what is outstanding, from a security on.
    fn look_for_totals(&mut self, held: &Rows, isin: &Option<Isin>)
        ensures { IsSums (view_of_rows held.now).content self.old → (view_of_rows held.now).stage ≢ Failed → IsSums (view_of_rows held.now).content self.new }
    {
        if let Some(isin) = isin {
            self.counted = held.totals_from(isin, &mut self.totals);
            self.at = 0;
        }
    }

    /// Looks for rows from a security on, and tells the first.
    fn look(&mut self, held: &Rows, registered: &Registered, above: &Option<Isin>) -> Option<Isin>
        ensures found { (history : List Entry) → AreRegistered registered.now history → IsSecurityAfter history above.now result }
        ensures sums { (view_of_rows held.now).stage ≢ Failed → AreRegistered registered.now (history_of (view_of_rows held.now).content) → IsSums (view_of_rows held.now).content self.old
            → IsSums (view_of_rows held.now).content self.new }
    {
        self.known = registered.securities_after(above, &mut self.securities);
        self.told = 1;
        let first = self.securities[0];
        self.look_for_totals(held, &first);
        first
    }

    /// The first registered security above one, or above none.
    pub fn security_after(
        &mut self,
        held: &Rows,
        registered: &Registered,
        above: &Option<Isin>,
    ) -> Option<Isin>
        ensures found { AreRegistered registered.now (history_of (view_of_rows held.now).content) → IsSums (view_of_rows held.now).content self.old
            → IsSecurityAfter (history_of (view_of_rows held.now).content) above.now result }
        ensures sums { (view_of_rows held.now).stage ≢ Failed → AreRegistered registered.now (history_of (view_of_rows held.now).content) → IsSums (view_of_rows held.now).content self.old
            → IsSums (view_of_rows held.now).content self.new }
    {
        if self.has_next(above) {
            return self.take_next();
        }
        self.look(held, registered, above)
    }

    /// What is outstanding of a security, where the row at this place has it.
    fn quantity_at(&self, place: usize, isin: &Isin) -> Option<u64>
        ensures { (content : Content) → IsSums content self.now → IfSome result (λ quantity. IsTotal content (record { isin = isin.now; quantity = quantity })) }
    {
        if place >= self.counted {
            return None;
        }
        quantity_in(&self.totals[place], isin)
    }

    /// What is outstanding of a security, where the row that was told last or the next one has it.
    pub fn total(&mut self, isin: &Isin) -> Option<u64>
        ensures total { (content : Content) → IsSums content self.old → IfSome result (λ quantity. IsTotal content (record { isin = isin.now; quantity = quantity })) }
        ensures sums { (content : Content) → IsSums content self.old → IsSums content self.new }
    {
        let here = self.quantity_at(self.at, isin);
        if here.is_some() {
            return here;
        }
        let next = self.at.saturating_add(1);
        let behind = self.quantity_at(next, isin);
        if behind.is_some() {
            self.at = next;
        }
        behind
    }
}
