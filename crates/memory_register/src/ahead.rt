//! The holdings that a statement asks for next, found together in one walk.
ghost use Rattle.std.specs.Prelude.{◌≡◌, ◌<◌, ◌≤◌, true, None, option_map};
ghost use Rattle.std.proofs.Common.{get_or};
ghost use Rattle.desk_rules.specs.Content.{Content};
ghost use Rattle.desk_register.specs.Looked.{IsHoldingAfter};
ghost use Rattle.memory_rows.specs.RowsView.{view_of_rows};

use desk_codes::{AccountId, Isin};
use desk_register::Holding;
use memory_rows::Rows;

/// Rows of an account that were found together, each the next after the one before, and how many of them were told. Where
/// `known` is 0 no row is known.
#[derive(Clone, Copy)]
pub struct Ahead {
    pub account: Option<AccountId>,
    pub rows: [Option<Holding>; 16],
    pub known: usize,
    pub told: usize,
    ghost within: { known ≤ 16 },
}

/// Whether a row is of this security.
fn is_of(row: &Option<Holding>, above: &Option<Isin>) -> bool
    ensures { result ≡ true → option_map (λ holding. holding.isin) row.now ≡ above.now }
{
    match (row, above) {
        (Some(holding), Some(isin)) => holding.isin == *isin,
        _ => false,
    }
}

impl Ahead {
    ghost use Rattle.memory_register.specs.Ahead.{IsAhead, IsNext};

    /// No rows.
    pub fn nothing() -> Ahead
        ensures { result.known ≡ 0 }
    {
        Ahead {
            account: None,
            rows: [None; 16],
            known: 0,
            told: 0,
        }
    }

    /// Forgets all rows.
    pub fn clear(&mut self)
        ensures { self.new.known ≡ 0 }
    {
        self.known = 0;
    }

    /// Whether the next row is known, and the one that was told last is of this account and security.
    fn has_next(&self, account: &AccountId, above: &Option<Isin>) -> bool
        ensures { result ≡ true → IsNext self.now account.now above.now }
    {
        if self.told == 0 || self.told >= self.known {
            return false;
        }
        match &self.account {
            Some(own) => own == account && is_of(&self.rows[self.told - 1], above),
            None => false,
        }
    }

    /// The next row.
    fn take_next(&mut self) -> Option<Holding>
        requires { self.old.told < self.old.known }
        ensures row { result ≡ get_or self.old.rows self.old.told None }
        ensures kept { (content : Content) → IsAhead content self.old → IsAhead content self.new }
    {
        let row = self.rows[self.told];
        self.told += 1;
        row
    }

    /// Looks for rows from a security on, and tells the first.
    fn look(&mut self, held: &Rows, account: &AccountId, above: &Option<Isin>) -> Option<Holding>
        ensures found { IsHoldingAfter (view_of_rows held.now).content account.now above.now result }
        ensures ahead { IsAhead (view_of_rows held.now).content self.new }
    {
        self.account = Some(*account);
        self.known = held.holdings_after(account, above, &mut self.rows);
        self.told = 1;
        self.rows[0]
    }

    /// The first holding of an account above a security, or above none.
    pub fn holding_after(
        &mut self,
        held: &Rows,
        account: &AccountId,
        above: &Option<Isin>,
    ) -> Option<Holding>
        ensures found { IsAhead (view_of_rows held.now).content self.old → IsHoldingAfter (view_of_rows held.now).content account.now above.now result }
        ensures ahead { IsAhead (view_of_rows held.now).content self.old → IsAhead (view_of_rows held.now).content self.new }
    {
        if self.has_next(account, above) {
            return self.take_next();
        }
        self.look(held, account, above)
    }
}
