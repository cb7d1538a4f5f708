//! What an amount is recorded under.
ghost use Rattle.std.specs.Prelude.{◌≡◌};
ghost use Rattle.sql_rows.specs.Keys.{ledger_of, texts_of};

use desk_codes::{AccountId, Bic, Ccy, Isin};

/// A table of amounts.
#[derive(Clone, Copy)]
pub enum Ledger {
    /// What accounts hold of securities.
    Balance,
    /// What participants have of currencies.
    Cash,
    /// What is outstanding of securities, and paid in of currencies less what is paid out.
    Total,
}

/// What an amount is recorded under: quantities by the security's unit, cash in the currency's minor unit.
#[derive(Clone, Copy)]
pub enum AmountKey {
    /// What the account holds of the security.
    Balance(AccountId, Isin),
    /// What the participant has of the currency.
    Cash(Bic, Ccy),
    /// What is outstanding of the security.
    Security(Isin),
    /// What is paid in of the currency less what is paid out.
    Currency(Ccy),
}

impl AmountKey {
    /// The table in which it is recorded.
    pub fn ledger(&self) -> Ledger
        ensures { result ≡ ledger_of self.now }
    {
        match self {
            AmountKey::Balance(_, _) => Ledger::Balance,
            AmountKey::Cash(_, _) => Ledger::Cash,
            AmountKey::Security(_) | AmountKey::Currency(_) => Ledger::Total,
        }
    }

    /// The first text of its row.
    pub(crate) fn first(&self) -> &[u8]
        ensures { result.now ≡ (texts_of self.now).0 }
    {
        match self {
            AmountKey::Balance(account, _) => account.as_bytes(),
            AmountKey::Cash(bic, _) => bic.as_bytes(),
            AmountKey::Security(_) => b"security",
            AmountKey::Currency(_) => b"currency",
        }
    }

    /// The second text of its row.
    pub(crate) fn second(&self) -> &[u8]
        ensures { result.now ≡ (texts_of self.now).1 }
    {
        match self {
            AmountKey::Balance(_, isin) | AmountKey::Security(isin) => isin.as_bytes(),
            AmountKey::Cash(_, ccy) | AmountKey::Currency(ccy) => ccy.as_bytes(),
        }
    }
}
