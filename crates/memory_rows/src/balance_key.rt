//! What an amount is of, and the order in which balances stand.

use desk_codes::{AccountId, Bic, Ccy, Isin};

/// What an amount is of. In the order of the keys the positions of an account stand together, in the order of their
/// ISINs.
#[derive(Clone, Copy, PartialEq, Eq, PartialOrd, Ord)]
pub enum BalanceKey {
    /// A security on an account
    Position { account: AccountId, isin: Isin },
    /// What is outstanding of a security
    Outstanding { isin: Isin },
    /// The cash of a participant in a currency, in minor units
    Cash { bic: Bic, ccy: Ccy },
    /// What is paid in of a currency less what is paid out, in minor units
    Paid { ccy: Ccy },
}
