//! What accounts hold, and participants have.

use desk_codes::{AccountId, Bic, Ccy};
use desk_msg::StatementRow;

/// A security that an account holds; or that it holds none.
#[derive(Clone, Copy)]
pub struct AccountRow {
    pub account: AccountId,
    /// The participant whose account it is
    pub owner: Bic,
    /// The security, and how much of it, in units or by face amount; None where the account holds nothing at all
    pub holding: Option<StatementRow>,
}

/// A currency of which a participant has some.
#[derive(Clone, Copy)]
pub struct CashRow {
    pub bic: Bic,
    pub ccy: Ccy,
    /// In minor units
    pub amount: u64,
}
