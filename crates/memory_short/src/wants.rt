//! What pairs that are short wait for.
ghost use Rattle.std.specs.Prelude.{◌≡◌};
ghost use Rattle.memory_rows.specs.Transfers.{moved_by};
ghost use Rattle.memory_short.specs.declared.wants.Want.TheVariants.{MoreCash};
ghost use Rattle.memory_short.specs.Wants.{cash_want, less_given, more_given, more_taken, woken_by};

use desk_codes::{AccountId, Bic, Ccy, Isin};
use desk_msg::Cash;
use desk_register::KnownPair;
use desk_rules::Entry;

/// What has to change before a pair that is short can fare otherwise.
#[derive(Clone, Copy, PartialEq, Eq, PartialOrd, Ord)]
pub enum Want {
    /// That an account holds more of a security
    MoreHeld { account: AccountId, isin: Isin },
    /// That an account holds less of a security
    LessHeld { account: AccountId, isin: Isin },
    /// That a participant has more of a currency
    MoreCash { bic: Bic, ccy: Ccy },
}

/// More on the deliverer's account.
pub fn more_given(pair: &KnownPair) -> Want
    ensures { result ≡ more_given (moved_by pair.now) }
{
    Want::MoreHeld {
        account: pair.deliverer().instruction.account,
        isin: pair.later.instruction.isin,
    }
}

/// Less on the deliverer's account.
pub fn less_given(pair: &KnownPair) -> Want
    ensures { result ≡ less_given (moved_by pair.now) }
{
    Want::LessHeld {
        account: pair.deliverer().instruction.account,
        isin: pair.later.instruction.isin,
    }
}

/// More on the receiver's account.
pub fn more_taken(pair: &KnownPair) -> Want
    ensures { result ≡ more_taken (moved_by pair.now) }
{
    Want::MoreHeld {
        account: pair.receiver().instruction.account,
        isin: pair.later.instruction.isin,
    }
}

/// More of a currency that the receiver has, who pays.
pub fn more_had(pair: &KnownPair, ccy: Ccy) -> Want
    ensures { result ≡ MoreCash (moved_by pair.now).receiver ccy }
{
    Want::MoreCash {
        bic: pair.receiver().sender,
        ccy,
    }
}

/// That a participant has more of the currency in which cash is, if there is cash.
pub fn cash_want(bic: Bic, cash: Option<Cash>) -> Option<Want>
    ensures { result ≡ cash_want bic cash }
{
    match cash {
        Some(asked) => Some(Want::MoreCash {
            bic,
            ccy: asked.ccy,
        }),
        None => None,
    }
}

/// What an entry brings about, of what a pair can wait for.
pub fn woken_by(entry: &Entry) -> Option<Want>
    ensures { result ≡ woken_by entry.now }
{
    match entry {
        Entry::Issue(movement) => Some(Want::MoreHeld {
            account: movement.account,
            isin: movement.isin,
        }),
        Entry::Redeem(movement) => Some(Want::LessHeld {
            account: movement.account,
            isin: movement.isin,
        }),
        Entry::PayIn(payment) => Some(Want::MoreCash {
            bic: payment.bic,
            ccy: payment.ccy,
        }),
        _ => None,
    }
}
