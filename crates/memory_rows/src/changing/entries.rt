//! What one entry says of accounts and securities, and where it stands first.
ghost use Rattle.std.specs.Prelude.{◌≡◌};
ghost use Rattle.desk_register.specs.Changes.{first_standing};
ghost use Rattle.desk_rules.specs.Facts.{kind_by, owner_by};

use desk_codes::{AccountId, Bic, Isin};
use desk_msg::Kind;
use desk_rules::{Entry, Standing, State};

/// The owner that an entry gives an account.
pub fn owner_by(entry: &Entry, account: &AccountId) -> Option<Bic>
    ensures { result ≡ owner_by account.now entry.now }
{
    match entry {
        Entry::Account {
            bic,
            account: added,
            ..
        } if added == account => Some(*bic),
        _ => None,
    }
}

/// How an entry lets a security be counted.
pub fn kind_by(entry: &Entry, isin: &Isin) -> Option<Kind>
    ensures { result ≡ kind_by isin.now entry.now }
{
    match entry {
        Entry::Security {
            isin: added,
            kind,
            ..
        } if added == isin => Some(*kind),
        _ => None,
    }
}

/// Where an entry stands as it is accepted.
pub fn first_standing(entry: &Entry) -> Standing
    ensures { result ≡ first_standing entry.now }
{
    let state = match entry {
        Entry::Instruct { .. } => State::Unmatched,
        _ => State::NoInstruction,
    };
    Standing {
        mate: None,
        state,
        cancel_requested: false,
    }
}
