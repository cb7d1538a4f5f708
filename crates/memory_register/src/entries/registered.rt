//! What the entries register: participants, accounts, securities, currencies that were paid in, and runs.
ghost use Rattle.std.specs.Prelude.{◌≡◌, ◌<◌, ◌≤◌, ◌+◌, ◌++◌, ◌∷◌, [], ℕ, List, None, length, map, option_map, OnOk, OnErr};
ghost use Rattle.std.specs.List.{list_any};
ghost use Rattle.desk_codes.specs.Number.{number_of};
ghost use Rattle.desk_register.specs.Looked.{IsSecurityAfter, pays_in};
ghost use Rattle.desk_rules.specs.declared.history.entry.Entry.{Entry as EntryValue};
ghost use Rattle.desk_rules.specs.Content.{history_of};
ghost use Rattle.desk_rules.specs.Facts.{is_participant, kind_of, last_run, owner_of};
ghost use Rattle.std.proofs.Common.{get_or};
ghost use Rattle.memory_rows.specs.FollowOn.{FollowOn};
ghost use Rattle.memory_rows.specs.RowsView.{view_of_rows};
ghost use Rattle.memory_register.specs.Registered.{AreRegistered};

use crate::entries::first_numbers::{put_first, take_number};
use crate::entries::next_securities::securities_after;
use desk_codes::{AccountId, Bic, Ccy, Day, Isin};
use desk_msg::Kind;
use desk_rules::Entry;
use memory_rows::Rows;
use std::alloc::{AllocError, Global};
use std::collections::BTreeMap;

/// What the entries register: the number of the first entry that registers each participant, account or security, or
/// pays in a currency, and the days of the runs one after another.
#[derive(Drop)]
pub struct Registered {
    pub participants: BTreeMap<Bic, u64>,
    pub accounts: BTreeMap<AccountId, u64>,
    pub securities: BTreeMap<Isin, u64>,
    pub currencies: BTreeMap<Ccy, u64>,
    pub runs: Vec<Day>,
}

impl Registered {
    /// Nothing registered.
    pub fn new(alloc: Global) -> Registered
        ensures { AreRegistered result [] }
    {
        Registered {
            participants: BTreeMap::new(alloc),
            accounts: BTreeMap::new(alloc),
            securities: BTreeMap::new(alloc),
            currencies: BTreeMap::new(alloc),
            runs: Vec::new(alloc),
        }
    }

    /// Notes what an entry registers, which has this number.
    pub fn note(&mut self, entry: &Entry, number: u64) -> Result<(), AllocError>
        ensures noted { (history : List EntryValue) → AreRegistered self.old history → number ≡ length history + 1
            → OnOk result (AreRegistered self.new (history ++ entry.now ∷ [])) }
        ensures err { (history : List EntryValue) → AreRegistered self.old history → OnErr result (AreRegistered self.new history) }
    {
        match entry {
            Entry::Participant { bic, .. } => put_first(&mut self.participants, *bic, number),
            Entry::Account { account, .. } => put_first(&mut self.accounts, *account, number),
            Entry::Security { isin, .. } => put_first(&mut self.securities, *isin, number),
            Entry::PayIn(payment) => put_first(&mut self.currencies, payment.ccy, number),
            Entry::Run { day, .. } => {
                self.runs.reserve(1)?;
                self.runs.push(*day).unwrap();
                Ok(())
            }
            _ => Ok(()),
        }
    }

    /// Forgets what the last entry registers, which has this number. No memory is taken.
    pub fn forget(&mut self, entry: &Entry, number: u64)
        ensures { (history : List EntryValue) → AreRegistered self.old (history ++ entry.now ∷ []) → number ≡ length history + 1
            → AreRegistered self.new history }
    {
        match entry {
            Entry::Participant { bic, .. } => take_number(&mut self.participants, *bic, number),
            Entry::Account { account, .. } => take_number(&mut self.accounts, *account, number),
            Entry::Security { isin, .. } => take_number(&mut self.securities, *isin, number),
            Entry::PayIn(payment) => take_number(&mut self.currencies, payment.ccy, number),
            Entry::Run { .. } => drop_last(&mut self.runs),
            _ => {}
        }
    }

    /// Whether a BIC is a participant's.
    pub fn has_participant(&self, bic: &Bic) -> bool
        ensures { (history : List EntryValue) → AreRegistered self.now history → result ≡ is_participant history bic.now }
    {
        self.participants.contains_key(bic)
    }

    /// Whether cash of a currency was ever paid in.
    pub fn has_currency(&self, ccy: &Ccy) -> bool
        ensures { (history : List EntryValue) → AreRegistered self.now history → result ≡ list_any (pays_in ccy.now) history }
    {
        self.currencies.contains_key(ccy)
    }

    /// Whose an account is.
    pub fn owner(&self, held: &Rows, account: &AccountId) -> Option<Bic>
        ensures { AreRegistered self.now (history_of (view_of_rows held.now).content) → result ≡ owner_of (history_of (view_of_rows held.now).content) account.now }
    {
        held.owner_at(self.accounts.get(account).copied()?, account)
    }

    /// How a security is counted.
    pub fn kind(&self, held: &Rows, isin: &Isin) -> Option<Kind>
        ensures { AreRegistered self.now (history_of (view_of_rows held.now).content) → result ≡ kind_of (history_of (view_of_rows held.now).content) isin.now }
    {
        held.kind_at(self.securities.get(isin).copied()?, isin)
    }

    /// The day of the last run.
    pub fn last_run(&self) -> Option<Day>
        ensures { (history : List EntryValue) → AreRegistered self.now history → option_map number_of result ≡ last_run history }
    {
        self.runs.last().copied()
    }

    /// Puts the first security above one, or above none, in the order of bytes, into the first row, and into each further row
    /// the first above that of the row before, as far as there are rows and securities. Gives how many rows were written.
    pub fn securities_after(&self, above: &Option<Isin>, rows: &mut [Option<Isin>]) -> usize
        requires { 0 < length rows.old }
        ensures first { (history : List EntryValue) → AreRegistered self.now history → IsSecurityAfter history above.now (get_or rows.new 0 None) }
        ensures further { (history : List EntryValue) → AreRegistered self.now history → FollowOn (IsSecurityAfter history) rows.new result }
        ensures some { 0 < result }
        ensures most { result ≤ length rows.new }
    {
        securities_after(&self.securities, above, rows)
    }
}

/// Takes off the last run.
fn drop_last(runs: &mut Vec<Day>)
    ensures { (days : List ℕ) (last : ℕ) → map number_of runs.old.items ≡ days ++ last ∷ [] → map number_of runs.new.items ≡ days }
{
    let _ = runs.pop();
}
