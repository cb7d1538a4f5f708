//! What is asked of the rows. All but `fail` only reads.
ghost use Rattle.std.specs.Prelude.{◌≡◌, ◌≢◌, ◌↔◌, ◌+◌, ◌-◌, ◌<◌, ◌≤◌, None, Some, IsTrue, IfSome, IfNone, IfOk, length, option_and_then, option_map};
ghost use Rattle.std.proofs.Common.{get_or};
ghost use Rattle.desk_rules.specs.declared.history.entry.Instructed.{Instructed as InstructedValue};
ghost use Rattle.desk_rules.specs.declared.history.pair.Place.{Place};
ghost use Rattle.desk_rules.specs.Balances.{issued, paid_in, paid_out, redeemed};
ghost use Rattle.desk_rules.specs.Facts.{kind_by, owner_by};
ghost use Rattle.desk_rules.specs.History.{entry_at, instruction_at};
ghost use Rattle.desk_rules.specs.Content.{history_of};
ghost use Rattle.desk_rules.specs.Questions.{sent_at};
ghost use Rattle.desk_register.specs.Looked.{held_cash_of, held_of, reply_at, IsDue, IsHoldingAfter, IsOppositeAt};
ghost use Rattle.desk_register.specs.View.{Falls, IsLater, IsRead};
ghost use Rattle.memory_rows.specs.RowsView.{view_of_rows};
ghost use Rattle.memory_rows.specs.Walk.{AreNextHoldings, AreTotals};

use crate::balance_key::BalanceKey;
use crate::balances::balance_of;
use crate::calls::fallen;
use crate::changing::entries;
use crate::changing::tried::pair_of;
use crate::looking::{by_number, due_pairs, messages, next_holding, opposites, totals};
use crate::rows::Rows;
use desk_codes::{AccountId, Bic, Ccy, Day, Isin};
use desk_msg::Kind;
use desk_register::{Fault, Holding, KnownPair, Stage};
use desk_rules::{Entry, Instructed, Place, Reply, Sent, Standing};
use std::alloc::Global;

impl Rows {
    /// How many entries there are.
    pub fn entry_count(&self) -> u64
        ensures { result ≡ length (view_of_rows self.now).content.register }
    {
        self.lists.kept.len() as u64
    }

    /// The entry of a number; None where there is none.
    pub fn entry_at(&self, number: u64) -> Option<Entry>
        ensures { result ≡ entry_at (history_of (view_of_rows self.now).content) number }
    {
        by_number::entry(&self.lists, number)
    }

    /// The instruction of a number; None where there is none.
    pub fn instruction_at(&self, number: u64) -> Option<Instructed>
        ensures { result ≡ instruction_at (history_of (view_of_rows self.now).content) number }
    {
        by_number::instruction(&self.lists, number)
    }

    /// The settlement day of the instruction of a number; None where there is none.
    pub fn day_of(&self, number: u64) -> Option<Day>
        ensures { result ≡ option_map (λ i. i.instruction.day) (instruction_at (history_of (view_of_rows self.now).content) number) }
    {
        let (_, instruction) = by_number::kept_instruction(&self.lists, number)?;
        Some(instruction.day)
    }

    /// What an account holds of a security.
    pub fn position_at(&self, account: AccountId, isin: Isin) -> u64
        ensures { result ≡ (view_of_rows self.now).content.position account isin }
    {
        balance_of(&self.lists, &BalanceKey::Position { account, isin })
    }

    /// What a participant has of a currency, in minor units.
    pub fn cash_at(&self, bic: Bic, ccy: Ccy) -> u64
        ensures { result ≡ (view_of_rows self.now).content.cash bic ccy }
    {
        balance_of(&self.lists, &BalanceKey::Cash { bic, ccy })
    }

    /// The pair of two numbers, the earlier first. Both are those of instructions.
    pub fn pair_of(&self, mate: u64, number: u64) -> KnownPair
        requires { (first second : InstructedValue) × (instruction_at (history_of (view_of_rows self.now).content) mate ≡ Some first) × (instruction_at (history_of (view_of_rows self.now).content) number ≡ Some second) }
        ensures { (first second : InstructedValue) → instruction_at (history_of (view_of_rows self.now).content) mate ≡ Some first → instruction_at (history_of (view_of_rows self.now).content) number ≡ Some second
            → result ≡ record { mate = mate; number = number; earlier = first; later = second } }
    {
        pair_of(&self.lists, mate, number)
    }

    /// Where the entry of a number stands.
    pub fn standing_at(&self, number: u64) -> Standing
        ensures { result ≡ (view_of_rows self.now).content.standing number }
    {
        by_number::standing(&self.lists, number)
    }

    /// Whether the instruction of a number is unmatched, and opposite to one.
    pub fn is_opposite_at(&self, number: u64, wanted: &Instructed) -> bool
        ensures { IsTrue result ↔ IsOppositeAt (view_of_rows self.now).content wanted.now number }
    {
        opposites::is_opposite_at(&self.lists, number, wanted)
    }

    /// The place of a number's matched pair, where it is due by a day and above a place.
    pub fn due_place(&self, number: u64, day: u64, above: &Option<Place>) -> Option<Place>
        ensures found { IfSome result (λ p. (p.number ≡ number) × IsDue (view_of_rows self.now).content day above.now p) }
        ensures none { IfNone result ((p : Place) → p.number ≡ number → IsDue (view_of_rows self.now).content day above.now p → ⊥) }
    {
        due_pairs::due_place(&self.lists, number, day, above)
    }

    /// The owner that the entry of a number gives an account.
    pub fn owner_at(&self, number: u64, account: &AccountId) -> Option<Bic>
        ensures { result ≡ option_and_then (owner_by account.now) (entry_at (history_of (view_of_rows self.now).content) number) }
    {
        entries::owner_by(by_number::kept_entry(&self.lists, number)?, account)
    }

    /// The kind that the entry of a number gives a security.
    pub fn kind_at(&self, number: u64, isin: &Isin) -> Option<Kind>
        ensures { result ≡ option_and_then (kind_by isin.now) (entry_at (history_of (view_of_rows self.now).content) number) }
    {
        entries::kind_by(by_number::kept_entry(&self.lists, number)?, isin)
    }

    /// What was issued of a security less what was redeemed, which all registered accounts hold together.
    pub fn total_held(&self, isin: Isin) -> u64
        ensures outstanding { (view_of_rows self.now).stage ≢ Stage.Failed
            → redeemed (history_of (view_of_rows self.now).content) isin + result ≡ issued (history_of (view_of_rows self.now).content) isin }
        ensures held { (view_of_rows self.now).stage ≢ Stage.Failed → result ≡ held_of (view_of_rows self.now).content isin }
    {
        balance_of(&self.lists, &BalanceKey::Outstanding { isin })
    }

    /// Puts into rows what is outstanding of securities, from one on in the order of the ISINs, as far as there are rows and
    /// balances; all registered accounts together hold as much. Gives how many rows were written. That each is true of its
    /// security is all that is promised: not which securities these are.
    pub fn totals_from(&self, isin: &Isin, rows: &mut [Option<Holding>]) -> usize
        ensures totals { (view_of_rows self.now).stage ≢ Stage.Failed → AreTotals (view_of_rows self.now).content rows.new result }
        ensures most { result ≤ length rows.new }
    {
        totals::totals_from(&self.lists, isin, rows)
    }

    /// What was paid in of a currency less what was paid out, which all participants have together; 0 before any pay in.
    pub fn total_paid(&self, ccy: Ccy) -> u64
        ensures paid { (view_of_rows self.now).stage ≢ Stage.Failed
            → paid_out (history_of (view_of_rows self.now).content) ccy + result ≡ paid_in (history_of (view_of_rows self.now).content) ccy }
        ensures had { (view_of_rows self.now).stage ≢ Stage.Failed → result ≡ held_cash_of (view_of_rows self.now).content ccy }
    {
        balance_of(&self.lists, &BalanceKey::Paid { ccy })
    }

    /// Puts the first holding of an account above a security, or above none, into the first row, and into each further row the
    /// first above that of the row before, in the order of the ISINs, as far as there are rows and holdings. Gives how many
    /// rows were written; the last is None where no more is held.
    pub fn holdings_after(
        &self,
        account: &AccountId,
        above: &Option<Isin>,
        rows: &mut [Option<Holding>],
    ) -> usize
        requires { 0 < length rows.old }
        ensures first { IsHoldingAfter (view_of_rows self.now).content account.now above.now (get_or rows.new 0 None) }
        ensures further { AreNextHoldings (view_of_rows self.now).content account.now rows.new result }
        ensures some { 0 < result }
        ensures most { result ≤ length rows.new }
        ensures full { result < length rows.new → get_or rows.new (result - 1) None ≡ None }
    {
        next_holding::holdings_after(&self.lists, account, above, rows)
    }

    /// A copy of the reply that is kept with the entry of this number; None where there is none. The call of a register that
    /// asks for it fails as this does.
    pub fn reply(&mut self, alloc: Global, number: u64) -> Result<Option<Reply>, Fault>
        ensures value { IfOk result (λ r. r ≡ reply_at (view_of_rows self.old).content number) }
        ensures read { IsRead result (view_of_rows self.old) (view_of_rows self.new) }
    {
        match by_number::reply(&self.lists, alloc, number) {
            Ok(found) => Ok(found),
            Err(_) => {
                self.stage = fallen(self.stage);
                Err(Fault::Memory)
            }
        }
    }

    /// How many messages were sent.
    pub fn message_count(&self) -> u64
        ensures { result ≡ length (view_of_rows self.now).content.sent }
    {
        self.lists.sent.len() as u64
    }

    /// A copy of the message of this number among all that were sent, counted from 1; None where there is none. The call
    /// of a register that asks for it fails as this does.
    pub fn message(&mut self, alloc: Global, number: u64) -> Result<Option<Sent>, Fault>
        ensures value { IfOk result (λ r. r ≡ sent_at (view_of_rows self.old).content.sent number) }
        ensures read { IsRead result (view_of_rows self.old) (view_of_rows self.new) }
    {
        match messages::message(&self.lists.sent, alloc, number) {
            Ok(found) => Ok(found),
            Err(_) => {
                self.stage = fallen(self.stage);
                Err(Fault::Memory)
            }
        }
    }

    /// Lets what was begun fail, where a look-up beside the lists wants memory.
    pub fn fail(&mut self) -> Fault
        requires { (view_of_rows self.old).stage ≡ Stage.Begun }
        ensures fault { result ≡ Fault.Memory }
        ensures stage { (view_of_rows self.new).stage ≡ Stage.Failed }
        ensures content { (view_of_rows self.new).content ≡ (view_of_rows self.old).content }
        ensures mark { (view_of_rows self.new).mark ≡ (view_of_rows self.old).mark }
        ensures falls { Falls (view_of_rows self.old) (view_of_rows self.new) }
        ensures later { IsLater (view_of_rows self.old) (view_of_rows self.new) }
    {
        self.stage = Stage::Failed;
        Fault::Memory
    }
}
