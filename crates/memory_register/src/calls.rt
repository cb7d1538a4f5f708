//! The calls of the register in memory.
ghost use Rattle.std.specs.Prelude.{◌≡◌, ◌≤◌, length};
ghost use Rattle.desk_rules.specs.declared.limits.TheConstants.{MOST_ENTRIES};
ghost use Rattle.desk_register.specs.Changes.{empty_content};
ghost use Rattle.memory_register.specs.ListsView.{view_of_lists};

use crate::ahead::Ahead;
use crate::entries::known::Known;
use crate::list_register::ListRegister;
use crate::noting::{note_entry, note_message, note_pair, touch_both, touch_settled};
use crate::pairs::opposites::first_open_opposite;
use crate::sent::heading::heading_of;
use crate::sent::messages::Messages;
use crate::sums::Sums;
use crate::tidying::{forget_all, forget_messages, tidy_all, tidy_new, tidy_settled};
use desk_codes::{AccountId, Bic, Ccy, Day, Isin, Reference};
use desk_msg::{Instruction, Kind};
use desk_register::{Fault, Holding, Outcome, Register, Stage};
use desk_rules::{Entry, Instructed, Place, Reply, Sender, Sent, Standing};
use memory_rows::Rows;
use memory_short::{Shortages, first_due, first_to_try};
use std::alloc::Global;
use std::collections::BTreeSet;

impl ListRegister {
    /// An empty register for at most `limit` entries, which are `MOST_ENTRIES` at most.
    pub fn new(alloc: Global, limit: u64) -> ListRegister
        requires { limit ≤ MOST_ENTRIES }
        ensures empty { (view_of_lists result).content ≡ empty_content }
        ensures limit { (view_of_lists result).room ≡ limit }
        ensures stage { (view_of_lists result).stage ≡ Stage.Idle }
    {
        ListRegister {
            held: Rows::new(alloc, limit),
            known: Known::new(alloc),
            unmatched: BTreeSet::new(alloc),
            matched: BTreeSet::new(alloc),
            noted: Vec::new(alloc),
            touched: Vec::new(alloc),
            messages: Messages::new(alloc),
            told: Vec::new(alloc),
            shortages: Shortages::new(alloc),
            ahead: Ahead::nothing(),
            sums: Sums::nothing(),
        }
    }

    /// Whether a `begin` is open, and whether a call within it has failed.
    pub fn stage(&self) -> Stage
        ensures { result ≡ (view_of_lists self.now).stage }
    {
        self.held.stage()
    }
}

impl Register for ListRegister {
    ghost use Rattle.std.specs.Prelude.{true};
    ghost use Rattle.memory_register.specs.ListsView.{view_of_lists};

    ghost view = { view_of_lists };

    ghost in_memory = { true };

    fn begin(&mut self, _alloc: Global) -> Result<(), Fault> {
        self.ahead.clear();
        self.sums.clear();
        self.held.begin();
        Ok(())
    }

    fn commit(&mut self, _alloc: Global) -> Result<(), Fault> {
        self.ahead.clear();
        self.sums.clear();
        self.held.commit();
        self.noted.truncate(0);
        self.told.truncate(0);
        tidy_all(
            &self.held,
            &mut self.unmatched,
            &mut self.matched,
            &mut self.touched,
        );
        Ok(())
    }

    fn back(&mut self, _alloc: Global) -> Result<(), Fault> {
        self.ahead.clear();
        self.sums.clear();
        self.held.back();
        let count = self.held.entry_count();
        forget_all(&mut self.known, &mut self.matched, &mut self.noted, count);
        let sent = self.held.message_count();
        forget_messages(&mut self.messages, &mut self.told, sent);
        tidy_all(
            &self.held,
            &mut self.unmatched,
            &mut self.matched,
            &mut self.touched,
        );
        self.shortages.forget();
        Ok(())
    }

    fn limit(&self) -> u64 {
        self.held.limit()
    }

    fn count(&mut self, _alloc: Global) -> Result<u64, Fault> {
        Ok(self.held.entry_count())
    }

    fn participant(&mut self, _alloc: Global, bic: Bic) -> Result<bool, Fault> {
        Ok(self.known.registered.has_participant(&bic))
    }

    fn owner(&mut self, _alloc: Global, account: AccountId) -> Result<Option<Bic>, Fault> {
        Ok(self.known.registered.owner(&self.held, &account))
    }

    fn security(&mut self, _alloc: Global, isin: Isin) -> Result<Option<Kind>, Fault> {
        Ok(self.known.registered.kind(&self.held, &isin))
    }

    fn outstanding(&mut self, _alloc: Global, isin: Isin) -> Result<u64, Fault> {
        if let Some(total) = self.sums.total(&isin) {
            return Ok(total);
        }
        Ok(self.held.total_held(isin))
    }

    fn paid(&mut self, _alloc: Global, ccy: Ccy) -> Result<Option<u64>, Fault> {
        if !self.known.registered.has_currency(&ccy) {
            return Ok(None);
        }
        Ok(Some(self.held.total_paid(ccy)))
    }

    fn last_run(&mut self, _alloc: Global) -> Result<Option<Day>, Fault> {
        Ok(self.known.registered.last_run())
    }

    fn position(&mut self, _alloc: Global, account: AccountId, isin: Isin) -> Result<u64, Fault> {
        Ok(self.held.position_at(account, isin))
    }

    fn cash(&mut self, _alloc: Global, bic: Bic, ccy: Ccy) -> Result<u64, Fault> {
        Ok(self.held.cash_at(bic, ccy))
    }

    fn number_of(
        &mut self,
        _alloc: Global,
        sender: Sender,
        reference: Reference,
    ) -> Result<Option<u64>, Fault> {
        Ok(self.known.keys.number(&sender, &reference))
    }

    fn entry(&mut self, _alloc: Global, number: u64) -> Result<Option<Entry>, Fault> {
        Ok(self.held.entry_at(number))
    }

    fn standing(&mut self, _alloc: Global, number: u64) -> Result<Standing, Fault> {
        Ok(self.held.standing_at(number))
    }

    fn reply(&mut self, alloc: Global, number: u64) -> Result<Option<Reply>, Fault> {
        self.held.reply(alloc, number)
    }

    fn first_opposite(
        &mut self,
        _alloc: Global,
        sender: Bic,
        instruction: &Instruction,
    ) -> Result<Option<u64>, Fault> {
        if let Stage::Failed = self.held.stage() {
            return Ok(None);
        }
        let wanted = Instructed {
            sender,
            instruction: *instruction,
        };
        Ok(first_open_opposite(&self.held, &self.unmatched, &wanted))
    }

    fn due_pair_after(
        &mut self,
        _alloc: Global,
        day: Day,
        place: Option<Place>,
    ) -> Result<Option<Place>, Fault> {
        if let Stage::Failed = self.held.stage() {
            return Ok(None);
        }
        Ok(first_due(&self.held, &self.matched, day.yyyymmdd(), &place))
    }

    fn pair_to_try_after(
        &mut self,
        _alloc: Global,
        day: Day,
        place: Option<Place>,
    ) -> Result<Option<Place>, Fault> {
        if let Stage::Failed = self.held.stage() {
            return Ok(None);
        }
        self.shortages
            .catch_up(&self.held, &self.matched, &self.touched);
        if !self.shortages.is_known {
            return Ok(first_due(&self.held, &self.matched, day.yyyymmdd(), &place));
        }
        Ok(first_to_try(&self.shortages, day.yyyymmdd(), &place))
    }

    fn stays_short(&mut self, _alloc: Global, place: Place) -> Result<bool, Fault> {
        if let Stage::Failed = self.held.stage() {
            return Ok(false);
        }
        self.shortages
            .catch_up(&self.held, &self.matched, &self.touched);
        Ok(self.shortages.passes_over(&place))
    }

    fn security_after(
        &mut self,
        _alloc: Global,
        isin: Option<Isin>,
    ) -> Result<Option<Isin>, Fault> {
        Ok(
            self.sums
                .security_after(&self.held, &self.known.registered, &isin),
        )
    }

    fn holding_after(
        &mut self,
        _alloc: Global,
        account: AccountId,
        isin: Option<Isin>,
    ) -> Result<Option<Holding>, Fault> {
        Ok(self.ahead.holding_after(&self.held, &account, &isin))
    }

    fn held(&mut self, _alloc: Global, isin: Isin) -> Result<u64, Fault> {
        if let Some(total) = self.sums.total(&isin) {
            return Ok(total);
        }
        Ok(self.held.total_held(isin))
    }

    fn held_cash(&mut self, _alloc: Global, ccy: Ccy) -> Result<u64, Fault> {
        Ok(self.held.total_paid(ccy))
    }

    fn append(&mut self, _alloc: Global, entry: Entry, reply: Reply) -> Result<(), Fault> {
        self.ahead.clear();
        self.sums.clear();
        let named = self.known.keys.number_named(&entry);
        let number = self.held.entry_count() + 1;
        if note_entry(
            &mut self.known,
            &mut self.unmatched,
            &mut self.noted,
            &entry,
            number,
        )
        .is_err()
        {
            return Err(self.held.fail());
        }
        self.shortages.note_added(&entry);
        self.held.append(entry, reply, named)
    }

    fn pair(&mut self, _alloc: Global, earlier: u64, later: u64) -> Result<(), Fault> {
        self.ahead.clear();
        self.sums.clear();
        if note_pair(
            &self.held,
            &mut self.matched,
            &mut self.touched,
            earlier,
            later,
        )
        .is_err()
        {
            return Err(self.held.fail());
        }
        self.shortages.note_made(&self.held, later);
        match self.held.pair(earlier, later) {
            Ok(()) => {
                let noted = noted_count(&self.noted);
                tidy_new(
                    &self.held,
                    &mut self.unmatched,
                    &mut self.matched,
                    noted,
                    earlier,
                    later,
                );
                Ok(())
            }
            Err(fault) => Err(fault),
        }
    }

    fn settle_pair(&mut self, alloc: Global, number: u64, day: Day) -> Result<Outcome, Fault> {
        self.ahead.clear();
        self.sums.clear();
        if self.touched.reserve(2).is_err() {
            return Err(self.held.fail());
        }
        match self.held.try_pair(number, day) {
            Ok(tried) => {
                let noted = noted_count(&self.noted);
                tidy_settled(
                    &self.held,
                    &mut self.unmatched,
                    &mut self.matched,
                    noted,
                    number,
                    &tried,
                );
                touch_settled(&mut self.touched, tried.mate, number, tried.outcome);
                self.shortages.note_tried(&self.held, alloc, number, &tried);
                Ok(tried.outcome)
            }
            Err(fault) => Err(fault),
        }
    }

    fn cancel(&mut self, _alloc: Global, number: u64) -> Result<(), Fault> {
        self.ahead.clear();
        self.sums.clear();
        if self.touched.push(number).is_err() {
            return Err(self.held.fail());
        }
        self.held.cancel(number)
    }

    fn cancel_pair(&mut self, _alloc: Global, earlier: u64, later: u64) -> Result<(), Fault> {
        self.ahead.clear();
        self.sums.clear();
        if touch_both(&mut self.touched, earlier, later).is_err() {
            return Err(self.held.fail());
        }
        self.shortages.note_cancelled(&self.held, earlier, later);
        self.held.cancel_pair(earlier, later)
    }

    fn sent_count(&mut self, _alloc: Global) -> Result<u64, Fault> {
        Ok(self.held.message_count())
    }

    fn sent(&mut self, alloc: Global, bic: Bic, number: u64) -> Result<Option<Sent>, Fault> {
        match self.messages.addressed.number(&bic, number) {
            Some(among_all) => self.held.message(alloc, among_all),
            None => Ok(None),
        }
    }

    fn confirmation(&mut self, alloc: Global, number: u64) -> Result<Option<Sent>, Fault> {
        match self.messages.confirmations.number(number) {
            Some(confirming) => self.held.message(alloc, confirming),
            None => Ok(None),
        }
    }

    fn send(&mut self, _alloc: Global, message: Sent) -> Result<(), Fault> {
        self.ahead.clear();
        self.sums.clear();
        let heading = heading_of(&message);
        let number = self.held.message_count() + 1;
        if note_message(&mut self.messages, &mut self.told, &heading, number).is_err() {
            return Err(self.held.fail());
        }
        self.held.send(message)
    }
}

/// How many entries were noted.
fn noted_count(noted: &Vec<Entry>) -> usize
    ensures { result ≡ length noted.now.items }
{
    noted.len()
}
