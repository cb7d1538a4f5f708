//! The calls of a register that is two.

use crate::mirror::copies::copy_of;
use crate::mirror::course::Phase;
use crate::mirror::mirrored_register::MirroredRegister;
use crate::mirror::told::{follow, known_pair};
use crate::mirror::waiting::{is_in_vain, reason_of_pair};
use desk_codes::{AccountId, Bic, Ccy, Day, Isin, Reference};
use desk_msg::{Instruction, Kind};
use desk_register::{Fault, Holding, MemoryRegister, Outcome, Register, ToldRegister};
use desk_rules::{Entry, Place, Reply, Sender, Sent, Standing};
use std::alloc::Global;

impl<M: MemoryRegister, S: ToldRegister + Drop> Register for MirroredRegister<M, S> {
    ghost use Rattle.std.specs.Prelude.{false};
    ghost use Rattle.desk_file.specs.Both.{shown};

    ghost view = { λ r. shown (M.view r.memory) r.stage (S.view r.tables) };

    ghost in_memory = { false };

    fn begin(&mut self, alloc: Global) -> Result<(), Fault> {
        self.phase.after(self.tables.begin(alloc))?;
        self.memory.begin(alloc).unwrap();
        self.phase = Phase::Begun;
        Ok(())
    }

    fn commit(&mut self, alloc: Global) -> Result<(), Fault> {
        self.phase.after(self.tables.commit(alloc))?;
        self.memory.commit(alloc).unwrap();
        self.phase = Phase::Idle;
        Ok(())
    }

    fn back(&mut self, alloc: Global) -> Result<(), Fault> {
        if matches!(self.phase, Phase::Lost) {
            return Err(Fault::Storage);
        }
        if let Err(fault) = self.tables.back(alloc) {
            self.phase = Phase::Lost;
            return Err(fault);
        }
        self.memory.back(alloc).unwrap();
        self.phase = Phase::Idle;
        Ok(())
    }

    fn limit(&self) -> u64 {
        self.memory.limit()
    }

    fn count(&mut self, alloc: Global) -> Result<u64, Fault> {
        self.phase.after(self.memory.count(alloc))
    }

    fn participant(&mut self, alloc: Global, bic: Bic) -> Result<bool, Fault> {
        self.phase.after(self.memory.participant(alloc, bic))
    }

    fn owner(&mut self, alloc: Global, account: AccountId) -> Result<Option<Bic>, Fault> {
        self.phase.after(self.memory.owner(alloc, account))
    }

    fn security(&mut self, alloc: Global, isin: Isin) -> Result<Option<Kind>, Fault> {
        self.phase.after(self.memory.security(alloc, isin))
    }

    fn outstanding(&mut self, alloc: Global, isin: Isin) -> Result<u64, Fault> {
        self.phase.after(self.memory.outstanding(alloc, isin))
    }

    fn paid(&mut self, alloc: Global, ccy: Ccy) -> Result<Option<u64>, Fault> {
        self.phase.after(self.memory.paid(alloc, ccy))
    }

    fn last_run(&mut self, alloc: Global) -> Result<Option<Day>, Fault> {
        self.phase.after(self.memory.last_run(alloc))
    }

    fn number_of(
        &mut self,
        alloc: Global,
        sender: Sender,
        reference: Reference,
    ) -> Result<Option<u64>, Fault> {
        self.phase
            .after(self.memory.number_of(alloc, sender, reference))
    }

    fn entry(&mut self, alloc: Global, number: u64) -> Result<Option<Entry>, Fault> {
        self.phase.after(self.memory.entry(alloc, number))
    }

    fn standing(&mut self, alloc: Global, number: u64) -> Result<Standing, Fault> {
        self.phase.after(self.memory.standing(alloc, number))
    }

    fn reply(&mut self, alloc: Global, number: u64) -> Result<Option<Reply>, Fault> {
        self.phase.after(self.memory.reply(alloc, number))
    }

    fn first_opposite(
        &mut self,
        alloc: Global,
        sender: Bic,
        instruction: &Instruction,
    ) -> Result<Option<u64>, Fault> {
        self.phase
            .after(self.memory.first_opposite(alloc, sender, instruction))
    }

    fn position(&mut self, alloc: Global, account: AccountId, isin: Isin) -> Result<u64, Fault> {
        self.phase.after(self.memory.position(alloc, account, isin))
    }

    fn cash(&mut self, alloc: Global, bic: Bic, ccy: Ccy) -> Result<u64, Fault> {
        self.phase.after(self.memory.cash(alloc, bic, ccy))
    }

    fn due_pair_after(
        &mut self,
        alloc: Global,
        day: Day,
        place: Option<Place>,
    ) -> Result<Option<Place>, Fault> {
        self.phase
            .after(self.memory.due_pair_after(alloc, day, place))
    }

    fn pair_to_try_after(
        &mut self,
        alloc: Global,
        day: Day,
        place: Option<Place>,
    ) -> Result<Option<Place>, Fault> {
        self.phase
            .after(self.memory.pair_to_try_after(alloc, day, place))
    }

    fn stays_short(&mut self, alloc: Global, place: Place) -> Result<bool, Fault> {
        self.phase.after(self.memory.stays_short(alloc, place))
    }

    fn security_after(&mut self, alloc: Global, isin: Option<Isin>) -> Result<Option<Isin>, Fault> {
        self.phase.after(self.memory.security_after(alloc, isin))
    }

    fn holding_after(
        &mut self,
        alloc: Global,
        account: AccountId,
        isin: Option<Isin>,
    ) -> Result<Option<Holding>, Fault> {
        self.phase
            .after(self.memory.holding_after(alloc, account, isin))
    }

    fn held(&mut self, alloc: Global, isin: Isin) -> Result<u64, Fault> {
        self.phase.after(self.memory.held(alloc, isin))
    }

    fn held_cash(&mut self, alloc: Global, ccy: Ccy) -> Result<u64, Fault> {
        self.phase.after(self.memory.held_cash(alloc, ccy))
    }

    fn sent_count(&mut self, alloc: Global) -> Result<u64, Fault> {
        self.phase.after(self.memory.sent_count(alloc))
    }

    fn sent(&mut self, alloc: Global, bic: Bic, number: u64) -> Result<Option<Sent>, Fault> {
        self.phase.after(self.memory.sent(alloc, bic, number))
    }

    fn confirmation(&mut self, alloc: Global, number: u64) -> Result<Option<Sent>, Fault> {
        self.phase.after(self.memory.confirmation(alloc, number))
    }

    fn append(&mut self, alloc: Global, entry: Entry, reply: Reply) -> Result<(), Fault> {
        let copy = self.phase.copied(reply.try_clone(alloc))?;
        self.append_both(alloc, entry, copy, reply)
    }

    fn pair(&mut self, alloc: Global, earlier: u64, later: u64) -> Result<(), Fault> {
        self.phase.after(self.tables.pair(alloc, earlier, later))?;
        self.phase.after(self.memory.pair(alloc, earlier, later))
    }

    fn settle_pair(&mut self, alloc: Global, number: u64, day: Day) -> Result<Outcome, Fault> {
        let reason = reason_of_pair(alloc, &mut self.memory, number);
        let outcome = self
            .phase
            .after(self.memory.settle_pair(alloc, number, day))?;
        if is_in_vain(reason, outcome) {
            return Ok(outcome);
        }
        let known = known_pair(alloc, &mut self.memory, number);
        let followed = follow(alloc, &mut self.tables, known, number, day, outcome);
        self.phase.after(followed)?;
        Ok(outcome)
    }

    fn cancel(&mut self, alloc: Global, number: u64) -> Result<(), Fault> {
        self.phase.after(self.tables.cancel(alloc, number))?;
        self.phase.after(self.memory.cancel(alloc, number))
    }

    fn cancel_pair(&mut self, alloc: Global, earlier: u64, later: u64) -> Result<(), Fault> {
        self.phase
            .after(self.tables.cancel_pair(alloc, earlier, later))?;
        self.phase
            .after(self.memory.cancel_pair(alloc, earlier, later))
    }

    fn send(&mut self, alloc: Global, message: Sent) -> Result<(), Fault> {
        let copy = self.phase.copied(copy_of(alloc, &message))?;
        self.phase.after(self.tables.send(alloc, message))?;
        self.phase.after(self.memory.send(alloc, copy))
    }
}
