//! The calls of a register in SQL.
ghost use Rattle.sql_rows.specs.Messages.{IsSendable};

use crate::fault::{fault_of, told};
use crate::pairing::stand_both;
use crate::settling::state_then;
use crate::sql_register::SqlRegister;
use crate::undoing::take_back;
use crate::{appending, cancelling, looking, settling, walking};
use desk_codes::{AccountId, Bic, Ccy, Day, Isin, Reference};
use desk_msg::{Instruction, Kind, Reason};
use desk_register::{Fault, Holding, KnownPair, Outcome, Register, Stage, ToldRegister};
use desk_rules::{Entry, Lack, Place, Reply, Sender, Sent, Standing, State};
use sql_entries::{
    entry_at, entry_count, is_participant, kind_of, last_run, number_of, owner_of, reply_at,
    security_after,
};
use sql_rows::{AmountKey, add_sent, amount, confirmation_of, sent_at, sent_count, standing};
use sql_tables::control;
use sql_tables::session::Session;
use std::alloc::Global;

/// A message is one that the desk may send.
fn sendable(message: &Sent)
    ensures { IsSendable message.now }
{
    let _ = message.bic.as_bytes();
    let _mt = message.mt;
}

impl<S: Session> Register for SqlRegister<S> {
    ghost use Rattle.std.specs.Prelude.{false};
    ghost use Rattle.sql_register.specs.Kept.{view_of};

    ghost view = { λ r. view_of S.state r };

    ghost in_memory = { false };

    fn begin(&mut self, _alloc: Global) -> Result<(), Fault> {
        match control::begin(&mut self.conn) {
            Ok(_) => {
                self.stage = Stage::Begun;
                Ok(())
            }
            Err(error) => {
                self.failures.add(error);
                Err(fault_of(error))
            }
        }
    }

    fn commit(&mut self, _alloc: Global) -> Result<(), Fault> {
        match control::commit(&mut self.conn) {
            Ok(_) => {
                self.stage = Stage::Idle;
                Ok(())
            }
            Err(error) => {
                self.failures.add(error);
                self.stage = Stage::Failed;
                Err(fault_of(error))
            }
        }
    }

    fn back(&mut self, _alloc: Global) -> Result<(), Fault> {
        self.stage = Stage::Failed;
        match take_back(&mut self.conn) {
            Ok(()) => {
                self.stage = Stage::Idle;
                Ok(())
            }
            Err(error) => {
                self.failures.add(error);
                Err(fault_of(error))
            }
        }
    }

    fn limit(&self) -> u64 {
        self.limit
    }

    fn count(&mut self, _alloc: Global) -> Result<u64, Fault> {
        told(
            &mut self.stage,
            &mut self.failures,
            entry_count(&mut self.conn),
        )
    }

    fn participant(&mut self, _alloc: Global, bic: Bic) -> Result<bool, Fault> {
        told(
            &mut self.stage,
            &mut self.failures,
            is_participant(&mut self.conn, bic),
        )
    }

    fn owner(&mut self, _alloc: Global, account: AccountId) -> Result<Option<Bic>, Fault> {
        told(
            &mut self.stage,
            &mut self.failures,
            owner_of(&mut self.conn, account),
        )
    }

    fn security(&mut self, _alloc: Global, isin: Isin) -> Result<Option<Kind>, Fault> {
        told(
            &mut self.stage,
            &mut self.failures,
            kind_of(&mut self.conn, isin),
        )
    }

    fn outstanding(&mut self, _alloc: Global, isin: Isin) -> Result<u64, Fault> {
        told(
            &mut self.stage,
            &mut self.failures,
            looking::recorded(&mut self.conn, &AmountKey::Security(isin)),
        )
    }

    fn paid(&mut self, _alloc: Global, ccy: Ccy) -> Result<Option<u64>, Fault> {
        told(
            &mut self.stage,
            &mut self.failures,
            amount(&mut self.conn, &AmountKey::Currency(ccy)),
        )
    }

    fn last_run(&mut self, _alloc: Global) -> Result<Option<Day>, Fault> {
        told(
            &mut self.stage,
            &mut self.failures,
            last_run(&mut self.conn),
        )
    }

    fn number_of(
        &mut self,
        _alloc: Global,
        sender: Sender,
        reference: Reference,
    ) -> Result<Option<u64>, Fault> {
        told(
            &mut self.stage,
            &mut self.failures,
            number_of(&mut self.conn, sender, reference),
        )
    }

    fn entry(&mut self, alloc: Global, number: u64) -> Result<Option<Entry>, Fault> {
        told(
            &mut self.stage,
            &mut self.failures,
            entry_at(&mut self.conn, alloc, number),
        )
    }

    fn standing(&mut self, _alloc: Global, number: u64) -> Result<Standing, Fault> {
        told(
            &mut self.stage,
            &mut self.failures,
            standing(&mut self.conn, number),
        )
    }

    fn reply(&mut self, alloc: Global, number: u64) -> Result<Option<Reply>, Fault> {
        told(
            &mut self.stage,
            &mut self.failures,
            reply_at(&mut self.conn, alloc, number),
        )
    }

    fn first_opposite(
        &mut self,
        _alloc: Global,
        sender: Bic,
        instruction: &Instruction,
    ) -> Result<Option<u64>, Fault> {
        told(
            &mut self.stage,
            &mut self.failures,
            walking::first_opposite(&mut self.conn, sender, instruction),
        )
    }

    fn position(&mut self, _alloc: Global, account: AccountId, isin: Isin) -> Result<u64, Fault> {
        told(
            &mut self.stage,
            &mut self.failures,
            looking::recorded(&mut self.conn, &AmountKey::Balance(account, isin)),
        )
    }

    fn cash(&mut self, _alloc: Global, bic: Bic, ccy: Ccy) -> Result<u64, Fault> {
        told(
            &mut self.stage,
            &mut self.failures,
            looking::recorded(&mut self.conn, &AmountKey::Cash(bic, ccy)),
        )
    }

    fn due_pair_after(
        &mut self,
        alloc: Global,
        day: Day,
        place: Option<Place>,
    ) -> Result<Option<Place>, Fault> {
        told(
            &mut self.stage,
            &mut self.failures,
            walking::due_pair_after(&mut self.conn, alloc, day, place),
        )
    }

    fn security_after(
        &mut self,
        _alloc: Global,
        isin: Option<Isin>,
    ) -> Result<Option<Isin>, Fault> {
        told(
            &mut self.stage,
            &mut self.failures,
            security_after(&mut self.conn, isin),
        )
    }

    fn holding_after(
        &mut self,
        _alloc: Global,
        account: AccountId,
        isin: Option<Isin>,
    ) -> Result<Option<Holding>, Fault> {
        told(
            &mut self.stage,
            &mut self.failures,
            looking::holding_after(&mut self.conn, account, isin),
        )
    }

    fn held(&mut self, _alloc: Global, isin: Isin) -> Result<u64, Fault> {
        told(
            &mut self.stage,
            &mut self.failures,
            sql_rows::held(&mut self.conn, isin),
        )
    }

    fn held_cash(&mut self, _alloc: Global, ccy: Ccy) -> Result<u64, Fault> {
        told(
            &mut self.stage,
            &mut self.failures,
            sql_rows::held_cash(&mut self.conn, ccy),
        )
    }

    fn sent_count(&mut self, _alloc: Global) -> Result<u64, Fault> {
        told(
            &mut self.stage,
            &mut self.failures,
            sent_count(&mut self.conn),
        )
    }

    fn sent(&mut self, alloc: Global, bic: Bic, number: u64) -> Result<Option<Sent>, Fault> {
        told(
            &mut self.stage,
            &mut self.failures,
            sent_at(&mut self.conn, alloc, bic, number),
        )
    }

    fn confirmation(&mut self, alloc: Global, number: u64) -> Result<Option<Sent>, Fault> {
        told(
            &mut self.stage,
            &mut self.failures,
            confirmation_of(&mut self.conn, alloc, number),
        )
    }

    fn append(&mut self, _alloc: Global, entry: Entry, reply: Reply) -> Result<(), Fault> {
        told(
            &mut self.stage,
            &mut self.failures,
            appending::append(&mut self.conn, &entry, &reply),
        )
    }

    fn pair(&mut self, _alloc: Global, earlier: u64, later: u64) -> Result<(), Fault> {
        told(
            &mut self.stage,
            &mut self.failures,
            stand_both(
                &mut self.conn,
                earlier,
                later,
                State::Matched(Reason::Future),
            ),
        )
    }

    fn settle_pair(&mut self, alloc: Global, number: u64, _day: Day) -> Result<Outcome, Fault> {
        told(
            &mut self.stage,
            &mut self.failures,
            settling::settle_pair(&mut self.conn, alloc, number),
        )
    }

    fn cancel(&mut self, _alloc: Global, number: u64) -> Result<(), Fault> {
        told(
            &mut self.stage,
            &mut self.failures,
            cancelling::cancel(&mut self.conn, number),
        )
    }

    fn cancel_pair(&mut self, _alloc: Global, earlier: u64, later: u64) -> Result<(), Fault> {
        told(
            &mut self.stage,
            &mut self.failures,
            stand_both(&mut self.conn, earlier, later, State::Cancelled),
        )
    }

    fn send(&mut self, _alloc: Global, message: Sent) -> Result<(), Fault> {
        sendable(&message);
        told(
            &mut self.stage,
            &mut self.failures,
            add_sent(&mut self.conn, &message),
        )
    }
}

impl<S: Session> ToldRegister for SqlRegister<S> {
    fn wait_for(
        &mut self,
        _alloc: Global,
        earlier: u64,
        later: u64,
        lack: Lack,
    ) -> Result<(), Fault> {
        told(
            &mut self.stage,
            &mut self.failures,
            stand_both(
                &mut self.conn,
                earlier,
                later,
                state_then(Outcome::Lacks(lack)),
            ),
        )
    }

    fn settle_told(
        &mut self,
        _alloc: Global,
        pair: &KnownPair,
        _day: Day,
    ) -> Result<Outcome, Fault> {
        told(
            &mut self.stage,
            &mut self.failures,
            settling::settle_found(&mut self.conn, pair),
        )
    }
}
