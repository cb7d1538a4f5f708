//! The calls that read the tables. Of each it is said whether it finds something.

use crate::damaged::keys::Keys;
use desk_codes::Ccy;
use desk_rules::{Sender, State};
use sql_entries::{
    entry_at, entry_count, is_participant, kind_of, last_run, next_opposite, number_of, owner_of,
    reply_at, security_after,
};
use sql_rows::{
    AmountKey, amount, confirmation_of, held, held_cash, next_holding, next_matched, sent_at,
    sent_count, standing,
};
use sql_tables::session::Session;
use sql_tables::version::version;
use sqlite::Error;
use std::alloc::Global;

/// Of the amounts of `sql_rows`: `amount` of a key of each kind, and the others.
#[derive(Clone, Copy)]
pub enum AmountCall {
    Balance,
    Cash,
    Security,
    Currency,
    NextHolding,
    Held,
    HeldCash,
}

/// Of `sql_entries`, by number.
#[derive(Clone, Copy)]
pub enum EntryCall {
    EntryCount,
    EntryAt,
    ReplyAt,
}

/// Of `sql_entries`, by what an entry names: `number_of` of either sender, `security_after` with none and with one before
/// it, and the others.
#[derive(Clone, Copy)]
pub enum FindingCall {
    NumberOfOperator,
    NumberOfParticipant,
    IsParticipant,
    OwnerOf,
    KindOf,
    FirstSecurity,
    SecurityAfter,
    LastRun,
    NextOpposite,
}

/// Of the standings of `sql_rows`.
#[derive(Clone, Copy)]
pub enum InstructionCall {
    Standing,
    NextMatched,
}

/// Of the sent messages of `sql_rows`, and the version of `sql_tables`.
#[derive(Clone, Copy)]
pub enum MessageCall {
    SentAt,
    ConfirmationOf,
    SentCount,
    Version,
}

/// Any of them.
#[derive(Clone, Copy)]
pub enum Call {
    Amount(AmountCall),
    Entry(EntryCall),
    Finding(FindingCall),
    Instruction(InstructionCall),
    Message(MessageCall),
}

/// Each by its name.
const CALLS: [(&str, Call); 25] = [
    ("balance", Call::Amount(AmountCall::Balance)),
    ("cash", Call::Amount(AmountCall::Cash)),
    ("security", Call::Amount(AmountCall::Security)),
    ("currency", Call::Amount(AmountCall::Currency)),
    ("next_holding", Call::Amount(AmountCall::NextHolding)),
    ("held", Call::Amount(AmountCall::Held)),
    ("held_cash", Call::Amount(AmountCall::HeldCash)),
    ("entry_count", Call::Entry(EntryCall::EntryCount)),
    ("entry_at", Call::Entry(EntryCall::EntryAt)),
    ("reply_at", Call::Entry(EntryCall::ReplyAt)),
    (
        "number_of_operator",
        Call::Finding(FindingCall::NumberOfOperator),
    ),
    (
        "number_of_participant",
        Call::Finding(FindingCall::NumberOfParticipant),
    ),
    ("is_participant", Call::Finding(FindingCall::IsParticipant)),
    ("owner_of", Call::Finding(FindingCall::OwnerOf)),
    ("kind_of", Call::Finding(FindingCall::KindOf)),
    ("first_security", Call::Finding(FindingCall::FirstSecurity)),
    ("security_after", Call::Finding(FindingCall::SecurityAfter)),
    ("last_run", Call::Finding(FindingCall::LastRun)),
    ("next_opposite", Call::Finding(FindingCall::NextOpposite)),
    ("standing", Call::Instruction(InstructionCall::Standing)),
    (
        "next_matched",
        Call::Instruction(InstructionCall::NextMatched),
    ),
    ("sent_at", Call::Message(MessageCall::SentAt)),
    (
        "confirmation_of",
        Call::Message(MessageCall::ConfirmationOf),
    ),
    ("sent_count", Call::Message(MessageCall::SentCount)),
    ("version", Call::Message(MessageCall::Version)),
];

/// Whether something is found.
fn found<T: Drop>(answer: Result<Option<T>, Error>) -> Result<bool, Error> {
    match answer {
        Ok(it) => Ok(it.is_some()),
        Err(error) => Err(error),
    }
}

/// Whether a number is above 0.
fn counted(answer: Result<u64, Error>) -> Result<bool, Error> {
    match answer {
        Ok(count) => Ok(count > 0),
        Err(error) => Err(error),
    }
}

impl AmountCall {
    fn answer<S: Session>(self, conn: &mut S, keys: &Keys) -> Result<bool, Error> {
        let key = match self {
            AmountCall::Balance => AmountKey::Balance(keys.account, keys.isin),
            AmountCall::Cash => AmountKey::Cash(keys.bic, Ccy::Eur),
            AmountCall::Security => AmountKey::Security(keys.isin),
            AmountCall::Currency => AmountKey::Currency(Ccy::Eur),
            AmountCall::NextHolding => return found(next_holding(conn, keys.account, None)),
            AmountCall::Held => return counted(held(conn, keys.isin)),
            AmountCall::HeldCash => return counted(held_cash(conn, Ccy::Eur)),
        };
        found(amount(conn, &key))
    }
}

impl EntryCall {
    fn answer<S: Session>(self, conn: &mut S, alloc: Global) -> Result<bool, Error> {
        match self {
            EntryCall::EntryCount => counted(entry_count(conn)),
            EntryCall::EntryAt => found(entry_at(conn, alloc, 1)),
            EntryCall::ReplyAt => found(reply_at(conn, alloc, 1)),
        }
    }
}

impl FindingCall {
    fn answer<S: Session>(self, conn: &mut S, keys: &Keys) -> Result<bool, Error> {
        let participant = Sender::Participant(keys.bic);
        match self {
            FindingCall::NumberOfOperator => found(number_of(
                conn,
                Sender::Operator,
                keys.reference,
            )),
            FindingCall::NumberOfParticipant => found(number_of(conn, participant, keys.reference)),
            FindingCall::IsParticipant => is_participant(conn, keys.bic),
            FindingCall::OwnerOf => found(owner_of(conn, keys.account)),
            FindingCall::KindOf => found(kind_of(conn, keys.isin)),
            FindingCall::FirstSecurity => found(security_after(conn, None)),
            FindingCall::SecurityAfter => found(security_after(conn, Some(keys.isin))),
            FindingCall::LastRun => found(last_run(conn)),
            FindingCall::NextOpposite => found(next_opposite(conn, keys.bic, &keys.delivery, 0)),
        }
    }
}

impl InstructionCall {
    fn answer<S: Session>(self, conn: &mut S) -> Result<bool, Error> {
        match self {
            InstructionCall::Standing => Ok(standing(conn, 1)?.state != State::NoInstruction),
            InstructionCall::NextMatched => found(next_matched(conn, 0)),
        }
    }
}

impl MessageCall {
    fn answer<S: Session>(self, conn: &mut S, alloc: Global, keys: &Keys) -> Result<bool, Error> {
        match self {
            MessageCall::SentAt => found(sent_at(conn, alloc, keys.bic, 1)),
            MessageCall::ConfirmationOf => found(confirmation_of(conn, alloc, 8)),
            MessageCall::SentCount => counted(sent_count(conn)),
            MessageCall::Version => found(version(conn)),
        }
    }
}

impl Call {
    /// The call of a name; None where there is no such call.
    pub fn read(name: &str) -> Option<Call> {
        for (own, call) in &CALLS {
            if *own == name {
                return Some(*call);
            }
        }
        None
    }

    /// Whether it finds something.
    pub fn answer<S: Session>(
        self,
        conn: &mut S,
        alloc: Global,
        keys: &Keys,
    ) -> Result<bool, Error> {
        match self {
            Call::Amount(call) => call.answer(conn, keys),
            Call::Entry(call) => call.answer(conn, alloc),
            Call::Finding(call) => call.answer(conn, keys),
            Call::Instruction(call) => call.answer(conn),
            Call::Message(call) => call.answer(conn, alloc, keys),
        }
    }
}
