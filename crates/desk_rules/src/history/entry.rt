//! What the desk's history is made of.
ghost use Rattle.std.specs.Prelude.{◌<◌, ◌≤◌};
ghost use Rattle.desk_rules.specs.declared.limits.TheConstants.{MOST_PAID, MOST_QUANTITY};

use desk_codes::{AccountId, Bic, Ccy, Day, Isin, Reference};
use desk_msg::{CancelOrder, Cash, Instruction, Kind, Mt};

/// Who a command is from. All commands of the operator share one sender.
#[derive(Clone, Copy)]
pub enum Sender {
    Operator,
    /// A participant, by its BIC
    Participant(Bic),
}

/// An instruction, and the participant that sent it.
#[derive(Clone, Copy)]
pub struct Instructed {
    pub sender: Bic,
    pub instruction: Instruction,
}

/// So much of a security put on an account, or taken off it.
#[derive(Clone, Copy)]
pub struct Movement {
    pub reference: Reference,
    pub account: AccountId,
    pub isin: Isin,
    /// 1 to `MOST_QUANTITY`
    pub quantity: u64,
    ghost some: { 0 < quantity },
    ghost within: { quantity ≤ MOST_QUANTITY },
}

/// So much cash paid in by a participant, or paid out to it.
#[derive(Clone, Copy)]
pub struct Payment {
    pub reference: Reference,
    pub bic: Bic,
    pub ccy: Ccy,
    /// 1 to `MOST_PAID`, in minor units
    pub amount: u64,
    ghost some: { 0 < amount },
    ghost within: { amount ≤ MOST_PAID },
}

/// How often a run goes over the due pairs.
#[derive(Clone, Copy)]
pub enum RunRule {
    /// Once
    OnePass,
    /// Again and again, until a pass settles nothing
    Passes,
}

/// A command, to be decided on or accepted: of the operator, or a message of a participant.
#[derive(Clone, Copy)]
pub enum Entry {
    /// A new participant
    Participant {
        reference: Reference,
        bic: Bic,
    },
    /// A new safekeeping account of a participant
    Account {
        reference: Reference,
        bic: Bic,
        account: AccountId,
    },
    /// A new security
    Security {
        reference: Reference,
        isin: Isin,
        kind: Kind,
    },
    /// A security issued to an account
    Issue(Movement),
    /// A security redeemed from an account
    Redeem(Movement),
    /// Cash paid in
    PayIn(Payment),
    /// Cash paid out
    PayOut(Payment),
    /// An instruction of a participant
    Instruct {
        sender: Bic,
        instruction: Instruction,
    },
    /// A cancellation of a participant
    Cancel {
        sender: Bic,
        order: CancelOrder,
    },
    /// A settlement run for the pairs due by a day. Its rule is no part of the command: the desk gives it.
    Run {
        reference: Reference,
        day: Day,
        rule: RunRule,
    },
}
