//! The operations, and the members that each has besides `op`.
ghost use Rattle.std.specs.Prelude.{◌≡◌, IfSome, IfNone};
ghost use Rattle.desk_findings.specs.CommandFaults.{members_of, most_of, name_of, number_name, text_name, word_of};

use desk_rules::{MOST_PAID, MOST_QUANTITY};

/// A member of a command whose value is a text, besides `op`.
#[derive(Clone, Copy)]
pub enum TextMember {
    /// `ref`, the command's reference
    Reference,
    /// `bic`, a participant
    Party,
    /// `account`, a safekeeping account
    Account,
    /// `isin`, a security
    Security,
    /// `kind`, whether the security counts units or a face amount
    Kind,
    /// `day`, that of a run
    Day,
    /// `ccy`, a currency
    Currency,
}

/// A member of a command whose value is a number.
#[derive(Clone, Copy)]
pub enum NumberMember {
    /// `quantity`, of a security
    Quantity,
    /// `amount`, in minor units
    Amount,
}

/// A member of a command, besides `op`.
#[derive(Clone, Copy)]
pub enum Member {
    Text(TextMember),
    Number(NumberMember),
}

const REFERENCE: Member = Member::Text(TextMember::Reference);

const PARTY: Member = Member::Text(TextMember::Party);

const ACCOUNT: Member = Member::Text(TextMember::Account);

const SECURITY: Member = Member::Text(TextMember::Security);

const KIND: Member = Member::Text(TextMember::Kind);

const DAY: Member = Member::Text(TextMember::Day);

const CURRENCY: Member = Member::Text(TextMember::Currency);

const QUANTITY: Member = Member::Number(NumberMember::Quantity);

const AMOUNT: Member = Member::Number(NumberMember::Amount);

/// What a command does.
#[derive(Clone, Copy)]
pub enum Operation {
    Participant,
    Account,
    Security,
    Issue,
    Redeem,
    PayIn,
    PayOut,
    Run,
}

impl TextMember {
    /// Its name.
    pub fn name(self) -> &'static str
        ensures { result.now ≡ text_name self }
    {
        match self {
            TextMember::Reference => "ref",
            TextMember::Party => "bic",
            TextMember::Account => "account",
            TextMember::Security => "isin",
            TextMember::Kind => "kind",
            TextMember::Day => "day",
            TextMember::Currency => "ccy",
        }
    }
}

impl NumberMember {
    /// Its name.
    pub fn name(self) -> &'static str
        ensures { result.now ≡ number_name self }
    {
        match self {
            NumberMember::Quantity => "quantity",
            NumberMember::Amount => "amount",
        }
    }

    /// The most that it may be.
    pub fn most(self) -> u64
        ensures { result ≡ most_of self }
    {
        match self {
            NumberMember::Quantity => MOST_QUANTITY,
            NumberMember::Amount => MOST_PAID,
        }
    }
}

impl Member {
    /// Its name.
    pub fn name(self) -> &'static str
        ensures { result.now ≡ name_of self }
    {
        match self {
            Member::Text(member) => member.name(),
            Member::Number(member) => member.name(),
        }
    }
}

impl Operation {
    /// The operation that `op` names; None where it names none.
    pub fn named(op: &[u8]) -> Option<Operation>
        ensures found { IfSome result (λ operation. word_of operation ≡ op.now) }
        ensures none { IfNone result ((operation : Operation) → ¬ (word_of operation ≡ op.now)) }
    {
        match op {
            b"participant" => Some(Operation::Participant),
            b"account" => Some(Operation::Account),
            b"security" => Some(Operation::Security),
            b"issue" => Some(Operation::Issue),
            b"redeem" => Some(Operation::Redeem),
            b"payin" => Some(Operation::PayIn),
            b"payout" => Some(Operation::PayOut),
            b"run" => Some(Operation::Run),
            _ => None,
        }
    }

    /// The members that it has besides `op`, in the order in which they are looked at.
    pub fn members(self) -> &'static [Member]
        ensures { result.now ≡ members_of self }
    {
        match self {
            Operation::Participant => &[REFERENCE, PARTY],
            Operation::Account => &[REFERENCE, PARTY, ACCOUNT],
            Operation::Security => &[REFERENCE, SECURITY, KIND],
            Operation::Issue | Operation::Redeem => &[REFERENCE, ACCOUNT, SECURITY, QUANTITY],
            Operation::PayIn | Operation::PayOut => &[REFERENCE, PARTY, CURRENCY, AMOUNT],
            Operation::Run => &[REFERENCE, DAY],
        }
    }
}
