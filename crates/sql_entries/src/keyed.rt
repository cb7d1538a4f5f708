//! What an entry is looked up by: its sender, its reference, its kind, and what it registers.
ghost use Rattle.std.specs.Prelude.{◌≡◌, ◌≤◌};
ghost use Rattle.desk_rules.specs.History.{reference_of, sender_of};
ghost use Rattle.sql_entries.specs.Columns.{about_of, kind_number, sender_text};

use crate::kind::{
    ACCOUNT, CANCELLATION, INSTRUCTION, ISSUE, PARTICIPANT, PAY_IN, PAY_OUT, REDEMPTION, RUN,
    SECURITY,
};
use desk_rules::Entry;

/// The BIC of the participant that sent it; nothing for the operator.
pub(crate) fn sender_text(entry: &Entry) -> &[u8]
    ensures { result.now ≡ sender_text (sender_of entry.now) }
{
    match entry {
        Entry::Instruct { sender, .. } | Entry::Cancel { sender, .. } => sender.as_bytes(),
        _ => b"",
    }
}

/// Its reference.
pub(crate) fn reference_text(entry: &Entry) -> &[u8]
    ensures { result.now ≡ reference_of entry.now }
{
    match entry {
        Entry::Participant { reference, .. }
        | Entry::Account { reference, .. }
        | Entry::Security { reference, .. }
        | Entry::Run { reference, .. } => reference.as_bytes(),
        Entry::Issue(movement) | Entry::Redeem(movement) => movement.reference.as_bytes(),
        Entry::PayIn(payment) | Entry::PayOut(payment) => payment.reference.as_bytes(),
        Entry::Instruct { instruction, .. } => instruction.reference.as_bytes(),
        Entry::Cancel { order, .. } => order.reference.as_bytes(),
    }
}

/// The number of its kind.
pub(crate) fn kind_number(entry: &Entry) -> u64
    ensures kind { result ≡ kind_number entry.now }
    ensures few { result ≤ 10 }
{
    match entry {
        Entry::Participant { .. } => PARTICIPANT,
        Entry::Account { .. } => ACCOUNT,
        Entry::Security { .. } => SECURITY,
        Entry::Issue(_) => ISSUE,
        Entry::Redeem(_) => REDEMPTION,
        Entry::PayIn(_) => PAY_IN,
        Entry::PayOut(_) => PAY_OUT,
        Entry::Instruct { .. } => INSTRUCTION,
        Entry::Cancel { .. } => CANCELLATION,
        Entry::Run { .. } => RUN,
    }
}

/// The BIC, the account or the ISIN that it registers; nothing for any other entry.
pub(crate) fn about(entry: &Entry) -> &[u8]
    ensures { result.now ≡ about_of entry.now }
{
    match entry {
        Entry::Participant { bic, .. } => bic.as_bytes(),
        Entry::Account { account, .. } => account.as_bytes(),
        Entry::Security { isin, .. } => isin.as_bytes(),
        _ => b"",
    }
}
