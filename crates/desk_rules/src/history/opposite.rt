//! Opposite instructions.
ghost use Rattle.std.specs.Prelude.{◌≡◌, ◌↔◌, IsTrue};
ghost use Rattle.desk_rules.specs.Opposite.{AreOpposite};

use crate::history::entry::Instructed;
use crate::history::same::same_cash;

/// Whether two instructions, with their senders, are opposite: one delivers what the other receives, and each
/// names the other's sender.
pub fn are_opposite(first: &Instructed, second: &Instructed) -> bool
    ensures { IsTrue result ↔ AreOpposite first.now second.now }
{
    let a = first.instruction;
    let b = second.instruction;
    if a.mt.is_delivery() == b.mt.is_delivery() {
        return false;
    }
    if a.mt.is_against_payment() != b.mt.is_against_payment() {
        return false;
    }
    if a.isin != b.isin {
        return false;
    }
    if a.quantity != b.quantity {
        return false;
    }
    if a.kind != b.kind {
        return false;
    }
    if a.day != b.day {
        return false;
    }
    if !same_cash(a.cash, b.cash) {
        return false;
    }
    if a.counterparty != second.sender {
        return false;
    }
    b.counterparty == first.sender
}
