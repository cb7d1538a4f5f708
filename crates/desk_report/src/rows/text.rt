//! Rows as lines of aligned text, for people.
ghost use Rattle.std.specs.Prelude.{◌≤◌};

use crate::rows::balances::{AccountRow, CashRow};
use crate::rows::object::reason_code;
use crate::rows::pending::{PendingPair, Side};
use crate::rows::unmatched::{Differences, Nearest, UnmatchedInstruction};
use desk_book::{CashTotal, SecurityTotal};
use desk_codes::{Ccy, Day, Isin, NumberText};
use desk_msg::{Cash, Kind, Reason, StatementRow};
use std::alloc::{AllocError, Global};

/// A number as messages spell it.
fn number_text(alloc: Global, value: u64, decimals: usize) -> Result<String, AllocError>
    requires { decimals ≤ 3 }
{
    let number = NumberText::of(value, decimals);
    let digits = std::str::from_utf8(number.as_bytes()).unwrap_or("");
    String::from_str(alloc, digits)
}

/// An amount, with its currency in front.
fn amount_text(alloc: Global, ccy: Ccy, amount: u64) -> Result<String, AllocError> {
    let amount = number_text(alloc, amount, ccy.decimals())?;
    format!(in alloc; "{} {:>20}", ccy.as_str(), amount.as_str())
}

/// What is paid, or that nothing is.
fn cash_text(alloc: Global, cash: Option<Cash>) -> Result<String, AllocError> {
    match cash {
        Some(cash) => amount_text(alloc, cash.ccy, cash.amount),
        None => String::from_str(alloc, "free of payment"),
    }
}

/// What is moved: on which day, of which security, how much, and what is paid for it.
fn terms_text(
    alloc: Global,
    day: Day,
    isin: Isin,
    kind: Kind,
    quantity: u64,
    cash: Option<Cash>,
) -> Result<String, AllocError> {
    let quantity = number_text(alloc, quantity, 0)?;
    let cash = cash_text(alloc, cash)?;
    format!(in alloc;
        "{}  {}  {} {:>16}  {}",
        day.as_str(),
        isin.as_str(),
        kind.as_str(),
        quantity.as_str(),
        cash.as_str()
    )
}

/// How much is lacking, behind what a pair moves.
fn lacking_text(alloc: Global, row: &PendingPair) -> Result<String, AllocError> {
    let Some(lacking) = row.lacking else {
        return Ok(String::new(alloc));
    };
    if lacking == 0 {
        return String::from_str(alloc, "  what it lacked has come");
    }
    match row.cash {
        Some(cash) if row.reason == Reason::Money => {
            let amount = number_text(alloc, lacking, cash.ccy.decimals())?;
            format!(in alloc; "  lacks {} {}", cash.ccy.as_str(), amount.as_str())
        }
        _ => {
            let quantity = number_text(alloc, lacking, 0)?;
            format!(in alloc; "  lacks {} {}", row.kind.as_str(), quantity.as_str())
        }
    }
}

/// What a pair moves, as wide with no payment as with one where something stands behind it.
fn front_text(alloc: Global, terms: String, behind: &str) -> Result<String, AllocError> {
    if behind.is_empty() {
        return Ok(terms);
    }
    format!(in alloc; "{:<71}", terms.as_str())
}

/// The line of a side of a pair.
fn side_text(alloc: Global, does: &str, side: &Side) -> Result<String, AllocError> {
    let asked = if side.is_cancel_requested {
        "  cancellation asked"
    } else {
        ""
    };
    format!(in alloc;
        "{:>10}  {}  {:<11}  {:<16}  {}{}\n",
        side.number,
        does,
        side.bic.as_str(),
        side.reference.as_str(),
        side.account.as_str(),
        asked
    )
}

/// A pair that waits: why, what it moves and what is lacking, and a line for each side.
pub fn pending_text(alloc: Global, row: &PendingPair) -> Result<String, AllocError> {
    let terms = terms_text(alloc, row.day, row.isin, row.kind, row.quantity, row.cash)?;
    let lacking = lacking_text(alloc, row)?;
    let front = front_text(alloc, terms, &lacking)?;
    let deliverer = side_text(alloc, "delivers", &row.deliverer)?;
    let receiver = side_text(alloc, "receives", &row.receiver)?;
    format!(in alloc;
        "{}  {}{}\n{}{}",
        reason_code(row.reason),
        front.as_str(),
        lacking.as_str(),
        deliverer.as_str(),
        receiver.as_str()
    )
}

/// A name with a space in front, where it applies.
fn name_if(applies: bool, name: &str) -> &str {
    if applies { name } else { "" }
}

/// The names of what differs, each with a space in front.
fn differences_text(alloc: Global, differs: &Differences) -> Result<String, AllocError> {
    format!(in alloc;
        "{}{}{}{}{}{}",
        name_if(differs.kind, " kind"),
        name_if(differs.quantity, " quantity"),
        name_if(differs.day, " day"),
        name_if(differs.payment, " payment"),
        name_if(differs.currency, " currency"),
        name_if(differs.amount, " amount")
    )
}

/// The line of the instruction that comes nearest, or that there is none.
fn nearest_text(alloc: Global, nearest: &Option<Nearest>) -> Result<String, AllocError> {
    let Some(nearest) = nearest else {
        return String::from_str(alloc, "            none comes near\n");
    };
    let differs = differences_text(alloc, &nearest.differs)?;
    format!(in alloc;
        "            nearest {}, {}, differs in{}\n",
        nearest.number,
        nearest.reference.as_str(),
        differs.as_str()
    )
}

/// An unmatched instruction: who sent it, what it moves and with whom, and what comes nearest to it.
pub fn unmatched_text(alloc: Global, row: &UnmatchedInstruction) -> Result<String, AllocError> {
    let instruction = &row.instructed.instruction;
    let does = if instruction.mt.is_delivery() {
        "delivers to"
    } else {
        "receives of"
    };
    let terms = terms_text(
        alloc,
        instruction.day,
        instruction.isin,
        instruction.kind,
        instruction.quantity,
        instruction.cash,
    )?;
    let nearest = nearest_text(alloc, &row.nearest)?;
    let own = format!(in alloc;
        "{:>10}  {:<11}  {:<16}  {}\n",
        row.number,
        row.instructed.sender.as_str(),
        instruction.reference.as_str(),
        instruction.account.as_str()
    )?;
    format!(in alloc;
        "{}            {} {:<11}  {}\n{}",
        own.as_str(),
        does,
        instruction.counterparty.as_str(),
        terms.as_str(),
        nearest.as_str()
    )
}

/// What is held of a security, or that nothing is.
fn holding_text(alloc: Global, holding: Option<StatementRow>) -> Result<String, AllocError> {
    let Some(held) = holding else {
        return String::from_str(alloc, "nothing");
    };
    let quantity = number_text(alloc, held.quantity, 0)?;
    format!(in alloc;
        "{}  {} {:>16}",
        held.isin.as_str(),
        held.kind.as_str(),
        quantity.as_str()
    )
}

/// What an account holds of a security, or that it holds nothing.
pub fn account_text(alloc: Global, row: &AccountRow) -> Result<String, AllocError> {
    let holding = holding_text(alloc, row.holding)?;
    format!(in alloc;
        "{:<35}  {:<11}  {}\n",
        row.account.as_str(),
        row.owner.as_str(),
        holding.as_str()
    )
}

/// What a participant has of a currency.
pub fn cash_row_text(alloc: Global, row: &CashRow) -> Result<String, AllocError> {
    let amount = amount_text(alloc, row.ccy, row.amount)?;
    format!(in alloc; "{:<11}  {}\n", row.bic.as_str(), amount.as_str())
}

/// The total of a currency: what participants hold of it, and what was paid in less what was paid out.
pub fn cash_total_text(alloc: Global, total: &CashTotal) -> Result<String, AllocError> {
    let decimals = total.ccy.decimals();
    let held = number_text(alloc, total.held, decimals)?;
    let net = number_text(alloc, total.net, decimals)?;
    format!(in alloc;
        "{:<12}  held {:>20}  paid in less paid out {:>20}\n",
        total.ccy.as_str(),
        held.as_str(),
        net.as_str()
    )
}

/// The total of a security: what accounts hold of it, and what was issued less what was redeemed.
pub fn security_total_text(alloc: Global, total: &SecurityTotal) -> Result<String, AllocError> {
    let held = number_text(alloc, total.held, 0)?;
    let outstanding = number_text(alloc, total.outstanding, 0)?;
    format!(in alloc;
        "{:<12}  held {:>20}  issued less redeemed  {:>20}\n",
        total.isin.as_str(),
        held.as_str(),
        outstanding.as_str()
    )
}
