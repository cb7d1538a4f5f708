//! A pair, settled in the lists.
ghost use Rattle.std.specs.Prelude.{◌≡◌, ◌<◌, ◌≤◌, ◌+◌, ◌^◌, ◌↔◌, ℕ, Some, None, false, length, IfOk, IsTrue, OnOk, true};
ghost use Rattle.desk_register.specs.Changes.{CanSettle, FitsCash, HasCash, LacksCash, SidesFit, TriesPair, TriesSides, delivering_side, receiving_side, standing_both};
ghost use Rattle.desk_rules.specs.Content.{history_of};
ghost use Rattle.desk_rules.specs.History.{instruction_at};
ghost use Rattle.desk_rules.specs.Standing.{reason_of_lack};
ghost use Rattle.desk_rules.specs.declared.history.entry.Instructed.{Instructed as InstructedValue};
ghost use Rattle.memory_rows.specs.Balanced.{IsSound};
ghost use Rattle.memory_rows.specs.Lacks.{IsLackOf};
ghost use Rattle.memory_rows.specs.Transfers.{as_instructed};
ghost use Rattle.memory_rows.specs.Lists.{balance_in, content_in, listed, standing_in, undone};
ghost use Rattle.memory_rows.specs.Moves.{with_less, with_more, SameBooks, SameEntries, SameTotals, moved_between, paid_between};

use crate::balance_key::BalanceKey;
use crate::balances::{add_to, balance_of, take_from};
use crate::changing::standings::stand_both;
use crate::changing::tried::{Tried, pair_of};
use crate::lists::{Change, Lists};
use crate::looking::by_number::{kept_instruction, standing};
use desk_codes::{AccountId, Bic};
use desk_msg::{Cash, Instruction, Reason};
use desk_register::{KnownPair, Outcome};
use desk_rules::{Lack, Standing, State};
use std::alloc::AllocError;

/// Takes so much off one balance and puts it on another, or on the same.
fn move_between(
    lists: &mut Lists,
    changes: &mut Vec<Change>,
    from: BalanceKey,
    to: BalanceKey,
    amount: u64,
) -> Result<(), AllocError>
    requires held { amount ≤ balance_in (listed lists.old) from }
    requires fits { balance_in (listed lists.old) to + amount < 2 ^ 63 }
    ensures moved { OnOk result (balance_in (listed lists.new) ≡ moved_between (balance_in (listed lists.old)) from to amount) }
    ensures rest { OnOk result (SameEntries (listed lists.old) (listed lists.new)) }
    ensures before { undone changes.new.items (listed lists.new) ≡ undone changes.old.items (listed lists.old) }
{
    take_from(lists, changes, from, amount)?;
    add_to(lists, changes, to, amount)
}

/// Whether a participant has too little of the cash that is asked of it.
fn lacks_cash(lists: &Lists, bic: Bic, asked: Option<Cash>) -> bool
    ensures lacks { IsTrue result → LacksCash (content_in (listed lists.now)).cash bic asked }
    ensures has { result ≡ false → HasCash (content_in (listed lists.now)).cash bic asked }
{
    let Some(Cash { ccy, amount, .. }) = asked else {
        return false;
    };
    balance_of(lists, &BalanceKey::Cash { bic, ccy }) < amount
}

/// Takes cash off one participant and puts it on another, or on the same.
fn pay(
    lists: &mut Lists,
    changes: &mut Vec<Change>,
    from: Bic,
    to: Bic,
    asked: Option<Cash>,
) -> Result<(), AllocError>
    requires held { HasCash (content_in (listed lists.old)).cash from asked }
    requires fits { FitsCash (content_in (listed lists.old)).cash to asked }
    ensures moved { OnOk result (balance_in (listed lists.new) ≡ paid_between (balance_in (listed lists.old)) from to asked) }
    ensures rest { OnOk result (SameEntries (listed lists.old) (listed lists.new)) }
    ensures before { undone changes.new.items (listed lists.new) ≡ undone changes.old.items (listed lists.old) }
{
    let Some(Cash { ccy, amount, .. }) = asked else {
        return Ok(());
    };
    let from = BalanceKey::Cash { bic: from, ccy };
    let to = BalanceKey::Cash { bic: to, ccy };
    move_between(lists, changes, from, to, amount)
}

/// Whether an instruction waits for a reason, with this mate.
fn waits_for(standing: &Standing, mate: u64, reason: Reason) -> bool
    ensures waits { result ≡ true → (standing.now.mate ≡ Some mate) × (standing.now.state ≡ State.Matched reason) }
    ensures other { result ≡ false → standing.now.mate ≡ Some mate → standing.now.state ≡ State.Matched reason → ⊥ }
{
    match (standing.mate, standing.state) {
        (Some(other), State::Matched(found)) => other == mate && found == reason,
        _ => false,
    }
}

/// Lets a pair wait for a reason. Where it waits for it already, nothing is written: it may be tried in each pass of a run.
fn wait(
    lists: &mut Lists,
    changes: &mut Vec<Change>,
    mate: u64,
    number: u64,
    reason: Reason,
) -> Result<(), AllocError>
    requires some { 0 < mate }
    requires two { mate < number }
    requires known { number ≤ length lists.old.kept.items }
    ensures stands { OnOk result (standing_in (listed lists.new).standings ≡ standing_both (standing_in (listed lists.old).standings) mate number (State.Matched reason)) }
    ensures rest { SameBooks (listed lists.old) (listed lists.new) }
    ensures before { undone changes.new.items (listed lists.new) ≡ undone changes.old.items (listed lists.old) }
    ensures unwritten { (standing_in (listed lists.old).standings mate).mate ≡ Some number → (standing_in (listed lists.old).standings mate).state ≡ State.Matched reason
        → (standing_in (listed lists.old).standings number).mate ≡ Some mate → (standing_in (listed lists.old).standings number).state ≡ State.Matched reason
        → (lists.new ≡ lists.old) × (changes.new ≡ changes.old) }
{
    let earlier = standing(lists, mate);
    let later = standing(lists, number);
    if waits_for(&earlier, number, reason) && waits_for(&later, mate, reason) {
        return Ok(());
    }
    stand_both(lists, changes, mate, number, State::Matched(reason))
}

/// The account that a pair delivers from.
fn delivered_from(earlier: (&Bic, &Instruction), later: (&Bic, &Instruction)) -> AccountId
    ensures { result ≡ (delivering_side (as_instructed earlier.entry.0.now earlier.entry.1.now) (as_instructed later.entry.0.now later.entry.1.now)).instruction.account }
{
    if earlier.1.mt.is_delivery() {
        return earlier.1.account;
    }
    later.1.account
}

/// The participant that receives, and pays.
fn receiver_of(earlier: (&Bic, &Instruction), later: (&Bic, &Instruction)) -> Bic
    ensures { result ≡ (receiving_side (as_instructed earlier.entry.0.now earlier.entry.1.now) (as_instructed later.entry.0.now later.entry.1.now)).sender }
{
    if earlier.1.mt.is_delivery() {
        return *later.0;
    }
    *earlier.0
}

/// What a pair of two instructions lacks, if anything.
fn lack_between(
    lists: &Lists,
    earlier: (&Bic, &Instruction),
    later: (&Bic, &Instruction),
) -> Option<Lack>
    ensures { IsLackOf (content_in (listed lists.now)) (as_instructed earlier.entry.0.now earlier.entry.1.now) (as_instructed later.entry.0.now later.entry.1.now) result }
{
    let given = BalanceKey::Position {
        account: delivered_from(earlier, later),
        isin: later.1.isin,
    };
    if balance_of(lists, &given) < later.1.quantity {
        return Some(Lack::Securities);
    }
    if lacks_cash(lists, receiver_of(earlier, later), later.1.cash) {
        return Some(Lack::Money);
    }
    None
}

/// What the pair of two numbers lacks, the earlier first, if anything. Both are those of instructions; neither is copied.
fn lack_of(lists: &Lists, mate: u64, number: u64) -> Option<Lack>
    requires { (first second : InstructedValue) × (instruction_at (history_of (content_in (listed lists.now))) mate ≡ Some first) × (instruction_at (history_of (content_in (listed lists.now))) number ≡ Some second) }
    ensures { (first second : InstructedValue) → instruction_at (history_of (content_in (listed lists.now))) mate ≡ Some first → instruction_at (history_of (content_in (listed lists.now))) number ≡ Some second
        → IsLackOf (content_in (listed lists.now)) first second result }
{
    let earlier = kept_instruction(lists, mate).unwrap();
    let later = kept_instruction(lists, number).unwrap();
    lack_between(lists, earlier, later)
}

/// Why a pair waits that lacks something.
fn reason_of(lack: Lack) -> Reason
    ensures { result ≡ reason_of_lack (Some lack) }
{
    match lack {
        Lack::Securities => Reason::Lack,
        Lack::Money => Reason::Money,
    }
}

/// Settles a pair that lacks nothing.
fn settle_known(
    lists: &mut Lists,
    changes: &mut Vec<Change>,
    pair: &KnownPair,
) -> Result<(), AllocError>
    requires some { 0 < pair.now.mate }
    requires two { pair.now.mate < pair.now.number }
    requires known { pair.now.number ≤ length lists.old.kept.items }
    requires fits { SidesFit (content_in (listed lists.old)) pair.now.earlier pair.now.later }
    requires covered { IsLackOf (content_in (listed lists.old)) pair.now.earlier pair.now.later None }
    ensures settled { OnOk result (TriesSides (content_in (listed lists.old)) pair.now.number pair.now.mate pair.now.earlier pair.now.later Outcome.Settled (content_in (listed lists.new))) }
    ensures rest { OnOk result (SameTotals (listed lists.old) (listed lists.new)) }
    ensures before { undone changes.new.items (listed lists.new) ≡ undone changes.old.items (listed lists.old) }
{
    let KnownPair { mate, number, .. } = *pair;
    let from = pair.deliverer();
    let to = pair.receiver();
    let isin = pair.later.instruction.isin;
    let quantity = pair.later.instruction.quantity;
    let cash = pair.later.instruction.cash;
    let given = BalanceKey::Position {
        account: from.instruction.account,
        isin,
    };
    let taken = BalanceKey::Position {
        account: to.instruction.account,
        isin,
    };
    stand_both(lists, changes, mate, number, State::Settled)?;
    move_between(lists, changes, given, taken, quantity)?;
    pay(lists, changes, to.sender, from.sender, cash)?;
    Ok(())
}

/// Tries the matched pair of a number: settles it, and moves its quantity between the accounts and its cash between
/// the participants, where it is covered, else changes the reason alone.
pub fn try_settle(
    lists: &mut Lists,
    changes: &mut Vec<Change>,
    number: u64,
) -> Result<Tried, AllocError>
    requires fits { (day : ℕ) × CanSettle (content_in (listed lists.old)) number day }
    requires sound { IsSound (listed lists.old) }
    ensures settled { IfOk result (λ tried. TriesPair (content_in (listed lists.old)) number tried.outcome (content_in (listed lists.new))) }
    ensures mate { IfOk result (λ tried. ((content_in (listed lists.old)).standing number).mate ≡ Some tried.mate) }
    ensures sound { OnOk result (IsSound (listed lists.new)) }
    ensures before { undone changes.new.items (listed lists.new) ≡ undone changes.old.items (listed lists.old) }
{
    let mate = standing(lists, number).mate.unwrap();
    if let Some(lack) = lack_of(lists, mate, number) {
        wait(lists, changes, mate, number, reason_of(lack))?;
        return Ok(Tried {
            mate,
            outcome: Outcome::Lacks(lack),
        });
    }
    let pair = pair_of(lists, mate, number);
    settle_known(lists, changes, &pair)?;
    Ok(Tried {
        mate,
        outcome: Outcome::Settled,
    })
}
