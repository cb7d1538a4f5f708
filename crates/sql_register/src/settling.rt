//! A matched pair is tried: it settles, or it lacks something.
ghost use Rattle.std.specs.Prelude.{◌≡◌, ◌≢◌, ℕ, [], true, Some, IfOk, OnOk};
ghost use Rattle.desk_rules.specs.declared.history.entry.Instructed.{Instructed};
ghost use Rattle.sql_tables.specs.Calls.{FailsForCause, Looks, Soundly, Writes, tables};
ghost use Rattle.sql_tables.specs.Ends.{Stays};
ghost use Rattle.sql_rows.specs.Amounts.{AreAmounts};
ghost use Rattle.desk_register.specs.Changes.{CanSettle, FitsCash, IsPairAt, SidesFit, TriesPair};
ghost use Rattle.sql_register.specs.Content.{content_in};
ghost use Rattle.sql_register.specs.Holds.{IsDesk};
ghost use Rattle.sql_register.specs.Settling.{state_then, more_cash, AmountsSo, IsMarked, IsTrial, MovesBoth, MovesLegs, TakesCash};

use crate::looking::instruction;
use crate::pairing::stand_both;
use desk_codes::Bic;
use desk_msg::{Cash, Reason};
use desk_register::{KnownPair, Outcome};
use desk_rules::{Instructed, Lack, State};
use sql_rows::{AmountKey, put, standing, take};
use sql_tables::control::{go_back, release, save};
use sql_tables::session::Session;
use sql_tables::values::CORRUPT;
use sqlite::Error;
use std::alloc::Global;

/// Takes the cash that is asked for off a participant, where it has as much, or where none is asked for: true.
fn take_cash<S: Session>(conn: &mut S, bic: Bic, asked: Option<Cash>) -> Result<bool, Error>
    ensures changed { Soundly S.state conn.old conn.new (AreAmounts (tables S.state conn.old) → IfOk result (TakesCash (tables S.state conn.old) (tables S.state conn.new) bic asked)) }
    ensures write { Writes S.state conn.old conn.new result }
    ensures blame { Soundly S.state conn.old conn.new (AreAmounts (tables S.state conn.old) → FailsForCause S.state conn.old conn.new result) }
{
    match asked {
        None => Ok(true),
        Some(Cash { ccy, amount, .. }) => take(conn, &AmountKey::Cash(bic, ccy), amount),
    }
}

/// Puts the cash that is asked for on a participant's balance.
fn put_cash<S: Session>(conn: &mut S, bic: Bic, asked: Option<Cash>) -> Result<(), Error>
    ensures changed { Soundly S.state conn.old conn.new (AreAmounts (tables S.state conn.old) → FitsCash (content_in (tables S.state conn.old)).cash bic asked
        → OnOk result (AmountsSo (tables S.state conn.old) (tables S.state conn.new) (content_in (tables S.state conn.old)).position (more_cash (content_in (tables S.state conn.old)).cash bic asked))) }
    ensures write { Writes S.state conn.old conn.new result }
    ensures blame { Soundly S.state conn.old conn.new (AreAmounts (tables S.state conn.old) → FitsCash (content_in (tables S.state conn.old)).cash bic asked → FailsForCause S.state conn.old conn.new result) }
{
    match asked {
        None => Ok(()),
        Some(Cash { ccy, amount, .. }) => put(conn, &AmountKey::Cash(bic, ccy), amount),
    }
}

/// Moves the quantity of a pair from its deliverer's account to its receiver's, and its cash the other way. What is lacking
/// is asked for first, securities before money; where money is, the quantity was taken, and is not put back here.
fn move_legs<S: Session>(conn: &mut S, pair: &KnownPair) -> Result<Outcome, Error>
    ensures changed { Soundly S.state conn.old conn.new (AreAmounts (tables S.state conn.old) → SidesFit (content_in (tables S.state conn.old)) pair.now.earlier pair.now.later
        → IfOk result (MovesLegs (tables S.state conn.old) (tables S.state conn.new) pair.now.earlier pair.now.later)) }
    ensures write { Writes S.state conn.old conn.new result }
    ensures blame { Soundly S.state conn.old conn.new (AreAmounts (tables S.state conn.old) → SidesFit (content_in (tables S.state conn.old)) pair.now.earlier pair.now.later → FailsForCause S.state conn.old conn.new result) }
{
    let from = pair.deliverer();
    let to = pair.receiver();
    let isin = pair.later.instruction.isin;
    let quantity = pair.later.instruction.quantity;
    let cash = pair.later.instruction.cash;
    let given = AmountKey::Balance(from.instruction.account, isin);
    let received = AmountKey::Balance(to.instruction.account, isin);
    if !take(conn, &given, quantity)? {
        return Ok(Outcome::Lacks(Lack::Securities));
    }
    if !take_cash(conn, to.sender, cash)? {
        return Ok(Outcome::Lacks(Lack::Money));
    }
    put(conn, &received, quantity)?;
    put_cash(conn, from.sender, cash)?;
    Ok(Outcome::Settled)
}

/// Sets the savepoint of the pair, and moves both of its legs or none. The savepoint stays.
fn move_both<S: Session>(conn: &mut S, pair: &KnownPair) -> Result<Outcome, Error>
    ensures changed { Soundly S.state conn.old conn.new (AreAmounts (tables S.state conn.old) → SidesFit (content_in (tables S.state conn.old)) pair.now.earlier pair.now.later
        → (S.state conn.old).in_transaction ≡ true → (S.state conn.old).marks ≡ [] → IfOk result (MovesBoth (tables S.state conn.old) (tables S.state conn.new) pair.now.earlier pair.now.later)) }
    ensures trial { IsTrial result (S.state conn.old) (S.state conn.new) (IsMarked (S.state conn.old) (S.state conn.new)) }
    ensures blame { Soundly S.state conn.old conn.new (AreAmounts (tables S.state conn.old) → SidesFit (content_in (tables S.state conn.old)) pair.now.earlier pair.now.later → (S.state conn.old).in_transaction ≡ true → (S.state conn.old).marks ≡ [] → FailsForCause S.state conn.old conn.new result) }
{
    save(conn)?;
    let outcome = move_legs(conn, pair)?;
    if matches!(outcome, Outcome::Lacks(Lack::Money)) {
        go_back(conn)?;
    }
    Ok(outcome)
}

/// How both instructions of a pair stand that has fared so.
pub fn state_then(outcome: Outcome) -> State
    ensures same { result ≡ state_then outcome }
    ensures instruction { result ≢ State.NoInstruction }
{
    match outcome {
        Outcome::Settled => State::Settled,
        Outcome::Lacks(Lack::Securities) => State::Matched(Reason::Lack),
        Outcome::Lacks(Lack::Money) => State::Matched(Reason::Money),
    }
}

/// The pair of the later instruction's number.
fn pair_at<S: Session>(conn: &mut S, alloc: Global, number: u64) -> Result<KnownPair, Error>
    ensures value { Soundly S.state conn.old conn.new (IsDesk (tables S.state conn.old) → IfOk result (λ p. (p.number ≡ number) × IsPairAt (content_in (tables S.state conn.old)) number p.mate p.earlier p.later)) }
    ensures look { Looks S.state conn.old conn.new result }
    ensures blame { Soundly S.state conn.old conn.new (IsDesk (tables S.state conn.old) → (mate : ℕ) (earlier later : Instructed) → IsPairAt (content_in (tables S.state conn.old)) number mate earlier later → FailsForCause S.state conn.old conn.new result) }
{
    let later = instruction(conn, alloc, number)?;
    let standing = standing(conn, number)?;
    let Some(mate) = standing.mate else {
        return Err(CORRUPT);
    };
    let earlier = instruction(conn, alloc, mate)?;
    Ok(KnownPair {
        mate,
        number,
        earlier,
        later,
    })
}

/// Tries a matched pair that was found: settles it, and moves its quantity between the accounts and its cash between the
/// participants, where it is covered, else changes the reason alone. It works in a savepoint of its own, so it is of a
/// transaction that has none. A pair whose numbers are in no order is told as tables that have broken their word.
pub fn settle_found<S: Session>(conn: &mut S, pair: &KnownPair) -> Result<Outcome, Error>
    ensures changed { Soundly S.state conn.old conn.new (IsDesk (tables S.state conn.old) → (day : ℕ) → CanSettle (content_in (tables S.state conn.old)) pair.now.number day
        → IsPairAt (content_in (tables S.state conn.old)) pair.now.number pair.now.mate pair.now.earlier pair.now.later
        → (S.state conn.old).in_transaction ≡ true → (S.state conn.old).marks ≡ [] → IfOk result (λ outcome. IsDesk (tables S.state conn.new) × TriesPair (content_in (tables S.state conn.old)) pair.now.number outcome (content_in (tables S.state conn.new)))) }
    ensures trial { IsTrial result (S.state conn.old) (S.state conn.new) (Stays (S.state conn.old) (S.state conn.new)) }
    ensures blame { Soundly S.state conn.old conn.new (IsDesk (tables S.state conn.old) → (day : ℕ) → CanSettle (content_in (tables S.state conn.old)) pair.now.number day
        → IsPairAt (content_in (tables S.state conn.old)) pair.now.number pair.now.mate pair.now.earlier pair.now.later → (S.state conn.old).in_transaction ≡ true → (S.state conn.old).marks ≡ [] → FailsForCause S.state conn.old conn.new result) }
{
    let outcome = move_both(conn, pair)?;
    stand_both(conn, pair.mate, pair.number, state_then(outcome))?;
    release(conn)?;
    Ok(outcome)
}

/// Tries the matched pair of a number as `settle_found` does.
pub fn settle_pair<S: Session>(conn: &mut S, alloc: Global, number: u64) -> Result<Outcome, Error>
    ensures changed { Soundly S.state conn.old conn.new (IsDesk (tables S.state conn.old) → (day : ℕ) → CanSettle (content_in (tables S.state conn.old)) number day
        → (S.state conn.old).in_transaction ≡ true → (S.state conn.old).marks ≡ [] → IfOk result (λ outcome. IsDesk (tables S.state conn.new) × TriesPair (content_in (tables S.state conn.old)) number outcome (content_in (tables S.state conn.new)))) }
    ensures trial { IsTrial result (S.state conn.old) (S.state conn.new) (Stays (S.state conn.old) (S.state conn.new)) }
    ensures blame { Soundly S.state conn.old conn.new (IsDesk (tables S.state conn.old) → (day : ℕ) → CanSettle (content_in (tables S.state conn.old)) number day → (S.state conn.old).in_transaction ≡ true → (S.state conn.old).marks ≡ [] → FailsForCause S.state conn.old conn.new result) }
{
    let pair = pair_at(conn, alloc, number)?;
    settle_found(conn, &pair)
}
