//! Laws of the definitions, each the contract of a function with an empty body.
ghost use Rattle.std.specs.Prelude.{◌≡◌, ◌≢◌, ℕ, ◌++◌, List, Result, Err};
ghost use Rattle.desk_book.specs.Asked.{Asked};
ghost use Rattle.desk_http.specs.Connection.{Connection, IsLeftOpen};

use crate::refusal::Refusal;

/// A stream asks one thing, or is refused in one way, but for two kinds of streams without a head, which may be refused
/// as 400 or as 431. (That a stream asks something, or is refused, is what `connection` shows.)
pub fn one_outcome()
    ensures { (stream : List ℕ) (a b : Result Asked Refusal) → Connection stream a → Connection stream b → ¬ IsLeftOpen stream → a ≡ b }
{}

/// What a stream asks, or is refused with, does not change by what follows, unless it is 400: a stream so refused may not
/// be whole.
pub fn outcome_stays()
    ensures { (stream more : List ℕ) (outcome : Result Asked Refusal) → Connection stream outcome → outcome ≢ Err Refusal.BadRequest → Connection (stream ++ more) outcome }
{}
