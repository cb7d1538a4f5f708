//! What is recorded under a key, beside what a register has there.
ghost use Rattle.std.specs.Prelude.{◌≡◌, IsTrue, IfOk};
ghost use Rattle.desk_register.specs.View.{IfTrusted, IsRead};
ghost use Rattle.sql_rows.specs.Said.{IsSaid};

use crate::amounts::key::AmountKey;
use desk_register::{Fault, Register, Stage};
use std::alloc::Global;

/// Whether what is recorded under a key is what a register has there.
#[tactic(auto, using(crate::proofs::SaidLemmas::one_paid))]
pub fn is_said<R: Register>(
    alloc: Global,
    register: &mut R,
    key: &AmountKey,
    recorded: Option<u64>,
) -> Result<bool, Fault>
    requires stage { (R.view register.old).stage ≡ Stage.Idle }
    ensures said { IfTrusted (R.view register.old) (R.view register.new) (IfOk result (λ so. IsTrue so → IsSaid (R.view register.old).content key.now recorded)) }
    ensures exact { IfTrusted (R.view register.old) (R.view register.new) (IfOk result (λ so. IsSaid (R.view register.old).content key.now recorded → IsTrue so)) }
    ensures read { IsRead result (R.view register.old) (R.view register.new) }
{
    let amount = recorded.unwrap_or(0);
    match key {
        AmountKey::Balance(account, isin) => {
            let held = register.position(alloc, *account, *isin)?;
            Ok(amount == held)
        }
        AmountKey::Cash(bic, ccy) => {
            let had = register.cash(alloc, *bic, *ccy)?;
            Ok(amount == had)
        }
        AmountKey::Security(isin) => {
            let outstanding = register.outstanding(alloc, *isin)?;
            Ok(amount == outstanding)
        }
        AmountKey::Currency(ccy) => {
            let paid = register.paid(alloc, *ccy)?;
            Ok(recorded == paid)
        }
    }
}
