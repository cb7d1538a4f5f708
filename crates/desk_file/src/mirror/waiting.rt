//! Tries of a pair that change nothing.
ghost use Rattle.std.specs.Prelude.{◌≡◌, ◌≢◌, IsTrue, Some, IfSome};
ghost use Rattle.desk_register.specs.declared.register.Stage.TheVariants.{Failed};
ghost use Rattle.desk_register.specs.View.{HasRead, IfRead};
ghost use Rattle.desk_file.specs.Waiting.{BothWait, IsInVain, WaitsWith};

use desk_msg::Reason;
use desk_register::{MemoryRegister, Outcome};
use desk_rules::{Lack, Standing, State};
use std::alloc::Global;

/// Why an instruction waits; None where it does not, or not as the mate of that number.
fn reason_with(standing: &Standing, mate: u64) -> Option<Reason>
    ensures { IfSome result (λ reason. WaitsWith standing.now mate reason) }
{
    match standing.state {
        State::Matched(reason) if standing.mate == Some(mate) => Some(reason),
        _ => None,
    }
}

/// The reason that both give.
fn shared(here: Reason, there: Reason) -> Option<Reason>
    ensures { IfSome result (λ reason. (here ≡ reason) × (there ≡ reason)) }
{
    if here == there { Some(here) } else { None }
}

/// Why the instruction of a number and its mate wait; None where one does not, or each for a reason of its own.
pub(crate) fn reason_of_pair<R: MemoryRegister>(
    alloc: Global,
    register: &mut R,
    number: u64,
) -> Option<Reason>
    ensures waits { IfRead (R.view register.old) (R.view register.new) (IfSome result (λ reason. BothWait (R.view register.old).content number reason)) }
    ensures read { HasRead (R.view register.old) (R.view register.new) }
{
    let standing = register.standing(alloc, number).unwrap();
    let mate = standing.mate?;
    let other = register.standing(alloc, mate).unwrap();
    shared(reason_with(&standing, mate)?, reason_with(&other, number)?)
}

/// Whether a try tells why both wait already.
pub(crate) fn is_in_vain(reason: Option<Reason>, outcome: Outcome) -> bool
    ensures { IsTrue result → IsInVain reason outcome }
{
    match (reason, outcome) {
        (Some(Reason::Lack), Outcome::Lacks(Lack::Securities)) => true,
        (Some(Reason::Money), Outcome::Lacks(Lack::Money)) => true,
        _ => false,
    }
}
