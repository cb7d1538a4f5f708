//! The messages that the desk sends.
ghost use Rattle.std.specs.Prelude.{◌≡◌, ◌≤◌, IfOk};
ghost use Rattle.desk_rules.specs.Sent.{advised, confirmed};
ghost use Rattle.desk_rules.specs.declared.limits.TheConstants.{MOST_SENT};

use crate::answers::replies::ADVICE;
use crate::answers::reply::{Sent, Text};
use crate::history::entry::Instructed;
use crate::limits::MOST_SENT;
use desk_codes::Day;
use desk_msg::{Case, Own, Reason, confirmation_text, status_text};
use std::alloc::{AllocError, Global};

/// The advice to the sender of an instruction that it was paired: this number among all messages that are sent, about
/// the instruction of that number.
pub fn pairing_advice(
    alloc: Global,
    number: u64,
    about: u64,
    paired: &Instructed,
) -> Result<Sent, AllocError>
    requires { number ≤ MOST_SENT }
    ensures { IfOk result (λ message. message ≡ advised number about paired.now) }
{
    let instruction = &paired.instruction;
    let case = Case::Matched(Reason::Future);
    let text = status_text(
        alloc,
        Own::Sent(number),
        instruction.mt,
        &instruction.reference,
        case,
    )?;
    Ok(Sent {
        bic: paired.sender,
        mt: ADVICE,
        about,
        text: Text::new(text),
    })
}

/// The confirmation to the sender of an instruction that it was settled by a run of this day: this number among all
/// messages that are sent, about the instruction of that number.
pub fn settlement_confirmation(
    alloc: Global,
    number: u64,
    about: u64,
    settled: &Instructed,
    day: Day,
) -> Result<Sent, AllocError>
    requires { number ≤ MOST_SENT }
    ensures { IfOk result (λ message. message ≡ confirmed number about settled.now day) }
{
    let instruction = &settled.instruction;
    let text = confirmation_text(alloc, number, instruction, day)?;
    Ok(Sent {
        bic: settled.sender,
        mt: instruction.mt.confirming().number(),
        about,
        text: Text::new(text),
    })
}
