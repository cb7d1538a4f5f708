//! What an instruction says that is opposite to one.
ghost use Rattle.std.specs.Prelude.{◌≡◌, ◌<◌, ◌^◌};
ghost use Rattle.sqlite.specs.Values.{bound};
ghost use Rattle.sql_entries.specs.Opposites.{asked_for, opposite_type};

use crate::columns::quantity;
use desk_codes::Bic;
use desk_msg::{Instruction, Mt};
use sql_tables::values::{amount, currency_text, integer};
use sqlite::types::ValueRef;

/// The type of a message on the other side.
fn opposite_type(mt: Mt) -> Mt
    ensures { result ≡ opposite_type mt }
{
    match mt {
        Mt::Mt540 => Mt::Mt542,
        Mt::Mt541 => Mt::Mt543,
        Mt::Mt542 => Mt::Mt540,
        Mt::Mt543 => Mt::Mt541,
        Mt::Mt544 => Mt::Mt546,
        Mt::Mt545 => Mt::Mt547,
        Mt::Mt546 => Mt::Mt544,
        Mt::Mt547 => Mt::Mt545,
    }
}

/// The values of its columns, in the order in which they are asked for, and the number that its own is above.
pub(crate) fn values_asked<'a>(
    sender: &'a Bic,
    instruction: &'a Instruction,
    after: u64,
) -> [ValueRef<'a>; 10]
    requires { after < 2 ^ 63 }
    ensures { bound result ≡ asked_for (record { sender = sender.now; instruction = instruction.now }) after }
{
    [
        ValueRef::Text(instruction.isin.as_bytes()),
        ValueRef::Text(instruction.day.as_bytes()),
        integer(quantity(instruction)),
        ValueRef::Text(instruction.counterparty.as_bytes()),
        ValueRef::Text(sender.as_bytes()),
        integer(u64::from(opposite_type(instruction.mt).number())),
        ValueRef::Text(instruction.kind.as_str().as_bytes()),
        ValueRef::Text(currency_text(&instruction.cash)),
        integer(amount(&instruction.cash)),
        integer(after),
    ]
}
