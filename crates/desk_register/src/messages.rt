//! What was sent, by its number among all.
ghost use Rattle.std.specs.Prelude.{◌≡◌, IfOk};
ghost use Rattle.desk_register.specs.View.{IfRead, IsRead};
ghost use Rattle.desk_rules.specs.Questions.{sent_at};

use crate::register::{Fault, Register};
use desk_rules::Sent;
use std::alloc::Global;

/// A register that finds what it sent by its number among all that was sent, whoever it was sent to.
pub trait Messages: Register {
    /// A copy of the message of this number among all that were sent, counted from 1; None where there is none.
    fn message(&mut self, alloc: Global, number: u64) -> Result<Option<Sent>, Fault>
        ensures value { IfRead (Self.Register.view self.old) (Self.Register.view self.new) (IfOk result (λ r. r ≡ sent_at (Self.Register.view self.old).content.sent number)) }
        ensures read { IsRead result (Self.Register.view self.old) (Self.Register.view self.new) };
}
