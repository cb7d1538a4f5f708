//! The number of a confirmation.
ghost use Rattle.std.specs.Prelude.{◌≡◌, ◌<◌, ◌^◌, ℕ, List, Some};
ghost use Rattle.desk_msg.specs.ConfirmationText.{confirmation};
ghost use Rattle.desk_msg.specs.declared.instruction.Instruction.{Instruction};

use crate::texts::digits::number_of;

/// What a confirmation begins with, up to the digits of its own reference.
const BEGINNING: &[u8] = b"{4:\r\n:16R:GENL\r\n:20C::SEME//D";

/// How many digits tell the number of a message.
const DIGITS: usize = 15;

/// The number of a confirmation among all sent messages, which its own reference tells (ISO 15022, field 20C, qualifier
/// SEME: D and 15 digits). Nothing is said of any other text: the answer may be None, or a number.
#[tactic(auto, using(crate::proofs::ConfirmationLemmas::begins, crate::proofs::ConfirmationLemmas::goes_on, crate::proofs::ConfirmationLemmas::numbered))]
pub fn message_number(text: &[u8]) -> Option<u64>
    ensures { (k : ℕ) (i : Instruction) (day : List ℕ) → text.now ≡ confirmation k i day → k < 10 ^ 15 → result ≡ Some k }
{
    let digits = text.strip_prefix(BEGINNING)?.get(..DIGITS)?;
    number_of(digits)
}
