//! The messages that were sent, as their addressees ask for them.
ghost use Rattle.std.specs.Prelude.{◌≡◌, ◌≢◌, ◌+◌, [], ℕ, Err, Ok, Some, IfOk, OnOk};
ghost use Rattle.std.specs.BTreeMap.{IsEmpty};
ghost use Rattle.desk_rules.specs.Books.{Books};
ghost use Rattle.desk_rules.specs.Content.{history_of};
ghost use Rattle.desk_rules.specs.History.{instruction_at};
ghost use Rattle.desk_rules.specs.Sent.{notices_of};
ghost use Rattle.desk_rules.specs.Tables.{AreTables};
ghost use Rattle.desk_register.specs.View.{IfTrusted, IsRead};
ghost use Rattle.desk_register.specs.Ends.{at_register};
ghost use Rattle.desk_journal.specs.Counting.{AreKeyed, CountsMore, IsNoticeAt};
ghost use Rattle.desk_journal.specs.Messages.{keys_of};
ghost use Rattle.desk_journal.specs.Sending.{HoldNotices, HoldsBooks, HoldsInstruction, type_told};

use crate::rows::journal::MessageKey;
use crate::sending::add;
use desk_codes::Bic;
use desk_msg::{Mt, SinkFault};
use desk_register::{Fault, Register, Stage, WalkFault};
use desk_rules::{Instructed, Notice};
use std::alloc::{AllocError, Global};
use std::collections::BTreeMap;

/// The type of a status advice (ISO 15022, MT548).
const ADVICE: u16 = 548;

/// Counts a key once more, and gives how often it is counted now.
fn count_more<K: Ord + Copy>(counts: &mut BTreeMap<K, u64>, key: K) -> Result<u64, AllocError>
    ensures { IfOk result (λ now. CountsMore K.cmp counts.old key now counts.new) }
{
    let count = counts.entry(key)?.or_insert(0);
    *count = count.saturating_add(1);
    Ok(*count)
}

/// The type of the message that tells a notice about an instruction of this type.
fn type_of_notice(notice: Notice, mt: Mt) -> u16
    ensures { result ≡ type_told notice.run mt }
{
    match notice.run {
        Some(_) => mt.confirming().number(),
        None => ADVICE,
    }
}

/// The instruction that a notice is about. A store that has none of its number does not show what it holds: it is given up as
/// one that failed.
fn instruction<R: Register>(
    alloc: Global,
    register: &mut R,
    number: u64,
) -> Result<Instructed, Fault>
    requires stage { (R.view register.old).stage ≡ Stage.Idle }
    requires known { IfTrusted (R.view register.old) (R.view register.old) (HoldsInstruction (R.view register.old).content number) }
    ensures value { IfTrusted (R.view register.old) (R.view register.new) (IfOk result (λ found. instruction_at (history_of (R.view register.old).content) number ≡ Some found)) }
    ensures read { IsRead result (R.view register.old) (R.view register.new) }
{
    let found = register.entry(alloc, number)?;
    match found.and_then(|entry| entry.instructed()) {
        Some(found) => Ok(found),
        None => Err(Fault::Storage),
    }
}

/// Adds the message that tells a notice, as its addressee asks for it.
fn add_key<R: Register>(
    alloc: Global,
    register: &mut R,
    notice: Notice,
    counts: &mut BTreeMap<Bic, u64>,
    keys: &mut Vec<MessageKey>,
) -> Result<(), WalkFault>
    requires stage { (R.view register.old).stage ≡ Stage.Idle }
    requires holds { IfTrusted (R.view register.old) (R.view register.old) (HoldsBooks (R.view register.old).content) }
    requires known { IfTrusted (R.view register.old) (R.view register.old) (HoldsInstruction (R.view register.old).content notice.about) }
    ensures keyed { (books : Books) → IfTrusted (R.view register.old) (R.view register.new) (AreTables books (R.view register.old).content
        → (place : ℕ) → IsNoticeAt books place notice → AreKeyed books place counts.old keys.old.items → OnOk result (AreKeyed books (place + 1) counts.new keys.new.items)) }
    ensures read { IsRead (at_register result) (R.view register.old) (R.view register.new) }
    ensures unwritten { result ≢ Err (WalkFault.Sink SinkFault.Write) }
{
    let addressed = instruction(alloc, register, notice.about)?;
    let Ok(number) = count_more(counts, addressed.sender) else {
        return Err(WalkFault::Sink(SinkFault::Memory));
    };
    let key = MessageKey {
        mt: type_of_notice(notice, addressed.instruction.mt),
        bic: addressed.sender,
        number,
    };
    add(keys, key)
}

/// Lists the messages of notices, as their addressees ask for them, by counts that are empty.
pub fn add_keys<R: Register>(
    alloc: Global,
    register: &mut R,
    notices: &[Notice],
    counts: &mut BTreeMap<Bic, u64>,
    keys: &mut Vec<MessageKey>,
) -> Result<(), WalkFault>
    requires stage { (R.view register.old).stage ≡ Stage.Idle }
    requires holds { IfTrusted (R.view register.old) (R.view register.old) (HoldsBooks (R.view register.old).content) }
    requires known { IfTrusted (R.view register.old) (R.view register.old) (HoldNotices (R.view register.old).content notices.now) }
    requires empty { IsEmpty counts.old × (keys.old.items ≡ []) }
    ensures keyed { (books : Books) → IfTrusted (R.view register.old) (R.view register.new) (AreTables books (R.view register.old).content → notices.now ≡ notices_of books
        → OnOk result (keys.new.items ≡ keys_of books)) }
    ensures read { IsRead (at_register result) (R.view register.old) (R.view register.new) }
    ensures unwritten { result ≢ Err (WalkFault.Sink SinkFault.Write) }
{
    'notices: for index in 0..notices.len() {
        add_key(alloc, register, notices[index], counts, keys)?;
    }
    Ok(())
}
