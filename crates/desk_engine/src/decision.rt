//! What the desk decides on an entry, whatever register it keeps.
ghost use Rattle.std.specs.Prelude.{◌≡◌, ◌↔◌, nat_le, length, option_map, IfOk, IsTrue, Some, true, IsOk};
ghost use Rattle.desk_register.specs.View.{IsRead};
ghost use Rattle.desk_rules.specs.History.{as_asked, sender_of};
ghost use Rattle.desk_engine.specs.Deciding.{IsVerdictIfKnown};
ghost use Rattle.desk_register.specs.Checked.{checks_in};
ghost use Rattle.desk_engine.specs.Decision.{Reading};
ghost use Rattle.desk_rules.specs.Books.{Books};
ghost use Rattle.desk_rules.specs.Content.{history_of};
ghost use Rattle.desk_rules.specs.Tables.{AreTables};
ghost use Rattle.desk_rules.specs.Verdict.{first_failing, is_from_stranger, IsVerdict, reused_by};

use crate::checks::refuse;
use desk_register::{Fault, Register};
use desk_rules::{Entry, Refusal, Sender, Verdict, same_entry};
use std::alloc::Global;

/// Whether an entry is a message of a sender that is no participant.
pub fn is_from_stranger<R: Register>(
    alloc: Global,
    register: &mut R,
    entry: &Entry,
) -> Result<bool, Fault>
    ensures value { Reading (R.view register.old) (R.view register.new) (λ c. IfOk result (λ r. r ≡ is_from_stranger (history_of c) (sender_of entry.now))) }
    ensures read { IsRead result (R.view register.old) (R.view register.new) }
    ensures in_memory { R.in_memory ≡ true → IsOk result }
{
    match entry.sender() {
        Sender::Operator => Ok(false),
        Sender::Participant(bic) => {
            let is_participant = register.participant(alloc, bic)?;
            Ok(!is_participant)
        }
    }
}

/// The refusal of a reference that its sender used for something else.
fn reused_by(entry: &Entry) -> Refusal
    ensures { result ≡ reused_by (sender_of entry.now) }
{
    match entry.sender() {
        Sender::Operator => Refusal::CommandReused,
        Sender::Participant(_) => Refusal::ReferenceReused,
    }
}

/// Whether what was found, if anything, asks for the same as an entry.
fn asks_the_same(found: &Option<Entry>, entry: &Entry) -> bool
    ensures { IsTrue result ↔ (option_map as_asked found.now ≡ Some (as_asked entry.now)) }
{
    match found {
        Some(found) => same_entry(found, entry),
        None => false,
    }
}

/// The verdict on an entry whose key is known: a repeat, or its reference was used for something else.
fn verdict_on_key<R: Register>(
    alloc: Global,
    register: &mut R,
    entry: &Entry,
) -> Result<Option<Verdict>, Fault>
    ensures value { Reading (R.view register.old) (R.view register.new) (λ c. IfOk result (λ r. IsVerdictIfKnown (history_of c) entry.now r)) }
    ensures read { IsRead result (R.view register.old) (R.view register.new) }
    ensures in_memory { R.in_memory ≡ true → IsOk result }
{
    let sender = entry.sender();
    let reference = entry.reference();
    let Some(number) = register.number_of(alloc, sender, reference)? else {
        return Ok(None);
    };
    let found = register.entry(alloc, number)?;
    if asks_the_same(&found, entry) {
        return Ok(Some(Verdict::Repeat(number)));
    }
    Ok(Some(Verdict::Refuse(reused_by(entry))))
}

/// The verdict on an entry whose key is new.
fn verdict_on_new<R: Register>(
    alloc: Global,
    register: &mut R,
    limit: u64,
    entry: &Entry,
) -> Result<Verdict, Fault>
    ensures value { Reading (R.view register.old) (R.view register.new) (λ c. IfOk result (λ r. r ≡ first_failing (checks_in c entry.now) (nat_le limit (length (history_of c))))) }
    ensures read { IsRead result (R.view register.old) (R.view register.new) }
    ensures in_memory { R.in_memory ≡ true → IsOk result }
{
    if let Some(refusal) = refuse(alloc, register, entry)? {
        return Ok(Verdict::Refuse(refusal));
    }
    if limit <= register.count(alloc)? {
        return Ok(Verdict::Refuse(Refusal::Full));
    }
    Ok(Verdict::Accept)
}

/// What the desk decides on an entry. Nothing changes, and no `begin` is needed.
pub fn decide<R: Register>(alloc: Global, register: &mut R, entry: &Entry) -> Result<Verdict, Fault>
    ensures verdict { (books : Books) → Reading (R.view register.old) (R.view register.new) (λ c. AreTables books c → IfOk result (λ verdict. IsVerdict (R.view register.old).room books entry.now verdict)) }
    ensures read { IsRead result (R.view register.old) (R.view register.new) }
    ensures in_memory { R.in_memory ≡ true → IsOk result }
{
    let limit = register.limit();
    if is_from_stranger(alloc, register, entry)? {
        return Ok(Verdict::Refuse(Refusal::SenderUnknown));
    }
    if let Some(verdict) = verdict_on_key(alloc, register, entry)? {
        return Ok(verdict);
    }
    verdict_on_new(alloc, register, limit, entry)
}
