//! What the entries caused to be sent.
ghost use Rattle.std.specs.Prelude.{◌≡◌, ◌≢◌, ◌+◌, ◌*◌, ◌<◌, ◌^◌, ◌++◌, ◌-◌, ◌∷◌, [], ℕ, List, map, length, replicate, Ok, Err, Some, IfOk, OnOk};
ghost use Rattle.desk_msg.specs.ConfirmationText.{confirmation};
ghost use Rattle.desk_msg.specs.declared.instruction.Instruction.{Instruction};
ghost use Rattle.desk_rules.specs.Pairing.{mate_of};
ghost use Rattle.std.specs.List.{range_with_len};
ghost use Rattle.desk_rules.specs.Books.{Books};
ghost use Rattle.desk_rules.specs.Sent.{notices_of, told_by};
ghost use Rattle.desk_rules.specs.Tables.{AreTables};
ghost use Rattle.desk_register.specs.View.{IfTrusted, IsRead};
ghost use Rattle.desk_register.specs.Ends.{at_register};
ghost use Rattle.desk_journal.specs.Messages.{sent_upto};
ghost use Rattle.desk_journal.specs.Sending.{HoldsBooks, HoldsEntry, IsPlaceOf, advice_if, blank, known_upto, told_upto};

use crate::rows::journal::MessageKey;
use crate::runs::counts_of_run;
use crate::texts::confirmation::message_number;
use desk_msg::SinkFault;
use desk_register::{Fault, Register, Stage, WalkFault};
use desk_rules::{Entry, Notice, State};
use std::alloc::Global;

/// What the entries caused to be sent.
#[derive(Drop)]
pub struct Sending {
    /// Of what each message tells, in the order in which they were sent
    pub notices: Vec<Notice>,
    /// How many messages were sent up to the end of each entry
    pub ends: Vec<usize>,
    /// The messages, as their addressees ask for them
    pub keys: Vec<MessageKey>,
}

/// Adds to a list. Sink: memory was wanting.
pub fn add<T: Copy>(list: &mut Vec<T>, item: T) -> Result<(), WalkFault>
    ensures added { OnOk result (list.new.items ≡ list.old.items ++ item ∷ []) }
    ensures register { at_register result ≡ Ok tt }
    ensures unwritten { result ≢ Err (WalkFault.Sink SinkFault.Write) }
{
    match list.push(item) {
        Ok(()) => Ok(()),
        Err(_) => Err(WalkFault::Sink(SinkFault::Memory)),
    }
}

/// Notes the advice that an instruction caused, where it was matched with an earlier one when it came.
fn note_pair<R: Register>(
    alloc: Global,
    register: &mut R,
    number: u64,
    notices: &mut Vec<Notice>,
) -> Result<(), WalkFault>
    requires stage { (R.view register.old).stage ≡ Stage.Idle }
    ensures noted { (books : Books) → IfTrusted (R.view register.old) (R.view register.new) (AreTables books (R.view register.old).content
        → OnOk result (notices.new.items ≡ notices.old.items ++ advice_if number (mate_of books.pairs number))) }
    ensures read { IsRead (at_register result) (R.view register.old) (R.view register.new) }
    ensures unwritten { result ≢ Err (WalkFault.Sink SinkFault.Write) }
{
    let standing = register.standing(alloc, number)?;
    match standing.mate {
        Some(about) if about < number => add(notices, Notice { about, run: None }),
        _ => Ok(()),
    }
}

/// Notes twice as many confirmations as a run settled pairs, before it is known what they are about.
fn note_confirmations(number: u64, settled: u64, notices: &mut Vec<Notice>) -> Result<(), WalkFault>
    ensures noted { OnOk result (notices.new.items ≡ notices.old.items ++ replicate (2 * settled) (record { about = 0; run = Some number })) }
    ensures register { at_register result ≡ Ok tt }
    ensures unwritten { result ≢ Err (WalkFault.Sink SinkFault.Write) }
{
    let notice = Notice {
        about: 0,
        run: Some(number),
    };
    'pairs: for _pair in 0..settled {
        add(notices, notice)?;
        add(notices, notice)?;
    }
    Ok(())
}

/// Notes what an entry caused to be sent, before it is known which instructions a run settled.
fn note_entry<R: Register>(
    alloc: Global,
    register: &mut R,
    number: u64,
    notices: &mut Vec<Notice>,
) -> Result<(), WalkFault>
    requires stage { (R.view register.old).stage ≡ Stage.Idle }
    requires known { IfTrusted (R.view register.old) (R.view register.old) (HoldsBooks (R.view register.old).content) }
    ensures noted { (books : Books) → IfTrusted (R.view register.old) (R.view register.new) (AreTables books (R.view register.old).content
        → OnOk result (notices.new.items ≡ notices.old.items ++ map blank (told_by books number))) }
    ensures read { IsRead (at_register result) (R.view register.old) (R.view register.new) }
    ensures unwritten { result ≢ Err (WalkFault.Sink SinkFault.Write) }
{
    let Some(entry) = register.entry(alloc, number)? else {
        return Ok(());
    };
    match entry {
        Entry::Instruct { .. } => note_pair(alloc, register, number, notices),
        Entry::Run { .. } => {
            let counts = counts_of_run(alloc, register, number)?;
            note_confirmations(number, counts.0, notices)
        }
        _ => Ok(()),
    }
}

/// Notes what the entries caused to be sent, and how many messages were sent up to the end of each.
pub fn note_entries<R: Register>(
    alloc: Global,
    register: &mut R,
    count: u64,
    notices: &mut Vec<Notice>,
    ends: &mut Vec<usize>,
) -> Result<(), WalkFault>
    requires stage { (R.view register.old).stage ≡ Stage.Idle }
    requires known { IfTrusted (R.view register.old) (R.view register.old) (HoldsBooks (R.view register.old).content) }
    requires empty { (notices.old.items ≡ []) × (ends.old.items ≡ []) }
    ensures noted { (books : Books) → IfTrusted (R.view register.old) (R.view register.new) (AreTables books (R.view register.old).content
        → OnOk result ((notices.new.items ≡ map blank (told_upto books count)) × (ends.new.items ≡ map (sent_upto books) (range_with_len 1 count)))) }
    ensures read { IsRead (at_register result) (R.view register.old) (R.view register.new) }
    ensures unwritten { result ≢ Err (WalkFault.Sink SinkFault.Write) }
{
    'numbers: for before in 0..count {
        note_entry(alloc, register, before + 1, notices)?;
        add(ends, notices.len())?;
    }
    Ok(())
}

/// The place, among all that was sent, of the confirmation of an instruction; None where it is not settled.
pub fn confirmed_place<R: Register>(
    alloc: Global,
    register: &mut R,
    number: u64,
) -> Result<Option<usize>, Fault>
    requires stage { (R.view register.old).stage ≡ Stage.Idle }
    requires known { IfTrusted (R.view register.old) (R.view register.old) (HoldsBooks (R.view register.old).content) }
    ensures place { (books : Books) → IfTrusted (R.view register.old) (R.view register.new) (AreTables books (R.view register.old).content
        → IfOk result (λ place. IsPlaceOf books number place)) }
    ensures read { IsRead result (R.view register.old) (R.view register.new) }
{
    let standing = register.standing(alloc, number)?;
    if standing.state != State::Settled {
        return Ok(None);
    }
    let Some(message) = register.confirmation(alloc, number)? else {
        return Ok(None);
    };
    Ok(place_told(message.text.as_bytes()))
}

/// The place of a confirmation among all that was sent, as its text tells its number.
fn place_told(text: &[u8]) -> Option<usize>
    ensures { (place : ℕ) (i : Instruction) (day : List ℕ) → text.now ≡ confirmation (place + 1) i day → place + 1 < 10 ^ 15 → result ≡ Some place }
{
    let number = message_number(text)?;
    Some(number.checked_sub(1)? as usize)
}

/// Notes which instruction a confirmation is about, where this one is settled.
fn note_settled<R: Register>(
    alloc: Global,
    register: &mut R,
    number: u64,
    notices: &mut Vec<Notice>,
) -> Result<(), Fault>
    requires stage { (R.view register.old).stage ≡ Stage.Idle }
    requires known { IfTrusted (R.view register.old) (R.view register.old) (HoldsBooks (R.view register.old).content) }
    ensures noted { (books : Books) → IfTrusted (R.view register.old) (R.view register.new) (AreTables books (R.view register.old).content
        → notices.old.items ≡ map (known_upto (number - 1)) (notices_of books) → OnOk result (notices.new.items ≡ map (known_upto number) (notices_of books))) }
    ensures read { IsRead result (R.view register.old) (R.view register.new) }
{
    let Some(place) = confirmed_place(alloc, register, number)? else {
        return Ok(());
    };
    if let Some(notice) = notices.get_mut(place) {
        notice.about = number;
    }
    Ok(())
}

/// Notes of each confirmation which instruction it is about.
pub fn note_all_settled<R: Register>(
    alloc: Global,
    register: &mut R,
    count: u64,
    notices: &mut Vec<Notice>,
) -> Result<(), Fault>
    requires stage { (R.view register.old).stage ≡ Stage.Idle }
    requires known { IfTrusted (R.view register.old) (R.view register.old) (HoldsBooks (R.view register.old).content) }
    ensures noted { (books : Books) → IfTrusted (R.view register.old) (R.view register.new) (AreTables books (R.view register.old).content
        → notices.old.items ≡ map blank (notices_of books) → count ≡ length books.history → OnOk result (notices.new.items ≡ notices_of books)) }
    ensures read { IsRead result (R.view register.old) (R.view register.new) }
{
    'numbers: for before in 0..count {
        note_settled(alloc, register, before + 1, notices)?;
    }
    Ok(())
}
