//! The register: the law by which every store of the desk is judged.
ghost use Rattle.std.specs.Prelude.{◌≡◌, ◌≢◌, true, Bool, ◌+◌, ◌≤◌, length, option_map, IfOk, IfErr, IsOk, OnOk, OnErr};
ghost use Rattle.desk_codes.specs.Number.{number_of};
ghost use Rattle.desk_register.specs.View.{View, IfRead, IfTrusted, IsLater, Begins, Commits, GoesBack, Falls, Blames, IsRead, IsChange};
ghost use Rattle.desk_rules.specs.Content.{history_of};
ghost use Rattle.desk_register.specs.Changes.{appended, cancelled, pair_cancelled, paired, with_sent, CanAppend, CanCancel, CanCancelPair, CanPair, CanSend, CanSettle, TriesPair};
ghost use Rattle.desk_register.specs.Looked.{confirmation_in, held_cash_of, held_of, reply_at, sent_to, IsFirstOpposite, IsDuePairAfter, IsHoldingAfter, IsMatchedPair, IsPaid, IsSecurityAfter};
ghost use Rattle.desk_register.specs.Short.{IsToTryAfter, StaysShort};
ghost use Rattle.desk_rules.specs.History.{entry_at, number_of_key};
ghost use Rattle.desk_rules.specs.Questions.{sent_at};
ghost use Rattle.desk_rules.specs.Facts.{is_participant, owner_of, kind_of, last_run};
ghost use Rattle.desk_rules.specs.Balances.{issued, redeemed};
ghost use Rattle.desk_register.specs.declared.register.Fault.TheVariants.{Memory};

use crate::holding::Holding;
use crate::outcome::Outcome;
use desk_codes::{AccountId, Bic, Ccy, Day, Isin, Reference};
use desk_msg::{Instruction, Kind};
use desk_rules::{Entry, MOST_ENTRIES, Place, Reply, Sender, Sent, Standing};
use std::alloc::{AllocError, Global};

/// At how many a register stops to count the failures of its device.
pub const MOST_FAILURES: u64 = u64::MAX;

/// Whether a `begin` is open, and whether a call within it has failed.
#[derive(Clone, Copy)]
pub enum Stage {
    /// No `begin` is open.
    Idle,
    /// One is open, and every call since went well.
    Begun,
    /// One is open, and a call since has failed: what is held is not known until `back`, and nothing else changes.
    Failed,
}

/// Why a call gives no answer.
#[derive(Clone, Copy)]
pub enum Fault {
    /// 60: want of memory
    Memory,
    /// 61: the device failed in the call
    Storage,
}

impl From<AllocError> for Fault {
    ghost from_gives = { λ _ fault. fault ≡ Memory };

    fn from(_error: AllocError) -> Fault {
        Fault::Memory
    }
}

/// What the desk keeps: its accepted entries with their replies, where each stands, the positions, the cash, and
/// the sent messages.
///
/// Whatever changes stands between `begin` and `commit`, or `back`, which takes it all back. What only reads may be
/// called at any time; once a call has failed, what it answers means nothing until `back`.
pub trait Register {
    /// What contracts see of a register
    ghost view: { Self → View };

    /// Whether it is kept in memory: then calls that take none always succeed
    ghost in_memory: { Bool };

    /// Begins a group of changes, which are then kept or taken back together, and marks what is held now as what
    /// `back` goes back to. After a fault there is no such group, so nothing is left to undo: `begin` again, or
    /// give up.
    fn begin(&mut self, alloc: Global) -> Result<(), Fault>
        requires { (view self.old).stage ≡ Stage.Idle }
        ensures ok { OnOk result (Begins (view self.old) (view self.new)) }
        ensures err { OnErr result (Falls (view self.old) (view self.new)) }
        ensures later { IsLater (view self.old) (view self.new) }
        ensures blame { Blames result (view self.old) (view self.new) }
        ensures in_memory { in_memory ≡ true → IsOk result };

    /// Keeps all that was changed since `begin`, for good; to be called once every call of the group went well. After
    /// a fault the group has failed like after any other, and only `back` ends it.
    fn commit(&mut self, alloc: Global) -> Result<(), Fault>
        requires { (view self.old).stage ≡ Stage.Begun }
        ensures ok { OnOk result (Commits (view self.old) (view self.new)) }
        ensures err { OnErr result (Falls (view self.old) (view self.new)) }
        ensures later { IsLater (view self.old) (view self.new) }
        ensures blame { Blames result (view self.old) (view self.new) }
        ensures in_memory { in_memory ≡ true → IsOk result };

    /// Takes back all that was changed since `begin`: after a call that failed, or where the caller gives the group
    /// up. After a fault of its own nothing is known of what is held, and the register should not be used further.
    fn back(&mut self, alloc: Global) -> Result<(), Fault>
        requires { (view self.old).stage ≢ Stage.Idle }
        ensures ok { OnOk result (GoesBack (view self.old) (view self.new)) }
        ensures later { IsLater (view self.old) (view self.new) }
        ensures in_memory { in_memory ≡ true → IsOk result };

    /// The greatest number of entries, `MOST_ENTRIES` at most.
    fn limit(&self) -> u64
        ensures limit { result ≡ (view self.now).room }
        ensures most { result ≤ MOST_ENTRIES };

    /// How many entries there are.
    fn count(&mut self, alloc: Global) -> Result<u64, Fault>
        ensures value { IfRead (view self.old) (view self.new) (IfOk result (λ r. r ≡ length (view self.old).content.register)) }
        ensures read { IsRead result (view self.old) (view self.new) }
        ensures in_memory { in_memory ≡ true → IsOk result };

    /// Whether a BIC is a participant's.
    fn participant(&mut self, alloc: Global, bic: Bic) -> Result<bool, Fault>
        ensures value { IfRead (view self.old) (view self.new) (IfOk result (λ r. r ≡ is_participant (history_of (view self.old).content) bic)) }
        ensures read { IsRead result (view self.old) (view self.new) }
        ensures in_memory { in_memory ≡ true → IsOk result };

    /// Whose an account is; None where there is no such account.
    fn owner(&mut self, alloc: Global, account: AccountId) -> Result<Option<Bic>, Fault>
        ensures value { IfRead (view self.old) (view self.new) (IfOk result (λ r. r ≡ owner_of (history_of (view self.old).content) account)) }
        ensures read { IsRead result (view self.old) (view self.new) }
        ensures in_memory { in_memory ≡ true → IsOk result };

    /// How a security is counted; None where there is no such security.
    fn security(&mut self, alloc: Global, isin: Isin) -> Result<Option<Kind>, Fault>
        ensures value { IfRead (view self.old) (view self.new) (IfOk result (λ r. r ≡ kind_of (history_of (view self.old).content) isin)) }
        ensures read { IsRead result (view self.old) (view self.new) }
        ensures in_memory { in_memory ≡ true → IsOk result };

    /// What was issued of a security less what was redeemed.
    fn outstanding(&mut self, alloc: Global, isin: Isin) -> Result<u64, Fault>
        ensures value { IfRead (view self.old) (view self.new) (IfOk result (λ r. redeemed (history_of (view self.old).content) isin + r ≡ issued (history_of (view self.old).content) isin)) }
        ensures read { IsRead result (view self.old) (view self.new) }
        ensures in_memory { in_memory ≡ true → IsOk result };

    /// What was paid in of a currency less what was paid out, in minor units; None before any pay in of it.
    fn paid(&mut self, alloc: Global, ccy: Ccy) -> Result<Option<u64>, Fault>
        ensures value { IfRead (view self.old) (view self.new) (IfOk result (λ r. IsPaid (history_of (view self.old).content) ccy r)) }
        ensures read { IsRead result (view self.old) (view self.new) }
        ensures in_memory { in_memory ≡ true → IsOk result };

    /// The day of the last run; None before any.
    fn last_run(&mut self, alloc: Global) -> Result<Option<Day>, Fault>
        ensures value { IfRead (view self.old) (view self.new) (IfOk result (λ r. option_map number_of r ≡ last_run (history_of (view self.old).content))) }
        ensures read { IsRead result (view self.old) (view self.new) }
        ensures in_memory { in_memory ≡ true → IsOk result };

    /// The number of the first entry with this key; None where there is none.
    fn number_of(
        &mut self,
        alloc: Global,
        sender: Sender,
        reference: Reference,
    ) -> Result<Option<u64>, Fault>
        ensures value { IfRead (view self.old) (view self.new) (IfOk result (λ r. r ≡ number_of_key (history_of (view self.old).content) sender reference)) }
        ensures read { IsRead result (view self.old) (view self.new) }
        ensures in_memory { in_memory ≡ true → IsOk result };

    /// The entry of this number, counted from 1; None where there is none.
    fn entry(&mut self, alloc: Global, number: u64) -> Result<Option<Entry>, Fault>
        ensures value { IfRead (view self.old) (view self.new) (IfOk result (λ r. r ≡ entry_at (history_of (view self.old).content) number)) }
        ensures read { IsRead result (view self.old) (view self.new) }
        ensures in_memory { in_memory ≡ true → IsOk result };

    /// Where the entry of this number stands; what is no instruction of the register stands nowhere.
    fn standing(&mut self, alloc: Global, number: u64) -> Result<Standing, Fault>
        ensures value { IfRead (view self.old) (view self.new) (IfOk result (λ r. r ≡ (view self.old).content.standing number)) }
        ensures read { IsRead result (view self.old) (view self.new) }
        ensures in_memory { in_memory ≡ true → IsOk result };

    /// The reply that is kept with the entry of this number; None where there is none.
    fn reply(&mut self, alloc: Global, number: u64) -> Result<Option<Reply>, Fault>
        ensures value { IfRead (view self.old) (view self.new) (IfOk result (λ r. r ≡ reply_at (view self.old).content number)) }
        ensures read { IsRead result (view self.old) (view self.new) };

    /// The least number of an unmatched instruction that is opposite to one of this sender; None where there is none.
    fn first_opposite(
        &mut self,
        alloc: Global,
        sender: Bic,
        instruction: &Instruction,
    ) -> Result<Option<u64>, Fault>
        ensures value { IfRead (view self.old) (view self.new) (IfOk result (λ r. IsFirstOpposite (view self.old).content (record { sender = sender; instruction = instruction.now }) r)) }
        ensures read { IsRead result (view self.old) (view self.new) }
        ensures in_memory { in_memory ≡ true → IsOk result };

    /// What an account holds of a security; 0 where there is no such account or security.
    fn position(&mut self, alloc: Global, account: AccountId, isin: Isin) -> Result<u64, Fault>
        ensures value { IfRead (view self.old) (view self.new) (IfOk result (λ r. r ≡ (view self.old).content.position account isin)) }
        ensures read { IsRead result (view self.old) (view self.new) }
        ensures in_memory { in_memory ≡ true → IsOk result };

    /// What a participant has of a currency, in minor units; 0 where there is no such participant, or nothing of it.
    fn cash(&mut self, alloc: Global, bic: Bic, ccy: Ccy) -> Result<u64, Fault>
        ensures value { IfRead (view self.old) (view self.new) (IfOk result (λ r. r ≡ (view self.old).content.cash bic ccy)) }
        ensures read { IsRead result (view self.old) (view self.new) }
        ensures in_memory { in_memory ≡ true → IsOk result };

    /// The first matched pair due by a day, in order of settlement day and number, after a place; with none, the first
    /// of all. None where there is none.
    fn due_pair_after(
        &mut self,
        alloc: Global,
        day: Day,
        place: Option<Place>,
    ) -> Result<Option<Place>, Fault>
        ensures value { IfRead (view self.old) (view self.new) (IfOk result (λ r. IsDuePairAfter (view self.old).content (number_of day) place r)) }
        ensures read { IsRead result (view self.old) (view self.new) }
        ensures in_memory { in_memory ≡ true → IsOk result };

    /// A matched pair due by a day after a place, so that each one before it stays short: it lacks what it is said to lack, and
    /// to try it would change nothing. None where each one after the place stays short. A register that knows of no pair
    /// that it stays short tells the first, as `due_pair_after` does.
    fn pair_to_try_after(
        &mut self,
        alloc: Global,
        day: Day,
        place: Option<Place>,
    ) -> Result<Option<Place>, Fault>
        ensures value { IfRead (view self.old) (view self.new) (IfOk result (λ r. IsToTryAfter (view self.old).content (number_of day) place r)) }
        ensures read { IsRead result (view self.old) (view self.new) }
        ensures in_memory { in_memory ≡ true → IsOk result }
    {
        self.due_pair_after(alloc, day, place)
    }

    /// Whether the register knows of the matched pair of a place that it stays short, as `pair_to_try_after` says it.
    fn stays_short(&mut self, _alloc: Global, place: Place) -> Result<bool, Fault>
        ensures value { IfRead (view self.old) (view self.new) (IfOk result (λ r. r ≡ true → IsMatchedPair (view self.old).content place → StaysShort (view self.old).content place.number)) }
        ensures read { IsRead result (view self.old) (view self.new) }
        ensures in_memory { in_memory ≡ true → IsOk result }
    {
        Ok(false)
    }

    /// The first security, in order of its bytes, after one; with none, the first of all. None where there is none.
    fn security_after(&mut self, alloc: Global, isin: Option<Isin>) -> Result<Option<Isin>, Fault>
        ensures value { IfRead (view self.old) (view self.new) (IfOk result (λ r. IsSecurityAfter (history_of (view self.old).content) isin r)) }
        ensures read { IsRead result (view self.old) (view self.new) }
        ensures in_memory { in_memory ≡ true → IsOk result };

    /// The first security, in order of its bytes, after one, of which an account holds some, and how much; with none, the
    /// first of all. None where there is none.
    fn holding_after(
        &mut self,
        alloc: Global,
        account: AccountId,
        isin: Option<Isin>,
    ) -> Result<Option<Holding>, Fault>
        ensures value { IfRead (view self.old) (view self.new) (IfOk result (λ r. IsHoldingAfter (view self.old).content account isin r)) }
        ensures read { IsRead result (view self.old) (view self.new) }
        ensures in_memory { in_memory ≡ true → IsOk result };

    /// What all registered accounts hold of a security.
    fn held(&mut self, alloc: Global, isin: Isin) -> Result<u64, Fault>
        ensures value { IfRead (view self.old) (view self.new) (IfOk result (λ r. r ≡ held_of (view self.old).content isin)) }
        ensures read { IsRead result (view self.old) (view self.new) }
        ensures in_memory { in_memory ≡ true → IsOk result };

    /// What all registered participants have of a currency, in minor units.
    fn held_cash(&mut self, alloc: Global, ccy: Ccy) -> Result<u64, Fault>
        ensures value { IfRead (view self.old) (view self.new) (IfOk result (λ r. r ≡ held_cash_of (view self.old).content ccy)) }
        ensures read { IsRead result (view self.old) (view self.new) }
        ensures in_memory { in_memory ≡ true → IsOk result };

    /// How many messages were sent, to all participants together.
    fn sent_count(&mut self, alloc: Global) -> Result<u64, Fault>
        ensures value { IfRead (view self.old) (view self.new) (IfOk result (λ r. r ≡ length (view self.old).content.sent)) }
        ensures read { IsRead result (view self.old) (view self.new) }
        ensures in_memory { in_memory ≡ true → IsOk result };

    /// A copy of the message of this number among those that were sent to a participant, counted from 1; None where
    /// there is none.
    fn sent(&mut self, alloc: Global, bic: Bic, number: u64) -> Result<Option<Sent>, Fault>
        ensures value { IfRead (view self.old) (view self.new) (IfOk result (λ r. r ≡ sent_at (sent_to (view self.old).content bic) number)) }
        ensures read { IsRead result (view self.old) (view self.new) };

    /// A copy of the message that confirms the instruction of this number; None where none was sent.
    fn confirmation(&mut self, alloc: Global, number: u64) -> Result<Option<Sent>, Fault>
        ensures value { IfRead (view self.old) (view self.new) (IfOk result (λ r. r ≡ confirmation_in (view self.old).content number)) }
        ensures read { IsRead result (view self.old) (view self.new) };

    /// Adds an entry with its reply. A cancellation is noted where the instruction stands that it names.
    fn append(&mut self, alloc: Global, entry: Entry, reply: Reply) -> Result<(), Fault>
        requires stage { (view self.old).stage ≡ Stage.Begun }
        requires fits { IfTrusted (view self.old) (view self.old) (CanAppend (view self.old).room entry reply (view self.old).content) }
        ensures added { IfTrusted (view self.old) (view self.new) (OnOk result ((view self.new).content ≡ appended entry reply (view self.old).content)) }
        ensures change { IsChange result (view self.old) (view self.new) };

    /// Makes two unmatched opposite instructions each other's mates, by their numbers.
    fn pair(&mut self, alloc: Global, earlier: u64, later: u64) -> Result<(), Fault>
        requires stage { (view self.old).stage ≡ Stage.Begun }
        requires fits { IfTrusted (view self.old) (view self.old) (CanPair (view self.old).content earlier later) }
        ensures paired { IfTrusted (view self.old) (view self.new) (OnOk result ((view self.new).content ≡ paired earlier later (view self.old).content)) }
        ensures change { IsChange result (view self.old) (view self.new) };

    /// Settles the matched pair of this number, which is due by a day, where it is covered, and moves its quantity from
    /// the deliverer's account to the receiver's, and its cash from the receiver to the deliverer; else says what it
    /// lacks, securities before money, and changes the reason alone.
    fn settle_pair(&mut self, alloc: Global, number: u64, day: Day) -> Result<Outcome, Fault>
        requires stage { (view self.old).stage ≡ Stage.Begun }
        requires fits { IfTrusted (view self.old) (view self.old) (CanSettle (view self.old).content number (number_of day)) }
        ensures settled { IfTrusted (view self.old) (view self.new) (IfOk result (λ outcome. TriesPair (view self.old).content number outcome (view self.new).content)) }
        ensures change { IsChange result (view self.old) (view self.new) };

    /// Lets an unmatched instruction, by its number, stand cancelled.
    fn cancel(&mut self, alloc: Global, number: u64) -> Result<(), Fault>
        requires stage { (view self.old).stage ≡ Stage.Begun }
        requires fits { IfTrusted (view self.old) (view self.old) (CanCancel (view self.old).content number) }
        ensures cancelled { IfTrusted (view self.old) (view self.new) (OnOk result ((view self.new).content ≡ cancelled number (view self.old).content)) }
        ensures change { IsChange result (view self.old) (view self.new) };

    /// Lets both instructions of a matched pair, by their numbers, stand cancelled. They keep their mates.
    fn cancel_pair(&mut self, alloc: Global, earlier: u64, later: u64) -> Result<(), Fault>
        requires stage { (view self.old).stage ≡ Stage.Begun }
        requires fits { IfTrusted (view self.old) (view self.old) (CanCancelPair (view self.old).content earlier later) }
        ensures cancelled { IfTrusted (view self.old) (view self.new) (OnOk result ((view self.new).content ≡ pair_cancelled earlier later (view self.old).content)) }
        ensures change { IsChange result (view self.old) (view self.new) };

    /// Adds a message to those that were sent.
    fn send(&mut self, alloc: Global, message: Sent) -> Result<(), Fault>
        requires stage { (view self.old).stage ≡ Stage.Begun }
        requires fits { IfTrusted (view self.old) (view self.old) (CanSend (view self.old).content) }
        ensures sent { IfTrusted (view self.old) (view self.new) (OnOk result ((view self.new).content ≡ with_sent message (view self.old).content)) }
        ensures change { IsChange result (view self.old) (view self.new) };
}
