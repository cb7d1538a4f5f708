//! A script, from a reader to a writer.
ghost use Rattle.std.specs.Prelude.{◌≡◌, ℕ, ◌+◌, List, [], ◌∷◌, true, ◌<◌, ◌≤◌, length, IfSome, OnErr, OnOk, Result, Err};
ghost use Rattle.std.specs.Io.KnownBytes.{Consumes, append_known};
ghost use Rattle.desk_rules.specs.declared.answers.reply.Reply.{Reply};
ghost use Rattle.desk_book.specs.declared.fault.Fault.{Fault};
ghost use Rattle.desk_book.specs.Held.{IfHolds};
ghost use Rattle.desk_book.specs.Left.{LeavesDesk};
ghost use Rattle.desk_book.specs.Played.{HasPlayed, PlaysFront, PlaysScript};
ghost use Rattle.desk_book.specs.Items.{PlaysItem};
ghost use Rattle.desk_book.specs.Script.{item_of};
ghost use Rattle.desk_streams.specs.Waiting.{HasRoom, waits};

use crate::answers::outgoing::{add_answer, add_bad_line, add_fault};
use crate::desk::Desk;
use crate::fault::PlayFault;
use crate::limits::LONGEST_SCRIPT;
use crate::requests::script::{Item, first_item};
use desk_register::Register;
use desk_streams::{Outbox, Sink, Source, read_whole};
use std::alloc::Global;
use std::io;

impl<R: Register> Desk<R> {
    /// Reads a whole script, and then asks its requests one after another and writes the answers, in pieces of `PIECE`
    /// bytes and what is left at the end. The room for a piece is taken before the first read. After `ReadFailed`,
    /// `TooLong` and `Memory` nothing was asked or written; after `WriteFailed` what was asked before the failed write
    /// stands.
    pub fn play<I: Source, O: Sink>(
        &mut self,
        alloc: Global,
        reader: &mut I,
        writer: &mut O,
    ) -> Result<(), PlayFault>
        ensures played { OnOk result (IfHolds R.view self.old self.new (λ books.
            (script : List ℕ) × IfSome (I.remaining reader.old) (λ input. input ≡ script) × (length script ≤ LONGEST_SCRIPT)
            × PlaysScript self.old.is_closed books script (O.contents writer.old) (O.contents writer.new) self.new.is_closed (R.view self.old.register) (R.view self.new.register))) }
        ensures unread { result ≡ Err PlayFault.ReadFailed → (self.new ≡ self.old) × (writer.new ≡ writer.old) × (I.may_fail ≡ true) }
        ensures too_long { result ≡ Err PlayFault.TooLong → (self.new ≡ self.old) × (writer.new ≡ writer.old) × IfSome (I.remaining reader.old) (λ input. LONGEST_SCRIPT < length input) }
        ensures memory { result ≡ Err PlayFault.Memory → (self.new ≡ self.old) × (writer.new ≡ writer.old) × (reader.new ≡ reader.old) }
        ensures stands { result ≡ Err PlayFault.WriteFailed → IfHolds R.view self.old self.new (λ books.
            (script : List ℕ) × IfSome (I.remaining reader.old) (λ input. input ≡ script) × (length script ≤ LONGEST_SCRIPT)
            × PlaysFront self.old.is_closed books script self.new.is_closed (R.view self.old.register) (R.view self.new.register)) }
        ensures unwritten { result ≡ Err PlayFault.WriteFailed → O.may_fail ≡ true }
        ensures taken { (taken : List ℕ) × Consumes (I.remaining reader.old) (I.remaining reader.new) taken × (length taken ≤ LONGEST_SCRIPT + 1) }
        ensures left { LeavesDesk R.view R.in_memory self.old self.new }
    {
        let Ok(mut outbox) = Outbox::new(alloc) else {
            return Err(PlayFault::Memory);
        };
        let script = read_whole(alloc, reader, LONGEST_SCRIPT)?;
        match self.answer_script(alloc, &script, &mut outbox, writer) {
            Ok(()) => Ok(()),
            Err(_) => Err(PlayFault::WriteFailed),
        }
    }

    /// Asks a script's requests one after another, and writes the answers.
    fn answer_script<O: Sink>(
        &mut self,
        alloc: Global,
        script: &[u8],
        outbox: &mut Outbox,
        writer: &mut O,
    ) -> io::Result<()>
        requires room { HasRoom outbox.old }
        requires empty { waits outbox.old ≡ [] }
        ensures played { IfHolds R.view self.old self.new (λ books.
            OnOk result (PlaysScript self.old.is_closed books script.now (O.contents writer.old) (O.contents writer.new) self.new.is_closed (R.view self.old.register) (R.view self.new.register))) }
        ensures front { IfHolds R.view self.old self.new (λ books.
            PlaysFront self.old.is_closed books script.now self.new.is_closed (R.view self.old.register) (R.view self.new.register)) }
        ensures failed { OnErr result (O.may_fail ≡ true) }
        ensures left { LeavesDesk R.view R.in_memory self.old self.new }
    {
        let mut rest = script;
        'items: while let Some((item, after)) = first_item(rest) {
            rest = after;
            self.answer_item(alloc, &item, outbox, writer)?;
        }
        outbox.finish(writer)
    }

    /// Asks an item of a script, if it asks anything, and adds the answer to what waits.
    fn answer_item<O: Sink>(
        &mut self,
        alloc: Global,
        item: &Item<'_>,
        outbox: &mut Outbox,
        writer: &mut O,
    ) -> io::Result<()>
        requires room { HasRoom outbox.old }
        ensures room { OnOk result (HasRoom outbox.new) }
        ensures played { IfHolds R.view self.old self.new (λ books.
            OnOk result (PlaysItem self.old.is_closed books (item_of item.now) (append_known (O.contents writer.old) (waits outbox.old)) (append_known (O.contents writer.new) (waits outbox.new)) self.new.is_closed (R.view self.old.register) (R.view self.new.register))) }
        ensures front { IfHolds R.view self.old self.new (λ books.
            (answers : List (Result Reply Fault)) × HasPlayed self.old.is_closed books (item_of item.now ∷ []) answers self.new.is_closed (R.view self.old.register) (R.view self.new.register)) }
        ensures failed { OnErr result (O.may_fail ≡ true) }
        ensures left { LeavesDesk R.view R.in_memory self.old self.new }
    {
        match item {
            Item::Ask(request) => match self.ask(alloc, request) {
                Ok(reply) => add_answer(
                    outbox,
                    writer,
                    reply.status,
                    reply.mt,
                    reply.text.as_bytes(),
                ),
                Err(fault) => add_fault(outbox, writer, fault),
            },
            Item::BadLine => add_bad_line(outbox, writer),
        }
    }
}
