//! `desk drop`.
ghost use Rattle.std.specs.Prelude.{◌≡◌, ◌<◌, true, false, All, length, map, string_bytes, IfErr, IfOk, OnErr};
ghost use Rattle.std.specs.Io.KnownBytes.{Appends};
ghost use Rattle.desk_book.specs.Answered.{AreBlamed};
ghost use Rattle.desk_book.specs.Held.{IfHolds};
ghost use Rattle.desk_book.specs.Played.{answer_text};
ghost use Rattle.desk_drop.specs.Folder.{file_of};
ghost use Rattle.desk_register.specs.View.{IfCounted, IsLater};
ghost use Rattle.desk.specs.Left.{IsLeft, LeavesSome};
ghost use Rattle.desk.specs.DropAnswer.{AreTakenFrom, IsFolderEnd, IsFolderFailure, IsFolderTold, answer_name};

use crate::folders::{BEHIND, Found, put_answer, read_folder, try_folder};
use crate::status::{Failure, Status, tell_failure};
use crate::teller::{Failing, Tally, Teller, Watch};
use desk_book::{Desk, Fault, add_answer, add_fault};
use desk_drop::{DropFile, DropReply, take};
use desk_register::Register;
use desk_rules::Reply;
use desk_streams::{Outbox, Sink};
use std::alloc::{AllocError, Global};
use std::io;
use std::rt::HostRuntime;

/// The folders of a call: the one whose files are taken, and the one of the answers.
#[derive(Clone, Copy)]
pub struct Folders<'a> {
    pub from: &'a str,
    pub to: &'a str,
}

/// The file of an answer.
#[derive(Drop)]
struct AnswerFile {
    name: String,
    text: Vec<u8>,
}

/// Takes the files of a folder on a desk that is open, and writes the answers into another folder. It is done where each answer is
/// written, whatever it is; nothing is told then. `fault io` tells that a folder failed, `fault 60` that memory is wanting. What
/// was accepted stands.
pub fn take_folder<D: Register + Failing + Drop, W: Sink>(
    rt: &HostRuntime,
    desk: &mut Desk<D>,
    teller: &mut Teller<'_>,
    folders: Folders<'_>,
    writer: &mut W,
) -> io::Result<Status>
    requires { desk.old.is_closed ≡ false }
    ensures told { IfOk result (λ status. IsFolderEnd status (Appends (W.contents writer.old) (W.contents writer.new))) }
    ensures left { IfHolds D.view desk.old desk.new (λ books. LeavesSome (D.view desk.old.register).room books (IsLeft desk.new.is_closed (D.view desk.new.register))) }
    ensures later { IsLater (D.view desk.old.register) (D.view desk.new.register) }
    ensures failed { OnErr result (W.may_fail ≡ true) }
{
    let done = drop_on(rt, desk, teller, folders);
    tell_done(done, writer)
}

/// Tells nothing of a folder whose answers are written, or why they are not.
fn tell_done<W: Sink>(done: Result<(), Failure>, writer: &mut W) -> io::Result<Status>
    ensures told { IfOk result (λ status. IsFolderTold done status (writer.new ≡ writer.old) (Appends (W.contents writer.old) (W.contents writer.new))) }
    ensures failed { OnErr result (W.may_fail ≡ true) }
{
    match done {
        Ok(()) => Ok(Status::Done),
        Err(failure) => tell_failure(failure, writer),
    }
}

/// Takes a folder on a desk that is open.
fn drop_on<D: Register + Failing + Drop>(
    rt: &HostRuntime,
    desk: &mut Desk<D>,
    teller: &mut Teller<'_>,
    folders: Folders<'_>,
) -> Result<(), Failure>
    requires { desk.old.is_closed ≡ false }
    ensures failure { IfErr result IsFolderFailure }
    ensures left { IfHolds D.view desk.old desk.new (λ books. LeavesSome (D.view desk.old.register).room books (IsLeft desk.new.is_closed (D.view desk.new.register))) }
    ensures later { IsLater (D.view desk.old.register) (D.view desk.new.register) }
{
    match read_all(rt, teller, folders) {
        Ok(found) => answer_all(rt, desk, teller, folders.to, &found),
        Err(error) => Err(Failure::from(error)),
    }
}

/// Reads all files of the folder, once it is shown that their answers can be written.
fn read_all(rt: &HostRuntime, teller: &Teller<'_>, folders: Folders<'_>) -> io::Result<Vec<Found>> {
    try_folder(rt, folders.to, teller)?;
    read_folder(rt, folders.from, teller)
}

/// Takes the files that were read on a desk that is open, and writes their answers to a folder.
fn answer_all<D: Register + Failing + Drop>(
    rt: &HostRuntime,
    desk: &mut Desk<D>,
    teller: &mut Teller<'_>,
    folder: &str,
    found: &[Found],
) -> Result<(), Failure>
    requires { desk.old.is_closed ≡ false }
    ensures failure { IfErr result IsFolderFailure }
    ensures left { IfHolds D.view desk.old desk.new (λ books. LeavesSome (D.view desk.old.register).room books (IsLeft desk.new.is_closed (D.view desk.new.register))) }
    ensures later { IsLater (D.view desk.old.register) (D.view desk.new.register) }
{
    let Ok(files) = files_of(rt.alloc(), found) else {
        return Err(Failure::Memory);
    };
    let taken = take_on(rt.alloc(), desk, &files);
    teller.look(desk.is_closed(), desk.register().failures());
    match taken {
        Ok(replies) => write_all(rt, teller, folder, &files, &replies),
        Err(_) => Err(Failure::Memory),
    }
}

/// The files that were read.
fn files_of(alloc: Global, found: &[Found]) -> Result<Vec<DropFile<'_>>, AllocError> {
    let mut files = Vec::with_capacity(alloc, found.len())?;
    for one in found {
        files.push(DropFile {
            name: one.name.as_str(),
            bytes: &one.bytes,
        })?;
    }
    Ok(files)
}

/// Takes files on a desk that is open. Where memory is wanting for the lists nothing was asked.
fn take_on<D: Register + Drop>(
    alloc: Global,
    desk: &mut Desk<D>,
    files: &[DropFile<'_>],
) -> Result<Vec<DropReply>, Fault>
    requires { desk.old.is_closed ≡ false }
    ensures taken { IfHolds D.view desk.old desk.new (λ books.
        IfOk result (λ replies. AreTakenFrom (D.view desk.old.register).room (IsLeft desk.new.is_closed (D.view desk.new.register)) books (map file_of files.now) replies.items)) }
    ensures untaken { OnErr result (desk.new ≡ desk.old) }
    ensures within { IfOk result (λ replies. All (λ reply. reply.index < length files.now) replies.items) }
    ensures blame { IfOk result (λ replies. IfCounted (D.view desk.new.register)
        (AreBlamed (map (λ reply. reply.answer) replies.items) (D.view desk.old.register).device.failures (D.view desk.new.register).device.failures)) }
    ensures memory { IfErr result (λ fault. fault ≡ Fault.Memory) }
    ensures later { IsLater (D.view desk.old.register) (D.view desk.new.register) }
{
    take(alloc, desk, files)
}

/// Writes the answers to files, and tells people how many there are of each kind.
fn write_all(
    rt: &HostRuntime,
    teller: &Teller<'_>,
    folder: &str,
    files: &[DropFile<'_>],
    replies: &[DropReply],
) -> Result<(), Failure>
    requires { All (λ reply. reply.index < length files.now) replies.now }
    ensures { IfErr result IsFolderFailure }
{
    let mut tally = Tally::new();
    for reply in replies {
        let answer = answer_file(rt.alloc(), files[reply.index].name, &reply.answer)?;
        put_answer(rt, folder, answer.name.as_str(), &answer.text, teller)?;
        tally.count(&reply.answer);
        teller.has_written(tally);
    }
    teller.taken_folder(tally);
    Ok(())
}

/// The file of the answer to a file of this name: its name with `.out` behind it, and the text of an answer in a script.
fn answer_file(alloc: Global, name: &str, answer: &Result<Reply, Fault>) -> io::Result<AnswerFile>
    ensures name { IfOk result (λ file. string_bytes file.name ≡ answer_name name.now) }
    ensures text { IfOk result (λ file. file.text.items ≡ answer_text answer.now) }
{
    let name = format!(in alloc; "{name}{BEHIND}")?;
    let text = answer_bytes(alloc, answer)?;
    Ok(AnswerFile { name, text })
}

/// The text of an answer in a script.
fn answer_bytes(alloc: Global, answer: &Result<Reply, Fault>) -> io::Result<Vec<u8>>
    ensures { IfOk result (λ text. text.items ≡ answer_text answer.now) }
{
    let mut text = Vec::new(alloc);
    let mut outbox = Outbox::new(alloc)?;
    match answer {
        Ok(reply) => add_answer(
            &mut outbox,
            &mut text,
            reply.status,
            reply.mt,
            reply.text.as_bytes(),
        )?,
        Err(fault) => add_fault(&mut outbox, &mut text, *fault)?,
    }
    outbox.finish(&mut text)?;
    Ok(text)
}
