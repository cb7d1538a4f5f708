//! A folder, taken.
ghost use Rattle.std.specs.Prelude.{◌≡◌, ◌<◌, List, [], ◌∷◌, All, length, map, Option, IfErr, IfOk, OnErr};
ghost use Rattle.desk_register.specs.View.{IfCounted};
ghost use Rattle.desk_book.specs.Answered.{AreBlamed, BlamesRequest};
ghost use Rattle.desk_book.specs.Asked.{Asked};
ghost use Rattle.desk_book.specs.Held.{IfHolds};
ghost use Rattle.desk_book.specs.Left.{LeavesDesk};
ghost use Rattle.desk_drop.specs.Folder.{IsOnlyFolder, IsRequestOf, Item, file_of};
ghost use Rattle.desk_drop.specs.Taken.{AreAnswered, HasTaken, IsNameRefusal};

use crate::file::{DropFile, DropReply};
use crate::naming::question_of;
use crate::order::in_order;
use desk_book::{Desk, Fault};
use desk_register::Register;
use desk_rules::{Reply, Text};
use std::alloc::Global;

/// Asks the files of a folder, in order of the bytes of their names, and where two have one name, as they were handed over.
/// The answers are listed in this order. A file whose name says nothing is refused, and not asked: status 422 and
/// `refused 40`, or `Memory` where there is none for that. On a closed desk, so behind an answer `Closed` too, each file that
/// asks something is answered `Closed`, and one whose name says nothing is refused as before. All room for the lists is taken
/// first: the only fault is want of memory, and nothing was asked then.
pub fn take<R: Register>(
    alloc: Global,
    desk: &mut Desk<R>,
    files: &[DropFile<'_>],
) -> Result<Vec<DropReply>, Fault>
    ensures taken { IfOk result (λ replies. (items : List Item) × IsOnlyFolder (map file_of files.now) items
        × (map (λ reply. reply.index) replies.items ≡ map (λ item. item.index) items)
        × AreAnswered desk.old.is_closed (map (λ item. item.request) items) (map (λ reply. reply.answer) replies.items) desk.new.is_closed
        × IfHolds R.view desk.old desk.new (λ books.
        HasTaken (R.view desk.old.register).room desk.old.is_closed books (map (λ item. item.request) items) (map (λ reply. reply.answer) replies.items) desk.new.is_closed (R.view desk.new.register))) }
    ensures within { IfOk result (λ replies. All (λ reply. reply.index < length files.now) replies.items) }
    ensures blame { IfOk result (λ replies. IfCounted (R.view desk.new.register)
        (AreBlamed (map (λ reply. reply.answer) replies.items) (R.view desk.old.register).device.failures (R.view desk.new.register).device.failures)) }
    ensures left { LeavesDesk R.view R.in_memory desk.old desk.new }
    ensures err { OnErr result (desk.new ≡ desk.old) }
    ensures memory { IfErr result (λ fault. fault ≡ Fault.Memory) }
{
    let Ok(places) = in_order(alloc, files) else {
        return Err(Fault::Memory);
    };
    let Ok(mut replies) = Vec::with_capacity(alloc, places.len()) else {
        return Err(Fault::Memory);
    };
    'places: for place in places.iter() {
        let index = place.1;
        let answer = answer_file(alloc, desk, &files[index]);
        replies.push(DropReply { index, answer }).unwrap();
    }
    Ok(replies)
}

/// Asks what a file asks; one whose name says nothing is refused.
fn answer_file<R: Register>(
    alloc: Global,
    desk: &mut Desk<R>,
    file: &DropFile<'_>,
) -> Result<Reply, Fault>
    ensures answered { (request : Option Asked) × IsRequestOf (file_of file.now) request
        × AreAnswered desk.old.is_closed (request ∷ []) (result ∷ []) desk.new.is_closed
        × IfHolds R.view desk.old desk.new (λ books.
        HasTaken (R.view desk.old.register).room desk.old.is_closed books (request ∷ []) (result ∷ []) desk.new.is_closed (R.view desk.new.register)) }
    ensures blame { BlamesRequest result (R.view desk.old.register) (R.view desk.new.register) }
    ensures left { LeavesDesk R.view R.in_memory desk.old desk.new }
{
    match question_of(file.name) {
        Some(question) => desk.ask(alloc, &question.with(file.bytes)),
        None => refuse_name(alloc),
    }
}

/// The answer to a file whose name says nothing, where there is memory for it.
fn refuse_name(alloc: Global) -> Result<Reply, Fault>
    ensures { IsNameRefusal result }
{
    let Ok(line) = Vec::from_slice(alloc, b"refused 40") else {
        return Err(Fault::Memory);
    };
    Ok(Reply {
        status: 422,
        mt: None,
        text: Text::new(line),
    })
}
