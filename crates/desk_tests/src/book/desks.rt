//! A desk in memory: one that may hold one entry, and several requests at once.
use crate::made::new_desk;
use desk_book::*;
use desk_rules::Reply;
use memory_register::ListRegister;
use std::alloc::Global;
use std::test::Fail;

/// Whether an answer is a reply of this status and text.
fn is_reply(answer: &Result<Reply, Fault>, status: u16, text: &[u8]) -> bool {
    match answer {
        Ok(reply) => reply.status == status && reply.text.as_bytes() == text,
        Err(_) => false,
    }
}

/// Whether a desk that may hold one entry accepts a command, and then answers it once more as accepted, and refuses a further one
/// that is asked with it.
fn is_full_behind_one(alloc: Global, desk: &mut Desk<ListRegister>) -> Result<bool, Fail> {
    let first = br#"{"op":"participant","ref":"P1","bic":"ALPHDEFF"}"#.as_slice();
    let second = br#"{"op":"participant","ref":"P2","bic":"BETADEFF"}"#.as_slice();
    let requests = [
        Question::Operator.with(first),
        Question::Operator.with(second),
    ];
    if !is_reply(&desk.ask(alloc, &requests[0]), 200, b"accepted 1") {
        return Ok(false);
    }
    let answers = desk.ask_all(alloc, &requests)?;
    Ok(match answers.as_slice() {
        [first, second] => {
            is_reply(first, 200, b"accepted 1") && is_reply(second, 422, b"refused 21")
        }
        _ => false,
    })
}

#[test]
fn a_desk_of_one_entry(rt: HostRuntime) -> Result<(), Fail> {
    assert!(rt; is_full_behind_one(rt.alloc(), &mut new_desk(rt.alloc(), 1))?);
    Ok(())
}
