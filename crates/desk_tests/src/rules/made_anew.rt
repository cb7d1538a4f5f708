//! The tables of a history with a run of one pass in it, made anew. No clause says that `rebuild` finds the memory for them: here
//! it does, and they tell the same, and go on, as those that took the entries in one by one.
ghost use Rattle.std.specs.Prelude.{◌≡◌, IfOk};
ghost use Rattle.desk_engine.specs.KeptHistory.{entries_of};

use crate::made::given;
use crate::rules::one_pass::{run_kept, tried_once};
use desk_codes::{AccountId, Isin};
use desk_engine::{rebuild, replay, same_reply, take_kept};
use desk_register::Register;
use desk_rules::{Entry, Kept, MOST_ENTRIES, Reply, RunRule};
use memory_register::ListRegister;
use std::alloc::{AllocError, Global};
use std::test::Fail;

/// The history of a list.
fn entries_in(alloc: Global, kept: &[Kept]) -> Result<Vec<Entry>, AllocError>
    ensures { IfOk result (λ entries. entries.items ≡ entries_of kept.now) }
{
    let mut entries = Vec::new(alloc);
    for one in kept {
        entries.push(one.entry)?;
    }
    Ok(entries)
}

/// Whether two replies are there, and the same.
fn are_same(one: &Option<Reply>, other: &Option<Reply>) -> bool {
    match (one, other) {
        (Some(reply), Some(again)) => same_reply(reply, again),
        _ => false,
    }
}

/// Whether two registers keep the same replies.
fn reply_the_same(
    alloc: Global,
    one: &mut ListRegister,
    other: &mut ListRegister,
) -> Result<bool, Fail> {
    let count = given(one.count(alloc))?;
    if given(other.count(alloc))? != count {
        return Ok(false);
    }
    for number in 1..=count {
        let reply = given(one.reply(alloc, number))?;
        let again = given(other.reply(alloc, number))?;
        if !are_same(&reply, &again) {
            return Ok(false);
        }
    }
    Ok(true)
}

/// What is held of the security on each account, and how many messages were sent.
fn sums(alloc: Global, register: &mut ListRegister) -> Result<[u64; 4], Fail> {
    let isin = Isin::parse(b"DE0007164600").ok().ok_or("no security")?;
    let mut sums = [0, 0, 0, given(register.sent_count(alloc))?];
    for (index, account) in [b"A-1", b"B-1", b"C-1"].iter().enumerate() {
        let account = AccountId::read(account.as_slice()).ok_or("no account")?;
        sums[index] = given(register.position(alloc, account, isin))?;
    }
    Ok(sums)
}

/// Whether tables that are made anew of the history of a list tell the same as those that took the list in, once a next entry is
/// taken in by both with its reply.
fn goes_on(alloc: Global, kept: &[Kept], next: &Kept) -> Result<bool, Fail> {
    let mut register = ListRegister::new(alloc, MOST_ENTRIES);
    if !given(replay(alloc, &mut register, kept))? {
        return Ok(false);
    }
    let entries = entries_in(alloc, kept)?;
    let mut anew = ListRegister::new(alloc, MOST_ENTRIES);
    given(rebuild(alloc, &entries, &mut anew))?;
    let taken = given(take_kept(alloc, &mut register, next))?
        && given(take_kept(alloc, &mut anew, next))?;
    Ok(
        taken
            && reply_the_same(alloc, &mut register, &mut anew)?
            && sums(alloc, &mut register)? == sums(alloc, &mut anew)?,
    )
}

#[test]
fn what_is_made_anew_goes_on(rt: HostRuntime) -> Result<(), Fail> {
    let alloc = rt.alloc();
    let kept = tried_once(alloc, b"accepted 13 settled 1 waiting 1")?;
    let next = run_kept(
        alloc,
        b"R2",
        RunRule::Passes,
        b"accepted 14 settled 1 waiting 0",
    )?;
    assert!(rt; goes_on(alloc, &kept, &next)?);
    Ok(())
}
