//! What a register kept, and a run of one pass behind it, taken in by another register. The engine gives what the definitions
//! say, so its reply to the run shows that these say what is told of one pass here.
use crate::made::given;
use crate::rules::chain::{UNITS, played};
use desk_codes::{Day, Reference};
use desk_engine::replay;
use desk_register::Register;
use desk_rules::{Entry, Kept, MOST_ENTRIES, Reply, RunRule, Text};
use memory_register::ListRegister;
use std::alloc::Global;
use std::test::Fail;

/// What a register keeps of the entry of a number.
fn kept_at(alloc: Global, register: &mut ListRegister, number: u64) -> Result<Kept, Fail> {
    let entry = given(register.entry(alloc, number))?;
    let reply = given(register.reply(alloc, number))?;
    match (entry, reply) {
        (Some(entry), Some(reply)) => Ok(Kept { entry, reply }),
        _ => Err("an entry is not kept")?,
    }
}

/// A run, with the text of a reply.
pub fn run_kept(alloc: Global, key: &[u8], rule: RunRule, text: &[u8]) -> Result<Kept, Fail> {
    let entry = Entry::Run {
        reference: Reference::read(key).ok_or("no reference")?,
        day: Day::read(b"20240229").ok_or("no day")?,
        rule,
    };
    let text = Text::new(Vec::from_slice(alloc, text)?);
    let reply = Reply {
        status: 200,
        mt: None,
        text,
    };
    Ok(Kept { entry, reply })
}

/// Adds what a register keeps of each entry.
fn add_kept(alloc: Global, register: &mut ListRegister, kept: &mut Vec<Kept>) -> Result<(), Fail> {
    for number in 1..=given(register.count(alloc))? {
        kept.push(kept_at(alloc, register, number)?)?;
    }
    Ok(())
}

/// Both deliveries, and a run of one pass behind them with this reply.
pub fn tried_once(alloc: Global, text: &[u8]) -> Result<Vec<Kept>, Fail> {
    let mut kept = Vec::new(alloc);
    add_kept(alloc, &mut played(alloc, UNITS, b"")?, &mut kept)?;
    kept.push(run_kept(alloc, b"R1", RunRule::OnePass, text)?)?;
    Ok(kept)
}

/// Whether an empty register takes in both deliveries, and a run of one pass behind them with this reply.
fn is_taken_in(alloc: Global, text: &[u8]) -> Result<bool, Fail> {
    let kept = tried_once(alloc, text)?;
    let mut register = ListRegister::new(alloc, MOST_ENTRIES);
    given(replay(alloc, &mut register, &kept))
}

/// The first delivery is tried before the second one brings what it delivers, and not again: it waits.
#[test]
fn one_pass_tries_each_pair_once(rt: HostRuntime) -> Result<(), Fail> {
    assert!(rt; is_taken_in(rt.alloc(), b"accepted 13 settled 1 waiting 1")?);
    assert!(rt; !is_taken_in(rt.alloc(), b"accepted 13 settled 2 waiting 0")?);
    Ok(())
}
