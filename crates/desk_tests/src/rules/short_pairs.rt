//! Which pairs a register knows to stay short.
use crate::made::given;
use crate::rules::chain::{UNITS, played};
use desk_codes::Day;
use desk_register::Register;
use desk_rules::Place;
use memory_register::ListRegister;
use std::alloc::Global;
use std::test::Fail;

/// The last of so many tries of a pair in vain notes that it is short.
const IN_VAIN: u32 = 9;

/// The places of both pairs.
const FIRST: Place = Place {
    day: 2024_02_29,
    number: 9,
};

const SECOND: Place = Place {
    day: 2024_02_29,
    number: 11,
};

/// Runs in vain, and then what the second pair delivers.
fn runs_and_units(alloc: Global) -> Result<Vec<u8>, Fail> {
    let mut script = Vec::new(alloc);
    for number in 0..IN_VAIN {
        let run = format!(in alloc;
            "op\n{{\"op\":\"run\",\"ref\":\"V{number}\",\"day\":\"20240229\"}}\n.\n"
        )?;
        script.extend_from_slice(run.as_bytes())?;
    }
    script.extend_from_slice(UNITS)?;
    Ok(script)
}

/// Whether a register knows that the first pair stays short, and has the second tried.
fn is_second_tried(alloc: Global, register: &mut ListRegister) -> Result<bool, Fail> {
    let by = Day::read(b"20240229").ok_or("no day")?;
    Ok(
        given(register.pair_to_try_after(alloc, by, None))? == Some(SECOND)
            && given(register.stays_short(alloc, FIRST))?
            && !given(register.stays_short(alloc, SECOND))?,
    )
}

#[test]
fn what_is_brought_to_one_pair_leaves_another_short(rt: HostRuntime) -> Result<(), Fail> {
    let script = runs_and_units(rt.alloc())?;
    let mut register = played(rt.alloc(), b"", &script)?;
    assert!(rt; is_second_tried(rt.alloc(), &mut register)?);
    Ok(())
}
