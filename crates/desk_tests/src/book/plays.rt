//! How many reads and how many writes a script takes that is played on a desk in memory, and what stands where one fails.
ghost use Rattle.std.specs.Prelude.{◌<◌};

use crate::book::streams::{FailingSink, FailingSource};
use crate::made::{given, new_desk};
use desk_book::*;
use desk_register::Register;
use desk_rules::MOST_ENTRIES;
use desk_streams::{CHUNK, PIECE};
use memory_register::ListRegister;
use std::alloc::Global;
use std::test::Fail;

/// So many requests that they are read, and their answers written, in more than two pieces.
const MANY: usize = 1000;

/// The requests: a participant, and accounts of its own.
fn accounts(alloc: Global) -> Result<Vec<u8>, Fail> {
    let mut script = Vec::new(alloc);
    script.extend_from_slice(
        b"op\n{\"op\":\"participant\",\"ref\":\"P1\",\"bic\":\"ALPHDEFF\"}\n.\n",
    )?;
    for number in 1..MANY {
        let command = format!(in alloc;
            "op\n{{\"op\":\"account\",\"ref\":\"C{number}\",\"bic\":\"ALPHDEFF\",\"account\":\"A-{number}\"}}\n.\n"
        )?;
        script.extend_from_slice(command.as_bytes())?;
    }
    Ok(script)
}

/// How many answers were written to their end.
fn whole_answers(text: &[u8]) -> usize {
    let mut count: usize = 0;
    for index in 0..text.len() {
        if text[index..].starts_with(b"\n.\n") {
            count = count.wrapping_add(1);
        }
    }
    count
}

/// Plays a script on a new desk. How that ends, and how many entries the desk has then.
fn play(
    alloc: Global,
    reader: &mut FailingSource,
    writer: &mut FailingSink,
) -> Result<(Option<PlayFault>, u64), Fail> {
    let mut desk = new_desk(alloc, MOST_ENTRIES);
    let fault = desk.play(alloc, reader, writer).err();
    Ok((fault, given(desk.into_register().count(alloc))?))
}

/// Plays it read in such pieces, where one read fails (0: none). How that ends, and after how many reads.
fn read_in_pieces(
    alloc: Global,
    script: &[u8],
    piece: usize,
    fails_at: usize,
) -> Result<(Option<PlayFault>, usize), Fail> {
    let mut reader = FailingSource::new(script, piece, fails_at);
    let (fault, _) = play(
        alloc,
        &mut reader,
        &mut FailingSink::new(alloc, usize::MAX, 0),
    )?;
    Ok((fault, reader.reads))
}

/// Whether each read but the last gives such a piece, and one that fails is told with nothing read behind it.
fn are_reads_told(alloc: Global, script: &[u8], piece: usize) -> Result<bool, Fail>
    requires { 0 < piece }
{
    let reads = script.len().div_ceil(piece).saturating_add(1);
    if read_in_pieces(alloc, script, piece, 0)? != (None, reads) {
        return Ok(false);
    }
    for fails_at in 1..reads.saturating_add(1) {
        let told = (Some(PlayFault::ReadFailed), fails_at);
        if read_in_pieces(alloc, script, piece, fails_at)? != told {
            return Ok(false);
        }
    }
    Ok(true)
}

#[test]
fn a_script_read_in_pieces(rt: HostRuntime) -> Result<(), Fail> {
    let script = accounts(rt.alloc())?;
    assert!(rt; are_reads_told(rt.alloc(), &script, 1023)?);
    assert!(rt; are_reads_told(rt.alloc(), &script, CHUNK)?);
    Ok(())
}

/// Plays the script to a writer of which one write fails (0: none). How that ends, and how many entries the desk has then.
fn write_to(
    alloc: Global,
    script: &[u8],
    writer: &mut FailingSink,
) -> Result<(Option<PlayFault>, u64), Fail> {
    play(
        alloc,
        &mut FailingSource::new(script, usize::MAX, 0),
        writer,
    )
}

/// Whether of these answers those pieces were written that came before a write that fails, and all stands whose answers were
/// written or waited then, and no more.
fn is_failed_write_told(
    alloc: Global,
    script: &[u8],
    answers: &[u8],
    fails_at: usize,
) -> Result<bool, Fail> {
    let mut writer = FailingSink::new(alloc, usize::MAX, fails_at);
    let (fault, entries) = write_to(alloc, script, &mut writer)?;
    let taken = fails_at.saturating_sub(1).saturating_mul(PIECE);
    let told = taken.saturating_add(PIECE).min(answers.len());
    let asked = whole_answers(&answers[..told.saturating_sub(1)]).saturating_add(1);
    Ok(
        fault == Some(PlayFault::WriteFailed)
            && entries == asked.min(MANY) as u64
            && writer.writes == fails_at
            && writer.taken.as_slice() == &answers[..taken.min(answers.len())],
    )
}

/// Whether that is so of each write of these answers.
fn are_writes_told(alloc: Global, script: &[u8], answers: &[u8]) -> Result<bool, Fail> {
    for fails_at in 1..answers.len().div_ceil(PIECE).saturating_add(1) {
        if !is_failed_write_told(alloc, script, answers, fails_at)? {
            return Ok(false);
        }
    }
    Ok(true)
}

/// Each write but the last is of a whole piece. Where one fails, what was asked by then stands: all whose answers were
/// written or waited, and no more.
#[test]
fn answers_in_pieces(rt: HostRuntime) -> Result<(), Fail> {
    let script = accounts(rt.alloc())?;
    let mut whole = FailingSink::new(rt.alloc(), usize::MAX, 0);
    let _played = write_to(rt.alloc(), &script, &mut whole)?;
    let writes = whole.taken.len().div_ceil(PIECE);
    assert!(rt; whole_answers(&whole.taken) == MANY && writes >= 3 && whole.writes == writes);
    assert!(rt; are_writes_told(rt.alloc(), &script, &whole.taken)?);
    Ok(())
}
