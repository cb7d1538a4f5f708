//! `desk check`.
ghost use Rattle.std.specs.Prelude.{◌≡◌, ◌≤◌, ◌++◌, codes, false, length, true, map, IfOk, IfSome, OnErr, OnOk};
ghost use Rattle.std.specs.Io.KnownBytes.{Appends};
ghost use Rattle.desk_engine.specs.Applied.{no_books};
ghost use Rattle.desk_engine.specs.Ready.{IsReady};
ghost use Rattle.desk_rules.specs.Books.{Books};
ghost use Rattle.desk_rules.specs.declared.limits.TheConstants.{MOST_ENTRIES};
ghost use Rattle.memory_register.specs.ListsView.{view_of_lists};
ghost use Rattle.desk.specs.CheckAnswer.{AreFound, IsCheckAnswer, IsFindingsAnswer, IsFoundTold, status_of_findings};
ghost use Rattle.desk.specs.Finding.{findings_in as all_found, found_of, refused_by};
ghost use Rattle.desk.specs.PlayAnswer.{IsPlayed, KeptBy};
ghost use Rattle.desk.specs.Told.{told_in as all_told};

use super::play::play_on;
use crate::findings::{Explained, findings_in, report_json, tell_report, told_in};
use crate::status::{Failure, Status, tell_failure};
use desk_book::LONGEST_SCRIPT;
use desk_report::Format;
use desk_rules::MOST_ENTRIES;
use desk_streams::{Sink, Source, read_whole};
use memory_register::ListRegister;
use std::alloc::Global;
use std::io;

/// Plays a script from the reader on a new desk in memory, and tells of each answer but those of status 200 in which line
/// its request begins, what that line says and why it was refused, in which line the fault stands, and the reference; then how
/// many were refused so, and how many requests there were. It is refused where any was. `fault 60` tells that memory is wanting
/// for the script, its answers or what is told of them, and `fault io` that the reader failed or the script is too long.
pub fn answer_check<R: Source, W: Sink>(
    alloc: Global,
    format: Format,
    reader: &mut R,
    writer: &mut W,
) -> io::Result<Status>
    ensures told { IfOk result (λ status. IsCheckAnswer no_books format (R.remaining reader.old) (reader.new ≡ reader.old) R.may_fail status (Appends (W.contents writer.old) (W.contents writer.new))) }
    ensures failed { OnErr result (W.may_fail ≡ true) }
{
    let memory = ListRegister::new(alloc, MOST_ENTRIES);
    check_on(alloc, memory, format, reader, writer)
}

/// The same on the desk of a register in memory.
pub fn check_on<R: Source, W: Sink>(
    alloc: Global,
    memory: ListRegister,
    format: Format,
    reader: &mut R,
    writer: &mut W,
) -> io::Result<Status>
    requires ready { IsReady false (view_of_lists memory) }
    requires room { (view_of_lists memory).room ≡ MOST_ENTRIES }
    ensures told { (books : Books) → KeptBy (view_of_lists memory) books
        → IfOk result (λ status. IsCheckAnswer books format (R.remaining reader.old) (reader.new ≡ reader.old) R.may_fail status (Appends (W.contents writer.old) (W.contents writer.new))) }
    ensures failed { OnErr result (W.may_fail ≡ true) }
{
    match read_whole(alloc, reader, LONGEST_SCRIPT) {
        Ok(script) => check_script(alloc, memory, format, script.as_slice(), writer),
        Err(fault) => tell_failure(Failure::from(fault), writer),
    }
}

/// The same of a script that was read.
fn check_script<W: Sink>(
    alloc: Global,
    memory: ListRegister,
    format: Format,
    script: &[u8],
    writer: &mut W,
) -> io::Result<Status>
    requires ready { IsReady false (view_of_lists memory) }
    requires room { (view_of_lists memory).room ≡ MOST_ENTRIES }
    requires short { length script.now ≤ LONGEST_SCRIPT }
    ensures told { (books : Books) → KeptBy (view_of_lists memory) books
        → IfOk result (λ status. IsFindingsAnswer books format script.now status (Appends (W.contents writer.old) (W.contents writer.new))) }
    ensures failed { OnErr result (W.may_fail ≡ true) }
{
    match answers_to(alloc, memory, script) {
        Some(answers) => check_answers(alloc, format, script, answers.as_slice(), writer),
        None => tell_failure(Failure::Memory, writer),
    }
}

/// The same of a script that was answered so.
fn check_answers<W: Sink>(
    alloc: Global,
    format: Format,
    script: &[u8],
    answers: &[u8],
    writer: &mut W,
) -> io::Result<Status>
    requires { length script.now ≤ LONGEST_SCRIPT }
    ensures told { (books : Books) → IsPlayed books script.now answers.now
        → IfOk result (λ status. IsFindingsAnswer books format script.now status (Appends (W.contents writer.old) (W.contents writer.new))) }
    ensures failed { OnErr result (W.may_fail ≡ true) }
{
    match found_in(alloc, script, answers) {
        Some((requests, findings)) => {
            tell_found(alloc, format, requests, findings.as_slice(), writer)
        }
        None => tell_failure(Failure::Memory, writer),
    }
}

/// Tells what is found among so many requests.
fn tell_found<W: Sink>(
    alloc: Global,
    format: Format,
    requests: usize,
    findings: &[Explained<'_>],
    writer: &mut W,
) -> io::Result<Status>
    ensures told { IfOk result (λ status. IsFoundTold format requests (map refused_by findings.now) status (Appends (W.contents writer.old) (W.contents writer.new))) }
    ensures failed { OnErr result (W.may_fail ≡ true) }
{
    match format {
        Format::Text => {
            tell_report(requests, findings, writer)?;
            Ok(status_of(findings))
        }
        Format::Json => tell_object(alloc, requests, findings, writer),
    }
}

/// The same as an object on a line.
fn tell_object<W: Sink>(
    alloc: Global,
    requests: usize,
    findings: &[Explained<'_>],
    writer: &mut W,
) -> io::Result<Status>
    ensures told { IfOk result (λ status. IsFoundTold Format.Json requests (map refused_by findings.now) status (Appends (W.contents writer.old) (W.contents writer.new))) }
    ensures failed { OnErr result (W.may_fail ≡ true) }
{
    let Ok(text) = report_json(alloc, requests, findings) else {
        return tell_failure(Failure::Memory, writer);
    };
    put_line(text.as_bytes(), writer)?;
    Ok(status_of(findings))
}

fn put_line<W: Sink>(text: &[u8], writer: &mut W) -> io::Result<()>
    ensures written { OnOk result (Appends (W.contents writer.old) (W.contents writer.new) (text.now ++ codes "\n")) }
    ensures failed { OnErr result (W.may_fail ≡ true) }
{
    writer.put(text)?;
    writer.put(b"\n")
}

/// Refused where anything was found.
fn status_of(findings: &[Explained<'_>]) -> Status
    ensures { result ≡ status_of_findings (map refused_by findings.now) }
{
    match findings {
        [] => Status::Done,
        _ => Status::Refused,
    }
}

/// How many requests a script has, by its answers, and what is found in it; None where memory is wanting.
fn found_in<'a>(
    alloc: Global,
    script: &'a [u8],
    answers: &'a [u8],
) -> Option<(usize, Vec<Explained<'a>>)>
    ensures requests { IfSome result (λ found. found.0 ≡ length (all_told answers.entry.now)) }
    ensures found { IfSome result (λ found. map found_of found.1.items ≡ all_found script.entry.now (all_told answers.entry.now)) }
{
    let told = told_in(alloc, answers).ok()?;
    let findings = findings_in(alloc, script, told.as_slice()).ok()?;
    Some((told.len(), findings))
}

/// The answers to a script on such a desk, as `desk play` writes them; None where memory is wanting.
fn answers_to(alloc: Global, memory: ListRegister, script: &[u8]) -> Option<Vec<u8>>
    requires ready { IsReady false (view_of_lists memory) }
    requires room { (view_of_lists memory).room ≡ MOST_ENTRIES }
    ensures { (books : Books) → KeptBy (view_of_lists memory) books → IfSome result (λ answers. IsPlayed books script.now answers.items) }
{
    let mut reader = script;
    let mut answers = Vec::new(alloc);
    match play_on(alloc, memory, &mut reader, &mut answers) {
        Ok(Status::Done) => Some(answers),
        _ => None,
    }
}
