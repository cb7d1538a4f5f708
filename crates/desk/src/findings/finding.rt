//! What is found in a script by its answers.
ghost use Rattle.std.specs.Prelude.{◌≡◌, ◌≤◌, [], ◌∷◌, ◌++◌, codes, length, map, take, true, IfOk, MatchOption, OnErr, OnOk};
ghost use Rattle.std.specs.List.{flat_map};
ghost use Rattle.std.specs.Io.KnownBytes.{Appends};
ghost use Rattle.desk_words.specs.Causes.{heading_of, value_of_cause, word_of as is_word_of};
ghost use Rattle.desk.specs.Finding.{asks as may_ask, count_of as how_many, count_text, findings_in as all_found, found_at, found_by, found_here, found_of, front_text, in_body_behind, place_text, findings_text, line_of, reference_text, refused_by, refused_text, refused_with, report_text, sums_text, shown as is_shown_as, told_behind, told_text, why_by, within_text, words_told};
ghost use Rattle.desk.specs.Told.{told_by};

use super::reason::{Reason, reason_of};
use super::told::Telling;
use desk_book::{first_line, has_body, is_skipped, is_stop, said_by};
use desk_streams::Sink;
use desk_words::{CAUSES, Cause, cause_of};
use std::alloc::{AllocError, Global};
use std::io;

/// So many bytes of a line are told, and of what stands behind a number.
pub const TOLD: usize = 40;

/// A line of a script, and the cause that is told in place of an answer to it.
#[derive(Clone, Copy)]
pub struct Finding<'a> {
    /// Its number, counted from 1
    pub line: usize,
    /// What it says
    pub said: &'a [u8],
    pub cause: Cause,
    /// What the answer tells behind the number of the cause
    pub rest: &'a [u8],
}

/// A finding, and what is told of it besides.
#[derive(Drop)]
pub struct Explained<'a> {
    pub finding: Finding<'a>,
    pub reason: Reason,
}

/// What is found in a script by what its answers tell, one for each.
pub fn findings_in<'a>(
    alloc: Global,
    script: &'a [u8],
    told: &[Telling<'a>],
) -> Result<Vec<Explained<'a>>, AllocError>
    ensures { IfOk result (λ findings. map found_of findings.items ≡ all_found script.entry.now (map told_by told.now)) }
{
    let mut findings = Vec::new(alloc);
    let mut count = 0;
    let mut in_body = false;
    let mut rest = script;
    let mut left = told;
    while let Some((line, after)) = first_line(rest) {
        count += 1;
        if let Some(finding) = finding_here(in_body, count, line, left) {
            let reason = reason_of(alloc, count, rest)?;
            findings.push(Explained { finding, reason })?;
        }
        left = left_behind(in_body, line, left);
        in_body = body_behind(in_body, line);
        rest = after;
    }
    Ok(findings)
}

/// What is found at a line, the first that is told being told by its answer where it asks something.
fn finding_here<'a>(
    in_body: bool,
    line: usize,
    text: &'a [u8],
    told: &[Telling<'a>],
) -> Option<Finding<'a>>
    ensures { MatchOption result (found_here in_body line text.entry.now (map told_by told.now) ≡ []) (λ finding. found_here in_body line text.entry.now (map told_by told.now) ≡ found_by finding ∷ []) }
{
    if !asks(in_body, text) {
        return None;
    }
    finding_at(line, text, told)
}

/// What is left behind a line of what is told.
fn left_behind<'t, 'a>(in_body: bool, line: &[u8], told: &'t [Telling<'a>]) -> &'t [Telling<'a>]
    ensures { map told_by result.now ≡ told_behind in_body line.now (map told_by told.entry.now) }
{
    match told {
        [_, rest @ ..] if asks(in_body, line) => rest,
        _ => told,
    }
}

/// Whether what follows a line stands in a body.
fn body_behind(in_body: bool, line: &[u8]) -> bool
    ensures { result ≡ in_body_behind in_body line.now }
{
    if in_body {
        !is_stop(line)
    } else {
        has_body(said_by(line))
    }
}

/// Whether a line asks something.
fn asks(in_body: bool, line: &[u8]) -> bool
    ensures { result ≡ may_ask in_body line.now }
{
    !in_body && !is_skipped(said_by(line))
}

/// What is found at a line that asks something, the first that is told being told by its answer.
fn finding_at<'a>(line: usize, text: &'a [u8], told: &[Telling<'a>]) -> Option<Finding<'a>>
    ensures { MatchOption result (found_at line text.entry.now (map told_by told.now) ≡ []) (λ finding. found_at line text.entry.now (map told_by told.now) ≡ found_by finding ∷ []) }
{
    let telling = told.first()?;
    let cause = cause_of(telling.number)?;
    let said = said_by(text);
    let rest = telling.rest;
    Some(Finding {
        line,
        said,
        cause,
        rest,
    })
}

/// Writes each finding in a line, how many tell each cause, and then how many requests there were and how many of them are
/// found.
pub fn tell_report<W: Sink>(
    requests: usize,
    findings: &[Explained<'_>],
    writer: &mut W,
) -> io::Result<()>
    ensures written { OnOk result (Appends (W.contents writer.old) (W.contents writer.new) (report_text requests (map refused_by findings.now))) }
    ensures failed { OnErr result (W.may_fail ≡ true) }
{
    tell_findings(findings, writer)?;
    tell_sums(requests, findings.len(), writer)
}

fn tell_sums<W: Sink>(requests: usize, refused: usize, writer: &mut W) -> io::Result<()>
    ensures written { OnOk result (Appends (W.contents writer.old) (W.contents writer.new) (sums_text requests refused)) }
    ensures failed { OnErr result (W.may_fail ≡ true) }
{
    writer.put_text(format_args!("{requests} requests, {refused} refused\n"))
}

fn tell_findings<W: Sink>(findings: &[Explained<'_>], writer: &mut W) -> io::Result<()>
    ensures written { OnOk result (Appends (W.contents writer.old) (W.contents writer.new) (findings_text (map refused_by findings.now))) }
    ensures failed { OnErr result (W.may_fail ≡ true) }
{
    tell_lines(findings, writer)?;
    tell_counts(&CAUSES, findings, writer)
}

fn tell_lines<W: Sink>(findings: &[Explained<'_>], writer: &mut W) -> io::Result<()>
    ensures written { OnOk result (Appends (W.contents writer.old) (W.contents writer.new) (flat_map line_of findings.now)) }
    ensures failed { OnErr result (W.may_fail ≡ true) }
{
    for finding in findings {
        tell_line(finding, writer)?;
    }
    Ok(())
}

fn tell_line<W: Sink>(explained: &Explained<'_>, writer: &mut W) -> io::Result<()>
    ensures written { OnOk result (Appends (W.contents writer.old) (W.contents writer.new) (line_of explained.now)) }
    ensures failed { OnErr result (W.may_fail ≡ true) }
{
    tell_explained(&explained.finding, &explained.reason, writer)
}

fn tell_explained<W: Sink>(finding: &Finding<'_>, reason: &Reason, writer: &mut W) -> io::Result<()>
    ensures written { OnOk result (Appends (W.contents writer.old) (W.contents writer.new) (refused_text (refused_with (found_by finding.now) (why_by reason.now)))) }
    ensures failed { OnErr result (W.may_fail ≡ true) }
{
    tell_place(finding.line, finding.said, writer)?;
    tell_cause(finding.cause, finding.rest, reason.words.as_slice(), writer)?;
    tell_within(finding.line, reason, writer)
}

fn tell_place<W: Sink>(line: usize, said: &[u8], writer: &mut W) -> io::Result<()>
    ensures written { OnOk result (Appends (W.contents writer.old) (W.contents writer.new) (place_text line said.now)) }
    ensures failed { OnErr result (W.may_fail ≡ true) }
{
    writer.put_text(format_args!("line {line}: "))?;
    tell_front(said, writer)
}

/// Writes what a cause is told with: its number, what stands behind it, and these words, or what it means where there are
/// none.
fn tell_cause<W: Sink>(cause: Cause, rest: &[u8], words: &[u8], writer: &mut W) -> io::Result<()>
    ensures written { OnOk result (Appends (W.contents writer.old) (W.contents writer.new) (told_text (value_of_cause cause.entry) rest.now words.now)) }
    ensures failed { OnErr result (W.may_fail ≡ true) }
{
    let (number, meaning, _) = cause;
    writer.put(b": ")?;
    tell_heading(number, writer)?;
    tell_front(rest, writer)?;
    writer.put(b": ")?;
    writer.put(words_or(words, meaning.as_bytes()))
}

/// These words, or the others where there are none.
pub fn words_or<'a>(words: &'a [u8], others: &'a [u8]) -> &'a [u8]
    ensures { result.now ≡ words_told words.entry.now others.entry.now }
{
    if words.is_empty() { others } else { words }
}

/// Writes at which other line the fault stands, if it does, and the reference there, and ends the line.
fn tell_within<W: Sink>(line: usize, reason: &Reason, writer: &mut W) -> io::Result<()>
    ensures written { OnOk result (Appends (W.contents writer.old) (W.contents writer.new) (within_text line (why_by reason.now))) }
    ensures failed { OnErr result (W.may_fail ≡ true) }
{
    let within = reason.line;
    if within == line {
        return writer.put(b"\n");
    }
    writer.put_text(format_args!(" (line {within}"))?;
    tell_reference(reason.reference.as_slice(), writer)?;
    writer.put(b")\n")
}

fn tell_reference<W: Sink>(reference: &[u8], writer: &mut W) -> io::Result<()>
    ensures written { OnOk result (Appends (W.contents writer.old) (W.contents writer.new) (reference_text reference.now)) }
    ensures failed { OnErr result (W.may_fail ≡ true) }
{
    let count = reference.len();
    if count == 0 {
        return Ok(());
    }
    tell_named(reference, writer)
}

fn tell_named<W: Sink>(reference: &[u8], writer: &mut W) -> io::Result<()>
    ensures written { OnOk result (Appends (W.contents writer.old) (W.contents writer.new) (codes ", reference " ++ front_text reference.now)) }
    ensures failed { OnErr result (W.may_fail ≡ true) }
{
    writer.put(b", reference ")?;
    tell_front(reference, writer)
}

/// Writes so much of a text as is told, as it is shown.
pub fn tell_front<W: Sink>(text: &[u8], writer: &mut W) -> io::Result<()>
    ensures written { OnOk result (Appends (W.contents writer.old) (W.contents writer.new) (front_text text.now)) }
    ensures failed { OnErr result (W.may_fail ≡ true) }
{
    let front = front_of(text);
    let shown = shown_front(front);
    writer.put(&shown[..front.len()])
}

/// So much of a text as is told.
pub fn front_of(text: &[u8]) -> &[u8]
    ensures front { result.now ≡ take TOLD text.now }
    ensures within { length result.now ≤ TOLD }
{
    if text.len() <= TOLD {
        return text;
    }
    &text[..TOLD]
}

/// A short text as it is shown, at the beginning of what is given.
fn shown_front(front: &[u8]) -> [u8; TOLD]
    requires { length front.now ≤ TOLD }
    ensures shown { take (length front.now) result ≡ map is_shown_as front.now }
{
    let mut text = [0; TOLD];
    for (index, c) in front.iter().enumerate() {
        text[index] = shown(*c);
    }
    text
}

/// How a byte is shown: as itself where it is printable, else as a question mark.
pub fn shown(c: u8) -> u8
    ensures { result ≡ is_shown_as c }
{
    if c >= b' ' && c <= b'~' { c } else { b'?' }
}

fn tell_counts<W: Sink>(
    causes: &[Cause],
    findings: &[Explained<'_>],
    writer: &mut W,
) -> io::Result<()>
    ensures written { OnOk result (Appends (W.contents writer.old) (W.contents writer.new) (flat_map (λ cause. count_text (map refused_by findings.now) cause.0) causes.now)) }
    ensures failed { OnErr result (W.may_fail ≡ true) }
{
    for cause in causes {
        tell_count(cause.0, findings, writer)?;
    }
    Ok(())
}

fn tell_count<W: Sink>(number: u8, findings: &[Explained<'_>], writer: &mut W) -> io::Result<()>
    ensures written { OnOk result (Appends (W.contents writer.old) (W.contents writer.new) (count_text (map refused_by findings.now) number)) }
    ensures failed { OnErr result (W.may_fail ≡ true) }
{
    let count = count_of(number, findings);
    if count == 0 {
        return Ok(());
    }
    tell_heading(number, writer)?;
    writer.put_text(format_args!(": {count}\n"))
}

/// How many findings tell the cause of this number.
pub fn count_of(number: u8, findings: &[Explained<'_>]) -> usize
    ensures { result ≡ how_many number (map refused_by findings.now) }
{
    findings
        .iter()
        .filter(|explained| explained.finding.cause.0 == number)
        .count()
}

/// Writes `refused N` or `fault N`.
fn tell_heading<W: Sink>(number: u8, writer: &mut W) -> io::Result<()>
    ensures written { OnOk result (Appends (W.contents writer.old) (W.contents writer.new) (heading_of number)) }
    ensures failed { OnErr result (W.may_fail ≡ true) }
{
    let word = word_of(number);
    writer.put_text(format_args!("{word} {number}"))
}

/// The word with which a number is told.
pub fn word_of(number: u8) -> &'static str
    ensures { result.now ≡ is_word_of number }
{
    if number < 50 { "refused" } else { "fault" }
}
