//! What is found in a script, as JSON.
ghost use Rattle.std.specs.Prelude.{◌≡◌, map, IfOk, string_bytes};
ghost use Rattle.std.specs.List.{flat_map};
ghost use Rattle.serde_json.specs.Data.{array, string};
ghost use Rattle.serde_json.specs.View.{items_of, view};
ghost use Rattle.serde_json.specs.Written.{compact_text};
ghost use Rattle.desk_words.specs.Causes.{value_of_cause};
ghost use Rattle.desk.specs.Finding.{front_text, refused_by, refused_with, found_by, shown as is_shown_as, why_by};
ghost use Rattle.desk.specs.FindingData.{answer_text, count_data, count_rows, counts_data, reference_data, refused_data, report_data, within_data, words_text};

use super::finding::{Explained, Finding, count_of, front_of, shown, word_of, words_or};
use super::reason::Reason;
use desk_report::Object;
use desk_words::{CAUSES, Cause};
use serde_json::Value;
use std::alloc::{AllocError, Global};

/// What is found in a script, as JSON: how many tell each cause, each that is refused, and how many requests there were.
pub fn report_json(
    alloc: Global,
    requests: usize,
    findings: &[Explained<'_>],
) -> Result<String, AllocError>
    ensures { IfOk result (λ text. string_bytes text ≡ compact_text (report_data requests (map refused_by findings.now))) }
{
    report_value(alloc, requests, findings)?.to_string(alloc)
}

fn report_value(
    alloc: Global,
    requests: usize,
    findings: &[Explained<'_>],
) -> Result<Value, AllocError>
    ensures { IfOk result (λ value. view value ≡ report_data requests (map refused_by findings.now)) }
{
    let object = Object::new(alloc)
        .with("counts", counts_value(alloc, findings))?
        .with("refused", refused_values(alloc, findings))?
        .number("requests", requests as u64)?;
    Ok(object.into_value())
}

/// How many tell each cause, in the order of the numbers.
fn counts_value(alloc: Global, findings: &[Explained<'_>]) -> Result<Value, AllocError>
    ensures { IfOk result (λ value. view value ≡ counts_data (map refused_by findings.now)) }
{
    count_values(alloc, &CAUSES, findings)
}

/// How many tell each of these causes, where any do.
fn count_values(
    alloc: Global,
    causes: &[Cause],
    findings: &[Explained<'_>],
) -> Result<Value, AllocError>
    ensures { IfOk result (λ value. view value ≡ array (items_of (flat_map (λ cause. count_rows (map refused_by findings.now) cause.0) causes.now))) }
{
    let mut counts = Vec::new(alloc);
    for cause in causes {
        let count = count_of(cause.0, findings);
        if count > 0 {
            counts.push(count_value(alloc, cause.0, count)?)?;
        }
    }
    Ok(Value::Array(counts))
}

/// How many tell the cause of this number.
fn count_value(alloc: Global, number: u8, count: usize) -> Result<Value, AllocError>
    ensures { IfOk result (λ value. view value ≡ count_data number count) }
{
    let object = Object::new(alloc)
        .with("answer", answer_value(alloc, number, &[]))?
        .number("count", count as u64)?;
    Ok(object.into_value())
}

/// Each that is refused.
fn refused_values(alloc: Global, findings: &[Explained<'_>]) -> Result<Value, AllocError>
    ensures { IfOk result (λ value. view value ≡ array (items_of (map refused_data (map refused_by findings.now)))) }
{
    let mut refused = Vec::new(alloc);
    for explained in findings {
        refused.push(refused_value(alloc, &explained.finding, &explained.reason)?)?;
    }
    Ok(Value::Array(refused))
}

/// One that is refused.
fn refused_value(alloc: Global, finding: &Finding<'_>, reason: &Reason) -> Result<Value, AllocError>
    ensures { IfOk result (λ value. view value ≡ refused_data (refused_with (found_by finding.now) (why_by reason.now))) }
{
    let object = Object::new(alloc)
        .with("answer", answer_value(alloc, finding.cause.0, finding.rest))?
        .number("line", finding.line as u64)?
        .with("reference", reference_value(alloc, finding.line, reason))?
        .with("said", front_value(alloc, finding.said))?
        .with("why", words_value(alloc, finding.cause, reason))?
        .with("within", Ok(within_value(finding.line, reason)))?;
    Ok(object.into_value())
}

/// What an answer tells: `refused N` or `fault N`, and what stands behind the number.
fn answer_value(alloc: Global, number: u8, rest: &[u8]) -> Result<Value, AllocError>
    ensures { IfOk result (λ value. view value ≡ string (answer_text number rest.now)) }
{
    let word = word_of(number);
    let rest = shown_text(alloc, front_of(rest))?;
    let text = format!(in alloc; "{word} {number}{rest}")?;
    Ok(Value::String(text))
}

/// The reference that a request gives itself; null where it has none, and where the fault stands at this line.
fn reference_value(alloc: Global, line: usize, reason: &Reason) -> Result<Value, AllocError>
    ensures { IfOk result (λ value. view value ≡ reference_data line (why_by reason.now)) }
{
    if reason.line == line || reason.reference.is_empty() {
        return Ok(Value::Null);
    }
    front_value(alloc, reason.reference.as_slice())
}

/// Why it is refused, in words.
fn words_value(alloc: Global, cause: Cause, reason: &Reason) -> Result<Value, AllocError>
    ensures { IfOk result (λ value. view value ≡ string (words_text (value_of_cause cause.entry) (why_by reason.now))) }
{
    let words = words_or(reason.words.as_slice(), cause.1.as_bytes());
    Ok(Value::String(shown_text(alloc, words)?))
}

/// The line at which the fault stands; null where it is this line.
fn within_value(line: usize, reason: &Reason) -> Value
    ensures { view result ≡ within_data line (why_by reason.now) }
{
    if reason.line == line {
        Value::Null
    } else {
        Value::from(reason.line as u64)
    }
}

/// So much of a text as is told, as it is shown.
fn front_value(alloc: Global, text: &[u8]) -> Result<Value, AllocError>
    ensures { IfOk result (λ value. view value ≡ string (front_text text.now)) }
{
    Ok(Value::String(shown_text(alloc, front_of(text))?))
}

/// A text as it is shown.
fn shown_text(alloc: Global, text: &[u8]) -> Result<String, AllocError>
    ensures { IfOk result (λ told. string_bytes told ≡ map is_shown_as text.now) }
{
    text.iter().map(|c| char::from(shown(*c))).collect(alloc)
}
