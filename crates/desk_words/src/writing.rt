//! What is told of a topic, written.
ghost use Rattle.std.specs.Prelude.{◌≡◌, true, ◌++◌, OnOk, OnErr};
ghost use Rattle.std.specs.List.{flat_map};
ghost use Rattle.std.specs.Io.KnownBytes.{Appends};
ghost use Rattle.desk_words.specs.Causes.{catalogue_text, cause_text, value_of_cause};
ghost use Rattle.desk_words.specs.Topics.{detail_text, other_text, topic_text, value_of_detail, value_of_other};

use crate::causes::{CAUSES, Cause};
use crate::topics::{Detail, Other, Topic, details_of};
use desk_streams::Sink;
use std::io;

/// Writes what is told of a topic. Of a number it is a line with its meaning, a second one with what to do about it, and a line
/// each of what may stand behind it.
pub fn write_topic<W: Sink>(topic: Topic, writer: &mut W) -> io::Result<()>
    ensures written { OnOk result (Appends (W.contents writer.old) (W.contents writer.new) (topic_text topic)) }
    ensures failed { OnErr result (W.may_fail ≡ true) }
{
    match topic {
        Topic::Catalogue => write_catalogue(writer),
        Topic::Cause(cause) => write_with(cause, details_of(cause.0), writer),
        Topic::Detail(cause, detail) => write_one(cause, detail, writer),
        Topic::Other(other) => write_other(other, writer),
    }
}

/// Writes a cause with what may stand behind its number.
fn write_with<W: Sink>(cause: Cause, details: &[Detail], writer: &mut W) -> io::Result<()>
    ensures written { OnOk result (Appends (W.contents writer.old) (W.contents writer.new) (cause_text (value_of_cause cause.entry) ++ flat_map (λ detail. detail_text (value_of_detail detail)) details.now)) }
    ensures failed { OnErr result (W.may_fail ≡ true) }
{
    write_cause(cause, writer)?;
    write_details(details, writer)
}

/// Writes a cause with what stands behind its number.
fn write_one<W: Sink>(cause: Cause, detail: Detail, writer: &mut W) -> io::Result<()>
    ensures written { OnOk result (Appends (W.contents writer.old) (W.contents writer.new) (cause_text (value_of_cause cause.entry) ++ detail_text (value_of_detail detail.entry))) }
    ensures failed { OnErr result (W.may_fail ≡ true) }
{
    write_cause(cause, writer)?;
    write_detail(detail, writer)
}

fn write_details<W: Sink>(details: &[Detail], writer: &mut W) -> io::Result<()>
    ensures written { OnOk result (Appends (W.contents writer.old) (W.contents writer.new) (flat_map (λ detail. detail_text (value_of_detail detail)) details.now)) }
    ensures failed { OnErr result (W.may_fail ≡ true) }
{
    for detail in details {
        write_detail(*detail, writer)?;
    }
    Ok(())
}

fn write_detail<W: Sink>(detail: Detail, writer: &mut W) -> io::Result<()>
    ensures written { OnOk result (Appends (W.contents writer.old) (W.contents writer.new) (detail_text (value_of_detail detail.entry))) }
    ensures failed { OnErr result (W.may_fail ≡ true) }
{
    let (name, text) = detail;
    writer.put_text(format_args!("{name}: {text}\n"))
}

/// Writes what is told with none of the desk's numbers.
fn write_other<W: Sink>(other: Other, writer: &mut W) -> io::Result<()>
    ensures written { OnOk result (Appends (W.contents writer.old) (W.contents writer.new) (other_text (value_of_other other.entry))) }
    ensures failed { OnErr result (W.may_fail ≡ true) }
{
    let (word, key, meaning, remedy) = other;
    writer.put_text(format_args!("{word} {key}: {meaning}\n    {remedy}\n"))
}

/// Writes `refused N` or `fault N`, what it means, and in a second line what to do about it.
fn write_cause<W: Sink>(cause: Cause, writer: &mut W) -> io::Result<()>
    ensures written { OnOk result (Appends (W.contents writer.old) (W.contents writer.new) (cause_text (value_of_cause cause.entry))) }
    ensures failed { OnErr result (W.may_fail ≡ true) }
{
    let (number, meaning, remedy) = cause;
    let word = if number < 50 { "refused" } else { "fault" };
    writer.put_text(format_args!("{word} {number}: {meaning}\n    {remedy}\n"))
}

/// Writes all causes so, in the order of their numbers.
fn write_catalogue<W: Sink>(writer: &mut W) -> io::Result<()>
    ensures written { OnOk result (Appends (W.contents writer.old) (W.contents writer.new) catalogue_text) }
    ensures failed { OnErr result (W.may_fail ≡ true) }
{
    write_causes(&CAUSES, writer)
}

fn write_causes<W: Sink>(causes: &[Cause], writer: &mut W) -> io::Result<()>
    ensures written { OnOk result (Appends (W.contents writer.old) (W.contents writer.new) (flat_map (λ cause. cause_text (value_of_cause cause)) causes.now)) }
    ensures failed { OnErr result (W.may_fail ≡ true) }
{
    for cause in causes {
        write_cause(*cause, writer)?;
    }
    Ok(())
}
