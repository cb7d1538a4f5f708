//! `desk explain`.
ghost use Rattle.std.specs.Prelude.{◌≡◌, ◌∷◌, [], codes, decimal, true, IfOk, IsSome, OnErr};
ghost use Rattle.std.specs.Option.{option_map};
ghost use Rattle.std.specs.Io.KnownBytes.{Appends};
ghost use Rattle.desk_http.specs.Refusals.{status_of_refusal};
ghost use Rattle.desk_http.specs.declared.refusal.Refusal.{Refusal};
ghost use Rattle.desk_words.specs.Topics.{explanation, topic_text, words_quoted};
ghost use Rattle.desk.specs.ExplainAnswer.{IsExplainAnswer};

use crate::status::Status;
use desk_streams::Sink;
use desk_words::{NO_ANSWER, Quoted, Topic, topic_of, write_topic};
use std::io;

/// Prints what an answer of these words means, and what to do about it; of no words, each that has a number. An answer that the
/// desk does not give is refused.
pub fn answer_explain<W: Sink>(quoted: Quoted<'_>, writer: &mut W) -> io::Result<Status>
    ensures told { IfOk result (λ status. IsExplainAnswer (words_quoted quoted.entry) status (Appends (W.contents writer.old) (W.contents writer.new))) }
    ensures failed { OnErr result (W.may_fail ≡ true) }
{
    match topic_named(quoted) {
        Some(topic) => {
            write_topic(topic, writer)?;
            Ok(Status::Done)
        }
        None => {
            writer.put(NO_ANSWER.as_bytes())?;
            Ok(Status::Refused)
        }
    }
}

/// What these words name. Each of HTTP's own refusals has a name, and so has the fault without a number.
fn topic_named(quoted: Quoted<'_>) -> Option<Topic>
    ensures value { option_map topic_text result ≡ explanation (words_quoted quoted.entry) }
    ensures http { (refusal : Refusal) → IsSome (explanation (codes "refused" ∷ decimal (status_of_refusal refusal) ∷ [])) }
    ensures input { IsSome (explanation (codes "fault" ∷ codes "io" ∷ [])) }
{
    topic_of(quoted)
}
