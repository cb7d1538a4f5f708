//! What the rows of a query say.

ghost use Rattle.std.specs.Prelude.{◌≡◌, ◌<◌, ◌^◌, Option, IfOk, IfErr, IfSome};
ghost use Rattle.sqlite.specs.declared.error.ErrorCode.TheVariants.{OutOfMemory};
ghost use Rattle.desk_rules.specs.declared.answers.reply.Sent.{Sent as Message};
ghost use Rattle.sql_rows.specs.Messages.{IsMessage, IsSendable, shown};

use desk_codes::Bic;
use desk_rules::{Sent, Text};
use sql_tables::rows::{bic_at, short_at, text_at};
use sqlite::{Error, Row};
use std::alloc::Global;

/// The message that the first row shows; None where there is no row.
pub fn message_in(alloc: Global, rows: &[Row]) -> Result<Option<Sent>, Error>
    ensures value { (message : Option Message) → IsMessage rows.now message → IfOk result (λ r. r ≡ message) }
    ensures all { (message : Option Message) → IsMessage rows.now message → IfSome message IsSendable → IfErr result (λ e. e ≡ Error.SqliteFailure OutOfMemory) }
{
    match rows.first() {
        Some(row) => Ok(Some(message_of(alloc, row)?)),
        None => Ok(None),
    }
}

fn message_of(alloc: Global, row: &Row) -> Result<Sent, Error>
    ensures value { (message : Message) → message.about < 2 ^ 64 → row.now ≡ shown message → IfOk result (λ r. r ≡ message) }
    ensures all { (message : Message) → IsSendable message → row.now ≡ shown message → IfErr result (λ e. e ≡ Error.SqliteFailure OutOfMemory) }
{
    let bic = bic_at(row, 0)?;
    message_to(alloc, bic, row)
}

/// The message to a participant that a row says.
fn message_to(alloc: Global, bic: Bic, row: &Row) -> Result<Sent, Error>
    ensures value { (message : Message) → message.about < 2 ^ 64 → row.now ≡ shown message → IfOk result (λ r. r ≡ record message { bic = bic }) }
    ensures all { (message : Message) → message.mt < 2 ^ 16 → row.now ≡ shown message → IfErr result (λ e. e ≡ Error.SqliteFailure OutOfMemory) }
{
    let mt = short_at(row, 1)?;
    let about: i64 = row.get(2)?;
    let bytes = Vec::from_slice(alloc, text_at(row, 3)?)?;
    Ok(Sent {
        bic,
        mt,
        about: about.cast_unsigned(),
        text: Text::new(bytes),
    })
}
