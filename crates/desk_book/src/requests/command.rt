//! An operator's commands, as JSON objects.
ghost use Rattle.std.specs.Prelude.{◌<◌, ◌≤◌, length, IfOk, OnErr, IfSome, IfNone};
ghost use Rattle.desk_rules.specs.declared.history.entry.Entry.{Entry as EntryValue};
ghost use Rattle.desk_book.specs.Command.{SpellsCommand, IsCommand};

use crate::requests::flat::flat_object;
use crate::requests::object::Object;
use crate::requests::operation::{
    account, issue, participant, pay_in, pay_out, redeem, run, security,
};
use desk_rules::Entry;
use desk_text::LONGEST_TEXT;
use serde_json::Value;
use std::alloc::{AllocError, Global};

/// The command that the bytes spell; None where they spell none. What is no flat object is read by a reader of all JSON.
pub fn read_command(alloc: Global, bytes: &[u8]) -> Result<Option<Entry>, AllocError>
    ensures read { IfOk result (λ found. IfSome found (λ entry. SpellsCommand bytes.now entry)) }
    ensures refused { IfOk result (λ found. IfNone found ((entry : EntryValue)
        → ¬ SpellsCommand bytes.now entry)) }
    ensures memory { OnErr result ((0 < length bytes.now) × (length bytes.now ≤ LONGEST_TEXT)) }
{
    if bytes.len() > LONGEST_TEXT {
        return Ok(None);
    }
    if let Some(object) = flat_object(bytes) {
        return Ok(command_of(&object));
    }
    match Value::from_slice(alloc, bytes) {
        Ok(value) => Ok(command_of(&value)),
        Err(error) if error.is_memory() => Err(AllocError),
        Err(_) => Ok(None),
    }
}

/// The command that an object spells.
fn command_of<O: Object>(object: &O) -> Option<Entry>
    ensures read { IfSome result (λ entry. IsCommand (O.value object.now) entry) }
    ensures refused { IfNone result ((entry : EntryValue) → ¬ IsCommand (O.value object.now) entry) }
{
    let op = object.text("op")?;
    if op == b"participant".as_slice() {
        return participant(object);
    }
    if op == b"account".as_slice() {
        return account(object);
    }
    if op == b"security".as_slice() {
        return security(object);
    }
    if op == b"issue".as_slice() {
        return issue(object);
    }
    if op == b"redeem".as_slice() {
        return redeem(object);
    }
    if op == b"payin".as_slice() {
        return pay_in(object);
    }
    if op == b"payout".as_slice() {
        return pay_out(object);
    }
    if op == b"run".as_slice() {
        return run(object);
    }
    None
}
