//! Why a text is no command.
ghost use Rattle.std.specs.Prelude.{◌≡◌, ◌<◌, ℕ, List, Some, None, codes, length, IfOk, OnErr, IfSome, IfNone};
ghost use Rattle.serde_json.specs.View.{view};
ghost use Rattle.desk_rules.specs.declared.history.entry.Entry.{Entry as EntryValue};
ghost use Rattle.desk_book.specs.Command.{SpellsCommand};
ghost use Rattle.desk_book.specs.Members.{text_at};
ghost use Rattle.desk_findings.specs.CommandFaults.{GivesReference, IsCommandFault};

use crate::commands::fault::CommandFault;
use crate::commands::value::value_fault;
use desk_book::read_command;
use desk_text::LONGEST_TEXT;
use serde_json::Value;
use std::alloc::{AllocError, Global};

/// The first thing that is wrong with a text that is no operator's command; None exactly where it is one. The only fault is
/// want of memory. Where the text is no JSON, the line and the column are those at which its reader stopped.
pub fn why_no_command(alloc: Global, bytes: &[u8]) -> Result<Option<CommandFault>, AllocError>
    ensures fault { IfOk result (λ why. IfSome why (IsCommandFault bytes.now)) }
    ensures refused { IfOk result (λ why. IfSome why (λ fault. (entry : EntryValue) → ¬ SpellsCommand bytes.now entry)) }
    ensures read { IfOk result (λ why. IfNone why ((entry : EntryValue) × SpellsCommand bytes.now entry)) }
    ensures memory { OnErr result (0 < length bytes.now) }
{
    if let Some(_) = read_command(alloc, bytes)? {
        return Ok(None);
    }
    if bytes.len() > LONGEST_TEXT {
        return Ok(Some(CommandFault::TooLong));
    }
    match Value::from_slice(alloc, bytes) {
        Ok(value) => Ok(value_fault(&value)),
        Err(error) if error.is_memory() => Err(AllocError),
        Err(error) => Ok(Some(CommandFault::NoJson(error.line(), error.column()))),
    }
}

/// The reference that the text of a command gives it, whether it is one or not; None where it is no JSON or has no text `ref`.
/// The only fault is want of memory.
pub fn command_reference(alloc: Global, bytes: &[u8]) -> Result<Option<Vec<u8>>, AllocError>
    ensures found { IfOk result (λ found. IfSome found (λ reference. GivesReference bytes.now reference.items)) }
    ensures none { IfOk result (λ found. IfNone found ((reference : List ℕ) → ¬ GivesReference bytes.now reference)) }
{
    match Value::from_slice(alloc, bytes) {
        Ok(value) => reference_in(alloc, &value),
        Err(error) if error.is_memory() => Err(AllocError),
        Err(_) => Ok(None),
    }
}

/// The reference that a value gives itself.
fn reference_in(alloc: Global, value: &Value) -> Result<Option<Vec<u8>>, AllocError>
    ensures found { IfOk result (λ found. IfSome found (λ reference. text_at (codes "ref") (view value.now) ≡ Some reference.items)) }
    ensures none { IfOk result (λ found. IfNone found (text_at (codes "ref") (view value.now) ≡ None)) }
{
    match value.get("ref").and_then(Value::as_str) {
        Some(text) => Ok(Some(Vec::from_slice(alloc, text.as_bytes())?)),
        None => Ok(None),
    }
}
