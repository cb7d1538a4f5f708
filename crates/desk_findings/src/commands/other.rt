//! The name of a member that a command should not have.
ghost use Rattle.std.specs.Prelude.{◌≡◌, ◌≢◌, All, IsTrue, IfOk, IfSome, None, Some, codes};
ghost use Rattle.serde_json.specs.Find.{get};
ghost use Rattle.serde_json.specs.View.{view};
ghost use Rattle.desk_findings.specs.CommandFaults.{HasOtherMember, IsOtherMember, OtherMember};

use crate::commands::member::Member;
use crate::commands::value::operation_of;
use serde_json::Value;
use std::alloc::{AllocError, Global};

/// The name of a member that the operation of a command does not have: the first such in the order of their bytes; None where there is
/// none, where the text is no JSON, and where it names no operation. The only fault is want of memory.
pub fn other_member(alloc: Global, bytes: &[u8]) -> Result<Option<Vec<u8>>, AllocError>
    ensures { IfOk result (λ found. IfSome found (λ name. HasOtherMember bytes.now name.items)) }
{
    match Value::from_slice(alloc, bytes) {
        Ok(value) => other_in(alloc, &value),
        Err(error) if error.is_memory() => Err(AllocError),
        Err(_) => Ok(None),
    }
}

/// The same of a value.
fn other_in(alloc: Global, value: &Value) -> Result<Option<Vec<u8>>, AllocError>
    ensures { IfOk result (λ found. IfSome found (λ name. OtherMember (view value.now) name.items)) }
{
    let Some(operation) = operation_of(value) else {
        return Ok(None);
    };
    match other_name(value, operation.members()) {
        Some(name) => Ok(Some(Vec::from_slice(alloc, name.as_bytes())?)),
        None => Ok(None),
    }
}

/// The first name of a member besides `op` and these.
fn other_name<'a>(value: &'a Value, needed: &[Member]) -> Option<&'a str>
    ensures { IfSome result (λ name. IsOtherMember (view value.entry.now) needed.now name.now) }
{
    for name in value.as_object()?.keys() {
        if is_other(value, name.as_str(), needed) {
            return Some(name.as_str());
        }
    }
    None
}

/// Whether a member of this name is there, besides `op` and these.
fn is_other(value: &Value, name: &str, needed: &[Member]) -> bool
    ensures { IsTrue result → IsOtherMember (view value.now) needed.now name.now }
{
    name != "op" && needed.iter().all(|member| member.name() != name) && value.get(name).is_some()
}
