//! What a head calls for.
ghost use Rattle.std.specs.Prelude.{◌≡◌, ◌+◌, ◌≤◌, true, false, length, map, All, IfSome, IfNone, IsUtf8, Ok};
ghost use Rattle.httparse.specs.Grammar.{RequestHead};
ghost use Rattle.httparse.specs.Spans.{IsHeaderWithin, IsRequestAt, IsRequestOf, IsRequestWithin, header_bytes};
ghost use Rattle.desk_book.specs.Asked.{asked_by, has_text};
ghost use Rattle.desk_http.specs.Decisions.{asked_at};
ghost use Rattle.desk_http.specs.Connection.{Calls};
ghost use Rattle.desk_http.specs.Length.{BodyLength};
ghost use Rattle.desk_http.specs.Paths.{IsPath, Path as PathValue, path_of};

use crate::field::body_length;
use crate::refusal::Refusal;
use crate::route::{Path, Routes};
use desk_book::{Question, Request};
use httparse::spans::{HeaderSpan, RequestSpans};
use std::str;

/// What a head calls for: a question, and how many bytes of body follow, which are the text that it is asked with.
#[derive(Clone, Copy)]
pub struct Call {
    pub question: Question,
    pub length: usize,
}

impl Call {
    /// The request that it is where its body begins at this place.
    pub fn request(self, bytes: &[u8], start: usize) -> Request<'_>
        requires { start + self.length ≤ length bytes.now }
        ensures { asked_by result ≡ asked_at bytes.now self start }
    {
        self.question.with(&bytes[start..start + self.length])
    }
}

/// What the head at the front calls for, or how it is refused.
pub fn call_of(
    routes: &Routes,
    front: &[u8],
    head: &RequestSpans,
    fields: &[HeaderSpan],
) -> Result<Call, Refusal>
    requires within { IsRequestWithin front.now fields.now head.now }
    requires head { IsRequestOf front.now fields.now head.now }
    ensures { (h : RequestHead) → IsRequestAt front.now fields.now head.now h → Calls h result }
{
    let Some(path) = path_at(routes, head.path.of(front)) else {
        return Err(Refusal::NotFound);
    };
    if head.method.of(front) != path.method() {
        return Err(Refusal::MethodNotAllowed);
    }
    let Some(question) = path.question() else {
        return Err(Refusal::NotFound);
    };
    match length_for(&question, front, &fields[..head.headers]) {
        Ok(length) => Ok(Call { question, length }),
        Err(refusal) => Err(refusal),
    }
}

/// The path that a target is, which is text.
fn path_at<'a>(routes: &Routes, target: &'a [u8]) -> Option<Path<'a>>
    requires { IsUtf8 target.now }
    ensures some { IfSome result (λ path. IsPath (path_of path) target.now) }
    ensures none { IfNone result ((path : PathValue) → ¬ IsPath path target.now) }
{
    routes.find(str::from_utf8(target).unwrap())
}

/// The length of the body that a question is asked with.
fn length_for(question: &Question, front: &[u8], fields: &[HeaderSpan]) -> Result<usize, Refusal>
    requires { All (IsHeaderWithin (length front.now)) fields.now }
    ensures posted { has_text question.now ≡ true → BodyLength (map (header_bytes front.now) fields.now) result }
    ensures bodiless { has_text question.now ≡ false → result ≡ Ok 0 }
{
    if question.has_text() {
        body_length(front, fields)
    } else {
        Ok(0)
    }
}
