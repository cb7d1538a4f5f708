//! Whether a reply is another one.
ghost use Rattle.std.specs.Prelude.{◌≡◌, ◌↔◌, IsTrue, Some};

use desk_rules::Reply;

/// Whether two replies are the same: their status, their message type, and each byte of their texts.
pub fn same_reply(a: &Reply, b: &Reply) -> bool
    ensures { IsTrue result ↔ (a.now ≡ b.now) }
{
    if a.status != b.status {
        return false;
    }
    if a.mt != b.mt {
        return false;
    }
    a.text.as_bytes() == b.text.as_bytes()
}

/// Whether there is a reply, and it is this one.
pub fn is_reply(found: &Option<Reply>, reply: &Reply) -> bool
    ensures { IsTrue result ↔ (found.now ≡ Some reply.now) }
{
    match found {
        Some(found) => same_reply(found, reply),
        None => false,
    }
}
