//! Texts that are kept take no more memory than they need.
ghost use Rattle.std.specs.Prelude.{◌≡◌};

use desk_rules::{Reply, Sent, Text};

/// A reply, its text in no more memory than it needs.
pub fn trimmed_reply(reply: Reply) -> Reply
    ensures { result ≡ reply }
{
    let Reply { status, mt, text } = reply;
    Reply {
        status,
        mt,
        text: trimmed(text),
    }
}

/// A message, its text in no more memory than it needs.
pub fn trimmed_message(message: Sent) -> Sent
    ensures { result ≡ message }
{
    let Sent {
        bic,
        mt,
        about,
        text,
    } = message;
    Sent {
        bic,
        mt,
        about,
        text: trimmed(text),
    }
}

/// A text, in no more memory than it needs.
fn trimmed(text: Text) -> Text
    ensures { result ≡ text }
{
    let mut bytes = text.into_bytes();
    bytes.shrink_to_fit();
    Text::new(bytes)
}
