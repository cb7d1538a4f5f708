//! The head of an answer: what is told beside its text.
ghost use Rattle.std.specs.Prelude.{◌≡◌};
ghost use Rattle.desk_book.specs.WrittenTo.{reply_with};

use desk_rules::{Reply, Text};

/// The head of an answer whose text is written straight to a writer.
#[derive(Clone, Copy)]
pub struct Head {
    /// 200 where what was asked is answered, 422 where it is refused
    pub status: u16,
    /// The message type of the text, where it is a message
    pub mt: Option<u16>,
}

impl Head {
    /// The reply of this head and a text.
    pub fn with_text(self, text: Vec<u8>) -> Reply
        ensures { result ≡ reply_with self text.items }
    {
        Reply {
            status: self.status,
            mt: self.mt,
            text: Text::new(text),
        }
    }
}
