//! What the desk answers, and what it sends.
ghost use Rattle.std.specs.Prelude.{◌≡◌, IfOk};

use crate::history::entry::Entry;
use desk_codes::Bic;
use desk_msg::Reason;
use std::alloc::{AllocError, Global};
use std::marker::Model;

/// A text of the desk's own.
#[derive(Drop)]
pub struct Text {
    bytes: Vec<u8>,
}

impl Model for Text {
    ghost use Rattle.std.specs.Prelude.{List, ℕ};

    ghost Value = { List ℕ };

    ghost view = { λ text. text.bytes.items };
}

impl Text {
    /// The text of these bytes, taken over without a copy.
    pub fn new(bytes: Vec<u8>) -> Text
        ensures { result ≡ bytes.items }
    {
        Text { bytes }
    }

    /// Its bytes.
    pub fn as_bytes(&self) -> &[u8]
        ensures { result.now ≡ self.now }
    {
        &self.bytes
    }

    /// Its bytes, handed on.
    pub fn into_bytes(self) -> Vec<u8>
        ensures { result.items ≡ self }
    {
        self.bytes
    }
}

/// An answer to a request.
#[derive(Drop)]
pub struct Reply {
    /// 200 where it was accepted, or answered again, for the totals, and where a question is answered; 400 where it
    /// could not be read; 422 where it was refused
    pub status: u16,
    /// The message type of the text, where it is a message
    pub mt: Option<u16>,
    pub text: Text,
}

impl Reply {
    /// The reply once more.
    pub fn try_clone(&self, alloc: Global) -> Result<Reply, AllocError>
        ensures { IfOk result (λ copy. copy ≡ self.now) }
    {
        let bytes = Vec::from_slice(alloc, self.text.as_bytes())?;
        Ok(Reply {
            status: self.status,
            mt: self.mt,
            text: Text::new(bytes),
        })
    }
}

/// An accepted entry, and the reply that it got.
#[derive(Drop)]
pub struct Kept {
    pub entry: Entry,
    pub reply: Reply,
}

/// Something to be told of an instruction: that it was paired, or that a run settled it.
#[derive(Clone, Copy)]
pub struct Notice {
    /// The number of the instruction
    pub about: u64,
    /// The number of the run that settled it; None where it was paired
    pub run: Option<u64>,
}

/// A message that the desk sent.
#[derive(Drop)]
pub struct Sent {
    /// The participant that it was sent to
    pub bic: Bic,
    /// 548, or 544 to 547
    pub mt: u16,
    /// The number of the instruction that it is about
    pub about: u64,
    pub text: Text,
}
