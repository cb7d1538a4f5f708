//! What a sent message is besides its text.
ghost use Rattle.std.specs.Prelude.{◌≡◌};
ghost use Rattle.memory_register.specs.Headings.{heading_of, is_confirmation};

use desk_codes::Bic;
use desk_rules::Sent;

/// What a sent message is besides its text.
#[derive(Clone, Copy)]
pub struct Heading {
    pub bic: Bic,
    pub mt: u16,
    /// The number of the instruction that the message is about
    pub about: u64,
}

impl Heading {
    /// Whether the message confirms a settlement: an MT544 to 547.
    pub fn is_confirmation(&self) -> bool
        ensures { result ≡ is_confirmation self.now }
    {
        544 <= self.mt && self.mt <= 547
    }
}

/// The heading of a message.
pub fn heading_of(message: &Sent) -> Heading
    ensures { result ≡ heading_of message.now }
{
    Heading {
        bic: message.bic,
        mt: message.mt,
        about: message.about,
    }
}
