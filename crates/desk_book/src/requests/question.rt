//! What can be asked of the desk.
ghost use Rattle.std.specs.Prelude.{◌≡◌, true, IfSome, IfNone};
ghost use Rattle.desk_msg.specs.MessageType.{digits_of_type, is_instruction};
ghost use Rattle.desk_book.specs.Asked.{asked_by, asked_with, has_text, mt_of};

use desk_codes::Bic;
use desk_msg::Mt;

/// The type of a message that a participant sends (ISO 15022, category 5): it instructs the desk, or cancels what it
/// instructed.
#[derive(Clone, Copy)]
pub enum InstructionType {
    /// Receive free
    Mt540,
    /// Receive against payment
    Mt541,
    /// Deliver free
    Mt542,
    /// Deliver against payment
    Mt543,
}

impl InstructionType {
    /// The type of three digits; None for any other text.
    pub fn parse(digits: &[u8]) -> Option<InstructionType>
        ensures found { IfSome result (λ kind. digits_of_type (mt_of kind) ≡ digits.now) }
        ensures none { IfNone result ((kind : InstructionType) → ¬ (digits_of_type (mt_of kind) ≡ digits.now)) }
    {
        match digits {
            b"540" => Some(InstructionType::Mt540),
            b"541" => Some(InstructionType::Mt541),
            b"542" => Some(InstructionType::Mt542),
            b"543" => Some(InstructionType::Mt543),
            _ => None,
        }
    }

    /// The type of settlement messages that it is.
    pub fn mt(self) -> Mt
        ensures is { result ≡ mt_of self }
        ensures instructs { is_instruction result ≡ true }
    {
        match self {
            InstructionType::Mt540 => Mt::Mt540,
            InstructionType::Mt541 => Mt::Mt541,
            InstructionType::Mt542 => Mt::Mt542,
            InstructionType::Mt543 => Mt::Mt543,
        }
    }
}

/// What is asked: what a line of a script, or a path, names. Most questions are asked with a text.
#[derive(Clone, Copy)]
pub enum Question {
    /// To take a participant's message in: its sender and its type. The text is its block 4
    Message(Bic, InstructionType),
    /// To carry an operator's command out. The text is the command, as JSON
    Operator,
    /// How a message of this sender stands. The text is its reference
    Status(Bic),
    /// The message that was sent to this participant as its k-th, counted from 1
    Sent(Bic, u64),
    /// The statement of an account of this participant. The text names the account
    Holdings(Bic),
    /// The desk's totals
    Sums,
}

impl Question {
    /// Whether it is asked with a text.
    pub fn has_text(&self) -> bool
        ensures { result ≡ has_text self.now }
    {
        !matches!(self, Question::Sent(..) | Question::Sums)
    }

    /// The request that asks it with this text.
    pub fn with(self, text: &[u8]) -> Request<'_>
        ensures { asked_by result ≡ asked_with self text.now }
    {
        Request {
            question: self,
            text,
        }
    }
}

/// A request to the desk: a question, and the text that it is asked with, as it came and not yet read. Where it is asked
/// with none the text is not looked at.
#[derive(Clone, Copy)]
pub struct Request<'a> {
    pub question: Question,
    pub text: &'a [u8],
}
