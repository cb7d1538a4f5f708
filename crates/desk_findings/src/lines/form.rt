//! The first words of the lines that ask something.
ghost use Rattle.std.specs.Prelude.{◌≡◌, IfSome, IfNone};
ghost use Rattle.desk_findings.specs.LineFaults.{word_of};

/// What a line asks that names a participant behind its first word.
#[derive(Clone, Copy)]
pub enum Named {
    /// `in BIC MT`
    Message,
    /// `status BIC REFERENCE`
    Status,
    /// `sent BIC K`
    Sent,
    /// `holdings BIC ACCOUNT`
    Holdings,
}

/// What a line asks, by its first word.
#[derive(Clone, Copy)]
pub enum Form {
    /// `op`
    Command,
    /// `sums`
    Sums,
    Named(Named),
}

impl Form {
    /// The form of a line with this first word; None where there is none.
    pub fn with_word(word: &[u8]) -> Option<Form>
        ensures found { IfSome result (λ form. word_of form ≡ word.now) }
        ensures none { IfNone result ((form : Form) → ¬ (word_of form ≡ word.now)) }
    {
        match word {
            b"op" => Some(Form::Command),
            b"sums" => Some(Form::Sums),
            b"in" => Some(Form::Named(Named::Message)),
            b"status" => Some(Form::Named(Named::Status)),
            b"sent" => Some(Form::Named(Named::Sent)),
            b"holdings" => Some(Form::Named(Named::Holdings)),
            _ => None,
        }
    }
}
