//! What the desk decides on an entry.
ghost use Rattle.std.specs.Prelude.{◌≡◌, ◌≤◌};
ghost use Rattle.desk_rules.specs.Refusals.{number_of_refusal};

/// Why an entry is refused.
#[derive(Clone, Copy)]
pub enum Refusal {
    /// The sender of a message is no participant.
    SenderUnknown,
    /// The sender used the reference of a message for another one.
    ReferenceReused,
    /// The place of settlement is another than this desk.
    PlaceNotUs,
    /// No such security, in an instruction
    UnknownSecurity,
    /// The security is counted otherwise.
    KindDiffers,
    /// The account is unknown, or another's.
    AccountNotSenders,
    /// The counterparty is no participant.
    CounterpartyUnknown,
    /// The sender has no accepted instruction of that reference and type; of a question: it used no such reference.
    NoSuchInstruction,
    /// The instruction was cancelled before.
    AlreadyCancelled,
    /// The instruction's pair was settled.
    AlreadySettled,
    /// The desk holds all the entries that it may.
    Full,
    /// A cancellation of the instruction waits for one of its counterparty.
    CancellationWaits,
    /// The operator used the reference for another command.
    CommandReused,
    /// The participant, account or security is there.
    Exists,
    /// No such participant
    ParticipantUnknown,
    /// No such account
    AccountUnknown,
    /// No such security, in a command
    SecurityUnknown,
    /// What is outstanding, or paid in less paid out, would pass its limit.
    OverLimit,
    /// The account holds too little, or the participant has too little cash.
    NotEnough,
    /// The run is for a day before that of the last run.
    DayGoesBack,
}

impl Refusal {
    /// Its number: 10 to 22 of messages, 31 to 38 and 21 of commands.
    pub fn number(self) -> u8
        ensures number { result ≡ number_of_refusal self }
        ensures two_digits { result ≤ 99 }
    {
        match self {
            Refusal::SenderUnknown => 10,
            Refusal::ReferenceReused => 11,
            Refusal::PlaceNotUs => 12,
            Refusal::UnknownSecurity => 13,
            Refusal::KindDiffers => 14,
            Refusal::AccountNotSenders => 15,
            Refusal::CounterpartyUnknown => 16,
            Refusal::NoSuchInstruction => 17,
            Refusal::AlreadyCancelled => 18,
            Refusal::AlreadySettled => 19,
            Refusal::Full => 21,
            Refusal::CancellationWaits => 22,
            Refusal::CommandReused => 31,
            Refusal::Exists => 32,
            Refusal::ParticipantUnknown => 33,
            Refusal::AccountUnknown => 34,
            Refusal::SecurityUnknown => 35,
            Refusal::OverLimit => 36,
            Refusal::NotEnough => 37,
            Refusal::DayGoesBack => 38,
        }
    }
}

/// What the desk decides.
#[derive(Clone, Copy)]
pub enum Verdict {
    Accept,
    /// The entry of that number is the same command: it is answered again, and nothing changes.
    Repeat(u64),
    Refuse(Refusal),
}
