//! What the numbers of refusals and faults mean, and what to do about them.
ghost use Rattle.std.specs.Prelude.{◌≡◌, ◌≢◌, map, Contains, MatchOption};
ghost use Rattle.std.specs.Option.{option_map};
ghost use Rattle.desk_words.specs.Causes.{CauseValue, catalogue, cause_among, cause_with, value_of_cause};

/// What is told in place of an answer: its number, what it means, in a line, and what to do about it, in another. (It is no
/// struct, since specs read no constant of structs that hold texts.)
pub type Cause = (u8, &'static str, &'static str);

/// Each cause, in the order of the numbers.
pub const CAUSES: [Cause; 37] = [
    (
        1,
        "the text is no block 4: its first line is not {4:, or its -} is missing",
        "Send block 4 alone, from {4: to -}, without the blocks 1 to 3 before it.",
    ),
    (
        2,
        "a line of the text may not stand there; its number is told behind the refusal",
        "Look at that line: a field begins with a tag between colons, and -} is the last line. Often it is a character other than printable ASCII, text that begins with - or :, a space behind -} or behind the code of a 16R or 16S, or an empty line behind {4:, a 16R or a 16S.",
    ),
    (
        3,
        "a line opens or closes a sequence wrongly; its number is told behind the refusal",
        "Close each 16R by a 16S of its name, the innermost first, before the -}; at most 16 may be open.",
    ),
    (
        4,
        "the text has more than 65,536 bytes",
        "Send a shorter text.",
    ),
    (
        5,
        "a field that the message must have is missing; its word is told behind the refusal",
        "Add the field in its sequence (docs/RULES.md, Messages read, has the words).",
    ),
    (
        6,
        "a field stands more than once; its word is told behind the refusal",
        "Leave it in one place (docs/RULES.md, Messages read, has the words).",
    ),
    (
        7,
        "the value of a field does not fit; its word is told behind the refusal",
        "Correct its value (docs/RULES.md, Messages read, has the words and the forms).",
    ),
    (
        8,
        "the function of the message, field 23G, is neither NEWM nor CANC",
        "Send NEWM for an instruction and CANC for a cancellation.",
    ),
    (
        10,
        "the sender of the message or the question is no participant",
        "Have the operator register it, or ask with the BIC that is registered.",
    ),
    (
        11,
        "the sender used this reference for another message",
        "Send it under a new reference: the message that has this one stands as before, and the same again is answered as before.",
    ),
    (
        12,
        "the place of settlement, field 95P PSET, is another than DESKDEFF",
        "Name DESKDEFF, or send the instruction to its own place of settlement.",
    ),
    (
        13,
        "the security of the instruction is not registered",
        "Correct the ISIN, or have the operator register the security.",
    ),
    (
        14,
        "the security is counted otherwise, in units (UNIT) or in face amount (FAMT)",
        "Write the quantity of field 36B in the kind with which the security is registered.",
    ),
    (
        15,
        "the safekeeping account is another's, or there is none of this number",
        "Correct the account, field 97A SAFE in an instruction, or have the operator open it for the sender.",
    ),
    (
        16,
        "the counterparty, field 95P DEAG or REAG, is no participant",
        "Correct its BIC, or have the operator register it.",
    ),
    (
        17,
        "the sender has no accepted instruction of this reference and type; of a question, no message of it",
        "Correct the reference, field 20C PREV in a cancellation, and the type of the message.",
    ),
    (
        18,
        "the instruction that is to be cancelled is cancelled already",
        "Nothing is left to be done.",
    ),
    (
        19,
        "the instruction that is to be cancelled is settled",
        "What is settled stays: instruct the way back, as a new delivery and a new receipt.",
    ),
    (
        21,
        "the desk holds as many entries as it may",
        "Questions and repeats are still answered; what is new needs another desk.",
    ),
    (
        22,
        "a cancellation of this instruction waits already for that of the other side",
        "Have the counterparty cancel its side too.",
    ),
    (
        30,
        "the operator's command cannot be read",
        "Write one JSON object with just the members of its op, and values of their form (docs/RULES.md, Commands, has both).",
    ),
    (
        31,
        "the operator used this reference for another command",
        "Give the command under a new reference; the same command again is answered as before.",
    ),
    (
        32,
        "the participant, the account or the security is there already",
        "Look at the one that is there: the account may be another participant's, the security of another kind. Go on with it, or give the new one another name.",
    ),
    (
        33,
        "the participant that the command names is not registered",
        "Correct the BIC, or register the participant first.",
    ),
    (
        34,
        "the account that the command names is not there",
        "Correct the number, or open the account first.",
    ),
    (
        35,
        "the security that the command names is not registered",
        "Correct the ISIN, or register the security first.",
    ),
    (
        36,
        "more would be outstanding of the security, or paid in of the currency, than the desk counts",
        "Issue or pay in less (docs/RULES.md, Verdict, has the limits).",
    ),
    (
        37,
        "the account holds less than is to be redeemed, or the participant has less than is to be paid out",
        "Redeem or pay out less, or wait for what is to come in.",
    ),
    (
        38,
        "the day of the run is before that of the last run",
        "Run for the day of the last run, or for a later one.",
    ),
    (
        40,
        "the name of the file is neither that of a message, as ALPHDEFF.543.A1.fin, nor that of a command, as 1.json",
        "Name it so (./desk help drop), and take the folder again: what was accepted is answered as before.",
    ),
    (
        41,
        "the line of the script asks nothing that the desk knows, or its body has no end",
        "Write one of the lines of a script (./desk help play), and end a body by a line that is a full stop.",
    ),
    (
        42,
        "the participant was not sent so many messages",
        "Count from 1; or ask again later, no more was sent yet.",
    ),
    (
        50,
        "the file is none of a desk's: it is no database, or its tables are not those that accepted entries leave",
        "Name the desk's own file, or bring back a sound copy of it: what is told on standard error says where it differs. A new name makes a new desk.",
    ),
    (
        51,
        "the tables of the file are of another version",
        "Bring one of version 1 or 2 into a new file by desk migrate, which takes no other; open one of version 3 as it is, and any other by the program of its version.",
    ),
    (
        60,
        "memory is wanting; a request that it answers changed nothing",
        "Ask again, with more memory.",
    ),
    (
        61,
        "the device under the tables failed, or the file cannot be opened or closed; a request that it answers changed nothing",
        "See to the device, to the name of the file, and that no other program has it open (docs/STORE.md), and ask again.",
    ),
    (
        62,
        "the desk is closed: it could not be shown that its tables are as before",
        "Ask it no more: see to the device, and run the desk anew over its file. The last command stands there or not; send it again, and it acts once.",
    ),
];

/// The cause of this number. None where the number is told of nothing.
pub fn cause_of(number: u8) -> Option<Cause>
    ensures one { MatchOption result ((cause : CauseValue) → Contains catalogue cause → cause.number ≢ number) (λ cause. Contains catalogue (value_of_cause cause) × (cause.0 ≡ number)) }
    ensures first { option_map value_of_cause result ≡ cause_with number }
{
    cause_in(&CAUSES, number)
}

/// The first of these causes that has this number.
fn cause_in(causes: &[Cause], number: u8) -> Option<Cause>
    ensures { option_map value_of_cause result ≡ cause_among number (map value_of_cause causes.now) }
{
    causes.iter().copied().find(|cause| cause.0 == number)
}
