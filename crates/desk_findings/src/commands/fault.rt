//! What can be wrong with a command.
ghost use Rattle.std.specs.Prelude.{◌≡◌, ℕ, List, true, OnErr, OnOk};
ghost use Rattle.std.specs.Io.KnownBytes.{Appends};

use crate::commands::member::Member;
use desk_codes::CodeFault;
use desk_streams::Sink;
use std::io;

/// What is wrong with the text of a member: the first of these that fits.
#[derive(Clone, Copy)]
pub enum TextFault {
    /// It is empty
    Empty,
    /// One of its bytes is no printable character of ASCII
    Unprintable,
    /// It has more characters than this, the most that it may have
    TooLong(usize),
    /// A reference begins or ends with a slash, or has two together
    Slash,
    /// It is no BIC, or no ISIN, for this reason
    Code(CodeFault),
    /// It is neither UNIT nor FAMT
    NoKind,
    /// It is not eight digits
    NotEightDigits,
    /// The calendar has no such date
    NoDate,
    /// It is a currency of the desk but for the case of its letters
    LowerCase,
    /// It is no currency of the desk
    NoCurrency,
}

/// What is wrong with a member of a command: the first of these that fits.
#[derive(Clone, Copy)]
pub enum MemberFault {
    /// The object has no member of this name
    Missing,
    /// It is no text, as it must be
    NoText,
    /// It is a text, of which this is wrong
    Wrong(TextFault),
    /// It is no whole number below 2^64, written in digits alone
    NoNumber,
    /// It is 0, or more than this, the most that it may be
    Range(u64),
}

/// What is wrong with a text that is no command: the first of these that fits.
#[derive(Clone, Copy)]
pub enum CommandFault {
    /// It is longer than `desk_text::LONGEST_TEXT`
    TooLong,
    /// It is no JSON (RFC 8259) in UTF-8, or nested too deep: its reader stopped in this line, counted from 1, behind so many bytes
    /// of it
    NoJson(usize, usize),
    /// Its value is no object
    NoObject,
    /// The object has no member `op`
    NoOperation,
    /// `op` is no text, or names no operation
    UnknownOperation,
    /// This member of its operation is wrong
    Wrong(Member, MemberFault),
    /// The members of its operation are there, and others
    OtherMembers,
}

/// Writes what is wrong with a command, in words of printable ASCII, with no quotes and no full stop behind.
pub fn write_command_fault<W: Sink>(fault: CommandFault, writer: &mut W) -> io::Result<()>
    ensures written { OnOk result ((words : List ℕ) × Appends (W.contents writer.old) (W.contents writer.new) words) }
    ensures failed { OnErr result (W.may_fail ≡ true) }
{
    match fault {
        CommandFault::Wrong(member, fault) => write_member_fault(member, fault, writer),
        CommandFault::NoJson(line, column) => {
            // a line that ends the text, and is empty, has a first column too
            let column = column.max(1);
            writer.put_text(format_args!(
                "the body is no JSON, from its line {line}, column {column} on"
            ))
        }
        _ => writer.put(words_of(fault)),
    }
}

/// What a fault is called that tells no member.
fn words_of(fault: CommandFault) -> &'static [u8] {
    match fault {
        CommandFault::TooLong => b"the body has more than 65536 bytes",
        CommandFault::NoObject => b"the body is no object in JSON",
        CommandFault::NoOperation => b"op is missing",
        CommandFault::UnknownOperation => {
            b"op is none of participant, account, security, issue, redeem, payin, payout, run"
        }
        _ => b"a member is there that this op does not have",
    }
}

fn write_member_fault<W: Sink>(member: Member, fault: MemberFault, writer: &mut W) -> io::Result<()>
    ensures written { OnOk result ((words : List ℕ) × Appends (W.contents writer.old) (W.contents writer.new) words) }
    ensures failed { OnErr result (W.may_fail ≡ true) }
{
    let name = member.name();
    match fault {
        MemberFault::Missing => writer.put_text(format_args!("{name} is missing")),
        MemberFault::NoText => writer.put_text(format_args!("{name} is no text in quotes")),
        MemberFault::NoNumber => {
            writer.put_text(format_args!("{name} is no whole number in digits alone"))
        }
        MemberFault::Range(most) => {
            writer.put_text(format_args!("{name} is not from 1 to {most}"))
        }
        MemberFault::Wrong(TextFault::TooLong(most)) => {
            writer.put_text(format_args!("{name} has more than {most} characters"))
        }
        MemberFault::Wrong(TextFault::Code(CodeFault::Check(digit))) => writer.put_text(
            format_args!("{name} does not end with its check digit, which is {digit}"),
        ),
        MemberFault::Wrong(fault) => {
            let words = words_of_text(fault);
            writer.put_text(format_args!("{name} {words}"))
        }
    }
}

/// What a fault of a text is called that tells no number.
fn words_of_text(fault: TextFault) -> &'static str {
    match fault {
        TextFault::Empty => "is empty",
        TextFault::Unprintable => "has a character other than printable ASCII",
        TextFault::TooLong(_) => "is too long",
        TextFault::Slash => "begins or ends with a slash, or has two together",
        TextFault::Code(fault) => words_of_code(fault),
        TextFault::NoKind => "is neither UNIT nor FAMT",
        TextFault::NotEightDigits => "is not eight digits, as YYYYMMDD",
        TextFault::NoDate => "is no date of the calendar",
        TextFault::LowerCase => "is not in capital letters",
        TextFault::NoCurrency => "is none of CHF, EUR, GBP, JPY, KWD, USD",
    }
}

/// What is wrong with a code, in words.
pub fn words_of_code(fault: CodeFault) -> &'static str {
    match fault {
        CodeFault::Length => "has not as many characters as such a code: an ISIN 12, a BIC 8 or 11",
        CodeFault::Prefix => "does not begin with two capital letters",
        CodeFault::Body => "has a character other than A to Z and 0 to 9",
        CodeFault::Check(_) => "does not end with its check digit",
        CodeFault::Shape => {
            "is not four letters or digits, two letters for the country, and letters or digits, all in capitals"
        }
    }
}
