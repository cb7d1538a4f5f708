//! The status advice, MT548.
ghost use Rattle.std.specs.Prelude.{◌≡◌, ◌≤◌, ◌++◌, IfOk, IsTrue, codes, if◌then◌else◌};
ghost use Rattle.std.specs.List.{flat_map};
ghost use Rattle.desk_text.specs.Fields.{IsBlock};
ghost use Rattle.desk_text.specs.Lines.{written};
ghost use Rattle.desk_text.specs.BlockGrammar.{is_first};
ghost use Rattle.desk_text.specs.Written.{block_text, fields_written, lines_of_part, is_value};
ghost use Rattle.desk_msg.specs.OwnText.{last_digits, own_reference};
ghost use Rattle.desk_msg.specs.StatusText.{advice, advice_parts, code_of_reason, statuses_of, function_of_advice, IsOwn, IsCase};
ghost use Rattle.desk_msg.specs.AdviceParts.{refused_number, parts_of};

use crate::mt::Mt;
use crate::writing::digits::fifteen_digits;
use crate::writing::pieces::joined;
use desk_codes::Reference;
use std::alloc::{AllocError, Global};

/// Which number the reference of one of the desk's own texts has.
#[derive(Clone, Copy)]
pub enum Own {
    /// An answer: S and how many entries were accepted by then.
    Answer(u64),
    /// A sent message: D and its number among those sent, from 1.
    Sent(u64),
}

/// Why a matched instruction isn't settled (ISO 15022, field 24B, qualifier PEND).
#[derive(Clone, Copy, PartialEq, Eq, PartialOrd, Ord)]
pub enum Reason {
    /// FUTU: no run has tried it yet
    Future,
    /// LACK: the last try found too few securities
    Lack,
    /// MONY: the last try found too little cash
    Money,
}

/// What a status advice says.
#[derive(Clone, Copy)]
pub enum Case {
    /// An instruction that no other matches yet
    Unmatched,
    /// An instruction that is matched and not settled
    Matched(Reason),
    /// An instruction that was cancelled
    Cancelled,
    /// A cancellation that was accepted and carried out
    CancelDone,
    /// A cancellation that was accepted and waits for the other side's
    CancelWaits,
    /// A new instruction that was refused, and the refusal's number, at most 99
    NewRefused(u8),
    /// A cancellation that was refused, and the refusal's number, at most 99. One that was accepted, and whose
    /// instruction settled before the other side asked too, stands so with 19.
    CancelRefused(u8),
}

/// The value of the own reference, `:SEME//` and sixteen characters.
pub fn own_value(own: Own) -> [u8; 23]
    ensures { result ≡ codes ":SEME//" ++ own_reference own }
{
    let (letter, number) = match own {
        Own::Answer(entries) => (b'S', entries),
        Own::Sent(n) => (b'D', n),
    };
    let mut value = *b":SEME//S000000000000000";
    value[7] = letter;
    value[8..].copy_from_slice(&fifteen_digits(number));
    value
}

/// The value of a refusal's narrative, `:REAS//DESK nn`.
fn refusal_value(number: u8) -> [u8; 14]
    requires { number ≤ 99 }
    ensures { result ≡ codes ":REAS//DESK " ++ last_digits 2 number }
{
    let mut value = *b":REAS//DESK 00";
    value[12] = b'0' + number / 10;
    value[13] = b'0' + number % 10;
    value
}

/// The lines of a pending status' reason, and of the status' end.
fn pending_lines<'a>(reason: Reason) -> &'a [u8]
    ensures { result.now ≡ codes ":16R:REAS\r\n:24B::PEND//" ++ (code_of_reason reason ++ codes "\r\n:16S:REAS\r\n:16S:STAT\r\n") }
{
    match reason {
        Reason::Future => b":16R:REAS\r\n:24B::PEND//FUTU\r\n:16S:REAS\r\n:16S:STAT\r\n",
        Reason::Lack => b":16R:REAS\r\n:24B::PEND//LACK\r\n:16S:REAS\r\n:16S:STAT\r\n",
        Reason::Money => b":16R:REAS\r\n:24B::PEND//MONY\r\n:16S:REAS\r\n:16S:STAT\r\n",
    }
}

/// The lines of statuses, in three pieces.
#[derive(Clone, Copy)]
struct StatusLines<'a> {
    front: &'a [u8],
    value: &'a [u8],
    end: &'a [u8],
}

/// Lines in one piece.
fn whole(front: &[u8]) -> StatusLines<'_>
    ensures { result.front.now ++ (result.value.now ++ result.end.now) ≡ front.now }
{
    StatusLines {
        front,
        value: b"",
        end: b"",
    }
}

/// What stands before the narrative in the lines of a refusal, of an instruction or of a cancellation.
fn refused_front<'a>(is_new: bool) -> &'a [u8]
    ensures { result.now ≡ codes ":16R:STAT\r\n:25D::" ++ ((if is_new then codes "IPRC" else codes "CPRC") ++ codes "//REJT\r\n:16R:REAS\r\n:24B::REJT//NARR\r\n:70D:") }
{
    if is_new {
        b":16R:STAT\r\n:25D::IPRC//REJT\r\n:16R:REAS\r\n:24B::REJT//NARR\r\n:70D:"
    } else {
        b":16R:STAT\r\n:25D::CPRC//REJT\r\n:16R:REAS\r\n:24B::REJT//NARR\r\n:70D:"
    }
}

/// The lines of the statuses of a case; the narrative is the value of a refusal's.
fn status_lines<'a>(about: Case, narrative: &'a [u8]) -> StatusLines<'a>
    requires { narrative.now ≡ codes ":REAS//DESK " ++ last_digits 2 (refused_number about) }
    ensures { result.front.now ++ (result.value.now ++ result.end.now) ≡ written (flat_map lines_of_part (statuses_of about)) }
{
    match about {
        Case::Unmatched => StatusLines {
            front: b":16R:STAT\r\n:25D::IPRC//PACK\r\n:16S:STAT\r\n",
            value: b":16R:STAT\r\n:25D::MTCH//NMAT\r\n",
            end: b":16R:REAS\r\n:24B::NMAT//CMIS\r\n:16S:REAS\r\n:16S:STAT\r\n",
        },
        Case::Matched(reason) => StatusLines {
            front: b":16R:STAT\r\n:25D::IPRC//PACK\r\n:16S:STAT\r\n:16R:STAT\r\n:25D::MTCH//MACH\r\n:16S:STAT\r\n",
            value: b":16R:STAT\r\n:25D::SETT//PEND\r\n",
            end: pending_lines(reason),
        },
        Case::Cancelled => whole(b":16R:STAT\r\n:25D::IPRC//CAND\r\n:16S:STAT\r\n"),
        Case::CancelDone => whole(b":16R:STAT\r\n:25D::CPRC//CAND\r\n:16S:STAT\r\n"),
        Case::CancelWaits => whole(b":16R:STAT\r\n:25D::CPRC//PACK\r\n:16S:STAT\r\n"),
        Case::NewRefused(_) => StatusLines {
            front: refused_front(true),
            value: narrative,
            end: b"\r\n:16S:REAS\r\n:16S:STAT\r\n",
        },
        Case::CancelRefused(_) => StatusLines {
            front: refused_front(false),
            value: narrative,
            end: b"\r\n:16S:REAS\r\n:16S:STAT\r\n",
        },
    }
}

/// The value of the function.
fn function_value<'a>(about: Case) -> &'a [u8]
    ensures value { result.now ≡ function_of_advice about }
    ensures right { IsTrue (is_value result.now) }
{
    match about {
        Case::CancelDone | Case::CancelWaits | Case::CancelRefused(_) => b"CAST",
        _ => b"INST",
    }
}

/// The number of a refusal; 0 in another case.
fn refusal_number(about: Case) -> u8
    requires { IsCase about }
    ensures value { result ≡ refused_number about }
    ensures small { result ≤ 99 }
{
    match about {
        Case::NewRefused(number) | Case::CancelRefused(number) => number,
        _ => 0,
    }
}

/// The advice with these values, and with the type and the reference of the message that it is about.
fn write_advice<'a>(
    alloc: Global,
    about: Case,
    own: &'a [u8],
    digits: &'a [u8],
    reference: &'a [u8],
    narrative: &'a [u8],
) -> Result<Vec<u8>, AllocError>
    requires own { IsTrue (is_first own.now) }
    requires digits { IsTrue (is_first digits.now) }
    requires reference { IsTrue (is_first reference.now) }
    requires narrative { narrative.now ≡ codes ":REAS//DESK " ++ last_digits 2 (refused_number about) }
    ensures text { IfOk result (λ text. text.items ≡ block_text (parts_of own.now (codes ":LINK//" ++ digits.now) (codes ":RELA//" ++ reference.now) about)) }
    ensures block { IfOk result (λ text. IsBlock text.items (fields_written (parts_of own.now (codes ":LINK//" ++ digits.now) (codes ":RELA//" ++ reference.now) about))) }
{
    let lines = status_lines(about, narrative);
    joined(
        alloc,
        &[
            b"{4:\r\n:16R:GENL\r\n:20C:",
            own,
            b"\r\n:23G:",
            function_value(about),
            b"\r\n:16R:LINK\r\n:13A::LINK//",
            digits,
            b"\r\n:20C::RELA//",
            reference,
            b"\r\n:16S:LINK\r\n",
            lines.front,
            lines.value,
            lines.end,
            b":16S:GENL\r\n-}",
        ],
    )
}

/// The status advice, MT548, about the message of that type and reference. The only fault is want of memory.
///
/// The number of entries or of the sent message has at most 15 digits, a refusal's number two.
pub fn status_text(
    alloc: Global,
    own: Own,
    mt: Mt,
    reference: &Reference,
    about: Case,
) -> Result<Vec<u8>, AllocError>
    requires own { IsOwn own }
    requires case { IsCase about }
    ensures text { IfOk result (λ text. text.items ≡ advice own mt reference.now about) }
    ensures block { IfOk result (λ text. IsBlock text.items (fields_written (advice_parts own mt reference.now about))) }
{
    let sender = own_value(own);
    let narrative = refusal_value(refusal_number(about));
    write_advice(
        alloc,
        about,
        &sender,
        mt.as_str().as_bytes(),
        reference.as_bytes(),
        &narrative,
    )
}
