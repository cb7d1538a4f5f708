//! The statement of what a participant's account holds, written straight to a writer. It only reads.
ghost use Rattle.std.specs.Prelude.{◌≡◌, true, false, Err, IfOk};
ghost use Rattle.desk_rules.specs.Books.{Books};
ghost use Rattle.desk_rules.specs.Questions.{refused_question};
ghost use Rattle.desk_rules.specs.Content.{history_of};
ghost use Rattle.desk_rules.specs.Facts.{is_owner, owner_of};
ghost use Rattle.desk_register.specs.View.{IfTrusted, IsRead};
ghost use Rattle.desk_register.specs.Ends.{at_register};
ghost use Rattle.desk_engine.specs.Applied.{Keeps};
ghost use Rattle.desk_engine.specs.Ready.{IsReady};
ghost use Rattle.desk_book.specs.RowByRow.{told_of_walk};
ghost use Rattle.desk_book.specs.Statement.{IsStatement, TellsHoldings, TellsOwner};
ghost use Rattle.desk_book.specs.WrittenTo.{Writes};

use crate::answers::head::Head;
use crate::answers::writing::write_text;
use desk_codes::{AccountId, Bic};
use desk_holdings::write_statement;
use desk_msg::SinkFault;
use desk_register::{Fault, Register, Stage, WalkFault};
use desk_rules::{Refusal, question_refused};
use desk_streams::Sink;
use std::alloc::Global;

/// The type of a statement of holdings.
const STATEMENT: u16 = 535;

/// Writes what an account holds, as its owner asks for it. None names no account.
pub fn write_holdings<R: Register, W: Sink>(
    alloc: Global,
    register: &mut R,
    owner: Bic,
    account: Option<AccountId>,
    writer: &mut W,
) -> Result<Head, WalkFault>
    requires ready { IsReady false (R.view register.old) }
    ensures written { (books : Books) → IfTrusted (R.view register.old) (R.view register.new) (Keeps (R.view register.old).room books (R.view register.old).content
        → Writes (TellsHoldings books owner account) (told_of_walk result) (W.contents writer.old) (W.contents writer.new)) }
    ensures read { IsRead (at_register result) (R.view register.old) (R.view register.new) }
    ensures unwritten { result ≡ Err (WalkFault.Sink SinkFault.Write) → W.may_fail ≡ true }
{
    let is_participant = register.participant(alloc, owner)?;
    if !is_participant {
        return write_refusal(alloc, Refusal::SenderUnknown.number(), writer);
    }
    write_own_holdings(alloc, register, owner, account, writer)
}

/// Writes what an account holds, where it is this participant's.
fn write_own_holdings<R: Register, W: Sink>(
    alloc: Global,
    register: &mut R,
    owner: Bic,
    account: Option<AccountId>,
    writer: &mut W,
) -> Result<Head, WalkFault>
    requires ready { IsReady false (R.view register.old) }
    ensures written { (books : Books) → IfTrusted (R.view register.old) (R.view register.new) (Keeps (R.view register.old).room books (R.view register.old).content
        → Writes (TellsOwner books owner account) (told_of_walk result) (W.contents writer.old) (W.contents writer.new)) }
    ensures read { IsRead (at_register result) (R.view register.old) (R.view register.new) }
    ensures unwritten { result ≡ Err (WalkFault.Sink SinkFault.Write) → W.may_fail ≡ true }
{
    let Some(account) = account else {
        return write_refusal(alloc, Refusal::AccountNotSenders.number(), writer);
    };
    let is_own = is_own(alloc, register, owner, account)?;
    if !is_own {
        return write_refusal(alloc, Refusal::AccountNotSenders.number(), writer);
    }
    write_account(alloc, register, account, writer)
}

/// Whether an account is this participant's.
fn is_own<R: Register>(
    alloc: Global,
    register: &mut R,
    owner: Bic,
    account: AccountId,
) -> Result<bool, Fault>
    requires { (R.view register.old).stage ≡ Stage.Idle }
    ensures own { IfTrusted (R.view register.old) (R.view register.new) (IfOk result (λ is_own. is_own ≡ is_owner owner (owner_of (history_of (R.view register.old).content) account))) }
    ensures read { IsRead result (R.view register.old) (R.view register.new) }
{
    match register.owner(alloc, account)? {
        Some(found) => Ok(found == owner),
        None => Ok(false),
    }
}

/// Writes the statement of an account.
fn write_account<R: Register, W: Sink>(
    alloc: Global,
    register: &mut R,
    account: AccountId,
    writer: &mut W,
) -> Result<Head, WalkFault>
    requires ready { IsReady false (R.view register.old) }
    ensures written { (books : Books) → IfTrusted (R.view register.old) (R.view register.new) (Keeps (R.view register.old).room books (R.view register.old).content
        → Writes (IsStatement books account) (told_of_walk result) (W.contents writer.old) (W.contents writer.new)) }
    ensures read { IsRead (at_register result) (R.view register.old) (R.view register.new) }
    ensures unwritten { result ≡ Err (WalkFault.Sink SinkFault.Write) → W.may_fail ≡ true }
{
    write_statement(alloc, register, account, writer)?;
    Ok(Head {
        status: 200,
        mt: Some(STATEMENT),
    })
}

/// Writes the refusal of a question.
fn write_refusal<W: Sink>(alloc: Global, number: u8, writer: &mut W) -> Result<Head, WalkFault>
    ensures written { Writes (λ reply. reply ≡ refused_question number) (told_of_walk result) (W.contents writer.old) (W.contents writer.new) }
    ensures register { at_register result ≡ Ok tt }
    ensures unwritten { result ≡ Err (WalkFault.Sink SinkFault.Write) → W.may_fail ≡ true }
{
    let Ok(reply) = question_refused(alloc, number) else {
        return Err(WalkFault::Sink(SinkFault::Memory));
    };
    write_text(writer, reply.text.as_bytes())?;
    Ok(Head {
        status: reply.status,
        mt: reply.mt,
    })
}
