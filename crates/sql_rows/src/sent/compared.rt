//! The table beside the messages of a register, number by number.

mod rows;

ghost use Rattle.std.specs.Prelude.{◌≡◌, ◌+◌, ◌<◌, ◌^◌, IsTrue, IfOk};
ghost use Rattle.std.specs.List.{AllByRecursion};
ghost use Rattle.desk_register.specs.View.{IfTrusted};
ghost use Rattle.sql_rows.specs.Messages.{AreSent};
ghost use Rattle.sql_tables.specs.Calls.{Soundly, tables};
ghost use Rattle.sql_tables.specs.Schema.{desk_schema, sent_table};
ghost use Rattle.sql_tables.specs.Forms.{AreAllFormed, HasForm};
ghost use Rattle.sql_tables.specs.Order.{AreInOrder};
ghost use Rattle.sql_tables.specs.Audits.{Audits, AuditsForCause, Consults};
ghost use Rattle.sql_rows.specs.SentTold.{AreTold, IsTold};

use crate::sent::compared::rows::{has_no_other, has_row};
use desk_register::{Messages, Stage};
use desk_rules::Sent;
use sql_tables::compared::MOST;
use sql_tables::fault::AuditFault;
use sql_tables::session::Session;
use std::alloc::Global;

/// The number of the instruction that a message is about.
fn about(message: &Sent) -> u64
    ensures about { result ≡ message.now.about }
    ensures fits { message.now.about < 2 ^ 64 }
{
    message.about
}

/// Whether the row behind so many others is that of the message behind as many.
fn is_told<S: Session, R: Messages>(
    alloc: Global,
    conn: &mut S,
    register: &mut R,
    before: u64,
) -> Result<bool, AuditFault>
    requires few { before + 1 < 2 ^ 63 }
    requires stage { (R.Register.view register.old).stage ≡ Stage.Idle }
    ensures told { Soundly S.state conn.old conn.new (IfTrusted (R.Register.view register.old) (R.Register.view register.new) (AllByRecursion (HasForm sent_table) ((tables S.state conn.old).trees 9)
        → IfOk result (λ ok. IsTrue ok → IsTold ((tables S.state conn.old).trees 9) (R.Register.view register.old).content.sent (before + 1)))) }
    ensures exact { Soundly S.state conn.old conn.new (IfTrusted (R.Register.view register.old) (R.Register.view register.new)
        (IfOk result (λ ok. IsTold ((tables S.state conn.old).trees 9) (R.Register.view register.old).content.sent (before + 1) → IsTrue ok))) }
    ensures look { Audits S.state conn.old conn.new result }
    ensures blame { Soundly S.state conn.old conn.new (AuditsForCause S.state conn.old conn.new result) }
    ensures read { Consults result (R.Register.view register.old) (R.Register.view register.new) }
{
    let Some(message) = register.message(alloc, before + 1)? else {
        return Ok(false);
    };
    // so it is known to fit
    let _about = about(&message);
    let told = has_row(conn, before + 1, &message)?;
    Ok(told)
}

/// Whether the row of each number is that of its message.
fn are_told<S: Session, R: Messages>(
    alloc: Global,
    conn: &mut S,
    register: &mut R,
    count: u64,
) -> Result<bool, AuditFault>
    requires few { count < 2 ^ 63 }
    requires stage { (R.Register.view register.old).stage ≡ Stage.Idle }
    ensures told { Soundly S.state conn.old conn.new (IfTrusted (R.Register.view register.old) (R.Register.view register.new) (AllByRecursion (HasForm sent_table) ((tables S.state conn.old).trees 9)
        → IfOk result (λ ok. IsTrue ok → AreTold ((tables S.state conn.old).trees 9) (R.Register.view register.old).content.sent count))) }
    ensures exact { Soundly S.state conn.old conn.new (IfTrusted (R.Register.view register.old) (R.Register.view register.new)
        (IfOk result (λ ok. AreTold ((tables S.state conn.old).trees 9) (R.Register.view register.old).content.sent count → IsTrue ok))) }
    ensures look { Audits S.state conn.old conn.new result }
    ensures blame { Soundly S.state conn.old conn.new (AuditsForCause S.state conn.old conn.new result) }
    ensures read { Consults result (R.Register.view register.old) (R.Register.view register.new) }
{
    for before in 0..count {
        if !is_told(alloc, conn, register, before)? {
            return Ok(false);
        }
    }
    Ok(true)
}

/// Whether the table `sent` is the list of what a register sent: each message in its place, and no row beside. It looks each
/// number up, and asks the register for each message.
pub fn has_sent<S: Session, R: Messages>(
    alloc: Global,
    conn: &mut S,
    register: &mut R,
) -> Result<bool, AuditFault>
    requires stage { (R.Register.view register.old).stage ≡ Stage.Idle }
    ensures sent { Soundly S.state conn.old conn.new (IfTrusted (R.Register.view register.old) (R.Register.view register.new)
        (AreInOrder desk_schema (tables S.state conn.old).trees → AreAllFormed (tables S.state conn.old).trees
        → IfOk result (λ ok. IsTrue ok → AreSent (tables S.state conn.old) (R.Register.view register.old).content.sent))) }
    ensures exact { Soundly S.state conn.old conn.new (IfTrusted (R.Register.view register.old) (R.Register.view register.new)
        (IfOk result (λ ok. AreSent (tables S.state conn.old) (R.Register.view register.old).content.sent → IsTrue ok))) }
    ensures look { Audits S.state conn.old conn.new result }
    ensures blame { Soundly S.state conn.old conn.new (AuditsForCause S.state conn.old conn.new result) }
    ensures read { Consults result (R.Register.view register.old) (R.Register.view register.new) }
{
    let count = register.sent_count(alloc)?;
    if count > MOST {
        return Ok(false);
    }
    if !has_no_other(conn, count)? {
        return Ok(false);
    }
    are_told(alloc, conn, register, count)
}
