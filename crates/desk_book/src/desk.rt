//! The desk: requests, answered from a register's tables.
ghost use Rattle.std.specs.Prelude.{◌≡◌, [], true, false, is_some, map, All, IfErr, IfOk, OnErr};
ghost use Rattle.desk_rules.specs.Books.{Books};
ghost use Rattle.desk_register.specs.View.{IfCounted};
ghost use Rattle.desk_book.specs.Answered.{ActsOnce, AnsweredInTurn, AreBlamed, says_closed};
ghost use Rattle.desk_book.specs.declared.requests.question.Question.TheVariants as questions;
ghost use Rattle.desk_book.specs.Asked.{asked_by, asked_with};
ghost use Rattle.desk_book.specs.Headline.{KeepsPromise};
ghost use Rattle.desk_book.specs.Held.{Holds, IfHolds, Steps};
ghost use Rattle.desk_engine.specs.Ready.{IsReady};
ghost use Rattle.desk_book.specs.Left.{AnswersRequest, EndsReport, LeavesDesk};
ghost use Rattle.desk_book.specs.Answering.{IsPerformed};
ghost use Rattle.desk_book.specs.RowByRow.{IsReported};
ghost use Rattle.desk_book.specs.Task.{IsFormed};
ghost use Rattle.desk_book.specs.WrittenTo.{Writes, WritesAsked, leaves_closed};

use crate::answers::answering::answer;
use crate::answers::head::Head;
use crate::answers::telling::{Report, tell_to};
use crate::fault::{Fault, ToFault};
use crate::requests::question::Request;
use crate::requests::task::{Task, task_of};
use desk_codes::{AccountId, Bic};
use desk_register::Register;
use desk_rules::Reply;
use desk_streams::Sink;
use std::alloc::{AllocError, Global};
use std::marker::Model;

/// A desk over a register. Where what a request began cannot be taken back, or the register does not show after a
/// fault that it holds what it held, the desk is closed from then on.
#[derive(Drop)]
pub struct Desk<R: Register> {
    register: R,
    /// Whether it answers nothing any more
    is_closed: bool,
}

/// Says that a desk was closed. Only a desk that is closed gives one, as it is given up.
#[derive(Drop)]
pub struct WasClosed {
    /// It has nothing to tell, and nobody else can make it
    nothing: (),
}

impl<R: Register> Model for Desk<R> {
    ghost use Rattle.desk_book.specs.DeskValue.{DeskValue, desk_code};
    ghost use Rattle.desk_engine.specs.Ready.{IsReady};

    ghost Value = { DeskValue R };

    ghost coded = { desk_code R.code };

    ghost view = { λ desk. record { register = desk.register; is_closed = desk.is_closed } };

    ghost invariant = { λ desk. IsReady desk.is_closed (R.view desk.register) };
}

impl<R: Register> Desk<R> {
    /// A desk over a register that keeps the tables of a history of well formed entries, with no `begin` open.
    pub fn new(register: R) -> Desk<R>
        requires { IsReady false (R.view register) }
        ensures register { result.register ≡ register }
        ensures open { result.is_closed ≡ false }
    {
        Desk {
            register,
            is_closed: false,
        }
    }

    /// The register, to be looked at.
    pub fn register(&self) -> &R
        ensures { result.now ≡ self.now.register }
    {
        &self.register
    }

    /// The register, as it stands now. That of an open desk is ready for another.
    pub fn into_register(self) -> R
        ensures register { result ≡ self.register }
        ensures ready { IsReady self.is_closed (R.view result) }
    {
        self.register
    }

    /// The register, as it stands now, and that the desk was closed, where it was.
    pub fn into_parts(self) -> (R, Option<WasClosed>)
        ensures register { result.0 ≡ self.register }
        ensures closed { is_some result.1 ≡ self.is_closed }
        ensures ready { IsReady self.is_closed (R.view result.0) }
    {
        let Desk {
            register,
            is_closed,
        } = self;
        if is_closed {
            (register, Some(WasClosed { nothing: () }))
        } else {
            (register, None)
        }
    }

    /// Whether the desk answers nothing any more.
    pub fn is_closed(&self) -> bool
        ensures { result ≡ self.now.is_closed }
    {
        self.is_closed
    }

    /// Answers a request. After `Memory` and `Storage` all is as before; after `Closed` the desk answers nothing
    /// any more.
    pub fn ask(&mut self, alloc: Global, request: &Request<'_>) -> Result<Reply, Fault>
        ensures step { IfHolds R.view self.old self.new (λ books.
            Steps (R.view self.old.register).room books (asked_by request.now) result self.new.is_closed (R.view self.new.register)) }
        ensures answers { AnswersRequest R.view R.in_memory result self.old self.new }
    {
        self.perform(alloc, task_of(alloc, request))
    }

    /// Writes what a participant's account holds straight to a writer, row by row as it is read: the text that `ask` answers
    /// to `Question::Holdings` of this participant with these bytes, which name the account. Gives its status and its type. No
    /// row is kept, so that no more memory is wanted for many rows than for one. The desk's tables stay.
    ///
    /// A refusal is no fault: status 422, and `refused 10` (the participant is none) or `refused 15` (the account is not
    /// its own, or none) is written.
    ///
    /// WriteFailed: the writer failed, or took no byte. Memory: a growth of memory was refused. Storage: the device failed.
    /// Lost: one of these two, and it cannot be shown that the tables are as before, so that the desk is closed from then on.
    /// After these three what was written, if anything, is a front of an answer. Closed: the desk was closed, and nothing was
    /// written.
    pub fn holdings_to<W: Sink>(
        &mut self,
        alloc: Global,
        owner: Bic,
        account: &[u8],
        writer: &mut W,
    ) -> Result<Head, ToFault>
        ensures written { IfHolds R.view self.old self.new (λ books.
            WritesAsked (R.view self.old.register).room books (asked_with (questions.Holdings owner) account.now) result (W.contents writer.old) (W.contents writer.new)) }
        ensures keeps { IfHolds R.view self.old self.new (λ books.
            Holds self.new.is_closed (R.view self.new.register) books × KeepsPromise self.new.is_closed (R.view self.new.register) books) }
        ensures ends { EndsReport R.view R.in_memory W.may_fail result self.old self.new writer.old writer.new }
    {
        let account = AccountId::read(account);
        self.report(alloc, Report::Holdings(owner, account), writer)
    }

    /// Writes the desk's totals straight to a writer, row by row as they are read: the text that `ask` answers to
    /// `Question::Sums`. Gives its status, 200, and no type. No row is kept. The desk's tables stay.
    ///
    /// The faults are those of `holdings_to`.
    pub fn sums_to<W: Sink>(&mut self, alloc: Global, writer: &mut W) -> Result<Head, ToFault>
        ensures written { IfHolds R.view self.old self.new (λ books.
            WritesAsked (R.view self.old.register).room books (asked_with questions.Sums []) result (W.contents writer.old) (W.contents writer.new)) }
        ensures keeps { IfHolds R.view self.old self.new (λ books.
            Holds self.new.is_closed (R.view self.new.register) books × KeepsPromise self.new.is_closed (R.view self.new.register) books) }
        ensures ends { EndsReport R.view R.in_memory W.may_fail result self.old self.new writer.old writer.new }
    {
        self.report(alloc, Report::Totals, writer)
    }

    /// Writes a report straight to a writer.
    fn report<W: Sink>(
        &mut self,
        alloc: Global,
        report: Report,
        writer: &mut W,
    ) -> Result<Head, ToFault>
        ensures written { IfHolds R.view self.old self.new (λ books.
            Writes (IsReported (R.view self.old.register).room books report) result (W.contents writer.old) (W.contents writer.new)) }
        ensures keeps { IfHolds R.view self.old self.new (λ books.
            Holds self.new.is_closed (R.view self.new.register) books × KeepsPromise self.new.is_closed (R.view self.new.register) books) }
        ensures ends { EndsReport R.view R.in_memory W.may_fail result self.old self.new writer.old writer.new }
    {
        if self.is_closed {
            return Err(ToFault::Closed);
        }
        let written = tell_to(alloc, &mut self.register, report, writer);
        self.is_closed = is_closed_after(&written);
        written
    }

    /// Answers requests, one after another. Room for the answers is taken first: where there is none, nothing was
    /// asked.
    pub fn ask_all(
        &mut self,
        alloc: Global,
        requests: &[Request<'_>],
    ) -> Result<Vec<Result<Reply, Fault>>, Fault>
        ensures in_turn { IfOk result (λ answers. IfHolds R.view self.old self.new (λ books.
            (last : Books) × AnsweredInTurn (R.view self.old.register).room self.old.is_closed books (map asked_by requests.now) answers.items self.new.is_closed last
            × Holds self.new.is_closed (R.view self.new.register) last
            × KeepsPromise self.new.is_closed (R.view self.new.register) last
            × ActsOnce (R.view self.old.register).room books (map asked_by requests.now) answers.items last)) }
        ensures err { OnErr result (self.new ≡ self.old) }
        ensures memory { IfErr result (λ fault. fault ≡ Fault.Memory) }
        ensures left { LeavesDesk R.view R.in_memory self.old self.new }
        ensures stays { self.old.is_closed ≡ true → IfOk result (λ answers. All (λ answer. says_closed answer ≡ true) answers.items) }
        ensures blame { IfOk result (λ answers. IfCounted (R.view self.new.register) (AreBlamed answers.items (R.view self.old.register).device.failures (R.view self.new.register).device.failures)) }
    {
        let Ok(mut answers) = Vec::with_capacity(alloc, requests.len()) else {
            return Err(Fault::Memory);
        };
        'requests: for request in requests {
            let answer = self.ask(alloc, request);
            answers.push(answer).unwrap();
        }
        Ok(answers)
    }

    /// Answers what a request is read as, where there was memory to read it.
    fn perform(&mut self, alloc: Global, task: Result<Task, AllocError>) -> Result<Reply, Fault>
        requires formed { IfOk task (λ task. IsFormed task) }
        ensures answered { IfHolds R.view self.old self.new (λ books.
            IsPerformed (R.view self.old.register).room books task result self.new.is_closed (R.view self.new.register)) }
        ensures answers { AnswersRequest R.view R.in_memory result self.old self.new }
    {
        if self.is_closed {
            return Err(Fault::Closed);
        }
        let Ok(task) = task else {
            return Err(Fault::Memory);
        };
        let answer = answer(alloc, &mut self.register, task);
        self.is_closed = is_closed_by(&answer);
        answer
    }
}

/// Whether an answer that was written, or was not, says that the desk is closed.
fn is_closed_after(written: &Result<Head, ToFault>) -> bool
    ensures { result ≡ leaves_closed written.now }
{
    match written {
        Err(ToFault::Closed | ToFault::Lost) => true,
        _ => false,
    }
}

/// Whether an answer says that the desk is closed.
fn is_closed_by(answer: &Result<Reply, Fault>) -> bool
    ensures { result ≡ says_closed answer.now }
{
    match answer {
        Err(Fault::Closed) => true,
        _ => false,
    }
}
