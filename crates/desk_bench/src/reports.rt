//! Statements and sums, written straight to a writer.

use crate::failure::Failure;
use crate::in_memory::new_desk;
use desk_book::{Desk, Question};
use desk_codes::{Bic, check_digit};
use desk_streams::Sink;
use memory_register::ListRegister;
use std::alloc::Global;
use std::io;

/// What is written.
#[derive(Clone, Copy)]
pub enum Form {
    /// The statement of an account
    Statement,
    /// The totals
    Sums,
}

/// A participant, its account, and a currency of which some is paid in.
const OPENING: [&[u8]; 3] = [
    br#"{"op":"participant","ref":"P1","bic":"ALPHDEFF"}"#,
    br#"{"op":"account","ref":"C1","bic":"ALPHDEFF","account":"A-1"}"#,
    br#"{"op":"payin","ref":"M1","bic":"ALPHDEFF","ccy":"EUR","amount":100050}"#,
];

/// Writes the statement of an account that holds so many securities, or the totals of as many, to standard output.
pub fn print(rt: &(impl Print + AllocGlobal), form: Form, count: u32) -> Result<bool, Failure> {
    let mut desk = new_desk(rt.alloc());
    write_report(rt.alloc(), &mut desk, form, count, &mut io::writer(rt))
}

/// Writes a line, once all is ready, and then the report.
fn write_report<W: Sink>(
    alloc: Global,
    desk: &mut Desk<ListRegister>,
    form: Form,
    count: u32,
    writer: &mut W,
) -> Result<bool, Failure> {
    for command in &OPENING {
        order(alloc, desk, command)?;
    }
    for number in 0..count {
        issue(alloc, desk, number)?;
    }
    writer.put(b"begins\n")?;
    match form {
        Form::Statement => {
            let owner = Bic::parse(b"ALPHDEFF").map_err(|_| Failure::Form)?;
            desk.holdings_to(alloc, owner, b"A-1", writer)?;
        }
        Form::Sums => {
            desk.sums_to(alloc, writer)?;
        }
    }
    Ok(true)
}

/// Registers a security of its own for each number, and issues a million units of it.
fn issue(alloc: Global, desk: &mut Desk<ListRegister>, number: u32) -> Result<(), Failure> {
    let mut body = *b"US000000000";
    write_digits(&mut body[2..], number);
    let check = check_digit(body).ok_or(Failure::Form)?;
    let isin = str::from_utf8(&body).map_err(|_| Failure::Form)?;
    let security = format!(in alloc;
        "{{\"op\":\"security\",\"ref\":\"S{number}\",\"isin\":\"{isin}{check}\",\"kind\":\"UNIT\"}}"
    )?;
    order(alloc, desk, security.as_bytes())?;
    let issue = format!(in alloc;
        "{{\"op\":\"issue\",\"ref\":\"I{number}\",\"account\":\"A-1\",\"isin\":\"{isin}{check}\",\"quantity\":1000000}}"
    )?;
    order(alloc, desk, issue.as_bytes())
}

/// Fills a place with the last digits of a number.
fn write_digits(slots: &mut [u8], number: u32) {
    let mut rest = number;
    for slot in slots.iter_mut().rev() {
        *slot = b'0' + (rest % 10) as u8;
        rest /= 10;
    }
}

/// Asks for an operator's command, which is accepted.
fn order(alloc: Global, desk: &mut Desk<ListRegister>, command: &[u8]) -> Result<(), Failure> {
    let reply = desk.ask(alloc, &Question::Operator.with(command))?;
    if reply.status == 200 {
        Ok(())
    } else {
        Err(Failure::Refused)
    }
}
