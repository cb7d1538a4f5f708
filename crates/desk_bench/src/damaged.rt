//! What a call that reads the desk's tables answers of a damaged row: of one that no call of the desk writes, though the
//! tables take it. The row is put in sound and then changed.

mod calls;
mod keys;

use crate::damaged::keys::Keys;
use crate::failure::Failure;
pub use calls::Call;
use sql_tables::making::make_tables;
use sql_tables::session::Session;
use sql_tables::values::CORRUPT;
use sqlite::{Connection, Error, ErrorCode, MemStore};
use std::alloc::Global;

/// What came of a row.
#[derive(Clone, Copy)]
enum Outcome {
    /// The tables do not take it
    Refused,
    /// The call answered that the database is damaged
    Damaged,
    /// It answered with another error
    Failed,
    /// It read something
    Read,
    /// It answered that there is nothing
    Nothing,
}

impl Outcome {
    /// The word that tells it.
    fn as_str(self) -> &'static str {
        match self {
            Outcome::Refused => "refused",
            Outcome::Damaged => "damaged",
            Outcome::Failed => "failed",
            Outcome::Read => "read",
            Outcome::Nothing => "nothing",
        }
    }
}

/// Prints what a call answers where a statement put a row into new tables, and another, if one is given, damaged it.
pub fn tell(
    rt: &(impl Print + AllocGlobal),
    call: Call,
    row: &str,
    change: Option<&str>,
) -> Result<bool, Failure> {
    let alloc = rt.alloc();
    let keys = Keys::new(alloc)?;
    let mut conn = with_row(alloc, row)?;
    let outcome = match change {
        Some(change) if !is_taken(&mut conn, change)? => Outcome::Refused,
        _ => outcome_of(call.answer(&mut conn, alloc, &keys))?,
    };
    println!(rt; "{}", outcome.as_str())?;
    Ok(true)
}

/// A new database in memory, with the desk's tables and a row in them.
fn with_row(alloc: Global, row: &str) -> Result<Connection<MemStore>, Error> {
    let mut conn = Connection::open_in_memory(alloc)?;
    make_tables(&mut conn)?;
    conn.execute(row, &[])?;
    Ok(conn)
}

/// Changes rows. Gives whether the tables take what they become.
fn is_taken<S: Session>(conn: &mut S, change: &str) -> Result<bool, Error> {
    match conn.execute(change, &[]) {
        Ok(_) => Ok(true),
        Err(Error::SqliteFailure(ErrorCode::ConstraintViolation(_))) => Ok(false),
        Err(error) => Err(error),
    }
}

/// What an answer of a call is; whether it found something, or its error. Want of memory says nothing of the row.
fn outcome_of(answer: Result<bool, Error>) -> Result<Outcome, Error> {
    match answer {
        Ok(true) => Ok(Outcome::Read),
        Ok(false) => Ok(Outcome::Nothing),
        Err(Error::SqliteFailure(ErrorCode::OutOfMemory)) => Err(Error::SqliteFailure(
            ErrorCode::OutOfMemory,
        )),
        Err(error) if error == CORRUPT => Ok(Outcome::Damaged),
        Err(_) => Ok(Outcome::Failed),
    }
}
