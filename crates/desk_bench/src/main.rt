//! The bench, which the tests and the benchmark run in place of the program: `desk_bench KIND ..`. What it is asked for is
//! a `Work`.
//!
//! `connection SENT RESPONSE [SETUP]`, the names of files, tries what a connection sends, and the response that is wanted,
//! in each way in which the bytes may come and go, for `tests/parts/http cases`. The setup is a script that is played on the desk
//! first. Each way counts; the last line says 'N passed, M failed'.
//!
//! `play`, or no word, plays a script from standard input on a new desk whose register is in memory and in SQL tables, which
//! stand in memory too, and `play FILE [LIMIT]` on the desk of that file, which may have so many entries, and is made where there
//! is none. `tables` and `tables FILE` do it over the tables alone. What is printed and the exit status are those of `desk play`;
//! a file that is not opened is `fault N`, N being the number of an `OpenFault`, with status 3. The file is left as a killed
//! process would leave it, with its log.
//!
//! `open FILE [LIMIT]` opens the desk of a file, which may have so many entries, prints its sums and how many it has, and closes
//! it.
//!
//! `adopt` plays a script on tables in memory, leaves a change under way in them, and takes them over again: it prints what `open`
//! prints, behind the answers.
//!
//! `stopped LOG DB` plays a script on a desk whose two files lie in memory and fail behind so many calls, and again once the machine
//! has come back, for `tests/parts/refuse stops`.
//!
//! `damaged CALL ROW [CHANGE]` tells what a call that reads the tables answers of a row, for `tests/parts/files damaged`: ROW is a
//! statement that puts it into new tables, and CHANGE one that damages it.
//!
//! `schema FILE` opens a file and tells `ours` where its schema is the desk's, else `not ours`, for `tests/parts/files opened`.
//!
//! `statement COUNT` and `sums COUNT` write the statement of an account that holds so many securities, or the totals of as
//! many, straight to standard output, for `tests/parts/cases bounded_memory`.
#![tactic(auto)]

mod connections;
mod damaged;
mod failure;
mod in_memory;
mod opening;
mod reports;
mod stops;
mod streams;
mod tables;
mod work;

use crate::failure::Failure;
use crate::work::Work;
use std::env;
use std::process::ExitCode;

/// The exit statuses: of what was done or passed, of a difference, of other words, and of a fault.
const DONE: u8 = 0;

const DIFFERS: u8 = 1;

const USAGE: u8 = 2;

const FAULT: u8 = 3;

fn main(rt: HostRuntime) -> ExitCode {
    ExitCode::from(match answer(&rt) {
        Ok(status) => status,
        Err(failure) => tell(&rt, failure),
    })
}

/// Does what the words ask for. Gives the exit status.
fn answer(rt: &HostRuntime) -> Result<u8, Failure> {
    let words: Vec<String> = env::args(rt)?.collect(rt.alloc())?;
    let Some(work) = Work::read(&words) else {
        return Ok(USAGE);
    };
    Ok(if done(rt, work)? { DONE } else { DIFFERS })
}

/// Does a work. Whether there was no difference.
fn done(rt: &HostRuntime, work: Work<'_>) -> Result<bool, Failure> {
    match work {
        Work::Connection {
            sent,
            response,
            setup,
        } => connections::try_files(rt, sent, response, setup),
        Work::Play(registers, path, limit) => tables::play_script(rt, registers, path, limit),
        Work::Adopt => tables::tell_adopted(rt),
        Work::Damaged { call, row, change } => damaged::tell(rt, call, row, change),
        Work::Open(path, limit) => tables::tell(rt, path, limit),
        Work::Stopped(stops) => stops::play_stopped(rt, stops),
        Work::Schema(path) => opening::tell_schema(rt, path),
        Work::Report(form, count) => reports::print(rt, form, count),
    }
}

/// Tells a failure, and gives its status. Where nothing can be written the status alone tells it.
fn tell(rt: &impl Print, failure: Failure) -> u8 {
    let _ = match failure {
        Failure::Memory => println!(rt; "fault 60"),
        Failure::Storage => println!(rt; "fault 61"),
        Failure::Unopened(fault) => println!(rt; "fault {}", fault.number()),
        Failure::Input => println!(rt; "fault io"),
        Failure::Stream => Ok(()),
        _ => println!(rt; "{failure:?}"),
    };
    FAULT
}
