//! A script, played over a register in memory beside tables in SQL, or over the tables alone; and what a file holds.

ghost use Rattle.std.specs.Prelude.{false};
ghost use Rattle.desk_engine.specs.Ready.{IsReady};
ghost use Rattle.desk_file.specs.Both.{shown as shown_of_both};
ghost use Rattle.desk_file.specs.Opened.{view_of_both};
ghost use Rattle.sql_register.specs.Kept.{shown};

use crate::failure::Failure;
use desk_book::Desk;
use desk_file::{MirroredRegister, Silent, adopt, adopt_tables, open_file, open_tables};
use desk_register::{MemoryRegister, Register, ToldRegister};
use desk_rules::MOST_ENTRIES;
use desk_streams::Source;
use memory_register::ListRegister;
use sql_register::{Session, SqlRegister};
use sqlite::{Connection, MemStore, Unknown};
use std::io;

/// What a script is played over.
#[derive(Clone, Copy)]
pub enum Registers {
    /// A register in memory, and the tables
    Both,
    /// The tables alone
    Tables,
}

impl Registers {
    /// Those of a word; None where it names none.
    pub fn read(word: &str) -> Option<Registers> {
        match word {
            "play" => Some(Registers::Both),
            "tables" => Some(Registers::Tables),
            _ => None,
        }
    }
}

/// What is done over a register.
#[derive(Clone, Copy)]
pub enum Deed<'a> {
    /// The script of standard input is played
    Play,
    /// This script is played
    PlayThis(&'a [u8]),
    /// Its sums are told, and how many entries it has
    Tell,
}

/// Plays a script on a desk over a register, prints the answers, and gives the register back.
fn play<D: Register + Drop, R: Source>(
    rt: &HostRuntime,
    register: D,
    reader: &mut R,
) -> Result<D, Failure>
    requires { IsReady false (D.view register) }
{
    let mut desk = Desk::new(register);
    desk.play(rt.alloc(), reader, &mut io::writer(rt))?;
    Ok(desk.into_register())
}

/// Plays the script of standard input over tables alone.
fn play_over_tables<S: Session + Drop>(
    rt: &HostRuntime,
    tables: SqlRegister<S>,
) -> Result<(), Failure>
    requires { IsReady false (shown (S.state tables.connection) tables.stage tables.room) }
{
    play(rt, tables, &mut rt.stdin())?;
    Ok(())
}

/// Plays the script of standard input over tables in memory, or over those of a file, which may have so many entries.
pub fn play_script(
    rt: &HostRuntime,
    registers: Registers,
    path: Option<&str>,
    limit: u64,
) -> Result<bool, Failure> {
    match (path, registers) {
        (Some(path), Registers::Both) => do_on_file(rt, path, limit, Deed::Play)?,
        (Some(path), Registers::Tables) => play_on_tables(rt, path)?,
        (None, Registers::Both) => drop(play_in_memory(rt)?),
        (None, Registers::Tables) => play_on_tables_in_memory(rt)?,
    }
    Ok(true)
}

fn play_in_memory(rt: &HostRuntime) -> Result<Connection<MemStore>, Failure> {
    let conn = Connection::open_in_memory(rt.alloc())?;
    do_on_adopted(rt, conn, Deed::Play)
}

fn play_on_tables_in_memory(rt: &HostRuntime) -> Result<(), Failure> {
    let conn = Connection::open_in_memory(rt.alloc())?;
    match adopt_tables(rt.alloc(), conn, MOST_ENTRIES) {
        Ok(tables) => play_over_tables(rt, tables),
        Err((fault, _)) => Err(Failure::from(fault)),
    }
}

fn play_on_tables(rt: &HostRuntime, path: &str) -> Result<(), Failure> {
    match open_tables(rt, path, Unknown, MOST_ENTRIES) {
        Ok(tables) => play_over_tables(rt, tables),
        Err((fault, _)) => Err(Failure::from(fault)),
    }
}

/// Prints the sums of a register, and how many entries it has, and gives it back.
fn tell_of<D: Register + Drop>(rt: &HostRuntime, register: D) -> Result<D, Failure>
    requires { IsReady false (D.view register) }
{
    let mut desk = Desk::new(register);
    desk.sums_to(rt.alloc(), &mut io::writer(rt))?;
    let mut register = desk.into_register();
    let count = register.count(rt.alloc())?;
    println!(rt; "entries {count}")?;
    Ok(register)
}

/// Does it over a register, and gives that back.
fn do_over<D: Register + Drop>(rt: &HostRuntime, register: D, deed: Deed<'_>) -> Result<D, Failure>
    requires { IsReady false (D.view register) }
{
    match deed {
        Deed::Play => play(rt, register, &mut rt.stdin()),
        Deed::PlayThis(script) => {
            let mut reader = script;
            play(rt, register, &mut reader)
        }
        Deed::Tell => tell_of(rt, register),
    }
}

/// The same over tables with a register in memory beside them, of which the tables are given back. (One type after another is
/// told to the functions that are called: all at once the check takes twice as long.)
fn do_over_both<M: MemoryRegister + Drop, T: ToldRegister + Drop>(
    rt: &HostRuntime,
    both: MirroredRegister<M, T>,
    deed: Deed<'_>,
) -> Result<T, Failure>
    requires { IsReady false (shown_of_both (M.view both.memory) both.stage (T.view both.tables)) }
{
    let (_, tables) = do_over(rt, both, deed)?.into_parts();
    Ok(tables)
}

/// The same, of which the connection is given back.
pub fn do_over_tables<S: Session + Drop>(
    rt: &HostRuntime,
    both: MirroredRegister<ListRegister, SqlRegister<S>>,
    deed: Deed<'_>,
) -> Result<S, Failure>
    requires { IsReady false (view_of_both S.state both) }
{
    Ok(do_over_both(rt, both, deed)?.into_connection())
}

/// The same over what a connection holds, which is adopted.
fn do_on_adopted(
    rt: &HostRuntime,
    conn: Connection<MemStore>,
    deed: Deed<'_>,
) -> Result<Connection<MemStore>, Failure> {
    match adopt(rt.alloc(), conn, MOST_ENTRIES) {
        Ok(both) => do_over_tables(rt, both, deed),
        Err((fault, _)) => Err(Failure::from(fault)),
    }
}

/// The same over the desk of a file, which is opened for so many entries. A file that is told of is closed.
fn do_on_file(rt: &HostRuntime, path: &str, limit: u64, deed: Deed<'_>) -> Result<(), Failure> {
    match open_file(rt, path, Unknown, limit.min(MOST_ENTRIES), &mut Silent) {
        Ok(both) => {
            let conn = do_over_tables(rt, both, deed)?;
            if let Deed::Tell = deed {
                conn.close()?;
            }
            Ok(())
        }
        Err((fault, _)) => Err(Failure::from(fault)),
    }
}

/// Opens the desk of a file for so many entries, prints its sums and how many it has, and closes the file.
pub fn tell(rt: &HostRuntime, path: &str, limit: u64) -> Result<bool, Failure> {
    do_on_file(rt, path, limit, Deed::Tell)?;
    Ok(true)
}

/// Plays the script of standard input over tables in memory, takes their connection back and leaves a change under way in it: all
/// entries are deleted. Then it is adopted, and told of as `tell` tells of a file.
pub fn tell_adopted(rt: &HostRuntime) -> Result<bool, Failure> {
    let mut conn = play_in_memory(rt)?;
    conn.execute("BEGIN", &[])?;
    conn.execute("DELETE FROM register", &[])?;
    do_on_adopted(rt, conn, Deed::Tell)?;
    Ok(true)
}
