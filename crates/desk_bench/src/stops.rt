//! A script, played over files in memory that fail from some call on, and what is left of them.

use crate::failure::Failure;
use crate::tables::{Deed, do_over_tables};
use desk_file::adopt;
use desk_rules::MOST_ENTRIES;
use sqlite::{Connection, FileStore, Files, Options};
use sqlite_disk::{Crash, Disk, Fuse, Memory};
use std::io::Read;

/// Any number will do for the log's salts.
const SALT: u64 = 7;

/// So many calls each of two files takes; every later one fails, until the machine comes back.
#[derive(Clone, Copy)]
pub struct Stops {
    pub log: u64,
    pub db: u64,
}

/// Plays the script of standard input on a desk that is adopted in new files with these stops, and closes them. Then the machine
/// comes back, with what was synced alone: the desk of the files is told of; the script is played once more; and it is told of
/// again. Each time a line behind it says `closed` or `unclosed`, or it is the fault of a desk that is not adopted, or `unopened`.
pub fn play_stopped(rt: &HostRuntime, stops: Stops) -> Result<bool, Failure> {
    let mut script = Vec::new(rt.alloc());
    rt.reader().read_to_end(&mut script)?;
    let files = Files {
        log: Fuse::new(Memory::new(rt.alloc()), stops.log),
        db: Fuse::new(Memory::new(rt.alloc()), stops.db),
    };
    let files = do_on_files(rt, files, Deed::PlayThis(&script))?;
    let files = do_on_files(rt, come_back(files), Deed::Tell)?;
    let files = do_on_files(rt, come_back(files), Deed::PlayThis(&script))?;
    do_on_files(rt, come_back(files), Deed::Tell)?;
    Ok(true)
}

/// What a machine finds that crashed and comes back.
fn come_back<D: Crash>(files: Files<D>) -> Files<D> {
    let Files { mut log, mut db } = files;
    log.crash();
    db.crash();
    Files { log, db }
}

/// Does it over the desk of such files, which are closed and given back.
fn do_on_files<D: Disk + Drop>(
    rt: &HostRuntime,
    files: Files<D>,
    deed: Deed<'_>,
) -> Result<Files<D>, Failure> {
    if !files.may_be_used() {
        return Err(Failure::Storage);
    }
    match Connection::open_files(rt.alloc(), files, Options::new(SALT)) {
        Ok(conn) => do_on_connection(rt, conn, deed),
        Err((_, left)) => {
            println!(rt; "unopened")?;
            Ok(left.into_files())
        }
    }
}

/// The same over what a connection holds.
fn do_on_connection<D: Disk + Drop>(
    rt: &HostRuntime,
    conn: Connection<FileStore<D>>,
    deed: Deed<'_>,
) -> Result<Files<D>, Failure> {
    match adopt(rt.alloc(), conn, MOST_ENTRIES) {
        Ok(both) => end(rt, do_over_tables(rt, both, deed)?),
        Err((fault, store)) => {
            println!(rt; "fault {}\nunclosed", fault.number())?;
            Ok(store.close())
        }
    }
}

/// Closes files, and tells whether they could be.
fn end<D: Disk + Drop>(
    rt: &HostRuntime,
    conn: Connection<FileStore<D>>,
) -> Result<Files<D>, Failure> {
    match conn.close_files() {
        Ok(files) => {
            println!(rt; "closed")?;
            Ok(files)
        }
        Err((_, store)) => {
            println!(rt; "unclosed")?;
            Ok(store.close())
        }
    }
}
