//! What people are told as a file is opened.

use desk_rules::Entry;
use sqlite::Error;

/// Who is told how far a reading is, and what was met on the way. What is read does not rest on it.
pub trait Progress {
    /// So many entries are taken in, and this is the last of them.
    fn taken(&mut self, count: u64, entry: &Entry);

    /// The tables of a database that is not opened say this number of their version.
    fn says_version(&mut self, number: i64);

    /// The library tells this of files that are not opened.
    fn failed(&mut self, error: &Error);
}

/// Nobody is told.
#[derive(Drop)]
pub struct Silent;

impl Progress for Silent {
    fn taken(&mut self, _count: u64, _entry: &Entry) {}

    fn says_version(&mut self, _number: i64) {}

    fn failed(&mut self, _error: &Error) {}
}
