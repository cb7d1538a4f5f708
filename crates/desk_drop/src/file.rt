//! The files of a folder, and what is answered to them.

use desk_book::Fault;
use desk_rules::Reply;

/// A file: its name in the folder, without a path, and what it holds.
#[derive(Clone, Copy)]
pub struct DropFile<'a> {
    pub name: &'a str,
    pub bytes: &'a [u8],
}

/// The answer to a file.
#[derive(Drop)]
pub struct DropReply {
    /// The place of the file among those that were handed over, counted from 0
    pub index: usize,
    pub answer: Result<Reply, Fault>,
}
