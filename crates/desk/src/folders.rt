//! The folders of `desk drop`: the files that come in, and the answers that go out. No clause speaks of what stands in them.

use crate::teller::Teller;
use desk_text::LONGEST_TEXT;
use std::fs::{DirEntry, File, Files};
use std::io::{Read, Write};
use std::path::Path;
use std::rt::HostRuntime;
use std::{fs, io};

/// So many bytes of a file are read at most: one more than a message or a command may have.
const READ_AT_MOST: u64 = LONGEST_TEXT as u64 + 1;

/// An answer is written under this name beside its own until it is whole.
const UNFINISHED: &str = ".desk-drop-unfinished";

/// The name of an answer is that of its file with this behind it.
pub const BEHIND: &str = ".out";

/// So many bytes the name of a file has at most.
const LONGEST_NAME: usize = 255;

/// A file that was read.
#[derive(Drop)]
pub struct Found {
    pub name: String,
    pub bytes: Vec<u8>,
}

/// Reads the files of a folder, in the order in which the system lists them. Folders in it are passed over, and what an
/// unfinished answer left. People are told what fails.
pub fn read_folder(rt: &HostRuntime, folder: &str, teller: &Teller<'_>) -> io::Result<Vec<Found>> {
    let mut found = Vec::new(rt.alloc());
    for entry in teller.told(folder, fs::read_dir(rt, folder))? {
        let entry = named(rt, folder, entry, teller)?;
        let name = entry.file_name();
        if name == UNFINISHED || !teller.told_in(folder, name, is_file(rt, entry.path(), name))? {
            continue;
        }
        let file = teller.told_in(folder, name, read_file(rt, entry.path(), name))?;
        found.push(file)?;
        teller.has_read(found.len());
    }
    Ok(found)
}

/// Hands a file of a folder on. People are told where its name is not UTF-8, and where it cannot be had.
fn named(
    rt: &HostRuntime,
    folder: &str,
    entry: io::Result<DirEntry>,
    teller: &Teller<'_>,
) -> io::Result<DirEntry> {
    match &entry {
        Err(error) if error.kind() == io::ErrorKind::InvalidFilename => {
            teller.told(folder, tell_odd_name(rt, folder, teller))?;
            entry
        }
        _ => teller.told(folder, entry),
    }
}

/// Tells the first name in a folder that is not UTF-8.
fn tell_odd_name(rt: &HostRuntime, folder: &str, teller: &Teller<'_>) -> io::Result<()> {
    let mut names = Vec::new(rt.alloc());
    rt.open_dir(folder)?.read_to_end(&mut names)?;
    for name in names.split(|c| *c == 0) {
        if str::from_utf8(name).is_err() {
            teller.odd_name(folder, name);
            return Ok(());
        }
    }
    Ok(())
}

/// Whether it is a file, whose answer can have its name; else it is a folder. To read what is neither may never end.
fn is_file(rt: &HostRuntime, path: Path<'_>, name: &str) -> io::Result<bool> {
    let kind = fs::metadata(rt, path)?.file_type();
    if kind.is_dir() {
        return Ok(false);
    }
    if !kind.is_file() {
        return Err(io::Error::from(io::ErrorKind::Unsupported));
    }
    if name.len() > LONGEST_NAME - BEHIND.len() {
        return Err(io::Error::from(io::ErrorKind::InvalidFilename));
    }
    Ok(true)
}

/// Reads a file, as far as it counts.
fn read_file(rt: &HostRuntime, path: Path<'_>, name: &str) -> io::Result<Found> {
    let mut bytes = Vec::new(rt.alloc());
    fs::open(rt, path)?
        .take(READ_AT_MOST)
        .read_to_end(&mut bytes)?;
    let name = String::from_str(rt.alloc(), name)?;
    Ok(Found { name, bytes })
}

/// Shows that answers can be written to a folder. People are told where they cannot.
pub fn try_folder(rt: &HostRuntime, folder: &str, teller: &Teller<'_>) -> io::Result<()> {
    teller.told(folder, write_and_remove(rt, folder))
}

/// Writes a file into a folder, and removes it.
fn write_and_remove(rt: &HostRuntime, folder: &str) -> io::Result<()> {
    let unfinished = Path::new(folder).join(rt.alloc(), UNFINISHED)?;
    make_way(rt, unfinished.as_path())?;
    drop(File::create_new(rt, unfinished.as_path())?);
    fs::remove_file(rt, unfinished.as_path())
}

/// Writes an answer under this name to a folder, over an older one. It appears there whole, or not at all. People are told where
/// that fails.
pub fn put_answer(
    rt: &HostRuntime,
    folder: &str,
    name: &str,
    answer: &[u8],
    teller: &Teller<'_>,
) -> io::Result<()> {
    teller.told_in(folder, name, write_and_rename(rt, folder, name, answer))
}

/// Writes a file under another name into a folder, and renames it.
fn write_and_rename(rt: &HostRuntime, folder: &str, name: &str, bytes: &[u8]) -> io::Result<()> {
    let unfinished = Path::new(folder).join(rt.alloc(), UNFINISHED)?;
    let finished = Path::new(folder).join(rt.alloc(), name)?;
    write_through(rt, unfinished.as_path(), bytes)?;
    fs::rename(rt, unfinished.as_path(), finished.as_path())
}

/// Writes a file, and has the device keep it.
fn write_through(rt: &HostRuntime, path: Path<'_>, bytes: &[u8]) -> io::Result<()> {
    make_way(rt, path)?;
    let mut file = File::create_new(rt, path)?;
    file.write_all(bytes)?;
    file.sync_all()
}

/// Removes what stands in the place of a new file, which may be one that was left, or a link, or a named pipe.
pub fn make_way(rt: &HostRuntime, path: Path<'_>) -> io::Result<()> {
    match fs::symlink_metadata(rt, path) {
        Ok(_) => fs::remove_file(rt, path),
        Err(_) => Ok(()),
    }
}
