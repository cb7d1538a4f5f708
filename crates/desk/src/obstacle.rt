//! What stands in the way of a file, as far as the system tells. No clause speaks of it.

use std::fs::File;
use std::io::ErrorKind;
use std::rt::HostRuntime;
use std::{fs, io};

/// What stands in the way of a file that could not be opened.
#[derive(Drop)]
pub enum Obstacle {
    /// The folder in which it would stand is not there, is none, or cannot be looked at.
    NoFolder(io::Error),
    /// It is not there, and cannot be made there.
    Unmade,
    /// It cannot be opened to be read and written.
    Closed(io::Error),
    /// A journal stands beside it, with changes of another program that came to no end.
    Journal,
    /// Its log cannot be opened to be read and written.
    Log(io::Error),
    /// None is found: another program has it open, or had, or the device failed.
    NoneFound,
}

/// What stands in the way of the file of a path, which could not be opened.
pub fn obstacle_to(rt: &HostRuntime, path: &str) -> io::Result<Obstacle> {
    match open(rt, path) {
        Err(error) if error.kind() == ErrorKind::NotFound => Ok(obstacle_to_making(rt, path)),
        Err(error) => Ok(Obstacle::Closed(error)),
        Ok(()) => obstacle_beside(rt, path),
    }
}

/// Shows that a file may be read and written.
fn open(rt: &HostRuntime, path: &str) -> io::Result<()> {
    let file = File::options().read(true).write(true).open(rt, path)?;
    drop(file);
    Ok(())
}

/// What stands in the way of making one that is not there.
fn obstacle_to_making(rt: &HostRuntime, path: &str) -> Obstacle {
    let folder = match path.rsplit_once('/') {
        None => ".",
        Some(("", _)) => "/",
        Some((folder, _)) => folder,
    };
    match fs::read_dir(rt, folder) {
        Ok(_) => Obstacle::Unmade,
        Err(error) => Obstacle::NoFolder(error),
    }
}

/// What stands beside one that may be read and written.
fn obstacle_beside(rt: &HostRuntime, path: &str) -> io::Result<Obstacle> {
    let journal = format!(in rt.alloc(); "{path}-journal")?;
    if fs::exists(rt, journal.as_str())? {
        return Ok(Obstacle::Journal);
    }
    let log = format!(in rt.alloc(); "{path}-wal")?;
    match open(rt, log.as_str()) {
        Err(error) if error.kind() != ErrorKind::NotFound => Ok(Obstacle::Log(error)),
        _ => Ok(Obstacle::NoneFound),
    }
}
