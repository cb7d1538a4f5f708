//! A file is opened, and its schema looked at.

use crate::failure::Failure;
use desk_file::{has_desk_tables, open_in_order};
use sql_tables::versions::Version;
use sqlite::Unknown;

/// Tells of a file whether its schema is the desk's. The file is left as it is, but that a new one is made where there is none.
pub fn tell_schema(rt: &HostRuntime, path: &str) -> Result<bool, Failure> {
    let told = if is_ours(rt, path)? {
        "ours"
    } else {
        "not ours"
    };
    println!(rt; "{told}")?;
    Ok(true)
}

/// Whether it is. The file is closed then.
fn is_ours(rt: &HostRuntime, path: &str) -> Result<bool, Failure> {
    match open_in_order(rt, path, Unknown) {
        Ok(conn) => {
            let is_ours = has_desk_tables(&conn, Version::Third);
            conn.close()?;
            Ok(is_ours)
        }
        Err((error, _)) => Err(Failure::from(error)),
    }
}
