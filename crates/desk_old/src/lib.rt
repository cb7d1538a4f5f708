//! Files of earlier versions: the entries that they hold.
//!
//! `old_entries` opens the file of a path, and `old_entries_from` takes the database of a connection over. Either is audited as the
//! desk's own is at an opening (`audit_version` of `desk_file`), but as a file of version 1 or 2, and the entries of the accepted
//! history that it holds are given. The file is read, and stays as it was. Begin with specs/Old.antt.
//!
//! What these versions have stands in `sql_tables` (specs/Versions.antt), `sql_entries` (specs/Told.antt) and `sql_rows`
//! (specs/StandingsTold.antt).
#![tactic(auto)]

mod held;
mod opening;
mod reading;

pub use opening::{old_entries, old_entries_from};
