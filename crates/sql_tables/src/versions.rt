//! The versions of a file of the desk. Which tables each has, and what their rows say, stands in specs/Versions.antt and in the
//! crates of the tables.
ghost use Rattle.std.specs.Prelude.{◌≡◌};
ghost use Rattle.sql_tables.specs.Versions.{number_of_version};

use crate::version::VERSION;

/// The version of a file.
#[derive(Clone, Copy)]
pub enum Version {
    /// The accepted entries with their replies, and nothing that follows from them. Each run is of one pass.
    First,
    /// All tables. The kind of a run tells its rule, and no row tells whether a cancellation was requested.
    Second,
    /// All tables, as this program writes them.
    Third,
}

impl Version {
    /// Its number, as the row of `version` says it.
    pub fn number(self) -> u64
        ensures { result ≡ number_of_version self }
    {
        match self {
            Version::First => 1,
            Version::Second => 2,
            Version::Third => VERSION,
        }
    }
}
