//! Why a database is not opened.
ghost use Rattle.std.specs.Prelude.{◌≡◌, ◌≢◌};
ghost use Rattle.desk_file.specs.Faults.{audit_fault_for, fault_for, files_fault_for, number_of_fault, opening_fault_for, IsRefusal};

use crate::audit::rest::Table;
use desk_register::Fault;
use sql_tables::fault::AuditFault;
use sqlite::{Error, ErrorCode};

/// In what a database differs from those of the desk. Of several differences one is told.
#[derive(Clone, Copy, Debug)]
pub enum Difference {
    /// It is no database, or a damaged one.
    NoDatabase,
    /// It has other tables, or others beside.
    OtherTables,
    /// The row of this number in `register` is not that of an entry which is accepted behind those before it, with its reply, or
    /// is one more than the limit; or it lacks, and there are rows of other numbers.
    Entry(u64),
    /// This table says something else than the entries come to.
    Table(Table),
}

/// Why a database is not opened.
#[derive(Clone, Copy, Debug)]
pub enum OpenFault {
    /// It is none of the desk's, since it differs so (50).
    NotOurFile(Difference),
    /// Its tables are of another version (51).
    OtherVersion,
    /// Memory is wanting (60).
    Memory,
    /// The device failed, or the file cannot be opened, or another program has it (61).
    Storage,
}

impl OpenFault {
    /// The number that is told.
    pub fn number(self) -> u8
        ensures { result ≡ number_of_fault self }
    {
        match self {
            OpenFault::NotOurFile(_) => 50,
            OpenFault::OtherVersion => 51,
            OpenFault::Memory => 60,
            OpenFault::Storage => 61,
        }
    }
}

/// What a statement that failed comes to. The database was read when it was opened, so that no statement refuses it.
pub fn fault_of(error: &Error) -> OpenFault
    ensures value { result ≡ fault_for error.now }
    ensures no_refusal { ¬ IsRefusal result }
{
    match error {
        Error::SqliteFailure(ErrorCode::OutOfMemory) => OpenFault::Memory,
        Error::SqliteFailure(ErrorCode::TooBig) => OpenFault::Memory,
        Error::SqliteFailure(ErrorCode::NoRowid) => OpenFault::Memory,
        _ => OpenFault::Storage,
    }
}

/// What a failure to open a database comes to, of which the library says where there is none.
pub fn fault_of_opening(error: &Error) -> OpenFault
    ensures value { result ≡ opening_fault_for error.now }
    ensures no_version { result ≢ OpenFault.OtherVersion }
{
    match error {
        Error::SqliteFailure(ErrorCode::NotADatabase) => {
            OpenFault::NotOurFile(Difference::NoDatabase)
        }
        _ => fault_of(error),
    }
}

/// What a failure to open files comes to. The library calls files corrupt where it refuses what they hold, and where its device
/// gave other bytes than it took, which it counts: `is_caught`.
pub fn fault_of_files(error: &Error, is_caught: bool) -> OpenFault
    ensures value { result ≡ files_fault_for is_caught error.now }
    ensures no_version { result ≢ OpenFault.OtherVersion }
{
    if is_caught {
        return fault_of_opening(error);
    }
    match error {
        Error::SqliteFailure(ErrorCode::DatabaseCorrupt) => {
            OpenFault::NotOurFile(Difference::NoDatabase)
        }
        _ => fault_of_opening(error),
    }
}

/// What an audit that gave no answer comes to.
pub fn fault_of_audit(fault: &AuditFault) -> OpenFault
    ensures value { result ≡ audit_fault_for fault.now }
    ensures no_refusal { ¬ IsRefusal result }
{
    match fault {
        AuditFault::Register(Fault::Memory) => OpenFault::Memory,
        AuditFault::Register(Fault::Storage) => OpenFault::Storage,
        AuditFault::Tables(error) => fault_of(error),
    }
}
