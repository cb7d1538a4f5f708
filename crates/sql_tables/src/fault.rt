//! Why an audit gave no answer.
ghost use Rattle.std.specs.Prelude.{◌≡◌};
ghost use Rattle.sql_tables.specs.declared.fault.AuditFault.TheVariants.{Register, Tables};

use desk_register::Fault;
use sqlite::Error;

/// Why an audit gave no answer. (That a table says something else is an answer.)
#[derive(Drop)]
pub enum AuditFault {
    /// The register in memory gave none.
    Register(Fault),
    /// The tables gave none.
    Tables(Error),
}

impl From<Fault> for AuditFault {
    ghost from_gives = { λ fault audit. audit ≡ Register fault };

    fn from(fault: Fault) -> AuditFault {
        AuditFault::Register(fault)
    }
}

impl From<Error> for AuditFault {
    ghost from_gives = { λ error audit. audit ≡ Tables error };

    fn from(error: Error) -> AuditFault {
        AuditFault::Tables(error)
    }
}
