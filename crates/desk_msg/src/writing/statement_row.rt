//! The rows of a statement of holdings, and what takes them one by one.
use crate::instruction::Kind;
use desk_codes::Isin;

/// How much of a security a statement tells, and how it is counted.
#[derive(Clone, Copy)]
pub struct StatementRow {
    pub isin: Isin,
    pub kind: Kind,
    pub quantity: u64,
}

/// Why a row was not taken.
#[derive(Clone, Copy)]
pub enum SinkFault {
    /// What it was to be written to failed.
    Write,
    /// A growth of memory was refused.
    Memory,
}

/// What takes the rows of a statement, one by one, in their order.
pub trait RowSink {
    ghost use Rattle.std.specs.Prelude.{◌≡◌, Bool, true, Err, OnOk};
    ghost use Rattle.desk_msg.specs.declared.writing.statement_row.StatementRow.{StatementRow};

    /// What a row that was taken made of the sink
    ghost took: { Self → StatementRow → Self → Type 0 };
    /// Whether what it is written to may fail
    ghost may_fail: { Bool };

    /// Takes the next row. After `Memory` the sink is as before; after `Write` nothing is said of it.
    fn take(&mut self, row: StatementRow) -> Result<(), SinkFault>
        ensures took { OnOk result (took self.old row self.new) }
        ensures memory { result ≡ Err SinkFault.Memory → self.new ≡ self.old }
        ensures unwritten { result ≡ Err SinkFault.Write → may_fail ≡ true };
}
