//! A register is made in a database that has no table, or over tables that are a desk's.
ghost use Rattle.std.specs.Prelude.{None, ◌≡◌, ◌≤◌, [], false, IsTrue, IfErr, IfOk, OnErr, OnOk};
ghost use Rattle.sqlite.specs.State.{HasCleanDisk};
ghost use Rattle.sqlite.specs.Steps.{over_memory};
ghost use Rattle.desk_register.specs.Changes.{empty_content};
ghost use Rattle.desk_register.specs.declared.register.Stage.TheVariants.{Idle};
ghost use Rattle.desk_rules.specs.declared.limits.TheConstants.{MOST_ENTRIES};
ghost use Rattle.sql_tables.specs.Control.{Begins};
ghost use Rattle.sql_tables.specs.Calls.{FailsForCause, tables};
ghost use Rattle.sql_tables.specs.Ends.{ForCause, IsLater};
ghost use Rattle.sql_tables.specs.Making.{KeepsCommitted};
ghost use Rattle.sql_tables.specs.Schema.{no_schema};
ghost use Rattle.sql_register.specs.Holds.{Becomes};
ghost use Rattle.sql_register.specs.Kept.{shown, IsKept};
ghost use Rattle.sql_register.specs.Made.{IsMade};

use crate::fault::Failures;
use crate::sql_register::SqlRegister;
use desk_register::Stage;
use sql_tables::control::commit;
use sql_tables::making::make_tables;
use sql_tables::session::Session;
use sql_tables::version::set_version;
use sqlite::{Connection, Error, ErrorCode, MemStore};
use std::alloc::Global;

/// Begins the transaction in which the tables are made: where there are none yet, `begin` of the desk's tables says nothing.
fn begin_making<S: Session>(conn: &mut S) -> Result<usize, Error>
    ensures ok { HasCleanDisk (S.state conn.new) → IsTrue (S.state conn.old).is_open → (tables S.state conn.old).schema ≡ no_schema → OnOk result (Begins (S.state conn.old) (S.state conn.new)) }
    ensures outside { HasCleanDisk (S.state conn.new) → (tables S.state conn.old).schema ≡ no_schema → OnOk result ((S.state conn.old).in_transaction ≡ false) }
    ensures kept { HasCleanDisk (S.state conn.new) → OnErr result (KeepsCommitted (S.state conn.old) (S.state conn.new)) }
    ensures blame { HasCleanDisk (S.state conn.new) → IsTrue (S.state conn.old).is_open → (tables S.state conn.old).schema ≡ no_schema → (S.state conn.old).in_transaction ≡ false → FailsForCause S.state conn.old conn.new result }
    ensures later { IsLater (S.state conn.old) (S.state conn.new) }
{
    conn.execute("BEGIN", &[])
}

/// Whether a database has no table, no index and no view.
pub fn has_no_table<S: Session>(conn: &S) -> bool
    ensures some { IsTrue result → (tables S.state conn.now).schema ≡ no_schema }
    ensures all { (tables S.state conn.now).schema ≡ no_schema → IsTrue result }
{
    let schema = conn.schema();
    schema.tables.as_slice().is_empty()
        && schema.indexes.as_slice().is_empty()
        && schema.views.as_slice().is_empty()
}

/// Makes the tables, in one transaction, and says their version.
fn make<S: Session>(conn: &mut S) -> Result<(), Error>
    ensures made { HasCleanDisk (S.state conn.new) → IsTrue (S.state conn.old).is_open → (tables S.state conn.old).schema ≡ no_schema → OnOk result (IsMade (S.state conn.new)) }
    ensures outside { HasCleanDisk (S.state conn.new) → (tables S.state conn.old).schema ≡ no_schema → OnOk result ((S.state conn.old).in_transaction ≡ false) }
    ensures kept { HasCleanDisk (S.state conn.new) → IsTrue (S.state conn.old).is_open → (tables S.state conn.old).schema ≡ no_schema → OnErr result (KeepsCommitted (S.state conn.old) (S.state conn.new)) }
    ensures blame { HasCleanDisk (S.state conn.new) → IsTrue (S.state conn.old).is_open → (tables S.state conn.old).schema ≡ no_schema → (S.state conn.old).in_transaction ≡ false → FailsForCause S.state conn.old conn.new result }
    ensures later { IsLater (S.state conn.old) (S.state conn.new) }
{
    begin_making(conn)?;
    make_tables(conn)?;
    set_version(conn)?;
    commit(conn)?;
    Ok(())
}

impl<S: Session + Drop> SqlRegister<S> {
    ghost use Rattle.sql_register.specs.Kept.{shown};
    ghost use Rattle.sql_tables.specs.Calls.{tables};

    /// A register for at most `limit` entries, which are `MOST_ENTRIES` at most, in a database that has no table, index or
    /// view; any other, one in which a transaction is open too, is refused. No limit is set on the steps of a query. Where the
    /// tables cannot be made, the session is handed back, and what is committed is as it was: a transaction that is still
    /// open should be given up.
    pub fn new(mut conn: S, limit: u64) -> Result<SqlRegister<S>, (Error, S)>
        requires limit { limit ≤ MOST_ENTRIES }
        requires unlimited { (S.state conn).step_limit ≡ None }
        requires open { HasCleanDisk (S.state conn) → IsTrue (S.state conn).is_open }
        ensures empty { IfOk result (λ r. HasCleanDisk (S.state r.connection) → (shown (S.state r.connection) r.stage r.room).content ≡ empty_content) }
        ensures desk { IfOk result (λ r. HasCleanDisk (S.state r.connection) → Becomes (tables S.state r.connection) empty_content) }
        ensures sure { IfOk result (λ r. HasCleanDisk (S.state r.connection) → (shown (S.state r.connection) r.stage r.room).is_sure) }
        ensures limit { IfOk result (λ r. r.room ≡ limit) }
        ensures stage { IfOk result (λ r. r.stage ≡ Stage.Idle) }
        ensures unmade { IfOk result (λ r. (tables S.state conn).schema ≡ no_schema) }
        ensures outside { IfOk result (λ r. HasCleanDisk (S.state r.connection) → (S.state conn).in_transaction ≡ false) }
        ensures settled { IfOk result (λ r. HasCleanDisk (S.state r.connection) → (S.state r.connection).now ≡ (S.state r.connection).committed) }
        ensures later { IfOk result (λ r. IsLater (S.state conn) (S.state r.connection)) }
        ensures closed { IfOk result (λ r. HasCleanDisk (S.state r.connection) → (S.state r.connection).in_transaction ≡ false) }
        ensures handed { IfErr result (λ e. IsLater (S.state conn) (S.state e.1)) }
        ensures kept { IfErr result (λ e. HasCleanDisk (S.state e.1) → KeepsCommitted (S.state conn) (S.state e.1)) }
        ensures blame { IfErr result (λ e. HasCleanDisk (S.state e.1) → (tables S.state conn).schema ≡ no_schema → (S.state conn).in_transaction ≡ false → ForCause (S.state conn) (S.state e.1) e.0) }
    {
        if !has_no_table(&conn) {
            return Err((Error::SqliteFailure(ErrorCode::CannotOpen), conn));
        }
        match make(&mut conn) {
            Ok(()) => Ok(SqlRegister::over(conn, limit)),
            Err(error) => Err((error, conn)),
        }
    }

    /// A register for at most `limit` entries, which are `MOST_ENTRIES` at most, over tables that are a desk's, where no
    /// transaction is open, and no limit is set on the steps of a query.
    pub fn over(conn: S, limit: u64) -> SqlRegister<S>
        requires limit { limit ≤ MOST_ENTRIES }
        requires unlimited { (S.state conn).step_limit ≡ None }
        requires desk { IsKept (S.state conn) Idle }
        ensures connection { result.connection ≡ conn }
        ensures limit { result.room ≡ limit }
        ensures stage { result.stage ≡ Stage.Idle }
    {
        SqlRegister {
            conn,
            stage: Stage::Idle,
            limit,
            failures: Failures::none(),
        }
    }

    /// The calls on its tables that failed so far.
    pub fn failures(&self) -> Failures {
        self.failures
    }

    /// The session, handed back, with the tables of a desk: what it shows is committed where no `begin` is open.
    pub fn into_connection(self) -> S
        ensures connection { result ≡ self.connection }
        ensures kept { IsKept (S.state result) self.stage }
        ensures unlimited { (S.state result).step_limit ≡ None }
    {
        self.conn
    }
}

impl SqlRegister<Connection<MemStore>> {
    ghost use Rattle.sqlite.specs.Held.{state};
    ghost use Rattle.sql_register.specs.Kept.{shown};
    ghost use Rattle.sqlite.specs.Steps.{over_memory};

    /// A register in memory, which holds nothing, for at most `limit` entries, which are `MOST_ENTRIES` at most.
    pub fn in_memory(alloc: Global, limit: u64) -> Result<SqlRegister<Connection<MemStore>>, Error>
        requires { limit ≤ MOST_ENTRIES }
        ensures empty { IfOk result (λ r. (shown (state over_memory r.connection) r.stage r.room).content ≡ empty_content) }
        ensures sure { IfOk result (λ r. (shown (state over_memory r.connection) r.stage r.room).is_sure) }
        ensures honest { IfOk result (λ r. (shown (state over_memory r.connection) r.stage r.room).is_honest) }
        ensures limit { IfOk result (λ r. r.room ≡ limit) }
        ensures stage { IfOk result (λ r. r.stage ≡ Stage.Idle) }
    {
        let conn = Connection::open_in_memory(alloc)?;
        match SqlRegister::new(conn, limit) {
            Ok(register) => Ok(register),
            Err((error, _)) => Err(error),
        }
    }
}
