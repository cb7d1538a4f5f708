//! What the desk asks of a database: to run a text, to show rows, and what it is.

ghost use Rattle.std.specs.Prelude.{◌≡◌, IsTrue, IfErr, IfOk, not};
ghost use Rattle.sqlite.specs.Held.{state as state_held};
ghost use Rattle.sqlite.specs.State.{State, HasCleanDisk, IsLive, Executes, Shown, FailsToQuery, CommitsBy, CommitsShowing, Survives};
ghost use Rattle.sqlite.specs.Values.{bound};

use sqlite::types::ValueRef;
use sqlite::{Alter, Connection, Error, Row};
use sqlite_schema::schema::Schema;

/// A session with a database, in which texts of SQL run one after another, as SQL has the word (ISO/IEC 9075-1). The library's
/// `Connection` is one. The calls on the tables ask for no more than these four, and are proved of any session.
pub trait Session {
    ghost state: { Self → State };

    /// Runs a text that shows no rows, and says how many rows it changed.
    fn execute(&mut self, text: &str, params: &[ValueRef<'_>]) -> Result<usize, Error>
        ensures runs { HasCleanDisk (state self.new) → Executes text.now (bound params.now) (state self.old) (state self.new) result }
        ensures survives { Survives (state self.old) (state self.new) (CommitsBy text.now (bound params.now) (state self.old)) };

    /// The rows that a query shows.
    fn query_all(&mut self, text: &str, params: &[ValueRef<'_>]) -> Result<Vec<Row>, Error>
        ensures ok { HasCleanDisk (state self.new) → IfOk result (λ rows. Shown text.now (bound params.now) (state self.old) (state self.new) rows.items) }
        ensures err { HasCleanDisk (state self.new) → IfErr result (FailsToQuery text.now (bound params.now) (state self.old) (state self.new)) }
        ensures survives { Survives (state self.old) (state self.new) (CommitsShowing text.now (bound params.now) (state self.old)) };

    /// The tables, indexes and views that there are.
    fn schema(&self) -> &Schema
        ensures value { result.now ≡ (state self.now).now.schema }
        ensures live { IsLive (state self.now) };

    /// Whether no transaction is open.
    fn is_autocommit(&self) -> bool
        ensures value { result ≡ not (state self.now).in_transaction }
        ensures settled { IsTrue result → IsTrue (state self.now).is_open → (state self.now).now ≡ (state self.now).committed };
}

impl<S: Alter> Session for Connection<S> {
    ghost state = { state_held S.Store };

    fn execute(&mut self, text: &str, params: &[ValueRef<'_>]) -> Result<usize, Error> {
        Connection::execute(self, text, params)
    }

    fn query_all(&mut self, text: &str, params: &[ValueRef<'_>]) -> Result<Vec<Row>, Error> {
        Connection::query_all(self, text, params)
    }

    fn schema(&self) -> &Schema {
        Connection::schema(self)
    }

    fn is_autocommit(&self) -> bool {
        Connection::is_autocommit(self)
    }
}
