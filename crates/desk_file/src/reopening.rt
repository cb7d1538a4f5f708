//! A connection is given up and made anew of its store.
ghost use Rattle.std.specs.Prelude.{◌≡◌, ◌≤◌, ◌<◌, IfErr, IfOk, IsTrue};
ghost use Rattle.sqlite.specs.Held.{IsNew, state};
ghost use Rattle.sqlite.specs.State.{HasCleanDisk};
ghost use Rattle.sqlite_trees.specs.View.{IsClean};
ghost use Rattle.sqlite_trees.specs.Tree.{Trees};
ghost use Rattle.desk_file.specs.Faults.{opening_fault_for, IsRefusal};
ghost use Rattle.desk_file.specs.Opened.{IsHandedBack, StandsOpen};
ghost use Rattle.desk_file.specs.declared.fault.OpenFault.TheVariants.{Storage};

use crate::laws::is_live;
use sqlite::{Alter, Connection, Error, ErrorCode};
use std::alloc::Global;

/// The store of a connection: what a transaction has changed that was not committed is taken back.
pub fn give_up<S: Alter + Drop>(conn: Connection<S>) -> S
    ensures back { IsClean (S.Store.view result) → IsTrue (S.Store.view result).is_open → IsHandedBack (S.Store.view result) (state S.Store conn) }
    ensures opened { IsClean (S.Store.view result) → IsTrue (S.Store.view result).is_open → IsTrue (state S.Store conn).is_open }
    ensures clean { IsClean (S.Store.view result) → HasCleanDisk (state S.Store conn) }
    ensures counts { (state S.Store conn).faults ≤ S.Store.faults result }
    ensures left { IsClean (S.Store.view result) → IsTrue (S.Store.view result).is_open → (db : Trees) → S.Store.recovers result db → db ≡ (state S.Store conn).committed.trees }
{
    conn.into_store()
}

/// A connection in which nothing is under way and whose rows are known to stand in order, over the store of a given one: the
/// schema is read anew, and each row tested against it. Where that fails the store is handed back; that there is no database no
/// failure says, since an open connection shows one.
pub fn reopen<S: Alter + Drop>(
    alloc: Global,
    conn: Connection<S>,
) -> Result<Connection<S>, (Error, S)>
    ensures open { IfOk result (λ c. HasCleanDisk (state S.Store c) → StandsOpen (state S.Store c)) }
    ensures fresh { IfOk result IsNew }
    ensures same { IfOk result (λ c. HasCleanDisk (state S.Store c) → (state S.Store c).committed ≡ (state S.Store conn).committed) }
    ensures back { IfErr result (λ e. IsClean (S.Store.view e.1) → IsTrue (S.Store.view e.1).is_open → IsHandedBack (S.Store.view e.1) (state S.Store conn)) }
    ensures blame { IfErr result (λ e. IsClean (S.Store.view e.1) → IsTrue (state S.Store conn).is_open → opening_fault_for e.0 ≡ Storage → 0 < S.Store.faults e.1) }
    ensures sound { IfErr result (λ e. IsClean (S.Store.view e.1) → ¬ IsRefusal (opening_fault_for e.0)) }
{
    is_live(&conn);
    let store = conn.into_store();
    if store.is_broken() {
        return Err((Error::SqliteFailure(ErrorCode::Closed), store));
    }
    Connection::over(alloc, store)
}
