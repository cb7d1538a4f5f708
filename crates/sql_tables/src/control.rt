//! What begins and ends a transaction, and the savepoint of a pair in it, by text.

ghost use Rattle.std.specs.Prelude.{◌≡◌, [], ◌∷◌, true, false, IsTrue, OnOk, OnErr, IfErr};
ghost use Rattle.sqlite.specs.State.{HasCleanDisk, Executes, FailsToQuery};
ghost use Rattle.sql_tables.specs.Calls.{FailsForCause, Looks, Soundly};
ghost use Rattle.sql_tables.specs.Ends.{IsLater, FellLooking, IsUndone, SaysWhy};
ghost use Rattle.sql_tables.specs.Control.{begin_text, commit_text, roll_back_text, probe_text, save_text, release_text, go_back_text, Begins, Commits, Saves, Releases, GoesBack, mark_at};
ghost use Rattle.sqlite.specs.Effect.{Database};

use crate::session::Session;
use crate::statement::query;
use sqlite::Error;

/// Begins a transaction. Inside one it is refused.
pub fn begin<S: Session>(conn: &mut S) -> Result<usize, Error>
    ensures runs { HasCleanDisk (S.state conn.new) → Executes begin_text [] (S.state conn.old) (S.state conn.new) result }
    ensures ok { Soundly S.state conn.old conn.new (OnOk result (Begins (S.state conn.old) (S.state conn.new))) }
    ensures err { Soundly S.state conn.old conn.new (OnErr result (FellLooking (S.state conn.old) (S.state conn.new))) }
    ensures why { Soundly S.state conn.old conn.new (IfErr result (SaysWhy (S.state conn.old) (S.state conn.new))) }
    ensures opened { HasCleanDisk (S.state conn.new) → IsTrue (S.state conn.new).is_open → IsTrue (S.state conn.old).is_open }
    ensures later { IsLater (S.state conn.old) (S.state conn.new) }
    ensures blame { Soundly S.state conn.old conn.new ((S.state conn.old).in_transaction ≡ false → FailsForCause S.state conn.old conn.new result) }
{
    conn.execute("BEGIN", &[])
}

/// Commits the transaction. Outside one it is refused.
pub fn commit<S: Session>(conn: &mut S) -> Result<usize, Error>
    ensures runs { HasCleanDisk (S.state conn.new) → Executes commit_text [] (S.state conn.old) (S.state conn.new) result }
    ensures ok { Soundly S.state conn.old conn.new (OnOk result (Commits (S.state conn.old) (S.state conn.new))) }
    ensures err { Soundly S.state conn.old conn.new (OnErr result (FellLooking (S.state conn.old) (S.state conn.new))) }
    ensures why { Soundly S.state conn.old conn.new (IfErr result (SaysWhy (S.state conn.old) (S.state conn.new))) }
    ensures opened { HasCleanDisk (S.state conn.new) → IsTrue (S.state conn.new).is_open → IsTrue (S.state conn.old).is_open }
    ensures later { IsLater (S.state conn.old) (S.state conn.new) }
    ensures blame { Soundly S.state conn.old conn.new (IsTrue (S.state conn.old).in_transaction → FailsForCause S.state conn.old conn.new result) }
{
    conn.execute("COMMIT", &[])
}

/// Takes back what the transaction has changed, and ends it. Outside one it is refused.
pub fn roll_back<S: Session>(conn: &mut S) -> Result<usize, Error>
    ensures runs { HasCleanDisk (S.state conn.new) → Executes roll_back_text [] (S.state conn.old) (S.state conn.new) result }
    ensures ok { Soundly S.state conn.old conn.new (OnOk result (IsUndone (S.state conn.old) (S.state conn.new))) }
    ensures err { Soundly S.state conn.old conn.new (OnErr result (FellLooking (S.state conn.old) (S.state conn.new))) }
    ensures why { Soundly S.state conn.old conn.new (IfErr result (SaysWhy (S.state conn.old) (S.state conn.new))) }
    ensures opened { HasCleanDisk (S.state conn.new) → IsTrue (S.state conn.new).is_open → IsTrue (S.state conn.old).is_open }
    ensures later { IsLater (S.state conn.old) (S.state conn.new) }
    ensures blame { Soundly S.state conn.old conn.new (IsTrue (S.state conn.old).in_transaction → FailsForCause S.state conn.old conn.new result) }
{
    conn.execute("ROLLBACK", &[])
}

/// Reads no table: an answer shows that the connection is open.
pub fn probe<S: Session>(conn: &mut S) -> Result<(), Error>
    ensures fails { HasCleanDisk (S.state conn.new) → IfErr result (FailsToQuery probe_text [] (S.state conn.old) (S.state conn.new)) }
    ensures look { Looks S.state conn.old conn.new result }
    ensures shown { HasCleanDisk (S.state conn.new) → OnOk result (IsTrue (S.state conn.old).is_open) }
    ensures blame { Soundly S.state conn.old conn.new (FailsForCause S.state conn.old conn.new result) }
{
    query(conn, "SELECT 1", &[])?;
    Ok(())
}

/// Sets the savepoint of a pair, in a transaction that has none.
pub fn save<S: Session>(conn: &mut S) -> Result<usize, Error>
    ensures runs { HasCleanDisk (S.state conn.new) → Executes save_text [] (S.state conn.old) (S.state conn.new) result }
    ensures ok { Soundly S.state conn.old conn.new ((S.state conn.old).in_transaction ≡ true → (S.state conn.old).marks ≡ [] → OnOk result (Saves (S.state conn.old) (S.state conn.new))) }
    ensures err { Soundly S.state conn.old conn.new (OnErr result (FellLooking (S.state conn.old) (S.state conn.new))) }
    ensures why { Soundly S.state conn.old conn.new (IfErr result (SaysWhy (S.state conn.old) (S.state conn.new))) }
    ensures opened { HasCleanDisk (S.state conn.new) → IsTrue (S.state conn.new).is_open → IsTrue (S.state conn.old).is_open }
    ensures later { IsLater (S.state conn.old) (S.state conn.new) }
    ensures blame { Soundly S.state conn.old conn.new (FailsForCause S.state conn.old conn.new result) }
{
    conn.execute("SAVEPOINT pair", &[])
}

/// Gives up the savepoint of the pair, and keeps what was changed since.
pub fn release<S: Session>(conn: &mut S) -> Result<usize, Error>
    ensures runs { HasCleanDisk (S.state conn.new) → Executes release_text [] (S.state conn.old) (S.state conn.new) result }
    ensures ok { Soundly S.state conn.old conn.new ((db : Database) → (S.state conn.old).marks ≡ mark_at db ∷ [] → OnOk result (Releases (S.state conn.old) (S.state conn.new))) }
    ensures err { Soundly S.state conn.old conn.new (OnErr result (FellLooking (S.state conn.old) (S.state conn.new))) }
    ensures why { Soundly S.state conn.old conn.new (IfErr result (SaysWhy (S.state conn.old) (S.state conn.new))) }
    ensures opened { HasCleanDisk (S.state conn.new) → IsTrue (S.state conn.new).is_open → IsTrue (S.state conn.old).is_open }
    ensures later { IsLater (S.state conn.old) (S.state conn.new) }
    ensures blame { Soundly S.state conn.old conn.new ((db : Database) → (S.state conn.old).marks ≡ mark_at db ∷ [] → FailsForCause S.state conn.old conn.new result) }
{
    conn.execute("RELEASE pair", &[])
}

/// Takes back what was changed since the savepoint of the pair, which stays.
pub fn go_back<S: Session>(conn: &mut S) -> Result<usize, Error>
    ensures runs { HasCleanDisk (S.state conn.new) → Executes go_back_text [] (S.state conn.old) (S.state conn.new) result }
    ensures ok { Soundly S.state conn.old conn.new ((db : Database) → (S.state conn.old).marks ≡ mark_at db ∷ [] → OnOk result (GoesBack (S.state conn.old) (S.state conn.new) db)) }
    ensures err { Soundly S.state conn.old conn.new (OnErr result (FellLooking (S.state conn.old) (S.state conn.new))) }
    ensures why { Soundly S.state conn.old conn.new (IfErr result (SaysWhy (S.state conn.old) (S.state conn.new))) }
    ensures opened { HasCleanDisk (S.state conn.new) → IsTrue (S.state conn.new).is_open → IsTrue (S.state conn.old).is_open }
    ensures later { IsLater (S.state conn.old) (S.state conn.new) }
    ensures blame { Soundly S.state conn.old conn.new ((db : Database) → (S.state conn.old).marks ≡ mark_at db ∷ [] → FailsForCause S.state conn.old conn.new result) }
{
    conn.execute("ROLLBACK TO pair", &[])
}
