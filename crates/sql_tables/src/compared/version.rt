//! The table `version`.
ghost use Rattle.std.specs.Prelude.{◌≡◌, ◌↔◌, ◌∷◌, [], pos, map, IsTrue, IfOk};
ghost use Rattle.std.specs.List.Sorted.{IsPermutation};
ghost use Rattle.sqlite.specs.declared.types.Value.TheVariants.{Int};
ghost use Rattle.sqlite.specs.Tree.{rowid};
ghost use Rattle.sql_tables.specs.Calls.{FailsForCause, LooksIn, SoundlyIn, tables};
ghost use Rattle.sql_tables.specs.Versions.{schema_in, version_tree, AreAllFormedIn, SaysVersion};
ghost use Rattle.sql_tables.specs.declared.versions.Version.{Version as AnyVersion};

use crate::rows::number_at;
use crate::session::Session;
use crate::statement::query_of;
use crate::versions::Version;
use sqlite::{Error, Row};

/// All rows.
fn rows_of<S: Session>(conn: &mut S) -> Result<Vec<Row>, Error>
    ensures shown { (version : AnyVersion) → SoundlyIn S.state conn.old conn.new (schema_in version) (IfOk result (λ rows. IsPermutation (map (λ row. rowid row ∷ []) ((tables S.state conn.old).trees (version_tree version))) rows.items)) }
    ensures look { (version : AnyVersion) → LooksIn S.state conn.old conn.new (schema_in version) result }
    ensures blame { (version : AnyVersion) → SoundlyIn S.state conn.old conn.new (schema_in version) (FailsForCause S.state conn.old conn.new result) }
{
    query_of(conn, "SELECT number FROM version", &[])
}

/// Whether shown rows are one, which says a number.
fn is_version(rows: &[Row], number: u64) -> bool
    ensures exact { IsTrue result ↔ (rows.now ≡ (Int (pos number) ∷ []) ∷ []) }
{
    match rows {
        [row] => {
            row.column_count() == 1
                && match number_at(row, 0) {
                    Ok(said) => said == number,
                    Err(_) => false,
                }
        }
        _ => false,
    }
}

/// Whether the table `version` says a version, by the one row that it has.
pub fn has_version<S: Session>(conn: &mut S, version: Version) -> Result<bool, Error>
    ensures says { SoundlyIn S.state conn.old conn.new (schema_in version) (AreAllFormedIn version (tables S.state conn.old).trees → IfOk result (λ ok. IsTrue ok → SaysVersion version (tables S.state conn.old))) }
    ensures all { SoundlyIn S.state conn.old conn.new (schema_in version) (SaysVersion version (tables S.state conn.old) → IfOk result IsTrue) }
    ensures look { LooksIn S.state conn.old conn.new (schema_in version) result }
    ensures blame { SoundlyIn S.state conn.old conn.new (schema_in version) (FailsForCause S.state conn.old conn.new result) }
{
    let rows = rows_of(conn)?;
    Ok(is_version(&rows, version.number()))
}
