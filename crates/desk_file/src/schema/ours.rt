//! Whether a schema is the desk's, in a version of the file.
ghost use Rattle.std.specs.Prelude.{◌≡◌, ◌↔◌, IsTrue};
ghost use Rattle.sql_tables.specs.Versions.{schema_in, AreAllFormedIn};
ghost use Rattle.sql_tables.specs.Order.{AreInOrder};

use crate::schema::tables::{are_indexes, are_tables};
use sql_tables::session::Session;
use sql_tables::tables::{FIRST_INDEXES, FIRST_TABLES, INDEXES, TABLES};
use sql_tables::versions::Version;
use sqlite_items::Items;
use sqlite_schema::schema::{Index, Schema, Table};

fn are_desk_tables(tables: &[Table], version: Version) -> bool
    ensures { IsTrue result ↔ (tables.now ≡ (schema_in version).tables) }
{
    match version {
        Version::First => are_tables(tables, &FIRST_TABLES),
        Version::Second | Version::Third => are_tables(tables, &TABLES),
    }
}

fn are_desk_indexes(indexes: &[Index], version: Version) -> bool
    ensures { IsTrue result ↔ (indexes.now ≡ (schema_in version).indexes) }
{
    match version {
        Version::First => are_indexes(indexes, &FIRST_INDEXES),
        Version::Second | Version::Third => are_indexes(indexes, &INDEXES),
    }
}

/// Whether a schema is the desk's in a version of the file: its tables, in their order, the indexes of their keys, and nothing
/// else.
pub fn is_desk(schema: &Schema, version: Version) -> bool
    ensures { IsTrue result ↔ (schema.now ≡ schema_in version) }
{
    are_desk_tables(schema.tables.as_slice(), version)
        && are_desk_indexes(schema.indexes.as_slice(), version)
        && schema.views.as_slice().is_empty()
}

/// Whether the database of a connection is the desk's in a version of the file. Then, where its rows stand in order, each has the
/// form of its table, and no key comes twice: so the library has found it, and nothing is read again.
pub fn has_desk_tables<S: Session>(conn: &S, version: Version) -> bool
    ensures exact { IsTrue result ↔ ((S.state conn.now).now.schema ≡ schema_in version) }
    ensures formed { IsTrue result → IsTrue (S.state conn.now).is_open → AreInOrder (schema_in version) (S.state conn.now).now.trees → AreAllFormedIn version (S.state conn.now).now.trees }
{
    is_desk(conn.schema(), version)
}
