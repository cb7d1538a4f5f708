//! Laws, each the contract of a function with an empty body, or with a call that says it.
ghost use Rattle.std.specs.Prelude.{ℕ, ◌≤◌, length};
ghost use Rattle.sqlite.specs.Closing.{HoldsAlone};
ghost use Rattle.sqlite.specs.Effect.{Database};
ghost use Rattle.sqlite.specs.State.{IsLive};
ghost use Rattle.sqlite_wal.specs.Recovery.{Image};
ghost use Rattle.desk_engine.specs.Applied.{Keeps as KeepsBooks};
ghost use Rattle.desk_engine.specs.Ready.{KeepsFormed};
ghost use Rattle.desk_rules.specs.Books.{Books};
ghost use Rattle.desk_rules.specs.Content.{Content};
ghost use Rattle.desk_rules.specs.WellFormed.{AreWellFormed};
ghost use Rattle.desk_rules.specs.declared.limits.TheConstants.{MOST_ENTRIES};
ghost use Rattle.sql_register.specs.Holds.{Becomes};
ghost use Rattle.desk_file.specs.Desks.{IsDesks, IsDesksIn};
ghost use Rattle.desk_file.specs.Opened.{FindsIn};
ghost use Rattle.desk_file.specs.Parts.{HasParts};
ghost use Rattle.desk_file.specs.Said.{SaysBooks};

use sql_tables::session::Session;

/// A connection that is open shows a database, and its last commit is one.
pub fn is_live<S: Session>(conn: &S)
    ensures { IsLive (S.state conn.now) }
{
    conn.schema();
}

/// Files that hold a database which says these books are opened as the desk of these books, and so is the file of the two without
/// the other, its log: what one run left is what the next begins with.
pub fn found_again()
    ensures { (image : Image) (db : Database) (books : Books) → SaysBooks db books → HoldsAlone image db.trees
        → (opened : Database) (content : Content) → FindsIn image opened content → KeepsFormed MOST_ENTRIES books content }
{}

/// What a desk leaves is not refused: a database that says some books is a desk's, for whoever opens it for as many entries as the
/// books have, and so are files that hold it, for whoever opens them for `MOST_ENTRIES` in any case. With `found_again`, what is
/// opened is the desk of these books.
pub fn opens_again()
    ensures database { (db : Database) (limit : ℕ) (books : Books) → SaysBooks db books → length books.history ≤ limit → IsDesks limit db }
    ensures files { (image : Image) (db : Database) (limit : ℕ) (books : Books) → SaysBooks db books → length books.history ≤ limit
        → HoldsAlone image db.trees → ∥ IsDesksIn limit image ∥₁ }
    ensures most { (image : Image) (db : Database) (books : Books) → SaysBooks db books → HoldsAlone image db.trees → ∥ IsDesksIn MOST_ENTRIES image ∥₁ }
{}

/// Tables that say, each by itself, what a register holds are the desk's and say its content, where the register keeps books
/// of well-formed entries that were accepted by a desk that may hold at most `MOST_ENTRIES`. That no account holds what was never
/// issued, that the totals are the sums, and what else holds between tables, follows: no audit has to look for it.
pub fn is_desk_by_parts()
    ensures { (db : Database) (limit : ℕ) (books : Books) (content : Content) → HasParts db content → limit ≤ MOST_ENTRIES → KeepsBooks limit books content → AreWellFormed books.history → Becomes db content }
{}
