//! A register that keeps its content in SQL tables.
use crate::fault::Failures;
use desk_register::Stage;
use sql_tables::session::Session;
use std::marker::Model;

/// A register in the desk's tables, over a session. A command is one transaction: what `back` goes back to is what was
/// committed. Contracts see it by `shown` of specs/Kept.antt.
#[derive(Drop)]
pub struct SqlRegister<S: Session> {
    pub(crate) conn: S,
    pub(crate) stage: Stage,
    /// At most `MOST_ENTRIES`
    pub(crate) limit: u64,
    pub(crate) failures: Failures,
}

impl<S: Session> Model for SqlRegister<S> {
    ghost use Rattle.sql_register.specs.Kept.{Kept, kept_code, IsBounded, IsKept};

    ghost Value = { Kept S };

    ghost coded = { kept_code S.code };

    ghost view = { λ r. record { connection = r.conn; stage = r.stage; room = r.limit } };

    ghost invariant = { λ r. IsKept (S.state r.conn) r.stage × IsBounded (S.state r.conn) r.limit };
}
