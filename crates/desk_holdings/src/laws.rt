//! Laws of the definitions, each the contract of a function with an empty body.
ghost use Rattle.std.specs.Prelude.{◌≡◌, ℕ, List, Option};
ghost use Rattle.desk_msg.specs.declared.writing.statement_row.StatementRow.{StatementRow};
ghost use Rattle.desk_rules.specs.Books.{Books};
ghost use Rattle.desk_rules.specs.Content.{Content};
ghost use Rattle.desk_rules.specs.Tables.{AreTables};
ghost use Rattle.desk_rules.specs.Verdict.{WasAccepted};
ghost use Rattle.desk_holdings.specs.Holdings.{AreHoldings, HoldsRegistered};
ghost use Rattle.desk_holdings.specs.Statement.{IsStatementDay};

/// An account has exactly one list of holdings, where it holds none but registered securities.
pub fn one_statement()
    ensures exists { (content : Content) (account : List ℕ) → HoldsRegistered content account
        → (rows : List StatementRow) × AreHoldings content account rows }
    ensures unique { (content : Content) (account : List ℕ) (a b : List StatementRow) → AreHoldings content account a
        → AreHoldings content account b → a ≡ b }
{}

/// The tables of a history, each entry of which was accepted in its turn, let every account hold none but registered
/// securities.
pub fn holds_registered()
    ensures { (limit : ℕ) (books : Books) (content : Content) (account : List ℕ) → AreTables books content
        → WasAccepted limit books.history → HoldsRegistered content account }
{}

/// A statement has one day.
pub fn one_statement_day()
    ensures { (run : Option ℕ) (a b : List ℕ) → IsStatementDay run a → IsStatementDay run b → a ≡ b }
{}
