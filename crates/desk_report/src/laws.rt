//! Laws of the definitions, each the contract of a function with an empty body.
ghost use Rattle.std.specs.Prelude.{◌≡◌, Contains, IfSome, IsTrue, List};
ghost use Rattle.desk_rules.specs.Books.{Books};
ghost use Rattle.desk_rules.specs.Content.{Content};
ghost use Rattle.desk_rules.specs.Tables.{AreTables};
ghost use Rattle.desk_report.specs.declared.rows.balances.AccountRow.{AccountRow};
ghost use Rattle.desk_report.specs.declared.rows.pending.PendingPair.{PendingPair};
ghost use Rattle.desk_report.specs.declared.rows.unmatched.UnmatchedInstruction.{UnmatchedInstruction};
ghost use Rattle.desk_report.specs.Accounts.{AreAccounts, HoldRegistered};
ghost use Rattle.desk_report.specs.Pending.{ArePending};
ghost use Rattle.desk_report.specs.Unmatched.{any_differs, unmatched_of};

/// The tables of books have exactly one list of the pairs that wait.
pub fn one_pending()
    ensures exists { (books : Books) (content : Content) → AreTables books content → (rows : List PendingPair) × ArePending content rows }
    ensures unique { (content : Content) (a b : List PendingPair) → ArePending content a → ArePending content b → a ≡ b }
{}

/// The nearest to an unmatched instruction differs from it in something: what differs in nothing would be its mate.
pub fn nearest_differs()
    ensures { (books : Books) (content : Content) (row : UnmatchedInstruction) → AreTables books content → Contains (unmatched_of content) row
        → IfSome row.nearest (λ nearest. IsTrue (any_differs nearest.differs)) }
{}

/// The accounts have exactly one list of rows, where they hold none but registered securities.
pub fn one_accounts()
    ensures exists { (content : Content) → HoldRegistered content → (rows : List AccountRow) × AreAccounts content rows }
    ensures unique { (content : Content) (a b : List AccountRow) → AreAccounts content a → AreAccounts content b → a ≡ b }
{}
