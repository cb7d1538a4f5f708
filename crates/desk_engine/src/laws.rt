//! Laws of a register that keeps its tables, and of what can be kept, each the contract of a function with an empty body. By the
//! last ones a caller of `take_kept` keeps an invariant over the entries so far.
ghost use Rattle.std.specs.Prelude.{◌≡◌, ℕ, ◌+◌, ◌≤◌, [], ◌++◌, List};
ghost use Rattle.desk_rules.specs.declared.answers.reply.Kept.{Kept};
ghost use Rattle.desk_rules.specs.Balances.{issued, redeemed};
ghost use Rattle.desk_rules.specs.Books.{Books};
ghost use Rattle.desk_rules.specs.declared.limits.TheConstants.{MOST_QUANTITY};
ghost use Rattle.desk_rules.specs.Content.{Content};
ghost use Rattle.desk_register.specs.Changes.{empty_content};
ghost use Rattle.desk_engine.specs.Applied.{Keeps, no_books};
ghost use Rattle.desk_register.specs.Looked.{held_of};
ghost use Rattle.desk_rules.specs.WellFormed.{AreWellFormed};
ghost use Rattle.desk_engine.specs.KeptHistory.{CanBeKept, HoldsKept, entries_of};
ghost use Rattle.desk_engine.specs.Sound.{IsSound};

/// The positions of all accounts in a security add up to what was issued less what was redeemed. (No position
/// is below 0: it is a natural number that makes up for the account's debits.)
pub fn positions_add_up()
    ensures all { (limit : ℕ) (books : Books) (content : Content) (isin : List ℕ) → Keeps limit books content
        → redeemed books.history isin + held_of content isin ≡ issued books.history isin }
    ensures within { (limit : ℕ) (books : Books) (content : Content) (isin : List ℕ) → Keeps limit books content
        → held_of content isin ≤ MOST_QUANTITY }
{}

/// What a register keeps is sound: of each security and each currency the balances add up, none is below 0, each change
/// is what the sent messages confirm, no leg of a settlement moved alone, and a run in passes left no due pair covered.
pub fn sound()
    ensures { (limit : ℕ) (books : Books) (content : Content) → Keeps limit books content → AreWellFormed books.history → IsSound books content }
{}

/// A register that holds nothing keeps the tables of the history that has no entry.
pub fn empty_keeps()
    ensures { (limit : ℕ) → Keeps limit no_books empty_content }
{}

/// A register that holds nothing holds the empty list.
pub fn empty_holds()
    ensures { (limit : ℕ) (content : Content) → content ≡ empty_content → HoldsKept limit [] content }
{}

/// What a register holds can be kept.
pub fn held_can_be_kept()
    ensures { (limit : ℕ) (kept : List Kept) (content : Content) → HoldsKept limit kept content → CanBeKept limit kept }
{}

/// What a register holds is sound, where each entry of it is well formed.
pub fn held_is_sound()
    ensures { (limit : ℕ) (kept : List Kept) (content : Content) (held : HoldsKept limit kept content) → AreWellFormed (entries_of kept) → IsSound held.books content }
{}

/// What can be kept could be kept at every moment: each front of such a list is one.
pub fn kept_fronts()
    ensures { (limit : ℕ) (front rest : List Kept) → CanBeKept limit (front ++ rest) → CanBeKept limit front }
{}
