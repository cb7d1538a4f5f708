//! Laws of the definitions, each the contract of a function with an empty body.
ghost use Rattle.std.specs.Prelude.{◌≡◌, ℕ, Bool, List, map, Result};
ghost use Rattle.std.specs.List.Sorted.{IsPermutation};
ghost use Rattle.desk_rules.specs.declared.answers.reply.Reply.{Reply};
ghost use Rattle.desk_rules.specs.Books.{Books};
ghost use Rattle.desk_book.specs.declared.fault.Fault.{Fault};
ghost use Rattle.desk_book.specs.Answered.{AnsweredInTurn};
ghost use Rattle.desk_book.specs.Asked.{Asked};
ghost use Rattle.desk_book.specs.declared.requests.question.Question.{Question};
ghost use Rattle.desk_drop.specs.Again.{AnsweredAgain};
ghost use Rattle.desk_drop.specs.Folder.{File, HaveOwnNames, IsFolder, Item, asked_by_name};
ghost use Rattle.desk_drop.specs.Names.{IsNameOf};

/// A name asks one question at most.
pub fn one_question()
    ensures { (name : List ℕ) (a b : Question) → IsNameOf a name → IsNameOf b name → a ≡ b }
{}

/// In whichever order the files of a folder are listed, it asks the same, where no two have one name: the same names in one
/// order, each with the same request. Only the places among the files differ.
pub fn listed_in_any_order()
    ensures { (files others : List File) (items again : List Item) → IsPermutation files others → HaveOwnNames files → IsFolder files items → IsFolder others again
        → map asked_by_name again ≡ map asked_by_name items }
{}

/// A folder may be taken again, whatever was asked since: what was accepted gets the reply that it got, or a fault, and changes
/// nothing. So it is of any requests that are asked twice.
pub fn taken_again()
    ensures { (limit : ℕ) (was is between_was between_is again still : Bool) (books next now last : Books) (requests since : List Asked) (firsts others seconds : List (Result Reply Fault))
        → AnsweredInTurn limit was books requests firsts is next → AnsweredInTurn limit between_was next since others between_is now
        → AnsweredInTurn limit again now requests seconds still last → AnsweredAgain limit books now requests firsts seconds last }
{}
