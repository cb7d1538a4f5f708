//! Laws of the catalogue, each the contract of a function with an empty body.
ghost use Rattle.std.specs.Prelude.{◌≡◌, Contains, IsSome};
ghost use Rattle.desk_msg.specs.Refused.{refusal_line};
ghost use Rattle.desk_msg.specs.declared.reading.refusal.TextRefusal.{TextRefusal};
ghost use Rattle.desk_msg.specs.Words.{letters_of_word};
ghost use Rattle.desk_msg.specs.declared.fault.Word.{Word};
ghost use Rattle.desk_rules.specs.Questions.{no_message};
ghost use Rattle.desk_rules.specs.Refusals.{number_of_refusal};
ghost use Rattle.desk_rules.specs.declared.answers.verdict.Refusal.{Refusal};
ghost use Rattle.desk_book.specs.Task.{no_command};
ghost use Rattle.desk_book.specs.WrittenAnswers.{bad_line_text, text_of_fault};
ghost use Rattle.desk_book.specs.declared.fault.Fault.{Fault};
ghost use Rattle.desk_drop.specs.Taken.{name_refused};
ghost use Rattle.desk_words.specs.Topics.{IsTold, detail_among, fields};
ghost use Rattle.desk_words.specs.Causes.{CauseValue, IsExplained, TellsCause, catalogue};

/// No two causes have one number; there is one for each refusal of an entry, and of a question; and what refuses a text, a command,
/// the name of a file or a line of a script, and what tells a fault, begins as that of a cause. Each word of a field that is told
/// is one that is explained.
pub fn told_in_words()
    ensures one_meaning { (a b : CauseValue) → Contains catalogue a → Contains catalogue b → a.number ≡ b.number → a ≡ b }
    ensures entries { (refusal : Refusal) → IsExplained (number_of_refusal refusal) }
    ensures messages { IsExplained no_message }
    ensures fields { (word : Word) → IsTold word → IsSome (detail_among (letters_of_word word) fields) }
    ensures texts { (refusal : TextRefusal) → TellsCause (refusal_line refusal) }
    ensures commands { TellsCause no_command.text }
    ensures names { TellsCause name_refused.text }
    ensures lines { TellsCause bad_line_text }
    ensures faults { (fault : Fault) → TellsCause (text_of_fault fault) }
{}
