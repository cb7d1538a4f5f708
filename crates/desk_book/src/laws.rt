//! Laws of the definitions, each the contract of a function with an empty body.
ghost use Rattle.std.specs.Prelude.{◌≡◌, ℕ, Bool, false, List, [], All, Some, Result, Ok};
ghost use Rattle.serde_json.specs.Data.{Data};
ghost use Rattle.desk_codes.specs.Bic.{IsBic};
ghost use Rattle.desk_msg.specs.declared.instruction.CancelOrder.{CancelOrder};
ghost use Rattle.desk_msg.specs.declared.instruction.Instruction.{Instruction};
ghost use Rattle.desk_msg.specs.declared.instruction.Message.TheVariants.{New, Cancel as CancelMessage};
ghost use Rattle.desk_msg.specs.declared.mt.Mt.{Mt};
ghost use Rattle.desk_msg.specs.Refused.{ReadsText};
ghost use Rattle.desk_rules.specs.declared.answers.reply.Reply.{Reply};
ghost use Rattle.desk_rules.specs.declared.answers.verdict.Verdict.TheVariants.{Accept};
ghost use Rattle.desk_rules.specs.Reply.{AreNext, untyped_reply};
ghost use Rattle.desk_rules.specs.Confirmations.{AccountFor, Confirmation, SayConfirmations};
ghost use Rattle.desk_rules.specs.Sent.{sent_of};
ghost use Rattle.desk_rules.specs.Books.{Books};
ghost use Rattle.desk_rules.specs.Verdict.{IsVerdict};
ghost use Rattle.desk_rules.specs.WellFormed.{AreAccepted, AreWellFormed, IsWellFormed};
ghost use Rattle.desk_engine.specs.Applied.{no_books};
ghost use Rattle.desk_book.specs.declared.fault.Fault.{Fault};
ghost use Rattle.desk_book.specs.declared.requests.task.Task.{Task};
ghost use Rattle.desk_book.specs.declared.requests.task.Task.TheVariants.{Decide};
ghost use Rattle.desk_book.specs.Answered.{ActsOnce, IsRepeat, IsToldSums, AnsweredInTurn, Step, says_closed};
ghost use Rattle.desk_book.specs.Known.{Agree, IsKnown};
ghost use Rattle.desk_book.specs.Sums.{sums_text};
ghost use Rattle.desk_book.specs.declared.answers.total.SecurityTotal.{SecurityTotal};
ghost use Rattle.desk_rules.specs.Content.{Content};
ghost use Rattle.desk_rules.specs.Questions.{sent_reply, status_reply};
ghost use Rattle.desk_book.specs.Headline.{Headline};
ghost use Rattle.desk_engine.specs.Ready.{KeepsFormed};
ghost use Rattle.desk_book.specs.declared.requests.question.Question.TheVariants.{Holdings, Sent, Status, Sums};
ghost use Rattle.desk_book.specs.Asked.{Asked, asked_with};
ghost use Rattle.desk_book.specs.Statement.{TellsHoldings};
ghost use Rattle.desk_book.specs.Task.{IsTask};
ghost use Rattle.desk_rules.specs.declared.history.entry.Entry.{Entry};
ghost use Rattle.desk_book.specs.Command.{IsCommand, SpellsCommand};
ghost use Rattle.desk_book.specs.Script.{Script, Item};

/// Bytes spell one command at most.
pub fn one_command()
    ensures { (bytes : List ℕ) (a b : Entry) → SpellsCommand bytes a → SpellsCommand bytes b → a ≡ b }
{}

/// A script asks one list of items at most. That it asks one at all is what `item_count` shows.
pub fn one_script()
    ensures { (bytes : List ℕ) (a b : List Item) → Script bytes a → Script bytes b → a ≡ b }
{}

/// Who reads an entry, reads a well formed one: each command that an operator's object spells, each message of a sender
/// with a BIC, and each entry that the desk decides on is.
pub fn reads_well_formed()
    ensures commands { (value : Data) (entry : Entry) → IsCommand value entry → IsWellFormed entry }
    ensures instructions { (sender text : List ℕ) (mt : Mt) (i : Instruction) → IsBic sender → ReadsText mt text (Ok (New i)) → IsWellFormed (Entry.Instruct sender i) }
    ensures cancellations { (sender text : List ℕ) (mt : Mt) (order : CancelOrder) → IsBic sender → ReadsText mt text (Ok (CancelMessage order)) → IsWellFormed (Entry.Cancel sender order) }
    ensures decided { (asked : Asked) (entry : Entry) → IsTask asked (Decide entry) → IsWellFormed entry }
{}

/// A request is read as one task at most.
pub fn one_task()
    ensures { (asked : Asked) (a b : Task) → IsTask asked a → IsTask asked b → a ≡ b }
{}

/// Once closed, a desk stays so: one that is open after its answers in turn said in none of them that it is closed.
pub fn closed_for_good()
    ensures { (limit : ℕ) (was : Bool) (books last : Books) (requests : List Asked) (answers : List (Result Reply Fault))
        → AnsweredInTurn limit was books requests answers false last → All (λ answer. says_closed answer ≡ false) answers }
{}

/// Repeats act once: of requests that are answered in turn every repeat may be taken out, and with it every request
/// that a fault answered. What is left is answered in turn too, the same, to the same last books. Each repeat got the
/// first reply of its entry.
pub fn repeats_act_once()
    ensures { (limit : ℕ) (was : Bool) (books last : Books) (requests : List Asked) (answers : List (Result Reply Fault)) (is : Bool)
        → AnsweredInTurn limit was books requests answers is last → ActsOnce limit books requests answers last }
{}

/// A request that was accepted is a repeat when it is asked again, however many requests later.
pub fn accepted_again()
    ensures { (limit : ℕ) (was is : Bool) (books next last : Books) (asked : Asked) (entry : Entry) (requests : List Asked) (answers : List (Result Reply Fault))
        → IsTask asked (Decide entry) → IsVerdict limit books entry Accept → AreNext books entry next → AnsweredInTurn limit was next requests answers is last → IsRepeat limit last asked }
{}

/// The abstract desk has one answer to a request: where two are given that are no faults, they are the same reply, and
/// lead to the same books.
pub fn one_reply()
    ensures { (limit : ℕ) (books n m : Books) (asked : Asked) (r s : Reply) → Step limit books asked (Ok r) n → Step limit books asked (Ok s) m → (r ≡ s) × (n ≡ m) }
{}

/// Each reply that is no fault has the status 200; or 422, and refuses an entry with a number of the catalogue; or 400,
/// and says that what was asked could not be read.
pub fn known_replies()
    ensures { (limit : ℕ) (books after : Books) (asked : Asked) (reply : Reply) → Step limit books asked (Ok reply) after → IsKnown books asked reply }
{}

/// What a desk begins with stays: where its entries were accepted each in its turn, and are well formed, so are those
/// after any list of requests. A desk that begins empty has such entries.
pub fn accepted_stays()
    ensures none { (limit : ℕ) → AreAccepted limit no_books }
    ensures stays { (limit : ℕ) (was is : Bool) (books last : Books) (requests : List Asked) (answers : List (Result Reply Fault))
        → AreAccepted limit books → AnsweredInTurn limit was books requests answers is last → AreAccepted limit last }
{}

/// Where the totals are asked for, after any list of requests to a desk whose entries were accepted in their turn and are
/// well formed, they agree: of each security the accounts hold just what is outstanding, and of each currency the
/// participants just what was paid in less what was paid out.
pub fn sums_agree()
    ensures { (limit : ℕ) (was is : Bool) (books last next : Books) (requests : List Asked) (answers : List (Result Reply Fault)) (text : List ℕ) (reply : Reply)
        → AreAccepted limit books → AnsweredInTurn limit was books requests answers is last → Step limit last (asked_with Sums text) (Ok reply) next
        → (told : IsToldSums last reply next) × Agree told.cash told.securities }
{}

/// What an open desk keeps has all that is promised of it.
pub fn headline()
    ensures { (limit : ℕ) (books : Books) (content : Content) → KeepsFormed limit books content → Headline limit books content }
{}

/// What a participant asks is answered by the books of now, whatever text it asks with: how its message stands, what was
/// sent to it, or what an account of its own holds. A text that is no reference, or names no account, is one that no well
/// formed entry has.
pub fn questions_answered()
    ensures status { (limit : ℕ) (books after : Books) (sender text : List ℕ) (reply : Reply) → AreWellFormed books.history → Step limit books (asked_with (Status sender) text) (Ok reply) after
        → (reply ≡ status_reply books sender text) × (after ≡ books) }
    ensures sent { (limit : ℕ) (books after : Books) (receiver text : List ℕ) (number : ℕ) (reply : Reply) → Step limit books (asked_with (Sent receiver number) text) (Ok reply) after
        → (reply ≡ sent_reply books receiver number) × (after ≡ books) }
    ensures holdings { (limit : ℕ) (books after : Books) (owner text : List ℕ) (reply : Reply) → AreWellFormed books.history → Step limit books (asked_with (Holdings owner) text) (Ok reply) after
        → TellsHoldings books owner (Some text) reply × (after ≡ books) }
{}

/// Each change is confirmed: after any list of requests to a desk whose entries were accepted in their turn and are well
/// formed, whatever was answered, the texts of the messages sent by then say confirmations, and these account for every
/// balance. (What is accepted is read from messages and commands, so nothing is left to assume of it.)
pub fn changes_are_confirmed()
    ensures { (limit : ℕ) (was is : Bool) (books last : Books) (requests : List Asked) (answers : List (Result Reply Fault))
        → AreAccepted limit books → AnsweredInTurn limit was books requests answers is last → (confirmations : List Confirmation) × SayConfirmations (sent_of last) confirmations × AccountFor last confirmations }
{}
