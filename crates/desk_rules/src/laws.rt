//! Laws of the definitions, each the contract of a function with an empty body.
ghost use Rattle.std.specs.Prelude.{◌≡◌, ◌≢◌, ◌⊎◌, ◌<◌, ◌≤◌, ◌↔◌, true, false, ℕ, ◌+◌, ◌*◌, List, [], ◌∷◌, ◌++◌, length, Contains, sum_by, count_by, if◌then◌else◌, slice_get, Some};
ghost use Rattle.std.specs.Ordering.{is_lt};
ghost use Rattle.desk_codes.specs.declared.currency.Ccy.{Ccy};
ghost use Rattle.desk_rules.specs.History.{Instructed, before, entry_at, instruction_at};
ghost use Rattle.desk_rules.specs.Cancelled.{IsRequestFor, is_cancel_requested, is_cancelled_pair};
ghost use Rattle.desk_rules.specs.Standing.{is_cancelled, state_of};
ghost use Rattle.desk_rules.specs.Sent.{sent_of, told};
ghost use Rattle.desk_rules.specs.Reply.{IsReply, TellsRefusal, reply_to};
ghost use Rattle.desk_rules.specs.Refusals.{number_of_refusal};
ghost use Rattle.desk_rules.specs.Questions.{confirmation_of, confirms_it, sent_reply, status_reply};
ghost use Rattle.desk_rules.specs.Tables.{AreTables};
ghost use Rattle.desk_rules.specs.Content.{Content, IsSameContent, history_of};
ghost use Rattle.desk_rules.specs.Confirmations.{AccountFor, Confirmation, SayConfirmations};
ghost use Rattle.desk_rules.specs.WellFormed.{AreWellFormed, IsReadable, IsWellFormed};
ghost use Rattle.desk_rules.specs.Spelt.{IsInstructionSpelt, IsSpelt};
ghost use Rattle.desk_codes.specs.Reference.{IsReference};
ghost use Rattle.desk_msg.specs.declared.instruction.CancelOrder.{CancelOrder};
ghost use Rattle.desk_msg.specs.declared.instruction.Instruction.{Instruction};
ghost use Rattle.desk_msg.specs.declared.instruction.Message.TheVariants as Message;
ghost use Rattle.desk_rules.specs.declared.answers.reply.Reply.{Reply};
ghost use Rattle.desk_rules.specs.declared.answers.reply.Sent.{Sent};
ghost use Rattle.desk_rules.specs.declared.history.standing.State.TheVariants as State;
ghost use Rattle.desk_rules.specs.declared.answers.verdict.Refusal.{Refusal};
ghost use Rattle.desk_rules.specs.Balances.{issued, redeemed, credits, debits, paid_in, paid_out, cash_credits, cash_debits};
ghost use Rattle.desk_rules.specs.Books.{AreBooks, Books, is_settled};
ghost use Rattle.desk_rules.specs.BothLegs.{ChangesOnly, ComeInTwos, Moves, NeighboursAreOfOne, StandTogether};
ghost use Rattle.desk_rules.specs.Verdict.{IsVerdict, WasAccepted, named_by};
ghost use Rattle.desk_rules.specs.Facts.{accounts_of, participants_of};
ghost use Rattle.desk_rules.specs.Laws.{AreNonNegative, AreSameButCancellations, CallOffTheSame, TellsNotice};
ghost use Rattle.desk_rules.specs.declared.limits.TheConstants.{MOST_ENTRIES, MOST_SENT};
ghost use Rattle.desk_rules.specs.Opposite.{AreOpposite};
ghost use Rattle.desk_rules.specs.Places.{place_cmp};
ghost use Rattle.desk_rules.specs.Pairing.{IsPairing, IsSide, mate_of};
ghost use Rattle.desk_rules.specs.Covered.{is_covered};
ghost use Rattle.desk_rules.specs.Settlement.{is_before, is_due, pass_begins, IsUnsettled, IsSettlement, settled_before, passes_of, settled_count};
ghost use Rattle.desk_rules.specs.declared.history.entry.Entry.TheVariants as Entry;
ghost use Rattle.desk_rules.specs.declared.history.entry.RunRule.TheVariants.{Passes};
ghost use Rattle.desk_rules.specs.declared.history.entry.Entry.{Entry};
ghost use Rattle.desk_rules.specs.declared.history.pair.Pair.{Pair};
ghost use Rattle.desk_rules.specs.declared.history.pair.Place.{Place};
ghost use Rattle.desk_rules.specs.declared.history.pair.Settled.{Settled};
ghost use Rattle.desk_rules.specs.declared.answers.verdict.Verdict.{Verdict};
ghost use Rattle.desk_rules.specs.declared.answers.verdict.Verdict.TheVariants.{Accept, Repeat};

/// To be opposite is symmetric, and no instruction is its own opposite.
pub fn opposites()
    ensures symmetric { (a b : Instructed) → AreOpposite a b → AreOpposite b a }
    ensures never_own { (a : Instructed) → AreOpposite a a → ⊥ }
{}

/// A history has exactly one pairing.
pub fn one_pairing()
    ensures exists { (history : List Entry) → (pairs : List Pair) × IsPairing history pairs }
    ensures unique { (history : List Entry) (ps qs : List Pair) → IsPairing history ps → IsPairing history qs → ps ≡ qs }
{}

/// No entry is in two pairs.
pub fn one_pair_each()
    ensures { (history : List Entry) (pairs : List Pair) (p q : Pair) (k : ℕ) → IsPairing history pairs
        → Contains pairs p → Contains pairs q → IsSide p k → IsSide q k → p ≡ q }
{}

/// Places are ordered as a run takes pairs: one is less than another where it is on an earlier day, or of a lower number on the
/// day.
pub fn places_in_order()
    ensures { (a b : Place) → is_lt (place_cmp a b) ≡ is_before a b }
{}

/// A history has exactly one settlement.
pub fn one_settlement()
    ensures exists { (history : List Entry) (pairs : List Pair) → IsPairing history pairs
        → (settled : List Settled) × IsSettlement history pairs settled }
    ensures unique { (history : List Entry) (pairs : List Pair) (ss ts : List Settled) → IsPairing history pairs
        → IsSettlement history pairs ss → IsSettlement history pairs ts → ss ≡ ts }
{}

/// What is accepted later changes nothing of what was paired and settled: pairing and settlement of a front of a
/// history are the fronts of its pairing and its settlement.
pub fn fronts()
    ensures pairs { (front rest : List Entry) (ps qs : List Pair) → IsPairing front ps → IsPairing (front ++ rest) qs
        → (more : List Pair) × (qs ≡ ps ++ more) }
    ensures settled { (front rest : List Entry) (ps qs : List Pair) (ss ts : List Settled) → IsPairing front ps
        → IsPairing (front ++ rest) qs → IsSettlement front ps ss → IsSettlement (front ++ rest) qs ts
        → (more : List Settled) × (ts ≡ ss ++ more) }
{}

/// A pair settles at most once.
pub fn settles_once()
    ensures { (history : List Entry) (pairs : List Pair) (settled : List Settled) (s t : Settled)
        → IsSettlement history pairs settled → Contains settled s → Contains settled t → s.pair ≡ t.pair → s ≡ t }
{}

/// After a run in passes nothing covered is left: no pair that is due in it, and not settled by then, is covered. Its
/// passes are those that begin, and one more at most than the pairs that it settles.
pub fn nothing_left()
    ensures left { (front : List Entry) (reference day : List ℕ) (books : Books) (p : Pair) → AreBooks books
        → books.history ≡ front ++ Entry.Run reference day Passes ∷ [] → Contains books.pairs p
        → is_due books.history (length books.history) p ≡ true → IsUnsettled books.settled p
        → is_covered books.history books.settled p ≡ false }
    ensures passes { (books : Books) (run : ℕ) → AreBooks books
        → passes_of books.history books.settled run ≤ settled_count books.settled run + 1 }
    ensures counted { (books : Books) (run pass : ℕ) → AreBooks books
        → pass_begins books.history books.settled run pass ≡ true ↔ (0 < pass) × (pass ≤ passes_of books.history books.settled run) }
{}

/// Where each entry was accepted in its turn, nothing is made or lost: the positions of all accounts in a security
/// add up to what was issued less what was redeemed, and the cash of all participants in a currency to what was paid
/// in less what was paid out. (A balance is its credits less its debits.)
pub fn adds_up()
    ensures securities { (limit : ℕ) (history : List Entry) (pairs : List Pair) (settled : List Settled) (isin : List ℕ)
        → WasAccepted limit history → IsPairing history pairs → IsSettlement history pairs settled
        → sum_by (λ account. credits history settled account isin) (accounts_of history) + redeemed history isin
        ≡ sum_by (λ account. debits history settled account isin) (accounts_of history) + issued history isin }
    ensures cash { (limit : ℕ) (history : List Entry) (pairs : List Pair) (settled : List Settled) (ccy : Ccy)
        → WasAccepted limit history → IsPairing history pairs → IsSettlement history pairs settled
        → sum_by (λ bic. cash_credits history settled bic ccy) (participants_of history) + paid_out history ccy
        ≡ sum_by (λ bic. cash_debits history settled bic ccy) (participants_of history) + paid_in history ccy }
{}

/// Where each entry was accepted in its turn, no position and no cash is below 0: not after the last entry, and not
/// within a run, after any of the pairs that it settles.
pub fn never_negative()
    ensures last { (limit : ℕ) (history : List Entry) (pairs : List Pair) (settled : List Settled)
        → WasAccepted limit history → IsPairing history pairs → IsSettlement history pairs settled
        → AreNonNegative history settled }
    ensures each { (limit : ℕ) (history : List Entry) (pairs : List Pair) (settled : List Settled) (s : Settled)
        → WasAccepted limit history → IsPairing history pairs → IsSettlement history pairs settled → Contains settled s
        → AreNonNegative (before s.run history) (settled_before history s settled ++ s ∷ []) }
{}

/// What was accepted was accepted at every moment: each front of such a history is one.
pub fn accepted_fronts()
    ensures { (limit : ℕ) (front rest : List Entry) → WasAccepted limit (front ++ rest) → WasAccepted limit front }
{}

/// An entry has one verdict at most. (That it has one `decide` of `desk_engine` shows, over any register in memory.)
pub fn one_verdict()
    ensures { (limit : ℕ) (books : Books) (entry : Entry) (a b : Verdict) → IsVerdict limit books entry a → IsVerdict limit books entry b → a ≡ b }
{}

/// What was accepted is a repeat ever after, whatever was accepted since.
pub fn accepted_once()
    ensures { (limit : ℕ) (books after : Books) (entry : Entry) (rest : List Entry) → IsVerdict limit books entry Accept → after.history ≡ books.history ++ entry ∷ rest
        → IsVerdict limit after entry (Repeat (length books.history + 1)) }
{}

/// Each change is confirmed. The texts that are sent say confirmations, as messages are read, and say them in one way;
/// and these account for every balance: on no account, and in no participant's cash, is there a change by settlement
/// that its confirmations don't say, and they say none that isn't there.
pub fn confirmed_changes()
    ensures confirmed { (books : Books) → AreBooks books → AreWellFormed books.history → (confirmations : List Confirmation) × SayConfirmations (sent_of books) confirmations × AccountFor books confirmations }
    ensures one { (messages : List Sent) (a b : List Confirmation) → SayConfirmations messages a → SayConfirmations messages b → a ≡ b }
{}

/// What was sent stays: a longer history sends first what its front sent, in that order. So the k-th message that a
/// participant was shown is the k-th for good, and the confirmation of an instruction is the one that was sent.
pub fn sent_for_good()
    ensures sent { (front books : Books) (rest : List Entry) → AreBooks front → AreBooks books → books.history ≡ front.history ++ rest
        → (more : List Sent) × (sent_of books ≡ sent_of front ++ more) }
    ensures asked { (front books : Books) (rest : List Entry) → AreBooks front → AreBooks books → books.history ≡ front.history ++ rest
        → (bic : List ℕ) (k : ℕ) → (sent_reply front bic k).status ≡ 200 → sent_reply books bic k ≡ sent_reply front bic k }
    ensures confirmed { (front books : Books) (rest : List Entry) → AreBooks front → AreBooks books → books.history ≡ front.history ++ rest
        → (n : ℕ) (message : Sent) → confirmation_of front n ≡ Some message → confirmation_of books n ≡ Some message }
{}

/// What is sent is numbered in its order, from 1: each message tells the notice of its place, that a pair was made or a run
/// settled it, under its own number. There are as many as pairs, and twice as many as settlements beside, and so fewer than `MOST_SENT` of all that a desk may hold.
pub fn sent_in_order()
    ensures numbered { (books : Books) (n : ℕ) (message : Sent) → AreBooks books → slice_get (sent_of books) n ≡ Some message
        → TellsNotice books n message }
    ensures counted { (books : Books) → AreBooks books → length (sent_of books) ≡ length books.pairs + 2 * length books.settled }
    ensures few { (books : Books) → AreBooks books → length books.history ≤ MOST_ENTRIES → length (sent_of books) < MOST_SENT }
{}

/// Right after a message was accepted, how it stands is answered as its acceptance was.
pub fn stands_as_accepted()
    ensures instruction { (limit : ℕ) (before books : Books) (sender : List ℕ) (i : Instruction) → AreBooks books
        → IsVerdict limit before (Entry.Instruct sender i) Accept → books.history ≡ before.history ++ Entry.Instruct sender i ∷ []
        → status_reply books sender i.reference ≡ reply_to books (Entry.Instruct sender i) }
    ensures cancellation { (limit : ℕ) (before books : Books) (sender : List ℕ) (order : CancelOrder)
        → IsVerdict limit before (Entry.Cancel sender order) Accept → books.history ≡ before.history ++ Entry.Cancel sender order ∷ []
        → status_reply books sender order.reference ≡ reply_to books (Entry.Cancel sender order) }
{}

/// Every accepted history has tables, and only one content: its entries with their replies, where each stands, the
/// balances and what was sent are the same in every part.
pub fn one_content()
    ensures exists { (limit : ℕ) (books : Books) → AreBooks books → WasAccepted limit books.history → (content : Content) × AreTables books content }
    ensures one { (x y : Books) (a b : Content) → AreTables x a → AreTables y b → history_of a ≡ history_of b → IsSameContent a b }
{}

/// A settled instruction is confirmed: what was sent first to confirm it went to its sender, under its type and about
/// itself, with the text of its confirmation on the day of the run that settled it.
pub fn settled_is_confirmed()
    ensures { (books : Books) (s : Settled) (n : ℕ) (i : Instructed) → AreBooks books → Contains books.settled s → IsSide s.pair n
        → instruction_at books.history n ≡ Some i → (k : ℕ) × (confirmation_of books n ≡ Some (told books.history k n (Some s.run) i)) }
{}

/// Both legs or neither. The confirmations among the sent messages come in twos next to each other: that a delivery
/// settled (546, against payment 547), and that its receipt did (544, against payment 545), on the same day, in the
/// same quantity of the same security, for the same cash. They stand there exactly when their pair is settled: the two
/// of a settled pair next to each other, to the senders of its two instructions and about these, and of an instruction
/// one where it is settled, else none. Where a delivery's confirmation stands before a receipt's, they are those of one
/// settlement. And each settlement moves both: its quantity, and against payment its amount.
pub fn both_legs()
    ensures in_twos { (books : Books) → AreBooks books → AreWellFormed books.history → ComeInTwos (sent_of books) }
    ensures together { (books : Books) (s : Settled) → AreBooks books → AreWellFormed books.history → Contains books.settled s
        → StandTogether books.history s (sent_of books) }
    ensures neighbours { (books : Books) → AreBooks books → AreWellFormed books.history → NeighboursAreOfOne books (sent_of books) }
    ensures once { (books : Books) (n : ℕ) → AreBooks books
        → count_by (confirms_it n) (sent_of books) ≡ (if is_settled books n then 1 else 0) }
    ensures moved { (books : Books) (s : Settled) (settled : List Settled) → AreBooks books → Contains books.settled s
        → Moves books.history settled s }
{}

/// Beside settlements, a position changes by an issue or a redemption alone, and a participant's cash by a pay in or a
/// pay out alone; and only a run settles.
pub fn nothing_else_changes()
    ensures { (front : Books) (entry : Entry) (books : Books) → AreBooks front → AreBooks books
        → books.history ≡ front.history ++ entry ∷ [] → ChangesOnly front entry books }
{}

/// What is cancelled is so for good, and what is settled too: whatever is accepted later, its state stays and so does
/// its mate. So what is cancelled is not paired and not settled later. And the verdict and the status of an instruction
/// mean one thing by cancelled.
pub fn cancelled_for_good()
    ensures cancelled { (front books : Books) (rest : List Entry) → AreBooks front → AreBooks books → books.history ≡ front.history ++ rest
        → (n : ℕ) → state_of front n ≡ State.Cancelled → (state_of books n ≡ State.Cancelled) × (mate_of books.pairs n ≡ mate_of front.pairs n) }
    ensures settled { (front books : Books) (rest : List Entry) → AreBooks front → AreBooks books → books.history ≡ front.history ++ rest
        → (n : ℕ) → state_of front n ≡ State.Settled → (state_of books n ≡ State.Settled) × (mate_of books.pairs n ≡ mate_of front.pairs n) }
    ensures told { (books : Books) (n : ℕ) → is_cancelled books n ≡ true ↔ (state_of books n ≡ State.Cancelled) }
{}

/// Where each entry was accepted in its turn, a cancellation names one instruction before it, and is a request for that
/// one and no other; no two are requests for one instruction; and what is settled is never cancelled: at most one side
/// of its pair is ever requested.
pub fn cancelled_once()
    ensures names { (limit : ℕ) (history : List Entry) (m : ℕ) (sender : List ℕ) (order : CancelOrder) → WasAccepted limit history
        → entry_at history m ≡ Some (Entry.Cancel sender order)
        → (k : ℕ) × (k < m) × (named_by (before m history) sender order ≡ Some k) × ((j : ℕ) → IsRequestFor history m j ↔ (j ≡ k)) }
    ensures requested { (limit : ℕ) (history : List Entry) (k : ℕ) → WasAccepted limit history
        → is_cancel_requested history k ≡ true ↔ ((m : ℕ) × IsRequestFor history m k) }
    ensures once { (limit : ℕ) (history : List Entry) (m n k : ℕ) → WasAccepted limit history
        → IsRequestFor history m k → IsRequestFor history n k → m ≡ n }
    ensures not_settled { (limit : ℕ) (books : Books) (s : Settled) → WasAccepted limit books.history → AreBooks books → Contains books.settled s
        → is_cancelled_pair books.history s.pair ≡ false }
{}

/// A pair of which one side requests its cancellation settles as if nobody had: of two lists of entries that are the same
/// but for their cancellations, and request the same but for one side of a pair, where the first requests that side and
/// never both, and the second never requests it, the pairs and the settlements are the same. (In place of that request the
/// second has a cancellation that names nothing, which no desk accepts: it stands for the day on which nobody requested.)
/// For pairing and settlement depend on cancellations by what they call off alone, before each entry: an instruction in no
/// pair by a request for it, a pair by requests for both sides. So of two accepted histories that call off the same, in
/// `called_off`.
pub fn requested_alone()
    ensures one_side { (x y : Books) (p : Pair) (k : ℕ) → AreBooks x → AreBooks y → AreSameButCancellations x.history y.history
        → Contains x.pairs p → IsSide p k → is_cancelled_pair x.history p ≡ false → is_cancel_requested y.history k ≡ false
        → ((n j : ℕ) → j ≢ k → is_cancel_requested (before n x.history) j ≡ is_cancel_requested (before n y.history) j)
        → (x.pairs ≡ y.pairs) × (x.settled ≡ y.settled) }
    ensures called_off { (x y : Books) → AreBooks x → AreBooks y → AreSameButCancellations x.history y.history → CallOffTheSame x.pairs x.history y.history
        → (x.pairs ≡ y.pairs) × (x.settled ≡ y.settled) }
{}

/// Each reply to an entry has the status 200, or has 422 and tells a number of the catalogue; and each number of it
/// means one thing.
pub fn known_numbers()
    ensures replies { (books after : Books) (entry : Entry) (verdict : Verdict) (reply : Reply) → IsReply books entry verdict after reply
        → (reply.status ≡ 200) ⊎ ((reply.status ≡ 422) × TellsRefusal books entry reply) }
    ensures one_meaning { (a b : Refusal) → number_of_refusal a ≡ number_of_refusal b → a ≡ b }
{}

/// An entry is well formed exactly where its texts are codes: some message's fields read as an instruction exactly where
/// its texts are codes, and as a cancellation exactly where its two references are.
pub fn spelt_are_well_formed()
    ensures entries { (entry : Entry) → IsSpelt entry ↔ IsWellFormed entry }
    ensures instructions { (i : Instruction) → IsInstructionSpelt i ↔ IsReadable i.mt (Message.New i) }
    ensures cancellations { (order : CancelOrder) → IsReference order.reference × IsReference order.previous ↔ IsReadable order.mt (Message.Cancel order) }
{}
