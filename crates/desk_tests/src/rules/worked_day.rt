//! The definitions of verdicts, replies, messages and confirmations, tried on a day worked by hand (specs/WorkedDay.antt).
//! What each gives there stands in a contract, so it is the check that computes it: the run has nothing to do.
ghost use Rattle.std.specs.Prelude.{◌≡◌, [], ◌∷◌, codes, Some, None};
ghost use Rattle.std.proofs.Common.{lit<, lit≤};
ghost use Rattle.desk_codes.specs.declared.currency.Ccy.TheVariants.{Eur};
ghost use Rattle.desk_msg.specs.declared.mt.Mt.TheVariants.{Mt541, Mt543};
ghost use Rattle.desk_msg.specs.declared.instruction.Kind.TheVariants.{Unit as Units, FaceAmount};
ghost use Rattle.desk_msg.specs.declared.writing.status.Own.TheVariants as owns;
ghost use Rattle.desk_msg.specs.declared.writing.status.Reason.TheVariants as reasons;
ghost use Rattle.desk_msg.specs.declared.writing.status.Case.TheVariants as cases;
ghost use Rattle.desk_msg.specs.StatusText.{advice};
ghost use Rattle.desk_msg.specs.ConfirmationText.{confirmation};
ghost use Rattle.desk_text.specs.Lines.{lines_of};
ghost use Rattle.desk_rules.specs.declared.history.entry.Entry.TheVariants as entries;
ghost use Rattle.desk_rules.specs.declared.history.entry.RunRule.TheVariants.{OnePass, Passes};
ghost use Rattle.desk_rules.specs.declared.answers.verdict.Verdict.TheVariants.{Accept, Repeat, Refuse};
ghost use Rattle.desk_rules.specs.declared.answers.verdict.Refusal.TheVariants as refusals;
ghost use Rattle.desk_rules.specs.Verdict.{IsVerdict};
ghost use Rattle.desk_rules.specs.Reply.{advice_reply, untyped_reply, refused_reply, reply_to};
ghost use Rattle.desk_rules.specs.Sent.{sent_of};
ghost use Rattle.desk_rules.specs.Confirmations.{brought, cash_brought, cash_taken, taken};
ghost use Rattle.desk_rules.specs.Pairing.{mate_of};
ghost use Rattle.desk_rules.specs.Questions.{sent_reply, status_reply};
ghost use Rattle.desk_tests.specs.WorkedDay.{a_1, alpha, at_asked, at_asked_run, at_both_asked, at_cancel, at_cancelled_run, at_delivery, at_receipt, at_run, at_short_run, b_1, beta, cancel, cancel_as_free, cancel_receipt, confirmations, delivery, gamma, movement, larger, leap_day, payment, receipt, share};

/// The replies to what was accepted, and two of refusals.
fn replies()
    ensures delivery { reply_to at_delivery (entries.Instruct alpha delivery) ≡ advice_reply 200 (advice (owns.Answer 8) Mt543 (codes "A1") cases.Unmatched) }
    ensures receipt { reply_to at_receipt (entries.Instruct beta receipt) ≡ advice_reply 200 (advice (owns.Answer 9) Mt541 (codes "B1") (cases.Matched reasons.Future)) }
    ensures run { reply_to at_run (entries.Run (codes "R1") leap_day Passes) ≡ untyped_reply 200 (codes "accepted 10 settled 1 waiting 0") }
    ensures short_run { reply_to at_short_run (entries.Run (codes "R1") leap_day Passes) ≡ untyped_reply 200 (codes "accepted 10 settled 0 waiting 1") }
    ensures cancel { reply_to at_cancel (entries.Cancel alpha (cancel (codes "X1") (codes "A1"))) ≡ advice_reply 200 (advice (owns.Answer 9) Mt543 (codes "X1") cases.CancelDone) }
    ensures asked { reply_to at_asked (entries.Cancel alpha (cancel (codes "X1") (codes "A1"))) ≡ advice_reply 200 (advice (owns.Answer 10) Mt543 (codes "X1") cases.CancelWaits) }
    ensures both_asked { reply_to at_both_asked (entries.Cancel beta (cancel_receipt (codes "X2"))) ≡ advice_reply 200 (advice (owns.Answer 11) Mt541 (codes "X2") cases.CancelDone) }
    ensures asked_run { reply_to at_asked_run (entries.Run (codes "R1") leap_day Passes) ≡ untyped_reply 200 (codes "accepted 11 settled 1 waiting 0") }
    ensures cancelled_run { reply_to at_cancelled_run (entries.Run (codes "R1") leap_day Passes) ≡ untyped_reply 200 (codes "accepted 12 settled 0 waiting 0") }
    ensures reused { refused_reply at_run (entries.Instruct alpha larger) 11 ≡ advice_reply 422 (advice (owns.Answer 10) Mt543 (codes "A1") (cases.NewRefused 11)) }
    ensures full { refused_reply at_run (entries.Participant (codes "P3") gamma) 21 ≡ untyped_reply 422 (codes "refused 21") }
{}

/// What was sent by the end of the day, and how the questions about it are answered.
fn messages()
    ensures sent { sent_of at_run ≡ record { bic = alpha; mt = 548; about = 8; text = advice (owns.Sent 1) Mt543 (codes "A1") (cases.Matched reasons.Future) }
        ∷ record { bic = alpha; mt = 547; about = 8; text = confirmation 2 delivery leap_day }
        ∷ record { bic = beta; mt = 545; about = 9; text = confirmation 3 receipt leap_day }
        ∷ [] }
    ensures settled { status_reply at_run alpha (codes "A1") ≡ record { status = 200; mt = Some 547; text = confirmation 2 delivery leap_day } }
    ensures short { status_reply at_short_run alpha (codes "A1") ≡ advice_reply 200 (advice (owns.Answer 10) Mt543 (codes "A1") (cases.Matched reasons.Money)) }
    ensures future { status_reply at_receipt alpha (codes "A1") ≡ advice_reply 200 (advice (owns.Answer 9) Mt543 (codes "A1") (cases.Matched reasons.Future)) }
    ensures unmatched { status_reply at_delivery alpha (codes "A1") ≡ advice_reply 200 (advice (owns.Answer 8) Mt543 (codes "A1") cases.Unmatched) }
    ensures cancelled { status_reply at_cancel alpha (codes "A1") ≡ advice_reply 200 (advice (owns.Answer 9) Mt543 (codes "A1") cases.Cancelled) }
    ensures cancel { status_reply at_cancel alpha (codes "X1") ≡ advice_reply 200 (advice (owns.Answer 9) Mt543 (codes "X1") cases.CancelDone) }
    ensures waits { status_reply at_asked alpha (codes "X1") ≡ advice_reply 200 (advice (owns.Answer 10) Mt543 (codes "X1") cases.CancelWaits) }
    ensures waits_alone { status_reply at_asked alpha (codes "A1") ≡ advice_reply 200 (advice (owns.Answer 10) Mt543 (codes "A1") (cases.Matched reasons.Future)) }
    ensures both_cancelled { status_reply at_both_asked alpha (codes "A1") ≡ advice_reply 200 (advice (owns.Answer 11) Mt543 (codes "A1") cases.Cancelled) }
    ensures other_cancelled { status_reply at_both_asked beta (codes "B1") ≡ advice_reply 200 (advice (owns.Answer 11) Mt541 (codes "B1") cases.Cancelled) }
    ensures first_done { status_reply at_both_asked alpha (codes "X1") ≡ advice_reply 200 (advice (owns.Answer 11) Mt543 (codes "X1") cases.CancelDone) }
    ensures too_late { status_reply at_asked_run alpha (codes "X1") ≡ advice_reply 200 (advice (owns.Answer 11) Mt543 (codes "X1") (cases.CancelRefused 19)) }
    ensures cancels_send_nothing { sent_of at_cancelled_run ≡ sent_of at_receipt }
    ensures none_such { status_reply at_run alpha (codes "B1") ≡ untyped_reply 422 (codes "refused 17") }
    ensures stranger { status_reply at_run gamma (codes "A1") ≡ untyped_reply 422 (codes "refused 10") }
    ensures second { sent_reply at_run alpha 2 ≡ record { status = 200; mt = Some 547; text = confirmation 2 delivery leap_day } }
    ensures first_of_beta { sent_reply at_run beta 1 ≡ record { status = 200; mt = Some 545; text = confirmation 3 receipt leap_day } }
    ensures past { sent_reply at_run alpha 3 ≡ untyped_reply 422 (codes "refused 42") }
    ensures nought { sent_reply at_run alpha 0 ≡ untyped_reply 422 (codes "refused 42") }
    ensures mates { (mate_of at_run.pairs 8 ≡ Some 9) × (mate_of at_run.pairs 9 ≡ Some 8) × (mate_of at_run.pairs 7 ≡ None) }
{}

/// The lines of the deliverer's confirmation, as they are sent.
fn confirmed()
    ensures { lines_of (confirmation 2 delivery leap_day) ≡ codes "{4:"
        ∷ codes ":16R:GENL"
        ∷ codes ":20C::SEME//D000000000000002"
        ∷ codes ":23G:NEWM"
        ∷ codes ":16R:LINK"
        ∷ codes ":20C::RELA//A1"
        ∷ codes ":16S:LINK"
        ∷ codes ":16S:GENL"
        ∷ codes ":16R:TRADDET"
        ∷ codes ":98A::ESET//20240229"
        ∷ codes ":35B:ISIN DE0007164600"
        ∷ codes ":16S:TRADDET"
        ∷ codes ":16R:FIAC"
        ∷ codes ":36B::ESTT//UNIT/400,"
        ∷ codes ":97A::SAFE//A-1"
        ∷ codes ":16S:FIAC"
        ∷ codes ":16R:SETDET"
        ∷ codes ":22F::SETR//TRAD"
        ∷ codes ":16R:SETPRTY"
        ∷ codes ":95P::REAG//BETADEFF"
        ∷ codes ":16S:SETPRTY"
        ∷ codes ":16R:SETPRTY"
        ∷ codes ":95P::PSET//DESKDEFF"
        ∷ codes ":16S:SETPRTY"
        ∷ codes ":16R:AMT"
        ∷ codes ":19A::ESTT//EUR1000,5"
        ∷ codes ":16S:AMT"
        ∷ codes ":16S:SETDET"
        ∷ codes "-}"
        ∷ [] }
{}

/// What the confirmations of the day bring and take.
fn brought_and_taken()
    ensures from { (taken confirmations a_1 share ≡ 400) × (brought confirmations a_1 share ≡ 0) }
    ensures to { (brought confirmations b_1 share ≡ 400) × (taken confirmations b_1 share ≡ 0) }
    ensures paid { (cash_brought confirmations alpha Eur ≡ 100_050) × (cash_taken confirmations alpha Eur ≡ 0) }
    ensures paying { (cash_taken confirmations beta Eur ≡ 100_050) × (cash_brought confirmations beta Eur ≡ 0) }
{}

/// The verdicts on messages at the end of the day, and on cancellations in its course. Where several checks fail it
/// is the first that counts.
fn verdicts_on_messages()
    ensures stranger { IsVerdict 999 at_run (entries.Instruct gamma (record delivery { place = gamma })) (Refuse refusals.SenderUnknown) }
    ensures repeat { IsVerdict 999 at_run (entries.Instruct alpha delivery) (Repeat 8) }
    ensures reused { IsVerdict 999 at_run (entries.Instruct alpha larger) (Refuse refusals.ReferenceReused) }
    ensures reused_by_cancel { IsVerdict 999 at_run (entries.Cancel alpha (cancel (codes "A1") (codes "A1"))) (Refuse refusals.ReferenceReused) }
    ensures place { IsVerdict 999 at_run (entries.Instruct alpha (record delivery { reference = codes "A2"; place = gamma; isin = gamma })) (Refuse refusals.PlaceNotUs) }
    ensures security { IsVerdict 999 at_run (entries.Instruct alpha (record delivery { reference = codes "A2"; isin = gamma; kind = FaceAmount })) (Refuse refusals.UnknownSecurity) }
    ensures kind { IsVerdict 999 at_run (entries.Instruct alpha (record delivery { reference = codes "A2"; kind = FaceAmount; account = b_1 })) (Refuse refusals.KindDiffers) }
    ensures account { IsVerdict 999 at_run (entries.Instruct alpha (record delivery { reference = codes "A2"; account = b_1; counterparty = gamma })) (Refuse refusals.AccountNotSenders) }
    ensures counterparty { IsVerdict 10 at_run (entries.Instruct alpha (record delivery { reference = codes "A2"; counterparty = gamma })) (Refuse refusals.CounterpartyUnknown) }
    ensures full { IsVerdict 10 at_run (entries.Instruct alpha (record delivery { reference = codes "A2" })) (Refuse refusals.Full) }
    ensures right { IsVerdict 11 at_run (entries.Instruct alpha (record delivery { reference = codes "A2" })) Accept }
    ensures others_reference { IsVerdict 11 at_run (entries.Instruct alpha (record delivery { reference = codes "B1" })) Accept }
    ensures cancel { IsVerdict 999 at_delivery (entries.Cancel alpha (cancel (codes "X1") (codes "A1"))) Accept }
    ensures cancelled { IsVerdict 999 at_cancel (entries.Cancel alpha (cancel (codes "X2") (codes "A1"))) (Refuse refusals.AlreadyCancelled) }
    ensures settled { IsVerdict 999 at_run (entries.Cancel alpha (cancel (codes "X1") (codes "A1"))) (Refuse refusals.AlreadySettled) }
    ensures matched { IsVerdict 999 at_receipt (entries.Cancel alpha (cancel (codes "X1") (codes "A1"))) Accept }
    ensures waits { IsVerdict 999 at_asked (entries.Cancel alpha (cancel (codes "X3") (codes "A1"))) (Refuse refusals.CancellationWaits) }
    ensures other_side { IsVerdict 999 at_asked (entries.Cancel beta (cancel_receipt (codes "X2"))) Accept }
    ensures both_asked { IsVerdict 999 at_both_asked (entries.Cancel alpha (cancel (codes "X3") (codes "A1"))) (Refuse refusals.AlreadyCancelled) }
    ensures after_all { IsVerdict 999 at_asked_run (entries.Cancel beta (cancel_receipt (codes "X2"))) (Refuse refusals.AlreadySettled) }
    ensures waiting_repeat { IsVerdict 999 at_asked_run (entries.Cancel alpha (cancel (codes "X1") (codes "A1"))) (Repeat 10) }
    ensures none_such { IsVerdict 999 at_cancel (entries.Cancel alpha (cancel (codes "X3") (codes "ZZ"))) (Refuse refusals.NoSuchInstruction) }
    ensures another_type { IsVerdict 999 at_cancel (entries.Cancel alpha (cancel_as_free (codes "X4") (codes "A1"))) (Refuse refusals.NoSuchInstruction) }
    ensures of_a_cancel { IsVerdict 999 at_cancel (entries.Cancel alpha (cancel (codes "X5") (codes "X1"))) (Refuse refusals.NoSuchInstruction) }
    ensures anothers { IsVerdict 999 at_delivery (entries.Cancel beta (cancel (codes "X1") (codes "A1"))) (Refuse refusals.NoSuchInstruction) }
{}

/// The verdicts on registrations and runs at the end of the day.
fn verdicts_on_registrations()
    ensures repeat { IsVerdict 10 at_run (entries.Participant (codes "P1") alpha) (Repeat 1) }
    ensures reused { IsVerdict 999 at_run (entries.Participant (codes "P1") gamma) (Refuse refusals.CommandReused) }
    ensures participant { IsVerdict 10 at_run (entries.Participant (codes "P3") alpha) (Refuse refusals.Exists) }
    ensures full { IsVerdict 10 at_run (entries.Participant (codes "P3") gamma) (Refuse refusals.Full) }
    ensures new { IsVerdict 11 at_run (entries.Participant (codes "P3") gamma) Accept }
    ensures account { IsVerdict 999 at_run (entries.Account (codes "C3") gamma a_1) (Refuse refusals.Exists) }
    ensures owner { IsVerdict 999 at_run (entries.Account (codes "C3") gamma alpha) (Refuse refusals.ParticipantUnknown) }
    ensures security { IsVerdict 999 at_run (entries.Security (codes "S2") share FaceAmount) (Refuse refusals.Exists) }
    ensures day_before { IsVerdict 999 at_run (entries.Run (codes "R2") (codes "20240228") Passes) (Refuse refusals.DayGoesBack) }
    ensures same_day { IsVerdict 999 at_run (entries.Run (codes "R2") leap_day Passes) Accept }
    ensures same_run { IsVerdict 999 at_run (entries.Run (codes "R1") leap_day Passes) (Repeat 10) }
    ensures other_rule { IsVerdict 999 at_run (entries.Run (codes "R1") leap_day OnePass) (Repeat 10) }
    ensures another_run { IsVerdict 999 at_run (entries.Run (codes "R1") (codes "20240301") Passes) (Refuse refusals.CommandReused) }
{}

/// The verdicts on issues and redemptions, pay ins and pay outs at the end of the day: up to the limit, and past it.
fn verdicts_on_balances()
    ensures issue { IsVerdict 999 at_run (entries.Issue (movement (codes "I2") b_1 99_999_999_998_999 (lit< tt) (lit≤ tt))) Accept }
    ensures over { IsVerdict 999 at_run (entries.Issue (movement (codes "I2") b_1 99_999_999_999_000 (lit< tt) (lit≤ tt))) (Refuse refusals.OverLimit) }
    ensures nowhere { IsVerdict 999 at_run (entries.Issue (record (movement (codes "I2") gamma 99_999_999_999_000 (lit< tt) (lit≤ tt)) { isin = gamma })) (Refuse refusals.AccountUnknown) }
    ensures nothing { IsVerdict 999 at_run (entries.Redeem (record (movement (codes "I2") a_1 601 (lit< tt) (lit≤ tt)) { isin = gamma })) (Refuse refusals.SecurityUnknown) }
    ensures redeem { IsVerdict 999 at_run (entries.Redeem (movement (codes "I2") a_1 600 (lit< tt) (lit≤ tt))) Accept }
    ensures too_much { IsVerdict 999 at_run (entries.Redeem (movement (codes "I2") a_1 601 (lit< tt) (lit≤ tt))) (Refuse refusals.NotEnough) }
    ensures received { IsVerdict 999 at_run (entries.Redeem (movement (codes "I2") b_1 400 (lit< tt) (lit≤ tt))) Accept }
    ensures pay_in { IsVerdict 999 at_run (entries.PayIn (payment (codes "M2") alpha 999_999_999_999_899_949 (lit< tt) (lit≤ tt))) Accept }
    ensures paid_over { IsVerdict 999 at_run (entries.PayIn (payment (codes "M2") alpha 999_999_999_999_899_950 (lit< tt) (lit≤ tt))) (Refuse refusals.OverLimit) }
    ensures pay_out { IsVerdict 999 at_run (entries.PayOut (payment (codes "M2") alpha 100_050 (lit< tt) (lit≤ tt))) Accept }
    ensures overdrawn { IsVerdict 999 at_run (entries.PayOut (payment (codes "M2") alpha 100_051 (lit< tt) (lit≤ tt))) (Refuse refusals.NotEnough) }
    ensures spent { IsVerdict 999 at_run (entries.PayOut (payment (codes "M2") beta 1 (lit< tt) (lit≤ tt))) (Refuse refusals.NotEnough) }
    ensures to_nobody { IsVerdict 999 at_run (entries.PayOut (payment (codes "M2") gamma 1 (lit< tt) (lit≤ tt))) (Refuse refusals.ParticipantUnknown) }
{}

#[test]
fn the_definitions_give_the_worked_day(_rt: HostRuntime) {
    replies();
    messages();
    confirmed();
    brought_and_taken();
    verdicts_on_messages();
    verdicts_on_registrations();
    verdicts_on_balances();
}
