//! The rules of the desk: what it accepts, which instructions it pairs, what its runs settle, and what it answers.
//!
//! The only state is the history, a list of accepted entries (`Entry`). The definitions of specs/ say what follows
//! from it, a module each for pairing, balances, settlement, verdicts, replies and sent messages; the laws in
//! `laws.rt` say what every history keeps (one pairing, one settlement, each pair settled once, what was sent stays), what
//! one keeps in which each entry was accepted in its turn (nothing made or lost, nothing below 0), and one of well formed
//! entries (each change confirmed, both legs or neither). Begin with `entry.rt`, then
//! specs/History.antt.
//!
//! An entry is well formed exactly where each of its texts is a code: an instruction is well formed where the fields of some
//! message read as it, and who takes an entry from elsewhere, as from a row of a table, has no message. `IsSpelt`
//! (specs/Spelt.antt) asks only what an entry's texts show; `spelt_are_well_formed` says that it asks for enough, and for no
//! more, and `well_formed` that each value of the type `Entry` has it.
#![tactic(auto)]

mod answers;
mod history;
mod laws;
mod limits;

pub use answers::messages::{pairing_advice, settlement_confirmation};
pub use answers::replies::{
    command_reply, message_reply, question_refused, refused_reply, run_reply,
};
pub use answers::reply::{Kept, Notice, Reply, Sent, Text};
pub use answers::verdict::{Refusal, Verdict};
pub use history::entry::{Entry, Instructed, Movement, Payment, RunRule, Sender};
pub use history::formed::well_formed;
pub use history::opposite::are_opposite;
pub use history::pair::{Lack, Pair, Place, Settled};
pub use history::same::same_entry;
pub use history::standing::{Standing, State};
pub use laws::{
    accepted_fronts, accepted_once, adds_up, both_legs, cancelled_for_good, cancelled_once,
    confirmed_changes, fronts, known_numbers, never_negative, nothing_else_changes, nothing_left,
    one_content, one_pair_each, one_pairing, one_settlement, one_verdict, opposites,
    places_in_order, requested_alone, sent_for_good, sent_in_order, settled_is_confirmed,
    settles_once, spelt_are_well_formed, stands_as_accepted,
};
pub use limits::{MOST_ENTRIES, MOST_PAID, MOST_QUANTITY, MOST_SENT, SENT_A_PAIR};
