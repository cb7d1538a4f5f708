//! The desk's rules over any register: what it decides on an entry, what an accepted one does, and its reply.
//!
//! `decision.rt` rules on an entry, by the checks of `checks.rt`. `accepting.rt` is the one step by which an accepted
//! one is taken in: begun, taken into the tables by `applying.rt`, and committed or taken back. `adding.rt` adds it and
//! pairs it, `cancelling.rt` cancels what it calls off, `settlement_run.rt` settles in a run, `sending.rt` sends what is
//! told of pairs and settlements, and `replies.rt` writes the replies. specs/Applied.antt says what a register keeps of a
//! history, and what an accepted entry leaves behind. Begin with it, then `decision.rt` and `accepting.rt`; specs/Ready.antt
//! says what an open desk's register keeps.
//!
//! What a register kept is taken in once more, entry by entry, with the reply that was kept of each. `take_kept`, in
//! `taking.rt`, is one step: the entry is decided on, taken in where it is accepted, and the reply that it gets is compared
//! with the kept one (`same.rt`). `replay`, in `replaying.rt`, takes a list from its first entry on: it answers true exactly
//! where the list is one that a desk can have kept, and then the register holds it, with all that follows from it.
//! specs/KeptHistory.antt says what a desk can have kept, and when a register holds it.
//!
//! `rebuild`, in `rebuilding.rt`, makes the tables of a history anew, from its entries alone: it takes each in by `apply`, in
//! its turn and with the reply that it gets, decides on none, and keeps them all at once. specs/Rebuilt.antt says what the
//! register holds then.
#![tactic(auto)]

mod accepting;
mod adding;
mod applied;
mod applying;
mod cancelling;
mod checks;
mod decision;
mod laws;
mod naming;
mod rebuilding;
mod replaying;
mod replies;
mod same;
mod sending;
mod settlement_run;
mod taking;

pub use accepting::{Failure, accept, recover};
pub use applied::{Accepted, Applied};
pub use applying::apply;
pub use checks::refuse;
pub use decision::{decide, is_from_stranger};
pub use laws::{
    empty_holds, empty_keeps, held_can_be_kept, held_is_sound, kept_fronts, positions_add_up, sound,
};
pub use naming::instruction_named;
pub use rebuilding::rebuild;
pub use replaying::replay;
pub use replies::refused_reply;
pub use same::same_reply;
pub use taking::take_kept;
