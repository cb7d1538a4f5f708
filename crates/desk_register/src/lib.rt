//! The register: the law by which every store of the desk is judged.
//!
//! `Register` in `register.rt` is the law, `MemoryRegister` in `memory.rt` that of the stores in memory, `Messages` in
//! `messages.rt` that of those that find what they sent by its number, and `ToldRegister` in `told.rt` that of those that are
//! told what is known of a pair. What their clauses speak of stands in specs/: View.antt says how a call changes a register,
//! Changes.antt what its calls make of the content, Looked.antt what its look-ups find there, Short.antt which pairs stay
//! short, Ends.antt how a walk over a register ends, which may break off (`fault.rt`), and Device.antt when there is nothing
//! that could fail; `laws.rt` says that what is held adds up after each change. The content is that of specs/Content.antt in
//! `desk_rules`. Begin with `register.rt`, then specs/View.antt.
#![tactic(auto)]

mod fault;
mod holding;
mod laws;
mod memory;
mod messages;
mod order;
mod outcome;
mod register;
mod told;

pub use fault::WalkFault;
pub use holding::Holding;
pub use laws::sums_stay;
pub use memory::MemoryRegister;
pub use messages::Messages;
pub use order::{is_above, is_less};
pub use outcome::Outcome;
pub use register::{Fault, MOST_FAILURES, Register, Stage};
pub use told::{KnownPair, ToldRegister};
