//! Which matched pairs are due, and which of them are known to stay short, so that a run need not try them.
//!
//! `due_places` finds matched pairs by their days. `shortages` is what is kept of those that stay short, and `knowing` its
//! calls; `waits` has for how much of what pairs wait (`waiting`), and `wants` what that may be. `counts` and `ordered` have the
//! maps and sets beneath. Begin with specs/Shortages.antt.
#![tactic(auto)]

mod counts;
mod due_places;
mod knowing;
pub mod ordered;
mod shortages;
mod waiting;
mod waits;
mod wants;

pub use due_places::{first_due, first_to_try};
pub use shortages::Shortages;
