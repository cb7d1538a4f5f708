//! The desk over HTTP/1.1 (RFC 9110 and 9112): one connection, one request, one response.
//!
//! Begin with specs/Connection.antt: what a connection's stream of bytes asks, or how it is refused, whatever pieces it
//! comes in. `connection` (`decision.rt`) says it of a whole stream; `serve_one` (`serving.rt`) reads a stream in pieces,
//! asks the desk and writes the response, whose bytes stand in specs/Response.antt and specs/Served.antt. The paths of the
//! desk stand in specs/Paths.antt.
#![tactic(auto)]

mod call;
mod decision;
mod field;
mod laws;
mod limits;
mod reading;
mod refusal;
mod response;
mod route;
mod serving;

pub use decision::connection;
pub use laws::{one_outcome, outcome_stays};
pub use limits::{LONGEST_HEAD, LONGEST_REQUEST, MOST_FIELDS, MOST_LENGTH_DIGITS};
pub use refusal::{HttpFault, Refusal};
pub use route::Routes;
pub use serving::serve_one;
