//! Numbers out of texts that the desk itself wrote. Of texts that it did not write nothing is promised.
pub mod confirmation;
mod digits;
pub mod run;
