//! What no clause says and no run of the program shows.
mod desks;
mod plays;
mod reports;
mod streams;
