//! The definitions, tried on a day worked by hand (`worked_day`), and on a run of one pass, which no request asks for
//! (`one_pass`), also where its tables are made anew (`made_anew`); and which pairs a register knows to stay short
//! (`short_pairs`).
mod chain;
mod made_anew;
mod one_pass;
mod short_pairs;
mod worked_day;
