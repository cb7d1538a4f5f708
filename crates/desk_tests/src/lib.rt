//! The tests of the libraries: outside vectors, worked days, and what no clause says and no run of a program shows. They
//! stand in a crate of their own, since a crate with tests is proved twice, and in one, since each such crate is compiled
//! with all that it reaches.
#![tactic(auto)]

#[cfg(test)]
mod book;
#[cfg(test)]
mod codes;
#[cfg(test)]
mod made;
#[cfg(test)]
mod msg;
#[cfg(test)]
mod reasons;
#[cfg(test)]
mod rules;
#[cfg(test)]
mod text;
