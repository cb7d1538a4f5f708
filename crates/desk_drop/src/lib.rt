//! A folder of files, asked of the desk: batch, as small depositories work.
//!
//! Begin with `DropFile` in `file.rt`. `question_of`, in `naming.rt`, reads what a file asks from its name: specs/Names.antt.
//! Which list of requests a folder is, in which order, says specs/Folder.antt. `take`, in `taking.rt`, asks them of a desk one
//! after another: specs/Taken.antt. That a folder may be taken again without harm is the law `taken_again`; that it may be listed
//! in any order, `listed_in_any_order`.
#![tactic(auto)]

mod file;
mod laws;
mod naming;
mod order;
mod taking;

pub use file::{DropFile, DropReply};
pub use laws::{listed_in_any_order, one_question, taken_again};
pub use naming::question_of;
pub use taking::take;
