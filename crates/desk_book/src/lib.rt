//! Requests to replies: what is asked of the desk, as a script, an operator's command or a message, and how
//! its answers are written.
//!
//! Begin with `Question` and `Request` in `question.rt`. What a script asks stands in specs/Script.antt, which lines ask
//! something in specs/Forms.antt; `first_item` of `script.rt` reads one. `task_of` says what a request is read as,
//! `Desk::ask` (`desk.rt`, `answering.rt`, `questions.rt`) answers it, and `Desk::play` (`playing.rt`) a whole script.
//! Statements (`statement.rt`) and sums (`summing.rt`) are written row by row, as they are read: `Desk::holdings_to` and
//! `Desk::sums_to` (`telling.rt`) write them to any `Sink`, which specs/WrittenTo.antt speaks of, and `ask` to memory. What
//! may be relied on after every answer stands in specs/Headline.antt, and what each call leaves of a desk in
//! specs/Left.antt.
#![tactic(auto)]

mod answers;
mod desk;
mod fault;
mod laws;
mod limits;
mod playing;
mod requests;

pub use answers::head::Head;
pub use answers::outgoing::{add_answer, add_fault};
pub use answers::summing::write_sums;
pub use answers::total::{CashTotal, SecurityTotal};
pub use answers::writing::{write_row, write_text};
pub use desk::{Desk, WasClosed};
pub use fault::{Fault, PlayFault, ToFault};
pub use laws::{
    accepted_again, accepted_stays, changes_are_confirmed, closed_for_good, headline,
    known_replies, one_command, one_reply, one_script, one_task, questions_answered,
    reads_well_formed, repeats_act_once, sums_agree,
};
pub use limits::{LONGEST_LINE, LONGEST_NUMBER, LONGEST_SCRIPT, MOST_DIGITS};
pub use requests::command::read_command;
pub use requests::form::{count_of, number_of, party};
pub use requests::line::{first_line, has_body, is_skipped, is_stop, said_by};
pub use requests::question::{InstructionType, Question, Request};
pub use requests::script::{Item, first_item, item_count};
pub use requests::task::{Task, task_of};
