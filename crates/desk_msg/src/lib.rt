//! The messages of settlement, category 5 of ISO 15022: what a participant instructs, and what the desk answers.
//!
//! `read_instruction_text` gives the message of a text exactly where the text is a block whose fields read as that
//! message by the profile, and else the one refusal; `read_message` does the same for the fields of a block.
//! Fields read as one message or have one fault, and never both (`one_reading`). An `Instruction` or a `CancelOrder`
//! keeps the conditions of the profile in its type, so that nothing above tests them again. `fields_text`,
//! `refusal_text`, `status_text`, `confirmation_text` and `holdings_text` each write one defined text; an advice, a
//! confirmation and a statement of holdings are defined as parts, and so are blocks whose fields are known. A
//! `HoldingsWriter` writes a statement row by row, to any `Sink`. `read_confirmation` reads what a block confirms, and
//! each confirmation that is written is read back as what was settled.
//!
//! Begin with specs/Profile.antt (the used fields as a table, and what their values say) and specs/Reads.antt (which
//! fields read as which message), which src/reading/profile.rt and src/reading/value.rt follow; then
//! specs/StatusText.antt, specs/ConfirmationText.antt, specs/Confirms.antt and specs/HoldingsText.antt.
#![tactic(auto)]

mod depository;
mod fault;
mod instruction;
mod laws;
mod mt;
mod reading;
mod writing;

pub use depository::DESK_BIC;
pub use fault::{MsgFault, Word};
pub use instruction::{CancelOrder, Cash, Instruction, Kind, Message, SettlementType, UnknownKind};
pub use laws::{
    confirmation_says, one_answer, one_confirmation, one_reading, rows_make_statement,
    statement_is_block,
};
pub use mt::{Mt, UnknownType};
pub use reading::confirmed::{Confirmed, read_confirmation};
pub use reading::message::read_message;
pub use reading::refusal::{ReadFault, TextRefusal, read_instruction_text, refusal_text};
pub use writing::confirmation::confirmation_text;
pub use writing::holdings::{HoldingsWriter, holdings_text};
pub use writing::lines::fields_text;
pub use writing::statement_row::{RowSink, SinkFault, StatementRow};
pub use writing::status::{Case, Own, Reason, status_text};
