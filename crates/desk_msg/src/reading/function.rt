//! The function of an instruction.

/// What the sender of an instruction's type wants (ISO 15022, field 23G).
#[derive(Clone, Copy)]
pub enum FunctionCode {
    /// NEWM: a new instruction
    Newm,
    /// CANC: to cancel an earlier one
    Canc,
}
