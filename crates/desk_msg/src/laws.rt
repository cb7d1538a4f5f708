//! Laws of the definitions, each the contract of a function with an empty body.
ghost use Rattle.std.specs.Prelude.{◌≡◌, ℕ, false, List, All, Result, Ok, Err};
ghost use Rattle.std.specs.Io.KnownBytes.{Appends};
ghost use Rattle.desk_codes.specs.Account.{IsAccount};
ghost use Rattle.desk_codes.specs.Day.{IsDay};
ghost use Rattle.desk_text.specs.Fields.{Found, IsBlock};
ghost use Rattle.desk_text.specs.Written.{fields_written};
ghost use Rattle.desk_msg.specs.declared.mt.Mt.{Mt};
ghost use Rattle.desk_msg.specs.declared.fault.MsgFault.{MsgFault};
ghost use Rattle.desk_msg.specs.declared.instruction.Instruction.{Instruction};
ghost use Rattle.desk_msg.specs.declared.instruction.Message.{Message};
ghost use Rattle.desk_msg.specs.ConfirmationText.{confirmation, confirming_type};
ghost use Rattle.desk_msg.specs.declared.reading.confirmed.Confirmed.{Confirmed};
ghost use Rattle.desk_msg.specs.Confirms.{Confirms, confirmed_of};
ghost use Rattle.desk_msg.specs.declared.writing.statement_row.StatementRow.{StatementRow};
ghost use Rattle.desk_msg.specs.declared.writing.holdings.HoldingsWriter.{HoldingsWriter};
ghost use Rattle.desk_msg.specs.HoldingsText.{holdings, holdings_parts, IsStatementRow};
ghost use Rattle.desk_msg.specs.HoldingsPieces.{TakesRow, rest_text};
ghost use Rattle.desk_msg.specs.TookRows.{TookAll};
ghost use Rattle.desk_msg.specs.Reads.{ReadsFields};
ghost use Rattle.desk_msg.specs.Refused.{ReadsText};
ghost use Rattle.desk_msg.specs.declared.reading.refusal.ReadFault.{ReadFault};
ghost use Rattle.desk_msg.specs.declared.reading.refusal.TextRefusal.{TextRefusal};

use std::io::Write;

/// Fields read as one message or have one fault, and never both.
pub fn one_reading()
    ensures { (mt : Mt) (fields : List Found) (a b : Result Message MsgFault) → ReadsFields mt fields a → ReadsFields mt fields b → a ≡ b }
{}

/// A text reads as one message or has one refusal, and never both.
pub fn one_answer()
    ensures message { (mt : Mt) (text : List ℕ) (a b : Message) → ReadsText mt text (Ok a) → ReadsText mt text (Ok b) → a ≡ b }
    ensures refusal { (mt : Mt) (text : List ℕ) (a b : TextRefusal) → ReadsText mt text (Err (ReadFault.Refused a)) → ReadsText mt text (Err (ReadFault.Refused b)) → a ≡ b }
    ensures never_both { (mt : Mt) (text : List ℕ) (a : Message) (b : TextRefusal) → ReadsText mt text (Ok a) → ReadsText mt text (Err (ReadFault.Refused b)) → ⊥ }
{}

/// What is sent to confirm the settlement of an instruction is read back as that: its text is a block, and the fields
/// of the block say the reference, the day, the security, the quantity, the account and the amount, for each instruction
/// that was read.
pub fn confirmation_says()
    ensures { (n : ℕ) (i : Instruction) (day : List ℕ) (fields : List Found) → ReadsFields i.mt fields (Ok (Message.New i)) → IsDay day
        → (said : List Found) × IsBlock (confirmation n i day) said × Confirms (confirming_type i.mt) said (Ok (confirmed_of i day)) }
{}

/// Fields confirm one settlement at most or have one fault at most, and never both.
pub fn one_confirmation()
    ensures { (mt : Mt) (fields : List Found) (a b : Result Confirmed MsgFault) → Confirms mt fields a → Confirms mt fields b → a ≡ b }
{}

/// A statement of holdings is a block, of just the fields that are written.
pub fn statement_is_block()
    ensures { (entries : ℕ) (day account : List ℕ) (rows : List StatementRow) → IsDay day → IsAccount account → All IsStatementRow rows
        → IsBlock (holdings entries day account rows) (fields_written (holdings_parts entries day account rows)) }
{}

/// A statement that is written row by row is the defined one: where rows were taken one after another of a statement
/// without a row, and what ends it was written behind them, the writer holds the text of just these rows, in their order,
/// behind what it held at first. The statement keeps its writer.
pub fn rows_make_statement<W: Write>()
    ensures text { (first last : HoldingsWriter W) (rows : List StatementRow) (end : W) → first.is_begun ≡ false → TookAll (TakesRow W.contents) first rows last
        → Appends (W.contents last.writer.now) (W.contents end) (rest_text last.heading last.is_begun)
        → Appends (W.contents first.writer.now) (W.contents end) (holdings first.heading.entries first.heading.day first.heading.account rows) }
    ensures writer { (first last : HoldingsWriter W) (rows : List StatementRow) → first.is_begun ≡ false → TookAll (TakesRow W.contents) first rows last → last.writer.ghost_name ≡ first.writer.ghost_name }
{}
