//! Reading a block.
ghost use Rattle.std.specs.Prelude.{◌≡◌, ◌+◌, ◌≤◌, ◌<◌, ◌^◌, [], ◌∷◌, OnOk, IfOk, IsErrOf, false, length, map};
ghost use Rattle.desk_text.specs.Lines.{lines_of};
ghost use Rattle.desk_text.specs.Reading.{read_from, read_text, extend_last};
ghost use Rattle.desk_text.specs.Signs.{sign_of};
ghost use Rattle.desk_text.specs.Seen.{Reads, MayBeBlock, found_of, sign_seen, texts};
ghost use Rattle.desk_text.specs.Steps.{Takes, After, Returns};

use crate::faults::TextFault;
use crate::fields::{Block, Field, USUAL_DEPTH};
use crate::limits::{DEEPEST, LONGEST_TEXT};
use crate::lines::{Line, after_line_end, next_line, read_line};
use smallvec::SmallVec;
use std::alloc::{AllocError, Global};

/// What was read so far, before `-}`.
#[derive(Drop)]
struct Reader<'a> {
    /// The names of the open sequences, the outermost first.
    names: Vec<&'a [u8]>,
    fields: Vec<Field<'a>>,
    /// Whether the last line belongs to a field, whose value may go on.
    goes_on: bool,
}

/// Adds a line to the value of the last field.
fn extend_value<'a>(fields: &mut Vec<Field<'a>>, line: &'a [u8]) -> Result<(), AllocError>
    ensures { OnOk result (map found_of fields.new.items ≡ extend_last (map found_of fields.old.items) (line.entry.now ∷ [])) }
{
    if let Some(field) = fields.last_mut() {
        field.values.push(line)?;
    }
    Ok(())
}

/// The path of a field that stands in these sequences, of which there are mostly one or two.
#[inline(always)]
fn path_of<'a>(
    alloc: Global,
    names: &[&'a [u8]],
) -> Result<SmallVec<&'a [u8], USUAL_DEPTH>, AllocError>
    ensures { IfOk result (λ path. texts path.items ≡ texts names.now) }
{
    match names {
        [only] => Ok(SmallVec::from_buf_and_len(alloc, [*only, *only], 1)),
        [outer, inner] => Ok(SmallVec::from_buf(alloc, [*outer, *inner])),
        _ => SmallVec::from_slice(alloc, names),
    }
}

impl<'a> Reader<'a> {
    /// Takes one line, the one of that number. Answers whether it is `-}`, which ends the block.
    fn take(&mut self, alloc: Global, line: Line<'a>, number: usize) -> Result<bool, TextFault>
        ensures { Takes self.old (sign_seen line.entry) number result self.new }
    {
        match line {
            Line::Opening(name) => {
                if self.names.len() >= DEEPEST {
                    return Err(TextFault::BadNesting(number));
                }
                self.names.push(name)?;
                self.goes_on = false;
                Ok(false)
            }
            Line::Closing(name) => match self.names.pop() {
                Some(top) if top == name => {
                    self.goes_on = false;
                    Ok(false)
                }
                _ => Err(TextFault::BadNesting(number)),
            },
            Line::Start(tag, first) => {
                let path = path_of(alloc, &self.names)?;
                let values = SmallVec::from_slice(alloc, &[first])?;
                self.fields.push(Field {
                    path,
                    tag,
                    values,
                    line: number,
                })?;
                self.goes_on = true;
                Ok(false)
            }
            Line::Further(further) => {
                if !self.goes_on {
                    return Err(TextFault::BadLine(number));
                }
                extend_value(&mut self.fields, further)?;
                Ok(false)
            }
            Line::End => {
                if !self.names.is_empty() {
                    return Err(TextFault::BadNesting(number));
                }
                Ok(true)
            }
            Line::Strange => Err(TextFault::BadLine(number)),
        }
    }
}

/// After `-}`, from the line of that number on, only line ends may come.
// Within its caller's code the loop would be short of registers.
#[inline(never)]
fn only_line_ends(text: &[u8], number: usize) -> Result<(), TextFault>
    requires { number + length text.now < 2 ^ 32 }
    ensures { After text.now number result }
{
    let mut rest = text;
    let mut number = number;
    while let Some(after) = after_line_end(rest) {
        rest = after;
        number += 1;
    }
    if rest.is_empty() {
        return Ok(());
    }
    Err(TextFault::BadLine(number))
}

/// Reads the lines after the first.
fn read_items<'a>(alloc: Global, text: &'a [u8]) -> Result<Block<'a>, TextFault>
    requires { length text.now ≤ LONGEST_TEXT }
    ensures { Returns result (read_from (map sign_of (lines_of text.now)) [] false 2) }
{
    let mut reader = Reader {
        names: Vec::new(alloc),
        fields: Vec::new(alloc),
        goes_on: false,
    };
    let mut rest = text;
    let mut number = 2usize;
    while let Some((line, after)) = next_line(rest) {
        let is_end = reader.take(alloc, read_line(line), number)?;
        if is_end {
            only_line_ends(after, number + 1)?;
            return Ok(Block {
                fields: reader.fields,
            });
        }
        rest = after;
        number += 1;
    }
    Err(TextFault::NotBlock)
}

/// Reads line by line.
fn scan<'a>(alloc: Global, text: &'a [u8]) -> Result<Block<'a>, TextFault>
    ensures gives { Returns result (read_text text.now) }
    ensures memory { IsErrOf result TextFault.Memory → MayBeBlock text.now }
{
    if text.len() > LONGEST_TEXT {
        return Err(TextFault::TooLong);
    }
    match next_line(text) {
        Some((b"{4:", rest)) => read_items(alloc, rest),
        _ => Err(TextFault::NotBlock),
    }
}

/// The fields of a text that is a block, else its fault (ISO 15022, block 4).
///
/// Lines are counted from 1. NotBlock: the first line isn't `{4:`, or the text ends before its `-}`, with no wrong
/// line. BadLine: a byte outside 0x20 to 0x7E, a CR not before LF, or a line that is right under no open sequences, as
/// anything after `-}`. BadNesting: a closing that doesn't fit, a seventeenth open sequence, `-}` with a sequence open.
/// TooLong: more than `LONGEST_TEXT` bytes; this goes before all others. Memory: a growth was refused; a text that is too long, or
/// whose first line isn't `{4:`, is told without one.
pub fn read_block<'a>(alloc: Global, text: &'a [u8]) -> Result<Block<'a>, TextFault>
    ensures { Reads text.now result }
{
    scan(alloc, text)
}
