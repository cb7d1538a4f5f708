//! Writing a block.
ghost use Rattle.std.specs.Prelude.{◌≡◌, ◌≢◌, ◌≤◌, ◌<◌, ◌+◌, ◌++◌, ◌∷◌, [], List, length, take, drop, vec_len, OnOk, OnErr, IfOk, IsTrue, codes};
ghost use Rattle.std.specs.List.{flat_map};
ghost use Rattle.desk_text.specs.Lines.{value_lines, written};
ghost use Rattle.desk_text.specs.BlockGrammar.{is_name, is_tag};
ghost use Rattle.desk_text.specs.Fields.{IsBlock};
ghost use Rattle.desk_text.specs.Written.{Part, open_part, field_part, close_part, is_value, AreParts, lines_of_part, fields_written, fresh, after, innermost, finished, first_line};
ghost use Rattle.desk_text.specs.Writing.{IsStarted};

use crate::spelling::split_feed;
use std::alloc::{AllocError, Global};
use std::marker::Model;
use std::mem;

/// The first line of a block, with its end.
const FIRST_LINE: &[u8] = b"{4:\r\n";

/// The last line of a block, which has no end.
const LAST_LINE: &[u8] = b"-}";

/// Adds all pieces at the end, or none.
fn append_all(out: &mut Vec<u8>, pieces: &[&[u8]]) -> Result<(), AllocError>
    ensures ok { OnOk result (out.new.items ≡ out.old.items ++ flat_map (λ piece. piece.now) pieces.now) }
    ensures err { OnErr result (out.new.items ≡ out.old.items) }
{
    let start = out.len();
    for piece in pieces {
        if let Err(error) = out.extend_from_slice(piece) {
            out.truncate(start);
            return Err(error);
        }
    }
    Ok(())
}

/// Sees to it that the first line stands in front.
fn begin(buffer: &mut Vec<u8>) -> Result<(), AllocError>
    requires { IsStarted buffer.old.items }
    ensures ok { OnOk result (take 5 buffer.new.items ≡ first_line) }
    ensures same { drop 5 buffer.new.items ≡ drop 5 buffer.old.items }
    ensures started { IsStarted buffer.new.items }
{
    if buffer.is_empty() {
        return append_all(buffer, &[FIRST_LINE]);
    }
    Ok(())
}

/// Adds the line of an opening or a closing.
fn append_name_line(out: &mut Vec<u8>, front: &[u8], name: &[u8]) -> Result<(), AllocError>
    ensures ok { OnOk result (out.new.items ≡ out.old.items ++ written ((front.now ++ name.now) ∷ [])) }
    ensures err { OnErr result (out.new.items ≡ out.old.items) }
{
    append_all(out, &[front, name, b"\r\n"])
}

/// Adds the line of an opening or a closing, behind the first line.
fn append_name(buffer: &mut Vec<u8>, front: &[u8], name: &[u8]) -> Result<(), AllocError>
    requires { IsStarted buffer.old.items }
    ensures ok { OnOk result (drop 5 buffer.new.items ≡ drop 5 buffer.old.items ++ written ((front.now ++ name.now) ∷ [])) }
    ensures err { OnErr result (drop 5 buffer.new.items ≡ drop 5 buffer.old.items) }
    ensures started { IsStarted buffer.new.items }
{
    begin(buffer)?;
    append_name_line(buffer, front, name)
}

/// Adds the lines of a value, each with CR LF. What stood there stays in front, whatever the answer.
fn append_value(out: &mut Vec<u8>, value: &[u8]) -> Result<(), AllocError>
    ensures ok { OnOk result (out.new.items ≡ out.old.items ++ written (value_lines value.now)) }
    ensures front { take (vec_len out.old) out.new.items ≡ out.old.items }
{
    let mut rest = value;
    while let Some((line, after)) = split_feed(rest) {
        append_all(out, &[line, b"\r\n"])?;
        rest = after;
    }
    append_all(out, &[rest, b"\r\n"])
}

/// Adds the lines of a field.
fn append_lines(out: &mut Vec<u8>, tag: &[u8], value: &[u8]) -> Result<(), AllocError>
    ensures ok { OnOk result (out.new.items ≡ out.old.items ++ written (lines_of_part (field_part tag.now value.now))) }
    ensures err { OnErr result (out.new.items ≡ out.old.items) }
{
    let before = out.len();
    append_all(out, &[b":", tag, b":"])?;
    if let Err(error) = append_value(out, value) {
        out.truncate(before);
        return Err(error);
    }
    Ok(())
}

/// Adds the lines of a field, behind the first line.
fn append_field(buffer: &mut Vec<u8>, tag: &[u8], value: &[u8]) -> Result<(), AllocError>
    requires { IsStarted buffer.old.items }
    ensures ok { OnOk result (drop 5 buffer.new.items ≡ drop 5 buffer.old.items ++ written (lines_of_part (field_part tag.now value.now))) }
    ensures err { OnErr result (drop 5 buffer.new.items ≡ drop 5 buffer.old.items) }
    ensures started { IsStarted buffer.new.items }
{
    begin(buffer)?;
    append_lines(buffer, tag, value)
}

/// Adds `-}`.
fn append_end(buffer: &mut Vec<u8>) -> Result<(), AllocError>
    requires { IsStarted buffer.old.items }
    ensures ok { OnOk result (buffer.new.items ≡ finished (drop 5 buffer.old.items)) }
    ensures err { OnErr result (drop 5 buffer.new.items ≡ drop 5 buffer.old.items) }
    ensures started { IsStarted buffer.new.items }
{
    begin(buffer)?;
    append_all(buffer, &[LAST_LINE])
}

/// A block in the making, part by part (ISO 15022, block 4). It writes CR LF after each line, and nothing after `-}`.
///
/// Each call that answers an error leaves the writer as it was.
#[derive(Drop)]
pub struct BlockWriter {
    /// Empty, or `{4:` and what was written.
    text: Vec<u8>,
    /// The open names, the outermost first.
    names: Vec<Vec<u8>>,
    alloc: Global,
}

impl Model for BlockWriter {
    ghost use Rattle.std.specs.Prelude.{drop, map, reverse};
    ghost use Rattle.desk_text.specs.Written.{Draft};
    ghost use Rattle.desk_text.specs.Writing.{IsStarted};

    ghost Value = { Draft };

    ghost view = { λ writer. record { text = drop 5 writer.text.items; names = reverse (map (λ name. name.items) writer.names.items) } };

    ghost invariant = { λ writer. IsStarted writer.text.items };
}

impl BlockWriter {
    /// A writer of a block with no parts yet.
    pub fn new(alloc: Global) -> BlockWriter
        ensures { result ≡ fresh }
    {
        BlockWriter {
            text: Vec::new(alloc),
            names: Vec::new(alloc),
            alloc,
        }
    }

    /// Opens a sequence of this name. At most 16 may be open.
    pub fn open(&mut self, name: &[u8]) -> Result<(), AllocError>
        requires name { IsTrue (is_name name.now) }
        requires room { length self.old.names < 16 }
        ensures ok { OnOk result (self.new ≡ after (open_part name.now) self.old) }
        ensures err { OnErr result (self.new ≡ self.old) }
    {
        let copy = Vec::from_slice(self.alloc, name)?;
        self.names.reserve(1)?;
        append_name(&mut self.text, b":16R:", name)?;
        self.names.push(copy).unwrap();
        Ok(())
    }

    /// Adds a field. The value's lines stand with LF between them; they are written with CR LF.
    pub fn field(&mut self, tag: &[u8], value: &[u8]) -> Result<(), AllocError>
        requires tag { IsTrue (is_tag tag.now) }
        requires value { IsTrue (is_value value.now) }
        ensures ok { OnOk result (self.new ≡ after (field_part tag.now value.now) self.old) }
        ensures err { OnErr result (self.new ≡ self.old) }
    {
        append_field(&mut self.text, tag, value)
    }

    /// Closes the innermost sequence; one must be open.
    pub fn close(&mut self) -> Result<(), AllocError>
        requires { self.old.names ≢ [] }
        ensures ok { OnOk result (self.new ≡ after (close_part (innermost self.old.names)) self.old) }
        ensures err { OnErr result (self.new ≡ self.old) }
    {
        let last = self.names.len() - 1;
        append_name(&mut self.text, b":16S:", &self.names[last])?;
        self.names.truncate(last);
        Ok(())
    }

    /// Gives the whole text, and is as new. No sequence may be open.
    pub fn finish(&mut self) -> Result<Vec<u8>, AllocError>
        requires { self.old.names ≡ [] }
        ensures text { IfOk result (λ text. text.items ≡ finished self.old.text) }
        // The text is a block, and its fields are those that were written.
        ensures block { IfOk result (λ text. (parts : List Part) → AreParts [] parts → self.old.text ≡ written (flat_map lines_of_part parts) → IsBlock text.items (fields_written parts)) }
        ensures anew { OnOk result (self.new ≡ fresh) }
        ensures err { OnErr result (self.new ≡ self.old) }
    {
        append_end(&mut self.text)?;
        Ok(mem::replace(&mut self.text, Vec::new(self.alloc)))
    }
}
