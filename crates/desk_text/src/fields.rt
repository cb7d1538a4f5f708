//! The fields of a block.
ghost use Rattle.std.specs.Prelude.{◌≡◌};

use smallvec::SmallVec;

/// In so many sequences, and with so many lines, a field needs no memory of its own.
pub const USUAL_DEPTH: usize = 2;

pub const USUAL_LINES: usize = 1;

/// A field. Its parts are slices of the text that was read.
#[derive(Drop)]
pub struct Field<'a> {
    /// The names of the sequences that it stands in, the outermost first.
    pub path: SmallVec<&'a [u8], USUAL_DEPTH>,
    /// Two digits, and at most one letter.
    pub tag: &'a [u8],
    /// The lines of its value, one at least.
    pub values: SmallVec<&'a [u8], USUAL_LINES>,
    /// The number of the line `:tag:`, counted from 1.
    pub line: usize,
}

/// A block that was read.
#[derive(Drop)]
pub struct Block<'a> {
    /// Its fields, in order.
    pub fields: Vec<Field<'a>>,
}

impl<'a> Block<'a> {
    /// Its fields, in order.
    pub fn fields(&self) -> &[Field<'a>]
        ensures { result.now ≡ self.now.fields.items }
    {
        &self.fields
    }
}
