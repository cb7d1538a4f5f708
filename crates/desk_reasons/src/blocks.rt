//! Why a text is no block, by its lines.
ghost use Rattle.std.specs.Prelude.{◌≡◌, ◌≤◌, OnOk, IfOk};
ghost use Rattle.desk_reasons.specs.BlockFaults.{begins_earlier, block_reason, block_line, odd_place, has_tag_of, has_lower_tag, is_bracket, colon_reason, line_reason, opened_by, opened_before, nesting_reason, printable_reason, line_at};

use crate::characters::{are_digits, begins_so, front_of, has_lower_case, rest_of, stands_in};
use crate::lines::{count_lines, line_at, next_line};
use crate::reasons::{BlockReason, LineReason, NestingReason};
use desk_text::{is_name, is_tag};
use std::alloc::{AllocError, Global};

/// Whether a text begins with a block before block 4.
fn begins_earlier(text: &[u8]) -> bool
    ensures { result ≡ begins_earlier text.now }
{
    begins_so(text, b"{1:") || begins_so(text, b"{2:") || begins_so(text, b"{3:")
}

/// Why a text is no block where no line of it is wrong but the first.
pub fn block_reason(text: &[u8]) -> BlockReason
    ensures { result ≡ block_reason text.now }
{
    if text.is_empty() {
        return BlockReason::Empty;
    }
    if begins_so(text, &[0xEF, 0xBB, 0xBF]) {
        return BlockReason::ByteOrderMark;
    }
    if begins_earlier(text) {
        return BlockReason::EarlierBlock;
    }
    if begins_so(line_at(1, text), b"{4:\r") {
        return BlockReason::ReturnAlone;
    }
    if !stands_in(b'\n', text) {
        return BlockReason::NoLineFeed;
    }
    if line_at(1, text) == b"{4:".as_slice() {
        return BlockReason::CutOff;
    }
    BlockReason::FirstLine
}

/// In which line that stands.
pub fn block_line(reason: BlockReason, text: &[u8]) -> usize
    ensures { result ≡ block_line reason text.now }
{
    match reason {
        BlockReason::CutOff => count_lines(text),
        _ => 1,
    }
}

/// Where the first byte stands that is not printable.
fn odd_place(line: &[u8]) -> usize
    ensures { result ≡ odd_place line.now }
{
    for (index, c) in line.iter().enumerate() {
        if *c < 0x20 || *c > 0x7E {
            return index;
        }
    }
    line.len()
}

/// Whether a line has a tag of so many characters between colons.
fn has_tag_of(count: usize, line: &[u8]) -> bool
    requires { count ≤ 3 }
    ensures { result ≡ has_tag_of count line.now }
{
    is_tag(front_of(rest_of(line, 1), count)) && begins_so(rest_of(line, count + 1), b":")
}

/// Whether a line has a tag of two digits and a letter in lower case between colons.
fn has_lower_tag(line: &[u8]) -> bool
    ensures { result ≡ has_lower_tag line.now }
{
    are_digits(front_of(rest_of(line, 1), 2))
        && has_lower_case(front_of(rest_of(line, 3), 1))
        && begins_so(rest_of(line, 4), b":")
}

/// Whether a line opens or closes a sequence.
fn is_bracket(line: &[u8]) -> bool
    ensures { result ≡ is_bracket line.now }
{
    begins_so(line, b":16R:") || begins_so(line, b":16S:")
}

/// Why a line that begins with a colon may not stand there.
fn colon_reason(line: &[u8]) -> LineReason
    ensures { result ≡ colon_reason line.now }
{
    if is_bracket(line) {
        return if is_name(rest_of(line, 5)) {
            LineReason::Other
        } else {
            LineReason::Name
        };
    }
    if has_tag_of(2, line) || has_tag_of(3, line) {
        return LineReason::Other;
    }
    if has_lower_tag(line) {
        return LineReason::LowerCaseTag;
    }
    LineReason::Tag
}

/// Why a line of printable characters may not stand there.
fn printable_reason(line: &[u8]) -> LineReason
    ensures { result ≡ printable_reason line.now }
{
    if begins_so(line, b"{5:") || begins_so(line, b"-}{5:") {
        return LineReason::Trailer;
    }
    if begins_so(line, b"-}") {
        return LineReason::BehindEnd;
    }
    if begins_so(line, b"-") {
        return LineReason::Hyphen;
    }
    if begins_so(line, b":") {
        return colon_reason(line);
    }
    if line.is_empty() {
        return LineReason::Blank;
    }
    LineReason::NoValue
}

/// Why a line may not stand there.
pub fn line_reason(line: &[u8]) -> LineReason
    ensures { result ≡ line_reason line.now }
{
    let place = odd_place(line);
    if place < line.len() {
        return LineReason::Byte(place + 1, line[place]);
    }
    printable_reason(line)
}

/// The lines in which open sequences were opened, behind one line more.
fn take_line(begun: &mut Vec<usize>, line: &[u8], number: usize) -> Result<(), AllocError>
    ensures { OnOk result (begun.new.items ≡ opened_by number line.now begun.old.items) }
{
    if begins_so(line, b":16R:") {
        return Ok(begun.push(number)?);
    }
    if begins_so(line, b":16S:") {
        begun.pop();
    }
    Ok(())
}

/// The lines in which sequences were opened that are open before the line of that number.
fn opened_before(alloc: Global, number: usize, text: &[u8]) -> Result<Vec<usize>, AllocError>
    ensures { IfOk result (λ begun. begun.items ≡ opened_before number text.now) }
{
    let mut begun = Vec::new(alloc);
    let mut rest = text;
    for at in 1..number {
        let Some((line, after)) = next_line(rest) else {
            return Ok(begun);
        };
        take_line(&mut begun, line, at)?;
        rest = after;
    }
    Ok(begun)
}

/// Why the line of that number opens or closes wrongly.
pub fn nesting_reason(
    alloc: Global,
    number: usize,
    text: &[u8],
) -> Result<NestingReason, AllocError>
    ensures { IfOk result (λ reason. reason ≡ nesting_reason (line_at number text.now) (opened_before number text.now)) }
{
    let begun = opened_before(alloc, number, text)?;
    Ok(reason_by_open(line_at(number, text), &begun))
}

/// Why a line opens or closes wrongly, where sequences are open that were opened in these lines.
fn reason_by_open(line: &[u8], begun: &[usize]) -> NestingReason
    ensures { result ≡ nesting_reason line.now begun.now }
{
    if begins_so(line, b":16R:") {
        return NestingReason::TooMany;
    }
    if begun.is_empty() {
        return NestingReason::NoneOpen;
    }
    let innermost = begun[begun.len() - 1];
    if begins_so(line, b":16S:") {
        return NestingReason::OtherOpen(innermost);
    }
    NestingReason::StillOpen(innermost)
}
