//! Short texts, made in room that is there from its end on: what stands last is put first.
ghost use Rattle.std.specs.Prelude.{◌≡◌, ◌+◌, ◌≤◌, ◌++◌, decimal, drop, length};

use itoa::write_digits;

/// So many digits write any number that fits in 64 bits.
pub const DIGITS: usize = 20;

/// Puts a text before what begins at `end`. Gives where it begins.
pub fn text_before(room: &mut [u8], end: usize, text: &[u8]) -> usize
    requires { (length text.now ≤ end) × (end ≤ length room.old) }
    ensures start { result + length text.now ≡ end }
    ensures text { drop result room.new ≡ text.now ++ drop end room.old }
{
    let start = end - text.len();
    room[start..end].copy_from_slice(text);
    start
}

/// Puts a text and the digits of a number before what begins at `end`. Gives where the text begins.
pub fn number_before(room: &mut [u8], end: usize, text: &[u8], number: u64) -> usize
    requires { (length text.now + DIGITS ≤ end) × (end ≤ length room.old) }
    ensures start { result ≤ end }
    ensures short { end ≤ result + length text.now + DIGITS }
    ensures text { drop result room.new ≡ text.now ++ (decimal number ++ drop end room.old) }
{
    let start = write_digits(number, room, end);
    text_before(room, start, text)
}
