//! Looking through a text, many bytes at a time.
ghost use Rattle.std.specs.Prelude.{◌≡◌, ◌+◌, ◌≤◌, ◌==◌, length, if◌then◌else◌};
ghost use Rattle.std.specs.Int.{w64, trailing_zeros};
ghost use Rattle.desk_book.specs.Runs.{IsRun, is_special};

use std::simd::prelude::*;

/// So many bytes are looked at together.
pub const LANES: usize = 16;

/// How many of the `LANES` bytes from that place on stand before the first one that is this byte.
#[inline(always)]
pub fn before_byte(text: &[u8], at: usize, byte: u8) -> usize
    requires { at + LANES ≤ length text.now }
    ensures { IsRun (λ c. c == byte) text.now at LANES result }
{
    let same = u8x16::from_slice(&text[at..]).simd_eq(u8x16::splat(byte));
    lowest_or(same.to_bitmask(), LANES)
}

/// How many of the `LANES` bytes from that place on stand before the first one that does not stand for itself between quotes.
#[inline(always)]
pub fn before_special(text: &[u8], at: usize) -> usize
    requires { at + LANES ≤ length text.now }
    ensures { IsRun is_special text.now at LANES result }
{
    let bytes = u8x16::from_slice(&text[at..]);
    let marks = bytes.simd_eq(u8x16::splat(b'"')) | bytes.simd_eq(u8x16::splat(b'\\'));
    let unprintable = bytes.simd_lt(u8x16::splat(b' ')) | bytes.simd_gt(u8x16::splat(b'~'));
    lowest_or((marks | unprintable).to_bitmask(), LANES)
}

/// The lowest bit that is set; `lanes` where none is.
#[inline(always)]
fn lowest_or(mask: u64, lanes: usize) -> usize
    ensures { result ≡ (if mask == 0 then lanes else trailing_zeros w64 mask) }
{
    if mask == 0 {
        return lanes;
    }
    mask.trailing_zeros() as usize
}
