//! Looking through a line or a text, many bytes at a time.
ghost use Rattle.std.specs.Prelude.{◌≡◌, ◌+◌, ◌≤◌, ◌==◌, ◌||◌, length, take, drop, IfSome, IfNone, if◌then◌else◌};
ghost use Rattle.std.specs.Int.{w64, trailing_zeros};
ghost use Rattle.std.specs.List.{list_all};
ghost use Rattle.desk_text.specs.BlockGrammar.{is_capital, is_digit, is_first};
ghost use Rattle.desk_text.specs.Scanning.{IsFeedRun, IsFirstFeed, NoFeed};

use std::simd::prelude::*;

/// So many bytes are looked at together.
const LANES: usize = 16;

/// The same, where a text is shorter.
const FEW_LANES: usize = 8;

/// The same, of a name.
const NAME_LANES: usize = 4;

/// The lowest bit that is set; `lanes` where none is.
#[inline(always)]
fn lowest_or(mask: u64, lanes: usize) -> usize
    ensures { result ≡ (if mask == 0 then lanes else trailing_zeros w64 mask) }
{
    if mask == 0 {
        return lanes;
    }
    mask.trailing_zeros() as usize
}

/// How many of the `LANES` bytes from that place on stand before the first line feed.
#[inline(always)]
fn before_feed(text: &[u8], at: usize) -> usize
    requires { at + LANES ≤ length text.now }
    ensures { IsFeedRun text.now at LANES result }
{
    let feeds = u8x16::from_slice(&text[at..]).simd_eq(u8x16::splat(b'\n'));
    lowest_or(feeds.to_bitmask(), LANES)
}

/// How many of the `FEW_LANES` bytes from that place on stand before the first line feed.
#[inline(always)]
fn few_before_feed(text: &[u8], at: usize) -> usize
    requires { at + FEW_LANES ≤ length text.now }
    ensures { IsFeedRun text.now at FEW_LANES result }
{
    let feeds = u8x8::from_slice(&text[at..]).simd_eq(u8x8::splat(b'\n'));
    lowest_or(feeds.to_bitmask(), FEW_LANES)
}

/// Where the first line feed stands, found byte by byte.
#[inline(always)]
fn find_feed_by_one(text: &[u8]) -> Option<usize>
    ensures found { IfSome result (λ index. IsFirstFeed text.now index) }
    ensures none { IfNone result (NoFeed text.now (length text.now)) }
{
    for (index, c) in text.iter().enumerate() {
        if *c == b'\n' {
            return Some(index);
        }
    }
    None
}

/// Where the first line feed stands.
#[inline]
pub fn find_feed(text: &[u8]) -> Option<usize>
    ensures found { IfSome result (λ index. IsFirstFeed text.now index) }
    ensures none { IfNone result (NoFeed text.now (length text.now)) }
{
    if text.len() < FEW_LANES {
        return find_feed_by_one(text);
    }
    if text.len() < LANES {
        return find_feed_in_short(text);
    }
    let mut at = 0;
    while text.len() - at > LANES {
        let run = before_feed(text, at);
        if run < LANES {
            return Some(at + run);
        }
        at += LANES;
    }
    // The last bytes that are looked at may begin among those before them.
    let last = text.len() - LANES;
    let run = before_feed(text, last);
    if run < LANES {
        return Some(last + run);
    }
    None
}

/// Where the first line feed stands in a text of `FEW_LANES` to `LANES` bytes.
#[inline(always)]
fn find_feed_in_short(text: &[u8]) -> Option<usize>
    requires some { FEW_LANES ≤ length text.now }
    requires few { length text.now ≤ LANES }
    ensures found { IfSome result (λ index. IsFirstFeed text.now index) }
    ensures none { IfNone result (NoFeed text.now (length text.now)) }
{
    let run = few_before_feed(text, 0);
    if run < FEW_LANES {
        return Some(run);
    }
    let last = text.len() - FEW_LANES;
    let run = few_before_feed(text, last);
    if run < FEW_LANES {
        return Some(last + run);
    }
    None
}

/// Whether the `LANES` bytes from that place on are printable.
#[inline(always)]
fn is_printable_at(line: &[u8], at: usize) -> bool
    requires { at + LANES ≤ length line.now }
    ensures { result ≡ is_first (take LANES (drop at line.now)) }
{
    let bytes = u8x16::from_slice(&line[at..]);
    let wrong = bytes.simd_lt(u8x16::splat(0x20)) | bytes.simd_gt(u8x16::splat(0x7E));
    wrong.to_bitmask() == 0
}

/// Whether the `FEW_LANES` bytes from that place on are printable.
#[inline(always)]
fn are_few_printable_at(line: &[u8], at: usize) -> bool
    requires { at + FEW_LANES ≤ length line.now }
    ensures { result ≡ is_first (take FEW_LANES (drop at line.now)) }
{
    let bytes = u8x8::from_slice(&line[at..]);
    let wrong = bytes.simd_lt(u8x8::splat(0x20)) | bytes.simd_gt(u8x8::splat(0x7E));
    wrong.to_bitmask() == 0
}

/// Whether all characters are 0x20 to 0x7E, found byte by byte.
#[inline(always)]
fn are_printable_by_one(line: &[u8]) -> bool
    ensures { result ≡ is_first line.now }
{
    line.iter().all(|c| *c >= 0x20 && *c <= 0x7E)
}

/// Whether all characters are 0x20 to 0x7E.
#[inline]
pub fn are_printable(line: &[u8]) -> bool
    ensures { result ≡ is_first line.now }
{
    if line.len() < FEW_LANES {
        return are_printable_by_one(line);
    }
    if line.len() < LANES {
        return are_printable_in_short(line);
    }
    let mut at = 0;
    while line.len() - at > LANES {
        if !is_printable_at(line, at) {
            return false;
        }
        at += LANES;
    }
    // The last bytes that are looked at may begin among those before them.
    is_printable_at(line, line.len() - LANES)
}

/// Whether all characters are 0x20 to 0x7E, in a line of `FEW_LANES` to `LANES` bytes.
#[inline(always)]
fn are_printable_in_short(line: &[u8]) -> bool
    requires some { FEW_LANES ≤ length line.now }
    requires few { length line.now ≤ LANES }
    ensures { result ≡ is_first line.now }
{
    if !are_few_printable_at(line, 0) {
        return false;
    }
    are_few_printable_at(line, line.len() - FEW_LANES)
}

/// Whether the `NAME_LANES` characters from that place on are A to Z or 0 to 9.
#[inline(always)]
fn are_of_names_at(name: &[u8], at: usize) -> bool
    requires { at + NAME_LANES ≤ length name.now }
    ensures { result ≡ list_all (λ c. is_capital c || is_digit c) (take NAME_LANES (drop at name.now)) }
{
    let bytes = u8x4::from_slice(&name[at..]);
    let outside = bytes.simd_lt(u8x4::splat(b'0')) | bytes.simd_gt(u8x4::splat(b'Z'));
    let between = bytes.simd_gt(u8x4::splat(b'9')) & bytes.simd_lt(u8x4::splat(b'A'));
    (outside | between).to_bitmask() == 0
}

/// Whether all characters are A to Z or 0 to 9, found one by one.
#[inline(always)]
fn are_of_names_by_one(name: &[u8]) -> bool
    ensures { result ≡ list_all (λ c. is_capital c || is_digit c) name.now }
{
    name.iter()
        .all(|c| c.is_ascii_uppercase() || c.is_ascii_digit())
}

/// Whether all characters are A to Z or 0 to 9.
#[inline]
pub fn are_of_names(name: &[u8]) -> bool
    ensures { result ≡ list_all (λ c. is_capital c || is_digit c) name.now }
{
    if name.len() < NAME_LANES {
        return are_of_names_by_one(name);
    }
    let mut at = 0;
    while name.len() - at > NAME_LANES {
        if !are_of_names_at(name, at) {
            return false;
        }
        at += NAME_LANES;
    }
    are_of_names_at(name, name.len() - NAME_LANES)
}
