//! The order of texts of one length, eight bytes at a time.
ghost use Rattle.std.specs.Prelude.{◌≡◌, ◌≤◌, ◌+◌, length, take, drop};
ghost use Rattle.std.specs.Int.{w32, w64, from_be_bytes};
ghost use Rattle.std.specs.Ordering.{nat_cmp};
ghost use Rattle.std.specs.Cmp.Lexicographic.{slice_cmp};

use std::cmp::Ordering;

/// The number that eight bytes from a place on write, the greatest first.
#[inline(always)]
fn word_at(bytes: &[u8], at: usize) -> u64
    requires { at + 8 ≤ length bytes.now }
    ensures { result ≡ from_be_bytes w64 (take 8 (drop at bytes.now)) }
{
    u64::from_be_bytes([
        bytes[at],
        bytes[at + 1],
        bytes[at + 2],
        bytes[at + 3],
        bytes[at + 4],
        bytes[at + 5],
        bytes[at + 6],
        bytes[at + 7],
    ])
}

/// The number that four bytes from a place on write, the greatest first.
#[inline(always)]
fn half_word_at(bytes: &[u8], at: usize) -> u32
    requires { at + 4 ≤ length bytes.now }
    ensures { result ≡ from_be_bytes w32 (take 4 (drop at bytes.now)) }
{
    u32::from_be_bytes([bytes[at], bytes[at + 1], bytes[at + 2], bytes[at + 3]])
}

/// The order of two texts of one length: where they differ first decides. The last bytes are compared as one word
/// or half a word, some of them once more where the length is no multiple of that.
#[inline(always)]
pub fn order_words(a: &[u8], b: &[u8]) -> Ordering
    requires { length a.now ≡ length b.now }
    ensures { result ≡ slice_cmp nat_cmp a.now b.now }
{
    if a.len() < 8 {
        return a.cmp(b);
    }
    let words = (a.len() - 1) / 8;
    for index in 0..words {
        let own = word_at(a, 8 * index);
        let other = word_at(b, 8 * index);
        if own != other {
            return own.cmp(&other);
        }
    }
    if a.len() - 8 * words <= 4 {
        let last = a.len() - 4;
        return half_word_at(a, last).cmp(&half_word_at(b, last));
    }
    let last = a.len() - 8;
    word_at(a, last).cmp(&word_at(b, last))
}
