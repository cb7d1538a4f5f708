//! A short text inside an array, which the codes of variable length stand on.
ghost use Rattle.std.specs.Prelude.{◌≡◌, ◌≤◌, ◌<◌, ◌++◌, ◌∷◌, [], length, nat_eq, refl};
ghost use Rattle.std.specs.Ordering.{nat_cmp};
ghost use Rattle.std.specs.Cmp.Lexicographic.{pointwise, slice_cmp, nat_list_eq_equiv, nat_list_cmp_total, texts_ties, texts_po};
ghost use Rattle.std.specs.Cmp.{partial_equiv_from_equiv};
ghost use Rattle.std.proofs.Common.{rules};
ghost use Rattle.std.specs.Prelude.{Some};

use crate::words::order_words;
use std::cmp::Ordering;
use std::fmt;
use std::marker::Model;

/// A text of at most `N` bytes, with zeros behind it. A contract sees the text. It is compared by words of eight bytes,
/// soonest where `N` is a multiple of eight.
#[derive(Clone, Copy)]
pub struct ShortText<const N: usize> {
    bytes: [u8; N],
    len: usize,
}

impl<const N: usize> Model for ShortText<N> {
    ghost use Rattle.std.specs.Prelude.{List, ℕ, take, length};
    ghost use Rattle.desk_codes.specs.ShortText.{IsPadded, padded};

    ghost Value = { List ℕ };

    ghost view = { λ text. take text.len text.bytes };

    ghost invariant = { λ text. IsPadded N text.bytes text.len };

    ghost inverse = { λ text. record { bytes = padded N text; len = length text } };
}

impl<const N: usize> ShortText<N> {
    /// The text, held.
    pub fn new(text: &[u8]) -> ShortText<N>
        requires { length text.now ≤ N }
        ensures { result ≡ text.now }
    {
        let mut bytes = [0; N];
        bytes[..text.len()].copy_from_slice(text);
        ShortText {
            bytes,
            len: text.len(),
        }
    }

    /// A byte more, behind its text.
    #[inline]
    pub fn push(&mut self, byte: u8)
        requires { length self.old < N }
        ensures { self.new ≡ self.old ++ byte ∷ [] }
    {
        self.bytes[self.len] = byte;
        self.len += 1;
    }

    /// Its bytes.
    pub fn as_bytes(&self) -> &[u8]
        ensures { result.now ≡ self.now }
    {
        &self.bytes[..self.len]
    }
}

impl<const N: usize> PartialEq for ShortText<N> {
    ghost eq = { pointwise nat_eq };

    ghost laws = { partial_equiv_from_equiv nat_list_eq_equiv };

    #[inline]
    fn eq(&self, other: &ShortText<N>) -> bool {
        self.cmp(other).is_eq()
    }
}

impl<const N: usize> Eq for ShortText<N> {
    ghost laws = { nat_list_eq_equiv };
}

impl<const N: usize> PartialOrd for ShortText<N> {
    ghost partial_cmp = { λ a b. Some (slice_cmp nat_cmp a b) };

    ghost laws = { texts_po };

    #[inline]
    fn partial_cmp(&self, other: &ShortText<N>) -> Option<Ordering> {
        Some(self.cmp(other))
    }
}

impl<const N: usize> Ord for ShortText<N> {
    ghost cmp = { slice_cmp nat_cmp };

    ghost total = { nat_list_cmp_total };

    ghost matches_partial_cmp = { λ a b. refl };

    ghost matches_eq = { texts_ties };

    // The zeros behind the texts are compared with them, and the lengths where these are the same.
    #[inline(always)]
    fn cmp(&self, other: &ShortText<N>) -> Ordering {
        let order = order_words(&self.bytes, &other.bytes);
        if order.is_ne() {
            return order;
        }
        self.len.cmp(&other.len)
    }
}

impl<const N: usize> fmt::Debug for ShortText<N> {
    fn fmt<W: fmt::Write>(&self, f: &mut fmt::Formatter<W>) -> fmt::Result {
        for byte in self.as_bytes() {
            f.write_char(char::from(*byte))?;
        }
        Ok(())
    }
}
