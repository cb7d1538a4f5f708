//! The counts of a run.
ghost use Rattle.std.specs.Prelude.{◌≡◌, ◌<◌, ◌^◌, ◌++◌, ℕ, Some, codes, decimal};
ghost use Rattle.std.specs.Option.{option_copied};
ghost use Rattle.desk_rules.specs.Reply.{accepted_text};
ghost use Rattle.desk_journal.specs.Words.{word_at};

use crate::texts::digits::number_of;

/// Which word of the reply to a run tells how many pairs it settled, from 0.
const SETTLED: usize = 3;

/// Which one tells how many due pairs it left.
const WAITING: usize = 5;

/// How many pairs a run settled, and how many due ones it left, as its reply told them: `accepted N settled S waiting W`.
/// Nothing is said of any other text: the answer may be None, or two numbers.
#[tactic(auto, using(crate::proofs::RunLemmas::settled_word, crate::proofs::RunLemmas::waiting_word))]
pub fn run_counts(text: &[u8]) -> Option<(u64, u64)>
    ensures { (n settled waiting : ℕ) → text.now ≡ accepted_text n ++ codes " settled " ++ decimal settled ++ codes " waiting " ++ decimal waiting → settled < 2 ^ 64 → waiting < 2 ^ 64 → result ≡ Some (settled, waiting) }
{
    let settled = number_of(word(text, SETTLED)?)?;
    let waiting = number_of(word(text, WAITING)?)?;
    Some((settled, waiting))
}

/// The word of that index, where a space stands between a word and the next.
fn word(text: &[u8], index: usize) -> Option<&[u8]>
    ensures { option_copied result ≡ word_at text.now index }
{
    text.split(|c| *c == b' ').nth(index)
}
