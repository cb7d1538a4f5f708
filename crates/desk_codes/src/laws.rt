//! Laws of the definitions, each the contract of a function with an empty body.
ghost use Rattle.std.specs.Prelude.{◌≡◌, ◌↔◌, ◌≤◌, ◌<◌, ◌+◌, ◌%◌, ◌^◌, ℕ, List, Some, length, All};
ghost use Rattle.std.specs.Cmp.Lexicographic.{slice_cmp};
ghost use Rattle.std.specs.Ordering.{nat_cmp};
ghost use Rattle.desk_codes.specs.Characters.{IsCodeChar};
ghost use Rattle.desk_codes.specs.CheckDigit.{check_of, expanded, weighed_sum};
ghost use Rattle.desk_codes.specs.Currency.{ccy_of, letters_of, place_of};
ghost use Rattle.desk_codes.specs.Number.{SpellsNumber, written_number};
ghost use Rattle.desk_codes.specs.declared.currency.Ccy.{Ccy};

/// One digit makes an ISIN valid: of the ten, the check digit alone makes the sum with it a multiple of
/// ten (ISO 6166).
pub fn one_check_digit()
    ensures { (text : List ℕ) (digit : ℕ) → digit < 10
        → ((weighed_sum (expanded text) + digit) % 10 ≡ 0) ↔ (digit ≡ check_of text) }
{}

/// Each currency stands in the list, where it is found by its letters (ISO 4217), in the order of the letters.
pub fn every_currency()
    ensures listed { (ccy : Ccy) → ccy_of (letters_of ccy) ≡ Some ccy }
    ensures in_order { (a b : Ccy) → slice_cmp nat_cmp (letters_of a) (letters_of b) ≡ nat_cmp (place_of a) (place_of b) }
{}

/// A text spells one value.
pub fn one_value()
    ensures { (text : List ℕ) (a b d : ℕ) → SpellsNumber text a d → SpellsNumber text b d → a ≡ b }
{}

/// What is written spells the value.
pub fn written_spells()
    ensures { (value d : ℕ) → value < 2 ^ 64 → d ≤ 3 → SpellsNumber (written_number value d) value d }
{}

/// No text that spells a value is shorter than the written one. So what was read is written back to a
/// text no longer than what was read.
pub fn shortest_spelling()
    ensures { (text : List ℕ) (value d : ℕ) → value < 2 ^ 64 → d ≤ 3 → SpellsNumber text value d → length (written_number value d) ≤ length text }
{}
