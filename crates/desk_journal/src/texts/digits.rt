//! The number that digits write.
ghost use Rattle.std.specs.Prelude.{◌≡◌, ◌<◌, ◌^◌, ℕ, Some, decimal};
ghost use Rattle.desk_msg.specs.OwnText.{last_digits};

use std::str;

/// The number that decimal digits write, zeros in front allowed; None where it does not fit. Nothing is said of a text that
/// is not digits alone.
pub fn number_of(digits: &[u8]) -> Option<u64>
    ensures fifteen { (n : ℕ) → digits.now ≡ last_digits 15 n → n < 10 ^ 15 → result ≡ Some n }
    ensures plain { (n : ℕ) → digits.now ≡ decimal n → n < 2 ^ 64 → result ≡ Some n }
{
    str::from_utf8(digits).ok()?.parse().ok()
}
