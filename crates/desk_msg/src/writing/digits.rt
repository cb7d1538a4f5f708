//! Numbers as they are written.
ghost use Rattle.std.specs.Prelude.{◌≡◌, ◌≤◌, ◌<◌, ◌^◌, IfOk};
ghost use Rattle.desk_codes.specs.Number.{written_number};
ghost use Rattle.desk_msg.specs.OwnText.{last_digits};

use desk_codes::write_number;
use std::alloc::{AllocError, Global};

/// The last fifteen digits of a number.
pub fn fifteen_digits(number: u64) -> [u8; 15]
    ensures { result ≡ last_digits 15 number }
{
    let mut digits = [b'0'; 15];
    let mut rest = number;
    for place in (0..15).rev() {
        digits[place] = b'0' + (rest % 10) as u8;
        rest /= 10;
    }
    digits
}

/// A number in units of so many decimals, as it is written.
pub fn number_text(alloc: Global, number: u64, decimals: usize) -> Result<Vec<u8>, AllocError>
    requires { decimals ≤ 3 }
    ensures value { IfOk result (λ text. text.items ≡ written_number number decimals) }
    ensures fits { number < 2 ^ 64 }
{
    write_number(alloc, number, decimals)
}
