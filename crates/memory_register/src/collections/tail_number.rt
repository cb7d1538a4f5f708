//! A number by which texts are told apart, mostly, in one comparison.
ghost use Rattle.std.specs.Prelude.{◌≡◌};
ghost use Rattle.memory_register.specs.TailNumber.{tail_number};

/// The number that the last eight bytes of a text are in base 256, the last byte least.
pub fn tail_number(text: &[u8]) -> u64
    ensures { result ≡ tail_number text.now }
{
    text.iter().fold(0, |number: u64, byte| {
        number.wrapping_mul(256).wrapping_add(u64::from(*byte))
    })
}
