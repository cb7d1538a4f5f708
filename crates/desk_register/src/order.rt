//! The order of the ISINs, that of their bytes.
ghost use Rattle.std.specs.Prelude.{◌≡◌, ◌↔◌, IsTrue};
ghost use Rattle.desk_register.specs.Looked.{IsAboveText, IsLess};

use desk_codes::Isin;
use std::cmp::Ordering;

/// Whether one ISIN is before another.
pub fn is_less(a: &Isin, b: &Isin) -> bool
    ensures { IsTrue result ↔ IsLess a.now b.now }
{
    match a.as_bytes().cmp(b.as_bytes()) {
        Ordering::Less => true,
        Ordering::Equal | Ordering::Greater => false,
    }
}

/// Whether an ISIN is above one, or above none.
pub fn is_above(above: &Option<Isin>, isin: &Isin) -> bool
    ensures { IsTrue result ↔ IsAboveText above.now isin.now }
{
    match above {
        Some(least) => is_less(least, isin),
        None => true,
    }
}
