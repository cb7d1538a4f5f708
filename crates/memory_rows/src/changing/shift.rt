//! How a balance changes.
ghost use Rattle.std.specs.Prelude.{◌≡◌};
ghost use Rattle.memory_rows.specs.Shifts.{shifted, CanShift};

/// How a balance changes: it is so much more, or so much less.
#[derive(Clone, Copy)]
pub enum Shift {
    More(u64),
    Less(u64),
}

/// A balance, changed so.
pub fn shifted(was: u64, shift: Shift) -> u64
    requires { CanShift was shift }
    ensures { result ≡ shifted was shift }
{
    match shift {
        Shift::More(amount) => was + amount,
        Shift::Less(amount) => was - amount,
    }
}
