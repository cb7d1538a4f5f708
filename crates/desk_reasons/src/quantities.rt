//! Why a text is no quantity.
ghost use Rattle.std.specs.Prelude.{◌≡◌};
ghost use Rattle.desk_reasons.specs.Quantities.{has_kind, kind_reason, IsQuantityReason};

use crate::characters::{begins_so, front_of, has_lower_case, rest_of};
use crate::numbers::number_reason;
use crate::reasons::{KindReason, QuantityReason};

/// Whether a text begins with a code of how a security is counted, and a slash.
fn has_kind(text: &[u8]) -> bool
    ensures { result ≡ has_kind text.now }
{
    begins_so(text, b"UNIT/") || begins_so(text, b"FAMT/")
}

/// Why it does not.
fn kind_reason(text: &[u8]) -> KindReason
    ensures { result ≡ kind_reason text.now }
{
    if has_lower_case(front_of(text, 4)) {
        return KindReason::LowerCase;
    }
    if begins_so(text, b"UNIT") || begins_so(text, b"FAMT") {
        return KindReason::NoSlash;
    }
    KindReason::Unknown
}

/// Why a text is no quantity.
pub fn quantity_reason(text: &[u8]) -> QuantityReason
    ensures { IsQuantityReason text.now result }
{
    if !has_kind(text) {
        return QuantityReason::Kind(kind_reason(text));
    }
    QuantityReason::Number(number_reason(rest_of(text, 5), 0))
}
