//! The members of a command's object, each read as what it must be.
ghost use Rattle.std.specs.Prelude.{◌≡◌, ◌↔◌, IsSome, ℕ, ◌<◌, ◌≤◌, List, Some, codes, IfSome, IfNone};
ghost use Rattle.desk_codes.specs.Account.{IsAccount};
ghost use Rattle.desk_codes.specs.CheckDigit.{IsIsin};
ghost use Rattle.desk_codes.specs.Currency.{letters_of};
ghost use Rattle.desk_codes.specs.Day.{IsDay};
ghost use Rattle.desk_codes.specs.Reference.{IsReference};
ghost use Rattle.desk_codes.specs.declared.currency.Ccy.{Ccy as CcyValue};
ghost use Rattle.desk_msg.specs.declared.instruction.Kind.{Kind as KindValue};
ghost use Rattle.desk_msg.specs.Profile.{code_of_kind};
ghost use Rattle.desk_book.specs.Members.{text_at, number_at};
ghost use Rattle.desk_book.specs.Forms.{SpellsBic};

use crate::requests::object::Object;
use desk_codes::{AccountId, Bic, Ccy, Day, Isin, Reference};
use desk_msg::Kind;
use desk_rules::{MOST_PAID, MOST_QUANTITY};

/// The command's reference.
pub fn reference_in<O: Object>(object: &O) -> Option<Reference>
    ensures some { IfSome result (λ reference. text_at (codes "ref") (O.value object.now) ≡ Some reference) }
    ensures read { IfSome result (λ reference. IsReference reference) }
    ensures none { IfNone result ((reference : List ℕ) → IsReference reference
        → ¬ (text_at (codes "ref") (O.value object.now) ≡ Some reference)) }
{
    Reference::read(object.text("ref")?)
}

/// The party that a command names.
pub fn party_in<O: Object>(object: &O) -> Option<Bic>
    ensures some { IfSome result (λ bic. (name : List ℕ) × SpellsBic name bic
        × (text_at (codes "bic") (O.value object.now) ≡ Some name)) }
    ensures none { IfNone result ((name bic : List ℕ) → SpellsBic name bic
        → ¬ (text_at (codes "bic") (O.value object.now) ≡ Some name)) }
{
    match Bic::parse(object.text("bic")?) {
        Ok(bic) => Some(bic),
        Err(_) => None,
    }
}

/// The account that a command names.
pub fn account_in<O: Object>(object: &O) -> Option<AccountId>
    ensures some { IfSome result (λ account. text_at (codes "account") (O.value object.now) ≡ Some account) }
    ensures read { IfSome result (λ account. IsAccount account) }
    ensures none { IfNone result ((account : List ℕ) → IsAccount account
        → ¬ (text_at (codes "account") (O.value object.now) ≡ Some account)) }
{
    AccountId::read(object.text("account")?)
}

/// The security that a command names.
pub fn isin_in<O: Object>(object: &O) -> Option<Isin>
    ensures some { IfSome result (λ isin. text_at (codes "isin") (O.value object.now) ≡ Some isin) }
    ensures read { IfSome result (λ isin. IsIsin isin) }
    ensures none { IfNone result ((isin : List ℕ) → IsIsin isin
        → ¬ (text_at (codes "isin") (O.value object.now) ≡ Some isin)) }
{
    match Isin::parse(object.text("isin")?) {
        Ok(isin) => Some(isin),
        Err(_) => None,
    }
}

/// The kind of a security.
pub fn kind_in<O: Object>(object: &O) -> Option<Kind>
    ensures some { IfSome result (λ kind. text_at (codes "kind") (O.value object.now) ≡ Some (code_of_kind kind)) }
    ensures none { IfNone result ((kind : KindValue)
        → ¬ (text_at (codes "kind") (O.value object.now) ≡ Some (code_of_kind kind))) }
{
    Kind::try_from(object.text("kind")?).ok()
}

/// The day of a run.
pub fn day_in<O: Object>(object: &O) -> Option<Day>
    ensures some { IfSome result (λ day. text_at (codes "day") (O.value object.now) ≡ Some day) }
    ensures read { IfSome result (λ day. IsDay day) }
    ensures none { IfNone result ((day : List ℕ) → IsDay day
        → ¬ (text_at (codes "day") (O.value object.now) ≡ Some day)) }
{
    day_of(object.text("day")?)
}

/// The day that a text of eight digits names.
fn day_of(text: &[u8]) -> Option<Day>
    ensures found { IsSome result ↔ IsDay text.now }
    ensures value { IfSome result (λ day. day ≡ text.now) }
{
    let mut digits = [0; 8];
    if text.len() != digits.len() {
        return None;
    }
    digits.copy_from_slice(text);
    Day::read(&digits)
}

/// The quantity of an issue or a redemption.
pub fn quantity_in<O: Object>(object: &O) -> Option<u64>
    ensures some { IfSome result (λ quantity. number_at (codes "quantity") (O.value object.now) ≡ Some quantity) }
    ensures least { IfSome result (λ quantity. 0 < quantity) }
    ensures most { IfSome result (λ quantity. quantity ≤ MOST_QUANTITY) }
    ensures none { IfNone result ((quantity : ℕ) → 0 < quantity → quantity ≤ MOST_QUANTITY
        → ¬ (number_at (codes "quantity") (O.value object.now) ≡ Some quantity)) }
{
    let quantity = object.whole("quantity")?;
    if quantity == 0 || MOST_QUANTITY < quantity {
        return None;
    }
    Some(quantity)
}

/// The currency of a payment.
pub fn ccy_in<O: Object>(object: &O) -> Option<Ccy>
    ensures some { IfSome result (λ ccy. text_at (codes "ccy") (O.value object.now) ≡ Some (letters_of ccy)) }
    ensures none { IfNone result ((ccy : CcyValue)
        → ¬ (text_at (codes "ccy") (O.value object.now) ≡ Some (letters_of ccy))) }
{
    Ccy::parse(object.text("ccy")?)
}

/// The amount of a payment, in minor units.
pub fn amount_in<O: Object>(object: &O) -> Option<u64>
    ensures some { IfSome result (λ amount. number_at (codes "amount") (O.value object.now) ≡ Some amount) }
    ensures least { IfSome result (λ amount. 0 < amount) }
    ensures most { IfSome result (λ amount. amount ≤ MOST_PAID) }
    ensures none { IfNone result ((amount : ℕ) → 0 < amount → amount ≤ MOST_PAID
        → ¬ (number_at (codes "amount") (O.value object.now) ≡ Some amount)) }
{
    let amount = object.whole("amount")?;
    if amount == 0 || MOST_PAID < amount {
        return None;
    }
    Some(amount)
}
