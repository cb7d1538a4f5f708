//! What is wrong with a member of a command, and with its value.
ghost use Rattle.std.specs.Prelude.{◌≡◌, ◌≢◌, ◌↔◌, ◌<◌, ◌≤◌, All, IsTrue, map, IfSome, IfNone, Option, ℕ, Some, None, codes};
ghost use Rattle.std.specs.Char.{to_ascii_uppercase};
ghost use Rattle.serde_json.specs.Find.{get};
ghost use Rattle.serde_json.specs.View.{view};
ghost use Rattle.desk_codes.specs.Account.{IsAccount};
ghost use Rattle.desk_codes.specs.Characters.{IsPrintable};
ghost use Rattle.desk_codes.specs.Currency.{letters_of};
ghost use Rattle.desk_codes.specs.Day.{IsDay};
ghost use Rattle.desk_codes.specs.Reference.{IsReference};
ghost use Rattle.desk_codes.specs.declared.currency.Ccy.{Ccy as CcyValue};
ghost use Rattle.desk_book.specs.Command.{IsCommand};
ghost use Rattle.desk_book.specs.Members.{text_at};
ghost use Rattle.desk_rules.specs.declared.history.entry.Entry.{Entry as EntryValue};
ghost use Rattle.desk_findings.specs.CommandFaults.{AreInOrder, IsFirstWrong, IsInOrder, IsMemberFault, IsShapeFault, IsText, IsValueFault, IsWithin, IsWrong, number_name, text_name, word_of};

use crate::commands::fault::{CommandFault, MemberFault, TextFault};
use crate::commands::member::{Member, NumberMember, Operation, TextMember};
use desk_codes::{Bic, Ccy, Day, Isin, Reference, are_digits};
use desk_msg::Kind;
use serde_json::Value;

/// The most characters of a reference, and of an account.
const LONGEST_REFERENCE: usize = 16;

const LONGEST_ACCOUNT: usize = 35;

/// What is wrong with a value that is no command's; None where it is one's.
pub fn value_fault(value: &Value) -> Option<CommandFault>
    ensures fault { IfSome result (IsValueFault (view value.now)) }
    ensures command { IfNone result ((entry : EntryValue) × IsCommand (view value.now) entry) }
{
    let Some(members) = value.as_object() else {
        return Some(CommandFault::NoObject);
    };
    if value.get("op").is_none() {
        return Some(CommandFault::NoOperation);
    }
    let Some(operation) = operation_of(value) else {
        return Some(CommandFault::UnknownOperation);
    };
    let needed = operation.members();
    if let Some((member, fault)) = first_wrong(value, needed) {
        return Some(CommandFault::Wrong(member, fault));
    }
    if members.len() != needed.len() + 1 {
        return Some(CommandFault::OtherMembers);
    }
    None
}

/// The operation that a value names.
pub fn operation_of(value: &Value) -> Option<Operation>
    ensures some { IfSome result (λ operation. text_at (codes "op") (view value.now) ≡ Some (word_of operation)) }
    ensures none { IfNone result ((operation : Operation) → ¬ (text_at (codes "op") (view value.now) ≡ Some (word_of operation))) }
{
    let op = value.get("op").and_then(Value::as_str)?;
    Operation::named(op.as_bytes())
}

/// The first of these members that is not in order, and what is wrong with it.
fn first_wrong(value: &Value, members: &[Member]) -> Option<(Member, MemberFault)>
    ensures first { IfSome result (λ wrong. IsFirstWrong (view value.now) members.now wrong.0 wrong.1) }
    ensures none { IfNone result (AreInOrder (view value.now) members.now) }
{
    for member in members {
        if let Some(fault) = member_fault(value, *member) {
            return Some((*member, fault));
        }
    }
    None
}

/// What is wrong with a member of a value; None where it is in order.
fn member_fault(value: &Value, member: Member) -> Option<MemberFault>
    ensures fault { IfSome result (IsMemberFault (view value.now) member) }
    ensures right { IfNone result (IsInOrder (view value.now) member) }
{
    if value.get(member.name()).is_none() {
        return Some(MemberFault::Missing);
    }
    match member {
        Member::Text(member) => text_member_fault(value, member),
        Member::Number(member) => number_member_fault(value, member),
    }
}

fn text_member_fault(value: &Value, member: TextMember) -> Option<MemberFault>
    requires { get (text_name member) (view value.now) ≢ None }
    ensures fault { IfSome result (IsMemberFault (view value.now) (Member.Text member)) }
    ensures right { IfNone result (IsInOrder (view value.now) (Member.Text member)) }
{
    let Some(text) = value.get(member.name()).and_then(Value::as_str) else {
        return Some(MemberFault::NoText);
    };
    let fault = text_fault(member, text.as_bytes())?;
    Some(MemberFault::Wrong(fault))
}

fn number_member_fault(value: &Value, member: NumberMember) -> Option<MemberFault>
    requires { get (number_name member) (view value.now) ≢ None }
    ensures fault { IfSome result (IsMemberFault (view value.now) (Member.Number member)) }
    ensures right { IfNone result (IsInOrder (view value.now) (Member.Number member)) }
{
    let Some(number) = value.get(member.name()).and_then(Value::as_u64) else {
        return Some(MemberFault::NoNumber);
    };
    let most = member.most();
    if number == 0 || most < number {
        return Some(MemberFault::Range(most));
    }
    None
}

/// What is wrong with the text of a member; None where it is one that the member may be.
fn text_fault(member: TextMember, text: &[u8]) -> Option<TextFault>
    ensures fault { IfSome result (IsWrong member text.now) }
    ensures right { IfNone result (IsText member text.now) }
{
    match member {
        TextMember::Reference => reference_fault(text),
        TextMember::Party => party_fault(text),
        TextMember::Account => account_fault(text),
        TextMember::Security => isin_fault(text),
        TextMember::Kind => kind_fault(text),
        TextMember::Day => day_fault(text),
        TextMember::Currency => currency_fault(text),
    }
}

fn reference_fault(text: &[u8]) -> Option<TextFault>
    ensures fault { IfSome result (IsWrong TextMember.Reference text.now) }
    ensures right { IfNone result (IsReference text.now) }
{
    if let Some(fault) = shape_fault(text, LONGEST_REFERENCE) {
        return Some(fault);
    }
    match Reference::read(text) {
        Some(_) => None,
        None => Some(TextFault::Slash),
    }
}

fn account_fault(text: &[u8]) -> Option<TextFault>
    ensures fault { IfSome result (IsWrong TextMember.Account text.now) }
    ensures right { IfNone result (IsAccount text.now) }
{
    shape_fault(text, LONGEST_ACCOUNT)
}

/// What is wrong with a text that must be some printable characters, and so many at most.
fn shape_fault(text: &[u8], most: usize) -> Option<TextFault>
    ensures fault { IfSome result (IsShapeFault most text.now) }
    ensures right { IfNone result (IsWithin most text.now × All IsPrintable text.now) }
{
    if text.is_empty() {
        return Some(TextFault::Empty);
    }
    if !are_printable(text) {
        return Some(TextFault::Unprintable);
    }
    if text.len() > most {
        return Some(TextFault::TooLong(most));
    }
    None
}

fn are_printable(text: &[u8]) -> bool
    ensures { IsTrue result ↔ All IsPrintable text.now }
{
    text.iter().all(|c| *c >= b' ' && *c <= b'~')
}

fn party_fault(text: &[u8]) -> Option<TextFault>
    ensures fault { IfSome result (IsWrong TextMember.Party text.now) }
    ensures right { IfNone result (IsText TextMember.Party text.now) }
{
    if !are_printable(text) {
        return Some(TextFault::Unprintable);
    }
    match Bic::parse(text) {
        Ok(_) => None,
        Err(fault) => Some(TextFault::Code(fault)),
    }
}

fn isin_fault(text: &[u8]) -> Option<TextFault>
    ensures fault { IfSome result (IsWrong TextMember.Security text.now) }
    ensures right { IfNone result (IsText TextMember.Security text.now) }
{
    if !are_printable(text) {
        return Some(TextFault::Unprintable);
    }
    match Isin::parse(text) {
        Ok(_) => None,
        Err(fault) => Some(TextFault::Code(fault)),
    }
}

fn kind_fault(text: &[u8]) -> Option<TextFault>
    ensures fault { IfSome result (IsWrong TextMember.Kind text.now) }
    ensures right { IfNone result (IsText TextMember.Kind text.now) }
{
    match Kind::try_from(text) {
        Ok(_) => None,
        Err(_) => Some(TextFault::NoKind),
    }
}

fn day_fault(text: &[u8]) -> Option<TextFault>
    ensures fault { IfSome result (IsWrong TextMember.Day text.now) }
    ensures right { IfNone result (IsDay text.now) }
{
    let mut digits = [0; 8];
    if text.len() != digits.len() || !are_digits(text) {
        return Some(TextFault::NotEightDigits);
    }
    digits.copy_from_slice(text);
    match Day::read(&digits) {
        Some(_) => None,
        None => Some(TextFault::NoDate),
    }
}

fn currency_fault(text: &[u8]) -> Option<TextFault>
    ensures fault { IfSome result (IsWrong TextMember.Currency text.now) }
    ensures right { IfNone result (IsText TextMember.Currency text.now) }
{
    if Ccy::parse(text).is_some() {
        return None;
    }
    if is_currency_in_capitals(text) {
        return Some(TextFault::LowerCase);
    }
    Some(TextFault::NoCurrency)
}

/// Whether the text names a currency of the desk once its letters are capitals.
fn is_currency_in_capitals(text: &[u8]) -> bool
    ensures { IsTrue result ↔ ((ccy : CcyValue) × (letters_of ccy ≡ map to_ascii_uppercase text.now)) }
{
    let mut capitals = [0; 3];
    if text.len() != capitals.len() {
        return false;
    }
    capitals.copy_from_slice(text);
    capitals.make_ascii_uppercase();
    Ccy::parse(&capitals).is_some()
}
