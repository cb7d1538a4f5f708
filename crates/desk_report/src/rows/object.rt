//! A JSON object that is made member by member, and the values that members of several rows have.
ghost use Rattle.std.specs.Prelude.{◌≡◌, IfOk, IsOkAnd};
ghost use Rattle.serde_json.specs.Data.{no_members, object, put as with_member, string};
ghost use Rattle.serde_json.specs.View.{members_view, view};
ghost use Rattle.desk_msg.specs.StatusText.{code_of_reason};
ghost use Rattle.desk_report.specs.RowData.{amount_data, ccy_data, number_data, or_null};

use desk_msg::{Cash, Reason};
use serde_json::{Map, Value, put};
use std::alloc::{AllocError, Global};

/// An object with the members so far. A call takes it and gives it back with one more: so what was made is let go where memory
/// is wanting by that call, and not at each exit of the function that makes a row, as with `json!`.
#[derive(Drop)]
pub struct Object {
    alloc: Global,
    pub members: Map<String, Value>,
}

impl Object {
    /// With no member yet.
    pub fn new(alloc: Global) -> Object
        ensures { members_view result.members.entries ≡ no_members }
    {
        Object {
            alloc,
            members: Map::new(alloc),
        }
    }

    /// With a member more, unless its value could not be made. Its place is by the order of the names.
    pub fn with(self, name: &str, value: Result<Value, AllocError>) -> Result<Object, AllocError>
        ensures { IfOk result (λ more. IsOkAnd value (λ one. members_view more.members.entries ≡ with_member name.now (view one) (members_view self.members.entries))) }
    {
        let value = value?;
        let mut more = self;
        put(&mut more.members, more.alloc, name, value)?;
        Ok(more)
    }

    /// With a text more.
    pub fn text(self, name: &str, text: &str) -> Result<Object, AllocError>
        ensures { IfOk result (λ more. members_view more.members.entries ≡ with_member name.now (string text.now) (members_view self.members.entries)) }
    {
        let value = Value::try_from_str(self.alloc, text);
        self.with(name, value)
    }

    /// With a number more.
    pub fn number(self, name: &str, number: u64) -> Result<Object, AllocError>
        ensures { IfOk result (λ more. members_view more.members.entries ≡ with_member name.now (number_data number) (members_view self.members.entries)) }
    {
        self.with(name, Ok(Value::from(number)))
    }

    /// The object as a value.
    pub fn into_value(self) -> Value
        ensures { view result ≡ object (members_view self.members.entries) }
    {
        Value::Object(self.members)
    }
}

/// A number, or null where there is none.
pub fn optional_number(number: Option<u64>) -> Value
    ensures { view result ≡ or_null number_data number }
{
    match number {
        Some(number) => Value::from(number),
        None => Value::Null,
    }
}

/// The amount of an instruction's cash in minor units; null free of payment.
pub fn amount_value(cash: Option<Cash>) -> Value
    ensures { view result ≡ amount_data cash }
{
    match cash {
        Some(cash) => Value::from(cash.amount),
        None => Value::Null,
    }
}

/// The currency of an instruction's cash; null free of payment.
pub fn ccy_value(alloc: Global, cash: Option<Cash>) -> Result<Value, AllocError>
    ensures { IfOk result (λ value. view value ≡ ccy_data cash) }
{
    match cash {
        Some(cash) => Value::try_from_str(alloc, cash.ccy.as_str()),
        None => Ok(Value::Null),
    }
}

/// The reason code of what waits for its settlement, four letters (ISO 15022, field 24B).
pub fn reason_code(reason: Reason) -> &'static str
    ensures { result.now ≡ code_of_reason reason }
{
    match reason {
        Reason::Future => "FUTU",
        Reason::Lack => "LACK",
        Reason::Money => "MONY",
    }
}
