//! What is asked of an object in JSON (RFC 8259, section 4), however it is held.
ghost use Rattle.std.specs.Prelude.{◌≡◌, OnSome, option_map};
ghost use Rattle.serde_json.specs.Data.{Data};
ghost use Rattle.serde_json.specs.Events.{members_len};
ghost use Rattle.serde_json.specs.Find.{as_object};
ghost use Rattle.serde_json.specs.View.{view};
ghost use Rattle.desk_book.specs.Members.{IsOrderedObject, text_at, number_at};

use serde_json::Value;

/// A value in JSON. It is asked about its members, where it is an object.
pub trait Object {
    /// The value.
    ghost value: { Self → Data };

    /// How many members it has, each name once; None where it is no object.
    fn member_count(&self) -> Option<usize>
        ensures count { result ≡ option_map members_len (as_object (value self.now)) }
        ensures ordered { OnSome result (IsOrderedObject (value self.now)) };

    /// The bytes of the text at a name; None where there is none.
    fn text(&self, name: &str) -> Option<&[u8]>
        ensures { option_map (λ s. s.now) result ≡ text_at name.now (value self.now) };

    /// The whole number at a name, below 2^64 and written with digits alone; None where there is none.
    fn whole(&self, name: &str) -> Option<u64>
        ensures { result ≡ number_at name.now (value self.now) };
}

impl Object for Value {
    ghost value = { view };

    fn member_count(&self) -> Option<usize> {
        let members = self.as_object()?;
        Some(members.len())
    }

    fn text(&self, name: &str) -> Option<&[u8]> {
        let text = self.get(name).and_then(Value::as_str)?;
        Some(text.as_bytes())
    }

    fn whole(&self, name: &str) -> Option<u64> {
        self.get(name).and_then(Value::as_u64)
    }
}
