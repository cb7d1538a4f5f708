//! Objects in JSON whose members are texts and whole numbers alone, few of them and short, each name once, in printable
//! characters of ASCII of which none is escaped: what operators write as commands, in any spelling. They are read straight
//! from the bytes, with no memory taken.
ghost use Rattle.std.specs.Prelude.{◌≡◌, ◌++◌, [], ◌∷◌, Some, IsUtf8, IfSome, OnSome, length, option_map};
ghost use Rattle.serde_json.specs.Data.{no_members};
ghost use Rattle.serde_json.specs.Events.{members_len};
ghost use Rattle.serde_json.specs.Find.{get_member};
ghost use Rattle.serde_json.specs.Read.{read};
ghost use Rattle.desk_book.specs.Flat.{object_of, put_all, scalar_data};

use crate::limits::MOST_MEMBERS;
use crate::requests::object::Object;
use crate::requests::scanning::{after_space, behind_mark, member};
use arrayvec::ArrayVec;

/// The value of a member.
#[derive(Clone, Copy, Drop)]
pub enum Scalar<'a> {
    /// A text, as it stands between its quotes
    Text(&'a [u8]),
    /// A whole number
    Whole(u64),
}

/// A member: its name, as it stands between its quotes, and its value.
#[derive(Clone, Copy, Drop)]
pub struct Member<'a> {
    pub name: &'a [u8],
    pub value: Scalar<'a>,
}

impl Default for Member<'_> {
    fn default() -> Self {
        Member {
            name: &[],
            value: Scalar::Whole(0),
        }
    }
}

/// An object, by its members as they stand.
#[derive(Drop)]
pub struct Flat<'a> {
    members: ArrayVec<Member<'a>, MOST_MEMBERS>,
    ghost each_once: { members_len (put_all members.items no_members) ≡ length members.items },
}

impl<'a> Flat<'a> {
    /// One with no members.
    fn empty() -> Flat<'a>
        ensures { result.members.items ≡ [] }
    {
        Flat {
            members: ArrayVec::new(),
        }
    }

    /// The value at a name.
    fn at(&self, name: &[u8]) -> Option<&Scalar<'a>>
        ensures { option_map (λ value. scalar_data value.now) result ≡ get_member name.now (put_all self.now.members.items no_members) }
    {
        let members = self.members.as_slice();
        // from the last on, which would count where a name stood twice
        for index in (0..members.len()).rev() {
            if members[index].name == name {
                return Some(&members[index].value);
            }
        }
        None
    }

    /// Adds a member; None where one of its name is there, or as many as there may be.
    fn add(&mut self, member: Member<'a>) -> Option<()>
        ensures { OnSome result (self.new.members.items ≡ self.old.members.items ++ member.entry ∷ []) }
    {
        if self.members.is_full() || self.at(member.name).is_some() {
            return None;
        }
        self.members.push(member);
        Some(())
    }
}

impl Object for Flat<'_> {
    ghost value = { λ flat. object_of flat.members.items };

    fn member_count(&self) -> Option<usize> {
        Some(self.members.len())
    }

    fn text(&self, name: &str) -> Option<&[u8]> {
        match self.at(name.as_bytes())? {
            Scalar::Text(text) => Some(text),
            Scalar::Whole(_) => None,
        }
    }

    fn whole(&self, name: &str) -> Option<u64> {
        match self.at(name.as_bytes())? {
            Scalar::Text(_) => None,
            Scalar::Whole(number) => Some(*number),
        }
    }
}

/// The object that the bytes are; None where they are no such object, which says nothing of them.
pub fn flat_object(bytes: &[u8]) -> Option<Flat<'_>>
    ensures read { IfSome result (λ flat. read bytes.now ≡ Some (object_of flat.members.items)) }
    ensures utf8 { OnSome result (IsUtf8 bytes.now) }
{
    let mut rest = behind_mark(bytes, b'{')?;
    let mut flat = Flat::empty();
    for _ in 0..MOST_MEMBERS {
        let (member, behind) = member(rest)?;
        flat.add(member)?;
        match behind_mark(behind, b',') {
            Some(more) => rest = more,
            None => {
                let end = behind_mark(behind, b'}')?;
                if !after_space(end).is_empty() {
                    return None;
                }
                return Some(flat);
            }
        }
    }
    None
}
