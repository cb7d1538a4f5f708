//! What the words ask for.

use crate::damaged::Call;
use crate::reports::Form;
use crate::stops::Stops;
use crate::tables::Registers;
use desk_rules::MOST_ENTRIES;

/// What the words ask for.
#[derive(Clone, Copy)]
pub enum Work<'a> {
    /// What a connection sends is tried; the names of files.
    Connection {
        sent: &'a str,
        response: &'a str,
        setup: Option<&'a str>,
    },
    /// A script is played over registers, in memory or in the file of a path, for so many entries.
    Play(Registers, Option<&'a str>, u64),
    /// A script is played in memory, and its tables are adopted and told of.
    Adopt,
    /// The desk of a file is opened for so many entries, told of and closed.
    Open(&'a str, u64),
    /// A row is put into tables, damaged where a change is given, and read.
    Damaged {
        call: Call,
        row: &'a str,
        change: Option<&'a str>,
    },
    /// A script is played over files that fail from some call on, and again.
    Stopped(Stops),
    /// A file is opened, and its schema looked at.
    Schema(&'a str),
    /// A report of so many securities is written.
    Report(Form, u32),
}

impl<'a> Work<'a> {
    /// What the program's words ask for; None where it is nothing.
    pub fn read(words: &'a [String]) -> Option<Work<'a>> {
        match words {
            [_] => Some(Work::Play(Registers::Both, None, MOST_ENTRIES)),
            [_, kind] => Work::of_none(kind.as_str()),
            [_, kind, word] => Work::of_one(kind.as_str(), word.as_str()),
            [_, kind, first, second] => {
                Work::of_two(kind.as_str(), first.as_str(), second.as_str())
            }
            [_, kind, first, second, third] => Work::of_three(
                kind.as_str(),
                first.as_str(),
                second.as_str(),
                third.as_str(),
            ),
            _ => None,
        }
    }

    /// What a kind asks for.
    fn of_none(kind: &'a str) -> Option<Work<'a>> {
        Some(match kind {
            "adopt" => Work::Adopt,
            _ => Work::Play(Registers::read(kind)?, None, MOST_ENTRIES),
        })
    }

    /// What a kind and one word ask for.
    fn of_one(kind: &'a str, word: &'a str) -> Option<Work<'a>> {
        Some(match kind {
            "play" | "tables" => Work::Play(Registers::read(kind)?, Some(word), MOST_ENTRIES),
            "open" => Work::Open(word, MOST_ENTRIES),
            "schema" => Work::Schema(word),
            "statement" => Work::Report(Form::Statement, number(word)?),
            "sums" => Work::Report(Form::Sums, number(word)?),
            _ => return None,
        })
    }

    /// What a kind and two words ask for.
    fn of_two(kind: &'a str, first: &'a str, second: &'a str) -> Option<Work<'a>> {
        Some(match kind {
            "connection" => Work::Connection {
                sent: first,
                response: second,
                setup: None,
            },
            "open" => Work::Open(first, u64::from(number(second)?)),
            "stopped" => Work::Stopped(Stops {
                log: u64::from(number(first)?),
                db: u64::from(number(second)?),
            }),
            "play" => Work::Play(Registers::Both, Some(first), u64::from(number(second)?)),
            "damaged" => Work::Damaged {
                call: Call::read(first)?,
                row: second,
                change: None,
            },
            _ => return None,
        })
    }

    /// What a kind and three words ask for.
    fn of_three(
        kind: &'a str,
        first: &'a str,
        second: &'a str,
        third: &'a str,
    ) -> Option<Work<'a>> {
        Some(match kind {
            "connection" => Work::Connection {
                sent: first,
                response: second,
                setup: Some(third),
            },
            "damaged" => Work::Damaged {
                call: Call::read(first)?,
                row: second,
                change: Some(third),
            },
            _ => return None,
        })
    }
}

fn number(word: &str) -> Option<u32> {
    word.parse::<u32>().ok()
}
