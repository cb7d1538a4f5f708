//! What answers tell in place of what was asked for.
ghost use Rattle.std.specs.Prelude.{◌≡◌, ◌≤◌, ◌==◌, length, List, ℕ, [], ◌∷◌, ◌++◌, map, IfOk, MatchOption, true, false};
ghost use Rattle.desk_book.specs.Lines.{script_lines};
ghost use Rattle.desk.specs.Told.{behind_number as behind_number_of, behind_words as behind_words_of, ended, front_number as number_in_front, has_front as begins, next_stand, nothing as nothing_told, stand_of, told_by, told_from, told_in as all_told, told_in_line};

use desk_book::{first_line, is_stop, said_by};
use std::alloc::{AllocError, Global};

/// What an answer tells in place of what was asked for.
#[derive(Clone, Copy)]
pub struct Telling<'a> {
    /// The number of a refusal or a fault; 0 where it tells none
    pub number: u8,
    /// What stands behind the number in its line: nothing, or a line's number or a field's word with a space before it
    pub rest: &'a [u8],
}

/// Where a reader of answers stands.
#[derive(Clone, Copy)]
pub enum Place<'a> {
    /// In front of an answer
    Before,
    /// In an answer of status 200
    Accepted,
    /// In another, which told this so far
    Other(Telling<'a>),
}

/// What answers tell, one of each, in their order: nothing of an answer of status 200, and of one that tells no number.
pub fn told_in<'a>(alloc: Global, answers: &'a [u8]) -> Result<Vec<Telling<'a>>, AllocError>
    ensures { IfOk result (λ told. map told_by told.items ≡ all_told answers.entry.now) }
{
    let mut told = Vec::new(alloc);
    let mut place = Place::Before;
    let mut rest = answers;
    while let Some((line, after)) = first_line(rest) {
        if let Some(telling) = told_at_end(place, line) {
            told.push(telling)?;
        }
        place = place_behind(place, line);
        rest = after;
    }
    Ok(told)
}

/// What the answer tells that a line ends, if it ends one.
fn told_at_end<'a>(place: Place<'a>, line: &[u8]) -> Option<Telling<'a>>
    ensures { MatchOption result (ended (stand_of place.entry) line.now ≡ []) (λ telling. ended (stand_of place.entry) line.now ≡ told_by telling ∷ []) }
{
    if !is_stop(line) {
        return None;
    }
    match place {
        Place::Before => None,
        Place::Accepted => Some(nothing()),
        Place::Other(telling) => Some(telling),
    }
}

/// Where a reader stands behind a line.
fn place_behind<'a>(place: Place<'a>, line: &'a [u8]) -> Place<'a>
    ensures { stand_of result ≡ next_stand (stand_of place.entry) line.entry.now }
{
    match place {
        Place::Before if has_front(b"200", line) => Place::Accepted,
        Place::Before => Place::Other(nothing()),
        _ if is_stop(line) => Place::Before,
        Place::Accepted => Place::Accepted,
        Place::Other(telling) if telling.number == 0 => Place::Other(telling_in(line)),
        Place::Other(telling) => Place::Other(telling),
    }
}

/// That no number is told.
fn nothing<'a>() -> Telling<'a>
    ensures { told_by result ≡ nothing_told }
{
    Telling {
        number: 0,
        rest: &[],
    }
}

/// What a line tells.
fn telling_in(line: &[u8]) -> Telling<'_>
    ensures { told_by result ≡ told_in_line line.entry.now }
{
    let text = behind_words(said_by(line));
    let number = front_number(text);
    let rest = behind_number(text);
    Telling { number, rest }
}

/// What stands behind the words with which a line tells a number; nothing where it tells none.
fn behind_words(said: &[u8]) -> &[u8]
    ensures { result.now ≡ behind_words_of said.entry.now }
{
    if has_front(b"refused ", said) {
        &said[8..]
    } else if has_front(b"fault ", said) {
        &said[6..]
    } else if has_front(b":70D::REAS//DESK ", said) {
        &said[17..]
    } else {
        &[]
    }
}

/// Whether a line begins so.
fn has_front(front: &[u8], line: &[u8]) -> bool
    ensures value { result ≡ begins front.now line.now }
    ensures long { result ≡ true → length front.now ≤ length line.now }
{
    line.starts_with(front)
}

/// The number that the first two digits of a text write, or the first one; 0 where it does not begin with one.
fn front_number(text: &[u8]) -> u8
    ensures { result ≡ number_in_front text.now }
{
    match text {
        [tens, ones, ..] if tens.is_ascii_digit() && ones.is_ascii_digit() => {
            10 * (*tens - b'0') + (*ones - b'0')
        }
        [ones, ..] if ones.is_ascii_digit() => *ones - b'0',
        _ => 0,
    }
}

/// What stands behind the digits of that number.
fn behind_number(text: &[u8]) -> &[u8]
    ensures { result.now ≡ behind_number_of text.entry.now }
{
    match text {
        [tens, ones, rest @ ..] if tens.is_ascii_digit() && ones.is_ascii_digit() => rest,
        [ones, rest @ ..] if ones.is_ascii_digit() => rest,
        _ => text,
    }
}
