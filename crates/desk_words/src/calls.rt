//! What the words ask for.
ghost use Rattle.std.specs.Prelude.{◌≡◌, ◌⊎◌, ◌↔◌, ◌<◌, ◌^◌, decimal, [], ◌∷◌, ℕ, List, Option, Some, true, codes, map, All, IfErr, IfOk, IfSome, IsSomeAnd, IsTrue, MatchResult};
ghost use Rattle.clap.specs.Words.{first_value, found_of, kind_of, one_text, rows_of, subcommand_rows_of};
ghost use Rattle.desk_codes.specs.Bic.{IsBic};
ghost use Rattle.desk_msg.specs.MessageType.{digits_of_type, is_instruction, number_of_type};
ghost use Rattle.desk_msg.specs.declared.mt.Mt.{Mt};
ghost use Rattle.desk_words.specs.Words.{ArePartWords, ArePartsOf, CallValue, IsAskable, IsBicText, IsErrorIn, IsFlagGiven, IsFormatOf, IsFrom, IsFromSpelledOut, IsNoOptionIn, IsSpelledOut, ReadsOnlyInstructions, IsSaid, IsSaidBy, IsSaidIn, IsNumberText, IsTypeText, is_part_word, is_told, part_words_in, parts_by, report_words, value_of_call, words_for, words_found};
ghost use Rattle.desk_words.specs.Topics.{words_quoted};

use crate::helps::NO_PART;
use crate::parser::desk;
use crate::topics::Quoted;
use clap::ArgMatches;
use clap::error::{Error, ErrorKind};
use desk_book::party;
use desk_codes::Bic;
use desk_msg::Mt;
use desk_report::{Format, Parts};
use std::alloc::{AllocError, Global};
use std::convert::AsStr;

/// The words that name the parts of a report.
const PARTS: [&str; 5] = ["pending", "unmatched", "accounts", "cash", "sums"];

/// What the words ask for.
#[derive(Clone, Copy)]
pub enum Call<'a> {
    /// Whether a code is an ISIN
    Isin(&'a str),
    /// What a message of a type says
    Read(Mt),
    /// A script's answers, on a desk in memory
    Play,
    /// A script's answers, on the desk of a file
    PlayOn(&'a str),
    /// A script's answers, by the desk of a file, which stays as it is
    TryOn(&'a str),
    /// What is refused in a script, on a desk in memory, written so
    Check(Format),
    /// The same, by the desk of a file, which stays as it is
    CheckOn(&'a str, Format),
    /// What is told in place of an answer of these words, explained
    Explain(Quoted<'a>),
    /// Requests over HTTP at a port of 127.0.0.1, of so many connections, on a desk in memory
    Serve(u16, u32),
    /// The same on the desk of a file
    ServeOn(&'a str, u16, u32),
    /// What an account holds, by the desk of a file: the participant, and its account
    Holdings(&'a str, Bic, &'a str),
    /// The totals of the desk of a file
    Sums(&'a str),
    /// What stands at this moment, by a script on a desk in memory: these parts of it, written so
    Report(Parts, Format),
    /// The same, by the desk of a file
    ReportOn(&'a str, Parts, Format),
    /// The accepted entries from a number on, or all, by a script on a desk in memory, written so
    Journal(Option<u32>, Format),
    /// The same, by the desk of a file
    JournalOn(&'a str, Option<u32>, Format),
    /// The answers to the files of a folder, on the desk of a file: that file, the folder, and the one of the answers
    Folder(&'a str, &'a str, &'a str),
    /// The history of a file of an earlier version, in a new file: that file, and the new one
    Migrate(&'a str, &'a str),
}

/// What is served.
#[derive(Clone, Copy)]
struct Service {
    /// The port of 127.0.0.1
    port: u16,
    /// How many connections
    count: u32,
}

/// Reads the words, the program's own name first. An error is help that was asked for, words that fit no
/// subcommand, or want of memory.
pub fn call_of<'a, S: AsStr>(alloc: Global, words: &'a [S]) -> Result<Call<'a>, Error>
    ensures readable { IfOk result ReadsOnlyInstructions }
    ensures said { IfOk result (λ call. IsSaidBy (value_of_call call) (map S.text words.entry.now)) }
    ensures asked { (program : List ℕ) (asked : CallValue) → IsAskable asked → map S.text words.entry.now ≡ program ∷ words_for asked
        → MatchResult result (λ call. value_of_call call ≡ asked) (λ error. kind_of error ≡ ErrorKind.OutOfMemory) }
    ensures several { (program : List ℕ) (db : Option (List ℕ)) (format : Format) (named : List (List ℕ)) → IsNoOptionIn db → ArePartWords named
        → map S.text words.entry.now ≡ program ∷ report_words db format named
        → MatchResult result (λ call. value_of_call call ≡ CallValue.report db (parts_by named) format) (λ error. kind_of error ≡ ErrorKind.OutOfMemory) }
    ensures nothing { (program : List ℕ) → map S.text words.entry.now ≡ program ∷ []
        → MatchResult result (λ call. value_of_call call ≡ CallValue.play None) (λ error. kind_of error ≡ ErrorKind.OutOfMemory) }
    ensures wrong { IfErr result (λ error. (kind_of error ≡ ErrorKind.OutOfMemory) ⊎ IsErrorIn (kind_of error) (map S.text words.entry.now)) }
{
    let matches = desk(alloc)?.try_get_matches_from(words)?;
    match call_in(&matches) {
        Some(call) => Ok(call),
        None => Err(usage_error(alloc, misfit_of(&matches))?),
    }
}

/// Why words that the parser takes ask for nothing.
fn misfit_of(matches: &ArgMatches) -> &'static str {
    match matches.subcommand_name() {
        Some("report") => NO_PART,
        _ => "the words fit no subcommand",
    }
}

/// An error in the words, with the program's usage.
fn usage_error(alloc: Global, message: &str) -> Result<Error, AllocError>
    ensures { IfOk result (λ error. kind_of error ≡ ErrorKind.InvalidValue) }
{
    let mut desk = desk(alloc)?;
    desk.error(ErrorKind::InvalidValue, message)
}

/// What the matches ask for; no subcommand asks for a script's answers.
fn call_in<'a>(matches: &ArgMatches<'a>) -> Option<Call<'a>>
    ensures readable { IfSome result ReadsOnlyInstructions }
    ensures said { IfSome result (λ call. IsSaidIn (value_of_call call) (subcommand_rows_of matches.now)) }
    ensures asked { (asked : CallValue) → IsSomeAnd (subcommand_rows_of matches.now) (λ found. IsSpelledOut asked found.0 found.1)
        → IsSomeAnd result (λ call. value_of_call call ≡ asked) }
    ensures nothing { subcommand_rows_of matches.now ≡ None → IsSomeAnd result (λ call. value_of_call call ≡ CallValue.play None) }
{
    match matches.subcommand() {
        Some((name, inner)) => subcommand_call(name, inner),
        None => Some(Call::Play),
    }
}

/// What a subcommand with these matches asks for.
fn subcommand_call<'a>(name: &str, inner: &ArgMatches<'a>) -> Option<Call<'a>>
    ensures readable { IfSome result ReadsOnlyInstructions }
    ensures said { IfSome result (λ call. IsSaid (value_of_call call) name.now (rows_of (found_of inner.now))) }
    ensures asked { (asked : CallValue) → IsSpelledOut asked name.now (rows_of (found_of inner.now))
        → IsSomeAnd result (λ call. value_of_call call ≡ asked) }
{
    match name {
        "isin" => Some(Call::Isin(inner.get_str("code")?)),
        "read" => Some(Call::Read(type_in(inner)?)),
        "play" => Some(play_call(inner)),
        "check" => Some(check_call(inner)),
        "explain" => Some(Call::Explain(quoted_in(inner))),
        "serve" => serve_call(inner),
        "holdings" => holdings_call(inner),
        "sums" => Some(Call::Sums(inner.get_str("db")?)),
        "report" => report_call(inner),
        "journal" => journal_call(inner),
        "drop" => folder_call(inner),
        "migrate" => migrate_call(inner),
        _ => None,
    }
}

/// The type that a message is to be read as.
fn type_in(inner: &ArgMatches) -> Option<Mt>
    ensures right { IfSome result (λ mt. is_instruction mt ≡ true) }
    ensures said { IfSome result (λ mt. IsSomeAnd (one_text (found_of inner.now) (codes "mt")) (IsTypeText mt)) }
    ensures asked { (mt : Mt) → is_instruction mt ≡ true → one_text (found_of inner.now) (codes "mt") ≡ Some (digits_of_type mt)
        → IsSomeAnd result (λ found. found ≡ mt) }
{
    instruction_type(inner.get_one::<u16>("mt")?)
}

/// The words of an answer that are given.
fn quoted_in<'a>(inner: &ArgMatches<'a>) -> Quoted<'a>
    ensures { words_quoted result ≡ words_found (first_value (found_of inner.now) (codes "word")) (first_value (found_of inner.now) (codes "second")) (first_value (found_of inner.now) (codes "third")) }
{
    Quoted {
        first: inner.get_str("word"),
        second: inner.get_str("second"),
        third: inner.get_str("third"),
    }
}

/// A script, on the desk of the file that is named, if one is; where it is a dry run, by that desk, which stays as it is.
fn play_call<'a>(inner: &ArgMatches<'a>) -> Call<'a>
    ensures readable { ReadsOnlyInstructions result }
    ensures said { IsSaid (value_of_call result) (codes "play") (rows_of (found_of inner.now)) }
    ensures asked { (asked : CallValue) → IsSpelledOut asked (codes "play") (rows_of (found_of inner.now)) → value_of_call result ≡ asked }
{
    match inner.get_str("db") {
        Some(db) if is_dry(inner) => Call::TryOn(db),
        Some(db) => Call::PlayOn(db),
        None => Call::Play,
    }
}

/// Whether nothing is to be kept.
fn is_dry(inner: &ArgMatches) -> bool
    ensures { IsFlagGiven result (one_text (found_of inner.now) (codes "dry-run")) }
{
    inner.get_one::<bool>("dry-run").unwrap_or(false)
}

/// What is refused in a script, by the desk of the file that is named, if one is.
fn check_call<'a>(inner: &ArgMatches<'a>) -> Call<'a>
    ensures readable { ReadsOnlyInstructions result }
    ensures said { IsSaid (value_of_call result) (codes "check") (rows_of (found_of inner.now)) }
    ensures asked { (asked : CallValue) → IsSpelledOut asked (codes "check") (rows_of (found_of inner.now)) → value_of_call result ≡ asked }
{
    let format = format_in(inner);
    match inner.get_str("db") {
        Some(db) => Call::CheckOn(db, format),
        None => Call::Check(format),
    }
}

/// Connections, on the desk of the file that is named, if one is.
fn serve_call<'a>(inner: &ArgMatches<'a>) -> Option<Call<'a>>
    ensures readable { IfSome result ReadsOnlyInstructions }
    ensures said { IfSome result (λ call. IsSaid (value_of_call call) (codes "serve") (rows_of (found_of inner.now))) }
    ensures asked { (asked : CallValue) → IsSpelledOut asked (codes "serve") (rows_of (found_of inner.now))
        → IsSomeAnd result (λ call. value_of_call call ≡ asked) }
{
    let service = service_in(inner)?;
    match inner.get_str("db") {
        Some(db) => Some(Call::ServeOn(db, service.port, service.count)),
        None => Some(Call::Serve(service.port, service.count)),
    }
}

/// What is to be served.
fn service_in(inner: &ArgMatches) -> Option<Service>
    ensures port { IfSome result (λ service. IsSomeAnd (one_text (found_of inner.now) (codes "port")) (IsNumberText service.port)) }
    ensures count { IfSome result (λ service. IsSomeAnd (one_text (found_of inner.now) (codes "count")) (IsNumberText service.count)) }
    ensures asked { (port count : ℕ) → port < 2 ^ 16 → one_text (found_of inner.now) (codes "port") ≡ Some (decimal port)
        → count < 2 ^ 32 → one_text (found_of inner.now) (codes "count") ≡ Some (decimal count)
        → IsSomeAnd result (λ service. (service.port ≡ port) × (service.count ≡ count)) }
{
    let port = inner.get_one::<u16>("port")?;
    let count = inner.get_one::<u32>("count")?;
    Some(Service { port, count })
}

/// What an account holds, by the desk of a file.
fn holdings_call<'a>(inner: &ArgMatches<'a>) -> Option<Call<'a>>
    ensures readable { IfSome result ReadsOnlyInstructions }
    ensures said { IfSome result (λ call. IsSaid (value_of_call call) (codes "holdings") (rows_of (found_of inner.now))) }
    ensures asked { (asked : CallValue) → IsSpelledOut asked (codes "holdings") (rows_of (found_of inner.now))
        → IsSomeAnd result (λ call. value_of_call call ≡ asked) }
{
    let db = inner.get_str("db")?;
    let owner = owner_in(inner)?;
    let account = inner.get_str("account")?;
    Some(Call::Holdings(db, owner, account))
}

/// The participant whose account is asked for.
fn owner_in(inner: &ArgMatches) -> Option<Bic>
    ensures said { IfSome result (λ owner. IsSomeAnd (first_value (found_of inner.now) (codes "bic")) (IsBicText owner)) }
    ensures asked { (bic : List ℕ) → IsBic bic → first_value (found_of inner.now) (codes "bic") ≡ Some bic → IsSomeAnd result (λ owner. owner ≡ bic) }
{
    party(inner.get_str("bic")?.as_bytes())
}

/// What stands at this moment, by the desk of the file that is named, if one is.
fn report_call<'a>(inner: &ArgMatches<'a>) -> Option<Call<'a>>
    ensures readable { IfSome result ReadsOnlyInstructions }
    ensures said { IfSome result (λ call. IsSaid (value_of_call call) (codes "report") (rows_of (found_of inner.now))) }
    ensures asked { (asked : CallValue) → IsSpelledOut asked (codes "report") (rows_of (found_of inner.now))
        → IsSomeAnd result (λ call. value_of_call call ≡ asked) }
{
    let parts = parts_in(inner)?;
    let format = format_in(inner);
    match inner.get_str("db") {
        Some(db) => Some(Call::ReportOn(db, parts, format)),
        None => Some(Call::Report(parts, format)),
    }
}

/// The parts that are named, or all where none is; None where a word is no part.
fn parts_in(inner: &ArgMatches) -> Option<Parts>
    ensures said { IfSome result (λ parts. ArePartsOf parts (part_words_in (rows_of (found_of inner.now)))) }
    ensures asked { (parts : Parts) → ArePartsOf parts (part_words_in (rows_of (found_of inner.now))) → IsSomeAnd result (λ found. found ≡ parts) }
{
    let named = inner.get_strs("part").unwrap_or(&[]);
    if are_parts(named) {
        Some(parts_of(named))
    } else {
        None
    }
}

/// Whether each word names a part.
fn are_parts(named: &[&str]) -> bool
    ensures { IsTrue result ↔ All (λ word. is_part_word word.now ≡ true) named.now }
{
    named.iter().all(|word| is_part(word))
}

/// The parts of these words, or all where there are none.
fn parts_of(named: &[&str]) -> Parts
    ensures { result ≡ parts_by (map (λ word. word.now) named.now) }
{
    Parts {
        pending: is_told(named, "pending"),
        unmatched: is_told(named, "unmatched"),
        accounts: is_told(named, "accounts"),
        cash: is_told(named, "cash"),
        sums: is_told(named, "sums"),
    }
}

/// Whether a part is told: it is named, or none is.
fn is_told(named: &[&str], part: &str) -> bool
    ensures { result ≡ is_told part.now (map (λ word. word.now) named.now) }
{
    named.is_empty() || named.contains(&part)
}

/// Whether a word names a part.
fn is_part(word: &str) -> bool
    ensures { result ≡ is_part_word word.now }
{
    PARTS.contains(&word)
}

/// JSON, where that is asked for.
fn format_in(inner: &ArgMatches) -> Format
    ensures { IsFormatOf result (one_text (found_of inner.now) (codes "json")) }
{
    match inner.get_one::<bool>("json") {
        Some(true) => Format::Json,
        _ => Format::Text,
    }
}

/// The accepted entries, by the desk of the file that is named, if one is.
fn journal_call<'a>(inner: &ArgMatches<'a>) -> Option<Call<'a>>
    ensures readable { IfSome result ReadsOnlyInstructions }
    ensures said { IfSome result (λ call. IsSaid (value_of_call call) (codes "journal") (rows_of (found_of inner.now))) }
    ensures asked { (asked : CallValue) → IsSpelledOut asked (codes "journal") (rows_of (found_of inner.now))
        → IsSomeAnd result (λ call. value_of_call call ≡ asked) }
{
    let from = from_in(inner)?;
    let format = format_in(inner);
    match inner.get_str("db") {
        Some(db) => Some(Call::JournalOn(db, from, format)),
        None => Some(Call::Journal(from, format)),
    }
}

/// The number of the entry to begin with, if one is given.
fn from_in(inner: &ArgMatches) -> Option<Option<u32>>
    ensures said { IfSome result (λ from. IsFrom from (first_value (found_of inner.now) (codes "from")) (one_text (found_of inner.now) (codes "from"))) }
    ensures asked { (from : Option ℕ) → IsFromSpelledOut from (first_value (found_of inner.now) (codes "from")) (one_text (found_of inner.now) (codes "from"))
        → IsSomeAnd result (λ found. found ≡ from) }
{
    match inner.get_str("from") {
        None => Some(None),
        Some(_) => Some(Some(inner.get_one::<u32>("from")?)),
    }
}

/// The files of a folder, on the desk of a file, and where their answers go.
fn folder_call<'a>(inner: &ArgMatches<'a>) -> Option<Call<'a>>
    ensures readable { IfSome result ReadsOnlyInstructions }
    ensures said { IfSome result (λ call. IsSaid (value_of_call call) (codes "drop") (rows_of (found_of inner.now))) }
    ensures asked { (asked : CallValue) → IsSpelledOut asked (codes "drop") (rows_of (found_of inner.now))
        → IsSomeAnd result (λ call. value_of_call call ≡ asked) }
{
    let db = inner.get_str("db")?;
    let from = inner.get_str("in")?;
    let to = inner.get_str("out")?;
    Some(Call::Folder(db, from, to))
}

/// A file of an earlier version, and the new one.
fn migrate_call<'a>(inner: &ArgMatches<'a>) -> Option<Call<'a>>
    ensures readable { IfSome result ReadsOnlyInstructions }
    ensures said { IfSome result (λ call. IsSaid (value_of_call call) (codes "migrate") (rows_of (found_of inner.now))) }
    ensures asked { (asked : CallValue) → IsSpelledOut asked (codes "migrate") (rows_of (found_of inner.now))
        → IsSomeAnd result (λ call. value_of_call call ≡ asked) }
{
    let old = inner.get_str("old")?;
    let new = inner.get_str("new")?;
    Some(Call::Migrate(old, new))
}

/// The type of an instruction by its number.
fn instruction_type(number: u16) -> Option<Mt>
    ensures right { IfSome result (λ mt. (is_instruction mt ≡ true) × (number_of_type mt ≡ number)) }
    ensures known { (mt : Mt) → is_instruction mt ≡ true → number_of_type mt ≡ number → IsSomeAnd result (λ found. found ≡ mt) }
{
    match Mt::try_from(number) {
        Ok(mt) if mt.is_instruction() => Some(mt),
        _ => None,
    }
}
