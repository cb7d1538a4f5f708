//! The paths of the desk: which of them a target is, and what it asks.
ghost use Rattle.std.specs.Prelude.{◌≡◌, List, ℕ, [], ◌∷◌, ◌++◌, IfSome, IfNone, OnOk};
ghost use Rattle.std.specs.Str.{byte};
ghost use Rattle.desk_http.specs.Paths.{IsPart, IsPath, Names, Path as PathValue, method_of, path_of};
ghost use Rattle.desk_http.specs.Rows.{IsOn, desk_rows};

use desk_book::{InstructionType, Question, count_of, party};
use desk_codes::split_at;
use matchit::{InsertError, Router};
use std::alloc::{AllocError, Global};

/// A path of the desk, with its parts as they stand in a target: they may name no party, type or number.
#[derive(Clone, Copy)]
pub enum Path<'a> {
    /// `/in/{bic}/{mt}`
    Message(&'a [u8], &'a [u8]),
    /// `/ops`
    Operator,
    /// `/status/{bic}`
    Status(&'a [u8]),
    /// `/holdings/{bic}`
    Holdings(&'a [u8]),
    /// `/out/{bic}/{k}`
    Sent(&'a [u8], &'a [u8]),
    /// `/sums`
    Sums,
}

/// What the router keeps of a path.
#[derive(Clone, Copy)]
enum Route {
    Message,
    Operator,
    Status,
    Holdings,
    Sent,
    Sums,
}

/// The paths of the desk, to be looked up.
#[derive(Drop)]
pub struct Routes {
    router: Router<Route>,
    ghost rows: { router ≡ desk_rows },
}

impl Routes {
    /// The six paths. The room for them is taken here, and looking one up takes none.
    pub fn new(alloc: Global) -> Result<Routes, AllocError> {
        // none of them is in another's way, so there was no memory
        Routes::build(alloc).map_err(|_| AllocError)
    }

    fn build(alloc: Global) -> Result<Routes, InsertError> {
        let mut router = Router::new(alloc);
        add_paths(&mut router)?;
        Ok(Routes { router })
    }

    /// The path that a target is, with its parts; None where it is no path of the desk.
    pub(crate) fn find<'a>(&self, target: &'a str) -> Option<Path<'a>>
        ensures some { IfSome result (λ path. IsPath (path_of path) target.now) }
        ensures none { IfNone result ((path : PathValue) → ¬ IsPath path target.now) }
    {
        match self.router.at(target) {
            Ok(found) => Some(path_on(*found.value, target.as_bytes())),
            Err(_) => None,
        }
    }
}

impl Path<'_> {
    /// Its method.
    pub fn method(&self) -> &'static [u8]
        ensures { result.now ≡ method_of (path_of self.now) }
    {
        match self {
            Path::Sent(..) | Path::Sums => b"GET",
            _ => b"POST",
        }
    }

    /// The question that it names; None where a part is no BIC, no type of an instruction or no number of one to nine
    /// digits.
    pub fn question(&self) -> Option<Question>
        ensures some { IfSome result (λ question. Names (path_of self.now) question) }
        ensures none { IfNone result ((question : Question) → ¬ Names (path_of self.now) question) }
    {
        match *self {
            Path::Message(bic, mt) => {
                Some(Question::Message(party(bic)?, InstructionType::parse(mt)?))
            }
            Path::Operator => Some(Question::Operator),
            Path::Status(bic) => Some(Question::Status(party(bic)?)),
            Path::Holdings(bic) => Some(Question::Holdings(party(bic)?)),
            Path::Sent(bic, number) => Some(Question::Sent(party(bic)?, count_of(number)?)),
            Path::Sums => Some(Question::Sums),
        }
    }
}

/// Adds the six paths to a router that has none.
fn add_paths(router: &mut Router<Route>) -> Result<(), InsertError>
    requires { router.old ≡ [] }
    ensures { OnOk result (router.new ≡ desk_rows) }
{
    router.insert("/in/{bic}/{mt}", Route::Message)?;
    router.insert("/ops", Route::Operator)?;
    router.insert("/status/{bic}", Route::Status)?;
    router.insert("/holdings/{bic}", Route::Holdings)?;
    router.insert("/out/{bic}/{k}", Route::Sent)?;
    router.insert("/sums", Route::Sums)?;
    Ok(())
}

/// The path that a target on this route is.
fn path_on(route: Route, target: &[u8]) -> Path<'_>
    requires { IsOn route target.now }
    ensures { IsPath (path_of result) target.now }
{
    match route {
        Route::Message => {
            let (bic, mt) = two_parts(target, b"/in/");
            Path::Message(bic, mt)
        }
        Route::Operator => Path::Operator,
        Route::Status => Path::Status(last_part(target, b"/status/")),
        Route::Holdings => Path::Holdings(last_part(target, b"/holdings/")),
        Route::Sent => {
            let (bic, number) = two_parts(target, b"/out/");
            Path::Sent(bic, number)
        }
        Route::Sums => Path::Sums,
    }
}

/// The part behind a prefix.
fn last_part<'a>(target: &'a [u8], prefix: &[u8]) -> &'a [u8]
    requires { (part : List ℕ) × IsPart part × (target.now ≡ prefix.now ++ part) }
    ensures { IsPart result.now × (target.now ≡ prefix.now ++ result.now) }
{
    behind(target, prefix)
}

/// The two parts behind a prefix, with a slash between them.
fn two_parts<'a>(target: &'a [u8], prefix: &[u8]) -> (&'a [u8], &'a [u8])
    requires { (first last : List ℕ) × IsPart first × IsPart last × (target.now ≡ prefix.now ++ (first ++ byte "/" ∷ last)) }
    ensures { IsPart result.0.now × IsPart result.1.now × (target.now ≡ prefix.now ++ (result.0.now ++ byte "/" ∷ result.1.now)) }
{
    split_at(behind(target, prefix), b'/').unwrap()
}

/// What stands behind a prefix.
fn behind<'a>(target: &'a [u8], prefix: &[u8]) -> &'a [u8]
    requires { (rest : List ℕ) × (target.now ≡ prefix.now ++ rest) }
    ensures { target.now ≡ prefix.now ++ result.now }
{
    &target[prefix.len()..]
}
