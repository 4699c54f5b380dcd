// What the target of a request names.
ghost use Rattle.std.specs.Prelude.{◌≡◌, ◌==◌, ◌-◌, IfOk, OnOk, length, take, option_map};
ghost use Rattle.std.specs.List.{before_first};
ghost use Rattle.matchit.specs.Seek.{first};
ghost use Rattle.desk_http.specs.Routes.{with_route, routes, place_of, path_of, target_at, target_of, verb_of};

use crate::early::Verb;
use crate::heads::after;
use desk_csv::read_monday;
use matchit::Router;
use minute_line::{Memory, Monday};
use std::alloc::Global;

/// What a route leads to.
#[derive(Clone, Copy, PartialEq, Eq, Debug)]
pub(crate) enum Place {
    Plan,
    Check,
    Publish,
    Show,
    Export,
}

/// What a target names: what its route leads to, with the Monday that stands in the target.
#[derive(Clone, Copy, Debug)]
pub(crate) enum Target {
    Plan,
    Check,
    Publish,
    Show(Monday),
    Export(Monday),
}

impl Target {
    /// The method of its route.
    pub(crate) fn verb(self) -> Verb
        ensures { result ≡ verb_of self }
    {
        match self {
            Target::Plan | Target::Check | Target::Publish => Verb::Post,
            Target::Show(_) | Target::Export(_) => Verb::Get,
        }
    }
}

/// Adds a route. No two of the routes conflict, so a refusal is want of memory.
fn add(router: &mut Router<Place>, route: &str, place: Place) -> Result<(), Memory>
    ensures { OnOk result (router.new ≡ with_route route.now place router.old) }
{
    match router.insert(route, place) {
        Ok(()) => Ok(()),
        Err(_) => Err(Memory),
    }
}

/// The routes.
fn router(alloc: Global) -> Result<Router<Place>, Memory>
    ensures { IfOk result (λ table. table ≡ routes) }
{
    let mut router = Router::new(alloc);
    add(&mut router, "/plan", Place::Plan)?;
    add(&mut router, "/check", Place::Check)?;
    add(&mut router, "/publish", Place::Publish)?;
    add(&mut router, "/weeks/{monday}", Place::Show)?;
    add(&mut router, "/weeks/{monday}/export", Place::Export)?;
    Ok(router)
}

/// What the route of a path leads to.
fn place_of(alloc: Global, path: &str) -> Result<Option<Place>, Memory>
    ensures { IfOk result (λ place. place ≡ place_of path.now) }
{
    let router = router(alloc)?;
    match router.at(path) {
        Ok(found) => Ok(Some(*found.value)),
        Err(_) => Ok(None),
    }
}

/// The path of a target: what stands before its first question mark.
fn path_of(target: &str) -> &str
    ensures { result.now ≡ path_of target.now }
{
    match target.split_once('?') {
        Some((path, _)) => path,
        None => target,
    }
}

/// The bytes before `/export`.
fn before_export(path: &[u8]) -> &[u8]
    ensures { result.now ≡ take (length path.now - 7) path.now }
{
    &path[..path.len().saturating_sub(7)]
}

/// What a path names, by what its route leads to.
fn target_at(place: Place, path: &[u8]) -> Option<Target>
    ensures { result ≡ target_at place path.now }
{
    match place {
        Place::Plan => Some(Target::Plan),
        Place::Check => Some(Target::Check),
        Place::Publish => Some(Target::Publish),
        Place::Show => read_monday(after(path, 7)).map(Target::Show),
        Place::Export => read_monday(before_export(after(path, 7))).map(Target::Export),
    }
}

/// What a target names.
pub(crate) fn target_of(alloc: Global, target: &str) -> Result<Option<Target>, Memory>
    ensures { IfOk result (λ named. named ≡ target_of target.now) }
{
    let path = path_of(target);
    match place_of(alloc, path)? {
        Some(place) => Ok(target_at(place, path.as_bytes())),
        None => Ok(None),
    }
}
