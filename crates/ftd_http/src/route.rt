//! The routes.

ghost use Rattle.std.specs.Prelude.{◌≡◌, ◌++◌, IfOk, OnOk, map, option_map};
ghost use Rattle.std.specs.Path.{rsplit_once};
ghost use Rattle.std.specs.String.{string_bytes};
ghost use Rattle.matchit.specs.Seek.{first};
ghost use Rattle.ftd_verbs.specs.Rows.{part_seen};
ghost use Rattle.ftd_http.specs.Routes.{all_routes, behind, format_of, formatted, part_text};
ghost use Rattle.ftd_http.specs.Routes.{path_text, route_in, route_text, with_route, with_verbs};

use ftd_verbs::{AnswerFormat, Formats, JSON, Part, TEXT, VERBS, Verb};
use matchit::{InsertError, Router};
use std::alloc::{AllocError, Global};

/// What a target asks.
#[derive(Clone, Copy, Debug, PartialEq, Eq)]
pub struct Route {
    /// The verb of its path.
    pub verb: Verb,
    /// The format in which a reply that has several is told.
    pub format: AnswerFormat,
}

/// Adds a part of a path, as a route is written.
fn push_part(text: &mut String, part: Part) -> Result<(), AllocError>
    ensures { OnOk result
        (string_bytes text.new ≡ string_bytes text.old ++ part_text (part_seen part)) }
{
    match part {
        Part::Text(word) => {
            text.push_str("/")?;
            text.push_str(word)
        }
        Part::Of(field) => {
            text.push_str("/{")?;
            text.push_str(field.key())?;
            text.push_str("}")
        }
    }
}

/// A path, as a route is written.
fn path_text(alloc: Global, path: &[Part]) -> Result<String, AllocError>
    ensures { IfOk result (λ text. string_bytes text ≡ path_text (map part_seen path.now)) }
{
    let mut text = String::new(alloc);
    for part in path {
        push_part(&mut text, *part)?;
    }
    Ok(text)
}

/// Puts in one more route.
#[tactic(auto, using(crate::proofs::RouteFacts::inserted), unfolding(crate::specs::Routes::with_route))]
fn put(router: &mut Router<Verb>, route: &str, verb: Verb) -> Result<(), InsertError>
    ensures { OnOk result (router.new ≡ with_route route.now verb router.old) }
{
    router.insert(route, verb)
}

/// The route of a verb.
fn route_text(alloc: Global, verb: Verb) -> Result<String, AllocError>
    ensures { IfOk result (λ text. string_bytes text ≡ route_text verb) }
{
    path_text(alloc, verb.row().path)
}

/// Puts in the route of one more verb.
fn put_verb(alloc: Global, router: &mut Router<Verb>, verb: Verb) -> Result<(), InsertError>
    ensures { OnOk result (router.new ≡ with_route (route_text verb) verb router.old) }
{
    let Ok(text) = route_text(alloc, verb) else {
        return Err(InsertError::OutOfMemory);
    };
    put(router, text.as_str(), verb)
}

/// Puts in the routes of these verbs more.
fn put_all(alloc: Global, router: &mut Router<Verb>, verbs: &[Verb]) -> Result<(), InsertError>
    ensures { OnOk result (router.new ≡ with_verbs verbs.now router.old) }
{
    for verb in verbs {
        put_verb(alloc, router, *verb)?;
    }
    Ok(())
}

/// The router of all verbs. An error says that there was no memory: no two routes are at odds.
pub fn make_router(alloc: Global) -> Result<Router<Verb>, InsertError>
    ensures { IfOk result (λ router. router ≡ all_routes) }
{
    let mut router = Router::new(alloc);
    put_all(alloc, &mut router, &VERBS)?;
    Ok(router)
}

/// The verb of a path, if it has one.
fn verb_at(router: &Router<Verb>, path: &str) -> Option<Verb>
    ensures { result ≡ option_map (λ r. r.value) (first router.now path.now) }
{
    match router.at(path) {
        Ok(found) => Some(*found.value),
        Err(_) => None,
    }
}

/// The format in which a verb is told that is asked for in none.
fn format_of(verb: Verb) -> AnswerFormat
    ensures { result ≡ format_of verb }
{
    match verb.row().formats {
        Formats::Fixed => JSON,
        Formats::Explanation | Formats::List | Formats::Calendar => TEXT,
    }
}

/// The format that stands behind the path of a verb, if it is one of the verb's. Text never does.
fn behind(verb: Verb, text: &str) -> Option<AnswerFormat>
    ensures { result ≡ behind verb text.now }
{
    if text == "text" {
        return None;
    }
    verb.row().formats.by_name(text)
}

/// A target before its last slash, and behind it.
pub(crate) fn last_cut(target: &str) -> Option<(&str, &str)>
    ensures { option_map (λ cut. (cut.0.now, cut.1.now)) result ≡ rsplit_once 47 target.now }
{
    target.rsplit_once('/')
}

/// The route of a target whose last part is a format of the verb before it.
fn formatted(router: &Router<Verb>, target: &str) -> Option<Route>
    ensures { result ≡ formatted router.now target.now }
{
    let (path, last) = last_cut(target)?;
    let verb = verb_at(router, path)?;
    let format = behind(verb, last)?;
    Some(Route { verb, format })
}

/// The route of a target, if it has one: a whole target that is a path has that one, before any
/// last part is taken for a format.
pub fn look_up(router: &Router<Verb>, target: &str) -> Option<Route>
    ensures { result ≡ route_in router.now target.now }
{
    match verb_at(router, target) {
        Some(verb) => Some(Route {
            verb,
            format: format_of(verb),
        }),
        None => formatted(router, target),
    }
}
