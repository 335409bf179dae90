//! The table of the paths that are served, and what a path asks for.
ghost use Rattle.std.specs.Prelude.{◌≡◌, [], map, true, false, IfOk, IfErr, MatchOption};
ghost use Rattle.std.specs.List.{list_all};
ghost use Rattle.std.specs.Char.{is_ascii};
ghost use Rattle.matchit.specs.Seek.{first};
ghost use Rattle.matchit.specs.Params.{AllText};
ghost use Rattle.tile_routes.specs.Parts.{IfTile, tile_parts};
ghost use Rattle.tile_routes.specs.Paths.{served_rows, with_routes, AllFit, asked_on, part_named, asked_at, asked_by};
ghost use Rattle.tile_routes.specs.Targets.{asked_of, IsInRange, parts_of, row_path};

use crate::parts::requested_tile;
use crate::target::{
    Action, Target, View, box_target, edits_target, feature_target, from_target,
    numbered_feature_target, numbered_target, page_target,
};
use matchit::{InsertError, Params, Router};
use std::alloc::{AllocError, Global};
use std::marker::Model;

/// What a row of `SERVED` is for.
#[derive(Clone, Copy)]
pub(crate) enum Route {
    Tile,
    Feature,
    FeatureFrom,
    FeaturePage,
    FeatureBox,
    EditsFrom,
    EditsAt,
    FeatureAt,
    View(View),
    Action(Action),
}

/// The paths that are served.
#[derive(Drop)]
pub struct Routes {
    router: Router<Route>,
}

impl Model for Routes {
    ghost use Rattle.std.specs.Prelude.{◌≡◌, ⊤};

    ghost Value = { ⊤ };

    ghost use Rattle.tile_routes.specs.Paths.{served_rows};

    ghost view = { λ routes. tt };

    ghost invariant = { λ routes. routes.router ≡ served_rows };
}

/// Each path that is served, those under `/admin/` only if the server serves them, with its route.
const SERVED: &[(&str, Route)] = &[
    ("/map/{z}/{x}/{y}", Route::Tile),
    ("/map/metadata", Route::View(View::Metadata)),
    ("/map.pmtiles", Route::View(View::Archive)),
    ("/features/{id}", Route::Feature),
    ("/edits", Route::Action(Action::Edits)),
    ("/publish", Route::Action(Action::Publish)),
    ("/publish/begin", Route::Action(Action::PublishBegin)),
    ("/publish/step", Route::Action(Action::PublishStep)),
    ("/publish/cancel", Route::Action(Action::PublishCancel)),
    ("/admin/status", Route::View(View::Status)),
    ("/admin/features/from/{id}", Route::FeatureFrom),
    ("/admin/features/page/{id}", Route::FeaturePage),
    ("/admin/features/box/{box}/from/{id}", Route::FeatureBox),
    ("/admin/edits", Route::Action(Action::CheckedEdits)),
    ("/admin/edits/from/{number}", Route::EditsFrom),
    ("/admin/edits/at/{number}", Route::EditsAt),
    ("/admin/features/{id}/at/{number}", Route::FeatureAt),
];

/// The router of a table of paths that don't conflict.
fn router_of(alloc: Global, rows: &[(&str, Route)]) -> Result<Router<Route>, InsertError>
    requires { AllFit (map row_path rows.now) [] }
    ensures rows { IfOk result (λ router. router ≡ with_routes (map row_path rows.now) []) }
    ensures memory { IfErr result (λ fault. fault ≡ InsertError.OutOfMemory) }
{
    let mut router = Router::new(alloc);
    for (path, route) in rows {
        router.insert(path, *route)?;
    }
    Ok(router)
}

/// The router of the paths that are served. It fails only for want of memory: no two of the paths conflict.
#[tactic(auto, unfolding(crate::specs::Paths::served_paths, crate::specs::Paths::served_rows))]
fn served(alloc: Global) -> Result<Router<Route>, InsertError>
    ensures rows { IfOk result (λ router. router ≡ served_rows) }
    ensures memory { IfErr result (λ fault. fault ≡ InsertError.OutOfMemory) }
{
    router_of(alloc, SERVED)
}

/// Whether each byte is ASCII.
fn are_ascii(bytes: &[u8]) -> bool
    ensures { result ≡ list_all is_ascii bytes.now }
{
    bytes.iter().all(|byte| byte.is_ascii())
}

/// The bytes as a text, where all are ASCII.
fn ascii_text(bytes: &[u8]) -> Option<&str>
    ensures { MatchOption result (list_all is_ascii bytes.now ≡ false) (λ text. (text.now ≡ bytes.now) × (list_all is_ascii bytes.now ≡ true)) }
{
    if !are_ascii(bytes) {
        return None;
    }
    // SAFETY: ASCII is UTF-8.
    Some(unsafe { str::from_utf8_unchecked(bytes) })
}

/// The part of a path with this name, or no bytes if there is none.
fn part<'p>(params: &Params<'_, 'p>, name: &str) -> &'p [u8]
    requires { AllText (parts_of params.now) }
    ensures { result.now ≡ part_named name.now (parts_of params.now) }
{
    match params.get(name) {
        Some(text) => text.as_bytes(),
        None => b"",
    }
}

/// What a path on this route asks for, whose parts these are.
fn route_target(route: Route, params: &Params<'_, '_>, path: &[u8]) -> Target
    requires text { AllText (parts_of params.now) }
    requires tile { IfTile route (parts_of params.now ≡ tile_parts path.now) }
    ensures asked { asked_of result ≡ asked_on route (parts_of params.now) }
    ensures range { IsInRange result }
{
    match route {
        Route::Tile => requested_tile(path),
        Route::Feature => feature_target(part(params, "id")),
        Route::FeatureFrom => from_target(part(params, "id")),
        Route::FeaturePage => page_target(part(params, "id")),
        Route::FeatureBox => box_target(part(params, "box"), part(params, "id")),
        Route::EditsFrom => edits_target(part(params, "number")),
        Route::EditsAt => numbered_target(part(params, "number")),
        Route::FeatureAt => numbered_feature_target(part(params, "id"), part(params, "number")),
        Route::View(view) => Target::View(view),
        Route::Action(action) => Target::Action(action),
    }
}

impl Routes {
    /// The router, which is made once and then asked for each request. It fails only for want of memory.
    pub fn new(alloc: Global) -> Result<Routes, AllocError> {
        match served(alloc) {
            Ok(router) => Ok(Routes { router }),
            Err(InsertError::OutOfMemory) => Err(AllocError),
            Err(_) => unreachable!(),
        }
    }

    /// What an ASCII path asks for.
    fn found(&self, path: &str) -> Target
        requires { list_all is_ascii path.now ≡ true }
        ensures asked { asked_of result ≡ asked_at (first served_rows path.now) path.now }
        ensures range { IsInRange result }
    {
        match self.router.at(path) {
            Ok(found) => route_target(*found.value, &found.params, path.as_bytes()),
            Err(_) => Target::Nothing,
        }
    }

    /// What a path, without its query, asks for.
    pub fn target(&self, path: &[u8]) -> Target
        ensures asked { asked_of result ≡ asked_by path.now }
        ensures range { IsInRange result }
    {
        match ascii_text(path) {
            Some(path) => self.found(path),
            None => Target::Nothing,
        }
    }
}
