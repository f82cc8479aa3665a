//! The routes.
ghost use Rattle.std.specs.Prelude.{◌≡◌, ◌≤◌, IfOk, IfSome, length, drop};
ghost use Rattle.std.specs.Str.{IsUtf8};
ghost use Rattle.desk_http.specs.Routes.{all_routes, route_of};
ghost use Rattle.desk_http.specs.Sites.{some_page};
ghost use Rattle.desk_http.specs.Targets.{first_of, page_at, page_resource_of, resource_at, resource_of};
ghost use Rattle.desk_http.specs.Targets.{some_resource, IsProper};

use crate::site::Page;
use crate::target::{Target, read_import, read_page_target, read_report};
use matchit::{InsertError, Router};
use std::alloc::Global;

/// Which route a path has.
#[derive(Clone, Copy)]
pub enum Route {
    ImportRoute,
    ReportRoute,
    RunRoute,
}

/// A router of the three routes that are there without a page.
pub fn make_router(alloc: Global) -> Result<Router<Route>, InsertError>
    ensures { IfOk result (λ r. r ≡ all_routes) }
{
    let mut router = Router::new(alloc);
    router.insert("/run", Route::RunRoute)?;
    router.insert("/import/{kind}/{document}/{day}", Route::ImportRoute)?;
    router.insert("/report/{name}/{number}", Route::ReportRoute)?;
    Ok(router)
}

fn find_route(router: &Router<Route>, path: &str) -> Option<Route>
    requires { router.now ≡ all_routes }
    ensures { result ≡ route_of path.now }
{
    match router.at(path) {
        Ok(found) => Some(*found.value),
        Err(_) => None,
    }
}

/// What stands behind the first part of a target, as `/import/`.
#[tactic(auto, using(crate::proofs::Numbers::from_index))]
fn behind_first(target: &[u8]) -> &[u8]
    requires { 8 ≤ length target.now }
    ensures { result.now ≡ drop 8 target.now }
{
    &target[8..]
}

/// What a whole target names that is there without a page.
fn find_routed<'b>(router: &Router<Route>, target: &'b [u8]) -> Option<Target<'b>>
    requires router { router.now ≡ all_routes }
    requires text { IsUtf8 target.now }
    ensures value { some_resource result ≡ resource_of target.now }
    ensures proper { IfSome result IsProper }
{
    match str::from_utf8(target) {
        Err(_) => None,
        Ok(path) => match find_route(router, path) {
            None => None,
            Some(Route::RunRoute) => Some(Target::Run),
            Some(Route::ImportRoute) => read_import(false, behind_first(target)),
            Some(Route::ReportRoute) => read_report(behind_first(target)),
        },
    }
}

/// What a whole target names of a service with a page: what it names of one without, or what is there with a page alone.
fn find_with_page<'b>(router: &Router<Route>, target: &'b [u8]) -> Option<Target<'b>>
    requires router { router.now ≡ all_routes }
    requires text { IsUtf8 target.now }
    ensures value { some_resource result
        ≡ first_of (resource_of target.now) (page_resource_of target.now) }
    ensures proper { IfSome result IsProper }
{
    match find_routed(router, target) {
        Some(routed) => Some(routed),
        None => read_page_target(target),
    }
}

/// What a whole target names of a service with this page, or with none.
pub fn find_target<'b>(
    router: &Router<Route>,
    page: &Option<Page>,
    target: &'b [u8],
) -> Option<Target<'b>>
    requires router { router.now ≡ all_routes }
    requires text { IsUtf8 target.now }
    ensures value { some_resource result ≡ resource_at (some_page page.now) target.now }
    ensures proper { IfSome result IsProper }
{
    match page {
        Some(_) => find_with_page(router, target),
        None => find_routed(router, target),
    }
}

/// The page, where the target names it and there is one.
pub fn find_page(page: &Option<Page>, target: &[u8]) -> Option<Page>
    ensures { some_page result ≡ page_at (some_page page.now) target.now }
{
    match page {
        Some(page) if target == b"/".as_slice() => Some(*page),
        _ => None,
    }
}
