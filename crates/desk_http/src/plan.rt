//! What a head asks for, by the checks in their order.
ghost use Rattle.std.specs.Prelude.{◌≡◌, [], None, IfOk, length, map, All};
ghost use Rattle.std.specs.Result.{result_err};
ghost use Rattle.httparse.specs.Spans.{IsHeaderWithin, header_bytes};
ghost use Rattle.desk_http.specs.AccessRules.{access_fault, page_fault, sender_fault, TellNoOrigin};
ghost use Rattle.desk_http.specs.AccessRules.{AccessRules};
ghost use Rattle.desk_http.specs.Heads.{Class, HeadParts, WellFormed};
ghost use Rattle.desk_http.specs.Plans.{checked, known_tag, length_for, method_fault, open_plan_of};
ghost use Rattle.desk_http.specs.Plans.{plan, plan_of, planned_page, planned_proof, unless_get, unless_post};
ghost use Rattle.desk_http.specs.Plans.{AsksProperly, ShowsNoPage};
ghost use Rattle.desk_http.specs.Responses.{guards};
ghost use Rattle.desk_http.specs.Routes.{all_routes};
ghost use Rattle.desk_http.specs.Sites.{SiteRules, page_view};
ghost use Rattle.desk_http.specs.Spans.{class_of, LiesWithin};
ghost use Rattle.desk_http.specs.Targets.{resource, some_text};

use crate::access::Access;
use crate::body_length::read_body_length;
use crate::field::{FieldValue, find_field};
use crate::head::Head;
use crate::proof::find_nonce;
use crate::rejection::Rejection;
use crate::route::{Route, find_page, find_target};
use crate::site::{Page, Site};
use crate::target::Target;
use http::Method;
use httparse::spans::HeaderSpan;
use matchit::Router;

/// What is to be done for a request that isn't rejected.
#[derive(Clone, Copy)]
pub enum Work<'b> {
    ShowPage(Page),
    /// It is proved to whoever said this that the token is known.
    Prove(&'b [u8]),
    /// The service does what a target names, with the tag that is known to whoever asks and a body of so many bytes.
    Ask(Target<'b>, Option<&'b [u8]>, usize),
}

fn check_get(method: &[u8]) -> Result<(), Rejection>
    ensures { result_err result ≡ unless_get method.now }
{
    if method == Method::GET.as_str().as_bytes() {
        Ok(())
    } else {
        Err(Rejection::OnlyGet)
    }
}

fn check_post(method: &[u8]) -> Result<(), Rejection>
    ensures { result_err result ≡ unless_post method.now }
{
    if method == Method::POST.as_str().as_bytes() {
        Ok(())
    } else {
        Err(Rejection::OnlyPost)
    }
}

/// Checks that a target has the method: what is run has POST alone, and what is read GET alone.
fn check_method(method: &[u8], target: &Target<'_>) -> Result<(), Rejection>
    ensures { result_err result ≡ method_fault method.now (resource target.now) }
{
    match target {
        Target::Run
        | Target::Import(_, _, _, _)
        | Target::Sheet(_, _, _)
        | Target::RunAll(_)
        | Target::Stop => check_post(method),
        Target::Report(_, _)
        | Target::Export(_)
        | Target::Books
        | Target::HistoryFrom(_)
        | Target::Dump
        | Target::Show(_, _, _) => check_get(method),
    }
}

/// How many bytes of body are read for a target.
fn length_for(head: &[u8], target: &Target<'_>, spans: &[HeaderSpan]) -> Result<usize, Rejection>
    requires { All (IsHeaderWithin (length head.now)) spans.now }
    ensures { result ≡ length_for (resource target.now) (map (header_bytes head.now) spans.now) }
{
    match target {
        Target::Run | Target::Import(_, _, _, _) | Target::Sheet(_, _, _) | Target::RunAll(_) =>
            read_body_length(head, spans),
        Target::Report(_, _)
        | Target::Export(_)
        | Target::Books
        | Target::HistoryFrom(_)
        | Target::Show(_, _, _)
        | Target::Stop
        | Target::Dump => Ok(0),
    }
}

/// The length of the body that is read for a target, or the first check that fails.
fn check(
    access: &Access,
    head: &[u8],
    method: &[u8],
    target: &Target<'_>,
    spans: &[HeaderSpan],
) -> Result<usize, Rejection>
    requires { All (IsHeaderWithin (length head.now)) spans.now }
    ensures { let fields = map (header_bytes head.now) spans.now in
        result ≡ checked (access_fault access.now fields) method.now (resource target.now) fields }
{
    check_method(method, target)?;
    access.check(head, spans)?;
    length_for(head, target, spans)
}

/// The page, or the first check that fails.
fn plan_page<'b>(
    access: &Access,
    head: &'b [u8],
    method: &[u8],
    page: Page,
    spans: &[HeaderSpan],
) -> Result<Work<'b>, Rejection>
    requires { All (IsHeaderWithin (length head.now)) spans.now }
    ensures value { plan result ≡ planned_page
        (page_fault access.now (map (header_bytes head.now) spans.now)) method.now
        (page_view page) }
    ensures proper { IfOk result AsksProperly }
{
    check_get(method)?;
    access.check_for_page(head, spans)?;
    Ok(Work::ShowPage(page))
}

/// The proof that the token is known, or the first check that fails.
fn plan_proof<'b>(
    access: &Access,
    head: &'b [u8],
    method: &[u8],
    nonce: &'b [u8],
    spans: &[HeaderSpan],
) -> Result<Work<'b>, Rejection>
    requires { All (IsHeaderWithin (length head.now)) spans.now }
    ensures value { plan result ≡ planned_proof
        (sender_fault access.now (map (header_bytes head.now) spans.now)) method.now nonce.now }
    ensures proper { IfOk result AsksProperly }
{
    check_get(method)?;
    access.check_sender(head, spans)?;
    Ok(Work::Prove(nonce))
}

/// The tag of the books that is known to whoever asks.
fn find_known_tag<'b>(head: &'b [u8], spans: &[HeaderSpan]) -> Option<&'b [u8]>
    requires { All (IsHeaderWithin (length head.now)) spans.now }
    ensures { some_text result ≡ known_tag (map (header_bytes head.now) spans.now) }
{
    match find_field(head, spans, b"if-none-match") {
        FieldValue::One(text) => Some(text),
        FieldValue::Missing | FieldValue::Several => None,
    }
}

/// What a head asks for, or the first check that fails.
pub fn make_plan<'b>(
    site: &Site,
    router: &Router<Route>,
    bytes: &'b [u8],
    head: Head,
    spans: &[HeaderSpan],
) -> Result<Work<'b>, Rejection>
    requires router { router.now ≡ all_routes }
    requires within { LiesWithin bytes.now spans.now head }
    ensures value { plan result ≡ plan_of site.now (class_of bytes.now spans.now head) }
    ensures proper { IfOk result AsksProperly }
{
    let found = match head {
        Head::TooManyFields => return Err(Rejection::HeadTooLarge),
        Head::Malformed => return Err(Rejection::BadRequest),
        Head::WellFormed(found) => found,
    };
    let target = found.path.of(bytes);
    let method = found.method.of(bytes);
    let spans = &spans[..found.headers];
    if let Some(page) = find_page(&site.page, target) {
        return plan_page(&site.access, bytes, method, page, spans);
    }
    if let Some(nonce) = find_nonce(&site.access, &site.page, target) {
        return plan_proof(&site.access, bytes, method, nonce, spans);
    }
    match find_target(router, &site.page, target) {
        None => Err(Rejection::NotFound),
        Some(target) => match check(&site.access, bytes, method, &target, spans) {
            Ok(len) => Ok(Work::Ask(target, find_known_tag(bytes, spans), len)),
            Err(rejection) => Err(rejection),
        },
    }
}

/// Requests that tell nothing of where they come from are planned as by a service that anyone may ask, where no token is
/// asked for: with no `Host`, no `Origin` and no `Sec-Fetch-Site`, nothing of who may ask is looked at.
pub fn untold_requests_pass()
    ensures { (site : SiteRules) (parts : HeadParts) → site.access.token ≡ None
        → TellNoOrigin parts.fields
        → plan_of site (WellFormed parts) ≡ open_plan_of site.page (WellFormed parts) }
{}

/// Where there is no page, none is shown, nor is anything asked for that is there with a page alone: what is asked for is a
/// line, an import of receipts or counts that isn't read loosely, or a report. Nor has a response a field more.
pub fn nothing_is_read_without_a_page()
    ensures planned { (access : AccessRules) (class : Class)
        → ShowsNoPage (plan_of (record { access = access; page = None }) class) }
    ensures guarded { guards None ≡ [] }
{}
