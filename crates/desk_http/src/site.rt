//! What a service offers besides its operations.
use crate::access::Access;
use std::marker::Model;

/// A page of HTML, which never changes.
#[derive(Clone, Copy)]
pub struct Page {
    pub text: &'static str,
    /// What it may load and run, as the field `Content-Security-Policy` tells its browser.
    pub policy: &'static str,
}

/// Who may ask, and the page that is shown at `/`, if one is. What a page reads, lists, lines, files of commands, files that
/// are read loosely and the stop are there where there is one. A clause sees the rules and the page.
#[derive(Drop)]
pub struct Site {
    pub access: Access,
    pub page: Option<Page>,
}

impl Model for Site {
    ghost use Rattle.desk_http.specs.Sites.{SiteRules, some_page};

    ghost Value = { SiteRules };

    ghost view = { λ s. record { access = s.access; page = some_page s.page } };
}
