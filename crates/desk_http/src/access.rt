//! Who may ask. A web page that is open on the machine can send requests to the loopback, too, and its browser tells
//! where they come from: such requests are refused. Programs tell nothing of it, and need only show the token, where one
//! is asked for.
ghost use Rattle.std.specs.Prelude.{◌≡◌, ◌∷◌, All, IfOk, length, map, decimal};
ghost use Rattle.std.specs.Result.{result_err};
ghost use Rattle.std.specs.String.{string_bytes};
ghost use Rattle.httparse.specs.Spans.{IsHeaderWithin, header_bytes};
ghost use Rattle.desk_http.specs.Fields.{said_in};
ghost use Rattle.desk_http.specs.AccessRules.{is_host, is_own_name, is_own_origin, is_own_site, may_say, shows};
ghost use Rattle.desk_http.specs.AccessRules.{access_fault, page_fault, sender_fault};
ghost use Rattle.desk_http.specs.AccessRules.{is_port_part, port_part};
ghost use Rattle.desk_http.specs.Proofs.{proof_of};
ghost use Rattle.desk_http.specs.Targets.{some_text};

use crate::field::{FieldValue, find_field};
use crate::proof::proof_text;
use crate::rejection::Rejection;
use crate::token::Token;
use httparse::spans::HeaderSpan;
use std::alloc::{AllocError, Global};
use std::marker::Model;

/// What is asked of whoever asks. A clause sees the port and the token.
#[derive(Drop)]
pub struct Access {
    port: u16,
    /// The port as it stands behind a host, as in `localhost:8080`.
    port_suffix: String,
    token: Option<Token>,
}

impl Model for Access {
    ghost use Rattle.std.specs.Prelude.{◌≡◌};
    ghost use Rattle.std.specs.String.{string_bytes};
    ghost use Rattle.desk_http.specs.AccessRules.{AccessRules, port_part};

    ghost Value = { AccessRules };

    ghost view = { λ a. record { port = a.port; token = a.token } };

    ghost invariant = { λ a. string_bytes a.port_suffix ≡ port_part a.port };
}

fn port_text(alloc: Global, port: u16) -> Result<String, AllocError>
    ensures { IfOk result (λ text. string_bytes text ≡ port_part port) }
{
    format!(in alloc; ":{port}")
}

/// Whether a page that its browser says this of may ask: one of the service itself, or none, as where the owner typed an
/// address.
fn is_own_site(text: &[u8]) -> bool
    ensures { result ≡ is_own_site text.now }
{
    text == b"same-origin".as_slice() || text == b"none".as_slice()
}

fn may_be_site(site: FieldValue<'_>) -> bool
    ensures { result ≡ may_say is_own_site (said_in site.entry) }
{
    match site {
        FieldValue::Missing => true,
        FieldValue::One(text) => is_own_site(text),
        FieldValue::Several => false,
    }
}

impl Access {
    /// Asks requests to be those of a service at this port of the loopback, and to show the token, if there is one.
    pub fn new(alloc: Global, port: u16, token: Option<Token>) -> Result<Self, AllocError>
        ensures { IfOk result (λ access. access ≡ record { port = port; token = token }) }
    {
        Ok(Access {
            port,
            port_suffix: port_text(alloc, port)?,
            token,
        })
    }

    /// The port as it stands behind a host.
    pub fn port_part(&self) -> &str
        ensures { result.now ≡ port_part self.now.port }
    {
        self.port_suffix.as_str()
    }

    /// The token that is to be shown, if one is.
    pub fn token_text(&self) -> Option<&[u8]>
        ensures { some_text result ≡ self.now.token }
    {
        match &self.token {
            Some(token) => Some(token.text()),
            None => None,
        }
    }

    /// What proves to whoever said this that the token is known; nothing without a token.
    pub fn proof_of(&self, alloc: Global, nonce: &[u8]) -> Result<String, AllocError>
        ensures { IfOk result (λ text. string_bytes text ≡ proof_of self.now nonce.now) }
    {
        match &self.token {
            Some(token) => proof_text(alloc, self.port, token.text(), nonce),
            None => Ok(String::new(alloc)),
        }
    }

    /// Whether the text is the port as it stands behind a host, which may be left out where it is HTTP's own.
    fn is_port(&self, text: &[u8]) -> bool
        ensures { result ≡ is_port_part self.now.port text.now }
    {
        text == self.port_suffix.as_str().as_bytes() || self.port == 80 && text.is_empty()
    }

    /// Whether the text is this host with the port.
    fn is_host(&self, host: &[u8], text: &[u8]) -> bool
        ensures { result ≡ is_host self.now.port host.now text.now }
    {
        match text.strip_prefix(host) {
            Some(port) => self.is_port(port),
            None => false,
        }
    }

    /// Whether the service is called so. One that asks for a token isn't called `localhost`, since that is a name of
    /// `[::1]`, too, where another program may listen at the same port.
    fn is_own_name(&self, text: &[u8]) -> bool
        ensures { result ≡ is_own_name self.now text.now }
    {
        self.is_host(b"127.0.0.1", text) || self.token.is_none() && self.is_host(b"localhost", text)
    }

    fn is_own_origin(&self, text: &[u8]) -> bool
        ensures { result ≡ is_own_origin self.now text.now }
    {
        match text.strip_prefix(b"http://".as_slice()) {
            Some(name) => self.is_own_name(name),
            None => false,
        }
    }

    fn may_be_host(&self, host: FieldValue<'_>) -> bool
        ensures { result ≡ may_say (is_own_name self.now) (said_in host.entry) }
    {
        match host {
            FieldValue::Missing => true,
            FieldValue::One(text) => self.is_own_name(text),
            FieldValue::Several => false,
        }
    }

    fn may_be_origin(&self, origin: FieldValue<'_>) -> bool
        ensures { result ≡ may_say (is_own_origin self.now) (said_in origin.entry) }
    {
        match origin {
            FieldValue::Missing => true,
            FieldValue::One(text) => self.is_own_origin(text),
            FieldValue::Several => false,
        }
    }

    fn is_shown_by(&self, authorization: FieldValue<'_>) -> bool
        ensures { result ≡ shows self.now.token (said_in authorization.entry) }
    {
        match &self.token {
            None => true,
            Some(token) => match authorization {
                FieldValue::One(text) => token.is_shown_by(text),
                FieldValue::Missing | FieldValue::Several => false,
            },
        }
    }

    /// Checks that a head with these fields may ask for a page, else tells which rule it breaks first.
    pub fn check_for_page(&self, head: &[u8], spans: &[HeaderSpan]) -> Result<(), Rejection>
        requires { All (IsHeaderWithin (length head.now)) spans.now }
        ensures { result_err result
            ≡ page_fault self.now (map (header_bytes head.now) spans.now) }
    {
        if !self.may_be_host(find_field(head, spans, b"host")) {
            return Err(Rejection::Misdirected);
        }
        if !self.may_be_origin(find_field(head, spans, b"origin")) {
            return Err(Rejection::Forbidden);
        }
        Ok(())
    }

    /// Checks that a head with these fields is sent for no other site, else tells which rule it breaks first.
    pub fn check_sender(&self, head: &[u8], spans: &[HeaderSpan]) -> Result<(), Rejection>
        requires { All (IsHeaderWithin (length head.now)) spans.now }
        ensures { result_err result
            ≡ sender_fault self.now (map (header_bytes head.now) spans.now) }
    {
        self.check_for_page(head, spans)?;
        if !may_be_site(find_field(head, spans, b"sec-fetch-site")) {
            return Err(Rejection::Forbidden);
        }
        Ok(())
    }

    /// Checks that a head with these fields may ask, else tells which rule it breaks first.
    pub fn check(&self, head: &[u8], spans: &[HeaderSpan]) -> Result<(), Rejection>
        requires { All (IsHeaderWithin (length head.now)) spans.now }
        ensures { result_err result
            ≡ access_fault self.now (map (header_bytes head.now) spans.now) }
    {
        self.check_sender(head, spans)?;
        if !self.is_shown_by(find_field(head, spans, b"authorization")) {
            return Err(Rejection::Unauthorized);
        }
        Ok(())
    }
}
