//! The proof that a service knows its token. The codes are those of Python's `hmac`.
use crate::play::{PAGE, answer_of, guarded, is_read, is_rejected, response, status_of, with_page};
use std::alloc::{AllocError, Global};
use std::test::Fail;

const TOKEN: &str = "0123456789abcdefghijklmnopqrstuvwxyz~!";

/// A token as long as a block of SHA-256, and one that is longer.
const BLOCK: &str = "kkkkkkkkkkkkkkkkkkkkkkkkkkkkkkkkkkkkkkkkkkkkkkkkkkkkkkkkkkkkkkkk";

const LONG: &str =
    "aaaaaaaaaaaaaaaaaaaaaaaaaaaaaaaaaaaaaaaaaaaaaaaaaaaaaaaaaaaaaaaaaaaaaaaaaaaaaaaaaaaaaaaaaaaaaaaaaaaaaaaaaaaaaaaaaaaaaaaaaaaaaaaa";

/// A nonce of 64 bytes, as long as one may be.
const NONCE: &str = "AAAAAAAAAAAAAAAAAAAAAAAAAAAAAAA-_09zzzzzzzzzzzzzzzzzzzzzzzzzzzzz";

/// What each response of a service with a page has besides.
const GUARDS: &str =
    "X-Content-Type-Options: nosniff\r\nCache-Control: no-store\r\nCross-Origin-Resource-Policy: same-origin\r\n";

/// Whether a service with this token proves so that it knows it.
fn proves(alloc: Global, token: &str, nonce: &str, code: &str) -> Result<bool, Fail> {
    let site = guarded(alloc, token, Some(PAGE))?;
    let request = format!(in alloc; "GET /prove/{nonce} HTTP/1.1\r\n\r\n")?;
    let media = "text/plain; charset=utf-8";
    let wanted = response(alloc, (200, "OK"), media, GUARDS, code)?;
    let wanted = (200, wanted.as_str().as_bytes());
    Ok(is_read(alloc, &site, 0, request.as_str(), wanted))
}

/// The port, a colon and the nonce, by the token; no token is shown.
#[test]
fn codes_are_told(rt: HostRuntime) -> Result<(), Fail> {
    let alloc = rt.alloc();
    for (token, nonce, code) in [
        (
            TOKEN,
            "abc",
            "afe1af1e66e0383aed430561637e17057e74ef0e2459addc65b271251a290967",
        ),
        (
            BLOCK,
            "0",
            "a0eb66211d656c6bbc7b0981fc9542f427fb23e36881de131d663b72af9c3bd0",
        ),
        (
            LONG,
            NONCE,
            "777251ef0c2f90f0d86afc959c31a26d32de7a8a7eed5ac08afbb84e3a5ac2a5",
        ),
    ] {
        assert!(rt; proves(alloc, token, nonce, code)?, "at {nonce}");
    }
    Ok(())
}

/// The status of what is asked of a service with the token and a page.
fn asked(alloc: Global, method: &str, target: &str, fields: &str) -> Result<u16, AllocError> {
    let site = guarded(alloc, TOKEN, Some(PAGE))?;
    let request = format!(in alloc; "{method} {target} HTTP/1.1\r\n{fields}\r\n")?;
    let (status, _) = status_of(alloc, &site, request.as_str());
    Ok(status)
}

/// 1 to 64 letters, digits, - and _ may be proved; nothing else is there.
#[test]
fn nonces(rt: HostRuntime) -> Result<(), Fail> {
    let alloc = rt.alloc();
    for (target, status) in [
        ("/prove/a", 200),
        ("/prove/Z-9_", 200),
        (
            "/prove/AAAAAAAAAAAAAAAAAAAAAAAAAAAAAAAAAAAAAAAAAAAAAAAAAAAAAAAAAAAAAAAAA",
            404,
        ),
        ("/prove/", 404),
        ("/prove", 404),
        ("/prove/a.b", 404),
        ("/prove/a%20b", 404),
        ("/prove/a/b", 404),
        ("/prove/a?b", 404),
        ("/Prove/a", 404),
    ] {
        assert!(rt; asked(alloc, "GET", target, "")? == status, "at {target}");
    }
    Ok(())
}

/// It is asked for by GET, and not by a page of another site.
#[test]
fn who_may_have_it_proved(rt: HostRuntime) -> Result<(), Fail> {
    let alloc = rt.alloc();
    for (method, fields, status) in [
        ("GET", "Authorization: Bearer wrong\r\n", 200),
        ("GET", "Host: 127.0.0.1:8080\r\n", 200),
        ("GET", "Host: localhost:8080\r\n", 421),
        ("GET", "Origin: null\r\n", 403),
        ("GET", "Sec-Fetch-Site: same-origin\r\n", 200),
        ("GET", "Sec-Fetch-Site: cross-site\r\n", 403),
        ("POST", "Content-Length: 0\r\n", 405),
        ("HEAD", "", 405),
    ] {
        assert!(rt;
            asked(alloc, method, "/prove/a", fields)? == status,
            "at {method} {fields}"
        );
    }
    Ok(())
}

/// It is there with a token and a page alone.
#[test]
fn nothing_is_proved_without_both(rt: HostRuntime) -> Result<(), Fail> {
    let alloc = rt.alloc();
    let request = "GET /prove/abc HTTP/1.1\r\n\r\n";
    let (status, _) = answer_of(alloc, &with_page(alloc)?, request);
    assert!(rt; status == 404);
    let (status, _) = answer_of(alloc, &guarded(alloc, TOKEN, None)?, request);
    assert!(rt; status == 404);
    assert!(rt; is_rejected(alloc, request, (404, "Not Found"), "")?);
    Ok(())
}
