//! Requests, and what answers them.
use crate::play::{error, is_answered, is_answered_by, is_rejected, response};
use std::test::Fail;

const REQUEST: &str = "Bad Request";

const LARGE: &str = "Request Header Fields Too Large";

const POST: &str = "Allow: POST\r\n";

const GET: &str = "Allow: GET\r\n";

/// Methods that a target hasn't: each with the line of Allow.
const OTHER_METHODS: [(&str, &str); 8] = [
    ("GET /run HTTP/1.1\r\n\r\n", POST),
    ("post /run HTTP/1.1\r\n\r\n", POST),
    ("HEAD /run HTTP/1.1\r\n\r\n", POST),
    ("GET /import/counts/D/2030-01-02 HTTP/1.1\r\n\r\n", POST),
    ("POST /report/ledger/1 HTTP/1.1\r\n\r\n", GET),
    ("HEAD /report/ledger/1 HTTP/1.1\r\n\r\n", GET),
    ("get /report/ledger/1 HTTP/1.1\r\n\r\n", GET),
    (
        "GET /run HTTP/1.1\r\nTransfer-Encoding: chunked\r\n\r\n",
        POST,
    ),
];

#[test]
fn other_methods(rt: HostRuntime) -> Result<(), Fail> {
    let alloc = rt.alloc();
    for (request, allow) in OTHER_METHODS {
        let fine = is_rejected(alloc, request, (405, "Method Not Allowed"), allow)?;
        assert!(rt; fine, "at {request}");
    }
    Ok(())
}

/// Targets that begin as one of a report does, or nearly.
const NO_REPORTS: [&str; 10] = [
    "GET /report/price/1 HTTP/1.1\r\n\r\n",
    "POST /report/price/1 HTTP/1.1\r\n\r\n",
    "GET /report/Ledger/1 HTTP/1.1\r\n\r\n",
    "GET /report/ledger/ HTTP/1.1\r\n\r\n",
    "GET /report/ledger HTTP/1.1\r\n\r\n",
    "GET /report/ledger/1/ HTTP/1.1\r\n\r\n",
    "GET /report/ledger/-1 HTTP/1.1\r\n\r\n",
    "GET /report/ledger/%32 HTTP/1.1\r\n\r\n",
    "GET /report/ledger/10000000000000000000 HTTP/1.1\r\n\r\n",
    "GET /import/receipts/D1/2030-02-30 HTTP/1.1\r\n\r\n",
];

/// Targets of no import, and others.
const NO_TARGETS: [&str; 13] = [
    "POST /import/receipt/D1/2030-02-03 HTTP/1.1\r\n\r\n",
    "POST /import/receipts//2030-02-03 HTTP/1.1\r\n\r\n",
    "POST /import/receipts/D+1/2030-02-03 HTTP/1.1\r\n\r\n",
    "POST /import/receipts/D1/2030-2-03 HTTP/1.1\r\n\r\n",
    "POST /import/receipts/D1/1999-12-31 HTTP/1.1\r\n\r\n",
    "POST /import/receipts/123456789012345678901234567890123/2030-02-03 HTTP/1.1\r\n\r\n",
    "POST /run?x=1 HTTP/1.1\r\n\r\n",
    "POST /run/ HTTP/1.1\r\n\r\n",
    "POST //run HTTP/1.1\r\n\r\n",
    "POST /RUN HTTP/1.1\r\n\r\n",
    "POST http://127.0.0.1/run HTTP/1.1\r\n\r\n",
    "GET / HTTP/1.1\r\n\r\n",
    "POST /x HTTP/1.1\r\nTransfer-Encoding: chunked\r\n\r\n",
];

#[test]
fn no_reports(rt: HostRuntime) -> Result<(), Fail> {
    let alloc = rt.alloc();
    for request in NO_REPORTS {
        let fine = is_rejected(alloc, request, (404, "Not Found"), "")?;
        assert!(rt; fine, "at {request}");
    }
    Ok(())
}

#[test]
fn no_targets(rt: HostRuntime) -> Result<(), Fail> {
    let alloc = rt.alloc();
    for request in NO_TARGETS {
        let fine = is_rejected(alloc, request, (404, "Not Found"), "")?;
        assert!(rt; fine, "at {request}");
    }
    Ok(())
}

/// Heads that aren't well formed, and bodies of no one length.
const BAD_REQUESTS: [&str; 13] = [
    "POST /run HTTP/1.2\r\n\r\n",
    "POST /run HTTP/2.0\r\n\r\n",
    "POST /run\r\n\r\n",
    "\rPOST /run HTTP/1.1\r\n\r\n",
    "POST /run HTTP/1.1\r\nno field\r\n\r\n",
    "POST /run HTTP/1.1\r\nTransfer-Encoding: chunked\r\n\r\n",
    "POST /run HTTP/1.1\r\nContent-Length: 1\r\ntransfer-encoding:\r\n\r\na",
    "POST /run HTTP/1.1\r\nContent-Length: 1\r\nContent-Length: 1\r\n\r\na",
    "POST /run HTTP/1.1\r\nContent-Length: 1\r\ncontent-length: x\r\n\r\na",
    "POST /run HTTP/1.1\r\nContent-Length:\r\n\r\n",
    "POST /run HTTP/1.1\r\nContent-Length: +1\r\n\r\na",
    "POST /run HTTP/1.1\r\nContent-Length: 1, 1\r\n\r\na",
    "POST /run HTTP/1.1\r\nContent-Length: 00000000000000000001\r\n\r\na",
];

#[test]
fn bad_requests(rt: HostRuntime) -> Result<(), Fail> {
    let alloc = rt.alloc();
    for request in BAD_REQUESTS {
        let fine = is_rejected(alloc, request, (400, "Bad Request"), "")?;
        assert!(rt; fine, "at {request}");
    }
    Ok(())
}

#[test]
fn lengths_of_bodies(rt: HostRuntime) -> Result<(), Fail> {
    let alloc = rt.alloc();
    for (request, status, name) in [
        ("POST /run HTTP/1.1\r\n\r\n", 411, "Length Required"),
        ("POST /run HTTP/1.1\n\n", 411, "Length Required"),
        (
            "POST /run HTTP/1.1\r\nContent-Length: 1048577\r\n\r\n",
            413,
            "Payload Too Large",
        ),
        (
            "POST /run HTTP/1.1\r\nContent-Length: 9999999999999999999\r\n\r\n",
            413,
            "Payload Too Large",
        ),
    ] {
        let fine = is_rejected(alloc, request, (status, name), "")?;
        assert!(rt; fine, "at {request}");
    }
    Ok(())
}

const JSON: &str = "application/json";

const PLAIN: &str = "text/plain; charset=utf-8";

/// Requests that the service does: status, its name, the kind of the body, the body, and how much is counted.
const DONE: [(&str, u16, &str, &str, &str, u64); 18] = [
    (
        "POST /run HTTP/1.1\r\nContent-Length: 3\r\n\r\nabc",
        200,
        "OK",
        JSON,
        "3\n",
        3,
    ),
    (
        "POST /run HTTP/1.1\r\nContent-Length: 4\r\n\r\nabc\n",
        200,
        "OK",
        JSON,
        "4\n",
        4,
    ),
    (
        "POST /run HTTP/1.1\r\ncontent-LENGTH: \t0003 \r\n\r\nabc",
        200,
        "OK",
        JSON,
        "3\n",
        3,
    ),
    (
        "POST /run HTTP/1.0\nContent-Length: 3\n\nabc",
        200,
        "OK",
        JSON,
        "3\n",
        3,
    ),
    (
        "\r\n\nPOST /run HTTP/1.1\r\nContent-Length: 3\n\r\nabc",
        200,
        "OK",
        JSON,
        "3\n",
        3,
    ),
    (
        "POST /run HTTP/1.1\r\nContent-Length: 3\r\n\r\nabcdef",
        200,
        "OK",
        JSON,
        "3\n",
        3,
    ),
    (
        "POST /run HTTP/1.1\r\nContent-Length: 0\r\n\r\n",
        409,
        "Conflict",
        JSON,
        "0\n",
        0,
    ),
    (
        "POST /run HTTP/1.1\r\nContent-Length: 6\r\n\r\nfaulty",
        400,
        REQUEST,
        JSON,
        "0\n",
        0,
    ),
    (
        "POST /import/receipts/D-1/2030-02-28 HTTP/1.1\r\nContent-Length: 2\r\n\r\nab",
        200,
        "OK",
        PLAIN,
        "D-1\n",
        2,
    ),
    (
        "POST /import/counts/a_Z.9/2099-12-31 HTTP/1.1\r\nContent-Length: 0\r\n\r\n",
        200,
        "OK",
        PLAIN,
        "a_Z.9\n",
        0,
    ),
    (
        "POST /import/counts/12345678901234567890123456789012/2000-01-01 HTTP/1.1\r\nContent-Length: 0\r\n\r\n",
        200,
        "OK",
        PLAIN,
        "12345678901234567890123456789012\n",
        0,
    ),
    (
        "POST /import/counts/D/2030-02-28 HTTP/1.1\r\nContent-Length: 6\r\n\r\nfaulty",
        400,
        REQUEST,
        JSON,
        "0\n",
        0,
    ),
    (
        "GET /report/ledger/1 HTTP/1.1\r\n\r\n",
        200,
        "OK",
        PLAIN,
        "1\n",
        0,
    ),
    (
        "GET /report/where_used/007 HTTP/1.0\n\n",
        200,
        "OK",
        PLAIN,
        "7\n",
        0,
    ),
    (
        "GET /report/shortage/9999999999999999999 HTTP/1.1\r\n\r\n",
        200,
        "OK",
        PLAIN,
        "9999999999999999999\n",
        0,
    ),
    (
        "GET /report/stock/9 HTTP/1.1\r\n\r\n",
        200,
        "OK",
        PLAIN,
        "",
        0,
    ),
    (
        "GET /report/history/0 HTTP/1.1\r\n\r\n",
        409,
        "Conflict",
        JSON,
        "0\n",
        0,
    ),
    (
        "GET /report/content/1 HTTP/1.1\r\nContent-Length: x\r\nTransfer-Encoding: y\r\n\r\n",
        200,
        "OK",
        PLAIN,
        "1\n",
        0,
    ),
];

#[test]
fn does_requests(rt: HostRuntime) -> Result<(), Fail> {
    let alloc = rt.alloc();
    for (request, status, name, media, body, counted) in DONE {
        let wanted = response(alloc, (status, name), media, "", body)?;
        let bytes = wanted.as_str().as_bytes();
        let fine = is_answered(alloc, request.as_bytes(), (status, bytes), counted)?;
        assert!(rt; fine, "at {request}");
    }
    Ok(())
}

/// Whether a client that sends its line with this head, and then its body, is told in between that it may.
const EXPECTING: [(&str, bool); 7] = [
    ("POST /run HTTP/1.1\r\nExpect: 100-continue\r\n", true),
    ("\nPOST /run HTTP/1.1\r\neXPECT:\t100-Continue \n", true),
    ("POST /run HTTP/1.0\r\nExpect: 100-continue\r\n", false),
    (
        "POST /run HTTP/1.1\r\nExpect: 100-continue-please\r\n",
        false,
    ),
    ("POST /run HTTP/1.1\r\nExpect:\r\n", false),
    (
        "POST /run HTTP/1.1\r\nExpect: 100-continue\r\nExpect: 100-continue\r\n",
        false,
    ),
    ("POST /run HTTP/1.1\r\nX-Expect: 100-continue\r\n", false),
];

/// Where the body comes with the head nothing is told but the answer.
#[test]
fn invites_bodies(rt: HostRuntime) -> Result<(), Fail> {
    let alloc = rt.alloc();
    let answer = response(alloc, (200, "OK"), JSON, "", "3\n")?;
    let answer = answer.as_str();
    let invited = format!(in alloc; "HTTP/1.1 100 Continue\r\n\r\n{answer}")?;
    for (head, waits) in EXPECTING {
        let request = format!(in alloc; "{head}Content-Length: 3\r\n\r\nabc")?;
        let request = request.as_str().as_bytes();
        let wanted = if waits { invited.as_str() } else { answer };
        let at_once = is_answered_by(alloc, 4096, request, (200, answer.as_bytes()), 3)?;
        let late = is_answered_by(alloc, 1, request, (200, wanted.as_bytes()), 3)?;
        assert!(rt; at_once && late, "at {head}");
    }
    Ok(())
}

/// Where nothing is to be read, nothing is waited for.
#[test]
fn invites_no_others(rt: HostRuntime) -> Result<(), Fail> {
    let alloc = rt.alloc();
    for (request, status, name, further) in [
        (
            "POST /x HTTP/1.1\r\nContent-Length: 3\r\n",
            404,
            "Not Found",
            "",
        ),
        (
            "GET /run HTTP/1.1\r\nContent-Length: 3\r\n",
            405,
            "Method Not Allowed",
            POST,
        ),
        (
            "POST /run HTTP/1.1\r\nOrigin: null\r\nContent-Length: 3\r\n",
            403,
            "Forbidden",
            "",
        ),
        ("POST /run HTTP/1.1\r\n", 411, "Length Required", ""),
        (
            "POST /run HTTP/1.1\r\nContent-Length: 1048577\r\n",
            413,
            "Payload Too Large",
            "",
        ),
    ] {
        let request = format!(in alloc; "{request}Expect: 100-continue\r\n\r\n")?;
        let fine = is_rejected(alloc, request.as_str(), (status, name), further)?;
        assert!(rt; fine, "at {request}");
    }
    let empty = "POST /run HTTP/1.1\r\nContent-Length: 0\r\nExpect: 100-continue\r\n\r\n";
    let refused = response(alloc, (409, "Conflict"), JSON, "", "0\n")?;
    assert!(rt;
        is_answered(
            alloc,
            empty.as_bytes(),
            (409, refused.as_str().as_bytes()),
            0
        )?
    );
    let report =
        "GET /report/ledger/1 HTTP/1.1\r\nExpect: 100-continue\r\nContent-Length: 3\r\n\r\n";
    let told = response(alloc, (200, "OK"), PLAIN, "", "1\n")?;
    assert!(rt; is_answered(alloc, report.as_bytes(), (200, told.as_str().as_bytes()), 0)?);
    Ok(())
}

/// What the service says of itself is answered by its status alone.
#[test]
fn tells_failures(rt: HostRuntime) -> Result<(), Fail> {
    let alloc = rt.alloc();
    for (request, status, name) in [
        (
            "POST /run HTTP/1.1\r\nContent-Length: 5\r\n\r\nstore",
            500,
            "Internal Server Error",
        ),
        (
            "POST /run HTTP/1.1\r\nContent-Length: 6\r\n\r\nmemory",
            503,
            "Service Unavailable",
        ),
    ] {
        let wanted = error(alloc, (status, name), "")?;
        let fine = is_answered(
            alloc,
            request.as_bytes(),
            (status, wanted.as_str().as_bytes()),
            0,
        )?;
        assert!(rt; fine, "at {request}");
    }
    Ok(())
}

/// A head of 8,192 bytes is read, and one that is longer, or has more than 64 fields, isn't.
#[test]
fn bounds_heads(rt: HostRuntime) -> Result<(), Fail> {
    let alloc = rt.alloc();
    let large = error(alloc, (431, LARGE), "")?;
    let found = response(alloc, (200, "OK"), PLAIN, "", "1\n")?;
    for (fields, filler, fits) in [
        (64, 10, true),
        (65, 10, false),
        (1, 8154, true),
        (1, 8155, false),
    ] {
        let mut request = String::from_str(alloc, "GET /report/ledger/1 HTTP/1.1\r\n")?;
        for _ in 0..fields {
            request.push_str("a: ")?;
            for _ in 0..filler {
                request.push_str("b")?;
            }
            request.push_str("\r\n")?;
        }
        request.push_str("\r\n")?;
        let (status, wanted) = if fits { (200, &found) } else { (431, &large) };
        let wanted = (status, wanted.as_str().as_bytes());
        let fine = is_answered_by(alloc, 4096, request.as_str().as_bytes(), wanted, 0)?;
        assert!(rt; fine, "at {fields} fields");
    }
    Ok(())
}
