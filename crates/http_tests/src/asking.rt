//! The other side: a service that is asked, over bytes in memory, and what isn't its answer.
use crate::counting::{Counting, DUMP};
use crate::devices::{Sink, Source};
use crate::play::{PAGE, guarded, open, with_page};
use desk_http::{
    Access, Answer, LineWords, ListWords, Question, Site, Token, Unheard, ask_service, serve_one,
};
use std::alloc::{AllocError, Global};
use std::test::Fail;

const TOKEN: &str = "0123456789abcdef0123456789abcdef";

const PLAIN: ListWords = ListWords {
    csv: false,
    only_open: false,
    low: None,
};

const RUN: LineWords = LineWords {
    stop: false,
    check: false,
};

/// A client that knows the service at port 8080, and a token, if there is one.
fn client(alloc: Global, token: &str) -> Result<Access, AllocError> {
    let mut bytes = Vec::new(alloc);
    bytes.extend_from_slice(token.as_bytes())?;
    Access::new(alloc, 8080, Token::new(bytes))
}

/// What a client hears of these bytes, which come `step` at a time.
fn heard(alloc: Global, step: usize, bytes: &[u8]) -> Result<Answer, Unheard> {
    let access = client(alloc, "")?;
    let mut source = Source::new(bytes, step);
    let mut sink = Sink::new(alloc, 4096);
    ask_service(alloc, &mut source, &mut sink, &access, Question::Dump, b"")
}

/// The request of a client that asks so.
fn request_of(
    alloc: Global,
    access: &Access,
    question: Question<'_>,
    body: &[u8],
) -> Result<Vec<u8>, AllocError> {
    let mut nothing = Source::new(b"", 1);
    let mut sink = Sink::new(alloc, 7);
    let _ = ask_service(alloc, &mut nothing, &mut sink, access, question, body);
    Ok(sink.bytes)
}

/// What a service of this site, where 5 bytes are counted, writes to a client that asks so.
fn response_of(
    alloc: Global,
    site: &Site,
    access: &Access,
    question: Question<'_>,
    body: &[u8],
) -> Result<Vec<u8>, AllocError> {
    let request = request_of(alloc, access, question, body)?;
    let mut source = Source::new(&request, 4096);
    let mut sink = Sink::new(alloc, 4096);
    let mut service = Counting::new(5);
    let _ = serve_one(alloc, &mut source, &mut sink, &mut service, site);
    Ok(sink.bytes)
}

/// Whether a service with a page answers the question so.
fn is_answered(
    alloc: Global,
    question: Question<'_>,
    body: &[u8],
    (status, text): (u16, &str),
) -> Result<bool, AllocError> {
    let (site, access) = (with_page(alloc)?, client(alloc, "")?);
    let response = response_of(alloc, &site, &access, question, body)?;
    for step in [1, 4096] {
        match heard(alloc, step, &response) {
            Ok(answer) => {
                if answer.status != status || answer.body.as_slice() != text.as_bytes() {
                    return Ok(false);
                }
            }
            Err(_) => return Ok(false),
        }
    }
    Ok(true)
}

fn is_unheard(heard: Result<Answer, Unheard>, why: Unheard) -> bool {
    match heard {
        Ok(_) => false,
        Err(told) => told == why,
    }
}

#[test]
fn asks_each_question(rt: HostRuntime) -> Result<(), Fail> {
    let alloc = rt.alloc();
    let stop = LineWords { stop: true, ..RUN };
    let check = LineWords { check: true, ..RUN };
    let both = LineWords {
        stop: true,
        check: true,
    };
    assert!(rt; is_answered(alloc, Question::Lines(RUN), b"abc", (200, "8\n"))?);
    assert!(rt; is_answered(alloc, Question::Lines(stop), b"abc", (200, "0\n"))?);
    assert!(rt; is_answered(alloc, Question::Lines(check), b"faulty", (400, "5\n"))?);
    assert!(rt; is_answered(alloc, Question::Lines(both), b"faulty", (400, "5\n"))?);
    let store = (500, "{\"http\":500}\n");
    assert!(rt; is_answered(alloc, Question::Lines(RUN), b"store", store)?);
    let receipts = Question::Import(false, "receipts", "D7", "2030-03-01");
    assert!(rt; is_answered(alloc, receipts, b"faulty", (400, "5\n"))?);
    let parts = Question::Import(false, "add_part", "D7", "2030-03-01");
    assert!(rt; is_answered(alloc, parts, b"a,b\n", (200, "D7\n"))?);
    let none = Question::Import(false, "add_nothing", "D7", "2030-03-01");
    assert!(rt; is_answered(alloc, none, b"a,b\n", (404, "{\"http\":404}\n"))?);
    assert!(rt; is_answered(alloc, Question::Report("stock", 7), b"", (200, "7\n"))?);
    assert!(rt; is_answered(alloc, Question::Report("ledger", 0), b"", (409, "0\n"))?);
    assert!(rt; is_answered(alloc, Question::Dump, b"", (200, DUMP))?);
    assert!(rt; is_answered(alloc, Question::Stop, b"", (200, "{\"stopped\":true}\n"))?);
    Ok(())
}

#[test]
fn asks_for_lists(rt: HostRuntime) -> Result<(), Fail> {
    let alloc = rt.alloc();
    let low = ListWords {
        low: Some(20),
        ..PLAIN
    };
    let csv = ListWords {
        csv: true,
        low: Some(12),
        ..PLAIN
    };
    let only_open = ListWords {
        only_open: true,
        ..PLAIN
    };
    assert!(rt;
        is_answered(
            alloc,
            Question::Show("stock", None, PLAIN),
            b"",
            (200, "5\n")
        )?
    );
    assert!(rt;
        is_answered(
            alloc,
            Question::Show("stock", None, low),
            b"",
            (200, "20\n")
        )?
    );
    assert!(rt;
        is_answered(
            alloc,
            Question::Show("stock", None, csv),
            b"",
            (200, "12\n")
        )?
    );
    assert!(rt;
        is_answered(
            alloc,
            Question::Show("orders", None, only_open),
            b"",
            (409, "5\n")
        )?
    );
    for word in [
        "Screw",
        "a/b c?&#%2F",
        "B\u{fc}cher",
        "[\"Store\",\"A\"]",
        "%",
    ] {
        let wanted = format!(in alloc; "{word}\n")?;
        let question = Question::Show("part", Some(word), PLAIN);
        assert!(rt;
            is_answered(alloc, question, b"", (200, wanted.as_str()))?,
            "at {word}"
        );
    }
    Ok(())
}

#[test]
fn shows_the_token(rt: HostRuntime) -> Result<(), Fail> {
    let alloc = rt.alloc();
    let site = guarded(alloc, TOKEN, Some(PAGE))?;
    for (token, status) in [(TOKEN, 200), ("", 401)] {
        let access = client(alloc, token)?;
        let response = response_of(alloc, &site, &access, Question::Report("stock", 7), b"")?;
        match heard(alloc, 4096, &response) {
            Ok(answer) => assert!(rt; answer.status == status),
            Err(_) => assert!(rt; false),
        }
    }
    Ok(())
}

/// The bytes of a request, each as it goes.
#[test]
fn writes_requests(rt: HostRuntime) -> Result<(), Fail> {
    let alloc = rt.alloc();
    let access = client(alloc, TOKEN)?;
    let stop = LineWords { stop: true, ..RUN };
    let request = request_of(alloc, &access, Question::Lines(stop), b"{}\n")?;
    let wanted = format!(in alloc;
        "POST /lines?stop HTTP/1.1\r\nHost: 127.0.0.1:8080\r\nAuthorization: Bearer {TOKEN}\r\nContent-Length: 3\r\nConnection: close\r\n\r\n{{}}\n"
    )?;
    assert!(rt; request.as_slice() == wanted.as_str().as_bytes());
    let access = client(alloc, "")?;
    let loose = Question::Import(true, "counts", "S1", "2030-03-01");
    let request = request_of(alloc, &access, loose, b"")?;
    let wanted =
        "POST /import/counts/S1/2030-03-01?loose HTTP/1.1\r\nHost: 127.0.0.1:8080\r\nContent-Length: 0\r\nConnection: close\r\n\r\n";
    assert!(rt; request.as_slice() == wanted.as_bytes());
    let request = request_of(alloc, &access, Question::Export("items"), b"")?;
    let wanted = "GET /export/items HTTP/1.1\r\nHost: 127.0.0.1:8080\r\nConnection: close\r\n\r\n";
    assert!(rt; request.as_slice() == wanted.as_bytes());
    Ok(())
}

#[test]
fn knows_a_cut_answer(rt: HostRuntime) -> Result<(), Fail> {
    let alloc = rt.alloc();
    let (site, access) = (with_page(alloc)?, client(alloc, "")?);
    let response = response_of(alloc, &site, &access, Question::Report("stock", 77), b"")?;
    for n in 0..response.len() {
        let heard = heard(alloc, 4096, &response[..n]);
        assert!(rt; is_unheard(heard, Unheard::Cut), "at {n}");
    }
    assert!(rt; heard(alloc, 4096, &response).is_ok());
    Ok(())
}

/// What other programs may answer, a service without a page among them.
const FOREIGN: [&str; 9] = [
    "HTTP/1.1 200 OK\r\nContent-Length: 2\r\nConnection: close\r\n\r\n5\n",
    "HTTP/1.1 200 OK\r\nX-Content-Type-Options: nosniff\r\nCache-Control: no-store\r\nContent-Length: 2\r\n\r\n5\n",
    "HTTP/1.1 200 OK\r\nX-Content-Type-Options: nosniff\r\nCache-Control: no-cache\r\nCross-Origin-Resource-Policy: same-origin\r\n\r\n5\n",
    "HTTP/1.1 200 OK\r\nX-Content-Type-Options: nosniff\r\nCache-Control: no-store\r\nCross-Origin-Resource-Policy: same-origin\r\nContent-Length: 2\r\nContent-Length: 2\r\n\r\n5\n",
    "HTTP/1.1 200 OK\r\nX-Content-Type-Options: nosniff\r\nCache-Control: no-store\r\nCross-Origin-Resource-Policy: same-origin\r\nContent-Length: two\r\n\r\n5\n",
    "SSH-2.0-OpenSSH_9.2\r\n",
    "220 mail.example.org ESMTP\r\n\r\n",
    "\u{15}\u{3}\u{1}",
    "{\"entries\":0}\n",
];

#[test]
fn knows_other_programs(rt: HostRuntime) -> Result<(), Fail> {
    let alloc = rt.alloc();
    for answer in FOREIGN {
        let heard = heard(alloc, 4096, answer.as_bytes());
        assert!(rt; is_unheard(heard, Unheard::Foreign), "at {answer}");
    }
    let access = client(alloc, "")?;
    let response = response_of(
        alloc,
        &open(alloc)?,
        &access,
        Question::Report("stock", 7),
        b"",
    )?;
    assert!(rt; is_unheard(heard(alloc, 4096, &response), Unheard::Foreign));
    Ok(())
}

#[test]
fn tells_that_a_connection_failed(rt: HostRuntime) -> Result<(), Fail> {
    let alloc = rt.alloc();
    let access = client(alloc, "")?;
    let mut nothing = Source::new(b"", 1);
    let mut sink = Sink::new(alloc, 7);
    sink.fails = 3;
    let heard = ask_service(alloc, &mut nothing, &mut sink, &access, Question::Stop, b"");
    assert!(rt; is_unheard(heard, Unheard::Failed));
    let mut failing = Source::new(b"HTTP/1.1 200 OK\r\n\r\n", 5);
    failing.fails = 2;
    let mut sink = Sink::new(alloc, 4096);
    let heard = ask_service(alloc, &mut failing, &mut sink, &access, Question::Stop, b"");
    assert!(rt; is_unheard(heard, Unheard::Failed));
    Ok(())
}
