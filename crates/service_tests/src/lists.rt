//! Lists that are asked for by HTTP, of a shop and of a desk.
use crate::readings::{has_tag, service};
use desk_app::{Books, BooksService};
use desk_http::{LineWords, ListWords, NoReply, Outcome, Reply, Service};
use std::alloc::Global;
use std::test::Fail;
use store_play::outcomes::holds;

/// A location with one below it, two parts, screws in a batch, and a motor with a serial.
const MADE: &str = r#"{"day":"2030-01-02","do":"add_location","name":"Store"}
{"day":"2030-01-02","do":"add_location","name":"Shelf A","parent":1}
{"day":"2030-01-02","do":"add_part","flags":["component"],"name":"Screw M3"}
{"day":"2030-01-02","do":"add_part","flags":["component","trackable"],"name":"Motor"}
{"day":"2030-01-03","do":"found","batch":"L1","location":2,"part":3,"quantity":7}
{"day":"2030-01-03","do":"found","location":1,"part":4,"quantity":1,"serials":"M1"}
"#;

/// Nothing is said of a list.
const UNSAID: ListWords = ListWords {
    csv: false,
    only_open: false,
    low: None,
};

/// It is told as comma-separated values.
const CSV: ListWords = ListWords {
    csv: true,
    only_open: false,
    low: None,
};

/// Of what kind a reply is, in a word, and its body.
fn told(replied: Result<Reply, NoReply>) -> Result<(&'static str, Vec<u8>), Fail> {
    match replied {
        Ok(Reply { outcome, body }) => match outcome {
            Outcome::Reported => Ok(("columns", body)),
            Outcome::Exported => Ok(("csv", body)),
            Outcome::Refused => Ok(("refused", body)),
            Outcome::Unknown => Ok(("unknown", body)),
            _ => Err(Fail::from("another reply")),
        },
        Err(_) => Err(Fail::from("no reply")),
    }
}

/// The list is replied to so.
fn shows<B: Books>(
    alloc: Global,
    service: &BooksService<B>,
    list: (&str, Option<&str>),
    said: ListWords,
    reply: (&str, &str),
) -> Result<(), Fail>
    requires { B.are_kept service.now.books }
{
    let (name, word) = list;
    let (kind, body) = reply;
    let (is, text) = told(service.show(alloc, name, word, said))?;
    holds(is == kind, "another kind of reply")?;
    holds(text.as_slice() == body.as_bytes(), "another body")
}

/// A list of a row, whose word calls none, or several, or none can.
fn shows_none<B: Books>(
    alloc: Global,
    service: &BooksService<B>,
    list: (&str, &str),
    why: &str,
) -> Result<(), Fail>
    requires { B.are_kept service.now.books }
{
    let (name, word) = list;
    shows(alloc, service, (name, Some(word)), UNSAID, ("refused", why))?;
    shows(alloc, service, (name, Some(word)), CSV, ("refused", why))
}

const NO_NAME: &str = "{\"fault\":\"NoName\",\"field\":\"of\",\"line\":0}\n";

const NO_SUCH: &str = "{\"refused\":\"NoSuch\"}\n";

/// Lists of a row: by its number, by its name, and by the way to it.
fn shows_rows<B: Books>(alloc: Global, service: &BooksService<B>) -> Result<(), Fail>
    requires { B.are_kept service.now.books }
{
    let stock =
        "number,name,category,present,free,allocated,items,where\n3,Screw M3,,7,7,0,1,Store / Shelf A\n4,Motor,,1,1,0,1,Store\n";
    shows(alloc, service, ("stock", None), CSV, ("csv", stock))?;
    let low = ListWords {
        csv: true,
        only_open: false,
        low: Some(7),
    };
    let motor = "number,name,category,present,free,allocated,items,where\n4,Motor,,1,1,0,1,Store\n";
    shows(alloc, service, ("stock", None), low, ("csv", motor))?;
    let sheet =
        "number,item,part,way,batch,serial,expected,quantity\n1,5,Screw M3,Store / Shelf A,L1,,7,\n2,6,Motor,Store,,M1,1,\n";
    shows(alloc, service, ("count-sheet", None), CSV, ("csv", sheet))?;
    let shelf =
        "number,item,part,way,batch,serial,expected,quantity\n1,5,Screw M3,Store / Shelf A,L1,,7,\n";
    for word in ["2", "[\"Store\",\"Shelf A\"]"] {
        let list = ("count-sheet", Some(word));
        shows(alloc, service, list, CSV, ("csv", shelf))?;
    }
    let columns =
        "number  item  part      way              batch  serial  expected  quantity\n1       5     Screw M3  Store / Shelf A  L1             7         \n";
    let list = ("count-sheet", Some("2"));
    shows(alloc, service, list, UNSAID, ("columns", columns))
}

/// Names of lists that are none, and words that go with none.
fn knows_no_other<B: Books>(alloc: Global, service: &BooksService<B>) -> Result<(), Fail>
    requires { B.are_kept service.now.books }
{
    let open = ListWords {
        csv: false,
        only_open: true,
        low: None,
    };
    let low = ListWords {
        csv: false,
        only_open: false,
        low: Some(1),
    };
    for (list, said) in [
        (("nothing", None), UNSAID),
        (("stocks", None), UNSAID),
        (("stock", Some("Screw M3")), UNSAID),
        (("stock", None), open),
        (("at", None), UNSAID),
        (("part", None), UNSAID),
        (("part", Some("Motor")), low),
        (("part", Some("Motor")), open),
        (("orders", Some("7")), UNSAID),
        (("orders", None), low),
        (("shortages", None), open),
        (("count-sheet", None), open),
        (("trace-forward", None), UNSAID),
        (("trace-back", None), UNSAID),
        (("find", None), UNSAID),
    ] {
        shows(alloc, service, list, said, ("unknown", ""))?;
    }
    shows_none(alloc, service, ("part", "Nut"), NO_NAME)?;
    shows_none(alloc, service, ("at", "Shelf A"), NO_NAME)?;
    shows_none(
        alloc,
        service,
        ("count-sheet", "[\"Store\",\"x\"]"),
        NO_NAME,
    )?;
    shows_none(alloc, service, ("part", "99"), NO_SUCH)?;
    shows_none(alloc, service, ("item", "1"), NO_SUCH)?;
    shows_none(alloc, service, ("trace-forward", "99"), NO_SUCH)?;
    let wrong = "{\"fault\":\"WrongType\",\"line\":0}\n";
    shows_none(alloc, service, ("part", "[\"Motor\"]"), wrong)?;
    shows_none(alloc, service, ("at", "[\"Store\""), wrong)
}

/// The lines that make the rows, as they are answered.
const SAID: &str = r#"{"entries":0,"ids":[1]}
{"entries":0,"ids":[2]}
{"entries":0,"ids":[3]}
{"entries":0,"ids":[4]}
{"entries":1,"ids":[5]}
{"entries":1,"ids":[6]}
"#;

#[test]
fn lists_of_a_shop(rt: HostRuntime) -> Result<(), Fail> {
    let alloc = rt.alloc();
    let mut service = service(alloc, 0);
    let said = LineWords {
        stop: true,
        check: true,
    };
    match service.run_lines(alloc, said, MADE.as_bytes()) {
        Ok(reply) => holds(
            reply.body.as_slice() == SAID.as_bytes(),
            "other rows are made",
        )?,
        Err(_) => return Err(Fail::from("no rows are made")),
    }
    has_tag(&service, Some(1))?;
    shows_rows(alloc, &service)?;
    knows_no_other(alloc, &service)?;
    has_tag(&service, Some(1))
}
