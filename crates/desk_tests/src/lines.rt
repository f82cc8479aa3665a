//! Lines, a repeat and reports among them, through slow and failing readers and writers.
use desk_app::{RunOptions, run_lines};
use desk_core::RunEnd;
use sqlite::Connection;
use std::alloc::Global;
use std::io::ErrorKind;
use std::test::Fail;
use store_play::devices::{Sink, Source};
use store_play::files::created;

const FIRST: &str = r#"{"day":"2030-01-02","do":"add_location","name":"A"}
{"day":"2030-01-02","do":"add_part","flags":["component","purchaseable"],"name":"Screw"}
{"day":"2030-01-02","do":"found","key":"k","location":1,"part":2,"quantity":100}
{"day":"2030-01-03","do":"remove","item":3,"quantity":30}
{"day":"2030-01-03","do":"found","key":"k","location":1,"part":2,"quantity":100}
{"of":3,"report":"history"}
{"of":2,"report":"ledger"}
"#;

const FIRST_OUT: &str = r#"{"entries":0,"ids":[1]}
{"entries":0,"ids":[2]}
{"entries":1,"ids":[3]}
{"entries":1,"ids":[]}
{"entries":1,"ids":[3]}
{"report":[["1","2030-01-02","found","100","at 1"],["2","2030-01-03","written","30","off removed"]]}
{"report":[["ledger","2","Screw"],["received","0"],["found","100"],["built","0"],["returned","0"],["consumed","0"],["shipped","0"],["written","30"],["present","70"],["sent","0"],["used","0"]]}
"#;

/// Runs the lines on a desk with nothing in it.
fn runs(alloc: Global, source: &mut Source, sink: &mut Sink) -> Result<RunEnd, Fail> {
    let conn = Connection::open_in_memory(alloc)?;
    let mut desk = created(alloc, conn)?;
    Ok(run_lines(alloc, source, sink, &mut desk, RunOptions::PLAIN))
}

#[test]
fn first_run(rt: HostRuntime) -> Result<(), Fail> {
    let alloc = rt.alloc();
    for (read, write) in [(4096, 4096), (1, 1), (7, 3)] {
        let mut source = Source::new(FIRST.as_bytes(), read);
        let mut sink = Sink::new(alloc, write);
        let end = runs(alloc, &mut source, &mut sink)?;
        assert!(rt; end == RunEnd::Done(true));
        assert!(rt; sink.bytes.as_slice() == FIRST_OUT.as_bytes());
    }
    Ok(())
}

/// The first requests are answered; the run ends at the read that fails.
#[test]
fn each_read_fails(rt: HostRuntime) -> Result<(), Fail> {
    let alloc = rt.alloc();
    let mut before = 0;
    for fails in 1..60u64 {
        let mut source = Source::new(FIRST.as_bytes(), 20);
        source.fails = fails;
        let mut sink = Sink::new(alloc, 4096);
        let end = runs(alloc, &mut source, &mut sink)?;
        assert!(rt; FIRST_OUT.as_bytes().starts_with(sink.bytes.as_slice()));
        assert!(rt; before <= sink.bytes.len());
        before = sink.bytes.len();
        if source.calls < fails {
            assert!(rt; end == RunEnd::Done(true));
            assert_eq!(rt; before, FIRST_OUT.len());
        } else {
            assert!(rt; end == RunEnd::ReadFailed);
        }
    }
    assert_eq!(rt; before, FIRST_OUT.len());
    Ok(())
}

#[test]
fn each_write_fails(rt: HostRuntime) -> Result<(), Fail> {
    let alloc = rt.alloc();
    let mut whole = false;
    for fails in 1..90u64 {
        let mut source = Source::new(FIRST.as_bytes(), 4096);
        let mut sink = Sink::new(alloc, 10);
        sink.fails = fails;
        let end = runs(alloc, &mut source, &mut sink)?;
        assert!(rt; FIRST_OUT.as_bytes().starts_with(sink.bytes.as_slice()));
        if sink.calls < fails {
            assert!(rt; end == RunEnd::Done(true));
            assert_eq!(rt; sink.bytes.len(), FIRST_OUT.len());
            whole = true;
        } else {
            assert!(rt; end == RunEnd::WriteFailed);
        }
    }
    assert!(rt; whole);
    Ok(())
}

/// A read that is interrupted is tried again; a writer that takes no byte has failed.
#[test]
fn interrupted_and_full(rt: HostRuntime) -> Result<(), Fail> {
    let alloc = rt.alloc();
    let mut source = Source::new(FIRST.as_bytes(), 30);
    source.fails = 3;
    source.failure = ErrorKind::Interrupted;
    let mut sink = Sink::new(alloc, 4096);
    let end = runs(alloc, &mut source, &mut sink)?;
    assert!(rt; end == RunEnd::Done(true));
    assert!(rt; sink.bytes.as_slice() == FIRST_OUT.as_bytes());
    let mut source = Source::new(FIRST.as_bytes(), 4096);
    let mut sink = Sink::new(alloc, 0);
    let end = runs(alloc, &mut source, &mut sink)?;
    assert!(rt; end == RunEnd::WriteFailed);
    Ok(())
}

/// Faults with the numbers of their lines; empty lines count, and the last line needs no LF.
#[test]
fn faults(rt: HostRuntime) -> Result<(), Fail> {
    let alloc = rt.alloc();
    let text = concat!(
        "{\"day\":\"2030-02-30\",\"do\":\"remove\",\"item\":1,\"quantity\":1}\n",
        "[]\n",
        "\n",
        "{\"do\":\"fly\"}\r\n",
        "\r\n",
        "{\"day\":\"2030-01-02\",\"do\":\"remove\",\"item\":1,\"quantity\":1,\"x\":1}\n",
        "{\"day\":\"2030-01-02\",\"do\":\"remove\",\"item\":-1,\"quantity\":1}\n",
        "{\"day\":\"2030-01-02\",\"do\":\"remove\",\"item\":0,\"quantity\":1}\n",
        " \n",
        "{\"of\":1,\"report\":\"ledger\"}"
    );
    let wanted = concat!(
        "{\"fault\":\"BadDay\",\"line\":1}\n",
        "{\"fault\":\"NotObject\",\"line\":2}\n",
        "{\"fault\":\"UnknownCommand\",\"line\":4}\n",
        "{\"fault\":\"UnknownField\",\"line\":6}\n",
        "{\"fault\":\"WrongType\",\"line\":7}\n",
        "{\"refused\":\"NoSuch\"}\n",
        "{\"fault\":\"NotJson\",\"line\":9}\n",
        "{\"refused\":\"NoSuch\"}\n"
    );
    let mut source = Source::new(text.as_bytes(), 11);
    let mut sink = Sink::new(alloc, 4096);
    let end = runs(alloc, &mut source, &mut sink)?;
    assert!(rt; end == RunEnd::Done(false));
    assert!(rt; sink.bytes.as_slice() == wanted.as_bytes());
    Ok(())
}

/// A line of 65,537 bytes is too long; one of 65,536 is read. The request after it is done.
#[test]
fn long_lines(rt: HostRuntime) -> Result<(), Fail> {
    let alloc = rt.alloc();
    let next = "\n{\"day\":\"2030-01-02\",\"do\":\"add_location\",\"name\":\"A\"}\n";
    let long = "{\"fault\":\"TooLong\",\"line\":1}\n{\"entries\":0,\"ids\":[1]}\n";
    let not_json = "{\"fault\":\"NotJson\",\"line\":1}\n{\"entries\":0,\"ids\":[1]}\n";
    for (length, wanted) in [(65_536, not_json), (65_537, long), (200_000, long)] {
        for step in [5_000, 1] {
            let mut text = vec![in alloc; b'x'; length]?;
            text.extend_from_slice(next.as_bytes())?;
            let mut source = Source::new(text.as_slice(), step);
            let mut sink = Sink::new(alloc, step);
            let end = runs(alloc, &mut source, &mut sink)?;
            assert!(rt; end == RunEnd::Done(false));
            assert!(rt; sink.bytes.as_slice() == wanted.as_bytes());
        }
    }
    Ok(())
}
