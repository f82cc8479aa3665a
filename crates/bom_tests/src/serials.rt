//! Lists of serial numbers, and what is wrong with others.
use SerialFault::{BadChar, Empty, Falling, TooLong, TooMany};
use part_core::{Serial, SerialFault, read_serials};

// How many serial numbers there are, the first and the last.
fn outline(read: &Result<Vec<Serial>, SerialFault>) -> Result<(usize, &str, &str), SerialFault> {
    match read {
        Ok(serials) => {
            let first = serials.first().map_or("", |serial| serial.as_str());
            let last = serials.last().map_or("", |serial| serial.as_str());
            Ok((serials.len(), first, last))
        }
        Err(fault) => Err(*fault),
    }
}

#[test]
fn reads_elements_in_turn(rt: HostRuntime) {
    for (text, want) in [
        ("A-1", Ok((1, "A-1", "A-1"))),
        ("a.b_c/d-9,7", Ok((2, "a.b_c/d-9", "7"))),
        ("3-5,A-1", Ok((4, "3", "A-1"))),
        ("0-9", Ok((10, "0", "9"))),
        ("98-101", Ok((4, "98", "101"))),
        ("1-1000", Ok((1000, "1", "1000"))),
        ("01-2", Ok((1, "01-2", "01-2"))),
        ("1-02", Ok((1, "1-02", "1-02"))),
        ("1-2-3", Ok((1, "1-2-3", "1-2-3"))),
        ("-", Ok((1, "-", "-"))),
        ("1-", Ok((1, "1-", "1-"))),
        ("-1", Ok((1, "-1", "-1"))),
        (
            "1000000000000000000-1",
            Ok((1, "1000000000000000000-1", "1000000000000000000-1")),
        ),
        (
            "999999999999999998-999999999999999999",
            Ok((2, "999999999999999998", "999999999999999999")),
        ),
        (
            "123456789012345678901234",
            Ok((1, "123456789012345678901234", "123456789012345678901234")),
        ),
        ("A,A", Ok((2, "A", "A"))),
        ("", Err(Empty)),
        ("A,", Err(Empty)),
        (",a b", Err(Empty)),
        ("a b", Err(BadChar)),
        ("é", Err(BadChar)),
        ("1-2 ", Err(BadChar)),
        ("a bcdefghijklmnopqrstuvwx", Err(BadChar)),
        ("1234567890123456789012345", Err(TooLong)),
        ("5-5", Err(Falling)),
        ("9-7,a b", Err(Falling)),
        ("1-1001", Err(TooMany)),
        ("0-1000", Err(TooMany)),
        ("1-1000,x", Err(TooMany)),
        ("1-1000,9-7", Err(Falling)),
    ] {
        let read = read_serials(rt.alloc(), text);
        assert_eq!(rt; outline(&read), want, "at {text}");
    }
}
