//! The standard streams that are closed as the program starts. The next file or client that is opened would get the number of
//! such a one, and be written what is told to a person.

use std::fs::{self, OpenOptions};
use std::io;
use std::mem::forget;
use std::os::fd::AsFd;

/// What is opened in the place of a stream.
const NULL: &str = "/dev/null";

/// What the system answers of a number under which nothing is open.
const NOT_OPEN: i32 = 9;

/// Whether nothing is open under the number of the stream.
fn is_closed<S: AsFd>(stream: &S) -> bool {
    match stream.as_fd().try_clone_to_owned() {
        Ok(_) => false,
        Err(error) => error.raw_os_error() == Some(NOT_OPEN),
    }
}

/// Opens the null device in the place of each standard stream that is closed, and never closes it. What is opened gets the
/// lowest number that is free, so the streams are gone through in their order. Each is opened the other way round than it is
/// used, so that it fails as before: what can't be told isn't taken for told, and an input that isn't there not for its end.
pub fn keep_streams(rt: &HostRuntime) -> io::Result<()> {
    if is_closed(&rt.stdin()) {
        forget(OpenOptions::new().write(true).open(rt, NULL)?);
    }
    if is_closed(&rt.stdout()) {
        forget(fs::open(rt, NULL)?);
    }
    if is_closed(&rt.stderr()) {
        forget(fs::open(rt, NULL)?);
    }
    Ok(())
}
