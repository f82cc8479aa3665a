//! The statuses that the program ends with.
use desk_cli::{FileFault, status_of, status_of_fault};
use desk_core::RunEnd;

#[test]
fn gives_the_status(rt: HostRuntime) {
    for (end, want) in [
        (RunEnd::Done(true), 0),
        (RunEnd::Done(false), 1),
        (RunEnd::ReadFailed, 3),
        (RunEnd::WriteFailed, 3),
        (RunEnd::Store, 3),
        (RunEnd::Memory, 4),
    ] {
        assert_eq!(rt; status_of(end), want, "at {end:?}");
    }
}

#[test]
fn gives_the_status_of_a_fault(rt: HostRuntime) {
    assert_eq!(rt; status_of_fault(&FileFault::Memory), 4);
    assert_eq!(rt; status_of_fault(&FileFault::Missing), 3);
}
