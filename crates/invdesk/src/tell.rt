//! What a person is told, on the standard error and at a terminal.
use desk_cli::{DEVICE, MEMORY};
use desk_wire::number_in;
use report_core::told_line;
use std::env;
use std::fmt::Display;
use std::io::{IsTerminal, Stderr};

/// Tells a line on the standard error. Where there is no memory for it, or the standard error fails too, the status
/// alone tells.
pub fn tell_line<T: Display + Drop>(rt: &HostRuntime, what: T) {
    if let Ok(line) = told_line(rt.alloc(), &what) {
        let _ = eprintln!(rt; "invdesk: {line}");
    }
}

/// The terminal that is told how an import goes on: the standard error, where it is one.
pub fn terminal(rt: &HostRuntime) -> Option<Stderr> {
    let stderr = rt.stderr();
    stderr.is_terminal().then_some(stderr)
}

/// Where it is told why a line or a row isn't done.
#[derive(Clone, Copy, PartialEq, Eq)]
pub enum Explain {
    /// On the standard error, where that is a terminal.
    AtTerminal,
    /// On the standard error, whatever it is.
    Anyway,
}

impl Explain {
    /// By whether the words ask for it.
    pub fn asked(explain: bool) -> Self {
        if explain {
            Explain::Anyway
        } else {
            Explain::AtTerminal
        }
    }
}

/// Who is told why a line or a row isn't done: whoever reads the standard error, where that is asked for or it is a
/// terminal.
pub fn reasons(rt: &HostRuntime, explain: Explain) -> Option<Stderr> {
    let stderr = rt.stderr();
    (explain == Explain::Anyway || stderr.is_terminal()).then_some(stderr)
}

/// How many columns a terminal has by the environment: the kit has no call that asks the terminal.
pub fn told_columns(rt: &HostRuntime) -> Option<usize> {
    let Ok(text) = env::var(rt, "COLUMNS") else {
        return None;
    };
    match number_in(text.as_str()) {
        Some(columns) if 20 <= columns && columns <= 10_000 => Some(columns as usize),
        _ => None,
    }
}

/// Says why there was no run, or why it ended early.
pub fn tell_status<R: Eprint>(rt: &R, status: u8) {
    let told = match status {
        DEVICE => eprintln!(rt; "invdesk: store or device failed"),
        MEMORY => eprintln!(rt; "invdesk: no memory"),
        _ => Ok(()),
    };
    let _ = told;
}
