//! A worked example: lines, and what answers them.
use std::fs;
use std::test::Fail;

/// The two texts of a worked example.
#[derive(Drop)]
pub struct Example {
    /// The lines that a clerk sends to books with nothing in them.
    pub lines: String,
    /// What answers them.
    pub answers: String,
}

impl Example {
    /// The example of that name, from the files `NAME.in` and `NAME.out`.
    pub fn read(rt: &HostRuntime, name: &str) -> Result<Self, Fail> {
        let alloc = rt.alloc();
        let lines = format!(in alloc; "{name}.in")?;
        let answers = format!(in alloc; "{name}.out")?;
        Ok(Example {
            lines: fs::read_to_string(rt, lines.as_str())?,
            answers: fs::read_to_string(rt, answers.as_str())?,
        })
    }
}
