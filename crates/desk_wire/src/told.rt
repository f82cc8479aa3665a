//! What is told of a line, a file or a report.

/// What is answered to a line, and whether nothing was refused or faulty.
#[derive(Drop)]
pub struct Told {
    pub text: String,
    pub fine: bool,
}
