//! How lines are run, and what is asked of a file that is imported.

use desk_wire::{Document, FileReading, ImportKind};
use part_core::Day;

/// What may be left to lines that are run.
#[derive(Clone, Copy, Debug)]
pub struct LineOptions {
    /// A line may say what a row is called in the place of its number.
    pub names: bool,
    /// A request that has no key gets one before it is done, so that its answer is kept.
    pub journal: bool,
}

impl LineOptions {
    /// Lines that say numbers, and of which those requests alone are kept that have a key.
    pub const PLAIN: LineOptions = LineOptions {
        names: false,
        journal: false,
    };

    /// The same, but that rows may be called by their names.
    pub const NAMED: LineOptions = LineOptions {
        names: true,
        journal: false,
    };
}

/// How lines are run.
#[derive(Clone, Copy, Debug)]
pub struct RunOptions {
    /// How each is taken.
    pub lines: LineOptions,
    /// The first that is refused or faulty is the last.
    pub stop: bool,
}

impl RunOptions {
    /// Plain lines, all of them.
    pub const PLAIN: RunOptions = RunOptions {
        lines: LineOptions::PLAIN,
        stop: false,
    };

    /// All lines, in which rows may be called by their names.
    pub const NAMED: RunOptions = RunOptions {
        lines: LineOptions::NAMED,
        stop: false,
    };
}

/// An import that is asked for.
#[derive(Clone, Copy)]
pub struct ImportOf<'a> {
    /// What the rows of the file are.
    pub kind: ImportKind,
    /// The document that it is.
    pub document: &'a Document,
    /// The day of its rows.
    pub day: Day,
    /// How it is read.
    pub reading: FileReading,
    /// A field may say what a row is called in the place of its number.
    pub names: bool,
}
