//! The status of an item.
ghost use Rattle.std.specs.Prelude.{◌≡◌, ◌↔◌, IsTrue};
ghost use Rattle.word_core.specs.Status.{all_statuses, is_allocatable, status_code};
ghost use Rattle.word_core.specs.Status.{status_name, status_of, statuses_told};

use crate::worded::Worded;

/// In what state an item is. An item in one of `Okay`, `Attention`, `Damaged` and `Returned` is
/// allocatable.
#[derive(Clone, Copy, Debug, PartialEq, Eq)]
pub enum Status {
    Okay,
    Attention,
    Damaged,
    Destroyed,
    Rejected,
    Lost,
    Quarantined,
    Returned,
}

impl Status {
    /// Whether items of this status may be allocated.
    pub fn is_allocatable(self) -> bool
        ensures { result ≡ is_allocatable self }
    {
        matches!(
            self,
            Status::Okay | Status::Attention | Status::Damaged | Status::Returned
        )
    }

    /// The status's number.
    pub fn code(self) -> u64
        ensures { result ≡ status_code self }
    {
        match self {
            Status::Okay => 0,
            Status::Attention => 1,
            Status::Damaged => 2,
            Status::Destroyed => 3,
            Status::Rejected => 4,
            Status::Lost => 5,
            Status::Quarantined => 6,
            Status::Returned => 7,
        }
    }

    /// The status of that number, none where there is none.
    pub fn from_code(code: u64) -> Option<Status>
        ensures { result ≡ status_of code }
    {
        match code {
            0 => Some(Status::Okay),
            1 => Some(Status::Attention),
            2 => Some(Status::Damaged),
            3 => Some(Status::Destroyed),
            4 => Some(Status::Rejected),
            5 => Some(Status::Lost),
            6 => Some(Status::Quarantined),
            7 => Some(Status::Returned),
            _ => None,
        }
    }

    /// Whether the statuses are the same.
    pub fn equals(self, other: Status) -> bool
        ensures { IsTrue result ↔ (self ≡ other) }
    {
        self == other
    }
}

impl Worded for Status {
    ghost word_of = { status_name };

    ghost all_of = { all_statuses };

    ghost told = { statuses_told };

    fn all() -> &'static [Status] {
        &[
            Status::Okay,
            Status::Attention,
            Status::Damaged,
            Status::Destroyed,
            Status::Rejected,
            Status::Lost,
            Status::Quarantined,
            Status::Returned,
        ]
    }

    fn word(self) -> &'static str {
        match self {
            Status::Okay => "OK",
            Status::Attention => "Attention",
            Status::Damaged => "Damaged",
            Status::Destroyed => "Destroyed",
            Status::Rejected => "Rejected",
            Status::Lost => "Lost",
            Status::Quarantined => "Quarantined",
            Status::Returned => "Returned",
        }
    }
}
