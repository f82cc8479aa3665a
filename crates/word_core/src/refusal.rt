//! Why a command is refused.
ghost use Rattle.std.specs.Prelude.{◌≡◌};
ghost use Rattle.word_core.specs.Refusal.{refusal_name};

use std::alloc::AllocError;
use thiserror::Error;

/// Why a command is refused. A refused command changes nothing. They stand in the order in which a command's conditions
/// are checked.
#[derive(Clone, Copy, Debug, PartialEq, Eq)]
pub enum Refusal {
    /// The key was used for another command.
    KeyTaken,
    /// A number named isn't a row of the kind that its field asks for.
    NoSuch,
    /// A quantity is out of its range, or a list is too long or empty.
    BadNumber,
    /// Another part has the name, or another category or location under the same parent.
    NameTaken,
    /// The part's flags don't allow it.
    WrongFlag,
    /// The part is retired.
    Retired,
    /// The order, the build or the item isn't in the state that this is for.
    WrongState,
    /// The order is of the other side, the allocation of another kind, or the items aren't alike.
    Mismatch,
    /// The build has an output that is neither complete nor gone.
    OpenOutputs,
    /// An open build goes by the bill, or the line fits the part already.
    InUse,
    /// A part would contain itself.
    Cycle,
    /// The item would lie in itself.
    SelfInside,
    /// The line or the parent item doesn't ask for such an item.
    Unfit,
    /// The item isn't at a location by itself, or what it lies in isn't.
    NotLoose,
    /// The item has a serial, and this is for items without.
    Serialised,
    /// The item or the output has no serial, and this is for those with one.
    NotSerialised,
    /// Another item lies in the item.
    HasContent,
    /// The item's status isn't allocatable.
    Unavailable,
    /// The item has less than that, or less is done or allocated than is needed.
    Short,
    /// Too much of the item is allocated.
    Allocated,
    /// The line or the build doesn't need as much any more.
    OverNeed,
    /// The number of serials isn't the quantity.
    SerialCount,
    /// A serial stands twice in the list, or an item of the family has it.
    SerialTaken,
    /// The chain of templates would be too long, or items would lie too deep in one another.
    TooDeep,
    /// The item would be larger than an item may be.
    TooLarge,
    /// There is no row number or no history entry left.
    Full,
}

impl Refusal {
    /// The refusal's name, as an answer line has it.
    pub fn name(self) -> &'static str
        ensures { result.now ≡ refusal_name self }
    {
        match self {
            Refusal::KeyTaken => "KeyTaken",
            Refusal::NoSuch => "NoSuch",
            Refusal::BadNumber => "BadNumber",
            Refusal::NameTaken => "NameTaken",
            Refusal::WrongFlag => "WrongFlag",
            Refusal::Retired => "Retired",
            Refusal::WrongState => "WrongState",
            Refusal::Mismatch => "Mismatch",
            Refusal::OpenOutputs => "OpenOutputs",
            Refusal::InUse => "InUse",
            Refusal::Cycle => "Cycle",
            Refusal::SelfInside => "SelfInside",
            Refusal::Unfit => "Unfit",
            Refusal::NotLoose => "NotLoose",
            Refusal::Serialised => "Serialised",
            Refusal::NotSerialised => "NotSerialised",
            Refusal::HasContent => "HasContent",
            Refusal::Unavailable => "Unavailable",
            Refusal::Short => "Short",
            Refusal::Allocated => "Allocated",
            Refusal::OverNeed => "OverNeed",
            Refusal::SerialCount => "SerialCount",
            Refusal::SerialTaken => "SerialTaken",
            Refusal::TooDeep => "TooDeep",
            Refusal::TooLarge => "TooLarge",
            Refusal::Full => "Full",
        }
    }
}

/// Why a call of a store didn't do what it was asked.
#[derive(Clone, Copy, Debug, Error)]
pub enum CoreFault {
    /// The command is refused. Nothing has changed.
    #[error("refused: {0:?}")]
    Refused(Refusal),
    /// A growth was refused, as memory ran out.
    #[error("no memory")]
    Memory,
}

impl From<AllocError> for CoreFault {
    ghost use Rattle.std.specs.Prelude.{◌≡◌};
    ghost use Rattle.word_core.specs.declared.refusal.CoreFault.TheVariants.{Memory};

    ghost from_gives = { λ _ fault. fault ≡ Memory };

    fn from(_: AllocError) -> Self {
        CoreFault::Memory
    }
}
