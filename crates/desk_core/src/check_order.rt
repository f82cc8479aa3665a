//! The one order of checks.
ghost use Rattle.desk_core.specs.Machine.{ChecksAreInOrder};

/// The law that the refusals of each command are checked in the one order of checks.
pub fn checks_are_in_order()
    ensures { ChecksAreInOrder }
{}
